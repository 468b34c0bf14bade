// Calls beside the join: they read columns and answer numbers.
ghost use Rattle.std.specs.Prelude.{◌≡◌, length};
ghost use Rattle.clauses.specs.Slices.{was};
ghost use Rattle.with_capacities.specs.Answer.{lent_tables};
ghost use Rattle.frames.specs.Box.{box_of};
ghost use Rattle.lafkuno.specs.Beside.{sides, frame_of, four, frame_ground, frame_after, join_ground, join_after};

use frames::Frame;

// ---- the box around a trip's stops

fn is_four(s: &[f64]) -> bool
    ensures { result ≡ four (was s) }
{
    s.len() == 4
}

fn put_frame(room: &mut [f64], f: Frame)
    requires { length room.old ≡ 4 }
    ensures { room.new ≡ sides f }
{
    room[0] = f.south;
    room[1] = f.north;
    room[2] = f.west;
    room[3] = f.east;
}

fn get_frame(s: &[f64]) -> Frame
    requires { length s.now ≡ 4 }
    ensures { result ≡ frame_of (was s) }
{
    Frame {
        south: s[0],
        north: s[1],
        west: s[2],
        east: s[3],
    }
}

// The frame of the rows start .. end - 1 of a latitude and a longitude column, into the room: smallest and largest latitude, smallest and
// largest longitude. 14 last, where the room has not four floats; the room is left as it was where the answer is not 0.
#[unsafe(no_mangle)]
pub extern "C" fn lafkuno_frame(
    formats: &[u8],
    schema: &[u32],
    lengths: &[u64],
    places: &[u64],
    buffers: &[u64],
    body: &[u8],
    first_a: u32,
    n_a: u32,
    first_b: u32,
    n_b: u32,
    start: u64,
    end: u64,
    room: &mut [f64],
) -> u8
    ensures value { result ≡ frame_ground (box_of (was formats) (was schema) (lent_tables lengths places buffers body) first_a n_a first_b n_b start end) room.old }
    ensures room_after { room.new ≡ frame_after (box_of (was formats) (was schema) (lent_tables lengths places buffers body) first_a n_a first_b n_b start end) room.old }
{
    let answer = frames::box_of(
        formats, schema, lengths, places, buffers, body, first_a, n_a, first_b, n_b, start, end,
    );
    match answer {
        Ok(f) => {
            if room.len() != 4 {
                return 14;
            }
            put_frame(room, f);
            0
        }
        Err(g) => g,
    }
}

// The frame of two ranges from the frames of both, the left range's first, into the room; 14 where one of the three has not four floats.
#[unsafe(no_mangle)]
pub extern "C" fn lafkuno_join_frames(left: &[f64], right: &[f64], room: &mut [f64]) -> u8
    ensures value { result ≡ join_ground left.now right.now room.old }
    ensures room_after { room.new ≡ join_after left.now right.now room.old }
{
    if !is_four(left) {
        return 14;
    }
    if !is_four(right) {
        return 14;
    }
    if room.len() != 4 {
        return 14;
    }
    put_frame(room, frames::join_frames(get_frame(left), get_frame(right)));
    0
}
