// Offsets and positions into the room.
ghost use Rattle.std.specs.Prelude.{◌≡◌, [], ◌∷◌, ◌+◌, ◌*◌, ◌<◌, ◌≤◌, length};
ghost use Rattle.number.specs.Number.{splice};
ghost use Rattle.utils.specs.Offsets.{moved_offsets, repeated, counted_up};
ghost use Rattle.walk.specs.Log.{put, apply_if};

use number::Unsigned;
use walk::plan_words;

// The n offsets of w bytes after the first of those at `from`, moved to follow `last`, at `at`.
fn write_offsets(room: &mut [u8], at: usize, w: u64, body: &[u8], from: usize, n: usize, last: u64)
    requires n_in_bounds { (at + w * n ≤ length room.old) × (from + w * (n + 1) ≤ length body.now) }
    requires w_value { (w ≡ 4 → ⊥) → w ≡ 8 }
    ensures { room.new ≡ splice at (moved_offsets w body.now from last n) room.old }
{
    match w {
        4 => utils::extend_offsets(room, at, body, from, n, u32::truncate(last)),
        _ => utils::extend_offsets(room, at, body, from, n, last),
    }
}

// The n offsets of w bytes after the first of those at `from`, moved to follow `last`.
pub fn put_offsets(
    plan: &[u64],
    parts: &[u64],
    room: &mut [u8],
    write: bool,
    i: usize,
    b: usize,
    o: u64,
    w: u64,
    body: &[u8],
    from: usize,
    n: u64,
    last: u64,
)
    requires i_bound { (i < 32) × (b < 3) × (from + w * (n + 1) ≤ length body.now) }
    requires w_value { (w ≡ 4 → ⊥) → w ≡ 8 }
    ensures { room.new ≡ apply_if plan.now parts.now write (put i b o (moved_offsets w body.now from last n) ∷ []) room.old }
{
    if let Some(at) = plan_words::target(
        plan,
        parts,
        room.len(),
        write,
        i,
        b,
        o,
        plan_words::scale(n, w),
    ) {
        write_offsets(room, at, w, body, from, n as usize, last);
    }
}

// The offset v of w bytes, n times, at `at`.
fn write_repeated(room: &mut [u8], at: usize, w: u64, n: usize, v: u64)
    requires n_in_bounds { at + w * n ≤ length room.old }
    requires w_value { (w ≡ 4 → ⊥) → w ≡ 8 }
    ensures { room.new ≡ splice at (repeated w v n) room.old }
{
    match w {
        4 => utils::repeat_offset(room, at, n, u32::truncate(v)),
        _ => utils::repeat_offset(room, at, n, v),
    }
}

// The offset v of w bytes, n times.
pub fn put_repeated(
    plan: &[u64],
    parts: &[u64],
    room: &mut [u8],
    write: bool,
    i: usize,
    b: usize,
    o: u64,
    w: u64,
    n: u64,
    v: u64,
)
    requires i_bound { (i < 32) × (b < 3) }
    requires w_value { (w ≡ 4 → ⊥) → w ≡ 8 }
    ensures { room.new ≡ apply_if plan.now parts.now write (put i b o (repeated w v n) ∷ []) room.old }
{
    if let Some(at) = plan_words::target(
        plan,
        parts,
        room.len(),
        write,
        i,
        b,
        o,
        plan_words::scale(n, w),
    ) {
        write_repeated(room, at, w, n as usize, v);
    }
}

// first, first + 1, and so on, n of them: positions of 4 bytes.
pub fn put_counted(
    plan: &[u64],
    parts: &[u64],
    room: &mut [u8],
    write: bool,
    i: usize,
    b: usize,
    o: u64,
    n: u64,
    first: u64,
)
    requires { (i < 32) × (b < 3) }
    ensures { room.new ≡ apply_if plan.now parts.now write (put i b o (counted_up 4 first n) ∷ []) room.old }
{
    if let Some(at) = plan_words::target(
        plan,
        parts,
        room.len(),
        write,
        i,
        b,
        o,
        plan_words::scale(n, 4),
    ) {
        utils::count_up_i32(room, at, n as usize, (first % 4294967296) as u32);
    }
}
