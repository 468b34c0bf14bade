// The box around a trip's stops: the smallest and largest latitude and longitude of a range of rows, as one frame.
#![tactic(auto)]

pub mod float_order;

ghost use Rattle.std.specs.Prelude.{◌≡◌, true, false, not, ◌&&◌, [], ◌+◌, ◌*◌, ◌≤◌, ◌<◌, ◌^◌, length};
ghost use Rattle.std.specs.Float.{binary64};
ghost use Rattle.std.specs.Float.Ieee.{nan_bits, of_bits};
ghost use Rattle.clauses.specs.Slices.{was};
ghost use Rattle.columnar.specs.Array.{item, ok};
ghost use Rattle.array_data.specs.Tables.{offset_of};
ghost use Rattle.array_data.specs.lent_tables.Lent.{tables};
ghost use Rattle.source_rules.specs.kinds.Rows.{tables_of};
ghost use Rattle.frames.specs.Frames.{joined, around, counts, widened, widened_by, framed};
ghost use Rattle.frames.specs.Slots.{mask_of, Holds, slot_stop, slot_stops, Passed, mask_place, Placed, lent_stops};
ghost use Rattle.frames.specs.Box.{is_double, found, box_of};

use array_data::lent_tables;
use number::Unsigned;

// Smallest and largest latitude, smallest and largest longitude.
#[derive(Clone, Copy)]
pub struct Frame {
    pub south: f64,
    pub north: f64,
    pub west: f64,
    pub east: f64,
}

// A range of the body; `given`: whether there is one.
#[derive(Clone, Copy)]
struct Mask {
    given: bool,
    at: usize,
    end: usize,
}

// The frame of two ranges from the frames of both, the left range's first.
pub fn join_frames(a: Frame, b: Frame) -> Frame
    ensures { result ≡ joined a b }
{
    let south = float_order::lesser(a.south, b.south);
    let north = float_order::greater(a.north, b.north);
    let west = float_order::lesser(a.west, b.west);
    let east = float_order::greater(a.east, b.east);
    Frame {
        south,
        north,
        west,
        east,
    }
}

// ---- rows as slots of buffers: values of 8 bytes, and a bit each where the column has validity (`masked`)

fn is_valid(mask: &[u8], masked: bool, slot: usize) -> bool
    requires { masked ≡ true → slot < 8 * length mask.now }
    ensures { result ≡ ok (mask_of masked (was mask)) slot }
{
    if !masked {
        return true;
    }
    (mask[slot / 8] >> (slot % 8)) % 2 == 1
}

// Whether the bits are no NaN's.
fn is_number(bits: u64) -> bool
    ensures { result ≡ not (nan_bits binary64 bits) }
{
    let low = bits % 0x8000_0000_0000_0000;
    low <= 0x7ff0_0000_0000_0000
}

// The value in a slot that is known to hold a number.
fn float_at(values: &[u8], slot: usize) -> f64
    requires { (slot * 8 + 8 ≤ length values.now) × (nan_bits binary64 (item 8 values.now slot) ≡ false) }
    ensures { result ≡ of_bits binary64 (item 8 (was values) slot) }
{
    f64::from_bits(u64::read(values, slot * 8))
}

// Whether slot a of the latitudes and slot b of the longitudes are both a number.
fn counts(
    lat: &[u8],
    lat_mask: &[u8],
    lat_masked: bool,
    lon: &[u8],
    lon_mask: &[u8],
    lon_masked: bool,
    a: usize,
    b: usize,
) -> bool
    requires holds { Holds lat.now lat_masked lat_mask.now (a + 1) }
    requires holds_2 { Holds lon.now lon_masked lon_mask.now (b + 1) }
    ensures { result ≡ counts (slot_stop (was lat) (mask_of lat_masked (was lat_mask)) (was lon) (mask_of lon_masked (was lon_mask)) a b) }
{
    let valid = is_valid(lat_mask, lat_masked, a);
    let valid2 = is_valid(lon_mask, lon_masked, b);
    let number = is_number(u64::read(lat, a * 8));
    let number2 = is_number(u64::read(lon, b * 8));
    valid & number & (valid2 & number2)
}

// The frame of two slots that are known to hold numbers.
fn frame_at(lat: &[u8], lon: &[u8], a: usize, b: usize) -> Frame
    requires a_in_bounds { (a * 8 + 8 ≤ length lat.now) × (nan_bits binary64 (item 8 lat.now a) ≡ false) }
    requires b_in_bounds { (b * 8 + 8 ≤ length lon.now) × (nan_bits binary64 (item 8 lon.now b) ≡ false) }
    ensures { result ≡ around (of_bits binary64 (item 8 (was lat) a)) (of_bits binary64 (item 8 (was lon) b)) }
{
    let latitude = float_at(lat, a);
    let longitude = float_at(lon, b);
    Frame {
        south: latitude,
        north: latitude,
        west: longitude,
        east: longitude,
    }
}

// How many of the n rows from slots a and b on stand before the first that counts.
fn pass_over(
    lat: &[u8],
    lat_mask: &[u8],
    lat_masked: bool,
    lon: &[u8],
    lon_mask: &[u8],
    lon_masked: bool,
    a: usize,
    b: usize,
    n: usize,
) -> usize
    requires holds { Holds lat.now lat_masked lat_mask.now (a + n) }
    requires holds_2 { Holds lon.now lon_masked lon_mask.now (b + n) }
    ensures { Passed (λ k. slot_stop (was lat) (mask_of lat_masked (was lat_mask)) (was lon) (mask_of lon_masked (was lon_mask)) (a + k) (b + k)) n result }
{
    for k in 0..n {
        if counts(
            lat,
            lat_mask,
            lat_masked,
            lon,
            lon_mask,
            lon_masked,
            a + k,
            b + k,
        ) {
            return k;
        }
    }
    n
}

// A frame, widened by slots a and b if they count.
fn widen_row(
    f: Frame,
    lat: &[u8],
    lat_mask: &[u8],
    lat_masked: bool,
    lon: &[u8],
    lon_mask: &[u8],
    lon_masked: bool,
    a: usize,
    b: usize,
) -> Frame
    requires holds { Holds lat.now lat_masked lat_mask.now (a + 1) }
    requires holds_2 { Holds lon.now lon_masked lon_mask.now (b + 1) }
    ensures { result ≡ widened f (slot_stop (was lat) (mask_of lat_masked (was lat_mask)) (was lon) (mask_of lon_masked (was lon_mask)) a b) }
{
    if counts(lat, lat_mask, lat_masked, lon, lon_mask, lon_masked, a, b) {
        return join_frames(f, frame_at(lat, lon, a, b));
    }
    f
}

// A frame, widened by each of the n rows from slots a and b on that counts.
fn widen_by(
    f: Frame,
    lat: &[u8],
    lat_mask: &[u8],
    lat_masked: bool,
    lon: &[u8],
    lon_mask: &[u8],
    lon_masked: bool,
    a: usize,
    b: usize,
    n: usize,
) -> Frame
    requires holds { Holds lat.now lat_masked lat_mask.now (a + n) }
    requires holds_2 { Holds lon.now lon_masked lon_mask.now (b + n) }
    ensures { result ≡ widened_by f (slot_stops (was lat) (mask_of lat_masked (was lat_mask)) (was lon) (mask_of lon_masked (was lon_mask)) a b n) }
{
    let mut frame = f;
    for k in 0..n {
        frame = widen_row(
            frame,
            lat,
            lat_mask,
            lat_masked,
            lon,
            lon_mask,
            lon_masked,
            a + k,
            b + k,
        );
    }
    frame
}

// The frame of the n rows from slots a and b on; 17 where none counts.
fn frame_rows(
    lat: &[u8],
    lat_mask: &[u8],
    lat_masked: bool,
    lon: &[u8],
    lon_mask: &[u8],
    lon_masked: bool,
    a: usize,
    b: usize,
    n: usize,
) -> Result<Frame, u8>
    requires holds { Holds lat.now lat_masked lat_mask.now (a + n) }
    requires holds_2 { Holds lon.now lon_masked lon_mask.now (b + n) }
    ensures { result ≡ found (framed (slot_stops (was lat) (mask_of lat_masked (was lat_mask)) (was lon) (mask_of lon_masked (was lon_mask)) a b n)) }
{
    let k = pass_over(
        lat, lat_mask, lat_masked, lon, lon_mask, lon_masked, a, b, n,
    );
    if k == n {
        return Err(17);
    }
    let p = a + k;
    let q = b + k;
    let f = frame_at(lat, lon, p, q);
    let left = n - k - 1;
    Ok(widen_by(
        f,
        lat,
        lat_mask,
        lat_masked,
        lon,
        lon_mask,
        lon_masked,
        p + 1,
        q + 1,
        left,
    ))
}

// ---- rows of lent columns

// Where the validity of node k stands in the body; an empty range where it has none.
fn mask_of(places: &[u64], k: usize) -> Mask
    requires k_bound { k < 2 ^ 33 }
    requires k_bound_2 { (mask_place (tables [] places.now []) k).end < 2 ^ 64 }
    ensures { result ≡ mask_place (tables [] (was places) []) k }
{
    if lent_tables::place(places, k, 0) == 0 {
        return Mask {
            given: false,
            at: 0,
            end: 0,
        };
    }
    let at = lent_tables::place(places, k, 1) as usize;
    let size = lent_tables::place(places, k, 2) as usize;
    Mask {
        given: true,
        at,
        end: at + size,
    }
}

// The frame of the n rows from row `start` on of the columns at the nodes a and b.
fn frame_nodes(
    lengths: &[u64],
    places: &[u64],
    body: &[u8],
    a: usize,
    b: usize,
    start: usize,
    n: usize,
) -> Result<Frame, u8>
    requires a_bound { (a < 2 ^ 33) × (b < 2 ^ 33) }
    requires placed { Placed (tables lengths.now places.now body.now) a (offset_of (tables lengths.now [] []) a + start + n) }
    requires placed_2 { Placed (tables lengths.now places.now body.now) b (offset_of (tables lengths.now [] []) b + start + n) }
    ensures { result ≡ found (framed (lent_stops (tables (was lengths) (was places) (was body)) a b start n)) }
{
    let lat = lent_tables::place(places, a, 3) as usize;
    let lat_end = lat + lent_tables::place(places, a, 4) as usize;
    let lon = lent_tables::place(places, b, 3) as usize;
    let lon_end = lon + lent_tables::place(places, b, 4) as usize;
    let lat_mask = mask_of(places, a);
    let mask = lat_mask.at;
    let mask_end = lat_mask.end;
    let lon_mask = mask_of(places, b);
    let mask2 = lon_mask.at;
    let mask2_end = lon_mask.end;
    frame_rows(
        &body[lat..lat_end],
        &body[mask..mask_end],
        lat_mask.given,
        &body[lon..lon_end],
        &body[mask2..mask2_end],
        lon_mask.given,
        (lent_tables::offset_of(lengths, a) as usize) + start,
        (lent_tables::offset_of(lengths, b) as usize) + start,
        n,
    )
}

// Whether both columns are one node of format g.
fn are_doubles(
    formats: &[u8],
    schema: &[u32],
    first_a: u32,
    n_a: u32,
    first_b: u32,
    n_b: u32,
) -> bool
    ensures { result ≡ is_double (was formats) (was schema) first_a n_a && is_double (was formats) (was schema) first_b n_b }
{
    let code = columns::column_pair::plain_code(formats, schema, first_a, n_a);
    let code2 = columns::column_pair::plain_code(formats, schema, first_b, n_b);
    let double = code == 10;
    let double2 = code2 == 10;
    double & double2
}

// THE BOX around the rows start .. end - 1 of a latitude column (a) and a longitude column (b) of the same tables.
pub fn box_of(
    formats: &[u8],
    schema: &[u32],
    lengths: &[u64],
    places: &[u64],
    buffers: &[u64],
    body: &[u8],
    first_a: u32,
    n_a: u32,
    first_b: u32,
    n_b: u32,
    start: u64,
    end: u64,
) -> Result<Frame, u8>
    ensures { result ≡ box_of (was formats) (was schema) (tables_of (was lengths) (was places) (was buffers) (was body)) first_a n_a first_b n_b start end }
{
    let refusal = columns::column_pair::pair_ground(
        formats, schema, lengths, places, buffers, body, first_a, n_a, first_b, n_b,
    );
    if refusal != 0 {
        return Err(refusal);
    }
    let inside = columns::column_pair::is_range(lengths, first_a, start, end);
    let inside2 = columns::column_pair::is_range(lengths, first_b, start, end);
    if !(inside & inside2) {
        return Err(2);
    }
    if !are_doubles(formats, schema, first_a, n_a, first_b, n_b) {
        return Err(10);
    }
    let n = (end - start) as usize;
    frame_nodes(
        lengths,
        places,
        body,
        first_a as usize,
        first_b as usize,
        start as usize,
        n,
    )
}
