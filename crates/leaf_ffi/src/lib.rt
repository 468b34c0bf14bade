// The leaves as calls for a driver in another language, by which their speed is measured.
// Each call tests its ranges; where one does not lie inside its slice, it writes nothing and answers REFUSED.
#![tactic(auto)]

ghost use Rattle.std.specs.Prelude.{◌≡◌, ◌+◌, ◌*◌, ◌<◌, ◌≤◌, length, take, drop, replicate, if◌then◌else◌};
ghost use Rattle.clauses.specs.Slices.{was, left};
ghost use Rattle.number.specs.Number.{splice};
ghost use Rattle.bits.specs.Bits.{bits_at, put_bits, zeros};
ghost use Rattle.utils.specs.Offsets.{moved_offsets};
ghost use Rattle.utils.specs.primitive.Primitive.{rebased};
ghost use Rattle.utils.specs.byte_view.View.{reviewed};
ghost use Rattle.leaf_ffi.specs.Calls.{inside, inside_both, inside_offsets, inside_bits, inside_bits_both, run_of, run_sum};

use run_ends::{LogicalRow, RunRow};

// The answer of a call that is refused. A call that is done answers 0, or a count.
pub const REFUSED: usize = usize::MAX;

// Whether n entries of w bytes from `at` on lie inside len bytes.
fn within(len: usize, at: usize, w: usize, n: usize) -> bool
    requires { 1 ≤ w }
    ensures { result ≡ inside len at w n }
{
    if len < at {
        return false;
    }
    n <= (len - at) / w
}

// Whether n entries of w bytes lie inside the room, and as many inside the body.
fn within_both(room: usize, at: usize, body: usize, from: usize, w: usize, n: usize) -> bool
    requires { 1 ≤ w }
    ensures { result ≡ inside_both room at body from w n }
{
    if within(room, at, w, n) {
        return within(body, from, w, n);
    }
    false
}

// Whether n offsets of w bytes lie inside the room, and one more inside the body.
fn within_offsets(room: usize, at: usize, body: usize, from: usize, w: usize, n: usize) -> bool
    requires { 2 ≤ w }
    ensures { result ≡ inside_offsets room at body from w n }
{
    if within(room, at, w, n) {
        return within(body, from, w, n + 1);
    }
    false
}

// Whether n bits from the bit b of the byte `at` on lie inside len bytes.
fn within_bits(len: usize, at: usize, b: usize, n: usize) -> bool
    ensures { result ≡ inside_bits len at b n }
{
    if len < at {
        return false;
    }
    let left = len - at;
    if left < b / 8 {
        return false;
    }
    let left = left - b / 8;
    if left < n / 8 {
        return false;
    }
    (b % 8 + n % 8 + 7) / 8 <= left - n / 8
}

#[unsafe(no_mangle)]
pub extern "C" fn lafkuno_leaf_copy_bytes(
    room: &mut [u8],
    at: usize,
    body: &[u8],
    from: usize,
    n: usize,
) -> usize
    ensures room_value { room.new ≡ (if inside_both (length room.old) at (length (was body)) from 1 n then splice at (take n (drop from (was body))) room.old else room.old) }
    ensures value { result ≡ (if inside_both (length room.old) at (length (was body)) from 1 n then 0 else 18446744073709551615) }
{
    if within_both(room.len(), at, body.len(), from, 1, n) {
        number::copy::copy_bytes(room, at, body, from, n);
        return 0;
    }
    REFUSED
}

#[unsafe(no_mangle)]
pub extern "C" fn lafkuno_leaf_fill_zeros(room: &mut [u8], at: usize, n: usize) -> usize
    ensures room_value { room.new ≡ (if inside (length room.old) at 1 n then splice at (replicate n 0) room.old else room.old) }
    ensures value { result ≡ (if inside (length room.old) at 1 n then 0 else 18446744073709551615) }
{
    if within(room.len(), at, 1, n) {
        number::copy::fill_zeros(room, at, n);
        return 0;
    }
    REFUSED
}

#[unsafe(no_mangle)]
pub extern "C" fn lafkuno_leaf_extend_offsets_i32(
    room: &mut [u8],
    at: usize,
    body: &[u8],
    from: usize,
    n: usize,
    last: u32,
) -> usize
    ensures room_value { room.new ≡ (if inside_offsets (length room.old) at (length (was body)) from 4 n then splice at (moved_offsets 4 (was body) from last n) room.old else room.old) }
    ensures value { result ≡ (if inside_offsets (length room.old) at (length (was body)) from 4 n then 0 else 18446744073709551615) }
{
    if within_offsets(room.len(), at, body.len(), from, 4, n) {
        utils::extend_offsets(room, at, body, from, n, last);
        return 0;
    }
    REFUSED
}

#[unsafe(no_mangle)]
pub extern "C" fn lafkuno_leaf_extend_offsets_i64(
    room: &mut [u8],
    at: usize,
    body: &[u8],
    from: usize,
    n: usize,
    last: u64,
) -> usize
    ensures room_value { room.new ≡ (if inside_offsets (length room.old) at (length (was body)) from 8 n then splice at (moved_offsets 8 (was body) from last n) room.old else room.old) }
    ensures value { result ≡ (if inside_offsets (length room.old) at (length (was body)) from 8 n then 0 else 18446744073709551615) }
{
    if within_offsets(room.len(), at, body.len(), from, 8, n) {
        utils::extend_offsets(room, at, body, from, n, last);
        return 0;
    }
    REFUSED
}

#[unsafe(no_mangle)]
pub extern "C" fn lafkuno_leaf_extend_with_offset_u8(
    room: &mut [u8],
    at: usize,
    body: &[u8],
    from: usize,
    n: usize,
    base: u8,
) -> usize
    ensures room_value { room.new ≡ (if inside_both (length room.old) at (length (was body)) from 1 n then splice at (rebased 1 (was body) from base n) room.old else room.old) }
    ensures value { result ≡ (if inside_both (length room.old) at (length (was body)) from 1 n then 0 else 18446744073709551615) }
{
    if within_both(room.len(), at, body.len(), from, 1, n) {
        utils::primitive::extend_with_offset(room, at, body, from, n, base);
        return 0;
    }
    REFUSED
}

#[unsafe(no_mangle)]
pub extern "C" fn lafkuno_leaf_extend_with_offset_u16(
    room: &mut [u8],
    at: usize,
    body: &[u8],
    from: usize,
    n: usize,
    base: u16,
) -> usize
    ensures room_value { room.new ≡ (if inside_both (length room.old) at (length (was body)) from 2 n then splice at (rebased 2 (was body) from base n) room.old else room.old) }
    ensures value { result ≡ (if inside_both (length room.old) at (length (was body)) from 2 n then 0 else 18446744073709551615) }
{
    if within_both(room.len(), at, body.len(), from, 2, n) {
        utils::primitive::extend_with_offset(room, at, body, from, n, base);
        return 0;
    }
    REFUSED
}

#[unsafe(no_mangle)]
pub extern "C" fn lafkuno_leaf_extend_with_offset_u32(
    room: &mut [u8],
    at: usize,
    body: &[u8],
    from: usize,
    n: usize,
    base: u32,
) -> usize
    ensures room_value { room.new ≡ (if inside_both (length room.old) at (length (was body)) from 4 n then splice at (rebased 4 (was body) from base n) room.old else room.old) }
    ensures value { result ≡ (if inside_both (length room.old) at (length (was body)) from 4 n then 0 else 18446744073709551615) }
{
    if within_both(room.len(), at, body.len(), from, 4, n) {
        utils::primitive::extend_with_offset(room, at, body, from, n, base);
        return 0;
    }
    REFUSED
}

#[unsafe(no_mangle)]
pub extern "C" fn lafkuno_leaf_extend_views(
    room: &mut [u8],
    at: usize,
    body: &[u8],
    from: usize,
    n: usize,
    base: u32,
) -> usize
    ensures room_value { room.new ≡ (if inside_both (length room.old) at (length (was body)) from 16 n then splice at (reviewed (was body) from base n) room.old else room.old) }
    ensures value { result ≡ (if inside_both (length room.old) at (length (was body)) from 16 n then 0 else 18446744073709551615) }
{
    if within_both(room.len(), at, body.len(), from, 16, n) {
        utils::byte_view::extend_views(room, at, body, from, n, base);
        return 0;
    }
    REFUSED
}

// Answers how many of the n bits are 0.
#[unsafe(no_mangle)]
pub extern "C" fn lafkuno_leaf_copy_bits(
    room: &mut [u8],
    at: usize,
    b: usize,
    body: &[u8],
    from: usize,
    a: usize,
    n: usize,
) -> usize
    ensures room_value { room.new ≡ (if inside_bits_both (length room.old) at b (length (was body)) from a n then put_bits (8 * at + b) (bits_at (8 * from + a) n (was body)) room.old else room.old) }
    ensures value { result ≡ (if inside_bits_both (length room.old) at b (length (was body)) from a n then zeros (bits_at (8 * from + a) n (was body)) else 18446744073709551615) }
{
    if within_bits(room.len(), at, b, n) {
        if within_bits(body.len(), from, a, n) {
            return bits::copy_bits(room, at, b, body, from, a, n);
        }
        return REFUSED;
    }
    REFUSED
}

// Answers how many of the n bits are 0.
#[unsafe(no_mangle)]
pub extern "C" fn lafkuno_leaf_count_zeros(body: &[u8], from: usize, a: usize, n: usize) -> usize
    ensures { result ≡ (if inside_bits (length (was body)) from a n then zeros (bits_at (8 * from + a) n (was body)) else 18446744073709551615) }
{
    if within_bits(body.len(), from, a, n) {
        return bits::count_zeros(body, from, a, n);
    }
    REFUSED
}

// The run that was found, and n where none was.
fn run_of(found: Option<RunRow>, n: usize) -> usize
    ensures { result ≡ run_of n found }
{
    match found {
        Some(row) => row.run.0,
        None => n,
    }
}

// The runs of the rows, added modulo 2^64.
fn run_sum_i32(body: &[u8], from: usize, n: usize, rows: &[u64]) -> usize
    requires { from + 4 * n ≤ length body.now }
    ensures { result ≡ run_sum 4 (was body) from n (was rows) (length (was rows)) }
{
    let mut sum: usize = 0;
    for &row in rows {
        let found = run_ends::find_run::<u32>(body, from, n, LogicalRow(row), LogicalRow(u64::MAX));
        sum = sum.wrapping_add(run_of(found, n));
    }
    sum
}

// Looks up every row of `rows` among the n run ends, and answers the sum of their runs modulo 2^64.
#[unsafe(no_mangle)]
pub extern "C" fn lafkuno_leaf_find_runs_i32(
    body: &[u8],
    from: usize,
    n: usize,
    rows: &[u64],
) -> usize
    ensures { result ≡ (if inside (length (was body)) from 4 n then run_sum 4 (was body) from n (was rows) (length (was rows)) else 18446744073709551615) }
{
    if within(body.len(), from, 4, n) {
        return run_sum_i32(body, from, n, rows);
    }
    REFUSED
}
