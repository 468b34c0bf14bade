// The room of bits, and the extension of offsets of any width.
// Follows arrow-data 60.1.0 src/transform/utils.rs and the extend_nulls of src/transform/variable_size.rs, Apache-2.0; see NOTICE.
#![tactic(auto)]

pub mod byte_view;
pub mod primitive;

ghost use Rattle.std.specs.Prelude.{◌≡◌, ◌+◌, ◌-◌, ◌*◌, ◌/◌, ◌<◌, ◌≤◌, min, length};
ghost use Rattle.number.specs.Number.{entry, splice};
ghost use Rattle.utils.specs.Offsets.{largest, moved, first_above, moved_offsets, repeated, counted_up};
ghost use Rattle.utils.specs.Extension.{extended, over_at};

use number::Unsigned;

// What an extension of offsets comes to.
#[derive(Clone, Copy)]
pub enum Extended {
    // The destination's last offset afterwards, and the source's first one, where its bytes begin.
    Fits { last: u64, first: u64 },
    // The first row whose new offset does not fit, and that offset, cut to 2^64 - 1. Ground 6.
    Over { row: usize, needed: u64 },
    // The source's last offset is below its first, or the destination's does not fit: in no accepted source.
    Falls,
}

// The bytes that hold a number of bits.
pub fn bit_room(bits: usize) -> usize
    ensures { result ≡ (bits + 7) / 8 }
{
    bits.div_ceil(8)
}

// The largest offset of N's width, which is a signed number.
fn largest_offset<N: Unsigned>() -> u64
    ensures { result ≡ largest N.SIZE }
{
    u64::MAX >> (65 - 8 * N::SIZE)
}

// The offset that follows `last` as far as o follows `first`, cut to 2^64 - 1.
fn moved_to(last: u64, first: u64, o: u64) -> u64
    ensures { result ≡ min (last + (o - first)) 18446744073709551615 }
{
    last.saturating_add(o.saturating_sub(first))
}

// Offset k of those at `from`.
fn offset<N: Unsigned>(body: &[u8], from: usize, k: usize) -> u64
    requires { from + N.SIZE * (k + 1) ≤ length body.now }
    ensures { result ≡ entry N.SIZE body.now from k }
{
    N::read(body, from + N::SIZE * k).to_u64()
}

// The first row whose new offset does not fit, where the last row's does not.
fn over<N: Unsigned>(body: &[u8], from: usize, n: usize, last: u64) -> Extended
    requires n_in_bounds { from + N.SIZE * (n + 1) ≤ length body.now }
    requires last_bound { (last ≤ largest N.SIZE) × (largest N.SIZE < moved N.SIZE body.now from last n) }
    ensures { result ≡ over_at N.SIZE body.now from n last }
{
    let first = offset::<N>(body, from, 0);
    for row in 0..n - 1 {
        let needed = moved_to(last, first, offset::<N>(body, from, row + 1));
        if largest_offset::<N>() < needed {
            return Extended::Over { row, needed };
        }
    }
    Extended::Over {
        row: n - 1,
        needed: moved_to(last, first, offset::<N>(body, from, n)),
    }
}

// Whether n offsets after the first of those at `from` fit after `last`.
pub fn try_offsets<N: Unsigned>(body: &[u8], from: usize, n: usize, last: u64) -> Extended
    requires { from + N.SIZE * (n + 1) ≤ length body.now }
    ensures { result ≡ extended N.SIZE body.now from n last }
{
    let first = offset::<N>(body, from, 0);
    let end = offset::<N>(body, from, n);
    if end < first || largest_offset::<N>() < last {
        return Extended::Falls;
    }
    let next = moved_to(last, first, end);
    if largest_offset::<N>() < next {
        return over::<N>(body, from, n, last);
    }
    Extended::Fits { last: next, first }
}

// The n offsets after the first of those at `from`, moved to follow `last`, into room at `at`.
pub fn extend_offsets<N: Unsigned>(
    room: &mut [u8],
    at: usize,
    body: &[u8],
    from: usize,
    n: usize,
    last: N,
)
    requires n_in_bounds { at + N.SIZE * n ≤ length room.old }
    requires n_in_bounds_2 { from + N.SIZE * (n + 1) ≤ length body.now }
    ensures { room.new ≡ splice at (moved_offsets N.SIZE body.now from (N.amount last) n) room.old }
{
    let shift = last.wrapping_sub(N::read(body, from));
    for i in 0..n {
        let o = N::read(body, from + N::SIZE * (i + 1));
        o.wrapping_add(shift).write(room, at + N::SIZE * i);
    }
}

// The offset v, n times: a null repeats the last offset.
pub fn repeat_offset<N: Unsigned>(room: &mut [u8], at: usize, n: usize, v: N)
    requires { at + N.SIZE * n ≤ length room.old }
    ensures { room.new ≡ splice at (repeated N.SIZE (N.amount v) n) room.old }
{
    for i in 0..n {
        v.write(room, at + N::SIZE * i);
    }
}

// first, first + 1, and so on, n of them: the positions of a dense union's ordered nulls.
pub fn count_up_i32(room: &mut [u8], at: usize, n: usize, first: u32)
    requires { at + 4 * n ≤ length room.old }
    ensures { room.new ≡ splice at (counted_up 4 first n) room.old }
{
    let mut position = first;
    for i in 0..n {
        position.write(room, at + 4 * i);
        position = position.wrapping_add(1);
    }
}
