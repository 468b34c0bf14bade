// Offsets and run ends, less a number, in another width. Differences are taken modulo 2^64.
ghost use Rattle.std.specs.Prelude.{◌≡◌, ◌+◌, ◌*◌, ◌≤◌, length, ◌≢◌};
ghost use Rattle.number.specs.Number.{splice};
ghost use Rattle.recode.specs.Recode.{lessened};

use number::Unsigned;

// n entries from `from` on, each less base, as entries of another width at `at`. In line with those that call it, down from `recode`: a base
// of 0 is not subtracted then.
#[inline(always)]
pub fn less<N: Unsigned, M: Unsigned>(
    room: &mut [u8],
    at: usize,
    body: &[u8],
    from: usize,
    n: usize,
    base: u64,
)
    requires n_in_bounds { at + M.SIZE * n ≤ length room.old }
    requires n_in_bounds_2 { from + N.SIZE * n ≤ length body.now }
    ensures { room.new ≡ splice at (lessened N.SIZE M.SIZE body.now from base n) room.old }
{
    for i in 0..n {
        let v = N::read(body, from + N::SIZE * i).to_u64();
        M::truncate(v.wrapping_sub(base)).write(room, at + M::SIZE * i);
    }
}

// The same to a width of w2 bytes.
#[inline(always)]
fn less_to<N: Unsigned>(
    room: &mut [u8],
    at: usize,
    w2: u64,
    body: &[u8],
    from: usize,
    n: usize,
    base: u64,
)
    requires n_in_bounds { (at + w2 * n ≤ length room.old) × (from + N.SIZE * n ≤ length body.now) }
    requires w2_value { (w2 ≢ 1) → (w2 ≢ 2) → (w2 ≢ 4) → w2 ≡ 8 }
    ensures { room.new ≡ splice at (lessened N.SIZE w2 body.now from base n) room.old }
{
    match w2 {
        1 => less::<N, u8>(room, at, body, from, n, base),
        2 => less::<N, u16>(room, at, body, from, n, base),
        4 => less::<N, u32>(room, at, body, from, n, base),
        _ => less::<N, u64>(room, at, body, from, n, base),
    }
}

// n entries of w bytes from `from` on, each less base, as entries of w2 bytes at `at`.
#[inline(always)]
pub fn recode_less(
    room: &mut [u8],
    at: usize,
    w2: u64,
    body: &[u8],
    from: usize,
    w: u64,
    n: usize,
    base: u64,
)
    requires n_in_bounds { (at + w2 * n ≤ length room.old) × (from + w * n ≤ length body.now) }
    requires w_value { (w ≢ 1) → (w ≢ 2) → (w ≢ 4) → w ≡ 8 }
    requires w2_value { (w2 ≢ 1) → (w2 ≢ 2) → (w2 ≢ 4) → w2 ≡ 8 }
    ensures { room.new ≡ splice at (lessened w w2 body.now from base n) room.old }
{
    match w {
        1 => less_to::<u8>(room, at, w2, body, from, n, base),
        2 => less_to::<u16>(room, at, w2, body, from, n, base),
        4 => less_to::<u32>(room, at, w2, body, from, n, base),
        _ => less_to::<u64>(room, at, w2, body, from, n, base),
    }
}
