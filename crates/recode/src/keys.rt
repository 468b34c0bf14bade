// Keys in another width, and keys under nulls made 0.
ghost use Rattle.std.specs.Prelude.{◌≡◌, ◌+◌, ◌-◌, ◌*◌, ◌/◌, ◌%◌, ◌^◌, ◌<◌, ◌≤◌, min, length, drop, ◌≢◌, slice_index};
ghost use Rattle.number.specs.Number.{number, encode, splice};
ghost use Rattle.bits.specs.Bits.{bits};
ghost use Rattle.recode.specs.Recode.{recoded, masked, valid_only};

use crate::offsets;
use number::Unsigned;

// 64 entries of 1 byte from `from` on as entries of 4 bytes at `at`: by way of 2 bytes, which spares the compiler a quarter of its shuffles.
fn block_1_4(room: &mut [u8], at: usize, body: &[u8], from: usize)
    requires { (at + 256 ≤ length room.old) × (from + 64 ≤ length body.now) }
    ensures { room.new ≡ splice at (recoded 1 4 body.now from 64) room.old }
{
    let mut wide = [0u8; 128];
    offsets::less::<u8, u16>(&mut wide, 0, body, from, 64, 0);
    offsets::less::<u16, u32>(room, at, &wide, 0, 64, 0);
}

// 64 m entries of 1 byte from `from` on as entries of 4 bytes at `at`.
fn blocks_1_4(room: &mut [u8], at: usize, body: &[u8], from: usize, m: usize)
    requires { (at + 256 * m ≤ length room.old) × (from + 64 * m ≤ length body.now) }
    ensures { room.new ≡ splice at (recoded 1 4 body.now from (64 * m)) room.old }
{
    for i in 0..m {
        block_1_4(room, at + 256 * i, body, from + 64 * i);
    }
}

// n entries of 1 byte from `from` on as entries of 4 bytes at `at`.
fn recode_1_4(room: &mut [u8], at: usize, body: &[u8], from: usize, n: usize)
    requires n_in_bounds { at + 4 * n ≤ length room.old }
    requires n_in_bounds_2 { from + 1 * n ≤ length body.now }
    ensures { room.new ≡ splice at (recoded 1 4 body.now from n) room.old }
{
    let m = n / 64;
    blocks_1_4(room, at, body, from, m);
    offsets::less::<u8, u32>(room, at + 256 * m, body, from + 64 * m, n - 64 * m, 0);
}

// 2 m entries of 2 bytes from `from` on as entries of 1 byte at `at`: two at a time, so that the compiler reads whole vectors.
fn pairs_2_1(room: &mut [u8], at: usize, body: &[u8], from: usize, m: usize)
    requires m_in_bounds { at + 2 * m ≤ length room.old }
    requires m_in_bounds_2 { from + 4 * m ≤ length body.now }
    ensures { room.new ≡ splice at (recoded 2 1 body.now from (2 * m)) room.old }
{
    for i in 0..m {
        let v = u32::read(body, from + 4 * i);
        ((v % 256 + v / 65536 % 256 * 256) as u16).write(room, at + 2 * i);
    }
}

// n entries of 2 bytes from `from` on as entries of 1 byte at `at`.
fn recode_2_1(room: &mut [u8], at: usize, body: &[u8], from: usize, n: usize)
    requires n_in_bounds { at + 1 * n ≤ length room.old }
    requires n_in_bounds_2 { from + 2 * n ≤ length body.now }
    ensures { room.new ≡ splice at (recoded 2 1 body.now from n) room.old }
{
    let m = n / 2;
    pairs_2_1(room, at, body, from, m);
    if 2 * m < n {
        let v = u16::read(body, from + 4 * m);
        ((v % 256) as u8).write(room, at + 2 * m);
    }
}

// n entries of w bytes from `from` on as entries of w2 bytes at `at`.
pub fn recode(room: &mut [u8], at: usize, w2: u64, body: &[u8], from: usize, w: u64, n: usize)
    requires n_in_bounds { (at + w2 * n ≤ length room.old) × (from + w * n ≤ length body.now) }
    requires w_value { (w ≢ 1) → (w ≢ 2) → (w ≢ 4) → w ≡ 8 }
    requires w2_value { (w2 ≢ 1) → (w2 ≢ 2) → (w2 ≢ 4) → w2 ≡ 8 }
    ensures { room.new ≡ splice at (recoded w w2 body.now from n) room.old }
{
    if w == w2 {
        number::copy::copy_bytes(room, at, body, from, (w as usize) * n);
        return;
    }
    if w == 1 && w2 == 4 {
        recode_1_4(room, at, body, from, n);
        return;
    }
    if w == 2 && w2 == 1 {
        recode_2_1(room, at, body, from, n);
        return;
    }
    offsets::recode_less(room, at, w2, body, from, w, n, 0);
}

// Binary digit k of x.
fn digit(x: u8, k: usize) -> u8
    requires { k < 8 }
    ensures { (result ≡ x / 2 ^ k % 2) × (result ≤ 1) }
{
    (x >> k) % 2
}

// The entry at `at`, times b.
fn mask_one<N: Unsigned>(room: &mut [u8], at: usize, b: u8)
    requires { (at + N.SIZE ≤ length room.old) × (b ≤ 1) }
    ensures { room.new ≡ splice at (encode N.SIZE (number N.SIZE (drop at room.old) * b)) room.old }
{
    N::truncate(N::read(room, at).to_u64() * (b as u64)).write(room, at);
}

// Eight entries at `at`: 0 where x has the digit 0.
fn mask_eight<N: Unsigned>(room: &mut [u8], at: usize, x: u8)
    requires { at + N.SIZE * 8 ≤ length room.old }
    ensures { room.new ≡ splice at (masked N.SIZE room.old at (λ k. x / 2 ^ k % 2) 8) room.old }
{
    for k in 0..8 {
        mask_one::<N>(room, at + N::SIZE * k, digit(x, k));
    }
}

// n entries at `at`: 0 where the bit is 0, of those from the bit a of the byte `from` on. Row by row.
fn mask_rows<N: Unsigned>(room: &mut [u8], at: usize, body: &[u8], from: usize, a: usize, n: usize)
    requires { (at + N.SIZE * n ≤ length room.old) × (8 * from + a + n ≤ 8 * length body.now) × (a + n < 2 ^ 64) }
    ensures { room.new ≡ splice at (masked N.SIZE room.old at (λ k. slice_index (bits body.now) (8 * from + a + k)) n) room.old }
{
    for i in 0..n {
        mask_one::<N>(room, at + N::SIZE * i, bits::get_bit(body, from, a + i));
    }
}

// 8 * m entries at `at`, by the bits of m bytes from the byte q on, likewise.
fn mask_bytes<N: Unsigned>(room: &mut [u8], at: usize, body: &[u8], q: usize, m: usize)
    requires { (at + N.SIZE * (8 * m) ≤ length room.old) × (q + m ≤ length body.now) × (8 * m < 2 ^ 64) }
    ensures { room.new ≡ splice at (masked N.SIZE room.old at (λ k. slice_index (bits body.now) (8 * q + k)) (8 * m)) room.old }
{
    for i in 0..m {
        mask_eight::<N>(room, at + N::SIZE * (8 * i), body[q + i]);
    }
}

// How many rows from the bit a on reach the end of its byte, or n where that is less; none where a byte begins.
fn rows_to_byte(a: usize, n: usize) -> usize
    ensures { result ≡ min n ((8 - a % 8) % 8) }
{
    let due = (8 - a % 8) % 8;
    if n < due { n } else { due }
}

// n entries at `at`: 0 where the bit is 0, of those from the bit a of the byte `from` on. To the end of a byte, by whole bytes, and the rest.
fn mask<N: Unsigned>(room: &mut [u8], at: usize, body: &[u8], from: usize, a: usize, n: usize)
    requires { (at + N.SIZE * n ≤ length room.old) × (8 * from + a + n ≤ 8 * length body.now) × (a + n < 2 ^ 64) }
    ensures { room.new ≡ splice at (masked N.SIZE room.old at (λ k. slice_index (bits body.now) (8 * from + a + k)) n) room.old }
{
    let h = rows_to_byte(a, n);
    let m = (n - h) / 8;
    let g = h + 8 * m;
    mask_rows::<N>(room, at, body, from, a, h);
    mask_bytes::<N>(room, at + N::SIZE * h, body, from + (a + h) / 8, m);
    mask_rows::<N>(room, at + N::SIZE * g, body, from, a + g, n - g);
}

// The same of entries of w bytes.
fn mask_nulls(room: &mut [u8], at: usize, w: u64, body: &[u8], from: usize, a: usize, n: usize)
    requires n_in_bounds { (at + w * n ≤ length room.old) × (8 * from + a + n ≤ 8 * length body.now) × (a + n < 2 ^ 64) }
    requires w_value { (w ≢ 1) → (w ≢ 2) → (w ≢ 4) → w ≡ 8 }
    ensures { room.new ≡ splice at (masked w room.old at (λ k. slice_index (bits body.now) (8 * from + a + k)) n) room.old }
{
    match w {
        1 => mask::<u8>(room, at, body, from, a, n),
        2 => mask::<u16>(room, at, body, from, a, n),
        4 => mask::<u32>(room, at, body, from, a, n),
        _ => mask::<u64>(room, at, body, from, a, n),
    }
}

// n keys of w bytes from `from` on as keys of w2 bytes at `at`: 0 where the bit is 0, of those from the bit a of the byte `valid` on.
pub fn recode_valid(
    room: &mut [u8],
    at: usize,
    w2: u64,
    body: &[u8],
    from: usize,
    w: u64,
    valid: usize,
    a: usize,
    n: usize,
)
    requires n_in_bounds { (at + w2 * n ≤ length room.old) × (from + w * n ≤ length body.now) × (8 * valid + a + n ≤ 8 * length body.now) × (a + n < 2 ^ 64) }
    requires w_value { (w ≢ 1) → (w ≢ 2) → (w ≢ 4) → w ≡ 8 }
    requires w2_value { (w2 ≢ 1) → (w2 ≢ 2) → (w2 ≢ 4) → w2 ≡ 8 }
    ensures { room.new ≡ splice at (valid_only w w2 body.now from (8 * valid + a) n) room.old }
{
    recode(room, at, w2, body, from, w, n);
    mask_nulls(room, at, w2, body, valid, a, n);
}
