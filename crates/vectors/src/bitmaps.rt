// Vectors of the crate `bits`: each line has a function's name, its numbers, its answer where it has one, and the bytes afterwards.
ghost use Rattle.std.specs.Prelude.{◌+◌, ◌*◌, ◌<◌, ◌≤◌, IfOk};

use std::io;

// The bytes that are copied from and counted.
fn source() -> [u8; 24] {
    [
        36, 63, 106, 136, 133, 163, 8, 211, 19, 25, 138, 46, 3, 112, 115, 68, 164, 9, 56, 34, 41,
        159, 49, 208,
    ]
}

fn wide(x: u8) -> u64 {
    x as u64
}

fn number(rt: &impl Print, n: usize) -> io::Result<()> {
    print!(rt; " {n}")
}

fn bytes(rt: &impl Print, s: &[u8]) -> io::Result<()> {
    for x in s {
        print!(rt; " {:02x}", wide(*x))?;
    }
    rt.write_all(b"\n")
}

fn copy(rt: &impl Print, at: usize, b: usize, from: usize, a: usize, n: usize) -> io::Result<()>
    requires { (8 * at + b + n ≤ 192) × (8 * from + a + n ≤ 192) }
{
    let body = source();
    let mut room = [170u8; 24];
    let none = bits::copy_bits(&mut room, at, b, &body, from, a, n);
    rt.write_all(b"copy_bits")?;
    number(rt, at)?;
    number(rt, b)?;
    number(rt, from)?;
    number(rt, a)?;
    number(rt, n)?;
    rt.write_all(b" :")?;
    number(rt, none)?;
    rt.write_all(b" :")?;
    bytes(rt, &room)
}

fn ones(rt: &impl Print, at: usize, b: usize, n: usize) -> io::Result<()>
    requires { 8 * at + b + n ≤ 192 }
{
    let mut room = [170u8; 24];
    bits::append_ones(&mut room, at, b, n);
    rt.write_all(b"append_ones")?;
    number(rt, at)?;
    number(rt, b)?;
    number(rt, n)?;
    rt.write_all(b" :")?;
    bytes(rt, &room)
}

fn zeros(rt: &impl Print, at: usize, b: usize, n: usize) -> io::Result<()>
    requires { 8 * at + b + n ≤ 192 }
{
    let mut room = [170u8; 24];
    bits::append_zeros(&mut room, at, b, n);
    rt.write_all(b"append_zeros")?;
    number(rt, at)?;
    number(rt, b)?;
    number(rt, n)?;
    rt.write_all(b" :")?;
    bytes(rt, &room)
}

fn count(rt: &impl Print, from: usize, a: usize, n: usize) -> io::Result<()>
    requires { 8 * from + a + n ≤ 192 }
{
    let body = source();
    let none = bits::count_zeros(&body, from, a, n);
    rt.write_all(b"count_zeros")?;
    number(rt, from)?;
    number(rt, a)?;
    number(rt, n)?;
    rt.write_all(b" :")?;
    number(rt, none)?;
    rt.write_all(b"\n")
}

fn bit(rt: &impl Print, from: usize, i: usize) -> io::Result<()>
    requires { 8 * from + i < 192 }
{
    let body = source();
    let x = bits::get_bit(&body, from, i);
    rt.write_all(b"get_bit")?;
    number(rt, from)?;
    number(rt, i)?;
    rt.write_all(b" :")?;
    print!(rt; " {}", wide(x))?;
    rt.write_all(b"\n")
}

fn copies(rt: &impl Print) -> io::Result<()> {
    // A slice at bit 3 into bit 5; at other bits; over several words; within one byte.
    copy(rt, 0, 5, 0, 3, 45)?;
    copy(rt, 2, 5, 1, 3, 165)?;
    copy(rt, 0, 13, 0, 11, 150)?;
    copy(rt, 1, 3, 2, 7, 3)?;
    copy(rt, 1, 1, 2, 5, 7)?;
    // The destination or the source at a byte; both.
    copy(rt, 3, 0, 1, 3, 70)?;
    copy(rt, 0, 4, 2, 0, 77)?;
    copy(rt, 0, 0, 0, 0, 192)?;
    copy(rt, 4, 0, 3, 0, 64)?;
    copy(rt, 4, 0, 3, 0, 20)?;
    copy(rt, 0, 40, 0, 24, 131)?;
    // Nothing; the free bits of the last byte become 0, and no other byte changes.
    copy(rt, 0, 0, 0, 0, 0)?;
    copy(rt, 3, 6, 2, 5, 0)?;
    copy(rt, 24, 0, 24, 0, 0)?;
    copy(rt, 5, 2, 5, 2, 1)
}

fn runs(rt: &impl Print) -> io::Result<()> {
    ones(rt, 0, 5, 45)?;
    ones(rt, 2, 0, 16)?;
    ones(rt, 0, 3, 2)?;
    ones(rt, 3, 6, 1)?;
    ones(rt, 1, 0, 130)?;
    ones(rt, 4, 4, 0)?;
    zeros(rt, 0, 5, 45)?;
    zeros(rt, 2, 0, 16)?;
    zeros(rt, 0, 3, 2)?;
    zeros(rt, 3, 5, 1)?;
    zeros(rt, 1, 0, 130)?;
    zeros(rt, 4, 4, 0)
}

fn counts(rt: &impl Print) -> io::Result<()> {
    count(rt, 0, 3, 189)?;
    count(rt, 0, 0, 192)?;
    count(rt, 1, 6, 1)?;
    count(rt, 2, 5, 3)?;
    count(rt, 2, 5, 4)?;
    count(rt, 3, 0, 64)?;
    count(rt, 0, 29, 140)?;
    count(rt, 7, 4, 0)?;
    bit(rt, 0, 0)?;
    bit(rt, 0, 2)?;
    bit(rt, 4, 0)?;
    bit(rt, 0, 39)?;
    bit(rt, 23, 7)?;
    bit(rt, 20, 11)
}

// ---- all pairs of bit offsets: the answer against a count bit by bit

// 1 where bit k is 0, else 0.
fn zero_at(body: &[u8; 24], k: usize) -> usize
    requires { k < 192 }
    ensures { result ≤ 1 }
{
    let mut x = body[k / 8];
    for _ in 0..k % 8 {
        x = x / 2;
    }
    if x % 2 == 0 {
        return 1;
    }
    0
}

// The zeros of the n bits from bit p on.
fn zeros_in(body: &[u8; 24], p: usize, n: usize) -> usize
    requires { p + n ≤ 192 }
    ensures { result ≤ n }
{
    let mut none = 0;
    for i in 0..n {
        none += zero_at(body, p + i);
    }
    none
}

// n bits from bit a to bit b; tells where the answer is not the count.
fn pair(rt: &impl Print, a: usize, b: usize, n: usize) -> io::Result<usize>
    requires { (a < 8) × (b < 8) × (n ≤ 130) }
    ensures { IfOk result (λ n. n ≤ 130) }
{
    let body = source();
    let mut room = [170u8; 24];
    let none = bits::copy_bits(&mut room, 0, b, &body, 0, a, n);
    let counted = zeros_in(&body, a, n);
    if none != counted {
        rt.write_all(b"wrong")?;
        number(rt, a)?;
        number(rt, b)?;
        number(rt, n)?;
        rt.write_all(b"\n")?;
    }
    Ok(counted)
}

// All destinations of the n bits from bit a on.
fn to_all(rt: &impl Print, a: usize, n: usize) -> io::Result<usize>
    requires { (a < 8) × (n ≤ 130) }
    ensures { IfOk result (λ n. n ≤ 1040) }
{
    let mut none = 0;
    for b in 0..8 {
        none += pair(rt, a, b, n)?;
    }
    Ok(none)
}

// All 64 pairs: the zeros of all of them.
fn from_all(rt: &impl Print, n: usize) -> io::Result<usize>
    requires { n ≤ 130 }
{
    let mut none = 0;
    for a in 0..8 {
        none += to_all(rt, a, n)?;
    }
    Ok(none)
}

fn pairs(rt: &impl Print, n: usize) -> io::Result<()>
    requires { n ≤ 130 }
{
    rt.write_all(b"pairs")?;
    number(rt, n)?;
    let none = from_all(rt, n)?;
    rt.write_all(b" :")?;
    number(rt, none)?;
    rt.write_all(b"\n")
}

fn all_pairs(rt: &impl Print) -> io::Result<()> {
    pairs(rt, 0)?;
    pairs(rt, 1)?;
    pairs(rt, 7)?;
    pairs(rt, 8)?;
    pairs(rt, 9)?;
    pairs(rt, 63)?;
    pairs(rt, 64)?;
    pairs(rt, 65)?;
    pairs(rt, 130)
}

pub fn all(rt: &impl Print) -> io::Result<()> {
    copies(rt)?;
    runs(rt)?;
    counts(rt)?;
    all_pairs(rt)
}
