// Sums of numbers that stand one behind the other in the body, by blocks, so that 64 bits hold the sums of their halves.
ghost use Rattle.std.specs.Prelude.{◌≡◌, ◌+◌, ◌*◌, ◌/◌, ◌^◌, ◌<◌, ◌≤◌, length, drop};
ghost use Rattle.clauses.specs.Slices.{was};
ghost use Rattle.number.specs.Number.{number};
ghost use Rattle.aggregates.specs.patterns.Parts.{block_rows, Sized, top_bit, pattern_in, bit_of, kept_in, Added};

use number::Unsigned;

// The most numbers of a block.
pub const BLOCK: u64 = 1048576;

// The sums of a block: how many numbers count, their lower and upper halves, and how many have the top bit.
#[derive(Clone, Copy)]
pub struct Part {
    pub count: u64,
    pub low: u64,
    pub high: u64,
    pub below: u64,
}

// The number of w bytes at a position, without a sign.
pub fn read_pattern(body: &[u8], at: usize, w: u8) -> u64
    requires { Sized w × (at + w ≤ length body.now) }
    ensures { result ≡ number w (drop at (was body)) }
{
    match w {
        1 => u8::read(body, at) as u64,
        2 => u16::read(body, at) as u64,
        4 => u32::read(body, at) as u64,
        _ => u64::read(body, at),
    }
}

// Number i of those from a position on.
fn number_at<N: Unsigned>(body: &[u8], at: usize, i: usize) -> u64
    requires { at + i * N.SIZE + N.SIZE ≤ length body.now }
    ensures { result ≡ pattern_in (was body) at N.SIZE i }
{
    N::read(body, at + i * N::SIZE).to_u64()
}

// The top bit of a number of N's bytes.
fn top_bit<N: Unsigned>(x: u64) -> u64
    ensures { result ≡ x / 2 ^ top_bit N.SIZE }
{
    x >> (8 * N::SIZE - 1)
}

// All of n numbers.
fn add_all<N: Unsigned>(body: &[u8], at: usize, n: usize) -> Part
    requires { (n ≤ block_rows) × (at + n * N.SIZE ≤ length body.now) }
    ensures { Added (pattern_in (was body) at N.SIZE) (λ i. 1) N.SIZE n result }
{
    let mut low = 0u64;
    let mut high = 0u64;
    let mut below = 0u64;
    for i in 0..n {
        let x = number_at::<N>(body, at, i);
        low += x % 4294967296;
        high += x / 4294967296;
        below += top_bit::<N>(x);
    }
    Part {
        count: n as u64,
        low,
        high,
        below,
    }
}

// Those of 64 numbers whose bit in m is 1.
fn add_some<N: Unsigned>(body: &[u8], at: usize, m: u64) -> Part
    requires { at + 64 * N.SIZE ≤ length body.now }
    ensures { Added (kept_in (was body) at N.SIZE m) (bit_of m) N.SIZE 64 result }
{
    let mut count = 0u64;
    let mut low = 0u64;
    let mut high = 0u64;
    let mut below = 0u64;
    let mut bits = m;
    for i in 0..64 {
        let bit = bits % 2;
        let x = number_at::<N>(body, at, i) * bit;
        count += bit;
        low += x % 4294967296;
        high += x / 4294967296;
        below += top_bit::<N>(x);
        bits /= 2;
    }
    Part {
        count,
        low,
        high,
        below,
    }
}

// All of n numbers; a loop for each width.
pub fn sum_all(body: &[u8], at: usize, w: u8, n: usize) -> Part
    requires { Sized w × (n ≤ block_rows) × (at + n * w ≤ length body.now) }
    ensures { Added (pattern_in (was body) at w) (λ i. 1) w n result }
{
    match w {
        1 => add_all::<u8>(body, at, n),
        2 => add_all::<u16>(body, at, n),
        4 => add_all::<u32>(body, at, n),
        _ => add_all::<u64>(body, at, n),
    }
}

// Those of 64 numbers whose bit in m is 1; a loop for each width.
pub fn sum_some(body: &[u8], at: usize, w: u8, m: u64) -> Part
    requires { Sized w × (at + 64 * w ≤ length body.now) }
    ensures { Added (kept_in (was body) at w m) (bit_of m) w 64 result }
{
    match w {
        1 => add_some::<u8>(body, at, m),
        2 => add_some::<u16>(body, at, m),
        4 => add_some::<u32>(body, at, m),
        _ => add_some::<u64>(body, at, m),
    }
}
