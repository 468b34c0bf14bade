// Exact sums of whole numbers: how many rows count, and their sum by 128 bits.
ghost use Rattle.std.specs.Prelude.{◌≡◌, ◌+◌, ◌*◌, ◌<◌, ◌≤◌};
ghost use Rattle.aggregates.specs.tally.Cells.{value_of, tallied_by};
ghost use Rattle.aggregates.specs.tally.Sums.{total_of};

use crate::wide;
use crate::wide::Wide;
use number::Signed;

// What one row adds: 1 where it counts, the number as two's complement of its bytes, and 1 where it is below zero.
#[derive(Clone, Copy)]
pub struct Cell {
    pub count: u64,
    pub bits: u64,
    pub below: u64,
}

// What rows have added, their patterns as two halves.
#[derive(Clone, Copy)]
pub struct Tally {
    pub count: u64,
    pub hi: u64,
    pub lo: u64,
    pub below: u64,
}

pub fn nothing() -> Tally
    ensures { (result.count ≡ 0) × (result.below ≡ 0) × (result.hi ≡ 0) × (result.lo ≡ 0) }
{
    Tally {
        count: 0,
        hi: 0,
        lo: 0,
        below: 0,
    }
}

// n rows more, each of this cell.
pub fn added(t: Tally, c: Cell, n: u64) -> Tally
    requires count_bound { (c.count ≤ 1) × (c.below ≤ 1) × (c.bits ≤ 18446744073709551615) }
    requires n_bound { (t.count + n < 18446744073709551615) × (t.below + n < 18446744073709551615) × (t.hi + n < 18446744073709551615) }
    ensures { (result.count ≡ t.count + c.count * n) × (result.below ≡ t.below + c.below * n) × (value_of result ≡ value_of t + c.bits * n) }
{
    let more = wide::product(c.bits, n);
    let sum = wide::sum(Wide { hi: t.hi, lo: t.lo }, more);
    Tally {
        count: t.count + c.count * n,
        hi: sum.hi,
        lo: sum.lo,
        below: t.below + c.below * n,
    }
}

// Two tallies as one.
pub fn joined(t: Tally, u: Tally) -> Tally
    requires { (t.count + u.count < 18446744073709551615) × (t.below + u.below < 18446744073709551615) × (t.hi + u.hi < 18446744073709551615) }
    ensures { (result.count ≡ t.count + u.count) × (result.below ≡ t.below + u.below) × (value_of result ≡ value_of t + value_of u) }
{
    let sum = wide::sum(Wide { hi: t.hi, lo: t.lo }, Wide { hi: u.hi, lo: u.lo });
    Tally {
        count: t.count + u.count,
        hi: sum.hi,
        lo: sum.lo,
        below: t.below + u.below,
    }
}

// A tally by the sums of the patterns' halves of 32 bits.
pub fn of_halves(count: u64, below: u64, high: u64, low: u64) -> Tally
    ensures { (result.count ≡ count) × (result.below ≡ below) × (value_of result ≡ high * 4294967296 + low) }
{
    let upper = Wide {
        hi: high / 4294967296,
        lo: high % 4294967296 * 4294967296,
    };
    let sum = wide::sum(upper, Wide { hi: 0, lo: low });
    Tally {
        count,
        hi: sum.hi,
        lo: sum.lo,
        below,
    }
}

// The sum that 64 bits hold as two's complement, where a number below zero is stored as 2^64 - lift more.
pub fn exact_sum(t: Tally, lift: u64) -> Option<i64>
    requires { t.hi + t.below < 18446744073709551615 }
    ensures { result ≡ total_of (tallied_by lift t) }
{
    let more = wide::product(lift, t.below);
    let sum = wide::sum(Wide { hi: t.hi, lo: t.lo }, more);
    if sum.hi == t.below {
        if sum.lo < 9223372036854775808 {
            return Some(i64::from_pattern(sum.lo));
        }
        return None;
    }
    if t.below == 0 {
        return None;
    }
    if sum.hi == t.below - 1 {
        if 9223372036854775808 <= sum.lo {
            return Some(i64::from_pattern(sum.lo));
        }
    }
    None
}
