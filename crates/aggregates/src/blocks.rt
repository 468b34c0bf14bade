// Tallies of blocks of slots, and validity by words of 64 bits.
ghost use Rattle.std.specs.Prelude.{◌≡◌, ℕ, ◌+◌, ◌-◌, ◌*◌, ◌/◌, ◌^◌, ◌<◌, ◌≤◌, true, length};
ghost use Rattle.clauses.specs.Slices.{was};
ghost use Rattle.bits.specs.Bits.{digits, bits_at};
ghost use Rattle.aggregates.specs.patterns.Parts.{block_rows, Sized, top_bit, bit_of};
ghost use Rattle.aggregates.specs.tally.Cells.{value_of, Tallied};
ghost use Rattle.aggregates.specs.cells.Cells.{Topped, Held};
ghost use Rattle.aggregates.specs.blocks.Blocks.{number_cell, kept_cell, valid_bit};

use crate::cells::Cells;
use crate::patterns::Part;
use crate::tally::Tally;
use crate::{patterns, tally};
use number::Unsigned;

// ---- validity

// 64 bits from the bit j of the byte q on.
fn word_at(body: &[u8], q: usize, j: usize) -> u64
    requires { (j < 8) × (8 * q + j + 64 ≤ 8 * length body.now) }
    ensures { digits 64 result ≡ bits_at (8 * q + j) 64 (was body) }
{
    if j == 0 {
        return u64::read(body, q);
    }
    let k = 8 - j;
    let p = 1u64 << k;
    let lo = (u64::read(body, q) >> j) % p;
    lo + (u64::read(body, q + 1) << k)
}

// The validity of 64 slots; ones where there is no map.
fn valid_bits(body: &[u8], c: Cells, slot: usize) -> u64
    requires { c.masked ≡ true → c.mask + (slot + 63) / 8 < length body.now }
    ensures { (k : ℕ) → k < 64 → bit_of result k ≡ valid_bit (was body) c (slot + k) }
{
    if c.masked {
        return word_at(body, c.mask + slot / 8, slot % 8);
    }
    18446744073709551615
}

// The slots of both that are valid.
pub fn both_bits(body: &[u8], c: Cells, i: usize, d: Cells, j: usize) -> u64
    requires { (c.masked ≡ true → c.mask + (i + 63) / 8 < length body.now) × (d.masked ≡ true → d.mask + (j + 63) / 8 < length body.now) }
    ensures { (k : ℕ) → k < 64 → bit_of result k ≡ valid_bit (was body) c (i + k) * valid_bit (was body) d (j + k) }
{
    valid_bits(body, c, i) & valid_bits(body, d, j)
}

// ---- blocks

// The tally of a block's parts; a pattern with the top bit is below zero where `top` has none.
fn tally_of(p: Part, w: u8, top: u64) -> Tally
    requires { Sized w × Topped w top }
    ensures { (result.count ≡ p.count) × (result.below ≡ p.below * (1 - top / 2 ^ top_bit w)) × (value_of result ≡ p.high * 4294967296 + p.low) }
{
    let signed = 1 - (top >> (8 * w - 1));
    tally::of_halves(p.count, p.below * signed, p.high, p.low)
}

// All of n slots.
pub fn sum_slots(body: &[u8], c: Cells, slot: usize, n: usize) -> Tally
    requires { (0 < n) × (n ≤ block_rows) × Held body.now c (slot + (n - 1)) }
    ensures { Tallied (number_cell (was body) c) slot n result }
{
    let at = c.start + slot * (c.width as usize);
    let p = patterns::sum_all(body, at, c.width, n);
    tally_of(p, c.width, c.top)
}

// Those of 64 slots whose bit in m is 1.
pub fn sum_kept(body: &[u8], c: Cells, slot: usize, m: u64) -> Tally
    requires { Held body.now c (slot + 63) }
    ensures { Tallied (λ i. kept_cell (bit_of m i) (number_cell (was body) c (slot + i))) 0 64 result }
{
    let at = c.start + slot * (c.width as usize);
    let p = patterns::sum_some(body, at, c.width, m);
    tally_of(p, c.width, c.top)
}
