// The rows of a whole-number node as cells of a tally.
ghost use Rattle.std.specs.Prelude.{◌≡◌, ◌+◌, ◌-◌, ◌/◌, ◌%◌, ◌^◌, ◌<◌, ◌≤◌, true, [], length, ◌==◌, slice_index};
ghost use Rattle.clauses.specs.Slices.{was};
ghost use Rattle.columnar.specs.Types.{limit};
ghost use Rattle.schema.specs.formats.Code.{is_integer};
ghost use Rattle.array_data.specs.entries.Entries.{column};
ghost use Rattle.aggregates.specs.patterns.Parts.{Sized};
ghost use Rattle.aggregates.specs.cells.Cells.{Held, number_at, valid_at, below_at, cell_at, cells_of};

use crate::patterns;
use crate::tally::Cell;
use array_data::entries;

// Where a node's rows stand in the body: numbers of `width` bytes from `start` on, below zero where the pattern is above `top`; where it is
// masked, with a validity map from `mask` on.
#[derive(Clone, Copy)]
pub struct Cells {
    pub width: u8,
    pub top: u64,
    pub masked: bool,
    pub mask: usize,
    pub start: usize,
}

// The largest number of a format; the codes 1 to 8 are the formats c C s S i I l L.
fn top_of(code: u8) -> u64
    requires { is_integer code ≡ true }
    ensures { result ≡ limit (number_at code) - 1 }
{
    match code {
        1 => 127,
        2 => 255,
        3 => 32767,
        4 => 65535,
        5 => 2147483647,
        6 => 4294967295,
        7 => 9223372036854775807,
        _ => 18446744073709551615,
    }
}

// What lifts a pattern of w bytes below zero to one of 8.
pub fn lift_of(w: u8) -> u64
    requires { Sized w }
    ensures { 256 ^ w + result ≡ 18446744073709551616 }
{
    match w {
        1 => 18446744073709551360,
        2 => 18446744073709486080,
        4 => 18446744069414584320,
        _ => 0,
    }
}

// Node i of the column that begins at node `first` of the tables.
pub fn find_cells(places: &[u64], first: u32, i: usize, code: u8) -> Cells
    requires { (i < 2 ^ 32) × (is_integer code ≡ true) }
    ensures { result ≡ cells_of (column [] (was places) [] [] first) i code }
{
    let masked = entries::place_at(places, first, i, 0) != 0;
    let mask = entries::place_at(places, first, i, 1) as usize;
    let start = entries::place_at(places, first, i, 3) as usize;
    let width = schema::formats::width_of(code);
    let top = top_of(code);
    Cells {
        width,
        top,
        masked,
        mask,
        start,
    }
}

// Bit `slot` of the map that begins at a position.
fn is_set(body: &[u8], at: usize, slot: usize) -> bool
    requires { at + slot / 8 < length body.now }
    ensures { result ≡ (slice_index (was body) (at + slot / 8) / 2 ^ (slot % 8) % 2 == 1) }
{
    (body[at + slot / 8] >> (slot % 8)) % 2 == 1
}

fn is_valid(body: &[u8], c: Cells, slot: usize) -> bool
    requires { c.masked ≡ true → c.mask + slot / 8 < length body.now }
    ensures { result ≡ valid_at (was body) c slot }
{
    if c.masked {
        return is_set(body, c.mask, slot);
    }
    true
}

// 1 where the pattern stands for a number below zero.
fn count_below(top: u64, p: u64) -> u64
    ensures { (result ≡ below_at top p) × (result ≤ 1) }
{
    if top < p { 1 } else { 0 }
}

// Slot `slot` of the node.
pub fn cell_at(body: &[u8], c: Cells, slot: usize) -> Cell
    requires { Held body.now c slot }
    ensures value { result ≡ cell_at (was body) c slot }
    ensures count_bound { (result.count ≤ 1) × (result.below ≤ 1) × (result.bits ≤ 18446744073709551615) }
{
    if !is_valid(body, c, slot) {
        return Cell {
            count: 0,
            bits: 0,
            below: 0,
        };
    }
    let at = c.start + slot * (c.width as usize);
    let bits = patterns::read_pattern(body, at, c.width);
    Cell {
        count: 1,
        bits,
        below: count_below(c.top, bits),
    }
}
