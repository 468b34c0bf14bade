// Tallies of the rows of one whole-number column, and of two at once.

ghost use Rattle.std.specs.Prelude.{◌≡◌, ◌+◌, ◌-◌, ◌*◌, ◌^◌, ◌<◌, ◌≤◌, false, if◌then◌else◌, nat_lt};
ghost use Rattle.clauses.specs.Slices.{was};
ghost use Rattle.aggregates.specs.patterns.Parts.{block_rows};
ghost use Rattle.aggregates.specs.tally.Cells.{Tallied};
ghost use Rattle.aggregates.specs.cell_sums.Numbers.{cell_in, mask_cell, both_cells, Bounded, Flat, Ready, AllReady};
ghost use Rattle.aggregates.specs.cell_sums.Steps.{until_of};

use crate::cells::Cells;
use crate::stretches::Ends;
use crate::tally::{Cell, Tally};
use crate::{blocks, cells, patterns, stretches, tally};

// A column of whole numbers: of plain rows, or of runs, whose values then stand from `skip` on in the cells.
#[derive(Clone, Copy)]
pub struct Numbers {
    pub runs: bool,
    pub ends: Ends,
    pub cells: Cells,
    pub skip: u64,
}

// A cell that the rows have up to `until`.
#[derive(Clone, Copy)]
struct Stretch {
    cell: Cell,
    until: u64,
}

// The tallies of two columns.
#[derive(Clone, Copy)]
pub struct Tallies {
    pub first: Tally,
    pub second: Tally,
}

// ---- one row

// A row of a column of plain rows.
fn plain_cell(body: &[u8], n: Numbers, row: u64) -> Cell
    requires { (n.runs ≡ false) × Ready body.now n row }
    ensures { (result ≡ cell_in (was body) n row) × Bounded result }
{
    let c = n.cells;
    cells::cell_at(body, c, (n.skip + row) as usize)
}

// The stretch that begins at a row.
fn find_stretch(body: &[u8], n: Numbers, row: u64) -> Stretch
    requires { (row < 2 ^ 63) × Ready body.now n row }
    ensures { (row < result.until) × Flat (cell_in (was body) n) row result × (result.until ≡ until_of (was body) n row) }
{
    if !n.runs {
        return Stretch {
            cell: plain_cell(body, n, row),
            until: row + 1,
        };
    }
    let e = n.ends;
    let c = n.cells;
    match stretches::stretch_at(body, e, row) {
        Ok(found) => Stretch {
            cell: cells::cell_at(body, c, (n.skip as usize) + found.run.0),
            until: row + found.left,
        },
        Err(_) => Stretch {
            cell: Cell {
                count: 0,
                bits: 0,
                below: 0,
            },
            until: row + 1,
        },
    }
}

// A stretch of no rows.
fn no_stretch(row: u64) -> Stretch
    ensures { (result.until ≡ row) × Bounded result.cell }
{
    Stretch {
        cell: Cell {
            count: 0,
            bits: 0,
            below: 0,
        },
        until: row,
    }
}

// The same stretch while it lasts, and else the one that begins at the row.
fn next_stretch(body: &[u8], n: Numbers, s: Stretch, row: u64) -> Stretch
    requires row_bound { (row < 2 ^ 63) × Ready body.now n row }
    requires flat { Flat (cell_in body.now n) row s }
    ensures { (row < result.until) × Flat (cell_in (was body) n) row result × (result.until ≡ (if nat_lt row s.until then s.until else until_of (was body) n row)) }
{
    if row < s.until {
        return s;
    }
    find_stretch(body, n, row)
}

// A cell where the other counts.
fn masked(c: Cell, d: Cell) -> Cell
    requires { Bounded c }
    ensures { (result ≡ mask_cell c d) × Bounded result }
{
    if d.count == 0 {
        return Cell {
            count: 0,
            bits: 0,
            below: 0,
        };
    }
    c
}

// ---- plain rows

// The rows row .. stop - 1, at most a block of them, of a column without validity.
fn sum_block(body: &[u8], a: Numbers, row: u64, stop: u64) -> Tally
    requires row_lt_stop { (row < stop) × (stop ≤ row + block_rows) × (a.runs ≡ false) × (a.cells.masked ≡ false) }
    requires all_ready { AllReady body.now a row stop }
    ensures { Tallied (cell_in (was body) a) row (stop - row) result }
{
    let c = a.cells;
    blocks::sum_slots(body, c, (a.skip + row) as usize, (stop - row) as usize)
}

// The rows start .. end - 1 of such a column, block by block.
fn sum_blocks(body: &[u8], a: Numbers, start: u64, end: u64) -> Tally
    requires start_le_end { (start ≤ end) × (end < 2 ^ 63) × (a.runs ≡ false) × (a.cells.masked ≡ false) }
    requires all_ready { AllReady body.now a start end }
    ensures { Tallied (cell_in (was body) a) start (end - start) result }
{
    let mut t = tally::nothing();
    let mut row = start;
    while row < end {
        let stop = (row + patterns::BLOCK).min(end);
        t = tally::joined(t, sum_block(body, a, row, stop));
        row = stop;
    }
    t
}

// 64 rows of `a` where `b` counts, by the validity of both.
fn sum_word(body: &[u8], a: Numbers, b: Numbers, row: u64) -> Tally
    requires runs_value { (a.runs ≡ false) × (b.runs ≡ false) }
    requires all_ready { AllReady body.now a row (row + 64) × AllReady body.now b row (row + 64) }
    ensures { Tallied (both_cells (cell_in (was body) a) (cell_in (was body) b)) row 64 result }
{
    let c = a.cells;
    let d = b.cells;
    let i = (a.skip + row) as usize;
    let j = (b.skip + row) as usize;
    blocks::sum_kept(body, c, i, blocks::both_bits(body, c, i, d, j))
}

// The same of `words` times 64 rows.
fn sum_words(body: &[u8], a: Numbers, b: Numbers, start: u64, words: u64) -> Tally
    requires words_bound { (start + 64 * words < 2 ^ 63) × (a.runs ≡ false) × (b.runs ≡ false) }
    requires all_ready { AllReady body.now a start (start + 64 * words) × AllReady body.now b start (start + 64 * words) }
    ensures { Tallied (both_cells (cell_in (was body) a) (cell_in (was body) b)) start (64 * words) result }
{
    let mut t = tally::nothing();
    for k in 0..words {
        t = tally::joined(t, sum_word(body, a, b, start + 64 * k));
    }
    t
}

// The rows start .. end - 1, one after the other.
fn sum_cells(body: &[u8], a: Numbers, b: Numbers, start: u64, end: u64) -> Tally
    requires start_le_end { (start ≤ end) × (end < 2 ^ 63) × (a.runs ≡ false) × (b.runs ≡ false) }
    requires all_ready { AllReady body.now a start end × AllReady body.now b start end }
    ensures { Tallied (both_cells (cell_in (was body) a) (cell_in (was body) b)) start (end - start) result }
{
    let mut t = tally::nothing();
    for row in start..end {
        let c = plain_cell(body, a, row);
        let d = plain_cell(body, b, row);
        t = tally::added(t, masked(c, d), 1);
    }
    t
}

// The same by words, and the rest by rows.
fn sum_masked(body: &[u8], a: Numbers, b: Numbers, start: u64, end: u64) -> Tally
    requires start_le_end { (start ≤ end) × (end < 2 ^ 63) × (a.runs ≡ false) × (b.runs ≡ false) }
    requires all_ready { AllReady body.now a start end × AllReady body.now b start end }
    ensures { Tallied (both_cells (cell_in (was body) a) (cell_in (was body) b)) start (end - start) result }
{
    let words = (end - start) / 64;
    let t = sum_words(body, a, b, start, words);
    let u = sum_cells(body, a, b, start + 64 * words, end);
    tally::joined(t, u)
}

// The rows start .. end - 1 of `a` where `b` counts.
fn sum_plain(body: &[u8], a: Numbers, b: Numbers, start: u64, end: u64) -> Tally
    requires start_le_end { (start ≤ end) × (end < 2 ^ 63) × (a.runs ≡ false) × (b.runs ≡ false) }
    requires all_ready { AllReady body.now a start end × AllReady body.now b start end }
    ensures { Tallied (both_cells (cell_in (was body) a) (cell_in (was body) b)) start (end - start) result }
{
    let c = a.cells;
    let d = b.cells;
    if c.masked {
        return sum_masked(body, a, b, start, end);
    }
    if d.masked {
        return sum_masked(body, a, b, start, end);
    }
    sum_blocks(body, a, start, end)
}

// ---- one column

// The rows start .. end - 1, stretch by stretch.
fn sum_stretches(body: &[u8], n: Numbers, start: u64, end: u64) -> Tally
    requires start_le_end { (start ≤ end) × (end < 2 ^ 63) }
    requires all_ready { AllReady body.now n start end }
    ensures { Tallied (cell_in (was body) n) start (end - start) result }
{
    let mut t = tally::nothing();
    let mut row = start;
    while row < end {
        let s = find_stretch(body, n, row);
        let c = s.cell;
        let stop = s.until.min(end);
        t = tally::added(t, c, stop - row);
        row = stop;
    }
    t
}

// The tally of the rows start .. end - 1.
pub fn sum_rows(body: &[u8], n: Numbers, start: u64, end: u64) -> Tally
    requires start_le_end { (start ≤ end) × (end < 2 ^ 63) }
    requires all_ready { AllReady body.now n start end }
    ensures { Tallied (cell_in (was body) n) start (end - start) result }
{
    if n.runs {
        return sum_stretches(body, n, start, end);
    }
    sum_plain(body, n, n, start, end)
}

// ---- two columns

// The rows start .. end - 1 of both, by the stretches of both.
fn sum_both_stretches(body: &[u8], a: Numbers, b: Numbers, start: u64, end: u64) -> Tallies
    requires start_le_end { (start ≤ end) × (end < 2 ^ 63) }
    requires all_ready { AllReady body.now a start end × AllReady body.now b start end }
    ensures { let c = cell_in (was body) a in let c2 = cell_in (was body) b in Tallied (both_cells c c2) start (end - start) result.first × Tallied (both_cells c2 c) start (end - start) result.second }
{
    let mut t = tally::nothing();
    let mut u = tally::nothing();
    let mut row = start;
    let mut p = no_stretch(start);
    let mut q = no_stretch(start);
    while row < end {
        p = next_stretch(body, a, p, row);
        q = next_stretch(body, b, q, row);
        let c = p.cell;
        let d = q.cell;
        let stop = p.until.min(q.until).min(end);
        t = tally::added(t, masked(c, d), stop - row);
        u = tally::added(u, masked(d, c), stop - row);
        row = stop;
    }
    Tallies {
        first: t,
        second: u,
    }
}

// The tallies of the rows start .. end - 1 in which both columns have a number.
pub fn sum_both(body: &[u8], a: Numbers, b: Numbers, start: u64, end: u64) -> Tallies
    requires start_le_end { (start ≤ end) × (end < 2 ^ 63) }
    requires all_ready { AllReady body.now a start end × AllReady body.now b start end }
    ensures { let c = cell_in (was body) a in let c2 = cell_in (was body) b in Tallied (both_cells c c2) start (end - start) result.first × Tallied (both_cells c2 c) start (end - start) result.second }
{
    if a.runs {
        return sum_both_stretches(body, a, b, start, end);
    }
    if b.runs {
        return sum_both_stretches(body, a, b, start, end);
    }
    let first = sum_plain(body, a, b, start, end);
    let second = sum_plain(body, b, a, start, end);
    Tallies { first, second }
}
