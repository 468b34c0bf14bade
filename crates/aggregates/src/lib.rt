// Count, exact sum and mean of a whole-number column's rows, and total over total of two columns' rows (02, W8).
#![tactic(auto)]

pub mod blocks;
pub mod cell_sums;
pub mod cells;
pub mod fractions;
pub mod patterns;
pub mod stretches;
pub mod tally;
pub mod wide;

ghost use Rattle.std.specs.Prelude.{◌≡◌, ◌+◌, ◌*◌, ◌^◌, ◌<◌, true, []};
ghost use Rattle.clauses.specs.Slices.{was};
ghost use Rattle.schema.specs.formats.Code.{is_integer};
ghost use Rattle.array_data.specs.Tables.{length_of, offset_of, place};
ghost use Rattle.source_rules.specs.kinds.Rows.{tables_of};
ghost use Rattle.array_data.specs.entries.Entries.{column};
ghost use Rattle.aggregates.specs.tally.Cells.{tallied_by};
ghost use Rattle.aggregates.specs.Shape.{whole_code, shape_of, plain_numbers, run_numbers, numbers_of};
ghost use Rattle.aggregates.specs.Report.{mean_by, mean_report, ratio_by, ratio_report};

use crate::cell_sums::Numbers;
use crate::stretches::Ends;
use crate::tally::Tally;
use array_data::entries;

// The rows that are not null, their sum, and the mean in lowest terms.
#[derive(Clone, Copy)]
pub struct MeanReport {
    pub count: u64,
    pub sum: i64,
    pub minus: bool,
    pub over: u64,
    pub under: u64,
}

// The rows that both columns have, the two totals, and the first over the second in lowest terms.
#[derive(Clone, Copy)]
pub struct RatioReport {
    pub count: u64,
    pub first: i64,
    pub second: i64,
    pub minus: bool,
    pub over: u64,
    pub under: u64,
}

// What a column's nodes say: whether it has runs, the code of its whole numbers (0: it has none), and the bytes of its run ends.
#[derive(Clone, Copy)]
struct Shape {
    runs: bool,
    code: u8,
    width: u8,
}

// ---- which columns

// The code of node i where it holds whole numbers and not keys, and else 0.
fn whole_code(formats: &[u8], schema: &[u32], first: u32, i: usize) -> u8
    requires { i < 2 ^ 32 }
    ensures { result ≡ whole_code (was formats) (was schema) first i }
{
    if schema::dictionary_of(schema, first as usize, i) != 0 {
        return 0;
    }
    let code = schema::code_of(formats, schema, first as usize, i);
    if schema::formats::is_integer(code) {
        code
    } else {
        0
    }
}

fn find_shape(formats: &[u8], schema: &[u32], first: u32) -> Shape
    ensures { result ≡ shape_of (was formats) (was schema) first }
{
    let from = first as usize;
    if schema::formats::is_run_end(schema::code_of(formats, schema, from, 0)) {
        let code = whole_code(formats, schema, first, 2);
        let width = schema::formats::width_of(schema::code_of(formats, schema, from, 1));
        return Shape {
            runs: true,
            code,
            width,
        };
    }
    let code = whole_code(formats, schema, first, 0);
    Shape {
        runs: false,
        code,
        width: 0,
    }
}

// ---- where their rows stand

fn find_plain(lengths: &[u64], places: &[u64], first: u32, code: u8) -> Numbers
    requires { is_integer code ≡ true }
    ensures { result ≡ plain_numbers (column (was lengths) (was places) [] [] first) code }
{
    let ends = Ends {
        start: 0,
        stop: 0,
        width: 0,
        offset: 0,
        len: 0,
    };
    let cells = cells::find_cells(places, first, 0, code);
    let skip = entries::offset_at(lengths, first, 0);
    Numbers {
        runs: false,
        ends,
        cells,
        skip,
    }
}

fn find_runs(lengths: &[u64], places: &[u64], first: u32, code: u8, width: u8) -> Numbers
    requires code_value { is_integer code ≡ true }
    requires first_bound { offset_of (column lengths.now [] [] [] first) 1 + length_of (column lengths.now [] [] [] first) 1 < 2 ^ 63 }
    requires fact { let c = column lengths.now places.now [] [] first in let size = width * (offset_of c 1 + length_of c 1) in (0 < size → place c 1 3 + size < 2 ^ 64) }
    ensures { result ≡ run_numbers (column (was lengths) (was places) [] [] first) code width }
{
    let ends = stretches::find_ends(lengths, places, first, width);
    let cells = cells::find_cells(places, first, 2, code);
    let skip = entries::offset_at(lengths, first, 2);
    Numbers {
        runs: true,
        ends,
        cells,
        skip,
    }
}

fn find_numbers(lengths: &[u64], places: &[u64], first: u32, s: Shape) -> Numbers
    requires code_value { is_integer s.code ≡ true }
    requires first_bound { s.runs ≡ true → offset_of (column lengths.now [] [] [] first) 1 + length_of (column lengths.now [] [] [] first) 1 < 2 ^ 63 }
    requires fact { let c = column lengths.now places.now [] [] first in let size = s.width * (offset_of c 1 + length_of c 1) in (s.runs ≡ true → 0 < size → place c 1 3 + size < 2 ^ 64) }
    ensures { result ≡ numbers_of (column (was lengths) (was places) [] [] first) s }
{
    if s.runs {
        return find_runs(lengths, places, first, s.code, s.width);
    }
    find_plain(lengths, places, first, s.code)
}

// ---- one column

// The answer of a tally: 15 before 16.
fn mean_of(t: Tally, lift: u64) -> Result<MeanReport, u8>
    requires { (t.hi + t.below < 18446744073709551615) × (t.count < 9223372036854775808) }
    ensures { result ≡ mean_by t.count (tallied_by lift t) }
{
    let Some(sum) = tally::exact_sum(t, lift) else {
        return Err(15);
    };
    let count = t.count;
    if count == 0 {
        return Err(16);
    }
    let f = fractions::reduced(sum, count as i64);
    Ok(MeanReport {
        count,
        sum,
        minus: f.minus,
        over: f.over,
        under: f.under,
    })
}

// COUNT, SUM AND MEAN of the rows start .. end - 1 of the column of n nodes that begins at node `first`; the grounds are 9, 10 and 12 of the
// column, then 2, 10, 15 and 16.
pub fn mean(
    formats: &[u8],
    schema: &[u32],
    lengths: &[u64],
    places: &[u64],
    buffers: &[u64],
    body: &[u8],
    first: u32,
    n: u32,
    start: u64,
    end: u64,
) -> Result<MeanReport, u8>
    ensures { result ≡ mean_report (was formats) (was schema) (tables_of (was lengths) (was places) (was buffers) (was body)) first n start end }
{
    let refusal = columns::column_ground(formats, schema, lengths, places, buffers, body, first, n);
    if refusal != 0 {
        return Err(refusal);
    }
    if !columns::column_pair::is_range(lengths, first, start, end) {
        return Err(2);
    }
    let shape = find_shape(formats, schema, first);
    if shape.code == 0 {
        return Err(10);
    }
    let numbers = find_numbers(lengths, places, first, shape);
    let t = crate::cell_sums::sum_rows(body, numbers, start, end);
    let cells = numbers.cells;
    mean_of(t, cells::lift_of(cells.width))
}

// ---- two columns

// The answer of two tallies: 15 of either before 16.
fn ratio_of(t: Tally, lift_t: u64, u: Tally, lift_u: u64) -> Result<RatioReport, u8>
    requires { (t.hi + t.below < 18446744073709551615) × (u.hi + u.below < 18446744073709551615) }
    ensures { result ≡ ratio_by t.count (tallied_by lift_t t) (tallied_by lift_u u) }
{
    let Some(first) = tally::exact_sum(t, lift_t) else {
        return Err(15);
    };
    let Some(second) = tally::exact_sum(u, lift_u) else {
        return Err(15);
    };
    if second == 0 {
        return Err(16);
    }
    let f = fractions::reduced(first, second);
    Ok(RatioReport {
        count: t.count,
        first,
        second,
        minus: f.minus,
        over: f.over,
        under: f.under,
    })
}

// TOTAL OVER TOTAL of the rows start .. end - 1 in which both columns have a number; each ground is asked of both before the next.
pub fn ratio(
    formats: &[u8],
    schema: &[u32],
    lengths: &[u64],
    places: &[u64],
    buffers: &[u64],
    body: &[u8],
    first_a: u32,
    n_a: u32,
    first_b: u32,
    n_b: u32,
    start: u64,
    end: u64,
) -> Result<RatioReport, u8>
    ensures { result ≡ ratio_report (was formats) (was schema) (tables_of (was lengths) (was places) (was buffers) (was body)) first_a n_a first_b n_b start end }
{
    let refusal = columns::column_pair::pair_ground(
        formats, schema, lengths, places, buffers, body, first_a, n_a, first_b, n_b,
    );
    if refusal != 0 {
        return Err(refusal);
    }
    if !columns::column_pair::is_range(lengths, first_a, start, end) {
        return Err(2);
    }
    if !columns::column_pair::is_range(lengths, first_b, start, end) {
        return Err(2);
    }
    let p = find_shape(formats, schema, first_a);
    let q = find_shape(formats, schema, first_b);
    if p.code == 0 {
        return Err(10);
    }
    if q.code == 0 {
        return Err(10);
    }
    let a = find_numbers(lengths, places, first_a, p);
    let b = find_numbers(lengths, places, first_b, q);
    let sums = crate::cell_sums::sum_both(body, a, b, start, end);
    let c = a.cells;
    let d = b.cells;
    let t = sums.first;
    let u = sums.second;
    ratio_of(t, cells::lift_of(c.width), u, cells::lift_of(d.width))
}
