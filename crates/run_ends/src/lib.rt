// Run ends of the run-end encoded layout: the run of a row with the rows left in it, and the runs of a range.
// Follows arrow-data 60.1.0 src/transform/run.rs, Apache-2.0; see NOTICE.
#![tactic(auto)]

pub mod copies;

ghost use Rattle.std.specs.Prelude.{◌≡◌, ◌+◌, ◌*◌, ◌≤◌, ◌<◌, length};
ghost use Rattle.number.specs.Number.{entry};
ghost use Rattle.run_ends.specs.Lookup.{not_above, tally, passed, bisect, left_of, answered, found_run, format_run, Rising, last_end, span_of, runs_of, runs_between};

use number::Unsigned;

// A row of the array, counted with the array's offset added: the caller of a sliced array adds it once.
#[derive(Clone, Copy)]
pub struct LogicalRow(pub u64);

// A run, counted from the first run end.
#[derive(Clone, Copy)]
pub struct PhysicalRun(pub usize);

// The run of a row, and how many rows from that one on stand in it and before the last.
#[derive(Clone, Copy)]
pub struct RunRow {
    pub run: PhysicalRun,
    pub left: u64,
}

// The runs of a range of rows: `count` from `first` on.
#[derive(Clone, Copy)]
pub struct RunRange {
    pub first: PhysicalRun,
    pub count: usize,
}

// The rows from `row` to where the run or the column ends: `last` is one past the column's last row.
fn rows_left(end: LogicalRow, last: LogicalRow, row: LogicalRow) -> u64
    ensures { result ≡ left_of end.0 last.0 row.0 }
{
    end.0.min(last.0).saturating_sub(row.0)
}

// 1 where the run end is not above the row, else 0.
fn not_above(row: LogicalRow, end: LogicalRow) -> usize
    ensures value { result ≡ not_above row.0 end.0 }
    ensures upper_bound { result ≤ 1 }
{
    if row.0 < end.0 { 0 } else { 1 }
}

// The answer for a run that ends at `end`: None where that is not above the row.
fn found_at(run: PhysicalRun, end: LogicalRow, row: LogicalRow, last: LogicalRow) -> Option<RunRow>
    ensures { result ≡ answered run.0 end.0 last.0 row.0 }
{
    if end.0 <= row.0 {
        return None;
    }
    Some(RunRow {
        run,
        left: rows_left(end, last, row),
    })
}

// The runs from a to b, both among n; None where b stands before a.
fn span(a: PhysicalRun, b: PhysicalRun, n: usize) -> Option<RunRange>
    requires { b.0 < n }
    ensures { result ≡ span_of a b }
{
    if b.0 < a.0 {
        return None;
    }
    Some(RunRange {
        first: a,
        count: b.0 - a.0 + 1,
    })
}

// The end of a run.
pub fn run_end<N: Unsigned>(body: &[u8], from: usize, run: PhysicalRun) -> LogicalRow
    requires { from + N.SIZE * run.0 + N.SIZE ≤ length body.now }
    ensures { result.0 ≡ entry N.SIZE body.now from run.0 }
{
    LogicalRow(N::read(body, from + N::SIZE * run.0).to_u64())
}

// The last of n run ends; 0 where there is none.
pub fn last_run_end<N: Unsigned>(body: &[u8], from: usize, n: usize) -> LogicalRow
    requires { from + N.SIZE * n ≤ length body.now }
    ensures { result.0 ≡ last_end N.SIZE body.now from n }
{
    if n == 0 {
        return LogicalRow(0);
    }
    run_end::<N>(body, from, PhysicalRun(n - 1))
}

// How many of the m runs from `base` on end at the row or before it.
fn tally<N: Unsigned>(body: &[u8], from: usize, base: usize, m: usize, row: LogicalRow) -> usize
    requires { from + N.SIZE * (base + m) ≤ length body.now }
    ensures value { result ≡ tally (entry N.SIZE body.now from) row.0 base m }
    ensures upper_bound { result ≤ m }
{
    let mut sum = 0;
    for j in 0..m {
        sum += not_above(row, run_end::<N>(body, from, PhysicalRun(base + j)));
    }
    sum
}

// How many of the three runs that part the runs from `base` on into quarters of q end at the row or before it.
fn passed<N: Unsigned>(body: &[u8], from: usize, base: usize, q: usize, row: LogicalRow) -> usize
    requires { from + N.SIZE * (base + 3 * q) + N.SIZE ≤ length body.now }
    ensures value { result ≡ passed (entry N.SIZE body.now from) row.0 base q }
    ensures upper_bound { result ≤ 3 }
{
    let a = run_end::<N>(body, from, PhysicalRun(base + q));
    let b = run_end::<N>(body, from, PhysicalRun(base + 2 * q));
    let c = run_end::<N>(body, from, PhysicalRun(base + 3 * q));
    not_above(row, a) + not_above(row, b) + not_above(row, c)
}

// The first run whose end is above the row, by quarters: as many steps for every row, and no branch on what is read.
fn bisect<N: Unsigned>(body: &[u8], from: usize, n: usize, row: LogicalRow) -> PhysicalRun
    requires { from + N.SIZE * n ≤ length body.now }
    ensures { result.0 ≡ bisect N.SIZE body.now from n row.0 }
{
    let mut base = 0;
    let mut size = n;
    while 4 <= size {
        let q = size / 4;
        let t = passed::<N>(body, from, base, q, row);
        base += q * t;
        size -= 3 * q;
    }
    PhysicalRun(base + tally::<N>(body, from, base, size, row))
}

// The run of a row among the n whose ends stand from `from` on, and the rows left in it before `last`; None where no run ends above the row.
pub fn find_run<N: Unsigned>(
    body: &[u8],
    from: usize,
    n: usize,
    row: LogicalRow,
    last: LogicalRow,
) -> Option<RunRow>
    requires { from + N.SIZE * n ≤ length body.now }
    ensures value { result ≡ found_run N.SIZE body.now from n last.0 row.0 }
    ensures value_2 { Rising N.SIZE body.now from n → result ≡ format_run N.SIZE body.now from n last.0 row.0 }
{
    let run = bisect::<N>(body, from, n, row);
    if n <= run.0 {
        return None;
    }
    found_at(run, run_end::<N>(body, from, run), row, last)
}

// The runs of the rows start .. end - 1; None for no rows, and where a row is past the last run. Where the range ends in its first run
// there is one search. Both rows are counted with the array's offset added.
pub fn runs_of_range<N: Unsigned>(
    body: &[u8],
    from: usize,
    n: usize,
    start: LogicalRow,
    end: LogicalRow,
) -> Option<RunRange>
    requires { from + N.SIZE * n ≤ length body.now }
    ensures value { result ≡ runs_of (found_run N.SIZE body.now from n end.0) start.0 end.0 }
    ensures value_2 { Rising N.SIZE body.now from n → result ≡ runs_between (format_run N.SIZE body.now from n end.0) start.0 end.0 }
{
    if end.0 <= start.0 {
        return None;
    }
    let a = find_run::<N>(body, from, n, start, end)?;
    let last = end.0 - 1;
    if last - start.0 < a.left {
        return Some(RunRange {
            first: a.run,
            count: 1,
        });
    }
    let b = find_run::<N>(body, from, n, LogicalRow(last), end)?;
    span(a.run, b.run, n)
}
