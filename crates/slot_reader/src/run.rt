// The run reader: it keeps the run ends that it was given and answers for one row after another.
ghost use Rattle.std.specs.Prelude.{◌≡◌};
ghost use Rattle.clauses.specs.Slices.{was};
ghost use Rattle.slot_reader.specs.run.Rows.{row_run, ends_run};

use run_ends::{LogicalRow, RunRow};

// A row of the column, counted from its first: the offset is not added yet.
#[derive(Clone, Copy)]
pub struct ColumnRow(pub u64);

// A run-end column: its run ends of `width` bytes, its offset and its length.
#[derive(Clone, Copy)]
pub struct RunReader<'a> {
    pub ends: &'a [u8],
    pub offset: u64,
    pub len: u64,
    pub width: u8,
}

// The run of a row that is counted with the offset added, and the rows left in it before `last`.
fn found_run(ends: &[u8], width: u8, row: LogicalRow, last: LogicalRow) -> Option<RunRow>
    ensures { result ≡ ends_run (was ends) width last.0 row.0 }
{
    match width {
        2 => run_ends::find_run::<u16>(ends, 0, ends.len() / 2, row, last),
        4 => run_ends::find_run::<u32>(ends, 0, ends.len() / 4, row, last),
        8 => run_ends::find_run::<u64>(ends, 0, ends.len() / 8, row, last),
        _ => None,
    }
}

// The run of a row of the column whose run ends of `width` bytes are lent, and how many rows of the column from that one on stand in it; or the
// ground of refusal.
pub fn run_of_row(
    ends: &[u8],
    offset: u64,
    len: u64,
    width: u8,
    row: ColumnRow,
) -> Result<RunRow, u8>
    ensures { result ≡ row_run (was ends) offset len width row.0 }
{
    let i = row.0;
    if len <= i {
        return Err(2);
    }
    if u64::MAX - offset < len {
        return Err(12);
    }
    let x = LogicalRow(offset + i);
    let last = LogicalRow(offset + len);
    found_run(ends, width, x, last).ok_or(12)
}

// A reader over lent run ends.
pub fn new<'a>(ends: &'a [u8], offset: u64, len: u64, width: u8) -> RunReader<'a>
    ensures { (result.ends ≡ ends.entry) × (result.offset ≡ offset) × (result.len ≡ len) × (result.width ≡ width) }
{
    RunReader {
        ends,
        offset,
        len,
        width,
    }
}

// The run of a row.
pub fn find<'a>(r: RunReader<'a>, row: ColumnRow) -> Result<RunRow, u8>
    ensures { result ≡ row_run r.entry.ends.now r.entry.offset r.entry.len r.entry.width row.0 }
{
    run_of_row(r.ends, r.offset, r.len, r.width, row)
}

// The run of a row, by a reader of these run ends: for a caller that keeps none.
pub fn run_at(ends: &[u8], offset: u64, len: u64, width: u8, row: ColumnRow) -> Result<RunRow, u8>
    ensures { result ≡ row_run (was ends) offset len width row.0 }
{
    find(new(ends, offset, len, width), row)
}
