// Stretches of rows of one value in a run-end column: the run ends are its second node, with their own offset, and the values its third.
ghost use Rattle.std.specs.Prelude.{◌≡◌, ◌+◌, ◌-◌, ◌*◌, ◌^◌, ◌<◌, ◌≤◌, [], length};
ghost use Rattle.clauses.specs.Slices.{was};
ghost use Rattle.array_data.specs.Tables.{part, length_of, offset_of, place};
ghost use Rattle.array_data.specs.entries.Entries.{column};
ghost use Rattle.slot_reader.specs.run.Rows.{row_run};
ghost use Rattle.aggregates.specs.stretches.Ends.{ends_of};

use array_data::entries;
use run_ends::RunRow;
use slot_reader::run;
use slot_reader::run::ColumnRow;

// The run ends of `width` bytes from `start` to `stop` in the body, and the column's offset and length.
#[derive(Clone, Copy)]
pub struct Ends {
    pub start: usize,
    pub stop: usize,
    pub width: u8,
    pub offset: u64,
    pub len: u64,
}

// Those of the column that begins at node `first` of the tables.
pub fn find_ends(lengths: &[u64], places: &[u64], first: u32, width: u8) -> Ends
    requires first_bound { offset_of (column lengths.now [] [] [] first) 1 + length_of (column lengths.now [] [] [] first) 1 < 2 ^ 63 }
    requires fact { let c = column lengths.now places.now [] [] first in let size = width * (offset_of c 1 + length_of c 1) in (0 < size → place c 1 3 + size < 2 ^ 64) }
    ensures { result ≡ ends_of (column (was lengths) (was places) [] [] first) width }
{
    let w = width as usize;
    let from = entries::place_at(places, first, 1, 3) as usize;
    let skipped = entries::offset_at(lengths, first, 1) as usize;
    let count = entries::length_at(lengths, first, 1) as usize;
    Ends {
        start: from + w * skipped,
        stop: from + w * (skipped + count),
        width,
        offset: entries::offset_at(lengths, first, 0),
        len: entries::length_at(lengths, first, 0),
    }
}

// The run of a row, and how many rows of the column from that one on stand in it.
pub fn stretch_at(body: &[u8], e: Ends, row: u64) -> Result<RunRow, u8>
    requires { (e.start ≤ e.stop) × (e.stop ≤ length body.now) }
    ensures { result ≡ row_run (part (was body) e.start (e.stop - e.start)) e.offset e.len e.width row }
{
    let a = e.start;
    let b = e.stop;
    run::run_of_row(&body[a..b], e.offset, e.len, e.width, ColumnRow(row))
}
