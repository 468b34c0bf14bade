// One row of a lent column, read from the top of the tree downward, at most eight levels.
#![tactic(auto)]

pub mod column_reader;
pub mod row_pair;
pub mod runs;
mod unions;

ghost use Rattle.std.specs.Prelude.{◌≡◌, [], suc, ◌+◌, ◌≤◌, ◌<◌, ◌^◌, length};
ghost use Rattle.clauses.specs.Slices.{was, left};
ghost use Rattle.number.specs.Number.{splice};
ghost use Rattle.array_data.specs.Tables.{part, offset_of};
ghost use Rattle.array_data.specs.entries.Entries.{column};
ghost use Rattle.row_reader.specs.Walk.{code_width, run_in, run_of, runs_step, run_at, step_on, step_at, walk, is_refused, row_at};

use array_data::entries::Validity;
use array_data::{entries, lent_tables};
use run_ends::RunRow;
use slot_reader::run::ColumnRow;
use slot_reader::{RowRead, run};

// What a node says of a row: all there is, or the row of a child; of a union's child with its id.
#[derive(Clone, Copy)]
pub enum Step {
    Done(RowRead),
    Go { node: usize, row: u64 },
    Choose { id: u8, node: usize, row: u64 },
}

// A row with the ids of the unions on the way to it: the first `count` of `ids`.
#[derive(Clone, Copy)]
struct Reading {
    read: RowRead,
    ids: [u8; 8],
    count: usize,
}

// A row, and how many ids of unions were written.
#[derive(Clone, Copy)]
pub struct RowAnswer {
    pub read: RowRead,
    pub ids: u8,
}

// ---- run ends

// The run of a row of a column of `rows` rows at `offset`, whose run ends of w bytes are the len from entry `off` of the buffer on.
fn find_run(
    body: &[u8],
    start: u64,
    size: u64,
    off: u64,
    len: u64,
    w: u8,
    offset: u64,
    rows: u64,
    row: ColumnRow,
) -> Result<RunRow, u8>
    ensures { result ≡ run_in w (part (was body) start size) off len offset rows row.0 }
{
    if u64::MAX - off < len {
        return Err(12);
    }
    if !lent_tables::rows_fit(off + len, w, lent_tables::part_len(body, start, size)) {
        return Err(12);
    }
    let n = len * (w as u64);
    if n == 0 {
        let none = [0u8; 0];
        return run::run_at(&none, offset, rows, w, row);
    }
    let a = (start + off * (w as u64)) as usize;
    let e = a + n as usize;
    run::run_at(&body[a..e], offset, rows, w, row)
}

// The run of a row of the run-end node i, and the rows left in it: the run ends are the next node, with their own offset.
fn run_of(
    tree: &[u64],
    lengths: &[u64],
    places: &[u64],
    body: &[u8],
    first: u32,
    i: usize,
    row: ColumnRow,
) -> Result<RunRow, u8>
    requires { i + 2 < 2 ^ 32 }
    ensures { result ≡ run_of (column (was lengths) (was places) [] (was body) first) i (code_width (was tree) (suc i)) row.0 }
{
    let e = i + 1;
    let w = schema::formats::width_of(slot_reader::code_word(tree, e));
    let start = entries::place_at(places, first, e, 3);
    let size = entries::place_at(places, first, e, 4);
    let off = entries::offset_at(lengths, first, e);
    let len = entries::length_at(lengths, first, e);
    let offset = entries::offset_at(lengths, first, i);
    let rows = entries::length_at(lengths, first, i);
    find_run(body, start, size, off, len, w, offset, rows, row)
}

// The values' row is the run's number: the values are the node behind the run ends. The run reader adds the offset itself.
fn step_runs(
    tree: &[u64],
    lengths: &[u64],
    places: &[u64],
    body: &[u8],
    first: u32,
    i: usize,
    slot: u64,
) -> Step
    requires i_bound { i + 2 < 2 ^ 32 }
    requires i_bound_2 { offset_of (column lengths.now [] [] [] first) i ≤ slot }
    ensures { result ≡ runs_step (column (was lengths) (was places) [] (was body) first) i (code_width (was tree) (suc i)) slot }
{
    let row = ColumnRow(slot - entries::offset_at(lengths, first, i));
    let Ok(found) = run_of(tree, lengths, places, body, first, i, row) else {
        return Step::Done(RowRead::Refused(12));
    };
    Step::Go {
        node: i + 2,
        row: found.run.0 as u64,
    }
}

// The run of a row of an opened column, and how many rows of the column from that one on stand in it: 10 where it is no run-end column, 2 where
// there is no such row.
pub fn run_at(
    tree: &[u64],
    lengths: &[u64],
    places: &[u64],
    body: &[u8],
    first: u32,
    row: ColumnRow,
) -> Result<RunRow, u8>
    ensures { result ≡ run_at (was tree) (column (was lengths) (was places) [] (was body) first) row.0 }
{
    if !schema::formats::is_run_end(slot_reader::code_word(tree, 0)) {
        return Err(10);
    }
    run_of(tree, lengths, places, body, first, 0, row)
}

// ---- one level

// What a valid slot says.
fn step_slot(
    tree: &[u64],
    lengths: &[u64],
    places: &[u64],
    buffers: &[u64],
    body: &[u8],
    first: u32,
    i: usize,
    slot: u64,
) -> Step
    requires i_bound { i + 2 < 2 ^ 32 }
    requires i_bound_2 { offset_of (column lengths.now [] [] [] first) i ≤ slot }
    ensures { result ≡ step_on (was tree) (column (was lengths) (was places) (was buffers) (was body) first) i slot }
{
    let code = slot_reader::code_word(tree, i);
    if schema::formats::is_sparse(code) {
        return unions::step_sparse(tree, places, body, first, i, slot);
    }
    if schema::formats::is_union(code) {
        return unions::step_dense(tree, places, body, first, i, slot);
    }
    if schema::formats::is_run_end(code) {
        return step_runs(tree, lengths, places, body, first, i, slot);
    }
    Step::Done(slot_reader::read_slot(tree, lengths, places, buffers, body, first, i, slot))
}

// What node i says of its row `row`: the one place where a node's offset is added.
fn next_step(
    tree: &[u64],
    lengths: &[u64],
    places: &[u64],
    buffers: &[u64],
    body: &[u8],
    first: u32,
    i: usize,
    row: u64,
) -> Step
    ensures { result ≡ step_at (was tree) (column (was lengths) (was places) (was buffers) (was body) first) i row }
{
    if 32 <= i {
        return Step::Done(RowRead::Refused(9));
    }
    let off = entries::offset_at(lengths, first, i);
    if u64::MAX - off < row {
        return Step::Done(RowRead::Refused(12));
    }
    let slot = off + row;
    match entries::valid_at(places, body, first, i, slot) {
        Validity::Valid => step_slot(tree, lengths, places, buffers, body, first, i, slot),
        Validity::Null => Step::Done(RowRead::Null),
        Validity::Outside => Step::Done(RowRead::Refused(12)),
    }
}

// ---- the whole row

// Row `row` of node i, at most `depth` levels down; the ids of unions are written from number `count` on.
fn read_at(
    tree: &[u64],
    lengths: &[u64],
    places: &[u64],
    buffers: &[u64],
    body: &[u8],
    first: u32,
    i: usize,
    row: u64,
    ids: [u8; 8],
    count: usize,
    depth: usize,
) -> Reading
    requires { (count + depth ≤ 8) × (length ids ≡ 8) }
    ensures { let w = walk (was tree) (column (was lengths) (was places) (was buffers) (was body) first) depth i row in (result.read ≡ w.read) × (result.count ≡ count + length w.ids) × (result.ids ≡ splice count w.ids ids) }
{
    if depth == 0 {
        return Reading {
            read: RowRead::Refused(9),
            ids,
            count,
        };
    }
    match next_step(tree, lengths, places, buffers, body, first, i, row) {
        Step::Done(read) => Reading { read, ids, count },
        Step::Go { node, row: r } => read_at(
            tree,
            lengths,
            places,
            buffers,
            body,
            first,
            node,
            r,
            ids,
            count,
            depth - 1,
        ),
        Step::Choose { id, node, row: r } => {
            let mut more = ids;
            more[count] = id;
            read_at(
                tree,
                lengths,
                places,
                buffers,
                body,
                first,
                node,
                r,
                more,
                count + 1,
                depth - 1,
            )
        }
    }
}

fn is_refused(read: RowRead) -> bool
    ensures { result ≡ is_refused read }
{
    match read {
        RowRead::Null => false,
        RowRead::Number(_) => false,
        RowRead::Bytes { at: _, len: _ } => false,
        RowRead::List {
            node: _,
            start: _,
            len: _,
        } => false,
        RowRead::Refused(_) => true,
    }
}

// A copy; that it has 8 elements is known of an array that a call returns.
fn copied(ids: [u8; 8]) -> [u8; 8]
    ensures { result ≡ ids }
{
    ids
}

// Row `row` of the column whose nodes begin at node `first` of the tables and whose words are those of `tree`. The ids of the unions on
// the way to it are written to the front of the array, which is otherwise left as it was; a refusal leaves it whole.
pub fn row_at(
    tree: &[u64],
    lengths: &[u64],
    places: &[u64],
    buffers: &[u64],
    body: &[u8],
    first: u32,
    row: u64,
    ids: &mut [u8; 8],
) -> RowAnswer
    ensures fact { let c = column (was lengths) (was places) (was buffers) (was body) first in (result.read ≡ (row_at (was tree) c row).read) × (result.ids ≡ length (row_at (was tree) c row).ids) }
    ensures ids_value { ids.new ≡ splice 0 (row_at (was tree) (column (was lengths) (was places) (was buffers) (was body) first) row).ids ids.old }
{
    if entries::length_at(lengths, first, 0) <= row {
        return RowAnswer {
            read: RowRead::Refused(2),
            ids: 0,
        };
    }
    let old = copied(*ids);
    let r = read_at(
        tree, lengths, places, buffers, body, first, 0, row, old, 0, 8,
    );
    let read = r.read;
    if is_refused(read) {
        return RowAnswer { read, ids: 0 };
    }
    let found = r.ids;
    *ids = found;
    RowAnswer {
        read,
        ids: r.count as u8,
    }
}
