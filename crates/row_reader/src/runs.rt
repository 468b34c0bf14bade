// The run reader on a lent column outside a join (docs/FORMAT.md): the run of a row, and how many rows of the column from that one on
// stand in it. A column is checked with each call by run_at, or opened once (crate::open_column) and asked by run_of_opened.
ghost use Rattle.std.specs.Prelude.{◌≡◌, []};
ghost use Rattle.clauses.specs.Slices.{was, left};
ghost use Rattle.source_rules.specs.kinds.Rows.{tables_of};
ghost use Rattle.array_data.specs.entries.Entries.{column};
ghost use Rattle.row_reader.specs.Walk.{run_at};
ghost use Rattle.row_reader.specs.runs.Answers.{read_run, refusal, numbers};

use run_ends::RunRow;
use slot_reader::run::ColumnRow;

// A copy; that it has 256 elements is known of an array that a call returns.
fn copied(tree: [u64; 256]) -> [u64; 256]
    ensures { result ≡ tree }
{
    tree
}

// The run of a row of the column of n nodes that begins at node `first`: 9, 10 and 12 for a malformed column, then 10 where it is no run-end
// column, then 2.
pub fn read_run(
    formats: &[u8],
    schema: &[u32],
    lengths: &[u64],
    places: &[u64],
    buffers: &[u64],
    body: &[u8],
    first: u32,
    n: u32,
    row: ColumnRow,
) -> Result<RunRow, u8>
    ensures { result ≡ read_run (was formats) (was schema) (tables_of (was lengths) (was places) (was buffers) (was body)) first n row.0 }
{
    let mut tree = [0u64; 256];
    let refused = crate::column_reader::open_column(
        formats, schema, lengths, places, buffers, body, first, n, &mut tree,
    );
    if refused != 0 {
        return Err(refused);
    }
    let words = copied(tree);
    crate::run_at(&words, lengths, places, body, first, row)
}

// The ground, then 14 where the answer has not 2 numbers, or 0. They are the run and the rows left; a ground leaves them as they
// were.
fn put_run(found: Result<RunRow, u8>, answer: &mut [u64]) -> u8
    ensures value { result ≡ refusal found answer.old }
    ensures answer_value { answer.new ≡ numbers found answer.old }
{
    match found {
        Ok(RunRow { run, left }) => {
            if answer.len() != 2 {
                return 14;
            }
            answer[0] = run.0 as u64;
            answer[1] = left;
            0
        }
        Err(refused) => refused,
    }
}

// The same into a lent answer.
pub fn run_at(
    formats: &[u8],
    schema: &[u32],
    lengths: &[u64],
    places: &[u64],
    buffers: &[u64],
    body: &[u8],
    first: u32,
    n: u32,
    row: u64,
    answer: &mut [u64],
) -> u8
    ensures value { result ≡ refusal (read_run (was formats) (was schema) (tables_of (was lengths) (was places) (was buffers) (was body)) first n row) answer.old }
    ensures answer_value { answer.new ≡ numbers (read_run (was formats) (was schema) (tables_of (was lengths) (was places) (was buffers) (was body)) first n row) answer.old }
{
    let found = read_run(
        formats,
        schema,
        lengths,
        places,
        buffers,
        body,
        first,
        n,
        ColumnRow(row),
    );
    put_run(found, answer)
}

// The run of a row of an opened column.
pub fn run_of_opened(
    tree: &[u64],
    lengths: &[u64],
    places: &[u64],
    body: &[u8],
    first: u32,
    row: u64,
    answer: &mut [u64],
) -> u8
    ensures value { result ≡ refusal (run_at (was tree) (column (was lengths) (was places) [] (was body) first) row) answer.old }
    ensures answer_value { answer.new ≡ numbers (run_at (was tree) (column (was lengths) (was places) [] (was body) first) row) answer.old }
{
    let found = crate::run_at(tree, lengths, places, body, first, ColumnRow(row));
    put_run(found, answer)
}
