// Whether two rows of lent columns of numbers read the same (docs/FORMAT.md): floats by their bits, a null as a null.
ghost use Rattle.std.specs.Prelude.{◌≡◌, [], ◌<◌, ◌^◌};
ghost use Rattle.clauses.specs.Slices.{was};
ghost use Rattle.source_rules.specs.kinds.Rows.{tables_of};
ghost use Rattle.array_data.specs.entries.Entries.{column};
ghost use Rattle.array_data.specs.node_words.Words.{planted};
ghost use Rattle.row_reader.specs.Walk.{row_at};
ghost use Rattle.row_reader.specs.row_pair.Same.{number_node, of_numbers, leaf_in, rows_ground, same_row};

use array_data::{entries, node_words};
use slot_reader::RowRead;
use slot_reader::leaf_row::Leaf;

pub const NO_SUCH_ROW: u8 = 2;

pub const NO_NUMBERS: u8 = 10;

// ---- which columns

// Whether node i holds numbers and not keys.
fn is_number(formats: &[u8], schema: &[u32], first: u32, i: usize) -> bool
    requires { i < 2 ^ 32 }
    ensures { result ≡ number_node (was formats) (was schema) first i }
{
    if schema::dictionary_of(schema, first as usize, i) != 0 {
        return false;
    }
    schema::formats::is_fixed(schema::code_of(formats, schema, first as usize, i))
}

// Whether the column is one of numbers, or a run-end column whose values are.
fn has_numbers(formats: &[u8], schema: &[u32], first: u32) -> bool
    ensures { result ≡ of_numbers (was formats) (was schema) first }
{
    if schema::formats::is_run_end(schema::code_of(formats, schema, first as usize, 0)) {
        return is_number(formats, schema, first, 2);
    }
    is_number(formats, schema, first, 0)
}

// The ground of comparing two rows: 9, 10 and 12 of the columns, then 2 and 10, each asked of both before the next; 0 where none stands.
fn rows_ground(
    formats: &[u8],
    schema: &[u32],
    lengths: &[u64],
    places: &[u64],
    buffers: &[u64],
    body: &[u8],
    first_a: u32,
    n_a: u32,
    first_b: u32,
    n_b: u32,
    row_a: u64,
    row_b: u64,
) -> u8
    ensures { result ≡ rows_ground (was formats) (was schema) (tables_of (was lengths) (was places) (was buffers) (was body)) first_a n_a first_b n_b row_a row_b }
{
    let refusal = columns::column_pair::pair_ground(
        formats, schema, lengths, places, buffers, body, first_a, n_a, first_b, n_b,
    );
    if refusal != 0 {
        return refusal;
    }
    if entries::length_at(lengths, first_a, 0) <= row_a {
        return NO_SUCH_ROW;
    }
    if entries::length_at(lengths, first_b, 0) <= row_b {
        return NO_SUCH_ROW;
    }
    if !has_numbers(formats, schema, first_a) {
        return NO_NUMBERS;
    }
    if !has_numbers(formats, schema, first_b) {
        return NO_NUMBERS;
    }
    0
}

// ---- the rows

// The leaf of a row; null where it is none.
fn leaf_of(read: RowRead) -> Leaf
    ensures { result ≡ leaf_in read }
{
    match read {
        RowRead::Null => Leaf::Null,
        RowRead::Number(leaf) => leaf,
        RowRead::Bytes { at: _, len: _ } => Leaf::Null,
        RowRead::List {
            node: _,
            start: _,
            len: _,
        } => Leaf::Null,
        RowRead::Refused(_) => Leaf::Null,
    }
}

// The leaf that row `row` of the column of n nodes reads as.
fn leaf_at(
    formats: &[u8],
    schema: &[u32],
    lengths: &[u64],
    places: &[u64],
    buffers: &[u64],
    body: &[u8],
    first: u32,
    n: u32,
    row: u64,
) -> Leaf
    ensures { result ≡ leaf_in (row_at (planted (was formats) (was schema) first n) (column (was lengths) (was places) (was buffers) (was body) first) row).read }
{
    let mut tree = [0u64; 256];
    node_words::plant(formats, schema, first as usize, n as usize, &mut tree);
    let words = crate::column_reader::copied(tree);
    let mut ids = [0u8; 8];
    let found = crate::row_at(&words, lengths, places, buffers, body, first, row, &mut ids);
    let read = found.read;
    leaf_of(read)
}

// WHETHER TWO ROWS READ THE SAME, of two columns in the same tables: row `row_a` of the first and row `row_b` of the second.
pub fn same_row(
    formats: &[u8],
    schema: &[u32],
    lengths: &[u64],
    places: &[u64],
    buffers: &[u64],
    body: &[u8],
    first_a: u32,
    n_a: u32,
    first_b: u32,
    n_b: u32,
    row_a: u64,
    row_b: u64,
) -> Result<bool, u8>
    ensures { result ≡ same_row (was formats) (was schema) (tables_of (was lengths) (was places) (was buffers) (was body)) first_a n_a first_b n_b row_a row_b }
{
    let refusal = rows_ground(
        formats, schema, lengths, places, buffers, body, first_a, n_a, first_b, n_b, row_a, row_b,
    );
    if refusal != 0 {
        return Err(refusal);
    }
    let a = leaf_at(
        formats, schema, lengths, places, buffers, body, first_a, n_a, row_a,
    );
    let b = leaf_at(
        formats, schema, lengths, places, buffers, body, first_b, n_b, row_b,
    );
    Ok(slot_reader::leaf_row::same_leaf(a, b))
}
