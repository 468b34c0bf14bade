// Reading a lent column outside a join (docs/FORMAT.md). A column is checked once with open_column and then read row by row with
// row_reader::row_at over the tree that it wrote, or checked and read at one row with read_row.

ghost use Rattle.std.specs.Prelude.{◌≡◌, length};
ghost use Rattle.clauses.specs.Slices.{was, left};
ghost use Rattle.number.specs.Number.{splice};
ghost use Rattle.source_rules.specs.kinds.Rows.{tables_of};
ghost use Rattle.columns.specs.Grounds.{column_ground};
ghost use Rattle.row_reader.specs.column_reader.Column.{opened_tree, read_row};

use crate::RowAnswer;
use array_data::node_words;
use slot_reader::RowRead;

// The ground of the column of n nodes that begins at node `first`: 9, 10, 12, or 0 where it is accepted. Then its tree is written, which
// is left as it was otherwise.
pub fn open_column(
    formats: &[u8],
    schema: &[u32],
    lengths: &[u64],
    places: &[u64],
    buffers: &[u64],
    body: &[u8],
    first: u32,
    n: u32,
    tree: &mut [u64; 256],
) -> u8
    ensures value { result ≡ column_ground (was formats) (was schema) (tables_of (was lengths) (was places) (was buffers) (was body)) first n }
    ensures tree_value { tree.new ≡ opened_tree (was formats) (was schema) (tables_of (was lengths) (was places) (was buffers) (was body)) first n tree.old }
{
    let refusal = columns::column_ground(formats, schema, lengths, places, buffers, body, first, n);
    if refusal == 0 {
        node_words::plant(formats, schema, first as usize, n as usize, tree);
    }
    refusal
}

// A copy; that it has 256 elements is known of an array that a call returns.
pub fn copied(tree: [u64; 256]) -> [u64; 256]
    ensures { result ≡ tree }
{
    tree
}

// Row `row` of the column. The ids of the unions on the way to it are written to the front of the array, which is otherwise left as it was.
pub fn read_row(
    formats: &[u8],
    schema: &[u32],
    lengths: &[u64],
    places: &[u64],
    buffers: &[u64],
    body: &[u8],
    first: u32,
    n: u32,
    row: u64,
    ids: &mut [u8; 8],
) -> RowAnswer
    ensures fact { let w = read_row (was formats) (was schema) (tables_of (was lengths) (was places) (was buffers) (was body)) first n row in (result.read ≡ w.read) × (result.ids ≡ length w.ids) }
    ensures ids_value { ids.new ≡ splice 0 (read_row (was formats) (was schema) (tables_of (was lengths) (was places) (was buffers) (was body)) first n row).ids ids.old }
{
    let mut tree = [0u64; 256];
    let refusal = open_column(
        formats, schema, lengths, places, buffers, body, first, n, &mut tree,
    );
    if refusal != 0 {
        return RowAnswer {
            read: RowRead::Refused(refusal),
            ids: 0,
        };
    }
    let words = copied(tree);
    crate::row_at(&words, lengths, places, buffers, body, first, row, ids)
}
