// Columns that are lent: their ground, their rows, their runs.
ghost use Rattle.std.specs.Prelude.{◌≡◌, List, [], ◌∷◌, ◌++◌, ◌≤◌, length};
ghost use Rattle.clauses.specs.Slices.{was, left};
ghost use Rattle.number.specs.Number.{splice, pattern};
ghost use Rattle.source_rules.specs.kinds.Rows.{tables_of};
ghost use Rattle.columns.specs.Grounds.{column_ground};
ghost use Rattle.array_data.specs.entries.Entries.{column};
ghost use Rattle.row_reader.specs.Walk.{run_at};
ghost use Rattle.row_reader.specs.runs.Answers.{read_run, refusal, numbers};
ghost use Rattle.lafkuno.specs.Calls.{open_ground, open_tree, leaf_kind, leaf_number, row_kind, row_numbers, read_kind, read_numbers};

use number::Signed;
use row_reader::runs;
use slot_reader::RowRead;
use slot_reader::leaf_row::Leaf;

// 16 and ground 14.
const ANSWER_REFUSED: u8 = 30;

// The ground of the column of n nodes from node `first` on; 0 where there is none.
#[unsafe(no_mangle)]
pub extern "C" fn lafkuno_column_ground(
    formats: &[u8],
    schema: &[u32],
    lengths: &[u64],
    places: &[u64],
    buffers: &[u64],
    body: &[u8],
    first: u32,
    n: u32,
) -> u8
    ensures { result ≡ column_ground (was formats) (was schema) (tables_of (was lengths) (was places) (was buffers) (was body)) first n }
{
    columns::column_ground(formats, schema, lengths, places, buffers, body, first, n)
}

// The words into the front of the room.
pub fn copy_words(room: &mut [u64], words: &[u64])
    requires { length words.now ≤ length room.old }
    ensures { room.new ≡ splice 0 (was words) room.old }
{
    room[..words.len()].copy_from_slice(words);
}

// A copy; that it has 256 elements is known of an array that a call returns.
fn copied(tree: [u64; 256]) -> [u64; 256]
    ensures { result ≡ tree }
{
    tree
}

// The ground of a column, then 14 where the room for its tree has fewer than 256 words. The tree of an accepted column is written to the
// front of the room, which is otherwise left as it was.
#[unsafe(no_mangle)]
pub extern "C" fn lafkuno_open_column(
    formats: &[u8],
    schema: &[u32],
    lengths: &[u64],
    places: &[u64],
    buffers: &[u64],
    body: &[u8],
    first: u32,
    n: u32,
    room: &mut [u64],
) -> u8
    ensures value { result ≡ open_ground (was formats) (was schema) (tables_of (was lengths) (was places) (was buffers) (was body)) first n room.old }
    ensures room_value { room.new ≡ open_tree (was formats) (was schema) (tables_of (was lengths) (was places) (was buffers) (was body)) first n room.old }
{
    let mut tree = [0u64; 256];
    let refusal = row_reader::column_reader::open_column(
        formats, schema, lengths, places, buffers, body, first, n, &mut tree,
    );
    if refusal != 0 {
        return refusal;
    }
    if room.len() < 256 {
        return 14;
    }
    let words = copied(tree);
    copy_words(room, &words);
    0
}

// A whole number as two's complement of 64 bits.
pub fn whole_number(z: i64) -> u64
    ensures { result ≡ pattern 8 z }
{
    z.pattern()
}

// 0 null, 1 a signed number, 2 an unsigned one, 3 an f32, 4 an f64.
fn leaf_kind(leaf: Leaf) -> u8
    ensures { result ≡ leaf_kind leaf }
{
    match leaf {
        Leaf::Null => 0,
        Leaf::Signed(_) => 1,
        Leaf::Unsigned(_) => 2,
        Leaf::Single(_) => 3,
        Leaf::Double(_) => 4,
        Leaf::SingleNan(_) => 3,
        Leaf::DoubleNan(_) => 4,
    }
}

// A whole number; a float's bits.
fn leaf_number(leaf: Leaf) -> u64
    ensures { result ≡ leaf_number leaf }
{
    match leaf {
        Leaf::Null => 0,
        Leaf::Signed(z) => whole_number(z),
        Leaf::Unsigned(n) => n,
        Leaf::Single(x) => slot_reader::leaf_row::bits_f32(x) as u64,
        Leaf::Double(x) => slot_reader::leaf_row::bits_f64(x),
        Leaf::SingleNan(b) => b as u64,
        Leaf::DoubleNan(b) => b,
    }
}

// A leaf's kind, 5 bytes, 6 a list; where it is refused, 16 and the ground.
fn row_kind(read: RowRead) -> u8
    ensures { result ≡ row_kind read }
{
    match read {
        RowRead::Null => 0,
        RowRead::Number(leaf) => leaf_kind(leaf),
        RowRead::Bytes { at: _, len: _ } => 5,
        RowRead::List {
            node: _,
            start: _,
            len: _,
        } => 6,
        RowRead::Refused(refusal) => 16 + refusal % 64,
    }
}

// The number; where the bytes begin and how many; the list's child node, its first row and how many.
fn row_numbers(read: RowRead) -> [u64; 3]
    ensures { result ≡ row_numbers read }
{
    match read {
        RowRead::Null => [0, 0, 0],
        RowRead::Number(leaf) => [leaf_number(leaf), 0, 0],
        RowRead::Bytes { at, len } => [at as u64, len as u64, 0],
        RowRead::List { node, start, len } => [node as u64, start, len],
        RowRead::Refused(_) => [0, 0, 0],
    }
}

// The twelve numbers of an answer.
fn row_words(numbers: [u64; 3], count: u8, ids: [u8; 8]) -> [u64; 12]
    requires { (length numbers ≡ 3) × (length ids ≡ 8) }
    ensures { result ≡ numbers ++ (count ∷ ids) }
{
    [
        numbers[0],
        numbers[1],
        numbers[2],
        count as u64,
        ids[0] as u64,
        ids[1] as u64,
        ids[2] as u64,
        ids[3] as u64,
        ids[4] as u64,
        ids[5] as u64,
        ids[6] as u64,
        ids[7] as u64,
    ]
}

// A copy; that it has 8 elements is known of an array that a call returns.
fn copied_ids(ids: [u8; 8]) -> [u8; 8]
    ensures { result ≡ ids }
{
    ids
}

// The kind of row `row` of an opened column: 16 and its ground where it is refused, then 16 and 14 where the answer has not 12 numbers; they are
// the row's three numbers, how many unions are on the way to it, and their ids. A refusal leaves them as they were.
#[unsafe(no_mangle)]
pub extern "C" fn lafkuno_read_row(
    tree: &[u64],
    lengths: &[u64],
    places: &[u64],
    buffers: &[u64],
    body: &[u8],
    first: u32,
    row: u64,
    answer: &mut [u64],
) -> u8
    ensures value { result ≡ read_kind (was tree) (column (was lengths) (was places) (was buffers) (was body) first) row answer.old }
    ensures answer_value { answer.new ≡ read_numbers (was tree) (column (was lengths) (was places) (was buffers) (was body) first) row answer.old }
{
    let mut ids = [0u8; 8];
    let found = row_reader::row_at(tree, lengths, places, buffers, body, first, row, &mut ids);
    let read = found.read;
    let kind = row_kind(read);
    if 16 <= kind {
        return kind;
    }
    if answer.len() != 12 {
        return ANSWER_REFUSED;
    }
    let words = row_words(row_numbers(read), found.ids, copied_ids(ids));
    copy_words(answer, &words);
    kind
}

// The ground of asking for the run of row `row` of the column; 0 where there is none, and then the answer's two numbers are the run and how
// many rows of the column from that one on stand in it.
#[unsafe(no_mangle)]
pub extern "C" fn lafkuno_run_at(
    formats: &[u8],
    schema: &[u32],
    lengths: &[u64],
    places: &[u64],
    buffers: &[u64],
    body: &[u8],
    first: u32,
    n: u32,
    row: u64,
    answer: &mut [u64],
) -> u8
    ensures value { result ≡ refusal (read_run (was formats) (was schema) (tables_of (was lengths) (was places) (was buffers) (was body)) first n row) answer.old }
    ensures answer_value { answer.new ≡ numbers (read_run (was formats) (was schema) (tables_of (was lengths) (was places) (was buffers) (was body)) first n row) answer.old }
{
    runs::run_at(
        formats, schema, lengths, places, buffers, body, first, n, row, answer,
    )
}

// The same of an opened column.
#[unsafe(no_mangle)]
pub extern "C" fn lafkuno_read_run(
    tree: &[u64],
    lengths: &[u64],
    places: &[u64],
    body: &[u8],
    first: u32,
    row: u64,
    answer: &mut [u64],
) -> u8
    ensures value { result ≡ refusal (run_at (was tree) (column (was lengths) (was places) [] (was body) first) row) answer.old }
    ensures answer_value { answer.new ≡ numbers (run_at (was tree) (column (was lengths) (was places) [] (was body) first) row) answer.old }
{
    runs::run_of_opened(tree, lengths, places, body, first, row, answer)
}
