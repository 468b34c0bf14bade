// A lent type tree as numbers, 8 a node, made once from the schema and the formats, so that later calls parse nothing.
ghost use Rattle.std.specs.Prelude.{◌≡◌, ℕ, ◌/◌, ◌≤◌, ◌<◌, ◌^◌, length, take};
ghost use Rattle.array_data.specs.node_words.Words.{word, id_from, id_under, child_id, word_of, planted};

use schema::union_ids;

// Word j of node i; 0 past the end.
pub fn word(tree: &[u64], i: usize, j: usize) -> u64
    requires { (i < 2 ^ 33) × (j < 8) }
    ensures { result ≡ word tree.now i j }
{
    let at = 8 * i + j;
    tree.get(at).copied().unwrap_or(0)
}

// The id of node i among the children that begin at node `from` and have these ids; 0 where it is none of them.
fn id_among(ids: &[u8], schema: &[u32], first: usize, n: usize, from: usize, i: usize) -> u64
    requires { (first < 4294967296) × (n < 4294967296) }
    ensures { result ≡ id_from schema.now first n ids.now from i }
{
    let mut node = from;
    for id in ids {
        if node == i {
            return *id as u64;
        }
        node = schema::end_of(schema, first, n, node);
    }
    0
}

// The id that node i has as a child of node p.
fn id_under(formats: &[u8], schema: &[u32], first: usize, n: usize, p: usize, i: usize) -> u64
    requires { (first < 4294967296) × (n < 4294967296) × (p < 4294967295) }
    ensures { result ≡ id_under formats.now schema.now first n p i }
{
    let at = schema::get(schema, first + p, 0) as usize;
    let len = schema::get(schema, first + p, 1) as usize;
    let mut ids = [0u8; 16];
    let Some(k) = union_ids::union_ids(formats, at, len, &mut ids) else {
        return 0;
    };
    id_among(&ids[..k as usize], schema, first, n, p + 1, i)
}

// The id that node i has as a child of the union it stands in.
fn child_id(formats: &[u8], schema: &[u32], first: usize, n: usize, i: usize) -> u64
    requires { (first < 4294967296) × (n < 4294967296) × (i < 4294967296) }
    ensures { result ≡ child_id formats.now schema.now first n i }
{
    for p in (0..i).rev() {
        if i < schema::end_of(schema, first, n, p) {
            return id_under(formats, schema, first, n, p, i);
        }
    }
    0
}

// Word j of node i, 0 for a node that the tree of n nodes does not have.
fn word_of(formats: &[u8], schema: &[u32], first: usize, n: usize, i: usize, j: usize) -> u64
    requires { (first < 4294967296) × (n < 4294967296) }
    ensures { result ≡ word_of formats.now schema.now first n i j }
{
    if n <= i {
        return 0;
    }
    match j {
        0 => schema::code_of(formats, schema, first, i) as u64,
        1 => schema::dictionary_of(schema, first, i) as u64,
        2 => schema::end_of(schema, first, n, i) as u64,
        3 => child_id(formats, schema, first, n, i),
        4 => schema::flag_of(schema, first, i) as u64,
        _ => 0,
    }
}

// How many words n nodes have, and no more than 32 of them.
fn words_of(n: usize) -> usize
    ensures { (result ≤ 256) × ((q : ℕ) → result ≤ q → q < 256 → n ≤ q / 8) }
{
    if n < 32 {
        return 8 * n;
    }
    256
}

// The words of the tree of n nodes from node `first` of the schema on; of a tree of more than 32 nodes, those of the first 32.
pub fn plant(formats: &[u8], schema: &[u32], first: usize, n: usize, tree: &mut [u64; 256])
    requires { (first < 4294967296) × (n < 4294967296) }
    ensures { tree.new ≡ planted formats.now schema.now first n }
{
    *tree = [0u64; 256];
    let m = words_of(n);
    for q in 0..m {
        tree[q] = word_of(formats, schema, first, n, q / 8, q % 8);
    }
}
