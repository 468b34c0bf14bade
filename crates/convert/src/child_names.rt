// The nodes below a list's root, named where they stand: the rest of the tables of its list-view (W4). The root's numbers, the first of each table, are
// those that `into_builder` finishes it with.
ghost use Rattle.std.specs.Prelude.{◌≡◌, ◌++◌, ℕ, ◌+◌, ◌*◌, ◌-◌, ◌≤◌, ◌<◌, ◌^◌, ◌&&◌, length, take, get_or, ltb, eqb};
ghost use Rattle.clauses.specs.Slices.{was, left};
ghost use Rattle.columnar.specs.Row.{seg};
ghost use Rattle.columnar.specs.Array.{null_count_of};
ghost use Rattle.array_data.specs.lent_tables.Lent.{tables};
ghost use Rattle.plan.specs.dictionaries.Sources.{array_of, Countable};
ghost use Rattle.convert.specs.child_names.Names.{tables_fit, below_place, naming, Named};
ghost use Rattle.with_capacities.specs.Answer.{lent_tables};

use array_data::lent_tables;
use plan::dictionaries;

// Whether tables of these lengths are those of n nodes.
fn tables_fit(n: u32, lengths: usize, nulls: usize, places: usize) -> bool
    ensures { result ≡ tables_fit n lengths nulls places }
{
    let m = n as usize;
    (lengths == 2 * m) & (nulls == m) & (places == 9 * m)
}

// Lengths and offsets of the nodes below the root.
fn write_lengths(lengths: &[u64], first: u32, n: u32, table: &mut [u64])
    requires { (1 ≤ n) × (length table.old ≡ 2 * n) }
    ensures { table.new ≡ take 2 table.old ++ seg (λ k. get_or (was lengths) (2 * (first + 1) + k) 0) 0 (2 * (n - 1)) }
{
    let more = 2 * (n as usize - 1);
    let from = 2 * (first as usize + 1);
    for k in 0..more {
        table[2 + k] = lent_tables::at_u64(lengths, from + k);
    }
}

// Their null counts, from their bits.
fn write_nulls(lengths: &[u64], places: &[u64], body: &[u8], first: u32, n: u32, table: &mut [u64])
    requires { (1 ≤ n) × (length table.old ≡ n) × ((j : ℕ) → j < n → Countable (tables lengths.now places.now body.now) (first + j)) }
    ensures { table.new ≡ take 1 table.old ++ seg (λ k. null_count_of (array_of (tables (was lengths) (was places) (was body)) (first + 1 + k))) 0 (n - 1) }
{
    let more = n as usize - 1;
    let from = first as usize + 1;
    for k in 0..more {
        table[1 + k] = dictionaries::null_count(lengths, places, body, from + k);
    }
}

// Whether number j of a node with so many nulls is one of a validity that is dropped: no bit is 0.
fn is_dropped(nulls: u64, j: usize) -> bool
    ensures { result ≡ (ltb j 3 && eqb nulls 0) }
{
    if j < 3 {
        return nulls == 0;
    }
    false
}

// Number k of the places below the root, nine a node.
fn place_word(places: &[u64], nulls: &[u64], first: u32, k: usize) -> u64
    requires { k < 9 * 2 ^ 32 }
    ensures { result ≡ below_place (was places) (was nulls) first k }
{
    let i = k / 9 + 1;
    let j = k % 9;
    if is_dropped(lent_tables::at_u64(nulls, i), j) {
        return 0;
    }
    lent_tables::place(places, first as usize + i, j)
}

// Where their buffers stand.
fn write_places(places: &[u64], nulls: &[u64], first: u32, n: u32, table: &mut [u64])
    requires { (1 ≤ n) × (length table.old ≡ 9 * n) }
    ensures { table.new ≡ take 9 table.old ++ seg (below_place (was places) (was nulls) first) 0 (9 * (n - 1)) }
{
    let more = 9 * (n as usize - 1);
    for k in 0..more {
        table[9 + k] = place_word(places, nulls, first, k);
    }
}

// THE NODES BELOW THE ROOT of a list column's list-view, into tables of n nodes whose first node is the finished root: 0, or the ground of refusal,
// with nothing written.
pub fn name_child(
    formats: &[u8],
    schema: &[u32],
    lengths: &[u64],
    places: &[u64],
    buffers: &[u64],
    body: &[u8],
    first: u32,
    n: u32,
    new_lengths: &mut [u64],
    new_nulls: &mut [u64],
    new_places: &mut [u64],
) -> u8
    ensures { Named (naming (was formats) (was schema) (lent_tables lengths places buffers body) first n) new_lengths new_nulls new_places result }
{
    let g = columns::column_ground(formats, schema, lengths, places, buffers, body, first, n);
    if g != 0 {
        return g;
    }
    if !tables_fit(n, new_lengths.len(), new_nulls.len(), new_places.len()) {
        return 14;
    }
    write_lengths(lengths, first, n, new_lengths);
    write_nulls(lengths, places, body, first, n, new_nulls);
    write_places(places, new_nulls, first, n, new_places);
    0
}
