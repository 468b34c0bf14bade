// One node of the walk, of a kind that is known: what it writes beside its bits, and what it settles, by the codes of its formats. The answer is 0
// or the ground of refusal.
ghost use Rattle.std.specs.Prelude.{◌≡◌, true, List, ℕ, ◌<◌, ◌^◌};
ghost use Rattle.clauses.specs.Slices.{was, left};
ghost use Rattle.schema.specs.formats.Code.{is_fixed, is_string, is_list_view, is_list, is_union, is_run_end, width_of};
ghost use Rattle.schema.specs.Tree.{code_of};
ghost use Rattle.leaf_walk.specs.Walks.{Walks};
ghost use Rattle.with_capacities.specs.Lent.{Stays};
ghost use Rattle.width_loop.specs.Here.{Here, own_lent, settled_lent};

use crate::{kinds, leaves, runs};
use array_data::entries;
use walk::plan_words;

// The bytes of an entry of node i.
fn width_at(formats: &[u8], schema: &[u32], first: u32, i: usize) -> u64
    requires { i < 2 ^ 32 }
    ensures { result ≡ width_of (code_of (was formats) (was schema) first i) }
{
    schema::formats::width_of(schema::code_of(formats, schema, first as usize, i)) as u64
}

// Numbers and keys, whose own code is known.
pub fn number_node(
    formats: &[u8],
    schema: &[u32],
    lengths: &[u64],
    places: &[u64],
    body: &[u8],
    first: u32,
    target: u32,
    plan: &[u64],
    parts: &[u64],
    ranges: &mut [u64; 64],
    room: &mut [u8],
    write: bool,
    i: usize,
    s: u64,
    n: u64,
    own: u8,
) -> u8
    requires by_index { (count : ℕ) × Here formats.now schema.now lengths.now places.now body.now first count target i s n }
    requires fact { let c = code_of formats.now schema.now first i in (is_fixed c ≡ true) × (own ≡ c) }
    ensures by_index_2 { (buffers c : List ℕ) (count : ℕ) → Stays plan parts write (own_lent formats schema lengths places body plan buffers first count target i s n c) room result c }
    ensures by_index_3 { (buffers : List ℕ) (count : ℕ) → result ≡ 0 → ranges.new ≡ settled_lent formats schema lengths places body plan buffers first count target i s n ranges.old }
{
    let w = schema::formats::width_of(own) as u64;
    if schema::dictionary_of(schema, first as usize, i) == 0 {
        let at = entries::place_at(places, first, i, 3);
        leaves::put_slots(plan, parts, body, room, write, i, 1, at, w, s, n);
        return 0;
    }
    let code = schema::code_of(formats, schema, target as usize, i);
    let w2 = schema::formats::width_of(code) as u64;
    kinds::walk_keys(
        plan, parts, lengths, places, body, ranges, room, write, first, i, w, w2, code, s, n,
    )
}

// Byte strings, whose own code is known.
pub fn string_node(
    formats: &[u8],
    schema: &[u32],
    lengths: &[u64],
    places: &[u64],
    body: &[u8],
    first: u32,
    target: u32,
    plan: &[u64],
    parts: &[u64],
    counters: &mut [u64; plan_words::COUNTERS],
    room: &mut [u8],
    write: bool,
    i: usize,
    s: u64,
    n: u64,
    own: u8,
) -> u8
    requires by_index { (count : ℕ) × Here formats.now schema.now lengths.now places.now body.now first count target i s n }
    requires fact { let c = code_of formats.now schema.now first i in (is_string c ≡ true) × (own ≡ c) }
    ensures { (buffers : List ℕ) (count : ℕ) → Walks plan parts write (own_lent formats schema lengths places body plan buffers first count target i s n) counters room result }
{
    let w = schema::formats::width_of(own) as u64;
    let w2 = width_at(formats, schema, target, i);
    kinds::walk_string(
        plan, parts, places, body, counters, room, write, first, i, w, w2, s, n,
    )
}

// List-views.
pub fn list_view_node(
    formats: &[u8],
    schema: &[u32],
    lengths: &[u64],
    places: &[u64],
    body: &[u8],
    first: u32,
    target: u32,
    plan: &[u64],
    parts: &[u64],
    ranges: &mut [u64; 64],
    room: &mut [u8],
    write: bool,
    i: usize,
    s: u64,
    n: u64,
) -> u8
    requires by_index { (count : ℕ) × Here formats.now schema.now lengths.now places.now body.now first count target i s n }
    requires i_value { is_list_view (code_of formats.now schema.now first i) ≡ true }
    ensures by_index_2 { (buffers c : List ℕ) (count : ℕ) → Stays plan parts write (own_lent formats schema lengths places body plan buffers first count target i s n c) room result c }
    ensures by_index_3 { (buffers : List ℕ) (count : ℕ) → result ≡ 0 → ranges.new ≡ settled_lent formats schema lengths places body plan buffers first count target i s n ranges.old }
{
    let w = width_at(formats, schema, first, i);
    let w2 = width_at(formats, schema, target, i);
    kinds::walk_list_view(
        plan, parts, lengths, places, body, ranges, room, write, first, i, w, w2, s, n,
    )
}

// Lists.
pub fn list_node(
    formats: &[u8],
    schema: &[u32],
    lengths: &[u64],
    places: &[u64],
    body: &[u8],
    first: u32,
    target: u32,
    plan: &[u64],
    parts: &[u64],
    ranges: &mut [u64; 64],
    room: &mut [u8],
    write: bool,
    i: usize,
    s: u64,
    n: u64,
) -> u8
    requires by_index { (count : ℕ) × Here formats.now schema.now lengths.now places.now body.now first count target i s n }
    requires i_value { is_list (code_of formats.now schema.now first i) ≡ true }
    ensures by_index_2 { (buffers c : List ℕ) (count : ℕ) → Stays plan parts write (own_lent formats schema lengths places body plan buffers first count target i s n c) room result c }
    ensures by_index_3 { (buffers : List ℕ) (count : ℕ) → result ≡ 0 → ranges.new ≡ settled_lent formats schema lengths places body plan buffers first count target i s n ranges.old }
{
    let w = width_at(formats, schema, first, i);
    let w2 = width_at(formats, schema, target, i);
    kinds::walk_list(
        plan, parts, places, body, ranges, room, write, first, i, w, w2, s, n,
    )
}

// Unions.
pub fn union_node(
    formats: &[u8],
    schema: &[u32],
    lengths: &[u64],
    places: &[u64],
    body: &[u8],
    first: u32,
    count: u32,
    plan: &[u64],
    parts: &[u64],
    ranges: &mut [u64; 64],
    room: &mut [u8],
    write: bool,
    i: usize,
    s: u64,
    n: u64,
)
    requires by_index { (target : ℕ) × Here formats.now schema.now lengths.now places.now body.now first count target i s n }
    requires i_value { is_union (code_of formats.now schema.now first i) ≡ true }
    ensures by_index_2 { (buffers c : List ℕ) (target : ℕ) → Stays plan parts write (own_lent formats schema lengths places body plan buffers first count target i s n c) room 0 c }
    ensures by_index_3 { (buffers : List ℕ) (target : ℕ) → ranges.new ≡ settled_lent formats schema lengths places body plan buffers first count target i s n ranges.old }
{
    let m = schema::below_of(schema, first as usize, i) as usize;
    let k = count as usize;
    if schema::formats::is_sparse(schema::code_of(formats, schema, first as usize, i)) {
        kinds::walk_sparse(
            plan, parts, schema, lengths, places, body, ranges, room, write, first, k, i, m, s, n,
        );
        return;
    }
    kinds::walk_dense(
        plan, parts, schema, lengths, places, body, ranges, room, write, first, k, i, m, s, n,
    );
}

// Run ends.
pub fn run_node(
    formats: &[u8],
    schema: &[u32],
    lengths: &[u64],
    places: &[u64],
    body: &[u8],
    first: u32,
    target: u32,
    plan: &[u64],
    parts: &[u64],
    counters: &mut [u64; plan_words::COUNTERS],
    ranges: &mut [u64; 64],
    room: &mut [u8],
    write: bool,
    i: usize,
    s: u64,
    n: u64,
) -> u8
    requires by_index { (count : ℕ) × Here formats.now schema.now lengths.now places.now body.now first count target i s n }
    requires i_value { is_run_end (code_of formats.now schema.now first i) ≡ true }
    ensures by_index_2 { (buffers : List ℕ) (count : ℕ) → Walks plan parts write (own_lent formats schema lengths places body plan buffers first count target i s n) counters room result }
    ensures by_index_3 { (buffers : List ℕ) (count : ℕ) → result ≡ 0 → ranges.new ≡ settled_lent formats schema lengths places body plan buffers first count target i s n ranges.old }
{
    let w = width_at(formats, schema, first, i + 1);
    let w2 = width_at(formats, schema, target, i + 1);
    runs::walk_runs(
        plan, parts, lengths, places, body, counters, ranges, room, write, first, i, w, w2, s, n,
    )
}
