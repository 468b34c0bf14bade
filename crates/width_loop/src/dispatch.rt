// One node of the walk: its kind by the code of its format. The answer is 0 or the ground of refusal.
ghost use Rattle.std.specs.Prelude.{◌≡◌, false, List, ℕ};
ghost use Rattle.clauses.specs.Slices.{was, left};
ghost use Rattle.schema.specs.formats.Code.{is_fixed, is_string, is_view};
ghost use Rattle.schema.specs.Tree.{code_of};
ghost use Rattle.leaf_walk.specs.Walks.{Walks};
ghost use Rattle.width_loop.specs.Here.{Here, own_lent, settled_lent};

use crate::{leaves, nodes};
use array_data::entries;
use walk::plan_words;

// Nodes with children.
fn nested_node(
    formats: &[u8],
    schema: &[u32],
    lengths: &[u64],
    places: &[u64],
    body: &[u8],
    first: u32,
    count: u32,
    target: u32,
    plan: &[u64],
    parts: &[u64],
    counters: &mut [u64; plan_words::COUNTERS],
    ranges: &mut [u64; 64],
    room: &mut [u8],
    write: bool,
    i: usize,
    s: u64,
    n: u64,
) -> u8
    requires here { Here formats.now schema.now lengths.now places.now body.now first count target i s n }
    requires fact { let c = code_of formats.now schema.now first i in (is_fixed c ≡ false) × (is_string c ≡ false) × (is_view c ≡ false) }
    ensures by_index { (buffers : List ℕ) → Walks plan parts write (own_lent formats schema lengths places body plan buffers first count target i s n) counters room result }
    ensures by_index_2 { (buffers : List ℕ) → result ≡ 0 → ranges.new ≡ settled_lent formats schema lengths places body plan buffers first count target i s n ranges.old }
{
    let code = schema::code_of(formats, schema, first as usize, i);
    if schema::formats::is_run_end(code) {
        return nodes::run_node(
            formats, schema, lengths, places, body, first, target, plan, parts, counters, ranges,
            room, write, i, s, n,
        );
    }
    if schema::formats::is_union(code) {
        nodes::union_node(
            formats, schema, lengths, places, body, first, count, plan, parts, ranges, room, write,
            i, s, n,
        );
        return 0;
    }
    if schema::formats::is_list(code) {
        return nodes::list_node(
            formats, schema, lengths, places, body, first, target, plan, parts, ranges, room,
            write, i, s, n,
        );
    }
    nodes::list_view_node(
        formats, schema, lengths, places, body, first, target, plan, parts, ranges, room, write, i,
        s, n,
    )
}

// Any node.
pub fn walk_data(
    formats: &[u8],
    schema: &[u32],
    lengths: &[u64],
    places: &[u64],
    body: &[u8],
    first: u32,
    count: u32,
    target: u32,
    plan: &[u64],
    parts: &[u64],
    counters: &mut [u64; plan_words::COUNTERS],
    ranges: &mut [u64; 64],
    room: &mut [u8],
    write: bool,
    i: usize,
    s: u64,
    n: u64,
) -> u8
    requires { Here formats.now schema.now lengths.now places.now body.now first count target i s n }
    ensures by_index { (buffers : List ℕ) → Walks plan parts write (own_lent formats schema lengths places body plan buffers first count target i s n) counters room result }
    ensures by_index_2 { (buffers : List ℕ) → result ≡ 0 → ranges.new ≡ settled_lent formats schema lengths places body plan buffers first count target i s n ranges.old }
{
    let code = schema::code_of(formats, schema, first as usize, i);
    if schema::formats::is_fixed(code) {
        return nodes::number_node(
            formats, schema, lengths, places, body, first, target, plan, parts, ranges, room,
            write, i, s, n, code,
        );
    }
    if schema::formats::is_string(code) {
        return nodes::string_node(
            formats, schema, lengths, places, body, first, target, plan, parts, counters, room,
            write, i, s, n, code,
        );
    }
    if schema::formats::is_view(code) {
        let at = entries::place_at(places, first, i, 3);
        leaves::put_slots(plan, parts, body, room, write, i, 1, at, 16, s, n);
        return 0;
    }
    nested_node(
        formats, schema, lengths, places, body, first, count, target, plan, parts, counters,
        ranges, room, write, i, s, n,
    )
}
