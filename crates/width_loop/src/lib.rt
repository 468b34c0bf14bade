// The walk of the converter between widths, in code: one loop over the nodes of a column, each written in its turn. The same code tries, where it
// changes the counters alone, and writes.
#![tactic(auto)]

mod dispatch;
mod kinds;
mod leaves;
mod nodes;
mod ranges;
mod runs;

ghost use Rattle.std.specs.Prelude.{◌≡◌, true, List, [], ℕ, ◌+◌, ◌<◌, ◌≤◌};
ghost use Rattle.clauses.specs.Slices.{was, left};
ghost use Rattle.array_data.specs.Tables.{length_of};
ghost use Rattle.array_data.specs.entries.Entries.{column};
ghost use Rattle.leaf_walk.specs.Walks.{Walks};
ghost use Rattle.source_rules.specs.kinds.Rows.{tables_of};
ghost use Rattle.columns.specs.Grounds.{column_ground};
ghost use Rattle.width_walks.specs.target_rules.Target.{is_target};
ghost use Rattle.width_walks.specs.Nodes.{from_in, many_in};
ghost use Rattle.width_loop.specs.Here.{Accepted, turn_lent, settle_lent, walk_lent};

use array_data::entries;
use walk::plan_words;

// Node i in its turn: its bits, its rows counted, and its data. Run ends are written by their run-end node.
fn walk_node(
    formats: &[u8],
    schema: &[u32],
    lengths: &[u64],
    places: &[u64],
    body: &[u8],
    first: u32,
    count: u32,
    target: u32,
    plan: &[u64],
    parts: &[u64],
    counters: &mut [u64; plan_words::COUNTERS],
    ranges: &mut [u64; 64],
    room: &mut [u8],
    write: bool,
    i: usize,
) -> u8
    requires accepted { Accepted formats.now schema.now lengths.now places.now body.now first count target × (i < count) }
    requires i_in_bounds { from_in ranges.old i + many_in ranges.old i ≤ length_of (column lengths.now [] [] [] first) i }
    ensures by_index { (buffers : List ℕ) → Walks plan parts write (turn_lent formats schema lengths places body plan buffers first count target i ranges.old) counters room result }
    ensures by_index_2 { (buffers : List ℕ) → result ≡ 0 → ranges.new ≡ settle_lent formats schema lengths places body plan buffers first count target i ranges.old }
{
    if width_walks::target_rules::is_ends_at(formats, schema, first as usize, i) {
        return 0;
    }
    let s = entries::offset_at(lengths, first, i) + ranges[2 * i];
    let n = ranges[2 * i + 1];
    leaves::put_bits(plan, parts, places, body, room, write, first, i, s, n);
    plan_words::add_rows(counters, i, n);
    dispatch::walk_data(
        formats, schema, lengths, places, body, first, count, target, plan, parts, counters,
        ranges, room, write, i, s, n,
    )
}

// THE WALK over the n nodes of a column that was accepted, by the plan of a target that passed.
pub fn convert_walk(
    formats: &[u8],
    schema: &[u32],
    lengths: &[u64],
    places: &[u64],
    body: &[u8],
    first: u32,
    n: u32,
    target: u32,
    plan: &[u64],
    parts: &[u64],
    counters: &mut [u64; plan_words::COUNTERS],
    room: &mut [u8],
    write: bool,
) -> u8
    requires by_index { (buffers : List ℕ) × (column_ground formats.now schema.now (tables_of lengths.now places.now buffers body.now) first n ≡ 0) }
    requires n_value { is_target formats.now schema.now first n target n ≡ true }
    ensures { (buffers : List ℕ) → Walks plan parts write (walk_lent formats schema lengths places body plan buffers first n target) counters room result }
{
    let mut ranges = [0u64; 64];
    ranges[1] = entries::length_at(lengths, first, 0);
    let count = n as usize;
    for i in 0..count {
        let g = walk_node(
            formats,
            schema,
            lengths,
            places,
            body,
            first,
            n,
            target,
            plan,
            parts,
            counters,
            &mut ranges,
            room,
            write,
            i,
        );
        if g != 0 {
            return g;
        }
    }
    0
}
