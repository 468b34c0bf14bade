// What a node writes beside its bits, and the rows of the nodes below it that it settles: one function a kind. The answer is 0 or the ground of
// refusal.
ghost use Rattle.std.specs.Prelude.{◌≡◌, true, [], ◌∷◌, ℕ, suc, ◌+◌, ◌*◌, ◌<◌, ◌≤◌, ◌^◌, length, take, drop};
ghost use Rattle.clauses.specs.Slices.{was, left};
ghost use Rattle.columnar.specs.Types.{Number, half};
ghost use Rattle.columnar.specs.Array.{item};
ghost use Rattle.columnar.specs.Plain.{OffsetsRule};
ghost use Rattle.columnar.specs.Test.{mask_test};
ghost use Rattle.schema.specs.formats.Code.{is_integer};
ghost use Rattle.schema.specs.Tree.{child_at};
ghost use Rattle.array_data.specs.Tables.{place, length_of, valid_of, valid_in, first_buffer, second_buffer};
ghost use Rattle.array_data.specs.NodeKinds.{string_node, list_view_node, list_node, sparse_node, dense_node, dictionary_node};
ghost use Rattle.array_data.specs.Typed.{Tree};
ghost use Rattle.array_data.specs.entries.Entries.{column};
ghost use Rattle.walk.specs.State.{set_bytes};
ghost use Rattle.walk.specs.Log.{put, apply_if};
ghost use Rattle.leaf_walk.specs.Walks.{Walks};
ghost use Rattle.with_capacities.specs.Lent.{Stays, Writes};
ghost use Rattle.width_walks.specs.Nodes.{settle_as};
ghost use Rattle.width_loop.specs.Steps.{Inside, AtMost};
ghost use Rattle.width_loop.specs.Here.{AnyTree, AnyUnion, AnyKeys, SettlesFields};

use crate::{leaves, ranges};
use array_data::entries;
use plan::dictionaries;
use walk::plan_words;

// The bytes of a byte string: `span` of them from byte `base` of its data on.
fn put_chars(
    plan: &[u64],
    parts: &[u64],
    places: &[u64],
    body: &[u8],
    counters: &mut [u64; plan_words::COUNTERS],
    room: &mut [u8],
    write: bool,
    first: u32,
    i: usize,
    base: u64,
    span: u64,
)
    requires { (i < 32) × (place (column [] places.now [] [] first) i 5 + base + span ≤ length body.now) }
    ensures room_value { room.new ≡ apply_if (was plan) (was parts) write (put i 2 0 (take span (drop (place (column [] (was places) [] [] first) i 5 + base) (was body))) ∷ []) room.old }
    ensures counters_value { counters.new ≡ set_bytes i span counters.old }
{
    let from = entries::place_at(places, first, i, 5) + base;
    room_writes::put_copy(plan, parts, room, write, i, 2, 0, body, from as usize, span);
    plan_words::set_bytes(counters, i, span);
}

// Byte strings: offsets, and the bytes that they span.
pub fn walk_string(
    plan: &[u64],
    parts: &[u64],
    places: &[u64],
    body: &[u8],
    counters: &mut [u64; plan_words::COUNTERS],
    room: &mut [u8],
    write: bool,
    first: u32,
    i: usize,
    w: u64,
    w2: u64,
    s: u64,
    n: u64,
) -> u8
    requires i_bound { (i < 32) × (s + n < 2 ^ 63) × Inside (column [] places.now [] body.now first) i 3 × Inside (column [] places.now [] body.now first) i 5 }
    requires w_value { ((w ≡ 4 → ⊥) → w ≡ 8) × ((w2 ≡ 4 → ⊥) → w2 ≡ 8) }
    requires offsets_rule { OffsetsRule w (first_buffer (column [] places.now [] body.now first) i) (length (second_buffer (column [] places.now [] body.now first) i)) s n }
    ensures { AnyTree (column [] (was places) [] (was body) first) (was plan) i s n (string_node w) (string_node w2) (λ own. Walks plan parts write own counters room result) }
{
    let at = entries::place_at(places, first, i, 3);
    let size = entries::place_at(places, first, i, 4);
    let g = leaves::put_offsets(plan, parts, body, room, write, i, at, size, w, w2, s, n);
    if g != 0 {
        return g;
    }
    let base = leaves::offset_at(body, at, size, w, s);
    let span = leaves::offset_at(body, at, size, w, s + n) - base;
    put_chars(
        plan, parts, places, body, counters, room, write, first, i, base, span,
    );
    0
}

// List-views: offsets and sizes as they are, and all rows of the child.
pub fn walk_list_view(
    plan: &[u64],
    parts: &[u64],
    lengths: &[u64],
    places: &[u64],
    body: &[u8],
    ranges: &mut [u64; 64],
    room: &mut [u8],
    write: bool,
    first: u32,
    i: usize,
    w: u64,
    w2: u64,
    s: u64,
    n: u64,
) -> u8
    requires fact { let c = column [] places.now [] body.now first in (i + 1 < 32) × Inside c i 3 × Inside c i 5 × ((s + n) * w ≤ place c i 4) × ((s + n) * w ≤ place c i 6) }
    requires fact_2 { let c = column [] places.now [] body.now first in ((j : ℕ) → j < n → item w (first_buffer c i) (s + j) < half w) × ((j : ℕ) → j < n → item w (second_buffer c i) (s + j) < half w) }
    requires fact_3 { let c = column lengths.now places.now [] body.now first in let m = length_of c (suc i) in AtMost w (first_buffer c i) s n m × AtMost w (second_buffer c i) s n m }
    requires w_value { ((w ≡ 4 → ⊥) → w ≡ 8) × ((w2 ≡ 4 → ⊥) → w2 ≡ 8) }
    ensures any_tree { AnyTree (column [] (was places) [] (was body) first) (was plan) i s n (list_view_node w) (list_view_node w2) (λ own. Writes plan parts write own room result) }
    ensures ranges_value { (t t2 : Tree) → result ≡ 0 → ranges.new ≡ settle_as t t2 (column (was lengths) (was places) [] (was body) first) (was plan) (list_view_node w) i s n ranges.old }
{
    let at = entries::place_at(places, first, i, 3);
    let too = entries::place_at(places, first, i, 5);
    let most = entries::length_at(lengths, first, i + 1);
    let g = leaves::put_pairs(
        plan, parts, body, room, write, i, at, too, w, w2, s, n, most,
    );
    if g != 0 {
        return g;
    }
    ranges::set_range(ranges, i + 1, 0, most);
    0
}

// Lists: offsets, and the rows of the child that they span.
pub fn walk_list(
    plan: &[u64],
    parts: &[u64],
    places: &[u64],
    body: &[u8],
    ranges: &mut [u64; 64],
    room: &mut [u8],
    write: bool,
    first: u32,
    i: usize,
    w: u64,
    w2: u64,
    s: u64,
    n: u64,
) -> u8
    requires i_bound { (i + 1 < 32) × (s + n < 2 ^ 63) × Inside (column [] places.now [] body.now first) i 3 }
    requires w_value { ((w ≡ 4 → ⊥) → w ≡ 8) × ((w2 ≡ 4 → ⊥) → w2 ≡ 8) }
    requires by_index { (most : ℕ) × OffsetsRule w (first_buffer (column [] places.now [] body.now first) i) most s n }
    ensures any_tree { AnyTree (column [] (was places) [] (was body) first) (was plan) i s n (list_node w) (list_node w2) (λ own. Writes plan parts write own room result) }
    ensures ranges_value { (t t2 : Tree) → result ≡ 0 → ranges.new ≡ settle_as t t2 (column [] (was places) [] (was body) first) (was plan) (list_node w) i s n ranges.old }
{
    let at = entries::place_at(places, first, i, 3);
    let size = entries::place_at(places, first, i, 4);
    let g = leaves::put_offsets(plan, parts, body, room, write, i, at, size, w, w2, s, n);
    if g != 0 {
        return g;
    }
    let base = leaves::offset_at(body, at, size, w, s);
    let span = leaves::offset_at(body, at, size, w, s + n) - base;
    ranges::set_range(ranges, i + 1, base, span);
    0
}

// Sparse unions: type ids, and of each child the same slots.
pub fn walk_sparse(
    plan: &[u64],
    parts: &[u64],
    schema: &[u32],
    lengths: &[u64],
    places: &[u64],
    body: &[u8],
    ranges: &mut [u64; 64],
    room: &mut [u8],
    write: bool,
    first: u32,
    count: usize,
    i: usize,
    m: usize,
    s: u64,
    n: u64,
)
    requires count_bound { (count ≤ 32) × (i < count) × Inside (column [] places.now [] body.now first) i 3 × ((s + n) * 1 ≤ place (column [] places.now [] [] first) i 4) }
    requires by_index { (j : ℕ) → j < m → child_at schema.now first count i j < 32 }
    ensures any_union { AnyUnion (column [] (was places) [] (was body) first) (was plan) i s n sparse_node (λ own. Writes plan parts write own room 0) }
    ensures settles_fields { SettlesFields schema lengths places body plan first count sparse_node m i s n ranges }
{
    let at = entries::place_at(places, first, i, 3);
    leaves::put_slots(plan, parts, body, room, write, i, 1, at, 1, s, n);
    ranges::settle_fields(schema, lengths, first, count, ranges, i, m, false, s, n);
}

// Dense unions: type ids and positions as they are, and all rows of each child.
pub fn walk_dense(
    plan: &[u64],
    parts: &[u64],
    schema: &[u32],
    lengths: &[u64],
    places: &[u64],
    body: &[u8],
    ranges: &mut [u64; 64],
    room: &mut [u8],
    write: bool,
    first: u32,
    count: usize,
    i: usize,
    m: usize,
    s: u64,
    n: u64,
)
    requires fact { let c = column [] places.now [] body.now first in (count ≤ 32) × (i < count) × Inside c i 3 × Inside c i 5 × ((s + n) * 1 ≤ place c i 4) × ((s + n) * 4 ≤ place c i 6) }
    requires by_index { (j : ℕ) → j < m → child_at schema.now first count i j < 32 }
    ensures any_union { AnyUnion (column [] (was places) [] (was body) first) (was plan) i s n dense_node (λ own. Writes plan parts write own room 0) }
    ensures settles_fields { SettlesFields schema lengths places body plan first count dense_node m i s n ranges }
{
    let at = entries::place_at(places, first, i, 3);
    leaves::put_slots(plan, parts, body, room, write, i, 1, at, 1, s, n);
    let too = entries::place_at(places, first, i, 5);
    leaves::put_slots(plan, parts, body, room, write, i, 2, too, 4, s, n);
    ranges::settle_fields(schema, lengths, first, count, ranges, i, m, true, 0, 0);
}

// Dictionaries: ground 8, keys with 0 under a null, and all entries.
pub fn walk_keys(
    plan: &[u64],
    parts: &[u64],
    lengths: &[u64],
    places: &[u64],
    body: &[u8],
    ranges: &mut [u64; 64],
    room: &mut [u8],
    write: bool,
    first: u32,
    i: usize,
    w: u64,
    w2: u64,
    code: u8,
    s: u64,
    n: u64,
) -> u8
    requires i_bound { (i + 1 < 32) × (s + n < 2 ^ 63) × Inside (column [] places.now [] body.now first) i 3 × ((s + n) * w ≤ place (column [] places.now [] [] first) i 4) × (is_integer code ≡ true) }
    requires i_value { (valid_in (column [] places.now [] body.now first) i ≡ true) × (mask_test true (valid_of (column [] places.now [] body.now first) i) (s + n) ≡ true) }
    requires w_value { ((w ≡ 1 → ⊥) → (w ≡ 2 → ⊥) → (w ≡ 4 → ⊥) → w ≡ 8) × ((w2 ≡ 1 → ⊥) → (w2 ≡ 2 → ⊥) → (w2 ≡ 4 → ⊥) → w2 ≡ 8) }
    ensures fact { let x = column (was lengths) (was places) [] (was body) first in AnyKeys x (was plan) i s n w w2 code (λ own c. Stays plan parts write own room result c) }
    ensures ranges_value { (t t2 : Tree) (m : Number) → result ≡ 0 → ranges.new ≡ settle_as t t2 (column (was lengths) (was places) [] (was body) first) (was plan) (dictionary_node m) i s n ranges.old }
{
    let entries = entries::length_at(lengths, first, i + 1);
    if !dictionaries::key_fits(0, entries, code) {
        return 8;
    }
    leaves::put_keys(
        plan, parts, places, body, room, write, first, i, w, w2, s, n,
    );
    ranges::set_range(ranges, i + 1, 0, entries);
    0
}
