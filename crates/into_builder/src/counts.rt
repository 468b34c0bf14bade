// The lengths and null counts of the nodes of the finished array.
// Follows `into_builder` of arrow-data 60.1.0 src/transform/mod.rs, Apache-2.0; see NOTICE.
ghost use Rattle.std.specs.Prelude.{◌≡◌, true, cond, [], ◌+◌, ◌*◌, ◌/◌, ◌%◌, ◌<◌, ◌^◌, length, ltb, eqb};
ghost use Rattle.clauses.specs.Slices.{was, left};
ghost use Rattle.walk.specs.State.{far};
ghost use Rattle.walk.specs.Log.{start_of};
ghost use Rattle.array_data.specs.lent_tables.Lent.{tables};
ghost use Rattle.array_data.specs.Tables.{length_of, offset_of};
ghost use Rattle.plan.specs.parts.Parts.{nodes_of};
ghost use Rattle.refinement.specs.finishing.Finish.{nulls_at, length_at, offset_at, length_table, null_table};
ghost use Rattle.into_builder.specs.buffers.Names.{lent, lent_all};
ghost use Rattle.into_builder.specs.counts.Counts.{kept_of, all_kept, zeros_of, BitsIn, AllBitsIn};

use array_data::lent_tables;
use plan::dictionaries;
use walk::plan_words;

// ---- lengths and offsets

// The length of node i: its rows, but a kept dictionary has that of source 0.
fn length_at(plan: &[u64], sources: &[u32], lengths: &[u64], counters: &[u64], i: usize) -> u64
    requires { i < 32 }
    ensures { result ≡ length_at (lent (was plan) [] (was sources) (was lengths) [] []) [] (was counters) [] 0 i }
{
    if plan::parts::is_copied(plan, i) {
        return lent_tables::at_u64(counters, 3 * i);
    }
    lent_tables::length_of(lengths, dictionaries::node_of(sources, 0, i))
}

// The offset of node i: 0, but a kept dictionary has that of source 0.
fn offset_at(plan: &[u64], sources: &[u32], lengths: &[u64], i: usize) -> u64
    requires { i < 32 }
    ensures { result ≡ offset_at (lent (was plan) [] (was sources) (was lengths) [] []) [] [] [] 0 i }
{
    if plan::parts::is_copied(plan, i) {
        return 0;
    }
    lent_tables::offset_of(lengths, dictionaries::node_of(sources, 0, i))
}

// Number q of the lengths and offsets.
fn length_word(plan: &[u64], sources: &[u32], lengths: &[u64], counters: &[u64], q: usize) -> u64
    requires { q < 64 }
    ensures { let l = lent (was plan) [] (was sources) (was lengths) [] [] in result ≡ cond (eqb (q % 2) 0) (length_at l [] (was counters) [] 0 (q / 2)) (offset_at l [] (was counters) [] 0 (q / 2)) }
{
    if q % 2 == 0 {
        return length_at(plan, sources, lengths, counters, q / 2);
    }
    offset_at(plan, sources, lengths, q / 2)
}

// The lengths and offsets of every node.
pub fn write_lengths(
    plan: &[u64],
    sources: &[u32],
    lengths: &[u64],
    counters: &[u64],
    table: &mut [u64],
)
    requires { length table.old ≡ 2 * nodes_of plan.now }
    ensures { table.new ≡ length_table (lent (was plan) [] (was sources) (was lengths) [] []) [] (was counters) [] 0 }
{
    let n = 2 * plan::parts::node_count(plan);
    for q in 0..n {
        table[q] = length_word(plan, sources, lengths, counters, q);
    }
}

// ---- null counts, counted from bits

// Whether the slots of node k end below 2^63.
fn is_counted(lengths: &[u64], k: usize) -> bool
    requires { k < 2 ^ 33 }
    ensures { result ≡ ltb (offset_of (tables (was lengths) [] []) k + length_of (tables (was lengths) [] []) k) far }
{
    let off = lent_tables::offset_of(lengths, k);
    let len = lent_tables::length_of(lengths, k);
    plan_words::grow(off, len) < plan_words::FAR
}

// Whether node i is copied, or the bits of a kept dictionary stand in the body.
fn kept_in(
    plan: &[u64],
    sources: &[u32],
    lengths: &[u64],
    places: &[u64],
    body: &[u8],
    i: usize,
) -> bool
    requires { i < 32 }
    ensures { result ≡ kept_of (was plan) (was sources) (was lengths) (was places) (was body) i }
{
    if plan::parts::is_copied(plan, i) {
        return true;
    }
    let k = dictionaries::node_of(sources, 0, i);
    if !is_counted(lengths, k) {
        return false;
    }
    lent_tables::mask_holds(lengths, places, body, k, true)
}

// Whether that holds of every node: ground 12 where not.
pub fn all_kept(plan: &[u64], sources: &[u32], lengths: &[u64], places: &[u64], body: &[u8]) -> bool
    ensures { result ≡ all_kept (was plan) (was sources) (was lengths) (was places) (was body) }
{
    let n = plan::parts::node_count(plan);
    for i in 0..n {
        if !kept_in(plan, sources, lengths, places, body, i) {
            return false;
        }
    }
    true
}

// Where the part of buffer b of node i starts in the room.
pub fn part_start(plan: &[u64], parts: &[u64], i: usize, b: usize) -> u64
    requires { (i < 32) × (b < 3) }
    ensures { result ≡ start_of (was plan) (was parts) i b }
{
    lent_tables::at_u64(parts, 2 * plan::parts::number_of(plan, i, b))
}

// The zero bits among the rows of node i.
fn zeros_at(plan: &[u64], parts: &[u64], counters: &[u64], room: &[u8], i: usize) -> u64
    requires { (i < 32) × BitsIn plan.now parts.now counters.now (length room.now) i }
    ensures { result ≡ zeros_of (was plan) (was parts) (was counters) (was room) i }
{
    if !plan::parts::has_part(plan, i, 0) {
        return 0;
    }
    let start = part_start(plan, parts, i, 0);
    let n = lent_tables::at_u64(counters, 3 * i);
    bits::count_zeros(room, start as usize, 0, n as usize) as u64
}

// The null count of node i.
fn nulls_at(
    plan: &[u64],
    parts: &[u64],
    sources: &[u32],
    lengths: &[u64],
    places: &[u64],
    body: &[u8],
    counters: &[u64],
    room: &[u8],
    i: usize,
) -> u64
    requires { (i < 32) × BitsIn plan.now parts.now counters.now (length room.now) i × (kept_of plan.now sources.now lengths.now places.now body.now i ≡ true) }
    ensures { result ≡ nulls_at (lent_all plan parts sources lengths places body) [] (was counters) (was room) 0 i }
{
    if plan::parts::is_copied(plan, i) {
        return zeros_at(plan, parts, counters, room, i);
    }
    let k = dictionaries::node_of(sources, 0, i);
    dictionaries::null_count(lengths, places, body, k)
}

// The null count of every node.
pub fn write_nulls(
    plan: &[u64],
    parts: &[u64],
    sources: &[u32],
    lengths: &[u64],
    places: &[u64],
    body: &[u8],
    counters: &[u64],
    room: &[u8],
    table: &mut [u64],
)
    requires { let p = plan.now in (length table.old ≡ nodes_of p) × AllBitsIn p parts.now counters.now room.now × (all_kept p sources.now lengths.now places.now body.now ≡ true) }
    ensures { table.new ≡ null_table (lent_all plan parts sources lengths places body) [] (was counters) (was room) 0 }
{
    let n = plan::parts::node_count(plan);
    for i in 0..n {
        table[i] = nulls_at(
            plan, parts, sources, lengths, places, body, counters, room, i,
        );
    }
}
