// The walk of an opening: the gaps of run-end nodes, the first zero offset of byte strings and lists, then the dictionaries in tree order, joined
// where they are not shared.
// The answer is 0 or the ground of refusal; a walk that only tries changes the counters alone.
// Follows `try_with_capacities` of arrow-data 60.1.0 src/transform/mod.rs, Apache-2.0; see NOTICE.
ghost use Rattle.std.specs.Prelude.{◌≡◌, List, cond, ℕ, suc, ◌≤◌, ◌<◌, ◌^◌, eqb};
ghost use Rattle.clauses.specs.Slices.{was};
ghost use Rattle.walk.specs.State.{word};
ghost use Rattle.walk.specs.Log.{done, each};
ghost use Rattle.leaf_walk.specs.Walks.{Walks};
ghost use Rattle.refinement.specs.orders.Order.{lent, source_count};
ghost use Rattle.with_capacities.specs.Lent.{Writes, lent_all, AnyLent};
ghost use Rattle.plan.specs.parts.Parts.{nodes_of};
ghost use Rattle.refinement.specs.opening.Open.{begin_gaps, first_offset, join_source, join_entries, entries_hold, keys_hold, open_dictionary, open_walk_of};
ghost use Rattle.with_capacities.specs.Answer.{OnlyCounts};

use array_data::lent_tables;
use plan::dictionaries;
use walk::plan_words;

// ---- gaps

// The gap of node i begins at 1, if it is a run-end node and one run for a gap is chosen.
fn begin_gap(plan: &[u64], counters: &mut [u64; plan_words::COUNTERS], i: usize)
    requires { i < 32 }
    ensures { OnlyCounts plan counters (λ l. begin_gaps l i) }
{
    let code = plan_words::code_of(plan, i);
    if !schema::formats::is_run_end(code) {
        return;
    }
    if lent_tables::at_u64(plan, plan_words::GAPS) != 1 {
        return;
    }
    plan_words::set_bytes(counters, i, 1)
}

// The gap of every run-end node. No byte changes.
fn begin_gaps(plan: &[u64], counters: &mut [u64; plan_words::COUNTERS])
    ensures { OnlyCounts plan counters (λ l. each (begin_gaps l) (nodes_of (was plan)) 0) }
{
    let n = plan::parts::node_count(plan);
    for i in 0..n {
        begin_gap(plan, counters, i);
    }
}

// ---- first offsets

// The first zero offset of node i, if it is a byte string or list that has parts. No counter changes.
fn first_offset(plan: &[u64], parts: &[u64], room: &mut [u8], write: bool, i: usize)
    requires { i < 32 }
    ensures { AnyLent plan parts (λ l. Writes plan parts write (first_offset l i) room 0) }
{
    let code = plan_words::code_of(plan, i);
    if !(schema::formats::is_string(code) | schema::formats::is_list(code)) {
        return;
    }
    if !plan::parts::is_copied(plan, i) {
        return;
    }
    let w = schema::formats::width_of(code) as u64;
    room_writes::put_number(plan, parts, room, write, i, 1, 0, w, 0)
}

// The first zero offset of every byte string and list that has parts.
pub fn first_offsets(plan: &[u64], parts: &[u64], room: &mut [u8], write: bool)
    ensures { AnyLent plan parts (λ l. Writes plan parts write (each (first_offset l) (nodes_of (was plan)) 0) room 0) }
{
    let n = plan::parts::node_count(plan);
    for i in 0..n {
        first_offset(plan, parts, room, write, i);
    }
}

// ---- dictionaries

// How many sources the plan was made for.
fn source_count(plan: &[u64]) -> usize
    requires { source_count plan.now ≤ 16 }
    ensures value { result ≡ source_count (was plan) }
    ensures upper_bound { result ≤ 16 }
{
    lent_tables::at_u64(plan, plan_words::SOURCE_COUNT) as usize
}

// All entries of source s at node i, behind those that are there.
fn join_source(
    plan: &[u64],
    parts: &[u64],
    sources: &[u32],
    lengths: &[u64],
    places: &[u64],
    body: &[u8],
    counters: &mut [u64; plan_words::COUNTERS],
    room: &mut [u8],
    write: bool,
    i: usize,
    s: usize,
) -> u8
    requires { (i < 2 ^ 32) × (s < 2 ^ 32) }
    ensures { Walks plan parts write (join_source (lent_all plan parts sources lengths places body) i s) counters room result }
{
    let first = lent_tables::at_u32(sources, 2 * s) as usize;
    let n = lent_tables::length_of(lengths, first + i);
    extend::extend(
        plan, parts, lengths, places, body, counters, room, write, s, first, i, 0, n, 8,
    )
}

// All entries at node i, in source order.
fn join_entries(
    plan: &[u64],
    parts: &[u64],
    sources: &[u32],
    lengths: &[u64],
    places: &[u64],
    body: &[u8],
    counters: &mut [u64; plan_words::COUNTERS],
    room: &mut [u8],
    write: bool,
    i: usize,
) -> u8
    requires { (i < 2 ^ 32) × (source_count plan.now ≤ 16) }
    ensures { Walks plan parts write (join_entries (lent_all plan parts sources lengths places body) i) counters room result }
{
    let m = source_count(plan);
    for s in 0..m {
        let g = join_source(
            plan, parts, sources, lengths, places, body, counters, room, write, i, s,
        );
        if g != 0 {
            return g;
        }
    }
    0
}

// The entries of the dictionary whose keys are node i, if it is joined.
fn join_values(
    plan: &[u64],
    parts: &[u64],
    sources: &[u32],
    lengths: &[u64],
    places: &[u64],
    body: &[u8],
    counters: &mut [u64; plan_words::COUNTERS],
    room: &mut [u8],
    write: bool,
    i: usize,
) -> u8
    requires { (i < 32) × (source_count plan.now ≤ 16) }
    ensures { Walks plan parts write (λ c. cond (eqb (word (was plan) i 7) 0) (done c) (join_entries (lent_all plan parts sources lengths places body) (suc i) c)) counters room result }
{
    if lent_tables::at_u64(plan, 8 * i + 7) == 0 {
        return 0;
    }
    join_entries(
        plan,
        parts,
        sources,
        lengths,
        places,
        body,
        counters,
        room,
        write,
        i + 1,
    )
}

// Whether the entries of the dictionary whose keys are node i are counted in 64 bits: ground 6 where not.
fn entries_hold(plan: &[u64], sources: &[u32], lengths: &[u64], i: usize) -> bool
    requires { (i < 32) × (source_count plan.now ≤ 16) }
    ensures { (parts places body : List ℕ) → result ≡ entries_hold (lent (was plan) parts (was sources) (was lengths) places body) i }
{
    let m = source_count(plan);
    for s in 0..m {
        let n = lent_tables::length_of(lengths, dictionaries::node_of(sources, s, i + 1));
        if !lent_tables::fits(plan_words::base_of(plan, s, i), n, u64::MAX) {
            return false;
        }
    }
    true
}

// Whether the keys of node i have room for every entry: ground 8 where not.
fn keys_hold(plan: &[u64], sources: &[u32], lengths: &[u64], i: usize) -> bool
    requires { (i < 32) × (source_count plan.now ≤ 16) }
    ensures { (parts places body : List ℕ) → result ≡ keys_hold (lent (was plan) parts (was sources) (was lengths) places body) i }
{
    let code = plan_words::code_of(plan, i);
    if !schema::formats::is_integer(code) {
        return false;
    }
    let m = source_count(plan);
    for s in 0..m {
        let start = plan_words::base_of(plan, s, i);
        let k = dictionaries::node_of(sources, s, i + 1);
        let n = lent_tables::length_of(lengths, k);
        if !dictionaries::key_fits(start, n, code) {
            return false;
        }
    }
    true
}

// The dictionary whose keys are node i, if it has one: ground 6, joined where it is not shared, then ground 8.
fn open_dictionary(
    plan: &[u64],
    parts: &[u64],
    sources: &[u32],
    lengths: &[u64],
    places: &[u64],
    body: &[u8],
    counters: &mut [u64; plan_words::COUNTERS],
    room: &mut [u8],
    write: bool,
    i: usize,
) -> u8
    requires { (i < 32) × (source_count plan.now ≤ 16) }
    ensures { Walks plan parts write (open_dictionary (lent_all plan parts sources lengths places body) i) counters room result }
{
    if plan_words::dictionary_of(plan, i) == 0 {
        return 0;
    }
    if !entries_hold(plan, sources, lengths, i) {
        return 6;
    }
    let g = join_values(
        plan, parts, sources, lengths, places, body, counters, room, write, i,
    );
    if g != 0 {
        return g;
    }
    if !keys_hold(plan, sources, lengths, i) {
        return 8;
    }
    0
}

// Every dictionary, in tree order.
fn open_dictionaries(
    plan: &[u64],
    parts: &[u64],
    sources: &[u32],
    lengths: &[u64],
    places: &[u64],
    body: &[u8],
    counters: &mut [u64; plan_words::COUNTERS],
    room: &mut [u8],
    write: bool,
) -> u8
    requires { source_count plan.now ≤ 16 }
    ensures { Walks plan parts write (each (open_dictionary (lent_all plan parts sources lengths places body)) (nodes_of (was plan)) 0) counters room result }
{
    let n = plan::parts::node_count(plan);
    for i in 0..n {
        let g = open_dictionary(
            plan, parts, sources, lengths, places, body, counters, room, write, i,
        );
        if g != 0 {
            return g;
        }
    }
    0
}

// THE WALK OF AN OPENING: gaps, first offsets, then the dictionaries. 0, or the ground of refusal.
pub fn open_walk(
    plan: &[u64],
    parts: &[u64],
    sources: &[u32],
    lengths: &[u64],
    places: &[u64],
    body: &[u8],
    counters: &mut [u64; plan_words::COUNTERS],
    room: &mut [u8],
    write: bool,
) -> u8
    requires { source_count plan.now ≤ 16 }
    ensures { Walks plan parts write (open_walk_of (lent_all plan parts sources lengths places body)) counters room result }
{
    begin_gaps(plan, counters);
    first_offsets(plan, parts, room, write);
    open_dictionaries(
        plan, parts, sources, lengths, places, body, counters, room, write,
    )
}
