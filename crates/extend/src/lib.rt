// The walk of an order, of a copy and of nulls: a node hands rows to its children, whose walk does the same one level down, so that the remaining
// depth falls. The answer is 0 or the ground of refusal; a walk that only tries changes the counters alone, and one of nulls reads no source.
// Follows arrow-data 60.1.0 src/transform/mod.rs, Apache-2.0; see NOTICE.
#![tactic(auto)]

ghost use Rattle.std.specs.Prelude.{◌≡◌, true, ◌||◌, [], ◌+◌, ◌<◌, ◌^◌};
ghost use Rattle.clauses.specs.Slices.{was};
ghost use Rattle.schema.specs.formats.Code.{is_list_view, is_list};
ghost use Rattle.walk.specs.State.{code_of};
ghost use Rattle.walk.specs.Copy.{copy_data, copy_walk};
ghost use Rattle.walk.specs.Nulls.{null_data, null_walk};
ghost use Rattle.leaf_walk.specs.Walks.{lent_join, null_join, Walks};

use nested_rows::{lookups, node_data};
use walk::plan_words;

mod list;
mod list_view;
mod run;
mod union;

// A list-view or a list.
#[cycle(extend)]
fn extend_listed(
    plan: &[u64],
    parts: &[u64],
    lengths: &[u64],
    places: &[u64],
    body: &[u8],
    counters: &mut [u64; plan_words::COUNTERS],
    room: &mut [u8],
    write: bool,
    source: usize,
    first: usize,
    i: usize,
    slot: u64,
    n: u64,
    depth: u32,
) -> u8
    requires first_bound { (first < 2 ^ 32) × (source < 2 ^ 32) × (i < 32) × (slot + n < 2 ^ 63) }
    requires i_value { (is_list_view (code_of plan.now i) || is_list (code_of plan.now i)) ≡ true }
    ensures { let j = lent_join plan parts lengths places body first source in Walks plan parts write (copy_data j (copy_walk j depth) (code_of (was plan) i) i slot n) counters room result }
{
    let w = lookups::width_at(plan, i);
    if schema::formats::is_list(plan_words::code_of(plan, i)) {
        return list::extend_list(
            plan, parts, lengths, places, body, counters, room, write, source, first, i, w, slot,
            n, depth,
        );
    }
    list_view::extend_list_view(
        plan, parts, lengths, places, body, counters, room, write, source, first, i, w, slot, n,
        depth,
    )
}

// The data of a node by its format's code.
#[cycle(extend)]
fn extend_data(
    plan: &[u64],
    parts: &[u64],
    lengths: &[u64],
    places: &[u64],
    body: &[u8],
    counters: &mut [u64; plan_words::COUNTERS],
    room: &mut [u8],
    write: bool,
    source: usize,
    first: usize,
    i: usize,
    slot: u64,
    n: u64,
    depth: u32,
) -> u8
    requires { (first < 2 ^ 32) × (source < 2 ^ 32) × (i < 32) × (slot + n < 2 ^ 63) }
    ensures { let j = lent_join plan parts lengths places body first source in Walks plan parts write (copy_data j (copy_walk j depth) (code_of (was plan) i) i slot n) counters room result }
{
    let code = plan_words::code_of(plan, i);
    if schema::formats::is_list_view(code) | schema::formats::is_list(code) {
        return extend_listed(
            plan, parts, lengths, places, body, counters, room, write, source, first, i, slot, n,
            depth,
        );
    }
    if code == node_data::SPARSE {
        return union::extend_sparse(
            plan, parts, lengths, places, body, counters, room, write, source, first, i, slot, n,
            depth,
        );
    }
    if code == node_data::DENSE {
        return union::extend_dense(
            plan, parts, lengths, places, body, counters, room, write, source, first, i, slot, n,
            depth,
        );
    }
    if code == node_data::RUN_END {
        return run::extend_run(
            plan, parts, lengths, places, body, counters, room, write, source, first, i, slot, n,
            depth,
        );
    }
    node_data::copy_leaf(
        plan, parts, places, body, counters, room, write, source, first, i, slot, n,
    )
}

// The rows a .. a + n - 1 of node i, at most `depth` levels down.
#[cycle(extend)]
pub fn extend(
    plan: &[u64],
    parts: &[u64],
    lengths: &[u64],
    places: &[u64],
    body: &[u8],
    counters: &mut [u64; plan_words::COUNTERS],
    room: &mut [u8],
    write: bool,
    source: usize,
    first: usize,
    i: usize,
    a: u64,
    n: u64,
    depth: u32,
) -> u8
    requires { (first < 2 ^ 32) × (source < 2 ^ 32) }
    ensures { Walks plan parts write (copy_walk (lent_join plan parts lengths places body first source) depth i a n) counters room result }
{
    if depth == 0 {
        return 12;
    }
    if 32 <= i {
        return 12;
    }
    let slot = lookups::slot_of(lengths, first, i, a, n);
    if plan_words::FAR <= slot {
        return 12;
    }
    let g = node_data::copy_validity(
        plan, parts, places, body, counters, room, write, first, i, slot, n,
    );
    if g != 0 {
        return g;
    }
    let g = extend_data(
        plan,
        parts,
        lengths,
        places,
        body,
        counters,
        room,
        write,
        source,
        first,
        i,
        slot,
        n,
        depth - 1,
    );
    if g != 0 {
        return g;
    }
    plan_words::add_rows(counters, i, n);
    0
}

// The data of a node by its format's code.
#[cycle(extend_nulls)]
fn extend_nulls_data(
    plan: &[u64],
    parts: &[u64],
    counters: &mut [u64; plan_words::COUNTERS],
    room: &mut [u8],
    write: bool,
    i: usize,
    n: u64,
    depth: u32,
) -> u8
    requires { i < 32 }
    ensures { Walks plan parts write (null_data (null_join plan parts) (null_walk (null_join plan parts) depth) (code_of (was plan) i) i n) counters room result }
{
    let code = plan_words::code_of(plan, i);
    if code == node_data::SPARSE {
        return union::extend_nulls_sparse(plan, parts, counters, room, write, i, n, depth);
    }
    if code == node_data::DENSE {
        return union::extend_nulls_dense(plan, parts, counters, room, write, i, n, depth);
    }
    if code == node_data::RUN_END {
        return run::extend_nulls_run(plan, parts, counters, room, write, i, n, depth);
    }
    node_data::null_leaf(plan, parts, counters, room, write, i, n)
}

// n nulls of node i, at most `depth` levels down.
#[cycle(extend_nulls)]
pub fn extend_nulls(
    plan: &[u64],
    parts: &[u64],
    counters: &mut [u64; plan_words::COUNTERS],
    room: &mut [u8],
    write: bool,
    i: usize,
    n: u64,
    depth: u32,
) -> u8
    ensures { Walks plan parts write (null_walk (null_join plan parts) depth i n) counters room result }
{
    if depth == 0 {
        return 12;
    }
    if n == 0 {
        return 0;
    }
    if 32 <= i {
        return 12;
    }
    let g = extend_nulls_data(plan, parts, counters, room, write, i, n, depth - 1);
    if g != 0 {
        return g;
    }
    let g = node_data::null_validity(plan, parts, counters, room, write, i, n);
    if g != 0 {
        return g;
    }
    plan_words::add_rows(counters, i, n);
    0
}
