// What stops a copy, looked for from the top of the tree downward: a node says it itself, or names the rows of a child at which the walk stops.
// The walk of crate `extend`, which only tries, says which row or child is the first that is refused; nothing is written.
ghost use Rattle.std.specs.Prelude.{◌≡◌, ◌+◌, ◌<◌, ◌^◌};
ghost use Rattle.clauses.specs.Slices.{was, left};
ghost use Rattle.walk.specs.State.{code_of};
ghost use Rattle.walk.specs.Copy.{copy_walk};
ghost use Rattle.leaf_walk.specs.Walks.{lent_join};
ghost use Rattle.explain.specs.stops.Why.{only};
ghost use Rattle.explain.specs.stops.Copy.{most, why_data, why_node, why_copy};
ghost use Rattle.explain.specs.stop_walks.Step.{Tried, Says, RowSays};

use crate::stops::Why;
use crate::{lists, runs, strings, unions};
use nested_rows::lookups;
use walk::plan_words;

// What a node says of the rows that it was handed: nothing stops them, and the counters are those after them; what stops them; or which rows
// of a child do.
#[derive(Clone, Copy)]
pub enum Step {
    On,
    Here(Why),
    Below { node: usize, row: u64, rows: u64 },
}

const FOREIGN: u8 = 12;

// ---- answers

// A ground that names no node.
pub fn plain(refusal: u8) -> Why
    ensures { result ≡ only refusal }
{
    Why {
        refusal,
        node: 0,
        row: 0,
        needed: 0,
        allowed: 0,
    }
}

// The largest number of w bytes.
pub fn largest(w: u64) -> u64
    requires { (w ≡ 2 → ⊥) → (w ≡ 4 → ⊥) → w ≡ 8 }
    ensures { result ≡ most w }
{
    if w == 2 {
        return 32767;
    }
    if w == 4 {
        return 2147483647;
    }
    9223372036854775807
}

// ---- the walk

// Walks the rows a .. a + n - 1 of node i: the counters are those after the walk, or those before it where it is refused.
pub fn try_copy(
    plan: &[u64],
    parts: &[u64],
    lengths: &[u64],
    places: &[u64],
    body: &[u8],
    counters: &mut [u64; plan_words::COUNTERS],
    source: usize,
    first: usize,
    i: usize,
    a: u64,
    n: u64,
    depth: u32,
) -> u8
    requires { (first < 2 ^ 32) × (source < 2 ^ 32) }
    ensures { Tried (copy_walk (lent_join plan parts lengths places body first source) depth i a n counters.old) counters.old result counters.new }
{
    let before = *counters;
    let mut none = [0u8; 0];
    let g = extend::extend(
        plan, parts, lengths, places, body, counters, &mut none, false, source, first, i, a, n,
        depth,
    );
    if g != 0 {
        *counters = before;
        return g;
    }
    0
}

// The same of a child.
pub fn step_into(
    plan: &[u64],
    parts: &[u64],
    lengths: &[u64],
    places: &[u64],
    body: &[u8],
    counters: &mut [u64; plan_words::COUNTERS],
    source: usize,
    first: usize,
    k: usize,
    a: u64,
    n: u64,
    depth: u32,
) -> Step
    requires { (first < 2 ^ 32) × (source < 2 ^ 32) }
    ensures { let j = lent_join plan parts lengths places body first source in RowSays (copy_walk j depth k a n counters.old) (why_copy j depth k a n counters.old) j depth result counters.new }
{
    let g = try_copy(
        plan, parts, lengths, places, body, counters, source, first, k, a, n, depth,
    );
    if g != 0 {
        return Step::Below {
            node: k,
            row: a,
            rows: n,
        };
    }
    Step::On
}

// ---- a node

// The data of a node by its format's code.
fn step_data(
    plan: &[u64],
    parts: &[u64],
    lengths: &[u64],
    places: &[u64],
    body: &[u8],
    counters: &mut [u64; plan_words::COUNTERS],
    source: usize,
    first: usize,
    i: usize,
    slot: u64,
    n: u64,
    depth: u32,
) -> Step
    requires { (first < 2 ^ 32) × (source < 2 ^ 32) × (i < 32) × (slot + n < 2 ^ 63) }
    ensures { let j = lent_join plan parts lengths places body first source in Says j depth (λ c y. why_data j c y (code_of (was plan) i) i slot n) counters.old result counters.new }
{
    let code = plan_words::code_of(plan, i);
    let w = lookups::width_at(plan, i);
    if schema::formats::is_string(code) {
        return strings::step_string(plan, places, body, counters, first, i, w, slot, n);
    }
    if schema::formats::is_list_view(code) {
        return lists::step_list_view(
            plan, parts, lengths, places, body, counters, source, first, i, w, slot, n, depth,
        );
    }
    if schema::formats::is_list(code) {
        return lists::step_list(plan, parts, places, body, counters, first, i, w, slot, n);
    }
    if code == nested_rows::node_data::SPARSE {
        return unions::step_sparse(
            plan, parts, lengths, places, body, counters, source, first, i, slot, n, depth,
        );
    }
    if code == nested_rows::node_data::DENSE {
        return unions::step_dense(
            plan, parts, lengths, places, body, counters, source, first, i, slot, n, depth,
        );
    }
    if code == nested_rows::node_data::RUN_END {
        return runs::step_run(plan, lengths, places, body, counters, first, i, slot, n);
    }
    let mut none = [0u8; 0];
    let g = nested_rows::node_data::copy_leaf(
        plan, parts, places, body, counters, &mut none, false, source, first, i, slot, n,
    );
    Step::Here(plain(g))
}

// The rows a .. a + n - 1 of node i.
fn step_node(
    plan: &[u64],
    parts: &[u64],
    lengths: &[u64],
    places: &[u64],
    body: &[u8],
    counters: &mut [u64; plan_words::COUNTERS],
    source: usize,
    first: usize,
    i: usize,
    a: u64,
    n: u64,
    depth: u32,
) -> Step
    requires { (first < 2 ^ 32) × (source < 2 ^ 32) }
    ensures { let j = lent_join plan parts lengths places body first source in Says j depth (λ c y. why_node j c y i a n) counters.old result counters.new }
{
    if 32 <= i {
        return Step::Here(plain(FOREIGN));
    }
    let slot = lookups::slot_of(lengths, first, i, a, n);
    if plan_words::FAR <= slot {
        return Step::Here(plain(FOREIGN));
    }
    let mut none = [0u8; 0];
    let g = nested_rows::node_data::copy_validity(
        plan, parts, places, body, counters, &mut none, false, first, i, slot, n,
    );
    if g != 0 {
        return Step::Here(plain(FOREIGN));
    }
    step_data(
        plan, parts, lengths, places, body, counters, source, first, i, slot, n, depth,
    )
}

// What stops a copy of the rows a .. a + n - 1 of node i, at most `depth` levels down.
pub fn why_walk(
    plan: &[u64],
    parts: &[u64],
    lengths: &[u64],
    places: &[u64],
    body: &[u8],
    counters: &mut [u64; plan_words::COUNTERS],
    source: usize,
    first: usize,
    i: usize,
    a: u64,
    n: u64,
    depth: u32,
) -> Why
    requires { (first < 2 ^ 32) × (source < 2 ^ 32) }
    ensures { result ≡ why_copy (lent_join plan parts lengths places body first source) depth i a n counters.old }
{
    let mut left = depth;
    let mut node = i;
    let mut start = a;
    let mut len = n;
    while 0 < left {
        left -= 1;
        match step_node(
            plan, parts, lengths, places, body, counters, source, first, node, start, len, left,
        ) {
            Step::On => return plain(0),
            Step::Here(w) => return w,
            Step::Below { node: k, row, rows } => {
                node = k;
                start = row;
                len = rows;
            }
        }
    }
    plain(FOREIGN)
}
