// What stops an order of nulls, looked for from the top of the tree downward, as of a copy. A count of 2^63 or more is walked as 2^63, as the
// order is; the number that 7 needs has it as it was given. Nothing is written, and no source is read.
ghost use Rattle.std.specs.Prelude.{◌≡◌, suc, ◌+◌, ◌<◌};
ghost use Rattle.clauses.specs.Slices.{was, left};
ghost use Rattle.walk.specs.State.{code_of, bytes_of};
ghost use Rattle.walk.specs.Nulls.{no_home, null_walk};
ghost use Rattle.leaf_walk.specs.Walks.{null_join};
ghost use Rattle.explain.specs.stops.Why.{named};
ghost use Rattle.explain.specs.stops.Nulls.{walked, first_position, why_null_sparse, why_null_dense, why_null_end, why_null_runs, why_null_data, why_null_node, why_nulls};
ghost use Rattle.explain.specs.stop_walks.Step.{Tried};
ghost use Rattle.explain.specs.nulls.Step.{why_after, AnyParts, RowSays};

use crate::stops::Why;
use nested_rows::lookups;
use walk::plan_words;

// What a node says of the nulls that it was handed: nothing stops them, and the counters are those after them; what stops them; or which child
// does.
#[derive(Clone, Copy)]
pub enum NullStep {
    On,
    Here(Why),
    Below { node: usize, count: u64 },
}

const POSITION: u8 = 6;

const RUN_END: u8 = 7;

const FOREIGN: u8 = 12;

const POSITIONS: u64 = 2147483648;

// ---- the walk

// Walks n nulls of node i: the counters are those after the walk, or those before it where it is refused.
pub fn try_nulls(
    plan: &[u64],
    parts: &[u64],
    counters: &mut [u64; plan_words::COUNTERS],
    i: usize,
    n: u64,
    depth: u32,
) -> u8
    ensures { Tried (null_walk (null_join plan parts) depth i (walked n) counters.old) counters.old result counters.new }
{
    let before = *counters;
    let mut none = [0u8; 0];
    let m = transform::at_most_far(n);
    let g = extend::extend_nulls(plan, parts, counters, &mut none, false, i, m, depth);
    if g != 0 {
        *counters = before;
        return g;
    }
    0
}

// The same of a child.
fn step_into(
    plan: &[u64],
    parts: &[u64],
    counters: &mut [u64; plan_words::COUNTERS],
    k: usize,
    n: u64,
    depth: u32,
) -> NullStep
    ensures { RowSays (null_walk (null_join plan parts) depth k (walked n) counters.old) (why_nulls (null_join plan parts) depth k n counters.old) (null_join plan parts) depth result counters.new }
{
    let g = try_nulls(plan, parts, counters, k, n, depth);
    if g != 0 {
        return NullStep::Below { node: k, count: n };
    }
    NullStep::On
}

// ---- unions

// The union that nulls cannot go into.
fn homeless(plan: &[u64], i: usize) -> Why
    requires { i < 32 }
    ensures { result ≡ named (no_home (was plan) i) i }
{
    Why {
        refusal: nested_rows::no_home(plan, i),
        node: i,
        row: 0,
        needed: 0,
        allowed: 0,
    }
}

// A sparse union: no home, or its first child that is refused.
fn step_sparse(
    plan: &[u64],
    parts: &[u64],
    counters: &mut [u64; plan_words::COUNTERS],
    i: usize,
    n: u64,
    depth: u32,
) -> NullStep
    requires { i < 32 }
    ensures { let j = null_join plan parts in why_null_sparse j (null_walk j depth) (why_nulls j depth) i n counters.old ≡ why_after j depth result counters.new }
{
    if 32 <= nested_rows::null_home(plan, i) {
        return NullStep::Here(homeless(plan, i));
    }
    let end = plan_words::end_of(plan, i);
    let mut k = i + 1;
    for t in 0..32usize {
        if end <= k {
            return NullStep::On;
        }
        match step_into(plan, parts, counters, k, n, depth) {
            NullStep::On => {
                k = plan_words::end_of(plan, k);
            }
            NullStep::Here(w) => return NullStep::Here(w),
            NullStep::Below { node, count } => return NullStep::Below { node, count },
        }
    }
    NullStep::On
}

// The first position that does not fit behind the child's rows.
fn first_position(rows: u64) -> u64
    ensures { result ≡ first_position rows }
{
    if rows < POSITIONS {
        return POSITIONS;
    }
    rows
}

// A dense union: no home, its first position that does not fit, or its home.
fn step_dense(plan: &[u64], counters: &[u64; plan_words::COUNTERS], i: usize, n: u64) -> NullStep
    requires { i < 32 }
    ensures { AnyParts plan (λ j depth. why_null_dense j (null_walk j depth) (why_nulls j depth) i n (was counters) ≡ why_after j depth result (was counters)) }
{
    let h = nested_rows::null_home(plan, i);
    if 32 <= h {
        return NullStep::Here(homeless(plan, i));
    }
    let child = plan_words::rows_of(counters, h);
    if POSITIONS < plan_words::grow(child, transform::at_most_far(n)) {
        let position = first_position(child);
        return NullStep::Here(Why {
            refusal: POSITION,
            node: i,
            row: position - child,
            needed: position,
            allowed: POSITIONS - 1,
        });
    }
    NullStep::Below { node: h, count: n }
}

// ---- run-end nodes

// The last run end with n rows more.
fn step_end(plan: &[u64], counters: &[u64; plan_words::COUNTERS], i: usize, n: u64) -> NullStep
    requires i_bound { i + 2 < 32 }
    requires i_value { (bytes_of plan.now (suc i) ≡ 2 → ⊥) → (bytes_of plan.now (suc i) ≡ 4 → ⊥) → bytes_of plan.now (suc i) ≡ 8 }
    ensures { AnyParts plan (λ j depth. why_null_end j (null_walk j depth) (why_nulls j depth) (bytes_of (was plan) (suc i)) i n (was counters) ≡ why_after j depth result (was counters)) }
{
    let w = lookups::width_at(plan, i + 1);
    let last = plan_words::rows_of(counters, i);
    if nested_rows::sum_fits(w, last, transform::at_most_far(n)) {
        return NullStep::On;
    }
    NullStep::Here(Why {
        refusal: RUN_END,
        node: i,
        row: 0,
        needed: plan_words::grow(last, n),
        allowed: crate::stop_walks::largest(w),
    })
}

// A run-end node: its values, then its run end; a run that grows asks no value.
fn step_run(
    plan: &[u64],
    parts: &[u64],
    counters: &mut [u64; plan_words::COUNTERS],
    i: usize,
    n: u64,
    depth: u32,
) -> NullStep
    requires { i < 32 }
    ensures { let j = null_join plan parts in why_null_runs j (null_walk j depth) (why_nulls j depth) i n counters.old ≡ why_after j depth result counters.new }
{
    if !nested_rows::has_ends(plan, i) {
        return NullStep::Here(crate::stop_walks::plain(FOREIGN));
    }
    if plan_words::bytes_of(counters, i) == 2 {
        if plan_words::rows_of(counters, i + 1) == 0 {
            return NullStep::Here(crate::stop_walks::plain(FOREIGN));
        }
        return step_end(plan, counters, i, n);
    }
    match step_into(plan, parts, counters, i + 2, 1, depth) {
        NullStep::On => step_end(plan, counters, i, n),
        NullStep::Here(w) => NullStep::Here(w),
        NullStep::Below { node, count } => NullStep::Below { node, count },
    }
}

// ---- a node

// The data of a node by its format's code.
fn step_data(
    plan: &[u64],
    parts: &[u64],
    counters: &mut [u64; plan_words::COUNTERS],
    i: usize,
    n: u64,
    depth: u32,
) -> NullStep
    requires { i < 32 }
    ensures { let j = null_join plan parts in why_null_data j (null_walk j depth) (why_nulls j depth) (code_of (was plan) i) i n counters.old ≡ why_after j depth result counters.new }
{
    let code = plan_words::code_of(plan, i);
    if code == nested_rows::node_data::SPARSE {
        return step_sparse(plan, parts, counters, i, n, depth);
    }
    if code == nested_rows::node_data::DENSE {
        return step_dense(plan, counters, i, n);
    }
    if code == nested_rows::node_data::RUN_END {
        return step_run(plan, parts, counters, i, n, depth);
    }
    let mut none = [0u8; 0];
    let m = transform::at_most_far(n);
    let g = nested_rows::node_data::null_leaf(plan, parts, counters, &mut none, false, i, m);
    NullStep::Here(crate::stop_walks::plain(g))
}

// n nulls of node i.
fn step_node(
    plan: &[u64],
    parts: &[u64],
    counters: &mut [u64; plan_words::COUNTERS],
    i: usize,
    n: u64,
    depth: u32,
) -> NullStep
    ensures { let j = null_join plan parts in why_null_node j (null_walk j depth) (why_nulls j depth) i n counters.old ≡ why_after j depth result counters.new }
{
    if n == 0 {
        return NullStep::On;
    }
    if 32 <= i {
        return NullStep::Here(crate::stop_walks::plain(FOREIGN));
    }
    step_data(plan, parts, counters, i, n, depth)
}

// What stops n nulls of node i, at most `depth` levels down.
pub fn why_null_walk(
    plan: &[u64],
    parts: &[u64],
    counters: &mut [u64; plan_words::COUNTERS],
    i: usize,
    n: u64,
    depth: u32,
) -> Why
    ensures { result ≡ why_nulls (null_join plan parts) depth i n counters.old }
{
    let mut left = depth;
    let mut node = i;
    let mut len = n;
    while 0 < left {
        left -= 1;
        match step_node(plan, parts, counters, node, len, left) {
            NullStep::On => return crate::stop_walks::plain(0),
            NullStep::Here(w) => return w,
            NullStep::Below { node: k, count } => {
                node = k;
                len = count;
            }
        }
    }
    crate::stop_walks::plain(FOREIGN)
}
