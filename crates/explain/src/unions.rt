// Stops at unions: the first child of a sparse one, the first row of a dense one.
ghost use Rattle.std.specs.Prelude.{[], ◌+◌, ◌*◌, ◌<◌, ◌≤◌, ◌^◌, length};
ghost use Rattle.clauses.specs.Slices.{was, left};
ghost use Rattle.walk.specs.State.{place};
ghost use Rattle.walk.specs.Copy.{dense_row};
ghost use Rattle.leaf_walk.specs.Join.{join};
ghost use Rattle.leaf_walk.specs.Walks.{lent_join};
ghost use Rattle.explain.specs.stops.Copy.{why_sparse, why_dense_row, why_dense};
ghost use Rattle.explain.specs.stop_walks.Step.{Says, RowAt};

use crate::stop_walks::Step;
use crate::stops::Why;
use array_data::lent_tables;
use nested_rows::lookups;
use walk::plan_words;

const OFFSET: u8 = 6;

const FOREIGN: u8 = 12;

// A sparse union: its first child that is refused.
pub fn step_sparse(
    plan: &[u64],
    parts: &[u64],
    lengths: &[u64],
    places: &[u64],
    body: &[u8],
    counters: &mut [u64; plan_words::COUNTERS],
    source: usize,
    first: usize,
    i: usize,
    slot: u64,
    n: u64,
    depth: u32,
) -> Step
    requires { (first < 2 ^ 32) × (source < 2 ^ 32) × (i < 32) × (slot + n < 2 ^ 63) }
    ensures { let j = lent_join plan parts lengths places body first source in Says j depth (λ c y. why_sparse j c y i slot n) counters.old result counters.new }
{
    if !leaf_walk::rows_in(body, lent_tables::place(places, first + i, 3), 1, slot, n) {
        return Step::Here(crate::stop_walks::plain(FOREIGN));
    }
    let end = plan_words::end_of(plan, i);
    let mut k = i + 1;
    for t in 0..32usize {
        if end <= k {
            return Step::On;
        }
        match crate::stop_walks::step_into(
            plan, parts, lengths, places, body, counters, source, first, k, slot, n, depth,
        ) {
            Step::On => {
                k = plan_words::end_of(plan, k);
            }
            Step::Here(w) => return Step::Here(w),
            Step::Below { node, row, rows } => return Step::Below { node, row, rows },
        }
    }
    Step::On
}

// Row r of a dense union.
fn dense_row(
    plan: &[u64],
    parts: &[u64],
    lengths: &[u64],
    places: &[u64],
    body: &[u8],
    counters: &mut [u64; plan_words::COUNTERS],
    source: usize,
    first: usize,
    i: usize,
    slot: u64,
    r: u64,
    depth: u32,
) -> Step
    requires first_bound { (first < 2 ^ 32) × (source < 2 ^ 32) × (i < 32) × (slot + r + 1 < 2 ^ 63) }
    requires fact { let j = join [] [] lengths.now places.now body.now first 0 in (place j i 3 + (slot + r + 1) ≤ length body.now) × (place j i 5 + 4 * (slot + r + 1) ≤ length body.now) }
    ensures { let j = lent_join plan parts lengths places body first source in RowAt j depth (dense_row j) (why_dense_row j) i slot r counters.old result counters.new }
{
    let at = lent_tables::place(places, first + i, 3) + (slot + r);
    let id = body[at as usize];
    let k = lookups::child_with(plan, id, plan_words::end_of(plan, i), i + 1);
    if 32 <= k {
        return Step::Here(crate::stop_walks::plain(FOREIGN));
    }
    let child = plan_words::rows_of(counters, k);
    if 2147483648 <= child {
        return Step::Here(Why {
            refusal: OFFSET,
            node: i,
            row: r,
            needed: child,
            allowed: 2147483647,
        });
    }
    let position = lookups::entry_at(body, lent_tables::place(places, first + i, 5), 4, slot + r);
    crate::stop_walks::step_into(
        plan, parts, lengths, places, body, counters, source, first, k, position, 1, depth,
    )
}

// A dense union: its first row that is refused.
pub fn step_dense(
    plan: &[u64],
    parts: &[u64],
    lengths: &[u64],
    places: &[u64],
    body: &[u8],
    counters: &mut [u64; plan_words::COUNTERS],
    source: usize,
    first: usize,
    i: usize,
    slot: u64,
    n: u64,
    depth: u32,
) -> Step
    requires { (first < 2 ^ 32) × (source < 2 ^ 32) × (i < 32) × (slot + n < 2 ^ 63) }
    ensures { let j = lent_join plan parts lengths places body first source in Says j depth (λ c y. why_dense j c y i slot n) counters.old result counters.new }
{
    if !nested_rows::pairs_in(places, body, first, i, 1, 4, slot, n) {
        return Step::Here(crate::stop_walks::plain(FOREIGN));
    }
    for r in 0..n {
        match dense_row(
            plan, parts, lengths, places, body, counters, source, first, i, slot, r, depth,
        ) {
            Step::On => {}
            Step::Here(w) => return Step::Here(w),
            Step::Below { node, row, rows } => return Step::Below { node, row, rows },
        }
    }
    Step::On
}
