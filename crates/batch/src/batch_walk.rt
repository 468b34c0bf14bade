// The walk of a copy by stretches: where it answers 0 the walk of a copy does, with the same counters, and where the parts rise the room is the same
// (crate `batch`). Any other answer says nothing of the order.

ghost use Rattle.std.specs.Prelude.{◌≡◌, true, ℕ, ◌<◌, ◌^◌};
ghost use Rattle.clauses.specs.Slices.{was};
ghost use Rattle.walk.specs.State.{code_of};
ghost use Rattle.leaf_walk.specs.Walks.{lent_join, Walks};
ghost use Rattle.batch.specs.Batch.{batch_walk_of};
ghost use Rattle.batch.specs.batch_walk.Plain.{is_flat, is_nested, is_listed, flat_below, is_stretched};

use crate::{dense_union, nested_views, numbers, texts};
use nested_rows::lookups;
use walk::plan_words;

// Whether node k is of numbers or byte strings, and keeps no nulls.
pub fn is_flat(plan: &[u64], k: usize) -> bool
    requires { k < 32 }
    ensures { result ≡ is_flat (was plan) k }
{
    if texts::is_text(plan, k) {
        return true;
    }
    numbers::is_plain(plan, k)
}

// Whether the nodes below the root are of numbers or byte strings, and keep no nulls.
fn flat_below(plan: &[u64]) -> bool
    ensures { result ≡ flat_below (was plan) }
{
    let end = plan_words::end_of(plan, 0);
    for k in 1..end {
        if !is_flat(plan, k) {
            return false;
        }
    }
    true
}

// Whether node k is a list-view that keeps no nulls.
fn is_nested(plan: &[u64], k: usize) -> bool
    requires { k < 32 }
    ensures { result ≡ is_nested (was plan) k }
{
    if !schema::formats::is_list_view(plan_words::code_of(plan, k)) {
        return false;
    }
    plan_words::keeps_of(plan, k) == 0
}

// Whether the root is such a list-view, of such list-views or of numbers or byte strings that keep none.
fn is_listed(plan: &[u64]) -> bool
    ensures { result ≡ is_listed (was plan) 7 0 }
{
    for k in 0..7 {
        if !is_nested(plan, k) {
            return false;
        }
        if is_flat(plan, k + 1) {
            return true;
        }
    }
    false
}

// Whether the walk is written for a type: such a list-view, or a dense union of numbers and byte strings that keep no nulls.
pub fn is_stretched(plan: &[u64]) -> bool
    ensures { result ≡ is_stretched (was plan) }
{
    if plan_words::code_of(plan, 0) == 22 {
        return flat_below(plan);
    }
    is_listed(plan)
}

// The rows a .. a + n - 1 of a dense union.
fn copy_union(
    plan: &[u64],
    parts: &[u64],
    lengths: &[u64],
    places: &[u64],
    body: &[u8],
    counters: &mut [u64; plan_words::COUNTERS],
    room: &mut [u8],
    write: bool,
    first: usize,
    a: u64,
    n: u64,
) -> u8
    requires { (first < 2 ^ 32) × (is_stretched plan.now ≡ true) × (code_of plan.now 0 ≡ 22) }
    ensures { (source : ℕ) → Walks plan parts write (batch_walk_of (lent_join plan parts lengths places body first source) 0 a n) counters room result }
{
    let slot = lookups::slot_of(lengths, first, 0, a, n);
    if plan_words::FAR <= slot {
        return 12;
    }
    let g = dense_union::copy_dense(
        plan, parts, lengths, places, body, counters, room, write, first, 0, slot, n,
    );
    if g != 0 {
        return g;
    }
    plan_words::add_rows(counters, 0, n);
    0
}

// The rows a .. a + n - 1.
pub fn copy_by_stretches(
    plan: &[u64],
    parts: &[u64],
    lengths: &[u64],
    places: &[u64],
    body: &[u8],
    counters: &mut [u64; plan_words::COUNTERS],
    room: &mut [u8],
    write: bool,
    first: usize,
    a: u64,
    n: u64,
) -> u8
    requires { (first < 2 ^ 32) × (is_stretched plan.now ≡ true) }
    ensures { (source : ℕ) → Walks plan parts write (batch_walk_of (lent_join plan parts lengths places body first source) 0 a n) counters room result }
{
    if plan_words::code_of(plan, 0) == 22 {
        return copy_union(
            plan, parts, lengths, places, body, counters, room, write, first, a, n,
        );
    }
    nested_views::copy_node(
        plan, parts, lengths, places, body, counters, room, write, first, 0, a, n, 6,
    )
}
