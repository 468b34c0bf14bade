// What a node holds by its format's code, where no child is walked for it: validity, and the data of leaves; the same for nulls.
// The answer is 0 or the ground of refusal; a walk that only tries changes the counters alone.

ghost use Rattle.std.specs.Prelude.{◌≡◌, cond, List, ℕ, ◌+◌, ◌<◌, ◌≤◌, ◌^◌};
ghost use Rattle.clauses.specs.Slices.{was};
ghost use Rattle.walk.specs.State.{code_of};
ghost use Rattle.walk.specs.Log.{done};
ghost use Rattle.walk.specs.Leaves.{copy_mask, null_mask, count_nulls};
ghost use Rattle.walk.specs.Copy.{Walk, masked, copy_data};
ghost use Rattle.walk.specs.Nulls.{NullWalk, null_list_view, null_data};
ghost use Rattle.leaf_walk.specs.Join.{join};
ghost use Rattle.leaf_walk.specs.Walks.{AnyLengths, AnySource, Walks};

use crate::lookups;
use leaf_walk::variable_size;
use walk::plan_words;

// The codes of unions and run-end nodes.
pub const SPARSE: u8 = 21;

pub const DENSE: u8 = 22;

pub const RUN_END: u8 = 23;

// Whether a format has a validity buffer: those from SPARSE on have none.
fn is_masked(code: u8) -> bool
    ensures { result ≡ masked code }
{
    code < SPARSE
}

// The validity of n rows, where the format has one.
pub fn copy_validity(
    plan: &[u64],
    parts: &[u64],
    places: &[u64],
    body: &[u8],
    counters: &mut [u64; plan_words::COUNTERS],
    room: &mut [u8],
    write: bool,
    first: usize,
    i: usize,
    slot: u64,
    n: u64,
) -> u8
    requires { (first < 2 ^ 32) × (i < 32) × (slot + n < 2 ^ 63) }
    ensures { AnyLengths plan parts places body first (λ j. Walks plan parts write (λ c. cond (masked (code_of (was plan) i)) (copy_mask j i slot n c) (done c)) counters room result) }
{
    if !is_masked(plan_words::code_of(plan, i)) {
        return 0;
    }
    leaf_walk::copy_mask(
        plan, parts, places, body, counters, room, write, first, i, slot, n,
    )
}

// The data of n rows of a leaf: numbers, keys, byte strings or views.
pub fn copy_leaf(
    plan: &[u64],
    parts: &[u64],
    places: &[u64],
    body: &[u8],
    counters: &mut [u64; plan_words::COUNTERS],
    room: &mut [u8],
    write: bool,
    source: usize,
    first: usize,
    i: usize,
    slot: u64,
    n: u64,
) -> u8
    requires first_bound { (first < 2 ^ 32) × (i < 32) × (slot + n < 2 ^ 63) × (source < 2 ^ 32) }
    requires bound { 17 ≤ code_of plan.now i → 23 < code_of plan.now i }
    ensures { (lengths : List ℕ) (child : Walk) → Walks plan parts write (copy_data (join (was plan) (was parts) lengths (was places) (was body) first source) child (code_of (was plan) i) i slot n) counters room result }
{
    let code = plan_words::code_of(plan, i);
    let w = lookups::width_at(plan, i);
    if schema::formats::is_fixed(code) {
        if plan_words::dictionary_of(plan, i) == 0 {
            return leaf_walk::copy_numbers(
                plan, parts, places, body, counters, room, write, first, i, w, slot, n,
            );
        }
        return leaf_walk::copy_keys(
            plan, parts, places, body, counters, room, write, source, first, i, w, slot, n,
        );
    }
    if schema::formats::is_string(code) {
        return variable_size::copy_string(
            plan, parts, places, body, counters, room, write, first, i, w, slot, n,
        );
    }
    if schema::formats::is_view(code) {
        return leaf_walk::copy_views(
            plan, parts, places, body, counters, room, write, source, first, i, slot, n,
        );
    }
    12
}

// The validity of n nulls; a union's or run-end node's are only counted.
pub fn null_validity(
    plan: &[u64],
    parts: &[u64],
    counters: &mut [u64; plan_words::COUNTERS],
    room: &mut [u8],
    write: bool,
    i: usize,
    n: u64,
) -> u8
    requires { i < 32 }
    ensures { AnySource plan parts (λ j. Walks plan parts write (λ c. cond (masked (code_of (was plan) i)) (null_mask j i n c) (count_nulls j i n c)) counters room result) }
{
    if !is_masked(plan_words::code_of(plan, i)) {
        return leaf_walk::count_nulls(plan, counters, i, n);
    }
    leaf_walk::null_mask(plan, parts, counters, room, write, i, n)
}

// n nulls of a list-view with offsets of w bytes.
fn null_list_view(
    plan: &[u64],
    parts: &[u64],
    counters: &mut [u64; plan_words::COUNTERS],
    room: &mut [u8],
    write: bool,
    i: usize,
    w: u64,
    n: u64,
) -> u8
    requires { (i < 32) × (1 ≤ w) × (w ≤ 16) }
    ensures { AnySource plan parts (λ j. (child : NullWalk) → Walks plan parts write (null_list_view j child w i n) counters room result) }
{
    let r = leaf_walk::null_numbers(plan, parts, counters, room, write, i, 1, w, n);
    if r != 0 {
        return r;
    }
    leaf_walk::null_numbers(plan, parts, counters, room, write, i, 2, w, n)
}

// The data of n nulls of a leaf, a list-view or a list, whose child gets none.
pub fn null_leaf(
    plan: &[u64],
    parts: &[u64],
    counters: &mut [u64; plan_words::COUNTERS],
    room: &mut [u8],
    write: bool,
    i: usize,
    n: u64,
) -> u8
    requires i_bound { i < 32 }
    requires bound { 21 ≤ code_of plan.now i → 23 < code_of plan.now i }
    ensures { AnySource plan parts (λ j. (child : NullWalk) → Walks plan parts write (null_data j child (code_of (was plan) i) i n) counters room result) }
{
    let code = plan_words::code_of(plan, i);
    let w = lookups::width_at(plan, i);
    if schema::formats::is_fixed(code) {
        return leaf_walk::null_numbers(plan, parts, counters, room, write, i, 1, w, n);
    }
    if schema::formats::is_string(code) {
        return variable_size::null_string(plan, parts, counters, room, write, i, w, n);
    }
    if schema::formats::is_view(code) {
        return leaf_walk::null_numbers(plan, parts, counters, room, write, i, 1, 16, n);
    }
    if schema::formats::is_list_view(code) {
        return null_list_view(plan, parts, counters, room, write, i, w, n);
    }
    if schema::formats::is_list(code) {
        return variable_size::null_list(plan, parts, counters, room, write, i, w, n);
    }
    12
}
