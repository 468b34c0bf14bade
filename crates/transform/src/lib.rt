// The two orders on lent memory: each is tried first, on a copy of the counters, and made where no ground is found. A refused one changes nothing.
// A copy is tried without a look at validity bits, and counts its nulls where it is made. Of a leaf (`leaf_rows`, `leaf_nulls`) and a list of numbers
// (`list_rows`, `list_nulls`) and of a sparse union of numbers (`sparse_rows`, `sparse_nulls`) no walk is tried; a type that is one node of numbers goes a shorter way still (`numbers`, `number_nulls`).
// Follows `try_extend` and `try_extend_nulls` of arrow-data 60.1.0 src/transform/mod.rs, Apache-2.0; see NOTICE.
#![tactic(auto)]

mod leaf_bits;
mod leaf_counters;
mod leaf_nulls;
mod leaf_rows;
mod list_nulls;
mod list_rows;
mod null_ways;
mod number_nulls;
mod numbers;
mod run_nulls;
mod sparse_nulls;
mod sparse_rows;
mod stretches;
mod tried_counters;
mod tried_walks;

ghost use Rattle.std.specs.Prelude.{◌≡◌, List, true, ◌&&◌, ℕ, ◌*◌, ◌<◌, ◌^◌, min, length, get_or, leb};
ghost use Rattle.clauses.specs.Slices.{was, left};
ghost use Rattle.walk.specs.State.{far};
ghost use Rattle.walk.specs.Nulls.{null_walk};
ghost use Rattle.leaf_walk.specs.Walks.{null_join};
ghost use Rattle.refinement.specs.orders.Sound.{walkable};
ghost use Rattle.refinement.specs.orders.Order.{copy_order, null_order};
ghost use Rattle.transform.specs.Answer.{lent, Answers, Settles, Copies};
ghost use Rattle.transform.specs.numbers.Plan.{one_of_numbers, first_of_numbers, runs_of_numbers, list_of_numbers};

use array_data::lent_tables;
use walk::plan_words;

// ---- the counters

// The counters as an array.
pub fn load(counters: &[u64]) -> [u64; plan_words::COUNTERS]
    requires { length counters.now ≡ 96 }
    ensures { result ≡ was counters }
{
    let mut tally = [0u64; plan_words::COUNTERS];
    tally.copy_from_slice(counters);
    tally
}

// A copy; that it has 96 elements is known of an array that a call returns.
pub fn copied(counters: [u64; plan_words::COUNTERS]) -> [u64; plan_words::COUNTERS]
    ensures { result ≡ counters }
{
    counters
}

// The counters as the array has them.
pub fn store(counters: &mut [u64], tally: &[u64; plan_words::COUNTERS])
    requires { length counters.old ≡ 96 }
    ensures { counters.new ≡ was tally }
{
    counters.copy_from_slice(tally);
}

// Whether the rows start .. end - 1 are rows of the source whose first node is `first`.
pub fn in_source(lengths: &[u64], first: usize, start: u64, end: u64) -> bool
    requires { first < 2 ^ 32 }
    ensures { result ≡ (leb start end && leb end (get_or (was lengths) (2 * first) 0)) }
{
    if end < start {
        return false;
    }
    end <= lent_tables::at_u64(lengths, 2 * first)
}

// ---- copies

// The same by stretches, where they answer.
fn copy_nested(
    plan: &[u64],
    parts: &[u64],
    lengths: &[u64],
    places: &[u64],
    body: &[u8],
    counters: &mut [u64],
    room: &mut [u8],
    source: usize,
    first: usize,
    start: u64,
    n: u64,
) -> u8
    requires { (length counters.old ≡ 96) × (first < 2 ^ 32) × (source < 2 ^ 32) × (walkable plan.now (length room.old) ≡ true) }
    ensures { Copies plan parts lengths places body first source start n counters room result }
{
    if sparse_rows::is_sparse(plan) {
        return sparse_rows::copy_sparse(
            plan, parts, lengths, places, body, counters, room, first, start, n,
        );
    }
    let g = stretches::copy_stretches(
        plan, parts, lengths, places, body, counters, room, first, start, n,
    );
    if g != stretches::UNTOLD {
        return g;
    }
    tried_walks::copy_rows(
        plan, parts, lengths, places, body, counters, room, source, first, start, n,
    )
}

// The same by the kind of the type: a leaf and a list of numbers are not tried first, and a type that is one node of numbers asks no other.
fn copy_range(
    plan: &[u64],
    parts: &[u64],
    lengths: &[u64],
    places: &[u64],
    body: &[u8],
    counters: &mut [u64],
    room: &mut [u8],
    way: u8,
    source: usize,
    first: usize,
    start: u64,
    n: u64,
) -> u8
    requires { (length counters.old ≡ 96) × (first < 2 ^ 32) × (source < 2 ^ 32) × (way ≡ 1 → one_of_numbers plan.now ≡ true) × (way ≡ 3 → list_of_numbers plan.now ≡ true) × (walkable plan.now (length room.old) ≡ true) }
    ensures { Copies plan parts lengths places body first source start n counters room result }
{
    if way == null_ways::NUMBERS {
        return numbers::copy_numbers(
            plan, parts, lengths, places, body, counters, room, first, start, n,
        );
    }
    if (n != 0) & schema::formats::within(plan_words::code_of(plan, 0), 1, 16) {
        return leaf_rows::copy_leaf_rows(
            plan, parts, lengths, places, body, counters, room, source, first, start, n,
        );
    }
    if (way == null_ways::LISTS) & (n != 0) {
        return list_rows::copy_list_rows(
            plan, parts, lengths, places, body, counters, room, first, start, n,
        );
    }
    copy_nested(
        plan, parts, lengths, places, body, counters, room, source, first, start, n,
    )
}

// Copies the rows start .. end - 1 of a source behind the destination's rows: 0, or the ground of refusal.
pub fn try_extend(
    plan: &[u64],
    parts: &[u64],
    sources: &[u32],
    lengths: &[u64],
    places: &[u64],
    body: &[u8],
    counters: &mut [u64],
    room: &mut [u8],
    source: u32,
    start: u64,
    end: u64,
) -> u8
    ensures { Answers (copy_order (lent (was plan) (was parts) (was sources) (was lengths) (was places) (was body)) counters.old room.old source start end) result counters.new room.new }
{
    if counters.len() != plan_words::COUNTERS {
        return 14;
    }
    let way = null_ways::copy_way(plan);
    let known = (way == null_ways::NUMBERS) | (way == null_ways::LISTS);
    if !numbers::is_walkable(plan, room.len(), known) {
        return 14;
    }
    if lent_tables::at_u64(plan, plan_words::SOURCE_COUNT) <= source as u64 {
        return 1;
    }
    let first = lent_tables::at_u32(sources, 2 * (source as usize)) as usize;
    if !in_source(lengths, first, start, end) {
        return 2;
    }
    copy_range(
        plan,
        parts,
        lengths,
        places,
        body,
        counters,
        room,
        way,
        source as usize,
        first,
        start,
        end - start,
    )
}

// ---- nulls

// At most 2^63 rows: no part holds as many.
pub fn at_most_far(n: u64) -> u64
    ensures { result ≡ min n far }
{
    if plan_words::FAR < n {
        return plan_words::FAR;
    }
    n
}

// The same by the kind of the type: nulls of a leaf, of run ends over numbers and of a list or a sparse union of numbers are not tried first.
fn add_null_range(
    plan: &[u64],
    parts: &[u64],
    counters: &mut [u64],
    room: &mut [u8],
    way: u8,
    n: u64,
) -> u8
    requires { (length counters.old ≡ 96) × (way ≡ 1 → first_of_numbers plan.now ≡ true) × (way ≡ 2 → runs_of_numbers plan.now ≡ true) × (way ≡ 3 → list_of_numbers plan.now ≡ true) × (walkable plan.now (length room.old) ≡ true) }
    ensures { (sources lengths places body : List ℕ) → Settles (lent (was plan) (was parts) sources lengths places body) (null_walk (null_join plan parts) 8 0 n) counters room result }
{
    if (way == null_ways::NUMBERS) & (n != 0) {
        return number_nulls::add_number_nulls(plan, parts, counters, room, n);
    }
    if (way == null_ways::RUNS) & (n != 0) & (lent_tables::at_u64(counters, 2) == 0) {
        return run_nulls::add_run_nulls(plan, parts, counters, room, n);
    }
    if (way == null_ways::LISTS) & (n != 0) {
        return list_nulls::add_list_nulls(plan, parts, counters, room, n);
    }
    if (n != 0) & schema::formats::within(plan_words::code_of(plan, 0), 1, 16) {
        return leaf_nulls::add_leaf_nulls(plan, parts, counters, room, n);
    }
    if (n != 0) & sparse_rows::is_sparse(plan) {
        return sparse_nulls::add_sparse_nulls(plan, parts, counters, room, n);
    }
    tried_walks::add_nulls(plan, parts, counters, room, n)
}

// Adds n nulls behind the destination's rows: 0, or the ground of refusal. No source is read.
pub fn try_extend_nulls(
    plan: &[u64],
    parts: &[u64],
    counters: &mut [u64],
    room: &mut [u8],
    n: u64,
) -> u8
    ensures { (sources lengths places body : List ℕ) → Answers (null_order (lent (was plan) (was parts) sources lengths places body) counters.old room.old n) result counters.new room.new }
{
    if counters.len() != plan_words::COUNTERS {
        return 14;
    }
    let way = null_ways::way_of(plan);
    let known = (way == null_ways::NUMBERS) | (way == null_ways::RUNS) | (way == null_ways::LISTS);
    if !numbers::is_walkable(plan, room.len(), known) {
        return 14;
    }
    if plan_words::keeps_of(plan, 0) == 0 {
        return 3;
    }
    add_null_range(plan, parts, counters, room, way, at_most_far(n))
}
