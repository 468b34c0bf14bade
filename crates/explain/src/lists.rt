// Stops at list-views and lists: a row whose offset and size do not fit, an offset that does not, or the rows of the child.
ghost use Rattle.std.specs.Prelude.{◌≡◌, [], ℕ, ◌+◌, ◌*◌, ◌<◌, ◌≤◌, ◌^◌, length};
ghost use Rattle.clauses.specs.Slices.{was, left};
ghost use Rattle.walk.specs.State.{place};
ghost use Rattle.walk.specs.Copy.{list_view_row};
ghost use Rattle.leaf_walk.specs.Join.{join};
ghost use Rattle.leaf_walk.specs.Walks.{lent_join, AnyLengths};
ghost use Rattle.explain.specs.stops.Copy.{why_list_row, why_list_view, why_list};
ghost use Rattle.explain.specs.stop_walks.Step.{Says, RowAt};

use crate::stop_walks::Step;
use crate::stops::Why;
use array_data::lent_tables;
use leaf_walk::variable_size;
use nested_rows::lookups;
use utils::Extended;
use walk::plan_words;

const OFFSET: u8 = 6;

const FOREIGN: u8 = 12;

// Row r of a list-view.
fn list_row(
    plan: &[u64],
    parts: &[u64],
    lengths: &[u64],
    places: &[u64],
    body: &[u8],
    counters: &mut [u64; plan_words::COUNTERS],
    source: usize,
    first: usize,
    i: usize,
    w: u64,
    slot: u64,
    r: u64,
    depth: u32,
) -> Step
    requires first_bound { (first < 2 ^ 32) × (source < 2 ^ 32) × (i + 1 < 32) × (slot + r + 1 < 2 ^ 63) }
    requires w_value { (w ≡ 4 → ⊥) → w ≡ 8 }
    requires fact { let j = join [] [] lengths.now places.now body.now first 0 in (place j i 3 + w * (slot + r + 1) ≤ length body.now) × (place j i 5 + w * (slot + r + 1) ≤ length body.now) }
    ensures { let j = lent_join plan parts lengths places body first source in RowAt j depth (λ c. list_view_row j c w) (λ c y. why_list_row j c y w) i slot r counters.old result counters.new }
{
    let offset = lookups::entry_at(body, lent_tables::place(places, first + i, 3), w, slot + r);
    let size = lookups::entry_at(body, lent_tables::place(places, first + i, 5), w, slot + r);
    let child = plan_words::rows_of(counters, i + 1);
    if !nested_rows::sum_fits(w, child, size) {
        return Step::Here(Why {
            refusal: OFFSET,
            node: i,
            row: r,
            needed: plan_words::grow(child, size),
            allowed: crate::stop_walks::largest(w),
        });
    }
    crate::stop_walks::step_into(
        plan,
        parts,
        lengths,
        places,
        body,
        counters,
        source,
        first,
        i + 1,
        offset,
        size,
        depth,
    )
}

// A list-view with offsets of w bytes: its first row that is refused.
pub fn step_list_view(
    plan: &[u64],
    parts: &[u64],
    lengths: &[u64],
    places: &[u64],
    body: &[u8],
    counters: &mut [u64; plan_words::COUNTERS],
    source: usize,
    first: usize,
    i: usize,
    w: u64,
    slot: u64,
    n: u64,
    depth: u32,
) -> Step
    requires first_bound { (first < 2 ^ 32) × (source < 2 ^ 32) × (i < 32) × (slot + n < 2 ^ 63) }
    requires w_value { (w ≡ 4 → ⊥) → w ≡ 8 }
    ensures { let j = lent_join plan parts lengths places body first source in Says j depth (λ c y. why_list_view j c y w i slot n) counters.old result counters.new }
{
    if 32 <= i + 1 {
        return Step::Here(crate::stop_walks::plain(FOREIGN));
    }
    if !nested_rows::pairs_in(places, body, first, i, w, w, slot, n) {
        return Step::Here(crate::stop_walks::plain(FOREIGN));
    }
    for r in 0..n {
        match list_row(
            plan, parts, lengths, places, body, counters, source, first, i, w, slot, r, depth,
        ) {
            Step::On => {}
            Step::Here(w) => return Step::Here(w),
            Step::Below { node, row, rows } => return Step::Below { node, row, rows },
        }
    }
    Step::On
}

// A list with offsets of w bytes: its first offset that does not fit, or the stretch of its child.
pub fn step_list(
    plan: &[u64],
    parts: &[u64],
    places: &[u64],
    body: &[u8],
    counters: &[u64; plan_words::COUNTERS],
    first: usize,
    i: usize,
    w: u64,
    slot: u64,
    n: u64,
) -> Step
    requires first_bound { (first < 2 ^ 32) × (i < 32) × (slot + n < 2 ^ 63) }
    requires w_value { (w ≡ 4 → ⊥) → w ≡ 8 }
    ensures { AnyLengths plan parts places body first (λ j. (depth : ℕ) → Says j depth (λ c y. why_list j c y w i slot n) (was counters) result (was counters)) }
{
    if n == 0 {
        return Step::On;
    }
    if 32 <= i + 1 {
        return Step::Here(crate::stop_walks::plain(FOREIGN));
    }
    let mut none = [0u8; 0];
    match variable_size::copy_offsets(
        plan, parts, places, body, counters, &mut none, false, first, i, w, slot, n,
    ) {
        Extended::Fits { last, first: from } => Step::Below {
            node: i + 1,
            row: from,
            rows: last - plan_words::rows_of(counters, i + 1),
        },
        Extended::Over { row, needed } => Step::Here(Why {
            refusal: OFFSET,
            node: i,
            row: row as u64,
            needed,
            allowed: crate::stop_walks::largest(w),
        }),
        Extended::Falls => Step::Here(crate::stop_walks::plain(FOREIGN)),
    }
}
