// A dense union by stretches of each of its children.
ghost use Rattle.std.specs.Prelude.{◌≡◌, true, not, ◌&&◌, List, [], ℕ, suc, ◌+◌, ◌*◌, ◌-◌, ◌<◌, ◌≤◌, ◌^◌, length};
ghost use Rattle.clauses.specs.Slices.{was};
ghost use Rattle.number.specs.Number.{entry};
ghost use Rattle.walk.specs.State.{end_of, place};
ghost use Rattle.walk.specs.Log.{Out};
ghost use Rattle.leaf_walk.specs.Join.{join};
ghost use Rattle.leaf_walk.specs.Walks.{lent_join, Walks};
ghost use Rattle.batch.specs.Stretch.{sum_of, stretches};
ghost use Rattle.batch.specs.Dense.{batch_fields, batch_dense};
ghost use Rattle.batch.specs.Batch.{batch_leaf};
ghost use Rattle.batch.specs.batch_walk.Plain.{is_plain, is_flat, reached};
ghost use Rattle.batch.specs.batch_walk.Side.{furthest_of};
ghost use Rattle.batch.specs.batch_walk.Fall.{Homed, home_by, Fallen};
ghost use Rattle.batch.specs.batch_walk.Rows.{taken_from, taken_of, taken_stretches};

use crate::flat_child::NumberChild;
use crate::{dense_texts, gather, homes, list_view, numbers, survey, texts};
use array_data::lent_tables;
use nested_rows::lookups;
use walk::plan_words;

// Whether the walk only tries, and the rows of child k before row `end` stand in the body: then no stretch is refused.
fn all_reached(
    lengths: &[u64],
    places: &[u64],
    body: &[u8],
    write: bool,
    first: usize,
    k: usize,
    w: u64,
    end: u64,
) -> bool
    requires { (first < 2 ^ 32) × (k < 32) × (w ≤ 16) }
    ensures { (plan parts : List ℕ) (source : ℕ) → result ≡ (not write && reached (join plan parts (was lengths) (was places) (was body) first source) k w end) }
{
    if write {
        return false;
    }
    numbers::reaches(lengths, places, body, first, k, w, end)
}

// The rows of child k: `total` of them, which reach to `end`, and all from `begin` on if they are whole.
fn copy_child(
    plan: &[u64],
    parts: &[u64],
    lengths: &[u64],
    places: &[u64],
    body: &[u8],
    counters: &mut [u64; plan_words::COUNTERS],
    room: &mut [u8],
    write: bool,
    first: usize,
    homes: &[u8; 256],
    ids: u64,
    positions: u64,
    slot: u64,
    n: u64,
    k: usize,
    whole: bool,
    begin: u64,
    total: u64,
    end: u64,
) -> u8
    requires first_bound { (first < 2 ^ 32) × (k < 32) × (is_flat plan.now k ≡ true) }
    requires n_in_bounds { (ids + (slot + n) ≤ length body.now) × (positions + 4 * (slot + n) ≤ length body.now) × (slot + n < 2 ^ 63) }
    requires total_value { (total ≡ sum_of (taken_of homes.now body.now ids slot k) n) × (end ≡ furthest_of (λ q. taken_from homes.now body.now ids positions slot k q + taken_of homes.now body.now ids slot k q) n) }
    requires c_value { whole ≡ true → (walk : ℕ → ℕ → List ℕ → Out) (c : List ℕ) → stretches walk (taken_from homes.now body.now ids positions slot k) (taken_of homes.now body.now ids slot k) n c ≡ walk begin total c }
    ensures { (source : ℕ) → Walks plan parts write (taken_stretches (lent_join plan parts lengths places body first source) (was homes) ids positions slot k n) counters room result }
{
    if texts::is_text(plan, k) {
        return dense_texts::copy_texts(
            plan, parts, lengths, places, body, counters, room, write, first, homes, ids,
            positions, slot, n, k, whole, begin, total, end,
        );
    }
    let w = lookups::width_at(plan, k);
    if all_reached(lengths, places, body, write, first, k, w, end) {
        plan_words::add_rows(counters, k, total);
        return 0;
    }
    if whole {
        return numbers::copy_stretch(
            plan, parts, lengths, places, body, counters, room, write, first, k, w, begin, total,
        );
    }
    if gather::put_taken(
        plan, parts, lengths, places, body, counters, room, write, first, homes, ids, positions,
        slot, n, k, w, total, end,
    ) {
        plan_words::add_rows(counters, k, total);
        return 0;
    }
    dense_texts::copy_each::<NumberChild>(
        plan, parts, lengths, places, body, counters, room, write, first, homes, ids, positions,
        slot, n, k, false, 0, 0,
    )
}

// The rows of the children of node i, one child after the other.
fn copy_children(
    plan: &[u64],
    parts: &[u64],
    lengths: &[u64],
    places: &[u64],
    body: &[u8],
    counters: &mut [u64; plan_words::COUNTERS],
    room: &mut [u8],
    write: bool,
    first: usize,
    homes: &[u8; 256],
    begins: &[u64; 32],
    taken: &[u64; 32],
    ends: &[u64; 32],
    whole: bool,
    ids: u64,
    positions: u64,
    i: usize,
    slot: u64,
    n: u64,
) -> u8
    requires first_bound { (first < 2 ^ 32) × (i < 32) × ((j : ℕ) → i < j → j < end_of plan.now i → is_flat plan.now j ≡ true) }
    requires n_in_bounds { (ids + (slot + n) ≤ length body.now) × (positions + 4 * (slot + n) ≤ length body.now) × (slot + n < 2 ^ 63) }
    requires homed { Homed plan.now i homes.now × (ids ≡ place (join [] [] [] places.now [] first 0) i 3) × (positions ≡ place (join [] [] [] places.now [] first 0) i 5) }
    requires fallen { Fallen (λ r. home_by homes.now body.now (ids + (slot + r))) (λ r. entry 4 body.now positions (slot + r)) n n whole begins.now taken.now ends.now }
    ensures { (source : ℕ) → let j = lent_join plan parts lengths places body first source in Walks plan parts write (batch_fields j (batch_leaf j) i slot n (end_of (was plan) i) 32 (suc i)) counters room result }
{
    let last = plan_words::end_of(plan, i);
    let mut k = i + 1;
    for t in 0..32usize {
        if last <= k {
            return 0;
        }
        let next = plan_words::end_of(plan, k);
        if next <= k {
            return 12;
        }
        if !list_view::is_owned(plan, k) {
            return 12;
        }
        let g = copy_child(
            plan, parts, lengths, places, body, counters, room, write, first, homes, ids,
            positions, slot, n, k, whole, begins[k], taken[k], ends[k],
        );
        if g != 0 {
            return g;
        }
        k = next;
    }
    0
}

// A dense union whose children are of numbers without validity.
pub fn copy_dense(
    plan: &[u64],
    parts: &[u64],
    lengths: &[u64],
    places: &[u64],
    body: &[u8],
    counters: &mut [u64; plan_words::COUNTERS],
    room: &mut [u8],
    write: bool,
    first: usize,
    i: usize,
    slot: u64,
    n: u64,
) -> u8
    requires { (first < 2 ^ 32) × (i < 32) × (slot + n < 2 ^ 63) × ((j : ℕ) → i < j → j < end_of plan.now i → is_flat plan.now j ≡ true) }
    ensures { (source : ℕ) → let j = lent_join plan parts lengths places body first source in Walks plan parts write (batch_dense j (batch_leaf j) i slot n) counters room result }
{
    if !list_view::is_owned(plan, i) {
        return 12;
    }
    if !nested_rows::pairs_in(places, body, first, i, 1, 4, slot, n) {
        return 12;
    }
    let ids = lent_tables::place(places, first + i, 3);
    let positions = lent_tables::place(places, first + i, 5);
    let homes = homes::homes_of(plan, i);
    let mut begins = [0u64; 32];
    let mut taken = [0u64; 32];
    let mut ends = [0u64; 32];
    let seen = survey::survey(
        &homes,
        counters,
        body,
        ids,
        positions,
        slot,
        n,
        &mut begins,
        &mut taken,
        &mut ends,
    );
    if !seen.sound {
        return 12;
    }
    let rows = plan_words::rows_of(counters, i);
    let from = ids + slot;
    room_writes::put_copy(plan, parts, room, write, i, 1, rows, body, from as usize, n);
    let o = plan_words::scale(rows, 4);
    survey::put_lands(
        plan, parts, room, write, i, o, &homes, counters, body, ids, slot, n,
    );
    copy_children(
        plan, parts, lengths, places, body, counters, room, write, first, &homes, &begins, &taken,
        &ends, seen.whole, ids, positions, i, slot, n,
    )
}
