// A dense union's child of numbers or byte strings, by stretches.
ghost use Rattle.std.specs.Prelude.{◌≡◌, true, cond, List, ℕ, ◌+◌, ◌*◌, ◌<◌, ◌≤◌, ◌^◌, length};
ghost use Rattle.clauses.specs.Slices.{was};
ghost use Rattle.walk.specs.Log.{Out};
ghost use Rattle.leaf_walk.specs.Walks.{lent_join, Walks};
ghost use Rattle.batch.specs.Stretch.{sum_of, stretches};
ghost use Rattle.batch.specs.batch_walk.Plain.{is_text};
ghost use Rattle.batch.specs.batch_walk.Side.{furthest_of};
ghost use Rattle.batch.specs.batch_walk.Rows.{taken_from, taken_of, taken_stretches};

use crate::flat_child::{FlatChild, TextChild};
use crate::{dense_rows, homes};
use nested_rows::lookups;
use walk::plan_words;

// v if the rows are whole, else 0.
fn if_whole(whole: bool, v: u64) -> u64
    ensures { result ≡ cond whole v 0 }
{
    if whole {
        return v;
    }
    0
}

// The rows of child k: all `total` from `begin` on if they are whole, else its stretches.
pub fn copy_each<C: FlatChild>(
    plan: &[u64],
    parts: &[u64],
    lengths: &[u64],
    places: &[u64],
    body: &[u8],
    counters: &mut [u64; plan_words::COUNTERS],
    room: &mut [u8],
    write: bool,
    first: usize,
    homes: &[u8; 256],
    ids: u64,
    positions: u64,
    slot: u64,
    n: u64,
    k: usize,
    whole: bool,
    begin: u64,
    total: u64,
) -> u8
    requires first_bound { (first < 2 ^ 32) × (k < 32) × (C.holds plan.now k ≡ true) }
    requires n_in_bounds { (ids + (slot + n) ≤ length body.now) × (positions + 4 * (slot + n) ≤ length body.now) × (slot + n < 2 ^ 63) }
    requires total_le_n { total ≤ n }
    requires c_value { whole ≡ true → (walk : ℕ → ℕ → List ℕ → Out) (c : List ℕ) → stretches walk (taken_from homes.now body.now ids positions slot k) (taken_of homes.now body.now ids slot k) n c ≡ walk begin total c }
    ensures { (source : ℕ) → Walks plan parts write (taken_stretches (lent_join plan parts lengths places body first source) (was homes) ids positions slot k n) counters room result }
{
    let w = lookups::width_at(plan, k);
    let mut a = if_whole(whole, begin);
    let mut m = if_whole(whole, total);
    let mut r = if_whole(whole, n);
    while r <= n {
        let t = homes::advance(homes, body, ids, positions, slot, n, k, r, a, m);
        let g = C::copy_stretch(
            plan, parts, lengths, places, body, counters, room, write, first, k, w, t.a, t.m,
        );
        if g != 0 {
            return g;
        }
        if t.next == n {
            return 0;
        }
        a = homes::start_at(homes, body, ids, positions, slot + t.next, k);
        m = homes::size_at(homes, body, ids, slot + t.next, k);
        r = t.next + 1;
    }
    12
}

// The same, where they reach to `end`; a walk that only tries looks at rows that are not whole one by one.
pub fn copy_texts(
    plan: &[u64],
    parts: &[u64],
    lengths: &[u64],
    places: &[u64],
    body: &[u8],
    counters: &mut [u64; plan_words::COUNTERS],
    room: &mut [u8],
    write: bool,
    first: usize,
    homes: &[u8; 256],
    ids: u64,
    positions: u64,
    slot: u64,
    n: u64,
    k: usize,
    whole: bool,
    begin: u64,
    total: u64,
    end: u64,
) -> u8
    requires first_bound { (first < 2 ^ 32) × (k < 32) × (is_text plan.now k ≡ true) }
    requires n_in_bounds { (ids + (slot + n) ≤ length body.now) × (positions + 4 * (slot + n) ≤ length body.now) × (slot + n < 2 ^ 63) }
    requires total_value { (total ≡ sum_of (taken_of homes.now body.now ids slot k) n) × (end ≡ furthest_of (λ q. taken_from homes.now body.now ids positions slot k q + taken_of homes.now body.now ids slot k q) n) }
    requires c_value { whole ≡ true → (walk : ℕ → ℕ → List ℕ → Out) (c : List ℕ) → stretches walk (taken_from homes.now body.now ids positions slot k) (taken_of homes.now body.now ids slot k) n c ≡ walk begin total c }
    ensures { (source : ℕ) → Walks plan parts write (taken_stretches (lent_join plan parts lengths places body first source) (was homes) ids positions slot k n) counters room result }
{
    if !write {
        if !whole {
            let v = lookups::width_at(plan, k);
            let t = dense_rows::taken_tried(
                plan, lengths, places, body, counters, first, homes, ids, positions, slot, n, k, v,
                end,
            );
            if t != u64::MAX {
                plan_words::set_bytes(counters, k, t);
                plan_words::add_rows(counters, k, total);
                return 0;
            }
        }
    }
    copy_each::<TextChild>(
        plan, parts, lengths, places, body, counters, room, write, first, homes, ids, positions,
        slot, n, k, whole, begin, total,
    )
}
