// Rows of byte strings that a dense union's child takes, each looked at by itself.
ghost use Rattle.std.specs.Prelude.{◌≡◌, true, false, List, ℕ, ◌+◌, ◌*◌, ◌<◌, ◌≤◌, ◌^◌, length};
ghost use Rattle.clauses.specs.Slices.{was};
ghost use Rattle.walk.specs.State.{bytes_of, add_rows, set_bytes, top};
ghost use Rattle.walk.specs.Log.{Did};
ghost use Rattle.leaf_walk.specs.Join.{join};
ghost use Rattle.batch.specs.Stretch.{sum_of};
ghost use Rattle.batch.specs.batch_walk.Plain.{is_text};
ghost use Rattle.batch.specs.batch_walk.Side.{furthest_of};
ghost use Rattle.batch.specs.batch_walk.Texts.{chars_of, Rising};
ghost use Rattle.batch.specs.batch_walk.Rows.{taken_from, taken_of, taken_stretches};

use crate::{homes, numbers, sizes, text_rows};
use array_data::lent_tables;
use nested_rows::lookups;
use walk::plan_words;

// The bytes of the rows that child k takes, none behind its row `end`, of which row 0 stands at `offset`; the largest number where one of them has none.
fn taken_chars(
    body: &[u8],
    homes: &[u8; 256],
    ids: u64,
    positions: u64,
    slot: u64,
    n: u64,
    k: usize,
    at: u64,
    v: u64,
    offset: u64,
    end: u64,
    most: u64,
) -> u64
    requires n_in_bounds { (ids + (slot + n) ≤ length body.now) × (positions + 4 * (slot + n) ≤ length body.now) × (slot + n < 2 ^ 63) }
    requires v_value { (v ≡ 4 → ⊥) → v ≡ 8 }
    requires end_in_bounds { (at + v * (offset + end + 1) ≤ length body.now) × (offset + end < 2 ^ 63) × ((q : ℕ) → q < n → taken_from homes.now body.now ids positions slot k q + taken_of homes.now body.now ids slot k q ≤ end) }
    ensures { (result ≡ top → ⊥) → ((q : ℕ) → q < n → Rising v (was body) at most (offset + taken_from (was homes) (was body) ids positions slot k q) (taken_of (was homes) (was body) ids slot k q)) × (result ≡ sum_of (λ q. chars_of v (was body) at (offset + taken_from (was homes) (was body) ids positions slot k q) (taken_of (was homes) (was body) ids slot k q)) n) }
{
    let mut sum: u64 = 0;
    for r in 0..n {
        let a = homes::start_at(homes, body, ids, positions, slot + r, k);
        let m = homes::size_at(homes, body, ids, slot + r, k);
        let d = text_rows::chars_of(body, at, v, offset + a, m, most);
        if d == u64::MAX {
            return u64::MAX;
        }
        sum = plan_words::grow(sum, d);
    }
    sum
}

// The bytes that child k has with the rows that it takes, where none of them is refused; the largest number where that is not known.
pub fn taken_tried(
    plan: &[u64],
    lengths: &[u64],
    places: &[u64],
    body: &[u8],
    counters: &[u64; plan_words::COUNTERS],
    first: usize,
    homes: &[u8; 256],
    ids: u64,
    positions: u64,
    slot: u64,
    n: u64,
    k: usize,
    v: u64,
    end: u64,
) -> u64
    requires first_bound { (first < 2 ^ 32) × (k < 32) × (v ≡ bytes_of plan.now k) × (is_text plan.now k ≡ true) }
    requires n_in_bounds { (ids + (slot + n) ≤ length body.now) × (positions + 4 * (slot + n) ≤ length body.now) × (slot + n < 2 ^ 63) }
    requires end_value { end ≡ furthest_of (λ q. taken_from homes.now body.now ids positions slot k q + taken_of homes.now body.now ids slot k q) n }
    ensures { (result ≡ top → ⊥) → (parts : List ℕ) (source : ℕ) (room : List ℕ) → Did (was plan) parts false (taken_stretches (join (was plan) parts (was lengths) (was places) (was body) first source) (was homes) ids positions slot k n (was counters)) room 0 (add_rows k (sum_of (taken_of (was homes) (was body) ids slot k) n) (set_bytes k result (was counters))) room }
{
    if !numbers::reaches(lengths, places, body, first, k, v, plan_words::grow(end, 1)) {
        return u64::MAX;
    }
    let chars = lent_tables::place(places, first + k, 5);
    let len = body.len() as u64;
    if len < chars {
        return u64::MAX;
    }
    let offset = lookups::slot_of(lengths, first, k, 0, 0);
    let at = lent_tables::place(places, first + k, 3);
    let most = len - chars;
    let sum = taken_chars(
        body, homes, ids, positions, slot, n, k, at, v, offset, end, most,
    );
    let t = plan_words::grow(plan_words::bytes_of(counters, k), sum);
    if !sizes::is_offset(v, t) {
        return u64::MAX;
    }
    t
}
