// Rows of byte strings, each looked at by itself.
ghost use Rattle.std.specs.Prelude.{◌≡◌, true, false, List, ℕ, ◌+◌, ◌*◌, ◌<◌, ◌≤◌, ◌^◌, length};
ghost use Rattle.clauses.specs.Slices.{was};
ghost use Rattle.number.specs.Number.{entry};
ghost use Rattle.walk.specs.State.{bytes_of, add_rows, set_bytes, top};
ghost use Rattle.walk.specs.Log.{Did};
ghost use Rattle.leaf_walk.specs.Join.{join};
ghost use Rattle.batch.specs.Stretch.{sum_of};
ghost use Rattle.batch.specs.batch_walk.Plain.{is_text};
ghost use Rattle.batch.specs.batch_walk.Texts.{chars_of, Rising};
ghost use Rattle.batch.specs.batch_walk.Rows.{named_stretches};

use crate::{listed, numbers, sizes, texts};
use array_data::lent_tables;
use nested_rows::lookups;
use walk::plan_words;

// The bytes of m rows from `slot` on, whose offsets of w bytes stand at `at`; the largest number where an offset falls or the last is above `most`.
pub fn chars_of(body: &[u8], at: u64, w: u64, slot: u64, m: u64, most: u64) -> u64
    requires m_in_bounds { (at + w * slot + w * (m + 1) ≤ length body.now) × (m < 2 ^ 63) }
    requires w_value { (w ≡ 4 → ⊥) → w ≡ 8 }
    ensures { (result ≡ top → ⊥) → Rising w (was body) at most slot m × (result ≡ chars_of w (was body) at slot m) }
{
    let from = at + w * slot;
    if !texts::never_falls(body, from, w, m) {
        return u64::MAX;
    }
    let end = lookups::entry_at(body, from, w, m);
    if most < end {
        return u64::MAX;
    }
    end - lookups::entry_at(body, from, w, 0)
}

// The bytes of the rows that n offsets and sizes of w bytes name, none behind row `end`, of a child whose row 0 stands at `offset`; the largest number
// where one of them has none.
pub fn list_chars(
    body: &[u8],
    offsets: u64,
    sizes: u64,
    w: u64,
    slot: u64,
    n: u64,
    at: u64,
    v: u64,
    offset: u64,
    end: u64,
    most: u64,
) -> u64
    requires n_in_bounds { (offsets + w * (slot + n) ≤ length body.now) × (sizes + w * (slot + n) ≤ length body.now) × (slot + n < 2 ^ 63) }
    requires w_value { (w ≡ 4 → ⊥) → w ≡ 8 }
    requires v_value { (v ≡ 4 → ⊥) → v ≡ 8 }
    requires end_in_bounds { (at + v * (offset + end + 1) ≤ length body.now) × (offset + end < 2 ^ 63) × ((q : ℕ) → q < n → entry w body.now offsets (slot + q) + entry w body.now sizes (slot + q) ≤ end) }
    ensures { (result ≡ top → ⊥) → ((q : ℕ) → q < n → Rising v (was body) at most (offset + entry w (was body) offsets (slot + q)) (entry w (was body) sizes (slot + q))) × (result ≡ sum_of (λ q. chars_of v (was body) at (offset + entry w (was body) offsets (slot + q)) (entry w (was body) sizes (slot + q))) n) }
{
    let mut sum: u64 = 0;
    for r in 0..n {
        let a = lookups::entry_at(body, offsets, w, slot + r);
        let m = lookups::entry_at(body, sizes, w, slot + r);
        let d = chars_of(body, at, v, offset + a, m, most);
        if d == u64::MAX {
            return u64::MAX;
        }
        sum = plan_words::grow(sum, d);
    }
    sum
}

// The bytes that child k has with the rows that n offsets and sizes name, where none of them is refused; the largest number where that is not known.
pub fn list_tried(
    plan: &[u64],
    lengths: &[u64],
    places: &[u64],
    body: &[u8],
    counters: &[u64; plan_words::COUNTERS],
    first: usize,
    offsets: u64,
    sizes: u64,
    w: u64,
    slot: u64,
    n: u64,
    k: usize,
    v: u64,
) -> u64
    requires first_bound { (first < 2 ^ 32) × (k < 32) × (v ≡ bytes_of plan.now k) × (is_text plan.now k ≡ true) }
    requires n_in_bounds { (offsets + w * (slot + n) ≤ length body.now) × (sizes + w * (slot + n) ≤ length body.now) × (slot + n < 2 ^ 63) }
    requires w_value { (w ≡ 4 → ⊥) → w ≡ 8 }
    ensures { (result ≡ top → ⊥) → (parts : List ℕ) (source : ℕ) (room : List ℕ) → Did (was plan) parts false (named_stretches (join (was plan) parts (was lengths) (was places) (was body) first source) w offsets sizes slot k n (was counters)) room 0 (add_rows k (sum_of (λ q. entry w (was body) sizes (slot + q)) n) (set_bytes k result (was counters))) room }
{
    if !listed::is_shuffled(body, offsets, sizes, w, slot, n) {
        return u64::MAX;
    }
    let end = sizes::furthest(body, offsets, sizes, w, slot, n);
    if !numbers::reaches(lengths, places, body, first, k, v, plan_words::grow(end, 1)) {
        return u64::MAX;
    }
    let chars = lent_tables::place(places, first + k, 5);
    let len = body.len() as u64;
    if len < chars {
        return u64::MAX;
    }
    let offset = lookups::slot_of(lengths, first, k, 0, 0);
    let at = lent_tables::place(places, first + k, 3);
    let most = len - chars;
    let sum = list_chars(body, offsets, sizes, w, slot, n, at, v, offset, end, most);
    let t = plan_words::grow(plan_words::bytes_of(counters, k), sum);
    if !sizes::is_offset(v, t) {
        return u64::MAX;
    }
    t
}
