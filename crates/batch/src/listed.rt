// Rows of a list-view's child that stand in the body one by one, where the room has them all: row after row.
ghost use Rattle.std.specs.Prelude.{◌≡◌, true, false, ℕ, ◌+◌, ◌*◌, ◌<◌, ◌≤◌, ◌^◌, length, take, drop};
ghost use Rattle.clauses.specs.Slices.{was, left};
ghost use Rattle.number.specs.Number.{entry, splice};
ghost use Rattle.utils.specs.Pieces.{pieces};
ghost use Rattle.walk.specs.State.{bytes_of, add_rows};
ghost use Rattle.walk.specs.Log.{Did};
ghost use Rattle.leaf_walk.specs.Walks.{lent_join};
ghost use Rattle.batch.specs.Stretch.{sum_of};
ghost use Rattle.batch.specs.batch_walk.Plain.{is_plain};
ghost use Rattle.batch.specs.batch_walk.Rows.{named_stretches};

use crate::{numbers, sizes};
use array_data::lent_tables;
use nested_rows::lookups;
use walk::plan_words;

// 1 if row r of n does not start where the row before it ends, else 0.
fn break_at(body: &[u8], offsets: u64, sizes: u64, w: u64, slot: u64, n: u64, r: u64) -> u64
    requires n_in_bounds { (offsets + w * (slot + n) ≤ length body.now) × (sizes + w * (slot + n) ≤ length body.now) × (slot + n < 2 ^ 63) × (r < n) }
    requires w_value { (w ≡ 4 → ⊥) → w ≡ 8 }
    ensures { result ≤ 1 }
{
    if r == 0 {
        return 0;
    }
    let start = lookups::entry_at(body, offsets, w, slot + (r - 1));
    let end = plan_words::grow(start, lookups::entry_at(body, sizes, w, slot + (r - 1)));
    if end == lookups::entry_at(body, offsets, w, slot + r) {
        return 0;
    }
    1
}

// Whether most of the first 16 rows do not start where the one before ends: which way is taken hangs on it, not what is written.
pub fn is_shuffled(body: &[u8], offsets: u64, sizes: u64, w: u64, slot: u64, n: u64) -> bool
    requires n_in_bounds { (offsets + w * (slot + n) ≤ length body.now) × (sizes + w * (slot + n) ≤ length body.now) × (slot + n < 2 ^ 63) }
    requires w_value { (w ≡ 4 → ⊥) → w ≡ 8 }
{
    let last = n.min(16);
    let mut breaks: u64 = 0;
    for r in 0..last {
        breaks += break_at(body, offsets, sizes, w, slot, n, r);
    }
    last < 2 * breaks
}

// The rows that n offsets and sizes of w bytes name, of entries of v bytes, from `to` on; row 0 of the child stands at `at`.
fn copy_listed(
    room: &mut [u8],
    to: usize,
    body: &[u8],
    at: u64,
    v: u64,
    offsets: u64,
    sizes: u64,
    w: u64,
    slot: u64,
    n: u64,
)
    requires n_in_bounds { (offsets + w * (slot + n) ≤ length body.now) × (sizes + w * (slot + n) ≤ length body.now) × (slot + n < 2 ^ 63) }
    requires w_value { (w ≡ 4 → ⊥) → w ≡ 8 }
    requires n_in_bounds_2 { (to + v * sum_of (λ r. entry w body.now sizes (slot + r)) n ≤ length room.old) × ((r : ℕ) → r < n → at + v * (entry w body.now offsets (slot + r) + entry w body.now sizes (slot + r)) ≤ length body.now) }
    ensures { room.new ≡ splice to (pieces (λ r. take (v * entry w (was body) sizes (slot + r)) (drop (at + v * entry w (was body) offsets (slot + r)) (was body))) n) room.old }
{
    let mut to = to;
    for r in 0..n {
        let start = lookups::entry_at(body, offsets, w, slot + r);
        let size = v * lookups::entry_at(body, sizes, w, slot + r);
        let from = at + v * start;
        numbers::copy_few(room, to, body, from as usize, size as usize);
        to += size as usize;
    }
}

// Writes the rows of child k that n offsets and sizes name, `total` of them, where they stand in the body and the room has them; else false.
pub fn put_listed(
    plan: &[u64],
    parts: &[u64],
    lengths: &[u64],
    places: &[u64],
    body: &[u8],
    counters: &[u64; plan_words::COUNTERS],
    room: &mut [u8],
    write: bool,
    first: usize,
    offsets: u64,
    sizes: u64,
    w: u64,
    slot: u64,
    n: u64,
    k: usize,
    v: u64,
    total: u64,
) -> bool
    requires first_bound { (first < 2 ^ 32) × (k < 32) × (v ≡ bytes_of plan.now k) × (is_plain plan.now k ≡ true) }
    requires n_in_bounds { (offsets + w * (slot + n) ≤ length body.now) × (sizes + w * (slot + n) ≤ length body.now) × (slot + n < 2 ^ 63) }
    requires w_value { (w ≡ 4 → ⊥) → w ≡ 8 }
    requires total_value { total ≡ sum_of (λ r. entry w body.now sizes (slot + r)) n }
    ensures room_value { result ≡ false → room.new ≡ room.old }
    ensures did { result ≡ true → (source : ℕ) → Did (was plan) (was parts) write (named_stretches (lent_join plan parts lengths places body first source) w offsets sizes slot k n (was counters)) room.old 0 (add_rows k total (was counters)) room.new }
{
    if !is_shuffled(body, offsets, sizes, w, slot, n) {
        return false;
    }
    let end = sizes::furthest(body, offsets, sizes, w, slot, n);
    if !numbers::reaches(lengths, places, body, first, k, v, end) {
        return false;
    }
    let o = plan_words::scale(plan_words::rows_of(counters, k), v);
    match plan_words::target(
        plan,
        parts,
        room.len(),
        write,
        k,
        1,
        o,
        plan_words::scale(total, v),
    ) {
        Some(to) => {
            let offset = lookups::slot_of(lengths, first, k, 0, 0);
            let at = lent_tables::place(places, first + k, 3) + v * offset;
            copy_listed(room, to, body, at, v, offsets, sizes, w, slot, n);
            true
        }
        None => false,
    }
}
