// Rows of a dense union's child that stand in the body one by one, where the room has them all: entry after entry.
ghost use Rattle.std.specs.Prelude.{◌≡◌, true, false, cond, ℕ, ◌+◌, ◌*◌, ◌<◌, ◌≤◌, ◌^◌, length, take, drop, eqb};
ghost use Rattle.clauses.specs.Slices.{was, left};
ghost use Rattle.number.specs.Number.{entry, splice};
ghost use Rattle.utils.specs.Pieces.{pieces};
ghost use Rattle.walk.specs.State.{bytes_of, add_rows};
ghost use Rattle.walk.specs.Log.{Did};
ghost use Rattle.leaf_walk.specs.Walks.{lent_join};
ghost use Rattle.batch.specs.Stretch.{sum_of};
ghost use Rattle.batch.specs.batch_walk.Plain.{is_plain};
ghost use Rattle.batch.specs.batch_walk.Side.{furthest_of};
ghost use Rattle.batch.specs.batch_walk.Fall.{home_by};
ghost use Rattle.batch.specs.batch_walk.Rows.{taken_from, taken_of, taken_stretches};

use crate::{homes, numbers, short_copy};
use array_data::lent_tables;
use nested_rows::lookups;
use walk::plan_words;

// An entry of one byte, or of any width. A call of its own, so that `copy_entry` has none where an entry is one number of more bytes; one width
// more there makes a table of jumps, which takes a fifth more time.
#[inline(never)]
fn copy_other(room: &mut [u8], to: usize, body: &[u8], from: usize, w: u64)
    requires { (to + w ≤ length room.old) × (from + w ≤ length body.now) }
    ensures { room.new ≡ splice to (take w (drop from (was body))) room.old }
{
    if w == 1 {
        short_copy::copy_number::<u8>(room, to, body, from);
        return;
    }
    number::copy::copy_bytes(room, to, body, from, w as usize);
}

// An entry of w bytes of body at `from` into room at `to`.
fn copy_entry(room: &mut [u8], to: usize, body: &[u8], from: usize, w: u64)
    requires { (to + w ≤ length room.old) × (from + w ≤ length body.now) }
    ensures { room.new ≡ splice to (take w (drop from (was body))) room.old }
{
    if w == 4 {
        short_copy::copy_number::<u32>(room, to, body, from);
        return;
    }
    if w == 8 {
        short_copy::copy_number::<u64>(room, to, body, from);
        return;
    }
    if w == 2 {
        short_copy::copy_number::<u16>(room, to, body, from);
        return;
    }
    copy_other(room, to, body, from, w);
}

// Row q of the union, if child k takes it, into room at `to`: the bytes that it has there. Row 0 of the child stands at `at`.
fn copy_row(
    room: &mut [u8],
    to: usize,
    body: &[u8],
    at: u64,
    w: u64,
    homes: &[u8; 256],
    ids: u64,
    positions: u64,
    q: u64,
    k: usize,
) -> usize
    requires q_in_bounds { (ids + q < length body.now) × (positions + 4 * (q + 1) ≤ length body.now) × (q < 2 ^ 63) }
    requires fact { let e = eqb (home_by homes.now body.now (ids + q)) k in (to + w * cond e 1 0 ≤ length room.old) × (at + w * (cond e (entry 4 body.now positions q) 0 + cond e 1 0) ≤ length body.now) }
    ensures value { result ≡ w * cond (eqb (home_by (was homes) (was body) (ids + q)) k) 1 0 }
    ensures room_value { let e = eqb (home_by (was homes) (was body) (ids + q)) k in room.new ≡ splice to (take (w * cond e 1 0) (drop (at + w * cond e (entry 4 (was body) positions q) 0) (was body))) room.old }
{
    if homes::home_at(homes, body, ids + q) as usize != k {
        return 0;
    }
    let start = homes::position_at(body, positions, q) as u64;
    let from = at + w * start;
    copy_entry(room, to, body, from as usize, w);
    w as usize
}

// The entries of the rows that child k takes, from `to` on; row 0 of the child stands at `at`.
fn copy_taken(
    room: &mut [u8],
    to: usize,
    body: &[u8],
    at: u64,
    w: u64,
    homes: &[u8; 256],
    ids: u64,
    positions: u64,
    slot: u64,
    n: u64,
    k: usize,
)
    requires n_in_bounds { (ids + (slot + n) ≤ length body.now) × (positions + 4 * (slot + n) ≤ length body.now) × (slot + n < 2 ^ 63) }
    requires n_in_bounds_2 { (to + w * sum_of (taken_of homes.now body.now ids slot k) n ≤ length room.old) × ((r : ℕ) → r < n → at + w * (taken_from homes.now body.now ids positions slot k r + taken_of homes.now body.now ids slot k r) ≤ length body.now) }
    ensures { room.new ≡ splice to (pieces (λ r. take (w * taken_of (was homes) (was body) ids slot k r) (drop (at + w * taken_from (was homes) (was body) ids positions slot k r) (was body))) n) room.old }
{
    let mut to = to;
    for r in 0..n {
        to += copy_row(room, to, body, at, w, homes, ids, positions, slot + r, k);
    }
}

// Writes the rows of child k, `total` of them, which reach to `end`, where they stand in the body and the room has them; else false.
pub fn put_taken(
    plan: &[u64],
    parts: &[u64],
    lengths: &[u64],
    places: &[u64],
    body: &[u8],
    counters: &[u64; plan_words::COUNTERS],
    room: &mut [u8],
    write: bool,
    first: usize,
    homes: &[u8; 256],
    ids: u64,
    positions: u64,
    slot: u64,
    n: u64,
    k: usize,
    w: u64,
    total: u64,
    end: u64,
) -> bool
    requires first_bound { (first < 2 ^ 32) × (k < 32) × (w ≡ bytes_of plan.now k) × (is_plain plan.now k ≡ true) }
    requires n_in_bounds { (ids + (slot + n) ≤ length body.now) × (positions + 4 * (slot + n) ≤ length body.now) × (slot + n < 2 ^ 63) }
    requires total_value { (total ≡ sum_of (taken_of homes.now body.now ids slot k) n) × (end ≡ furthest_of (λ q. taken_from homes.now body.now ids positions slot k q + taken_of homes.now body.now ids slot k q) n) }
    ensures room_value { result ≡ false → room.new ≡ room.old }
    ensures did { result ≡ true → (source : ℕ) → Did (was plan) (was parts) write (taken_stretches (lent_join plan parts lengths places body first source) (was homes) ids positions slot k n (was counters)) room.old 0 (add_rows k total (was counters)) room.new }
{
    if !numbers::reaches(lengths, places, body, first, k, w, end) {
        return false;
    }
    let o = plan_words::scale(plan_words::rows_of(counters, k), w);
    match plan_words::target(
        plan,
        parts,
        room.len(),
        write,
        k,
        1,
        o,
        plan_words::scale(total, w),
    ) {
        Some(to) => {
            let offset = lookups::slot_of(lengths, first, k, 0, 0);
            let at = lent_tables::place(places, first + k, 3) + w * offset;
            copy_taken(room, to, body, at, w, homes, ids, positions, slot, n, k);
            true
        }
        None => false,
    }
}
