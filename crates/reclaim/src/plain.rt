// Entries that are numbers without validity: those in use are copied straight from the body, by the ranks of their block.
ghost use Rattle.std.specs.Prelude.{◌≡◌, true, false, cond, ℕ, ◌+◌, ◌*◌, ◌^◌, ◌<◌, ◌≤◌, length, get_or, eqb};
ghost use Rattle.clauses.specs.Slices.{was, left};
ghost use Rattle.walk.specs.State.{bytes_of, add_rows};
ghost use Rattle.leaf_walk.specs.Walks.{lent_join, Walks};
ghost use Rattle.reclaim.specs.used_entries.Keys.{rank};
ghost use Rattle.reclaim.specs.reclaim_walk.Walk.{keys_of, copy_runs};
ghost use Rattle.reclaim.specs.reclaim_walk.Plain.{alone, lent_alone, Plain, chosen_of, behind, Stand};

use array_data::lent_tables;
use nested_rows::lookups;
use walk::plan_words;

// Whether the `count` entries from `base` on are such, and lie in the body.
fn is_plain(
    plan: &[u64],
    lengths: &[u64],
    places: &[u64],
    body: &[u8],
    first: usize,
    base: u64,
    count: u64,
) -> bool
    requires { (first < 2 ^ 32) × (base + count < 2 ^ 64) }
    ensures { result ≡ true → Plain (lent_alone plan lengths places body first) base count }
{
    if !schema::formats::is_fixed(plan_words::code_of(plan, 1)) {
        return false;
    }
    if plan_words::dictionary_of(plan, 1) != 0 {
        return false;
    }
    if plan_words::keeps_of(plan, 1) != 0 {
        return false;
    }
    let off = lent_tables::offset_of(lengths, first + 1);
    if plan_words::FAR <= plan_words::grow(off, base + count) {
        return false;
    }
    let w = lookups::width_at(plan, 1);
    leaf_walk::rows_in(
        body,
        lent_tables::place(places, first + 1, 3),
        w,
        off + base,
        count,
    )
}

// Those in use behind `have` entries, n of them, if the walk writes; false, with nothing written, where they leave the room.
fn write_entries(
    plan: &[u64],
    parts: &[u64],
    lengths: &[u64],
    places: &[u64],
    body: &[u8],
    room: &mut [u8],
    write: bool,
    first: usize,
    base: u64,
    count: u64,
    ranks: &[u64; 513],
    have: u64,
    n: u64,
) -> bool
    requires first_bound { (first < 2 ^ 32) × (count ≤ 512) × Plain (alone plan.now lengths.now places.now body.now first) base count }
    requires count_value { let j = alone plan.now lengths.now places.now body.now first in length (chosen_of j base ranks.now count) ≡ bytes_of plan.now 1 * n }
    ensures stand { result ≡ true → Stand write room (behind (was plan) (was parts) have) (chosen_of (lent_alone plan lengths places body first) base (was ranks) count) (bytes_of (was plan) 1 * n) }
    ensures room_value { result ≡ false → room.new ≡ room.old }
{
    if !write {
        return true;
    }
    let w = lookups::width_at(plan, 1);
    match plan_words::target(
        plan,
        parts,
        room.len(),
        true,
        1,
        1,
        plan_words::scale(have, w),
        plan_words::scale(n, w),
    ) {
        Some(to) => {
            let slot = lent_tables::offset_of(lengths, first + 1) + base;
            let from = lent_tables::place(places, first + 1, 3) + w * slot;
            crate::entry_writes::write_used(room, to, body, from, w, ranks, count as usize);
            true
        }
        None => false,
    }
}

// A copy; that it has 96 elements is known of an array that a call returns.
fn copied(counters: [u64; plan_words::COUNTERS]) -> [u64; plan_words::COUNTERS]
    ensures { result ≡ counters }
{
    counters
}

// n entries more, if there is one.
fn count_entries(counters: &mut [u64; plan_words::COUNTERS], n: u64)
    ensures { counters.new ≡ cond (eqb n 0) counters.old (add_rows 1 n counters.old) }
{
    if n == 0 {
        return;
    }
    plan_words::add_rows(counters, 1, n);
}

// THE ENTRIES IN USE of the `count` from `base` on, whose ranks are given; false, with nothing done, where they are no plain numbers or leave
// the body or the room.
pub fn copy_plain(
    plan: &[u64],
    parts: &[u64],
    lengths: &[u64],
    places: &[u64],
    body: &[u8],
    counters: &mut [u64; plan_words::COUNTERS],
    room: &mut [u8],
    write: bool,
    first: usize,
    base: u64,
    count: u64,
    ranks: &[u64; 513],
) -> bool
    requires first_bound { (first < 2 ^ 32) × (count ≤ 512) × (base + count < 2 ^ 64) }
    requires by_index { (j : ℕ) → j ≤ count → get_or ranks.now j 0 ≡ rank (keys_of (alone plan.now lengths.now places.now body.now first)) (base + j) }
    ensures walks { result ≡ true → Walks plan parts write (copy_runs (lent_join plan parts lengths places body first 0) count base count) counters room 0 }
    ensures counters_value { result ≡ false → (counters.new ≡ counters.old) × (room.new ≡ room.old) }
{
    if !is_plain(plan, lengths, places, body, first, base, count) {
        return false;
    }
    let had = copied(*counters);
    let n = ranks[count as usize] - ranks[0];
    if !write_entries(
        plan, parts, lengths, places, body, room, write, first, base, count, ranks, had[3], n,
    ) {
        return false;
    }
    count_entries(counters, n);
    true
}
