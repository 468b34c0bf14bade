// The entries of a dictionary that are in use, block by block.
ghost use Rattle.std.specs.Prelude.{◌≡◌, true, ℕ, ◌+◌, ◌-◌, ◌^◌, ◌<◌, ◌≤◌, max, get_or};
ghost use Rattle.clauses.specs.Slices.{was};
ghost use Rattle.walk.specs.State.{Join, length_of};
ghost use Rattle.leaf_walk.specs.Walks.{lent_join, Walks};
ghost use Rattle.reclaim.specs.used_entries.Keys.{rank, Head};
ghost use Rattle.reclaim.specs.reclaim_walk.Walk.{keys_of, keys_in, run_of, copy_run, copy_runs, copy_blocks};
ghost use Rattle.reclaim.specs.reclaim_walk.Plain.{alone, lent_alone};

use array_data::lent_tables;
use nested_rows::lookups;
use walk::plan_words;

// How many entries a block has at most.
const BLOCK: u64 = 512;

// The ranks of the `count` entries from `base` on, and of the one behind them; `start` is the first one's, and those of the first block are given.
fn ranks_at(
    head: &[u64; 513],
    plan: &[u64],
    lengths: &[u64],
    places: &[u64],
    body: &[u8],
    first: usize,
    base: u64,
    count: u64,
    start: u64,
) -> [u64; 513]
    requires fact { let j = alone plan.now lengths.now places.now body.now first in (first < 2 ^ 32) × (keys_in j ≡ true) × (count ≤ 512) × (base + count < 2 ^ 64) × (start ≡ rank (keys_of j) base) }
    requires head { Head (keys_of (alone plan.now lengths.now places.now body.now first)) (base + count) head.now }
    ensures { (j : ℕ) → j ≤ count → get_or result j 0 ≡ rank (keys_of (lent_alone plan lengths places body first)) (base + j) }
{
    let w = lookups::width_at(plan, 0);
    let at = lent_tables::place(places, first, 3);
    let masked = crate::reclaim_walk::is_masked(places, first);
    let mask = lent_tables::place(places, first, 1);
    let off = lent_tables::offset_of(lengths, first);
    let n = lent_tables::length_of(lengths, first);
    crate::used_entries::block_ranks(head, body, w, at, masked, mask, off, n, base, count, start)
}

// How many entries from entry j of a block of `count` on are in use, up to the first that is not; the block's ranks are given.
fn run_len(ranks: &[u64; 513], j: usize, count: u64) -> u64
    requires { (j ≤ count) × (count ≤ 512) }
    ensures { (result ≤ count - j) × ((x : Join) (base : ℕ) → ((i : ℕ) → i ≤ count → get_or (was ranks) i 0 ≡ rank (keys_of x) (base + i)) → result ≡ run_of x (base + j) (count - j)) }
{
    for k in 0..count as usize - j {
        if ranks[j + k + 1] <= ranks[j + k] {
            return k as u64;
        }
    }
    count - j as u64
}

// k entries from entry e on, by one order.
fn copy_run(
    plan: &[u64],
    parts: &[u64],
    lengths: &[u64],
    places: &[u64],
    body: &[u8],
    counters: &mut [u64; plan_words::COUNTERS],
    room: &mut [u8],
    write: bool,
    first: usize,
    e: u64,
    k: u64,
) -> u8
    requires { first < 2 ^ 32 }
    ensures { Walks plan parts write (copy_run (lent_join plan parts lengths places body first 0) e k) counters room result }
{
    if k == 0 {
        return 0;
    }
    extend::extend(
        plan, parts, lengths, places, body, counters, room, write, 0, first, 1, e, k, 1,
    )
}

// How far a run of so many entries leads on; one that is not in use is passed.
fn step_of(k: u64) -> usize
    requires { k ≤ 512 }
    ensures { result ≡ max k 1 }
{
    k.max(1) as usize
}

// The entries in use of the `count` from `base` on, whose ranks are given, by one order for each run of them.
fn copy_runs(
    plan: &[u64],
    parts: &[u64],
    lengths: &[u64],
    places: &[u64],
    body: &[u8],
    counters: &mut [u64; plan_words::COUNTERS],
    room: &mut [u8],
    write: bool,
    first: usize,
    base: u64,
    count: u64,
    ranks: &[u64; 513],
) -> u8
    requires first_bound { (first < 2 ^ 32) × (count ≤ 512) × (base + count < 2 ^ 64) }
    requires by_index { (j : ℕ) → j ≤ count → get_or ranks.now j 0 ≡ rank (keys_of (alone plan.now lengths.now places.now body.now first)) (base + j) }
    ensures { Walks plan parts write (copy_runs (lent_join plan parts lengths places body first 0) count base count) counters room result }
{
    let mut j: usize = 0;
    while (j as u64) < count {
        let k = run_len(ranks, j, count);
        let g = copy_run(
            plan,
            parts,
            lengths,
            places,
            body,
            counters,
            room,
            write,
            first,
            base + j as u64,
            k,
        );
        if g != 0 {
            return g;
        }
        j += step_of(k);
    }
    0
}

// The same: straight from the body where they are plain numbers.
fn copy_block(
    plan: &[u64],
    parts: &[u64],
    lengths: &[u64],
    places: &[u64],
    body: &[u8],
    counters: &mut [u64; plan_words::COUNTERS],
    room: &mut [u8],
    write: bool,
    first: usize,
    base: u64,
    count: u64,
    ranks: &[u64; 513],
) -> u8
    requires first_bound { (first < 2 ^ 32) × (count ≤ 512) × (base + count < 2 ^ 64) }
    requires by_index { (j : ℕ) → j ≤ count → get_or ranks.now j 0 ≡ rank (keys_of (alone plan.now lengths.now places.now body.now first)) (base + j) }
    ensures { Walks plan parts write (copy_runs (lent_join plan parts lengths places body first 0) count base count) counters room result }
{
    if crate::plain::copy_plain(
        plan, parts, lengths, places, body, counters, room, write, first, base, count, ranks,
    ) {
        return 0;
    }
    copy_runs(
        plan, parts, lengths, places, body, counters, room, write, first, base, count, ranks,
    )
}

// All entries in use, block by block.
pub fn copy_entries(
    head: &[u64; 513],
    plan: &[u64],
    parts: &[u64],
    lengths: &[u64],
    places: &[u64],
    body: &[u8],
    counters: &mut [u64; plan_words::COUNTERS],
    room: &mut [u8],
    write: bool,
    first: usize,
) -> u8
    requires first_bound { (first < 2 ^ 32) × (keys_in (alone plan.now lengths.now places.now body.now first) ≡ true) }
    requires head { Head (keys_of (alone plan.now lengths.now places.now body.now first)) (length_of (alone plan.now lengths.now places.now body.now first) 1) head.now }
    ensures { let j = lent_join plan parts lengths places body first 0 in Walks plan parts write (copy_blocks j (length_of j 1) 0 (length_of j 1)) counters room result }
{
    let entries = lent_tables::length_of(lengths, first + 1);
    if entries <= BLOCK {
        return copy_block(
            plan, parts, lengths, places, body, counters, room, write, first, 0, entries, head,
        );
    }
    let mut base: u64 = 0;
    let mut start: u64 = 0;
    while base < entries {
        let count = crate::used_entries::block_len(base, entries);
        let ranks = ranks_at(head, plan, lengths, places, body, first, base, count, start);
        let g = copy_block(
            plan, parts, lengths, places, body, counters, room, write, first, base, count, &ranks,
        );
        if g != 0 {
            return g;
        }
        start = ranks[count as usize];
        base += count;
    }
    0
}
