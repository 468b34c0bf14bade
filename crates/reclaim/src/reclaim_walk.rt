// The walk that writes a dictionary column anew with the entries in use: node 0 holds its keys, node 1 the entries.
// The answer is 0 or the ground of refusal; a walk that only tries changes the counters alone.

ghost use Rattle.std.specs.Prelude.{◌≡◌, true, not, List, [], ◌∷◌, ℕ, ◌+◌, ◌*◌, ◌^◌, ◌<◌, ◌≤◌, length, get_or, eqb};
ghost use Rattle.clauses.specs.Slices.{was, left};
ghost use Rattle.number.specs.Number.{splice};
ghost use Rattle.walk.specs.State.{bytes_of, length_of};
ghost use Rattle.walk.specs.Log.{put, apply_if};
ghost use Rattle.leaf_walk.specs.Join.{join};
ghost use Rattle.leaf_walk.specs.Walks.{lent_join, Walks};
ghost use Rattle.with_capacities.specs.Lent.{Stays};
ghost use Rattle.reclaim.specs.used_entries.Keys.{new_keys, Head};
ghost use Rattle.reclaim.specs.reclaim_walk.Walk.{keys_of, keys_in, first_entry, reclaim_walk_of};
ghost use Rattle.reclaim.specs.reclaim_walk.Plain.{alone, lent_alone};

use crate::entry_copies;
use array_data::lent_tables;
use nested_rows::lookups;
use walk::plan_words;

// Whether the keys have validity.
pub fn is_masked(places: &[u64], first: usize) -> bool
    requires { first < 2 ^ 32 }
    ensures { result ≡ not (eqb (get_or (was places) (9 * first + 0) 0) 0) }
{
    if lent_tables::place(places, first, 0) == 0 {
        return false;
    }
    true
}

// Whether keys and validity of node 0 lie in the body.
fn keys_in(plan: &[u64], lengths: &[u64], places: &[u64], body: &[u8], first: usize) -> bool
    requires { first < 2 ^ 32 }
    ensures { result ≡ keys_in (lent_alone plan lengths places body first) }
{
    let off = lent_tables::offset_of(lengths, first);
    let n = lent_tables::length_of(lengths, first);
    if !schema::formats::is_fixed(plan_words::code_of(plan, 0)) {
        return false;
    }
    if plan_words::FAR <= plan_words::grow(off, n) {
        return false;
    }
    if plan_words::FAR <= lent_tables::length_of(lengths, first + 1) {
        return false;
    }
    let w = lookups::width_at(plan, 0);
    if !leaf_walk::rows_in(body, lent_tables::place(places, first, 3), w, off, n) {
        return false;
    }
    if lent_tables::place(places, first, 0) == 0 {
        return true;
    }
    lent_tables::bits_fit_behind(
        lent_tables::place(places, first, 1),
        off,
        n,
        body.len() as u64,
    )
}

// The new keys at `to`.
fn write_keys(
    room: &mut [u8],
    to: usize,
    head: &[u64; 513],
    plan: &[u64],
    lengths: &[u64],
    places: &[u64],
    body: &[u8],
    first: usize,
)
    requires first_bound { (first < 2 ^ 32) × (keys_in (alone plan.now lengths.now places.now body.now first) ≡ true) }
    requires head { Head (keys_of (alone plan.now lengths.now places.now body.now first)) (length_of (alone plan.now lengths.now places.now body.now first) 1) head.now }
    requires first_in_bounds { to + bytes_of plan.now 0 * length_of (alone plan.now lengths.now places.now body.now first) 0 ≤ length room.old }
    ensures { let j = lent_alone plan lengths places body first in room.new ≡ splice to (new_keys (keys_of j) (length_of j 1)) room.old }
{
    let w = lookups::width_at(plan, 0);
    let at = lent_tables::place(places, first, 3);
    let masked = is_masked(places, first);
    let mask = lent_tables::place(places, first, 1);
    let off = lent_tables::offset_of(lengths, first);
    let n = lent_tables::length_of(lengths, first);
    let entries = lent_tables::length_of(lengths, first + 1);
    crate::used_entries::write_keys(room, to, head, body, w, at, masked, mask, off, n, entries)
}

// The new keys of all rows, if the walk writes.
fn put_keys(
    head: &[u64; 513],
    plan: &[u64],
    parts: &[u64],
    lengths: &[u64],
    places: &[u64],
    body: &[u8],
    room: &mut [u8],
    write: bool,
    first: usize,
)
    requires first_bound { (first < 2 ^ 32) × (keys_in (alone plan.now lengths.now places.now body.now first) ≡ true) }
    requires head { Head (keys_of (alone plan.now lengths.now places.now body.now first)) (length_of (alone plan.now lengths.now places.now body.now first) 1) head.now }
    ensures { let j = lent_alone plan lengths places body first in room.new ≡ apply_if (was plan) (was parts) write (put 0 1 0 (new_keys (keys_of j) (length_of j 1)) ∷ []) room.old }
{
    let w = lookups::width_at(plan, 0);
    let n = lent_tables::length_of(lengths, first);
    if let Some(to) = plan_words::target(
        plan,
        parts,
        room.len(),
        write,
        0,
        1,
        0,
        plan_words::scale(n, w),
    ) {
        write_keys(room, to, head, plan, lengths, places, body, first);
    }
}

// The first zero offset of byte strings.
fn first_entry(plan: &[u64], parts: &[u64], room: &mut [u8], write: bool)
    ensures { (lengths places body c : List ℕ) (first : ℕ) → Stays plan parts write (first_entry (join (was plan) (was parts) lengths places body first 0) c) room 0 c }
{
    let code = plan_words::code_of(plan, 1);
    if !schema::formats::is_string(code) {
        return;
    }
    let w = schema::formats::width_of(code) as u64;
    room_writes::put_number(plan, parts, room, write, 1, 1, 0, w, 0)
}

// The ranks of the dictionary's first block, as `reclaim_walk` takes them.
pub fn head_ranks(
    plan: &[u64],
    lengths: &[u64],
    places: &[u64],
    body: &[u8],
    first: usize,
) -> [u64; 513]
    requires { first < 2 ^ 32 }
    ensures { let j = lent_alone plan lengths places body first in (keys_in j ≡ true → Head (keys_of j) (length_of j 1) result) }
{
    if !keys_in(plan, lengths, places, body, first) {
        return [0u64; 513];
    }
    let w = lookups::width_at(plan, 0);
    let at = lent_tables::place(places, first, 3);
    let masked = is_masked(places, first);
    let mask = lent_tables::place(places, first, 1);
    let off = lent_tables::offset_of(lengths, first);
    let n = lent_tables::length_of(lengths, first);
    let entries = lent_tables::length_of(lengths, first + 1);
    crate::used_entries::head_ranks(body, w, at, masked, mask, off, n, entries)
}

// THE WALK, with the ranks of the first block.
pub fn reclaim_walk(
    head: &[u64; 513],
    plan: &[u64],
    parts: &[u64],
    lengths: &[u64],
    places: &[u64],
    body: &[u8],
    counters: &mut [u64; plan_words::COUNTERS],
    room: &mut [u8],
    write: bool,
    first: usize,
) -> u8
    requires first_bound { first < 2 ^ 32 }
    requires fact { let j = alone plan.now lengths.now places.now body.now first in (keys_in j ≡ true → Head (keys_of j) (length_of j 1) head.now) }
    ensures { Walks plan parts write (reclaim_walk_of (lent_join plan parts lengths places body first 0)) counters room result }
{
    if !keys_in(plan, lengths, places, body, first) {
        return 12;
    }
    let off = lent_tables::offset_of(lengths, first);
    let n = lent_tables::length_of(lengths, first);
    let g = leaf_walk::copy_mask(
        plan, parts, places, body, counters, room, write, first, 0, off, n,
    );
    if g != 0 {
        return g;
    }
    put_keys(head, plan, parts, lengths, places, body, room, write, first);
    plan_words::add_rows(counters, 0, n);
    first_entry(plan, parts, room, write);
    entry_copies::copy_entries(
        head, plan, parts, lengths, places, body, counters, room, write, first,
    )
}
