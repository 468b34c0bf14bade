// Validity bits of a copy at a leaf.
ghost use Rattle.std.specs.Prelude.{◌≡◌, List, [], true, ℕ, ◌+◌, ◌*◌, ◌<◌, ◌^◌, length};
ghost use Rattle.clauses.specs.Slices.{was};
ghost use Rattle.walk.specs.State.{keeps_of};
ghost use Rattle.walk.specs.Leaves.{copy_mask};
ghost use Rattle.leaf_walk.specs.Join.{join};
ghost use Rattle.leaf_walk.specs.Walks.{Walks};
ghost use Rattle.transform.specs.leaf_rows.Leaf.{bits_in};

use crate::leaf_counters;
use array_data::lent_tables;
use walk::plan_words;

// Whether the validity bits of n slots of node i, where they are copied, lie in the body.
pub fn bits_in(
    plan: &[u64],
    places: &[u64],
    body: &[u8],
    first: usize,
    i: usize,
    slot: u64,
    n: u64,
) -> bool
    requires { (first < 2 ^ 32) × (i < 32) }
    ensures { (parts lengths : List ℕ) (source : ℕ) → result ≡ bits_in (join (was plan) parts lengths (was places) (was body) first source) i slot n }
{
    if plan_words::keeps_of(plan, i) == 0 {
        return true;
    }
    if lent_tables::place(places, first + i, 0) == 0 {
        return true;
    }
    let at = lent_tables::place(places, first + i, 1);
    lent_tables::bits_fit_behind(at, slot, n, body.len() as u64)
}

// The validity of n slots of node i, which keeps nulls, and its zeros counted.
pub fn put_kept_bits(
    plan: &[u64],
    parts: &[u64],
    places: &[u64],
    body: &[u8],
    counters: &mut [u64],
    room: &mut [u8],
    first: usize,
    i: usize,
    slot: u64,
    n: u64,
)
    requires counters_len { (length counters.old ≡ 96) × (first < 2 ^ 32) × (i < 32) × (slot + n < 2 ^ 63) × (bits_in (join plan.now [] [] places.now body.now first 0) i slot n ≡ true) }
    requires fact { keeps_of plan.now i ≡ 0 → ⊥ }
    ensures { (lengths : List ℕ) (source : ℕ) → Walks plan parts true (copy_mask (join (was plan) (was parts) lengths (was places) (was body) first source) i slot n) counters room 0 }
{
    let p = lent_tables::at_u64(counters, 3 * i);
    if lent_tables::place(places, first + i, 0) == 0 {
        room_writes::validity::put_ones(plan, parts, room, true, i, p, n);
        return;
    }
    let at = lent_tables::place(places, first + i, 1);
    let zeros = room_writes::validity::put_mask(
        plan,
        parts,
        room,
        true,
        i,
        p,
        body,
        at as usize,
        slot,
        n,
    );
    leaf_counters::add_to(counters, 3 * i + 1, zeros);
}

// The validity of n slots of node i, if it keeps nulls.
pub fn put_bits(
    plan: &[u64],
    parts: &[u64],
    places: &[u64],
    body: &[u8],
    counters: &mut [u64],
    room: &mut [u8],
    first: usize,
    i: usize,
    slot: u64,
    n: u64,
)
    requires { (length counters.old ≡ 96) × (first < 2 ^ 32) × (i < 32) × (slot + n < 2 ^ 63) × (bits_in (join plan.now [] [] places.now body.now first 0) i slot n ≡ true) }
    ensures { (lengths : List ℕ) (source : ℕ) → Walks plan parts true (copy_mask (join (was plan) (was parts) lengths (was places) (was body) first source) i slot n) counters room 0 }
{
    if plan_words::keeps_of(plan, i) == 0 {
        return;
    }
    put_kept_bits(plan, parts, places, body, counters, room, first, i, slot, n);
}
