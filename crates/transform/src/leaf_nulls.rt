// Nulls at a leaf: none is refused but for the parts, which are asked before anything is written.
ghost use Rattle.std.specs.Prelude.{◌≡◌, List, [], true, ℕ, ◌<◌, ◌≤◌, length};
ghost use Rattle.clauses.specs.Slices.{was, left};
ghost use Rattle.walk.specs.State.{code_of};
ghost use Rattle.walk.specs.Log.{Did};
ghost use Rattle.walk.specs.Leaves.{null_mask};
ghost use Rattle.walk.specs.Nulls.{NullWalk, null_data, null_walk};
ghost use Rattle.leaf_walk.specs.Walks.{null_join, Walks};
ghost use Rattle.transform.specs.Answer.{lent, Settles};

use crate::leaf_counters;
use array_data::lent_tables;
use walk::plan_words;

// The data of n nulls at node i: zeros, or for a byte string its last offset.
fn put_null_entries(
    plan: &[u64],
    parts: &[u64],
    counters: &[u64],
    room: &mut [u8],
    i: usize,
    n: u64,
)
    requires { (i < 32) × (1 ≤ code_of plan.now i) × (code_of plan.now i < 17) }
    ensures { (child : NullWalk) → Did (was plan) (was parts) true (null_data (null_join plan parts) child (code_of (was plan) i) i n (was counters)) room.old 0 (was counters) room.new }
{
    let code = plan_words::code_of(plan, i);
    let w = plan::parts::entry_size(code) as u64;
    let rows = lent_tables::at_u64(counters, 3 * i);
    if schema::formats::is_string(code) {
        let o = plan_words::scale(plan_words::grow(rows, 1), w);
        let last = lent_tables::at_u64(counters, 3 * i + 2);
        room_writes::variable_size::put_repeated(plan, parts, room, true, i, 1, o, w, n, last);
        return;
    }
    room_writes::put_zeros(
        plan,
        parts,
        room,
        true,
        i,
        1,
        plan_words::scale(rows, w),
        w,
        n,
    );
}

// The validity of n nulls at node i, all counted.
pub fn put_null_mask(
    plan: &[u64],
    parts: &[u64],
    counters: &mut [u64],
    room: &mut [u8],
    i: usize,
    n: u64,
)
    requires { (length counters.old ≡ 96) × (i < 32) }
    ensures { Walks plan parts true (null_mask (null_join plan parts) i n) counters room 0 }
{
    if plan_words::keeps_of(plan, i) == 0 {
        return;
    }
    let rows = lent_tables::at_u64(counters, 3 * i);
    room_writes::validity::put_null_bits(plan, parts, room, true, i, rows, n);
    leaf_counters::add_to(counters, 3 * i + 1, n);
}

// n nulls at node i, at least one, where it is a leaf.
fn put_nulls(
    plan: &[u64],
    parts: &[u64],
    counters: &mut [u64],
    room: &mut [u8],
    i: usize,
    n: u64,
) -> u8
    requires { (length counters.old ≡ 96) × (n ≡ 0 → ⊥) × (i < 32) × (1 ≤ code_of plan.now i) × (code_of plan.now i < 17) }
    ensures { (sources lengths places body : List ℕ) → Settles (lent (was plan) (was parts) sources lengths places body) (null_walk (null_join plan parts) 8 i n) counters room result }
{
    let b = lent_tables::at_u64(counters, 3 * i + 2);
    let g = leaf_counters::room_ground(plan, parts, counters, room.len(), i, n, b);
    if g != 0 {
        return g;
    }
    put_null_entries(plan, parts, counters, room, i, n);
    put_null_mask(plan, parts, counters, room, i, n);
    leaf_counters::add_to(counters, 3 * i, n);
    0
}

// n nulls, at least one, of a type that is a leaf.
pub fn add_leaf_nulls(
    plan: &[u64],
    parts: &[u64],
    counters: &mut [u64],
    room: &mut [u8],
    n: u64,
) -> u8
    requires { (length counters.old ≡ 96) × (n ≡ 0 → ⊥) × (1 ≤ code_of plan.now 0) × (code_of plan.now 0 < 17) }
    ensures { (sources lengths places body : List ℕ) → Settles (lent (was plan) (was parts) sources lengths places body) (null_walk (null_join plan parts) 8 0 n) counters room result }
{
    put_nulls(plan, parts, counters, room, 0, n)
}
