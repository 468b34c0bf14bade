// Nulls of a sparse union of numbers: no field refuses them, so that the parts alone are asked before they are written where the order stands.
ghost use Rattle.std.specs.Prelude.{◌≡◌, List, true, ℕ, ◌<◌, ◌≤◌, length};
ghost use Rattle.clauses.specs.Slices.{was, left};
ghost use Rattle.walk.specs.Log.{Did};
ghost use Rattle.walk.specs.Copy.{each_field};
ghost use Rattle.walk.specs.Nulls.{null_walk};
ghost use Rattle.nested_rows.specs.Numbers.{null_ids};
ghost use Rattle.leaf_walk.specs.Walks.{null_join, Walks};
ghost use Rattle.plan.specs.parts.Parts.{nodes_of, parts_within, parts_hold};
ghost use Rattle.plan.specs.grounds.Verdict.{verdict};
ghost use Rattle.transform.specs.Answer.{lent, Settles};
ghost use Rattle.transform.specs.numbers.Plan.{numbers_at};
ghost use Rattle.transform.specs.sparse_rows.Sparse.{Sparse, Raised};

use crate::{leaf_counters, leaf_nulls, numbers, run_nulls, sparse_rows};
use array_data::lent_tables;
use walk::plan_words;

// What the parts say to n rows more of the union and of each field.
fn fields_ground(plan: &[u64], parts: &[u64], counters: &[u64], m: usize, end: usize, n: u64) -> u8
    requires { (end ≤ 32) × (end ≡ nodes_of plan.now) × Sparse plan.now }
    ensures { (t : List ℕ) → Raised (was counters) n end t → result ≡ verdict (parts_within (was plan) (was parts) m) (parts_hold (was plan) t (was parts)) }
{
    let r = plan_words::grow(lent_tables::at_u64(counters, 0), n);
    let mut g = sparse_rows::ids_ground(plan, parts, m, r);
    for k in 1..end {
        let w = numbers::number_size(plan_words::code_of(plan, k));
        let r = plan_words::grow(lent_tables::at_u64(counters, 3 * k), n);
        g = sparse_rows::worse(g, numbers::node_ground(plan, parts, m, k, w, r));
    }
    g
}

// ---- the writes

// n ids of node h.
fn put_ids(plan: &[u64], parts: &[u64], counters: &[u64], room: &mut [u8], h: usize, n: u64)
    requires { h < 32 }
    ensures { Did (was plan) (was parts) true (null_ids (was plan) 0 h n (was counters)) room.old 0 (was counters) room.new }
{
    let o = lent_tables::at_u64(counters, 0);
    let id = plan_words::id_of(plan, h);
    room_writes::put_same(plan, parts, room, true, 0, 1, o, n, id);
}

// n nulls of field k, at least one.
fn put_field(plan: &[u64], parts: &[u64], counters: &mut [u64], room: &mut [u8], k: usize, n: u64)
    requires { (length counters.old ≡ 96) × (k < 32) × (numbers_at plan.now k ≡ true) × (n ≡ 0 → ⊥) }
    ensures { Walks plan parts true (null_walk (null_join plan parts) 7 k n) counters room 0 }
{
    let w = numbers::number_size(plan_words::code_of(plan, k));
    let o = plan_words::scale(lent_tables::at_u64(counters, 3 * k), w);
    room_writes::put_zeros(plan, parts, room, true, k, 1, o, w, n);
    leaf_nulls::put_null_mask(plan, parts, counters, room, k, n);
    leaf_counters::add_to(counters, 3 * k, n);
}

// The same of every field.
fn put_fields(
    plan: &[u64],
    parts: &[u64],
    counters: &mut [u64],
    room: &mut [u8],
    end: usize,
    n: u64,
)
    requires { (length counters.old ≡ 96) × (end ≤ 32) × (end ≡ nodes_of plan.now) × Sparse plan.now × (n ≡ 0 → ⊥) }
    ensures { let walk = null_walk (null_join plan parts) 7 in Walks plan parts true (each_field (was plan) (λ k c. walk k n c) end 32 1) counters room 0 }
{
    for k in 1..end {
        put_field(plan, parts, counters, room, k, n);
    }
}

// ---- the order

// n nulls, at least one.
pub fn add_sparse_nulls(
    plan: &[u64],
    parts: &[u64],
    counters: &mut [u64],
    room: &mut [u8],
    n: u64,
) -> u8
    requires { (length counters.old ≡ 96) × (n ≡ 0 → ⊥) × Sparse plan.now }
    ensures { (sources lengths places body : List ℕ) → Settles (lent (was plan) (was parts) sources lengths places body) (null_walk (null_join plan parts) 8 0 n) counters room result }
{
    let h = nested_rows::null_home(plan, 0);
    if 32 <= h {
        return nested_rows::no_home(plan, 0);
    }
    let end = plan::parts::node_count(plan);
    let g = fields_ground(plan, parts, counters, room.len(), end, n);
    if g != 0 {
        return g;
    }
    put_ids(plan, parts, counters, room, h, n);
    put_fields(plan, parts, counters, room, end, n);
    run_nulls::count_nulls(plan, counters, n);
    leaf_counters::add_to(counters, 0, n);
    0
}
