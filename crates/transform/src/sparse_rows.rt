// Copies of a sparse union of numbers: its ids and all its fields are asked first, and then written where the order stands.
ghost use Rattle.std.specs.Prelude.{◌≡◌, List, [], true, false, cond, ℕ, ◌+◌, ◌*◌, ◌<◌, ◌≤◌, ◌^◌, length};
ghost use Rattle.clauses.specs.Slices.{was, left};
ghost use Rattle.columnar.specs.Test.{every};
ghost use Rattle.walk.specs.State.{code_of, rows, grown, place};
ghost use Rattle.walk.specs.Log.{Did};
ghost use Rattle.walk.specs.Leaves.{copy_mask, copy_numbers};
ghost use Rattle.walk.specs.Copy.{each_field, copy_walk};
ghost use Rattle.leaf_walk.specs.Join.{join};
ghost use Rattle.leaf_walk.specs.Walks.{lent_join, AnyLengths, Walks};
ghost use Rattle.plan.specs.parts.Parts.{nodes_of, entry_size, part_within, part_holds, parts_within, parts_hold};
ghost use Rattle.plan.specs.grounds.Verdict.{verdict, worse_of};
ghost use Rattle.transform.specs.Answer.{CopiesAny};
ghost use Rattle.transform.specs.leaf_rows.Leaf.{bits_in};
ghost use Rattle.transform.specs.numbers.Plan.{numbers_at};
ghost use Rattle.transform.specs.sparse_rows.Sparse.{Sparse, field_in, fields_in};

use crate::{leaf_bits, leaf_counters, numbers};
use array_data::lent_tables;
use nested_rows::{lookups, node_data};
use walk::plan_words;

// ---- the plan

// Whether node k is of numbers without a dictionary.
fn is_field(plan: &[u64], k: usize) -> bool
    requires { k < 32 }
    ensures { result ≡ true → numbers_at (was plan) k ≡ true }
{
    if plan_words::end_of(plan, k) != k + 1 {
        return false;
    }
    if plan_words::dictionary_of(plan, k) != 0 {
        return false;
    }
    schema::formats::is_fixed(plan_words::code_of(plan, k))
}

// Whether the nodes 1 .. n - 1 are.
fn are_fields(plan: &[u64], n: usize) -> bool
    requires { n ≤ 32 }
    ensures { result ≡ true → (k : ℕ) → 1 ≤ k → k < n → numbers_at (was plan) k ≡ true }
{
    for k in 1..n {
        if !is_field(plan, k) {
            return false;
        }
    }
    true
}

// Whether the type is a sparse union of numbers.
pub fn is_sparse(plan: &[u64]) -> bool
    ensures { result ≡ true → Sparse (was plan) }
{
    if plan_words::code_of(plan, 0) != node_data::SPARSE {
        return false;
    }
    if plan_words::dictionary_of(plan, 0) != 0 {
        return false;
    }
    let n = plan::parts::node_count(plan);
    if n == 0 {
        return false;
    }
    if plan_words::end_of(plan, 0) != n {
        return false;
    }
    are_fields(plan, n)
}

// ---- what is asked

// Whether the rows row .. row + n - 1 of field k, numbers of w bytes, stand in the body: the field's own offset is added here.
fn field_in(
    plan: &[u64],
    lengths: &[u64],
    places: &[u64],
    body: &[u8],
    first: usize,
    k: usize,
    w: u64,
    row: u64,
    n: u64,
) -> bool
    requires { (first < 2 ^ 32) × (k < 32) × (w ≤ 16) × (w ≡ entry_size (code_of plan.now k)) }
    ensures { (parts : List ℕ) (source : ℕ) → result ≡ field_in (join (was plan) parts (was lengths) (was places) (was body) first source) k row n }
{
    let slot = lookups::slot_of(lengths, first, k, row, n);
    if plan_words::FAR <= slot {
        return false;
    }
    if !leaf_bits::bits_in(plan, places, body, first, k, slot, n) {
        return false;
    }
    leaf_walk::rows_in(body, lent_tables::place(places, first + k, 3), w, slot, n)
}

// The worse of two grounds: 14, 13 or 0.
pub fn worse(a: u8, b: u8) -> u8
    ensures { result ≡ worse_of a b }
{
    if a < b {
        return b;
    }
    a
}

// The part of r ids.
pub fn ids_ground(plan: &[u64], parts: &[u64], m: usize, r: u64) -> u8
    requires { code_of plan.now 0 ≡ 21 }
    ensures { (counters : List ℕ) → rows counters 0 ≡ r → result ≡ verdict (every (λ b. part_within (was plan) (was parts) m 0 b) 3) (every (λ b. part_holds (was plan) counters (was parts) 0 b) 3) }
{
    let p = plan::parts::number_of(plan, 0, 1);
    let size = lent_tables::at_u64(parts, 2 * p + 1);
    numbers::part_ground(parts, m, p, lent_tables::rows_fit(r, 1, size))
}

// 12 where rows of a field do not stand in the body, and else what the parts say to n rows more.
fn fields_ground(
    plan: &[u64],
    parts: &[u64],
    lengths: &[u64],
    places: &[u64],
    body: &[u8],
    counters: &[u64],
    m: usize,
    first: usize,
    end: usize,
    row: u64,
    n: u64,
) -> u8
    requires { (first < 2 ^ 32) × (end ≤ 32) × (end ≡ nodes_of plan.now) × Sparse plan.now }
    ensures by_index { (source : ℕ) → fields_in (lent_join plan parts lengths places body first source) row n end 32 1 ≡ false → result ≡ 12 }
    ensures by_index_2 { (source : ℕ) (t : List ℕ) → fields_in (lent_join plan parts lengths places body first source) row n end 32 1 ≡ true → ((j : ℕ) → j < end → rows t j ≡ grown (rows (was counters) j) n) → result ≡ cond (parts_within (was plan) (was parts) m) (cond (parts_hold (was plan) t (was parts)) 0 13) 14 }
{
    let r = plan_words::grow(lent_tables::at_u64(counters, 0), n);
    let mut g = ids_ground(plan, parts, m, r);
    for k in 1..end {
        let w = numbers::number_size(plan_words::code_of(plan, k));
        if !field_in(plan, lengths, places, body, first, k, w, row, n) {
            return 12;
        }
        let r = plan_words::grow(lent_tables::at_u64(counters, 3 * k), n);
        g = worse(g, numbers::node_ground(plan, parts, m, k, w, r));
    }
    g
}

// ---- the writes

// n entries of w bytes of node k.
fn put_entries(
    plan: &[u64],
    parts: &[u64],
    places: &[u64],
    body: &[u8],
    counters: &[u64],
    room: &mut [u8],
    first: usize,
    k: usize,
    w: u64,
    slot: u64,
    n: u64,
)
    requires first_bound { (first < 2 ^ 32) × (k < 32) × (slot + n < 2 ^ 63) × (1 ≤ w) × (w ≤ 16) }
    requires n_in_bounds { place (join [] [] [] places.now [] first 0) k 3 + w * (slot + n) ≤ length body.now }
    ensures { AnyLengths plan parts places body first (λ j. Did (was plan) (was parts) true (copy_numbers j k w slot n (was counters)) room.old 0 (was counters) room.new) }
{
    let from = lent_tables::place(places, first + k, 3) + w * slot;
    let o = plan_words::scale(lent_tables::at_u64(counters, 3 * k), w);
    room_writes::put_copy(plan, parts, room, true, k, 1, o, body, from as usize, w * n);
}

// The validity of n slots of field k, if it keeps nulls.
fn put_validity(
    plan: &[u64],
    parts: &[u64],
    places: &[u64],
    body: &[u8],
    counters: &mut [u64],
    room: &mut [u8],
    first: usize,
    k: usize,
    slot: u64,
    n: u64,
)
    requires { (length counters.old ≡ 96) × (first < 2 ^ 32) × (k < 32) × (slot + n < 2 ^ 63) × (bits_in (join plan.now [] [] places.now body.now first 0) k slot n ≡ true) }
    ensures { (lengths : List ℕ) (source : ℕ) → Walks plan parts true (copy_mask (join (was plan) (was parts) lengths (was places) (was body) first source) k slot n) counters room 0 }
{
    if plan_words::keeps_of(plan, k) == 0 {
        return;
    }
    leaf_bits::put_kept_bits(plan, parts, places, body, counters, room, first, k, slot, n);
}

// The rows row .. row + n - 1 of field k, which stand in the body.
fn put_field(
    plan: &[u64],
    parts: &[u64],
    lengths: &[u64],
    places: &[u64],
    body: &[u8],
    counters: &mut [u64],
    room: &mut [u8],
    first: usize,
    k: usize,
    row: u64,
    n: u64,
)
    requires counters_len { (length counters.old ≡ 96) × (first < 2 ^ 32) × (k < 32) × (numbers_at plan.now k ≡ true) }
    requires n_value { field_in (join plan.now parts.now lengths.now places.now body.now first 0) k row n ≡ true }
    ensures { (source : ℕ) → Walks plan parts true (copy_walk (lent_join plan parts lengths places body first source) 7 k row n) counters room 0 }
{
    let at = lookups::slot_of(lengths, first, k, row, n);
    let w = numbers::number_size(plan_words::code_of(plan, k));
    put_validity(plan, parts, places, body, counters, room, first, k, at, n);
    put_entries(
        plan, parts, places, body, counters, room, first, k, w, at, n,
    );
    leaf_counters::add_to(counters, 3 * k, n);
}

// The same of every field.
fn put_fields(
    plan: &[u64],
    parts: &[u64],
    lengths: &[u64],
    places: &[u64],
    body: &[u8],
    counters: &mut [u64],
    room: &mut [u8],
    first: usize,
    end: usize,
    row: u64,
    n: u64,
)
    requires counters_len { (length counters.old ≡ 96) × (first < 2 ^ 32) × (end ≤ 32) × (end ≡ nodes_of plan.now) × Sparse plan.now }
    requires end_value { fields_in (join plan.now parts.now lengths.now places.now body.now first 0) row n end 32 1 ≡ true }
    ensures { (source : ℕ) → let x = lent_join plan parts lengths places body first source in Walks plan parts true (each_field (was plan) (λ k c. copy_walk x 7 k row n c) end 32 1) counters room 0 }
{
    for k in 1..end {
        put_field(
            plan, parts, lengths, places, body, counters, room, first, k, row, n,
        );
    }
}

// ---- the order

// The rows start .. start + n - 1 of a source whose first node is `first`.
pub fn copy_sparse(
    plan: &[u64],
    parts: &[u64],
    lengths: &[u64],
    places: &[u64],
    body: &[u8],
    counters: &mut [u64],
    room: &mut [u8],
    first: usize,
    start: u64,
    n: u64,
) -> u8
    requires { (length counters.old ≡ 96) × (first < 2 ^ 32) × Sparse plan.now }
    ensures { CopiesAny plan parts lengths places body first start n counters room result }
{
    let slot = lookups::slot_of(lengths, first, 0, start, n);
    if plan_words::FAR <= slot {
        return 12;
    }
    if !leaf_walk::rows_in(body, lent_tables::place(places, first + 0, 3), 1, slot, n) {
        return 12;
    }
    let end = plan::parts::node_count(plan);
    let g = fields_ground(
        plan,
        parts,
        lengths,
        places,
        body,
        counters,
        room.len(),
        first,
        end,
        slot,
        n,
    );
    if g != 0 {
        return g;
    }
    put_entries(
        plan, parts, places, body, counters, room, first, 0, 1, slot, n,
    );
    put_fields(
        plan, parts, lengths, places, body, counters, room, first, end, slot, n,
    );
    leaf_counters::add_to(counters, 0, n);
    0
}
