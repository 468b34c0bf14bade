// A list-view by stretches of its child.
ghost use Rattle.std.specs.Prelude.{◌≡◌, true, not, ◌&&◌, List, [], ℕ, suc, ◌+◌, ◌*◌, ◌-◌, ◌<◌, ◌≤◌, ◌^◌, length, ltb};
ghost use Rattle.clauses.specs.Slices.{was, left};
ghost use Rattle.number.specs.Number.{entry};
ghost use Rattle.walk.specs.State.{place};
ghost use Rattle.walk.specs.Log.{Did};
ghost use Rattle.walk.specs.Copy.{Walk};
ghost use Rattle.leaf_walk.specs.Join.{join};
ghost use Rattle.leaf_walk.specs.Walks.{lent_join, AnyLengths, Walks};
ghost use Rattle.batch.specs.Stretch.{sum_of, stretches};
ghost use Rattle.batch.specs.Batch.{owned, batch_leaf, batch_list_view};
ghost use Rattle.batch.specs.batch_walk.Plain.{is_plain, is_flat, reached};
ghost use Rattle.batch.specs.batch_walk.Head.{Named, Rests, rows_of};
ghost use Rattle.batch.specs.batch_walk.Side.{furthest_of};
ghost use Rattle.batch.specs.batch_walk.Rows.{list_stretches};

use crate::flat_child::NumberChild;
use crate::{listed, numbers, side, sizes, text_lists, texts};
use array_data::lent_tables;
use nested_rows::lookups;
use walk::plan_words;

// Whether the plan counts node i, and its buffers have parts.
pub fn is_owned(plan: &[u64], i: usize) -> bool
    requires { i < 32 }
    ensures { result ≡ owned (was plan) i }
{
    if plan::parts::node_count(plan) <= i {
        return false;
    }
    plan::parts::is_copied(plan, i)
}

// Whether it does of node i and of node i + 1, its child.
fn has_child(plan: &[u64], i: usize) -> bool
    requires { i < 32 }
    ensures { result ≡ (ltb (suc i) 32 && (owned (was plan) i && owned (was plan) (suc i))) }
{
    if 31 <= i {
        return false;
    }
    if !is_owned(plan, i) {
        return false;
    }
    is_owned(plan, i + 1)
}

// Whether the walk only tries, and all rows that the n offsets and sizes name stand in the body: then no stretch is refused.
fn none_refused(
    lengths: &[u64],
    places: &[u64],
    body: &[u8],
    write: bool,
    first: usize,
    i: usize,
    w: u64,
    v: u64,
    slot: u64,
    n: u64,
) -> bool
    requires first_bound { (first < 2 ^ 32) × (i + 1 < 32) × (slot + n < 2 ^ 63) × (v ≤ 16) }
    requires n_in_bounds { (place (join [] [] [] places.now [] first 0) i 3 + w * (slot + n) ≤ length body.now) × (place (join [] [] [] places.now [] first 0) i 5 + w * (slot + n) ≤ length body.now) }
    requires w_value { (w ≡ 4 → ⊥) → w ≡ 8 }
    ensures { (plan parts : List ℕ) (source : ℕ) → let j = join plan parts (was lengths) (was places) (was body) first source in result ≡ (not write && reached j (suc i) v (furthest_of (λ q. entry w (was body) (place j i 3) (slot + q) + entry w (was body) (place j i 5) (slot + q)) n)) }
{
    if write {
        return false;
    }
    let offsets = lent_tables::place(places, first + i, 3);
    let sizes = lent_tables::place(places, first + i, 5);
    let end = sizes::furthest(body, offsets, sizes, w, slot, n);
    numbers::reaches(lengths, places, body, first, i + 1, v, end)
}

// The stretches of a child of numbers, which have `total` rows together.
fn copy_numbers(
    plan: &[u64],
    parts: &[u64],
    lengths: &[u64],
    places: &[u64],
    body: &[u8],
    counters: &mut [u64; plan_words::COUNTERS],
    room: &mut [u8],
    write: bool,
    first: usize,
    i: usize,
    w: u64,
    slot: u64,
    n: u64,
    total: u64,
) -> u8
    requires first_bound { (first < 2 ^ 32) × (i + 1 < 32) × (slot + n < 2 ^ 63) × (is_plain plan.now (suc i) ≡ true) }
    requires n_in_bounds { (place (join [] [] [] places.now [] first 0) i 3 + w * (slot + n) ≤ length body.now) × (place (join [] [] [] places.now [] first 0) i 5 + w * (slot + n) ≤ length body.now) }
    requires fact { let p = place (join [] [] [] places.now [] first 0) i 5 in (sum_of (λ q. entry w body.now p (slot + q)) n < 2 ^ 63) × (total ≡ sum_of (λ q. entry w body.now p (slot + q)) n) }
    requires w_value { (w ≡ 4 → ⊥) → w ≡ 8 }
    ensures { (source : ℕ) → let j = lent_join plan parts lengths places body first source in Walks plan parts write (list_stretches j (batch_leaf j) w i slot n) counters room result }
{
    let v = lookups::width_at(plan, i + 1);
    if none_refused(lengths, places, body, write, first, i, w, v, slot, n) {
        plan_words::add_rows(counters, i + 1, total);
        return 0;
    }
    let offsets = lent_tables::place(places, first + i, 3);
    let sizes = lent_tables::place(places, first + i, 5);
    if listed::put_listed(
        plan,
        parts,
        lengths,
        places,
        body,
        counters,
        room,
        write,
        first,
        offsets,
        sizes,
        w,
        slot,
        n,
        i + 1,
        v,
        total,
    ) {
        plan_words::add_rows(counters, i + 1, total);
        return 0;
    }
    text_lists::copy_each::<NumberChild>(
        plan, parts, lengths, places, body, counters, room, write, first, i, w, slot, n,
    )
}

// The stretches of a child of numbers or byte strings, which have `total` rows together.
pub fn copy_rows(
    plan: &[u64],
    parts: &[u64],
    lengths: &[u64],
    places: &[u64],
    body: &[u8],
    counters: &mut [u64; plan_words::COUNTERS],
    room: &mut [u8],
    write: bool,
    first: usize,
    i: usize,
    w: u64,
    slot: u64,
    n: u64,
    total: u64,
) -> u8
    requires first_bound { (first < 2 ^ 32) × (i + 1 < 32) × (slot + n < 2 ^ 63) × (is_flat plan.now (suc i) ≡ true) }
    requires n_in_bounds { (place (join [] [] [] places.now [] first 0) i 3 + w * (slot + n) ≤ length body.now) × (place (join [] [] [] places.now [] first 0) i 5 + w * (slot + n) ≤ length body.now) }
    requires fact { let p = place (join [] [] [] places.now [] first 0) i 5 in (sum_of (λ q. entry w body.now p (slot + q)) n < 2 ^ 63) × (total ≡ sum_of (λ q. entry w body.now p (slot + q)) n) }
    requires w_value { (w ≡ 4 → ⊥) → w ≡ 8 }
    ensures { (source : ℕ) → let j = lent_join plan parts lengths places body first source in Walks plan parts write (list_stretches j (batch_leaf j) w i slot n) counters room result }
{
    if texts::is_text(plan, i + 1) {
        return text_lists::copy_stretches(
            plan, parts, lengths, places, body, counters, room, write, first, i, w, slot, n,
        );
    }
    copy_numbers(
        plan, parts, lengths, places, body, counters, room, write, first, i, w, slot, n, total,
    )
}

// What stands before the rows of a list-view's child: a ground, and how many rows its sizes name together.
#[derive(Clone, Copy)]
pub struct Head {
    pub refusal: u8,
    pub total: u64,
}

// No rows, for a ground.
fn refused(g: u8) -> Head
    ensures { result.refusal ≡ g }
{
    Head {
        refusal: g,
        total: 0,
    }
}

// The offsets and sizes of a list-view with offsets of w bytes.
pub fn put_head(
    plan: &[u64],
    parts: &[u64],
    places: &[u64],
    body: &[u8],
    counters: &[u64; plan_words::COUNTERS],
    room: &mut [u8],
    write: bool,
    first: usize,
    i: usize,
    w: u64,
    slot: u64,
    n: u64,
) -> Head
    requires first_bound { (first < 2 ^ 32) × (i + 1 < 32) × (slot + n < 2 ^ 63) }
    requires w_value { (w ≡ 4 → ⊥) → w ≡ 8 }
    ensures any_lengths { (result.refusal ≡ 0 → ⊥) → AnyLengths plan parts places body first (λ j. (child : Walk) → Did (was plan) (was parts) write (batch_list_view j child w i slot n (was counters)) room.old result.refusal (was counters) room.new) }
    ensures named { result.refusal ≡ 0 → Named (was body) (place (join [] [] [] (was places) [] first 0) i 3) (place (join [] [] [] (was places) [] first 0) i 5) w slot n result.total }
    ensures any_lengths_2 { result.refusal ≡ 0 → AnyLengths plan parts places body first (λ j. (child : Walk) → Rests (was plan) (was parts) write (batch_list_view j child w i slot n (was counters)) room.old (rows_of j child w i slot n (was counters)) room.new) }
{
    if !has_child(plan, i) {
        return refused(12);
    }
    if !nested_rows::pairs_in(places, body, first, i, w, w, slot, n) {
        return refused(12);
    }
    let sizes = lent_tables::place(places, first + i, 5);
    let rows = plan_words::rows_of(counters, i + 1);
    let sum = sizes::sum_sizes(body, sizes, w, slot, n, rows);
    if !sizes::is_offset(w, sum) {
        return refused(6);
    }
    let o = plan_words::scale(plan_words::rows_of(counters, i), w);
    sizes::put_sums(
        plan, parts, room, write, i, o, w, body, sizes, slot, n, rows,
    );
    let from = sizes + w * slot;
    room_writes::put_copy(
        plan,
        parts,
        room,
        write,
        i,
        2,
        o,
        body,
        from as usize,
        w * n,
    );
    let total = sum - rows;
    Head { refusal: 0, total }
}
