// List-views of list-views to any depth, over numbers or byte strings, where no node keeps nulls: each node's stretches.
ghost use Rattle.std.specs.Prelude.{◌≡◌, true, cond, [], ℕ, suc, ◌+◌, ◌*◌, ◌<◌, ◌≤◌, ◌^◌, length};
ghost use Rattle.number.specs.Number.{entry};
ghost use Rattle.walk.specs.State.{place};
ghost use Rattle.leaf_walk.specs.Join.{join};
ghost use Rattle.leaf_walk.specs.Walks.{lent_join, Walks};
ghost use Rattle.batch.specs.Stretch.{sum_of, stretches};
ghost use Rattle.batch.specs.Batch.{batch_list_view, batch_node, batch_below};
ghost use Rattle.batch.specs.batch_walk.Plain.{is_flat, is_listed};
ghost use Rattle.batch.specs.batch_walk.Rows.{list_stretches};

use crate::{batch_walk, list_view, side};
use array_data::lent_tables;
use nested_rows::lookups;
use walk::plan_words;

// The stretches of a child that is a list-view, for offsets and sizes of w bytes.
#[cycle(copy_stretches)]
fn copy_stretches(
    plan: &[u64],
    parts: &[u64],
    lengths: &[u64],
    places: &[u64],
    body: &[u8],
    counters: &mut [u64; plan_words::COUNTERS],
    room: &mut [u8],
    write: bool,
    first: usize,
    i: usize,
    w: u64,
    slot: u64,
    n: u64,
    depth: u32,
) -> u8
    requires first_bound { (first < 2 ^ 32) × (i + 1 + depth < 31) × (slot + n < 2 ^ 63) × (is_listed plan.now (suc depth) (suc i) ≡ true) }
    requires n_in_bounds { (place (join [] [] [] places.now [] first 0) i 3 + w * (slot + n) ≤ length body.now) × (place (join [] [] [] places.now [] first 0) i 5 + w * (slot + n) ≤ length body.now) }
    requires n_bound { sum_of (λ q. entry w body.now (place (join [] [] [] places.now [] first 0) i 5) (slot + q)) n < 2 ^ 63 }
    requires w_value { (w ≡ 4 → ⊥) → w ≡ 8 }
    ensures { (source : ℕ) → let j = lent_join plan parts lengths places body first source in Walks plan parts write (list_stretches j (batch_node j (batch_below j depth)) w i slot n) counters room result }
{
    let offsets = lent_tables::place(places, first + i, 3);
    let sizes = lent_tables::place(places, first + i, 5);
    let mut a: u64 = 0;
    let mut m: u64 = 0;
    let mut r: u64 = 0;
    while r <= n {
        let t = side::advance(body, offsets, sizes, w, slot, n, r, a, m);
        let g = copy_node(
            plan,
            parts,
            lengths,
            places,
            body,
            counters,
            room,
            write,
            first,
            i + 1,
            t.a,
            t.m,
            depth,
        );
        if g != 0 {
            return g;
        }
        if t.next == n {
            return 0;
        }
        a = lookups::entry_at(body, offsets, w, slot + t.next);
        m = lookups::entry_at(body, sizes, w, slot + t.next);
        r = t.next + 1;
    }
    12
}

// A list-view with offsets of w bytes, whose child is such a list-view, or of numbers or byte strings.
#[cycle(copy_stretches)]
fn copy_list_view(
    plan: &[u64],
    parts: &[u64],
    lengths: &[u64],
    places: &[u64],
    body: &[u8],
    counters: &mut [u64; plan_words::COUNTERS],
    room: &mut [u8],
    write: bool,
    first: usize,
    i: usize,
    w: u64,
    slot: u64,
    n: u64,
    depth: u32,
) -> u8
    requires first_bound { (first < 2 ^ 32) × (i + depth < 31) × (slot + n < 2 ^ 63) × (cond (is_flat plan.now (suc i)) true (is_listed plan.now depth (suc i)) ≡ true) }
    requires w_value { (w ≡ 4 → ⊥) → w ≡ 8 }
    ensures { (source : ℕ) → let j = lent_join plan parts lengths places body first source in Walks plan parts write (batch_list_view j (batch_below j depth) w i slot n) counters room result }
{
    let t = list_view::put_head(
        plan, parts, places, body, counters, room, write, first, i, w, slot, n,
    );
    if t.refusal != 0 {
        return t.refusal;
    }
    if batch_walk::is_flat(plan, i + 1) {
        return list_view::copy_rows(
            plan, parts, lengths, places, body, counters, room, write, first, i, w, slot, n,
            t.total,
        );
    }
    copy_stretches(
        plan,
        parts,
        lengths,
        places,
        body,
        counters,
        room,
        write,
        first,
        i,
        w,
        slot,
        n,
        depth - 1,
    )
}

// The rows a .. a + n - 1 of node k, which is a list-view.
#[cycle(copy_stretches)]
pub fn copy_node(
    plan: &[u64],
    parts: &[u64],
    lengths: &[u64],
    places: &[u64],
    body: &[u8],
    counters: &mut [u64; plan_words::COUNTERS],
    room: &mut [u8],
    write: bool,
    first: usize,
    k: usize,
    a: u64,
    n: u64,
    depth: u32,
) -> u8
    requires { (first < 2 ^ 32) × (k + depth < 31) × (is_listed plan.now (suc depth) k ≡ true) }
    ensures { (source : ℕ) → let j = lent_join plan parts lengths places body first source in Walks plan parts write (batch_node j (batch_below j depth) k a n) counters room result }
{
    let slot = lookups::slot_of(lengths, first, k, a, n);
    if plan_words::FAR <= slot {
        return 12;
    }
    let w = lookups::width_at(plan, k);
    let g = copy_list_view(
        plan, parts, lengths, places, body, counters, room, write, first, k, w, slot, n, depth,
    );
    if g != 0 {
        return g;
    }
    plan_words::add_rows(counters, k, n);
    0
}
