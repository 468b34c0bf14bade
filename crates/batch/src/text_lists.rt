// A list-view's child of numbers or byte strings, by stretches.
ghost use Rattle.std.specs.Prelude.{◌≡◌, true, [], ℕ, suc, ◌+◌, ◌*◌, ◌<◌, ◌≤◌, ◌^◌, length};
ghost use Rattle.number.specs.Number.{entry};
ghost use Rattle.walk.specs.State.{place};
ghost use Rattle.leaf_walk.specs.Join.{join};
ghost use Rattle.leaf_walk.specs.Walks.{lent_join, Walks};
ghost use Rattle.batch.specs.Stretch.{sum_of, stretches};
ghost use Rattle.batch.specs.Batch.{batch_leaf};
ghost use Rattle.batch.specs.batch_walk.Plain.{is_text};
ghost use Rattle.batch.specs.batch_walk.Rows.{list_stretches};

use crate::flat_child::{FlatChild, TextChild};
use crate::{side, sizes, text_puts, text_rows};
use array_data::lent_tables;
use nested_rows::lookups;
use walk::plan_words;

// The stretches of the child, for offsets and sizes of w bytes.
pub fn copy_each<C: FlatChild>(
    plan: &[u64],
    parts: &[u64],
    lengths: &[u64],
    places: &[u64],
    body: &[u8],
    counters: &mut [u64; plan_words::COUNTERS],
    room: &mut [u8],
    write: bool,
    first: usize,
    i: usize,
    w: u64,
    slot: u64,
    n: u64,
) -> u8
    requires first_bound { (first < 2 ^ 32) × (i + 1 < 32) × (slot + n < 2 ^ 63) × (C.holds plan.now (suc i) ≡ true) }
    requires n_in_bounds { (place (join [] [] [] places.now [] first 0) i 3 + w * (slot + n) ≤ length body.now) × (place (join [] [] [] places.now [] first 0) i 5 + w * (slot + n) ≤ length body.now) }
    requires n_bound { sum_of (λ q. entry w body.now (place (join [] [] [] places.now [] first 0) i 5) (slot + q)) n < 2 ^ 63 }
    requires w_value { (w ≡ 4 → ⊥) → w ≡ 8 }
    ensures { (source : ℕ) → let j = lent_join plan parts lengths places body first source in Walks plan parts write (list_stretches j (batch_leaf j) w i slot n) counters room result }
{
    let offsets = lent_tables::place(places, first + i, 3);
    let sizes = lent_tables::place(places, first + i, 5);
    let v = lookups::width_at(plan, i + 1);
    let mut a: u64 = 0;
    let mut m: u64 = 0;
    let mut r: u64 = 0;
    while r <= n {
        let t = side::advance(body, offsets, sizes, w, slot, n, r, a, m);
        let g = C::copy_stretch(
            plan,
            parts,
            lengths,
            places,
            body,
            counters,
            room,
            write,
            first,
            i + 1,
            v,
            t.a,
            t.m,
        );
        if g != 0 {
            return g;
        }
        if t.next == n {
            return 0;
        }
        a = lookups::entry_at(body, offsets, w, slot + t.next);
        m = lookups::entry_at(body, sizes, w, slot + t.next);
        r = t.next + 1;
    }
    12
}

// The same of rows that nothing refuses.
fn put_each(
    plan: &[u64],
    parts: &[u64],
    lengths: &[u64],
    places: &[u64],
    body: &[u8],
    counters: &mut [u64; plan_words::COUNTERS],
    room: &mut [u8],
    write: bool,
    first: usize,
    i: usize,
    w: u64,
    slot: u64,
    n: u64,
) -> u8
    requires first_bound { (first < 2 ^ 32) × (i + 1 < 32) × (slot + n < 2 ^ 63) × (is_text plan.now (suc i) ≡ true) }
    requires fact { let j = join [] [] [] places.now [] first 0 in (place j i 3 + w * (slot + n) ≤ length body.now) × (place j i 5 + w * (slot + n) ≤ length body.now) }
    requires n_bound { let j = join [] [] [] places.now [] first 0 in sum_of (λ q. entry w body.now (place j i 5) (slot + q)) n < 2 ^ 63 }
    requires w_value { (w ≡ 4 → ⊥) → w ≡ 8 }
    requires counters_value { let j = join plan.now parts.now lengths.now places.now body.now first 0 in (list_stretches j (batch_leaf j) w i slot n counters.old).ans ≡ 0 }
    ensures { (source : ℕ) → let j = lent_join plan parts lengths places body first source in Walks plan parts write (list_stretches j (batch_leaf j) w i slot n) counters room result }
{
    let offsets = lent_tables::place(places, first + i, 3);
    let sizes = lent_tables::place(places, first + i, 5);
    let v = lookups::width_at(plan, i + 1);
    let mut a: u64 = 0;
    let mut m: u64 = 0;
    let mut r: u64 = 0;
    while r <= n {
        let t = side::advance(body, offsets, sizes, w, slot, n, r, a, m);
        text_puts::put_stretch(
            plan,
            parts,
            lengths,
            places,
            body,
            counters,
            room,
            write,
            first,
            i + 1,
            v,
            t.a,
            t.m,
        );
        if t.next == n {
            return 0;
        }
        a = lookups::entry_at(body, offsets, w, slot + t.next);
        m = lookups::entry_at(body, sizes, w, slot + t.next);
        r = t.next + 1;
    }
    12
}

// The same; where they seem to follow in no order, the rows are looked at one by one, and then counted or put without a test.
pub fn copy_stretches(
    plan: &[u64],
    parts: &[u64],
    lengths: &[u64],
    places: &[u64],
    body: &[u8],
    counters: &mut [u64; plan_words::COUNTERS],
    room: &mut [u8],
    write: bool,
    first: usize,
    i: usize,
    w: u64,
    slot: u64,
    n: u64,
) -> u8
    requires first_bound { (first < 2 ^ 32) × (i + 1 < 32) × (slot + n < 2 ^ 63) × (is_text plan.now (suc i) ≡ true) }
    requires n_in_bounds { (place (join [] [] [] places.now [] first 0) i 3 + w * (slot + n) ≤ length body.now) × (place (join [] [] [] places.now [] first 0) i 5 + w * (slot + n) ≤ length body.now) }
    requires n_bound { sum_of (λ q. entry w body.now (place (join [] [] [] places.now [] first 0) i 5) (slot + q)) n < 2 ^ 63 }
    requires w_value { (w ≡ 4 → ⊥) → w ≡ 8 }
    ensures { (source : ℕ) → let j = lent_join plan parts lengths places body first source in Walks plan parts write (list_stretches j (batch_leaf j) w i slot n) counters room result }
{
    let offsets = lent_tables::place(places, first + i, 3);
    let sizes = lent_tables::place(places, first + i, 5);
    let v = lookups::width_at(plan, i + 1);
    let t = text_rows::list_tried(
        plan,
        lengths,
        places,
        body,
        counters,
        first,
        offsets,
        sizes,
        w,
        slot,
        n,
        i + 1,
        v,
    );
    if t == u64::MAX {
        return copy_each::<TextChild>(
            plan, parts, lengths, places, body, counters, room, write, first, i, w, slot, n,
        );
    }
    if !write {
        let total = sizes::sum_sizes(body, sizes, w, slot, n, 0);
        plan_words::set_bytes(counters, i + 1, t);
        plan_words::add_rows(counters, i + 1, total);
        return 0;
    }
    put_each(
        plan, parts, lengths, places, body, counters, room, write, first, i, w, slot, n,
    )
}
