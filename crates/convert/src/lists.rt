// The walk that writes a list-view column as a list.
ghost use Rattle.std.specs.Prelude.{◌≡◌, List, [], ℕ, ◌+◌, ◌*◌, ◌<◌, ◌≤◌, ◌^◌, length};
ghost use Rattle.clauses.specs.Slices.{was, left};
ghost use Rattle.columnar.specs.Array.{ok};
ghost use Rattle.array_data.specs.lent_tables.Lent.{tables};
ghost use Rattle.walk.specs.State.{bytes_of, place, length_of, offset_of};
ghost use Rattle.walk.specs.Log.{Did};
ghost use Rattle.leaf_walk.specs.Join.{join};
ghost use Rattle.leaf_walk.specs.Walks.{lent_join, Walks};
ghost use Rattle.convert.specs.convert_lists.Listing.{validity, end_row, copy_row, list_row, list_rows, list_walk};
ghost use Rattle.convert.specs.convert_lists.ToList.{lent_with};

use array_data::{entries, lent_tables};
use nested_rows::lookups;
use walk::plan_words;

// Whether slot `slot` of the root is valid.
fn is_valid(places: &[u64], body: &[u8], first: u32, slot: u64) -> bool
    ensures { (plan parts lengths : List ℕ) (w : ℕ) → result ≡ ok (validity (join plan parts lengths (was places) (was body) first 0) w) slot }
{
    match entries::valid_at(places, body, first, 0, slot) {
        entries::Validity::Valid => true,
        entries::Validity::Null => false,
        entries::Validity::Outside => false,
    }
}

// The offset behind row r: the child's rows.
fn end_row(
    plan: &[u64],
    parts: &[u64],
    counters: &[u64; plan_words::COUNTERS],
    room: &mut [u8],
    write: bool,
    w: u64,
    r: u64,
)
    requires w_value { (w ≡ 4 → ⊥) → w ≡ 8 }
    requires r_bound { (r + 1 < 2 ^ 63) × ((r + 1) * w < 2 ^ 64) }
    ensures { (lengths places body : List ℕ) (first : ℕ) → Did (was plan) (was parts) write (end_row (join (was plan) (was parts) lengths places body first 0) w r (was counters)) room.old 0 (was counters) room.new }
{
    let v = plan_words::rows_of(counters, 1);
    room_writes::put_number(plan, parts, room, write, 0, 1, (r + 1) * w, w, v);
}

// A valid row r: ground 6, the copy of its stretch, and the offset behind it.
fn copy_row(
    plan: &[u64],
    parts: &[u64],
    lengths: &[u64],
    places: &[u64],
    body: &[u8],
    counters: &mut [u64; plan_words::COUNTERS],
    room: &mut [u8],
    write: bool,
    first: u32,
    w: u64,
    slot: u64,
    r: u64,
) -> u8
    requires w_value { (w ≡ 4 → ⊥) → w ≡ 8 }
    requires fact { let j = join [] [] lengths.now places.now body.now first 0 in (slot ≡ offset_of j 0) × (slot + r + 1 < 2 ^ 63) × ((r + 1) * w < 2 ^ 64) × (place j 0 3 + w * (slot + r + 1) ≤ length body.now) × (place j 0 5 + w * (slot + r + 1) ≤ length body.now) }
    ensures { Walks plan parts write (copy_row (lent_join plan parts lengths places body first 0) w r) counters room result }
{
    let k = first as usize;
    let offset = lookups::entry_at(body, lent_tables::place(places, k, 3), w, slot + r);
    let size = lookups::entry_at(body, lent_tables::place(places, k, 5), w, slot + r);
    if !nested_rows::sum_fits(w, plan_words::rows_of(counters, 1), size) {
        return 6;
    }
    let g = extend::extend(
        plan, parts, lengths, places, body, counters, room, write, 0, k, 1, offset, size, 7,
    );
    if g != 0 {
        return g;
    }
    end_row(plan, parts, counters, room, write, w, r);
    0
}

// Row r.
fn list_row(
    plan: &[u64],
    parts: &[u64],
    lengths: &[u64],
    places: &[u64],
    body: &[u8],
    counters: &mut [u64; plan_words::COUNTERS],
    room: &mut [u8],
    write: bool,
    first: u32,
    w: u64,
    slot: u64,
    r: u64,
) -> u8
    requires w_value { (w ≡ 4 → ⊥) → w ≡ 8 }
    requires fact { let j = join [] [] lengths.now places.now body.now first 0 in (slot ≡ offset_of j 0) × (slot + r + 1 < 2 ^ 63) × ((r + 1) * w < 2 ^ 64) × (place j 0 3 + w * (slot + r + 1) ≤ length body.now) × (place j 0 5 + w * (slot + r + 1) ≤ length body.now) }
    ensures { Walks plan parts write (list_row (lent_join plan parts lengths places body first 0) w r) counters room result }
{
    if is_valid(places, body, first, slot + r) {
        return copy_row(
            plan, parts, lengths, places, body, counters, room, write, first, w, slot, r,
        );
    }
    end_row(plan, parts, counters, room, write, w, r);
    0
}

// All n rows.
fn list_rows(
    plan: &[u64],
    parts: &[u64],
    lengths: &[u64],
    places: &[u64],
    body: &[u8],
    counters: &mut [u64; plan_words::COUNTERS],
    room: &mut [u8],
    write: bool,
    first: u32,
    w: u64,
    slot: u64,
    n: u64,
) -> u8
    requires w_value { (w ≡ 4 → ⊥) → w ≡ 8 }
    requires slot_value { (slot ≡ offset_of (join [] [] lengths.now places.now body.now first 0) 0) × (slot + n < 2 ^ 63) }
    ensures { Walks plan parts write (list_rows (lent_join plan parts lengths places body first 0) w n) counters room result }
{
    if !nested_rows::pairs_in(places, body, first as usize, 0, w, w, slot, n) {
        return 12;
    }
    for r in 0..n {
        let g = list_row(
            plan, parts, lengths, places, body, counters, room, write, first, w, slot, r,
        );
        if g != 0 {
            return g;
        }
    }
    0
}

// The whole walk: first offsets, the root's validity, the rows, and their number.
pub fn list_walk(
    plan: &[u64],
    parts: &[u64],
    lengths: &[u64],
    places: &[u64],
    body: &[u8],
    counters: &mut [u64; plan_words::COUNTERS],
    room: &mut [u8],
    write: bool,
    first: u32,
) -> u8
    requires first_bound { offset_of (join [] [] lengths.now [] [] first 0) 0 + length_of (join [] [] lengths.now [] [] first 0) 0 < 2 ^ 63 }
    requires plan_value { (bytes_of plan.now 0 ≡ 4 → ⊥) → bytes_of plan.now 0 ≡ 8 }
    ensures { (n : ℕ) → Walks plan parts write (list_walk (lent_with (tables (was lengths) (was places) (was body)) (was plan) (was parts) first n)) counters room result }
{
    let k = first as usize;
    with_capacities::open_walk::first_offsets(plan, parts, room, write);
    let slot = lent_tables::offset_of(lengths, k);
    let n = lent_tables::length_of(lengths, k);
    let g = leaf_walk::copy_mask(
        plan, parts, places, body, counters, room, write, k, 0, slot, n,
    );
    if g != 0 {
        return g;
    }
    let w = lookups::width_at(plan, 0);
    let g = list_rows(
        plan, parts, lengths, places, body, counters, room, write, first, w, slot, n,
    );
    if g != 0 {
        return g;
    }
    plan_words::add_rows(counters, 0, n);
    0
}
