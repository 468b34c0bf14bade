// List-views: their numbers, and the rows of the child that they name. A null is offset 0 and size 0, as a leaf writes it (`node_data`).
// Follows arrow-data 60.1.0 src/transform/list_view.rs, Apache-2.0; see NOTICE.
ghost use Rattle.std.specs.Prelude.{◌≡◌, [], ◌+◌, ◌*◌, ◌<◌, ◌≤◌, ◌^◌, length};
ghost use Rattle.walk.specs.State.{place};
ghost use Rattle.walk.specs.Copy.{copy_walk, list_view_row, copy_list_view};
ghost use Rattle.leaf_walk.specs.Join.{join};
ghost use Rattle.leaf_walk.specs.Walks.{lent_join, Walks};

use array_data::lent_tables;
use nested_rows::lookups;
use walk::plan_words;

// Row r of a list-view: its offset is the child's length before its copy.
#[cycle(extend)]
fn extend_list_row(
    plan: &[u64],
    parts: &[u64],
    lengths: &[u64],
    places: &[u64],
    body: &[u8],
    counters: &mut [u64; plan_words::COUNTERS],
    room: &mut [u8],
    write: bool,
    source: usize,
    first: usize,
    i: usize,
    w: u64,
    slot: u64,
    r: u64,
    depth: u32,
) -> u8
    requires first_bound { (first < 2 ^ 32) × (source < 2 ^ 32) × (i + 1 < 32) × (slot + r + 1 < 2 ^ 63) }
    requires w_value { (w ≡ 4 → ⊥) → w ≡ 8 }
    requires fact { let j = join [] [] lengths.now places.now body.now first 0 in (place j i 3 + w * (slot + r + 1) ≤ length body.now) × (place j i 5 + w * (slot + r + 1) ≤ length body.now) }
    ensures { let j = lent_join plan parts lengths places body first source in Walks plan parts write (list_view_row j (copy_walk j depth) w i slot r) counters room result }
{
    let offset = lookups::entry_at(body, lent_tables::place(places, first + i, 3), w, slot + r);
    let size = lookups::entry_at(body, lent_tables::place(places, first + i, 5), w, slot + r);
    let g = nested_rows::list_numbers(plan, parts, counters, room, write, i, w, r, size);
    if g != 0 {
        return g;
    }
    crate::extend(
        plan,
        parts,
        lengths,
        places,
        body,
        counters,
        room,
        write,
        source,
        first,
        i + 1,
        offset,
        size,
        depth,
    )
}

// A list-view with offsets of w bytes, row by row.
#[cycle(extend)]
pub fn extend_list_view(
    plan: &[u64],
    parts: &[u64],
    lengths: &[u64],
    places: &[u64],
    body: &[u8],
    counters: &mut [u64; plan_words::COUNTERS],
    room: &mut [u8],
    write: bool,
    source: usize,
    first: usize,
    i: usize,
    w: u64,
    slot: u64,
    n: u64,
    depth: u32,
) -> u8
    requires first_bound { (first < 2 ^ 32) × (source < 2 ^ 32) × (i < 32) × (slot + n < 2 ^ 63) }
    requires w_value { (w ≡ 4 → ⊥) → w ≡ 8 }
    ensures { let j = lent_join plan parts lengths places body first source in Walks plan parts write (copy_list_view j (copy_walk j depth) w i slot n) counters room result }
{
    if 32 <= i + 1 {
        return 12;
    }
    if !nested_rows::pairs_in(places, body, first, i, w, w, slot, n) {
        return 12;
    }
    for r in 0..n {
        let g = extend_list_row(
            plan, parts, lengths, places, body, counters, room, write, source, first, i, w, slot,
            r, depth,
        );
        if g != 0 {
            return g;
        }
    }
    0
}
