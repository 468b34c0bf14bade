// Lists: all their offsets, then one stretch of the child. A null repeats the last offset, as a leaf writes it (`node_data`).
// Follows arrow-data 60.1.0 src/transform/list.rs, Apache-2.0; see NOTICE.
ghost use Rattle.std.specs.Prelude.{◌≡◌, ◌+◌, ◌<◌, ◌^◌};
ghost use Rattle.walk.specs.Copy.{copy_walk, copy_list};
ghost use Rattle.leaf_walk.specs.Walks.{lent_join, Walks};

use leaf_walk::variable_size;
use utils::Extended;
use walk::plan_words;

// A list with offsets of w bytes: all its offsets, then one stretch of its child.
#[cycle(extend)]
pub fn extend_list(
    plan: &[u64],
    parts: &[u64],
    lengths: &[u64],
    places: &[u64],
    body: &[u8],
    counters: &mut [u64; plan_words::COUNTERS],
    room: &mut [u8],
    write: bool,
    source: usize,
    first: usize,
    i: usize,
    w: u64,
    slot: u64,
    n: u64,
    depth: u32,
) -> u8
    requires first_bound { (first < 2 ^ 32) × (source < 2 ^ 32) × (i < 32) × (slot + n < 2 ^ 63) }
    requires w_value { (w ≡ 4 → ⊥) → w ≡ 8 }
    ensures { let j = lent_join plan parts lengths places body first source in Walks plan parts write (copy_list j (copy_walk j depth) w i slot n) counters room result }
{
    if n == 0 {
        return 0;
    }
    if 32 <= i + 1 {
        return 12;
    }
    match variable_size::copy_offsets(
        plan, parts, places, body, counters, room, write, first, i, w, slot, n,
    ) {
        Extended::Fits { last, first: from } => {
            let size = last - plan_words::rows_of(counters, i + 1);
            crate::extend(
                plan,
                parts,
                lengths,
                places,
                body,
                counters,
                room,
                write,
                source,
                first,
                i + 1,
                from,
                size,
                depth,
            )
        }
        Extended::Over { .. } => 6,
        Extended::Falls => 12,
    }
}
