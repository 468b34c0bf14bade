// Sparse and dense unions: copies and nulls.
// Follows arrow-data 60.1.0 src/transform/union.rs, Apache-2.0; see NOTICE.
ghost use Rattle.std.specs.Prelude.{◌≡◌, [], ◌+◌, ◌*◌, ◌<◌, ◌≤◌, ◌^◌, length};
ghost use Rattle.walk.specs.State.{place};
ghost use Rattle.walk.specs.Copy.{copy_sparse, dense_row, copy_dense, copy_walk};
ghost use Rattle.walk.specs.Nulls.{null_sparse, null_dense, null_walk};
ghost use Rattle.leaf_walk.specs.Join.{join};
ghost use Rattle.leaf_walk.specs.Walks.{lent_join, null_join, Walks};

use array_data::lent_tables;
use nested_rows::lookups;
use walk::plan_words;

// The first of a sparse union's ids that is copied: at its slot, in which the array's offset is counted once.
fn first_id(slot: u64) -> u64
    requires { slot < 2 ^ 63 }
    ensures { result ≡ slot }
{
    let id = slot;
    id
}

// The first row of every child that is copied: at the union's slot likewise.
fn first_row(slot: u64) -> u64
    requires { slot < 2 ^ 63 }
    ensures { result ≡ slot }
{
    let row = slot;
    row
}

// A sparse union: its ids, then the same slots of every child.
#[cycle(extend)]
pub fn extend_sparse(
    plan: &[u64],
    parts: &[u64],
    lengths: &[u64],
    places: &[u64],
    body: &[u8],
    counters: &mut [u64; plan_words::COUNTERS],
    room: &mut [u8],
    write: bool,
    source: usize,
    first: usize,
    i: usize,
    slot: u64,
    n: u64,
    depth: u32,
) -> u8
    requires { (first < 2 ^ 32) × (source < 2 ^ 32) × (i < 32) × (slot + n < 2 ^ 63) }
    ensures { let j = lent_join plan parts lengths places body first source in Walks plan parts write (copy_sparse j (copy_walk j depth) i slot n) counters room result }
{
    let ids = first_id(slot);
    let row = first_row(slot);
    let g = leaf_walk::copy_numbers(
        plan, parts, places, body, counters, room, write, first, i, 1, ids, n,
    );
    if g != 0 {
        return g;
    }
    let end = plan_words::end_of(plan, i);
    let mut k = i + 1;
    for _t in 0..32usize {
        if end <= k {
            return 0;
        }
        let g = crate::extend(
            plan, parts, lengths, places, body, counters, room, write, source, first, k, row, n,
            depth,
        );
        if g != 0 {
            return g;
        }
        k = plan_words::end_of(plan, k);
    }
    0
}

// Row r of a dense union: one row of the child with its id.
#[cycle(extend)]
fn extend_dense_row(
    plan: &[u64],
    parts: &[u64],
    lengths: &[u64],
    places: &[u64],
    body: &[u8],
    counters: &mut [u64; plan_words::COUNTERS],
    room: &mut [u8],
    write: bool,
    source: usize,
    first: usize,
    i: usize,
    slot: u64,
    r: u64,
    depth: u32,
) -> u8
    requires first_bound { (first < 2 ^ 32) × (source < 2 ^ 32) × (i < 32) × (slot + r + 1 < 2 ^ 63) }
    requires fact { let j = join [] [] lengths.now places.now body.now first 0 in (place j i 3 + (slot + r + 1) ≤ length body.now) × (place j i 5 + 4 * (slot + r + 1) ≤ length body.now) }
    ensures { let j = lent_join plan parts lengths places body first source in Walks plan parts write (dense_row j (copy_walk j depth) i slot r) counters room result }
{
    let at = lent_tables::place(places, first + i, 3) + (slot + r);
    let id = body[at as usize];
    let k = lookups::child_with(plan, id, plan_words::end_of(plan, i), i + 1);
    if 32 <= k {
        return 12;
    }
    let g = nested_rows::dense_numbers(plan, parts, counters, room, write, i, r, k, id);
    if g != 0 {
        return g;
    }
    let position = lookups::entry_at(body, lent_tables::place(places, first + i, 5), 4, slot + r);
    crate::extend(
        plan, parts, lengths, places, body, counters, room, write, source, first, k, position, 1,
        depth,
    )
}

// A dense union, row by row.
#[cycle(extend)]
pub fn extend_dense(
    plan: &[u64],
    parts: &[u64],
    lengths: &[u64],
    places: &[u64],
    body: &[u8],
    counters: &mut [u64; plan_words::COUNTERS],
    room: &mut [u8],
    write: bool,
    source: usize,
    first: usize,
    i: usize,
    slot: u64,
    n: u64,
    depth: u32,
) -> u8
    requires { (first < 2 ^ 32) × (source < 2 ^ 32) × (i < 32) × (slot + n < 2 ^ 63) }
    ensures { let j = lent_join plan parts lengths places body first source in Walks plan parts write (copy_dense j (copy_walk j depth) i slot n) counters room result }
{
    if !nested_rows::pairs_in(places, body, first, i, 1, 4, slot, n) {
        return 12;
    }
    for r in 0..n {
        let g = extend_dense_row(
            plan, parts, lengths, places, body, counters, room, write, source, first, i, slot, r,
            depth,
        );
        if g != 0 {
            return g;
        }
    }
    0
}

// A sparse union: n ids of its first nullable child, and n nulls in every child.
#[cycle(extend_nulls)]
pub fn extend_nulls_sparse(
    plan: &[u64],
    parts: &[u64],
    counters: &mut [u64; plan_words::COUNTERS],
    room: &mut [u8],
    write: bool,
    i: usize,
    n: u64,
    depth: u32,
) -> u8
    requires { i < 32 }
    ensures { Walks plan parts write (null_sparse (null_join plan parts) (null_walk (null_join plan parts) depth) i n) counters room result }
{
    let h = nested_rows::null_home(plan, i);
    if 32 <= h {
        return nested_rows::no_home(plan, i);
    }
    let g = nested_rows::null_ids(plan, parts, counters, room, write, i, h, n);
    if g != 0 {
        return g;
    }
    let end = plan_words::end_of(plan, i);
    let mut k = i + 1;
    for _t in 0..32usize {
        if end <= k {
            return 0;
        }
        let g = crate::extend_nulls(plan, parts, counters, room, write, k, n, depth);
        if g != 0 {
            return g;
        }
        k = plan_words::end_of(plan, k);
    }
    0
}

// A dense union: n ids and positions of its first nullable child, and n nulls in it.
#[cycle(extend_nulls)]
pub fn extend_nulls_dense(
    plan: &[u64],
    parts: &[u64],
    counters: &mut [u64; plan_words::COUNTERS],
    room: &mut [u8],
    write: bool,
    i: usize,
    n: u64,
    depth: u32,
) -> u8
    requires { i < 32 }
    ensures { Walks plan parts write (null_dense (null_join plan parts) (null_walk (null_join plan parts) depth) i n) counters room result }
{
    let h = nested_rows::null_home(plan, i);
    if 32 <= h {
        return nested_rows::no_home(plan, i);
    }
    let g = nested_rows::null_positions(plan, parts, counters, room, write, i, h, n);
    if g != 0 {
        return g;
    }
    crate::extend_nulls(plan, parts, counters, room, write, h, n, depth)
}
