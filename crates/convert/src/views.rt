// The walk that writes the root of a list column's list-view.
ghost use Rattle.std.specs.Prelude.{◌≡◌, true, [], ◌+◌, ◌*◌, ◌-◌, ◌<◌, ◌≤◌, ◌^◌, length};
ghost use Rattle.clauses.specs.Slices.{was, left};
ghost use Rattle.walk.specs.State.{bytes_of, place, length_of, offset_of};
ghost use Rattle.walk.specs.Log.{start_of, Did, each};
ghost use Rattle.leaf_walk.specs.Join.{join};
ghost use Rattle.leaf_walk.specs.Walks.{lent_join, Walks};
ghost use Rattle.convert.specs.convert_lists.Viewing.{view_row, view_rows, view_walk};
ghost use Rattle.convert.specs.convert_lists.Laid.{laid_rows};

use array_data::lent_tables;
use nested_rows::lookups;
use number::Unsigned;
use walk::plan_words;

// The offset and the size of row r.
fn view_row(
    plan: &[u64],
    parts: &[u64],
    lengths: &[u64],
    places: &[u64],
    body: &[u8],
    counters: &[u64; plan_words::COUNTERS],
    room: &mut [u8],
    write: bool,
    first: u32,
    w: u64,
    slot: u64,
    r: u64,
)
    requires w_value { (w ≡ 4 → ⊥) → w ≡ 8 }
    requires fact { let j = join [] [] lengths.now places.now body.now first 0 in (slot ≡ offset_of j 0) × (slot + r + 2 < 2 ^ 64) × ((r + 1) * w < 2 ^ 64) × (place j 0 3 + w * (slot + r + 2) ≤ length body.now) }
    ensures { Did (was plan) (was parts) write (view_row (lent_join plan parts lengths places body first 0) w r (was counters)) room.old 0 (was counters) room.new }
{
    let at = lent_tables::place(places, first as usize, 3);
    let start = lookups::entry_at(body, at, w, slot + r);
    let next = lookups::entry_at(body, at, w, slot + r + 1);
    let o = r * w;
    room_writes::put_number(plan, parts, room, write, 0, 1, o, w, start);
    let size = next.saturating_sub(start);
    room_writes::put_number(plan, parts, room, write, 0, 2, o, w, size);
}

// a - b, and 0 where b is above a. By a test, which the compiler narrows to rows of 4 bytes; `saturating_sub` stays at 64 bits, and takes twice as
// long there.
fn less(a: u64, b: u64) -> u64
    ensures { result ≡ a - b }
{
    if a < b {
        return 0;
    }
    a - b
}

// Of n rows whose offsets stand at `from`: each row's offset at `at` and its size at `too`.
fn lay<N: Unsigned>(room: &mut [u8], at: usize, too: usize, body: &[u8], from: usize, n: usize)
    requires { (at + N.SIZE * n ≤ length room.old) × (too + N.SIZE * n ≤ length room.old) × (from + N.SIZE * (n + 1) ≤ length body.now) }
    ensures { room.new ≡ laid_rows N.SIZE (was body) from at too n 0 room.old }
{
    for i in 0..n {
        let start = N::read(body, from + N::SIZE * i);
        let next = N::read(body, from + N::SIZE * (i + 1));
        let size = less(next.to_u64(), start.to_u64());
        start.write(room, at + N::SIZE * i);
        N::truncate(size).write(room, too + N::SIZE * i);
    }
}

// Of n rows whose offsets of w bytes stand at `from`: each row's offset at `at` and its size at `too`.
fn lay_rows(room: &mut [u8], at: usize, too: usize, body: &[u8], from: usize, w: u64, n: usize)
    requires w_value { (w ≡ 4 → ⊥) → w ≡ 8 }
    requires n_in_bounds { (at + w * n ≤ length room.old) × (too + w * n ≤ length room.old) × (from + w * (n + 1) ≤ length body.now) }
    ensures { room.new ≡ laid_rows w (was body) from at too n 0 room.old }
{
    match w {
        4 => lay::<u32>(room, at, too, body, from, n),
        _ => lay::<u64>(room, at, too, body, from, n),
    }
}

// The n rows, put one by one.
fn put_row_by_row(
    plan: &[u64],
    parts: &[u64],
    lengths: &[u64],
    places: &[u64],
    body: &[u8],
    counters: &[u64; plan_words::COUNTERS],
    room: &mut [u8],
    first: u32,
    w: u64,
    slot: u64,
    n: u64,
)
    requires w_value { (w ≡ 4 → ⊥) → w ≡ 8 }
    requires fact { let j = join [] [] lengths.now places.now body.now first 0 in (slot ≡ offset_of j 0) × (slot + n < 2 ^ 63) × (place j 0 3 + w * (slot + (n + 1)) ≤ length body.now) }
    ensures { Did (was plan) (was parts) true (each (view_row (lent_join plan parts lengths places body first 0) w) n 0 (was counters)) room.old 0 (was counters) room.new }
{
    for r in 0..n {
        view_row(
            plan, parts, lengths, places, body, counters, room, true, first, w, slot, r,
        );
    }
}

// The n rows, whose offsets go to the byte `at`: at once, where the sizes have room too.
fn put_rows_at(
    plan: &[u64],
    parts: &[u64],
    lengths: &[u64],
    places: &[u64],
    body: &[u8],
    counters: &[u64; plan_words::COUNTERS],
    room: &mut [u8],
    first: u32,
    w: u64,
    slot: u64,
    n: u64,
    at: usize,
)
    requires w_value { (w ≡ 4 → ⊥) → w ≡ 8 }
    requires fact { let j = join [] [] lengths.now places.now body.now first 0 in (slot ≡ offset_of j 0) × (slot + n < 2 ^ 63) × (place j 0 3 + w * (slot + (n + 1)) ≤ length body.now) }
    requires at_value { (at ≡ start_of plan.now parts.now 0 1) × (at + w * n ≤ length room.old) }
    ensures { Did (was plan) (was parts) true (each (view_row (lent_join plan parts lengths places body first 0) w) n 0 (was counters)) room.old 0 (was counters) room.new }
{
    let size = plan_words::scale(n, w);
    let from = lent_tables::place(places, first as usize, 3) + w * slot;
    match plan_words::target(plan, parts, room.len(), true, 0, 2, 0, size) {
        Some(too) => lay_rows(room, at, too, body, from as usize, w, n as usize),
        None => put_row_by_row(
            plan, parts, lengths, places, body, counters, room, first, w, slot, n,
        ),
    }
}

// The n rows: at once, where both parts have room for them.
fn put_rows(
    plan: &[u64],
    parts: &[u64],
    lengths: &[u64],
    places: &[u64],
    body: &[u8],
    counters: &[u64; plan_words::COUNTERS],
    room: &mut [u8],
    first: u32,
    w: u64,
    slot: u64,
    n: u64,
)
    requires w_value { (w ≡ 4 → ⊥) → w ≡ 8 }
    requires fact { let j = join [] [] lengths.now places.now body.now first 0 in (slot ≡ offset_of j 0) × (slot + n < 2 ^ 63) × (place j 0 3 + w * (slot + (n + 1)) ≤ length body.now) }
    ensures { Did (was plan) (was parts) true (each (view_row (lent_join plan parts lengths places body first 0) w) n 0 (was counters)) room.old 0 (was counters) room.new }
{
    let size = plan_words::scale(n, w);
    match plan_words::target(plan, parts, room.len(), true, 0, 1, 0, size) {
        Some(at) => put_rows_at(
            plan, parts, lengths, places, body, counters, room, first, w, slot, n, at,
        ),
        None => put_row_by_row(
            plan, parts, lengths, places, body, counters, room, first, w, slot, n,
        ),
    }
}

// All n rows. A walk that only tries does not look at them.
fn view_rows(
    plan: &[u64],
    parts: &[u64],
    lengths: &[u64],
    places: &[u64],
    body: &[u8],
    counters: &[u64; plan_words::COUNTERS],
    room: &mut [u8],
    write: bool,
    first: u32,
    w: u64,
    slot: u64,
    n: u64,
) -> u8
    requires w_value { (w ≡ 4 → ⊥) → w ≡ 8 }
    requires slot_value { (slot ≡ offset_of (join [] [] lengths.now places.now body.now first 0) 0) × (slot + n < 2 ^ 63) }
    ensures { Did (was plan) (was parts) write (view_rows (lent_join plan parts lengths places body first 0) w n (was counters)) room.old result (was counters) room.new }
{
    if n == 0 {
        return 0;
    }
    let at = lent_tables::place(places, first as usize, 3);
    if !leaf_walk::rows_in(body, at, w, slot, n + 1) {
        return 12;
    }
    if !write {
        return 0;
    }
    put_rows(
        plan, parts, lengths, places, body, counters, room, first, w, slot, n,
    );
    0
}

// The whole walk: the root's validity, the rows, and their number.
pub fn view_walk(
    plan: &[u64],
    parts: &[u64],
    lengths: &[u64],
    places: &[u64],
    body: &[u8],
    counters: &mut [u64; plan_words::COUNTERS],
    room: &mut [u8],
    write: bool,
    first: u32,
) -> u8
    requires first_bound { offset_of (join [] [] lengths.now [] [] first 0) 0 + length_of (join [] [] lengths.now [] [] first 0) 0 < 2 ^ 63 }
    requires plan_value { (bytes_of plan.now 0 ≡ 4 → ⊥) → bytes_of plan.now 0 ≡ 8 }
    ensures { Walks plan parts write (view_walk (lent_join plan parts lengths places body first 0) (bytes_of (was plan) 0)) counters room result }
{
    let k = first as usize;
    let slot = lent_tables::offset_of(lengths, k);
    let n = lent_tables::length_of(lengths, k);
    let g = leaf_walk::copy_mask(
        plan, parts, places, body, counters, room, write, k, 0, slot, n,
    );
    if g != 0 {
        return g;
    }
    let w = lookups::width_at(plan, 0);
    let g = view_rows(
        plan, parts, lengths, places, body, counters, room, write, first, w, slot, n,
    );
    if g != 0 {
        return g;
    }
    plan_words::add_rows(counters, 0, n);
    0
}
