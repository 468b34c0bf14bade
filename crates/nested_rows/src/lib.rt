// What a walk does at a node with children beside their own walk: the numbers of a row, the ends of runs, ids and positions of nulls.
// The answer is 0 or the ground of refusal; a walk that only tries changes the counters alone.
#![tactic(auto)]

mod gaps;
pub mod lookups;
pub mod node_data;

ghost use Rattle.std.specs.Prelude.{◌≡◌, Bool, ◌&&◌, List, [], ℕ, suc, ◌+◌, ◌*◌, ◌<◌, ◌≤◌, ◌^◌, length, ltb};
ghost use Rattle.clauses.specs.Slices.{was, left};
ghost use Rattle.columnar.specs.Types.{half};
ghost use Rattle.walk.specs.State.{bytes_of, end_of, place, length_of, offset_of, rows_in};
ghost use Rattle.walk.specs.Log.{Did};
ghost use Rattle.walk.specs.Copy.{Walk, is_width, runs_at};
ghost use Rattle.walk.specs.Nulls.{nullable_child, no_home};
ghost use Rattle.leaf_walk.specs.Join.{join};
ghost use Rattle.leaf_walk.specs.Walks.{lent_join, Walks};
ghost use Rattle.nested_rows.specs.Numbers.{list_numbers, dense_numbers, runs_ready, run_numbers, null_ids, null_positions, null_end, longer_end};

use array_data::lent_tables;
use run_ends::{LogicalRow, PhysicalRun, RunRange};
use walk::plan_words;

// Whether v + n is below half of the numbers of w bytes.
pub fn sum_fits(w: u64, v: u64, n: u64) -> bool
    requires { (w ≡ 2 → ⊥) → (w ≡ 4 → ⊥) → w ≡ 8 }
    ensures { result ≡ ltb (v + n) (half w) }
{
    let sum = plan_words::grow(v, n);
    if w == 2 {
        return sum < 32768;
    }
    if w == 4 {
        return sum < 2147483648;
    }
    sum < plan_words::FAR
}

// Whether the rows of both buffers of node i stand in the body: entries of v bytes and of w bytes.
pub fn pairs_in(
    places: &[u64],
    body: &[u8],
    first: usize,
    i: usize,
    v: u64,
    w: u64,
    slot: u64,
    n: u64,
) -> bool
    requires { (first < 2 ^ 32) × (i < 32) × (slot + n < 2 ^ 63) × (v ≤ 16) × (w ≤ 16) }
    ensures { (plan parts lengths : List ℕ) (source : ℕ) → let j = join plan parts lengths (was places) (was body) first source in result ≡ (rows_in j (place j i 3) v slot n && rows_in j (place j i 5) w slot n) }
{
    if !leaf_walk::rows_in(body, lent_tables::place(places, first + i, 3), v, slot, n) {
        return false;
    }
    leaf_walk::rows_in(body, lent_tables::place(places, first + i, 5), w, slot, n)
}

// The offset and the size of row r of a list-view.
pub fn list_numbers(
    plan: &[u64],
    parts: &[u64],
    counters: &[u64; plan_words::COUNTERS],
    room: &mut [u8],
    write: bool,
    i: usize,
    w: u64,
    r: u64,
    size: u64,
) -> u8
    requires i_bound { i + 1 < 32 }
    requires w_value { (w ≡ 4 → ⊥) → w ≡ 8 }
    ensures { Did (was plan) (was parts) write (list_numbers w i r size (was counters)) room.old result (was counters) room.new }
{
    let offset = plan_words::rows_of(counters, i + 1);
    if !sum_fits(w, offset, size) {
        return 6;
    }
    let o = plan_words::scale(plan_words::grow(plan_words::rows_of(counters, i), r), w);
    room_writes::put_number(plan, parts, room, write, i, 1, o, w, offset);
    room_writes::put_number(plan, parts, room, write, i, 2, o, w, size);
    0
}

// The id and the position of row r of a dense union, whose child is node k.
pub fn dense_numbers(
    plan: &[u64],
    parts: &[u64],
    counters: &[u64; plan_words::COUNTERS],
    room: &mut [u8],
    write: bool,
    i: usize,
    r: u64,
    k: usize,
    id: u8,
) -> u8
    requires { (i < 32) × (k < 32) }
    ensures { Did (was plan) (was parts) write (dense_numbers i r k id (was counters)) room.old result (was counters) room.new }
{
    let position = plan_words::rows_of(counters, k);
    if 2147483648 <= position {
        return 6;
    }
    let behind = plan_words::grow(plan_words::rows_of(counters, i), r);
    room_writes::put_same(plan, parts, room, write, i, 1, behind, 1, id);
    let o = plan_words::scale(behind, 4);
    room_writes::put_number(plan, parts, room, write, i, 2, o, 4, position);
    0
}

// Whether nodes i + 1 and i + 2 may be the run ends and the values of a run-end node.
pub fn has_ends(plan: &[u64], i: usize) -> bool
    requires { i < 32 }
    ensures { result ≡ (ltb (suc (suc i)) 32 && is_width (bytes_of (was plan) (suc i))) }
{
    if 30 <= i {
        return false;
    }
    let w = lookups::width_at(plan, i + 1);
    if w == 2 {
        return true;
    }
    if w == 4 {
        return true;
    }
    w == 8
}

// Whether the run ends of w bytes of node i stand in the body.
fn ends_in(lengths: &[u64], places: &[u64], body: &[u8], first: usize, i: usize, w: u64) -> bool
    requires { (first < 2 ^ 32) × (i < 32) × (1 ≤ w) × (w ≤ 16) }
    ensures { (plan parts : List ℕ) (source : ℕ) → let j = join plan parts (was lengths) (was places) (was body) first source in result ≡ rows_in j (place j i 3) w (offset_of j i) (length_of j i) }
{
    let offset = lent_tables::offset_of(lengths, first + i);
    let n = lent_tables::length_of(lengths, first + i);
    if plan_words::FAR <= offset {
        return false;
    }
    if plan_words::FAR <= n {
        return false;
    }
    leaf_walk::rows_in(body, lent_tables::place(places, first + i, 3), w, offset, n)
}

// What is asked of a run-end node before its values are copied.
pub fn runs_ready(
    plan: &[u64],
    lengths: &[u64],
    places: &[u64],
    body: &[u8],
    counters: &[u64; plan_words::COUNTERS],
    first: usize,
    i: usize,
    n: u64,
) -> u8
    requires { (first < 2 ^ 32) × (i < 32) }
    ensures { (parts room : List ℕ) (source : ℕ) (write : Bool) → Did (was plan) parts write (runs_ready (join (was plan) parts (was lengths) (was places) (was body) first source) i n (was counters)) room result (was counters) room }
{
    if !has_ends(plan, i) {
        return 12;
    }
    let w = lookups::width_at(plan, i + 1);
    if !sum_fits(w, plan_words::rows_of(counters, i), n) {
        return 7;
    }
    if !ends_in(lengths, places, body, first, i + 1, w) {
        return 12;
    }
    0
}

// The runs of the n rows from `start` on of the run-end node i, whose ends have w bytes.
pub fn runs_at(
    lengths: &[u64],
    places: &[u64],
    body: &[u8],
    first: usize,
    i: usize,
    w: u64,
    start: LogicalRow,
    n: u64,
) -> Option<RunRange>
    requires first_bound { (first < 2 ^ 32) × (i + 2 < 32) × (start.0 + n < 2 ^ 63) }
    requires w_value { (w ≡ 2 → ⊥) → (w ≡ 4 → ⊥) → w ≡ 8 }
    requires i_in_bounds { let j = join [] [] lengths.now places.now body.now first 0 in place j (suc i) 3 + w * (offset_of j (suc i) + length_of j (suc i)) ≤ length body.now }
    ensures { (plan parts : List ℕ) (source : ℕ) (child : Walk) → result ≡ runs_at (join plan parts (was lengths) (was places) (was body) first source) child w i start.0 n }
{
    let at = lent_tables::place(places, first + i + 1, 3);
    let from = at + w * lent_tables::offset_of(lengths, first + i + 1);
    let m = lent_tables::length_of(lengths, first + i + 1);
    let stop = start.0 + n;
    lookups::runs_of(body, from as usize, m as usize, w, start, LogicalRow(stop))
}

// The ends of `count` runs from `run` on, clipped to the n rows from `start` on and put behind the row `last`.
pub fn run_numbers(
    plan: &[u64],
    parts: &[u64],
    lengths: &[u64],
    places: &[u64],
    body: &[u8],
    counters: &mut [u64; plan_words::COUNTERS],
    room: &mut [u8],
    write: bool,
    first: usize,
    i: usize,
    w: u64,
    start: LogicalRow,
    n: u64,
    last: u64,
    run: PhysicalRun,
    count: usize,
) -> u8
    requires first_bound { (first < 2 ^ 32) × (i + 2 < 32) × (start.0 + n < 2 ^ 63) × (last + n < half w) }
    requires w_value { (w ≡ 2 → ⊥) → (w ≡ 4 → ⊥) → w ≡ 8 }
    requires count_in_bounds { let j = join [] [] lengths.now places.now body.now first 0 in place j (suc i) 3 + w * (offset_of j (suc i) + (run.0 + count)) ≤ length body.now }
    ensures { (source : ℕ) → Walks plan parts write (run_numbers (lent_join plan parts lengths places body first source) w i start.0 n last run.0 count) counters room result }
{
    let at = lent_tables::place(places, first + i + 1, 3);
    let ends = at + w * lent_tables::offset_of(lengths, first + i + 1);
    let from = ends + w * (run.0 as u64);
    let stop = start.0 + n;
    let o = plan_words::scale(plan_words::rows_of(counters, i + 1), w);
    room_writes::run::put_run_ends(
        plan,
        parts,
        room,
        write,
        i + 1,
        1,
        o,
        w,
        body,
        from as usize,
        count as u64,
        start,
        LogicalRow(stop),
        last,
    );
    gaps::count_runs(counters, i, count as u64);
    0
}

// The child that a union's nulls go to: the first nullable one, or 32.
pub fn null_home(plan: &[u64], i: usize) -> usize
    requires { i < 32 }
    ensures value { result ≡ nullable_child (was plan) (end_of (was plan) i) 32 (suc i) }
    ensures upper_bound { result ≤ 32 }
{
    lookups::nullable_child(plan, plan_words::end_of(plan, i), i + 1)
}

// The ground where there is none.
pub fn no_home(plan: &[u64], i: usize) -> u8
    requires { i < 32 }
    ensures { result ≡ no_home (was plan) i }
{
    if i + 1 < plan_words::end_of(plan, i) {
        return 5;
    }
    4
}

// n ids of node h.
pub fn null_ids(
    plan: &[u64],
    parts: &[u64],
    counters: &[u64; plan_words::COUNTERS],
    room: &mut [u8],
    write: bool,
    i: usize,
    h: usize,
    n: u64,
) -> u8
    requires { (i < 32) × (h < 32) }
    ensures { Did (was plan) (was parts) write (null_ids (was plan) i h n (was counters)) room.old result (was counters) room.new }
{
    let o = plan_words::rows_of(counters, i);
    room_writes::put_same(
        plan,
        parts,
        room,
        write,
        i,
        1,
        o,
        n,
        plan_words::id_of(plan, h),
    );
    0
}

// n ids and positions of node h.
pub fn null_positions(
    plan: &[u64],
    parts: &[u64],
    counters: &[u64; plan_words::COUNTERS],
    room: &mut [u8],
    write: bool,
    i: usize,
    h: usize,
    n: u64,
) -> u8
    requires { (i < 32) × (h < 32) }
    ensures { Did (was plan) (was parts) write (null_positions (was plan) i h n (was counters)) room.old result (was counters) room.new }
{
    let position = plan_words::rows_of(counters, h);
    if 2147483648 < plan_words::grow(position, n) {
        return 6;
    }
    let r = null_ids(plan, parts, counters, room, write, i, h, n);
    if r != 0 {
        return r;
    }
    let o = plan_words::scale(plan_words::rows_of(counters, i), 4);
    room_writes::variable_size::put_counted(plan, parts, room, write, i, 2, o, n, position);
    0
}

// The end of a run of n nulls.
pub fn null_end(
    plan: &[u64],
    parts: &[u64],
    counters: &mut [u64; plan_words::COUNTERS],
    room: &mut [u8],
    write: bool,
    i: usize,
    n: u64,
) -> u8
    requires i_bound { i + 2 < 32 }
    requires i_value { (bytes_of plan.now (suc i) ≡ 2 → ⊥) → (bytes_of plan.now (suc i) ≡ 4 → ⊥) → bytes_of plan.now (suc i) ≡ 8 }
    ensures { Walks plan parts write (null_end (was plan) i n) counters room result }
{
    let w = lookups::width_at(plan, i + 1);
    let last = plan_words::rows_of(counters, i);
    if !sum_fits(w, last, n) {
        return 7;
    }
    let o = plan_words::scale(plan_words::rows_of(counters, i + 1), w);
    room_writes::put_number(plan, parts, room, write, i + 1, 1, o, w, last + n);
    gaps::count_null_run(counters, i);
    0
}

// The end of the last run, n nulls later: 12 where there is no run.
pub fn longer_end(
    plan: &[u64],
    parts: &[u64],
    counters: &[u64; plan_words::COUNTERS],
    room: &mut [u8],
    write: bool,
    i: usize,
    n: u64,
) -> u8
    requires i_bound { i + 2 < 32 }
    requires i_value { (bytes_of plan.now (suc i) ≡ 2 → ⊥) → (bytes_of plan.now (suc i) ≡ 4 → ⊥) → bytes_of plan.now (suc i) ≡ 8 }
    ensures { Did (was plan) (was parts) write (longer_end (was plan) i n (was counters)) room.old result (was counters) room.new }
{
    let runs = plan_words::rows_of(counters, i + 1);
    if runs == 0 {
        return 12;
    }
    let w = lookups::width_at(plan, i + 1);
    let last = plan_words::rows_of(counters, i);
    if !sum_fits(w, last, n) {
        return 7;
    }
    let o = plan_words::scale(runs - 1, w);
    room_writes::put_number(plan, parts, room, write, i + 1, 1, o, w, last + n);
    0
}
