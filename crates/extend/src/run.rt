// Run-end nodes: copies and nulls.
// Follows arrow-data 60.1.0 src/transform/run.rs, Apache-2.0; see NOTICE.
ghost use Rattle.std.specs.Prelude.{[], ◌+◌, ◌<◌, ◌^◌};
ghost use Rattle.walk.specs.Copy.{copy_walk, copy_runs};
ghost use Rattle.walk.specs.Nulls.{null_runs, null_walk};
ghost use Rattle.leaf_walk.specs.Walks.{lent_join, null_join, Walks};

use nested_rows::lookups;
use run_ends::LogicalRow;
use walk::plan_words;

// A run-end node: the values of the runs of the rows, then the runs' ends.
#[cycle(extend)]
pub fn extend_run(
    plan: &[u64],
    parts: &[u64],
    lengths: &[u64],
    places: &[u64],
    body: &[u8],
    counters: &mut [u64; plan_words::COUNTERS],
    room: &mut [u8],
    write: bool,
    source: usize,
    first: usize,
    i: usize,
    slot: u64,
    n: u64,
    depth: u32,
) -> u8
    requires { (first < 2 ^ 32) × (source < 2 ^ 32) × (i < 32) × (slot + n < 2 ^ 63) }
    ensures { let j = lent_join plan parts lengths places body first source in Walks plan parts write (copy_runs j (copy_walk j depth) i slot n) counters room result }
{
    if n == 0 {
        return 0;
    }
    let g = nested_rows::runs_ready(plan, lengths, places, body, counters, first, i, n);
    if g != 0 {
        return g;
    }
    let w = lookups::width_at(plan, i + 1);
    let last = plan_words::rows_of(counters, i);
    let start = LogicalRow(slot);
    match nested_rows::runs_at(lengths, places, body, first, i, w, start, n) {
        Some(runs) => {
            let g = crate::extend(
                plan,
                parts,
                lengths,
                places,
                body,
                counters,
                room,
                write,
                source,
                first,
                i + 2,
                runs.first.0 as u64,
                runs.count as u64,
                depth,
            );
            if g != 0 {
                return g;
            }
            nested_rows::run_numbers(
                plan, parts, lengths, places, body, counters, room, write, first, i, w, start, n,
                last, runs.first, runs.count,
            )
        }
        None => 12,
    }
}

// A run-end node: where its last run is one of null orders alone, it grows by n rows; else one null value, and one run of n rows.
#[cycle(extend_nulls)]
pub fn extend_nulls_run(
    plan: &[u64],
    parts: &[u64],
    counters: &mut [u64; plan_words::COUNTERS],
    room: &mut [u8],
    write: bool,
    i: usize,
    n: u64,
    depth: u32,
) -> u8
    requires { i < 32 }
    ensures { Walks plan parts write (null_runs (null_join plan parts) (null_walk (null_join plan parts) depth) i n) counters room result }
{
    if !nested_rows::has_ends(plan, i) {
        return 12;
    }
    if plan_words::bytes_of(counters, i) == 2 {
        return nested_rows::longer_end(plan, parts, counters, room, write, i, n);
    }
    let g = crate::extend_nulls(plan, parts, counters, room, write, i + 2, 1, depth);
    if g != 0 {
        return g;
    }
    nested_rows::null_end(plan, parts, counters, room, write, i, n)
}
