// Stops at run-end nodes: a run end that does not fit, or the values of the runs.
ghost use Rattle.std.specs.Prelude.{◌+◌, ◌<◌, ◌^◌};
ghost use Rattle.clauses.specs.Slices.{was};
ghost use Rattle.explain.specs.stops.Copy.{why_runs};
ghost use Rattle.explain.specs.stop_walks.Step.{Says, AnyParts};

use crate::stop_walks::Step;
use crate::stops::Why;
use nested_rows::lookups;
use run_ends::LogicalRow;
use walk::plan_words;

const RUN_END: u8 = 7;

// A run-end node: the last run end with its rows, or the runs of its values.
pub fn step_run(
    plan: &[u64],
    lengths: &[u64],
    places: &[u64],
    body: &[u8],
    counters: &[u64; plan_words::COUNTERS],
    first: usize,
    i: usize,
    slot: u64,
    n: u64,
) -> Step
    requires { (first < 2 ^ 32) × (i < 32) × (slot + n < 2 ^ 63) }
    ensures { AnyParts plan lengths places body first (λ j depth. Says j depth (λ c y. why_runs j c y i slot n) (was counters) result (was counters)) }
{
    if n == 0 {
        return Step::On;
    }
    let g = nested_rows::runs_ready(plan, lengths, places, body, counters, first, i, n);
    if g == RUN_END {
        return Step::Here(Why {
            refusal: g,
            node: i,
            row: 0,
            needed: plan_words::grow(plan_words::rows_of(counters, i), n),
            allowed: crate::stop_walks::largest(lookups::width_at(plan, i + 1)),
        });
    }
    if g != 0 {
        return Step::Here(crate::stop_walks::plain(g));
    }
    let w = lookups::width_at(plan, i + 1);
    match nested_rows::runs_at(lengths, places, body, first, i, w, LogicalRow(slot), n) {
        Some(runs) => Step::Below {
            node: i + 2,
            row: runs.first.0 as u64,
            rows: runs.count as u64,
        },
        None => Step::Here(crate::stop_walks::plain(12)),
    }
}
