// The gap of a run-end node, its third counter, and the counts of its ends.
ghost use Rattle.std.specs.Prelude.{◌≡◌, cond, suc, ◌+◌, ◌<◌, min, eqb};
ghost use Rattle.clauses.specs.Slices.{was, left};
ghost use Rattle.walk.specs.State.{add_rows, end_gap, begin_gap};

use walk::plan_words;

// The gap behind a copy.
fn gap_ended(gap: u64) -> u64
    ensures { result ≡ min gap 1 }
{
    if 1 < gap {
        return 1;
    }
    gap
}

// The gap behind an order of nulls.
fn gap_begun(gap: u64) -> u64
    ensures { result ≡ cond (eqb gap 0) 0 2 }
{
    if gap == 0 {
        return 0;
    }
    2
}

// n ends more of the run-end node i, of a copy.
pub fn count_runs(counters: &mut [u64; plan_words::COUNTERS], i: usize, n: u64)
    requires { i + 2 < 32 }
    ensures { counters.new ≡ end_gap i (add_rows (suc i) n counters.old) }
{
    plan_words::add_rows(counters, i + 1, n);
    let gap = plan_words::bytes_of(counters, i);
    plan_words::set_bytes(counters, i, gap_ended(gap))
}

// One end more, of an order of nulls.
pub fn count_null_run(counters: &mut [u64; plan_words::COUNTERS], i: usize)
    requires { i + 2 < 32 }
    ensures { counters.new ≡ begin_gap i (add_rows (suc i) 1 counters.old) }
{
    plan_words::add_rows(counters, i + 1, 1);
    let gap = plan_words::bytes_of(counters, i);
    plan_words::set_bytes(counters, i, gap_begun(gap))
}
