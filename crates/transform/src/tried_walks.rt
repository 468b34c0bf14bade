// Orders that are tried first, on a copy of the counters, and made where no ground is found.
ghost use Rattle.std.specs.Prelude.{◌≡◌, List, true, ℕ, ◌<◌, ◌^◌, length};
ghost use Rattle.clauses.specs.Slices.{was};
ghost use Rattle.walk.specs.Nulls.{null_walk};
ghost use Rattle.leaf_walk.specs.Walks.{null_join};
ghost use Rattle.refinement.specs.orders.Sound.{walkable};
ghost use Rattle.transform.specs.Answer.{lent, Settles, Copies};

use crate::tried_counters;
use plan::grounds;
use walk::plan_words;

// The rows start .. start + n - 1 of a source, whose first node is `first`.
pub fn copy_rows(
    plan: &[u64],
    parts: &[u64],
    lengths: &[u64],
    places: &[u64],
    body: &[u8],
    counters: &mut [u64],
    room: &mut [u8],
    source: usize,
    first: usize,
    start: u64,
    n: u64,
) -> u8
    requires { (length counters.old ≡ 96) × (first < 2 ^ 32) × (source < 2 ^ 32) × (walkable plan.now (length room.old) ≡ true) }
    ensures { Copies plan parts lengths places body first source start n counters room result }
{
    let nodes = plan::parts::node_count(plan);
    let mut tally = [0u64; plan_words::COUNTERS];
    tried_counters::uncounted(&mut tally, counters, nodes);
    let g = extend::extend(
        plan, parts, lengths, places, body, &mut tally, room, false, source, first, 0, start, n, 8,
    );
    if g != 0 {
        return g;
    }
    let g = grounds::parts_ground(plan, &tally, parts, room.len());
    if g != 0 {
        return g;
    }
    tried_counters::reload(&mut tally, counters, nodes);
    let g = extend::extend(
        plan, parts, lengths, places, body, &mut tally, room, true, source, first, 0, start, n, 8,
    );
    tried_counters::keep(counters, &tally, nodes);
    g
}

// n nulls.
pub fn add_nulls(plan: &[u64], parts: &[u64], counters: &mut [u64], room: &mut [u8], n: u64) -> u8
    requires { (length counters.old ≡ 96) × (walkable plan.now (length room.old) ≡ true) }
    ensures { (sources lengths places body : List ℕ) → Settles (lent (was plan) (was parts) sources lengths places body) (null_walk (null_join plan parts) 8 0 n) counters room result }
{
    let mut tally = crate::load(counters);
    let g = extend::extend_nulls(plan, parts, &mut tally, room, false, 0, n, 8);
    if g != 0 {
        return g;
    }
    let g = grounds::parts_ground(plan, &tally, parts, room.len());
    if g != 0 {
        return g;
    }
    let nodes = plan::parts::node_count(plan);
    tried_counters::reload(&mut tally, counters, nodes);
    let g = extend::extend_nulls(plan, parts, &mut tally, room, true, 0, n, 8);
    tried_counters::keep(counters, &tally, nodes);
    g
}
