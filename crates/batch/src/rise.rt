// Whether the parts stand in the room in the order of the nodes and their buffers.
ghost use Rattle.std.specs.Prelude.{◌≡◌, ◌<◌, ltb};
ghost use Rattle.clauses.specs.Slices.{was};
ghost use Rattle.plan.specs.parts.Parts.{nodes_of};
ghost use Rattle.walk.specs.State.{top};
ghost use Rattle.batch.specs.batch_walk.Ends.{end_behind, end_from};

use array_data::lent_tables;
use walk::plan_words;

// Where the part of buffer b of node i ends, if it has one; the largest number if it starts before the byte `end`.
fn end_behind(plan: &[u64], parts: &[u64], i: usize, b: usize, end: u64) -> u64
    requires { (i < 32) × (b < 3) }
    ensures { result ≡ end_behind (was plan) (was parts) i b end }
{
    if !plan::parts::has_part(plan, i, b) {
        return end;
    }
    let p = plan::parts::number_of(plan, i, b);
    let start = lent_tables::at_u64(parts, 2 * p);
    if start < end {
        return u64::MAX;
    }
    plan_words::grow(start, lent_tables::at_u64(parts, 2 * p + 1))
}

// Whether each part starts at or behind the end of the one before, and the last ends below the largest number.
pub fn parts_rise(plan: &[u64], parts: &[u64]) -> bool
    ensures { result ≡ ltb (end_from (was plan) (was parts) (nodes_of (was plan)) 0 0) top }
{
    let n = plan::parts::node_count(plan);
    let mut end: u64 = 0;
    for i in 0..n {
        let validity = end_behind(plan, parts, i, 0, end);
        let first = end_behind(plan, parts, i, 1, validity);
        end = end_behind(plan, parts, i, 2, first);
    }
    end < u64::MAX
}
