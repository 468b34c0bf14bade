// Nulls of a list of numbers: the last offset again, tried by the parts alone and written where the order stands.
ghost use Rattle.std.specs.Prelude.{◌≡◌, List, true, ℕ, length};
ghost use Rattle.clauses.specs.Slices.{was, left};
ghost use Rattle.walk.specs.Nulls.{null_walk};
ghost use Rattle.leaf_walk.specs.Walks.{null_join};
ghost use Rattle.transform.specs.Answer.{lent, Settles};
ghost use Rattle.transform.specs.numbers.Plan.{list_of_numbers};

use crate::{leaf_counters, leaf_nulls, list_rows};
use array_data::lent_tables;
use nested_rows::lookups;
use walk::plan_words;

// n nulls, at least one.
pub fn add_list_nulls(
    plan: &[u64],
    parts: &[u64],
    counters: &mut [u64],
    room: &mut [u8],
    n: u64,
) -> u8
    requires { (length counters.old ≡ 96) × (n ≡ 0 → ⊥) × (list_of_numbers plan.now ≡ true) }
    ensures { (sources lengths places body : List ℕ) → Settles (lent (was plan) (was parts) sources lengths places body) (null_walk (null_join plan parts) 8 0 n) counters room result }
{
    let p = lent_tables::at_u64(counters, 0);
    let last = lent_tables::at_u64(counters, 3);
    let g = list_rows::room_ground(plan, parts, room.len(), plan_words::grow(p, n), last);
    if g != 0 {
        return g;
    }
    let w = lookups::width_at(plan, 0);
    let o = plan_words::scale(plan_words::grow(p, 1), w);
    room_writes::variable_size::put_repeated(plan, parts, room, true, 0, 1, o, w, n, last);
    leaf_nulls::put_null_mask(plan, parts, counters, room, 0, n);
    leaf_counters::add_to(counters, 0, n);
    0
}
