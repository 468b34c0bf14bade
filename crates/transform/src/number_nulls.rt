// Nulls of a type whose first node is of numbers or keys and has all parts: the parts are asked of that node alone, and its zeros written where the order stands.
ghost use Rattle.std.specs.Prelude.{◌≡◌, List, [], true, ℕ, ◌+◌, ◌*◌, ◌≤◌, length};
ghost use Rattle.clauses.specs.Slices.{was, left};
ghost use Rattle.schema.specs.formats.Code.{is_fixed};
ghost use Rattle.walk.specs.State.{code_of, rows};
ghost use Rattle.walk.specs.Log.{Did, start_of};
ghost use Rattle.walk.specs.Nulls.{NullWalk, null_data, null_walk};
ghost use Rattle.leaf_walk.specs.Walks.{null_join};
ghost use Rattle.plan.specs.parts.Parts.{entry_size};
ghost use Rattle.transform.specs.Answer.{lent, Settles};
ghost use Rattle.transform.specs.numbers.Plan.{first_of_numbers};

use crate::{leaf_counters, leaf_nulls, numbers};
use array_data::lent_tables;
use walk::plan_words;

// The zeros of n nulls, where they lie in the room.
fn put_zeros(plan: &[u64], parts: &[u64], counters: &[u64], room: &mut [u8], w: u64, n: u64)
    requires { (is_fixed (code_of plan.now 0) ≡ true) × (w ≡ entry_size (code_of plan.now 0)) × (start_of plan.now parts.now 0 1 + rows counters.now 0 * w + w * n ≤ length room.old) }
    ensures { (child : NullWalk) → Did (was plan) (was parts) true (null_data (null_join plan parts) child (code_of (was plan) 0) 0 n (was counters)) room.old 0 (was counters) room.new }
{
    let start = lent_tables::at_u64(parts, 2 * plan_words::part_of(plan, 0));
    let o = plan_words::scale(lent_tables::at_u64(counters, 0), w);
    number::copy::fill_zeros(room, (start + o) as usize, (n * w) as usize);
}

// n nulls, at least one.
pub fn add_number_nulls(
    plan: &[u64],
    parts: &[u64],
    counters: &mut [u64],
    room: &mut [u8],
    n: u64,
) -> u8
    requires { (length counters.old ≡ 96) × (n ≡ 0 → ⊥) × (first_of_numbers plan.now ≡ true) }
    ensures { (sources lengths places body : List ℕ) → Settles (lent (was plan) (was parts) sources lengths places body) (null_walk (null_join plan parts) 8 0 n) counters room result }
{
    let w = numbers::number_size(plan_words::code_of(plan, 0));
    let r = plan_words::grow(lent_tables::at_u64(counters, 0), n);
    let g = numbers::room_ground(plan, parts, room.len(), w, r);
    if g != 0 {
        return g;
    }
    put_zeros(plan, parts, counters, room, w, n);
    leaf_nulls::put_null_mask(plan, parts, counters, room, 0, n);
    leaf_counters::add_to(counters, 0, n);
    0
}
