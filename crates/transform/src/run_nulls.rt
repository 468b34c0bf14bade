// Nulls of run ends over numbers: one null value and one run end, tried by three tests and written where the order stands.
ghost use Rattle.std.specs.Prelude.{◌≡◌, List, [], true, cond, ℕ, ◌+◌, length, ltb};
ghost use Rattle.clauses.specs.Slices.{was, left};
ghost use Rattle.columnar.specs.Types.{half};
ghost use Rattle.schema.specs.formats.Code.{is_fixed};
ghost use Rattle.walk.specs.State.{code_of, bytes_of, rows, gap};
ghost use Rattle.walk.specs.Log.{Did};
ghost use Rattle.walk.specs.Leaves.{count_nulls};
ghost use Rattle.walk.specs.Copy.{is_width};
ghost use Rattle.walk.specs.Nulls.{null_walk};
ghost use Rattle.nested_rows.specs.Numbers.{null_end};
ghost use Rattle.leaf_walk.specs.Join.{join};
ghost use Rattle.leaf_walk.specs.Walks.{null_join, Walks};
ghost use Rattle.plan.specs.parts.Parts.{entry_size, parts_within, parts_hold};
ghost use Rattle.transform.specs.Answer.{lent, Settles};
ghost use Rattle.transform.specs.numbers.Plan.{runs_of_numbers};

use crate::{leaf_counters, leaf_nulls, numbers};
use array_data::lent_tables;
use walk::plan_words;

// What the parts say to so many run ends and values.
fn room_ground(plan: &[u64], parts: &[u64], m: usize, w: u64, ends: u64, values: u64) -> u8
    requires { (runs_of_numbers plan.now ≡ true) × (w ≡ entry_size (code_of plan.now 1)) }
    ensures { (counters : List ℕ) → rows counters 1 ≡ ends → rows counters 2 ≡ values → result ≡ cond (parts_within (was plan) (was parts) m) (cond (parts_hold (was plan) counters (was parts)) 0 13) 14 }
{
    let runs = numbers::node_ground(plan, parts, m, 1, w, ends);
    let v = numbers::number_size(plan_words::code_of(plan, 2));
    let g = numbers::node_ground(plan, parts, m, 2, v, values);
    if g < runs {
        return runs;
    }
    g
}

// ---- the writes

// One null value.
fn put_value(plan: &[u64], parts: &[u64], counters: &mut [u64], room: &mut [u8])
    requires { (length counters.old ≡ 96) × (is_fixed (code_of plan.now 2) ≡ true) }
    ensures { Walks plan parts true (null_walk (null_join plan parts) 7 2 1) counters room 0 }
{
    let w = numbers::number_size(plan_words::code_of(plan, 2));
    let o = plan_words::scale(lent_tables::at_u64(counters, 6), w);
    room_writes::put_zeros(plan, parts, room, true, 2, 1, o, w, 1);
    leaf_nulls::put_null_mask(plan, parts, counters, room, 2, 1);
    leaf_counters::add_to(counters, 6, 1);
}

// The end of a run of n nulls, which fits.
fn put_end(plan: &[u64], parts: &[u64], counters: &mut [u64], room: &mut [u8], w: u64, n: u64)
    requires counters_len { (length counters.old ≡ 96) × (w ≡ bytes_of plan.now 1) × (is_width w ≡ true) × (gap counters.old 0 ≡ 0) }
    requires w_value { ltb (rows counters.old 0 + n) (half w) ≡ true }
    ensures { Walks plan parts true (null_end (was plan) 0 n) counters room 0 }
{
    let end = lent_tables::at_u64(counters, 0) + n;
    let o = plan_words::scale(lent_tables::at_u64(counters, 3), w);
    room_writes::put_number(plan, parts, room, true, 1, 1, o, w, end);
    leaf_counters::add_to(counters, 3, 1);
    counters[2] = 0;
}

// The nulls of the first node counted, if it keeps them.
pub fn count_nulls(plan: &[u64], counters: &mut [u64], n: u64)
    requires { length counters.old ≡ 96 }
    ensures { (parts room : List ℕ) → Did (was plan) parts true (count_nulls (join (was plan) parts [] [] [] 0 0) 0 n counters.old) room 0 counters.new room }
{
    if plan_words::keeps_of(plan, 0) != 0 {
        leaf_counters::add_to(counters, 1, n);
    }
}

// ---- the order

// n nulls, at least one, where each order of nulls adds a run.
pub fn add_run_nulls(
    plan: &[u64],
    parts: &[u64],
    counters: &mut [u64],
    room: &mut [u8],
    n: u64,
) -> u8
    requires { (length counters.old ≡ 96) × (n ≡ 0 → ⊥) × (gap counters.old 0 ≡ 0) × (runs_of_numbers plan.now ≡ true) }
    ensures { (sources lengths places body : List ℕ) → Settles (lent (was plan) (was parts) sources lengths places body) (null_walk (null_join plan parts) 8 0 n) counters room result }
{
    let w = numbers::number_size(plan_words::code_of(plan, 1));
    if !nested_rows::sum_fits(w, lent_tables::at_u64(counters, 0), n) {
        return 7;
    }
    let ends = plan_words::grow(lent_tables::at_u64(counters, 3), 1);
    let values = plan_words::grow(lent_tables::at_u64(counters, 6), 1);
    let g = room_ground(plan, parts, room.len(), w, ends, values);
    if g != 0 {
        return g;
    }
    put_value(plan, parts, counters, room);
    put_end(plan, parts, counters, room, w, n);
    count_nulls(plan, counters, n);
    leaf_counters::add_to(counters, 0, n);
    0
}
