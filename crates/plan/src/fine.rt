// Whether every part lies in the room and holds its bytes, as most orders find: a part that does not is told apart in `grounds`.
ghost use Rattle.std.specs.Prelude.{◌≡◌, true, ◌&&◌, ◌+◌, ◌*◌, ◌<◌, ◌≤◌, length, ltb};
ghost use Rattle.clauses.specs.Slices.{was};
ghost use Rattle.columnar.specs.Test.{every};
ghost use Rattle.walk.specs.State.{code_of};
ghost use Rattle.plan.specs.parts.Parts.{buffer_count, copied, in_room, part_within, part_holds, parts_within, parts_hold};
ghost use Rattle.plan.specs.grounds.Verdict.{verdict};

use array_data::lent_tables;
use walk::plan_words;

// Whether part p is in the table and in the room, and holds its bytes.
fn part_fine(parts: &[u64], m: usize, p: usize, holds: bool) -> bool
    requires { p < 4294967298 }
    ensures { result ≡ true → 0 ≡ verdict (ltb (2 * p + 1) (length (was parts)) && in_room (was parts) m p) holds }
{
    if parts.len() <= 2 * p + 1 {
        return false;
    }
    if !holds {
        return false;
    }
    crate::placed::in_room(parts, m, p)
}

// The validity of node i.
fn bits_fine(plan: &[u64], counters: &[u64], parts: &[u64], m: usize, i: usize) -> bool
    requires { (i < 32) × (copied plan.now i ≡ true) }
    ensures { result ≡ true → 0 ≡ verdict (part_within (was plan) (was parts) m i 0) (part_holds (was plan) (was counters) (was parts) i 0) }
{
    if plan_words::keeps_of(plan, i) == 0 {
        return true;
    }
    if 21 <= plan_words::code_of(plan, i) {
        return true;
    }
    let p = crate::parts::number_of(plan, i, 0);
    let size = lent_tables::at_u64(parts, 2 * p + 1);
    let r = lent_tables::at_u64(counters, 3 * i);
    part_fine(parts, m, p, crate::parts::bits_fit(r, size))
}

// The first buffer of node i, whose code has one.
fn first_fine(plan: &[u64], counters: &[u64], parts: &[u64], m: usize, i: usize, code: u8) -> bool
    requires { (i < 32) × (copied plan.now i ≡ true) × (code ≡ code_of plan.now i) × (1 ≤ buffer_count (code_of plan.now i)) }
    ensures { result ≡ true → 0 ≡ verdict (part_within (was plan) (was parts) m i 1) (part_holds (was plan) (was counters) (was parts) i 1) }
{
    let p = crate::parts::number_of(plan, i, 1);
    let size = lent_tables::at_u64(parts, 2 * p + 1);
    let r = lent_tables::at_u64(counters, 3 * i);
    let n = lent_tables::at_u64(counters, 3 * i + 2);
    part_fine(parts, m, p, crate::parts::first_fits(code, r, n, size))
}

// The second buffer of node i, whose code has two.
fn second_fine(plan: &[u64], counters: &[u64], parts: &[u64], m: usize, i: usize, code: u8) -> bool
    requires { (i < 32) × (copied plan.now i ≡ true) × (code ≡ code_of plan.now i) × (2 ≤ buffer_count (code_of plan.now i)) }
    ensures { result ≡ true → 0 ≡ verdict (part_within (was plan) (was parts) m i 2) (part_holds (was plan) (was counters) (was parts) i 2) }
{
    let p = crate::parts::number_of(plan, i, 2);
    let size = lent_tables::at_u64(parts, 2 * p + 1);
    let r = lent_tables::at_u64(counters, 3 * i);
    let n = lent_tables::at_u64(counters, 3 * i + 2);
    part_fine(parts, m, p, crate::parts::second_fits(code, r, n, size))
}

// All parts of node i.
fn node_fine(plan: &[u64], counters: &[u64], parts: &[u64], m: usize, i: usize) -> bool
    requires { i < 32 }
    ensures { result ≡ true → 0 ≡ verdict (every (λ b. part_within (was plan) (was parts) m i b) 3) (every (λ b. part_holds (was plan) (was counters) (was parts) i b) 3) }
{
    if !crate::parts::is_copied(plan, i) {
        return true;
    }
    if !bits_fine(plan, counters, parts, m, i) {
        return false;
    }
    let code = plan_words::code_of(plan, i);
    let k = crate::parts::buffer_count(code);
    if k == 0 {
        return true;
    }
    if !first_fine(plan, counters, parts, m, i, code) {
        return false;
    }
    if k == 1 {
        return true;
    }
    second_fine(plan, counters, parts, m, i, code)
}

// All parts.
pub fn all_fine(plan: &[u64], counters: &[u64], parts: &[u64], m: usize) -> bool
    ensures { result ≡ true → 0 ≡ verdict (parts_within (was plan) (was parts) m) (parts_hold (was plan) (was counters) (was parts)) }
{
    let n = crate::parts::node_count(plan);
    for i in 0..n {
        if !node_fine(plan, counters, parts, m, i) {
            return false;
        }
    }
    true
}
