// Grounds 14 and 13 of an order in one pass over the nodes: each node's code and counters are read once for all its parts.
ghost use Rattle.std.specs.Prelude.{◌≡◌, true, cond, ◌&&◌, ◌+◌, ◌*◌, ◌<◌, length, ltb};
ghost use Rattle.clauses.specs.Slices.{was};
ghost use Rattle.columnar.specs.Test.{every};
ghost use Rattle.plan.specs.parts.Parts.{copied, in_room, part_within, part_holds, parts_within, parts_hold};
ghost use Rattle.plan.specs.grounds.Verdict.{worse_of, verdict};

use array_data::lent_tables;
use walk::plan_words;

// The worse of two grounds: 14, 13 or 0.
fn worse(a: u8, b: u8) -> u8
    ensures { result ≡ worse_of a b }
{
    a.max(b)
}

// 14 where part p is not in the table or not in the room, and else 13 where it does not hold its bytes.
fn part_ground(parts: &[u64], m: usize, p: usize, holds: bool) -> u8
    requires { p < 4294967298 }
    ensures { result ≡ verdict (ltb (2 * p + 1) (length (was parts)) && in_room (was parts) m p) holds }
{
    if parts.len() <= 2 * p + 1 {
        return 14;
    }
    if !crate::placed::in_room(parts, m, p) {
        return 14;
    }
    if holds {
        return 0;
    }
    13
}

// The validity of node i.
fn validity_ground(plan: &[u64], counters: &[u64], parts: &[u64], m: usize, i: usize) -> u8
    requires { (i < 32) × (copied plan.now i ≡ true) }
    ensures { result ≡ verdict (part_within (was plan) (was parts) m i 0) (part_holds (was plan) (was counters) (was parts) i 0) }
{
    if plan_words::keeps_of(plan, i) == 0 {
        return 0;
    }
    if 21 <= plan_words::code_of(plan, i) {
        return 0;
    }
    let p = crate::parts::number_of(plan, i, 0);
    let size = lent_tables::at_u64(parts, 2 * p + 1);
    let r = lent_tables::at_u64(counters, 3 * i);
    part_ground(parts, m, p, crate::parts::bits_fit(r, size))
}

// The first buffer of node i.
fn first_ground(plan: &[u64], counters: &[u64], parts: &[u64], m: usize, i: usize) -> u8
    requires { (i < 32) × (copied plan.now i ≡ true) }
    ensures { result ≡ verdict (part_within (was plan) (was parts) m i 1) (part_holds (was plan) (was counters) (was parts) i 1) }
{
    let code = plan_words::code_of(plan, i);
    if crate::parts::buffer_count(code) < 1 {
        return 0;
    }
    let p = crate::parts::number_of(plan, i, 1);
    let size = lent_tables::at_u64(parts, 2 * p + 1);
    let r = lent_tables::at_u64(counters, 3 * i);
    let n = lent_tables::at_u64(counters, 3 * i + 2);
    part_ground(parts, m, p, crate::parts::first_fits(code, r, n, size))
}

// The second buffer of node i.
fn second_ground(plan: &[u64], counters: &[u64], parts: &[u64], m: usize, i: usize) -> u8
    requires { (i < 32) × (copied plan.now i ≡ true) }
    ensures { result ≡ verdict (part_within (was plan) (was parts) m i 2) (part_holds (was plan) (was counters) (was parts) i 2) }
{
    let code = plan_words::code_of(plan, i);
    if crate::parts::buffer_count(code) < 2 {
        return 0;
    }
    let p = crate::parts::number_of(plan, i, 2);
    let size = lent_tables::at_u64(parts, 2 * p + 1);
    let r = lent_tables::at_u64(counters, 3 * i);
    let n = lent_tables::at_u64(counters, 3 * i + 2);
    part_ground(parts, m, p, crate::parts::second_fits(code, r, n, size))
}

// All parts of node i.
fn node_ground(plan: &[u64], counters: &[u64], parts: &[u64], m: usize, i: usize) -> u8
    requires { i < 32 }
    ensures { result ≡ verdict (every (λ b. part_within (was plan) (was parts) m i b) 3) (every (λ b. part_holds (was plan) (was counters) (was parts) i b) 3) }
{
    if !crate::parts::is_copied(plan, i) {
        return 0;
    }
    let validity = validity_ground(plan, counters, parts, m, i);
    let first = first_ground(plan, counters, parts, m, i);
    let second = second_ground(plan, counters, parts, m, i);
    worse(worse(validity, first), second)
}

// 14 where a part is not in the table or does not lie in a room of m bytes, and else 13 where one cannot hold its bytes.
pub fn parts_ground(plan: &[u64], counters: &[u64], parts: &[u64], m: usize) -> u8
    ensures { result ≡ cond (parts_within (was plan) (was parts) m) (cond (parts_hold (was plan) (was counters) (was parts)) 0 13) 14 }
{
    if crate::fine::all_fine(plan, counters, parts, m) {
        return 0;
    }
    let n = crate::parts::node_count(plan);
    let mut g: u8 = 0;
    for i in 0..n {
        g = worse(g, node_ground(plan, counters, parts, m, i));
    }
    g
}
