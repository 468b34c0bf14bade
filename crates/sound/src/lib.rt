// Whether a walk stays in a plan: its nodes are trees one in the other, and those that a walk comes to have parts. Every order asks this of
// the plan that it is lent; an opening writes no other.
#![tactic(auto)]

pub mod trying;

ghost use Rattle.std.specs.Prelude.{◌≡◌, ◌&&◌, ◌≤◌, ◌<◌, leb};
ghost use Rattle.refinement.specs.orders.Sound.{nested_in, ends_sound, kind_sound, node_sound, plan_sound, walkable};

use walk::plan_words;

// Whether the nodes below node i end where it ends, or before.
fn is_nested(plan: &[u64], i: usize) -> bool
    requires { i < 32 }
    ensures { result ≡ nested_in plan.now i }
{
    let end = plan_words::end_of(plan, i);
    for k in i + 1..end {
        if end < plan_words::end_of(plan, k) {
            return false;
        }
    }
    true
}

// Whether run-end node i has run ends that are numbers, and values.
fn ends_sound(plan: &[u64], i: usize) -> bool
    requires { i < 32 }
    ensures { result ≡ ends_sound plan.now i }
{
    if plan_words::end_of(plan, i) <= i + 2 {
        return false;
    }
    if plan_words::dictionary_of(plan, i + 1) != 0 {
        return false;
    }
    schema::formats::is_fixed(plan_words::code_of(plan, i + 1))
}

// Whether what its code wants stands below node i.
fn kind_sound(plan: &[u64], i: usize) -> bool
    requires { i < 32 }
    ensures { result ≡ kind_sound plan.now i }
{
    let code = plan_words::code_of(plan, i);
    if code <= 10 {
        return true;
    }
    if plan_words::dictionary_of(plan, i) != 0 {
        return false;
    }
    if schema::formats::is_list_view(code) | schema::formats::is_list(code) {
        return i + 1 < plan_words::end_of(plan, i);
    }
    if schema::formats::is_run_end(code) {
        return ends_sound(plan, i);
    }
    true
}

// Whether node i of n stands well.
fn node_sound(plan: &[u64], n: usize, i: usize) -> bool
    requires { (i < 32) × (n ≤ 32) }
    ensures { result ≡ node_sound plan.now n i }
{
    let end = plan_words::end_of(plan, i);
    if end <= i {
        return false;
    }
    if n < end {
        return false;
    }
    if !is_nested(plan, i) {
        return false;
    }
    if !kind_sound(plan, i) {
        return false;
    }
    if n <= end {
        return true;
    }
    plan::parts::is_copied(plan, end)
}

// Whether there is a node and every node stands well.
pub fn plan_sound(plan: &[u64]) -> bool
    ensures { result ≡ plan_sound plan.now }
{
    let n = plan::parts::node_count(plan);
    if n == 0 {
        return false;
    }
    for i in 0..n {
        if !node_sound(plan, n, i) {
            return false;
        }
    }
    true
}

// Whether a room of m bytes is a body and a walk stays in the plan.
pub fn is_walkable(plan: &[u64], m: usize) -> bool
    ensures { result ≡ walkable plan.now m }
{
    if columns::CEILING < m {
        return false;
    }
    plan_sound(plan)
}
