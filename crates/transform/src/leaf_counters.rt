// The counters of an order at a leaf, where they are lent: the parts are asked with them raised, and a refusal finds them put back.
ghost use Rattle.std.specs.Prelude.{◌≡◌, cond, ◌<◌, length, get_or, set};
ghost use Rattle.clauses.specs.Slices.{was, left};
ghost use Rattle.walk.specs.State.{grown, add_rows, set_bytes};
ghost use Rattle.plan.specs.parts.Parts.{parts_within, parts_hold};

use plan::grounds;
use walk::plan_words;

// A counter n higher; it stays at the largest number.
pub fn add_to(counters: &mut [u64], k: usize, n: u64)
    requires { k < length counters.old }
    ensures { counters.new ≡ set counters.old k (grown (get_or counters.old k 0) n) }
{
    counters[k] = plan_words::grow(counters[k], n);
}

// What the parts say to n rows more at node i, and to so many bytes of data there. The counters are put back.
pub fn room_ground(
    plan: &[u64],
    parts: &[u64],
    counters: &mut [u64],
    m: usize,
    i: usize,
    n: u64,
    b: u64,
) -> u8
    requires { (length counters.old ≡ 96) × (i < 32) }
    ensures value { result ≡ cond (parts_within (was plan) (was parts) m) (cond (parts_hold (was plan) (set_bytes i b (add_rows i n counters.old)) (was parts)) 0 13) 14 }
    ensures counters_value { counters.new ≡ counters.old }
{
    let rows = counters[3 * i];
    let old = counters[3 * i + 2];
    counters[3 * i] = plan_words::grow(rows, n);
    counters[3 * i + 2] = b;
    let g = grounds::parts_ground(plan, counters, parts, m);
    counters[3 * i] = rows;
    counters[3 * i + 2] = old;
    g
}
