// Copies by stretches (`batch::batch_walk`): a type that they are written for, in parts that rise. What they do not answer, the walk of a copy does.
ghost use Rattle.std.specs.Prelude.{◌≡◌, ◌<◌, ◌^◌, length};
ghost use Rattle.clauses.specs.Slices.{was, left};
ghost use Rattle.transform.specs.Answer.{CopiesAny};

use batch::rise;
use plan::grounds;

// The order is not answered, and nothing is changed: no ground has this number.
pub const UNTOLD: u8 = 255;

// The rows start .. start + n - 1 of a source, whose first node is `first`; or UNTOLD.
pub fn copy_stretches(
    plan: &[u64],
    parts: &[u64],
    lengths: &[u64],
    places: &[u64],
    body: &[u8],
    counters: &mut [u64],
    room: &mut [u8],
    first: usize,
    start: u64,
    n: u64,
) -> u8
    requires { (length counters.old ≡ 96) × (first < 2 ^ 32) }
    ensures counters_value { result ≡ 255 → (counters.new ≡ counters.old) × (room.new ≡ room.old) }
    ensures copies_any { (result ≡ 255 → ⊥) → CopiesAny plan parts lengths places body first start n counters room result }
{
    if !batch::batch_walk::is_stretched(plan) {
        return UNTOLD;
    }
    if !rise::parts_rise(plan, parts) {
        return UNTOLD;
    }
    let mut tried = crate::load(counters);
    let g = batch::batch_walk::copy_by_stretches(
        plan, parts, lengths, places, body, &mut tried, room, false, first, start, n,
    );
    if g != 0 {
        return UNTOLD;
    }
    let asked = crate::copied(tried);
    let g = grounds::parts_ground(plan, &asked, parts, room.len());
    if g != 0 {
        return g;
    }
    let mut tally = crate::load(counters);
    let g = batch::batch_walk::copy_by_stretches(
        plan, parts, lengths, places, body, &mut tally, room, true, first, start, n,
    );
    crate::store(counters, &tally);
    g
}
