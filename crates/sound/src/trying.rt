// What a walk that only tries starts from: counters whose nulls are full, so that it reads no validity bit.
ghost use Rattle.std.specs.Prelude.{◌≡◌, ◌≤◌, length};
ghost use Rattle.sound.specs.trying.Alike.{Alike, Full};

use walk::plan_words;

// Fills the null counters of the first n nodes.
pub fn uncount(counters: &mut [u64; plan_words::COUNTERS], n: usize)
    requires { n ≤ 32 }
    ensures alike { Alike counters.new counters.old }
    ensures full { length counters.old ≡ 96 → Full n counters.new }
{
    for i in 0..n {
        counters[3 * i + 1] = u64::MAX;
    }
}
