// The counters of an order that is tried and then made: between the two, and back to where they are lent, those of the plan's nodes alone are copied,
// since a walk leaves all others as they were.
ghost use Rattle.std.specs.Prelude.{◌≡◌, ◌≤◌, length};
ghost use Rattle.clauses.specs.Slices.{was, left};
ghost use Rattle.sound.specs.trying.Alike.{Alike};
ghost use Rattle.transform.specs.tried_counters.Beyond.{Beyond};

use walk::plan_words;

// The counters with the nulls of the first n nodes full: what a copy is tried on, so that it reads no validity bit.
pub fn uncounted(tally: &mut [u64; plan_words::COUNTERS], counters: &[u64], n: usize)
    requires { (length counters.now ≡ 96) × (n ≤ 32) }
    ensures alike { Alike tally.new (was counters) }
    ensures beyond { Beyond n tally.new (was counters) }
{
    reload(tally, counters, 32);
    for i in 0..n {
        tally[3 * i + 1] = u64::MAX;
    }
}

// The counters of the first n nodes as they are lent, in an array that has the others.
pub fn reload(tally: &mut [u64; plan_words::COUNTERS], counters: &[u64], n: usize)
    requires { (length counters.now ≡ 96) × (n ≤ 32) × Beyond n tally.old counters.now }
    ensures { tally.new ≡ was counters }
{
    tally[..3 * n].copy_from_slice(&counters[..3 * n]);
}

// The counters of the first n nodes as the array has them, where the others are those that are lent.
pub fn keep(counters: &mut [u64], tally: &[u64; plan_words::COUNTERS], n: usize)
    requires { (length counters.old ≡ 96) × (n ≤ 32) × Beyond n counters.old tally.now }
    ensures { counters.new ≡ was tally }
{
    counters[..3 * n].copy_from_slice(&tally[..3 * n]);
}
