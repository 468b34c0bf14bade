// The walk of the converter between widths: its definitions and laws, and where the nodes of its result come from.
#![tactic(auto)]

pub mod target_rules;
pub mod width_writes;

ghost use Rattle.std.specs.Prelude.{◌≡◌, cond, suc, ◌<◌, ◌≤◌, ◌^◌};
ghost use Rattle.clauses.specs.Slices.{was, left};
ghost use Rattle.width_walks.specs.target_rules.Target.{ends_at};
ghost use Rattle.width_walks.specs.Call.{from_words};

// One more than the number of node i, or 0 where it is run ends.
fn from_word(formats: &[u8], schema: &[u32], first: usize, i: usize) -> u64
    requires { (i < 32) × (first < 2 ^ 32) }
    ensures { result ≡ cond (ends_at (was formats) (was schema) first i) 0 (suc i) }
{
    if crate::target_rules::is_ends_at(formats, schema, first, i) {
        return 0;
    }
    (i + 1) as u64
}

// For each of the n nodes of a result one more than the number of the column's node that it comes from; 0 for run ends, which keep no nulls.
pub fn write_from(formats: &[u8], schema: &[u32], first: usize, n: usize, from: &mut [u64; 32])
    requires { (n ≤ 32) × (first < 2 ^ 32) }
    ensures { from.new ≡ from_words (was formats) (was schema) first n from.old }
{
    for i in 0..n {
        from[i] = from_word(formats, schema, first, i);
    }
}
