// Stops at byte strings: the first offset that does not fit.
ghost use Rattle.std.specs.Prelude.{◌≡◌, cond, ◌+◌, ◌*◌, ◌<◌, ◌≤◌, ◌^◌, length, leb};
ghost use Rattle.clauses.specs.Slices.{was};
ghost use Rattle.utils.specs.Extension.{extended};
ghost use Rattle.explain.specs.stops.Copy.{why_string};
ghost use Rattle.explain.specs.stop_walks.Step.{Says, AnyTables};

use crate::stop_walks::Step;
use crate::stops::Why;
use array_data::lent_tables;
use utils::Extended;
use walk::plan_words;

const OFFSET: u8 = 6;

const FOREIGN: u8 = 12;

// Whether n offsets of w bytes after the first of those at `from` fit after `last`.
fn offsets(body: &[u8], from: usize, w: u64, n: usize, last: u64) -> Extended
    requires n_in_bounds { from + w * (n + 1) ≤ length body.now }
    requires w_value { (w ≡ 4 → ⊥) → w ≡ 8 }
    ensures { result ≡ extended w (was body) from n last }
{
    if w == 4 {
        return utils::try_offsets::<u32>(body, from, n, last);
    }
    utils::try_offsets::<u64>(body, from, n, last)
}

// 0 where n bytes from the byte `lead` of the data at `at` on lie in the body, and else 12.
fn bytes_ground(body: &[u8], at: u64, lead: u64, n: u64) -> u8
    ensures { result ≡ cond (leb (at + lead + n) (length (was body))) 0 12 }
{
    if lent_tables::fits_behind(at, lead, n, body.len() as u64) {
        return 0;
    }
    FOREIGN
}

// A byte string with offsets of w bytes: its first offset that does not fit.
pub fn step_string(
    plan: &[u64],
    places: &[u64],
    body: &[u8],
    counters: &[u64; plan_words::COUNTERS],
    first: usize,
    i: usize,
    w: u64,
    slot: u64,
    n: u64,
) -> Step
    requires first_bound { (first < 2 ^ 32) × (i < 32) × (slot + n < 2 ^ 63) }
    requires w_value { (w ≡ 4 → ⊥) → w ≡ 8 }
    ensures { AnyTables plan places body first (λ j depth. Says j depth (λ c y. why_string j c y w i slot n) (was counters) result (was counters)) }
{
    if n == 0 {
        return Step::On;
    }
    let at = lent_tables::place(places, first + i, 3);
    if !leaf_walk::rows_in(body, at, w, slot, n + 1) {
        return Step::Here(crate::stop_walks::plain(FOREIGN));
    }
    let from = at + w * slot;
    let old = plan_words::bytes_of(counters, i);
    match offsets(body, from as usize, w, n as usize, old) {
        Extended::Fits { last, first: lead } => {
            let data = lent_tables::place(places, first + i, 5);
            Step::Here(crate::stop_walks::plain(bytes_ground(body, data, lead, last - old)))
        }
        Extended::Over { row, needed } => Step::Here(Why {
            refusal: OFFSET,
            node: i,
            row: row as u64,
            needed,
            allowed: crate::stop_walks::largest(w),
        }),
        Extended::Falls => Step::Here(crate::stop_walks::plain(FOREIGN)),
    }
}
