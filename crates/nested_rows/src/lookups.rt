// What a walk looks up on its way: slots, entries, the children of a union, and the runs of a range.
ghost use Rattle.std.specs.Prelude.{◌≡◌, List, ℕ, ◌+◌, ◌*◌, ◌^◌, ◌<◌, ◌≤◌, length};
ghost use Rattle.clauses.specs.Slices.{was};
ghost use Rattle.number.specs.Number.{entry};
ghost use Rattle.run_ends.specs.Lookup.{found_run, runs_of};
ghost use Rattle.walk.specs.State.{slot_of, bytes_of};
ghost use Rattle.walk.specs.Copy.{child_with};
ghost use Rattle.walk.specs.Nulls.{nullable_child};
ghost use Rattle.leaf_walk.specs.Join.{join};

use array_data::lent_tables;
use number::Unsigned;
use run_ends::{LogicalRow, RunRange};
use walk::plan_words;

// The first slot of the rows a .. a + n - 1 of node i, or 2^63 where they are not rows of any array.
pub fn slot_of(lengths: &[u64], first: usize, i: usize, a: u64, n: u64) -> u64
    requires { (first < 2 ^ 32) × (i < 32) }
    ensures { (plan parts places body : List ℕ) (source : ℕ) → result ≡ slot_of (join plan parts (was lengths) places body first source) i a n }
{
    let offset = lent_tables::offset_of(lengths, first + i);
    let end = plan_words::grow(plan_words::grow(offset, a), n);
    if plan_words::FAR <= end {
        return plan_words::FAR;
    }
    offset + a
}

// The bytes of an entry of node i.
pub fn width_at(plan: &[u64], i: usize) -> u64
    requires { i < 32 }
    ensures { result ≡ bytes_of (was plan) i }
{
    schema::formats::width_of(plan_words::code_of(plan, i)) as u64
}

// Entry k of those of w bytes at `at`.
pub fn entry_at(body: &[u8], at: u64, w: u64, k: u64) -> u64
    requires w_value { (w ≡ 4 → ⊥) → w ≡ 8 }
    requires k_in_bounds { at + w * (k + 1) ≤ length body.now }
    ensures { result ≡ entry w (was body) at k }
{
    let from = at as usize;
    if w == 4 {
        return u32::read(body, from + 4 * (k as usize)).to_u64();
    }
    u64::read(body, from + 8 * (k as usize))
}

// The child with that id among those from node `from` on, one behind the other up to `end`; 32 where there is none.
pub fn child_with(plan: &[u64], id: u8, end: usize, from: usize) -> usize
    requires { end ≤ 32 }
    ensures value { result ≡ child_with (was plan) id end 32 from }
    ensures upper_bound { result ≤ 32 }
{
    let mut k = from;
    for _t in 0..32usize {
        if end <= k {
            return 32;
        }
        if plan_words::id_of(plan, k) == id {
            return k;
        }
        k = plan_words::end_of(plan, k);
    }
    32
}

// The first nullable child among those from node `from` on; 32 where there is none.
pub fn nullable_child(plan: &[u64], end: usize, from: usize) -> usize
    requires { end ≤ 32 }
    ensures value { result ≡ nullable_child (was plan) end 32 from }
    ensures upper_bound { result ≤ 32 }
{
    let mut k = from;
    for _t in 0..32usize {
        if end <= k {
            return 32;
        }
        if plan_words::nullable_of(plan, k) == 1 {
            return k;
        }
        k = plan_words::end_of(plan, k);
    }
    32
}

// The runs of the rows start .. end - 1 among the n whose ends of w bytes stand from `from` on.
pub fn runs_of(
    body: &[u8],
    from: usize,
    n: usize,
    w: u64,
    start: LogicalRow,
    end: LogicalRow,
) -> Option<RunRange>
    requires w_value { (w ≡ 2 → ⊥) → (w ≡ 4 → ⊥) → w ≡ 8 }
    requires n_in_bounds { from + w * n ≤ length body.now }
    ensures { result ≡ runs_of (found_run w (was body) from n end.0) start.0 end.0 }
{
    match w {
        2 => run_ends::runs_of_range::<u16>(body, from, n, start, end),
        4 => run_ends::runs_of_range::<u32>(body, from, n, start, end),
        _ => run_ends::runs_of_range::<u64>(body, from, n, start, end),
    }
}
