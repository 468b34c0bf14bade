// One order of a list: its walk, tried or written.
ghost use Rattle.std.specs.Prelude.{◌≡◌, List, ℕ, ◌<◌, min};
ghost use Rattle.clauses.specs.Slices.{was};
ghost use Rattle.model.specs.Book.{copy, nulls};
ghost use Rattle.leaf_walk.specs.Walks.{Walks};
ghost use Rattle.transform.specs.Answer.{lent};
ghost use Rattle.trip.specs.Trip.{call_of};
ghost use Rattle.trip.specs.Walk.{order_walk};

use array_data::lent_tables;
use walk::plan_words;

const COPY: u64 = 0;

const LARGEST_SOURCE: u64 = 4294967295;

const NO_SUCH_SOURCE: u8 = 1;

const NO_SUCH_ROWS: u8 = 2;

const KEEPS_NO_NULLS: u8 = 3;

// A source's number; no join has as many sources as 32 bits hold.
fn source_of(a: u64) -> u32
    ensures { result ≡ min a 4294967295 }
{
    a.min(LARGEST_SOURCE) as u32
}

// A copy of the rows start .. end - 1 of a source, tried or written.
fn walk_copy(
    plan: &[u64],
    parts: &[u64],
    sources: &[u32],
    lengths: &[u64],
    places: &[u64],
    body: &[u8],
    counters: &mut [u64; plan_words::COUNTERS],
    room: &mut [u8],
    write: bool,
    source: u32,
    start: u64,
    end: u64,
) -> u8
    ensures { Walks plan parts write (order_walk (lent (was plan) (was parts) (was sources) (was lengths) (was places) (was body)) (copy source start end)) counters room result }
{
    if lent_tables::at_u64(plan, plan_words::SOURCE_COUNT) <= source as u64 {
        return NO_SUCH_SOURCE;
    }
    let first = lent_tables::at_u32(sources, 2 * (source as usize)) as usize;
    if !transform::in_source(lengths, first, start, end) {
        return NO_SUCH_ROWS;
    }
    extend::extend(
        plan,
        parts,
        lengths,
        places,
        body,
        counters,
        room,
        write,
        source as usize,
        first,
        0,
        start,
        end - start,
        8,
    )
}

// n nulls, tried or written.
fn walk_nulls(
    plan: &[u64],
    parts: &[u64],
    counters: &mut [u64; plan_words::COUNTERS],
    room: &mut [u8],
    write: bool,
    n: u64,
) -> u8
    ensures { (sources lengths places body : List ℕ) → Walks plan parts write (order_walk (lent (was plan) (was parts) sources lengths places body) (nulls n)) counters room result }
{
    if plan_words::keeps_of(plan, 0) == 0 {
        return KEEPS_NO_NULLS;
    }
    let m = transform::at_most_far(n);
    extend::extend_nulls(plan, parts, counters, room, write, 0, m, 8)
}

// The order of four words.
pub fn walk_order(
    plan: &[u64],
    parts: &[u64],
    sources: &[u32],
    lengths: &[u64],
    places: &[u64],
    body: &[u8],
    counters: &mut [u64; plan_words::COUNTERS],
    room: &mut [u8],
    write: bool,
    kind: u64,
    a: u64,
    b: u64,
    c: u64,
) -> u8
    ensures { Walks plan parts write (order_walk (lent (was plan) (was parts) (was sources) (was lengths) (was places) (was body)) (call_of kind a b c)) counters room result }
{
    if kind != COPY {
        return walk_nulls(plan, parts, counters, room, write, a);
    }
    walk_copy(
        plan,
        parts,
        sources,
        lengths,
        places,
        body,
        counters,
        room,
        write,
        source_of(a),
        b,
        c,
    )
}
