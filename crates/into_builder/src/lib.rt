// The finished array of a join on lent memory: the tables that say where it stands (docs/FORMAT.md). No byte of it is moved.
// Follows `into_builder` of arrow-data 60.1.0 src/transform/mod.rs, Apache-2.0; see NOTICE.
#![tactic(auto)]

pub mod buffers;
pub mod counts;
pub mod places;

ghost use Rattle.std.specs.Prelude.{◌≡◌, ◌&&◌, ◌*◌, length, leb, eqb};
ghost use Rattle.clauses.specs.Slices.{was};
ghost use Rattle.walk.specs.State.{nulls};
ghost use Rattle.plan.specs.parts.Parts.{nodes_of, parts_within, parts_hold};
ghost use Rattle.columns.specs.Grounds.{ceiling};
ghost use Rattle.refinement.specs.finishing.Finish.{buffers_before, finishing};
ghost use Rattle.into_builder.specs.buffers.Names.{lent_all, count_before, AnyOther};
ghost use Rattle.into_builder.specs.Answer.{Finishes};

use array_data::lent_tables;
use walk::plan_words;

// ---- what is asked of a join

// How many data buffers the finished array names: the table of them has two numbers for each.
pub fn buffer_total(plan: &[u64], sources: &[u32], places: &[u64]) -> u64
    ensures { AnyOther (was plan) (was sources) (was places) (λ l buffers counters room base. result ≡ buffers_before l buffers counters room base (nodes_of (was plan))) }
{
    buffers::count_before(plan, sources, places, plan::parts::node_count(plan))
}

// The running null count.
pub fn running_nulls(counters: &[u64]) -> u64
    ensures { result ≡ nulls (was counters) 0 }
{
    lent_tables::at_u64(counters, 1)
}

// ---- tests

// The counters as an array.
fn load(counters: &[u64]) -> [u64; plan_words::COUNTERS]
    requires { length counters.now ≡ 96 }
    ensures { result ≡ was counters }
{
    let mut tally = [0u64; plan_words::COUNTERS];
    tally.copy_from_slice(counters);
    tally
}

// The most bytes of a body.
const CEILING: u64 = 9223372036854775807;

// Whether the room begins where a body may end, and its m bytes are a body: ground 9 where not. Then no position passes 64 bits.
fn sizes_fit(base: u64, m: usize) -> bool
    ensures { result ≡ (leb base ceiling && leb m ceiling) }
{
    (base <= CEILING) & (m as u64 <= CEILING)
}

// Whether counters, parts and a room of m bytes are those of a join.
fn room_fits(plan: &[u64], parts: &[u64], counters: &[u64], m: usize) -> bool
    ensures { result ≡ (eqb (length (was counters)) 96 && parts_within (was plan) (was parts) m && parts_hold (was plan) (was counters) (was parts)) }
{
    if counters.len() != plan_words::COUNTERS {
        return false;
    }
    if !plan::parts::parts_within(plan, parts, m) {
        return false;
    }
    let tally = load(counters);
    plan::parts::parts_hold(plan, &tally, parts)
}

// Whether tables of these lengths are those that the finished array takes.
fn tables_fit(
    plan: &[u64],
    sources: &[u32],
    places: &[u64],
    lengths: usize,
    nulls: usize,
    spots: usize,
    names: usize,
) -> bool
    ensures { let n = nodes_of (was plan) in result ≡ (eqb lengths (2 * n) && eqb nulls n && eqb spots (9 * n) && eqb names (2 * count_before (was plan) (was sources) (was places) n)) }
{
    let n = plan::parts::node_count(plan);
    let total = buffers::count_before(plan, sources, places, n);
    let nodes = (lengths == 2 * n) & (nulls == n) & (spots == 9 * n);
    nodes & (names as u64 == 2 * total)
}

// ---- the whole

// THE FINISHED ARRAY into the tables that are lent: 0, or the ground of refusal, with nothing written. The room begins at `base` in the body
// that the tables are about.
pub fn into_builder(
    plan: &[u64],
    parts: &[u64],
    sources: &[u32],
    lengths: &[u64],
    places: &[u64],
    buffers: &[u64],
    body: &[u8],
    counters: &[u64],
    room: &[u8],
    base: u64,
    new_lengths: &mut [u64],
    new_nulls: &mut [u64],
    new_places: &mut [u64],
    new_buffers: &mut [u64],
) -> u8
    ensures { Finishes (finishing (lent_all plan parts sources lengths places body) (was buffers) (was counters) (was room) base) new_lengths new_nulls new_places new_buffers result }
{
    if !sizes_fit(base, room.len()) {
        return 9;
    }
    if !counts::all_kept(plan, sources, lengths, places, body) {
        return 12;
    }
    if !room_fits(plan, parts, counters, room.len()) {
        return 14;
    }
    if !tables_fit(
        plan,
        sources,
        places,
        new_lengths.len(),
        new_nulls.len(),
        new_places.len(),
        new_buffers.len(),
    ) {
        return 14;
    }
    counts::write_lengths(plan, sources, lengths, counters, new_lengths);
    counts::write_nulls(
        plan, parts, sources, lengths, places, body, counters, room, new_nulls,
    );
    places::write_places(
        plan, parts, sources, places, counters, base, new_nulls, new_places,
    );
    buffers::write_buffers(plan, sources, places, buffers, new_buffers);
    0
}
