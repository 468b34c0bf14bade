// The opening of a join on lent memory: it is tried first, on counters of its own, and made where no ground is found. A refused one changes nothing.
// Follows `try_with_capacities` of arrow-data 60.1.0 src/transform/mod.rs, Apache-2.0; see NOTICE.
#![tactic(auto)]

pub mod open_walk;

ghost use Rattle.std.specs.Prelude.{◌≡◌, ◌&&◌, ◌≤◌, length, replicate, eqb};
ghost use Rattle.clauses.specs.Slices.{was, left};
ghost use Rattle.array_data.specs.lent_tables.Lent.{tables};
ghost use Rattle.source_rules.specs.kinds.Rows.{tables_of};
ghost use Rattle.refinement.specs.orders.Order.{source_count};
ghost use Rattle.with_capacities.specs.Lent.{lent_all};
ghost use Rattle.plan.specs.parts.Parts.{part_total, parts_placed};
ghost use Rattle.sound.specs.trying.Alike.{Alike};
ghost use Rattle.plan.specs.Plan.{planned, Plannable};
ghost use Rattle.refinement.specs.opening.Open.{open_walk_of, opening};
ghost use Rattle.refinement.specs.opening.Ask.{asked};
ghost use Rattle.with_capacities.specs.Answer.{Makes, MakesDraft, lent_tables, Plans};

use sound::trying;
use walk::plan_words;

// The n numbers of a slice into another one.
pub fn store(to: &mut [u64], from: &[u64], n: usize)
    requires { (length to.old ≡ n) × (length from.now ≡ n) }
    ensures { to.new ≡ was from }
{
    to.copy_from_slice(from);
}

// A copy; that it has 96 elements is known of an array that a call returns.
pub fn copied(counters: [u64; plan_words::COUNTERS]) -> [u64; plan_words::COUNTERS]
    ensures { result ≡ counters }
{
    counters
}

// Counters of 0 with their nulls full: what an opening is tried on.
fn uncounted(plan: &[u64]) -> [u64; plan_words::COUNTERS]
    ensures { Alike result (replicate 96 0) }
{
    let mut counters = [0u64; plan_words::COUNTERS];
    trying::uncount(&mut counters, plan::parts::node_count(plan));
    counters
}

// The plan of the sources.
fn planned_state(
    sources: &[u32],
    formats: &[u8],
    schema: &[u32],
    lengths: &[u64],
    places: &[u64],
    body: &[u8],
    keep: bool,
    gaps: bool,
) -> [u64; plan_words::WORDS]
    requires { Plannable (tables lengths.now places.now body.now) sources.now }
    ensures { result ≡ planned (was formats) (was schema) (tables (was lengths) (was places) (was body)) (was sources) keep gaps }
{
    let mut draft = [0u64; plan_words::WORDS];
    plan::plan(
        sources, formats, schema, lengths, places, body, keep, gaps, &mut draft,
    );
    draft
}

// Whether plan and counters, of so many numbers, are of a join's lengths and the parts lie in the room, apart: ground 14 where not.
pub fn room_placed(plan: &[u64], parts: &[u64], words: usize, counters: usize, m: usize) -> bool
    ensures { result ≡ (eqb words 872 && eqb counters 96 && parts_placed (was parts) (part_total (was plan)) m) }
{
    if words != plan_words::WORDS {
        return false;
    }
    if counters != plan_words::COUNTERS {
        return false;
    }
    plan::placed::parts_placed(parts, plan::parts::part_total(plan), m)
}

// The walk of an opening tried, the parts asked, and the walk made.
fn make(
    draft: &[u64],
    parts: &[u64],
    sources: &[u32],
    lengths: &[u64],
    places: &[u64],
    body: &[u8],
    plan: &mut [u64],
    counters: &mut [u64],
    room: &mut [u8],
) -> u8
    requires { (source_count draft.now ≤ 16) × (length draft.now ≡ 872) × (length plan.old ≡ 872) × (length counters.old ≡ 96) }
    ensures { let o = open_walk_of (lent_all draft parts sources lengths places body) (replicate 96 0) in MakesDraft draft parts sources lengths places body o plan counters room result }
{
    let mut tried = uncounted(draft);
    let g = crate::open_walk::open_walk(
        draft, parts, sources, lengths, places, body, &mut tried, room, false,
    );
    if g != 0 {
        return g;
    }
    if !plan::parts::parts_hold(draft, &tried, parts) {
        return 13;
    }
    let mut tally = [0u64; plan_words::COUNTERS];
    let g = crate::open_walk::open_walk(
        draft, parts, sources, lengths, places, body, &mut tally, room, true,
    );
    let made = copied(tally);
    store(counters, &made, plan_words::COUNTERS);
    store(plan, draft, plan_words::WORDS);
    g
}

// Opens a join of lent columns: 0, or the ground of refusal. Plan and counters are then what every order is given. `gaps` chooses one run for a gap.
pub fn try_with_capacities(
    sources: &[u32],
    formats: &[u8],
    schema: &[u32],
    lengths: &[u64],
    places: &[u64],
    buffers: &[u64],
    body: &[u8],
    keep: bool,
    gaps: bool,
    parts: &[u64],
    plan: &mut [u64],
    counters: &mut [u64],
    room: &mut [u8],
) -> u8
    ensures { Makes (opening (was formats) (was schema) (was sources) (lent_tables lengths places buffers body) keep gaps (was parts)) plan counters room result }
{
    if columns::CEILING < room.len() {
        return 9;
    }
    let g = columns::sources_ground(sources, formats, schema, lengths, places, buffers, body);
    if g != 0 {
        return g;
    }
    let draft = planned_state(sources, formats, schema, lengths, places, body, keep, gaps);
    if !room_placed(&draft, parts, plan.len(), counters.len(), room.len()) {
        return 14;
    }
    make(
        &draft, parts, sources, lengths, places, body, plan, counters, room,
    )
}

// The question before any room is lent: the ground of the sources, or the plan, by which `parts::part_total` says how many parts there are.
pub fn plan_parts(
    sources: &[u32],
    formats: &[u8],
    schema: &[u32],
    lengths: &[u64],
    places: &[u64],
    buffers: &[u64],
    body: &[u8],
    keep: bool,
    gaps: bool,
    plan: &mut [u64],
) -> u8
    ensures { Plans (asked (was formats) (was schema) (was sources) (tables_of (was lengths) (was places) (was buffers) (was body)) keep gaps plan.old) result plan.new }
{
    let g = columns::sources_ground(sources, formats, schema, lengths, places, buffers, body);
    if g != 0 {
        return g;
    }
    if plan.len() != plan_words::WORDS {
        return 14;
    }
    let draft = planned_state(sources, formats, schema, lengths, places, body, keep, gaps);
    store(plan, &draft, plan_words::WORDS);
    0
}
