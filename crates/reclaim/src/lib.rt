// Reclaiming the unused entries of a dictionary column: the question before any room is lent, and the call. The result is finished as a join is.
#![tactic(auto)]

mod entry_copies;
pub mod entry_writes;
mod plain;
pub mod reclaim_walk;
pub mod used_entries;

ghost use Rattle.std.specs.Prelude.{◌≡◌, true, [], ◌<◌, ◌≤◌, length};
ghost use Rattle.clauses.specs.Slices.{was, left};
ghost use Rattle.array_data.specs.lent_tables.Lent.{tables};
ghost use Rattle.source_rules.specs.kinds.Rows.{tables_of};
ghost use Rattle.columns.specs.Grounds.{column_ground};
ghost use Rattle.walk.specs.State.{length_of};
ghost use Rattle.leaf_walk.specs.Join.{join};
ghost use Rattle.leaf_walk.specs.Walks.{lent_join};
ghost use Rattle.with_capacities.specs.Lent.{Begins};
ghost use Rattle.anew.specs.Anew.{or_else};
ghost use Rattle.anew.specs.ResultPlan.{keeps_from, Comes, plan_anew};
ghost use Rattle.with_capacities.specs.Answer.{Makes, lent_tables};
ghost use Rattle.anew.specs.result_plan.Answer.{Asks};
ghost use Rattle.reclaim.specs.used_entries.Keys.{Head};
ghost use Rattle.reclaim.specs.reclaim_walk.Walk.{keys_of, keys_in, reclaim_walk_of};
ghost use Rattle.reclaim.specs.Reclaim.{from_column, reclaim_own, reclaim_asked, reclaiming};

use walk::plan_words;

// The ground of the column: 9, 10, 12, and 10 where it is no dictionary.
fn ground_of(
    formats: &[u8],
    schema: &[u32],
    lengths: &[u64],
    places: &[u64],
    buffers: &[u64],
    body: &[u8],
    first: u32,
    n: u32,
) -> u8
    ensures { result ≡ or_else (column_ground (was formats) (was schema) (tables_of (was lengths) (was places) (was buffers) (was body)) first n) (reclaim_own (was schema) first) }
{
    let g = columns::column_ground(formats, schema, lengths, places, buffers, body, first, n);
    if g != 0 {
        return g;
    }
    if schema::dictionary_of(schema, first as usize, 0) == 0 {
        return 10;
    }
    0
}

// The plan of the result.
fn planned(
    formats: &[u8],
    schema: &[u32],
    lengths: &[u64],
    places: &[u64],
    body: &[u8],
    first: u32,
    n: u32,
) -> [u64; plan_words::WORDS]
    requires { (n ≤ 32) × Comes (tables lengths.now places.now body.now) first n from_column }
    ensures { result ≡ plan_anew (was formats) (was schema) first n (keeps_from (tables (was lengths) (was places) (was body)) first from_column) true 0 }
{
    let mut plan = [0u64; plan_words::WORDS];
    let from = [1u64, 2];
    anew::result_plan::plan_anew(
        formats,
        schema,
        first as usize,
        n as usize,
        lengths,
        places,
        body,
        first as usize,
        &from,
        true,
        0,
        &mut plan,
    );
    plan
}

// The question before any room is lent: the ground of refusal, or plan and counters of the result, by which `parts::part_at` and
// `measure::needed_bytes` say what room it needs.
pub fn plan_reclaim(
    formats: &[u8],
    schema: &[u32],
    lengths: &[u64],
    places: &[u64],
    buffers: &[u64],
    body: &[u8],
    first: u32,
    n: u32,
    plan: &mut [u64],
    counters: &mut [u64],
) -> u8
    ensures { Asks (reclaim_asked (was formats) (was schema) (tables_of (was lengths) (was places) (was buffers) (was body)) first n plan.old counters.old) result plan.new counters.new }
{
    let g = ground_of(formats, schema, lengths, places, buffers, body, first, n);
    if g != 0 {
        return g;
    }
    let draft = planned(formats, schema, lengths, places, body, first, n);
    let head = crate::reclaim_walk::head_ranks(&draft, lengths, places, body, first as usize);
    let none = [0u64; 0];
    let mut nothing = [0u8; 0];
    let mut tally = [0u64; plan_words::COUNTERS];
    let g = crate::reclaim_walk::reclaim_walk(
        &head,
        &draft,
        &none,
        lengths,
        places,
        body,
        &mut tally,
        &mut nothing,
        false,
        first as usize,
    );
    if g != 0 {
        return g;
    }
    if plan.len() != plan_words::WORDS {
        return 14;
    }
    if counters.len() != plan_words::COUNTERS {
        return 14;
    }
    let made = with_capacities::copied(tally);
    anew::result_plan::keep_result(plan, counters, &draft, &made);
    0
}

// The walk made, and plan and counters left with the caller.
fn make(
    head: &[u64; 513],
    draft: &[u64],
    parts: &[u64],
    lengths: &[u64],
    places: &[u64],
    body: &[u8],
    first: u32,
    plan: &mut [u64],
    counters: &mut [u64],
    room: &mut [u8],
) -> u8
    requires plan_len { (length plan.old ≡ 872) × (length counters.old ≡ 96) × (length draft.now ≡ 872) }
    requires fact { let j = join draft.now [] lengths.now places.now body.now first 0 in (keys_in j ≡ true → Head (keys_of j) (length_of j 1) head.now) }
    ensures { (plan.new ≡ was draft) × Begins draft parts (reclaim_walk_of (lent_join draft parts lengths places body first 0)) counters room result }
{
    let mut tally = [0u64; plan_words::COUNTERS];
    let g = crate::reclaim_walk::reclaim_walk(
        head,
        draft,
        parts,
        lengths,
        places,
        body,
        &mut tally,
        room,
        true,
        first as usize,
    );
    let made = with_capacities::copied(tally);
    anew::result_plan::keep_result(plan, counters, draft, &made);
    g
}

// THE CALL: the column anew with the entries in use, 0 or the ground of refusal. A refused one changes nothing.
pub fn reclaim(
    formats: &[u8],
    schema: &[u32],
    lengths: &[u64],
    places: &[u64],
    buffers: &[u64],
    body: &[u8],
    first: u32,
    n: u32,
    parts: &[u64],
    plan: &mut [u64],
    counters: &mut [u64],
    room: &mut [u8],
) -> u8
    ensures { Makes (reclaiming (was formats) (was schema) (lent_tables lengths places buffers body) first n (was parts)) plan counters room result }
{
    if columns::CEILING < room.len() {
        return 9;
    }
    let g = ground_of(formats, schema, lengths, places, buffers, body, first, n);
    if g != 0 {
        return g;
    }
    let draft = planned(formats, schema, lengths, places, body, first, n);
    let head = crate::reclaim_walk::head_ranks(&draft, lengths, places, body, first as usize);
    let mut tried = [0u64; plan_words::COUNTERS];
    let g = crate::reclaim_walk::reclaim_walk(
        &head,
        &draft,
        parts,
        lengths,
        places,
        body,
        &mut tried,
        room,
        false,
        first as usize,
    );
    if g != 0 {
        return g;
    }
    let tally = with_capacities::copied(tried);
    let g = anew::result_plan::room_ground(
        &draft,
        &tally,
        parts,
        plan.len(),
        counters.len(),
        room.len(),
    );
    if g != 0 {
        return g;
    }
    make(
        &head, &draft, parts, lengths, places, body, first, plan, counters, room,
    )
}
