// A list-view column as a list: the question before any room is lent, and the call.
ghost use Rattle.std.specs.Prelude.{◌≡◌, true, false, [], ℕ, ◌+◌, ◌<◌, ◌≤◌, ◌^◌, length, replicate};
ghost use Rattle.clauses.specs.Slices.{was, left};
ghost use Rattle.array_data.specs.lent_tables.Lent.{tables};
ghost use Rattle.columns.specs.Grounds.{column_ground};
ghost use Rattle.walk.specs.State.{bytes_of, length_of, offset_of};
ghost use Rattle.walk.specs.Log.{Did};
ghost use Rattle.leaf_walk.specs.Join.{join};
ghost use Rattle.anew.specs.Anew.{or_else};
ghost use Rattle.with_capacities.specs.Answer.{Makes, lent_tables};
ghost use Rattle.anew.specs.result_plan.Answer.{Asks};
ghost use Rattle.convert.specs.convert_lists.Listing.{list_walk};
ghost use Rattle.convert.specs.convert_lists.ToList.{lent_with, list_own, ask_list, make_list};

use walk::plan_words;

// The ground of the column: 9, 10, 12, and 10 where it is no list-view or the target not its list.
fn ground_of(
    formats: &[u8],
    schema: &[u32],
    lengths: &[u64],
    places: &[u64],
    buffers: &[u64],
    body: &[u8],
    first: u32,
    n: u32,
    target: u32,
    target_n: u32,
) -> u8
    ensures { let l = lent_tables lengths places buffers body in result ≡ or_else (column_ground (was formats) (was schema) l first n) (list_own (was formats) (was schema) l first n target target_n) }
{
    let g = columns::column_ground(formats, schema, lengths, places, buffers, body, first, n);
    if g != 0 {
        return g;
    }
    if !crate::is_list_due(formats, schema, first, n, target, target_n) {
        return 10;
    }
    0
}

// THE QUESTION before any room is lent: the ground of refusal, or plan and counters of the list, by which `parts::part_at` and
// `measure::needed_bytes` say what room it needs.
pub fn plan_list(
    formats: &[u8],
    schema: &[u32],
    lengths: &[u64],
    places: &[u64],
    buffers: &[u64],
    body: &[u8],
    first: u32,
    n: u32,
    target: u32,
    target_n: u32,
    plan: &mut [u64],
    counters: &mut [u64],
) -> u8
    ensures { Asks (ask_list (was formats) (was schema) (lent_tables lengths places buffers body) first n target target_n plan.old counters.old) result plan.new counters.new }
{
    let g = ground_of(
        formats, schema, lengths, places, buffers, body, first, n, target, target_n,
    );
    if g != 0 {
        return g;
    }
    let draft = crate::planned(formats, schema, lengths, places, body, first, target, n);
    let none = [0u64; 0];
    let mut nothing = [0u8; 0];
    let mut tally = [0u64; plan_words::COUNTERS];
    let g = crate::lists::list_walk(
        &draft,
        &none,
        lengths,
        places,
        body,
        &mut tally,
        &mut nothing,
        false,
        first,
    );
    if g != 0 {
        return g;
    }
    if plan.len() != plan_words::WORDS {
        return 14;
    }
    if counters.len() != plan_words::COUNTERS {
        return 14;
    }
    let made = with_capacities::copied(tally);
    anew::result_plan::keep_result(plan, counters, &draft, &made);
    0
}

// The walk made, and plan and counters left with the caller.
fn make(
    draft: &[u64],
    parts: &[u64],
    lengths: &[u64],
    places: &[u64],
    body: &[u8],
    first: u32,
    plan: &mut [u64],
    counters: &mut [u64],
    room: &mut [u8],
) -> u8
    requires plan_len { (length plan.old ≡ 872) × (length counters.old ≡ 96) × (length draft.now ≡ 872) }
    requires first_bound { offset_of (join [] [] lengths.now [] [] first 0) 0 + length_of (join [] [] lengths.now [] [] first 0) 0 < 2 ^ 63 }
    requires draft_value { (bytes_of draft.now 0 ≡ 4 → ⊥) → bytes_of draft.now 0 ≡ 8 }
    ensures { (plan.new ≡ was draft) × ((n : ℕ) → Did (was draft) (was parts) true (list_walk (lent_with (tables (was lengths) (was places) (was body)) (was draft) (was parts) first n) (replicate 96 0)) room.old result counters.new room.new) }
{
    let mut tally = [0u64; plan_words::COUNTERS];
    let g = crate::lists::list_walk(
        draft, parts, lengths, places, body, &mut tally, room, true, first,
    );
    let made = with_capacities::copied(tally);
    anew::result_plan::keep_result(plan, counters, draft, &made);
    g
}

// THE CALL: a list-view column as a list, 0 or the ground of refusal. A refused one changes nothing.
pub fn to_list(
    formats: &[u8],
    schema: &[u32],
    lengths: &[u64],
    places: &[u64],
    buffers: &[u64],
    body: &[u8],
    first: u32,
    n: u32,
    target: u32,
    target_n: u32,
    parts: &[u64],
    plan: &mut [u64],
    counters: &mut [u64],
    room: &mut [u8],
) -> u8
    ensures { Makes (make_list (was formats) (was schema) (lent_tables lengths places buffers body) first n target target_n (was parts)) plan counters room result }
{
    if columns::CEILING < room.len() {
        return 9;
    }
    let g = ground_of(
        formats, schema, lengths, places, buffers, body, first, n, target, target_n,
    );
    if g != 0 {
        return g;
    }
    let draft = crate::planned(formats, schema, lengths, places, body, first, target, n);
    let mut tried = [0u64; plan_words::COUNTERS];
    let g = crate::lists::list_walk(
        &draft, parts, lengths, places, body, &mut tried, room, false, first,
    );
    if g != 0 {
        return g;
    }
    let tally = with_capacities::copied(tried);
    let g = anew::result_plan::room_ground(
        &draft,
        &tally,
        parts,
        plan.len(),
        counters.len(),
        room.len(),
    );
    if g != 0 {
        return g;
    }
    make(
        &draft, parts, lengths, places, body, first, plan, counters, room,
    )
}
