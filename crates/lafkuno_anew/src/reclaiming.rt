// Reclaiming the unused entries of a dictionary column (W9).
ghost use Rattle.clauses.specs.Slices.{was, left};
ghost use Rattle.source_rules.specs.kinds.Rows.{tables_of};
ghost use Rattle.with_capacities.specs.Answer.{Makes, lent_tables};
ghost use Rattle.anew.specs.result_plan.Answer.{Asks};
ghost use Rattle.reclaim.specs.Reclaim.{reclaim_asked, reclaiming};

// The question before any room is lent: the ground of refusal, or plan and counters of the result.
#[unsafe(no_mangle)]
pub extern "C" fn lafkuno_plan_reclaim(
    formats: &[u8],
    schema: &[u32],
    lengths: &[u64],
    places: &[u64],
    buffers: &[u64],
    body: &[u8],
    first: u32,
    n: u32,
    plan: &mut [u64],
    counters: &mut [u64],
) -> u8
    ensures { Asks (reclaim_asked (was formats) (was schema) (tables_of (was lengths) (was places) (was buffers) (was body)) first n plan.old counters.old) result plan.new counters.new }
{
    reclaim::plan_reclaim(
        formats, schema, lengths, places, buffers, body, first, n, plan, counters,
    )
}

// The column anew with the entries in use, which `lafkuno_finish` finishes.
#[unsafe(no_mangle)]
pub extern "C" fn lafkuno_reclaim(
    formats: &[u8],
    schema: &[u32],
    lengths: &[u64],
    places: &[u64],
    buffers: &[u64],
    body: &[u8],
    first: u32,
    n: u32,
    parts: &[u64],
    plan: &mut [u64],
    counters: &mut [u64],
    room: &mut [u8],
) -> u8
    ensures { Makes (reclaiming (was formats) (was schema) (lent_tables lengths places buffers body) first n (was parts)) plan counters room result }
{
    reclaim::reclaim(
        formats, schema, lengths, places, buffers, body, first, n, parts, plan, counters, room,
    )
}
