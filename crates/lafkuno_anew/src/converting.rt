// A column in other widths, as C calls (02, W13). What they leave is finished by `lafkuno_finish`.
ghost use Rattle.clauses.specs.Slices.{was, left};
ghost use Rattle.with_capacities.specs.Answer.{Makes, lent_tables};
ghost use Rattle.anew.specs.result_plan.Answer.{Asks};
ghost use Rattle.width_walks.specs.Call.{asked, convert};

// Before any room is lent: the first ground that stands, or the plan and the counters of the result. The target_n nodes from node `target` on are
// its type.
#[unsafe(no_mangle)]
pub extern "C" fn lafkuno_plan_convert(
    formats: &[u8],
    schema: &[u32],
    lengths: &[u64],
    places: &[u64],
    buffers: &[u64],
    body: &[u8],
    first: u32,
    n: u32,
    target: u32,
    target_n: u32,
    plan: &mut [u64],
    counters: &mut [u64],
) -> u8
    ensures { Asks (asked (was formats) (was schema) (lent_tables lengths places buffers body) first n target target_n plan.old counters.old) result plan.new counters.new }
{
    widths::plan_convert(
        formats, schema, lengths, places, buffers, body, first, n, target, target_n, plan, counters,
    )
}

// Writes the column in the widths of the target: 0, or the ground of refusal, which changes nothing.
#[unsafe(no_mangle)]
pub extern "C" fn lafkuno_convert(
    formats: &[u8],
    schema: &[u32],
    lengths: &[u64],
    places: &[u64],
    buffers: &[u64],
    body: &[u8],
    first: u32,
    n: u32,
    target: u32,
    target_n: u32,
    parts: &[u64],
    plan: &mut [u64],
    counters: &mut [u64],
    room: &mut [u8],
) -> u8
    ensures { Makes (convert (was formats) (was schema) (lent_tables lengths places buffers body) first n target target_n (was parts)) plan counters room result }
{
    widths::convert(
        formats, schema, lengths, places, buffers, body, first, n, target, target_n, parts, plan,
        counters, room,
    )
}
