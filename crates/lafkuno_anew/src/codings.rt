// A fixed-width column into runs and back, as C calls (02, W1). What they leave is finished by `lafkuno_finish`.
ghost use Rattle.clauses.specs.Slices.{was, left};
ghost use Rattle.with_capacities.specs.Answer.{Makes, lent_tables};
ghost use Rattle.anew.specs.result_plan.Answer.{Asks};
ghost use Rattle.coding.specs.Encode.{encode_asked, encoding};
ghost use Rattle.coding.specs.Expand.{expand_asked, expanding};

use coding::{encode, expand};

// Before any room is lent: the first ground that stands, or the plan and the counters of the runs of the rows start .. end - 1. The three
// nodes from node `target` on are the type of the result.
#[unsafe(no_mangle)]
pub extern "C" fn lafkuno_plan_encode(
    formats: &[u8],
    schema: &[u32],
    lengths: &[u64],
    places: &[u64],
    buffers: &[u64],
    body: &[u8],
    first: u32,
    n: u32,
    target: u32,
    start: u64,
    end: u64,
    plan: &mut [u64],
    counters: &mut [u64],
) -> u8
    ensures { Asks (encode_asked (was formats) (was schema) (lent_tables lengths places buffers body) first n target start end plan.old counters.old) result plan.new counters.new }
{
    encode::plan_encode(
        formats, schema, lengths, places, buffers, body, first, n, target, start, end, plan,
        counters,
    )
}

// Writes the runs: 0, or the ground of refusal, which changes nothing.
#[unsafe(no_mangle)]
pub extern "C" fn lafkuno_encode(
    formats: &[u8],
    schema: &[u32],
    lengths: &[u64],
    places: &[u64],
    buffers: &[u64],
    body: &[u8],
    first: u32,
    n: u32,
    target: u32,
    start: u64,
    end: u64,
    parts: &[u64],
    plan: &mut [u64],
    counters: &mut [u64],
    room: &mut [u8],
) -> u8
    ensures { Makes (encoding (was formats) (was schema) (lent_tables lengths places buffers body) first n target start end (was parts)) plan counters room result }
{
    encode::encode(
        formats, schema, lengths, places, buffers, body, first, n, target, start, end, parts, plan,
        counters, room,
    )
}

// Before any room is lent: the first ground that stands, or the plan and the counters of the rows start .. end - 1 as plain rows. Node
// `target` is the type of the result; the column's own values node, first + 2, is one.
#[unsafe(no_mangle)]
pub extern "C" fn lafkuno_plan_expand(
    formats: &[u8],
    schema: &[u32],
    lengths: &[u64],
    places: &[u64],
    buffers: &[u64],
    body: &[u8],
    first: u32,
    n: u32,
    target: u32,
    start: u64,
    end: u64,
    plan: &mut [u64],
    counters: &mut [u64],
) -> u8
    ensures { Asks (expand_asked (was formats) (was schema) (lent_tables lengths places buffers body) first n target start end plan.old counters.old) result plan.new counters.new }
{
    expand::plan_expand(
        formats, schema, lengths, places, buffers, body, first, n, target, start, end, plan,
        counters,
    )
}

// Writes the rows: 0, or the ground of refusal, which changes nothing.
#[unsafe(no_mangle)]
pub extern "C" fn lafkuno_expand(
    formats: &[u8],
    schema: &[u32],
    lengths: &[u64],
    places: &[u64],
    buffers: &[u64],
    body: &[u8],
    first: u32,
    n: u32,
    target: u32,
    start: u64,
    end: u64,
    parts: &[u64],
    plan: &mut [u64],
    counters: &mut [u64],
    room: &mut [u8],
) -> u8
    ensures { Makes (expanding (was formats) (was schema) (lent_tables lengths places buffers body) first n target start end (was parts)) plan counters room result }
{
    expand::expand(
        formats, schema, lengths, places, buffers, body, first, n, target, start, end, parts, plan,
        counters, room,
    )
}
