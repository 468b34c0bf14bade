// A list-view column as a list, and a list column as a list-view (W4). What they leave is finished by `lafkuno_finish`; a list-view's child, which has
// no part, is then named behind its root. Of either, the `target_n` nodes from node `target` on are the type of the result.
ghost use Rattle.clauses.specs.Slices.{was, left};
ghost use Rattle.with_capacities.specs.Answer.{Makes, lent_tables};
ghost use Rattle.anew.specs.result_plan.Answer.{Asks};
ghost use Rattle.convert.specs.convert_lists.ToList.{ask_list, make_list};
ghost use Rattle.convert.specs.convert_lists.ToView.{ask_view, make_view};
ghost use Rattle.convert.specs.child_names.Names.{naming, Named};

use convert::{to_list, to_view};

// The question before any room is lent: the ground of refusal, or plan and counters of the list.
#[unsafe(no_mangle)]
pub extern "C" fn lafkuno_plan_list(
    formats: &[u8],
    schema: &[u32],
    lengths: &[u64],
    places: &[u64],
    buffers: &[u64],
    body: &[u8],
    first: u32,
    n: u32,
    target: u32,
    target_n: u32,
    plan: &mut [u64],
    counters: &mut [u64],
) -> u8
    ensures { Asks (ask_list (was formats) (was schema) (lent_tables lengths places buffers body) first n target target_n plan.old counters.old) result plan.new counters.new }
{
    to_list::plan_list(
        formats, schema, lengths, places, buffers, body, first, n, target, target_n, plan, counters,
    )
}

// The list-view column's rows as a list: 0, or the ground of refusal, which changes nothing.
#[unsafe(no_mangle)]
pub extern "C" fn lafkuno_list(
    formats: &[u8],
    schema: &[u32],
    lengths: &[u64],
    places: &[u64],
    buffers: &[u64],
    body: &[u8],
    first: u32,
    n: u32,
    target: u32,
    target_n: u32,
    parts: &[u64],
    plan: &mut [u64],
    counters: &mut [u64],
    room: &mut [u8],
) -> u8
    ensures { Makes (make_list (was formats) (was schema) (lent_tables lengths places buffers body) first n target target_n (was parts)) plan counters room result }
{
    to_list::to_list(
        formats, schema, lengths, places, buffers, body, first, n, target, target_n, parts, plan,
        counters, room,
    )
}

// The question before any room is lent: the ground of refusal, or plan and counters of the list-view's root, the only node that has parts.
#[unsafe(no_mangle)]
pub extern "C" fn lafkuno_plan_list_view(
    formats: &[u8],
    schema: &[u32],
    lengths: &[u64],
    places: &[u64],
    buffers: &[u64],
    body: &[u8],
    first: u32,
    n: u32,
    target: u32,
    target_n: u32,
    plan: &mut [u64],
    counters: &mut [u64],
) -> u8
    ensures { Asks (ask_view (was formats) (was schema) (lent_tables lengths places buffers body) first n target target_n plan.old counters.old) result plan.new counters.new }
{
    to_view::plan_list_view(
        formats, schema, lengths, places, buffers, body, first, n, target, target_n, plan, counters,
    )
}

// The root of the list column's list-view: 0, or the ground of refusal, which changes nothing. The nodes below it are the column's own.
#[unsafe(no_mangle)]
pub extern "C" fn lafkuno_list_view(
    formats: &[u8],
    schema: &[u32],
    lengths: &[u64],
    places: &[u64],
    buffers: &[u64],
    body: &[u8],
    first: u32,
    n: u32,
    target: u32,
    target_n: u32,
    parts: &[u64],
    plan: &mut [u64],
    counters: &mut [u64],
    room: &mut [u8],
) -> u8
    ensures { Makes (make_view (was formats) (was schema) (lent_tables lengths places buffers body) first n target target_n (was parts)) plan counters room result }
{
    to_view::to_list_view(
        formats, schema, lengths, places, buffers, body, first, n, target, target_n, parts, plan,
        counters, room,
    )
}

// The nodes below the list column's root as those of its list-view, into tables of n nodes of which the first is the finished root's: lengths, null counts,
// and places in the column's body. 0, or the ground of refusal, which changes nothing.
#[unsafe(no_mangle)]
pub extern "C" fn lafkuno_list_view_child(
    formats: &[u8],
    schema: &[u32],
    lengths: &[u64],
    places: &[u64],
    buffers: &[u64],
    body: &[u8],
    first: u32,
    n: u32,
    new_lengths: &mut [u64],
    new_nulls: &mut [u64],
    new_places: &mut [u64],
) -> u8
    ensures { Named (naming (was formats) (was schema) (lent_tables lengths places buffers body) first n) new_lengths new_nulls new_places result }
{
    convert::child_names::name_child(
        formats,
        schema,
        lengths,
        places,
        buffers,
        body,
        first,
        n,
        new_lengths,
        new_nulls,
        new_places,
    )
}
