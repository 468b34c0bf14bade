// The library as calls for other languages (include/lafkuno.h). Every call is defined for whatever it is lent.
#![tactic(auto)]

ghost use Rattle.std.specs.Prelude.{◌≡◌, List, [], ℕ};
ghost use Rattle.clauses.specs.Slices.{was, left};
ghost use Rattle.walk.specs.State.{nulls};
ghost use Rattle.plan.specs.parts.Parts.{nodes_of, part_total, part_at};
ghost use Rattle.refinement.specs.orders.Order.{lent, copy_order, null_order};
ghost use Rattle.with_capacities.specs.Lent.{lent_all, AnyLent};
ghost use Rattle.refinement.specs.orders.Measure.{copy_measure, null_measure, needed_bytes};
ghost use Rattle.refinement.specs.opening.Open.{opening};
ghost use Rattle.refinement.specs.opening.Ask.{asked, open_measure};
ghost use Rattle.refinement.specs.finishing.Finish.{buffers_before, finishing};
ghost use Rattle.with_capacities.specs.Answer.{Makes, Plans, lent_tables};
ghost use Rattle.transform.specs.Answer.{Answers};
ghost use Rattle.into_builder.specs.Answer.{Finishes};
ghost use Rattle.into_builder.specs.buffers.Names.{AnyOther};
ghost use Rattle.measure.specs.Answer.{Measures};
ghost use Rattle.lafkuno.specs.Calls.{keeps, grows, spot_node, spot_buffer};

mod beside;
mod means;
mod reading;
mod same;
mod trips;

// ---- opening a join

// Which parts a join has, before any room is lent: 0 and the plan, or the ground of refusal. A node keeps nulls where it must, or keep is not 0.
// Where gaps is not 0, there is one run for a gap.
#[unsafe(no_mangle)]
pub extern "C" fn lafkuno_plan_parts(
    sources: &[u32],
    formats: &[u8],
    schema: &[u32],
    lengths: &[u64],
    places: &[u64],
    buffers: &[u64],
    body: &[u8],
    keep: u8,
    gaps: u8,
    plan: &mut [u64],
) -> u8
    ensures { Plans (asked (was formats) (was schema) (was sources) (lent_tables lengths places buffers body) (keeps keep) (grows gaps) plan.old) result plan.new }
{
    with_capacities::plan_parts(
        sources,
        formats,
        schema,
        lengths,
        places,
        buffers,
        body,
        keep != 0,
        gaps != 0,
        plan,
    )
}

// Opens a join: 0, and the plan, the counters and the room as the first order takes them, or the ground of refusal.
#[unsafe(no_mangle)]
pub extern "C" fn lafkuno_open(
    sources: &[u32],
    formats: &[u8],
    schema: &[u32],
    lengths: &[u64],
    places: &[u64],
    buffers: &[u64],
    body: &[u8],
    keep: u8,
    gaps: u8,
    parts: &[u64],
    plan: &mut [u64],
    counters: &mut [u64],
    room: &mut [u8],
) -> u8
    ensures { let t = lent_tables lengths places buffers body in Makes (opening (was formats) (was schema) (was sources) t (keeps keep) (grows gaps) (was parts)) plan counters room result }
{
    with_capacities::try_with_capacities(
        sources,
        formats,
        schema,
        lengths,
        places,
        buffers,
        body,
        keep != 0,
        gaps != 0,
        parts,
        plan,
        counters,
        room,
    )
}

// How many parts a planned join has.
#[unsafe(no_mangle)]
pub extern "C" fn lafkuno_part_count(plan: &[u64]) -> u32
    ensures { result ≡ part_total (was plan) }
{
    plan::parts::part_total(plan) as u32
}

// The node of part p; the largest number of 64 bits where there is no such part.
#[unsafe(no_mangle)]
pub extern "C" fn lafkuno_part_node(plan: &[u64], p: u32) -> u64
    ensures { result ≡ spot_node (part_at (was plan) p) }
{
    match plan::parts::part_at(plan, p as usize) {
        Some(s) => s.node as u64,
        None => u64::MAX,
    }
}

// The buffer of part p, 0 for the validity; the largest number of 64 bits where there is no such part.
#[unsafe(no_mangle)]
pub extern "C" fn lafkuno_part_buffer(plan: &[u64], p: u32) -> u64
    ensures { result ≡ spot_buffer (part_at (was plan) p) }
{
    match plan::parts::part_at(plan, p as usize) {
        Some(s) => s.buffer as u64,
        None => u64::MAX,
    }
}

// ---- orders

// Copies the rows start .. end - 1 of a source behind the destination's rows: 0, or the ground of refusal.
#[unsafe(no_mangle)]
pub extern "C" fn lafkuno_copy(
    plan: &[u64],
    parts: &[u64],
    sources: &[u32],
    lengths: &[u64],
    places: &[u64],
    body: &[u8],
    counters: &mut [u64],
    room: &mut [u8],
    source: u32,
    start: u64,
    end: u64,
) -> u8
    ensures { Answers (copy_order (lent_all plan parts sources lengths places body) counters.old room.old source start end) result counters.new room.new }
{
    transform::try_extend(
        plan, parts, sources, lengths, places, body, counters, room, source, start, end,
    )
}

// Adds n nulls behind the destination's rows: 0, or the ground of refusal.
#[unsafe(no_mangle)]
pub extern "C" fn lafkuno_nulls(
    plan: &[u64],
    parts: &[u64],
    counters: &mut [u64],
    room: &mut [u8],
    n: u64,
) -> u8
    ensures { AnyLent plan parts (λ l. Answers (null_order l counters.old room.old n) result counters.new room.new) }
{
    transform::try_extend_nulls(plan, parts, counters, room, n)
}

// ---- finishing

// The tables of the finished array: 0, or the ground of refusal. `base` is where the room begins in the body that they are about.
#[unsafe(no_mangle)]
pub extern "C" fn lafkuno_finish(
    plan: &[u64],
    parts: &[u64],
    sources: &[u32],
    lengths: &[u64],
    places: &[u64],
    buffers: &[u64],
    body: &[u8],
    counters: &[u64],
    room: &[u8],
    base: u64,
    new_lengths: &mut [u64],
    new_nulls: &mut [u64],
    new_places: &mut [u64],
    new_buffers: &mut [u64],
) -> u8
    ensures { Finishes (finishing (lent_all plan parts sources lengths places body) (was buffers) (was counters) (was room) base) new_lengths new_nulls new_places new_buffers result }
{
    into_builder::into_builder(
        plan,
        parts,
        sources,
        lengths,
        places,
        buffers,
        body,
        counters,
        room,
        base,
        new_lengths,
        new_nulls,
        new_places,
        new_buffers,
    )
}

// How many data buffers the finished array names: the table of them has two numbers for each.
#[unsafe(no_mangle)]
pub extern "C" fn lafkuno_buffer_total(plan: &[u64], sources: &[u32], places: &[u64]) -> u64
    ensures { AnyOther (was plan) (was sources) (was places) (λ l buffers counters room base. result ≡ buffers_before l buffers counters room base (nodes_of (was plan))) }
{
    into_builder::buffer_total(plan, sources, places)
}

// The running null count.
#[unsafe(no_mangle)]
pub extern "C" fn lafkuno_running_nulls(counters: &[u64]) -> u64
    ensures { result ≡ nulls (was counters) 0 }
{
    into_builder::running_nulls(counters)
}

// ---- room

// What an opening comes to in a room that is large enough: 0 and its counters, or the ground of refusal.
#[unsafe(no_mangle)]
pub extern "C" fn lafkuno_measure_open(
    plan: &[u64],
    sources: &[u32],
    lengths: &[u64],
    places: &[u64],
    body: &[u8],
    counters: &mut [u64],
) -> u8
    ensures { Measures (open_measure (lent (was plan) [] (was sources) (was lengths) (was places) (was body)) counters.old) result counters.new }
{
    measure::measure_open(plan, sources, lengths, places, body, counters)
}

// What a copy comes to in such a room: 0 and the counters after it, or the ground of refusal.
#[unsafe(no_mangle)]
pub extern "C" fn lafkuno_measure_copy(
    plan: &[u64],
    sources: &[u32],
    lengths: &[u64],
    places: &[u64],
    body: &[u8],
    counters: &mut [u64],
    source: u32,
    start: u64,
    end: u64,
) -> u8
    ensures { Measures (copy_measure counters.old (lent (was plan) [] (was sources) (was lengths) (was places) (was body)) source start end) result counters.new }
{
    measure::measure_extend(
        plan, sources, lengths, places, body, counters, source, start, end,
    )
}

// What n nulls come to in such a room: 0 and the counters after them, or the ground of refusal.
#[unsafe(no_mangle)]
pub extern "C" fn lafkuno_measure_nulls(plan: &[u64], counters: &mut [u64], n: u64) -> u8
    ensures { (sources lengths places body : List ℕ) → Measures (null_measure counters.old (lent (was plan) [] sources lengths places body) n) result counters.new }
{
    measure::measure_nulls(plan, counters, n)
}

// The bytes that part p must hold by the counters, or the largest number of 64 bits; 0 where there is no such part.
#[unsafe(no_mangle)]
pub extern "C" fn lafkuno_needed_bytes(plan: &[u64], counters: &[u64], p: u32) -> u64
    ensures { result ≡ needed_bytes (was plan) (was counters) p }
{
    measure::needed_bytes(plan, counters, p)
}
