// A run-end column of fixed-width values into plain rows: the question before any room is lent, and the call.
ghost use Rattle.std.specs.Prelude.{◌≡◌, [], true, ◌+◌, ◌*◌, ◌-◌, ◌≤◌, ◌<◌, ◌^◌, length};
ghost use Rattle.clauses.specs.Slices.{was, left};
ghost use Rattle.array_data.specs.Tables.{part, length_of, offset_of, place};
ghost use Rattle.array_data.specs.entries.Entries.{column};
ghost use Rattle.schema.specs.formats.Code.{is_fixed};
ghost use Rattle.array_data.specs.lent_tables.Lent.{tables};
ghost use Rattle.slot_reader.specs.run.Rows.{row_run};
ghost use Rattle.aggregates.specs.stretches.Ends.{ends_of};
ghost use Rattle.plan.specs.Plan.{flag};
ghost use Rattle.with_capacities.specs.Answer.{Makes, lent_tables};
ghost use Rattle.anew.specs.ResultPlan.{keeps_from, Comes, plan_anew};
ghost use Rattle.anew.specs.result_plan.Answer.{Asks};
ghost use Rattle.coding.specs.Encode.{plain_at};
ghost use Rattle.coding.specs.Planned.{row_plan_of};
ghost use Rattle.coding.specs.Expand.{runs_of_plain, plain_over, expand_own, from_values, expand_asked, expanding, run_or, Expandable, RowsFit, rows_in};

use crate::row_plan::Row;
use crate::run_coding::Spots;
use crate::{expand_rows, row_plan};
use aggregates::stretches;
use array_data::entries;
use plan::dictionaries;
use walk::plan_words;

// Whether the column is a run-end one of fixed-width values.
fn is_taken(formats: &[u8], schema: &[u32], first: u32) -> bool
    ensures { result ≡ runs_of_plain (was formats) (was schema) first 0 }
{
    if !schema::formats::is_run_end(schema::code_of(formats, schema, first as usize, 0)) {
        return false;
    }
    crate::is_plain(formats, schema, first, 2)
}

// Whether node `target` is a type of the values' format: a node of numbers with nothing below it is a whole type within the ceilings.
fn is_due(formats: &[u8], schema: &[u32], first: u32, target: u32) -> bool
    ensures { result ≡ plain_over (was formats) (was schema) first target }
{
    let at = target as usize;
    if schema::children_of(schema, at, 0) != 0 {
        return false;
    }
    if schema::dictionary_of(schema, at, 0) != 0 {
        return false;
    }
    let code = schema::code_of(formats, schema, at, 0);
    if !schema::formats::is_fixed(code) {
        return false;
    }
    code == schema::code_of(formats, schema, first as usize, 2)
}

// THE GROUNDS OF ITS OWN before room is asked: 10, 2.
fn own_ground(
    formats: &[u8],
    schema: &[u32],
    lengths: &[u64],
    first: u32,
    target: u32,
    start: u64,
    end: u64,
) -> u8
    ensures { result ≡ expand_own (was formats) (was schema) (tables (was lengths) [] []) first 0 target start end }
{
    if !is_taken(formats, schema, first) {
        return 10;
    }
    if !is_due(formats, schema, first, target) {
        return 10;
    }
    if !columns::column_pair::is_range(lengths, first, start, end) {
        return 2;
    }
    0
}

// 1 if the values have a null and else 0.
fn null_word(lengths: &[u64], places: &[u64], body: &[u8], first: u32) -> u64
    requires { Comes (tables lengths.now places.now body.now) first 1 from_values }
    ensures value { result ≡ flag (keeps_from (tables (was lengths) (was places) (was body)) first from_values 0) }
    ensures upper_bound { result ≤ 1 }
{
    if dictionaries::null_count(lengths, places, body, first as usize + 2) == 0 {
        return 0;
    }
    1
}

// What the plan of the rows is made of.
fn row_of(
    formats: &[u8],
    schema: &[u32],
    lengths: &[u64],
    places: &[u64],
    body: &[u8],
    first: u32,
    target: u32,
) -> Row
    requires comes { Comes (tables lengths.now places.now body.now) first 1 from_values }
    requires target_value { plain_at formats.now schema.now target 0 ≡ true }
    ensures nulls_value { row_plan_of result.code result.nullable result.nulls ≡ plan_anew (was formats) (was schema) target 1 (keeps_from (tables (was lengths) (was places) (was body)) first from_values) true 0 }
    ensures nulls_value_2 { (result.nulls ≡ flag (keeps_from (tables (was lengths) (was places) (was body)) first from_values 0)) × (result.nulls ≤ 1) × (is_fixed result.code ≡ true) }
{
    let code = schema::code_of(formats, schema, target as usize, 0);
    let nullable = schema::flag_of(schema, target as usize, 0) as u64;
    let nulls = null_word(lengths, places, body, first);
    Row {
        code,
        nullable,
        nulls,
    }
}

// The run of a row, by the run reader.
fn first_run(lengths: &[u64], places: &[u64], body: &[u8], first: u32, width: u8, row: u64) -> usize
    requires x_bound { let x = column lengths.now places.now [] [] first in offset_of x 1 + length_of x 1 < 2 ^ 63 }
    requires fact { let x = column lengths.now places.now [] [] first in let size = width * (offset_of x 1 + length_of x 1) in (0 < size → place x 1 3 + size < 2 ^ 64) }
    requires fact_2 { let e = ends_of (column lengths.now places.now [] [] first) width in (e.start ≤ e.stop) × (e.stop ≤ length body.now) }
    ensures { let x = column (was lengths) (was places) [] [] first in let e = ends_of x width in result ≡ run_or (row_run (part (was body) e.start (e.stop - e.start)) (offset_of x 0) (length_of x 0) width row) }
{
    let e = stretches::find_ends(lengths, places, first, width);
    match stretches::stretch_at(body, e, row) {
        Ok(found) => found.run.0,
        Err(_) => 0,
    }
}

// The rows start .. end - 1 into their part.
fn write(
    formats: &[u8],
    schema: &[u32],
    lengths: &[u64],
    places: &[u64],
    body: &[u8],
    first: u32,
    start: u64,
    end: u64,
    keep: bool,
    plan: &[u64],
    parts: &[u64],
    room: &mut [u8],
)
    requires start_le_end { (start ≤ end) × (start < end → Expandable formats.now schema.now (tables lengths.now places.now body.now) first start end keep) }
    requires rows_fit { RowsFit formats.now schema.now (tables lengths.now places.now body.now) first start end plan.now parts.now keep (length room.old) }
    ensures { room.new ≡ rows_in (was formats) (was schema) (tables (was lengths) (was places) (was body)) first start end (was plan) (was parts) keep room.old }
{
    if start == end {
        return;
    }
    let w = schema::formats::width_of(schema::code_of(formats, schema, first as usize, 2));
    let e = schema::formats::width_of(schema::code_of(formats, schema, first as usize, 1));
    let s = crate::slots_of(lengths, places, first, 2, w, 0);
    let ends = crate::slots_of(lengths, places, first, 1, e, 0);
    let run = first_run(lengths, places, body, first, e, start);
    let x = entries::offset_at(lengths, first, 0) + start;
    let count = entries::length_at(lengths, first, 1) as usize;
    let t = Spots {
        ends: 0,
        values: crate::start_of(plan, parts, 0, 1) as usize,
        mask: crate::start_of(plan, parts, 0, 0) as usize,
    };
    let m = (end - start) as usize;
    expand_rows::write_rows(room, body, w, keep, s, e, ends.start, run, x, t, m, count);
}

// THE QUESTION before any room is lent: the first ground that stands, or the plan and the counters of the result.
pub fn plan_expand(
    formats: &[u8],
    schema: &[u32],
    lengths: &[u64],
    places: &[u64],
    buffers: &[u64],
    body: &[u8],
    first: u32,
    n: u32,
    target: u32,
    start: u64,
    end: u64,
    plan: &mut [u64],
    counters: &mut [u64],
) -> u8
    ensures { Asks (expand_asked (was formats) (was schema) (lent_tables lengths places buffers body) first n target start end plan.old counters.old) result plan.new counters.new }
{
    let g = columns::column_ground(formats, schema, lengths, places, buffers, body, first, n);
    if g != 0 {
        return g;
    }
    let g = own_ground(formats, schema, lengths, first, target, start, end);
    if g != 0 {
        return g;
    }
    if plan.len() != plan_words::WORDS {
        return 14;
    }
    if counters.len() != plan_words::COUNTERS {
        return 14;
    }
    let row = row_of(formats, schema, lengths, places, body, first, target);
    row_plan::write_words(row, plan);
    row_plan::write_counters(end - start, counters);
    0
}

// THE CALL: the rows start .. end - 1 of the run-end column of n nodes that begins at node `first`, of the type of node `target`, which is of
// its values' format. What it leaves is finished as a join is.
pub fn expand(
    formats: &[u8],
    schema: &[u32],
    lengths: &[u64],
    places: &[u64],
    buffers: &[u64],
    body: &[u8],
    first: u32,
    n: u32,
    target: u32,
    start: u64,
    end: u64,
    parts: &[u64],
    plan: &mut [u64],
    counters: &mut [u64],
    room: &mut [u8],
) -> u8
    ensures { Makes (expanding (was formats) (was schema) (lent_tables lengths places buffers body) first n target start end (was parts)) plan counters room result }
{
    if columns::CEILING < room.len() {
        return 9;
    }
    let g = columns::column_ground(formats, schema, lengths, places, buffers, body, first, n);
    if g != 0 {
        return g;
    }
    let g = own_ground(formats, schema, lengths, first, target, start, end);
    if g != 0 {
        return g;
    }
    let row = row_of(formats, schema, lengths, places, body, first, target);
    let m = end - start;
    let g = row_plan::room_ground(row, m, parts, plan.len(), counters.len(), room.len());
    if g != 0 {
        return g;
    }
    row_plan::write_words(row, plan);
    row_plan::write_counters(m, counters);
    write(
        formats,
        schema,
        lengths,
        places,
        body,
        first,
        start,
        end,
        row.nulls != 0,
        plan,
        parts,
        room,
    );
    0
}
