// A fixed-width column into runs: the question before any room is lent, and the call.
ghost use Rattle.std.specs.Prelude.{◌≡◌, [], true, ◌-◌, ◌≤◌, length};
ghost use Rattle.clauses.specs.Slices.{was, left};
ghost use Rattle.schema.specs.formats.Code.{width_of};
ghost use Rattle.schema.specs.Tree.{code_of};
ghost use Rattle.array_data.specs.lent_tables.Lent.{tables};
ghost use Rattle.plan.specs.Plan.{flag};
ghost use Rattle.with_capacities.specs.Answer.{Makes, lent_tables};
ghost use Rattle.anew.specs.Anew.{room_ground};
ghost use Rattle.anew.specs.ResultPlan.{keeps_from, Comes, plan_anew};
ghost use Rattle.anew.specs.result_plan.Answer.{Asks};
ghost use Rattle.aggregates.specs.patterns.Parts.{Sized};
ghost use Rattle.coding.specs.Counted.{all_counts};
ghost use Rattle.coding.specs.Encode.{runs_over, encode_own, from_column, encode_asked, encoding, last_of, Codable, RoomFor, runs_in};
ghost use Rattle.coding.specs.Planned.{run_plan};

use crate::encode_rows;
use crate::run_coding::Spots;
use plan::dictionaries;
use walk::plan_words;

// Whether the three nodes from node `target` on are a run-end type over the format of the column that begins at node `first`.
fn is_due(formats: &[u8], schema: &[u32], first: u32, target: u32) -> bool
    ensures { result ≡ runs_over (was formats) (was schema) first target }
{
    let at = target as usize;
    if !schema::is_within_ceilings(formats, schema, at, 3) {
        return false;
    }
    if !schema::is_typed(formats, schema, at, 3) {
        return false;
    }
    if !schema::formats::is_run_end(schema::code_of(formats, schema, at, 0)) {
        return false;
    }
    if !crate::is_plain(formats, schema, target, 2) {
        return false;
    }
    schema::code_of(formats, schema, at, 2) == schema::code_of(formats, schema, first as usize, 0)
}

// THE GROUNDS OF ITS OWN before room is asked: 10, 2, 7.
fn own_ground(
    formats: &[u8],
    schema: &[u32],
    lengths: &[u64],
    first: u32,
    target: u32,
    start: u64,
    end: u64,
) -> u8
    ensures { result ≡ encode_own (was formats) (was schema) (tables (was lengths) [] []) first 0 target start end }
{
    if !crate::is_plain(formats, schema, first, 0) {
        return 10;
    }
    if !is_due(formats, schema, first, target) {
        return 10;
    }
    if !columns::column_pair::is_range(lengths, first, start, end) {
        return 2;
    }
    let w = schema::formats::width_of(schema::code_of(formats, schema, target as usize, 1));
    if !crate::ends_hold(w, end - start) {
        return 7;
    }
    0
}

// 1 if the column has a null and else 0.
fn null_word(lengths: &[u64], places: &[u64], body: &[u8], first: u32) -> u64
    requires { Comes (tables lengths.now places.now body.now) first 3 from_column }
    ensures value { result ≡ flag (keeps_from (tables (was lengths) (was places) (was body)) first from_column 2) }
    ensures upper_bound { result ≤ 1 }
{
    if dictionaries::null_count(lengths, places, body, first as usize) == 0 {
        return 0;
    }
    1
}

// The words of a plan of runs: the codes of run ends and values, and which of the three nodes are nullable; the others are 0.
fn run_words(ends: u64, values: u64, f0: u64, f1: u64, f2: u64, k: u64) -> [u64; plan_words::WORDS]
    requires { k ≤ 1 }
    ensures { result ≡ run_plan ends values f0 f1 f2 k }
{
    let mut plan = [0u64; plan_words::WORDS];
    plan[0] = 23;
    plan[2] = 3;
    plan[4] = f0;
    plan[8] = ends;
    plan[10] = 2;
    plan[12] = f1;
    plan[16] = values;
    plan[18] = 3;
    plan[20] = f2;
    plan[plan_words::SOURCE_COUNT] = 1;
    plan[plan_words::NODE_COUNT] = 3;
    plan[21] = k;
    plan[22] = 1 + k;
    plan[plan_words::PART_COUNT] = 2 + k;
    plan
}

// The plan of the runs.
fn planned(
    formats: &[u8],
    schema: &[u32],
    lengths: &[u64],
    places: &[u64],
    body: &[u8],
    first: u32,
    target: u32,
) -> [u64; plan_words::WORDS]
    requires comes { Comes (tables lengths.now places.now body.now) first 3 from_column }
    requires target_value { runs_over formats.now schema.now first target ≡ true }
    ensures { result ≡ plan_anew (was formats) (was schema) target 3 (keeps_from (tables (was lengths) (was places) (was body)) first from_column) true 0 }
{
    let at = target as usize;
    let ends = schema::code_of(formats, schema, at, 1);
    let values = schema::code_of(formats, schema, at, 2);
    let f0 = schema::flag_of(schema, at, 0);
    let f1 = schema::flag_of(schema, at, 1);
    let f2 = schema::flag_of(schema, at, 2);
    let k = null_word(lengths, places, body, first);
    run_words(
        ends as u64,
        values as u64,
        f0 as u64,
        f1 as u64,
        f2 as u64,
        k,
    )
}

// The counters of n runs of m rows.
fn counters_of(m: u64, n: u64) -> [u64; plan_words::COUNTERS]
    ensures { result ≡ all_counts m n }
{
    let mut counters = [0u64; plan_words::COUNTERS];
    counters[3] = n;
    counters[6] = n;
    counters[0] = m;
    counters
}

// The counters of the runs of the rows start .. end - 1.
fn tried(
    formats: &[u8],
    schema: &[u32],
    lengths: &[u64],
    places: &[u64],
    body: &[u8],
    first: u32,
    start: u64,
    end: u64,
    keep: bool,
) -> [u64; plan_words::COUNTERS]
    requires { Codable formats.now schema.now (tables lengths.now places.now body.now) first start end keep }
    ensures { result ≡ all_counts (end - start) (length (last_of (was formats) (was schema) (tables (was lengths) (was places) (was body)) first start end keep)) }
{
    let w = schema::formats::width_of(schema::code_of(formats, schema, first as usize, 0));
    let s = crate::slots_of(lengths, places, first, 0, w, start);
    let m = end - start;
    let k = encode_rows::count_runs(body, w, keep, s, m as usize);
    counters_of(m, k)
}

// 14 or 13 of the room that is lent for those runs: they are counted only where the parts might not hold a run a row.
fn runs_ground(
    formats: &[u8],
    schema: &[u32],
    lengths: &[u64],
    places: &[u64],
    body: &[u8],
    first: u32,
    start: u64,
    end: u64,
    keep: bool,
    plan: &[u64],
    parts: &[u64],
    words: usize,
    counters: usize,
    size: usize,
) -> u8
    requires { Codable formats.now schema.now (tables lengths.now places.now body.now) first start end keep }
    ensures { result ≡ room_ground (was plan) (all_counts (end - start) (length (last_of (was formats) (was schema) (tables (was lengths) (was places) (was body)) first start end keep))) (was parts) words counters size }
{
    let most = counters_of(end - start, end - start);
    if anew::result_plan::room_ground(plan, &most, parts, words, counters, size) == 0 {
        return 0;
    }
    let tally = tried(
        formats, schema, lengths, places, body, first, start, end, keep,
    );
    anew::result_plan::room_ground(plan, &tally, parts, words, counters, size)
}

// The runs of the rows start .. end - 1 into their parts, and how many they are.
fn write(
    formats: &[u8],
    schema: &[u32],
    lengths: &[u64],
    places: &[u64],
    body: &[u8],
    first: u32,
    target: u32,
    start: u64,
    end: u64,
    keep: bool,
    plan: &[u64],
    parts: &[u64],
    room: &mut [u8],
) -> u64
    requires sized { Sized (width_of (code_of formats.now schema.now target 1)) × Codable formats.now schema.now (tables lengths.now places.now body.now) first start end keep }
    requires room_for { RoomFor formats.now schema.now (tables lengths.now places.now body.now) first start end target plan.now parts.now keep (length room.old) }
    ensures room_value { room.new ≡ runs_in (was formats) (was schema) (tables (was lengths) (was places) (was body)) first start end target (was plan) (was parts) keep room.old }
    ensures value { result ≡ length (last_of (was formats) (was schema) (tables (was lengths) (was places) (was body)) first start end keep) }
{
    let w = schema::formats::width_of(schema::code_of(formats, schema, first as usize, 0));
    let e = schema::formats::width_of(schema::code_of(formats, schema, target as usize, 1));
    let s = crate::slots_of(lengths, places, first, 0, w, start);
    let t = Spots {
        ends: crate::start_of(plan, parts, 1, 1) as usize,
        values: crate::start_of(plan, parts, 2, 1) as usize,
        mask: crate::start_of(plan, parts, 2, 0) as usize,
    };
    encode_rows::write_runs(room, body, w, keep, s, e, t, (end - start) as usize)
}

// THE QUESTION before any room is lent: the first ground that stands, or the plan and the counters of the result.
pub fn plan_encode(
    formats: &[u8],
    schema: &[u32],
    lengths: &[u64],
    places: &[u64],
    buffers: &[u64],
    body: &[u8],
    first: u32,
    n: u32,
    target: u32,
    start: u64,
    end: u64,
    plan: &mut [u64],
    counters: &mut [u64],
) -> u8
    ensures { Asks (encode_asked (was formats) (was schema) (lent_tables lengths places buffers body) first n target start end plan.old counters.old) result plan.new counters.new }
{
    let g = columns::column_ground(formats, schema, lengths, places, buffers, body, first, n);
    if g != 0 {
        return g;
    }
    let g = own_ground(formats, schema, lengths, first, target, start, end);
    if g != 0 {
        return g;
    }
    if plan.len() != plan_words::WORDS {
        return 14;
    }
    if counters.len() != plan_words::COUNTERS {
        return 14;
    }
    let draft = planned(formats, schema, lengths, places, body, first, target);
    let keep = plan_words::keeps_of(&draft, 2) != 0;
    let tally = tried(
        formats, schema, lengths, places, body, first, start, end, keep,
    );
    anew::result_plan::keep_result(plan, counters, &draft, &tally);
    0
}

// THE CALL: the runs of the rows start .. end - 1 of the column of n nodes that begins at node `first`, of the type whose three nodes begin
// at node `target`. What it leaves is finished as a join is.
pub fn encode(
    formats: &[u8],
    schema: &[u32],
    lengths: &[u64],
    places: &[u64],
    buffers: &[u64],
    body: &[u8],
    first: u32,
    n: u32,
    target: u32,
    start: u64,
    end: u64,
    parts: &[u64],
    plan: &mut [u64],
    counters: &mut [u64],
    room: &mut [u8],
) -> u8
    ensures { Makes (encoding (was formats) (was schema) (lent_tables lengths places buffers body) first n target start end (was parts)) plan counters room result }
{
    if columns::CEILING < room.len() {
        return 9;
    }
    let g = columns::column_ground(formats, schema, lengths, places, buffers, body, first, n);
    if g != 0 {
        return g;
    }
    let g = own_ground(formats, schema, lengths, first, target, start, end);
    if g != 0 {
        return g;
    }
    let draft = planned(formats, schema, lengths, places, body, first, target);
    let keep = plan_words::keeps_of(&draft, 2) != 0;
    let g = runs_ground(
        formats,
        schema,
        lengths,
        places,
        body,
        first,
        start,
        end,
        keep,
        &draft,
        parts,
        plan.len(),
        counters.len(),
        room.len(),
    );
    if g != 0 {
        return g;
    }
    let k = write(
        formats, schema, lengths, places, body, first, target, start, end, keep, &draft, parts,
        room,
    );
    let tally = counters_of(end - start, k);
    anew::result_plan::keep_result(plan, counters, &draft, &tally);
    0
}
