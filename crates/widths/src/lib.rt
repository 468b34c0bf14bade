// A column in other widths: the question before any room is lent, and the call. The result is finished as a join is.
#![tactic(auto)]

ghost use Rattle.std.specs.Prelude.{◌≡◌, true, List, ℕ, ◌≤◌, length, replicate};
ghost use Rattle.clauses.specs.Slices.{was, left};
ghost use Rattle.array_data.specs.lent_tables.Lent.{tables};
ghost use Rattle.source_rules.specs.kinds.Rows.{tables_of};
ghost use Rattle.columns.specs.Grounds.{column_ground};
ghost use Rattle.walk.specs.Log.{Did};
ghost use Rattle.anew.specs.ResultPlan.{Comes, plan_by};
ghost use Rattle.with_capacities.specs.Answer.{Makes, lent_tables};
ghost use Rattle.anew.specs.result_plan.Answer.{Asks};
ghost use Rattle.width_walks.specs.target_rules.Target.{is_target};
ghost use Rattle.width_walks.specs.Call.{from_words, asked, convert};
ghost use Rattle.widths.specs.Made.{ground_of, words_of, walk_by};

use anew::result_plan;
use walk::plan_words;

// The ground of the column and of the target: 9, 10, 12, and 10 where the target differs in more than widths.
fn ground_of(
    formats: &[u8],
    schema: &[u32],
    lengths: &[u64],
    places: &[u64],
    buffers: &[u64],
    body: &[u8],
    first: u32,
    n: u32,
    target: u32,
    target_n: u32,
) -> u8
    ensures { result ≡ ground_of (was formats) (was schema) (tables_of (was lengths) (was places) (was buffers) (was body)) first n target target_n }
{
    let g = columns::column_ground(formats, schema, lengths, places, buffers, body, first, n);
    if g != 0 {
        return g;
    }
    let from = first as usize;
    let to = target as usize;
    if !width_walks::target_rules::is_target(
        formats,
        schema,
        from,
        n as usize,
        to,
        target_n as usize,
    ) {
        return 10;
    }
    0
}

// Where each of the n nodes of the result comes from.
fn from_words(formats: &[u8], schema: &[u32], first: u32, n: u32) -> [u64; 32]
    requires { n ≤ 32 }
    ensures { result ≡ from_words (was formats) (was schema) first n (replicate 32 0) }
{
    let mut from = [0u64; 32];
    width_walks::write_from(formats, schema, first as usize, n as usize, &mut from);
    from
}

// The words of the result's nodes, n of them from node `target` on.
fn words_of(
    formats: &[u8],
    schema: &[u32],
    lengths: &[u64],
    places: &[u64],
    body: &[u8],
    first: u32,
    n: u32,
    target: u32,
    words: &mut [u64; result_plan::NODE_WORDS],
)
    requires { (n ≤ 32) × Comes (tables lengths.now places.now body.now) first n (from_words formats.now schema.now first n (replicate 32 0)) }
    ensures { words.new ≡ words_of (was formats) (was schema) (tables (was lengths) (was places) (was body)) first n target }
{
    let from = from_words(formats, schema, first, n);
    result_plan::words_anew(
        formats,
        schema,
        target as usize,
        n as usize,
        lengths,
        places,
        body,
        first as usize,
        &from,
        true,
        words,
    );
}

// The question before any room is lent: the ground of refusal, or plan and counters of the result, by which `parts::part_at` and
// `measure::needed_bytes` say what room it needs.
pub fn plan_convert(
    formats: &[u8],
    schema: &[u32],
    lengths: &[u64],
    places: &[u64],
    buffers: &[u64],
    body: &[u8],
    first: u32,
    n: u32,
    target: u32,
    target_n: u32,
    plan: &mut [u64],
    counters: &mut [u64],
) -> u8
    ensures { Asks (asked (was formats) (was schema) (lent_tables lengths places buffers body) first n target target_n plan.old counters.old) result plan.new counters.new }
{
    let g = ground_of(
        formats, schema, lengths, places, buffers, body, first, n, target, target_n,
    );
    if g != 0 {
        return g;
    }
    let mut words = [0u64; result_plan::NODE_WORDS];
    words_of(
        formats, schema, lengths, places, body, first, n, target, &mut words,
    );
    let none = [0u64; 0];
    let mut nothing = [0u8; 0];
    let mut tally = [0u64; plan_words::COUNTERS];
    let g = width_loop::convert_walk(
        formats,
        schema,
        lengths,
        places,
        body,
        first,
        n,
        target,
        &words,
        &none,
        &mut tally,
        &mut nothing,
        false,
    );
    if g != 0 {
        return g;
    }
    if plan.len() != plan_words::WORDS {
        return 14;
    }
    if counters.len() != plan_words::COUNTERS {
        return 14;
    }
    let made = with_capacities::copied(tally);
    result_plan::plan_by(&words, n as usize, 0, plan);
    with_capacities::store(counters, &made, plan_words::COUNTERS);
    0
}

// The plan by the words of its nodes left with the caller, the walk made by it, and its counters left.
fn make(
    formats: &[u8],
    schema: &[u32],
    lengths: &[u64],
    places: &[u64],
    body: &[u8],
    first: u32,
    n: u32,
    target: u32,
    words: &[u64; result_plan::NODE_WORDS],
    parts: &[u64],
    plan: &mut [u64],
    counters: &mut [u64],
    room: &mut [u8],
) -> u8
    requires plan_len { (length plan.old ≡ 872) × (length counters.old ≡ 96) × (n ≤ 32) }
    requires by_index { (buffers : List ℕ) × (column_ground formats.now schema.now (tables_of lengths.now places.now buffers body.now) first n ≡ 0) }
    requires n_value { is_target formats.now schema.now first n target n ≡ true }
    ensures plan_value { plan.new ≡ plan_by (was words) n 0 }
    ensures fact { let p = plan_by (was words) n 0 in ((buffers : List ℕ) → Did p (was parts) true (walk_by (was formats) (was schema) (tables_of (was lengths) (was places) buffers (was body)) first n target p) room.old result counters.new room.new) }
{
    result_plan::plan_by(words, n as usize, 0, plan);
    let mut tally = [0u64; plan_words::COUNTERS];
    let g = width_loop::convert_walk(
        formats, schema, lengths, places, body, first, n, target, plan, parts, &mut tally, room,
        true,
    );
    let made = with_capacities::copied(tally);
    with_capacities::store(counters, &made, plan_words::COUNTERS);
    g
}

// A column in the widths of the target, 0 or the ground of refusal. A refused one changes nothing.
pub fn convert(
    formats: &[u8],
    schema: &[u32],
    lengths: &[u64],
    places: &[u64],
    buffers: &[u64],
    body: &[u8],
    first: u32,
    n: u32,
    target: u32,
    target_n: u32,
    parts: &[u64],
    plan: &mut [u64],
    counters: &mut [u64],
    room: &mut [u8],
) -> u8
    ensures { Makes (convert (was formats) (was schema) (lent_tables lengths places buffers body) first n target target_n (was parts)) plan counters room result }
{
    if columns::CEILING < room.len() {
        return 9;
    }
    let g = ground_of(
        formats, schema, lengths, places, buffers, body, first, n, target, target_n,
    );
    if g != 0 {
        return g;
    }
    let mut words = [0u64; result_plan::NODE_WORDS];
    words_of(
        formats, schema, lengths, places, body, first, n, target, &mut words,
    );
    let mut tried = [0u64; plan_words::COUNTERS];
    let g = width_loop::convert_walk(
        formats, schema, lengths, places, body, first, n, target, &words, parts, &mut tried, room,
        false,
    );
    if g != 0 {
        return g;
    }
    let tally = with_capacities::copied(tried);
    let g = result_plan::words_ground(
        &words,
        n as usize,
        &tally,
        parts,
        plan.len(),
        counters.len(),
        room.len(),
    );
    if g != 0 {
        return g;
    }
    make(
        formats, schema, lengths, places, body, first, n, target, &words, parts, plan, counters,
        room,
    )
}
