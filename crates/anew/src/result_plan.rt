// The plan of a column that is written anew outside a join, the grounds of its room, and where plan and counters are left.
ghost use Rattle.std.specs.Prelude.{◌≡◌, List, ℕ, ◌≤◌, ◌<◌, ◌^◌, length, replicate};
ghost use Rattle.array_data.specs.lent_tables.Lent.{tables};
ghost use Rattle.plan.specs.Plan.{flag, with_tree, with_parts};
ghost use Rattle.anew.specs.Anew.{room_ground};
ghost use Rattle.anew.specs.ResultPlan.{keeps_from, Comes, with_nulls, dictionary_word, with_dictionaries, words_anew, plan_by, plan_anew};

use array_data::{lent_tables, node_words};
use plan::dictionaries;
use walk::plan_words;

// The words of 32 nodes, with which a plan begins.
pub const NODE_WORDS: usize = 256;

// ---- the plan

// 1 if node i of the result comes from a node with a null and else 0.
fn null_word(
    lengths: &[u64],
    places: &[u64],
    body: &[u8],
    first: usize,
    from: &[u64],
    n: usize,
    i: usize,
) -> u64
    requires { (i < n) × (n ≤ 32) × (first < 2 ^ 32) × Comes (tables lengths.now places.now body.now) first n from.now }
    ensures { result ≡ flag (keeps_from (tables lengths.now places.now body.now) first from.now i) }
{
    let j = lent_tables::at_u64(from, i);
    if j == 0 {
        return 0;
    }
    if dictionaries::null_count(lengths, places, body, first + (j - 1) as usize) == 0 {
        return 0;
    }
    1
}

// Which of the first n nodes keep nulls: exactly those that come from a node with one.
fn write_nulls(
    lengths: &[u64],
    places: &[u64],
    body: &[u8],
    first: usize,
    from: &[u64],
    n: usize,
    words: &mut [u64; NODE_WORDS],
)
    requires { (n ≤ 32) × (first < 2 ^ 32) × Comes (tables lengths.now places.now body.now) first n from.now }
    ensures { words.new ≡ with_nulls (keeps_from (tables lengths.now places.now body.now) first from.now) n words.old }
{
    for i in 0..n {
        words[8 * i + 5] = null_word(lengths, places, body, first, from, n, i);
    }
}

// 1 if node i has a dictionary and dictionaries are in parts, and else 0.
fn dictionary_word(joined: bool, words: &[u64; NODE_WORDS], i: usize) -> u64
    requires { i < 32 }
    ensures { result ≡ dictionary_word joined words.now i }
{
    if plan_words::dictionary_of(words, i) == 0 {
        return 0;
    }
    if joined {
        return 1;
    }
    0
}

// Which of the first n nodes have a dictionary in parts.
fn write_dictionaries(joined: bool, n: usize, words: &mut [u64; NODE_WORDS])
    requires { n ≤ 32 }
    ensures { words.new ≡ with_dictionaries joined n words.old }
{
    for i in 0..n {
        words[8 * i + 7] = dictionary_word(joined, words, i);
    }
}

// The part of the first buffer of each of the first n nodes.
fn write_parts(n: usize, words: &mut [u64; NODE_WORDS])
    requires { n ≤ 32 }
    ensures { words.new ≡ with_parts n words.old }
{
    for i in 0..n {
        words[8 * i + 6] = plan::parts::part_word(words, i);
    }
}

// THE WORDS OF A RESULT'S NODES, whose type is that of the n nodes from node `target` on. They come from those of the column from node `first`
// on as `from` says: one more than the number of such a node, 0 for none.
pub fn words_anew(
    formats: &[u8],
    schema: &[u32],
    target: usize,
    n: usize,
    lengths: &[u64],
    places: &[u64],
    body: &[u8],
    first: usize,
    from: &[u64],
    joined: bool,
    words: &mut [u64; NODE_WORDS],
)
    requires { (target < 2 ^ 32) × (n ≤ 32) × (first < 2 ^ 32) × Comes (tables lengths.now places.now body.now) first n from.now }
    ensures { words.new ≡ words_anew formats.now schema.now target n (keeps_from (tables lengths.now places.now body.now) first from.now) joined }
{
    node_words::plant(formats, schema, target, n, words);
    write_nulls(lengths, places, body, first, from, n, words);
    write_dictionaries(joined, n, words);
    write_parts(n, words);
}

// The words of the nodes over zeros.
fn put_words(words: &[u64; NODE_WORDS], plan: &mut [u64])
    requires { plan.old ≡ replicate 872 0 }
    ensures { plan.new ≡ with_tree words.now }
{
    plan[..NODE_WORDS].copy_from_slice(words);
}

// The plan by the words of its n nodes. From node `kept` on all are kept, where it is not 0.
pub fn plan_by(words: &[u64; NODE_WORDS], n: usize, kept: u64, plan: &mut [u64])
    requires { (n ≤ 32) × (length plan.old ≡ 872) }
    ensures { plan.new ≡ plan_by words.now n kept }
{
    plan.fill(0);
    put_words(words, plan);
    plan[plan_words::SOURCE_COUNT] = 1;
    plan[plan_words::NODE_COUNT] = n as u64;
    plan[plan_words::PART_COUNT] = plan::parts::parts_before(words, n) as u64;
    plan[plan_words::KEPT] = kept;
}

// THE PLAN OF A RESULT by those words.
pub fn plan_anew(
    formats: &[u8],
    schema: &[u32],
    target: usize,
    n: usize,
    lengths: &[u64],
    places: &[u64],
    body: &[u8],
    first: usize,
    from: &[u64],
    joined: bool,
    kept: u64,
    plan: &mut [u64; plan_words::WORDS],
)
    requires { (target < 2 ^ 32) × (n ≤ 32) × (first < 2 ^ 32) × Comes (tables lengths.now places.now body.now) first n from.now }
    ensures { plan.new ≡ plan_anew formats.now schema.now target n (keeps_from (tables lengths.now places.now body.now) first from.now) joined kept }
{
    let mut words = [0u64; NODE_WORDS];
    words_anew(
        formats, schema, target, n, lengths, places, body, first, from, joined, &mut words,
    );
    *plan = [0u64; plan_words::WORDS];
    plan_by(&words, n, kept, plan);
}

// ---- the room

// 14 or 13 of the parts that are lent for a result, where plan, counters and room have so many numbers and bytes; 0 where it can be written.
pub fn room_ground(
    plan: &[u64],
    tally: &[u64; plan_words::COUNTERS],
    parts: &[u64],
    words: usize,
    counters: usize,
    m: usize,
) -> u8
    ensures { result ≡ room_ground plan.now tally.now parts.now words counters m }
{
    if !with_capacities::room_placed(plan, parts, words, counters, m) {
        return 14;
    }
    if !plan::parts::parts_hold(plan, tally, parts) {
        return 13;
    }
    0
}

// The same where the plan is by the words of n nodes.
pub fn words_ground(
    words: &[u64; NODE_WORDS],
    n: usize,
    tally: &[u64; plan_words::COUNTERS],
    parts: &[u64],
    plan: usize,
    counters: usize,
    m: usize,
) -> u8
    requires { n ≤ 32 }
    ensures { (kept : ℕ) → result ≡ room_ground (plan_by words.now n kept) tally.now parts.now plan counters m }
{
    if plan != plan_words::WORDS {
        return 14;
    }
    if counters != plan_words::COUNTERS {
        return 14;
    }
    if !plan::placed::parts_placed(parts, plan::parts::parts_before(words, n), m) {
        return 14;
    }
    if !plan::parts::nodes_hold(words, n, tally, parts) {
        return 13;
    }
    0
}

// Leaves the plan of a result and its counters with the caller.
pub fn keep_result(plan: &mut [u64], counters: &mut [u64], draft: &[u64], tally: &[u64])
    requires { (length plan.old ≡ 872) × (length counters.old ≡ 96) × (length draft.now ≡ 872) × (length tally.now ≡ 96) }
    ensures plan_after { plan.new ≡ draft.now }
    ensures counters_after { counters.new ≡ tally.now }
{
    with_capacities::store(plan, draft, plan_words::WORDS);
    with_capacities::store(counters, tally, plan_words::COUNTERS);
}
