// The plan of a join as the opening plans it, before any dictionary is joined: one function for each kind of word.
#![tactic(auto)]

pub mod dictionaries;
mod fine;
pub mod grounds;
pub mod parts;
pub mod placed;

ghost use Rattle.std.specs.Prelude.{◌≡◌, ℕ, suc, ◌+◌, ◌*◌, ◌^◌, ◌≤◌, ◌<◌, min, get_or};
ghost use Rattle.clauses.specs.Slices.{was, left};
ghost use Rattle.schema.specs.formats.Code.{is_string};
ghost use Rattle.walk.specs.State.{code_of};
ghost use Rattle.array_data.specs.lent_tables.Lent.{tables};
ghost use Rattle.array_data.specs.node_words.Words.{planted};
ghost use Rattle.plan.specs.dictionaries.Sources.{Countable};
ghost use Rattle.array_data.specs.Sources.{first_of};
ghost use Rattle.plan.specs.Plan.{with_tree, parent_of, asked, is_ends, keep_word, with_keeps, joined_word, with_joined, buffers_up_to, base_word, with_bases, with_counts, with_parts, flag, laid_out, planned, Plannable};

use array_data::{lent_tables, node_words};
use walk::plan_words;

// ---- the type tree

// The words of the type tree, and zeros behind them.
fn write_tree(tree: &[u64; 256], plan: &mut [u64; plan_words::WORDS])
    ensures { plan.new ≡ with_tree (was tree) }
{
    *plan = [0u64; plan_words::WORDS];
    plan[..256].copy_from_slice(tree);
}

// ---- which nodes keep nulls

// The node above node i: the last one before it whose subtree holds it.
fn parent_of(plan: &[u64; plan_words::WORDS], i: usize) -> usize
    requires { i < 32 }
    ensures value { result ≡ parent_of (was plan) i }
    ensures upper_bound { result < 32 }
{
    for p in (0..i).rev() {
        if i < plan_words::end_of(plan, p) {
            return p;
        }
    }
    0
}

// Whether the caller or the node above asks for the nulls of node i.
fn is_asked(plan: &[u64; plan_words::WORDS], keep: bool, i: usize) -> bool
    requires { i < 32 }
    ensures { result ≡ asked (was plan) keep i }
{
    if i == 0 {
        return keep;
    }
    if plan_words::dictionary_of(plan, i - 1) != 0 {
        return false;
    }
    plan_words::keeps_of(plan, parent_of(plan, i)) != 0
}

// Whether node i is the run ends of the node before it.
fn is_ends(plan: &[u64; plan_words::WORDS], i: usize) -> bool
    requires { i < 32 }
    ensures { result ≡ is_ends (was plan) i }
{
    if i == 0 {
        return false;
    }
    schema::formats::is_run_end(plan_words::code_of(plan, i - 1))
}

// 1 if node i keeps nulls and else 0.
fn keep_word(
    sources: &[u32],
    lengths: &[u64],
    places: &[u64],
    body: &[u8],
    m: usize,
    keep: bool,
    plan: &[u64; plan_words::WORDS],
    i: usize,
) -> u64
    requires { (m ≤ 16) × (i < 32) × ((s : ℕ) → s < m → Countable (tables lengths.now places.now body.now) (first_of sources.now s + i)) }
    ensures { result ≡ keep_word (tables (was lengths) (was places) (was body)) (was sources) m keep (was plan) i }
{
    if is_ends(plan, i) {
        return 0;
    }
    let above = is_asked(plan, keep, i);
    dictionaries::keeps(above, sources, lengths, places, body, m, i) as u64
}

// Which of the first n nodes keep nulls.
fn write_keeps(
    sources: &[u32],
    lengths: &[u64],
    places: &[u64],
    body: &[u8],
    m: usize,
    keep: bool,
    n: usize,
    plan: &mut [u64; plan_words::WORDS],
)
    requires { (m ≤ 16) × (n ≤ 32) × ((s i : ℕ) → s < m → i < n → Countable (tables lengths.now places.now body.now) (first_of sources.now s + i)) }
    ensures { plan.new ≡ with_keeps (tables (was lengths) (was places) (was body)) (was sources) m keep n plan.old }
{
    for i in 0..n {
        plan[8 * i + 5] = keep_word(sources, lengths, places, body, m, keep, plan, i);
    }
}

// ---- which dictionaries are joined

// Whether the values of the dictionary whose keys are node i are byte strings.
fn has_strings(plan: &[u64], i: usize) -> bool
    requires { i < 32 }
    ensures { result ≡ is_string (code_of (was plan) (suc i)) }
{
    let word = lent_tables::at_u64(plan, 8 * (i + 1));
    schema::formats::is_string((word % 256) as u8)
}

// 1 if node i has dictionaries that are joined and else 0.
fn joined_word(
    sources: &[u32],
    lengths: &[u64],
    places: &[u64],
    body: &[u8],
    m: usize,
    plan: &[u64; plan_words::WORDS],
    i: usize,
) -> u64
    requires { (m ≤ 16) × (i < 32) }
    ensures { result ≡ joined_word (tables (was lengths) (was places) (was body)) (was sources) m (was plan) i }
{
    if plan_words::dictionary_of(plan, i) == 0 {
        return 0;
    }
    let string = has_strings(plan, i);
    !dictionaries::all_share(sources, lengths, places, body, m, i + 1, string) as u64
}

// Which of the first n nodes have dictionaries that are joined.
fn write_joined(
    sources: &[u32],
    lengths: &[u64],
    places: &[u64],
    body: &[u8],
    m: usize,
    n: usize,
    plan: &mut [u64; plan_words::WORDS],
)
    requires { (m ≤ 16) × (n ≤ 32) }
    ensures { plan.new ≡ with_joined (tables (was lengths) (was places) (was body)) (was sources) m n plan.old }
{
    for i in 0..n {
        plan[8 * i + 7] = joined_word(sources, lengths, places, body, m, plan, i);
    }
}

// ---- what is added to keys and buffer numbers

// How many data buffers node k has; 33 stands for any number above.
pub fn buffers_of(places: &[u64], k: usize) -> u64
    requires { k < 2 ^ 33 }
    ensures value { result ≡ min (get_or (was places) (9 * k + 8) 0) 33 }
    ensures upper_bound { result ≤ 33 }
{
    lent_tables::place(places, k, 8).min(33)
}

// How many data buffers the sources before source s have at node i.
pub fn buffers_up_to(sources: &[u32], places: &[u64], i: usize, s: usize) -> u64
    requires { (i < 32) × (s ≤ 16) }
    ensures value { result ≡ buffers_up_to (was places) (was sources) i s }
    ensures upper_bound { result ≤ 33 * s }
{
    let mut sum: u64 = 0;
    for t in 0..s {
        let k = dictionaries::node_of(sources, t, i);
        sum += buffers_of(places, k);
    }
    sum
}

// What is added to source s's keys or buffer numbers at node i.
fn base_word(
    sources: &[u32],
    lengths: &[u64],
    places: &[u64],
    body: &[u8],
    m: usize,
    plan: &[u64; plan_words::WORDS],
    s: usize,
    i: usize,
) -> u64
    requires { (m ≤ 16) × (s ≤ 16) × (i < 32) }
    ensures { result ≡ base_word (tables (was lengths) (was places) (was body)) (was sources) m (was plan) s i }
{
    if schema::formats::is_view(plan_words::code_of(plan, i)) {
        return buffers_up_to(sources, places, i, s);
    }
    if plan_words::dictionary_of(plan, i) == 0 {
        return 0;
    }
    let string = has_strings(plan, i);
    dictionaries::start_of_keys(sources, lengths, places, body, m, i + 1, string, s)
}

// What is added to each source's keys and buffer numbers, at each of 32 nodes.
fn write_bases(
    sources: &[u32],
    lengths: &[u64],
    places: &[u64],
    body: &[u8],
    m: usize,
    plan: &mut [u64; plan_words::WORDS],
)
    requires { m ≤ 16 }
    ensures { plan.new ≡ with_bases (tables (was lengths) (was places) (was body)) (was sources) m plan.old }
{
    for q in 0..32 * m {
        plan[plan_words::BASES + q] = base_word(
            sources,
            lengths,
            places,
            body,
            m,
            plan,
            q / 32,
            q % 32,
        );
    }
}

// ---- parts, and the whole

// The part of the first buffer of each of the first n nodes.
pub fn write_parts(n: usize, plan: &mut [u64; plan_words::WORDS])
    requires { n ≤ 32 }
    ensures { plan.new ≡ with_parts n plan.old }
{
    for i in 0..n {
        plan[8 * i + 6] = crate::parts::part_word(plan, i);
    }
}

// The type tree with m sources and n nodes.
pub fn write_type(
    formats: &[u8],
    schema: &[u32],
    first: usize,
    m: usize,
    n: usize,
    plan: &mut [u64; plan_words::WORDS],
)
    requires { (first < 4294967296) × (n < 4294967296) }
    ensures { plan.new ≡ with_counts m n (with_tree (planted (was formats) (was schema) first n)) }
{
    let mut tree = [0u64; 256];
    node_words::plant(formats, schema, first, n, &mut tree);
    write_tree(&tree, plan);
    plan[plan_words::SOURCE_COUNT] = m as u64;
    plan[plan_words::NODE_COUNT] = n as u64;
}

// All words but the choice.
fn lay_out(
    sources: &[u32],
    formats: &[u8],
    schema: &[u32],
    lengths: &[u64],
    places: &[u64],
    body: &[u8],
    keep: bool,
    plan: &mut [u64; plan_words::WORDS],
)
    requires { Plannable (tables lengths.now places.now body.now) sources.now }
    ensures { plan.new ≡ laid_out (was formats) (was schema) (tables (was lengths) (was places) (was body)) (was sources) keep }
{
    let m = sources.len() / 2;
    let first = lent_tables::at_u32(sources, 0) as usize;
    let n = lent_tables::at_u32(sources, 1) as usize;
    write_type(formats, schema, first, m, n, plan);
    write_keeps(sources, lengths, places, body, m, keep, n, plan);
    write_joined(sources, lengths, places, body, m, n, plan);
    write_bases(sources, lengths, places, body, m, plan);
    write_parts(n, plan);
    plan[plan_words::PART_COUNT] = crate::parts::part_total(plan) as u64;
}

// 1 for true.
fn choice_word(gaps: bool) -> u64
    ensures { result ≡ flag gaps }
{
    gaps as u64
}

// THE STATE AS IT IS PLANNED for sources that meet none of the grounds 9 to 12.
pub fn plan(
    sources: &[u32],
    formats: &[u8],
    schema: &[u32],
    lengths: &[u64],
    places: &[u64],
    body: &[u8],
    keep: bool,
    gaps: bool,
    plan: &mut [u64; plan_words::WORDS],
)
    requires { Plannable (tables lengths.now places.now body.now) sources.now }
    ensures { plan.new ≡ planned (was formats) (was schema) (tables (was lengths) (was places) (was body)) (was sources) keep gaps }
{
    lay_out(sources, formats, schema, lengths, places, body, keep, plan);
    plan[plan_words::GAPS] = choice_word(gaps);
}
