// The data buffers of views as the finished array names them: those of all sources, in order.
// Follows `into_builder` of arrow-data 60.1.0 src/transform/mod.rs, Apache-2.0; see NOTICE.
ghost use Rattle.std.specs.Prelude.{◌≡◌, ◌+◌, ◌*◌, ◌<◌, ◌≤◌, min, length, get_or};
ghost use Rattle.clauses.specs.Slices.{was, left};
ghost use Rattle.columnar.specs.Row.{seg};
ghost use Rattle.plan.specs.parts.Parts.{nodes_of};
ghost use Rattle.refinement.specs.orders.Order.{source_count};
ghost use Rattle.into_builder.specs.buffers.Names.{view_count, view_names, count_at, count_before, names_at, names_before, Behind};

use array_data::lent_tables;
use plan::dictionaries;
use walk::plan_words;

// ---- how many

// How many sources the plan was made for, at most 16.
fn source_count(plan: &[u64]) -> usize
    ensures value { result ≡ min (source_count (was plan)) 16 }
    ensures upper_bound { result ≤ 16 }
{
    let m = lent_tables::at_u64(plan, plan_words::SOURCE_COUNT);
    if 16 < m {
        return 16;
    }
    m as usize
}

// How many data buffers node i names.
pub fn count_at(plan: &[u64], sources: &[u32], places: &[u64], i: usize) -> u64
    requires { i < 32 }
    ensures value { result ≡ count_at (was plan) (was sources) (was places) i }
    ensures upper_bound { result ≤ 528 }
{
    if !schema::formats::is_view(plan_words::code_of(plan, i)) {
        return 0;
    }
    plan::buffers_up_to(sources, places, i, source_count(plan))
}

// How many data buffers the nodes before node n name.
pub fn count_before(plan: &[u64], sources: &[u32], places: &[u64], n: usize) -> u64
    requires { n ≤ 32 }
    ensures value { result ≡ count_before (was plan) (was sources) (was places) n }
    ensures upper_bound { result ≤ 16896 }
{
    let mut sum: u64 = 0;
    for i in 0..n {
        sum += count_at(plan, sources, places, i);
    }
    sum
}

// ---- which

// n numbers of a table from pair `from` on, 0 past its end, into another at number `at`.
fn copy_names(buffers: &[u64], from: u64, n: usize, names: &mut [u64], at: usize)
    requires { at + n ≤ length names.old }
    ensures { Behind names.old names.new at n (seg (λ q. get_or (was buffers) q 0) (2 * from) n) }
{
    for q in 0..n {
        names[at + q] = lent_tables::pair_at(buffers, from, (q / 2) as u64, q % 2);
    }
}

// The data buffers of node i, a view node, at number `at`.
fn view_names(
    plan: &[u64],
    sources: &[u32],
    places: &[u64],
    buffers: &[u64],
    i: usize,
    names: &mut [u64],
    at: usize,
)
    requires { (i < 32) × (at + 2 * view_count plan.now sources.now places.now i ≤ length names.old) }
    ensures { Behind names.old names.new at (2 * view_count (was plan) (was sources) (was places) i) (view_names (was plan) (was sources) (was places) (was buffers) i) }
{
    let m = source_count(plan);
    let mut end = at;
    for s in 0..m {
        let k = dictionaries::node_of(sources, s, i);
        let from = lent_tables::place(places, k, 7);
        let n = plan::buffers_of(places, k) as usize;
        copy_names(buffers, from, 2 * n, names, end);
        end += 2 * n;
    }
}

// The data buffers of node i, if it is a view node, at number `at`.
fn node_names(
    plan: &[u64],
    sources: &[u32],
    places: &[u64],
    buffers: &[u64],
    i: usize,
    names: &mut [u64],
    at: usize,
)
    requires { (i < 32) × (at + 2 * count_at plan.now sources.now places.now i ≤ length names.old) }
    ensures { Behind names.old names.new at (2 * count_at (was plan) (was sources) (was places) i) (names_at (was plan) (was sources) (was places) (was buffers) i) }
{
    if schema::formats::is_view(plan_words::code_of(plan, i)) {
        view_names(plan, sources, places, buffers, i, names, at);
    }
}

// The data buffers of every node.
pub fn write_buffers(
    plan: &[u64],
    sources: &[u32],
    places: &[u64],
    buffers: &[u64],
    names: &mut [u64],
)
    requires { length names.old ≡ 2 * count_before plan.now sources.now places.now (nodes_of plan.now) }
    ensures { names.new ≡ names_before (was plan) (was sources) (was places) (was buffers) (nodes_of (was plan)) }
{
    let n = plan::parts::node_count(plan);
    let mut at = 0;
    for i in 0..n {
        node_names(plan, sources, places, buffers, i, names, at);
        at += 2 * (count_at(plan, sources, places, i) as usize);
    }
}
