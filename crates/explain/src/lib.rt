// Tells which node stopped an order: the ground, the node, the row, and the numbers that clash. Nothing that is lent is written: the walk changes
// a copy of the counters, and of the room the length alone is asked.
#![tactic(auto)]

ghost use Rattle.std.specs.Prelude.{◌≡◌, true, ◌+◌, ◌<◌, ◌≤◌, ◌/◌, ◌^◌, min, length};
ghost use Rattle.clauses.specs.Slices.{was, left};
ghost use Rattle.model.specs.Book.{copy, nulls};
ghost use Rattle.walk.specs.State.{top};
ghost use Rattle.walk.specs.Copy.{copy_walk};
ghost use Rattle.walk.specs.Nulls.{null_walk};
ghost use Rattle.leaf_walk.specs.Walks.{lent_join, null_join};
ghost use Rattle.plan.specs.parts.Parts.{parts_within};
ghost use Rattle.refinement.specs.orders.Sound.{walkable};
ghost use Rattle.with_capacities.specs.Lent.{lent_all, AnySources, AnyLent};
ghost use Rattle.trip.specs.Trip.{call_at, calls_of};
ghost use Rattle.explain.specs.stops.Why.{only, unless};
ghost use Rattle.explain.specs.stops.Copy.{why_copy};
ghost use Rattle.explain.specs.stops.Nulls.{walked, why_nulls};
ghost use Rattle.explain.specs.stops.Parts.{why_parts};
ghost use Rattle.explain.specs.stops.Order.{why_copy_order, why_null_order, why_trip};
ghost use Rattle.explain.specs.Explains.{Settled, Explains};

use crate::stops::{Why, WhyListed};
use array_data::lent_tables;
use walk::plan_words;

mod lists;
pub mod nulls;
mod runs;
mod small_parts;
pub mod stop_walks;
pub mod stops;
mod strings;
mod unions;

const LONGEST: usize = 256;

const WORDS: usize = 4;

const COPY: u64 = 0;

const LARGEST_SOURCE: u64 = 4294967295;

const DEPTH: u32 = 8;

const NO_SUCH_SOURCE: u8 = 1;

const NO_SUCH_ROWS: u8 = 2;

const KEEPS_NO_NULLS: u8 = 3;

const TOO_MANY: u8 = 9;

const NOT_LENT: u8 = 14;

// ---- a walk, then 14 and 13

// 14 where the parts do not lie in a room of m bytes, then the first part that is too small for r + n rows.
fn settle(
    plan: &[u64],
    parts: &[u64],
    counters: &[u64; plan_words::COUNTERS],
    m: usize,
    r: u64,
    n: u64,
) -> Why
    requires { m < top }
    ensures { result ≡ unless (parts_within (was plan) (was parts) m) (only 14) (why_parts (was plan) (was counters) (was parts) (r + n)) }
{
    if !plan::parts::parts_within(plan, parts, m) {
        return crate::stop_walks::plain(NOT_LENT);
    }
    small_parts::why_parts(plan, counters, parts, r, n)
}

// The rows start .. start + n - 1 of a source, whose first node is `first`.
fn copy_rows(
    plan: &[u64],
    parts: &[u64],
    lengths: &[u64],
    places: &[u64],
    body: &[u8],
    counters: &mut [u64; plan_words::COUNTERS],
    m: usize,
    source: usize,
    first: usize,
    start: u64,
    n: u64,
) -> Why
    requires { (first < 2 ^ 32) × (source < 2 ^ 32) × (m < top) }
    ensures { let j = lent_join plan parts lengths places body first source in AnySources plan parts lengths places body (Settled m counters n (copy_walk j 8 0 start n) (why_copy j 8 0 start n) result) }
{
    let r = plan_words::rows_of(counters, 0);
    let g = crate::stop_walks::try_copy(
        plan, parts, lengths, places, body, counters, source, first, 0, start, n, DEPTH,
    );
    if g != 0 {
        return crate::stop_walks::why_walk(
            plan, parts, lengths, places, body, counters, source, first, 0, start, n, DEPTH,
        );
    }
    settle(plan, parts, counters, m, r, n)
}

// n nulls.
fn add_nulls(
    plan: &[u64],
    parts: &[u64],
    counters: &mut [u64; plan_words::COUNTERS],
    m: usize,
    n: u64,
) -> Why
    requires { m < top }
    ensures { let j = null_join plan parts in AnyLent plan parts (Settled m counters n (null_walk j 8 0 (walked n)) (why_nulls j 8 0 n) result) }
{
    let r = plan_words::rows_of(counters, 0);
    let g = crate::nulls::try_nulls(plan, parts, counters, 0, n, DEPTH);
    if g != 0 {
        return crate::nulls::why_null_walk(plan, parts, counters, 0, n, DEPTH);
    }
    settle(plan, parts, counters, m, r, n)
}

// ---- one order, of a plan and counters that an order can be walked with

// A copy of the rows start .. end - 1 of a source.
fn order_copy(
    plan: &[u64],
    parts: &[u64],
    sources: &[u32],
    lengths: &[u64],
    places: &[u64],
    body: &[u8],
    counters: &mut [u64; plan_words::COUNTERS],
    m: usize,
    source: u32,
    start: u64,
    end: u64,
) -> Why
    requires { m < top }
    ensures { Explains (lent_all plan parts sources lengths places body) m (copy source start end) counters.old result counters.new }
{
    if lent_tables::at_u64(plan, plan_words::SOURCE_COUNT) <= source as u64 {
        return crate::stop_walks::plain(NO_SUCH_SOURCE);
    }
    let first = lent_tables::at_u32(sources, 2 * (source as usize)) as usize;
    if !transform::in_source(lengths, first, start, end) {
        return crate::stop_walks::plain(NO_SUCH_ROWS);
    }
    copy_rows(
        plan,
        parts,
        lengths,
        places,
        body,
        counters,
        m,
        source as usize,
        first,
        start,
        end - start,
    )
}

// n nulls.
fn order_nulls(
    plan: &[u64],
    parts: &[u64],
    counters: &mut [u64; plan_words::COUNTERS],
    m: usize,
    n: u64,
) -> Why
    requires { m < top }
    ensures { AnyLent plan parts (λ l. Explains l m (nulls n) counters.old result counters.new) }
{
    if plan_words::keeps_of(plan, 0) == 0 {
        return crate::stop_walks::plain(KEEPS_NO_NULLS);
    }
    add_nulls(plan, parts, counters, m, n)
}

// A source's number; no join has as many sources as 32 bits hold.
fn source_of(a: u64) -> u32
    ensures { result ≡ min a 4294967295 }
{
    if LARGEST_SOURCE < a {
        return LARGEST_SOURCE as u32;
    }
    a as u32
}

// Order k of a list.
fn order_at(
    plan: &[u64],
    parts: &[u64],
    sources: &[u32],
    lengths: &[u64],
    places: &[u64],
    body: &[u8],
    counters: &mut [u64; plan_words::COUNTERS],
    m: usize,
    orders: &[u64],
    k: usize,
) -> Why
    requires { (k < 256) × (m < top) }
    ensures { Explains (lent_all plan parts sources lengths places body) m (call_at (was orders) k) counters.old result counters.new }
{
    let kind = lent_tables::at_u64(orders, 4 * k);
    let a = lent_tables::at_u64(orders, 4 * k + 1);
    if kind != COPY {
        return order_nulls(plan, parts, counters, m, a);
    }
    let b = lent_tables::at_u64(orders, 4 * k + 2);
    let c = lent_tables::at_u64(orders, 4 * k + 3);
    order_copy(
        plan,
        parts,
        sources,
        lengths,
        places,
        body,
        counters,
        m,
        source_of(a),
        b,
        c,
    )
}

// ---- what a caller asks

// What stops a copy of the rows start .. end - 1 of a source, in a room of m bytes.
pub fn why_copy(
    plan: &[u64],
    parts: &[u64],
    sources: &[u32],
    lengths: &[u64],
    places: &[u64],
    body: &[u8],
    counters: &[u64],
    m: usize,
    source: u32,
    start: u64,
    end: u64,
) -> Why
    ensures { result ≡ why_copy_order (lent_all plan parts sources lengths places body) m (was counters) source start end }
{
    if counters.len() != plan_words::COUNTERS {
        return crate::stop_walks::plain(NOT_LENT);
    }
    if !sound::is_walkable(plan, m) {
        return crate::stop_walks::plain(NOT_LENT);
    }
    let mut tally = transform::load(counters);
    order_copy(
        plan, parts, sources, lengths, places, body, &mut tally, m, source, start, end,
    )
}

// What stops n nulls, in a room of m bytes. No source is read.
pub fn why_nulls(plan: &[u64], parts: &[u64], counters: &[u64], m: usize, n: u64) -> Why
    ensures { AnyLent plan parts (λ l. result ≡ why_null_order l m (was counters) n) }
{
    if counters.len() != plan_words::COUNTERS {
        return crate::stop_walks::plain(NOT_LENT);
    }
    if !sound::is_walkable(plan, m) {
        return crate::stop_walks::plain(NOT_LENT);
    }
    let mut tally = transform::load(counters);
    order_nulls(plan, parts, &mut tally, m, n)
}

// A ground at the first order.
fn at_first(refusal: u8) -> WhyListed
    ensures { (result.place ≡ 0) × (result.why ≡ only refusal) }
{
    WhyListed {
        place: 0,
        why: crate::stop_walks::plain(refusal),
    }
}

// The first n orders of a list, up to the first that is stopped.
fn walk_orders(
    plan: &[u64],
    parts: &[u64],
    sources: &[u32],
    lengths: &[u64],
    places: &[u64],
    body: &[u8],
    counters: &[u64],
    m: usize,
    orders: &[u64],
    n: usize,
) -> WhyListed
    requires { (length counters.now ≡ 96) × (n ≤ 256) × (n ≡ length orders.now / 4) × (walkable plan.now m ≡ true) }
    ensures { result ≡ why_trip (lent_all plan parts sources lengths places body) m (was counters) (calls_of (was orders)) }
{
    let mut tally = transform::load(counters);
    for k in 0..n {
        let w = order_at(
            plan, parts, sources, lengths, places, body, &mut tally, m, orders, k,
        );
        if w.refusal != 0 {
            return WhyListed {
                place: k as u32,
                why: w,
            };
        }
    }
    at_first(0)
}

// What stops a list of orders, four words each: its first failing order and that order's place.
pub fn why_orders(
    plan: &[u64],
    parts: &[u64],
    sources: &[u32],
    lengths: &[u64],
    places: &[u64],
    body: &[u8],
    counters: &[u64],
    m: usize,
    orders: &[u64],
) -> WhyListed
    ensures { result ≡ why_trip (lent_all plan parts sources lengths places body) m (was counters) (calls_of (was orders)) }
{
    let n = orders.len() / WORDS;
    if LONGEST < n {
        return at_first(TOO_MANY);
    }
    if n == 0 {
        return at_first(0);
    }
    if counters.len() != plan_words::COUNTERS {
        return at_first(NOT_LENT);
    }
    if !sound::is_walkable(plan, m) {
        return at_first(NOT_LENT);
    }
    walk_orders(
        plan, parts, sources, lengths, places, body, counters, m, orders, n,
    )
}
