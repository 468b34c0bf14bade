// The questions about room: what the opening and the orders come to in a room that is large enough, as counters, and the bytes that each part then holds.
// No part is asked and nothing is written but the counters.
#![tactic(auto)]

ghost use Rattle.std.specs.Prelude.{◌≡◌, List, [], ℕ, ◌+◌, ◌*◌, ◌/◌, ◌<◌, min};
ghost use Rattle.clauses.specs.Slices.{was, left};
ghost use Rattle.walk.specs.State.{top};
ghost use Rattle.plan.specs.parts.Parts.{needed_by, needed};
ghost use Rattle.refinement.specs.orders.Measure.{copy_measure, null_measure, needed_bytes};
ghost use Rattle.refinement.specs.opening.Ask.{open_measure};
ghost use Rattle.refinement.specs.orders.Order.{lent};
ghost use Rattle.measure.specs.Answer.{Measures};

use array_data::lent_tables;
use walk::plan_words;

// ---- counters

// The walk of an opening: 0 and its counters, or the ground of refusal.
pub fn measure_open(
    plan: &[u64],
    sources: &[u32],
    lengths: &[u64],
    places: &[u64],
    body: &[u8],
    counters: &mut [u64],
) -> u8
    ensures { Measures (open_measure (lent (was plan) [] (was sources) (was lengths) (was places) (was body)) counters.old) result counters.new }
{
    if counters.len() != plan_words::COUNTERS {
        return 14;
    }
    if 16 < lent_tables::at_u64(plan, plan_words::SOURCE_COUNT) {
        return 12;
    }
    if !sound::plan_sound(plan) {
        return 12;
    }
    let parts = [0u64; 0];
    let mut room = [0u8; 0];
    let mut tally = [0u64; plan_words::COUNTERS];
    let g = with_capacities::open_walk::open_walk(
        plan, &parts, sources, lengths, places, body, &mut tally, &mut room, false,
    );
    if g != 0 {
        return g;
    }
    transform::store(counters, &tally);
    0
}

// A copy of the rows start .. end - 1 of a source: 0 and the counters after it, or the ground of refusal.
pub fn measure_extend(
    plan: &[u64],
    sources: &[u32],
    lengths: &[u64],
    places: &[u64],
    body: &[u8],
    counters: &mut [u64],
    source: u32,
    start: u64,
    end: u64,
) -> u8
    ensures { Measures (copy_measure counters.old (lent (was plan) [] (was sources) (was lengths) (was places) (was body)) source start end) result counters.new }
{
    if counters.len() != plan_words::COUNTERS {
        return 14;
    }
    if !sound::plan_sound(plan) {
        return 14;
    }
    if lent_tables::at_u64(plan, plan_words::SOURCE_COUNT) <= source as u64 {
        return 1;
    }
    let first = lent_tables::at_u32(sources, 2 * (source as usize)) as usize;
    if !transform::in_source(lengths, first, start, end) {
        return 2;
    }
    let parts = [0u64; 0];
    let mut room = [0u8; 0];
    let mut tally = transform::load(counters);
    let g = extend::extend(
        plan,
        &parts,
        lengths,
        places,
        body,
        &mut tally,
        &mut room,
        false,
        source as usize,
        first,
        0,
        start,
        end - start,
        8,
    );
    if g != 0 {
        return g;
    }
    transform::store(counters, &tally);
    0
}

// n nulls: 0 and the counters after them, or the ground of refusal. No source is read.
pub fn measure_nulls(plan: &[u64], counters: &mut [u64], n: u64) -> u8
    ensures { (sources lengths places body : List ℕ) → Measures (null_measure counters.old (lent (was plan) [] sources lengths places body) n) result counters.new }
{
    if counters.len() != plan_words::COUNTERS {
        return 14;
    }
    if !sound::plan_sound(plan) {
        return 14;
    }
    if plan_words::keeps_of(plan, 0) == 0 {
        return 3;
    }
    let parts = [0u64; 0];
    let mut room = [0u8; 0];
    let mut tally = transform::load(counters);
    let m = transform::at_most_far(n);
    let g = extend::extend_nulls(plan, &parts, &mut tally, &mut room, false, 0, m, 8);
    if g != 0 {
        return g;
    }
    transform::store(counters, &tally);
    0
}

// ---- bytes

// r entries of w bytes, or the largest number of 64 bits.
fn times(r: u64, w: u8) -> u64
    ensures { result ≡ min (r * w) top }
{
    r.saturating_mul(w as u64)
}

// One entry of w bytes more than r, or the largest number of 64 bits.
fn times_more(r: u64, w: u8) -> u64
    ensures { result ≡ min ((r + 1) * w) top }
{
    times(r, w).saturating_add(w as u64)
}

// The bytes of r bits.
fn bit_bytes(r: u64) -> u64
    ensures { result ≡ min ((r + 7) / 8) top }
{
    r / 8 + (r % 8 + 7) / 8
}

// The first buffer of r rows, or the largest number of 64 bits.
fn first_bytes(code: u8, r: u64, n: u64) -> u64
    ensures { result ≡ min (needed_by code r n 1) top }
{
    if schema::formats::is_string(code) | schema::formats::is_list(code) {
        return times_more(r, schema::formats::width_of(code));
    }
    times(r, plan::parts::entry_size(code))
}

// The second buffer of r rows with n bytes of data, or the largest number of 64 bits.
fn second_bytes(code: u8, r: u64, n: u64) -> u64
    ensures { result ≡ min (needed_by code r n 2) top }
{
    if schema::formats::is_string(code) {
        return n;
    }
    if schema::formats::is_list_view(code) {
        return times(r, schema::formats::width_of(code));
    }
    times(r, 4)
}

// Buffer b of node i, or the largest number of 64 bits.
fn buffer_bytes(plan: &[u64], counters: &[u64], i: usize, b: usize) -> u64
    requires { i < 32 }
    ensures { result ≡ min (needed (was plan) (was counters) i b) top }
{
    let r = lent_tables::at_u64(counters, 3 * i);
    if b == 0 {
        return bit_bytes(r);
    }
    let code = plan_words::code_of(plan, i);
    let n = lent_tables::at_u64(counters, 3 * i + 2);
    if b == 1 {
        return first_bytes(code, r, n);
    }
    second_bytes(code, r, n)
}

// The bytes that part p must hold by the counters, or the largest number of 64 bits; 0 where there is no such part.
pub fn needed_bytes(plan: &[u64], counters: &[u64], p: u32) -> u64
    ensures { result ≡ needed_bytes (was plan) (was counters) p }
{
    match plan::parts::part_at(plan, p as usize) {
        Some(s) => buffer_bytes(plan, counters, s.node, s.buffer),
        None => 0,
    }
}
