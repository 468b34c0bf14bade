// Calls for C: which node stopped an order, the ground and five numbers that say where and why. Nothing else is written. They are a library of
// their own, so that the compiler lays out orders as if these calls were not there.
#![tactic(auto)]

ghost use Rattle.std.specs.Prelude.{◌≡◌, List, ℕ};
ghost use Rattle.clauses.specs.Slices.{was, left};
ghost use Rattle.transform.specs.Answer.{lent};
ghost use Rattle.trip.specs.Trip.{calls_of};
ghost use Rattle.explain.specs.stops.Order.{why_copy_order, why_null_order, why_trip};
ghost use Rattle.lafkuno_why.specs.Why.{why_answer, listed_answer};

use explain::stops::{Why, WhyListed};

// The five numbers, where there is room for them.
fn put_why(answer: &mut [u64], w: Why)
    ensures { answer.new ≡ why_answer w answer.old }
{
    if answer.len() != 5 {
        return;
    }
    answer[0] = w.refusal as u64;
    answer[1] = w.node as u64;
    answer[2] = w.row;
    answer[3] = w.needed;
    answer[4] = w.allowed;
}

// The five numbers, and the place of the order.
fn put_listed(answer: &mut [u64], w: WhyListed)
    ensures { answer.new ≡ listed_answer w answer.old }
{
    if answer.len() != 6 {
        return;
    }
    answer[0] = w.why.refusal as u64;
    answer[1] = w.why.node as u64;
    answer[2] = w.why.row;
    answer[3] = w.why.needed;
    answer[4] = w.why.allowed;
    answer[5] = w.place as u64;
}

// What stops a copy of the rows start .. end - 1 of a source, in a room of `room` bytes.
#[unsafe(no_mangle)]
pub extern "C" fn lafkuno_why_copy(
    plan: &[u64],
    parts: &[u64],
    sources: &[u32],
    lengths: &[u64],
    places: &[u64],
    body: &[u8],
    counters: &[u64],
    room: u64,
    source: u32,
    start: u64,
    end: u64,
    answer: &mut [u64],
) -> u8
    ensures value { result ≡ (why_copy_order (lent (was plan) (was parts) (was sources) (was lengths) (was places) (was body)) room (was counters) source start end).refusal }
    ensures answer_value { answer.new ≡ why_answer (why_copy_order (lent (was plan) (was parts) (was sources) (was lengths) (was places) (was body)) room (was counters) source start end) answer.old }
{
    let w = explain::why_copy(
        plan,
        parts,
        sources,
        lengths,
        places,
        body,
        counters,
        room as usize,
        source,
        start,
        end,
    );
    let refusal = w.refusal;
    put_why(answer, w);
    refusal
}

// What stops n nulls, in a room of `room` bytes.
#[unsafe(no_mangle)]
pub extern "C" fn lafkuno_why_nulls(
    plan: &[u64],
    parts: &[u64],
    counters: &[u64],
    room: u64,
    n: u64,
    answer: &mut [u64],
) -> u8
    ensures value { (sources lengths places body : List ℕ) → result ≡ (why_null_order (lent (was plan) (was parts) sources lengths places body) room (was counters) n).refusal }
    ensures answer_value { (sources lengths places body : List ℕ) → answer.new ≡ why_answer (why_null_order (lent (was plan) (was parts) sources lengths places body) room (was counters) n) answer.old }
{
    let w = explain::why_nulls(plan, parts, counters, room as usize, n);
    let refusal = w.refusal;
    put_why(answer, w);
    refusal
}

// What stops a list of orders, in a room of `room` bytes.
#[unsafe(no_mangle)]
pub extern "C" fn lafkuno_why_orders(
    plan: &[u64],
    parts: &[u64],
    sources: &[u32],
    lengths: &[u64],
    places: &[u64],
    body: &[u8],
    counters: &[u64],
    room: u64,
    orders: &[u64],
    answer: &mut [u64],
) -> u8
    ensures value { result ≡ (why_trip (lent (was plan) (was parts) (was sources) (was lengths) (was places) (was body)) room (was counters) (calls_of (was orders))).why.refusal }
    ensures answer_value { answer.new ≡ listed_answer (why_trip (lent (was plan) (was parts) (was sources) (was lengths) (was places) (was body)) room (was counters) (calls_of (was orders))) answer.old }
{
    let w = explain::why_orders(
        plan,
        parts,
        sources,
        lengths,
        places,
        body,
        counters,
        room as usize,
        orders,
    );
    let refusal = w.why.refusal;
    put_listed(answer, w);
    refusal
}
