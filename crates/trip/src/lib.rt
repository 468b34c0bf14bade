// A trip's orders as one, all or none. Each is tried in turn, on a copy of the counters and without a look at validity bits, and only where
// none is refused are they written, one after the other: every order is walked twice at most, and nothing is taken back.
#![tactic(auto)]

ghost use Rattle.std.specs.Prelude.{◌≡◌, [], true, cond, ◌<◌, ◌≤◌, ◌/◌, length};
ghost use Rattle.clauses.specs.Slices.{was, left};
ghost use Rattle.leaf_walk.specs.Walks.{Walks};
ghost use Rattle.plan.specs.parts.Parts.{parts_hold};
ghost use Rattle.refinement.specs.orders.Sound.{walkable};
ghost use Rattle.transform.specs.Answer.{lent};
ghost use Rattle.trip.specs.Trip.{calls_of, trip_order, trip_measure};
ghost use Rattle.trip.specs.Walk.{step_at, Steps};
ghost use Rattle.trip.specs.Answer.{Ends, Asks};

use array_data::lent_tables;
use sound::trying;
use walk::plan_words;

mod order;

// The ground, 0 where there is none, and the place of the order that got it.
#[derive(Clone, Copy)]
pub struct Ended {
    pub refusal: u8,
    pub place: u32,
}

const LONGEST: usize = 256;

const WORDS: usize = 4;

const TOO_MANY: u8 = 9;

const TOO_SMALL: u8 = 13;

const NOT_LENT: u8 = 14;

// ---- an order of the list

// 14 where the parts do not lie in the room, 13 where one cannot hold its bytes.
fn held_ground(
    plan: &[u64],
    parts: &[u64],
    counters: &[u64; plan_words::COUNTERS],
    within: bool,
) -> u8
    ensures { result ≡ cond within (cond (parts_hold (was plan) (was counters) (was parts)) 0 13) 14 }
{
    if !within {
        return NOT_LENT;
    }
    if !plan::parts::parts_hold(plan, counters, parts) {
        return TOO_SMALL;
    }
    0
}

// Order k of a list, and where it is asked, 14 and 13 behind it.
fn walk_step(
    plan: &[u64],
    parts: &[u64],
    sources: &[u32],
    lengths: &[u64],
    places: &[u64],
    body: &[u8],
    counters: &mut [u64; plan_words::COUNTERS],
    room: &mut [u8],
    write: bool,
    ask: bool,
    within: bool,
    orders: &[u64],
    k: usize,
) -> u8
    requires { k < 256 }
    ensures { Walks plan parts write (step_at (lent (was plan) (was parts) (was sources) (was lengths) (was places) (was body)) ask within (was orders) k) counters room result }
{
    let kind = lent_tables::at_u64(orders, 4 * k);
    let a = lent_tables::at_u64(orders, 4 * k + 1);
    let b = lent_tables::at_u64(orders, 4 * k + 2);
    let c = lent_tables::at_u64(orders, 4 * k + 3);
    let g = order::walk_order(
        plan, parts, sources, lengths, places, body, counters, room, write, kind, a, b, c,
    );
    if g != 0 {
        return g;
    }
    if !ask {
        return 0;
    }
    held_ground(plan, parts, counters, within)
}

// ---- a list

// The first n orders of a list, up to the first that is refused.
fn walk_orders(
    plan: &[u64],
    parts: &[u64],
    sources: &[u32],
    lengths: &[u64],
    places: &[u64],
    body: &[u8],
    counters: &mut [u64; plan_words::COUNTERS],
    room: &mut [u8],
    write: bool,
    ask: bool,
    within: bool,
    orders: &[u64],
    n: usize,
) -> Ended
    requires { n ≤ 256 }
    ensures { Steps plan parts write (step_at (lent (was plan) (was parts) (was sources) (was lengths) (was places) (was body)) ask within (was orders)) n counters room result }
{
    for k in 0..n {
        let g = walk_step(
            plan, parts, sources, lengths, places, body, counters, room, write, ask, within,
            orders, k,
        );
        if g != 0 {
            return Ended {
                refusal: g,
                place: k as u32,
            };
        }
    }
    Ended {
        refusal: 0,
        place: 0,
    }
}

// A refusal at the first order.
fn refused(refusal: u8) -> Ended
    ensures { (result.refusal ≡ refusal) × (result.place ≡ 0) }
{
    Ended { refusal, place: 0 }
}

// The orders, all tried and then all written.
fn carry_out(
    plan: &[u64],
    parts: &[u64],
    sources: &[u32],
    lengths: &[u64],
    places: &[u64],
    body: &[u8],
    counters: &mut [u64],
    room: &mut [u8],
    orders: &[u64],
    n: usize,
) -> Ended
    requires { (length counters.old ≡ 96) × (n ≤ 256) × (n ≡ length orders.now / 4) × (walkable plan.now (length room.old) ≡ true) }
    ensures { Ends (trip_order (lent (was plan) (was parts) (was sources) (was lengths) (was places) (was body)) counters.old room.old (calls_of (was orders))) result counters.new room.new }
{
    let within = plan::parts::parts_within(plan, parts, room.len());
    let mut tried = transform::load(counters);
    trying::uncount(&mut tried, plan::parts::node_count(plan));
    let mut none = [0u8; 0];
    let e = walk_orders(
        plan, parts, sources, lengths, places, body, &mut tried, &mut none, false, true, within,
        orders, n,
    );
    if e.refusal != 0 {
        return e;
    }
    let mut tally = transform::load(counters);
    let e = walk_orders(
        plan, parts, sources, lengths, places, body, &mut tally, room, true, false, within, orders,
        n,
    );
    transform::store(counters, &tally);
    e
}

// Carries out the orders of a list, four words each, behind the destination's rows, or none of them: 0, or the ground of the first that is
// refused and its place.
pub fn orders(
    plan: &[u64],
    parts: &[u64],
    sources: &[u32],
    lengths: &[u64],
    places: &[u64],
    body: &[u8],
    counters: &mut [u64],
    room: &mut [u8],
    orders: &[u64],
) -> Ended
    ensures { Ends (trip_order (lent (was plan) (was parts) (was sources) (was lengths) (was places) (was body)) counters.old room.old (calls_of (was orders))) result counters.new room.new }
{
    let n = orders.len() / WORDS;
    if LONGEST < n {
        return refused(TOO_MANY);
    }
    if n == 0 {
        return refused(0);
    }
    if counters.len() != plan_words::COUNTERS {
        return refused(NOT_LENT);
    }
    if !sound::is_walkable(plan, room.len()) {
        return refused(NOT_LENT);
    }
    carry_out(
        plan, parts, sources, lengths, places, body, counters, room, orders, n,
    )
}

// What they come to in a room that is large enough: 0 and the counters after them, or the ground of the first that is refused and its place.
pub fn measure_orders(
    plan: &[u64],
    sources: &[u32],
    lengths: &[u64],
    places: &[u64],
    body: &[u8],
    counters: &mut [u64],
    orders: &[u64],
) -> Ended
    ensures { Asks (trip_measure (lent (was plan) [] (was sources) (was lengths) (was places) (was body)) counters.old (calls_of (was orders))) result counters.new }
{
    let n = orders.len() / WORDS;
    if LONGEST < n {
        return refused(TOO_MANY);
    }
    if n == 0 {
        return refused(0);
    }
    if counters.len() != plan_words::COUNTERS {
        return refused(NOT_LENT);
    }
    if !sound::plan_sound(plan) {
        return refused(NOT_LENT);
    }
    let parts = [0u64; 0];
    let mut none = [0u8; 0];
    let mut tally = transform::load(counters);
    let e = walk_orders(
        plan, &parts, sources, lengths, places, body, &mut tally, &mut none, false, false, false,
        orders, n,
    );
    if e.refusal != 0 {
        return e;
    }
    transform::store(counters, &tally);
    e
}
