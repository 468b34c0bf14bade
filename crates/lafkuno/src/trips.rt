// A trip's orders as one call. The answer is the ground and 256 times the place of the order that got it.
ghost use Rattle.std.specs.Prelude.{◌≡◌, [], ◌+◌, ◌*◌, ◌≤◌};
ghost use Rattle.clauses.specs.Slices.{was, left};
ghost use Rattle.refinement.specs.orders.Order.{lent};
ghost use Rattle.with_capacities.specs.Lent.{lent_all};
ghost use Rattle.trip.specs.Trip.{longest, calls_of, trip_order, trip_measure};
ghost use Rattle.lafkuno.specs.Trips.{Carries, Asks};

use trip::Ended;

fn answer_word(e: Ended) -> u32
    requires { e.place ≤ longest }
    ensures { result ≡ e.refusal + 256 * e.place }
{
    (e.refusal as u32) + 256 * e.place
}

// Carries out up to 256 orders, four words each, or none of them.
#[unsafe(no_mangle)]
pub extern "C" fn lafkuno_orders(
    plan: &[u64],
    parts: &[u64],
    sources: &[u32],
    lengths: &[u64],
    places: &[u64],
    body: &[u8],
    counters: &mut [u64],
    room: &mut [u8],
    orders: &[u64],
) -> u32
    ensures { Carries (trip_order (lent_all plan parts sources lengths places body) counters.old room.old (calls_of (was orders))) result counters.new room.new }
{
    answer_word(trip::orders(
        plan, parts, sources, lengths, places, body, counters, room, orders,
    ))
}

// What they come to in a room that is large enough.
#[unsafe(no_mangle)]
pub extern "C" fn lafkuno_measure_orders(
    plan: &[u64],
    sources: &[u32],
    lengths: &[u64],
    places: &[u64],
    body: &[u8],
    counters: &mut [u64],
    orders: &[u64],
) -> u32
    ensures { Asks (trip_measure (lent (was plan) [] (was sources) (was lengths) (was places) (was body)) counters.old (calls_of (was orders))) result counters.new }
{
    answer_word(trip::measure_orders(plan, sources, lengths, places, body, counters, orders))
}
