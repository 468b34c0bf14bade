// The child that takes each row of a dense union, and the position there.
ghost use Rattle.std.specs.Prelude.{◌≡◌, cond, List, ℕ, ◌+◌, ◌*◌, ◌-◌, ◌<◌, ◌≤◌, ◌^◌, length, eqb};
ghost use Rattle.clauses.specs.Slices.{was};
ghost use Rattle.number.specs.Number.{entry};
ghost use Rattle.walk.specs.Log.{Out};
ghost use Rattle.batch.specs.Stretch.{stretch};
ghost use Rattle.batch.specs.batch_walk.Side.{side_of};
ghost use Rattle.batch.specs.batch_walk.Fall.{Homed, home_by};
ghost use Rattle.batch.specs.batch_walk.Rows.{taken_from, taken_of};

use crate::side;
use crate::side::Stretch;
use number::Unsigned;
use walk::plan_words;

// The child of an id that had `had`, with child k.
fn first_of(had: u8, k: u8) -> u8
    ensures { result ≡ cond (eqb had 32) k had }
{
    if had == 32 {
        return k;
    }
    had
}

// The child of each id; 32 where there is none.
pub fn homes_of(plan: &[u64], i: usize) -> [u8; 256]
    requires { i < 32 }
    ensures { Homed (was plan) i result }
{
    let mut homes = [32u8; 256];
    let end = plan_words::end_of(plan, i);
    let mut k = i + 1;
    for t in 0..32usize {
        if end <= k {
            return homes;
        }
        let id = plan_words::id_of(plan, k) as usize;
        homes[id] = first_of(homes[id], k as u8);
        k = plan_words::end_of(plan, k);
    }
    homes
}

// The child of the id at byte q.
pub fn home_at(homes: &[u8; 256], body: &[u8], q: u64) -> u8
    requires { q < length body.now }
    ensures { result ≡ home_by (was homes) (was body) q }
{
    let id = u8::read(body, q as usize);
    homes[id as usize]
}

// The position of row q, among those at `at`.
pub fn position_at(body: &[u8], at: u64, q: u64) -> u32
    requires { at + 4 * (q + 1) ≤ length body.now }
    ensures { result ≡ entry 4 (was body) at q }
{
    u32::read(body, (at as usize) + 4 * (q as usize))
}

// Where child k takes row q from; 0 if it does not.
pub fn start_at(homes: &[u8; 256], body: &[u8], ids: u64, positions: u64, q: u64, k: usize) -> u64
    requires { (ids + q < length body.now) × (positions + 4 * (q + 1) ≤ length body.now) }
    ensures { result ≡ cond (eqb (home_by (was homes) (was body) (ids + q)) k) (entry 4 (was body) positions q) 0 }
{
    if home_at(homes, body, ids + q) as usize != k {
        return 0;
    }
    position_at(body, positions, q) as u64
}

// 1 if child k takes row q, else 0.
pub fn size_at(homes: &[u8; 256], body: &[u8], ids: u64, q: u64, k: usize) -> u64
    requires { ids + q < length body.now }
    ensures { result ≡ cond (eqb (home_by (was homes) (was body) (ids + q)) k) 1 0 }
{
    if home_at(homes, body, ids + q) as usize != k {
        return 0;
    }
    1
}

// The stretch of child k that begins with its rows a .. a + m - 1, where row `from` of the union is looked at next.
pub fn advance(
    homes: &[u8; 256],
    body: &[u8],
    ids: u64,
    positions: u64,
    slot: u64,
    n: u64,
    k: usize,
    from: u64,
    a: u64,
    m: u64,
) -> Stretch
    requires { (ids + (slot + n) ≤ length body.now) × (positions + 4 * (slot + n) ≤ length body.now) × (slot + n < 2 ^ 63) × (from ≤ n) × (m ≤ from) }
    ensures by_index { (walk : ℕ → ℕ → List ℕ → Out) (c : List ℕ) → let f = stretch walk (taken_from (was homes) (was body) ids positions slot k) (taken_of (was homes) (was body) ids slot k) in f (n - from) from a m c ≡ f (n - result.next) result.next result.a result.m c }
    ensures next_le_n { (result.next ≤ n) × (from ≤ result.next) }
    ensures next_value { (result.next ≡ n → ⊥) → (side_of result.a result.m (taken_from (was homes) (was body) ids positions slot k result.next) (taken_of (was homes) (was body) ids slot k result.next) ≡ 3) }
{
    let mut b = a;
    let mut p = m;
    for r in from..n {
        let start = start_at(homes, body, ids, positions, slot + r, k);
        let size = size_at(homes, body, ids, slot + r, k);
        let side = side::side_of(b, p, start, size);
        if side == 3 {
            return Stretch {
                a: b,
                m: p,
                next: r,
            };
        }
        b = side::next_start(side, b, start);
        p = side::next_size(side, p, size);
    }
    Stretch {
        a: b,
        m: p,
        next: n,
    }
}
