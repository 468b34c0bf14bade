// How the rows of a dense union fall to its children, and where they land.
ghost use Rattle.std.specs.Prelude.{◌≡◌, true, false, cond, [], ◌∷◌, ℕ, ◌+◌, ◌*◌, ◌<◌, ◌≤◌, ◌^◌, length, get_or, replicate, eqb};
ghost use Rattle.clauses.specs.Slices.{was, left};
ghost use Rattle.number.specs.Number.{entry, splice};
ghost use Rattle.utils.specs.Pieces.{numbers};
ghost use Rattle.walk.specs.State.{rows};
ghost use Rattle.walk.specs.Log.{put, apply_if};
ghost use Rattle.batch.specs.batch_walk.Fall.{home_by, lands_by, all_land, Fallen};

use crate::homes;
use number::Unsigned;
use walk::plan_words;

// Whether every row has a child whose rows its position can name, and whether each child's rows are one stretch.
#[derive(Clone, Copy)]
pub struct Fall {
    pub sound: bool,
    pub whole: bool,
}

// Where a stretch of `taken` rows begins with the row at `start`.
fn begin_of(taken: u64, begin: u64, start: u64) -> u64
    ensures { result ≡ cond (eqb taken 0) start begin }
{
    if taken == 0 {
        return start;
    }
    begin
}

fn still(whole: bool, a: u64, b: u64) -> bool
    ensures { result ≡ cond (eqb a b) whole false }
{
    a == b && whole
}

// The rows that fall to each child: where its first stretch begins, how many they are, and how far they reach.
pub fn survey(
    homes: &[u8; 256],
    counters: &[u64; plan_words::COUNTERS],
    body: &[u8],
    ids: u64,
    positions: u64,
    slot: u64,
    n: u64,
    begins: &mut [u64; 32],
    taken: &mut [u64; 32],
    ends: &mut [u64; 32],
) -> Fall
    requires n_in_bounds { (ids + (slot + n) ≤ length body.now) × (positions + 4 * (slot + n) ≤ length body.now) × (slot + n < 2 ^ 63) }
    requires begins_value { (begins.old ≡ replicate 32 0) × (taken.old ≡ replicate 32 0) × (ends.old ≡ replicate 32 0) }
    ensures sound_value { result.sound ≡ all_land (λ r. home_by (was homes) (was body) (ids + (slot + r))) (was counters) n }
    ensures fallen { result.sound ≡ true → Fallen (λ r. home_by (was homes) (was body) (ids + (slot + r))) (λ r. entry 4 (was body) positions (slot + r)) n n result.whole begins.new taken.new ends.new }
{
    let mut whole = true;
    for r in 0..n {
        let k = homes::home_at(homes, body, ids + (slot + r)) as usize;
        if 32 <= k {
            return Fall {
                sound: false,
                whole: false,
            };
        }
        let t = taken[k];
        if 2147483648 <= plan_words::grow(plan_words::rows_of(counters, k), t) {
            return Fall {
                sound: false,
                whole: false,
            };
        }
        let start = homes::position_at(body, positions, slot + r) as u64;
        let b = begin_of(t, begins[k], start);
        whole = still(whole, b + t, start);
        begins[k] = b;
        taken[k] = t + 1;
        ends[k] = ends[k].max(start + 1);
    }
    Fall { sound: true, whole }
}

// The rows of every node.
fn rows_of_all(counters: &[u64; plan_words::COUNTERS]) -> [u64; 32]
    ensures { (length result ≡ 32) × ((k : ℕ) → k < 32 → get_or result k 0 ≡ rows (was counters) k) }
{
    let mut lands = [0u64; 32];
    for k in 0..32 {
        lands[k] = plan_words::rows_of(counters, k);
    }
    lands
}

// The rows where n rows land, at `to`.
fn write_lands(
    room: &mut [u8],
    to: usize,
    homes: &[u8; 256],
    counters: &[u64; plan_words::COUNTERS],
    body: &[u8],
    ids: u64,
    slot: u64,
    n: u64,
)
    requires { (to + 4 * n ≤ length room.old) × (ids + (slot + n) ≤ length body.now) × (slot + n < 2 ^ 63) × (all_land (λ r. home_by homes.now body.now (ids + (slot + r))) counters.now n ≡ true) }
    ensures { room.new ≡ splice to (numbers 4 (lands_by (λ r. home_by (was homes) (was body) (ids + (slot + r))) (was counters)) n) room.old }
{
    let mut lands = rows_of_all(counters);
    for r in 0..n {
        let k = homes::home_at(homes, body, ids + (slot + r)) as usize;
        let v = lands[k];
        u32::truncate(v).write(room, to + 4 * (r as usize));
        lands[k] = v + 1;
    }
}

// The same, as the positions of node i from its byte o on.
pub fn put_lands(
    plan: &[u64],
    parts: &[u64],
    room: &mut [u8],
    write: bool,
    i: usize,
    o: u64,
    homes: &[u8; 256],
    counters: &[u64; plan_words::COUNTERS],
    body: &[u8],
    ids: u64,
    slot: u64,
    n: u64,
)
    requires { (i < 32) × (ids + (slot + n) ≤ length body.now) × (slot + n < 2 ^ 63) × (all_land (λ r. home_by homes.now body.now (ids + (slot + r))) counters.now n ≡ true) }
    ensures { room.new ≡ apply_if (was plan) (was parts) write (put i 2 o (numbers 4 (lands_by (λ r. home_by (was homes) (was body) (ids + (slot + r))) (was counters)) n) ∷ []) room.old }
{
    if let Some(to) = plan_words::target(
        plan,
        parts,
        room.len(),
        write,
        i,
        2,
        o,
        plan_words::scale(n, 4),
    ) {
        write_lands(room, to, homes, counters, body, ids, slot, n);
    }
}
