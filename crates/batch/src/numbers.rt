// Stretches of numbers without validity: copies of bytes.
ghost use Rattle.std.specs.Prelude.{◌≡◌, true, List, [], ◌∷◌, ℕ, ◌+◌, ◌*◌, ◌<◌, ◌≤◌, ◌^◌, length, take, drop};
ghost use Rattle.clauses.specs.Slices.{was, left};
ghost use Rattle.number.specs.Number.{splice};
ghost use Rattle.walk.specs.State.{bytes_of};
ghost use Rattle.walk.specs.Log.{put, apply_if};
ghost use Rattle.leaf_walk.specs.Join.{join};
ghost use Rattle.leaf_walk.specs.Walks.{lent_join, Walks};
ghost use Rattle.batch.specs.Batch.{batch_leaf};
ghost use Rattle.batch.specs.batch_walk.Plain.{is_plain, reached};

use crate::short_copy;
use array_data::lent_tables;
use nested_rows::lookups;
use walk::plan_words;

// m words of 4 bytes of body from `from` on into room at `at`.
fn copy_words(room: &mut [u8], at: usize, body: &[u8], from: usize, m: usize)
    requires { (at + 4 * m ≤ length room.old) × (from + 4 * m ≤ length body.now) }
    ensures { room.new ≡ splice at (take (4 * m) (drop from (was body))) room.old }
{
    for q in 0..m {
        short_copy::copy_number::<u32>(room, at + 4 * q, body, from + 4 * q);
    }
}

// n bytes of body from `from` on into room at `at`, a few of them by words.
pub fn copy_few(room: &mut [u8], at: usize, body: &[u8], from: usize, n: usize)
    requires { (at + n ≤ length room.old) × (from + n ≤ length body.now) }
    ensures { room.new ≡ splice at (take n (drop from (was body))) room.old }
{
    if 64 <= n {
        number::copy::copy_bytes(room, at, body, from, n);
        return;
    }
    if n % 4 != 0 {
        number::copy::copy_bytes(room, at, body, from, n);
        return;
    }
    copy_words(room, at, body, from, n / 4);
}

// n bytes of body from `from` on, as the entries of node k from its byte o on.
fn put_few(
    plan: &[u64],
    parts: &[u64],
    room: &mut [u8],
    write: bool,
    k: usize,
    o: u64,
    body: &[u8],
    from: usize,
    n: u64,
)
    requires { (k < 32) × (from + n ≤ length body.now) }
    ensures { room.new ≡ apply_if (was plan) (was parts) write (put k 1 o (take n (drop from (was body))) ∷ []) room.old }
{
    if let Some(at) = plan_words::target(plan, parts, room.len(), write, k, 1, o, n) {
        copy_few(room, at, body, from, n as usize);
    }
}

// Whether node k is of numbers, and keeps no nulls.
pub fn is_plain(plan: &[u64], k: usize) -> bool
    requires { k < 32 }
    ensures { result ≡ is_plain (was plan) k }
{
    if !schema::formats::is_fixed(plan_words::code_of(plan, k)) {
        return false;
    }
    if plan_words::dictionary_of(plan, k) != 0 {
        return false;
    }
    plan_words::keeps_of(plan, k) == 0
}

// Whether the entries of w bytes of node k before row `end` stand in the body.
pub fn reaches(
    lengths: &[u64],
    places: &[u64],
    body: &[u8],
    first: usize,
    k: usize,
    w: u64,
    end: u64,
) -> bool
    requires { (first < 2 ^ 32) × (k < 32) × (w ≤ 16) }
    ensures { (plan parts : List ℕ) (source : ℕ) → result ≡ reached (join plan parts (was lengths) (was places) (was body) first source) k w end }
{
    let slot = lookups::slot_of(lengths, first, k, end, 0);
    if plan_words::FAR <= slot {
        return false;
    }
    leaf_walk::rows_in(body, lent_tables::place(places, first + k, 3), w, slot, 0)
}

// The rows a .. a + n - 1 of node k, whose entries have w bytes.
pub fn copy_stretch(
    plan: &[u64],
    parts: &[u64],
    lengths: &[u64],
    places: &[u64],
    body: &[u8],
    counters: &mut [u64; plan_words::COUNTERS],
    room: &mut [u8],
    write: bool,
    first: usize,
    k: usize,
    w: u64,
    a: u64,
    n: u64,
) -> u8
    requires { (first < 2 ^ 32) × (k < 32) × (1 ≤ w) × (w ≤ 16) × (w ≡ bytes_of plan.now k) × (is_plain plan.now k ≡ true) }
    ensures { (source : ℕ) → Walks plan parts write (batch_leaf (lent_join plan parts lengths places body first source) k a n) counters room result }
{
    let slot = lookups::slot_of(lengths, first, k, a, n);
    if plan_words::FAR <= slot {
        return 12;
    }
    let at = lent_tables::place(places, first + k, 3);
    if !leaf_walk::rows_in(body, at, w, slot, n) {
        return 12;
    }
    let o = plan_words::scale(plan_words::rows_of(counters, k), w);
    let from = at + w * slot;
    put_few(plan, parts, room, write, k, o, body, from as usize, w * n);
    plan_words::add_rows(counters, k, n);
    0
}
