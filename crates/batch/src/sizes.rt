// The sizes of a list-view: their sum, the sums before each of them, and how far they reach into the child.
ghost use Rattle.std.specs.Prelude.{◌≡◌, cond, [], ◌∷◌, ◌+◌, ◌*◌, ◌<◌, ◌≤◌, ◌^◌, length, ltb};
ghost use Rattle.clauses.specs.Slices.{was, left};
ghost use Rattle.number.specs.Number.{entry, encode, splice};
ghost use Rattle.columnar.specs.Types.{half};
ghost use Rattle.utils.specs.Pieces.{numbers};
ghost use Rattle.walk.specs.State.{grown};
ghost use Rattle.walk.specs.Log.{put, apply_if};
ghost use Rattle.batch.specs.Stretch.{sum_of};
ghost use Rattle.batch.specs.batch_walk.Side.{furthest_of};

use nested_rows::lookups;
use number::Unsigned;
use walk::plan_words;

// `rows` and the n sizes of w bytes at `at`, from size `slot` on, together; it stays at the largest number.
fn add_sizes(body: &[u8], at: u64, w: u64, slot: u64, n: u64, rows: u64) -> u64
    requires n_in_bounds { (at + w * (slot + n) ≤ length body.now) × (slot + n < 2 ^ 63) }
    requires w_value { (w ≡ 4 → ⊥) → w ≡ 8 }
    ensures { result ≡ grown rows (sum_of (λ q. entry w (was body) at (slot + q)) n) }
{
    let mut sum = rows;
    for r in 0..n {
        sum = plan_words::grow(sum, lookups::entry_at(body, at, w, slot + r));
    }
    sum
}

// The same, each width by itself.
pub fn sum_sizes(body: &[u8], at: u64, w: u64, slot: u64, n: u64, rows: u64) -> u64
    requires n_in_bounds { (at + w * (slot + n) ≤ length body.now) × (slot + n < 2 ^ 63) }
    requires w_value { (w ≡ 4 → ⊥) → w ≡ 8 }
    ensures { result ≡ grown rows (sum_of (λ q. entry w (was body) at (slot + q)) n) }
{
    if w == 4 {
        return add_sizes(body, at, 4, slot, n, rows);
    }
    add_sizes(body, at, 8, slot, n, rows)
}

// Whether a sum is an offset of w bytes.
pub fn is_offset(w: u64, sum: u64) -> bool
    requires { (w ≡ 4 → ⊥) → w ≡ 8 }
    ensures { result ≡ ltb sum (half w) }
{
    if w == 4 {
        return sum < 2147483648;
    }
    sum < plan_words::FAR
}

// The w lowest bytes of v at `at`.
fn write_entry(room: &mut [u8], at: usize, w: u64, v: u64)
    requires w_in_bounds { at + w ≤ length room.old }
    requires w_value { (w ≡ 4 → ⊥) → w ≡ 8 }
    ensures { room.new ≡ splice at (encode w v) room.old }
{
    if w == 4 {
        u32::truncate(v).write(room, at);
        return;
    }
    v.write(room, at);
}

// `rows` and the sizes before each of the n together, at `to`.
fn write_sums_by(
    room: &mut [u8],
    to: usize,
    w: u64,
    body: &[u8],
    at: u64,
    slot: u64,
    n: u64,
    rows: u64,
)
    requires n_in_bounds { (to + w * n ≤ length room.old) × (at + w * (slot + n) ≤ length body.now) × (slot + n < 2 ^ 63) × (rows + sum_of (λ q. entry w body.now at (slot + q)) n < 2 ^ 63) }
    requires w_value { (w ≡ 4 → ⊥) → w ≡ 8 }
    ensures { room.new ≡ splice to (numbers w (λ r. rows + sum_of (λ q. entry w (was body) at (slot + q)) r) n) room.old }
{
    let mut sum = rows;
    for r in 0..n {
        write_entry(room, to + ((w * r) as usize), w, sum);
        sum += lookups::entry_at(body, at, w, slot + r);
    }
}

// The same, each width by itself.
fn write_sums(
    room: &mut [u8],
    to: usize,
    w: u64,
    body: &[u8],
    at: u64,
    slot: u64,
    n: u64,
    rows: u64,
)
    requires n_in_bounds { (to + w * n ≤ length room.old) × (at + w * (slot + n) ≤ length body.now) × (slot + n < 2 ^ 63) × (rows + sum_of (λ q. entry w body.now at (slot + q)) n < 2 ^ 63) }
    requires w_value { (w ≡ 4 → ⊥) → w ≡ 8 }
    ensures { room.new ≡ splice to (numbers w (λ r. rows + sum_of (λ q. entry w (was body) at (slot + q)) r) n) room.old }
{
    if w == 4 {
        write_sums_by(room, to, 4, body, at, slot, n, rows);
        return;
    }
    write_sums_by(room, to, 8, body, at, slot, n, rows);
}

// The same, as the offsets of node i from its byte o on.
pub fn put_sums(
    plan: &[u64],
    parts: &[u64],
    room: &mut [u8],
    write: bool,
    i: usize,
    o: u64,
    w: u64,
    body: &[u8],
    at: u64,
    slot: u64,
    n: u64,
    rows: u64,
)
    requires i_bound { (i < 32) × (at + w * (slot + n) ≤ length body.now) × (slot + n < 2 ^ 63) × (rows + sum_of (λ q. entry w body.now at (slot + q)) n < 2 ^ 63) }
    requires w_value { (w ≡ 4 → ⊥) → w ≡ 8 }
    ensures { room.new ≡ apply_if (was plan) (was parts) write (put i 1 o (numbers w (λ r. rows + sum_of (λ q. entry w (was body) at (slot + q)) r) n) ∷ []) room.old }
{
    if let Some(to) = plan_words::target(
        plan,
        parts,
        room.len(),
        write,
        i,
        1,
        o,
        plan_words::scale(n, w),
    ) {
        write_sums(room, to, w, body, at, slot, n, rows);
    }
}

// The furthest end of the rows that n offsets and sizes name; it stays at the largest number.
fn furthest_by(body: &[u8], offsets: u64, sizes: u64, w: u64, slot: u64, n: u64) -> u64
    requires n_in_bounds { (offsets + w * (slot + n) ≤ length body.now) × (sizes + w * (slot + n) ≤ length body.now) × (slot + n < 2 ^ 63) }
    requires w_value { (w ≡ 4 → ⊥) → w ≡ 8 }
    ensures { result ≡ furthest_of (λ q. entry w (was body) offsets (slot + q) + entry w (was body) sizes (slot + q)) n }
{
    let mut most: u64 = 0;
    for r in 0..n {
        let start = lookups::entry_at(body, offsets, w, slot + r);
        let end = plan_words::grow(start, lookups::entry_at(body, sizes, w, slot + r));
        most = most.max(end);
    }
    most
}

// The same, each width by itself.
pub fn furthest(body: &[u8], offsets: u64, sizes: u64, w: u64, slot: u64, n: u64) -> u64
    requires n_in_bounds { (offsets + w * (slot + n) ≤ length body.now) × (sizes + w * (slot + n) ≤ length body.now) × (slot + n < 2 ^ 63) }
    requires w_value { (w ≡ 4 → ⊥) → w ≡ 8 }
    ensures { result ≡ furthest_of (λ q. entry w (was body) offsets (slot + q) + entry w (was body) sizes (slot + q)) n }
{
    if w == 4 {
        return furthest_by(body, offsets, sizes, 4, slot, n);
    }
    furthest_by(body, offsets, sizes, 8, slot, n)
}
