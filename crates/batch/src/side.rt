// Rows of a child that are walked together, and where the rows of one more row of the parent stand beside them.
ghost use Rattle.std.specs.Prelude.{◌≡◌, List, ℕ, ◌+◌, ◌*◌, ◌-◌, ◌<◌, ◌≤◌, ◌^◌, length};
ghost use Rattle.clauses.specs.Slices.{was};
ghost use Rattle.number.specs.Number.{entry};
ghost use Rattle.walk.specs.Log.{Out};
ghost use Rattle.batch.specs.Stretch.{sum_of, stretch};
ghost use Rattle.batch.specs.batch_walk.Side.{side_of, next_start, next_size};
ghost use Rattle.batch.specs.batch_walk.Rows.{entries_from};

use nested_rows::lookups;

// The child's rows a .. a + m - 1, and the parent's row that is looked at next.
#[derive(Clone, Copy)]
pub struct Stretch {
    pub a: u64,
    pub m: u64,
    pub next: u64,
}

// 1 if the rows start .. start + size - 1 follow the stretch, 0 if they are none and not behind it, 2 if it is none and stands before them, else 3.
pub fn side_of(a: u64, m: u64, start: u64, size: u64) -> u8
    ensures { result ≡ side_of a m start size }
{
    if start < a {
        if size == 0 {
            return 0;
        }
        return 3;
    }
    let gap = start - a;
    if gap == m {
        return 1;
    }
    if m == 0 {
        return 2;
    }
    if m < gap {
        return 3;
    }
    if size == 0 {
        return 0;
    }
    3
}

// Where the stretch starts with them.
pub fn next_start(side: u8, a: u64, start: u64) -> u64
    ensures { result ≡ next_start side a start }
{
    if side == 2 {
        return start;
    }
    a
}

// How many rows it has with them.
pub fn next_size(side: u8, m: u64, size: u64) -> u64
    requires { m + size < 2 ^ 64 }
    ensures { result ≡ next_size side m size }
{
    if side == 2 {
        return size;
    }
    if side == 1 {
        return m + size;
    }
    m
}

// The stretch that begins with the rows a .. a + m - 1, where row `from` of the list-view is looked at next.
pub fn advance(
    body: &[u8],
    offsets: u64,
    sizes: u64,
    w: u64,
    slot: u64,
    n: u64,
    from: u64,
    a: u64,
    m: u64,
) -> Stretch
    requires n_in_bounds { (offsets + w * (slot + n) ≤ length body.now) × (sizes + w * (slot + n) ≤ length body.now) × (slot + n < 2 ^ 63) × (from ≤ n) }
    requires m_bound { (m ≤ sum_of (λ q. entry w body.now sizes (slot + q)) from) × (sum_of (λ q. entry w body.now sizes (slot + q)) n < 2 ^ 63) }
    requires w_value { (w ≡ 4 → ⊥) → w ≡ 8 }
    ensures by_index { (walk : ℕ → ℕ → List ℕ → Out) (c : List ℕ) → let f = stretch walk (entries_from w (was body) offsets slot) (entries_from w (was body) sizes slot) in f (n - from) from a m c ≡ f (n - result.next) result.next result.a result.m c }
    ensures next_le_n { (result.next ≤ n) × (from ≤ result.next) }
    ensures next_value { (result.next ≡ n → ⊥) → side_of result.a result.m (entry w (was body) offsets (slot + result.next)) (entry w (was body) sizes (slot + result.next)) ≡ 3 }
{
    let mut b = a;
    let mut k = m;
    for r in from..n {
        let start = lookups::entry_at(body, offsets, w, slot + r);
        let size = lookups::entry_at(body, sizes, w, slot + r);
        let side = side_of(b, k, start, size);
        if side == 3 {
            return Stretch {
                a: b,
                m: k,
                next: r,
            };
        }
        b = next_start(side, b, start);
        k = next_size(side, k, size);
    }
    Stretch {
        a: b,
        m: k,
        next: n,
    }
}
