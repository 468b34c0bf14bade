// The writes of the converter between widths: each asks where it goes, and is left out where the walk only tries and where it would leave the
// room.
ghost use Rattle.std.specs.Prelude.{◌≡◌, [], ◌∷◌, ◌++◌, ◌+◌, ◌*◌, ◌-◌, ◌<◌, ◌≤◌, ◌^◌, length};
ghost use Rattle.clauses.specs.Slices.{was, left};
ghost use Rattle.number.specs.Number.{splice, encode};
ghost use Rattle.walk.specs.Log.{put, apply_if};
ghost use Rattle.recode.specs.Recode.{recoded, lessened, valid_only};

use number::Unsigned;
use recode::{keys, offsets};
use walk::plan_words;

// n entries of w bytes of those at `from`, each less base, as entries of w2 bytes.
pub fn put_less(
    plan: &[u64],
    parts: &[u64],
    room: &mut [u8],
    write: bool,
    i: usize,
    b: usize,
    w2: u64,
    body: &[u8],
    from: usize,
    w: u64,
    n: u64,
    base: u64,
)
    requires i_bound { (i < 32) × (b < 3) × (from + w * n ≤ length body.now) }
    requires w_value { (w ≡ 2 → ⊥) → (w ≡ 4 → ⊥) → w ≡ 8 }
    requires w2_value { (w2 ≡ 2 → ⊥) → (w2 ≡ 4 → ⊥) → w2 ≡ 8 }
    ensures { room.new ≡ apply_if (was plan) (was parts) write (put i b 0 (lessened w w2 (was body) from base n) ∷ []) room.old }
{
    let size = plan_words::scale(n, w2);
    if let Some(at) = plan_words::target(plan, parts, room.len(), write, i, b, 0, size) {
        offsets::recode_less(room, at, w2, body, from, w, n as usize, base);
    }
}

// n entries of w bytes of those at `from` as entries of w2 bytes.
pub fn put_recoded(
    plan: &[u64],
    parts: &[u64],
    room: &mut [u8],
    write: bool,
    i: usize,
    b: usize,
    w2: u64,
    body: &[u8],
    from: usize,
    w: u64,
    n: u64,
)
    requires i_bound { (i < 32) × (b < 3) × (from + w * n ≤ length body.now) }
    requires w_value { (w ≡ 1 → ⊥) → (w ≡ 2 → ⊥) → (w ≡ 4 → ⊥) → w ≡ 8 }
    requires w2_value { (w2 ≡ 1 → ⊥) → (w2 ≡ 2 → ⊥) → (w2 ≡ 4 → ⊥) → w2 ≡ 8 }
    ensures { room.new ≡ apply_if (was plan) (was parts) write (put i b 0 (recoded w w2 (was body) from n) ∷ []) room.old }
{
    let size = plan_words::scale(n, w2);
    if let Some(at) = plan_words::target(plan, parts, room.len(), write, i, b, 0, size) {
        keys::recode(room, at, w2, body, from, w, n as usize);
    }
}

// n keys of w bytes of those at `from` as keys of w2 bytes: 0 where the bit is 0, of those from the bit a of the byte `valid` on.
pub fn put_valid(
    plan: &[u64],
    parts: &[u64],
    room: &mut [u8],
    write: bool,
    i: usize,
    b: usize,
    w2: u64,
    body: &[u8],
    from: usize,
    w: u64,
    valid: usize,
    a: u64,
    n: u64,
)
    requires i_bound { (i < 32) × (b < 3) × (from + w * n ≤ length body.now) × (8 * valid + a + n ≤ 8 * length body.now) × (a + n < 2 ^ 64) }
    requires w_value { (w ≡ 1 → ⊥) → (w ≡ 2 → ⊥) → (w ≡ 4 → ⊥) → w ≡ 8 }
    requires w2_value { (w2 ≡ 1 → ⊥) → (w2 ≡ 2 → ⊥) → (w2 ≡ 4 → ⊥) → w2 ≡ 8 }
    ensures { room.new ≡ apply_if (was plan) (was parts) write (put i b 0 (valid_only w w2 (was body) from (8 * valid + a) n) ∷ []) room.old }
{
    let size = plan_words::scale(n, w2);
    if let Some(at) = plan_words::target(plan, parts, room.len(), write, i, b, 0, size) {
        keys::recode_valid(room, at, w2, body, from, w, valid, a as usize, n as usize);
    }
}

// The w lowest bytes of v at `at`.
fn write_end(room: &mut [u8], at: usize, w: u64, v: u64)
    requires w_in_bounds { at + w ≤ length room.old }
    requires w_value { (w ≡ 2 → ⊥) → (w ≡ 4 → ⊥) → w ≡ 8 }
    ensures { room.new ≡ splice at (encode w v) room.old }
{
    match w {
        2 => u16::truncate(v).write(room, at),
        4 => u32::truncate(v).write(room, at),
        _ => v.write(room, at),
    }
}

// m run ends of w bytes of those at `from`, each less base, as run ends of w2 bytes at `at`; the last of them is `last`.
fn write_ends(
    room: &mut [u8],
    at: usize,
    w2: u64,
    body: &[u8],
    from: usize,
    w: u64,
    m: usize,
    base: u64,
    last: u64,
)
    requires le_m { (1 ≤ m) × (at + w2 * m ≤ length room.old) × (from + w * m ≤ length body.now) }
    requires w_value { (w ≡ 2 → ⊥) → (w ≡ 4 → ⊥) → w ≡ 8 }
    requires w2_value { (w2 ≡ 2 → ⊥) → (w2 ≡ 4 → ⊥) → w2 ≡ 8 }
    ensures { room.new ≡ splice at (lessened w w2 (was body) from base (m - 1) ++ encode w2 last) room.old }
{
    offsets::recode_less(room, at, w2, body, from, w, m - 1, base);
    write_end(room, at + (w2 as usize) * (m - 1), w2, last);
}

// m run ends of w bytes of those at `from`, each less base, as run ends of w2 bytes; the last of them is `last`.
pub fn put_ends(
    plan: &[u64],
    parts: &[u64],
    room: &mut [u8],
    write: bool,
    i: usize,
    b: usize,
    w2: u64,
    body: &[u8],
    from: usize,
    w: u64,
    m: u64,
    base: u64,
    last: u64,
)
    requires i_bound { (i < 32) × (b < 3) × (1 ≤ m) × (from + w * m ≤ length body.now) }
    requires w_value { (w ≡ 2 → ⊥) → (w ≡ 4 → ⊥) → w ≡ 8 }
    requires w2_value { (w2 ≡ 2 → ⊥) → (w2 ≡ 4 → ⊥) → w2 ≡ 8 }
    ensures { room.new ≡ apply_if (was plan) (was parts) write (put i b 0 (lessened w w2 (was body) from base (m - 1) ++ encode w2 last) ∷ []) room.old }
{
    let size = plan_words::scale(m, w2);
    if let Some(at) = plan_words::target(plan, parts, room.len(), write, i, b, 0, size) {
        write_ends(room, at, w2, body, from, w, m as usize, base, last);
    }
}
