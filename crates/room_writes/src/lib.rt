// The writes of a walk: each asks where it goes, and is left out where the walk only tries and where it would leave the room.
#![tactic(auto)]

ghost use Rattle.std.specs.Prelude.{◌≡◌, [], ◌∷◌, ◌+◌, ◌*◌, ◌<◌, ◌≤◌, length, take, drop, replicate};
ghost use Rattle.number.specs.Number.{splice, encode};
ghost use Rattle.utils.specs.byte_view.View.{reviewed};
ghost use Rattle.walk.specs.Log.{put, apply_if};

use number::Unsigned;
use walk::plan_words;

pub mod keys;
pub mod run;
pub mod validity;
pub mod variable_size;

// n bytes of body from `from` on.
pub fn put_copy(
    plan: &[u64],
    parts: &[u64],
    room: &mut [u8],
    write: bool,
    i: usize,
    b: usize,
    o: u64,
    body: &[u8],
    from: usize,
    n: u64,
)
    requires { (i < 32) × (b < 3) × (from + n ≤ length body.now) }
    ensures { room.new ≡ apply_if plan.now parts.now write (put i b o (take n (drop from body.now)) ∷ []) room.old }
{
    if let Some(at) = plan_words::target(plan, parts, room.len(), write, i, b, o, n) {
        number::copy::copy_bytes(room, at, body, from, n as usize);
    }
}

// n entries of w bytes, all zeros.
pub fn put_zeros(
    plan: &[u64],
    parts: &[u64],
    room: &mut [u8],
    write: bool,
    i: usize,
    b: usize,
    o: u64,
    w: u64,
    n: u64,
)
    requires { (i < 32) × (b < 3) × (1 ≤ w) × (w ≤ 16) }
    ensures { room.new ≡ apply_if plan.now parts.now write (put i b o (replicate (n * w) 0) ∷ []) room.old }
{
    let size = plan_words::scale(n, w);
    if let Some(at) = plan_words::target(plan, parts, room.len(), write, i, b, o, size) {
        number::copy::fill_zeros(room, at, size as usize);
    }
}

// The byte v, n times.
pub fn put_same(
    plan: &[u64],
    parts: &[u64],
    room: &mut [u8],
    write: bool,
    i: usize,
    b: usize,
    o: u64,
    n: u64,
    v: u8,
)
    requires { (i < 32) × (b < 3) }
    ensures { room.new ≡ apply_if plan.now parts.now write (put i b o (replicate n v) ∷ []) room.old }
{
    if let Some(at) = plan_words::target(plan, parts, room.len(), write, i, b, o, n) {
        number::copy::fill_bytes(room, at, n as usize, v);
    }
}

// The w lowest bytes of v at `at`.
fn write_number(room: &mut [u8], at: usize, w: u64, v: u64)
    requires w_in_bounds { at + w ≤ length room.old }
    requires w_value { (w ≡ 1 → ⊥) → (w ≡ 2 → ⊥) → (w ≡ 4 → ⊥) → w ≡ 8 }
    ensures { room.new ≡ splice at (encode w v) room.old }
{
    match w {
        1 => u8::truncate(v).write(room, at),
        2 => u16::truncate(v).write(room, at),
        4 => u32::truncate(v).write(room, at),
        _ => v.write(room, at),
    }
}

// The w lowest bytes of v.
pub fn put_number(
    plan: &[u64],
    parts: &[u64],
    room: &mut [u8],
    write: bool,
    i: usize,
    b: usize,
    o: u64,
    w: u64,
    v: u64,
)
    requires i_bound { (i < 32) × (b < 3) }
    requires w_value { (w ≡ 1 → ⊥) → (w ≡ 2 → ⊥) → (w ≡ 4 → ⊥) → w ≡ 8 }
    ensures { room.new ≡ apply_if plan.now parts.now write (put i b o (encode w v) ∷ []) room.old }
{
    if let Some(at) = plan_words::target(plan, parts, room.len(), write, i, b, o, w) {
        write_number(room, at, w, v);
    }
}

// The first n views of those at `from`, the buffer number of each raised by base.
pub fn put_views(
    plan: &[u64],
    parts: &[u64],
    room: &mut [u8],
    write: bool,
    i: usize,
    b: usize,
    o: u64,
    body: &[u8],
    from: usize,
    n: u64,
    base: u64,
)
    requires { (i < 32) × (b < 3) × (from + 16 * n ≤ length body.now) }
    ensures { room.new ≡ apply_if plan.now parts.now write (put i b o (reviewed body.now from base n) ∷ []) room.old }
{
    if let Some(at) = plan_words::target(
        plan,
        parts,
        room.len(),
        write,
        i,
        b,
        o,
        plan_words::scale(n, 16),
    ) {
        utils::byte_view::extend_views(
            room,
            at,
            body,
            from,
            n as usize,
            (base % 4294967296) as u32,
        );
    }
}
