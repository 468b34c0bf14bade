// Keys into the room, rebased.
ghost use Rattle.std.specs.Prelude.{◌≡◌, [], ◌∷◌, ◌+◌, ◌*◌, ◌<◌, ◌≤◌, length};
ghost use Rattle.number.specs.Number.{splice};
ghost use Rattle.utils.specs.primitive.Primitive.{rebased};
ghost use Rattle.schema.specs.formats.Code.{width_of};
ghost use Rattle.walk.specs.State.{bytes_of};
ghost use Rattle.walk.specs.Log.{put, apply_if};

use number::Unsigned;
use utils::primitive::{extend_with_offset, extend_with_offset_signed};
use walk::plan_words;

// The first n unsigned keys of w bytes of those at `from`, each plus base, at `at`.
fn write_unsigned_keys(
    room: &mut [u8],
    at: usize,
    w: u64,
    body: &[u8],
    from: usize,
    n: usize,
    base: u64,
)
    requires n_in_bounds { (at + w * n ≤ length room.old) × (from + w * n ≤ length body.now) }
    requires w_value { (w ≡ 1 → ⊥) → (w ≡ 2 → ⊥) → (w ≡ 4 → ⊥) → w ≡ 8 }
    ensures { room.new ≡ splice at (rebased w body.now from base n) room.old }
{
    match w {
        1 => extend_with_offset(room, at, body, from, n, u8::truncate(base)),
        2 => extend_with_offset(room, at, body, from, n, u16::truncate(base)),
        4 => extend_with_offset(room, at, body, from, n, u32::truncate(base)),
        _ => extend_with_offset(room, at, body, from, n, base),
    }
}

// The first n keys of w bytes of those at `from`, each plus base, at `at`. The keys of the formats c, s, i and l are signed.
fn write_keys(
    room: &mut [u8],
    at: usize,
    code: u8,
    w: u64,
    body: &[u8],
    from: usize,
    n: usize,
    base: u64,
)
    requires n_in_bounds { (at + w * n ≤ length room.old) × (from + w * n ≤ length body.now) }
    requires w_value { (w ≡ 1 → ⊥) → (w ≡ 2 → ⊥) → (w ≡ 4 → ⊥) → w ≡ 8 }
    requires w_value_2 { w ≡ width_of code }
    ensures { room.new ≡ splice at (rebased w body.now from base n) room.old }
{
    match code {
        1 => extend_with_offset_signed::<i8>(room, at, body, from, n, base),
        3 => extend_with_offset_signed::<i16>(room, at, body, from, n, base),
        5 => extend_with_offset_signed::<i32>(room, at, body, from, n, base),
        7 => extend_with_offset_signed::<i64>(room, at, body, from, n, base),
        _ => write_unsigned_keys(room, at, w, body, from, n, base),
    }
}

// The first n keys of node i of those at `from`, w bytes each, each plus base.
pub fn put_keys(
    plan: &[u64],
    parts: &[u64],
    room: &mut [u8],
    write: bool,
    i: usize,
    b: usize,
    o: u64,
    w: u64,
    body: &[u8],
    from: usize,
    n: u64,
    base: u64,
)
    requires i_bound { (i < 32) × (b < 3) × (from + w * n ≤ length body.now) }
    requires w_value { (w ≡ 1 → ⊥) → (w ≡ 2 → ⊥) → (w ≡ 4 → ⊥) → w ≡ 8 }
    requires w_value_2 { w ≡ bytes_of plan.now i }
    ensures { room.new ≡ apply_if plan.now parts.now write (put i b o (rebased w body.now from base n) ∷ []) room.old }
{
    let code = plan_words::code_of(plan, i);
    if let Some(at) = plan_words::target(
        plan,
        parts,
        room.len(),
        write,
        i,
        b,
        o,
        plan_words::scale(n, w),
    ) {
        write_keys(room, at, code, w, body, from, n as usize, base);
    }
}
