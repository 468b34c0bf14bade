// Validity bits into the room.
ghost use Rattle.std.specs.Prelude.{◌≡◌, [], ◌∷◌, ◌+◌, ◌*◌, ◌<◌, ◌≤◌, length, replicate};
ghost use Rattle.bits.specs.Bits.{bits_at, zeros};
ghost use Rattle.walk.specs.Log.{mask, apply_if};

use walk::plan_words;

// n bits of body, from the bit a of the byte `from` on. How many of them are 0.
pub fn put_mask(
    plan: &[u64],
    parts: &[u64],
    room: &mut [u8],
    write: bool,
    i: usize,
    p: u64,
    body: &[u8],
    from: usize,
    a: u64,
    n: u64,
) -> u64
    requires { (i < 32) × (8 * from + a + n ≤ 8 * length body.now) }
    ensures room_after { room.new ≡ apply_if plan.now parts.now write (mask i p (bits_at (8 * from + a) n body.now) ∷ []) room.old }
    ensures value { result ≡ zeros (bits_at (8 * from + a) n body.now) }
{
    match plan_words::mask_target(plan, parts, room.len(), write, i, p, n) {
        Some(at) => bits::copy_bits(
            room, at, p as usize, body, from, a as usize, n as usize,
        ) as u64,
        None => bits::count_zeros(body, from, a as usize, n as usize) as u64,
    }
}

// n ones.
pub fn put_ones(plan: &[u64], parts: &[u64], room: &mut [u8], write: bool, i: usize, p: u64, n: u64)
    requires { i < 32 }
    ensures { room.new ≡ apply_if plan.now parts.now write (mask i p (replicate n 1) ∷ []) room.old }
{
    if let Some(at) = plan_words::mask_target(plan, parts, room.len(), write, i, p, n) {
        bits::append_ones(room, at, p as usize, n as usize);
    }
}

// n zeros.
pub fn put_null_bits(
    plan: &[u64],
    parts: &[u64],
    room: &mut [u8],
    write: bool,
    i: usize,
    p: u64,
    n: u64,
)
    requires { i < 32 }
    ensures { room.new ≡ apply_if plan.now parts.now write (mask i p (replicate n 0) ∷ []) room.old }
{
    if let Some(at) = plan_words::mask_target(plan, parts, room.len(), write, i, p, n) {
        bits::append_zeros(room, at, p as usize, n as usize);
    }
}
