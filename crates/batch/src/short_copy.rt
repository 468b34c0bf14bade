// A few bytes from one slice to another, by words that may overlap.
ghost use Rattle.std.specs.Prelude.{◌≡◌, ◌+◌, ◌*◌, ◌≤◌, length, take, drop};
ghost use Rattle.clauses.specs.Slices.{was, left};
ghost use Rattle.number.specs.Number.{splice};

use number::Unsigned;

// A number of body at `from` into room at `at`.
pub fn copy_number<N: Unsigned>(room: &mut [u8], at: usize, body: &[u8], from: usize)
    requires { (at + N.SIZE ≤ length room.old) × (from + N.SIZE ≤ length body.now) }
    ensures { room.new ≡ splice at (take N.SIZE (drop from (was body))) room.old }
{
    N::read(body, from).write(room, at);
}

// 16 bytes of body at `from` into room at `at`.
fn copy_16(room: &mut [u8], at: usize, body: &[u8], from: usize)
    requires { (at + 16 ≤ length room.old) × (from + 16 ≤ length body.now) }
    ensures { room.new ≡ splice at (take 16 (drop from (was body))) room.old }
{
    copy_number::<u64>(room, at, body, from);
    copy_number::<u64>(room, at + 8, body, from + 8);
}

// 32 bytes, likewise.
fn copy_32(room: &mut [u8], at: usize, body: &[u8], from: usize)
    requires { (at + 32 ≤ length room.old) × (from + 32 ≤ length body.now) }
    ensures { room.new ≡ splice at (take 32 (drop from (was body))) room.old }
{
    copy_16(room, at, body, from);
    copy_16(room, at + 16, body, from + 16);
}

// w bytes of body at `from` into room at `at`.
fn copy_word(room: &mut [u8], at: usize, body: &[u8], from: usize, w: usize)
    requires { (at + w ≤ length room.old) × (from + w ≤ length body.now) }
    ensures { room.new ≡ splice at (take w (drop from (was body))) room.old }
{
    if w == 8 {
        copy_number::<u64>(room, at, body, from);
        return;
    }
    if w == 4 {
        copy_number::<u32>(room, at, body, from);
        return;
    }
    if w == 2 {
        copy_number::<u16>(room, at, body, from);
        return;
    }
    if w == 16 {
        copy_16(room, at, body, from);
        return;
    }
    if w == 32 {
        copy_32(room, at, body, from);
        return;
    }
    number::copy::copy_bytes(room, at, body, from, w);
}

// n bytes of body at `from` into room at `at`: the first w of them, and the last w.
fn copy_ends(room: &mut [u8], at: usize, body: &[u8], from: usize, n: usize, w: usize)
    requires { (at + n ≤ length room.old) × (from + n ≤ length body.now) × (w ≤ n) × (n ≤ w + w) }
    ensures { room.new ≡ splice at (take n (drop from (was body))) room.old }
{
    copy_word(room, at, body, from, w);
    copy_word(room, at + (n - w), body, from + (n - w), w);
}

// n bytes of body at `from` into room at `at`.
pub fn copy_short(room: &mut [u8], at: usize, body: &[u8], from: usize, n: usize)
    requires { (at + n ≤ length room.old) × (from + n ≤ length body.now) }
    ensures { room.new ≡ splice at (take n (drop from (was body))) room.old }
{
    if n < 2 {
        number::copy::copy_bytes(room, at, body, from, n);
        return;
    }
    if n <= 4 {
        copy_ends(room, at, body, from, n, 2);
        return;
    }
    if n <= 8 {
        copy_ends(room, at, body, from, n, 4);
        return;
    }
    if n <= 16 {
        copy_ends(room, at, body, from, n, 8);
        return;
    }
    if n <= 32 {
        copy_ends(room, at, body, from, n, 16);
        return;
    }
    if n <= 64 {
        copy_ends(room, at, body, from, n, 32);
        return;
    }
    number::copy::copy_bytes(room, at, body, from, n);
}
