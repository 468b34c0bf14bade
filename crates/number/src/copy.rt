// Copies of bytes between two slices, and runs of one byte.
ghost use Rattle.std.specs.Prelude.{◌≡◌, ◌+◌, ◌≤◌, length, take, drop, replicate};
ghost use Rattle.number.specs.Number.{splice};

// n bytes of body from `from` on into room at `at`.
pub fn copy_bytes(room: &mut [u8], at: usize, body: &[u8], from: usize, n: usize)
    requires n_in_bounds { at + n ≤ length room.old }
    requires n_in_bounds_2 { from + n ≤ length body.now }
    ensures { room.new ≡ splice at (take n (drop from body.now)) room.old }
{
    room[at..at + n].copy_from_slice(&body[from..from + n]);
}

// n times the byte v at `at`.
pub fn fill_bytes(room: &mut [u8], at: usize, n: usize, v: u8)
    requires { at + n ≤ length room.old }
    ensures { room.new ≡ splice at (replicate n v) room.old }
{
    room[at..at + n].fill(v);
}

// n zeros at `at`.
pub fn fill_zeros(room: &mut [u8], at: usize, n: usize)
    requires { at + n ≤ length room.old }
    ensures { room.new ≡ splice at (replicate n 0) room.old }
{
    fill_bytes(room, at, n, 0);
}
