// Copies of keys with an offset, which is added modulo 2 to the power of the width.
// Follows arrow-data 60.1.0 src/transform/primitive.rs, Apache-2.0; see NOTICE.
ghost use Rattle.std.specs.Prelude.{◌≡◌, ◌+◌, ◌*◌, ◌≤◌, length};
ghost use Rattle.number.specs.Number.{splice};
ghost use Rattle.utils.specs.primitive.Primitive.{rebased, wrapping_add};

use number::{Signed, Unsigned};

// The first n keys of those at `from`, each plus base, into room at `at`.
pub fn extend_with_offset<N: Unsigned>(
    room: &mut [u8],
    at: usize,
    body: &[u8],
    from: usize,
    n: usize,
    base: N,
)
    requires n_in_bounds { at + N.SIZE * n ≤ length room.old }
    requires n_in_bounds_2 { from + N.SIZE * n ≤ length body.now }
    ensures { room.new ≡ splice at (rebased N.SIZE body.now from (N.amount base) n) room.old }
{
    for i in 0..n {
        let key = N::read(body, from + N::SIZE * i);
        key.wrapping_add(base).write(room, at + N::SIZE * i);
    }
}

// The sum of two signed keys, modulo 2 to the power of the width.
fn signed_sum<S: Signed>(x: S, y: S) -> S
    ensures { S.whole result ≡ wrapping_add S.Pattern.SIZE (S.whole x) (S.whole y) }
{
    S::from_pattern(x.pattern().wrapping_add(y.pattern()))
}

// The same of signed keys, by the sum of signed numbers; base is given by its pattern, the lowest bytes of a u64.
pub fn extend_with_offset_signed<S: Signed>(
    room: &mut [u8],
    at: usize,
    body: &[u8],
    from: usize,
    n: usize,
    base: u64,
)
    requires n_in_bounds { at + S.Pattern.SIZE * n ≤ length room.old }
    requires n_in_bounds_2 { from + S.Pattern.SIZE * n ≤ length body.now }
    ensures { room.new ≡ splice at (rebased S.Pattern.SIZE body.now from base n) room.old }
{
    let offset = S::from_pattern(S::Pattern::truncate(base));
    for i in 0..n {
        let key = signed_sum(S::read(body, from + S::Pattern::SIZE * i), offset);
        key.pattern().write(room, at + S::Pattern::SIZE * i);
    }
}
