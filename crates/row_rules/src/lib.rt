// The rules that hold of every row of a source: offsets, list-views and run ends, each in one pass over the rows.
// Each function answers whether n rows obey, whatever they hold. `at` is a byte's place, with the array's offset already in it.
#![tactic(auto)]

pub mod slots;

ghost use Rattle.std.specs.Prelude.{◌≡◌, ◌+◌, ◌-◌, ◌*◌, ◌%◌, ◌^◌, ◌<◌, ◌≤◌, length, min, nat_lt, bit_or};
ghost use Rattle.columnar.specs.Types.{half};
ghost use Rattle.row_rules.specs.Rules.{offsets_rows, view_row, list_view_rows, ends_rows};

use number::Unsigned;

// The least number of N's size that is negative where it is read with a sign.
fn half<N: Unsigned>() -> u64
    ensures { result ≡ half N.SIZE }
{
    1 << (8 * N::SIZE - 1)
}

// The bits of both. As a number of N's own size, so that a loop over numbers of 4 bytes compiles to vectors of them.
fn both<N: Unsigned>(a: N, b: N) -> N
    ensures { N.amount result ≡ bit_or (N.amount a) (N.amount b) % 256 ^ N.SIZE }
{
    N::truncate(a.to_u64() | b.to_u64())
}

// Whether the n + 1 offsets from `at` on never fall, none being negative. The highest bits of the offsets and of their differences are
// gathered, so that the loop compiles to vectors.
pub fn offsets<N: Unsigned>(body: &[u8], at: usize, n: usize) -> bool
    requires { at + N.SIZE * (n + 1) ≤ length body.now }
    ensures { result ≡ offsets_rows N.SIZE body.now at n }
{
    let mut all = N::read(body, at + N::SIZE * n);
    for i in 0..n {
        let here = N::read(body, at + N::SIZE * i);
        let next = N::read(body, at + N::SIZE * (i + 1));
        all = both(all, both(here, next.wrapping_sub(here)));
    }
    all.to_u64() < half::<N>()
}

// A number with its highest bit 0 where the row obeys: those of the offset, the size, and what is left behind each of them.
fn view_bits<N: Unsigned>(o: N, z: N, child: N) -> N
    requires { (N.amount o < 256 ^ N.SIZE) × (N.amount z < 256 ^ N.SIZE) × (N.amount child < half N.SIZE) }
    ensures gathered { nat_lt (N.amount result) (half N.SIZE) ≡ view_row N.SIZE (N.amount child) (N.amount o) (N.amount z) }
    ensures fits { N.amount result < 256 ^ N.SIZE }
{
    let left = child.wrapping_sub(o);
    both(both(o, z), both(left, left.wrapping_sub(z)))
}

// The same of a child whose rows are no negative number: the highest bits are gathered, so that the loop compiles to vectors.
fn views_at_once<N: Unsigned>(body: &[u8], at: usize, too: usize, n: usize, child: N) -> bool
    requires { (at + N.SIZE * n ≤ length body.now) × (too + N.SIZE * n ≤ length body.now) × (N.amount child < half N.SIZE) }
    ensures { result ≡ list_view_rows N.SIZE body.now at too (N.amount child) n }
{
    let mut bits = N::truncate(0);
    for i in 0..n {
        let o = N::read(body, at + N::SIZE * i);
        let z = N::read(body, too + N::SIZE * i);
        bits = both(bits, view_bits(o, z, child));
    }
    bits.to_u64() < half::<N>()
}

// N's number with the other bits.
fn not<N: Unsigned>(x: N) -> N
    requires { N.amount x < 256 ^ N.SIZE }
    ensures { N.amount result ≡ 256 ^ N.SIZE - 1 - N.amount x }
{
    N::truncate(u64::MAX).wrapping_sub(x)
}

// So many rows, or as many as N counts.
fn capped<N: Unsigned>(rows: u64) -> N
    ensures { N.amount result ≡ min rows (256 ^ N.SIZE - 1) }
{
    N::truncate(rows.min(N::truncate(u64::MAX).to_u64()))
}

// The number of `view_bits` for a child whose rows are a negative number, where that is read with a sign: so may be what is left behind the
// offset, and is then enough for any size.
fn far_view_bits<N: Unsigned>(o: N, z: N, child: N) -> N
    requires { (N.amount o < 256 ^ N.SIZE) × (N.amount z < 256 ^ N.SIZE) × (half N.SIZE ≤ N.amount child) × (N.amount child < 256 ^ N.SIZE) }
    ensures gathered { nat_lt (N.amount result) (half N.SIZE) ≡ view_row N.SIZE (N.amount child) (N.amount o) (N.amount z) }
    ensures fits { N.amount result < 256 ^ N.SIZE }
{
    let left = child.wrapping_sub(o);
    both(both(o, z), not(both(left, not(left.wrapping_sub(z)))))
}

// The same as `views_at_once` of such a child. One of more rows than N counts has those of any offset and size.
fn far_views_at_once<N: Unsigned>(body: &[u8], at: usize, too: usize, n: usize, child: u64) -> bool
    requires { (at + N.SIZE * n ≤ length body.now) × (too + N.SIZE * n ≤ length body.now) × (half N.SIZE ≤ child) }
    ensures { result ≡ list_view_rows N.SIZE body.now at too child n }
{
    let most = capped::<N>(child);
    let mut bits = N::truncate(0);
    for i in 0..n {
        let o = N::read(body, at + N::SIZE * i);
        let z = N::read(body, too + N::SIZE * i);
        bits = both(bits, far_view_bits(o, z, most));
    }
    bits.to_u64() < half::<N>()
}

// Whether n list-view rows obey, with offsets from `at` on and sizes from `too` on, over a child of `child` rows.
pub fn list_views<N: Unsigned>(body: &[u8], at: usize, too: usize, n: usize, child: u64) -> bool
    requires { (at + N.SIZE * n ≤ length body.now) × (too + N.SIZE * n ≤ length body.now) }
    ensures { result ≡ list_view_rows N.SIZE body.now at too child n }
{
    if child < half::<N>() {
        return views_at_once(body, at, too, n, N::truncate(child));
    }
    far_views_at_once::<N>(body, at, too, n, child)
}

// Whether the n run ends from `at` on rise strictly from at least 1, none being negative. Read without a sign, ends that rise have no
// negative one where the last is not.
pub fn run_ends<N: Unsigned>(body: &[u8], at: usize, n: usize) -> bool
    requires { at + N.SIZE * n ≤ length body.now }
    ensures { result ≡ ends_rows N.SIZE body.now at n }
{
    let mut before = N::truncate(0);
    let mut good = true;
    for k in 0..n {
        let end = N::read(body, at + N::SIZE * k);
        if end.to_u64() <= before.to_u64() {
            good = false;
        }
        before = end;
    }
    if half::<N>() <= before.to_u64() {
        return false;
    }
    good
}
