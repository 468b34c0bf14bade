// Rows of a fixed-width column into runs, and runs into rows: the loops over bytes (02, W1).

ghost use Rattle.std.specs.Prelude.{◌≡◌, true, not, ◌+◌, ◌*◌, ◌/◌, ◌≤◌, ◌<◌, ◌^◌, eqb, length, replicate};
ghost use Rattle.clauses.specs.Slices.{was, left};
ghost use Rattle.number.specs.Number.{splice, encode};
ghost use Rattle.aggregates.specs.patterns.Parts.{Sized};
ghost use Rattle.anew.specs.runs.Runs.{alike};
ghost use Rattle.coding.specs.run_coding.Rows.{number_in, valid_in, cell_of, as_bit};
ghost use Rattle.bits.specs.Bits.{put_bits};

use number::Unsigned;

// Where rows stand in a body: the first from `start` on, and its validity bit, where there is one, the bit `bit` of the byte `mask`.
#[derive(Clone, Copy)]
pub struct Slots {
    pub start: usize,
    pub mask: usize,
    pub bit: usize,
}

// Where the parts of a result begin in the room: run ends, values, and the values' validity.
#[derive(Clone, Copy)]
pub struct Spots {
    pub ends: usize,
    pub values: usize,
    pub mask: usize,
}

// The number of row r of N's rows.
pub fn number_at<N: Unsigned>(body: &[u8], s: Slots, r: usize) -> u64
    requires { s.start + r * N.SIZE + N.SIZE ≤ length body.now }
    ensures { result ≡ number_in (was body) N.SIZE s.start r }
{
    N::read(body, s.start + r * N::SIZE).to_u64()
}

// Whether row r is valid.
pub fn is_valid(body: &[u8], masked: bool, s: Slots, r: usize) -> bool
    requires { masked ≡ true → (s.bit + r < 2 ^ 64) × (s.mask + (s.bit + r) / 8 < length body.now) }
    ensures { result ≡ valid_in (was body) masked s.mask s.bit r }
{
    if masked {
        let i = s.bit + r;
        return (body[s.mask + i / 8] >> (i % 8)) % 2 == 1;
    }
    true
}

// A row's number where it is valid, and 0 where it is null.
pub fn cell_of(valid: bool, x: u64) -> u64
    ensures { result ≡ cell_of valid x }
{
    if valid { x } else { 0 }
}

// Whether two rows read differently, by whether each is valid and by their numbers.
pub fn is_change(a: bool, b: bool, x: u64, y: u64) -> bool
    ensures { result ≡ not (alike a b (eqb x y)) }
{
    (a != b) | (a & (x != y))
}

// The lowest bytes of v at `at`, as many as N has.
pub fn write_number<N: Unsigned>(room: &mut [u8], at: usize, v: u64)
    requires { at + N.SIZE ≤ length room.old }
    ensures { room.new ≡ splice at (encode N.SIZE v) room.old }
{
    N::truncate(v).write(room, at)
}

// The w lowest bytes of v at `at`.
pub fn write_entry(room: &mut [u8], at: usize, w: u8, v: u64)
    requires { Sized w × (at + w ≤ length room.old) }
    ensures { room.new ≡ splice at (encode w v) room.old }
{
    match w {
        1 => write_number::<u8>(room, at, v),
        2 => write_number::<u16>(room, at, v),
        4 => write_number::<u32>(room, at, v),
        _ => write_number::<u64>(room, at, v),
    }
}

// n equal bits from the bit k of the byte `at` on. Where n is 1 few steps are left of it in line.
#[inline(always)]
pub fn write_bits(room: &mut [u8], at: usize, k: usize, n: usize, v: bool)
    requires { 8 * at + k + n ≤ 8 * length room.old }
    ensures { room.new ≡ put_bits (8 * at + k) (replicate n (as_bit v)) room.old }
{
    if v {
        bits::append_ones(room, at, k, n);
        return;
    }
    bits::append_zeros(room, at, k, n);
}
