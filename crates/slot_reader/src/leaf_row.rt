// A leaf's row: null, a whole number, an f32 or an f64, read from its bytes, and compared by bits.

ghost use Rattle.std.specs.Prelude.{◌≡◌, true, ◌+◌, ◌≤◌, ◌<◌, length, drop};
ghost use Rattle.std.specs.Float.{binary32, binary64};
ghost use Rattle.std.specs.Float.Ieee.{to_bits};
ghost use Rattle.clauses.specs.Slices.{was};
ghost use Rattle.number.specs.Number.{number};
ghost use Rattle.columnar.specs.Types.{width};
ghost use Rattle.columnar.specs.Plain.{value};
ghost use Rattle.slot_reader.specs.leaf_row.Reading.{number_of, single_of, double_of, leaf_of, leaf_row_of, key_of, key_of_whole};

use number::{Signed, Unsigned};

// An f32 or f64 has no bits of its own where it is a NaN: a NaN is read as its bits.
#[derive(Clone, Copy)]
pub enum Leaf {
    Null,
    Signed(i64),
    Unsigned(u64),
    Single(f32),
    Double(f64),
    SingleNan(u32),
    DoubleNan(u64),
}

// What two leaves are compared by: 0 null, 1 a whole number from 0 on, 2 one below 0, 3 an f32, 4 an f64, with its bits.
#[derive(Clone, Copy)]
struct Key {
    kind: u8,
    bits: u64,
}

fn single_of(bits: u32) -> Leaf
    ensures { result ≡ single_of bits }
{
    let low = bits % 0x8000_0000;
    if 0x7f80_0000 < low {
        Leaf::SingleNan(bits)
    } else {
        Leaf::Single(f32::from_bits(bits))
    }
}

fn double_of(bits: u64) -> Leaf
    ensures { result ≡ double_of bits }
{
    let low = bits % 0x8000_0000_0000_0000;
    if 0x7ff0_0000_0000_0000 < low {
        Leaf::DoubleNan(bits)
    } else {
        Leaf::Double(f64::from_bits(bits))
    }
}

// The number that stands in body at `at`; the codes 1 to 10 are the formats c C s S i I l L f g.
pub fn read_leaf(body: &[u8], at: usize, code: u8) -> Leaf
    requires le_code { (1 ≤ code) × (code ≤ 10) }
    requires code_in_bounds { at + width (number_of code) ≤ length body.now }
    ensures value { result ≡ leaf_of (number_of code) (number (width (number_of code)) (drop at (was body))) }
    ensures result_value { leaf_row_of result ≡ value (number_of code) (number (width (number_of code)) (drop at (was body))) }
{
    match code {
        1 => Leaf::Signed(i8::read(body, at) as i64),
        2 => Leaf::Unsigned(u8::read(body, at) as u64),
        3 => Leaf::Signed(i16::read(body, at) as i64),
        4 => Leaf::Unsigned(u16::read(body, at) as u64),
        5 => Leaf::Signed(i32::read(body, at) as i64),
        6 => Leaf::Unsigned(u32::read(body, at) as u64),
        7 => Leaf::Signed(i64::read(body, at)),
        8 => Leaf::Unsigned(u64::read(body, at)),
        9 => single_of(u32::read(body, at)),
        _ => double_of(u64::read(body, at)),
    }
}

// The bits of an f32; those of the usual NaN for one that has none of its own.
pub fn bits_f32(x: f32) -> u32
    ensures { result ≡ to_bits binary32 x }
{
    if x != x { 0x7fc0_0000 } else { f32::to_bits(x) }
}

pub fn bits_f64(x: f64) -> u64
    ensures { result ≡ to_bits binary64 x }
{
    if x != x {
        0x7ff8_0000_0000_0000
    } else {
        f64::to_bits(x)
    }
}

fn whole_key(z: i64) -> Key
    ensures { result ≡ key_of_whole z }
{
    if z < 0 {
        return Key {
            kind: 2,
            bits: (-1 - z) as u64,
        };
    }
    Key {
        kind: 1,
        bits: z as u64,
    }
}

fn leaf_key(l: Leaf) -> Key
    ensures { result ≡ key_of (leaf_row_of l) }
{
    match l {
        Leaf::Null => Key { kind: 0, bits: 0 },
        Leaf::Signed(z) => whole_key(z),
        Leaf::Unsigned(n) => Key { kind: 1, bits: n },
        Leaf::Single(x) => Key {
            kind: 3,
            bits: bits_f32(x) as u64,
        },
        Leaf::Double(x) => Key {
            kind: 4,
            bits: bits_f64(x),
        },
        Leaf::SingleNan(b) => Key {
            kind: 3,
            bits: b as u64,
        },
        Leaf::DoubleNan(b) => Key { kind: 4, bits: b },
    }
}

// Whether two leaves read as the same row.
pub fn same_leaf(a: Leaf, b: Leaf) -> bool
    ensures a_value { result ≡ true → leaf_row_of a ≡ leaf_row_of b }
    ensures value { leaf_row_of a ≡ leaf_row_of b → result ≡ true }
{
    let x = leaf_key(a);
    let y = leaf_key(b);
    if x.kind != y.kind {
        return false;
    }
    x.bits == y.bits
}
