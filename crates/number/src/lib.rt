// Little-endian numbers in a slice of bytes, at the widths 1, 2, 4 and 8, and their two's complement.
#![tactic(auto)]

pub mod copy;

ghost use Rattle.std.specs.Prelude.{◌≡◌, ℕ, ℤ, ◌+◌, ◌-◌, ◌%◌, ◌^◌, ◌≤◌, length, drop};
ghost use Rattle.number.specs.Number.{number, encode, signed, pattern, splice};
ghost use Rattle.number.specs.Sizes.{Sized, sized_1, sized_2, sized_4, sized_8};

// An unsigned number of 1, 2, 4 or 8 bytes.
pub trait Unsigned: Copy {
    ghost SIZE: { ℕ };

    ghost amount: { Self → ℕ };

    const SIZE: usize;

    // The number that stands in s at `at`, its lowest byte first.
    fn read(s: &[u8], at: usize) -> Self
        requires { at + SIZE ≤ length s.now }
        ensures { amount result ≡ number SIZE (drop at s.now) };

    // Its bytes at `at`, the lowest first.
    fn write(self, s: &mut [u8], at: usize)
        requires { at + SIZE ≤ length s.old }
        ensures { s.new ≡ splice at (encode SIZE (amount self)) s.old };

    fn to_u64(self) -> u64
        ensures { result ≡ amount self };

    // The number of the lowest SIZE bytes of x.
    fn truncate(x: u64) -> Self
        ensures { amount result ≡ x % 256 ^ SIZE };

    fn wrapping_add(self, other: Self) -> Self
        ensures { amount result ≡ (amount self + amount other) % 256 ^ SIZE };

    fn wrapping_sub(self, other: Self) -> Self
        ensures { amount result ≡ (amount self + (256 ^ SIZE - amount other)) % 256 ^ SIZE };

    ghost sized: { Sized SIZE };
}

impl Unsigned for u8 {
    ghost SIZE = { 1 };

    ghost amount = { λ x. x };

    ghost sized = { sized_1 };

    const SIZE: usize = 1;

    fn read(s: &[u8], at: usize) -> u8 {
        s[at]
    }

    fn write(self, s: &mut [u8], at: usize) {
        s[at] = self;
    }

    fn to_u64(self) -> u64 {
        self as u64
    }

    fn truncate(x: u64) -> u8 {
        (x % 256) as u8
    }

    fn wrapping_add(self, other: u8) -> u8 {
        self.wrapping_add(other)
    }

    fn wrapping_sub(self, other: u8) -> u8 {
        self.wrapping_sub(other)
    }
}

impl Unsigned for u16 {
    ghost SIZE = { 2 };

    ghost amount = { λ x. x };

    ghost sized = { sized_2 };

    const SIZE: usize = 2;

    fn read(s: &[u8], at: usize) -> u16 {
        (u8::read(s, at) as u16) + 256 * (u8::read(s, at + 1) as u16)
    }

    fn write(self, s: &mut [u8], at: usize) {
        ((self % 256) as u8).write(s, at);
        ((self / 256) as u8).write(s, at + 1);
    }

    fn to_u64(self) -> u64 {
        self as u64
    }

    fn truncate(x: u64) -> u16 {
        (x % 65536) as u16
    }

    fn wrapping_add(self, other: u16) -> u16 {
        self.wrapping_add(other)
    }

    fn wrapping_sub(self, other: u16) -> u16 {
        self.wrapping_sub(other)
    }
}

impl Unsigned for u32 {
    ghost SIZE = { 4 };

    ghost amount = { λ x. x };

    ghost sized = { sized_4 };

    const SIZE: usize = 4;

    fn read(s: &[u8], at: usize) -> u32 {
        (u16::read(s, at) as u32) + 65536 * (u16::read(s, at + 2) as u32)
    }

    fn write(self, s: &mut [u8], at: usize) {
        ((self % 65536) as u16).write(s, at);
        ((self / 65536) as u16).write(s, at + 2);
    }

    fn to_u64(self) -> u64 {
        self as u64
    }

    fn truncate(x: u64) -> u32 {
        (x % 4294967296) as u32
    }

    fn wrapping_add(self, other: u32) -> u32 {
        self.wrapping_add(other)
    }

    fn wrapping_sub(self, other: u32) -> u32 {
        self.wrapping_sub(other)
    }
}

impl Unsigned for u64 {
    ghost SIZE = { 8 };

    ghost amount = { λ x. x };

    ghost sized = { sized_8 };

    const SIZE: usize = 8;

    fn read(s: &[u8], at: usize) -> u64 {
        (u32::read(s, at) as u64) + 4294967296 * (u32::read(s, at + 4) as u64)
    }

    fn write(self, s: &mut [u8], at: usize) {
        ((self % 4294967296) as u32).write(s, at);
        ((self / 4294967296) as u32).write(s, at + 4);
    }

    fn to_u64(self) -> u64 {
        self
    }

    fn truncate(x: u64) -> u64 {
        x
    }

    fn wrapping_add(self, other: u64) -> u64 {
        self.wrapping_add(other)
    }

    fn wrapping_sub(self, other: u64) -> u64 {
        self.wrapping_sub(other)
    }
}

// A signed number of 1, 2, 4 or 8 bytes, by its pattern in two's complement.
pub trait Signed: Copy {
    type Pattern: Unsigned;

    ghost whole: { Self → ℤ };

    // The number that the pattern stands for.
    fn from_pattern(p: Self::Pattern) -> Self
        ensures { whole result ≡ signed Self.Pattern.SIZE (Self.Pattern.amount p) };

    // The pattern that stands for the number.
    fn pattern(self) -> Self::Pattern
        ensures { Self.Pattern.amount result ≡ pattern Self.Pattern.SIZE (whole self) };

    fn read(s: &[u8], at: usize) -> Self
        requires { at + Self.Pattern.SIZE ≤ length s.now }
        ensures { whole result ≡ signed Self.Pattern.SIZE (number Self.Pattern.SIZE (drop at s.now)) }
    {
        Self::from_pattern(Self::Pattern::read(s, at))
    }
}

impl Signed for i8 {
    type Pattern = u8;

    ghost whole = { λ x. x };

    fn from_pattern(p: u8) -> i8 {
        u8::cast_signed(p)
    }

    fn pattern(self) -> u8 {
        i8::cast_unsigned(self)
    }
}

impl Signed for i16 {
    type Pattern = u16;

    ghost whole = { λ x. x };

    fn from_pattern(p: u16) -> i16 {
        u16::cast_signed(p)
    }

    fn pattern(self) -> u16 {
        i16::cast_unsigned(self)
    }
}

impl Signed for i32 {
    type Pattern = u32;

    ghost whole = { λ x. x };

    fn from_pattern(p: u32) -> i32 {
        u32::cast_signed(p)
    }

    fn pattern(self) -> u32 {
        i32::cast_unsigned(self)
    }
}

impl Signed for i64 {
    type Pattern = u64;

    ghost whole = { λ x. x };

    fn from_pattern(p: u64) -> i64 {
        u64::cast_signed(p)
    }

    fn pattern(self) -> u64 {
        i64::cast_unsigned(self)
    }
}
