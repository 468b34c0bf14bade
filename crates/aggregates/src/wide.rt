// Numbers of 128 bits as two halves of 64.
ghost use Rattle.std.specs.Prelude.{◌≡◌, ◌+◌, ◌*◌, ◌<◌, ◌≤◌};
ghost use Rattle.aggregates.specs.wide.Value.{value_of};

#[derive(Clone, Copy)]
pub struct Wide {
    pub hi: u64,
    pub lo: u64,
}

// The product of two numbers below 2^32.
fn times(a: u64, b: u64) -> u64
    requires { (a < 4294967296) × (b < 4294967296) }
    ensures { (result ≡ a * b) × (result ≤ 18446744065119617025) }
{
    a * b
}

// The product of two numbers of 64 bits, by their halves.
pub fn product(a: u64, b: u64) -> Wide
    ensures { value_of result ≡ a * b }
{
    let a1 = a / 4294967296;
    let a0 = a % 4294967296;
    let b1 = b / 4294967296;
    let b0 = b % 4294967296;
    let low = times(a0, b0);
    let mid = times(a1, b0) + low / 4294967296;
    let more = times(a0, b1) + mid % 4294967296;
    let hi = times(a1, b1) + mid / 4294967296 + more / 4294967296;
    let lo = more % 4294967296 * 4294967296 + low % 4294967296;
    Wide { hi, lo }
}

// The sum, which 128 bits hold.
pub fn sum(x: Wide, y: Wide) -> Wide
    requires { x.hi + y.hi < 18446744073709551615 }
    ensures { value_of result ≡ value_of x + value_of y }
{
    let lo = std::num::wrapping_add_u64(x.lo, y.lo);
    if lo < x.lo {
        return Wide {
            hi: x.hi + y.hi + 1,
            lo,
        };
    }
    Wide {
        hi: x.hi + y.hi,
        lo,
    }
}
