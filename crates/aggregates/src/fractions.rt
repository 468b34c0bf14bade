// Fractions in lowest terms, as a sign and two magnitudes of 64 bits.
ghost use Rattle.std.specs.Prelude.{◌≡◌, ◌<◌, ◌≤◌, pos, ◌≢◌, unsigned_abs};
ghost use Rattle.aggregates.specs.fractions.Lowest.{gcd_of, is_minus, differ, lowest_of, fraction_of};

#[derive(Clone, Copy)]
pub struct Fraction {
    pub minus: bool,
    pub over: u64,
    pub under: u64,
}

// The greatest common divisor, by Euclid.
fn gcd(a: u64, b: u64) -> u64
    ensures { result ≡ gcd_of a b }
{
    let mut x = a;
    let mut y = b;
    while y != 0 {
        let t = x % y;
        x = y;
        y = t;
    }
    x
}

// The fraction of two magnitudes; zero has no sign.
fn lowest(minus: bool, n: u64, d: u64) -> Fraction
    requires { 0 < d }
    ensures { result ≡ lowest_of minus n d }
{
    let g = gcd(n, d);
    let over = n / g;
    let under = d / g;
    if n == 0 {
        return Fraction {
            minus: false,
            over,
            under,
        };
    }
    Fraction { minus, over, under }
}

fn magnitude(z: i64) -> u64
    ensures { (result ≡ unsigned_abs z) × (result ≤ 9223372036854775808) }
{
    if z < 0 {
        return (-1 - z) as u64 + 1;
    }
    z as u64
}

fn is_minus(z: i64) -> bool
    ensures { result ≡ is_minus z }
{
    z < 0
}

fn is_other(a: bool, b: bool) -> bool
    ensures { result ≡ differ a b }
{
    if a {
        return !b;
    }
    b
}

// n over d in lowest terms, the denominator above zero.
pub fn reduced(n: i64, d: i64) -> Fraction
    requires { d ≢ pos 0 }
    ensures { result ≡ fraction_of n d }
{
    let minus = is_other(is_minus(n), is_minus(d));
    lowest(minus, magnitude(n), magnitude(d))
}
