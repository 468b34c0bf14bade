// The lesser and the greater of two floats; the laws of their order stand in proofs/.
ghost use Rattle.std.specs.Prelude.{◌≡◌};
ghost use Rattle.frames.specs.float_order.Order.{lesser_of, greater_of};

// Of equal values the first.
pub fn lesser(a: f64, b: f64) -> f64
    ensures { result ≡ lesser_of a b }
{
    if b < a { b } else { a }
}

// Of equal values the first.
pub fn greater(a: f64, b: f64) -> f64
    ensures { result ≡ greater_of a b }
{
    if a < b { b } else { a }
}
