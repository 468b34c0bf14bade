// Whether every entry is below a limit.
ghost use Rattle.std.specs.Prelude.{◌≡◌, ◌+◌, ◌*◌, ◌≤◌, length, ◌≢◌};
ghost use Rattle.recode.specs.Recode.{all_below};

use number::Unsigned;

fn below<N: Unsigned>(body: &[u8], from: usize, n: usize, limit: u64) -> bool
    requires { from + N.SIZE * n ≤ length body.now }
    ensures { result ≡ all_below N.SIZE body.now from limit n }
{
    for i in 0..n {
        if limit <= N::read(body, from + N::SIZE * i).to_u64() {
            return false;
        }
    }
    true
}

// Whether each of n entries of w bytes from `from` on is below the limit.
pub fn all_below(body: &[u8], from: usize, w: u64, n: usize, limit: u64) -> bool
    requires n_in_bounds { from + w * n ≤ length body.now }
    requires w_value { (w ≢ 4) → w ≡ 8 }
    ensures { result ≡ all_below w body.now from limit n }
{
    match w {
        4 => below::<u32>(body, from, n, limit),
        _ => below::<u64>(body, from, n, limit),
    }
}
