ghost use Rattle.std.specs.Prelude.{◌≡◌, ◌*◌, ◌%◌, ◌<◌, ◌≤◌, MatchOption, ◌≢◌};
ghost use Rattle.algebra.specs.Gcd.{gcd};

// The greatest common divisor.
pub(crate) fn common_divisor(a: u64, b: u64) -> u64
    ensures { result ≡ gcd a b }
{
    let (mut x, mut y) = (a, b);
    while y != 0 {
        (x, y) = (y, x % y);
    }
    x
}

// The number below m that a is to be multiplied by for a remainder of one, if there is one.
pub(crate) fn inverse_modulo(a: u64, m: u64) -> Option<u64>
    requires { (1 < m) × ((m ≤ 2147483647) × (a < m)) }
    ensures { MatchOption result (gcd a m ≢ 1) (λ s. (s < m) × ((a * s) % m ≡ 1)) }
{
    let (mut x, mut y) = (m, a);
    // s times a leaves x, and t times a leaves y
    let (mut s, mut t) = (0, 1);
    while y != 0 {
        let q = x / y;
        (x, y) = (y, x % y);
        (s, t) = (t, (s + q * (m - t)) % m);
    }
    if x == 1 { Some(s) } else { None }
}
