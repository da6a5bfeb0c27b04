ghost use Rattle.std.specs.Prelude.{◌≡◌, pos};
ghost use Rattle.algebra.specs.Rationals.{ratio};
ghost use Rattle.kinds.specs.Bounded.{sound};
ghost use Rattle.kinds.specs.Fractions.{value};
ghost use Rattle.kinds.specs.Pairs.{mean, put};

use super::{Fraction, LIMIT};
use crate::euclid::common_divisor;
use crate::pairs::Pair;

// whether the two numbers write a fraction in lowest terms within the limit
fn is_sound(num: i64, den: i64) -> bool
    ensures { result ≡ sound num den }
{
    // the sign is asked first and apart: every sum and product reads two pairs, and a positive denominator is its own size
    if den < 1 {
        return false;
    }
    let n = num.unsigned_abs();
    let d = den.unsigned_abs();
    d <= LIMIT && n <= LIMIT && (d == 1 || common_divisor(n, d) == 1)
}

// a pair that is no fraction is read as zero
impl From<Pair> for Fraction {
    ghost from_gives = { λ p f. value f ≡ mean p };

    fn from(p: Pair) -> Fraction {
        let Pair { num, den } = p;
        if !is_sound(num, den) {
            return Fraction::from(0);
        }
        Fraction { num, den }
    }
}

impl From<u8> for Fraction {
    ghost from_gives = { λ n f. value f ≡ ratio (pos n) (pos 1) };

    fn from(n: u8) -> Fraction {
        Fraction {
            num: i64::from(n),
            den: 1,
        }
    }
}

impl From<Fraction> for Pair {
    ghost from_gives = { λ f p. p ≡ put (value f) };

    fn from(f: Fraction) -> Pair {
        Pair {
            num: f.num,
            den: f.den,
        }
    }
}
