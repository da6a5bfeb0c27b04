ghost use Rattle.std.specs.Prelude.{◌≡◌, ◌≤◌, pos, ◌<ℤ◌, unsigned_abs};
ghost use Rattle.algebra.specs.Gcd.{gcd};
ghost use Rattle.algebra.specs.Rationals.{addℚ, mulℚ, negℚ, ratio, opposite, signed};
ghost use Rattle.kinds.specs.Bounded.{limit, is_zero};
ghost use Rattle.kinds.specs.Fractions.{New, Answer, Inverted, value};

use super::{Fraction, LIMIT};
use crate::euclid::common_divisor;
use crate::fault::{Fault, Question};
use std::ops::Neg;

// a size with the sign of num / den
fn with_sign(num: i64, den: i64, size: u64) -> i64
    requires { size ≤ limit }
    ensures { result ≡ signed (opposite num den) size }
{
    let size = size as i64;
    if (num < 0) == (den < 0) { size } else { -size }
}

// num / den, which is in lowest terms already. The two numbers are no `Pair`: that would mean zero where they are too large.
fn bounded(num: i64, den: i64) -> Result<Fraction, Fault>
    requires { (pos 0 <ℤ den) × ((unsigned_abs den ≤ limit) × (gcd (unsigned_abs num) (unsigned_abs den) ≡ 1)) }
    ensures { Answer (ratio num den) result }
{
    if num.unsigned_abs() > LIMIT {
        return Err(Fault::no(Question::Range, 0));
    }
    Ok(Fraction { num, den })
}

#[tactic(auto, using(crate::proofs::Wholes::fraction_calls))]
impl Fraction {
    // num / den in lowest terms, the sign in the numerator; a zero denominator is refused first, then what is too large
    pub fn new(num: i64, den: i64) -> Result<Fraction, Fault>
        ensures { New num den result }
    {
        if den == 0 {
            return Err(Fault::no(Question::Denominator, 0));
        }
        if den == 1 {
            return bounded(num, 1);
        }
        let n = num.unsigned_abs();
        let d = den.unsigned_abs();
        let g = common_divisor(n, d);
        let top = n / g;
        let bottom = d / g;
        if top > LIMIT || bottom > LIMIT {
            return Err(Fault::no(Question::Range, 0));
        }
        Ok(Fraction {
            num: with_sign(num, den, top),
            den: bottom as i64,
        })
    }

    pub(crate) fn plus(self, other: Fraction) -> Result<Fraction, Fault>
        ensures { Answer (addℚ (value self) (value other)) result }
    {
        if other.den == 1 {
            self.plus_whole(other)
        } else if self.den == 1 {
            other.plus_whole(self)
        } else if self.den == other.den {
            Fraction::new(self.num + other.num, self.den)
        } else {
            Fraction::new(
                self.num * other.den + other.num * self.den,
                self.den * other.den,
            )
        }
    }

    // A whole number leaves the denominator as it is, and the sum in lowest terms.
    fn plus_whole(self, whole: Fraction) -> Result<Fraction, Fault>
        requires { whole.den ≡ pos 1 }
        ensures { Answer (addℚ (value self) (value whole)) result }
    {
        bounded(self.num + whole.num * self.den, self.den)
    }

    pub(crate) fn times(self, other: Fraction) -> Result<Fraction, Fault>
        ensures { Answer (mulℚ (value self) (value other)) result }
    {
        if other.den == 1 {
            self.times_whole(other)
        } else if self.den == 1 {
            other.times_whole(self)
        } else {
            Fraction::new(self.num * other.num, self.den * other.den)
        }
    }

    fn times_whole(self, whole: Fraction) -> Result<Fraction, Fault>
        requires { whole.den ≡ pos 1 }
        ensures { Answer (mulℚ (value self) (value whole)) result }
    {
        match whole.num {
            0 => Ok(whole),
            1 => Ok(self),
            _ => Fraction::new(self.num * whole.num, self.den),
        }
    }

    pub(crate) fn is_zero(self) -> bool
        ensures { result ≡ is_zero (value self) }
    {
        self.num == 0
    }

    pub(crate) fn inverse(self) -> Result<Fraction, Fault>
        ensures { Inverted (value self) result }
    {
        // the parts have no common divisor, so only the sign can be in the wrong place
        if self.num == 0 {
            Err(Fault::no(Question::Divisor, 0))
        } else if self.num < 0 {
            Ok(Fraction {
                num: -self.den,
                den: -self.num,
            })
        } else {
            Ok(Fraction {
                num: self.den,
                den: self.num,
            })
        }
    }
}

impl Neg for Fraction {
    type Output = Fraction;

    ghost neg_gives = { λ a r. value r ≡ negℚ (value a) };

    fn neg(self) -> Fraction {
        Fraction {
            num: -self.num,
            den: self.den,
        }
    }
}
