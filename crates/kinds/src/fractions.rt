ghost use Rattle.kinds.specs.FractionArith.{fraction_arith};

use crate::fault::Fault;
use crate::fraction::Fraction;
use crate::kind::Kind;
use crate::pairs::Pair;

// The kind of the fractions: plain pairs that mean rational numbers.
#[derive(Clone, Copy)]
pub struct Fractions;

#[tactic(auto, using(crate::proofs::Told::kind_tests), unfolding(crate::specs::Arith::sum_of, crate::specs::Arith::product_of, crate::specs::Arith::negation_of, crate::specs::Arith::zero_test, crate::specs::Arith::whole_of, crate::specs::Arith::inverse_of, crate::specs::FractionArith::fraction_arith))]
impl Kind for Fractions {
    type Value = Pair;

    ghost arith = { λ _. fraction_arith };

    fn sum(&self, a: Pair, b: Pair) -> Result<Pair, Fault> {
        Fraction::from(a).plus(b.into()).map(Pair::from)
    }

    fn product(&self, a: Pair, b: Pair) -> Result<Pair, Fault> {
        Fraction::from(a).times(b.into()).map(Pair::from)
    }

    fn negation(&self, a: Pair) -> Pair {
        (-Fraction::from(a)).into()
    }

    fn is_zero(&self, a: Pair) -> bool {
        Fraction::from(a).is_zero()
    }

    fn whole(&self, n: u8) -> Pair {
        Fraction::from(n).into()
    }

    fn inverse(&self, a: Pair) -> Result<Pair, Fault> {
        Fraction::from(a).inverse().map(Pair::from)
    }
}
