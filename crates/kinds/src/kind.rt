ghost use Rattle.std.specs.Prelude.{◌≡◌};
ghost use Rattle.kinds.specs.Arith.{Arith, sum_of, product_of, negation_of, zero_test, whole_of, inverse_of};

use crate::fault::Fault;

// A kind of coefficients: values that mean elements of a commutative ring without limit of size. The ring, the
// meanings and the rule by which results are refused stand in `arith`; a call answers the ring's result in its one
// representation, or the fault.
pub trait Kind {
    type Value: Copy;

    ghost arith: { Self → Arith Self.Value };

    fn sum(&self, a: Self::Value, b: Self::Value) -> Result<Self::Value, Fault>
        ensures { result ≡ sum_of (arith self.now) a b };

    fn product(&self, a: Self::Value, b: Self::Value) -> Result<Self::Value, Fault>
        ensures { result ≡ product_of (arith self.now) a b };

    fn negation(&self, a: Self::Value) -> Self::Value
        ensures { result ≡ negation_of (arith self.now) a };

    fn is_zero(&self, a: Self::Value) -> bool
        ensures { result ≡ zero_test (arith self.now) a };

    // the value of a whole number
    fn whole(&self, n: u8) -> Self::Value
        ensures { result ≡ whole_of (arith self.now) n };

    fn inverse(&self, a: Self::Value) -> Result<Self::Value, Fault>
        ensures { result ≡ inverse_of (arith self.now) a };
}
