use kinds::fractions::Fractions;
use kinds::kind::Kind;
use kinds::pairs::Pair;
use kinds::residues::Residues;
use std::fmt::Display;

// A kind whose values can be compared and shown as they lie in memory, and made of two numbers.
pub trait Raw: Kind<Value: PartialEq + Display> {
    fn made(&self, a: i64, b: i64) -> Self::Value;
}

impl Raw for Fractions {
    fn made(&self, a: i64, b: i64) -> Pair {
        Pair { num: a, den: b }
    }
}

impl Raw for Residues {
    fn made(&self, a: i64, _b: i64) -> u32 {
        u32::try_from(a).unwrap_or(0)
    }
}
