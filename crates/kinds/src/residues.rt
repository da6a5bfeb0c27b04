ghost use Rattle.std.specs.Prelude.{◌≡◌, ◌<◌, ◌≤◌, true, false, MatchResult};
ghost use Rattle.kinds.specs.Residues.{is_modulus, no_modulus};
ghost use Rattle.kinds.specs.ResidueArith.{residue_arith};

use crate::euclid::inverse_modulo;
use crate::fault::{Fault, Question};
use crate::kind::Kind;

const LARGEST: u32 = 2147483647;

// The kind of the residues modulo a number: any value stands for its remainder, and results lie below the modulus.
#[derive(Clone, Copy)]
pub struct Residues {
    modulus: u32,
    ghost big: { 1 < modulus },
    ghost low: { modulus ≤ 2147483647 },
}

impl Residues {
    pub fn new(modulus: u32) -> Result<Residues, Fault>
        ensures { MatchResult result (λ k. (is_modulus modulus ≡ true) × (k.modulus ≡ modulus)) (λ e. (is_modulus modulus ≡ false) × (e ≡ no_modulus)) }
    {
        match modulus {
            2..=LARGEST => Ok(Residues { modulus }),
            _ => Err(Fault::no(Question::Modulus, 0)),
        }
    }
}

#[tactic(auto, using(crate::proofs::Modular::residue_calls))]
impl Kind for Residues {
    type Value = u32;

    ghost arith = { λ k. residue_arith k.modulus k.big };

    fn sum(&self, a: u32, b: u32) -> Result<u32, Fault> {
        let whole = a as u64 + b as u64;
        Ok((whole % self.modulus as u64) as u32)
    }

    fn product(&self, a: u32, b: u32) -> Result<u32, Fault> {
        let whole = a as u64 * b as u64;
        Ok((whole % self.modulus as u64) as u32)
    }

    fn negation(&self, a: u32) -> u32 {
        let rest = a % self.modulus;
        if rest == 0 { 0 } else { self.modulus - rest }
    }

    fn is_zero(&self, a: u32) -> bool {
        a % self.modulus == 0
    }

    fn whole(&self, n: u8) -> u32 {
        n as u32 % self.modulus
    }

    fn inverse(&self, a: u32) -> Result<u32, Fault> {
        inverse_modulo((a % self.modulus) as u64, self.modulus as u64)
            .map(|s| s as u32)
            .ok_or(Fault::no(Question::Divisor, 0))
    }
}
