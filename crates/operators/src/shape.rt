ghost use Rattle.std.specs.Prelude.{◌≡◌, ℕ, IfOk, Some, Option};
ghost use Rattle.kinds.specs.declared.fault.Fault.{Fault as Refused};
ghost use Rattle.kinds.specs.declared.fault.Question.{Question as Asked};
ghost use Rattle.monomials.specs.Dimensions.{dimension_of};
ghost use Rattle.tables.specs.Outcomes.{Told};

use kinds::fault::{Fault, Question};
use monomials::dimension::Dimension;

// What can be asked of an operator, or of a whole pile of layers, before any value is formed. The ghost members say what
// the answers are: `outside` the refusal of the question on dimensions, `unfit` that of a question on layers.
pub trait Shape {
    ghost given: { Self → ℕ };

    ghost outside: { Self → Option Refused };

    ghost unfit: { Self → Asked → Option Refused };

    ghost least: { Self → ℕ };

    ghost tables: { Self → ℕ };

    // The dimension as it was given, which a question has to allow first; of a layer that of its base.
    fn given_dimension(&self) -> u64
        ensures { result ≡ given self.now };

    // The question on the dimension, of every operator in the pile; the answer is the dimension of the pile.
    fn dimension(&self) -> Result<Dimension, Fault>
        ensures told { Told (outside self.now) result }
        ensures value { IfOk result (λ d. Some d ≡ dimension_of (given self.now)) };

    // The question on agreement, order or lift, of every layer in the pile, the outermost first.
    fn ask(&self, question: Question) -> Result<(), Fault>
        ensures { Told (unfit self.now question) result };

    // No term of the symbol has fewer derivatives.
    fn order(&self) -> u32
        ensures { result ≡ least self.now };

    // How many working tables a call needs, up to one more than any call can have.
    fn need(&self) -> u64
        ensures { result ≡ tables self.now };
}

// An operator that solves: by how much the degree of a solution passes that of its source, at most.
pub trait Lifting: Shape {
    ghost rise: { Self → ℕ };

    fn lift(&self) -> u32
        ensures { result ≡ rise self.now };
}
