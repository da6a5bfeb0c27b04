ghost use Rattle.std.specs.Prelude.{◌≡◌};
ghost use Rattle.kinds.specs.declared.fault.Question.TheVariants.{Form};
ghost use Rattle.kinds.specs.Faults.{fault};

use kinds::fault::{Fault, Question};

// The byte at `place` does not fit the form, or the text ends there too early.
#[derive(Clone, Copy, PartialEq, Eq, Debug)]
pub struct Misfit {
    pub place: usize,
}

impl From<Misfit> for Fault {
    ghost from_gives = { λ misfit f. f ≡ fault Form 0 misfit.place };

    fn from(misfit: Misfit) -> Fault {
        Fault::no(Question::Form, misfit.place as u64)
    }
}
