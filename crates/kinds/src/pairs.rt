ghost use Rattle.std.specs.Prelude.{Some};
ghost use Rattle.kinds.specs.Texts.{pair_text};

use std::fmt;

// A fraction as plain numbers, which may be any: a pair that is no fraction in lowest terms within the limit means zero.
#[derive(Clone, Copy, PartialEq, Eq, Debug)]
pub struct Pair {
    pub num: i64,
    pub den: i64,
}

impl fmt::Display for Pair {
    ghost output = { λ p. Some (pair_text p) };

    fn fmt<W: fmt::Write>(&self, f: &mut fmt::Formatter<W>) -> fmt::Result {
        let Pair { num, den } = *self;
        write!(f, "{num} {den}")
    }
}
