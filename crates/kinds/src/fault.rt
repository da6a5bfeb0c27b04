ghost use Rattle.std.specs.Prelude.{◌≡◌, Some};
ghost use Rattle.kinds.specs.Faults.{fault, at_place, deepened, refusal_text, told, with_told};

use std::error::Error;
use std::fmt;

// The questions that a call can be refused under, by their numbers.
#[derive(Clone, Copy, PartialEq, Eq, Debug)]
pub enum Question {
    Dimension = 1,
    Agreement = 2,
    Order = 3,
    Lift = 4,
    Modulus = 5,
    Denominator = 6,
    Memory = 7,
    Tables = 8,
    Terms = 9,
    Monomial = 10,
    Degree = 11,
    Range = 12,
    Divisor = 13,
    Form = 14,
}

// What a refusal tells, and prints, as three numbers: that of the question, how many layers lie above the operator that failed, and where.
#[derive(Clone, Copy, PartialEq, Eq, Debug)]
pub struct Refusal {
    pub number: u8,
    pub depth: u32,
    pub place: u64,
}

#[derive(Clone, Copy, PartialEq, Eq, Debug)]
pub enum Fault {
    Input(Refusal),
    Size(Refusal),
    Inverse(Refusal),
}

impl Fault {
    // The fault of a question answered with no, at a place, in the outermost operator.
    pub fn no(question: Question, place: u64) -> Fault
        ensures { result ≡ fault question 0 place }
    {
        let refusal = Refusal {
            number: question as u8,
            depth: 0,
            place,
        };
        match question {
            Question::Memory
            | Question::Tables
            | Question::Terms
            | Question::Degree
            | Question::Range => Fault::Size(refusal),
            Question::Divisor => Fault::Inverse(refusal),
            _ => Fault::Input(refusal),
        }
    }

    pub fn refusal(self) -> Refusal
        ensures { result ≡ told self }
    {
        match self {
            Fault::Input(r) | Fault::Size(r) | Fault::Inverse(r) => r,
        }
    }

    // The same fault at a place: a kind's own refusal has none, the step that asked puts it in.
    pub fn at(self, place: u64) -> Fault
        ensures { result ≡ at_place place self }
    {
        let r = self.refusal();
        self.telling(Refusal { place, ..r })
    }

    // The same fault as seen from the layer above; the depth stops at the largest number.
    pub fn deeper(self) -> Fault
        ensures { result ≡ deepened self }
    {
        let r = self.refusal();
        self.telling(Refusal {
            depth: r.depth.saturating_add(1),
            ..r
        })
    }

    // The same case with another refusal. It takes the refusal, and no function on it: of a closure it would have to ask that
    // it may be called, and its callers would have to learn what it answered.
    fn telling(self, refusal: Refusal) -> Fault
        ensures { result ≡ with_told self refusal }
    {
        match self {
            Fault::Input(_) => Fault::Input(refusal),
            Fault::Size(_) => Fault::Size(refusal),
            Fault::Inverse(_) => Fault::Inverse(refusal),
        }
    }
}

impl fmt::Display for Refusal {
    ghost output = { λ r. Some (refusal_text r) };

    fn fmt<W: fmt::Write>(&self, f: &mut fmt::Formatter<W>) -> fmt::Result {
        let Refusal {
            number,
            depth,
            place,
        } = *self;
        write!(f, "{number} {depth} {place}")
    }
}

impl fmt::Display for Fault {
    ghost output = { λ f. Some (refusal_text (told f)) };

    fn fmt<W: fmt::Write>(&self, f: &mut fmt::Formatter<W>) -> fmt::Result {
        let refusal = self.refusal();
        write!(f, "{refusal}")
    }
}

impl Error for Fault {}
