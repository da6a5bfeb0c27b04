use files::row::Row;
use kinds::fault::{Fault, Question};
use kinds::fraction::Fraction;
use kinds::pairs::Pair;
use monomials::monomial::Monomial;
use tables::terms::Term;

// An exponent as a small number: what is too large for it is too large for a table all the same.
fn exponent(n: u64) -> u8 {
    u8::try_from(n).unwrap_or(u8::MAX)
}

// The term of a row, with the two numbers of its coefficient as they are given: what it means is settled once it is reduced.
// It is no `From`, since neither type is of this crate.
pub(crate) fn term(row: &Row) -> Term<Pair> {
    Term {
        monomial: Monomial {
            a: exponent(row.a),
            b: exponent(row.b),
            c: exponent(row.c),
        },
        value: Pair {
            num: row.num,
            den: row.den,
        },
    }
}

// Whether each coefficient has a denominator other than zero. It stands apart from the like question on monomials: a function
// for both would be public, and have to ask of the closure that it may be called.
pub(crate) fn ask_denominators(terms: &[Term<Pair>]) -> Result<(), Fault> {
    match terms.iter().position(|term| term.value.den == 0) {
        Some(i) => Err(Fault::no(Question::Denominator, i as u64)),
        None => Ok(()),
    }
}

// Makes each coefficient a fraction in lowest terms.
pub(crate) fn reduce(terms: &mut [Term<Pair>]) -> Result<(), Fault> {
    for term in terms.iter_mut() {
        term.value = Fraction::new(term.value.num, term.value.den)?.into();
    }
    Ok(())
}
