use crate::source::{ask_denominators, reduce};
use files::read::Cell;
use kinds::fault::{Fault, Question};
use kinds::fraction::Fraction;
use kinds::fractions::Fractions;
use kinds::kind::Kind;
use kinds::pairs::Pair;
use laplace::laplacian::isotropic;
use layers::remainder::Remainder;
use monomials::dimension::Dimension;
use operators::constant::Constant;
use operators::operator::Solvable;
use operators::questions::{LAYER_TABLES, SIMPLE_NEED, leaf_dimension};
use tables::tables::Tables;
use tables::terms::{Term, ask_monomials};

// The working tables of a remainder layer over a constant.
pub const WORKING_TABLES: usize = (LAYER_TABLES + SIMPLE_NEED) as usize;

// The tables are slices of their own, as `operators::operator` says.

// Solves the equation of a cell: the Laplacian, plus a constant unless that is zero, applied to the target is the source.
fn solved(
    dimension: u64,
    constant: Pair,
    source: &mut [Pair],
    target: &mut [Pair],
    work: &mut [Pair],
) -> Result<u32, Fault> {
    if Fractions.is_zero(constant) {
        return isotropic(&Fractions, dimension).solve(&Fractions, source, target, work);
    }
    let pile = Remainder {
        base: Constant {
            dimension,
            value: constant,
        },
        rest: isotropic(&Fractions, dimension),
    };
    pile.solve(&Fractions, source, target, work)
}

// The questions on a cell's numbers that come before its values are formed, and its terms.
fn prepared(cell: &Cell, terms: &mut [Term<Pair>]) -> Result<(Dimension, Pair), Fault> {
    let dimension = leaf_dimension(cell.d)?;
    if cell.kden == 0 {
        return Err(Fault::no(Question::Denominator, 0));
    }
    ask_denominators(terms)?;
    ask_monomials(dimension, terms)?;
    let constant = Fraction::new(cell.knum, cell.kden)?;
    reduce(terms)?;
    Ok((dimension, constant.into()))
}

// The solution of a cell with these terms, into the target; the source is made in its own table.
pub(crate) fn solve_cell(
    cell: &Cell,
    terms: &mut [Term<Pair>],
    source: &mut [Pair],
    target: &mut [Pair],
    work: &mut [Pair],
) -> Result<Dimension, Fault> {
    let (dimension, constant) = prepared(cell, terms)?;
    let tables = Tables {
        kind: &Fractions,
        dimension,
    };
    tables.add_terms(terms, source)?;
    solved(cell.d, constant, source, target, work)?;
    Ok(dimension)
}
