ghost use Rattle.std.specs.Prelude.{◌≤◌, IfOk, vec_len};

use crate::problem::{WORKING_TABLES, solve_cell};
use crate::source::term;
use files::limit::read_cell_within;
use files::row::Row;
use kinds::fault::Fault;
use kinds::pairs::Pair;
use monomials::dimension::Dimension;
use std::alloc::{AllocError, Global};
use tables::terms::Term;
use writer::refusal::put_refusal;
use writer::table::put_table;
use writer::write::FileText;

// How long a cell's text may be, and how many lines of terms it may have.
pub const MOST_BYTES: usize = 65536;

const MOST_TERMS: usize = 1024;

const NO_ROW: Row = Row {
    a: 0,
    b: 0,
    c: 0,
    num: 0,
    den: 1,
};

const ZERO: Pair = Pair { num: 0, den: 1 };

// Writes the file of the solution, or the refusal, and answers how long it is.
fn put_answer(out: &mut FileText, solved: Result<Dimension, Fault>, target: &[Pair]) -> usize
    ensures { result ≤ 16384 }
{
    match solved {
        Ok(dimension) => put_table(out, dimension, target),
        Err(fault) => put_refusal(out, fault.refusal()),
    }
}

// The text of the solution, or of the refusal.
fn printed(
    heap: Global,
    solved: Result<Dimension, Fault>,
    target: &[Pair],
) -> Result<Vec<u8>, AllocError>
    ensures { IfOk result (λ v. vec_len v ≤ 16384) }
{
    let mut out: FileText = [0u8; 16384];
    let length = put_answer(&mut out, solved, target);
    Vec::from_slice(heap, &out[0..length])
}

// The text that answers a cell's text: the file of its solution, or the refusal.
pub fn answer(heap: Global, text: &[u8]) -> Result<Vec<u8>, AllocError>
    ensures { IfOk result (λ v. vec_len v ≤ 16384) }
{
    let mut rows = vec![in heap; NO_ROW; MOST_TERMS]?;
    let read = read_cell_within(text, MOST_BYTES, &mut rows);
    let mut terms: Vec<Term<Pair>> = rows.iter().map(term).collect(heap)?;
    // a table of space, which is the longer one
    let size = Dimension::Space.size();
    let mut source = vec![in heap; ZERO; size]?;
    let mut target = vec![in heap; ZERO; size]?;
    let mut work = vec![in heap; ZERO; size * WORKING_TABLES]?;
    let found = read.and_then(|cell| {
        let count = cell.count.min(terms.len());
        let counted = &mut terms[..count];
        solve_cell(&cell, counted, &mut source, &mut target, &mut work)
    });
    printed(heap, found, &target)
}
