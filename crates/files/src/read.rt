ghost use Rattle.files.specs.Reads.{CellRead, CellFrom, TermsRead, TermsFrom, ValuesFrom};

use crate::line::{cell_names, cell_values, term_names, term_values};
use crate::misfit::Misfit;
use crate::reader::Reader;
use crate::row::Row;
use kinds::fault::Fault;

// A cell's own values, and how many lines of terms it has.
#[derive(Clone, Copy)]
pub struct Cell {
    pub d: u64,
    pub knum: i64,
    pub kden: i64,
    pub count: usize,
}

// Reads the lines of values up to the end of the text. A line for which there is no row left does not fit, at its first byte.
fn values(reader: &mut Reader, rows: &mut [Row]) -> Result<usize, Misfit>
    ensures { ValuesFrom reader.old.text.now reader.old.at rows.old rows.new result }
{
    for (count, row) in rows.iter_mut().enumerate() {
        if reader.is_done() {
            return Ok(count);
        }
        *row = term_values(reader)?;
    }
    if reader.is_done() {
        Ok(rows.len())
    } else {
        Err(reader.misfit())
    }
}

// Reads the terms, from the line of their names on.
fn terms(reader: &mut Reader, rows: &mut [Row]) -> Result<usize, Misfit>
    ensures { TermsFrom reader.old.text.now reader.old.at rows.old rows.new result }
{
    term_names(reader)?;
    values(reader, rows)
}

// Reads a cell, from the line of the names of its own values on.
fn whole_cell(reader: &mut Reader, rows: &mut [Row]) -> Result<Cell, Misfit>
    ensures { CellFrom reader.old.text.now reader.old.at rows.old rows.new result }
{
    cell_names(reader)?;
    let cell = cell_values(reader)?;
    let count = terms(reader, rows)?;
    Ok(Cell { count, ..cell })
}

// Reads a file of terms into the first of `rows`, and answers how many there are. The rows are lent, with their count beside
// them, so that reading can't fail for want of memory.
pub fn read_terms(text: &[u8], rows: &mut [Row]) -> Result<usize, Fault>
    ensures { TermsRead text.now rows.old rows.new result }
{
    Ok(terms(&mut Reader::new(text), rows)?)
}

// Reads a cell, with its terms into the first of `rows`.
pub fn read_cell(text: &[u8], rows: &mut [Row]) -> Result<Cell, Fault>
    ensures { CellRead text.now rows.old rows.new result }
{
    Ok(whole_cell(&mut Reader::new(text), rows)?)
}
