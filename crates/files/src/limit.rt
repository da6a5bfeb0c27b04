ghost use Rattle.files.specs.Reads.{CellWithin};

use crate::misfit::Misfit;
use crate::read::{Cell, read_cell};
use crate::row::Row;
use kinds::fault::Fault;

// Reads a cell from a text of at most `most` bytes. Of a longer text the first `most` bytes decide: the fault stands
// where they misfit, which is at `most` if they only end too early, and at `most` if they are a cell by themselves.
pub fn read_cell_within(text: &[u8], most: usize, rows: &mut [Row]) -> Result<Cell, Fault>
    ensures { CellWithin text.now most rows.old rows.new result }
{
    if text.len() <= most {
        return read_cell(text, rows);
    }
    read_cell(&text[..most], rows)?;
    Err(Fault::from(Misfit { place: most }))
}
