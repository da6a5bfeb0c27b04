ghost use Rattle.files.specs.Form.{cell_names, names};
ghost use Rattle.files.specs.Lines.{Headed, Lined, CellLined};
ghost use Rattle.files.specs.Steps.{ReadsOn};

use crate::misfit::Misfit;
use crate::read::Cell;
use crate::reader::Reader;
use crate::row::Row;

// Passes the line of the names of a term's values.
pub(crate) fn term_names(reader: &mut Reader) -> Result<(), Misfit>
    ensures { ReadsOn reader.old reader.new (λ text from to. Headed text from names to result) }
{
    reader.name(b"a", b' ')?;
    reader.name(b"b", b' ')?;
    reader.name(b"c", b' ')?;
    reader.name(b"num", b' ')?;
    reader.name(b"den", b'\n')?;
    Ok(())
}

// Passes a line of a term's values.
pub(crate) fn term_values(reader: &mut Reader) -> Result<Row, Misfit>
    ensures { ReadsOn reader.old reader.new (λ text from to. Lined text from to result) }
{
    let a = reader.number(false, b' ')?.size();
    let b = reader.number(false, b' ')?.size();
    let c = reader.number(false, b' ')?.size();
    let num = reader.number(true, b' ')?.value();
    let den = reader.number(false, b'\n')?.value();
    Ok(Row { a, b, c, num, den })
}

// Passes the line of the names of a cell's own values. A function over any list of names would promise them joined by spaces,
// which is no plainer than the two lines.
pub(crate) fn cell_names(reader: &mut Reader) -> Result<(), Misfit>
    ensures { ReadsOn reader.old reader.new (λ text from to. Headed text from cell_names to result) }
{
    reader.name(b"d", b' ')?;
    reader.name(b"knum", b' ')?;
    reader.name(b"kden", b'\n')?;
    Ok(())
}

// Passes the line of a cell's own values. Its terms are not counted yet.
pub(crate) fn cell_values(reader: &mut Reader) -> Result<Cell, Misfit>
    ensures { ReadsOn reader.old reader.new (λ text from to. CellLined text from to result) }
{
    let d = reader.number(false, b' ')?.size();
    let knum = reader.number(true, b' ')?.value();
    let kden = reader.number(false, b'\n')?.value();
    Ok(Cell {
        d,
        knum,
        kden,
        count: 0,
    })
}
