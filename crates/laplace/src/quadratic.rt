ghost use Rattle.std.specs.Prelude.{◌≡◌};
ghost use Rattle.monomials.specs.Dimensions.{size_of};
ghost use Rattle.tables.specs.Steps.{Past};

use crate::matrix::{Symmetric, UPPER};
use kinds::fault::Fault;
use kinds::kind::Kind;
use monomials::dimension::Dimension;
use monomials::monomial::Axis;
use tables::steps::clear;
use tables::tables::Tables;

// Whether the dimension has the coordinate.
fn spans(dimension: Dimension, axis: Axis) -> bool {
    axis != Axis::Z || dimension == Dimension::Space
}

// One term of a form: the table `from` moved by two variables and times a value joins `to`. It is formed in `one` and `two`,
// two slices and no struct, as `operators::operator` says of all tables.
fn join_term<K: Kind, M: Fn(Axis, &[K::Value], &mut [K::Value]) -> Result<(), Fault>>(
    tables: Tables<'_, K>,
    moved: &M,
    term: (Axis, Axis, K::Value),
    from: &[K::Value],
    to: &mut [K::Value],
    one: &mut [K::Value],
    two: &mut [K::Value],
) -> Result<(), Fault>
    requires { M.IsAlwaysCallable moved.now }
    ensures { Past (size_of tables.entry.dimension) to.old to.new }
{
    let (first, second, value) = term;
    moved(first, from, one)?;
    moved(second, one, two)?;
    tables.multiply(two, value)?;
    tables.add_into(to, two)
}

// A quadratic form on the table `from`, into `to`, in variables that each move a table into another: its terms by rows of
// the upper triangle, each formed and added before the next. A term off the diagonal stands for two: its value is added
// to itself first.
pub(crate) fn quadratic<K: Kind, M: Fn(Axis, &[K::Value], &mut [K::Value]) -> Result<(), Fault>>(
    tables: Tables<'_, K>,
    moved: M,
    form: &Symmetric<K::Value>,
    from: &[K::Value],
    to: &mut [K::Value],
    one: &mut [K::Value],
    two: &mut [K::Value],
) -> Result<(), Fault>
    requires { M.IsAlwaysCallable moved }
    ensures { Past (size_of tables.entry.dimension) to.old to.new }
{
    clear(tables.kind, tables.size(), to);
    for (row, column) in UPPER {
        if spans(tables.dimension, row) && spans(tables.dimension, column) {
            let entry = form.entry(row, column);
            let by = if row == column {
                entry
            } else {
                tables.kind.sum(entry, entry)?
            };
            join_term(tables, &moved, (row, column, by), from, to, one, two)?;
        }
    }
    Ok(())
}
