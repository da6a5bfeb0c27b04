ghost use Rattle.std.specs.Prelude.{◌≡◌, not, length, None};
ghost use Rattle.monomials.specs.Dimensions.{size_of};
ghost use Rattle.tables.specs.Steps.{Past};
ghost use Rattle.operators.specs.Piles.{leaf_outside, no_if};
ghost use Rattle.operators.specs.Rooms.{roomy, Untouched};

use crate::operator::{Forward, Solvable};
use crate::questions::{SIMPLE_NEED, degree_asked, leaf_dimension, room_asked};
use crate::shape::{Lifting, Shape};
use kinds::fault::{Fault, Question};
use kinds::kind::Kind;
use monomials::dimension::Dimension;
use tables::steps::{clear, copy};
use tables::tables::Tables;

// The product with a value.
#[derive(Clone, Copy)]
pub struct Constant<V> {
    pub dimension: u64,
    pub value: V,
}

// The source times a value, into the target. Source, target and working tables are slices of their own here too, as
// `operator.rt` says.
fn scaled<K: Kind>(
    tables: Tables<'_, K>,
    by: K::Value,
    source: &[K::Value],
    target: &mut [K::Value],
) -> Result<(), Fault>
    ensures { Past (size_of tables.entry.dimension) target.old target.new }
{
    copy(tables.size(), source, target);
    tables.multiply(target, by)
}

// A Laplacian answers the same but for the order and the lift; laplacian.rt of `laplace` says why the two stay side by side.
impl<V: Copy> Shape for Constant<V> {
    ghost given = { λ o. o.dimension };

    ghost outside = { λ o. leaf_outside o.dimension };

    ghost unfit = { λ _ _. None };

    ghost least = { λ _. 0 };

    ghost tables = { λ _. 6 };

    fn given_dimension(&self) -> u64 {
        self.dimension
    }

    fn dimension(&self) -> Result<Dimension, Fault> {
        leaf_dimension(self.dimension)
    }

    fn ask(&self, _question: Question) -> Result<(), Fault> {
        Ok(())
    }

    fn order(&self) -> u32 {
        0
    }

    fn need(&self) -> u64 {
        SIMPLE_NEED
    }
}

impl<V: Copy> Lifting for Constant<V> {
    ghost rise = { λ _. 0 };

    fn lift(&self) -> u32 {
        0
    }
}

impl<V: Copy, K: Kind<Value = V>> Forward<K> for Constant<V> {
    fn act(
        &self,
        tables: Tables<'_, K>,
        source: &mut [V],
        target: &mut [V],
        work: &mut [V],
    ) -> Result<(), Fault>
        ensures room { Untouched (no_if (not (roomy tables.entry.dimension 6 (length source.old) (length target.old) (length work.old))) Question.Tables) result source.old source.new target.old target.new work.old work.new }
        ensures source { source.new ≡ source.old }
        ensures past { Past (size_of tables.entry.dimension) target.old target.new }
    {
        room_asked(
            tables.dimension,
            SIMPLE_NEED,
            source.len(),
            target.len(),
            work.len(),
        )?;
        scaled(tables, self.value, source, target)
    }
}

impl<V: Copy, K: Kind<Value = V>> Solvable<K> for Constant<V> {
    fn find(
        &self,
        tables: Tables<'_, K>,
        source: &mut [V],
        target: &mut [V],
        work: &mut [V],
    ) -> Result<u32, Fault>
        ensures room { Untouched (no_if (not (roomy tables.entry.dimension 6 (length source.old) (length target.old) (length work.old))) Question.Tables) result source.old source.new target.old target.new work.old work.new }
        ensures source { source.new ≡ source.old }
        ensures past { Past (size_of tables.entry.dimension) target.old target.new }
    {
        room_asked(
            tables.dimension,
            SIMPLE_NEED,
            source.len(),
            target.len(),
            work.len(),
        )?;
        if degree_asked(tables, 0, source)?.is_none() {
            clear(tables.kind, tables.size(), target);
            return Ok(0);
        }
        let inverse = tables.kind.inverse(self.value)?;
        scaled(tables, inverse, source, target)?;
        Ok(1)
    }
}
