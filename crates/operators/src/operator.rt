ghost use Rattle.std.specs.Prelude.{◌≡◌, not, length, Some};
ghost use Rattle.monomials.specs.declared.dimension.Dimension.{Dimension as Ambient};
ghost use Rattle.monomials.specs.Dimensions.{size_of, dimension_of};
ghost use Rattle.tables.specs.Steps.{Past};
ghost use Rattle.operators.specs.Piles.{no_if};
ghost use Rattle.operators.specs.Rooms.{Ready, Untouched, roomy, unready};

use crate::questions::{asked, settled};
use crate::shape::{Lifting, Shape};
use kinds::fault::{Fault, Question};
use kinds::kind::Kind;
use tables::tables::Tables;

// Source, target and working tables are three parameters, and no struct of three borrows: tried with a Laplacian's tables, the
// check does not follow a field that is lent on beside another; and where a clause here says what a call leaves behind a
// parameter, it would have to say besides whose borrow the field still is.

// An operator with constant coefficients, over the values of a kind: its symbol is a sum of values times derivatives.
pub trait Forward<K: Kind>: Shape {
    // Forms the action of the symbol on the source, in the target. It asks for its room again, so that it can stand on that.
    fn act(
        &self,
        tables: Tables<'_, K>,
        source: &mut [K::Value],
        target: &mut [K::Value],
        work: &mut [K::Value],
    ) -> Result<(), Fault>
        ensures room { Untouched (no_if (not (roomy tables.entry.dimension (Self.Shape.tables self.now) (length source.old) (length target.old) (length work.old))) Question.Tables) result source.old source.new target.old target.new work.old work.new }
        ensures source { source.new ≡ source.old }
        ensures past { Ready (Self.Shape.outside self.now) (Self.Shape.unfit self.now) (Self.Shape.given self.now) tables.entry.dimension → Past (size_of tables.entry.dimension) target.old target.new };

    // The action of the symbol on the source, into the target.
    final fn apply(
        &self,
        k: &K,
        source: &mut [K::Value],
        target: &mut [K::Value],
        work: &mut [K::Value],
    ) -> Result<(), Fault>
        ensures asked { Untouched (unready (Self.Shape.outside self.now) (Self.Shape.unfit self.now) (Self.Shape.given self.now) (Self.Shape.tables self.now) (length source.old) (length target.old) (length work.old)) result source.old source.new target.old target.new work.old work.new }
        ensures source { source.new ≡ source.old }
        ensures past { (d : Ambient) → dimension_of (Self.Shape.given self.now) ≡ Some d → Past (size_of d) target.old target.new }
    {
        let tables = asked(self, k, source.len(), target.len(), work.len())?;
        let answer = self.act(tables, source, target, work);
        settled(tables, self.need(), target, work, answer)
    }
}

// A forward operator that also solves.
pub trait Solvable<K: Kind>: Forward<K> + Lifting {
    // Forms the solution for the source, in the target; it asks for its room again, and answers how many solves of simple
    // operators the solution took.
    fn find(
        &self,
        tables: Tables<'_, K>,
        source: &mut [K::Value],
        target: &mut [K::Value],
        work: &mut [K::Value],
    ) -> Result<u32, Fault>
        ensures room { Untouched (no_if (not (roomy tables.entry.dimension (Self.Shape.tables self.now) (length source.old) (length target.old) (length work.old))) Question.Tables) result source.old source.new target.old target.new work.old work.new }
        ensures source { Ready (Self.Shape.outside self.now) (Self.Shape.unfit self.now) (Self.Shape.given self.now) tables.entry.dimension → source.new ≡ source.old }
        ensures past { Ready (Self.Shape.outside self.now) (Self.Shape.unfit self.now) (Self.Shape.given self.now) tables.entry.dimension → Past (size_of tables.entry.dimension) target.old target.new };

    // The solution for the source, into the target, with its passes. It differs from `apply` in the method alone that it
    // calls; a function that takes the method would have to ask of it what the two methods promise.
    final fn solve(
        &self,
        k: &K,
        source: &mut [K::Value],
        target: &mut [K::Value],
        work: &mut [K::Value],
    ) -> Result<u32, Fault>
        ensures asked { Untouched (unready (Self.Shape.outside self.now) (Self.Shape.unfit self.now) (Self.Shape.given self.now) (Self.Shape.tables self.now) (length source.old) (length target.old) (length work.old)) result source.old source.new target.old target.new work.old work.new }
        ensures source { source.new ≡ source.old }
        ensures past { (d : Ambient) → dimension_of (Self.Shape.given self.now) ≡ Some d → Past (size_of d) target.old target.new }
    {
        let tables = asked(self, k, source.len(), target.len(), work.len())?;
        let answer = self.find(tables, source, target, work);
        settled(tables, self.need(), target, work, answer)
    }
}
