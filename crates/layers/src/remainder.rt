ghost use Rattle.std.specs.Prelude.{◌≡◌, min, not, length, Some};
ghost use Rattle.monomials.specs.Dimensions.{size_of, dimension_of};
ghost use Rattle.tables.specs.Outcomes.{Told};
ghost use Rattle.tables.specs.Steps.{Past};
ghost use Rattle.operators.specs.Piles.{or_else, deeper, no_if, layer_need};
ghost use Rattle.layers.specs.Layers.{remainder_unfit, OfParts};
ghost use Rattle.operators.specs.Rooms.{Ready, Untouched, roomy};

use kinds::fault::{Fault, Question};
use kinds::kind::Kind;
use monomials::dimension::Dimension;
use operators::operator::{Forward, Solvable};
use operators::questions::{LAYER_TABLES, degree_asked, layer_need, room_asked};
use operators::shape::{Lifting, Shape};
use tables::steps::{clear, copy};
use tables::tables::Tables;

// The sum of a base that is solved and a rest of higher order that is only applied: what the base's solution leaves
// over is solved again, until nothing is left.
#[derive(Clone, Copy)]
pub struct Remainder<B, R> {
    pub base: B,
    pub rest: R,
}

// A layer keeps so many of its working tables; its parts work in those past them.
const OWN_TABLES: usize = LAYER_TABLES as usize;

// The layer's own part in a question on the pile.
fn layer_asked<B: Lifting, R: Shape>(base: &B, rest: &R, question: Question) -> Result<(), Fault>
    ensures { Told (remainder_unfit (B.Shape.given base.now) (R.Shape.given rest.now) (B.Lifting.rise base.now) (R.Shape.least rest.now) question) result }
{
    let no = match question {
        Question::Agreement => base.given_dimension() != rest.given_dimension(),
        Question::Order => rest.order() <= base.lift(),
        _ => false,
    };
    if no {
        Err(Fault::no(question, 0))
    } else {
        Ok(())
    }
}

// The tables are slices of their own here too, as `operators::operator` says.

// One turn: the base is solved for what is left, which the source holds; the solution joins the answer, and what the rest
// makes of it, negated, is left now.
fn turn<K: Kind, B: Solvable<K>, R: Forward<K>>(
    tables: Tables<'_, K>,
    layer: &Remainder<B, R>,
    source: &mut [K::Value],
    target: &mut [K::Value],
    answer: &mut [K::Value],
    below: &mut [K::Value],
) -> Result<u32, Fault>
    ensures source { OfParts (dimension_of (B.Shape.given layer.now.base)) (dimension_of (R.Shape.given layer.now.rest)) tables.entry.dimension → Past (size_of tables.entry.dimension) source.old source.new }
    ensures target { OfParts (dimension_of (B.Shape.given layer.now.base)) (dimension_of (R.Shape.given layer.now.rest)) tables.entry.dimension → Past (size_of tables.entry.dimension) target.old target.new }
{
    let passes = layer
        .base
        .solve(tables.kind, source, target, below)
        .map_err(Fault::deeper)?;
    tables.add_into(answer, target)?;
    layer
        .rest
        .apply(tables.kind, target, source, below)
        .map_err(Fault::deeper)?;
    tables.negate(source);
    Ok(passes)
}

// Turns until nothing is left. The rest's order passes the base's lift, so that the degree of what is left falls with
// each turn, and thirteen are enough.
fn turns<K: Kind, B: Solvable<K>, R: Forward<K>>(
    tables: Tables<'_, K>,
    layer: &Remainder<B, R>,
    source: &mut [K::Value],
    target: &mut [K::Value],
    answer: &mut [K::Value],
    below: &mut [K::Value],
) -> Result<u32, Fault>
    ensures source { OfParts (dimension_of (B.Shape.given layer.now.base)) (dimension_of (R.Shape.given layer.now.rest)) tables.entry.dimension → Past (size_of tables.entry.dimension) source.old source.new }
    ensures target { OfParts (dimension_of (B.Shape.given layer.now.base)) (dimension_of (R.Shape.given layer.now.rest)) tables.entry.dimension → Past (size_of tables.entry.dimension) target.old target.new }
{
    let mut passes: u32 = 0;
    for _ in 0..13u8 {
        if tables.is_zero(source) {
            break;
        }
        let more = turn(tables, layer, source, target, answer, below)?;
        passes = passes.saturating_add(more);
    }
    Ok(passes)
}

impl<B: Lifting, R: Shape> Shape for Remainder<B, R> {
    ghost given = { λ o. B.Shape.given o.base };

    ghost outside = { λ o. or_else (deeper (B.Shape.outside o.base)) (deeper (R.Shape.outside o.rest)) };

    ghost unfit = { λ o q. or_else (remainder_unfit (B.Shape.given o.base) (R.Shape.given o.rest) (B.Lifting.rise o.base) (R.Shape.least o.rest) q) (or_else (deeper (B.Shape.unfit o.base q)) (deeper (R.Shape.unfit o.rest q))) };

    ghost least = { λ o. min (B.Shape.least o.base) (R.Shape.least o.rest) };

    ghost tables = { λ o. layer_need (B.Shape.tables o.base) (R.Shape.tables o.rest) };

    fn given_dimension(&self) -> u64 {
        self.base.given_dimension()
    }

    fn dimension(&self) -> Result<Dimension, Fault> {
        let dimension = self.base.dimension().map_err(Fault::deeper)?;
        self.rest.dimension().map_err(Fault::deeper)?;
        Ok(dimension)
    }

    fn ask(&self, question: Question) -> Result<(), Fault> {
        layer_asked(&self.base, &self.rest, question)?;
        self.base.ask(question).map_err(Fault::deeper)?;
        self.rest.ask(question).map_err(Fault::deeper)
    }

    fn order(&self) -> u32 {
        self.base.order().min(self.rest.order())
    }

    fn need(&self) -> u64 {
        layer_need(self.base.need(), self.rest.need())
    }
}

impl<B: Lifting, R: Shape> Lifting for Remainder<B, R> {
    ghost rise = { λ o. B.Lifting.rise o.base };

    fn lift(&self) -> u32 {
        self.base.lift()
    }
}

impl<K: Kind, B: Solvable<K>, R: Forward<K>> Forward<K> for Remainder<B, R> {
    // The action of the base and then of the rest, added up in the first of the layer's tables.
    fn act(
        &self,
        tables: Tables<'_, K>,
        source: &mut [K::Value],
        target: &mut [K::Value],
        work: &mut [K::Value],
    ) -> Result<(), Fault>
        ensures room { Untouched (no_if (not (roomy tables.entry.dimension (⟦<Remainder<B, R> as Shape>⟧.tables self.now) (length source.old) (length target.old) (length work.old))) Question.Tables) result source.old source.new target.old target.new work.old work.new }
        ensures source { source.new ≡ source.old }
        ensures past { Ready (⟦<Remainder<B, R> as Shape>⟧.outside self.now) (⟦<Remainder<B, R> as Shape>⟧.unfit self.now) (⟦<Remainder<B, R> as Shape>⟧.given self.now) tables.entry.dimension → Past (size_of tables.entry.dimension) target.old target.new }
    {
        let need = layer_need(self.base.need(), self.rest.need());
        room_asked(
            tables.dimension,
            need,
            source.len(),
            target.len(),
            work.len(),
        )?;
        let size = tables.size();
        let (sum, below) = work.split_at_mut(OWN_TABLES * size);
        self.base
            .apply(tables.kind, source, target, below)
            .map_err(Fault::deeper)?;
        copy(size, target, sum);
        self.rest
            .apply(tables.kind, source, target, below)
            .map_err(Fault::deeper)?;
        tables.add_into(sum, target)?;
        copy(size, sum, target);
        Ok(())
    }
}

impl<K: Kind, B: Solvable<K>, R: Forward<K>> Solvable<K> for Remainder<B, R> {
    // The source is kept in the first of the layer's tables and put back; the answer, from the second on, starts at zero.
    fn find(
        &self,
        tables: Tables<'_, K>,
        source: &mut [K::Value],
        target: &mut [K::Value],
        work: &mut [K::Value],
    ) -> Result<u32, Fault>
        ensures room { Untouched (no_if (not (roomy tables.entry.dimension (⟦<Remainder<B, R> as Shape>⟧.tables self.now) (length source.old) (length target.old) (length work.old))) Question.Tables) result source.old source.new target.old target.new work.old work.new }
        ensures source { Ready (⟦<Remainder<B, R> as Shape>⟧.outside self.now) (⟦<Remainder<B, R> as Shape>⟧.unfit self.now) (⟦<Remainder<B, R> as Shape>⟧.given self.now) tables.entry.dimension → source.new ≡ source.old }
        ensures past { Ready (⟦<Remainder<B, R> as Shape>⟧.outside self.now) (⟦<Remainder<B, R> as Shape>⟧.unfit self.now) (⟦<Remainder<B, R> as Shape>⟧.given self.now) tables.entry.dimension → Past (size_of tables.entry.dimension) target.old target.new }
    {
        let need = layer_need(self.base.need(), self.rest.need());
        room_asked(
            tables.dimension,
            need,
            source.len(),
            target.len(),
            work.len(),
        )?;
        degree_asked(tables, self.base.lift(), source)?;
        let size = tables.size();
        let (own, below) = work.split_at_mut(OWN_TABLES * size);
        let (kept, answer) = own.split_at_mut(size);
        copy(size, source, kept);
        clear(tables.kind, size, answer);
        let found = turns(tables, self, source, target, answer, below);
        copy(size, kept, source);
        copy(size, answer, target);
        found
    }
}
