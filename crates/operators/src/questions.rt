ghost use Rattle.std.specs.Prelude.{◌≡◌, ◌+◌, ◌≤◌, not, IfSome, IfOk, Some, OnOk};
ghost use Rattle.monomials.specs.Dimensions.{size_of, dimension_of};
ghost use Rattle.tables.specs.Outcomes.{Told};
ghost use Rattle.tables.specs.Steps.{Past};
ghost use Rattle.operators.specs.Piles.{no_if, unpiled, leaf_outside, layer_need};
ghost use Rattle.operators.specs.Rooms.{tables_of, roomy, Ready, Roomy, unready};

use crate::shape::Shape;
use kinds::fault::{Fault, Question};
use kinds::kind::Kind;
use monomials::dimension::Dimension;
use tables::steps::clear;
use tables::tables::Tables;

// More working tables than this no call can have.
const MOST_TABLES: u64 = 4294967295;

// The working tables of an operator that is no layer.
pub const SIMPLE_NEED: u64 = 6;

// A layer keeps so many of its working tables, and hands the others down.
pub const LAYER_TABLES: u64 = 4;

// A layer's need; one past the most that a call can have stays there.
pub fn layer_need(one: u64, other: u64) -> u64
    ensures { result ≡ layer_need one other }
{
    one.max(other)
        .saturating_add(LAYER_TABLES)
        .min(MOST_TABLES + 1)
}

// The question on the dimension of an operator that is no layer.
pub fn leaf_dimension(given: u64) -> Result<Dimension, Fault>
    ensures told { Told (leaf_outside given) result }
    ensures value { IfOk result (λ d. Some d ≡ dimension_of given) }
{
    Dimension::try_from(given).map_err(|_| Fault::no(Question::Dimension, 0))
}

// How many values some tables have.
fn values(dimension: Dimension, tables: u64) -> usize
    requires { tables ≤ 4294967295 }
    ensures { result ≡ tables_of dimension tables }
{
    dimension.size() * tables as usize
}

// The questions on an operator alone, number by number over the whole pile.
pub fn pile_asked<O: Shape>(o: &O) -> Result<Dimension, Fault>
    ensures told { Told (unpiled (O.Shape.outside o.now) (O.Shape.unfit o.now)) result }
    ensures value { IfOk result (λ d. Some d ≡ dimension_of (O.Shape.given o.now)) }
{
    let dimension = o.dimension()?;
    o.ask(Question::Agreement)?;
    o.ask(Question::Order)?;
    o.ask(Question::Lift)?;
    Ok(dimension)
}

// Whether the lent slices are long enough.
pub fn room_asked(
    dimension: Dimension,
    need: u64,
    source: usize,
    target: usize,
    work: usize,
) -> Result<(), Fault>
    ensures told { Told (no_if (not (roomy dimension need source target work)) Question.Tables) result }
    ensures room { OnOk result (Roomy dimension need source target work) }
{
    let size = dimension.size();
    if need > MOST_TABLES || source < size || target < size || work < values(dimension, need) {
        return Err(Fault::no(Question::Tables, 0));
    }
    Ok(())
}

// The questions on a call before any value is formed, in their order; the tables are those of the pile's dimension.
pub(crate) fn asked<'k, O: Shape, K: Kind>(
    o: &O,
    kind: &'k K,
    source: usize,
    target: usize,
    work: usize,
) -> Result<Tables<'k, K>, Fault>
    ensures told { Told (unready (O.Shape.outside o.now) (O.Shape.unfit o.now) (O.Shape.given o.now) (O.Shape.tables o.now) source target work) result }
    ensures ready { IfOk result (λ t. Ready (O.Shape.outside o.now) (O.Shape.unfit o.now) (O.Shape.given o.now) t.dimension) }
    ensures room { IfOk result (λ t. Roomy t.dimension (O.Shape.tables o.now) source target work) }
{
    let dimension = pile_asked(o)?;
    room_asked(dimension, o.need(), source, target, work)?;
    Ok(Tables { kind, dimension })
}

// Whether the degree of the source leaves room for the lift; a zero source is not asked, and has no degree.
pub fn degree_asked<K: Kind>(
    tables: Tables<'_, K>,
    lift: u32,
    source: &[K::Value],
) -> Result<Option<usize>, Fault>
    ensures { IfOk result (λ o. IfSome o (λ n. n + lift ≤ 12)) }
{
    let Some(n) = tables.degree(source) else {
        return Ok(None);
    };
    if n as u64 + u64::from(lift) > 12 {
        return Err(Fault::no(Question::Degree, n as u64));
    }
    Ok(Some(n))
}

// How every call ends that has passed the questions on room: the working tables as zeros, and the target too where it
// is refused. What lies past them stays. The two are slices of their own, as `operator.rt` says.
pub fn settled<K: Kind, T>(
    tables: Tables<'_, K>,
    need: u64,
    target: &mut [K::Value],
    work: &mut [K::Value],
    answer: Result<T, Fault>,
) -> Result<T, Fault>
    ensures same { result ≡ answer }
    ensures past_target { Past (size_of tables.entry.dimension) target.old target.new }
    ensures past_work { need ≤ 4294967295 → Past (tables_of tables.entry.dimension need) work.old work.new }
{
    if need <= MOST_TABLES {
        clear(tables.kind, values(tables.dimension, need), work);
    }
    if answer.is_err() {
        clear(tables.kind, tables.size(), target);
    }
    answer
}
