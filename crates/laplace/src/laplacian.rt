ghost use Rattle.std.specs.Prelude.{◌≡◌, ◌+◌, ◌-◌, ◌*◌, ◌/◌, ◌≤◌, not, length, None};
ghost use Rattle.kinds.specs.Arith.{whole_of};
ghost use Rattle.monomials.specs.Dimensions.{size_of};
ghost use Rattle.tables.specs.Steps.{Past};
ghost use Rattle.operators.specs.Piles.{leaf_outside, no_if};
ghost use Rattle.operators.specs.Rooms.{tables_of, roomy, Untouched};

use crate::matrix::{Symmetric, inverted};
use crate::quadratic::quadratic;
use kinds::fault::{Fault, Question};
use kinds::kind::Kind;
use monomials::dimension::Dimension;
use monomials::monomial::Axis;
use operators::operator::{Forward, Solvable};
use operators::questions::{SIMPLE_NEED, degree_asked, leaf_dimension, room_asked};
use operators::shape::{Lifting, Shape};
use tables::steps::{clear, copy};
use tables::tables::Tables;

// The second derivatives, weighted by a symmetric matrix.
#[derive(Clone, Copy)]
pub struct Laplacian<V> {
    pub dimension: u64,
    pub matrix: Symmetric<V>,
}

// The Laplacian of the unit matrix.
pub fn isotropic<K: Kind>(k: &K, dimension: u64) -> Laplacian<K::Value>
    ensures dimension { result.dimension ≡ dimension }
    ensures diagonal { (result.matrix.xx ≡ whole_of (K.Kind.arith k.now) 1) × ((result.matrix.yy ≡ whole_of (K.Kind.arith k.now) 1) × (result.matrix.zz ≡ whole_of (K.Kind.arith k.now) 1)) }
    ensures others { (result.matrix.xy ≡ whole_of (K.Kind.arith k.now) 0) × ((result.matrix.xz ≡ whole_of (K.Kind.arith k.now) 0) × (result.matrix.yz ≡ whole_of (K.Kind.arith k.now) 0)) }
{
    let zero = k.whole(0);
    let one = k.whole(1);
    Laplacian {
        dimension,
        matrix: Symmetric {
            xx: one,
            xy: zero,
            xz: zero,
            yy: one,
            yz: zero,
            zz: one,
        },
    }
}

// The divisor 2(l + 1)(2n - 2l + d) of the l-th term for a homogeneous part of degree n.
fn divisor(d: u8, n: usize, l: usize) -> u8
    requires { (d ≤ 3) × ((n ≤ 10) × (2 * l ≤ n)) }
    ensures { result ≡ 2 * (l + 1) * (2 * n - 2 * l + d) }
{
    (2 * (l + 1) * (2 * n - 2 * l + d as usize)) as u8
}

// That a divisor has no inverse is told with the degree of the part; other refusals of values outside a table have no place.
fn divisor_fault(e: Fault, n: usize) -> Fault {
    match e {
        Fault::Inverse(_) => e.at(n as u64),
        _ => e,
    }
}

// The factors of the terms for a part of degree n, which are the inverses of its divisors, by rising l.
fn form_factors<K: Kind>(
    tables: Tables<'_, K>,
    n: usize,
    factors: &mut [K::Value],
) -> Result<(), Fault>
    requires degree { n ≤ 10 }
    requires count { length factors.old ≡ n / 2 + 1 }
{
    for (l, factor) in factors.iter_mut().enumerate() {
        let whole = tables.kind.whole(divisor(tables.dimension.into(), n, l));
        *factor = tables.kind.inverse(whole).map_err(|e| divisor_fault(e, n))?;
    }
    Ok(())
}

// The action of the matrix's Laplacian on the table `from`, into `to`; it is formed in `one` and `two`. The tables of this file
// are slices of their own, as `operators::operator` says.
fn act_on<K: Kind>(
    tables: Tables<'_, K>,
    matrix: &Symmetric<K::Value>,
    from: &[K::Value],
    to: &mut [K::Value],
    one: &mut [K::Value],
    two: &mut [K::Value],
) -> Result<(), Fault>
    ensures { Past (size_of tables.entry.dimension) to.old to.new }
{
    let moved = |axis: Axis, from: &[K::Value], to: &mut [K::Value]| tables.derivative(
        axis, from, to,
    );
    quadratic(tables, moved, matrix, from, to, one, two)
}

// The table `from` times the form of the inverse matrix in the coordinates, into `to`; it is formed in `one` and `two`.
fn times_form<K: Kind>(
    tables: Tables<'_, K>,
    inverse: &Symmetric<K::Value>,
    from: &[K::Value],
    to: &mut [K::Value],
    one: &mut [K::Value],
    two: &mut [K::Value],
) -> Result<(), Fault>
    ensures { Past (size_of tables.entry.dimension) to.old to.new }
{
    let moved = |axis: Axis, from: &[K::Value], to: &mut [K::Value]| {
        tables.shift(axis, from, to);
        Ok(())
    };
    quadratic(tables, moved, inverse, from, to, one, two)
}

// The table `power` times that form, so many times over, in its place.
fn multiply_over<K: Kind>(
    tables: Tables<'_, K>,
    inverse: &Symmetric<K::Value>,
    times: usize,
    power: &mut [K::Value],
    next: &mut [K::Value],
    one: &mut [K::Value],
    two: &mut [K::Value],
) -> Result<(), Fault> {
    for _ in 0..times {
        times_form(tables, inverse, power, next, one, two)?;
        copy(tables.size(), next, power);
    }
    Ok(())
}

// The solution for one homogeneous part, which `w` holds, joins the target: a term for each of its factors. The l-th is minus
// the action on the one before, times its factor, and joins after l + 1 products with the form of the inverse matrix.
fn join_terms<K: Kind>(
    tables: Tables<'_, K>,
    matrix: &Symmetric<K::Value>,
    inverse: &Symmetric<K::Value>,
    factors: &[K::Value],
    w: &mut [K::Value],
    target: &mut [K::Value],
    work: &mut [K::Value],
) -> Result<(), Fault>
    requires { tables_of tables.dimension 4 ≤ length work.old }
    ensures { Past (size_of tables.entry.dimension) target.old target.new }
{
    let size = tables.size();
    let (power, rest) = work.split_at_mut(size);
    let (next, rest) = rest.split_at_mut(size);
    let (one, two) = rest.split_at_mut(size);
    for (l, factor) in factors.iter().enumerate() {
        if l > 0 {
            act_on(tables, matrix, w, next, one, two)?;
            tables.negate(next);
            copy(size, next, w);
        }
        tables.multiply(w, *factor)?;
        copy(size, w, power);
        multiply_over(tables, inverse, l + 1, power, next, one, two)?;
        tables.add_into(target, power)?;
    }
    Ok(())
}

// A constant answers the same but for the order and the lift. The two stay side by side: a struct for every operator that is
// no layer would need a trait for its symbol, and one for each of `Lifting`, `Forward` and `Solvable` below it.
impl<V: Copy> Shape for Laplacian<V> {
    ghost given = { λ o. o.dimension };

    ghost outside = { λ o. leaf_outside o.dimension };

    ghost unfit = { λ _ _. None };

    ghost least = { λ _. 2 };

    ghost tables = { λ _. 6 };

    fn given_dimension(&self) -> u64 {
        self.dimension
    }

    fn dimension(&self) -> Result<Dimension, Fault> {
        leaf_dimension(self.dimension)
    }

    fn ask(&self, _question: Question) -> Result<(), Fault> {
        Ok(())
    }

    fn order(&self) -> u32 {
        2
    }

    fn need(&self) -> u64 {
        SIMPLE_NEED
    }
}

impl<V: Copy> Lifting for Laplacian<V> {
    ghost rise = { λ _. 2 };

    fn lift(&self) -> u32 {
        2
    }
}

impl<V: Copy, K: Kind<Value = V>> Forward<K> for Laplacian<V> {
    fn act(
        &self,
        tables: Tables<'_, K>,
        source: &mut [V],
        target: &mut [V],
        work: &mut [V],
    ) -> Result<(), Fault>
        ensures room { Untouched (no_if (not (roomy tables.entry.dimension 6 (length source.old) (length target.old) (length work.old))) Question.Tables) result source.old source.new target.old target.new work.old work.new }
        ensures source { source.new ≡ source.old }
        ensures past { Past (size_of tables.entry.dimension) target.old target.new }
    {
        room_asked(
            tables.dimension,
            SIMPLE_NEED,
            source.len(),
            target.len(),
            work.len(),
        )?;
        let (one, two) = work.split_at_mut(tables.size());
        act_on(tables, &self.matrix, source, target, one, two)
    }
}

impl<V: Copy, K: Kind<Value = V>> Solvable<K> for Laplacian<V> {
    // The solutions for the homogeneous parts are added up, by rising degree. Of the six tables the first holds the part and
    // its terms, and the second its factors.
    fn find(
        &self,
        tables: Tables<'_, K>,
        source: &mut [V],
        target: &mut [V],
        work: &mut [V],
    ) -> Result<u32, Fault>
        ensures room { Untouched (no_if (not (roomy tables.entry.dimension 6 (length source.old) (length target.old) (length work.old))) Question.Tables) result source.old source.new target.old target.new work.old work.new }
        ensures source { source.new ≡ source.old }
        ensures past { Past (size_of tables.entry.dimension) target.old target.new }
    {
        room_asked(
            tables.dimension,
            SIMPLE_NEED,
            source.len(),
            target.len(),
            work.len(),
        )?;
        let size = tables.size();
        clear(tables.kind, size, target);
        let Some(degree) = degree_asked(tables, 2, source)? else {
            return Ok(0);
        };
        let inverse = inverted(tables, &self.matrix)?;
        let (w, rest) = work.split_at_mut(size);
        let (factors, rest) = rest.split_at_mut(size);
        for n in 0..=degree {
            tables.part(n, source, w);
            if !tables.is_zero(w) {
                let of_part = &mut factors[..n / 2 + 1];
                form_factors(tables, n, of_part)?;
                join_terms(tables, &self.matrix, &inverse, of_part, w, target, rest)?;
            }
        }
        Ok(1)
    }
}
