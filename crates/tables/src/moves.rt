ghost use Rattle.std.specs.Prelude.{◌≡◌, ◌<◌, ◌≤◌, length};
ghost use Rattle.monomials.specs.Dimensions.{size_of};
ghost use Rattle.tables.specs.Steps.{Past, Short};

use crate::steps::clear;
use crate::tables::Tables;
use kinds::fault::{Fault, Question};
use kinds::kind::Kind;
use monomials::monomial::{Axis, Monomial};

// Steps that bring each coefficient of a table to another place, of another table.

impl<K: Kind> Tables<'_, K> {
    // The coefficient of the derivative at the monomial m: the exponent times the coefficient of the monomial above.
    fn derived(self, axis: Axis, m: Monomial, from: &[K::Value]) -> Result<K::Value, Fault>
        requires { size_of self.dimension ≤ length from.now }
    {
        let above = m.raised(axis);
        match above.place(self.dimension) {
            Some(q) => self
                .kind
                .product(from[q], self.kind.whole(above.exponent(axis))),
            None => Ok(self.kind.whole(0)),
        }
    }

    pub fn derivative(self, axis: Axis, from: &[K::Value], to: &mut [K::Value]) -> Result<(), Fault>
        ensures from_short { Short (length from.now) (size_of self.entry.dimension) to.old to.new result }
        ensures to_short { Short (length to.old) (size_of self.entry.dimension) to.old to.new result }
        ensures past { Past (size_of self.entry.dimension) to.old to.new }
    {
        if from.len() < self.size() {
            return Err(Fault::no(Question::Tables, 0));
        }
        self.form_each(
            to,
            self.dimension.monomials(),
            |_, m| self.derived(axis, m, from),
        )
    }

    // The coefficient of the product with a coordinate at the monomial m: that of the monomial below, if there is one.
    fn shifted(self, axis: Axis, m: Monomial, from: &[K::Value]) -> K::Value {
        m.lowered(axis)
            .and_then(|below| below.place(self.dimension))
            .and_then(|q| from.get(q).copied())
            .unwrap_or_else(|| self.kind.whole(0))
    }

    // The product with a coordinate, without its terms of degree 13.
    pub fn shift(self, axis: Axis, from: &[K::Value], to: &mut [K::Value])
        ensures past { Past (size_of self.entry.dimension) to.old to.new }
    {
        let end = self.size().min(to.len());
        for (v, m) in to[..end].iter_mut().zip(self.dimension.monomials()) {
            *v = self.shifted(axis, m, from);
        }
    }

    // The homogeneous part of a degree.
    pub fn part(self, degree: usize, from: &[K::Value], to: &mut [K::Value])
        ensures past { Past (size_of self.entry.dimension) to.old to.new }
    {
        clear(self.kind, self.size(), to);
        let end = to.len().min(self.size());
        let places = to[..end].iter_mut().zip(self.dimension.monomials());
        for ((v, m), w) in places.zip(from) {
            if m.degree() == degree {
                *v = *w;
            }
        }
    }
}
