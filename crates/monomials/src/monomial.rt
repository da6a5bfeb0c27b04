ghost use Rattle.std.specs.Prelude.{◌≡◌, ◌<◌, true, IfSome};
ghost use Rattle.monomials.specs.declared.dimension.Dimension.TheVariants.{Plane, Space};
ghost use Rattle.monomials.specs.Dimensions.{size_of};
ghost use Rattle.monomials.specs.Places.{monomial, exponents, exponent_of, fits, place_of, placed, found_at, next_of, with_exponent, raised_of, lowered_of, Alone};

use crate::dimension::Dimension;

#[derive(Clone, Copy, Debug, PartialEq, Eq)]
pub enum Axis {
    X,
    Y,
    Z,
}

// x^a y^b z^c
#[derive(Clone, Copy, Debug, PartialEq, Eq)]
pub struct Monomial {
    pub a: u8,
    pub b: u8,
    pub c: u8,
}

impl Monomial {
    pub fn one() -> Monomial
        ensures { result ≡ monomial 0 0 0 }
    {
        Monomial { a: 0, b: 0, c: 0 }
    }

    pub fn degree(self) -> usize
        ensures { result ≡ exponents self }
    {
        usize::from(self.a) + usize::from(self.b) + usize::from(self.c)
    }

    pub fn exponent(self, axis: Axis) -> u8
        ensures { result ≡ exponent_of axis self }
    {
        match axis {
            Axis::X => self.a,
            Axis::Y => self.b,
            Axis::Z => self.c,
        }
    }

    // Whether a table has a place for it.
    pub fn fits(self, dimension: Dimension) -> bool
        ensures { result ≡ fits dimension self }
    {
        match dimension {
            Dimension::Plane => self.degree() <= 12 && self.c == 0,
            Dimension::Space => self.degree() <= 12,
        }
    }

    // Its place in a table, if it has one.
    pub fn place(self, dimension: Dimension) -> Option<usize>
        ensures value { result ≡ placed dimension self }
        ensures below { IfSome result (λ p. p < size_of dimension) }
        ensures own { IfSome result (λ p. Alone dimension self p) }
    {
        self.fits(dimension).then(|| self.formula(dimension))
    }

    // The place, by its formula.
    fn formula(self, dimension: Dimension) -> usize
        ensures { result ≡ place_of dimension self }
    {
        let n = self.degree();
        let a = usize::from(self.a);
        match dimension {
            Dimension::Plane => n * (n + 1) / 2 + usize::from(self.b),
            Dimension::Space => {
                n * (n + 1) * (n + 2) / 6 + (n - a) * (n - a + 1) / 2 + usize::from(self.c)
            }
        }
    }

    // The monomial at a place of a table.
    pub fn at(dimension: Dimension, place: usize) -> Option<Monomial>
        ensures { result ≡ found_at dimension place }
    {
        // asked first, since a walk to a place past the table goes through all of it
        if place >= dimension.size() {
            return None;
        }
        dimension.monomials().nth(place)
    }

    // The monomial at the next place.
    pub fn next(self, dimension: Dimension) -> Monomial
        ensures { fits dimension self ≡ true → result ≡ next_of dimension self }
    {
        match dimension {
            Dimension::Plane => self.next_of_plane(),
            Dimension::Space => self.next_of_space(),
        }
    }

    // In the plane and in space other exponents fall, so the two steps have no common form.
    fn next_of_plane(self) -> Monomial
        ensures { fits Plane self ≡ true → result ≡ next_of Plane self }
    {
        let after = self.b.saturating_add(1);
        if self.a > 0 {
            Monomial {
                a: self.a - 1,
                b: after,
                c: 0,
            }
        } else {
            Monomial {
                a: after,
                b: 0,
                c: 0,
            }
        }
    }

    fn next_of_space(self) -> Monomial
        ensures { fits Space self ≡ true → result ≡ next_of Space self }
    {
        let after = self.c.saturating_add(1);
        if self.b > 0 {
            Monomial {
                a: self.a,
                b: self.b - 1,
                c: after,
            }
        } else if self.a > 0 {
            Monomial {
                a: self.a - 1,
                b: after,
                c: 0,
            }
        } else {
            Monomial {
                a: after,
                b: 0,
                c: 0,
            }
        }
    }

    // The same with another exponent of one coordinate.
    fn with(self, axis: Axis, n: u8) -> Monomial
        ensures { result ≡ with_exponent axis n self }
    {
        match axis {
            Axis::X => Monomial { a: n, ..self },
            Axis::Y => Monomial { b: n, ..self },
            Axis::Z => Monomial { c: n, ..self },
        }
    }

    // Times a coordinate; an exponent stops at 255, which no table has a place for.
    pub fn raised(self, axis: Axis) -> Monomial
        ensures { result ≡ raised_of axis self }
    {
        self.with(axis, self.exponent(axis).saturating_add(1))
    }

    // Divided by a coordinate, where it has it.
    pub fn lowered(self, axis: Axis) -> Option<Monomial>
        ensures { result ≡ lowered_of axis self }
    {
        self.exponent(axis)
            .checked_sub(1)
            .map(|n| self.with(axis, n))
    }
}
