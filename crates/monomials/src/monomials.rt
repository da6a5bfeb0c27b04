ghost use Rattle.std.specs.Prelude.{◌≡◌, ◌≤◌, List, length};
ghost use Rattle.std.specs.Iterator.{YieldsFirst, item_count};
ghost use Rattle.std.specs.Iterator.Runs.{YieldsInOrder};
ghost use Rattle.monomials.specs.Dimensions.{size_of};
ghost use Rattle.monomials.specs.Places.{monomial_at, monomials_from};
ghost use Rattle.monomials.specs.declared.monomial.Monomial.{Monomial as Item};

use crate::dimension::Dimension;
use crate::monomial::Monomial;
use std::marker::Model;

// The monomials of a table from a place on, in the order of their places: a contract sees the list of those left.
#[derive(Drop)]
pub struct Monomials {
    dimension: Dimension,
    place: usize,
    // the monomial at the place
    here: Monomial,
}

impl Model for Monomials {
    ghost Value = { List Item };

    ghost view = { λ s. monomials_from s.dimension s.place };

    ghost invariant = { λ s. (s.place ≤ size_of s.dimension) × (s.here ≡ monomial_at s.dimension s.place) };
}

impl Dimension {
    // The monomials that a table has places for, in the order of their places.
    #[tactic(auto, using(crate::proofs::Listed::count_from, crate::proofs::Listed::runs_in_order, crate::proofs::Walks::at_start))]
    pub fn monomials(self) -> Monomials
        ensures items { result ≡ monomials_from self 0 }
        ensures count { length result ≡ size_of self }
        ensures runs { YieldsInOrder (YieldsFirst {A = Item} (λ rest. rest)) (λ rest. rest) }
    {
        Monomials {
            dimension: self,
            place: 0,
            here: Monomial::one(),
        }
    }
}

impl Iterator for Monomials {
    type Item = Monomial;

    ghost next_gives = { YieldsFirst (λ rest. rest) };

    ghost remaining = { item_count (λ rest. rest) };

    fn next(&mut self) -> Option<Monomial> {
        if self.place == self.dimension.size() {
            return None;
        }
        let here = self.here;
        self.here = here.next(self.dimension);
        self.place += 1;
        Some(here)
    }
}
