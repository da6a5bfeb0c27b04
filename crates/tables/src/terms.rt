ghost use Rattle.std.specs.Prelude.{◌≡◌, ◌<◌, ◌≤◌, length, Some, Err};
ghost use Rattle.kinds.specs.declared.fault.Fault.{Fault as Refused};
ghost use Rattle.monomials.specs.Dimensions.{size_of};
ghost use Rattle.tables.specs.Outcomes.{Told};
ghost use Rattle.tables.specs.Steps.{Past, Short};
ghost use Rattle.tables.specs.Terms.{misplaced};

use crate::tables::Tables;
use kinds::fault::{Fault, Question};
use kinds::kind::Kind;
use monomials::dimension::Dimension;
use monomials::monomial::Monomial;

// A coefficient with its monomial.
#[derive(Clone, Copy)]
pub struct Term<V> {
    pub monomial: Monomial,
    pub value: V,
}

// Whether each term has a place in a table.
pub fn ask_monomials<V>(dimension: Dimension, terms: &[Term<V>]) -> Result<(), Fault>
    ensures { Told (misplaced dimension 0 terms.now) result }
{
    match terms.iter().position(|t| !t.monomial.fits(dimension)) {
        Some(i) => Err(Fault::no(Question::Monomial, i as u64)),
        None => Ok(()),
    }
}

impl<K: Kind> Tables<'_, K> {
    // Adds one term at its place, where it has one; its fault tells the place that was to be written.
    fn add_term(self, term: &Term<K::Value>, table: &mut [K::Value]) -> Result<(), Fault>
        requires { size_of self.dimension ≤ length table.old }
    {
        if let Some(place) = term.monomial.place(self.dimension) {
            table[place] = self
                .kind
                .sum(table[place], term.value)
                .map_err(|e| e.at(place as u64))?;
        }
        Ok(())
    }

    // Adds the terms to a table, in their order. Where one has no place, none is added.
    pub fn add_terms(self, terms: &[Term<K::Value>], table: &mut [K::Value]) -> Result<(), Fault>
        ensures short { Short (length table.old) (size_of self.entry.dimension) table.old table.new result }
        ensures unplaced { (e : Refused) → size_of self.entry.dimension ≤ length table.old → misplaced self.entry.dimension 0 terms.now ≡ Some e → (result ≡ Err e) × (table.new ≡ table.old) }
        ensures past { Past (size_of self.entry.dimension) table.old table.new }
    {
        let n = self.size();
        if table.len() < n {
            return Err(Fault::no(Question::Tables, 0));
        }
        ask_monomials(self.dimension, terms)?;
        let table = &mut table[..n];
        for term in terms {
            self.add_term(term, table)?;
        }
        Ok(())
    }
}
