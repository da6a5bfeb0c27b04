ghost use Rattle.std.specs.Prelude.{◌≡◌, ◌≤◌, min, length, IfSome};
ghost use Rattle.monomials.specs.Dimensions.{size_of};
ghost use Rattle.tables.specs.Degrees.{all_zero, last_degree};

use crate::tables::Tables;
use kinds::kind::Kind;

impl<K: Kind> Tables<'_, K> {
    // Whether every coefficient is zero; one that the slice is too short for counts as zero.
    pub fn is_zero(self, table: &[K::Value]) -> bool
        ensures { result ≡ all_zero (K.Kind.arith self.entry.kind.now) table.now (min (size_of self.entry.dimension) (length table.now)) }
    {
        table
            .iter()
            .take(self.size())
            .all(|v| self.kind.is_zero(*v))
    }

    // The largest degree of a monomial whose coefficient is not zero; a zero table has none.
    pub fn degree(self, table: &[K::Value]) -> Option<usize>
        ensures value { result ≡ last_degree (K.Kind.arith self.entry.kind.now) self.entry.dimension table.now }
        ensures bound { IfSome result (λ n. n ≤ 12) }
    {
        self.dimension
            .monomials()
            .zip(table)
            .filter(|(_, v)| !self.kind.is_zero(**v))
            .map(|(m, _)| m.degree())
            .last()
    }
}
