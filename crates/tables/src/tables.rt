ghost use Rattle.std.specs.Prelude.{◌≡◌};
ghost use Rattle.monomials.specs.Dimensions.{size_of};

use monomials::dimension::Dimension;

// The tables of a dimension with coefficients of a kind; the steps that need both, each on lent slices, are its methods.
#[derive(Drop)]
#[derive_where(Clone, Copy)]
pub struct Tables<'k, K> {
    pub kind: &'k K,
    pub dimension: Dimension,
}

impl<K> Tables<'_, K> {
    // How many coefficients a table has.
    pub fn size(self) -> usize
        ensures { result ≡ size_of self.entry.dimension }
    {
        self.dimension.size()
    }
}
