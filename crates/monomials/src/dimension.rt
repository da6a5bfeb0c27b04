ghost use Rattle.std.specs.Prelude.{◌≡◌};
ghost use Rattle.monomials.specs.Dimensions.{Named, size_of, number_of};

use crate::monomials::Monomials;

// The plane, with the coordinates x and y, or space, with x, y and z.
#[derive(Clone, Copy, Debug, PartialEq, Eq)]
pub enum Dimension {
    Plane = 2,
    Space = 3,
}

// A number of coordinates that is neither the plane's nor space's.
#[derive(Clone, Copy, Debug, PartialEq, Eq)]
pub struct UnknownDimension(pub u64);

impl TryFrom<u64> for Dimension {
    type Error = UnknownDimension;

    ghost try_from_gives = { Named };

    fn try_from(d: u64) -> Result<Self, UnknownDimension> {
        match d {
            2 => Ok(Dimension::Plane),
            3 => Ok(Dimension::Space),
            _ => Err(UnknownDimension(d)),
        }
    }
}

impl From<Dimension> for u8 {
    ghost from_gives = { λ d n. n ≡ number_of d };

    fn from(dimension: Dimension) -> u8 {
        dimension as u8
    }
}

impl Dimension {
    // How many coefficients a table has.
    pub fn size(self) -> usize
        ensures { result ≡ size_of self }
    {
        match self {
            Dimension::Plane => 91,
            Dimension::Space => 455,
        }
    }
}
