//! Theorems on places. No function here computes anything: each has a theorem for its contract.

ghost use Rattle.monomials.specs.declared.dimension.Dimension.{Dimension};
ghost use Rattle.monomials.specs.Places.{Inverse, Rising};

/// Each place below 91, or 455, has its monomial of degree at most 12, and each such monomial its place.
pub fn places_and_monomials_correspond()
    ensures { (d : Dimension) → Inverse d }
{}

/// A monomial of greater degree has a greater place.
pub fn places_rise_with_the_degree()
    ensures { (d : Dimension) → Rising d }
{}
