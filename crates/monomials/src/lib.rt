#![tactic(auto)]

pub mod dimension;
pub mod monomial;
pub mod monomials;
pub mod places;
