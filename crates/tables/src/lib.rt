#![tactic(auto)]

pub mod degree;
pub mod moves;
pub mod steps;
pub mod tables;
pub mod terms;

// the places of a table are those of its monomials, which stand in a crate of their own
pub use monomials::{dimension, monomial};
