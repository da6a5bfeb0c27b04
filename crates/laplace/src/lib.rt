#![tactic(auto)]

pub mod laplacian;
pub mod matrix;
mod quadratic;
