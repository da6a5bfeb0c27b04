#![tactic(auto)]

pub mod answer;
pub mod problem;
mod source;
