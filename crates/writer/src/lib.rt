#![tactic(auto)]

pub mod refusal;
pub mod table;
pub mod write;
