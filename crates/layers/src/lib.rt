#![tactic(auto)]

pub mod remainder;
