#![tactic(auto)]

pub mod constant;
pub mod operator;
pub mod questions;
pub mod shape;
