#![tactic(auto)]

pub mod limit;
mod line;
pub mod misfit;
mod part;
pub mod read;
pub mod reader;
pub mod row;
mod scan;
pub mod token;
