#![tactic(auto)]

mod worked;
