#![tactic(auto)]

pub mod order;
pub mod run;
