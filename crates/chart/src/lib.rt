#![tactic(auto)]

pub mod chart;
mod cursor;
pub mod output;
mod reader;
mod writer;
