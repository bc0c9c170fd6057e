#![tactic(auto)]

pub mod book;
