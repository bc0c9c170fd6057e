#![tactic(auto)]

pub mod judging;
pub mod lone;
#[cfg(test)]
mod tests;
