#![tactic(auto)]

mod clerk;
pub mod session;
