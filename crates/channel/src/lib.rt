#![tactic(auto)]

pub mod bag;
pub mod channel;
pub mod line;
mod link;
mod pile;
mod place;
mod queue;
mod store;
