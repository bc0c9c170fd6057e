#![tactic(auto)]

pub mod party_views;
pub mod view;
