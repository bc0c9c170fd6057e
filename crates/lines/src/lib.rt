#![tactic(auto)]

pub mod act_list;
pub mod counting;
pub mod party_line;
pub mod progress;
pub mod sheet;
