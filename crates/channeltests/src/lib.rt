#![tactic(auto)]

pub mod mute;
#[cfg(test)]
mod tests;
