// The views of a party, numbered as they first come. This crate has definitions and lemmas only.

#![tactic(auto)]
