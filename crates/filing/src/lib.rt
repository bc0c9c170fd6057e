#![tactic(auto)]

mod bytes;
pub mod list_file;
pub mod machine_file;
