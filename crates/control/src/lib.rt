// Global_Control, which commands groups of slaves (document 01, "Services by access point").
#![tactic(auto)]

mod command;

pub use command::{GlobalCommand, read_global_command, write_global_command};
