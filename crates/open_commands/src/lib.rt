//! The open commands of a line: where each goes, how its destinations stand, and the searches over all of them.
#![tactic(auto)]

mod address;
mod open_command;
pub mod parts;
pub mod phases;
pub mod table;
