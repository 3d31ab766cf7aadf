//! Commands, and the machines that run them behind a station.
#![tactic(auto)]

pub mod axis_bank;
pub mod command;
pub mod kind;
pub mod recorder;
pub mod tally;
