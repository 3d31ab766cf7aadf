//! The stations of a line as one value, and a whole list of calls on a new line.
#![tactic(auto)]

mod any_kind;
pub mod axis_stations;
pub mod interface;
pub mod play;
pub mod recorder_stations;
pub mod tally_stations;
