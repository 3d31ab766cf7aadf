//! A whole script, from its first byte to the cells of the stations.
#![tactic(auto)]

mod cells;
mod kinds;
mod records;
mod room;
pub mod run;
mod scripts;
mod steps;
