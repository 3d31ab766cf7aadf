//! The steps of a script: from the fields of one record to one call of a line.
#![tactic(auto)]

pub mod faults;
mod fields;
pub mod numbers;
mod operands;
mod reading;
pub mod records;
pub mod steps;
