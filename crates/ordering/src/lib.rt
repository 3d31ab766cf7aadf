//! The vocabulary of a line, the model of it, and the ordering theorem.
#![tactic(auto)]

pub mod calls;
pub mod cases;
pub mod kept;
pub mod ordered;
