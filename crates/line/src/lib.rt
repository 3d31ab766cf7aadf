//! The line: six calls on fixed memory.
#![tactic(auto)]

mod book;
mod fixed_list;
mod member;
mod parts;
pub mod state;
mod tables;
