//! What a line is made of.
use crate::fixed_list::FixedList;
use machine::command::Command;
use open_commands::parts::{MEMBERS, OpenCommand};

/// How many commands may be open.
pub(crate) const PLACES: usize = 32;
/// How many commands a member remembers.
pub(crate) const MEMORY: usize = 16;

/// The last issue number is at most this.
pub(crate) const LAST_NUMBER: u64 = 1 << 48;

#[derive(Clone, Copy)]
pub(crate) struct Remembered {
    pub(crate) number: u64,
    pub(crate) command: Command,
}

#[derive(Drop)]
pub(crate) struct Member {
    pub(crate) clock: u64,
    pub(crate) remembered: FixedList<Remembered, MEMORY>,
}

/// The counts of an open line, its open commands and its members.
#[derive(Drop)]
pub(crate) struct Tables {
    pub(crate) members: u8,
    pub(crate) last: u64,
    pub(crate) issued: u64,
    pub(crate) commands: FixedList<OpenCommand, PLACES>,
    pub(crate) roll: [Member; MEMBERS],
}
