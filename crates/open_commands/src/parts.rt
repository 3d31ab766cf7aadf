//! An open command and its parts.
ghost use Rattle.std.specs.Prelude.{◌<◌};

use machine::command::Command;
use ordering::calls::Phase;

/// How many members a line has at most.
pub const MEMBERS: usize = 16;

/// A sender and a set of destinations, at least one.
#[derive(Clone, Copy)]
pub struct Address {
    pub sender: u8,
    pub set: u16,
    ghost some: { 0 < set },
}

/// How a command stands at one member.
#[derive(Clone, Copy)]
pub struct Destination {
    pub phase: Phase,
}

/// A command that has not run at all of its destinations yet.
#[derive(Clone, Copy)]
pub struct OpenCommand {
    pub number: u64,
    pub address: Address,
    pub command: Command,
    pub fixed: Option<u64>,
    pub destinations: [Destination; MEMBERS],
}
