//! Axes and commands in words.
use crate::cycle::{FILM, FLAP, PUSHER};
use machine::command::Command;
use std::fmt;

/// An axis by its name, or by its number where it has none.
#[derive(Clone, Copy)]
struct Axis(u8);

impl fmt::Display for Axis {
    fn fmt<W: fmt::Write>(&self, f: &mut fmt::Formatter<W>) -> fmt::Result {
        match self.0 {
            FILM => write!(f, "film"),
            FLAP => write!(f, "flap"),
            PUSHER => write!(f, "pusher"),
            number => write!(f, "axis {number}"),
        }
    }
}

/// A command as a person says it.
#[derive(Clone, Copy)]
pub(crate) struct InWords(pub(crate) Command);

impl fmt::Display for InWords {
    fn fmt<W: fmt::Write>(&self, f: &mut fmt::Formatter<W>) -> fmt::Result {
        match self.0 {
            Command::Set { axis, value } => write!(f, "set {} to {value}", Axis(axis)),
            Command::Shift { axis, amount } => write!(f, "shift {} by {amount}", Axis(axis)),
            Command::Couple { from, to } => write!(f, "couple {} to {}", Axis(to), Axis(from)),
            Command::Mark { code } => write!(f, "mark {code}"),
        }
    }
}

/// A timestamp, or a dash where there is none yet.
#[derive(Clone, Copy)]
pub(crate) struct Stamp(pub(crate) Option<u64>);

impl fmt::Display for Stamp {
    fn fmt<W: fmt::Write>(&self, f: &mut fmt::Formatter<W>) -> fmt::Result {
        match self.0 {
            Some(timestamp) => write!(f, "{timestamp}"),
            None => write!(f, "-"),
        }
    }
}
