//! The records of a script, one after the other.
ghost use Rattle.std.specs.Prelude.{◌<◌, ◌≤◌, length};

use crate::scripts::Script;
use script::records::read_step;
use script::steps::{StepFault, StepRead};

/// A record of a script: its number from 1, the offset where it begins, and the step that is read there.
#[derive(Clone, Copy)]
pub(crate) struct Record {
    pub number: usize,
    pub at: usize,
    pub read: Result<StepRead, StepFault>,
}

/// The records of a script that are left. Behind one that cannot be read none is.
// The number is counted here and not by `zip` at a caller, since the ghost field `counted` bounds it by the offset.
#[derive(Drop)]
pub(crate) struct Records<'a> {
    script: Script<'a>,
    pub at: usize,
    pub number: usize,
    ghost counted: { number ≤ at },
    ghost within: { at ≤ length script.bytes.now },
}

impl<'a> Records<'a> {
    ghost use Rattle.std.specs.Prelude.{◌≡◌, nat_le};
    ghost use Rattle.runner.specs.Following.{Follows};

    /// All records of the script.
    pub(crate) fn of(script: Script<'a>) -> Records<'a>
        ensures whole { result.script.bytes.now ≡ script.entry.bytes.now }
        ensures first { result.at ≡ 0 }
        ensures none_read { result.number ≡ 0 }
    {
        Records {
            script,
            at: 0,
            number: 0,
        }
    }

    /// Whether no record is left.
    pub(crate) fn is_empty(&self) -> bool
        ensures { result ≡ nat_le (length self.now.script.bytes.now) self.now.at }
    {
        self.at >= self.script.bytes.len()
    }

    /// Reads the next record.
    pub(crate) fn read(&mut self) -> Record
        requires { self.old.at < length self.old.script.bytes.now }
        ensures { Follows self.old.script.bytes.now self.old result self.new }
    {
        let at = self.at;
        let read = read_step(self.script.bytes, at);
        self.at = read.map_or(self.script.bytes.len(), |read| read.next);
        self.number += 1;
        Record {
            number: self.number,
            at,
            read,
        }
    }
}

impl Iterator for Records<'_> {
    ghost use Rattle.std.specs.Prelude.{◌-◌};
    ghost use Rattle.std.specs.Iterator.{at_most};
    ghost use Rattle.runner.specs.Following.{NextRecord};

    type Item = Record;

    ghost next_gives = { NextRecord };

    ghost remaining = { λ s. at_most (length s.script.bytes.now - s.at) };

    fn next(&mut self) -> Option<Record> {
        if self.is_empty() {
            return None;
        }
        Some(self.read())
    }
}
