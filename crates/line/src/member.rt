//! A member: its clock and the commands that it remembers.
ghost use Rattle.std.specs.Prelude.{◌≡◌, ◌+◌, ◌^◌, ◌<◌, true, false, length};
ghost use Rattle.line.specs.Views.{new_seat, memory, any_clash, any_number, rises_in, proposal_in, lift_in, remember_in, hear_in, settle_in};

use crate::fixed_list::FixedList;
use crate::parts::{Member, Remembered};
use machine::command::Command;
use machine::kind::Machine;

/// Whether a remembered command conflicts with the command.
fn conflicts<M: Machine>(remembered: &[Remembered], command: Command) -> bool
    ensures { result ≡ any_clash M.kind command remembered.now }
{
    // A for loop, and not any: this form is a wanted one (docs/DECISIONS.md).
    for held in remembered {
        if M::conflict(held.command, command) {
            return true;
        }
    }
    false
}

impl Member {
    /// A member at clock 0 that remembers nothing.
    pub(crate) fn new() -> Member
        ensures { result ≡ new_seat }
    {
        let nothing = Remembered {
            number: 0,
            command: Command::Set { axis: 0, value: 0 },
        };
        Member {
            clock: 0,
            remembered: FixedList::new(nothing),
        }
    }

    /// Whether the clock has to rise before the command is heard: the memory is full, or a remembered command conflicts.
    fn rises<M: Machine>(&self, command: Command) -> bool
        ensures { result ≡ rises_in M.kind self.now command }
    {
        self.remembered.is_full() || conflicts::<M>(self.remembered.as_slice(), command)
    }

    /// Whether the member remembers the number.
    fn remembers(&self, number: u64) -> bool
        ensures { result ≡ any_number number (memory self.now) }
    {
        self.remembered
            .as_slice()
            .iter()
            .any(|held| held.number == number)
    }

    fn remember(&mut self, held: Remembered)
        requires { length (memory self.old) < 16 }
        ensures { self.new ≡ remember_in self.old held.number held.command }
    {
        self.remembered.push(held);
    }

    /// The timestamp that the member proposes for the command: the clock, one on where it has to rise first.
    pub(crate) fn proposal<M: Machine>(&self, command: Command) -> u64
        requires { self.now.clock + 1 < 2 ^ 64 }
        ensures { result ≡ proposal_in M.kind self.now command }
    {
        if self.rises::<M>(command) {
            self.clock + 1
        } else {
            self.clock
        }
    }

    /// Brings the clock to the timestamp. Where that lifts it, the remembered ones are dropped.
    fn lift(&mut self, timestamp: u64)
        ensures { self.new ≡ lift_in self.old timestamp }
    {
        if self.clock < timestamp {
            self.clock = timestamp;
            self.remembered.clear();
        }
    }

    /// Hears the command, with the timestamp that the member proposes for it.
    pub(crate) fn hear(&mut self, heard: Remembered, timestamp: u64)
        requires { length (memory (lift_in self.old timestamp)) < 16 }
        ensures { self.new ≡ hear_in self.old heard.number heard.command timestamp }
    {
        self.lift(timestamp);
        self.remember(heard);
    }

    /// The final timestamp of the command arrives.
    pub(crate) fn settle(&mut self, settled: Remembered, timestamp: u64)
        requires { self.old.clock + 1 < 2 ^ 64 }
        ensures { self.new ≡ settle_in self.old settled.number settled.command timestamp }
    {
        if self.clock < timestamp {
            self.lift(timestamp);
            self.remember(settled);
        } else if timestamp == self.clock && !self.remembers(settled.number) {
            if self.remembered.is_full() {
                self.clock += 1;
                self.remembered.clear();
            } else {
                self.remember(settled);
            }
        }
    }
}
