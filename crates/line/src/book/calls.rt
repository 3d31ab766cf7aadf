//! What a call does to an open line.
ghost use Rattle.std.specs.Prelude.{◌≡◌};
ghost use Rattle.line.specs.Books.{view_book};
ghost use Rattle.line.specs.Calls.{Opens, Does, Runs};
ghost use Rattle.line.specs.Places.{Reaches};
ghost use Rattle.ordering.specs.Steps.{send, hear, gather, settle, run};

use super::Book;
use crate::parts::{LAST_NUMBER, Remembered, Tables};
use machine::command::Command;
use machine::kind::Machine;
use open_commands::parts::{Address, MEMBERS, OpenCommand};
use open_commands::phases::{Step, next_phase};
use open_commands::table::{earliest_ready, place_of};
use ordering::calls::{Phase, Refusal};

/// What a run takes: the pair that it answers, and the command that the machine is to run.
#[derive(Clone, Copy)]
pub(crate) struct Taken {
    pub(crate) pair: (u64, u64),
    pub(crate) command: Command,
}

impl Book {
    /// A line without commands, once the member count is 1 to 16 and the last issue number is 1 to 2^48.
    pub(crate) fn new(members: u8, last: u64) -> Result<Book, Refusal>
        ensures { Opens members last result }
    {
        if members == 0 || usize::from(members) > MEMBERS {
            return Err(Refusal::BadMemberCount);
        }
        if last == 0 || last > LAST_NUMBER {
            return Err(Refusal::BadLastNumber);
        }
        Ok(Book {
            tables: Tables::empty(members, last),
        })
    }

    /// The place of the command with the number, of which the member is a destination.
    // Member and number are a call's own operands, in its words, so no struct binds them.
    fn reach(&self, member: u8, number: u64) -> Result<usize, Refusal>
        ensures { Reaches self.now.tables member number result }
    {
        if member >= self.tables.members {
            return Err(Refusal::NoMember);
        }
        let commands = self.tables.commands.as_slice();
        let place = place_of(commands, number).ok_or(Refusal::NoCommand)?;
        if !commands[place].is_for(usize::from(member)) {
            return Err(Refusal::NoDestination);
        }
        Ok(place)
    }

    pub(crate) fn send(&mut self, sender: u8, set: u16, command: Command) -> Result<u64, Refusal>
        ensures { Does (send (view_book self.old) sender set command) self.old result self.new }
    {
        let address = Address::new(sender, set, self.tables.members)?;
        if self.tables.issued >= self.tables.last {
            return Err(Refusal::NumbersUsedUp);
        }
        if self.tables.commands.is_full() {
            return Err(Refusal::TableFull);
        }
        let tables = &mut self.tables;
        let number = tables.issued + 1;
        tables
            .commands
            .push(OpenCommand::new(number, address, command));
        tables.issued = number;
        Ok(number)
    }

    pub(crate) fn hear<M: Machine>(&mut self, member: u8, number: u64) -> Result<u64, Refusal>
        ensures { Does (hear M.kind (view_book self.old) member number) self.old result self.new }
    {
        let place = self.reach(member, number)?;
        let member = usize::from(member);
        let open = self.tables.commands.at(place);
        let command = open.command;
        let phase = open.phase(member);
        let proposal = self.tables.roll[member].proposal::<M>(command);
        let phase = next_phase(phase, Step::Hear(proposal))?;
        let tables = &mut self.tables;
        tables.put_phase(place, member, phase);
        tables.roll[member].hear(Remembered { number, command }, proposal);
        Ok(proposal)
    }

    pub(crate) fn gather(&mut self, member: u8, number: u64) -> Result<Option<u64>, Refusal>
        ensures { Does (gather (view_book self.old) member number) self.old result self.new }
    {
        let place = self.reach(member, number)?;
        let member = usize::from(member);
        let open = self.tables.commands.at(place);
        let phase = next_phase(open.phase(member), Step::Gather)?;
        let tables = &mut self.tables;
        tables.put_phase(place, member, phase);
        Ok(tables.fix(place))
    }

    pub(crate) fn settle(&mut self, member: u8, number: u64) -> Result<u64, Refusal>
        ensures { Does (settle (view_book self.old) member number) self.old result self.new }
    {
        let place = self.reach(member, number)?;
        let member = usize::from(member);
        let open = self.tables.commands.at(place);
        let command = open.command;
        let fixed = open.fixed;
        let phase = next_phase(open.phase(member), Step::Settle(fixed))?;
        // Whether it is fixed is for next_phase to refuse: one match on phase and step is a wanted form.
        let timestamp = fixed.unwrap();
        let tables = &mut self.tables;
        tables.put_phase(place, member, phase);
        tables.roll[member].settle(Remembered { number, command }, timestamp);
        Ok(tables.roll[member].clock)
    }

    pub(crate) fn run<M: Machine>(&mut self, member: u8) -> Result<Taken, Refusal>
        ensures { Runs (run M.kind (view_book self.old) member) self.old result self.new }
    {
        if member >= self.tables.members {
            return Err(Refusal::NoMember);
        }
        let member = usize::from(member);
        let commands = &self.tables.commands;
        let earliest = earliest_ready::<M>(commands.as_slice(), member).ok_or(
            Refusal::NothingReady,
        )?;
        let command = commands.at(earliest.place).command;
        let tables = &mut self.tables;
        tables.put_phase(earliest.place, member, Phase::Run);
        tables.release(earliest.place);
        Ok(Taken {
            pair: earliest.pair,
            command,
        })
    }
}
