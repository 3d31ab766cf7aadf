//! The calls of a line.
ghost use Rattle.std.specs.Prelude.{◌≡◌, [], None};
ghost use Rattle.std.specs.List.{slice_get};
ghost use Rattle.line.specs.Books.{view_line};
ghost use Rattle.line.specs.Counts.{member_count};
ghost use Rattle.line.specs.Promises.{Answers, KeptIf, cells_after};
ghost use Rattle.ordering.specs.declared.calls.Call.TheVariants.{Open, Send, Hear, Gather, Settle, Run};
ghost use Rattle.ordering.specs.Histories.{opening, sending, hearing, gathering, settling, running};
ghost use Rattle.ordering.specs.Lines.{closed};
ghost use Rattle.ordering.specs.Worlds.{after, step};

use super::{Line, Station};
use crate::book::Book;
use machine::command::Command;
use machine::kind::Machine;
use ordering::calls::Refusal;
use std::marker::PhantomData;

// Each call borrows the open line by itself: a function that lends it would have to promise what its loan leaves.
impl<M: Machine> Line<M> {
    /// A closed line.
    pub fn new() -> Line<M>
        ensures closed { view_line result.book ≡ closed }
        ensures leads { (after M.kind []).line ≡ view_line result.book }
    {
        Line {
            book: None,
            kind: PhantomData,
        }
    }

    /// How many members the line has, or 0 while it is closed.
    pub fn members(&self) -> u8
        ensures { result ≡ member_count (view_line self.now.book) }
    {
        self.book.as_ref().map_or(0, |book| book.tables.members)
    }

    /// Opens the line for `members` members, 1 to 16, and issue numbers up to `last`, 1 to 2^48.
    pub fn open(&mut self, members: u8, last: u64) -> Result<(), Refusal>
        ensures steps { Answers M.kind (view_line self.old.book) (Open members last) (opening members last result) (view_line self.new.book) }
        ensures kept { KeptIf result self.old self.new }
    {
        if self.book.is_some() {
            return Err(Refusal::AlreadyOpen);
        }
        self.book = Some(Book::new(members, last)?);
        Ok(())
    }

    /// Sends the command to the members of the set; answers its issue number.
    pub fn send(&mut self, sender: u8, set: u16, command: Command) -> Result<u64, Refusal>
        ensures steps { Answers M.kind (view_line self.old.book) (Send sender set command) (sending sender set command result) (view_line self.new.book) }
        ensures kept { KeptIf result self.old self.new }
    {
        let book = self.book.as_mut().ok_or(Refusal::Closed)?;
        book.send(sender, set, command)
    }

    /// Hears the command at the member; answers the proposal.
    pub fn hear(&mut self, member: u8, number: u64) -> Result<u64, Refusal>
        ensures steps { Answers M.kind (view_line self.old.book) (Hear member number) (hearing member number result) (view_line self.new.book) }
        ensures kept { KeptIf result self.old self.new }
    {
        let book = self.book.as_mut().ok_or(Refusal::Closed)?;
        book.hear::<M>(member, number)
    }

    /// Gathers the member's proposal; the last gather of a command answers its final timestamp.
    pub fn gather(&mut self, member: u8, number: u64) -> Result<Option<u64>, Refusal>
        ensures steps { Answers M.kind (view_line self.old.book) (Gather member number) (gathering member number result) (view_line self.new.book) }
        ensures kept { KeptIf result self.old self.new }
    {
        let book = self.book.as_mut().ok_or(Refusal::Closed)?;
        book.gather(member, number)
    }

    /// Settles the command at the member with its final timestamp; answers the clock afterwards.
    pub fn settle(&mut self, member: u8, number: u64) -> Result<u64, Refusal>
        ensures steps { Answers M.kind (view_line self.old.book) (Settle member number) (settling member number result) (view_line self.new.book) }
        ensures kept { KeptIf result self.old self.new }
    {
        let book = self.book.as_mut().ok_or(Refusal::Closed)?;
        book.settle(member, number)
    }

    /// Runs the earliest ready command of the station's member on its machine; answers its final timestamp and issue
    /// number.
    pub fn run(&mut self, station: &mut Station<M>) -> Result<(u64, u64), Refusal>
        ensures steps { Answers M.kind (view_line self.old.book) (Run station.old.member) (running station.old.member result) (view_line self.new.book) }
        ensures kept { KeptIf result self.old self.new }
        ensures moves { M.cells station.new.machine ≡ cells_after M.kind (step M.kind (view_line self.old.book) (Run station.old.member)).move (M.cells station.old.machine) }
        ensures stays { station.new.member ≡ station.old.member }
        ensures idle { KeptIf result station.old station.new }
    {
        let book = self.book.as_mut().ok_or(Refusal::Closed)?;
        let taken = book.run::<M>(station.member)?;
        station.machine.run(taken.command);
        Ok(taken.pair)
    }
}

impl<M: Machine> Station<M> {
    /// The member's station, with a freshly started machine.
    pub fn new(member: u8) -> Station<M>
        ensures of { result.member ≡ member }
        ensures started { M.cells result.machine ≡ M.kind.starting }
        ensures leads { (after M.kind []).cells member ≡ M.cells result.machine }
    {
        Station {
            member,
            machine: M::start(),
        }
    }

    /// Whose station it is.
    pub fn member(&self) -> u8
        ensures { result ≡ self.now.member }
    {
        self.member
    }

    /// The cell at `i`, or none past the last.
    pub fn read(&self, i: usize) -> Option<u32>
        ensures { result ≡ slice_get (M.cells self.now.machine) i }
    {
        self.machine.read(i)
    }
}
