//! The tables of an open line, place by place.
ghost use Rattle.std.specs.Prelude.{◌≡◌, ◌<◌, Some, length};
ghost use Rattle.std.specs.List.{slice_get};
ghost use Rattle.open_commands.specs.declared.parts.OpenCommand.{OpenCommand as Place};
ghost use Rattle.open_commands.specs.Views.{view_open, with_phase_in, with_fixed_in};
ghost use Rattle.line.specs.Tables.{live, with_place};
ghost use Rattle.line.specs.Calls.{EmptyTables, Releases};
ghost use Rattle.ordering.specs.Steps.{final_of};

use crate::fixed_list::FixedList;
use crate::parts::{Member, Tables};
use machine::command::Command;
use open_commands::parts::{Address, OpenCommand};
use ordering::calls::Phase;
use std::array;

// That a place is below the length is asked by each function: it binds two values, so neither type can carry it.
impl Tables {
    pub(crate) fn empty(members: u8, last: u64) -> Tables
        ensures { EmptyTables members last result }
    {
        let nothing = OpenCommand::new(0, Address::first(), Command::Mark { code: 0 });
        Tables {
            members,
            last,
            issued: 0,
            commands: FixedList::new(nothing),
            roll: array::from_fn(|_| Member::new()),
        }
    }

    /// Moves one destination of the command at the place to another phase.
    // It reaches into the list, as fix does: an element of an array that a method lends gets no proof yet.
    pub(crate) fn put_phase(&mut self, place: usize, member: usize, phase: Phase)
        requires { place < length (live self.old) }
        ensures { (p : Place) → slice_get (live self.old) place ≡ Some p → self.new ≡ with_place self.old place (with_phase_in p member phase) }
    {
        let commands = &mut self.commands;
        let open = &mut commands.places[..commands.len];
        open[place].put_phase(member, phase);
    }

    /// Fixes the final timestamp of the command at the place once every destination is gathered.
    pub(crate) fn fix(&mut self, place: usize) -> Option<u64>
        requires { place < length (live self.old) }
        ensures { (p : Place) → slice_get (live self.old) place ≡ Some p → (result ≡ final_of (view_open p)) × (self.new ≡ with_place self.old place (with_fixed_in p (final_of (view_open p)))) }
    {
        let commands = &mut self.commands;
        let open = &mut commands.places[..commands.len];
        open[place].fix()
    }

    /// A command that has run everywhere leaves its place, and the last open command takes it.
    pub(crate) fn release(&mut self, place: usize)
        requires { place < length (live self.old) }
        ensures { Releases self.old place self.new }
    {
        if self.commands.at(place).has_run() {
            self.commands.swap_remove(place);
        }
    }
}
