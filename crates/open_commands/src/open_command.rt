//! An open command, as a line holds it.
ghost use Rattle.std.specs.Prelude.{if◌then◌else◌, None, ◌≡◌, ◌<◌, ◌&&◌, set, Some, nat_lt};
ghost use Rattle.open_commands.specs.Views.{new_place, phase_in, with_phase_in, with_fixed_in, view_open, gathered_at, done_at};
ghost use Rattle.ordering.specs.Lines.{everywhere, is_run, standing};
ghost use Rattle.ordering.specs.Searches.{earlier, names};
ghost use Rattle.ordering.specs.Steps.{final_of, settled_as, passes};

use crate::parts::{Address, Destination, MEMBERS, OpenCommand};
use machine::command::Command;
use machine::kind::Machine;
use ordering::calls::Phase;

/// Moves the member's destination to another phase.
fn move_to(destinations: &mut [Destination], member: usize, phase: Phase)
    ensures { destinations.new ≡ set destinations.old member (record { phase = phase }) }
{
    // An index, since what a slice's get_mut lends leaves nothing known of the elements.
    if member < destinations.len() {
        destinations[member].phase = phase;
    }
}

impl OpenCommand {
    /// A command that no destination has heard.
    pub fn new(number: u64, address: Address, command: Command) -> OpenCommand
        ensures { result ≡ new_place number address command }
    {
        OpenCommand {
            number,
            address,
            command,
            fixed: None,
            destinations: [Destination { phase: Phase::Sent }; MEMBERS],
        }
    }

    /// Whether the member is a destination.
    pub fn is_for(&self, member: usize) -> bool
        ensures { result ≡ (nat_lt member 16 && names self.now.address.set member) }
    {
        self.address.names(member)
    }

    /// How the command stands at the member.
    pub fn phase(&self, member: usize) -> Phase
        ensures { result ≡ phase_in self.now.destinations member }
    {
        self.destinations
            .get(member)
            .map_or(Phase::Sent, |destination| destination.phase)
    }

    /// Moves the member's destination to another phase.
    pub fn put_phase(&mut self, member: usize, phase: Phase)
        ensures { self.new ≡ with_phase_in self.old member phase }
    {
        move_to(&mut self.destinations, member, phase);
    }

    /// How the command stands at the member, if the member is a destination.
    fn phase_at(&self, member: usize) -> Option<Phase>
        ensures { result ≡ (if names self.now.address.set member then Some (phase_in self.now.destinations member) else None) }
    {
        let is_named = self.address.names(member);
        is_named.then(|| self.phase(member))
    }

    /// The member's proposal once it is gathered, and 0 where it is no destination.
    fn gathered(&self, member: usize) -> Option<u64>
        ensures { result ≡ gathered_at (view_open self.now) member }
    {
        match self.phase_at(member) {
            None => Some(0),
            Some(Phase::Gathered(proposal)) => Some(proposal),
            Some(_) => None,
        }
    }

    /// The greatest proposal, once every destination is gathered.
    fn final_timestamp(&self) -> Option<u64>
        ensures { result ≡ final_of (view_open self.now) }
    {
        // A for loop: try_fold would want a closure that wraps each maximum in Some.
        let mut greatest = 0;
        for q in 0..MEMBERS {
            greatest = greatest.max(self.gathered(q)?);
        }
        Some(greatest)
    }

    /// Fixes the final timestamp once every destination is gathered, and answers it.
    pub fn fix(&mut self) -> Option<u64>
        ensures value { result ≡ final_of (view_open self.old) }
        ensures after { self.new ≡ with_fixed_in self.old (final_of (view_open self.old)) }
    {
        let timestamp = self.final_timestamp();
        self.fixed = timestamp;
        timestamp
    }

    /// Whether the member has run the command or is no destination.
    fn is_done(&self, member: usize) -> bool
        ensures { result ≡ done_at (view_open self.now) member }
    {
        self.phase_at(member)
            .is_none_or(|phase| matches!(phase, Phase::Run))
    }

    /// Whether every destination has run.
    pub fn has_run(&self) -> bool
        ensures { result ≡ everywhere is_run (view_open self.now) }
    {
        (0..MEMBERS).all(|member| self.is_done(member))
    }

    /// Where the command stands at the member, if the member has heard and not run it.
    fn standing(&self, member: usize) -> Option<u64>
        ensures { result ≡ standing (view_open self.now) member }
    {
        match self.phase_at(member)? {
            Phase::Heard(proposal) | Phase::Gathered(proposal) => Some(proposal),
            Phase::Settled => self.fixed,
            Phase::Sent | Phase::Run => None,
        }
    }

    /// The final timestamp, if it has reached the member and the member has not run the command.
    pub(crate) fn settled(&self, member: usize) -> Option<u64>
        ensures { result ≡ settled_as member (Some (view_open self.now)) }
    {
        match self.phase_at(member)? {
            Phase::Settled => self.fixed,
            _ => None,
        }
    }

    /// Whether this command lets another one with the pair pass at the member: it is that one, or the member has not
    /// heard it or has run it, or it stands later, or the two do not conflict.
    pub(crate) fn lets_pass<M: Machine>(
        &self,
        member: usize,
        pair: (u64, u64),
        command: Command,
    ) -> bool
        ensures { result ≡ passes M.kind member pair command self.now.number (Some (view_open self.now)) }
    {
        if self.number == pair.1 {
            return true;
        }
        self.standing(member).is_none_or(|timestamp| {
            earlier(pair, (timestamp, self.number)) || !M::conflict(command, self.command)
        })
    }
}

/// Whether the first pair of timestamp and issue number is the earlier one.
pub(crate) fn earlier(a: (u64, u64), b: (u64, u64)) -> bool
    ensures { result ≡ earlier a b }
{
    // Part by part, and not by the tuples' own order: this form is a wanted one (docs/DECISIONS.md).
    a.0 < b.0 || (a.0 == b.0 && a.1 < b.1)
}
