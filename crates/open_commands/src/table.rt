//! Searches over the open commands of a line.
ghost use Rattle.std.specs.Prelude.{◌≡◌, ◌+◌, ◌<◌, IfSome, Some, length};
ghost use Rattle.open_commands.specs.Lists.{MissTo};
ghost use Rattle.open_commands.specs.Places.{FoundAt, all_pass, improves_on, BestTo, EarliestAt};
ghost use Rattle.open_commands.specs.Views.{number_of};
ghost use Rattle.std.specs.List.{slice_get};

use crate::open_command::earlier;
use crate::parts::{MEMBERS, OpenCommand};
use machine::command::Command;
use machine::kind::Machine;

/// The place of the command with the number.
pub fn place_of(commands: &[OpenCommand], number: u64) -> Option<usize>
    ensures found { FoundAt commands.now number result }
    ensures first { IfSome result (λ place. MissTo number_of commands.now number place) }
{
    commands.iter().position(|command| command.number == number)
}

// Slice and member go through three private functions: a struct of the two would be taken apart in each.

/// Whether every open command lets one with the pair pass at the member.
fn all_pass<M: Machine>(
    commands: &[OpenCommand],
    member: usize,
    pair: (u64, u64),
    command: Command,
) -> bool
    ensures { result ≡ all_pass M.kind member pair command commands.now }
{
    commands
        .iter()
        .all(|other| other.lets_pass::<M>(member, pair, command))
}

/// The earliest ready command so far: its place, and its final timestamp and issue number.
#[derive(Clone, Copy)]
pub struct Candidate {
    pub place: usize,
    pub pair: (u64, u64),
}

/// Whether a pair is earlier than that of the best candidate so far.
fn improves(best: Option<Candidate>, pair: (u64, u64)) -> bool
    ensures { result ≡ improves_on best pair }
{
    best.is_none_or(|candidate| earlier(pair, candidate.pair))
}

/// The best candidate with the command at the place taken into account.
fn better<M: Machine>(
    commands: &[OpenCommand],
    member: usize,
    place: usize,
    command: &OpenCommand,
    best: Option<Candidate>,
) -> Option<Candidate>
    requires { slice_get commands.now place ≡ Some command.now }
    ensures { BestTo M.kind member commands.now place best → BestTo M.kind member commands.now (place + 1) result }
{
    let Some(timestamp) = command.settled(member) else {
        return best;
    };
    let pair = (timestamp, command.number);
    if !improves(best, pair) {
        return best;
    }
    if !all_pass::<M>(commands, member, pair, command.command) {
        return best;
    }
    Some(Candidate { place, pair })
}

/// The earliest ready command at a member that a line can have.
fn earliest_at<M: Machine>(commands: &[OpenCommand], member: usize) -> Option<Candidate>
    ensures { BestTo M.kind member commands.now (length commands.now) result }
{
    // A for loop: a fold would hand the same values on through a closure.
    let mut best = None;
    for (place, command) in commands.iter().enumerate() {
        best = better::<M>(commands, member, place, command, best);
    }
    best
}

/// The earliest ready command at the member, and none past the last member that a line can have.
pub fn earliest_ready<M: Machine>(commands: &[OpenCommand], member: usize) -> Option<Candidate>
    ensures { EarliestAt M.kind member commands.now result }
{
    if member >= MEMBERS {
        return None;
    }
    earliest_at::<M>(commands, member)
}
