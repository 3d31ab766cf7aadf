//! One carton cycle on a line of each kind of machine, for a person to read.
#![tactic(auto)]

ghost use Rattle.std.specs.Prelude.{◌<◌};

mod conflicts;
mod cycle;
mod panel;
mod reading;
mod refused;
mod traffic;
mod words;

use conflicts::{neighbours_in_conflict, sign};
use cycle::carton_cycle;
use line::state::Station;
use machine::axis_bank::AxisBank;
use machine::command::Command;
use machine::recorder::Recorder;
use machine::tally::Tally;
use panel::Panel;
use std::io;
use traffic::{Member, Passage, Traffic};
use words::{InWords, Stamp};

/// The size of the bursts in which the commands reach member 0: as they are issued.
const ONE_BY_ONE: usize = 1;

/// The size of the bursts in which the commands reach member 1.
const BY_THREES: usize = 3;

/// Prints the start of a table's heading, as wide as `print_command` makes the start of a row.
fn print_heading(rt: &HostRuntime) -> io::Result<()> {
    print!(rt; "  #  {:<28}", "command")
}

/// Prints a command and its number as the start of a row.
fn print_command(rt: &HostRuntime, number: u64, command: Command) -> io::Result<()> {
    let said = InWords(command).to_string(rt.alloc())?;
    print!(rt; "{number:>3}  {said:<28}")
}

/// Prints which of the commands conflict, as a matrix.
fn show_conflicts<M: Panel>(rt: &HostRuntime, commands: &[Command]) -> io::Result<()> {
    let name = M::NAME;
    println!(rt; "\n{name}: x where two commands conflict, and so have to run in one order")?;
    print_heading(rt)?;
    for number in 1..=commands.len() {
        print!(rt; "{number:>3}")?;
    }
    rt.println("")?;
    for (i, row) in commands.iter().enumerate() {
        print_command(rt, i as u64 + 1, *row)?;
        for column in commands {
            print!(rt; "{:>3}", sign::<M>(*row, *column))?;
        }
        rt.println("")?;
    }
    Ok(())
}

/// Prints how many neighbours among the commands conflict on a kind of machine.
fn show_neighbours<M: Panel>(rt: &HostRuntime, commands: &[Command]) -> io::Result<()> {
    let name = M::NAME;
    let count = neighbours_in_conflict::<M>(commands);
    println!(rt; "     {name:<9}{count:>4}")
}

/// Prints what the line has answered about a command.
fn show_passage(rt: &HostRuntime, passage: &Passage) -> io::Result<()> {
    print_command(rt, passage.number, passage.command)?;
    print!(rt; "{:>6}", passage.sender)?;
    for proposal in passage.proposals {
        print!(rt; "{:>12}", Stamp(proposal).to_string(rt.alloc())?)?;
    }
    println!(rt; "{:>7}", Stamp(passage.timestamp).to_string(rt.alloc())?)
}

/// Prints what the line has answered about each command.
fn show_passages(rt: &HostRuntime, passages: &[Passage]) -> io::Result<()> {
    print_heading(rt)?;
    println!(rt; "sender  proposal 0  proposal 1  final")?;
    for passage in passages {
        show_passage(rt, passage)?;
    }
    Ok(())
}

/// Runs the commands at the member, and prints the pair of each.
fn show_run<M: Panel>(
    rt: &HostRuntime,
    traffic: &mut Traffic<M>,
    member: &mut Member<M>,
) -> anyhow::Result<()> {
    print!(rt; "     member {} ", member.station.member())?;
    for (timestamp, number) in traffic.run_all(rt.alloc(), member)? {
        print!(rt; " ({timestamp},{number})")?;
    }
    rt.println("")?;
    Ok(())
}

/// Prints the readings of both stations side by side.
fn show_readings<M: Panel>(
    rt: &HostRuntime,
    first: &Station<M>,
    second: &Station<M>,
) -> io::Result<()> {
    println!(rt; "     {:<12}{:<28}member 1", "at the end", "member 0")?;
    for (row, name) in M::READINGS.iter().enumerate() {
        let left = M::reading(rt.alloc(), first, row)?;
        let right = M::reading(rt.alloc(), second, row)?;
        println!(rt; "     {name:<12}{left:<28}{right}")?;
    }
    Ok(())
}

/// Takes the commands through a line of two stations, and prints how each step went.
fn show_line<M: Panel>(rt: &HostRuntime, commands: &[Command]) -> anyhow::Result<()> {
    println!(rt; "\n{}: {}", M::NAME, M::MEANING)?;
    let mut first = Member::<M>::new(0, ONE_BY_ONE);
    let mut second = Member::<M>::new(1, BY_THREES);
    let mut traffic = Traffic::open(rt.alloc(), &mut first)?;
    traffic.send_all(&mut first, commands)?;
    traffic.hear_all(&mut first)?;
    traffic.hear_all(&mut second)?;
    traffic.gather_all(&mut first)?;
    traffic.gather_all(&mut second)?;
    show_passages(rt, &traffic.passages)?;
    println!(rt; "Commands in the order in which each member ran them, as (final,#):")?;
    show_run(rt, &mut traffic, &mut first)?;
    show_run(rt, &mut traffic, &mut second)?;
    show_readings(rt, &first.station, &second.station)?;
    Ok(())
}

/// Prints the whole cycle, on each kind of machine.
fn show(rt: &HostRuntime) -> anyhow::Result<()> {
    let cycle = carton_cycle();
    let count = cycle.len();
    println!(rt;
        "One carton cycle of {count} commands, sent to both members of a line by each in turn"
    )?;
    println!(rt;
        "Member 0 hears the commands as they are issued, member 1 in threes, the newest first"
    )?;
    show_conflicts::<AxisBank>(rt, &cycle)?;
    let pairs = count - 1;
    println!(rt; "\nNeighbouring pairs in conflict, of {pairs}:")?;
    show_neighbours::<AxisBank>(rt, &cycle)?;
    show_neighbours::<Recorder>(rt, &cycle)?;
    show_neighbours::<Tally>(rt, &cycle)?;
    show_line::<AxisBank>(rt, &cycle)?;
    show_line::<Recorder>(rt, &cycle)?;
    show_line::<Tally>(rt, &cycle)
}

fn main(rt: HostRuntime) -> anyhow::Result<()> {
    show(&rt)
}
