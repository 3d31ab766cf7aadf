//! Many commands through one line, with every place of the line in use, and what was counted.
#![tactic(auto)]

mod counts;
mod drive;
mod load;

use drive::{Drive, MEMBERS};
use line::state::Station;
use load::BATCH;
use machine::axis_bank::AxisBank;
use machine::kind::Machine;
use machine::tally::Tally;
use std::io;

/// How many batches go through the line of tallies: a million commands.
const TALLY_BATCHES: u64 = 31_250;

/// How many batches go through the line of axis banks: a hundred thousand commands.
const BANK_BATCHES: u64 = 3_125;

/// Prints the cells of a station.
fn show_cells<M: Machine>(rt: &HostRuntime, station: &Station<M>) -> io::Result<()> {
    print!(rt; "     cells of member {}:", station.member())?;
    for cell in (0..M::CELLS).filter_map(|i| station.read(i)) {
        print!(rt; " {cell}")?;
    }
    rt.println("")
}

/// Takes the batches through a line of four members, and prints what was counted. With b batches:
///
/// - 32 b commands are sent, and each of the four steps is done 4 times for each of them, once for each member; one
///   gather of each command fixes its final timestamp.
/// - One send too many in each batch finds the table full. In the last batch the numbers are used up as well, which
///   is told first. One run too many for each member and batch finds nothing ready.
/// - On tallies a batch takes every clock on by 2. Nothing conflicts, so the clock rises at a hear only where 16
///   commands are remembered: once in the batch, as the memory is empty before it. No command is among the first 16 at
///   every member, so all final timestamps are at that clock. The first settle of one that is no longer remembered
///   finds 16 others: the clock rises again and the memory is empty.
/// - On axis banks a batch takes every clock on by 8. Each of the 8 Couples conflicts with the Shift that was heard
///   just before it; nothing else conflicts, since that drops each Set before the next one is heard.
///   After the batch 8 commands at most are remembered: those whose final timestamp is the clock.
/// - Each member runs 8 commands of each class in a batch, and shifts each axis by 1.
fn soak<M: Machine>(
    rt: &HostRuntime,
    name: &str,
    stations: &mut [Station<M>],
    batches: u64,
) -> io::Result<()> {
    println!(rt; "{name}: {batches} batches of {BATCH} commands, each to {MEMBERS} members")?;
    let mut drive = Drive::new();
    drive.open(stations, batches.wrapping_mul(BATCH));
    drive.pass_batches(stations, batches);
    println!(rt; "{}", drive.counts)?;
    for station in stations.iter() {
        show_cells(rt, station)?;
    }
    Ok(())
}

fn main(rt: HostRuntime) -> io::Result<()> {
    let mut tallies: [Station<Tally>; 4] = [0, 1, 2, 3].map(Station::new);
    soak(&rt, "Tally", &mut tallies, TALLY_BATCHES)?;
    let mut banks: [Station<AxisBank>; 4] = [0, 1, 2, 3].map(Station::new);
    soak(&rt, "Axis bank", &mut banks, BANK_BATCHES)
}
