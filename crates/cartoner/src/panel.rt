//! How a person reads the cells of each kind of machine.
ghost use Rattle.std.specs.Prelude.{◌<◌};

use crate::reading::{Entry, NoCommand, cell};
use crate::words::InWords;
use line::state::Station;
use machine::axis_bank::AxisBank;
use machine::command::Command;
use machine::kind::Machine;
use machine::recorder::Recorder;
use machine::tally::Tally;
use std::alloc::{AllocError, Global};

/// A kind of machine whose cells can be shown, a reading to a row.
pub(crate) trait Panel: Machine + Drop {
    /// What the kind is called.
    const NAME: &'static str;

    /// What its cells tell.
    const MEANING: &'static str;

    /// What the readings are called.
    const READINGS: &'static [&'static str];

    /// The reading of a station at the row: the cell there, where the kind says no other.
    fn reading(heap: Global, station: &Station<Self>, row: usize) -> Result<String, AllocError> {
        cell(station, row).to_string(heap)
    }
}

impl Panel for AxisBank {
    const NAME: &'static str = "Axis bank";

    const MEANING: &'static str = "the position of each axis";

    const READINGS: &'static [&'static str] = &[
        "film", "flap", "pusher", "axis 3", "axis 4", "axis 5", "axis 6", "axis 7",
    ];
}

/// How many commands a recorder keeps.
const KEPT: usize = 8;

/// The command that a recorder keeps at the place, in words.
fn kept<M: Machine>(heap: Global, recorder: &Station<M>, place: usize) -> Result<String, AllocError>
    requires { place < 8 }
{
    match Command::try_from(Entry::at(recorder, place)) {
        Ok(command) => InWords(command).to_string(heap),
        Err(NoCommand) => "none".to_string(heap),
    }
}

impl Panel for Recorder {
    const NAME: &'static str = "Recorder";

    const MEANING: &'static str = "how many commands ran, and the latest eight";

    const READINGS: &'static [&'static str] = &[
        "count",
        "latest",
        "2nd latest",
        "3rd latest",
        "4th latest",
        "5th latest",
        "6th latest",
        "7th latest",
        "8th latest",
    ];

    fn reading(heap: Global, station: &Station<Self>, row: usize) -> Result<String, AllocError> {
        match row {
            1..=KEPT => kept(heap, station, row - 1),
            _ => cell(station, 0).to_string(heap),
        }
    }
}

impl Panel for Tally {
    const NAME: &'static str = "Tally";

    const MEANING: &'static str = "how many commands of each class ran";

    const READINGS: &'static [&'static str] = &["sets", "shifts", "couples", "marks"];
}
