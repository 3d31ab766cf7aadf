//! Sixteen stations with machines of the kind AxisBank.
ghost use Rattle.stations.specs.Together.{OneEach, held_by};

use crate::any_kind::{ask_at, fresh_stations, read_at};
use crate::interface::Stations;
use line::state::{Line, Station};
use machine::axis_bank::AxisBank;
use machine::kind::Machine;
use open_commands::parts::MEMBERS;
use ordering::calls::{Answer, Call, Refusal};

/// One station for each member that a line can have, in the order of the members.
// A type for this kind, and no generic one: a plain array for each made kind is a wanted form (docs/DECISIONS.md).
#[derive(Drop)]
pub struct AxisStations {
    at: [Station<AxisBank>; MEMBERS],
    ghost each: { OneEach at },
}

impl Stations for AxisStations {
    type Kind = AxisBank;

    ghost held = { λ s. held_by ⟦<AxisBank as Machine>⟧.cells s.at };

    fn fresh() -> Self {
        AxisStations {
            at: fresh_stations(),
        }
    }

    fn read(&self, member: u8, i: usize) -> Option<u32> {
        read_at(&self.at, member, i)
    }

    fn ask(&mut self, line: &mut Line<AxisBank>, call: Call) -> Result<Answer, Refusal> {
        ask_at(&mut self.at, line, call)
    }
}
