//! Sixteen stations with machines of the kind Tally.
ghost use Rattle.stations.specs.Together.{OneEach, held_by};

use crate::any_kind::{ask_at, fresh_stations, read_at};
use crate::interface::Stations;
use line::state::{Line, Station};
use machine::kind::Machine;
use machine::tally::Tally;
use open_commands::parts::MEMBERS;
use ordering::calls::{Answer, Call, Refusal};

/// One station for each member that a line can have, in the order of the members.
// A type for this kind, and no generic one: a plain array for each made kind is a wanted form (docs/DECISIONS.md).
#[derive(Drop)]
pub struct TallyStations {
    at: [Station<Tally>; MEMBERS],
    ghost each: { OneEach at },
}

impl Stations for TallyStations {
    type Kind = Tally;

    ghost held = { λ s. held_by ⟦<Tally as Machine>⟧.cells s.at };

    fn fresh() -> Self {
        TallyStations {
            at: fresh_stations(),
        }
    }

    fn read(&self, member: u8, i: usize) -> Option<u32> {
        read_at(&self.at, member, i)
    }

    fn ask(&mut self, line: &mut Line<Tally>, call: Call) -> Result<Answer, Refusal> {
        ask_at(&mut self.at, line, call)
    }
}
