//! Kind 3: counts by class of command.
ghost use Rattle.std.specs.Prelude.{[], ◌∷◌, refl};
ghost use Rattle.machine.specs.Tallies.{tally};
ghost use Rattle.machine.specs.TalliesLemmas.{tally_laws};

use crate::command::Command;
use crate::kind::Machine;

/// How many commands of each class ran, each modulo 2^32.
#[derive(Clone, Copy)]
pub struct Tally {
    sets: u32,
    shifts: u32,
    couples: u32,
    marks: u32,
}

impl Machine for Tally {
    const CELLS: usize = 4;

    ghost CELLS = { 4 };

    ghost kind = { tally };

    ghost cells = { λ t. t.sets ∷ t.shifts ∷ t.couples ∷ t.marks ∷ [] };

    ghost counted = { refl };

    ghost lawful = { tally_laws };

    fn start() -> Self {
        Tally {
            sets: 0,
            shifts: 0,
            couples: 0,
            marks: 0,
        }
    }

    fn conflict(_a: Command, _b: Command) -> bool {
        false
    }

    fn run(&mut self, command: Command) {
        match command {
            Command::Set { .. } => self.sets = self.sets.wrapping_add(1),
            Command::Shift { .. } => self.shifts = self.shifts.wrapping_add(1),
            Command::Couple { .. } => self.couples = self.couples.wrapping_add(1),
            Command::Mark { .. } => self.marks = self.marks.wrapping_add(1),
        }
    }

    fn read(&self, i: usize) -> Option<u32> {
        match i {
            0 => Some(self.sets),
            1 => Some(self.shifts),
            2 => Some(self.couples),
            3 => Some(self.marks),
            _ => None,
        }
    }
}
