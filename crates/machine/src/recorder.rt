//! Kind 2: a record of what ran.
ghost use Rattle.std.specs.Prelude.{◌≡◌, ◌∷◌, ◌++◌, map, take, Some, refl};
ghost use Rattle.machine.specs.Numbers.{numbers};
ghost use Rattle.machine.specs.Recorders.{recorder, entries, places_from};
ghost use Rattle.machine.specs.Words.{wrap};
ghost use Rattle.std.specs.List.{slice_get};
ghost use Rattle.machine.specs.Records.{recorder_laws};

use crate::command::Command;
use crate::kind::Machine;

/// How many of the latest commands are kept.
const KEPT: usize = 8;

/// How many commands ran, modulo 2^32, and the latest eight, newest first.
#[derive(Clone, Copy)]
pub struct Recorder {
    count: u32,
    latest: [Option<Command>; KEPT],
}

/// Changes nothing. It is here for its promise: to bring the numbers of a command at hand below 2^32 changes none.
/// Only a match on the command shows the checker that they are below it, so no lemma can stand in.
fn fits_words(command: Command)
    ensures { map wrap (numbers command) ≡ numbers command }
{
    match command {
        Command::Set { .. }
        | Command::Shift { .. }
        | Command::Couple { .. }
        | Command::Mark { .. } => {}
    }
}

/// The cell at `i` of a record's places.
fn place_cell(places: &[Option<Command>], i: usize) -> Option<u32>
    ensures { result ≡ slice_get (entries places.now) i }
{
    let place = places.get(i / 3)?;
    Some(place.map_or(0, |command| command.numbers()[i % 3]))
}

impl Machine for Recorder {
    const CELLS: usize = 25;

    ghost CELLS = { 25 };

    ghost kind = { recorder };

    ghost cells = { λ r. r.count ∷ entries r.latest };

    ghost counted = { refl };

    ghost lawful = { recorder_laws };

    fn start() -> Self {
        Recorder {
            count: 0,
            latest: [None; KEPT],
        }
    }

    fn conflict(_a: Command, _b: Command) -> bool {
        true
    }

    fn run(&mut self, command: Command) {
        fits_words(command);
        self.count = self.count.wrapping_add(1);
        let [a, b, c, d, e, f, g, _] = self.latest;
        self.latest = [Some(command), a, b, c, d, e, f, g];
    }

    fn read(&self, i: usize) -> Option<u32> {
        if i == 0 {
            Some(self.count)
        } else {
            place_cell(&self.latest, i - 1)
        }
    }
}
