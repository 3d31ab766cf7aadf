//! What a station's cells say.
ghost use Rattle.std.specs.Prelude.{◌≡◌, ◌+◌, ◌*◌, ◌<◌, [], ◌∷◌, IfOk, Ok, slice_index};
ghost use Rattle.cartoner.specs.Holding.{ByteAxes};
ghost use Rattle.machine.specs.Numbers.{numbers};

use line::state::Station;
use machine::command::Command;
use machine::kind::Machine;

/// The cell of the station at `i`, or 0 past the last.
pub(crate) fn cell<M: Machine>(station: &Station<M>, i: usize) -> u32
    ensures { result ≡ slice_index (M.cells station.now.machine) i }
{
    station.read(i).unwrap_or(0)
}

/// A command as a recorder keeps it: three numbers, all 0 where nothing ran.
#[derive(Clone, Copy)]
pub(crate) struct Entry {
    class: u32,
    first: u32,
    second: u32,
}

impl Entry {
    /// What a recorder keeps at `place`, the newest at 0.
    pub(crate) fn at<M: Machine>(recorder: &Station<M>, place: usize) -> Self
        requires { place < 8 }
        ensures class { result.class ≡ slice_index (M.cells recorder.now.machine) (3 * place + 1) }
        ensures first { result.first ≡ slice_index (M.cells recorder.now.machine) (3 * place + 2) }
        ensures second { result.second ≡ slice_index (M.cells recorder.now.machine) (3 * place + 3) }
    {
        Entry {
            class: cell(recorder, 3 * place + 1),
            first: cell(recorder, 3 * place + 2),
            second: cell(recorder, 3 * place + 3),
        }
    }
}

/// Numbers that no command has.
#[derive(Clone, Copy, Debug, PartialEq, Eq)]
pub(crate) struct NoCommand;

impl TryFrom<Entry> for Command {
    type Error = NoCommand;

    /// The command that has the entry's numbers, if there is one.
    fn try_from(entry: Entry) -> Result<Self, NoCommand>
        ensures sound { IfOk result (λ c. numbers c ≡ entry.class ∷ entry.first ∷ entry.second ∷ []) }
        ensures whole { (c : Command) → ByteAxes c → numbers c ≡ entry.class ∷ entry.first ∷ entry.second ∷ [] → result ≡ Ok c }
    {
        let first = u8::try_from(entry.first);
        let second = u8::try_from(entry.second);
        match (entry.class, first, second) {
            (1, Ok(axis), _) => Ok(Command::Set {
                axis,
                value: entry.second,
            }),
            (2, Ok(axis), _) => Ok(Command::Shift {
                axis,
                amount: entry.second,
            }),
            (3, Ok(from), Ok(to)) => Ok(Command::Couple { from, to }),
            (4, _, Ok(0)) => Ok(Command::Mark { code: entry.first }),
            _ => Err(NoCommand),
        }
    }
}
