//! The interface of a machine: its cells, and the laws that every kind keeps.
ghost use Rattle.std.specs.Prelude.{◌≡◌, ℕ, List};
ghost use Rattle.std.specs.List.{slice_get};
ghost use Rattle.machine.specs.Kinds.{Kind, Laws};

use crate::command::Command;

/// A machine, known by its cells. None of its functions refuses.
pub trait Machine: Sized {
    /// How many cells a machine of this kind has.
    const CELLS: usize;

    /// The constant, for the laws.
    ghost CELLS: { ℕ };

    /// The kind, as data: starting cells, conflict, next.
    ghost kind: { Kind };

    /// What a machine of this kind holds.
    ghost cells: { Self → List ℕ };

    /// The constant `CELLS`, tied to the kind.
    fn count() -> usize
        ensures { result ≡ kind.count }
    {
        Self::CELLS
    }

    /// A machine at the starting cells.
    fn start() -> Self
        ensures { cells result ≡ kind.starting };

    /// Whether the two commands have to run in one order everywhere.
    fn conflict(a: Command, b: Command) -> bool
        ensures { result ≡ kind.conflict a b };

    /// Moves the cells on by one command.
    fn run(&mut self, command: Command)
        ensures { cells self.new ≡ kind.next (cells self.old) command };

    /// The cell at `i`, or none past the last.
    fn read(&self, i: usize) -> Option<u32>
        ensures { result ≡ slice_get (cells self.now) i };

    ghost counted: { CELLS ≡ kind.count };

    ghost lawful: { Laws kind };
}
