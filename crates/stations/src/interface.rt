//! The interface of a line's stations.
ghost use Rattle.std.specs.Prelude.{◌≡◌, ℕ, ◌<◌, List, if◌then◌else◌, None, nat_lt};
ghost use Rattle.std.specs.List.{slice_get};
ghost use Rattle.line.specs.Books.{view_line};
ghost use Rattle.stations.specs.Held.{AskedAll};

use line::state::Line;
use machine::kind::Machine;
use ordering::calls::{Answer, Call, Refusal};

/// One station for each member that a line can have, all with machines of one kind.
pub trait Stations: Sized {
    /// The kind of the machines.
    type Kind: Machine;

    /// The cells of a member's station.
    ghost held: { Self → ℕ → List ℕ };

    /// Freshly started stations.
    fn fresh() -> Self
        ensures { (m : ℕ) → m < 16 → held result m ≡ Self.Kind.kind.starting };

    /// The cell at `i` of the member's station, or none past the last cell or the last station.
    fn read(&self, member: u8, i: usize) -> Option<u32>
        ensures { result ≡ (if nat_lt member 16 then slice_get (held self.now member) i else None) };

    /// Makes the call on the line; a run is for the station of the member that it names.
    fn ask(&mut self, line: &mut Line<Self::Kind>, call: Call) -> Result<Answer, Refusal>
        ensures { AskedAll Self.Kind.kind (view_line line.old.book) call (held self.old) result (view_line line.new.book) (held self.new) };
}
