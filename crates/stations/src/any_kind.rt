//! What the stations of a line do together, whatever their kind.
ghost use Rattle.std.specs.Prelude.{◌≡◌, ℕ, ◌<◌, if◌then◌else◌, None, nat_lt};
ghost use Rattle.std.specs.List.{slice_get};
ghost use Rattle.line.specs.Books.{view_line};
ghost use Rattle.stations.specs.Held.{AskedAll, member_of};
ghost use Rattle.stations.specs.Together.{OneEach, held_by};

use line::state::{Line, Station};
use machine::kind::Machine;
use open_commands::parts::MEMBERS;
use ordering::calls::{Answer, Call, Refusal};

/// The member that a run names; every other call leaves the stations, and any will do.
fn member_of(call: Call) -> u8
    ensures { result ≡ member_of call }
{
    match call {
        Call::Run { member } => member,
        _ => 0,
    }
}

// That there is one station for each member is said of the slices here: the type of a kind carries it, and a slice of any
// kind has no such type.

/// A fresh station for each member.
pub(crate) fn fresh_stations<M: Machine>() -> [Station<M>; MEMBERS]
    ensures each { OneEach result }
    ensures fresh { (m : ℕ) → m < 16 → held_by M.cells result m ≡ M.kind.starting }
{
    std::array::from_fn(|member| Station::new(member as u8))
}

/// The cell at `i` of the member's station, or none past the last cell or the last station.
pub(crate) fn read_at<M: Machine>(stations: &[Station<M>], member: u8, i: usize) -> Option<u32>
    requires { OneEach stations.now }
    ensures { result ≡ (if nat_lt member 16 then slice_get (held_by M.cells stations.now member) i else None) }
{
    stations.get(usize::from(member))?.read(i)
}

/// Makes the call on the line; a run is for the station of the member that it names.
pub(crate) fn ask_at<M: Machine + Drop>(
    stations: &mut [Station<M>],
    line: &mut Line<M>,
    call: Call,
) -> Result<Answer, Refusal>
    requires { OneEach stations.old }
    ensures asked { AskedAll M.kind (view_line line.old.book) call (held_by M.cells stations.old) result (view_line line.new.book) (held_by M.cells stations.new) }
    ensures each { OneEach stations.new }
{
    let member = member_of(call);
    let place = usize::from(member);
    // An index, since what a slice's get_mut lends leaves nothing known of the elements.
    if place < stations.len() {
        line.ask(call, &mut stations[place])
    } else {
        line.ask(call, &mut Station::new(member))
    }
}
