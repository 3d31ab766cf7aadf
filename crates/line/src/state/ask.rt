//! The call that makes any call, and states the ordering theorem.
ghost use Rattle.std.specs.Prelude.{◌≡◌, List};
ghost use Rattle.line.specs.Asking.{call_at, Asked, Leads, LeadsOn};
ghost use Rattle.line.specs.Books.{view_line};
ghost use Rattle.line.specs.Promises.{KeptIf};
ghost use Rattle.ordering.specs.declared.calls.Call.{Call};

use super::{Line, Station};
use machine::kind::Machine;
use ordering::calls::{Answer, Call, Refusal};

impl<M: Machine> Line<M> {
    /// Makes the call; a run is for the station given, which no other call touches.
    // In a function of its own: what the call does is proved here by cases, and where it leads above, at once.
    fn make(&mut self, call: Call, station: &mut Station<M>) -> Result<Answer, Refusal>
        ensures steps { Asked M.kind (view_line self.old.book) (call_at call station.old.member) (M.cells station.old.machine) result (view_line self.new.book) (M.cells station.new.machine) }
        ensures stays { station.new.member ≡ station.old.member }
        ensures kept { KeptIf result self.old self.new }
        ensures idle { KeptIf result station.old station.new }
    {
        // A match, and no closures: each call answers another type.
        match call {
            Call::Open { members, last } => self.open(members, last).map(|()| Answer::Opened),
            Call::Send {
                sender,
                set,
                command,
            } => self.send(sender, set, command).map(Answer::Issued),
            Call::Hear { member, number } => self.hear(member, number).map(Answer::Proposed),
            Call::Gather { member, number } => self.gather(member, number).map(Answer::Fixed),
            Call::Settle { member, number } => self.settle(member, number).map(Answer::Clock),
            Call::Run { .. } => self.run(station).map(Answer::Ran),
        }
    }

    /// Makes the call; a run is for the station given, which no other call touches. Whatever calls have led a new line
    /// and this member's fresh station here, this call leads them on, and the ordering theorem holds of all of them.
    pub fn ask(&mut self, call: Call, station: &mut Station<M>) -> Result<Answer, Refusal>
        ensures steps { Asked M.kind (view_line self.old.book) (call_at call station.old.member) (M.cells station.old.machine) result (view_line self.new.book) (M.cells station.new.machine) }
        ensures stays { station.new.member ≡ station.old.member }
        ensures kept { KeptIf result self.old self.new }
        ensures idle { KeptIf result station.old station.new }
        ensures ordered { (cs : List Call) → Leads M.kind cs (view_line self.old.book) station.old.member (M.cells station.old.machine) → LeadsOn M.kind (call_at call station.old.member) cs (view_line self.new.book) station.old.member (M.cells station.new.machine) result }
    {
        self.make(call, station)
    }
}
