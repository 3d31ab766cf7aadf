//! The kind of a script's stations.
ghost use Rattle.runner.specs.Scripts.{fixed_by, kind_of_script};
ghost use Rattle.std.specs.Prelude.{◌≡◌};

use crate::records::Records;
use crate::scripts::Script;
use line::state::Line;
use machine::tally::Tally;
use ordering::calls::Call;
use script::steps::{MachineKind, StepFault, StepRead};

/// The kind that a record's step fixes on a closed line, if it could be read: that of an open that is accepted.
fn fixed_kind(read: Result<StepRead, StepFault>) -> Option<MachineKind>
    ensures { result ≡ fixed_by read }
{
    let step = read.ok()?.step;
    let Call::Open { members, last } = step.call else {
        return None;
    };
    Line::<Tally>::new().open(members, last).ok().and(step.kind)
}

/// The kind of the first open that a closed line accepts.
pub(crate) fn kind_of(script: Script<'_>) -> MachineKind
    ensures { result ≡ kind_of_script script.entry.bytes.now }
{
    // A for loop: find_map was tried, and the proof of one goal did not close.
    for record in Records::of(script) {
        if let Some(kind) = fixed_kind(record.read) {
            return kind;
        }
    }
    MachineKind::Tally
}
