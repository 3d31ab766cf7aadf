//! The call that runs a script.
ghost use Rattle.std.specs.Prelude.{◌≤◌, length};
ghost use Rattle.ordering.specs.Ordering.{Ordered};
ghost use Rattle.ordering.specs.Worlds.{after};
ghost use Rattle.runner.specs.Reports.{Reported};
ghost use Rattle.runner.specs.Runs.{runs};
ghost use Rattle.runner.specs.Scripts.{kind_of_script, made, outcome};
ghost use Rattle.runner.specs.Told.{Told};
ghost use Rattle.runner.specs.Writing.{Wrote, room_of};

use crate::kinds::kind_of;
use crate::scripts::Script;
use crate::steps::run_steps;
use script::faults::Fault;
use script::steps::MachineKind;
use stations::axis_stations::AxisStations;
use stations::recorder_stations::RecorderStations;
use stations::tally_stations::TallyStations;
use trace::Trace;

/// A script has at most this many bytes.
pub const SCRIPT_LIMIT: usize = 65536;

/// How many bytes of the trace were written, and the fault that ended the script, if one did.
#[derive(Clone, Copy, PartialEq, Eq, Debug)]
pub struct Report {
    pub written: usize,
    pub fault: Option<Fault>,
}

/// Runs the steps of a script with stations of its kind.
fn run_as(kind: MachineKind, script: Script<'_>, trace: &mut Trace<'_>) -> Result<(), Fault>
    ensures { Wrote (runs (made kind) script.entry.bytes.now (room_of trace.old)) trace.old trace.new result }
{
    // A match, and no closures: each kind is another type.
    match kind {
        MachineKind::AxisBank => run_steps::<AxisStations>(script, trace),
        MachineKind::Recorder => run_steps::<RecorderStations>(script, trace),
        MachineKind::Tally => run_steps::<TallyStations>(script, trace),
    }
}

/// Runs a script, if it is not too long, and writes its trace.
fn run_into(bytes: &[u8], trace: &mut Trace<'_>) -> Result<(), Fault>
    ensures { Wrote (outcome bytes.now (room_of trace.old)) trace.old trace.new result }
{
    let script = Script::new(bytes)?;
    run_as(kind_of(script), script, trace)
}

/// Runs a script on a new line with fresh stations, and writes its trace into the caller's bytes: as many records as
/// the rules give, and behind them the bytes stay as they were. The ordering theorem holds of the calls made.
pub fn run_script(script: &[u8], trace: &mut [u8]) -> Report
    ensures outcome { Reported (outcome script.now (length trace.old)) trace.old trace.new result }
    ensures told { Told (made (kind_of_script script.now)) (outcome script.now (length trace.old)) }
    ensures within { result.written ≤ length trace.old }
    ensures ordered { Ordered (made (kind_of_script script.now)) (after (made (kind_of_script script.now)) (outcome script.now (length trace.old)).calls) }
{
    let mut trace = Trace {
        bytes: trace,
        used: 0,
    };
    let result = run_into(script, &mut trace);
    Report {
        written: trace.used,
        fault: result.err(),
    }
}
