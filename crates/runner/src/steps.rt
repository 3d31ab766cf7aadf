//! The steps of a script, one after the other.
ghost use Rattle.runner.specs.Following.{Follows};
ghost use Rattle.runner.specs.Runs.{next_step, runs};
ghost use Rattle.runner.specs.declared.records.Record.{Record};
ghost use Rattle.runner.specs.Writing.{Wrote, room_of};
ghost use Rattle.std.specs.Prelude.{◌≡◌, ◌<◌, IfOk, length, suc};

use crate::cells::write_cells;
use crate::records::Records;
use crate::room::room_for_record;
use crate::scripts::Script;
use line::state::Line;
use machine::kind::Machine;
use script::faults::Fault;
use script::steps::StepRead;
use stations::interface::Stations;
use trace::Trace;

/// The step of the next record, if there is room for its record in the trace and it can be read. Where there is no room
/// nothing is read.
fn next_step(records: &mut Records<'_>, trace: &Trace<'_>) -> Result<StepRead, Fault>
    requires { records.old.at < length records.old.script.bytes.now }
    ensures answers { result ≡ next_step records.old.script.bytes.now (room_of trace.now) (suc records.old.number) records.old.at }
    ensures behind { IfOk result (λ s. (r : Record) × Follows records.old.script.bytes.now records.old r records.new) }
{
    room_for_record(trace, records.number + 1, records.at)?;
    let next = records.read();
    next.read.map_err(|fault| Fault {
        cause: fault.cause,
        record: next.number,
        at: fault.at,
    })
}

/// Makes the steps of a script on a new line with fresh stations and writes their records, and at its end the cells.
pub(crate) fn run_steps<S: Stations + Drop>(
    script: Script<'_>,
    trace: &mut Trace<'_>,
) -> Result<(), Fault>
    ensures { Wrote (runs S.Kind.kind script.entry.bytes.now (room_of trace.old)) trace.old trace.new result }
{
    let mut line = Line::new();
    let mut stations = S::fresh();
    let mut records = Records::of(script);
    // A while loop: the for loop has read a record before the room for it is asked for.
    while !records.is_empty() {
        let call = next_step(&mut records, trace)?.step.call;
        let answer = stations.ask(&mut line, call);
        trace.step(records.number, call, answer);
    }
    write_cells(&stations, line.members(), script.bytes.len(), trace)
}
