//! The room for a record in a trace.
ghost use Rattle.std.specs.Prelude.{◌≡◌, Err, Ok, if◌then◌else◌, nat_lt};
ghost use Rattle.runner.specs.Runs.{fault_as};
ghost use Rattle.runner.specs.Writing.{room_of};
ghost use Rattle.script.specs.declared.faults.Cause.TheVariants.{TraceFull};

use script::faults::{Cause, Fault};
use trace::{RECORD_ROOM, Trace};

/// A fault in the record of this number, which begins at an offset, unless there is room for one more in the trace.
pub(crate) fn room_for_record(trace: &Trace<'_>, number: usize, at: usize) -> Result<(), Fault>
    ensures { result ≡ (if nat_lt (room_of trace.now) 48 then Err (fault_as TraceFull number at) else Ok tt) }
{
    if trace.room() < RECORD_ROOM {
        return Err(Fault {
            cause: Cause::TraceFull,
            record: number,
            at,
        });
    }
    Ok(())
}
