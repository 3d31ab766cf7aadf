//! The cells of the stations, at the end of a script.
ghost use Rattle.std.specs.Prelude.{◌≡◌, ℕ, ◌<◌, ◌≤◌, List, length};
ghost use Rattle.ordering.specs.declared.calls.Call.{Call};
ghost use Rattle.runner.specs.Cells.{cell_records, station_records};
ghost use Rattle.runner.specs.Runs.{fault_as, writes_all};
ghost use Rattle.runner.specs.Writing.{Wrote, WroteRecords, room_of};
ghost use Rattle.script.specs.declared.faults.Cause.TheVariants.{TraceFull};

use crate::room::room_for_record;
use machine::kind::Machine;
use script::faults::Fault;
use stations::interface::Stations;
use trace::Trace;

/// Writes the cells of one station, while there is room.
fn write_station<S: Stations>(
    stations: &S,
    member: u8,
    end: usize,
    trace: &mut Trace<'_>,
) -> Result<(), Fault>
    requires near { member < 16 }
    requires counted { length (S.held stations.now member) ≡ S.Kind.kind.count }
    ensures { WroteRecords (fault_as TraceFull 0 end) (station_records member 0 (S.held stations.now member)) trace.old trace.new result }
{
    for i in 0..S::Kind::CELLS {
        room_for_record(trace, 0, end)?;
        if let Some(value) = stations.read(member, i) {
            trace.cell(member, i, value);
        }
    }
    Ok(())
}

/// Writes the cells of the stations of all members, while there is room.
pub(crate) fn write_cells<S: Stations>(
    stations: &S,
    members: u8,
    end: usize,
    trace: &mut Trace<'_>,
) -> Result<(), Fault>
    requires few { members ≤ 16 }
    requires counted { (m : ℕ) → m < 16 → length (S.held stations.now m) ≡ S.Kind.kind.count }
    ensures { (cs : List Call) → Wrote (writes_all cs (fault_as TraceFull 0 end) (room_of trace.old) (cell_records (S.held stations.now) 0 members)) trace.old trace.new result }
{
    for member in 0..members {
        write_station(stations, member, end, trace)?;
    }
    Ok(())
}
