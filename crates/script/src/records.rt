//! From one record of a script to a step.
ghost use Rattle.record.specs.Bytes.{piece_of};
ghost use Rattle.record.specs.Cut.{cut_record};
ghost use Rattle.script.specs.Steps.{Ends, step_at, step_of};
ghost use Rattle.script.specs.Texts.{Means};
ghost use Rattle.std.specs.Prelude.{◌≡◌, map, length, drop};

use crate::faults::Cause;
use crate::operands::Operands;
use crate::reading::{letter, step};
use crate::steps::{Step, StepFault, StepRead};
use record::{Field, cut_record};

/// How many fields a record of a script has.
const FIELDS: usize = 7;

/// The step of seven fields.
fn step_of(fields: [Field<'_>; FIELDS]) -> Result<Step, StepFault>
    ensures { result ≡ step_of (map piece_of fields.entry) }
{
    let [opening, member, number, set, class, first, second] = fields;
    step(
        letter(opening)?,
        Operands {
            member,
            number,
            set,
            class,
            first,
            second,
        },
    )
}

/// Reads the step whose record begins at an offset of the script: the one that the record's fields write.
#[tactic(auto, using(crate::proofs::Means::means))]
pub fn read_step(script: &[u8], start: usize) -> Result<StepRead, StepFault>
    ensures answers { result ≡ step_at (drop start script.now) start }
    ensures means { Means (cut_record (drop start script.now) start) result }
    ensures ends { Ends start (drop start script.now) result }
{
    let mut fields = [Field {
        text: script,
        at: start,
    }; FIELDS];
    let cut = cut_record(script, start, &mut fields)?;
    if cut.fields != FIELDS {
        return Err(StepFault {
            cause: Cause::FieldCount,
            at: start,
        });
    }
    let step = step_of(fields)?;
    Ok(StepRead {
        step,
        next: cut.next,
    })
}
