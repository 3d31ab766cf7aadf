//! What one field says to a step.
ghost use Rattle.std.specs.Prelude.{◌≡◌, ℕ, Some, Option};
ghost use Rattle.record.specs.Bytes.{piece_of};
ghost use Rattle.script.specs.Fields.{at_most, command_kind, empty, fault, machine_kind, number_as};
ghost use Rattle.script.specs.declared.faults.Cause.TheVariants.{BadNumber, NotEmpty};

use crate::faults::Cause;
use crate::numbers::number;
use crate::steps::{CommandKind, MachineKind, StepFault};
use record::Field;

/// What the number in a field may stand for.
// `TryFrom<u64>` says what it gives as a relation, which each caller would have to work out.
// The impls for `u8`, `u16` and `u32` stand one by one, as no macro of this repository may write an impl.
pub(crate) trait FromNumber: Copy {
    ghost from_number: { ℕ → Option Self };

    /// What the number stands for, if it is within the limits.
    fn from_number(number: u64) -> Option<Self>
        ensures { result ≡ from_number number };
}

impl FromNumber for u8 {
    ghost from_number = { at_most 255 };

    fn from_number(number: u64) -> Option<Self> {
        u8::try_from(number).ok()
    }
}

impl FromNumber for u16 {
    ghost from_number = { at_most 65535 };

    fn from_number(number: u64) -> Option<Self> {
        u16::try_from(number).ok()
    }
}

impl FromNumber for u32 {
    ghost from_number = { at_most 4294967295 };

    fn from_number(number: u64) -> Option<Self> {
        u32::try_from(number).ok()
    }
}

impl FromNumber for u64 {
    ghost from_number = { Some };

    fn from_number(number: u64) -> Option<Self> {
        Some(number)
    }
}

impl FromNumber for MachineKind {
    ghost from_number = { machine_kind };

    fn from_number(number: u64) -> Option<Self> {
        match number {
            1 => Some(MachineKind::AxisBank),
            2 => Some(MachineKind::Recorder),
            3 => Some(MachineKind::Tally),
            _ => None,
        }
    }
}

impl FromNumber for CommandKind {
    ghost from_number = { command_kind };

    fn from_number(number: u64) -> Option<Self> {
        match number {
            1 => Some(CommandKind::Set),
            2 => Some(CommandKind::Shift),
            3 => Some(CommandKind::Couple),
            4 => Some(CommandKind::Mark),
            _ => None,
        }
    }
}

/// What a field's number stands for.
pub(crate) fn number_as<N: FromNumber>(field: Field<'_>) -> Result<N, StepFault>
    ensures { result ≡ number_as N.from_number (piece_of field.entry) }
{
    // A closure, since the borrow checker does not cover the bare `N::from_number`, whose result its arguments do not name.
    number(field.text)
        .and_then(|n| N::from_number(n))
        .ok_or(StepFault {
            cause: Cause::BadNumber,
            at: field.at,
        })
}

/// A field that the step does not use.
pub(crate) fn empty(field: Field<'_>) -> Result<(), StepFault>
    ensures { result ≡ empty (piece_of field.entry) }
{
    if field.text.is_empty() {
        Ok(())
    } else {
        Err(StepFault {
            cause: Cause::NotEmpty,
            at: field.at,
        })
    }
}
