//! What is sent: batches of 32 commands, as many as a line can have open.
use machine::command::Command;

/// How many commands a batch has.
pub(crate) const BATCH: u64 = 32;

/// An axis that no bank has: to set it conflicts with setting it again, and moves nothing.
const NO_AXIS: u8 = 9;

/// The command at a place of a batch: Set, Shift, Couple and Mark in turn, so that each class has 8 of the 32. On an
/// axis bank each axis is shifted by 1 once in a batch and coupled to itself, which conflicts with the Shift and
/// changes nothing. So after any number of batches every axis of a bank stands at that number.
pub(crate) fn command_at(place: u64) -> Command {
    let axis = (place / 4 % 8) as u8;
    match place % 4 {
        0 => Command::Set {
            axis: NO_AXIS,
            value: 1,
        },
        1 => Command::Shift { axis, amount: 1 },
        2 => Command::Couple {
            from: axis,
            to: axis,
        },
        _ => Command::Mark { code: 1 },
    }
}
