//! One carton cycle of a packaging line, as data.
ghost use Rattle.std.specs.Prelude.{◌≡◌};

use machine::command::Command;

/// The axis that carries the film.
pub(crate) const FILM: u8 = 0;

/// The axis that folds the flap.
pub(crate) const FLAP: u8 = 1;

/// The axis that pushes the carton out.
pub(crate) const PUSHER: u8 = 2;

/// An axis of the machine behind this one: no axis bank has it.
const STACKER: u8 = 9;

/// How far the pusher goes out.
const STROKE: u32 = 400;

/// The amount that takes the pusher back: positions are modulo 2^32.
const STROKE_BACK: u32 = 0u32.wrapping_sub(STROKE);

/// The code of a carton that stands open.
const CARTON_OPEN: u32 = 7001;

/// The code of a carton that is shut.
const CARTON_SHUT: u32 = 7002;

// These four stand in place of struct literals so that the cycle below reads as one command a line, and not four lines.
fn set(axis: u8, value: u32) -> Command
    ensures { result ≡ Command.Set axis value }
{
    Command::Set { axis, value }
}

fn shift(axis: u8, amount: u32) -> Command
    ensures { result ≡ Command.Shift axis amount }
{
    Command::Shift { axis, amount }
}

fn couple(from: u8, to: u8) -> Command
    ensures { result ≡ Command.Couple from to }
{
    Command::Couple { from, to }
}

fn mark(code: u32) -> Command
    ensures { result ≡ Command.Mark code }
{
    Command::Mark { code }
}

/// The commands of one carton, in order.
pub(crate) fn carton_cycle() -> [Command; 12] {
    [
        // home the film and the flap
        set(FILM, 1000),
        set(FLAP, 90),
        // pull the film, then stretch it, and take the flap along
        shift(FILM, 250),
        shift(FILM, 50),
        couple(FILM, FLAP),
        mark(CARTON_OPEN),
        // bring the carton up to the stacker
        set(PUSHER, STROKE),
        set(STACKER, 25),
        couple(FILM, STACKER),
        // fold the flap, and let the pusher go back
        shift(FLAP, 60),
        mark(CARTON_SHUT),
        shift(PUSHER, STROKE_BACK),
    ]
}
