//! One step of a script: a call, and for an open the kind of the machines.
ghost use Rattle.std.specs.Prelude.{◌≡◌};
ghost use Rattle.script.specs.Fields.{fault};
ghost use Rattle.script.specs.declared.faults.Cause.TheVariants.{BadText};

use crate::faults::Cause;
use ordering::calls::Call;
use record::TextFault;

/// The kinds of machine that are made.
#[derive(Clone, Copy, PartialEq, Eq, Debug)]
pub enum MachineKind {
    AxisBank,
    Recorder,
    Tally,
}

/// The kinds of command.
#[derive(Clone, Copy)]
pub(crate) enum CommandKind {
    Set,
    Shift,
    Couple,
    Mark,
}

/// The letters of the six calls: open, send, hear, gather, settle, run.
#[derive(Clone, Copy)]
pub enum Letter {
    O,
    S,
    H,
    G,
    T,
    R,
}

/// A call, and the kind of the machines if the call is an open.
#[derive(Clone, Copy)]
pub struct Step {
    pub call: Call,
    pub kind: Option<MachineKind>,
}

/// A step that was read, and the offset behind its record.
#[derive(Clone, Copy)]
pub struct StepRead {
    pub step: Step,
    pub next: usize,
}

/// What is wrong with a record, and the byte where.
#[derive(Clone, Copy, PartialEq, Eq, Debug)]
pub struct StepFault {
    pub cause: Cause,
    pub at: usize,
}

impl From<TextFault> for StepFault {
    ghost from_gives = { λ text step. step ≡ fault BadText text.at };

    fn from(fault: TextFault) -> Self {
        StepFault {
            cause: Cause::BadText,
            at: fault.at,
        }
    }
}
