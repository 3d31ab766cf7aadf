//! What ends a script before its last byte, and where.
ghost use Rattle.std.specs.Prelude.{◌≡◌};
ghost use Rattle.script.specs.Faults.{row};

/// The rules that a fault breaks: those of the text, of one step, or of the trace.
#[derive(Clone, Copy, PartialEq, Eq, Debug)]
pub enum Layer {
    Text,
    Step,
    Trace,
}

/// What is wrong, by the number that a trace shows for it.
#[derive(Clone, Copy, PartialEq, Eq, Debug)]
pub enum Cause {
    /// The script has more than 65,536 bytes.
    ScriptTooLong = 20,
    /// The text is no RFC 4180 record.
    BadText = 21,
    /// The record has not seven fields.
    FieldCount = 22,
    /// The first field is none of the six letters.
    UnknownLetter = 23,
    /// A field that the step uses is no number within its limits.
    BadNumber = 24,
    /// A field that the step does not use is not empty.
    NotEmpty = 25,
    /// Fewer than 48 bytes of the trace are left.
    TraceFull = 26,
}

impl Cause {
    /// The layer, and the number, 20 to 26.
    pub fn row(self) -> (Layer, u8)
        ensures { result ≡ row self }
    {
        let layer = match self {
            Cause::BadText => Layer::Text,
            Cause::FieldCount | Cause::UnknownLetter | Cause::BadNumber | Cause::NotEmpty =>
                Layer::Step,
            Cause::ScriptTooLong | Cause::TraceFull => Layer::Trace,
        };
        (layer, self as u8)
    }
}

/// A fault: what is wrong, the record from 1 (0 where no record is read), and the byte offset from 0.
#[derive(Clone, Copy, PartialEq, Eq, Debug)]
pub struct Fault {
    pub cause: Cause,
    pub record: usize,
    pub at: usize,
}
