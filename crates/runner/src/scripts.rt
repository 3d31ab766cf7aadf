//! A script that is not too long.
ghost use Rattle.std.specs.Prelude.{◌≡◌, ◌<◌, ◌≤◌, IfErr, IfOk, length};
ghost use Rattle.runner.specs.Runs.{fault_as};
ghost use Rattle.script.specs.declared.faults.Cause.TheVariants.{ScriptTooLong};

use crate::run::SCRIPT_LIMIT;
use script::faults::{Cause, Fault};

/// The bytes of a script, as many as a script may have.
#[derive(Clone, Copy)]
pub(crate) struct Script<'a> {
    pub bytes: &'a [u8],
    ghost short: { length bytes.now ≤ 65536 },
}

impl<'a> Script<'a> {
    /// The script, unless it is too long.
    pub(crate) fn new(bytes: &'a [u8]) -> Result<Script<'a>, Fault>
        ensures whole { IfOk result (λ script. script.bytes.now ≡ bytes.now) }
        ensures long { IfErr result (λ fault. (65536 < length bytes.now) × (fault ≡ fault_as ScriptTooLong 0 0)) }
    {
        if bytes.len() > SCRIPT_LIMIT {
            return Err(Fault {
                cause: Cause::ScriptTooLong,
                record: 0,
                at: 0,
            });
        }
        Ok(Script { bytes })
    }
}
