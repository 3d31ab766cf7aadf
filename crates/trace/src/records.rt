//! The records: of a step, of a cell, of a fault.

ghost use Rattle.std.specs.Prelude.{◌≡◌, ◌-◌, ◌≤◌, ◌++◌, length, replicate};
ghost use Rattle.trace.specs.Appending.{Adds};
ghost use Rattle.trace.specs.Records.{cell_record, fault_record, named, shown_number, shown_time, step_record, verdict};

use crate::Trace;
use ordering::calls::{Answer, Call, Refusal};
use script::faults::Fault;

/// The room that one record of a trace may need.
pub const RECORD_ROOM: usize = 48;

/// The bytes of the record of a fault, with zeros behind them.
// The zeros are promised too, and an `ArrayVec` shows nothing behind its elements.
#[derive(Clone, Copy)]
pub struct FaultRecord {
    pub bytes: [u8; RECORD_ROOM],
    pub used: usize,
}

/// 0 for an accepted call, else the number of the refusal.
fn verdict(answer: Result<Answer, Refusal>) -> u8
    ensures { result ≡ verdict answer }
{
    answer.err().map_or(0, Refusal::number)
}

/// The issue number that the record of a step shows.
fn shown_number(call: Call, answer: Result<Answer, Refusal>) -> Option<u64>
    ensures { result ≡ shown_number call answer }
{
    match answer {
        Ok(Answer::Opened) | Err(_) => None,
        Ok(Answer::Issued(number) | Answer::Ran((_, number))) => Some(number),
        Ok(Answer::Proposed(_) | Answer::Fixed(_) | Answer::Clock(_)) => named(call),
    }
}

/// The issue number that a call names.
fn named(call: Call) -> Option<u64>
    ensures { result ≡ named call }
{
    match call {
        Call::Hear { number, .. } | Call::Gather { number, .. } | Call::Settle { number, .. } =>
            Some(number),
        Call::Open { .. } | Call::Send { .. } | Call::Run { .. } => None,
    }
}

/// The timestamp that the record of a step shows.
fn shown_time(answer: Result<Answer, Refusal>) -> Option<u64>
    ensures { result ≡ shown_time answer }
{
    match answer {
        Ok(Answer::Opened | Answer::Issued(_)) | Err(_) => None,
        Ok(Answer::Proposed(time) | Answer::Clock(time) | Answer::Ran((time, _))) => Some(time),
        Ok(Answer::Fixed(time)) => time,
    }
}

impl<'a> Trace<'a> {
    /// Adds the record of a step, as far as there is room.
    pub fn step(&mut self, number: usize, call: Call, answer: Result<Answer, Refusal>)
        ensures { Adds self.old (step_record number call answer) self.new }
    {
        let verdict = u64::from(verdict(answer));
        self.numbered(
            number as u64,
            verdict,
            shown_number(call, answer),
            shown_time(answer),
        );
    }

    /// Adds the record of a cell, as far as there is room.
    pub fn cell(&mut self, member: u8, index: usize, cell: u32)
        ensures { Adds self.old (cell_record member index cell) self.new }
    {
        self.lettered(b'C', u64::from(member), index as u64, u64::from(cell));
    }

    /// Adds the record of a fault, as far as there is room.
    fn fault(&mut self, fault: Fault)
        ensures { Adds self.old (fault_record fault) self.new }
    {
        let Fault { cause, record, at } = fault;
        let (_, number) = cause.row();
        self.lettered(b'F', u64::from(number), record as u64, at as u64);
    }
}

/// The record of a fault.
pub fn fault_record(fault: Fault) -> FaultRecord
    ensures bytes { result.bytes ≡ fault_record fault ++ replicate (48 - length (fault_record fault)) 0 }
    ensures used { result.used ≡ length (fault_record fault) }
    ensures within { result.used ≤ 48 }
{
    let mut bytes = [0; RECORD_ROOM];
    let mut trace = Trace {
        bytes: &mut bytes,
        used: 0,
    };
    trace.fault(fault);
    let used = trace.used;
    FaultRecord { bytes, used }
}
