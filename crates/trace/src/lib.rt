//! The records of a trace, as RFC 4180 text in the caller's bytes.
#![tactic(auto)]

mod records;
mod writing;

pub use records::{FaultRecord, RECORD_ROOM, fault_record};

/// Records written into a caller's bytes, one behind the other.
// The bytes are lent, and an `ArrayVec` would own its own.
#[derive(Drop)]
pub struct Trace<'a> {
    pub bytes: &'a mut [u8],
    pub used: usize,
}
