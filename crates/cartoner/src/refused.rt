//! The error of a cycle that the line does not let through.
use ordering::calls::{Answer, Refusal};
use thiserror::Error;

/// A call of the cycle that the line refuses, or answers otherwise than it is to.
#[derive(Debug, Drop, Error)]
pub(crate) enum Refused {
    #[error("the line refuses with {}", .0.number())]
    Refusal(#[from] Refusal),
    /// The answer of another kind of call. No line gives one, but the type of an answer has all six.
    #[error("the line answers {0:?}")]
    Answer(Answer),
}
