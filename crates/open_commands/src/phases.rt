//! What a call does to a destination: the phase and the step together.
ghost use Rattle.std.specs.Prelude.{◌≡◌};
ghost use Rattle.open_commands.specs.Phases.{next_phase};

use ordering::calls::{Phase, Refusal};

/// A step of one destination: a hear with its proposal, a gather, or a settle with the final timestamp if it is fixed.
#[derive(Clone, Copy)]
pub enum Step {
    Hear(u64),
    Gather,
    Settle(Option<u64>),
}

/// The phase after the step, or why it cannot be done: too early, or done already.
pub fn next_phase(phase: Phase, step: Step) -> Result<Phase, Refusal>
    ensures { result ≡ next_phase phase step }
{
    // One match on phase and step: this form is a wanted one (docs/DECISIONS.md).
    match (phase, step) {
        (Phase::Sent, Step::Hear(proposal)) => Ok(Phase::Heard(proposal)),
        (Phase::Heard(proposal), Step::Gather) => Ok(Phase::Gathered(proposal)),
        (Phase::Gathered(_), Step::Settle(Some(_))) => Ok(Phase::Settled),
        (_, Step::Settle(None)) => Err(Refusal::TooEarly),
        (Phase::Sent, Step::Gather | Step::Settle(_)) => Err(Refusal::TooEarly),
        (Phase::Heard(_), Step::Settle(_)) => Err(Refusal::TooEarly),
        _ => Err(Refusal::AlreadyDone),
    }
}
