//! What the line has answered.
use ordering::calls::{Answer, Refusal};
use std::fmt;

/// How many calls of each sort the line has accepted and refused, and the greatest numbers that it has answered.
#[derive(Clone, Copy, Default)]
pub(crate) struct Counts {
    opens: u64,
    sends: u64,
    hears: u64,
    gathers: u64,
    finals: u64,
    settles: u64,
    runs: u64,
    used_up: u64,
    table_full: u64,
    nothing_ready: u64,
    other_refusals: u64,
    pub(crate) greatest_number: u64,
    greatest_clock: u64,
}

impl Counts {
    /// Notes what a call was answered.
    pub(crate) fn note(&mut self, answer: Result<Answer, Refusal>) {
        let count = match answer {
            Ok(Answer::Opened) => &mut self.opens,
            Ok(Answer::Issued(number)) => {
                self.greatest_number = self.greatest_number.max(number);
                &mut self.sends
            }
            Ok(Answer::Proposed(_)) => &mut self.hears,
            Ok(Answer::Fixed(timestamp)) => {
                self.finals = self.finals.wrapping_add(u64::from(timestamp.is_some()));
                &mut self.gathers
            }
            Ok(Answer::Clock(clock)) => {
                self.greatest_clock = self.greatest_clock.max(clock);
                &mut self.settles
            }
            Ok(Answer::Ran(_)) => &mut self.runs,
            Err(Refusal::NumbersUsedUp) => &mut self.used_up,
            Err(Refusal::TableFull) => &mut self.table_full,
            Err(Refusal::NothingReady) => &mut self.nothing_ready,
            Err(_) => &mut self.other_refusals,
        };
        *count = count.wrapping_add(1);
    }
}

impl fmt::Display for Counts {
    fn fmt<W: fmt::Write>(&self, f: &mut fmt::Formatter<W>) -> fmt::Result {
        writeln!(f, "     sends    {:>8}", self.sends)?;
        writeln!(f, "     hears    {:>8}", self.hears)?;
        writeln!(
            f,
            "     gathers  {:>8}, final at {}",
            self.gathers, self.finals
        )?;
        writeln!(f, "     settles  {:>8}", self.settles)?;
        writeln!(f, "     runs     {:>8}", self.runs)?;
        write!(f, "     refused: {} table full", self.table_full)?;
        write!(f, ", {} numbers used up", self.used_up)?;
        write!(f, ", {} nothing ready", self.nothing_ready)?;
        writeln!(f, ", {} others", self.other_refusals)?;
        writeln!(f, "     greatest issue number {}", self.greatest_number)?;
        write!(f, "     greatest clock {}", self.greatest_clock)
    }
}
