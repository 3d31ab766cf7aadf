//! What the tests start from.
use line::state::Line;
use machine::axis_bank::AxisBank;
use machine::command::Command;
use ordering::calls::Refusal;

/// A command that conflicts with none.
pub(crate) fn mark() -> Command {
    Command::Mark { code: 7 }
}

/// Two Sets conflict if their axis is the same.
pub(crate) fn set(axis: u8) -> Command {
    Command::Set { axis, value: 5 }
}

/// An open line of axis banks.
pub(crate) fn opened(members: u8, last: u64) -> Result<Line<AxisBank>, Refusal> {
    let mut line = Line::new();
    line.open(members, last)?;
    Ok(line)
}

/// Sends that many Marks from member 0 to the set.
pub(crate) fn send_marks(
    line: &mut Line<AxisBank>,
    destinations: u16,
    count: u64,
) -> Result<(), Refusal> {
    for _ in 0..count {
        line.send(0, destinations, mark())?;
    }
    Ok(())
}

/// The member hears the numbers from `first` up to, and without, `end`.
pub(crate) fn hear_from(
    line: &mut Line<AxisBank>,
    member: u8,
    first: u64,
    end: u64,
) -> Result<(), Refusal> {
    for number in first..end {
        line.hear(member, number)?;
    }
    Ok(())
}

/// The member hears the command and the sender gets its proposal; answers the final timestamp if that fixed it.
pub(crate) fn hear_and_gather(
    line: &mut Line<AxisBank>,
    member: u8,
    number: u64,
) -> Result<Option<u64>, Refusal> {
    line.hear(member, number)?;
    line.gather(member, number)
}

/// Takes a command whose only destination is the member as far as settled; answers the clock afterwards.
pub(crate) fn take(line: &mut Line<AxisBank>, member: u8, number: u64) -> Result<u64, Refusal> {
    hear_and_gather(line, member, number)?;
    line.settle(member, number)
}
