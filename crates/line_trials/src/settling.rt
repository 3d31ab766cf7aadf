//! What a settle does to the member's clock and memory, row by row of the table in docs/LINE.md.
use crate::helpers::{hear_and_gather, hear_from, mark, opened, send_marks, set, take};
use line::state::Line;
use machine::axis_bank::AxisBank;
use ordering::calls::Refusal;
use std::test::Fail;

// Command 1 goes to member 1 alone and command 2 to both, two Sets of axis 0. Member 1 proposes 1 for command 2, and
// member 0 has proposed 0: the final timestamp is 1.
fn fixed_above() -> Result<Line<AxisBank>, Refusal> {
    let mut line = opened(2, 100)?;
    line.send(0, 0b10, set(0))?;
    line.send(0, 0b11, set(0))?;
    line.hear(1, 1)?;
    hear_and_gather(&mut line, 1, 2)?;
    hear_and_gather(&mut line, 0, 2)?;
    Ok(line)
}

// Then member 0 hears commands 3 and 4, two Sets of axis 1: its clock is 1, and 4 is all that it remembers.
fn fixed_equal() -> Result<Line<AxisBank>, Refusal> {
    let mut line = fixed_above()?;
    line.send(0, 0b01, set(1))?;
    line.send(0, 0b01, set(1))?;
    line.hear(0, 3)?;
    line.hear(0, 4)?;
    Ok(line)
}

#[test]
fn above_the_clock(rt: HostRuntime) -> Result<(), Fail> {
    let mut line = fixed_above()?;
    assert_eq!(rt; line.send(0, 0b01, set(1)), Ok(3));
    assert_eq!(rt; line.send(0, 0b01, set(1)), Ok(4));
    assert_eq!(rt; line.send(0, 0b01, set(0)), Ok(5));
    assert_eq!(rt; line.hear(0, 3), Ok(0));
    assert_eq!(rt; line.settle(0, 2), Ok(1));
    assert_eq!(rt; line.hear(0, 4), Ok(1), "3 is remembered no more");
    assert_eq!(rt; line.hear(0, 5), Ok(2), "2 is remembered");
    Ok(())
}

// Command 2 and 15 Marks are remembered at clock 0. Above the clock that makes no difference.
#[test]
fn above_the_clock_with_sixteen(rt: HostRuntime) -> Result<(), Fail> {
    let mut line = fixed_above()?;
    send_marks(&mut line, 0b01, 15)?;
    hear_from(&mut line, 0, 3, 18)?;
    assert_eq!(rt; line.settle(0, 2), Ok(1));
    assert_eq!(rt; line.send(0, 0b01, mark()), Ok(18));
    assert_eq!(rt; line.hear(0, 18), Ok(1));
    assert_eq!(rt; line.send(0, 0b01, set(0)), Ok(19));
    assert_eq!(rt; line.hear(0, 19), Ok(2), "2 is remembered");
    Ok(())
}

#[test]
fn equal_and_not_remembered(rt: HostRuntime) -> Result<(), Fail> {
    let mut line = fixed_equal()?;
    assert_eq!(rt; line.settle(0, 2), Ok(1));
    assert_eq!(rt; line.send(0, 0b01, mark()), Ok(5));
    assert_eq!(rt; line.hear(0, 5), Ok(1));
    assert_eq!(rt; line.send(0, 0b01, set(0)), Ok(6));
    assert_eq!(rt; line.hear(0, 6), Ok(2), "2 is remembered again");
    Ok(())
}

#[test]
fn equal_and_not_remembered_keeps_the_others(rt: HostRuntime) -> Result<(), Fail> {
    let mut line = fixed_equal()?;
    assert_eq!(rt; line.settle(0, 2), Ok(1));
    assert_eq!(rt; line.send(0, 0b01, set(1)), Ok(5));
    assert_eq!(rt; line.hear(0, 5), Ok(2), "4 is remembered too");
    Ok(())
}

// With command 4 and 14 Marks there are 15 remembered: command 2 is the sixteenth, and the next hear makes the clock
// rise.
#[test]
fn equal_as_the_sixteenth(rt: HostRuntime) -> Result<(), Fail> {
    let mut line = fixed_equal()?;
    send_marks(&mut line, 0b01, 15)?;
    hear_from(&mut line, 0, 5, 19)?;
    assert_eq!(rt; line.settle(0, 2), Ok(1));
    assert_eq!(rt; line.hear(0, 19), Ok(2));
    Ok(())
}

// Command 4 and 15 Marks are remembered at clock 1, and command 2 is not: the clock rises, and nothing is remembered
// afterwards, command 2 neither.
#[test]
fn equal_with_sixteen_others(rt: HostRuntime) -> Result<(), Fail> {
    let mut line = fixed_equal()?;
    send_marks(&mut line, 0b01, 15)?;
    hear_from(&mut line, 0, 5, 20)?;
    assert_eq!(rt; line.settle(0, 2), Ok(2));
    assert_eq!(rt; line.send(0, 0b01, set(0)), Ok(20));
    assert_eq!(rt; line.send(0, 0b01, set(1)), Ok(21));
    assert_eq!(rt; line.send(0, 0b01, set(1)), Ok(22));
    assert_eq!(rt; line.hear(0, 20), Ok(2), "2 is not remembered");
    assert_eq!(rt; line.hear(0, 21), Ok(2), "4 is not remembered");
    assert_eq!(rt; line.hear(0, 22), Ok(3), "21 is");
    Ok(())
}

// A Set and 15 Marks are remembered at clock 0, the Set among them: its settle changes nothing.
#[test]
fn equal_and_remembered_with_sixteen(rt: HostRuntime) -> Result<(), Fail> {
    let mut line = opened(1, 100)?;
    assert_eq!(rt; line.send(0, 1, set(0)), Ok(1));
    send_marks(&mut line, 1, 16)?;
    hear_from(&mut line, 0, 1, 17)?;
    assert_eq!(rt; line.gather(0, 1), Ok(Some(0)));
    assert_eq!(rt; line.settle(0, 1), Ok(0));
    assert_eq!(rt; line.hear(0, 17), Ok(1), "16 are remembered still");
    Ok(())
}

#[test]
fn equal_and_remembered(rt: HostRuntime) -> Result<(), Fail> {
    let mut line = opened(1, 100)?;
    send_marks(&mut line, 1, 17)?;
    assert_eq!(rt; take(&mut line, 0, 1), Ok(0));
    hear_from(&mut line, 0, 2, 17)?;
    assert_eq!(rt; line.hear(0, 17), Ok(1), "each of 16 is remembered once");
    Ok(())
}

// Command 1 is a Set of axis 0. Command 3 conflicts with 2 and makes the clock rise to 1, and is all that is
// remembered.
#[test]
fn below_the_clock(rt: HostRuntime) -> Result<(), Fail> {
    let mut line = opened(1, 9)?;
    assert_eq!(rt; line.send(0, 1, set(0)), Ok(1));
    assert_eq!(rt; line.send(0, 1, set(1)), Ok(2));
    assert_eq!(rt; line.send(0, 1, set(1)), Ok(3));
    hear_from(&mut line, 0, 1, 3)?;
    assert_eq!(rt; line.hear(0, 3), Ok(1));
    assert_eq!(rt; line.gather(0, 1), Ok(Some(0)));
    assert_eq!(rt; line.settle(0, 1), Ok(1));
    assert_eq!(rt; line.send(0, 1, set(0)), Ok(4));
    assert_eq!(rt; line.hear(0, 4), Ok(1), "1 is not remembered");
    assert_eq!(rt; line.send(0, 1, set(1)), Ok(5));
    assert_eq!(rt; line.hear(0, 5), Ok(2), "3 is remembered");
    Ok(())
}

#[test]
fn settle_is_for_one_member(rt: HostRuntime) -> Result<(), Fail> {
    let mut line = fixed_above()?;
    assert_eq!(rt; line.settle(0, 2), Ok(1));
    assert_eq!(rt; line.settle(1, 2), Ok(1));
    assert_eq!(rt; line.settle(0, 2), Err(Refusal::AlreadyDone));
    Ok(())
}
