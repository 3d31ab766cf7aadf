//! What a member proposes.
use crate::helpers::{mark, opened, set, take};
use line::state::Station;
use machine::axis_bank::AxisBank;
use machine::command::Command;
use machine::kind::Machine;
use std::test::Fail;

#[test]
fn conflict_raises_the_clock(rt: HostRuntime) -> Result<(), Fail> {
    let mut line = opened(1, 9)?;
    assert_eq!(rt; line.send(0, 1, set(0)), Ok(1));
    assert_eq!(rt; line.send(0, 1, set(1)), Ok(2));
    assert_eq!(rt; line.send(0, 1, set(0)), Ok(3));
    assert_eq!(rt; line.send(0, 1, set(1)), Ok(4));
    assert_eq!(rt; line.send(0, 1, set(0)), Ok(5));
    assert_eq!(rt; line.hear(0, 1), Ok(0));
    assert_eq!(rt; line.hear(0, 2), Ok(0));
    assert_eq!(rt; line.hear(0, 3), Ok(1), "1 is remembered");
    assert_eq!(rt; line.hear(0, 4), Ok(1), "2 is remembered no more");
    assert_eq!(rt; line.hear(0, 5), Ok(2), "3 is remembered");
    Ok(())
}

#[test]
fn shifts_share_a_timestamp(rt: HostRuntime) -> Result<(), Fail> {
    let mut line = opened(1, 9)?;
    assert_eq!(rt;
        line.send(0, 1, Command::Shift { axis: 0, amount: 1 }),
        Ok(1)
    );
    assert_eq!(rt;
        line.send(0, 1, Command::Shift { axis: 0, amount: 2 }),
        Ok(2)
    );
    assert_eq!(rt; line.send(0, 1, set(0)), Ok(3));
    assert_eq!(rt; line.hear(0, 2), Ok(0));
    assert_eq!(rt; line.hear(0, 1), Ok(0));
    assert_eq!(rt; line.hear(0, 3), Ok(1));
    Ok(())
}

#[test]
fn sent_moves_no_clock(rt: HostRuntime) -> Result<(), Fail> {
    let mut line = opened(2, 9)?;
    assert_eq!(rt; line.send(0, 0b01, set(0)), Ok(1));
    assert_eq!(rt; line.send(0, 0b11, set(0)), Ok(2));
    assert_eq!(rt; line.hear(0, 2), Ok(0), "1 is not heard yet");
    assert_eq!(rt; line.hear(0, 1), Ok(1));
    assert_eq!(rt; line.hear(1, 2), Ok(0), "the clock of member 0 is its own");
    Ok(())
}

// The first Set has run everywhere and has left; it is remembered all the same.
#[test]
fn one_that_left_is_remembered(rt: HostRuntime) -> Result<(), Fail> {
    let mut line = opened(1, 9)?;
    let mut station = Station::<AxisBank>::new(0);
    assert_eq!(rt; line.send(0, 1, set(0)), Ok(1));
    assert_eq!(rt; take(&mut line, 0, 1), Ok(0));
    assert_eq!(rt; line.run(&mut station), Ok((0, 1)));
    assert_eq!(rt; line.send(0, 1, mark()), Ok(2));
    assert_eq!(rt; line.send(0, 1, set(0)), Ok(3));
    assert_eq!(rt; line.hear(0, 2), Ok(0));
    assert_eq!(rt; line.hear(0, 3), Ok(1));
    Ok(())
}
