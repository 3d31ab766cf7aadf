//! Numbers that no open command has.
use crate::helpers::{mark, opened, take};
use line::state::Station;
use machine::axis_bank::AxisBank;
use machine::kind::Machine;
use ordering::calls::Refusal;
use std::test::Fail;

#[test]
fn number_zero(rt: HostRuntime) -> Result<(), Fail> {
    let mut line = opened(2, 9)?;
    assert_eq!(rt;
        line.hear(0, 0),
        Err(Refusal::NoCommand),
        "nothing was sent"
    );
    assert_eq!(rt; line.send(0, 1, mark()), Ok(1));
    assert_eq!(rt; line.hear(0, 0), Err(Refusal::NoCommand));
    assert_eq!(rt; line.gather(0, 0), Err(Refusal::NoCommand));
    assert_eq!(rt; line.settle(0, 0), Err(Refusal::NoCommand));
    Ok(())
}

#[test]
fn never_issued(rt: HostRuntime) -> Result<(), Fail> {
    let mut line = opened(2, 9)?;
    assert_eq!(rt; line.send(0, 1, mark()), Ok(1));
    assert_eq!(rt; line.hear(0, 2), Err(Refusal::NoCommand));
    assert_eq!(rt; line.gather(0, 2), Err(Refusal::NoCommand));
    assert_eq!(rt; line.settle(0, 2), Err(Refusal::NoCommand));
    assert_eq!(rt; line.hear(0, 18446744073709551615), Err(Refusal::NoCommand));
    assert_eq!(rt;
        line.gather(0, 18446744073709551615),
        Err(Refusal::NoCommand)
    );
    assert_eq!(rt;
        line.settle(0, 18446744073709551615),
        Err(Refusal::NoCommand)
    );
    Ok(())
}

#[test]
fn run_everywhere(rt: HostRuntime) -> Result<(), Fail> {
    let mut line = opened(2, 9)?;
    let mut station = Station::<AxisBank>::new(0);
    assert_eq!(rt; line.send(0, 1, mark()), Ok(1));
    take(&mut line, 0, 1)?;
    assert_eq!(rt; line.run(&mut station), Ok((0, 1)));
    assert_eq!(rt; line.hear(0, 1), Err(Refusal::NoCommand));
    assert_eq!(rt; line.gather(0, 1), Err(Refusal::NoCommand));
    assert_eq!(rt; line.settle(0, 1), Err(Refusal::NoCommand));
    Ok(())
}

// Member 1 was no destination of the command either: that it has left comes first.
#[test]
fn no_command_before_the_destination(rt: HostRuntime) -> Result<(), Fail> {
    let mut line = opened(2, 9)?;
    let mut station = Station::<AxisBank>::new(0);
    assert_eq!(rt; line.send(0, 1, mark()), Ok(1));
    take(&mut line, 0, 1)?;
    assert_eq!(rt; line.run(&mut station), Ok((0, 1)));
    assert_eq!(rt; line.hear(1, 1), Err(Refusal::NoCommand));
    assert_eq!(rt; line.gather(1, 1), Err(Refusal::NoCommand));
    assert_eq!(rt; line.settle(1, 1), Err(Refusal::NoCommand));
    Ok(())
}

#[test]
fn two_destinations_run_everywhere(rt: HostRuntime) -> Result<(), Fail> {
    let mut line = opened(2, 9)?;
    let mut first = Station::<AxisBank>::new(0);
    let mut second = Station::<AxisBank>::new(1);
    assert_eq!(rt; line.send(0, 0b11, mark()), Ok(1));
    assert_eq!(rt; line.hear(0, 1), Ok(0));
    assert_eq!(rt; line.hear(1, 1), Ok(0));
    assert_eq!(rt; line.gather(0, 1), Ok(None));
    assert_eq!(rt; line.gather(1, 1), Ok(Some(0)));
    assert_eq!(rt; line.settle(0, 1), Ok(0));
    assert_eq!(rt; line.settle(1, 1), Ok(0));
    assert_eq!(rt; line.run(&mut second), Ok((0, 1)));
    assert_eq!(rt;
        line.hear(1, 1),
        Err(Refusal::AlreadyDone),
        "member 0 has still to run it"
    );
    assert_eq!(rt; line.run(&mut first), Ok((0, 1)));
    assert_eq!(rt; line.hear(1, 1), Err(Refusal::NoCommand));
    Ok(())
}
