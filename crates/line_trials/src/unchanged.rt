//! A refused call leaves everything: the calls after it answer as if it had not been made.
use crate::helpers::{hear_from, mark, opened, send_marks, set, take};
use line::state::Station;
use machine::axis_bank::AxisBank;
use machine::kind::Machine;
use ordering::calls::Refusal;
use std::test::Fail;

#[test]
fn after_a_refused_open(rt: HostRuntime) -> Result<(), Fail> {
    let mut line = opened(2, 2)?;
    assert_eq!(rt; line.send(0, 1, set(0)), Ok(1));
    assert_eq!(rt; line.hear(0, 1), Ok(0));
    assert_eq!(rt; line.open(16, 9), Err(Refusal::AlreadyOpen));
    assert_eq!(rt;
        line.send(2, 1, mark()),
        Err(Refusal::NoMember),
        "two members still"
    );
    assert_eq!(rt; line.gather(0, 1), Ok(Some(0)));
    assert_eq!(rt; line.send(0, 1, set(0)), Ok(2));
    assert_eq!(rt; line.hear(0, 2), Ok(1), "1 is remembered");
    assert_eq!(rt;
        line.send(0, 1, mark()),
        Err(Refusal::NumbersUsedUp),
        "the last number is 2 still"
    );
    Ok(())
}

#[test]
fn after_a_refused_send(rt: HostRuntime) -> Result<(), Fail> {
    let mut line = opened(2, 2)?;
    let mut station = Station::<AxisBank>::new(0);
    assert_eq!(rt; line.send(2, 1, set(0)), Err(Refusal::NoMember));
    assert_eq!(rt; line.send(0, 0, set(0)), Err(Refusal::BadSet));
    assert_eq!(rt; line.hear(0, 1), Err(Refusal::NoCommand));
    assert_eq!(rt; line.send(0, 1, mark()), Ok(1));
    assert_eq!(rt; line.send(0, 1, mark()), Ok(2));
    assert_eq!(rt; line.send(0, 1, mark()), Err(Refusal::NumbersUsedUp));
    assert_eq!(rt; line.hear(0, 3), Err(Refusal::NoCommand));
    assert_eq!(rt; take(&mut line, 0, 2), Ok(0));
    assert_eq!(rt; line.run(&mut station), Ok((0, 2)));
    Ok(())
}

// A second hear of a Set would conflict with the first and make the clock rise, and would be remembered.
#[test]
fn after_a_refused_hear(rt: HostRuntime) -> Result<(), Fail> {
    let mut line = opened(2, 100)?;
    assert_eq!(rt; line.send(0, 1, set(0)), Ok(1));
    send_marks(&mut line, 1, 16)?;
    assert_eq!(rt; line.hear(0, 1), Ok(0));
    assert_eq!(rt; line.hear(0, 1), Err(Refusal::AlreadyDone));
    assert_eq!(rt; line.hear(1, 1), Err(Refusal::NoDestination));
    assert_eq!(rt; line.hear(0, 99), Err(Refusal::NoCommand));
    hear_from(&mut line, 0, 2, 16)?;
    assert_eq!(rt; line.hear(0, 16), Ok(0), "the sixteenth");
    assert_eq!(rt; line.hear(0, 17), Ok(1));
    assert_eq!(rt; line.gather(0, 1), Ok(Some(0)), "the first proposal stands");
    Ok(())
}

#[test]
fn after_a_refused_gather(rt: HostRuntime) -> Result<(), Fail> {
    let mut line = opened(2, 9)?;
    assert_eq!(rt; line.send(0, 0b11, mark()), Ok(1));
    assert_eq!(rt; line.gather(0, 1), Err(Refusal::TooEarly));
    assert_eq!(rt; line.hear(0, 1), Ok(0), "it was sent still");
    assert_eq!(rt; line.gather(0, 1), Ok(None));
    assert_eq!(rt; line.gather(0, 1), Err(Refusal::AlreadyDone));
    assert_eq!(rt;
        line.settle(0, 1),
        Err(Refusal::TooEarly),
        "nothing was fixed"
    );
    assert_eq!(rt; line.hear(1, 1), Ok(0));
    assert_eq!(rt; line.gather(1, 1), Ok(Some(0)));
    assert_eq!(rt; line.settle(0, 1), Ok(0));
    assert_eq!(rt; line.gather(0, 1), Err(Refusal::AlreadyDone));
    assert_eq!(rt;
        line.settle(0, 1),
        Err(Refusal::AlreadyDone),
        "it was settled still"
    );
    Ok(())
}

#[test]
fn after_a_refused_settle(rt: HostRuntime) -> Result<(), Fail> {
    let mut line = opened(2, 9)?;
    let mut station = Station::<AxisBank>::new(0);
    assert_eq!(rt; line.send(0, 1, set(0)), Ok(1));
    assert_eq!(rt; line.settle(0, 1), Err(Refusal::TooEarly));
    assert_eq!(rt; line.hear(0, 1), Ok(0));
    assert_eq!(rt; line.settle(0, 1), Err(Refusal::TooEarly));
    assert_eq!(rt; line.run(&mut station), Err(Refusal::NothingReady));
    assert_eq!(rt; line.gather(0, 1), Ok(Some(0)));
    assert_eq!(rt; line.settle(0, 1), Ok(0));
    assert_eq!(rt; line.settle(0, 1), Err(Refusal::AlreadyDone));
    assert_eq!(rt; line.send(0, 1, mark()), Ok(2));
    assert_eq!(rt; line.hear(0, 2), Ok(0), "the clock is 0 still");
    assert_eq!(rt; line.run(&mut station), Ok((0, 1)));
    Ok(())
}

#[test]
fn after_a_refused_run(rt: HostRuntime) -> Result<(), Fail> {
    let mut line = opened(2, 9)?;
    let mut station = Station::<AxisBank>::new(0);
    let mut missing = Station::<AxisBank>::new(2);
    assert_eq!(rt; line.send(0, 1, set(4)), Ok(1));
    assert_eq!(rt; line.hear(0, 1), Ok(0));
    assert_eq!(rt; line.run(&mut station), Err(Refusal::NothingReady));
    assert_eq!(rt; line.run(&mut missing), Err(Refusal::NoMember));
    assert_eq!(rt; station.read(4), Some(0));
    assert_eq!(rt; missing.read(4), Some(0));
    assert_eq!(rt; line.gather(0, 1), Ok(Some(0)), "it was heard still");
    assert_eq!(rt; line.settle(0, 1), Ok(0));
    assert_eq!(rt; line.run(&mut missing), Err(Refusal::NoMember));
    assert_eq!(rt; line.run(&mut station), Ok((0, 1)));
    assert_eq!(rt; station.read(4), Some(5));
    Ok(())
}
