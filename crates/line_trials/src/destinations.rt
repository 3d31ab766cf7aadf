//! Members that a command does not go to.
use crate::helpers::{hear_and_gather, mark, opened};
use ordering::calls::Refusal;
use std::test::Fail;

#[test]
fn no_destination_at_every_call(rt: HostRuntime) -> Result<(), Fail> {
    let mut line = opened(3, 9)?;
    assert_eq!(rt; line.send(1, 0b101, mark()), Ok(1));
    assert_eq!(rt;
        line.hear(1, 1),
        Err(Refusal::NoDestination),
        "the sender is none"
    );
    assert_eq!(rt; line.gather(1, 1), Err(Refusal::NoDestination));
    assert_eq!(rt; line.settle(1, 1), Err(Refusal::NoDestination));
    assert_eq!(rt; line.hear(2, 1), Ok(0));
    assert_eq!(rt; line.hear(0, 1), Ok(0));
    Ok(())
}

// The command is still sent at its destination, so a gather or settle there would be too early.
#[test]
fn no_destination_before_too_early(rt: HostRuntime) -> Result<(), Fail> {
    let mut line = opened(3, 9)?;
    assert_eq!(rt; line.send(0, 0b001, mark()), Ok(1));
    assert_eq!(rt; line.gather(2, 1), Err(Refusal::NoDestination));
    assert_eq!(rt; line.settle(2, 1), Err(Refusal::NoDestination));
    assert_eq!(rt; line.gather(0, 1), Err(Refusal::TooEarly));
    assert_eq!(rt; line.settle(0, 1), Err(Refusal::TooEarly));
    Ok(())
}

// The final timestamp is fixed and member 0 has settled: hear, gather and settle are done at it.
#[test]
fn no_destination_before_already_done(rt: HostRuntime) -> Result<(), Fail> {
    let mut line = opened(3, 9)?;
    assert_eq!(rt; line.send(0, 0b001, mark()), Ok(1));
    assert_eq!(rt; hear_and_gather(&mut line, 0, 1), Ok(Some(0)));
    assert_eq!(rt; line.settle(0, 1), Ok(0));
    assert_eq!(rt; line.hear(1, 1), Err(Refusal::NoDestination));
    assert_eq!(rt; line.gather(1, 1), Err(Refusal::NoDestination));
    assert_eq!(rt; line.settle(1, 1), Err(Refusal::NoDestination));
    assert_eq!(rt; line.hear(0, 1), Err(Refusal::AlreadyDone));
    assert_eq!(rt; line.gather(0, 1), Err(Refusal::AlreadyDone));
    assert_eq!(rt; line.settle(0, 1), Err(Refusal::AlreadyDone));
    Ok(())
}

#[test]
fn each_command_has_its_own_set(rt: HostRuntime) -> Result<(), Fail> {
    let mut line = opened(16, 9)?;
    assert_eq!(rt; line.send(0, 0x8000, mark()), Ok(1));
    assert_eq!(rt; line.send(0, 0x4001, mark()), Ok(2));
    assert_eq!(rt; line.hear(15, 2), Err(Refusal::NoDestination));
    assert_eq!(rt; line.hear(14, 1), Err(Refusal::NoDestination));
    assert_eq!(rt; line.hear(15, 1), Ok(0));
    assert_eq!(rt; line.hear(14, 2), Ok(0));
    assert_eq!(rt; line.hear(1, 2), Err(Refusal::NoDestination));
    assert_eq!(rt; line.hear(0, 2), Ok(0));
    Ok(())
}
