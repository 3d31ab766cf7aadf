//! A member or sender that the line does not have.
use crate::helpers::{mark, opened};
use line::state::Station;
use machine::axis_bank::AxisBank;
use machine::kind::Machine;
use ordering::calls::Refusal;
use std::test::Fail;

#[test]
fn no_member_at_every_call(rt: HostRuntime) -> Result<(), Fail> {
    let mut line = opened(3, 9)?;
    assert_eq!(rt; line.send(2, 0b111, mark()), Ok(1));
    assert_eq!(rt; line.send(3, 0b111, mark()), Err(Refusal::NoMember));
    assert_eq!(rt; line.hear(3, 1), Err(Refusal::NoMember));
    assert_eq!(rt; line.gather(3, 1), Err(Refusal::NoMember));
    assert_eq!(rt; line.settle(3, 1), Err(Refusal::NoMember));
    let mut station = Station::<AxisBank>::new(3);
    assert_eq!(rt; line.run(&mut station), Err(Refusal::NoMember));
    Ok(())
}

#[test]
fn member_255_is_none(rt: HostRuntime) -> Result<(), Fail> {
    let mut line = opened(16, 9)?;
    assert_eq!(rt; line.send(255, 1, mark()), Err(Refusal::NoMember));
    assert_eq!(rt; line.send(16, 1, mark()), Err(Refusal::NoMember));
    assert_eq!(rt; line.send(15, 1, mark()), Ok(1));
    assert_eq!(rt; line.hear(255, 1), Err(Refusal::NoMember));
    assert_eq!(rt; line.gather(16, 1), Err(Refusal::NoMember));
    assert_eq!(rt; line.settle(128, 1), Err(Refusal::NoMember));
    Ok(())
}

#[test]
fn no_member_before_the_number(rt: HostRuntime) -> Result<(), Fail> {
    let mut line = opened(3, 9)?;
    assert_eq!(rt; line.hear(3, 0), Err(Refusal::NoMember));
    assert_eq!(rt; line.gather(3, 1), Err(Refusal::NoMember));
    assert_eq!(rt;
        line.settle(3, 18446744073709551615),
        Err(Refusal::NoMember)
    );
    Ok(())
}

#[test]
fn no_sender_before_the_set_and_the_numbers(rt: HostRuntime) -> Result<(), Fail> {
    let mut line = opened(3, 1)?;
    assert_eq!(rt; line.send(3, 0, mark()), Err(Refusal::NoMember));
    assert_eq!(rt; line.send(3, 0b1000, mark()), Err(Refusal::NoMember));
    assert_eq!(rt; line.send(0, 0b1, mark()), Ok(1));
    assert_eq!(rt;
        line.send(3, 0b1, mark()),
        Err(Refusal::NoMember),
        "the numbers are used up"
    );
    Ok(())
}

#[test]
fn set_names_members_only(rt: HostRuntime) -> Result<(), Fail> {
    let mut line = opened(3, 9)?;
    assert_eq!(rt; line.send(0, 0, mark()), Err(Refusal::BadSet));
    assert_eq!(rt; line.send(0, 0b1000, mark()), Err(Refusal::BadSet));
    assert_eq!(rt; line.send(0, 0b1001, mark()), Err(Refusal::BadSet));
    assert_eq!(rt; line.send(0, 0xffff, mark()), Err(Refusal::BadSet));
    assert_eq!(rt; line.send(0, 0b111, mark()), Ok(1));
    assert_eq!(rt; line.send(0, 0b100, mark()), Ok(2));
    Ok(())
}

#[test]
fn sets_of_one_and_of_sixteen(rt: HostRuntime) -> Result<(), Fail> {
    let mut single = opened(1, 9)?;
    assert_eq!(rt; single.send(0, 2, mark()), Err(Refusal::BadSet));
    assert_eq!(rt; single.send(0, 1, mark()), Ok(1));
    let mut line = opened(16, 9)?;
    assert_eq!(rt; line.send(0, 0, mark()), Err(Refusal::BadSet));
    assert_eq!(rt; line.send(0, 0xffff, mark()), Ok(1));
    assert_eq!(rt; line.hear(15, 1), Ok(0));
    Ok(())
}

#[test]
fn bad_set_before_the_numbers(rt: HostRuntime) -> Result<(), Fail> {
    let mut line = opened(3, 1)?;
    assert_eq!(rt; line.send(0, 1, mark()), Ok(1));
    assert_eq!(rt; line.send(0, 0, mark()), Err(Refusal::BadSet));
    assert_eq!(rt; line.send(0, 0b1000, mark()), Err(Refusal::BadSet));
    assert_eq!(rt; line.send(0, 1, mark()), Err(Refusal::NumbersUsedUp));
    Ok(())
}
