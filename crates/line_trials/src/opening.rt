//! Open: its counts, and once only.
use crate::helpers::{mark, opened};
use line::state::{Line, Station};
use machine::axis_bank::AxisBank;
use machine::kind::Machine;
use ordering::calls::Refusal;
use std::test::Fail;

#[test]
fn members_are_one_to_sixteen(rt: HostRuntime) {
    let mut line = Line::<AxisBank>::new();
    assert_eq!(rt; line.open(0, 5), Err(Refusal::BadMemberCount));
    assert_eq!(rt; line.open(17, 5), Err(Refusal::BadMemberCount));
    assert_eq!(rt; line.open(255, 5), Err(Refusal::BadMemberCount));
    assert_eq!(rt; line.open(16, 5), Ok(()));
    assert_eq!(rt; line.send(15, 0x8000, mark()), Ok(1));
    let mut single = Line::<AxisBank>::new();
    assert_eq!(rt; single.open(1, 5), Ok(()));
    assert_eq!(rt; single.send(0, 1, mark()), Ok(1));
}

#[test]
fn last_number_is_one_to_two_to_48(rt: HostRuntime) {
    let mut line = Line::<AxisBank>::new();
    assert_eq!(rt; line.open(1, 0), Err(Refusal::BadLastNumber));
    assert_eq!(rt; line.open(1, 281474976710657), Err(Refusal::BadLastNumber));
    assert_eq!(rt;
        line.open(1, 18446744073709551615),
        Err(Refusal::BadLastNumber)
    );
    assert_eq!(rt; line.open(1, 281474976710656), Ok(()));
    assert_eq!(rt; line.send(0, 1, mark()), Ok(1));
    let mut short = Line::<AxisBank>::new();
    assert_eq!(rt; short.open(1, 1), Ok(()));
}

#[test]
fn member_count_before_last_number(rt: HostRuntime) {
    let mut line = Line::<AxisBank>::new();
    assert_eq!(rt; line.open(0, 0), Err(Refusal::BadMemberCount));
    assert_eq!(rt;
        line.open(17, 281474976710657),
        Err(Refusal::BadMemberCount)
    );
}

#[test]
fn already_open_before_the_counts(rt: HostRuntime) -> Result<(), Fail> {
    let mut line = opened(2, 1)?;
    assert_eq!(rt; line.open(2, 1), Err(Refusal::AlreadyOpen));
    assert_eq!(rt; line.open(0, 1), Err(Refusal::AlreadyOpen));
    assert_eq!(rt; line.open(17, 1), Err(Refusal::AlreadyOpen));
    assert_eq!(rt; line.open(2, 0), Err(Refusal::AlreadyOpen));
    assert_eq!(rt; line.open(17, 281474976710657), Err(Refusal::AlreadyOpen));
    Ok(())
}

#[test]
fn closed_at_every_other_call(rt: HostRuntime) {
    let mut line = Line::<AxisBank>::new();
    let mut station = Station::<AxisBank>::new(0);
    assert_eq!(rt; line.send(0, 1, mark()), Err(Refusal::Closed));
    assert_eq!(rt; line.hear(0, 1), Err(Refusal::Closed));
    assert_eq!(rt; line.gather(0, 1), Err(Refusal::Closed));
    assert_eq!(rt; line.settle(0, 1), Err(Refusal::Closed));
    assert_eq!(rt; line.run(&mut station), Err(Refusal::Closed));
}

#[test]
fn closed_before_a_missing_member(rt: HostRuntime) {
    let mut line = Line::<AxisBank>::new();
    let mut station = Station::<AxisBank>::new(200);
    assert_eq!(rt; line.send(16, 0, mark()), Err(Refusal::Closed));
    assert_eq!(rt; line.hear(16, 0), Err(Refusal::Closed));
    assert_eq!(rt; line.gather(16, 0), Err(Refusal::Closed));
    assert_eq!(rt; line.settle(16, 0), Err(Refusal::Closed));
    assert_eq!(rt; line.run(&mut station), Err(Refusal::Closed));
}

#[test]
fn refused_open_leaves_it_closed(rt: HostRuntime) {
    let mut line = Line::<AxisBank>::new();
    assert_eq!(rt; line.open(0, 5), Err(Refusal::BadMemberCount));
    assert_eq!(rt; line.open(3, 0), Err(Refusal::BadLastNumber));
    assert_eq!(rt; line.send(0, 1, mark()), Err(Refusal::Closed));
    assert_eq!(rt; line.open(2, 1), Ok(()));
    assert_eq!(rt; line.send(1, 2, mark()), Ok(1));
}
