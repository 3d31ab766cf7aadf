//! The call that makes any call answers what they answer.
use crate::helpers::{mark, opened, set, take};
use line::state::{Line, Station};
use machine::axis_bank::AxisBank;
use machine::command::Command;
use machine::kind::Machine;
use ordering::calls::{Answer, Call, Refusal};
use std::test::Fail;

// The calls with their arguments in order, so that each stands on its test's line.
fn open(members: u8, last: u64) -> Call {
    Call::Open { members, last }
}

fn send(sender: u8, set: u16, command: Command) -> Call {
    Call::Send {
        sender,
        set,
        command,
    }
}

fn hear(member: u8, number: u64) -> Call {
    Call::Hear { member, number }
}

fn gather(member: u8, number: u64) -> Call {
    Call::Gather { member, number }
}

fn settle(member: u8, number: u64) -> Call {
    Call::Settle { member, number }
}

#[test]
fn ask_open(rt: HostRuntime) {
    let mut line = Line::<AxisBank>::new();
    let mut station = Station::<AxisBank>::new(0);
    assert_eq!(rt;
        line.ask(send(0, 1, mark()), &mut station),
        Err(Refusal::Closed)
    );
    assert_eq!(rt;
        line.ask(open(17, 0), &mut station),
        Err(Refusal::BadMemberCount)
    );
    assert_eq!(rt;
        line.ask(open(2, 0), &mut station),
        Err(Refusal::BadLastNumber)
    );
    assert_eq!(rt; line.ask(open(2, 1), &mut station), Ok(Answer::Opened));
    assert_eq!(rt;
        line.ask(open(2, 1), &mut station),
        Err(Refusal::AlreadyOpen)
    );
    assert_eq!(rt; line.send(1, 0b11, mark()), Ok(1));
    assert_eq!(rt; line.send(1, 0b11, mark()), Err(Refusal::NumbersUsedUp));
}

#[test]
fn ask_send(rt: HostRuntime) -> Result<(), Fail> {
    let mut line = opened(3, 2)?;
    let mut station = Station::<AxisBank>::new(0);
    assert_eq!(rt;
        line.ask(send(3, 0, mark()), &mut station),
        Err(Refusal::NoMember)
    );
    assert_eq!(rt;
        line.ask(send(2, 0, mark()), &mut station),
        Err(Refusal::BadSet)
    );
    assert_eq!(rt;
        line.ask(send(2, 4, set(0)), &mut station),
        Ok(Answer::Issued(1))
    );
    assert_eq!(rt;
        line.ask(send(2, 4, set(0)), &mut station),
        Ok(Answer::Issued(2))
    );
    assert_eq!(rt;
        line.ask(send(2, 4, mark()), &mut station),
        Err(Refusal::NumbersUsedUp)
    );
    assert_eq!(rt; line.hear(0, 1), Err(Refusal::NoDestination));
    assert_eq!(rt; line.hear(2, 1), Ok(0));
    assert_eq!(rt; line.hear(2, 2), Ok(1));
    Ok(())
}

// The station is that of member 0: only a run looks at it.
#[test]
fn ask_hear(rt: HostRuntime) -> Result<(), Fail> {
    let mut line = opened(2, 9)?;
    let mut station = Station::<AxisBank>::new(0);
    assert_eq!(rt; line.send(0, 0b10, set(0)), Ok(1));
    assert_eq!(rt; line.send(0, 0b10, set(0)), Ok(2));
    assert_eq!(rt; line.ask(hear(2, 1), &mut station), Err(Refusal::NoMember));
    assert_eq!(rt; line.ask(hear(1, 0), &mut station), Err(Refusal::NoCommand));
    assert_eq!(rt;
        line.ask(hear(0, 1), &mut station),
        Err(Refusal::NoDestination)
    );
    assert_eq!(rt; line.ask(hear(1, 2), &mut station), Ok(Answer::Proposed(0)));
    assert_eq!(rt; line.ask(hear(1, 1), &mut station), Ok(Answer::Proposed(1)));
    assert_eq!(rt;
        line.ask(hear(1, 1), &mut station),
        Err(Refusal::AlreadyDone)
    );
    Ok(())
}

#[test]
fn ask_gather(rt: HostRuntime) -> Result<(), Fail> {
    let mut line = opened(2, 9)?;
    let mut station = Station::<AxisBank>::new(0);
    assert_eq!(rt; line.send(0, 0b11, mark()), Ok(1));
    assert_eq!(rt;
        line.ask(gather(1, 1), &mut station),
        Err(Refusal::TooEarly)
    );
    assert_eq!(rt; line.hear(1, 1), Ok(0));
    assert_eq!(rt;
        line.ask(gather(1, 1), &mut station),
        Ok(Answer::Fixed(None))
    );
    assert_eq!(rt;
        line.ask(gather(1, 1), &mut station),
        Err(Refusal::AlreadyDone)
    );
    assert_eq!(rt; line.hear(0, 1), Ok(0));
    assert_eq!(rt;
        line.ask(gather(0, 1), &mut station),
        Ok(Answer::Fixed(Some(0)))
    );
    assert_eq!(rt; line.settle(0, 1), Ok(0));
    Ok(())
}

#[test]
fn ask_settle(rt: HostRuntime) -> Result<(), Fail> {
    let mut line = opened(2, 9)?;
    let mut station = Station::<AxisBank>::new(0);
    assert_eq!(rt; line.send(0, 0b10, set(0)), Ok(1));
    assert_eq!(rt; line.send(0, 0b10, set(0)), Ok(2));
    assert_eq!(rt;
        line.ask(settle(1, 1), &mut station),
        Err(Refusal::TooEarly)
    );
    assert_eq!(rt; take(&mut line, 1, 2), Ok(0));
    assert_eq!(rt; line.hear(1, 1), Ok(1));
    assert_eq!(rt; line.gather(1, 1), Ok(Some(1)));
    assert_eq!(rt; line.ask(settle(1, 1), &mut station), Ok(Answer::Clock(1)));
    assert_eq!(rt;
        line.ask(settle(1, 1), &mut station),
        Err(Refusal::AlreadyDone)
    );
    Ok(())
}

// A run is for the station given, whatever member the call names.
#[test]
fn ask_run(rt: HostRuntime) -> Result<(), Fail> {
    let mut line = opened(2, 9)?;
    let mut first = Station::<AxisBank>::new(0);
    let mut second = Station::<AxisBank>::new(1);
    assert_eq!(rt; line.send(0, 0b10, set(3)), Ok(1));
    assert_eq!(rt; take(&mut line, 1, 1), Ok(0));
    assert_eq!(rt;
        line.ask(Call::Run { member: 1 }, &mut first),
        Err(Refusal::NothingReady)
    );
    assert_eq!(rt; first.read(3), Some(0));
    assert_eq!(rt;
        line.ask(Call::Run { member: 0 }, &mut second),
        Ok(Answer::Ran((0, 1)))
    );
    assert_eq!(rt; second.read(3), Some(5));
    assert_eq!(rt;
        line.ask(Call::Run { member: 1 }, &mut second),
        Err(Refusal::NothingReady)
    );
    assert_eq!(rt; second.member(), 1);
    Ok(())
}

// The station's own command moves its machine by a run, and by no other call.
#[test]
fn ask_moves_the_station_by_run_only(rt: HostRuntime) -> Result<(), Fail> {
    let mut line = opened(1, 9)?;
    let mut station = Station::<AxisBank>::new(0);
    assert_eq!(rt;
        line.ask(send(0, 1, set(2)), &mut station),
        Ok(Answer::Issued(1))
    );
    assert_eq!(rt; line.ask(hear(0, 1), &mut station), Ok(Answer::Proposed(0)));
    assert_eq!(rt;
        line.ask(gather(0, 1), &mut station),
        Ok(Answer::Fixed(Some(0)))
    );
    assert_eq!(rt; line.ask(settle(0, 1), &mut station), Ok(Answer::Clock(0)));
    assert_eq!(rt; station.read(2), Some(0));
    assert_eq!(rt;
        line.ask(Call::Run { member: 0 }, &mut station),
        Ok(Answer::Ran((0, 1)))
    );
    assert_eq!(rt; station.read(2), Some(5));
    Ok(())
}
