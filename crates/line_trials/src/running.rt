//! What runs, and in which order.
use crate::helpers::{hear_and_gather, mark, opened, set, take};
use line::state::Station;
use machine::axis_bank::AxisBank;
use machine::command::Command;
use machine::kind::Machine;
use ordering::calls::Refusal;
use std::test::Fail;

#[test]
fn nothing_ready_until_settled(rt: HostRuntime) -> Result<(), Fail> {
    let mut line = opened(2, 9)?;
    let mut station = Station::<AxisBank>::new(0);
    assert_eq!(rt;
        line.run(&mut station),
        Err(Refusal::NothingReady),
        "nothing sent"
    );
    assert_eq!(rt; line.send(0, 1, mark()), Ok(1));
    assert_eq!(rt; line.run(&mut station), Err(Refusal::NothingReady), "sent");
    assert_eq!(rt; line.hear(0, 1), Ok(0));
    assert_eq!(rt; line.run(&mut station), Err(Refusal::NothingReady), "heard");
    assert_eq!(rt; line.gather(0, 1), Ok(Some(0)));
    assert_eq!(rt;
        line.run(&mut station),
        Err(Refusal::NothingReady),
        "gathered"
    );
    assert_eq!(rt; line.settle(0, 1), Ok(0));
    let mut other = Station::<AxisBank>::new(1);
    assert_eq!(rt;
        line.run(&mut other),
        Err(Refusal::NothingReady),
        "no destination"
    );
    assert_eq!(rt; line.run(&mut station), Ok((0, 1)));
    assert_eq!(rt; line.run(&mut station), Err(Refusal::NothingReady), "run");
    Ok(())
}

#[test]
fn settled_at_another_only(rt: HostRuntime) -> Result<(), Fail> {
    let mut line = opened(2, 9)?;
    let mut first = Station::<AxisBank>::new(0);
    let mut second = Station::<AxisBank>::new(1);
    assert_eq!(rt; line.send(0, 0b11, mark()), Ok(1));
    assert_eq!(rt; hear_and_gather(&mut line, 0, 1), Ok(None));
    assert_eq!(rt; hear_and_gather(&mut line, 1, 1), Ok(Some(0)));
    assert_eq!(rt; line.settle(1, 1), Ok(0));
    assert_eq!(rt; line.run(&mut first), Err(Refusal::NothingReady));
    assert_eq!(rt; line.run(&mut second), Ok((0, 1)));
    assert_eq!(rt;
        line.run(&mut second),
        Err(Refusal::NothingReady),
        "it runs once at each"
    );
    assert_eq!(rt; line.settle(0, 1), Ok(0));
    assert_eq!(rt; line.run(&mut first), Ok((0, 1)));
    Ok(())
}

// Both have the timestamp 0, and the second was settled first.
#[test]
fn smaller_number_at_one_timestamp(rt: HostRuntime) -> Result<(), Fail> {
    let mut line = opened(1, 9)?;
    let mut station = Station::<AxisBank>::new(0);
    assert_eq!(rt; line.send(0, 1, mark()), Ok(1));
    assert_eq!(rt; line.send(0, 1, mark()), Ok(2));
    assert_eq!(rt; take(&mut line, 0, 2), Ok(0));
    assert_eq!(rt; take(&mut line, 0, 1), Ok(0));
    assert_eq!(rt; line.run(&mut station), Ok((0, 1)));
    assert_eq!(rt; line.run(&mut station), Ok((0, 2)));
    Ok(())
}

// Command 1, a Set of axis 0, is heard at member 1 after another Set of it, command 3: it has the timestamp 1, and the
// Mark 2 has 0.
#[test]
fn earlier_timestamp_before_the_number(rt: HostRuntime) -> Result<(), Fail> {
    let mut line = opened(2, 9)?;
    let mut station = Station::<AxisBank>::new(0);
    assert_eq!(rt; line.send(0, 0b11, set(0)), Ok(1));
    assert_eq!(rt; line.send(0, 0b01, mark()), Ok(2));
    assert_eq!(rt; line.send(0, 0b10, set(0)), Ok(3));
    assert_eq!(rt; line.hear(1, 3), Ok(0));
    assert_eq!(rt; hear_and_gather(&mut line, 1, 1), Ok(None));
    assert_eq!(rt; hear_and_gather(&mut line, 0, 1), Ok(Some(1)));
    assert_eq!(rt; hear_and_gather(&mut line, 0, 2), Ok(Some(0)));
    assert_eq!(rt; line.settle(0, 1), Ok(1));
    assert_eq!(rt; line.settle(0, 2), Ok(1));
    assert_eq!(rt; line.run(&mut station), Ok((0, 2)));
    assert_eq!(rt; line.run(&mut station), Ok((1, 1)));
    Ok(())
}

// Command 1 stands at 0 and conflicts with command 2, which is settled at 1. The Mark 3 conflicts with neither.
#[test]
fn earlier_conflict_blocks(rt: HostRuntime) -> Result<(), Fail> {
    let mut line = opened(1, 9)?;
    let mut station = Station::<AxisBank>::new(0);
    assert_eq!(rt; line.send(0, 1, set(0)), Ok(1));
    assert_eq!(rt; line.send(0, 1, set(0)), Ok(2));
    assert_eq!(rt; line.send(0, 1, mark()), Ok(3));
    assert_eq!(rt; line.hear(0, 1), Ok(0));
    assert_eq!(rt; take(&mut line, 0, 2), Ok(1));
    assert_eq!(rt;
        line.run(&mut station),
        Err(Refusal::NothingReady),
        "1 is heard"
    );
    assert_eq!(rt; take(&mut line, 0, 3), Ok(1));
    assert_eq!(rt; line.run(&mut station), Ok((1, 3)));
    assert_eq!(rt; line.gather(0, 1), Ok(Some(0)));
    assert_eq!(rt;
        line.run(&mut station),
        Err(Refusal::NothingReady),
        "1 is gathered"
    );
    assert_eq!(rt; line.settle(0, 1), Ok(1));
    assert_eq!(rt; line.run(&mut station), Ok((0, 1)));
    assert_eq!(rt; line.run(&mut station), Ok((1, 2)));
    Ok(())
}

#[test]
fn later_and_unheard_do_not_block(rt: HostRuntime) -> Result<(), Fail> {
    let mut line = opened(1, 9)?;
    let mut station = Station::<AxisBank>::new(0);
    assert_eq!(rt; line.send(0, 1, set(0)), Ok(1));
    assert_eq!(rt; line.send(0, 1, set(0)), Ok(2));
    assert_eq!(rt; line.send(0, 1, set(0)), Ok(3));
    assert_eq!(rt; take(&mut line, 0, 2), Ok(0));
    assert_eq!(rt; line.hear(0, 3), Ok(1));
    assert_eq!(rt;
        line.run(&mut station),
        Ok((0, 2)),
        "3 stands later and 1 is still sent"
    );
    Ok(())
}

// Member 1 proposes 2 for command 1, after two other Sets of axis 0. Command 1 stands at its proposal 0 at member 0
// until it is settled there, and then at 2, after command 2.
#[test]
fn gathered_stands_at_its_proposal(rt: HostRuntime) -> Result<(), Fail> {
    let mut line = opened(2, 9)?;
    let mut station = Station::<AxisBank>::new(0);
    assert_eq!(rt; line.send(0, 0b11, set(0)), Ok(1));
    assert_eq!(rt; line.send(0, 0b01, set(0)), Ok(2));
    assert_eq!(rt; line.send(0, 0b10, set(0)), Ok(3));
    assert_eq!(rt; line.send(0, 0b10, set(0)), Ok(4));
    assert_eq!(rt; line.hear(1, 3), Ok(0));
    assert_eq!(rt; line.hear(1, 4), Ok(1));
    assert_eq!(rt; hear_and_gather(&mut line, 0, 1), Ok(None));
    assert_eq!(rt; take(&mut line, 0, 2), Ok(1));
    assert_eq!(rt; hear_and_gather(&mut line, 1, 1), Ok(Some(2)));
    assert_eq!(rt; line.run(&mut station), Err(Refusal::NothingReady));
    assert_eq!(rt; line.settle(0, 1), Ok(2));
    assert_eq!(rt; line.run(&mut station), Ok((1, 2)));
    assert_eq!(rt; line.run(&mut station), Ok((2, 1)));
    Ok(())
}

// The two members hear two Sets of axis 0 in different orders, and run them in one.
#[test]
fn one_order_at_both_members(rt: HostRuntime) -> Result<(), Fail> {
    let mut line = opened(2, 9)?;
    let mut first = Station::<AxisBank>::new(0);
    let mut second = Station::<AxisBank>::new(1);
    assert_eq!(rt;
        line.send(0, 0b11, Command::Set { axis: 0, value: 11 }),
        Ok(1)
    );
    assert_eq!(rt;
        line.send(1, 0b11, Command::Set { axis: 0, value: 22 }),
        Ok(2)
    );
    assert_eq!(rt; hear_and_gather(&mut line, 0, 1), Ok(None));
    assert_eq!(rt; hear_and_gather(&mut line, 0, 2), Ok(None));
    assert_eq!(rt; hear_and_gather(&mut line, 1, 2), Ok(Some(1)));
    assert_eq!(rt; hear_and_gather(&mut line, 1, 1), Ok(Some(1)));
    assert_eq!(rt; line.settle(0, 2), Ok(1));
    assert_eq!(rt; line.run(&mut first), Err(Refusal::NothingReady));
    assert_eq!(rt; line.settle(0, 1), Ok(1));
    assert_eq!(rt; line.settle(1, 1), Ok(1));
    assert_eq!(rt; line.run(&mut first), Ok((1, 1)));
    assert_eq!(rt; line.run(&mut first), Ok((1, 2)));
    assert_eq!(rt; first.read(0), Some(22));
    assert_eq!(rt;
        line.run(&mut second),
        Err(Refusal::NothingReady),
        "2 stands at 0 there"
    );
    assert_eq!(rt; line.settle(1, 2), Ok(1));
    assert_eq!(rt; line.run(&mut second), Ok((1, 1)));
    assert_eq!(rt; line.run(&mut second), Ok((1, 2)));
    assert_eq!(rt; second.read(0), Some(22));
    Ok(())
}
