//! How many commands are issued, open and remembered.
use crate::helpers::{hear_from, mark, opened, send_marks, take};
use line::state::Station;
use machine::axis_bank::AxisBank;
use machine::kind::Machine;
use ordering::calls::Refusal;
use std::test::Fail;

#[test]
fn numbers_are_used_up(rt: HostRuntime) -> Result<(), Fail> {
    let mut line = opened(1, 2)?;
    let mut station = Station::<AxisBank>::new(0);
    assert_eq!(rt; line.send(0, 1, mark()), Ok(1));
    assert_eq!(rt; line.send(0, 1, mark()), Ok(2));
    assert_eq!(rt; line.send(0, 1, mark()), Err(Refusal::NumbersUsedUp));
    take(&mut line, 0, 1)?;
    assert_eq!(rt; line.run(&mut station), Ok((0, 1)));
    assert_eq!(rt;
        line.send(0, 1, mark()),
        Err(Refusal::NumbersUsedUp),
        "a command that left gives no number back"
    );
    Ok(())
}

#[test]
fn used_up_before_a_full_table(rt: HostRuntime) -> Result<(), Fail> {
    let mut line = opened(2, 32)?;
    send_marks(&mut line, 1, 32)?;
    assert_eq!(rt; line.send(0, 1, mark()), Err(Refusal::NumbersUsedUp));
    Ok(())
}

#[test]
fn table_holds_32(rt: HostRuntime) -> Result<(), Fail> {
    let mut line = opened(2, 100)?;
    let mut station = Station::<AxisBank>::new(0);
    send_marks(&mut line, 1, 31)?;
    assert_eq!(rt; line.send(0, 1, mark()), Ok(32));
    assert_eq!(rt; line.send(0, 1, mark()), Err(Refusal::TableFull));
    take(&mut line, 0, 7)?;
    assert_eq!(rt;
        line.send(0, 1, mark()),
        Err(Refusal::TableFull),
        "settled is still open"
    );
    assert_eq!(rt; line.run(&mut station), Ok((0, 7)));
    assert_eq!(rt;
        line.send(0, 1, mark()),
        Ok(33),
        "the refused sends took no number"
    );
    assert_eq!(rt; line.send(0, 1, mark()), Err(Refusal::TableFull));
    Ok(())
}

#[test]
fn bad_sends_before_a_full_table(rt: HostRuntime) -> Result<(), Fail> {
    let mut line = opened(2, 100)?;
    send_marks(&mut line, 1, 32)?;
    assert_eq!(rt; line.send(2, 1, mark()), Err(Refusal::NoMember));
    assert_eq!(rt; line.send(0, 0, mark()), Err(Refusal::BadSet));
    assert_eq!(rt; line.send(0, 4, mark()), Err(Refusal::BadSet));
    assert_eq!(rt; line.send(0, 1, mark()), Err(Refusal::TableFull));
    Ok(())
}

// The last of 32 and the first are found once another that stood between them has left.
#[test]
fn all_32_are_found_after_one_left(rt: HostRuntime) -> Result<(), Fail> {
    let mut line = opened(2, 100)?;
    let mut station = Station::<AxisBank>::new(1);
    send_marks(&mut line, 2, 32)?;
    take(&mut line, 1, 1)?;
    assert_eq!(rt; line.run(&mut station), Ok((0, 1)));
    assert_eq!(rt; line.hear(1, 1), Err(Refusal::NoCommand));
    assert_eq!(rt; line.hear(1, 32), Ok(0));
    assert_eq!(rt; line.hear(1, 2), Ok(0));
    assert_eq!(rt; line.hear(1, 33), Err(Refusal::NoCommand));
    assert_eq!(rt; line.send(0, 2, mark()), Ok(33));
    assert_eq!(rt; line.hear(1, 33), Ok(0));
    Ok(())
}

#[test]
fn open_until_the_last_destination_has_run(rt: HostRuntime) -> Result<(), Fail> {
    let mut line = opened(2, 100)?;
    let mut first = Station::<AxisBank>::new(0);
    let mut second = Station::<AxisBank>::new(1);
    send_marks(&mut line, 0b11, 32)?;
    assert_eq!(rt; line.hear(0, 5), Ok(0));
    assert_eq!(rt; line.gather(0, 5), Ok(None));
    assert_eq!(rt; line.hear(1, 5), Ok(0));
    assert_eq!(rt; line.gather(1, 5), Ok(Some(0)));
    assert_eq!(rt; line.settle(0, 5), Ok(0));
    assert_eq!(rt; line.settle(1, 5), Ok(0));
    assert_eq!(rt; line.run(&mut first), Ok((0, 5)));
    assert_eq!(rt; line.send(0, 1, mark()), Err(Refusal::TableFull));
    assert_eq!(rt; line.run(&mut second), Ok((0, 5)));
    assert_eq!(rt; line.send(0, 1, mark()), Ok(33));
    Ok(())
}

// 16 Marks are remembered at clock 0. The 17th makes the clock rise; it and the next 15 are remembered at clock 1.
#[test]
fn sixteen_are_remembered(rt: HostRuntime) -> Result<(), Fail> {
    let mut line = opened(2, 100)?;
    send_marks(&mut line, 1, 32)?;
    hear_from(&mut line, 0, 1, 16)?;
    assert_eq!(rt; line.hear(0, 16), Ok(0));
    assert_eq!(rt; line.hear(0, 17), Ok(1));
    hear_from(&mut line, 0, 18, 32)?;
    assert_eq!(rt; line.hear(0, 32), Ok(1));
    let mut station = Station::<AxisBank>::new(0);
    assert_eq!(rt; line.gather(0, 1), Ok(Some(0)));
    assert_eq!(rt; line.settle(0, 1), Ok(1), "below the clock");
    assert_eq!(rt; line.run(&mut station), Ok((0, 1)));
    assert_eq!(rt; line.send(0, 1, mark()), Ok(33));
    assert_eq!(rt; line.hear(0, 33), Ok(2), "16 are remembered at clock 1");
    Ok(())
}

#[test]
fn memories_are_apart(rt: HostRuntime) -> Result<(), Fail> {
    let mut line = opened(2, 100)?;
    send_marks(&mut line, 0b11, 17)?;
    hear_from(&mut line, 0, 1, 17)?;
    assert_eq!(rt; line.hear(1, 17), Ok(0), "member 1 remembers nothing yet");
    assert_eq!(rt; line.hear(0, 17), Ok(1));
    assert_eq!(rt; line.hear(1, 1), Ok(0));
    Ok(())
}
