//! A station: whose it is, and its machine.
use crate::helpers::{opened, take};
use line::state::{Line, Station};
use machine::axis_bank::AxisBank;
use machine::command::Command;
use machine::kind::Machine;
use machine::recorder::Recorder;
use machine::tally::Tally;
use ordering::calls::Refusal;
use std::test::Fail;

#[test]
fn new_station(rt: HostRuntime) {
    let station = Station::<AxisBank>::new(3);
    assert_eq!(rt; station.member(), 3);
    assert_eq!(rt; station.read(0), Some(0));
    assert_eq!(rt; station.read(7), Some(0));
    assert_eq!(rt; station.read(8), None);
    let last = Station::<AxisBank>::new(255);
    assert_eq!(rt; last.member(), 255);
}

#[test]
fn run_moves_the_machine(rt: HostRuntime) -> Result<(), Fail> {
    let mut line = opened(3, 9)?;
    let mut station = Station::<AxisBank>::new(2);
    assert_eq!(rt;
        line.send(0, 0b100, Command::Set { axis: 6, value: 41 }),
        Ok(1)
    );
    assert_eq!(rt; take(&mut line, 2, 1), Ok(0));
    assert_eq!(rt; station.read(6), Some(0));
    assert_eq!(rt; line.run(&mut station), Ok((0, 1)));
    assert_eq!(rt; station.read(5), Some(0));
    assert_eq!(rt; station.read(6), Some(41));
    assert_eq!(rt; station.read(7), Some(0));
    assert_eq!(rt; station.member(), 2);
    Ok(())
}

#[test]
fn refused_run_leaves_the_machine(rt: HostRuntime) -> Result<(), Fail> {
    let mut line = opened(2, 9)?;
    let mut station = Station::<AxisBank>::new(1);
    assert_eq!(rt;
        line.send(0, 0b01, Command::Set { axis: 0, value: 41 }),
        Ok(1)
    );
    assert_eq!(rt; take(&mut line, 0, 1), Ok(0));
    assert_eq!(rt; line.run(&mut station), Err(Refusal::NothingReady));
    assert_eq!(rt; station.read(0), Some(0));
    assert_eq!(rt; station.member(), 1);
    Ok(())
}

// Nothing conflicts, so the later Mark does not wait for the Set that is only heard.
#[test]
fn tally_conflicts_with_nothing(rt: HostRuntime) {
    let mut line = Line::<Tally>::new();
    let mut station = Station::<Tally>::new(0);
    assert_eq!(rt; line.open(1, 9), Ok(()));
    assert_eq!(rt; line.send(0, 1, Command::Set { axis: 0, value: 1 }), Ok(1));
    assert_eq!(rt; line.send(0, 1, Command::Set { axis: 0, value: 1 }), Ok(2));
    assert_eq!(rt; line.hear(0, 1), Ok(0));
    assert_eq!(rt; line.hear(0, 2), Ok(0));
    assert_eq!(rt; line.gather(0, 2), Ok(Some(0)));
    assert_eq!(rt; line.settle(0, 2), Ok(0));
    assert_eq!(rt; line.run(&mut station), Ok((0, 2)));
    assert_eq!(rt; station.read(0), Some(1));
}

// All conflict, so the second Mark gets the timestamp 1 and waits for the first.
#[test]
fn recorder_conflicts_with_all(rt: HostRuntime) {
    let mut line = Line::<Recorder>::new();
    let mut station = Station::<Recorder>::new(0);
    assert_eq!(rt; line.open(1, 9), Ok(()));
    assert_eq!(rt; line.send(0, 1, Command::Mark { code: 31 }), Ok(1));
    assert_eq!(rt; line.send(0, 1, Command::Mark { code: 32 }), Ok(2));
    assert_eq!(rt; line.hear(0, 1), Ok(0));
    assert_eq!(rt; line.hear(0, 2), Ok(1));
    assert_eq!(rt; line.gather(0, 2), Ok(Some(1)));
    assert_eq!(rt; line.settle(0, 2), Ok(1));
    assert_eq!(rt; line.run(&mut station), Err(Refusal::NothingReady));
    assert_eq!(rt; line.gather(0, 1), Ok(Some(0)));
    assert_eq!(rt; line.settle(0, 1), Ok(1));
    assert_eq!(rt; line.run(&mut station), Ok((0, 1)));
    assert_eq!(rt; station.read(2), Some(31));
    assert_eq!(rt; line.run(&mut station), Ok((1, 2)));
    assert_eq!(rt; station.read(2), Some(32));
    assert_eq!(rt; station.read(25), None);
}
