//! Steps that come too early or a second time.
use crate::helpers::{hear_and_gather, mark, opened, set};
use line::state::Station;
use machine::axis_bank::AxisBank;
use machine::kind::Machine;
use ordering::calls::Refusal;
use std::test::Fail;

#[test]
fn gather_of_sent_is_too_early(rt: HostRuntime) -> Result<(), Fail> {
    let mut line = opened(2, 9)?;
    assert_eq!(rt; line.send(0, 0b11, mark()), Ok(1));
    assert_eq!(rt; line.gather(0, 1), Err(Refusal::TooEarly));
    assert_eq!(rt; line.hear(1, 1), Ok(0));
    assert_eq!(rt; line.gather(1, 1), Ok(None));
    assert_eq!(rt;
        line.gather(0, 1),
        Err(Refusal::TooEarly),
        "only the other is gathered"
    );
    assert_eq!(rt; line.hear(0, 1), Ok(0));
    assert_eq!(rt; line.gather(0, 1), Ok(Some(0)));
    Ok(())
}

#[test]
fn settle_is_too_early_until_fixed(rt: HostRuntime) -> Result<(), Fail> {
    let mut line = opened(2, 9)?;
    assert_eq!(rt; line.send(0, 0b11, mark()), Ok(1));
    assert_eq!(rt; line.settle(0, 1), Err(Refusal::TooEarly), "sent");
    assert_eq!(rt; line.hear(0, 1), Ok(0));
    assert_eq!(rt; line.settle(0, 1), Err(Refusal::TooEarly), "heard");
    assert_eq!(rt; line.gather(0, 1), Ok(None));
    assert_eq!(rt;
        line.settle(0, 1),
        Err(Refusal::TooEarly),
        "gathered, the other sent"
    );
    assert_eq!(rt; line.hear(1, 1), Ok(0));
    assert_eq!(rt;
        line.settle(0, 1),
        Err(Refusal::TooEarly),
        "gathered, the other heard"
    );
    assert_eq!(rt;
        line.settle(1, 1),
        Err(Refusal::TooEarly),
        "heard, the other gathered"
    );
    assert_eq!(rt; line.gather(1, 1), Ok(Some(0)));
    assert_eq!(rt; line.settle(0, 1), Ok(0));
    assert_eq!(rt; line.settle(1, 1), Ok(0));
    Ok(())
}

#[test]
fn hear_once(rt: HostRuntime) -> Result<(), Fail> {
    let mut line = opened(2, 9)?;
    let mut station = Station::<AxisBank>::new(0);
    assert_eq!(rt; line.send(0, 0b11, mark()), Ok(1));
    assert_eq!(rt; line.hear(0, 1), Ok(0));
    assert_eq!(rt; line.hear(0, 1), Err(Refusal::AlreadyDone), "heard");
    assert_eq!(rt; line.gather(0, 1), Ok(None));
    assert_eq!(rt; line.hear(0, 1), Err(Refusal::AlreadyDone), "gathered");
    assert_eq!(rt; hear_and_gather(&mut line, 1, 1), Ok(Some(0)));
    assert_eq!(rt;
        line.hear(0, 1),
        Err(Refusal::AlreadyDone),
        "gathered and fixed"
    );
    assert_eq!(rt; line.settle(0, 1), Ok(0));
    assert_eq!(rt; line.hear(0, 1), Err(Refusal::AlreadyDone), "settled");
    assert_eq!(rt; line.run(&mut station), Ok((0, 1)));
    assert_eq!(rt;
        line.hear(0, 1),
        Err(Refusal::AlreadyDone),
        "run, but not at the other"
    );
    Ok(())
}

#[test]
fn gather_once(rt: HostRuntime) -> Result<(), Fail> {
    let mut line = opened(2, 9)?;
    let mut station = Station::<AxisBank>::new(0);
    assert_eq!(rt; line.send(0, 0b11, mark()), Ok(1));
    assert_eq!(rt; hear_and_gather(&mut line, 0, 1), Ok(None));
    assert_eq!(rt; line.gather(0, 1), Err(Refusal::AlreadyDone), "gathered");
    assert_eq!(rt; hear_and_gather(&mut line, 1, 1), Ok(Some(0)));
    assert_eq!(rt;
        line.gather(0, 1),
        Err(Refusal::AlreadyDone),
        "gathered and fixed"
    );
    assert_eq!(rt; line.settle(0, 1), Ok(0));
    assert_eq!(rt; line.gather(0, 1), Err(Refusal::AlreadyDone), "settled");
    assert_eq!(rt; line.run(&mut station), Ok((0, 1)));
    assert_eq!(rt;
        line.gather(0, 1),
        Err(Refusal::AlreadyDone),
        "run, but not at the other"
    );
    Ok(())
}

#[test]
fn settle_once(rt: HostRuntime) -> Result<(), Fail> {
    let mut line = opened(2, 9)?;
    let mut station = Station::<AxisBank>::new(0);
    assert_eq!(rt; line.send(0, 0b11, mark()), Ok(1));
    assert_eq!(rt; hear_and_gather(&mut line, 0, 1), Ok(None));
    assert_eq!(rt; hear_and_gather(&mut line, 1, 1), Ok(Some(0)));
    assert_eq!(rt; line.settle(0, 1), Ok(0));
    assert_eq!(rt; line.settle(0, 1), Err(Refusal::AlreadyDone), "settled");
    assert_eq!(rt; line.run(&mut station), Ok((0, 1)));
    assert_eq!(rt;
        line.settle(0, 1),
        Err(Refusal::AlreadyDone),
        "run, but not at the other"
    );
    assert_eq!(rt; line.settle(1, 1), Ok(0));
    Ok(())
}

// Members 1 and 2 have heard a Set of axis 0 before, so they propose 1 and member 0 proposes 0. The last gather is that
// of the least proposal.
#[test]
fn greatest_proposal_is_final(rt: HostRuntime) -> Result<(), Fail> {
    let mut line = opened(3, 9)?;
    assert_eq!(rt; line.send(0, 0b110, set(0)), Ok(1));
    assert_eq!(rt; line.send(0, 0b111, set(0)), Ok(2));
    assert_eq!(rt; line.hear(1, 1), Ok(0));
    assert_eq!(rt; line.hear(2, 1), Ok(0));
    assert_eq!(rt; hear_and_gather(&mut line, 2, 2), Ok(None));
    assert_eq!(rt; hear_and_gather(&mut line, 1, 2), Ok(None));
    assert_eq!(rt; hear_and_gather(&mut line, 0, 2), Ok(Some(1)));
    assert_eq!(rt; line.settle(0, 2), Ok(1));
    Ok(())
}
