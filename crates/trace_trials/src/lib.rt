//! Records of a trace worked out by hand, written by the crate `trace`.
#![tactic(auto)]

#[cfg(test)]
mod tests {
    use machine::command::Command;
    use ordering::calls::{Answer, Call, Refusal};
    use script::faults::{Cause, Fault};
    use trace::{Trace, fault_record};

    // Whether a step's record is this text, at the start of bytes that hold dots.
    fn step_is(number: usize, call: Call, answer: Result<Answer, Refusal>, text: &[u8]) -> bool {
        let mut bytes = [b'.'; 48];
        let mut trace = Trace {
            bytes: &mut bytes,
            used: 0,
        };
        trace.step(number, call, answer);
        let used = trace.used;
        used == text.len() && bytes.starts_with(text)
    }

    #[test]
    fn an_open(rt: HostRuntime) {
        let open = Call::Open {
            members: 3,
            last: 100,
        };
        assert!(rt; step_is(1, open, Ok(Answer::Opened), b"1,0,,\r\n"));
    }

    #[test]
    fn a_send(rt: HostRuntime) {
        let send = Call::Send {
            sender: 0,
            set: 6,
            command: Command::Set { axis: 1, value: 5 },
        };
        assert!(rt; step_is(10, send, Ok(Answer::Issued(1)), b"10,0,1,\r\n"));
    }

    #[test]
    fn a_hear(rt: HostRuntime) {
        let hear = Call::Hear {
            member: 2,
            number: 7,
        };
        assert!(rt; step_is(305, hear, Ok(Answer::Proposed(40)), b"305,0,7,40\r\n"));
    }

    #[test]
    fn gathers(rt: HostRuntime) {
        let gather = Call::Gather {
            member: 2,
            number: 9007199254740993,
        };
        assert!(rt;
            step_is(
                99999,
                gather,
                Ok(Answer::Fixed(None)),
                b"99999,0,9007199254740993,\r\n",
            )
        );
        assert!(rt;
            step_is(
                99999,
                gather,
                Ok(Answer::Fixed(Some(18446744073709551615))),
                b"99999,0,9007199254740993,18446744073709551615\r\n",
            )
        );
    }

    #[test]
    fn a_settle(rt: HostRuntime) {
        let settle = Call::Settle {
            member: 0,
            number: 12,
        };
        assert!(rt; step_is(4, settle, Ok(Answer::Clock(0)), b"4,0,12,0\r\n"));
    }

    #[test]
    fn a_run(rt: HostRuntime) {
        let run = Call::Run { member: 1 };
        assert!(rt; step_is(5, run, Ok(Answer::Ran((61, 3))), b"5,0,3,61\r\n"));
    }

    #[test]
    fn refusals(rt: HostRuntime) {
        let run = Call::Run { member: 1 };
        assert!(rt; step_is(6, run, Err(Refusal::NothingReady), b"6,13,,\r\n",));
        let hear = Call::Hear {
            member: 2,
            number: 7,
        };
        assert!(rt; step_is(7, hear, Err(Refusal::NoCommand), b"7,9,,\r\n"));
    }

    #[test]
    fn cells_behind_one_another(rt: HostRuntime) {
        let mut bytes = [b'.'; 32];
        let mut trace = Trace {
            bytes: &mut bytes,
            used: 0,
        };
        trace.cell(15, 0, 4294967295);
        trace.cell(0, 8, 0);
        let left = trace.room();
        assert_eq!(rt; left, 4);
        assert!(rt; bytes == *b"C,15,0,4294967295\r\nC,0,8,0\r\n....");
    }

    #[test]
    fn too_little_room(rt: HostRuntime) {
        let mut bytes = [b'.'; 12];
        let mut trace = Trace {
            bytes: &mut bytes[..9],
            used: 3,
        };
        trace.cell(3, 1, 40);
        let used = trace.used;
        let left = trace.room();
        assert_eq!(rt; used, 9);
        assert_eq!(rt; left, 0);
        assert!(rt; bytes == *b"...C,3,1,...");
    }

    #[test]
    fn used_past_the_end(rt: HostRuntime) {
        let mut bytes = [b'.'; 4];
        let mut trace = Trace {
            bytes: &mut bytes,
            used: 5,
        };
        trace.cell(3, 1, 40);
        let used = trace.used;
        let left = trace.room();
        assert_eq!(rt; used, 5);
        assert_eq!(rt; left, 0);
        assert!(rt; bytes == *b"....");
    }

    #[test]
    fn faults(rt: HostRuntime) {
        let fault = fault_record(Fault {
            cause: Cause::FieldCount,
            record: 2,
            at: 17,
        });
        assert_eq!(rt; fault.used, 11);
        assert!(rt; fault.bytes.starts_with(b"F,22,2,17\r\n\0"));
        let longest = fault_record(Fault {
            cause: Cause::TraceFull,
            record: 18446744073709551615,
            at: 18446744073709551615,
        });
        assert_eq!(rt; longest.used, 48);
        assert!(rt; longest.bytes == *b"F,26,18446744073709551615,18446744073709551615\r\n");
    }
}
