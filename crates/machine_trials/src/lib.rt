//! Worked examples of the three kinds of machine. The expected values were worked by hand from docs/MACHINES.md.
#![tactic(auto)]

ghost use Rattle.std.specs.Prelude.{◌≡◌, [], ◌∷◌, replicate};
ghost use Rattle.machine.specs.Recorders.{record_next};
ghost use Rattle.machine.specs.Tallies.{tally_next};
ghost use Rattle.machine.specs.declared.command.Command.TheVariants.{Set, Shift, Couple, Mark};

/// That a count of 2^32 - 1 is followed by 0 takes 2^32 commands to see: too many to run, so it is computed at the
/// kinds' own definitions, which the machines are proved to follow. It changes nothing, and answers 0.
pub fn counts_wrap() -> u8
    ensures idle { result ≡ 0 }
    ensures sets { tally_next (4294967295 ∷ 7 ∷ 8 ∷ 9 ∷ []) (Set 0 0) ≡ 0 ∷ 7 ∷ 8 ∷ 9 ∷ [] }
    ensures shifts { tally_next (6 ∷ 4294967295 ∷ 8 ∷ 9 ∷ []) (Shift 0 0) ≡ 6 ∷ 0 ∷ 8 ∷ 9 ∷ [] }
    ensures couples { tally_next (6 ∷ 7 ∷ 4294967295 ∷ 9 ∷ []) (Couple 0 0) ≡ 6 ∷ 7 ∷ 0 ∷ 9 ∷ [] }
    ensures marks { tally_next (6 ∷ 7 ∷ 8 ∷ 4294967295 ∷ []) (Mark 0) ≡ 6 ∷ 7 ∷ 8 ∷ 0 ∷ [] }
    ensures recorded { record_next (4294967295 ∷ replicate 24 0) (Mark 5) ≡ 0 ∷ 4 ∷ 5 ∷ 0 ∷ replicate 21 0 }
{
    0
}

#[cfg(test)]
mod tests {
    use machine::axis_bank::AxisBank;
    use machine::command::Command;
    use machine::kind::Machine;
    use machine::recorder::Recorder;
    use machine::tally::Tally;

    // A machine that has run some commands.
    fn after<M: Machine>(commands: &[Command]) -> M {
        let mut machine = M::start();
        for command in commands {
            machine.run(*command);
        }
        machine
    }

    #[test]
    fn cells_are_counted(rt: HostRuntime) {
        assert_eq!(rt; AxisBank::CELLS, 8);
        assert_eq!(rt; Recorder::CELLS, 25);
        assert_eq!(rt; Tally::CELLS, 4);
    }

    #[test]
    fn reading_ends_at_cells(rt: HostRuntime) {
        let bank: AxisBank = after(&[]);
        assert_eq!(rt; bank.read(7), Some(0));
        assert_eq!(rt; bank.read(8), None);
        let recorder: Recorder = after(&[]);
        assert_eq!(rt; recorder.read(24), Some(0));
        assert_eq!(rt; recorder.read(25), None);
        let tally: Tally = after(&[]);
        assert_eq!(rt; tally.read(3), Some(0));
        assert_eq!(rt; tally.read(4), None);
    }

    #[test]
    fn shift_wraps(rt: HostRuntime) {
        let bank: AxisBank = after(&[
            Command::Set {
                axis: 0,
                value: 4294967295,
            },
            Command::Shift { axis: 0, amount: 1 },
            Command::Set {
                axis: 7,
                value: 4294967290,
            },
            Command::Shift {
                axis: 7,
                amount: 10,
            },
        ]);
        assert_eq!(rt; bank.read(0), Some(0));
        // 4294967300 - 4294967296
        assert_eq!(rt; bank.read(7), Some(4));
    }

    #[test]
    fn couple_copies(rt: HostRuntime) {
        let bank: AxisBank = after(&[
            Command::Set { axis: 2, value: 5 },
            Command::Set { axis: 3, value: 9 },
            Command::Couple { from: 2, to: 6 },
            Command::Couple { from: 3, to: 3 },
        ]);
        for (axis, position) in [(2, 5), (6, 5), (3, 9)] {
            assert_eq!(rt; bank.read(axis), Some(position), "axis {axis}");
        }
    }

    #[test]
    fn axes_above_seven_change_nothing(rt: HostRuntime) {
        let bank: AxisBank = after(&[
            Command::Set { axis: 0, value: 5 },
            Command::Set { axis: 9, value: 1 },
            Command::Set { axis: 9, value: 2 },
            Command::Shift {
                axis: 255,
                amount: 3,
            },
            Command::Couple { from: 0, to: 8 },
            Command::Couple { from: 8, to: 0 },
            Command::Mark { code: 4 },
        ]);
        for (axis, position) in [(0, 5), (1, 0), (7, 0)] {
            assert_eq!(rt; bank.read(axis), Some(position), "axis {axis}");
        }
    }

    #[test]
    fn bank_conflicts(rt: HostRuntime) {
        let set = Command::Set { axis: 1, value: 5 };
        let shift = Command::Shift { axis: 1, amount: 5 };
        // Equal or not, two Sets of one axis conflict, and so do two of an axis that no bank has.
        assert!(rt; AxisBank::conflict(set, set));
        assert!(rt;
            AxisBank::conflict(
                Command::Set { axis: 9, value: 1 },
                Command::Set { axis: 9, value: 2 },
            )
        );
        assert!(rt; AxisBank::conflict(shift, set));
        assert!(rt; !AxisBank::conflict(shift, Command::Shift { axis: 1, amount: 6 }));
        assert!(rt; !AxisBank::conflict(set, Command::Set { axis: 2, value: 5 }));
        assert!(rt; !AxisBank::conflict(set, Command::Mark { code: 1 }));
    }

    #[test]
    fn couple_conflicts(rt: HostRuntime) {
        let couple = Command::Couple { from: 1, to: 2 };
        // Both read axis 1, and neither writes it.
        assert!(rt; !AxisBank::conflict(couple, Command::Couple { from: 1, to: 3 }));
        assert!(rt; AxisBank::conflict(couple, Command::Couple { from: 3, to: 1 }));
        assert!(rt; AxisBank::conflict(couple, Command::Couple { from: 3, to: 2 }));
        assert!(rt; AxisBank::conflict(couple, Command::Shift { axis: 1, amount: 0 }));
        // A Couple of an axis with itself reads and writes it.
        let same = Command::Couple { from: 4, to: 4 };
        assert!(rt; AxisBank::conflict(same, same));
        assert!(rt; AxisBank::conflict(same, Command::Couple { from: 4, to: 5 }));
        assert!(rt; !AxisBank::conflict(same, couple));
    }

    #[test]
    fn recorder_keeps_eight(rt: HostRuntime) {
        let mut recorder: Recorder = after(&[
            Command::Set { axis: 5, value: 6 },
            Command::Shift { axis: 7, amount: 8 },
            Command::Couple { from: 9, to: 10 },
            Command::Mark { code: 11 },
            Command::Mark { code: 12 },
            Command::Mark { code: 13 },
            Command::Mark { code: 14 },
            Command::Mark { code: 15 },
        ]);
        // Newest first: the Set is the eighth place, cells 22 to 24.
        for (i, cell) in [(0, 8), (1, 4), (2, 15), (3, 0), (22, 1), (23, 5), (24, 6)] {
            assert_eq!(rt; recorder.read(i), Some(cell), "cell {i} after eight");
        }
        // The ninth pushes it out, and the Shift takes its place.
        recorder.run(Command::Couple { from: 1, to: 2 });
        for (i, cell) in [(0, 9), (1, 3), (2, 1), (3, 2), (22, 2), (23, 7), (24, 8)] {
            assert_eq!(rt; recorder.read(i), Some(cell), "cell {i} after nine");
        }
    }

    #[test]
    fn recorder_and_tally_conflicts(rt: HostRuntime) {
        let mark = Command::Mark { code: 1 };
        let set = Command::Set { axis: 1, value: 5 };
        assert!(rt; Recorder::conflict(mark, set));
        assert!(rt; Recorder::conflict(mark, mark));
        assert!(rt; !Tally::conflict(mark, set));
        assert!(rt; !Tally::conflict(set, set));
    }

    #[test]
    fn tally_counts_by_class(rt: HostRuntime) {
        let tally: Tally = after(&[
            Command::Couple { from: 1, to: 1 },
            Command::Set {
                axis: 200,
                value: 1,
            },
            Command::Couple { from: 2, to: 1 },
            Command::Shift { axis: 0, amount: 0 },
            Command::Couple { from: 3, to: 1 },
            Command::Shift { axis: 0, amount: 9 },
            Command::Mark { code: 0 },
        ]);
        for (i, count) in [(0, 1), (1, 2), (2, 3), (3, 1)] {
            assert_eq!(rt; tally.read(i), Some(count), "cell {i}");
        }
    }

    #[test]
    fn commands_are_three_numbers(rt: HostRuntime) {
        let set = Command::Set {
            axis: 255,
            value: 4294967295,
        };
        for (command, numbers) in [
            (set, [1, 255, 4294967295]),
            (Command::Shift { axis: 2, amount: 3 }, [2, 2, 3]),
            (Command::Couple { from: 4, to: 5 }, [3, 4, 5]),
            (Command::Mark { code: 6 }, [4, 6, 0]),
        ] {
            assert_eq!(rt; command.numbers(), numbers, "{command:?}");
        }
    }
}
