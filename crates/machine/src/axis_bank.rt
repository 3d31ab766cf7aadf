//! Kind 1: eight axes and their positions.
ghost use Rattle.std.specs.Prelude.{◌≡◌, refl};
ghost use Rattle.machine.specs.AxisBanks.{axis_bank};
ghost use Rattle.std.specs.List.{slice_get};
ghost use Rattle.machine.specs.Banks.{bank_laws};

use crate::command::Command;
use crate::kind::Machine;

/// How many axes a bank has.
const AXES: usize = 8;

/// The positions of eight axes, all 0 at the start.
#[derive(Clone, Copy)]
pub struct AxisBank {
    positions: [u32; AXES],
}

impl Machine for AxisBank {
    const CELLS: usize = AXES;

    ghost CELLS = { 8 };

    ghost kind = { axis_bank };

    ghost cells = { λ b. b.positions };

    ghost counted = { refl };

    ghost lawful = { bank_laws };

    fn start() -> Self {
        AxisBank {
            positions: [0; AXES],
        }
    }

    /// One writes an axis that the other reads or writes, unless both are Shifts. Whether the axis exists is not asked.
    fn conflict(a: Command, b: Command) -> bool {
        match (a, b) {
            (Command::Shift { .. }, Command::Shift { .. }) => false,
            (
                Command::Set { axis: x, .. } | Command::Shift { axis: x, .. },
                Command::Set { axis: y, .. } | Command::Shift { axis: y, .. },
            ) if x == y => true,
            (
                Command::Set { axis: x, .. } | Command::Shift { axis: x, .. },
                Command::Couple { from, to },
            ) if x == from || x == to => true,
            (
                Command::Couple { from, to },
                Command::Set { axis: x, .. } | Command::Shift { axis: x, .. },
            ) if x == from || x == to => true,
            (
                Command::Couple {
                    from: from_a,
                    to: to_a,
                },
                Command::Couple {
                    from: from_b,
                    to: to_b,
                },
            ) if to_a == from_b || to_a == to_b || to_b == from_a => true,
            _ => false,
        }
    }

    // Indices, since what a slice's get_mut lends leaves nothing known of the elements.
    fn run(&mut self, command: Command) {
        match command {
            Command::Set { axis, value } => {
                let i = usize::from(axis);
                if i < AXES {
                    self.positions[i] = value;
                }
            }
            Command::Shift { axis, amount } => {
                let i = usize::from(axis);
                if i < AXES {
                    self.positions[i] = self.positions[i].wrapping_add(amount);
                }
            }
            Command::Couple { from, to } => {
                let source = usize::from(from);
                let target = usize::from(to);
                if source < AXES && target < AXES {
                    self.positions[target] = self.positions[source];
                }
            }
            Command::Mark { .. } => {}
        }
    }

    fn read(&self, i: usize) -> Option<u32> {
        self.positions.get(i).copied()
    }
}
