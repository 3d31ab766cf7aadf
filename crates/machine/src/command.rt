//! What a member is told to do.
ghost use Rattle.std.specs.Prelude.{◌≡◌};
ghost use Rattle.machine.specs.Numbers.{numbers};

/// One command. Axes are bytes, whether or not a machine has such an axis.
#[derive(Clone, Copy, PartialEq, Eq, Debug)]
pub enum Command {
    /// Put an axis at a position.
    Set { axis: u8, value: u32 },
    /// Move an axis on by an amount, modulo 2^32.
    Shift { axis: u8, amount: u32 },
    /// Give the axis `to` the position of the axis `from`.
    Couple { from: u8, to: u8 },
    /// Note a code.
    Mark { code: u32 },
}

impl Command {
    /// The command as its class, first and second number.
    // Numbers, since the cells of a machine are numbers and a recorder shows the command in three of them.
    pub fn numbers(self) -> [u32; 3]
        ensures { result ≡ numbers self }
    {
        match self {
            Command::Set { axis, value } => [1, u32::from(axis), value],
            Command::Shift { axis, amount } => [2, u32::from(axis), amount],
            Command::Couple { from, to } => [3, u32::from(from), u32::from(to)],
            Command::Mark { code } => [4, code, 0],
        }
    }
}
