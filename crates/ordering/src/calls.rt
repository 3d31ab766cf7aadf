//! What may be asked of a line, how a destination stands, and why a call is refused.
ghost use Rattle.std.specs.Prelude.{◌≡◌};
ghost use Rattle.ordering.specs.Refusals.{refusal_number};

use machine::command::Command;

/// One of the six calls of a line.
#[derive(Clone, Copy)]
pub enum Call {
    /// Open the line for `members` members and `last` issue numbers.
    Open {
        members: u8,
        last: u64,
    },
    /// Send a command to the members of `set`; its bit of weight 2^q stands for member q.
    Send {
        sender: u8,
        set: u16,
        command: Command,
    },
    /// The member hears the command and proposes a timestamp.
    Hear {
        member: u8,
        number: u64,
    },
    /// The sender gets the member's proposal.
    Gather {
        member: u8,
        number: u64,
    },
    /// The final timestamp reaches the member.
    Settle {
        member: u8,
        number: u64,
    },
    /// The member's station runs its earliest ready command.
    Run {
        member: u8,
    },
}

/// How a destination of an open command stands. While heard and gathered it carries the proposal.
#[derive(Clone, Copy)]
pub enum Phase {
    Sent,
    Heard(u64),
    Gathered(u64),
    Settled,
    Run,
}

/// Why a call is refused, by number.
#[derive(Clone, Copy, PartialEq, Eq, Debug)]
pub enum Refusal {
    /// The line is open already.
    AlreadyOpen = 1,
    /// The member count is not 1 to 16.
    BadMemberCount = 2,
    /// The last issue number is not 1 to 2^48.
    BadLastNumber = 3,
    /// The line is closed.
    Closed = 4,
    /// The member or sender is not below the member count.
    NoMember = 5,
    /// The set is empty or names one that is no member.
    BadSet = 6,
    /// All issue numbers are issued.
    NumbersUsedUp = 7,
    /// 32 commands are open.
    TableFull = 8,
    /// No open command has this number.
    NoCommand = 9,
    /// The member is no destination of the command.
    NoDestination = 10,
    /// An earlier step is missing.
    TooEarly = 11,
    /// This destination has done the step.
    AlreadyDone = 12,
    /// No command is ready at the member.
    NothingReady = 13,
}

/// What a call answers that is not refused.
#[derive(Clone, Copy, PartialEq, Eq, Debug)]
pub enum Answer {
    /// The line is open.
    Opened,
    /// The issue number of the command that was sent.
    Issued(u64),
    /// The timestamp that the member proposes.
    Proposed(u64),
    /// The final timestamp, if the gather fixed it.
    Fixed(Option<u64>),
    /// The member's clock after a settle.
    Clock(u64),
    /// The final timestamp and the issue number of the command that ran.
    Ran((u64, u64)),
}

impl Refusal {
    /// The refusal's number, 1 to 13.
    pub fn number(self) -> u8
        ensures { result ≡ refusal_number self }
    {
        self as u8
    }
}
