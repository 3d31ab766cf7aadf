//! The steps that take commands through a line of two members. Each call is made by `make`, whose contract states the
//! ordering theorem; the station that it takes is touched by a run alone.
ghost use Rattle.std.specs.Prelude.{◌<◌, List};
ghost use Rattle.line.specs.Asking.{call_at, Leads, LeadsOn};
ghost use Rattle.line.specs.Books.{view_line};
ghost use Rattle.ordering.specs.declared.calls.Call.{Call};

use crate::refused::Refused;
use line::state::{Line, Station};
use machine::command::Command;
use machine::kind::Machine;
use ordering::calls::{Answer, Call, Refusal};
use std::alloc::Global;

/// How many members the line has.
const MEMBERS: u8 = 2;

/// The set that names both members.
const BOTH: u16 = 0b11;

/// The greatest issue number of the line.
const LAST_NUMBER: u64 = 1000;

/// A member of the line: its station, and how many commands reach it together.
#[derive(Drop)]
pub(crate) struct Member<M> {
    pub(crate) station: Station<M>,
    burst: usize,
    ghost some: { 0 < burst },
}

impl<M: Machine> Member<M> {
    /// A member whose machine is freshly started.
    pub(crate) fn new(member: u8, burst: usize) -> Self
        requires { 0 < burst }
    {
        Member {
            station: Station::new(member),
            burst,
        }
    }
}

/// What the line has answered about one command.
#[derive(Clone, Copy)]
pub(crate) struct Passage {
    pub(crate) command: Command,
    pub(crate) sender: u8,
    pub(crate) number: u64,
    pub(crate) proposals: [Option<u64>; 2],
    pub(crate) timestamp: Option<u64>,
}

/// A line, and what it has answered about each command.
#[derive(Drop)]
pub(crate) struct Traffic<M> {
    line: Line<M>,
    pub(crate) passages: Vec<Passage>,
}

/// Makes a call on the line. Whatever calls have led a new line and the member's fresh station here, this call leads
/// them on, and the ordering theorem holds of all of them.
fn make<M: Machine>(
    line: &mut Line<M>,
    call: Call,
    station: &mut Station<M>,
) -> Result<Answer, Refusal>
    ensures { (cs : List Call) → Leads M.kind cs (view_line line.old.book) station.old.member (M.cells station.old.machine) → LeadsOn M.kind (call_at call station.old.member) cs (view_line line.new.book) station.old.member (M.cells station.new.machine) result }
{
    line.ask(call, station)
}

/// Runs the earliest ready command at the station, if there is one.
fn run_earliest<M: Machine>(
    line: &mut Line<M>,
    station: &mut Station<M>,
) -> Result<Option<(u64, u64)>, Refused> {
    let member = station.member();
    match make(line, Call::Run { member }, station) {
        Ok(Answer::Ran(pair)) => Ok(Some(pair)),
        Ok(answer) => Err(Refused::Answer(answer)),
        Err(Refusal::NothingReady) => Ok(None),
        Err(refusal) => Err(refusal.into()),
    }
}

impl<M: Machine> Traffic<M> {
    /// An open line, and no command.
    pub(crate) fn open(heap: Global, member: &mut Member<M>) -> Result<Self, Refused> {
        let mut line = Line::new();
        let call = Call::Open {
            members: MEMBERS,
            last: LAST_NUMBER,
        };
        let answer = make(&mut line, call, &mut member.station)?;
        let Answer::Opened = answer else {
            return Err(Refused::Answer(answer));
        };
        Ok(Traffic {
            line,
            passages: Vec::new(heap),
        })
    }

    /// Sends the commands to both members, from each of the two in turn.
    pub(crate) fn send_all(
        &mut self,
        member: &mut Member<M>,
        commands: &[Command],
    ) -> anyhow::Result<()> {
        for (turn, command) in commands.iter().enumerate() {
            let sender = (turn % 2) as u8;
            let call = Call::Send {
                sender,
                set: BOTH,
                command: *command,
            };
            let answer = make(&mut self.line, call, &mut member.station).map_err(Refused::from)?;
            let Answer::Issued(number) = answer else {
                return Err(Refused::Answer(answer).into());
            };
            self.passages.push(Passage {
                command: *command,
                sender,
                number,
                proposals: [None; 2],
                timestamp: None,
            })?;
        }
        Ok(())
    }

    /// The member hears the commands in its bursts, the newest of a burst first.
    pub(crate) fn hear_all(&mut self, member: &mut Member<M>) -> Result<(), Refused> {
        let Traffic { line, passages } = self;
        let hearer = member.station.member();
        for together in passages.chunks_mut(member.burst) {
            for passage in together.iter_mut().rev() {
                let call = Call::Hear {
                    member: hearer,
                    number: passage.number,
                };
                let answer = make(line, call, &mut member.station)?;
                let Answer::Proposed(proposal) = answer else {
                    return Err(Refused::Answer(answer));
                };
                if let Some(place) = passage.proposals.get_mut(usize::from(hearer)) {
                    *place = Some(proposal);
                }
            }
        }
        Ok(())
    }

    /// The proposals of the member are gathered.
    pub(crate) fn gather_all(&mut self, member: &mut Member<M>) -> Result<(), Refused> {
        let Traffic { line, passages } = self;
        let proposer = member.station.member();
        for passage in passages.iter_mut() {
            let call = Call::Gather {
                member: proposer,
                number: passage.number,
            };
            let answer = make(line, call, &mut member.station)?;
            let Answer::Fixed(timestamp) = answer else {
                return Err(Refused::Answer(answer));
            };
            passage.timestamp = timestamp;
        }
        Ok(())
    }

    /// Settles the commands at the member in the order in which it heard them, and runs each as soon as it is ready;
    /// answers the pair of each command that ran.
    pub(crate) fn run_all(
        &mut self,
        heap: Global,
        member: &mut Member<M>,
    ) -> anyhow::Result<Vec<(u64, u64)>> {
        let Traffic { line, passages } = self;
        let mut ran = Vec::new(heap);
        let runner = member.station.member();
        for together in passages.chunks(member.burst) {
            for passage in together.iter().rev() {
                let call = Call::Settle {
                    member: runner,
                    number: passage.number,
                };
                let answer = make(line, call, &mut member.station).map_err(Refused::from)?;
                let Answer::Clock(_) = answer else {
                    return Err(Refused::Answer(answer).into());
                };
                // A bound in place of a `while let`, since a loop must be proved to end: no more run than were sent.
                for _ in 0..passages.len() {
                    let Some(pair) = run_earliest(line, &mut member.station)? else {
                        break;
                    };
                    ran.push(pair)?;
                }
            }
        }
        Ok(ran)
    }
}
