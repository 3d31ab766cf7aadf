//! The calls that take a batch of commands through a line.
use crate::counts::Counts;
use crate::load::{BATCH, command_at};
use line::state::{Line, Station};
use machine::kind::Machine;
use ordering::calls::Call;

/// How many members the line has.
pub(crate) const MEMBERS: u8 = 4;

/// The set that names every member.
const ALL: u16 = 0b1111;

/// How many commands of a batch each member sends.
const SHARE: u64 = 8;

/// A line and what it has answered.
#[derive(Drop)]
pub(crate) struct Drive<M> {
    line: Line<M>,
    pub(crate) counts: Counts,
}

impl<M: Machine> Drive<M> {
    /// A closed line that has answered nothing.
    pub(crate) fn new() -> Self {
        Drive {
            line: Line::new(),
            counts: Counts::default(),
        }
    }

    /// Makes the call, and notes the answer.
    fn ask(&mut self, call: Call, station: &mut Station<M>) {
        let answer = self.line.ask(call, station);
        self.counts.note(answer);
    }

    /// Opens the line for every member.
    pub(crate) fn open(&mut self, stations: &mut [Station<M>], last: u64) {
        if let Some(station) = stations.first_mut() {
            self.ask(
                Call::Open {
                    members: MEMBERS,
                    last,
                },
                station,
            );
        }
    }

    /// The station's member sends the command at a place of the batch to every member.
    fn send(&mut self, station: &mut Station<M>, place: u64) {
        let sender = station.member();
        self.ask(
            Call::Send {
                sender,
                set: ALL,
                command: command_at(place),
            },
            station,
        );
    }

    /// The station's member sends its share of the batch: all shares together are the whole.
    fn send_share(&mut self, station: &mut Station<M>) {
        let first = SHARE * u64::from(station.member());
        for place in first..first + SHARE {
            self.send(station, place);
        }
    }

    /// Makes a call of the station's member for each command of the batch, from the one at the place `first` on and then
    /// round from the start.
    fn step_batch<F: Fn(u8, u64) -> Call>(
        &mut self,
        station: &mut Station<M>,
        before: u64,
        first: u64,
        call: F,
    )
        requires { F.IsAlwaysCallable call }
    {
        let member = station.member();
        for turn in 0..BATCH {
            let place = first.wrapping_add(turn) % BATCH;
            self.ask(call(member, before.wrapping_add(1 + place)), station);
        }
    }

    /// The station runs the batch, and is asked for one command more, which is refused.
    fn run_batch(&mut self, station: &mut Station<M>) {
        let member = station.member();
        for _ in 0..=BATCH {
            self.ask(Call::Run { member }, station);
        }
    }

    /// The members send a batch, and one command more, which is refused.
    fn send_batch(&mut self, stations: &mut [Station<M>]) {
        for station in stations.iter_mut() {
            self.send_share(station);
        }
        if let Some(station) = stations.first_mut() {
            self.send(station, 0);
        }
    }

    /// Takes a batch through the line: each step is done at every member before the next.
    fn pass_batch(&mut self, stations: &mut [Station<M>]) {
        let before = self.counts.greatest_number;
        self.send_batch(stations);
        // Each member begins at its own share, so no two of them hear the commands in one order.
        for station in stations.iter_mut() {
            let first = SHARE * u64::from(station.member());
            self.step_batch(
                station,
                before,
                first,
                |member, number| Call::Hear { member, number },
            );
        }
        for station in stations.iter_mut() {
            self.step_batch(
                station,
                before,
                0,
                |member, number| Call::Gather { member, number },
            );
        }
        for station in stations.iter_mut() {
            self.step_batch(
                station,
                before,
                0,
                |member, number| Call::Settle { member, number },
            );
        }
        for station in stations.iter_mut() {
            self.run_batch(station);
        }
    }

    /// Takes the batches through the line, one after the other.
    pub(crate) fn pass_batches(&mut self, stations: &mut [Station<M>], batches: u64) {
        for _ in 0..batches {
            self.pass_batch(stations);
        }
    }
}
