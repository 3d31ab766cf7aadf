//! A whole list of calls, from a new line and fresh stations.
ghost use Rattle.line.specs.Books.{view_line};
ghost use Rattle.stations.specs.Played.{Played};

use crate::interface::Stations;
use line::state::Line;
use machine::kind::Machine;
use ordering::calls::{Answer, Call, Refusal};

/// A line and its stations, after all calls.
pub struct Finished<M, S> {
    pub line: Line<M>,
    pub stations: S,
}

/// Makes the calls, one after the other, on a new line with fresh stations, and writes the answers of as many as there
/// is room for. The ordering theorem holds of the calls and their answers, whatever they are.
pub fn play<S: Stations>(
    calls: &[Call],
    answers: &mut [Result<Answer, Refusal>],
) -> Finished<S::Kind, S>
    ensures { Played S.Kind.kind calls.now answers.old answers.new (view_line result.line.book) (S.held result.stations) }
{
    let mut line = Line::new();
    let mut stations = S::fresh();
    for (i, call) in calls.iter().enumerate() {
        let answer = stations.ask(&mut line, *call);
        // An index, since what a slice's get_mut or iter_mut lends leaves nothing known of the elements.
        if i < answers.len() {
            answers[i] = answer;
        }
    }
    Finished { line, stations }
}
