//! From the fields of a record to a step.
ghost use Rattle.std.specs.Prelude.{◌≡◌};
ghost use Rattle.record.specs.Bytes.{piece_of};
ghost use Rattle.script.specs.Steps.{asks, axis_and_word, command_of, destination_of, letter_of, open_step, pieces_of, run_step, send_step, step_by, two_axes, word_alone};
ghost use Rattle.machine.specs.declared.command.Command.TheVariants.{Set, Shift};
ghost use Rattle.ordering.specs.declared.calls.Call.TheVariants.{Gather, Hear, Settle};

use crate::faults::Cause;
use crate::fields::{empty, number_as};
use crate::operands::Operands;
use crate::steps::{CommandKind, Letter, Step, StepFault};
use machine::command::Command;
use ordering::calls::Call;
use record::Field;

/// The letter of a step: one byte, and one of the six.
pub(crate) fn letter(field: Field<'_>) -> Result<Letter, StepFault>
    ensures { result ≡ letter_of (piece_of field.entry) }
{
    let unknown = StepFault {
        cause: Cause::UnknownLetter,
        at: field.at,
    };
    let [b] = field.text else {
        return Err(unknown);
    };
    // The format names its letters as characters: a literal for each, and every other one is refused.
    match char::from(*b) {
        'O' => Ok(Letter::O),
        'S' => Ok(Letter::S),
        'H' => Ok(Letter::H),
        'G' => Ok(Letter::G),
        'T' => Ok(Letter::T),
        'R' => Ok(Letter::R),
        _ => Err(unknown),
    }
}

/// A step that is no open: it names no kind.
fn ask(call: Call) -> Step
    ensures { result ≡ asks call }
{
    Step { call, kind: None }
}

/// O uses member as the member count, number as the last issue number, class as the kind of the machines.
fn open(f: Operands<'_>) -> Result<Step, StepFault>
    ensures { result ≡ open_step (pieces_of f.entry) }
{
    let members = number_as(f.member)?;
    let last = number_as(f.number)?;
    empty(f.set)?;
    let kind = number_as(f.class)?;
    empty(f.first)?;
    empty(f.second)?;
    Ok(Step {
        call: Call::Open { members, last },
        kind: Some(kind),
    })
}

/// Two axes.
fn couple(f: Operands<'_>) -> Result<Command, StepFault>
    ensures { result ≡ two_axes (pieces_of f.entry) }
{
    let from = number_as(f.first)?;
    let to = number_as(f.second)?;
    Ok(Command::Couple { from, to })
}

/// One word, and nothing behind it.
fn mark(f: Operands<'_>) -> Result<Command, StepFault>
    ensures { result ≡ word_alone (pieces_of f.entry) }
{
    let code = number_as(f.first)?;
    empty(f.second)?;
    Ok(Command::Mark { code })
}

/// An axis and a word.
fn axis_and_word(f: Operands<'_>) -> Result<(u8, u32), StepFault>
    ensures { result ≡ axis_and_word (pieces_of f.entry) }
{
    Ok((number_as(f.first)?, number_as(f.second)?))
}

/// The command of a send, by its class.
fn command(f: Operands<'_>) -> Result<Command, StepFault>
    ensures { result ≡ command_of (pieces_of f.entry) }
{
    // A match, and no closures: each kind of command has operands of its own.
    match number_as(f.class)? {
        CommandKind::Set => axis_and_word(f).map(|(axis, value)| Command::Set { axis, value }),
        CommandKind::Shift => axis_and_word(f).map(|(axis, amount)| Command::Shift {
            axis,
            amount,
        }),
        CommandKind::Couple => couple(f),
        CommandKind::Mark => mark(f),
    }
}

/// S uses member as the sender, set, class, first and second.
fn send(f: Operands<'_>) -> Result<Step, StepFault>
    ensures { result ≡ send_step (pieces_of f.entry) }
{
    let sender = number_as(f.member)?;
    empty(f.number)?;
    let set = number_as(f.set)?;
    let command = command(f)?;
    Ok(ask(Call::Send {
        sender,
        set,
        command,
    }))
}

/// The member and the number that H, G and T use.
fn destination(f: Operands<'_>) -> Result<(u8, u64), StepFault>
    ensures { result ≡ destination_of (pieces_of f.entry) }
{
    let member = number_as(f.member)?;
    let number = number_as(f.number)?;
    empty(f.set)?;
    empty(f.class)?;
    empty(f.first)?;
    empty(f.second)?;
    Ok((member, number))
}

/// R uses member alone.
fn run(f: Operands<'_>) -> Result<Step, StepFault>
    ensures { result ≡ run_step (pieces_of f.entry) }
{
    let member = number_as(f.member)?;
    empty(f.number)?;
    empty(f.set)?;
    empty(f.class)?;
    empty(f.first)?;
    empty(f.second)?;
    Ok(ask(Call::Run { member }))
}

/// The step of a letter.
pub(crate) fn step(letter: Letter, f: Operands<'_>) -> Result<Step, StepFault>
    ensures { result ≡ step_by letter (pieces_of f.entry) }
{
    // A match, and no closures: each letter has a reading of its own.
    match letter {
        Letter::O => open(f),
        Letter::S => send(f),
        Letter::H => destination(f).map(|(member, number)| ask(Call::Hear { member, number })),
        Letter::G => destination(f).map(|(member, number)| ask(Call::Gather { member, number })),
        Letter::T => destination(f).map(|(member, number)| ask(Call::Settle { member, number })),
        Letter::R => run(f),
    }
}
