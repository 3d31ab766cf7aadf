//! Which commands a kind of machine has to run in one order.
ghost use Rattle.std.specs.Prelude.{◌≡◌, if◌then◌else◌, count_by};
ghost use Rattle.std.specs.List.{zip};
ghost use Rattle.cartoner.specs.Neighbours.{neighbours};

use machine::command::Command;
use machine::kind::Machine;

/// The sign for two commands: `x`, code 120, where they conflict, else `.`, code 46.
pub(crate) fn sign<M: Machine>(a: Command, b: Command) -> char
    ensures { result ≡ (if M.kind.conflict a b then 120 else 46) }
{
    if M::conflict(a, b) { 'x' } else { '.' }
}

/// How many of the commands conflict with the one at their place among the others.
fn pairs_in_conflict<M: Machine>(commands: &[Command], others: &[Command]) -> usize
    ensures { result ≡ count_by (λ p. M.kind.conflict p.0 p.1) (zip commands.now others.now) }
{
    commands
        .iter()
        .zip(others)
        .filter(|(a, b)| M::conflict(**a, **b))
        .count()
}

/// How many neighbouring pairs of the commands conflict.
pub(crate) fn neighbours_in_conflict<M: Machine>(commands: &[Command]) -> usize
    ensures { result ≡ neighbours M.kind.conflict commands.now }
{
    // A match: with map_or the proof did not close.
    match commands.split_first() {
        Some((_, others)) => pairs_in_conflict::<M>(commands, others),
        None => 0,
    }
}
