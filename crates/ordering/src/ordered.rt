//! The ordering theorem, for every kind of machine.
ghost use Rattle.std.specs.Prelude.{◌≡◌};
ghost use Rattle.ordering.specs.Ordering.{OrderedAlways};

use machine::kind::Machine;

/// Stands for the ordering theorem: after every list of calls of a line of such machines, the whole of it holds.
pub fn ordering_stands<M: Machine>() -> u8
    ensures stands { OrderedAlways M.kind }
    ensures idle { result ≡ 0 }
{
    0
}
