//! What every line keeps.
ghost use Rattle.std.specs.Prelude.{◌≡◌};
ghost use Rattle.ordering.specs.KeptAlways.{EveryLineKeeps};

/// Every line keeps it, and every call does.
pub fn kept_stands() -> u8
    ensures stands { EveryLineKeeps }
    ensures idle { result ≡ 0 }
{
    0
}
