//! Small cases of what a line answers, computed by its model.
ghost use Rattle.std.specs.Prelude.{◌≡◌};
ghost use Rattle.ordering.specs.Listing.{Cases};

/// Every case of the table holds.
pub fn cases_stand() -> u8
    ensures stands { Cases }
    ensures idle { result ≡ 0 }
{
    0
}
