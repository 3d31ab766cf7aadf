//! Where a command goes.
ghost use Rattle.std.specs.Prelude.{◌≡◌, ◌^◌, ◌<◌, ◌&&◌, not, nat_lt};
ghost use Rattle.open_commands.specs.Places.{AddressMade};
ghost use Rattle.ordering.specs.Searches.{names};

use crate::parts::{Address, MEMBERS};
use ordering::calls::Refusal;

/// Whether the set names one that is no member.
fn names_others(set: u16, members: u8) -> bool
    ensures { result ≡ not (nat_lt set (2 ^ members)) }
{
    if members >= 16 {
        return false;
    }
    u32::from(set) >= 1 << members
}

impl Address {
    /// The address, once the sender is below the member count and the set names members and no others.
    pub fn new(sender: u8, set: u16, members: u8) -> Result<Address, Refusal>
        ensures { AddressMade members sender set result }
    {
        if sender >= members {
            return Err(Refusal::NoMember);
        }
        if set == 0 || names_others(set, members) {
            return Err(Refusal::BadSet);
        }
        Ok(Address { sender, set })
    }

    /// What stands in a place that is not in use.
    pub fn first() -> Address
        ensures sender { result.sender ≡ 0 }
        ensures set { result.set ≡ 1 }
    {
        Address { sender: 0, set: 1 }
    }

    /// Whether the member is a destination.
    pub(crate) fn names(self, member: usize) -> bool
        ensures bit { result ≡ names self.set member }
        ensures within { result ≡ (nat_lt member 16 && names self.set member) }
    {
        member < MEMBERS && (self.set >> member) & 1 == 1
    }
}
