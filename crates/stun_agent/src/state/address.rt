//! Equality of addresses, as the specification defines it.
ghost use Rattle.std.specs.Prelude.{◌≡◌};
ghost use Rattle.stun_base.specs.Address.{same_address};

use std::net::SocketAddr;

/// Returns whether two addresses are equal.
pub(crate) fn is_same(one: SocketAddr, other: SocketAddr) -> bool
    ensures { result ≡ same_address one other }
{
    one == other
}
