//! Socket addresses, compared so that `a.b.c.d` and `::ffff:a.b.c.d` are the same address
//! (RFC 4291, section 2.5.5.2).
ghost use Rattle.std.specs.Net.Socket.{socket_ip, socket_port};
ghost use Rattle.std.specs.Prelude.{◌≡◌};
ghost use Rattle.stun_extra.specs.CanonicalAddress.{IsCanonical, address_octets, is_same_address};
ghost use Rattle.stun_extra.specs.CanonicalAddress.{xored_canonical};

use std::net::{IpAddr, Ipv4Addr, SocketAddr};
use stun_base::transaction_id::TransactionId;
use stun_types::attribute::XorMappedAddress;

/// Returns the sixteen octets of an address. An IPv4 address is first mapped to IPv6, as
/// `::ffff:a.b.c.d`.
pub fn address_octets(ip: IpAddr) -> [u8; 16]
    ensures { result ≡ address_octets ip }
{
    match ip {
        IpAddr::V4(ip) => map_octets(ip),
        IpAddr::V6(ip) => ip.octets(),
    }
}

/// Returns the octets of `::ffff:a.b.c.d`.
fn map_octets(ip: Ipv4Addr) -> [u8; 16]
    ensures { result ≡ address_octets (IpAddr.V4 ip) }
{
    let [a, b, c, d] = ip.octets();
    [0, 0, 0, 0, 0, 0, 0, 0, 0, 0, 255, 255, a, b, c, d]
}

/// Returns `true` if two socket addresses have the same address and the same port. An IPv4 address
/// is the same as its mapping to IPv6. The flow information and the scope of an IPv6 address are
/// not compared.
pub fn is_same_address(one: SocketAddr, other: SocketAddr) -> bool
    ensures { result ≡ is_same_address one other }
{
    one.port() == other.port() && address_octets(one.ip()) == address_octets(other.ip())
}

/// Converts `::ffff:a.b.c.d` to the IPv4 address `a.b.c.d` with the same port, and returns any
/// other address as it is. Convert an address before you compare it, for example with a list of
/// networks, because `::ffff:127.0.0.1` is in no IPv4 network.
///
/// # Examples
///
/// ```
/// use seatcrane_stun::extra::canonical;
/// use std::net::SocketAddr;
///
/// let mapped: SocketAddr = "[::ffff:127.0.0.1]:3478".parse().unwrap();
/// assert!(!mapped.ip().is_loopback());
/// assert!(canonical(mapped).ip().is_loopback());
/// ```
pub fn canonical(address: SocketAddr) -> SocketAddr
    ensures { IsCanonical address result }
{
    match address.ip() {
        IpAddr::V4(_) => address,
        IpAddr::V6(ip) => match ip.to_ipv4_mapped() {
            Some(mapped) => SocketAddr::new(IpAddr::V4(mapped), address.port()),
            None => address,
        },
    }
}

/// Returns an XOR-MAPPED-ADDRESS with the address that a request came from, for the response to the
/// request with this transaction ID (RFC 8489, section 14.2). An IPv4 address that is mapped to
/// IPv6 is written as IPv4.
pub fn mapped_address(from: SocketAddr, id: TransactionId) -> XorMappedAddress
    ensures { result ≡ xored_canonical (socket_ip from) (socket_port from) id }
{
    let ip = from.ip().to_canonical();
    XorMappedAddress::new(SocketAddr::new(ip, from.port()), id)
}
