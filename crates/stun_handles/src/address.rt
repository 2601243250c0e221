//! The addresses that callers pass to the calls and receive from them.

ghost use Rattle.std.specs.Prelude.{◌≡◌, take, IfOk, IfErr, Some, None};
ghost use Rattle.stun_handles.specs.Addresses.{caller_address, ipv4, ipv6};
ghost use Rattle.stun_handles.specs.Addresses.{socket_address, start_for};

use std::net::{Ipv4Addr, Ipv6Addr, SocketAddr, SocketAddrV4, SocketAddrV6};
use stun_numbers::refusal::Refusal;

/// An address, with 4 octets (IPv4) or 16 (IPv6), and a port.
#[repr(C)]
#[derive(Debug, Clone, Copy, PartialEq, Eq)]
pub struct Address {
    /// The octets, in network order. For an IPv4 address, only the first four are read.
    pub octets: [u8; 16],
    /// The port, in host byte order.
    pub port: u16,
    /// The number of octets: 4 or 16.
    pub length: u16,
}

/// Returns the IPv4 address in the first four octets, with this port.
fn make_ipv4(octets: &[u8; 16], port: u16) -> SocketAddr
    ensures { result ≡ ipv4 (take 4 octets.now) port }
{
    let mut front = [0; 4];
    front.copy_from_slice(&octets[..4]);
    SocketAddr::V4(SocketAddrV4::new(Ipv4Addr::from_octets(front), port))
}

/// Returns the IPv6 address in the octets, with this port.
fn make_ipv6(octets: &[u8; 16], port: u16) -> SocketAddr
    ensures { result ≡ ipv6 octets.now port }
{
    SocketAddr::V6(SocketAddrV6::new(Ipv6Addr::from_octets(*octets), port, 0, 0))
}

impl Address {
    /// Converts an address that a caller passes. Fails with `BadArgument` if its length is neither
    /// 4 nor 16.
    // Not inlined, because about thirty calls for C begin with it.
    #[inline(never)]
    pub fn socket(&self) -> Result<SocketAddr, Refusal>
        ensures ok { IfOk result (λ address. socket_address self.now ≡ Some address) }
        ensures err { IfErr result (λ refusal. (socket_address self.now ≡ None)
            × (refusal ≡ Refusal.BadArgument)) }
    {
        match self.length {
            4 => Ok(make_ipv4(&self.octets, self.port)),
            16 => Ok(make_ipv6(&self.octets, self.port)),
            _ => Err(Refusal::BadArgument),
        }
    }

    /// Converts an address for a caller, or returns one of length 0 if there is none.
    pub fn of_start(start: Option<SocketAddr>) -> Address
        ensures { result ≡ start_for start }
    {
        match start {
            Some(address) => Address::of(address),
            None => Address {
                octets: [0; 16],
                port: 0,
                length: 0,
            },
        }
    }

    /// Converts an address for a caller. The result lacks the flow information and the scope of an
    /// IPv6 address.
    pub fn of(address: SocketAddr) -> Address
        ensures { result ≡ caller_address address }
    {
        match address {
            SocketAddr::V4(address) => {
                let mut octets = [0; 16];
                octets[..4].copy_from_slice(&address.ip().octets());
                Address {
                    octets,
                    port: address.port(),
                    length: 4,
                }
            }
            SocketAddr::V6(address) => Address {
                octets: address.ip().octets(),
                port: address.port(),
                length: 16,
            },
        }
    }
}
