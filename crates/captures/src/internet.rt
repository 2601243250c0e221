//! Reads IPv4 and IPv6 packets, and finds the UDP datagram or the segment of TCP that a packet
//! carries.

use crate::numbers::{Order, number_16};
use std::net::{IpAddr, Ipv4Addr, Ipv6Addr, SocketAddr};

/// A UDP datagram, or a segment of TCP.
#[derive(Clone, Copy)]
pub struct Datagram<'a> {
    pub from: SocketAddr,
    pub to: SocketAddr,
    /// The payload of the datagram. If the capture cut the packet short, this is only its
    /// beginning.
    pub payload: &'a [u8],
    /// Whether the capture cut the payload short.
    pub is_cut: bool,
}

/// The content of a packet.
#[derive(Clone, Copy)]
pub enum Carried<'a> {
    Udp(Datagram<'a>),
    Tcp(Datagram<'a>),
    /// The packet is a fragment of an IP packet.
    Fragment,
    /// The packet carries another protocol.
    Other,
    /// The capture has cut the headers of the packet short.
    Cut,
}

/// The protocol number of UDP.
const UDP: u8 = 17;

/// The protocol number of TCP.
const TCP: u8 = 6;

/// The length of the fixed header of IPv6.
const IPV6_LENGTH: usize = 40;

/// The length of the header of UDP.
const UDP_LENGTH: usize = 8;

/// The smallest length of the header of TCP.
const TCP_LENGTH: usize = 20;

/// Returns the content of an IPv4 or IPv6 packet, by its version. This function and the functions
/// that it calls return `None` if the headers are not whole.
pub fn internet(bytes: &[u8]) -> Option<Carried<'_>> {
    match *bytes.first()? >> 4 {
        4 => ipv4(bytes),
        6 => ipv6(bytes),
        _ => Some(Carried::Other),
    }
}

/// Returns the content of an IPv4 packet (RFC 791, section 3.1).
pub fn ipv4(bytes: &[u8]) -> Option<Carried<'_>> {
    let first = *bytes.first()?;
    let header = usize::from(first & 15) * 4;
    if first >> 4 != 4 || header < 20 {
        return Some(Carried::Other);
    }
    let total = usize::from(number_16(Order::Big, bytes, 2)?);
    let fragment = number_16(Order::Big, bytes, 6)?;
    let protocol = *bytes.get(9)?;
    let from = ipv4_at(bytes, 12)?;
    let to = ipv4_at(bytes, 16)?;
    if protocol != UDP && protocol != TCP {
        return Some(Carried::Other);
    }
    if fragment & 0x3FFF != 0 {
        return Some(Carried::Fragment);
    }
    let body = up_to(bytes, total).get(header..)?;
    if protocol == UDP {
        udp(from, to, body)
    } else {
        tcp(from, to, body, total > bytes.len())
    }
}

/// Parses the IPv4 address at an offset.
fn ipv4_at(bytes: &[u8], place: usize) -> Option<IpAddr> {
    let [a, b, c, d, ..] = bytes.get(place..)? else {
        return None;
    };
    Some(IpAddr::V4(Ipv4Addr::new(*a, *b, *c, *d)))
}

/// Returns the first `length` bytes. Returns all bytes if there are fewer, or if `length` is 0, as
/// in packets that a network card will split.
fn up_to(bytes: &[u8], length: usize) -> &[u8] {
    if length == 0 {
        return bytes;
    }
    bytes.get(..length).unwrap_or(bytes)
}

/// Returns the content of an IPv6 packet (RFC 8200, section 3).
pub fn ipv6(bytes: &[u8]) -> Option<Carried<'_>> {
    let first = *bytes.first()?;
    if first >> 4 != 6 {
        return Some(Carried::Other);
    }
    let length = usize::from(number_16(Order::Big, bytes, 4)?);
    let next = *bytes.get(6)?;
    let from = address_at(bytes, 8)?;
    let to = address_at(bytes, 24)?;
    let behind = bytes.get(IPV6_LENGTH..)?;
    let is_cut = length > behind.len();
    behind_extensions(from, to, next, up_to(behind, length), is_cut)
}

/// Parses the IPv6 address at an offset.
fn address_at(bytes: &[u8], place: usize) -> Option<IpAddr> {
    let octets = bytes.get(place..)?.get(..16)?;
    let mut ipv6 = [0; 16];
    if octets.len() != 16 {
        return None;
    }
    ipv6.copy_from_slice(octets);
    Some(IpAddr::V6(Ipv6Addr::from_octets(ipv6)))
}

/// Returns the content after the extension headers (RFC 8200, section 4), the first of which has
/// the type `next`. `is_cut` is true if the capture cut the packet short.
fn behind_extensions<'a>(
    from: IpAddr,
    to: IpAddr,
    next: u8,
    bytes: &'a [u8],
    is_cut: bool,
) -> Option<Carried<'a>> {
    let mut kind = next;
    let mut rest = bytes;
    for _header in 0..bytes.len().saturating_add(1) {
        let length = match kind {
            UDP => return udp(from, to, rest),
            TCP => return tcp(from, to, rest, is_cut),
            // Hop-by-hop options, routing, destination options, mobility, HIP, Shim6.
            0 | 43 | 60 | 135 | 139 | 140 => (usize::from(*rest.get(1)?) + 1) * 8,
            // Authentication (RFC 4302, section 2.2).
            51 => (usize::from(*rest.get(1)?) + 2) * 4,
            44 if is_whole(rest)? => 8,
            44 => return Some(Carried::Fragment),
            _ => return Some(Carried::Other),
        };
        kind = *rest.first()?;
        rest = rest.get(length..)?;
    }
    None
}

/// Returns whether a fragment header belongs to a fragment that contains the whole packet (RFC
/// 6946).
fn is_whole(bytes: &[u8]) -> Option<bool> {
    Some(number_16(Order::Big, bytes, 2)? & 0xFFF9 == 0)
}

/// Parses the UDP datagram at the front of these bytes (RFC 768). A length of 0 stands for all of
/// the bytes. If the length is less than the length of the header, the datagram is malformed, and
/// the result is `Other`.
fn udp(from: IpAddr, to: IpAddr, bytes: &[u8]) -> Option<Carried<'_>> {
    let from = SocketAddr::new(from, number_16(Order::Big, bytes, 0)?);
    let to = SocketAddr::new(to, number_16(Order::Big, bytes, 2)?);
    let length = usize::from(number_16(Order::Big, bytes, 4)?);
    if length > 0 && length < UDP_LENGTH {
        return Some(Carried::Other);
    }
    let payload = up_to(bytes, length).get(UDP_LENGTH..)?;
    Some(Carried::Udp(Datagram {
        from,
        to,
        payload,
        is_cut: length > bytes.len(),
    }))
}

/// Parses a segment of TCP (RFC 9293, section 3.1). If the header length is less than the length of
/// the fixed header, the segment is malformed, and the result is `Other`.
fn tcp(from: IpAddr, to: IpAddr, bytes: &[u8], is_cut: bool) -> Option<Carried<'_>> {
    if bytes.len() < TCP_LENGTH && !is_cut {
        return Some(Carried::Other);
    }
    let from = SocketAddr::new(from, number_16(Order::Big, bytes, 0)?);
    let to = SocketAddr::new(to, number_16(Order::Big, bytes, 2)?);
    let header = usize::from(*bytes.get(12)? >> 4) * 4;
    if header < TCP_LENGTH {
        return Some(Carried::Other);
    }
    Some(Carried::Tcp(Datagram {
        from,
        to,
        payload: bytes.get(header..)?,
        is_cut,
    }))
}
