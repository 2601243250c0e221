//! Finds the content of a packet according to the type of its link layer.

use crate::internet::{Carried, internet, ipv4, ipv6};
use crate::numbers::{Order, number_16};

/// The link-layer type of Ethernet.
pub const ETHERNET: u32 = 1;

/// The link-layer type of packets that begin with an IPv4 or IPv6 header.
pub const RAW: u32 = 101;

/// Returns the content of a packet with this link-layer type, which is `Cut` if the headers are not
/// whole. Returns `None` if the type is not supported.
pub fn carried(link: u32, bytes: &[u8]) -> Option<Carried<'_>> {
    let found = match link {
        ETHERNET => behind_type(bytes, 12),
        // Linux cooked, version 1 and version 2.
        113 => behind_type(bytes, 14),
        276 => cooked_2(bytes),
        RAW | 12 | 14 => internet(bytes),
        228 => ipv4(bytes),
        229 => ipv6(bytes),
        // Loopback: the family, whose number differs from system to system, and then the packet.
        0 | 108 => loopback(bytes),
        _ => return None,
    };
    Some(found.unwrap_or(Carried::Cut))
}

/// Returns the content after an EtherType at this offset. After the EtherType of a VLAN tag,
/// another EtherType follows.
fn behind_type(bytes: &[u8], place: usize) -> Option<Carried<'_>> {
    let mut rest = bytes.get(place..)?;
    for _tag in 0..bytes.len() {
        let kind = number_16(Order::Big, rest, 0)?;
        match kind {
            0x8100 | 0x88A8 | 0x9100 | 0x9200 => rest = rest.get(4..)?,
            _ => return of_type(kind, rest.get(2..)?),
        }
    }
    None
}

/// Returns the content of a frame with this EtherType.
fn of_type(kind: u16, bytes: &[u8]) -> Option<Carried<'_>> {
    match kind {
        0x0800 => ipv4(bytes),
        0x86DD => ipv6(bytes),
        _ => Some(Carried::Other),
    }
}

/// Returns the content of a Linux cooked frame, version 2, which begins with the EtherType. The
/// packet follows after 20 bytes.
fn cooked_2(bytes: &[u8]) -> Option<Carried<'_>> {
    let kind = number_16(Order::Big, bytes, 0)?;
    let rest = bytes.get(20..)?;
    match kind {
        0x8100 | 0x88A8 | 0x9100 | 0x9200 => behind_type(rest, 2),
        _ => of_type(kind, rest),
    }
}

fn loopback(bytes: &[u8]) -> Option<Carried<'_>> {
    internet(bytes.get(4..)?)
}
