//! Files in the format pcap: a file header, and then a record for each packet.
ghost use Rattle.std.specs.Prelude.{◌≡◌, ◌≤◌, ◌<◌, ◌+◌, IfSome, IfNone, drop, length};
ghost use Rattle.captures.specs.Records.{RECORD_LENGTH, packet_bytes, record_length};

use crate::numbers::{Order, count_32, number_32};

/// The length of the file header.
pub const HEADER_LENGTH: usize = 24;

/// The length of the header of a record.
pub const RECORD_LENGTH: usize = 16;

/// The file header.
#[derive(Clone, Copy)]
pub struct Header {
    pub order: Order,
    /// The clock ticks in a second.
    pub in_second: u64,
    /// The link-layer type of all packets.
    pub link: u32,
}

/// The record of a packet.
#[derive(Clone, Copy)]
pub struct Record<'a> {
    pub seconds: u32,
    /// The clock ticks since that second began.
    pub ticks: u32,
    /// The length of the packet on the wire.
    pub whole: usize,
    /// The bytes that were captured.
    pub bytes: &'a [u8],
    /// The bytes that follow the record.
    pub rest: &'a [u8],
}

/// Returns the byte order and the number of ticks in a second of a file, by its first four bytes.
/// Returns `None` if these bytes are not the magic number of a pcap file.
pub fn magic_of(bytes: &[u8]) -> Option<(Order, u64)> {
    match number_32(Order::Big, bytes, 0)? {
        0xA1B2_C3D4 => Some((Order::Big, 1_000_000)),
        0xD4C3_B2A1 => Some((Order::Little, 1_000_000)),
        0xA1B2_3C4D => Some((Order::Big, 1_000_000_000)),
        0x4D3C_B2A1 => Some((Order::Little, 1_000_000_000)),
        _ => None,
    }
}

/// Parses the file header. Returns `None` if the header is not whole, or if its magic number is
/// unknown. Only the lower half of the link type is used, because the upper half counts bytes at
/// the end of a packet.
pub fn header_of(bytes: &[u8]) -> Option<Header> {
    let magic = magic_of(bytes)?;
    let (order, in_second) = magic;
    let link = number_32(order, bytes, 20)? & 0xFFFF;
    Some(Header {
        order,
        in_second,
        link,
    })
}

/// Parses the record at the front of these bytes. Returns `None` if it is not whole.
pub fn record_of<'a>(order: Order, bytes: &'a [u8]) -> Option<Record<'a>>
    ensures none { IfNone result (length bytes.now < record_length order bytes.now) }
    ensures packet { IfSome result (λ found. found.bytes.now ≡ packet_bytes order bytes.now) }
    ensures rest { IfSome result (λ found.
        found.rest.now ≡ drop (record_length order bytes.now) bytes.now) }
    ensures shorter { IfSome result (λ found.
        length found.rest.now + RECORD_LENGTH ≤ length bytes.now) }
{
    let count = count_32(order, bytes, 8)?;
    let packet = bytes.get(RECORD_LENGTH..)?.get(..count)?;
    let rest = bytes.get(RECORD_LENGTH + count..)?;
    Some(Record {
        seconds: number_32(order, bytes, 0)?,
        ticks: number_32(order, bytes, 4)?,
        whole: count_32(order, bytes, 12)?,
        bytes: packet,
        rest,
    })
}
