//! Files in the format pcapng, which consist of blocks: sections, interfaces and packets.
ghost use Rattle.std.specs.Prelude.{◌≡◌, ◌≤◌, ◌+◌, IfOk, drop, length};
ghost use Rattle.captures.specs.Numbers.{number_in};
ghost use Rattle.captures.specs.Records.{BLOCK_LENGTH, block_body, IsEndedBy};

use crate::clock::Moment;
use crate::damage::Fault;
use crate::numbers::{Order, count_32, number_16, number_32};

/// The type of a block that begins a section. Its bytes are the same in both byte orders.
pub const SECTION: u32 = 0x0A0D_0D0A;

/// The byte-order magic, which follows the type and the length of a section, and shows the byte
/// order of the section.
const MARK: u32 = 0x1A2B_3C4D;

/// The byte-order magic of a section in `Little` byte order, if it is read in `Big` byte order.
const TURNED_MARK: u32 = 0x4D3C_2B1A;

/// The smallest number of bytes of a block: its type, and its length at both ends.
pub const BLOCK_LENGTH: usize = 12;

/// An interface from which the packets of a section were captured.
#[derive(Clone, Copy)]
pub struct Interface {
    pub link: u32,
    /// The largest number of bytes that are captured from a packet, or 0 if there is no limit.
    pub most: usize,
    /// The number of clock ticks in a second, or 0 if it is not known.
    pub in_second: u64,
    /// The seconds to add to each time.
    pub offset: u64,
}

/// The packet that a block contains.
#[derive(Clone, Copy)]
pub struct Captured<'a> {
    /// The number of the interface from which the packet was captured.
    pub interface: usize,
    /// The time of the packet in clock ticks of its interface, if the block states a time.
    pub ticks: Option<u64>,
    /// The length of the packet on the wire.
    pub whole: usize,
    /// The bytes that were captured.
    pub bytes: &'a [u8],
}

/// A block of a file.
#[derive(Clone, Copy)]
pub struct Block<'a> {
    pub kind: u32,
    /// The bytes between the length at the front of the block and the length at its end.
    pub body: &'a [u8],
    /// The bytes that follow the block.
    pub rest: &'a [u8],
}

/// Returns the byte order of the block at the front: its own byte order if it begins a section, and
/// otherwise `order`, the byte order of the current section. Fails if the byte-order magic of a
/// section is cut short or unknown.
pub fn order_of(order: Order, bytes: &[u8]) -> Result<Order, Fault> {
    if number_32(order, bytes, 0) != Some(SECTION) {
        return Ok(order);
    }
    match number_32(Order::Big, bytes, 8) {
        Some(MARK) => Ok(Order::Big),
        Some(TURNED_MARK) => Ok(Order::Little),
        Some(_) => Err(Fault::Order),
        None => Err(Fault::RecordCut),
    }
}

/// Returns the block at the front of these bytes. Fails if the block is not whole, or does not have
/// the same length at both ends.
pub fn block_of<'a>(order: Order, bytes: &'a [u8]) -> Result<Block<'a>, Fault>
    ensures body { IfOk result (λ block.
        block.body.now ≡ block_body (number_in order 4 (drop 4 bytes.now)) bytes.now) }
    ensures ends { IfOk result (λ block. IsEndedBy
        (number_in order 4 (drop 4 bytes.now)) order bytes.now) }
    ensures rest { IfOk result (λ block.
        block.rest.now ≡ drop (number_in order 4 (drop 4 bytes.now)) bytes.now) }
    ensures shorter { IfOk result (λ block.
        length block.rest.now + BLOCK_LENGTH ≤ length bytes.now) }
{
    let (Some(kind), Some(length)) = (number_32(order, bytes, 0), count_32(order, bytes, 4)) else {
        return Err(Fault::RecordCut);
    };
    if length < BLOCK_LENGTH || length % 4 != 0 {
        return Err(Fault::BlockLength(length));
    }
    let Some(last) = count_32(order, bytes, length - 4) else {
        return Err(Fault::RecordCut);
    };
    if last != length {
        return Err(Fault::BlockLength(length));
    }
    match (bytes.get(8..length - 4), bytes.get(length..)) {
        (Some(body), Some(rest)) => Ok(Block { kind, body, rest }),
        _ => Err(Fault::RecordCut),
    }
}

/// Parses the interface that a block describes. Returns `None` if the block is too short.
pub fn interface_of(order: Order, body: &[u8]) -> Option<Interface> {
    let link = u32::from(number_16(order, body, 0)?);
    let most = count_32(order, body, 4)?;
    let mut interface = Interface {
        link,
        most,
        in_second: 1_000_000,
        offset: 0,
    };
    let options = body.get(8..)?;
    read_options(order, options, &mut interface);
    Some(interface)
}

/// Reads the options of an interface, up to the end of the options or to an option that is cut
/// short.
fn read_options(order: Order, options: &[u8], interface: &mut Interface) {
    let mut rest = options;
    for _turn in 0..options.len() {
        let Some((kind, value, after)) = option_of(order, rest) else {
            return;
        };
        match (kind, value) {
            (0, _) => return,
            (9, [resolution]) => interface.in_second = ticks_of(*resolution),
            (14, _) => interface.offset = number_64(order, value).unwrap_or(0),
            _ => {}
        }
        rest = after;
    }
}

/// Returns the option at the front of these bytes: its number, its value, and the bytes after its
/// padding. Returns `None` if the option is cut short.
fn option_of<'a>(order: Order, options: &'a [u8]) -> Option<(u16, &'a [u8], &'a [u8])> {
    let kind = number_16(order, options, 0)?;
    let length = usize::from(number_16(order, options, 2)?);
    let rest = options.get(4..)?;
    let value = rest.get(..length)?;
    let after = rest.get(length.next_multiple_of(4)..)?;
    Some((kind, value, after))
}

/// Parses the 64-bit number at the front. Its upper half comes first in `Big` byte order, and its
/// lower half in `Little`.
fn number_64(order: Order, bytes: &[u8]) -> Option<u64> {
    let first = u64::from(number_32(order, bytes, 0)?);
    let second = u64::from(number_32(order, bytes, 4)?);
    Some(match order {
        Order::Big => joined(first, second),
        Order::Little => joined(second, first),
    })
}

/// Joins the halves of a 64-bit number.
fn joined(high: u64, low: u64) -> u64 {
    (high << 32) | low
}

/// Returns the number of ticks in a second for the resolution of an interface: a power of ten, or
/// of two if the first bit is set. Returns 0, which means unknown, if the number is greater than
/// 1000000000.
fn ticks_of(resolution: u8) -> u64 {
    if resolution & 0x80 != 0 {
        return match resolution & 0x7F {
            power @ 0..=29 => 1 << power,
            _ => 0,
        };
    }
    let mut ticks: u64 = 1;
    for _digit in 0..resolution {
        ticks = ticks.saturating_mul(10);
    }
    if ticks > 1_000_000_000 { 0 } else { ticks }
}

/// Parses the packet of an enhanced packet block.
pub fn enhanced_of<'a>(order: Order, body: &'a [u8]) -> Option<Captured<'a>> {
    let interface = count_32(order, body, 0)?;
    stamped_of(order, interface, body)
}

/// Parses the packet of a packet block, which is obsolete. Such a block has a count of dropped
/// packets after its interface.
pub fn obsolete_of<'a>(order: Order, body: &'a [u8]) -> Option<Captured<'a>> {
    let interface = usize::from(number_16(order, body, 0)?);
    stamped_of(order, interface, body)
}

/// Parses the packet of a block in which a time, two lengths and the bytes follow the interface.
fn stamped_of<'a>(order: Order, interface: usize, body: &'a [u8]) -> Option<Captured<'a>> {
    let high = number_32(order, body, 4)?;
    let low = number_32(order, body, 8)?;
    let count = count_32(order, body, 12)?;
    let whole = count_32(order, body, 16)?;
    let bytes = body.get(20..)?.get(..count)?;
    Some(Captured {
        interface,
        ticks: Some(joined(u64::from(high), u64::from(low))),
        whole,
        bytes,
    })
}

/// Parses the packet of a simple packet block. It belongs to the first interface of the section,
/// which captures at most `most` bytes of a packet.
pub fn simple_of<'a>(order: Order, most: usize, body: &'a [u8]) -> Option<Captured<'a>> {
    let whole = count_32(order, body, 0)?;
    let count = if most == 0 { whole } else { whole.min(most) };
    let bytes = body.get(4..)?.get(..count)?;
    Some(Captured {
        interface: 0,
        ticks: None,
        whole,
        bytes,
    })
}

/// Returns the time of a packet from an interface, if the packet has a time and the ticks of the
/// interface are known.
pub fn moment_of(interface: Interface, ticks: Option<u64>) -> Option<Moment> {
    let moment = Moment::after(ticks?, interface.in_second)?;
    Some(Moment {
        seconds: moment.seconds.saturating_add(interface.offset),
        nanoseconds: moment.nanoseconds,
    })
}
