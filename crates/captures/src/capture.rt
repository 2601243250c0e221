//! A capture that is read one record after another. The caller reads each record, and a `Capture`
//! stores no records, so a capture of any size needs no more memory than its longest record.
ghost use Rattle.std.specs.Prelude.{◌≡◌, ◌≤◌, IfOk, MatchResult, length};
ghost use Rattle.captures.specs.Records.{BLOCK_LENGTH};

use crate::blocks::{self, Captured, Interface};
use crate::classic::{self, Header};
use crate::clock::Moment;
use crate::damage::{Damage, Failure, Fault};
use crate::numbers::{Order, count_32, number_32};
use std::alloc::Allocator;

/// A packet of a capture.
#[derive(Clone, Copy)]
pub struct Packet<'a> {
    /// The number of the packet in the capture, counted from 1.
    pub number: usize,
    /// The offset of the packet's record in the file.
    pub place: usize,
    /// The time at which the packet was captured, if it is known.
    pub moment: Option<Moment>,
    /// The type of the packet's link layer, by the numbers of tcpdump.org.
    pub link: u32,
    /// The length of the packet on the wire.
    pub whole: usize,
    /// The bytes that were captured.
    pub bytes: &'a [u8],
}

/// A record of a capture.
#[derive(Clone, Copy)]
pub enum Step<'a> {
    Packet(Packet<'a>),
    /// The record is a block without a packet.
    Other,
}

/// The format of a file.
#[derive(Clone, Copy)]
enum Format {
    Classic(Header),
    Blocks(Order),
}

/// The number of bytes at the front of a file that show whether it is a capture.
pub const FRONT_LENGTH: usize = 12;

/// The largest number of bytes of a record that can be read.
pub const RECORD_LIMIT: usize = 4_194_304;

/// The state of reading a capture.
#[derive(Drop)]
pub struct Capture<A: Allocator> {
    /// The offset of the next record in the file.
    place: usize,
    /// The number of packets that were read.
    packets: usize,
    format: Format,
    /// The interfaces of the current section.
    interfaces: Vec<Interface, A>,
}

/// Returns the length of the file header of a file that begins with these bytes. Returns `None` if
/// the file is not a capture.
pub fn header_length_of(front: &[u8]) -> Option<usize> {
    if classic::magic_of(front).is_some() {
        return Some(classic::HEADER_LENGTH);
    }
    (number_32(Order::Big, front, 0)? == blocks::SECTION).then_some(0)
}

impl<A: Allocator> Capture<A> {
    /// Creates a capture from the header of its file. Fails if the header is cut short.
    pub fn open(alloc: A, header: &[u8]) -> Result<Capture<A>, Failure> {
        let format = match classic::header_of(header) {
            Some(header) => Format::Classic(header),
            None if classic::magic_of(header).is_some() => {
                return Err(damaged(0, 0, Fault::HeaderCut));
            }
            None => Format::Blocks(Order::Big),
        };
        let place = match format {
            Format::Classic(_) => classic::HEADER_LENGTH,
            Format::Blocks(_) => 0,
        };
        Ok(Capture {
            place,
            packets: 0,
            format,
            interfaces: Vec::new(alloc),
        })
    }

    /// Returns how many bytes at the front of a record `record_length` needs.
    pub fn front_length(&self) -> usize {
        match self.format {
            Format::Classic(_) => classic::RECORD_LENGTH,
            Format::Blocks(_) => blocks::BLOCK_LENGTH,
        }
    }

    /// Returns the length of the record that begins with these bytes. If the bytes are cut short,
    /// or contain no valid length, returns the number of these bytes. Fails if the record has more
    /// than 4194304 bytes.
    pub fn record_length(&self, front: &[u8]) -> Result<usize, Failure> {
        let length = match self.format {
            Format::Classic(header) => match count_32(header.order, front, 8) {
                Some(count) => Some(count.saturating_add(classic::RECORD_LENGTH)),
                None => None,
            },
            Format::Blocks(order) => match blocks::order_of(order, front) {
                Ok(order) => count_32(order, front, 4),
                Err(_) => None,
            },
        };
        match length {
            Some(length) if length > RECORD_LIMIT => Err(self.damage(Fault::RecordLength(length))),
            Some(length) => Ok(length),
            None => Ok(front.len()),
        }
    }

    /// Parses a record. Fails if it is damaged or an allocation fails.
    pub fn step<'a>(&mut self, record: &'a [u8]) -> Result<Step<'a>, Failure>
        ensures whole { IfOk result (λ step. BLOCK_LENGTH ≤ length record.now) }
    {
        match self.format {
            Format::Classic(header) => self.step_classic(header, record),
            Format::Blocks(order) => self.step_blocks(order, record),
        }
    }

    fn damage(&self, fault: Fault) -> Failure {
        damaged(self.packets, self.place, fault)
    }

    fn step_classic<'a>(&mut self, header: Header, bytes: &'a [u8]) -> Result<Step<'a>, Failure>
        ensures { IfOk result (λ step. BLOCK_LENGTH ≤ length bytes.now) }
    {
        let Some(record) = classic::record_of(header.order, bytes) else {
            return Err(self.damage(Fault::RecordCut));
        };
        let ticks = u64::from(record.ticks);
        let moment = match Moment::after(ticks, header.in_second) {
            Some(moment) => Some(Moment {
                seconds: moment.seconds.saturating_add(u64::from(record.seconds)),
                nanoseconds: moment.nanoseconds,
            }),
            None => None,
        };
        let step = self.packet(moment, header.link, record.whole, record.bytes);
        self.pass(bytes.len());
        Ok(step)
    }

    /// Moves the offset past a record of `length` bytes.
    fn pass(&mut self, length: usize) {
        self.place = self.place.saturating_add(length);
    }

    /// Returns the packet of the record at the current offset.
    fn packet<'a>(
        &mut self,
        moment: Option<Moment>,
        link: u32,
        whole: usize,
        bytes: &'a [u8],
    ) -> Step<'a> {
        self.packets = self.packets.saturating_add(1);
        Step::Packet(Packet {
            number: self.packets,
            place: self.place,
            moment,
            link,
            whole,
            bytes,
        })
    }

    fn step_blocks<'a>(&mut self, order: Order, bytes: &'a [u8]) -> Result<Step<'a>, Failure>
        ensures { IfOk result (λ step. BLOCK_LENGTH ≤ length bytes.now) }
    {
        let order = match blocks::order_of(order, bytes) {
            Ok(order) => order,
            Err(fault) => return Err(self.damage(fault)),
        };
        let block = match blocks::block_of(order, bytes) {
            Ok(block) => block,
            Err(fault) => return Err(self.damage(fault)),
        };
        let step = self.take_block(order, block.kind, block.body)?;
        self.pass(bytes.len());
        Ok(step)
    }

    /// Reads the contents of a block of this kind.
    fn take_block<'a>(
        &mut self,
        order: Order,
        kind: u32,
        body: &'a [u8],
    ) -> Result<Step<'a>, Failure> {
        let captured = match kind {
            blocks::SECTION => {
                self.format = Format::Blocks(order);
                self.interfaces.clear();
                return Ok(Step::Other);
            }
            1 => {
                self.add_interface(order, body)?;
                return Ok(Step::Other);
            }
            2 => blocks::obsolete_of(order, body),
            3 => {
                let most = match self.interfaces.first() {
                    Some(interface) => interface.most,
                    None => 0,
                };
                blocks::simple_of(order, most, body)
            }
            6 => blocks::enhanced_of(order, body),
            _ => return Ok(Step::Other),
        };
        match captured {
            Some(captured) => self.take_packet(captured),
            None => Err(self.damage(Fault::PacketLength(body.len()))),
        }
    }

    fn add_interface(&mut self, order: Order, body: &[u8]) -> Result<(), Failure> {
        let Some(interface) = blocks::interface_of(order, body) else {
            return Err(self.damage(Fault::RecordCut));
        };
        match self.interfaces.push(interface) {
            Ok(()) => Ok(()),
            Err(_) => Err(Failure::Memory),
        }
    }

    fn take_packet<'a>(&mut self, captured: Captured<'a>) -> Result<Step<'a>, Failure> {
        let Some(interface) = self.interfaces.get(captured.interface) else {
            return Err(self.damage(Fault::Interface(captured.interface)));
        };
        let interface = *interface;
        let moment = blocks::moment_of(interface, captured.ticks);
        Ok(self.packet(moment, interface.link, captured.whole, captured.bytes))
    }
}

fn damaged(packets: usize, place: usize, fault: Fault) -> Failure {
    Failure::Damage(Damage {
        packets,
        place,
        fault,
    })
}
