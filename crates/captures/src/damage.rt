//! The reasons why a capture cannot be read further.

use std::alloc::AllocError;
use std::fmt;

/// A fault of a record or a block of a capture.
#[derive(Clone, Copy)]
pub enum Fault {
    /// The file ends within the file header.
    HeaderCut,
    /// The file ends within a record or a block.
    RecordCut,
    /// A record or a block has this length, which is longer than can be read.
    RecordLength(usize),
    /// A block states this length, which no block can have, or which differs from the length at its
    /// end.
    BlockLength(usize),
    /// The byte-order magic of a section is unknown.
    Order,
    /// A packet belongs to an interface with this number, which its section does not describe.
    Interface(usize),
    /// A packet has this length, but its block is shorter.
    PacketLength(usize),
}

/// The record at which a capture cannot be read further, and the reason.
#[derive(Clone, Copy)]
pub struct Damage {
    /// The number of packets that were read before the record.
    pub packets: usize,
    /// The offset of the record in the file.
    pub place: usize,
    /// The fault of the record.
    pub fault: Fault,
}

/// Why the next packet cannot be read.
#[derive(Clone, Copy)]
pub enum Failure {
    /// An allocation failed.
    Memory,
    /// The capture is damaged.
    Damage(Damage),
}

impl From<AllocError> for Failure {
    fn from(_error: AllocError) -> Failure {
        Failure::Memory
    }
}

impl fmt::Display for Fault {
    fn fmt<W: fmt::Write>(&self, f: &mut fmt::Formatter<W>) -> fmt::Result {
        match self {
            Fault::HeaderCut => f.write_str("the file ends within its header"),
            Fault::RecordCut => f.write_str("the file ends within a record"),
            Fault::RecordLength(length) => {
                write!(
                    f,
                    "a record of {length} bytes is longer than the 4194304 that are read"
                )
            }
            Fault::BlockLength(length) => {
                write!(
                    f,
                    "a block cannot have {length} bytes, or has another length at its end"
                )
            }
            Fault::Order => f.write_str("the byte order of a section is unknown"),
            Fault::Interface(number) => write!(f, "interface {number} is not described"),
            Fault::PacketLength(length) => {
                write!(f, "a packet of {length} bytes is longer than its block")
            }
        }
    }
}

impl fmt::Display for Damage {
    fn fmt<W: fmt::Write>(&self, f: &mut fmt::Formatter<W>) -> fmt::Result {
        let Damage {
            packets,
            place,
            fault,
        } = *self;
        write!(
            f,
            "bad capture after packet {packets}, at byte {place}: {fault}"
        )
    }
}
