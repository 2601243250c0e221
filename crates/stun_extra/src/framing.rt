//! Finds where messages end in a stream of bytes, as over TCP (RFC 8489, section 6.2.2), and
//! recognizes STUN among the packets of other protocols.
ghost use Rattle.std.specs.Prelude.{◌≡◌, ◌<◌, ◌↔◌, IsTrue, length};
ghost use Rattle.stun_extra.specs.Framing.{IsStunPacket, channel_frame_of, frame_of, frame_to};
ghost use Rattle.stun_extra.specs.Framing.{is_channel, may_begin, packet_frame_of, turn_frame_of};

use byteorder::{BigEndian, ByteOrder};
use stun_base::header::{HEADER_LENGTH, MessageHeader};

/// The number of bytes before a packet that hold its length (RFC 4571, section 2).
pub const PACKET_HEADER_LENGTH: usize = 2;

/// The number of bytes before the data of ChannelData: the channel and the length (RFC 8656,
/// section 12.4).
pub const CHANNEL_HEADER_LENGTH: usize = 4;

/// A header with zeros in all bits that RFC 8489, section 5, does not fix. `may_begin` overwrites
/// its front with the bytes that have arrived.
const BLANK_HEADER: [u8; HEADER_LENGTH] = [
    0, 0, 0, 0, 0x21, 0x12, 0xA4, 0x42, 0, 0, 0, 0, 0, 0, 0, 0, 0, 0, 0, 0,
];

/// The frame at the front of the bytes of a stream.
///
/// # Examples
///
/// ```
/// use seatcrane_stun::extra::{Frame, next_frame};
///
/// let message = b"\0\x01\0\0\x21\x12\xa4\x42 any 12 byte";
/// assert_eq!(next_frame(&message[..7]), Frame::Need(13)); // the rest of the header
/// assert_eq!(next_frame(message), Frame::Message(20));
/// assert_eq!(next_frame(b"GET /"), Frame::NotStun); // whatever follows
/// ```
#[derive(Clone, Copy, Debug, PartialEq, Eq)]
pub enum Frame {
    /// The bytes are the beginning of a message, and at least this many more bytes are missing (one
    /// or more).
    Need(usize),
    /// A message of this many bytes, according to its header. `Message::from_bytes` checks whether
    /// its attributes are whole.
    Message(usize),
    /// No message begins with these bytes, whatever follows. Close the connection, because the
    /// stream cannot be read any further.
    NotStun,
}

/// Finds the message at the front of the bytes of a stream (RFC 8489, section 6.2.2). The first
/// byte must be the first byte of a message.
///
/// `Need` is the number of bytes that are missing from the header or, if the header is whole, from
/// the message. The call returns `NotStun` as soon as one byte rules out a message: the first, the
/// fourth, or one of the magic cookie, which is the fifth to the eighth byte (section 5).
///
/// It does not allocate.
///
/// # Examples
///
/// ```
/// use seatcrane_stun::extra::{Frame, next_frame};
///
/// // A header that states 8 more bytes, of which 2 have arrived.
/// let bytes = b"\0\x01\0\x08\x21\x12\xa4\x42 any 12 byte\0\x24";
/// assert_eq!(next_frame(bytes), Frame::Need(6));
/// ```
pub fn next_frame(bytes: &[u8]) -> Frame
    ensures { result ≡ frame_of bytes.now }
{
    match MessageHeader::from_bytes(bytes) {
        Ok(header) => {
            make_frame(
                bytes.len(),
                HEADER_LENGTH + usize::from(header.data_length()),
            )
        }
        Err(_) if bytes.len() < HEADER_LENGTH && may_begin(bytes) => {
            Frame::Need(HEADER_LENGTH - bytes.len())
        }
        Err(_) => Frame::NotStun,
    }
}

/// Returns `true` if a header may begin with these bytes, of which there are fewer than 20.
fn may_begin(bytes: &[u8]) -> bool
    requires { length bytes.now < 20 }
    ensures { result ≡ may_begin bytes.now }
{
    let mut header = BLANK_HEADER;
    header[..bytes.len()].copy_from_slice(bytes);
    MessageHeader::from_bytes(&header).is_ok()
}

/// Finds the packet at the front of the bytes of a stream in which each packet follows its length
/// in 2 bytes, as ICE sends packets over TCP (RFC 4571, section 2). The first byte must be the
/// first byte of a length.
///
/// `Message` counts these 2 bytes too, and the packet may be empty. The call never returns
/// `NotStun`, because a packet may contain any bytes.
///
/// It does not allocate.
///
/// # Examples
///
/// ```
/// use seatcrane_stun::extra::{Frame, next_packet_frame};
///
/// let bytes = b"\0\x05mediamore";
/// assert_eq!(next_packet_frame(bytes), Frame::Message(7)); // the packet is `bytes[2..7]`
/// assert_eq!(next_packet_frame(&bytes[7..8]), Frame::Need(1));
/// ```
pub fn next_packet_frame(bytes: &[u8]) -> Frame
    ensures { result ≡ packet_frame_of bytes.now }
{
    if bytes.len() < PACKET_HEADER_LENGTH {
        return Frame::Need(PACKET_HEADER_LENGTH - bytes.len());
    }
    let length = usize::from(BigEndian::read_u16(bytes));
    make_frame(bytes.len(), PACKET_HEADER_LENGTH + length)
}

/// Finds the message or the ChannelData at the front of the bytes of a stream, as TURN sends them
/// over TCP (RFC 8656, sections 12.4 and 12.5). The first byte must be the first byte of a message
/// or of ChannelData.
///
/// If the first byte is 0x40 to 0x7F, `Message` means ChannelData, and its number of bytes includes
/// the header of 4 bytes and the padding. RFC 8656 uses only channels that begin with 0x40 to 0x4F,
/// and RFC 5766 uses all of them. Like [`next_frame`], the call returns `NotStun` as soon as one
/// byte rules out both.
///
/// It does not allocate.
///
/// # Examples
///
/// ```
/// use seatcrane_stun::extra::{Frame, next_turn_frame};
///
/// // Five bytes of data on the channel 0x4000, and three bytes of padding.
/// let bytes = b"\x40\0\0\x05media\0\0\0";
/// assert_eq!(next_turn_frame(bytes), Frame::Message(12));
/// ```
pub fn next_turn_frame(bytes: &[u8]) -> Frame
    ensures { result ≡ turn_frame_of bytes.now }
{
    if bytes.is_empty() {
        return Frame::Need(CHANNEL_HEADER_LENGTH);
    }
    if bytes[0] / 64 == 1 {
        find_channel_frame(bytes)
    } else {
        next_frame(bytes)
    }
}

/// Finds the end of the ChannelData at the front of the bytes.
fn find_channel_frame(bytes: &[u8]) -> Frame
    ensures { result ≡ channel_frame_of bytes.now }
{
    if bytes.len() < CHANNEL_HEADER_LENGTH {
        return Frame::Need(CHANNEL_HEADER_LENGTH - bytes.len());
    }
    let length = usize::from(BigEndian::read_u16(&bytes[2..]));
    make_frame(bytes.len(), CHANNEL_HEADER_LENGTH + (length + 3) / 4 * 4)
}

/// Returns `Message` if all bytes of a frame have arrived, and otherwise `Need`. `there` is the
/// number of bytes that have arrived, and `whole` is the number of bytes of the frame.
fn make_frame(there: usize, whole: usize) -> Frame
    ensures { result ≡ frame_to there whole }
{
    if there < whole {
        Frame::Need(whole - there)
    } else {
        Frame::Message(whole)
    }
}

/// Returns `true` if a packet on a port that other protocols share is for STUN (RFC 8489, section
/// 7; RFC 7983, section 7): its first byte is 0 to 3, and it begins with a STUN header.
///
/// # Examples
///
/// ```
/// use seatcrane_stun::extra::is_stun;
///
/// assert!(is_stun(b"\0\x01\0\0\x21\x12\xa4\x42 any 12 byte"));
/// assert!(!is_stun(b"\x80 a packet of RTP, with its version"));
/// ```
pub fn is_stun(packet: &[u8]) -> bool
    ensures { IsTrue result ↔ IsStunPacket packet.now }
{
    packet.len() >= HEADER_LENGTH && packet[0] <= 3 && MessageHeader::from_bytes(packet).is_ok()
}
