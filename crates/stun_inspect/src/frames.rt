//! The content of a UDP datagram or a segment of TCP: messages, and ChannelData of TURN (RFC 8656,
//! section 12.4).

use crate::layout::is_raw;
use captures::numbers::{Order, number_16};
use stun_extra::framing::{CHANNEL_HEADER_LENGTH, Frame, next_packet_frame, next_turn_frame};

/// A message, or ChannelData.
#[derive(Clone, Copy)]
pub enum Part<'a> {
    Message(&'a [u8]),
    Channel(ChannelData<'a>),
}

/// A channel number, and the data that the channel carries.
#[derive(Clone, Copy)]
pub struct ChannelData<'a> {
    pub channel: u16,
    pub bytes: &'a [u8],
}

/// A part of a segment, and the bytes that follow it.
#[derive(Clone, Copy)]
pub struct Cut<'a> {
    pub part: Part<'a>,
    pub rest: &'a [u8],
}

/// Returns the ChannelData at the front of the bytes, or `None` if the bytes do not begin with
/// whole ChannelData. ChannelData begins with a channel number whose first two bits are 01 (RFC
/// 5766, section 11).
fn channel_data(bytes: &[u8]) -> Option<ChannelData<'_>> {
    let channel = number_16(Order::Big, bytes, 0)?;
    let length = usize::from(number_16(Order::Big, bytes, 2)?);
    if channel < 0x4000 || channel >= 0x8000 {
        return None;
    }
    let bytes = bytes.get(CHANNEL_HEADER_LENGTH..)?.get(..length)?;
    Some(ChannelData { channel, bytes })
}

/// Returns the message or the ChannelData in a UDP datagram, or `None` if it has neither.
/// ChannelData must fill the datagram, with padding or without it (RFC 8656, section 12.5).
pub fn part_of(datagram: &[u8]) -> Option<Part<'_>> {
    if is_raw(datagram) {
        return Some(Part::Message(datagram));
    }
    let found = channel_data(datagram)?;
    let behind = datagram.get(CHANNEL_HEADER_LENGTH..)?.len();
    let length = found.bytes.len();
    if behind == length || behind == length.next_multiple_of(4) {
        Some(Part::Channel(found))
    } else {
        None
    }
}

/// Returns the part at the front of a stream: a message, ChannelData (RFC 8656, section 12.5), or a
/// message after its length in 2 bytes (RFC 4571). Returns `None` if no whole part is there.
pub fn cut_of(stream: &[u8]) -> Option<Cut<'_>> {
    if let Frame::Message(length) = next_turn_frame(stream) {
        let rest = stream.get(length..)?;
        let part = match channel_data(stream) {
            Some(found) => Part::Channel(found),
            None => Part::Message(stream.get(..length)?),
        };
        return Some(Cut { part, rest });
    }
    match next_packet_frame(stream) {
        Frame::Message(length) => {
            let message = stream.get(..length)?.get(2..)?;
            let rest = stream.get(length..)?;
            is_raw(message).then_some(Cut {
                part: Part::Message(message),
                rest,
            })
        }
        _ => None,
    }
}

/// How much of a TCP segment can be read.
#[derive(Clone, Copy, PartialEq, Eq)]
pub enum Read {
    /// The whole segment can be read.
    Whole,
    /// The segment has any number of whole parts, and then the beginning of a message that
    /// continues in another segment.
    Begun,
    /// Nothing can be read: the segment belongs to another protocol, or continues a message of
    /// another segment.
    Nothing,
}

/// Returns how much of a segment can be read.
pub fn read_of(segment: &[u8]) -> Read {
    let mut rest = segment;
    for _part in 0..segment.len() {
        match cut_of(rest) {
            Some(cut) => rest = cut.rest,
            None => break,
        }
    }
    if segment.is_empty() {
        Read::Nothing
    } else if rest.is_empty() {
        Read::Whole
    } else if is_begun(rest) {
        Read::Begun
    } else {
        Read::Nothing
    }
}

/// Returns whether a message begins at the front of the stream, or after a length of 2 bytes.
fn is_begun(stream: &[u8]) -> bool {
    is_raw(stream) || is_raw(stream.get(2..).unwrap_or(&[]))
}
