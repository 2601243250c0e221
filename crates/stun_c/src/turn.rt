//! Writes and reads ChannelData messages of TURN (RFC 8656, section 12.4), which carry data without
//! a STUN message around it, and reads the numbers in two attributes of TURN.

ghost use Rattle.std.specs.Prelude.{◌≡◌, ◌≤◌, ◌<◌, ◌^◌, ◌+◌, ◌++◌, Some, drop, length};
ghost use Rattle.std.specs.Prelude.{IfErr, IfOk, OnOk};
ghost use Rattle.byteorder.specs.Endian.{big_bytes, big_number};
ghost use Rattle.stun_extra.specs.Turn.{is_any_channel_number};
ghost use Rattle.stun_c.specs.Answers.{WritesWithin};
ghost use Rattle.stun_c.specs.Turn.{built_channel_data, channel_answer, channel_in};
ghost use Rattle.stun_c.specs.Turn.{channel_number_answer, channel_refusal, stated_data};
ghost use Rattle.stun_c.specs.Turn.{set_by_data, transport_answer, transport_in};
ghost use Rattle.stun_c.specs.code.Channels.{padding_length, with_padding};

use crate::writing::write_zeros;
use byteorder::{BigEndian, ByteOrder};
use stun_base::error::StunParseError;
use stun_extra::attribute::{ChannelNumber, RequestedTransport};
use stun_extra::framing::CHANNEL_HEADER_LENGTH;
use stun_numbers::refusal::Refusal;
use stun_types::message::Message;

/// The largest number of bytes of data that the length field of ChannelData can state.
const MOST_DATA: usize = 65535;

/// Returns `true` if a number is a channel number of RFC 5766, whose range includes the range of
/// RFC 8656.
fn is_channel_number(number: u32) -> bool
    ensures { result ≡ is_any_channel_number number }
{
    0x4000 <= number && number < 0x8000
}

/// Returns how many zero bytes follow `data_length` bytes of data, or 0 if `is_padded` is false.
fn count_padding(data_length: usize, is_padded: bool) -> usize
    ensures length { result ≡ padding_length data_length is_padded }
    ensures short { result < 4 }
{
    if is_padded {
        (4 - data_length % 4) % 4
    } else {
        0
    }
}

/// Writes the header of a ChannelData message: the channel number and the length of the data.
fn write_header(header: &mut [u8], channel: u16, data_length: u16)
    requires { length header.old ≡ 4 }
    ensures { header.new ≡ big_bytes 2 channel ++ big_bytes 2 data_length }
{
    header[..2].copy_from_slice(&channel.to_be_bytes());
    header[2..].copy_from_slice(&data_length.to_be_bytes());
}

/// Writes a ChannelData message and its padding to the front of a buffer that has room for them.
fn spell(buffer: &mut [u8], channel: u16, data: &[u8], padding_length: usize)
    requires short { length data.now < 2 ^ 16 }
    requires room { 4 + length data.now + padding_length ≤ length buffer.old }
    ensures { buffer.new ≡ with_padding channel data.now padding_length
        ++ drop (4 + length data.now + padding_length) buffer.old }
{
    let (header, rest) = buffer.split_at_mut(CHANNEL_HEADER_LENGTH);
    let (place, rest) = rest.split_at_mut(data.len());
    let (padding, _) = rest.split_at_mut(padding_length);
    write_header(header, channel, data.len() as u16);
    place.copy_from_slice(data);
    write_zeros(padding);
}

/// Writes a ChannelData message to the front of a buffer, and, if `is_padded` is true, zeros up to
/// a multiple of 4 bytes. Returns how many bytes were written, or a negative error code.
pub fn build_channel_data(channel: u32, data: &[u8], is_padded: bool, out: &mut [u8]) -> i64
    ensures { WritesWithin (built_channel_data channel data.now is_padded) out.old result out.new }
{
    if !is_channel_number(channel) {
        return Refusal::BadArgument.code();
    }
    if data.len() > MOST_DATA {
        return Refusal::MessageTooLong.code();
    }
    let padding = count_padding(data.len(), is_padded);
    let whole = CHANNEL_HEADER_LENGTH + data.len() + padding;
    if out.len() < whole {
        return Refusal::BufferTooSmall.code();
    }
    spell(out, channel as u16, data, padding);
    whole as i64
}

/// Returns the channel number and the length of the data in the ChannelData message at the front of
/// `bytes`. Fails with `Truncated` if the message is not whole, and with `NotStun` if the bytes do
/// not begin with a channel number.
fn parse_channel_data(bytes: &[u8]) -> Result<(u16, usize), Refusal>
    ensures ok { OnOk result (channel_refusal bytes.now ≡ None) }
    ensures channel { IfOk result (λ parts. parts.0 ≡ big_number 2 bytes.now) }
    ensures data { IfOk result (λ parts. parts.1 ≡ stated_data bytes.now) }
    ensures err { IfErr result (λ refusal. channel_refusal bytes.now ≡ Some refusal) }
{
    if bytes.len() < CHANNEL_HEADER_LENGTH {
        return Err(Refusal::Truncated);
    }
    if bytes[0] / 64 != 1 {
        return Err(Refusal::NotStun);
    }
    let data_length = usize::from(BigEndian::read_u16(&bytes[2..]));
    if bytes.len() < CHANNEL_HEADER_LENGTH + data_length {
        return Err(Refusal::Truncated);
    }
    Ok((BigEndian::read_u16(bytes), data_length))
}

/// Reads the ChannelData message at the front of `bytes`, and writes its channel number and the
/// length of its data. Returns the offset of the data, or a negative error code.
pub fn read_channel_data(bytes: &[u8], channel: &mut u16, data_length: &mut usize) -> i64
    ensures answer { result ≡ channel_answer (channel_refusal bytes.now) }
    ensures channel { channel.new
        ≡ set_by_data (channel_refusal bytes.now) (big_number 2 bytes.now) channel.old }
    ensures data_length { data_length.new
        ≡ set_by_data (channel_refusal bytes.now) (stated_data bytes.now) data_length.old }
{
    match parse_channel_data(bytes) {
        Ok((number, stated)) => {
            *channel = number;
            *data_length = stated;
            CHANNEL_HEADER_LENGTH as i64
        }
        Err(refusal) => refusal.code(),
    }
}

/// Returns the first visible CHANNEL-NUMBER of a message.
fn find_channel(message: &Message<'_>) -> Result<ChannelNumber, StunParseError>
    ensures { result ≡ channel_in message.now }
{
    message.attribute::<ChannelNumber>()
}

/// Returns the channel number in the first visible CHANNEL-NUMBER of a message, or a negative error
/// code.
pub fn channel_number(message: &[u8]) -> i64
    ensures { result ≡ channel_number_answer message.now }
{
    match Message::from_bytes(message) {
        Ok(message) => match find_channel(&message) {
            Ok(number) => i64::from(number.channel()),
            Err(error) => Refusal::from(error).code(),
        },
        Err(error) => Refusal::from(error).code(),
    }
}

/// Returns the first visible REQUESTED-TRANSPORT of a message.
fn find_transport(message: &Message<'_>) -> Result<RequestedTransport, StunParseError>
    ensures { result ≡ transport_in message.now }
{
    message.attribute::<RequestedTransport>()
}

/// Returns the number of the protocol in the first visible REQUESTED-TRANSPORT of a message, or a
/// negative error code.
pub fn requested_transport(message: &[u8]) -> i64
    ensures { result ≡ transport_answer message.now }
{
    match Message::from_bytes(message) {
        Ok(message) => match find_transport(&message) {
            Ok(transport) => i64::from(transport.protocol()),
            Err(error) => Refusal::from(error).code(),
        },
        Err(error) => Refusal::from(error).code(),
    }
}
