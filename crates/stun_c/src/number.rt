//! Writes and reads attributes whose value is a number in network order.

ghost use Rattle.std.specs.Prelude.{◌≡◌, ◌<◌, length, true, IfOk, IfErr, Ok, Err};
ghost use Rattle.byteorder.specs.Endian.{big_bytes, big_number};
ghost use Rattle.stun_c.specs.Answers.{Writes, written_number};
ghost use Rattle.stun_c.specs.Reading.{sized_at, sized_after};
ghost use Rattle.stun_c.specs.Writing.{added_sized, has_size, is_size};

use crate::writing::add_numbered;
use byteorder::{BigEndian, ByteOrder};
use stun_base::header::HEADER_LENGTH;
use stun_numbers::refusal::Refusal;
use stun_types::attribute::RawAttribute;

/// Returns `true` if the value of an attribute can be a number of this size in bytes: 1, 2, 4 or 8.
fn is_size(size: usize) -> bool
    ensures { result ≡ is_size size }
{
    match size {
        1 => true,
        2 => true,
        4 => true,
        8 => true,
        _ => false,
    }
}

/// Returns `true` if `size` is 1, 2, 4 or 8, and `number` fits into that many bytes.
fn has_size(size: usize, number: u64) -> bool
    ensures { result ≡ has_size size number }
{
    match size {
        1 => number < 0x100,
        2 => number < 0x10000,
        4 => number < 0x1_0000_0000,
        8 => true,
        _ => false,
    }
}

/// Converts a number below 256 to one byte.
fn to_byte(number: u64) -> [u8; 1]
    requires { number < 256 }
    ensures { result ≡ big_bytes 1 number }
{
    [number as u8]
}

/// Adds an attribute of this type, whose value is a number of `size` bytes, to the message in the
/// first `count` bytes of the buffer. Returns the new length, or a negative error code.
pub fn add_number(buffer: &mut [u8], count: usize, kind: u32, number: u64, size: usize) -> i64
    ensures { Writes (added_sized buffer.old count kind size number) buffer.old result buffer.new }
{
    if !has_size(size, number) {
        return Refusal::BadArgument.code();
    }
    match size {
        1 => add_numbered(buffer, count, kind, &to_byte(number)),
        2 => add_numbered(buffer, count, kind, &(number as u16).to_be_bytes()),
        4 => add_numbered(buffer, count, kind, &(number as u32).to_be_bytes()),
        _ => add_numbered(buffer, count, kind, &number.to_be_bytes()),
    }
}

/// Returns the value of the attribute at the offset `place` of a message. Fails with `BadArgument`
/// if there is no attribute, and with `MalformedAttribute` if its value does not have 1, 2, 4 or 8
/// bytes.
fn read_sized_at(message: &[u8], place: usize) -> Result<&[u8], Refusal>
    ensures ok { IfOk result (λ value. sized_at message.now place ≡ Ok value.now) }
    ensures size { IfOk result (λ value. is_size (length value.now) ≡ true) }
    ensures err { IfErr result (λ refusal. sized_at message.now place ≡ Err refusal) }
{
    if place < HEADER_LENGTH {
        return Err(Refusal::BadArgument);
    }
    let Some(attribute) = RawAttribute::at(message, place) else {
        return Err(Refusal::BadArgument);
    };
    let value = attribute.value();
    if !is_size(value.len()) {
        return Err(Refusal::MalformedAttribute);
    }
    Ok(value)
}

/// Returns the number that these bytes encode.
fn decode_number(value: &[u8]) -> u64
    requires { is_size (length value.now) ≡ true }
    ensures { result ≡ big_number (length value.now) value.now }
{
    match value.len() {
        1 => u64::from(value[0]),
        2 => u64::from(BigEndian::read_u16(value)),
        4 => u64::from(BigEndian::read_u32(value)),
        _ => BigEndian::read_u64(value),
    }
}

/// Writes to `number` the number in the attribute at the offset `place` of a message. Returns the
/// size of the number in bytes, or a negative error code.
pub fn number_at(message: &[u8], place: usize, number: &mut u64) -> i64
    ensures answer { result ≡ written_number (sized_at message.now place) }
    ensures number { number.new ≡ sized_after (sized_at message.now place) number.old }
{
    match read_sized_at(message, place) {
        Ok(value) => {
            *number = decode_number(value);
            value.len() as i64
        }
        Err(refusal) => refusal.code(),
    }
}
