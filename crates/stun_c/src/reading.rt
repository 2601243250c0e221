//! Reads the fields of messages, attribute values by offset, the code in ERROR-CODE, and the
//! address in XOR-MAPPED-ADDRESS.

ghost use Rattle.std.specs.Prelude.{◌≡◌, ◌≤◌, ◌+◌, ℕ, length, IfOk, IfErr, IfSome, IfNone};
ghost use Rattle.std.specs.Prelude.{IsOkAnd, OnOk, Some, None, Ok, Err, slice_index, true};
ghost use Rattle.stun_base.specs.Header.{transaction_id_field};
ghost use Rattle.stun_types.specs.Integrity.{first_of as first_member_of};
ghost use Rattle.stun_types.specs.Message.{refusal};
ghost use Rattle.stun_types.specs.Visible.{visible};
ghost use Rattle.stun_types.specs.XorMappedAddress.{has_octets, xor_bytes, xor_key, xor_port};
ghost use Rattle.stun_types.specs.XorMappedAddress.{xored_of};
ghost use Rattle.stun_numbers.specs.Buffers.{within_room};
ghost use Rattle.stun_c.specs.Answers.{WritesWithin};
ghost use Rattle.stun_c.specs.Reading.{address_at, octets_at, class_answer, method_answer};
ghost use Rattle.stun_c.specs.Reading.{id_of_message, next_member, next_answer, number_after};
ghost use Rattle.stun_c.specs.Reading.{error_in, error_answer, address_in, octets_of_message};
ghost use Rattle.stun_c.specs.Reading.{plain_octets, plain_port_after, port_after, shown_octets};
ghost use Rattle.stun_c.specs.Reading.{find_answer, finding_refusal};

use crate::address::{IPV4, IPV6, PORT_KEY, xor_key, xor_with};
use crate::buffer::write;
use crate::header::class_number;
use byteorder::{BigEndian, ByteOrder};
use stun_base::attribute_type::AttributeType;
use stun_base::error::StunParseError;
use stun_base::header::HEADER_LENGTH;
use stun_base::transaction_id::TransactionId;
use stun_numbers::id::transaction_id;
use stun_numbers::refusal::Refusal;
use stun_types::attribute::{ATTRIBUTE_HEADER_LENGTH, ErrorCode, RawAttribute};
use stun_types::message::Message;
use stun_types::prelude::*;

/// Returns the class of a message, as the value of its two bits, or a negative error code.
pub fn class(message: &[u8]) -> i64
    ensures { result ≡ class_answer message.now }
{
    match Message::from_bytes(message) {
        Ok(message) => i64::from(class_number(message.class())),
        Err(error) => Refusal::from(error).code(),
    }
}

/// Returns the method of a message, or a negative error code.
pub fn method(message: &[u8]) -> i64
    ensures { result ≡ method_answer message.now }
{
    match Message::from_bytes(message) {
        Ok(message) => i64::from(message.method().value()),
        Err(error) => Refusal::from(error).code(),
    }
}

/// Returns the bytes of a message's transaction ID.
fn read_id_bytes(message: &[u8]) -> Result<&[u8], Refusal>
    ensures ok { IfOk result (λ id. id_of_message message.now ≡ Ok id.now) }
    ensures err { IfErr result (λ refusal. id_of_message message.now ≡ Err refusal) }
{
    let message = Message::from_bytes(message)?;
    Ok(&message.as_bytes()[8..20])
}

/// Copies the transaction ID of a message to the front of the buffer. Returns its length, or a
/// negative error code.
pub fn id(message: &[u8], out: &mut [u8]) -> i64
    ensures { WritesWithin (id_of_message message.now) out.old result out.new }
{
    match read_id_bytes(message) {
        Ok(id) => write(out, id),
        Err(refusal) => refusal.code(),
    }
}

/// Returns the first visible attribute whose offset is greater than `place`, with its offset.
fn find_after<'a>(message: &Message<'a>, place: usize) -> Option<(usize, RawAttribute<'a>)>
    ensures first { result ≡ next_member place message.now }
    ensures within { IfSome result (λ m. m.0 + 4 ≤ length message.now) }
{
    message.iter_attributes().find(|found| place < found.0)
}

/// Finds the first visible attribute after the attribute at the offset `place`, and writes its type
/// and the length of its value. Returns the offset of its value, 0 if there is no such attribute,
/// or a negative error code.
pub fn next(message: &[u8], place: usize, kind: &mut u16, value_length: &mut usize) -> i64
    ensures answer { result ≡ next_answer message.now place }
    ensures kind { kind.new ≡ number_after (λ a. a.kind) (refusal message.now)
        (next_member place message.now) kind.old }
    ensures value_length { value_length.new ≡ number_after (λ a. length a.value)
        (refusal message.now)
        (next_member place message.now) value_length.old }
{
    match Message::from_bytes(message) {
        Ok(message) => match find_after(&message, place) {
            Some((place, attribute)) => {
                *kind = attribute.get_type().value();
                *value_length = attribute.length();
                (place + ATTRIBUTE_HEADER_LENGTH) as i64
            }
            None => 0,
        },
        Err(error) => Refusal::from(error).code(),
    }
}

/// Returns the first visible ERROR-CODE of a message.
fn find_error<'a>(message: &Message<'a>) -> Result<ErrorCode<'a>, StunParseError>
    ensures { result ≡ error_in message.now }
{
    message.attribute::<ErrorCode<'a>>()
}

/// Returns the code in the first visible ERROR-CODE of a message, from 300 to 699, or a negative
/// error code if it cannot be read.
pub fn error_code(message: &[u8]) -> i64
    ensures { result ≡ error_answer message.now }
{
    match Message::from_bytes(message) {
        Ok(message) => match find_error(&message) {
            Ok(error) => i64::from(error.code()),
            Err(error) => Refusal::from(error).code(),
        },
        Err(error) => Refusal::from(error).code(),
    }
}

/// Returns `true` if an address of the family `family` has `count` octets.
fn has_octets(family: u8, count: usize) -> bool
    ensures answer { result ≡ has_octets family count }
    ensures short { result ≡ true → count ≤ 16 }
{
    match count {
        4 => family == IPV4,
        16 => family == IPV6,
        _ => false,
    }
}

/// Returns the first visible attribute of a type, with its offset.
fn find_first<'a>(message: &Message<'a>, kind: AttributeType) -> Option<(usize, RawAttribute<'a>)>
    ensures first { result ≡ first_member_of kind.0 (visible message.now) }
    ensures within { IfSome result (λ m. m.0 + 4 ≤ length message.now) }
{
    message
        .iter_attributes()
        .find(|found| found.1.get_type() == kind)
}

/// Finds the first visible attribute of a type, and writes the length of its value. Returns the
/// offset of its value, or a negative error code.
pub fn find(message: &[u8], kind: u32, value_length: &mut usize) -> i64
    ensures answer { result ≡ find_answer (finding_refusal kind message.now)
        (first_member_of kind (visible message.now)) }
    ensures value_length { value_length.new ≡ number_after (λ a. length a.value)
        (finding_refusal kind message.now)
        (first_member_of kind (visible message.now)) value_length.old }
{
    if kind >= 65536 {
        return Refusal::BadArgument.code();
    }
    match Message::from_bytes(message) {
        Ok(message) => match find_first(&message, AttributeType::new(kind as u16)) {
            Some((place, attribute)) => {
                *value_length = attribute.length();
                (place + ATTRIBUTE_HEADER_LENGTH) as i64
            }
            None => Refusal::MissingAttribute.code(),
        },
        Err(error) => Refusal::from(error).code(),
    }
}

/// Returns the port and the octets of an XOR-MAPPED-ADDRESS, both still XORed, or `None` if the
/// attribute is malformed.
fn read_hidden_parts<'a>(attribute: &RawAttribute<'a>) -> Option<(u16, &'a [u8])>
    ensures none { IfNone result (xored_of attribute.now ≡ None) }
    ensures some { IfSome result (λ parts. xored_of attribute.now ≡ Some (record {
      family = slice_index attribute.now.value 1;
      port = parts.0;
      octets = parts.1.now;
    })) }
    ensures short { IfSome result (λ parts. length parts.1.now ≤ 16) }
{
    let value = attribute.value();
    if attribute.get_type() != AttributeType::XOR_MAPPED_ADDRESS || value.len() < 4 {
        return None;
    }
    if !has_octets(value[1], value.len() - 4) {
        return None;
    }
    Some((BigEndian::read_u16(&value[2..]), &value[4..]))
}

/// Returns the port and the octets in the first visible XOR-MAPPED-ADDRESS of a message, both still
/// XORed.
fn find_hidden<'a>(message: &Message<'a>) -> Result<(u16, &'a [u8]), Refusal>
    ensures ok { IfOk result (λ parts. (id : ℕ)
        → shown_octets (address_in message.now) id ≡ Ok (xor_bytes parts.1.now (xor_key id))) }
    ensures port { IfOk result (λ parts. IsOkAnd (address_in message.now) (λ a. a.port ≡ parts.0)) }
    ensures short { IfOk result (λ parts. length parts.1.now ≤ 16) }
    ensures err { IfErr result (λ refusal. (id : ℕ)
        → shown_octets (address_in message.now) id ≡ Err refusal) }
{
    let Some((_, attribute)) = find_first(message, AttributeType::XOR_MAPPED_ADDRESS) else {
        return Err(Refusal::MissingAttribute);
    };
    match read_hidden_parts(&attribute) {
        Some(parts) => Ok(parts),
        None => Err(Refusal::MalformedAttribute),
    }
}

/// Returns the port and the octets in the first visible XOR-MAPPED-ADDRESS of a message, without
/// the XOR. The octets are written to the front of `place`, which has 16 bytes.
fn find_shown<'a>(message: &Message<'_>, place: &'a mut [u8]) -> Result<(u16, &'a [u8]), Refusal>
    requires { length place.old ≡ 16 }
    ensures ok { IfOk result (λ parts. shown_octets (address_in message.now)
        (transaction_id_field message.now) ≡ Ok parts.1.now) }
    ensures port { IfOk result (λ parts. IsOkAnd (address_in message.now)
        (λ a. parts.0 ≡ xor_port a.port)) }
    ensures err { IfErr result (λ refusal. shown_octets (address_in message.now)
        (transaction_id_field message.now) ≡ Err refusal) }
{
    let (port, octets) = find_hidden(message)?;
    let shown = &mut place[..octets.len()];
    shown.copy_from_slice(octets);
    xor_with(shown, &xor_key(message.transaction_id()));
    Ok((port ^ PORT_KEY, shown))
}

/// Like `find_shown`, but for the bytes of a message.
fn read_mapped_address<'a>(message: &[u8], place: &'a mut [u8]) -> Result<(u16, &'a [u8]), Refusal>
    requires { length place.old ≡ 16 }
    ensures ok { IfOk result (λ parts. octets_of_message message.now ≡ Ok parts.1.now) }
    ensures port { IfOk result (λ parts. IsOkAnd (address_in message.now)
        (λ a. parts.0 ≡ xor_port a.port)) }
    ensures err { IfErr result (λ refusal. octets_of_message message.now ≡ Err refusal) }
{
    let message = Message::from_bytes(message)?;
    find_shown(&message, place)
}

/// Copies the octets in the first visible XOR-MAPPED-ADDRESS of a message to the front of `out`,
/// and writes the port to `port`, both without the XOR. Returns the number of octets, or a negative
/// error code.
pub fn mapped_address(message: &[u8], out: &mut [u8], port: &mut u16) -> i64
    ensures written { WritesWithin (octets_of_message message.now) out.old result out.new }
    ensures port { port.new ≡ port_after (within_room (octets_of_message message.now)
        (length out.old))
        (address_in message.now) port.old }
{
    let mut place = [0; 16];
    match read_mapped_address(message, &mut place) {
        Ok((shown, octets)) => {
            if out.len() < octets.len() {
                return Refusal::BufferTooSmall.code();
            }
            *port = shown;
            write(out, octets)
        }
        Err(refusal) => refusal.code(),
    }
}

/// Returns the port and the octets that the message has in the address attribute at the offset
/// `place`. In an XORed address attribute, both are still XORed.
#[tactic(auto, using(crate::proofs::Members::header_before))]
fn read_hidden_at(message: &[u8], place: usize) -> Result<(u16, &[u8]), Refusal>
    ensures ok { IfOk result (λ parts. octets_at message.now place
        ≡ Ok (xor_bytes parts.1.now (xor_key (transaction_id_field message.now)))) }
    ensures plain { IfOk result (λ parts. plain_octets (address_at message.now place)
        ≡ Ok parts.1.now) }
    ensures port { IfOk result (λ parts. IsOkAnd (address_at message.now place)
        (λ a. a.port ≡ parts.0)) }
    ensures short { IfOk result (λ parts. length parts.1.now ≤ 16) }
    ensures header { OnOk result (20 ≤ length message.now) }
    ensures err { IfErr result (λ refusal. octets_at message.now place ≡ Err refusal) }
    ensures plain_err { IfErr result (λ refusal. plain_octets (address_at message.now place)
        ≡ Err refusal) }
{
    if place < HEADER_LENGTH {
        return Err(Refusal::BadArgument);
    }
    let Some(attribute) = RawAttribute::at(message, place) else {
        return Err(Refusal::BadArgument);
    };
    let attribute = RawAttribute::new(AttributeType::XOR_MAPPED_ADDRESS, attribute.value());
    match read_hidden_parts(&attribute) {
        Some(parts) => Ok(parts),
        None => Err(Refusal::MalformedAttribute),
    }
}

/// Returns the transaction ID in the header of a message.
fn read_id(message: &[u8]) -> TransactionId
    requires { 20 ≤ length message.now }
    ensures { result ≡ transaction_id_field message.now }
{
    transaction_id(&message[8..20]).unwrap()
}

/// Returns the key with which the addresses in a message are XORed.
fn read_xor_key(message: &[u8]) -> [u8; 16]
    requires { 20 ≤ length message.now }
    ensures { result ≡ xor_key (transaction_id_field message.now) }
{
    let id = read_id(message);
    xor_key(id)
}

/// Returns the port and the octets in the XORed address attribute at the offset `place` of a
/// message, without the XOR. The octets are written to the front of `room`, which has 16 bytes.
fn read_shown_at<'a>(
    message: &[u8],
    place: usize,
    room: &'a mut [u8],
) -> Result<(u16, &'a [u8]), Refusal>
    requires { length room.old ≡ 16 }
    ensures ok { IfOk result (λ parts. octets_at message.now place ≡ Ok parts.1.now) }
    ensures port { IfOk result (λ parts. IsOkAnd (address_at message.now place)
        (λ a. parts.0 ≡ xor_port a.port)) }
    ensures err { IfErr result (λ refusal. octets_at message.now place ≡ Err refusal) }
{
    let (port, octets) = read_hidden_at(message, place)?;
    let shown = &mut room[..octets.len()];
    shown.copy_from_slice(octets);
    xor_with(shown, &read_xor_key(message));
    Ok((port ^ PORT_KEY, shown))
}

/// Copies the octets in the XORed address attribute at the offset `place` of a message to the front
/// of `out`, and writes the port to `port`, both without the XOR. Returns the number of octets, or
/// a negative error code.
pub fn address_at(message: &[u8], place: usize, out: &mut [u8], port: &mut u16) -> i64
    ensures written { WritesWithin (octets_at message.now place) out.old result out.new }
    ensures port { port.new ≡ port_after (within_room (octets_at message.now place)
        (length out.old))
        (address_at message.now place) port.old }
{
    let mut room = [0; 16];
    match read_shown_at(message, place, &mut room) {
        Ok((shown, octets)) => {
            if out.len() < octets.len() {
                return Refusal::BufferTooSmall.code();
            }
            *port = shown;
            write(out, octets)
        }
        Err(refusal) => refusal.code(),
    }
}

/// Like `address_at`, but for an address attribute that is not XORed.
pub fn plain_at(message: &[u8], place: usize, out: &mut [u8], port: &mut u16) -> i64
    ensures written { WritesWithin (plain_octets (address_at message.now place)) out.old result
        out.new }
    ensures port { port.new ≡ plain_port_after
        (within_room (plain_octets (address_at message.now place)) (length out.old))
        (address_at message.now place) port.old }
{
    match read_hidden_at(message, place) {
        Ok((plain, octets)) => {
            if out.len() < octets.len() {
                return Refusal::BufferTooSmall.code();
            }
            *port = plain;
            write(out, octets)
        }
        Err(refusal) => refusal.code(),
    }
}
