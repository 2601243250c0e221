//! Writes messages to the caller's buffer, one attribute at a time.

ghost use Rattle.std.specs.Prelude.{◌≡◌, ◌≤◌, ◌<◌, ℕ, List, pos, nat_lt, Ok, Err, ◌+◌, ◌-◌, ◌++◌};
ghost use Rattle.std.specs.Prelude.{length, take, drop, replicate, IfOk, IfErr, OnOk, Some, None};
ghost use Rattle.std.specs.Prelude.{true, false};
ghost use Rattle.byteorder.specs.Endian.{big_bytes};
ghost use Rattle.stun_base.specs.Algorithm.{digest, digest_length};
ghost use Rattle.stun_base.specs.MessageType.{class_of_bits};
ghost use Rattle.stun_types.specs.ErrorCode.{error_value};
ghost use Rattle.stun_types.specs.Attribute.{attribute_length};
ghost use Rattle.stun_types.specs.Grammar.{spelled_attribute};
ghost use Rattle.stun_types.specs.Limits.{TEXT_LIMIT, max_length};
ghost use Rattle.stun_types.specs.Message.{with_length};
ghost use Rattle.stun_types.specs.Writing.{is_set_apart, integrity_kind, with_attribute};
ghost use Rattle.stun_types.specs.Writing.{with_integrity};
ghost use Rattle.stun_numbers.specs.Algorithms.{algorithm_numbered};
ghost use Rattle.stun_c.specs.Answers.{Writes, WritesWithin};
ghost use Rattle.stun_c.specs.code.Room.{HasRoom};
ghost use Rattle.stun_c.specs.Writing.{begun_message, fit_refusal, adding_refusal, digest_refusal};
ghost use Rattle.stun_c.specs.Writing.{added_attribute, added_number, added_error};
ghost use Rattle.stun_c.specs.Writing.{error_argument_refusal, may_repeat, signed_message};
ghost use Rattle.stun_c.specs.Writing.{shows_kind};

use crate::buffer::write;
use byteorder::{BigEndian, ByteOrder};
use stun_base::algorithm::IntegrityAlgorithm;
use stun_base::attribute_type::AttributeType;
use stun_base::header::HEADER_LENGTH;
use stun_base::hmac::{SHA1_LENGTH, SHA256_LENGTH, hmac_sha1, hmac_sha256};
use stun_base::message_type::{MessageClass, MessageType, Method};
use stun_numbers::algorithm::algorithm_numbered;
use stun_numbers::id::transaction_id;
use stun_numbers::message::{base_message, is_set_apart};
use stun_numbers::refusal::Refusal;
use stun_numbers::text::text;
use stun_types::attribute::attribute_length;
use stun_types::limits::{MAX_LENGTH, TEXT_LIMIT};
use stun_types::message::{Message, MessageWriteMutSlice};
use stun_types::prelude::*;

/// The type of XOR-PEER-ADDRESS (RFC 8656, section 18.3).
const XOR_PEER_ADDRESS: u16 = 0x0012;

/// The type of XOR-RELAYED-ADDRESS (RFC 8656, section 18.5).
const XOR_RELAYED_ADDRESS: u16 = 0x0016;

/// Returns `true` if a message may have several attributes of this type, which TURN needs for
/// XOR-PEER-ADDRESS and XOR-RELAYED-ADDRESS (RFC 8656, sections 10.1 and 7.2).
fn may_repeat(kind: AttributeType) -> bool
    ensures { result ≡ may_repeat kind.0 }
{
    kind.value() == XOR_PEER_ADDRESS || kind.value() == XOR_RELAYED_ADDRESS
}

/// Returns `true` if the message has a visible attribute of this type.
pub fn shows_kind(message: &Message<'_>, kind: AttributeType) -> bool
    ensures { result ≡ shows_kind kind.0 message.now }
{
    message
        .iter_attributes()
        .find(|found| found.1.get_type() == kind)
        .is_some()
}

/// Checks that an attribute with a value of this length fits after a message, in a buffer with
/// `room` further bytes. Fails with `MessageTooLong` if the length field could not state the new
/// length, and then with `BufferTooSmall` if there is not enough room.
pub fn fits(message: &Message<'_>, room: usize, value_length: usize) -> Result<(), Refusal>
    ensures ok { OnOk result (fit_refusal message.now room value_length ≡ None) }
    ensures header { OnOk result (20 ≤ length message.now) }
    ensures room { OnOk result (attribute_length value_length ≤ room) }
    ensures short { OnOk result (length message.now - 20 + attribute_length value_length
        ≤ max_length) }
    ensures err { IfErr result (λ refusal. fit_refusal message.now room value_length
        ≡ Some refusal) }
{
    let padded_length = attribute_length(value_length);
    let data_length = message.as_bytes().len() - HEADER_LENGTH;
    if data_length.saturating_add(padded_length) > MAX_LENGTH {
        return Err(Refusal::MessageTooLong);
    }
    if room < padded_length {
        return Err(Refusal::BufferTooSmall);
    }
    Ok(())
}

/// Checks that an attribute with this type and a value of this length can be added to the message
/// in the first `count` bytes of the buffer.
///
/// # Errors
///
/// The first of these that applies:
///
/// - The errors of `base_message`.
/// - `NotAllowed`: attributes of this type are written only by calls of their own.
/// - `AttributeExists`: the message has an attribute of this type, and the type is neither
///   XOR-PEER-ADDRESS nor XOR-RELAYED-ADDRESS.
/// - `MessageTooLong` or `BufferTooSmall`: the attribute does not fit (`fits`).
fn check_adding(
    buffer: &[u8],
    count: usize,
    kind: AttributeType,
    value_length: usize,
) -> Result<(), Refusal>
    ensures ok { OnOk result (adding_refusal buffer.now count kind.0 value_length ≡ None) }
    ensures fits { OnOk result (HasRoom count value_length (length buffer.now)) }
    ensures err { IfErr result (λ refusal. adding_refusal buffer.now count kind.0 value_length
        ≡ Some refusal) }
{
    let message = base_message(buffer, count)?;
    if is_set_apart(kind) {
        return Err(Refusal::NotAllowed);
    }
    if !may_repeat(kind) && shows_kind(&message, kind) {
        return Err(Refusal::AttributeExists);
    }
    fits(&message, buffer.len() - count, value_length)
}

/// Sets the length field of a message to `data_length`, the number of bytes after the header.
pub fn set_length(message: &mut [u8], data_length: u16)
    requires { 20 ≤ length message.old }
    ensures { message.new ≡ with_length message.old data_length }
{
    BigEndian::write_u16(&mut message[2..], data_length);
}

/// Writes the header of an attribute: its type, and the length of its value.
pub fn write_header(header: &mut [u8], kind: AttributeType, value_length: usize)
    requires whole { length header.old ≡ 4 }
    requires short { value_length ≤ max_length }
    ensures { header.new ≡ big_bytes 2 kind.0 ++ big_bytes 2 value_length }
{
    header[..2].copy_from_slice(&kind.value().to_be_bytes());
    header[2..].copy_from_slice(&(value_length as u16).to_be_bytes());
}

/// Fills the padding with zeros.
pub fn write_zeros(padding: &mut [u8])
    ensures { padding.new ≡ replicate (length padding.old) 0 }
{
    padding.fill(0);
}

/// Writes an attribute with its header and its padding to the front of a buffer that has room for
/// it.
pub fn spell(buffer: &mut [u8], kind: AttributeType, value: &[u8])
    requires short { length value.now ≤ max_length }
    requires room { attribute_length (length value.now) ≤ length buffer.old }
    ensures { buffer.new ≡ spelled_attribute (record { kind = kind.0; value = value.now })
        ++ drop (attribute_length (length value.now)) buffer.old }
{
    let padding_length = (4 - value.len() % 4) % 4;
    let (header, rest) = buffer.split_at_mut(4);
    let (place, rest) = rest.split_at_mut(value.len());
    let (padding, _) = rest.split_at_mut(padding_length);
    write_header(header, kind, value.len());
    place.copy_from_slice(value);
    write_zeros(padding);
}

/// Appends an attribute to the message in the first `count` bytes of the buffer: sets the length
/// field of the message to include it, and writes it after the message. Returns the new length.
pub(crate) fn append(buffer: &mut [u8], count: usize, kind: AttributeType, value: &[u8]) -> i64
    requires { HasRoom count (length value.now) (length buffer.old) }
    ensures answer { result ≡ pos (count + attribute_length (length value.now)) }
    ensures written { buffer.new ≡ with_attribute (take count buffer.old)
        (record { kind = kind.0; value = value.now })
        ++ drop (count + attribute_length (length value.now)) buffer.old }
{
    let end = count + attribute_length(value.len());
    let (message, rest) = buffer.split_at_mut(count);
    set_length(message, (end - HEADER_LENGTH) as u16);
    spell(rest, kind, value);
    end as i64
}

/// Adds an attribute to the message in the first `count` bytes of the buffer. Returns the new
/// length, or a negative error code.
pub fn add(buffer: &mut [u8], count: usize, kind: AttributeType, value: &[u8]) -> i64
    ensures { Writes (added_attribute buffer.old count kind.0 value.now) buffer.old result
        buffer.new }
{
    match check_adding(buffer, count, kind, value.len()) {
        Ok(()) => append(buffer, count, kind, value),
        Err(refusal) => refusal.code(),
    }
}

/// Adds an attribute like `add`, but with its type as a number. Fails with `BadArgument` if the
/// number is above 65535.
pub fn add_numbered(buffer: &mut [u8], count: usize, kind: u32, value: &[u8]) -> i64
    ensures { Writes (added_number buffer.old count kind value.now) buffer.old result buffer.new }
{
    if kind >= 65536 {
        return Refusal::BadArgument.code();
    }
    add(buffer, count, AttributeType::new(kind as u16), value)
}

/// Writes the integrity attribute that signs `text` to the front of a buffer that has room for it.
fn spell_digest(buffer: &mut [u8], algorithm: IntegrityAlgorithm, key: &[u8], text: &[u8])
    requires { attribute_length (digest_length algorithm) ≤ length buffer.old }
    ensures { buffer.new ≡ spelled_attribute (record {
      kind = integrity_kind algorithm;
      value = digest algorithm key.now text.now;
    })
        ++ drop (attribute_length (digest_length algorithm)) buffer.old }
{
    match algorithm {
        IntegrityAlgorithm::Sha1 => {
            let digest = digest_sha1(key, text);
            spell(buffer, AttributeType::MESSAGE_INTEGRITY, &digest);
        }
        IntegrityAlgorithm::Sha256 => {
            let digest = digest_sha256(key, text);
            spell(buffer, AttributeType::MESSAGE_INTEGRITY_SHA256, &digest);
        }
    }
}

/// Returns the HMAC-SHA1 of a text.
fn digest_sha1(key: &[u8], text: &[u8]) -> [u8; SHA1_LENGTH]
    ensures { result ≡ digest IntegrityAlgorithm.Sha1 key.now text.now }
{
    hmac_sha1(key, &[text])
}

/// Returns the HMAC-SHA256 of a text.
fn digest_sha256(key: &[u8], text: &[u8]) -> [u8; SHA256_LENGTH]
    ensures { result ≡ digest IntegrityAlgorithm.Sha256 key.now text.now }
{
    hmac_sha256(key, &[text])
}

/// Appends the integrity attribute of an algorithm to the message in the first `count` bytes of the
/// buffer: sets the length field of the message to include it, and writes it after the message.
/// Returns the new length.
fn append_integrity(
    buffer: &mut [u8],
    count: usize,
    algorithm: IntegrityAlgorithm,
    key: &[u8],
) -> i64
    requires { HasRoom count (digest_length algorithm) (length buffer.old) }
    ensures answer { result ≡ pos (count + attribute_length (digest_length algorithm)) }
    ensures written { buffer.new ≡ with_integrity (take count buffer.old) algorithm key.now
        ++ drop (count + attribute_length (digest_length algorithm)) buffer.old }
{
    let end = count + attribute_length(algorithm.digest_length());
    let (message, rest) = buffer.split_at_mut(count);
    set_length(message, (end - HEADER_LENGTH) as u16);
    spell_digest(rest, algorithm, key, message);
    end as i64
}

/// Returns the algorithm with this number, if its integrity attribute can be added to the message
/// in the first `count` bytes of the buffer. Fails with `BadArgument` if no algorithm has this
/// number, and otherwise with the first error because of which the attribute cannot be added.
fn check_signing(buffer: &[u8], count: usize, algorithm: u32) -> Result<IntegrityAlgorithm, Refusal>
    ensures ok { IfOk result (λ algorithm'. (algorithm_numbered algorithm ≡ Some algorithm')
        × (digest_refusal buffer.now count algorithm' ≡ None)
        × HasRoom count (digest_length algorithm') (length buffer.now)) }
    ensures err { IfErr result (λ refusal. (key : List ℕ)
        → signed_message buffer.now count (algorithm_numbered algorithm) key ≡ Err refusal) }
{
    let algorithm = algorithm_numbered(algorithm)?;
    let message = base_message(buffer, count)?;
    fits(&message, buffer.len() - count, algorithm.digest_length())?;
    Ok(algorithm)
}

/// Adds the integrity attribute of an algorithm to the message in the first `count` bytes of the
/// buffer. Returns the new length, or a negative error code.
pub fn sign(buffer: &mut [u8], count: usize, algorithm: u32, key: &[u8]) -> i64
    ensures { Writes (signed_message buffer.old count (algorithm_numbered algorithm) key.now)
        buffer.old result buffer.new }
{
    match check_signing(buffer, count, algorithm) {
        Ok(algorithm) => append_integrity(buffer, count, algorithm, key),
        Err(refusal) => refusal.code(),
    }
}

/// Returns the class with this number. Fails with `BadArgument` if the number is above 3.
fn to_class(number: u32) -> Result<MessageClass, Refusal>
    ensures ok { IfOk result (λ class. (nat_lt number 4 ≡ true) × (class ≡ class_of_bits number)) }
    ensures err { IfErr result (λ refusal. (nat_lt number 4 ≡ false)
        × (refusal ≡ Refusal.BadArgument)) }
{
    match number {
        0 => Ok(MessageClass::Request),
        1 => Ok(MessageClass::Indication),
        2 => Ok(MessageClass::Success),
        3 => Ok(MessageClass::Error),
        _ => Err(Refusal::BadArgument),
    }
}

/// Returns the method with this number. Fails with `BadArgument` if the number has more than 12
/// bits.
fn to_method(number: u32) -> Result<Method, Refusal>
    ensures ok { IfOk result (λ method. (nat_lt number 4096 ≡ true) × (method ≡ number)) }
    ensures err { IfErr result (λ refusal. (nat_lt number 4096 ≡ false)
        × (refusal ≡ Refusal.BadArgument)) }
{
    if number >= 4096 {
        return Err(Refusal::BadArgument);
    }
    Ok(Method::new(number as u16).unwrap())
}

/// Writes a message header to a buffer that has room for it, and returns its bytes.
fn make_message_header<'a>(
    class: u32,
    method: u32,
    id: &[u8],
    buffer: &'a mut [u8],
) -> Result<&'a [u8], Refusal>
    requires { 20 ≤ length buffer.old }
    ensures ok { IfOk result (λ header. begun_message class method id.now ≡ Ok header.now) }
    ensures err { IfErr result (λ refusal. begun_message class method id.now ≡ Err refusal) }
{
    let class = to_class(class)?;
    let method = to_method(method)?;
    let id = transaction_id(id)?;
    let writer = MessageWriteMutSlice::new(buffer);
    let message_type = MessageType::from_class_method(class, method);
    let writer = Message::builder(message_type, id, writer).unwrap();
    Ok(writer.finish())
}

/// Writes a message without attributes to the front of the buffer. Returns its length, or a
/// negative error code.
pub fn begin(class: u32, method: u32, id: &[u8], out: &mut [u8]) -> i64
    ensures { WritesWithin (begun_message class method id.now) out.old result out.new }
{
    let mut place = [0; HEADER_LENGTH];
    match make_message_header(class, method, id, &mut place) {
        Ok(header) => write(out, header),
        Err(refusal) => refusal.code(),
    }
}

/// Writes the value of an ERROR-CODE.
pub fn write_error(value: &mut [u8], code: u16, reason: &[u8])
    requires code { code < 700 }
    requires room { length value.old ≡ 4 + length reason.now }
    ensures { value.new ≡ error_value (record { code = code; reason = reason.now }) }
{
    let (front, back) = value.split_at_mut(4);
    front.copy_from_slice(&[0, 0, (code / 100) as u8, (code % 100) as u8]);
    back.copy_from_slice(reason);
}

/// Returns the code, if an ERROR-CODE can have this code and this reason phrase. Fails with
/// `BadArgument` if the code is not between 300 and 699, then with `NotText` if the reason phrase
/// is not UTF-8, then with `TextTooLong` if it has more than 763 bytes.
fn check_error_arguments(code: u32, reason: &[u8]) -> Result<u16, Refusal>
    ensures ok { IfOk result (λ code'. (code' ≡ code) × (code < 700) ×
        (length reason.now ≤ TEXT_LIMIT)) }
    ensures accepted { OnOk result (error_argument_refusal code reason.now ≡ None) }
    ensures err { IfErr result (λ refusal. error_argument_refusal code reason.now ≡ Some refusal) }
{
    if !(300..700).contains(&code) {
        return Err(Refusal::BadArgument);
    }
    let text = text(reason)?;
    if text.len() > TEXT_LIMIT {
        return Err(Refusal::TextTooLong);
    }
    Ok(code as u16)
}

/// Adds an ERROR-CODE to the message in the first `count` bytes of the buffer. Returns the new
/// length, or a negative error code.
pub fn add_error(buffer: &mut [u8], count: usize, code: u32, reason: &[u8]) -> i64
    ensures { Writes (added_error buffer.old count code reason.now) buffer.old result buffer.new }
{
    match check_error_arguments(code, reason) {
        Ok(code) => {
            let mut longest = [0; 4 + TEXT_LIMIT];
            let value = &mut longest[..4 + reason.len()];
            write_error(value, code, reason);
            add(buffer, count, AttributeType::ERROR_CODE, value)
        }
        Err(refusal) => refusal.code(),
    }
}
