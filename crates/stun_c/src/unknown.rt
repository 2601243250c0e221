//! Finds the comprehension-required attribute types that the caller does not know, and writes the
//! error response 420 that lists them (RFC 8489, sections 6.3.1 and 14.13).

ghost use Rattle.std.specs.Prelude.{◌≡◌, ◌≤◌, ◌<◌, ◌+◌, ◌*◌, ◌++◌, ◌^◌, length, pos, take, drop};
ghost use Rattle.std.specs.Prelude.{set, IfOk, IfErr, OnOk, Some, None, Ok, Err};
ghost use Rattle.byteorder.specs.Endian.{big_bytes};
ghost use Rattle.stun_base.specs.declared.wire.message_type.MessageClass.{MessageClass};
ghost use Rattle.stun_types.specs.Attribute.{attribute_length};
ghost use Rattle.stun_types.specs.Grammar.{spelled_attribute};
ghost use Rattle.stun_types.specs.Writing.{empty_answer, with_attribute};
ghost use Rattle.stun_extra.specs.Unknown.{spelled_types, types_of, unknown_attribute_error};
ghost use Rattle.stun_extra.specs.Unknown.{unknown_types};
ghost use Rattle.stun_c.specs.Answers.{WritesWithin};
ghost use Rattle.stun_c.specs.Extra.{answer_made, known_refusal, numbers_after, refused_front};
ghost use Rattle.stun_c.specs.Extra.{told_number, types_after, types_attribute, unknown_answer};
ghost use Rattle.stun_c.specs.Extra.{unknown_made, unknown_of};

use crate::header::class_number;
use crate::writing::{append, set_length, write_error, write_header, write_zeros};
use stun_base::attribute_type::AttributeType;
use stun_base::header::HEADER_LENGTH;
use stun_extra::unknown::{UNKNOWN_ATTRIBUTES, unknown_types};
use stun_numbers::refusal::Refusal;
use stun_types::attribute::attribute_length;
use stun_types::message::{Message, MessageWriteMutSlice};
use stun_types::prelude::*;

/// The largest number of types that a caller may list as known.
// They are copied to the stack, because these calls have no allocator.
const MOST_KNOWN: usize = 256;

/// Writes the attribute types with these numbers to an array of the same length.
fn copy_types(types: &mut [AttributeType], numbers: &[u16])
    requires { length types.old ≡ length numbers.now }
    ensures { types.new ≡ types_of numbers.now }
{
    for i in 0..numbers.len() {
        types[i] = AttributeType::new(numbers[i]);
    }
}

/// Converts the numbers of the types that the caller knows, and writes the types to `place`, which
/// has room for `MOST_KNOWN` types. Fails with `BadArgument` if there are more than `MOST_KNOWN`
/// numbers.
fn copy_known<'a>(
    numbers: &[u16],
    place: &'a mut [AttributeType],
) -> Result<&'a [AttributeType], Refusal>
    requires { length place.old ≡ MOST_KNOWN }
    ensures ok { IfOk result (λ known. known.now ≡ types_of numbers.now) }
    ensures few { OnOk result (length numbers.now ≤ MOST_KNOWN) }
    ensures err { IfErr result (λ refusal. (MOST_KNOWN < length numbers.now)
        × (refusal ≡ Refusal.BadArgument)) }
{
    let Some(known) = place.get_mut(..numbers.len()) else {
        return Err(Refusal::BadArgument);
    };
    copy_types(known, numbers);
    Ok(known)
}

/// Writes a number to the array at the index `place`. Does nothing if the array has no such index.
#[tactic(auto, using(crate::proofs::Told::not_set))]
pub fn put(numbers: &mut [u16], place: usize, number: u16)
    ensures { numbers.new ≡ set numbers.old place number }
{
    if place < numbers.len() {
        numbers[place] = number;
    }
}

/// Writes the unknown types of a message to the front of the caller's array, as many as fit, and
/// returns how many there are.
#[tactic(auto, using(crate::proofs::Told::told_next, crate::proofs::Told::left_next))]
fn tell(message: &Message<'_>, known: &[AttributeType], types: &mut [u16]) -> usize
    ensures count { result ≡ length (unknown_types known.now message.now) }
    ensures few { result < 2 ^ 14 }
    ensures types { types.new ≡ numbers_after (unknown_types known.now message.now) types.old }
{
    let mut count = 0;
    for kind in unknown_types(message, known) {
        put(types, count, kind.value());
        count += 1;
    }
    count
}

/// Parses the message, and converts the numbers of the types that the caller knows. Fails with
/// `BadArgument` if there are more than `MOST_KNOWN` numbers, and then with the error of
/// `Message::from_bytes`.
fn parse_arguments<'a, 'b>(
    bytes: &'a [u8],
    known: &[u16],
    place: &'b mut [AttributeType],
) -> Result<(Message<'a>, &'b [AttributeType]), Refusal>
    requires { length place.old ≡ MOST_KNOWN }
    ensures ok { IfOk result (λ both. (known_refusal bytes.now known.now ≡ None)
        × (both.0 ≡ bytes.now) × (both.1.now ≡ types_of known.now)) }
    ensures err { IfErr result (λ refusal. known_refusal bytes.now known.now ≡ Some refusal) }
{
    let known = copy_known(known, place)?;
    let message = Message::from_bytes(bytes)?;
    Ok((message, known))
}

/// Writes the unknown types of a message to the front of the caller's array, as many as fit.
/// Returns how many there are, or a negative error code.
pub fn types(message: &[u8], known: &[u16], types: &mut [u16]) -> i64
    ensures answer { result ≡ told_number (known_refusal message.now known.now)
        (unknown_of message.now known.now) }
    ensures types { types.new ≡ types_after (known_refusal message.now known.now)
        (unknown_of message.now known.now) types.old }
{
    let mut place = [AttributeType::new(0); MOST_KNOWN];
    match parse_arguments(message, known, &mut place) {
        Ok((message, known)) => tell(&message, known, types) as i64,
        Err(refusal) => refusal.code(),
    }
}

/// The reason phrase of the error 420 (RFC 8489, section 14.8).
const PHRASE: &[u8] = b"Unknown Attribute";

/// The number of bytes that the header and the ERROR-CODE of the response take.
const FRONT_LENGTH: usize = 48;

/// Writes the header of an error response to a request to the front of a buffer that has room for
/// it, and returns its bytes.
fn make_answer_header<'a>(request: &Message<'_>, buffer: &'a mut [u8]) -> &'a [u8]
    requires { 20 ≤ length buffer.old }
    ensures { result.now ≡ empty_answer MessageClass.Error request.now }
{
    let writer = MessageWriteMutSlice::new(buffer);
    Message::builder_error(request, writer).unwrap().finish()
}

/// Writes the header of an error response to a request to the front of the buffer.
fn begin_answer(request: &Message<'_>, out: &mut [u8])
    requires { 20 ≤ length out.old }
    ensures { out.new ≡ empty_answer MessageClass.Error request.now ++ drop 20 out.old }
{
    let mut place = [0; HEADER_LENGTH];
    let header = make_answer_header(request, &mut place);
    out[..HEADER_LENGTH].copy_from_slice(header);
}

/// Writes the ERROR-CODE of a 420 after the header in the buffer, and sets the length field to
/// include it.
fn append_error(out: &mut [u8])
    requires { 48 ≤ length out.old }
    ensures { out.new ≡ with_attribute (take 20 out.old) unknown_attribute_error
        ++ drop 48 out.old }
{
    let mut value = [0; 4 + PHRASE.len()];
    write_error(&mut value, 420, PHRASE);
    append(out, HEADER_LENGTH, AttributeType::ERROR_CODE, &value);
}

/// Writes the header and the ERROR-CODE of the response to a request.
fn write_front(request: &Message<'_>, out: &mut [u8])
    requires { 48 ≤ length out.old }
    ensures { out.new ≡ refused_front request.now ++ drop 48 out.old }
{
    begin_answer(request, out);
    append_error(out);
}

/// Writes an attribute type in 2 bytes, in network order, at the offset `end` of `place`.
fn put_type(place: &mut [u8], end: usize, kind: AttributeType)
    requires { end + 2 ≤ length place.old }
    ensures { place.new ≡ take end place.old ++ big_bytes 2 kind.0 ++ drop (end + 2) place.old }
{
    place[end..end + 2].copy_from_slice(&kind.value().to_be_bytes());
}

/// Writes the unknown types of a message, 2 bytes each, to `place`, which has room for exactly
/// these types.
#[tactic(auto, using(crate::proofs::Told::spelled_next))]
fn write_types(message: &Message<'_>, known: &[AttributeType], place: &mut [u8])
    requires { length place.old ≡ 2 * length (unknown_types known.now message.now) }
    ensures { place.new ≡ spelled_types (unknown_types known.now message.now) }
{
    let mut end = 0;
    for kind in unknown_types(message, known) {
        put_type(place, end, kind);
        end += 2;
    }
}

/// Writes UNKNOWN-ATTRIBUTES with its header and its padding to the front of a buffer that has room
/// for them.
fn spell_types(message: &Message<'_>, known: &[AttributeType], count: usize, buffer: &mut [u8])
    requires count { count ≡ length (unknown_types known.now message.now) }
    requires few { count < 2 ^ 14 }
    requires room { attribute_length (2 * count) ≤ length buffer.old }
    ensures { buffer.new ≡ spelled_attribute (types_attribute
        (unknown_types known.now message.now))
        ++ drop (attribute_length (2 * count)) buffer.old }
{
    let (header, rest) = buffer.split_at_mut(4);
    let (place, rest) = rest.split_at_mut(2 * count);
    let (padding, _) = rest.split_at_mut(count % 2 * 2);
    write_header(header, UNKNOWN_ATTRIBUTES, 2 * count);
    write_types(message, known, place);
    write_zeros(padding);
}

/// Appends UNKNOWN-ATTRIBUTES to a response that has its header and its ERROR-CODE: sets the length
/// field to include the attribute, and writes it after ERROR-CODE. Returns the new length.
fn append_types(message: &Message<'_>, known: &[AttributeType], count: usize, out: &mut [u8]) -> i64
    requires count { count ≡ length (unknown_types known.now message.now) }
    requires few { count < 2 ^ 14 }
    requires room { 48 + attribute_length (2 * count) ≤ length out.old }
    ensures answer { result ≡ pos (48 + attribute_length (2 * count)) }
    ensures written { out.new ≡ with_attribute (take 48 out.old)
        (types_attribute (unknown_types known.now message.now))
        ++ drop (48 + attribute_length (2 * count)) out.old }
{
    let end = FRONT_LENGTH + attribute_length(2 * count);
    let (front, rest) = out.split_at_mut(FRONT_LENGTH);
    set_length(front, (end - HEADER_LENGTH) as u16);
    spell_types(message, known, count, rest);
    end as i64
}

/// Writes the response to a request with `count` unknown types to the front of a buffer. Returns
/// its length, or the code of `BufferTooSmall` if it does not fit.
#[tactic(auto, using(crate::proofs::Refused::answer_refused))]
fn write_answer(request: &Message<'_>, known: &[AttributeType], count: usize, out: &mut [u8]) -> i64
    requires count { count ≡ length (unknown_types known.now request.now) }
    requires few { count < 2 ^ 14 }
    ensures { WritesWithin (Ok (unknown_answer request.now (unknown_types known.now request.now)))
        out.old result out.new }
{
    if out.len() < FRONT_LENGTH + attribute_length(2 * count) {
        return Refusal::BufferTooSmall.code();
    }
    write_front(request, out);
    append_types(request, known, count, out)
}

/// Returns how many unknown types a message has.
fn count_types(message: &Message<'_>, known: &[AttributeType]) -> usize
    ensures count { result ≡ length (unknown_types known.now message.now) }
    ensures few { result < 2 ^ 14 }
{
    unknown_types(message, known).count()
}

/// Writes the response to `message` to the front of the buffer. Returns the length of the response,
/// or 0 if the message has no unknown type. Fails with `BadArgument` if the message is not a
/// request, and then with `BufferTooSmall` if the response does not fit.
fn answer(message: &Message<'_>, known: &[AttributeType], out: &mut [u8]) -> i64
    ensures { WritesWithin (answer_made message.now (unknown_types known.now message.now)) out.old
        result out.new }
{
    if class_number(message.class()) != 0 {
        return Refusal::BadArgument.code();
    }
    let count = count_types(message, known);
    if count == 0 {
        return 0;
    }
    write_answer(message, known, count, out)
}

/// Writes the response to a request with unknown types to the front of the buffer. Returns the
/// length of the response, 0 if the request has no unknown type, or a negative error code.
pub fn refuse(request: &[u8], known: &[u16], out: &mut [u8]) -> i64
    ensures { WritesWithin (unknown_made request.now known.now) out.old result out.new }
{
    let mut place = [AttributeType::new(0); MOST_KNOWN];
    match parse_arguments(request, known, &mut place) {
        Ok((message, known)) => answer(&message, known, out),
        Err(refusal) => refusal.code(),
    }
}
