//! UNKNOWN-ATTRIBUTES (RFC 8489, section 14.13).
ghost use Rattle.std.specs.Prelude.{◌≡◌, ◌≤◌, ◌<◌, ◌+◌, ◌*◌, ◌%◌, ◌^◌, ◌++◌, ◌↔◌};
ghost use Rattle.std.specs.Prelude.{ℕ, [], IsTrue, length, slice_index};
ghost use Rattle.std.specs.List.{slice_get};
ghost use Rattle.stun_extra.specs.AttributeTypes.{UNKNOWN_ATTRIBUTES};
ghost use Rattle.stun_extra.specs.Unknown.{AreTypes, spelled_types, types_in};
ghost use Rattle.stun_extra.specs.Unknown.{unknown_attributes_in};
ghost use Rattle.stun_extra.specs.Unknown.{unknown_attributes_in-written, unknown_types};

use crate::unknown::unknown_types;
use byteorder::{BigEndian, ByteOrder};
use std::marker::Model;
use stun_base::attribute_type::AttributeType;
use stun_base::error::StunParseError;
use stun_types::attribute::RawAttribute;
use stun_types::message::Message;
use stun_types::prelude::*;

/// The number of bytes of a type.
const TYPE_LENGTH: usize = 2;

/// Where the types come from.
#[derive(Clone, Copy, Debug)]
enum Source<'a> {
    /// A message, and the list of the known types. The types come from the attributes of the
    /// message: those that a receiver must understand and that are not in the list.
    OfMessage(&'a Message<'a>, &'a [AttributeType]),
    /// The value of an attribute that was parsed.
    Received(&'a [u8]),
}

/// UNKNOWN-ATTRIBUTES (RFC 8489, section 14.13): the types of a request's attributes that the
/// server must understand but does not know. A server creates it from the request, and a client
/// parses it from the response with the code 420.
///
/// Contracts: the value is the list of the types.
///
/// # Examples
///
/// ```
/// use seatcrane_stun::extra::UnknownAttributes;
/// use seatcrane_stun::types::attribute::AttributeType;
/// use seatcrane_stun::types::message::{Message, StunParseError};
///
/// /// Returns the types that a server did not understand, from its 420.
/// fn not_understood(error: &Message<'_>) -> Result<Vec<AttributeType>, StunParseError> {
///     let unknown = error.attribute::<UnknownAttributes>()?;
///     Ok((0..unknown.len()).filter_map(|i| unknown.get(i)).collect())
/// }
/// # let error = b"\x01\x11\0\x08\x21\x12\xa4\x42 any 12 byte\0\x0a\0\x02\0\x24\0\0";
/// # let error = Message::from_bytes(error).unwrap();
/// # assert_eq!(not_understood(&error), Ok(vec![AttributeType::PRIORITY]));
/// ```
#[derive(Debug, Drop)]
pub struct UnknownAttributes<'a> {
    source: Source<'a>,
}

impl<'a> Model for UnknownAttributes<'a> {
    ghost use Rattle.std.specs.Prelude.{List};
    ghost use Rattle.stun_base.specs.declared.wire.attribute_type.AttributeType.{AttributeType};

    ghost Value = { List AttributeType };

    ghost use Rattle.stun_extra.specs.code.UnknownSource.{IsEven, source_types};

    ghost view = { λ attribute. source_types attribute.source };

    ghost invariant = { λ attribute. IsEven attribute.source };
}

/// Returns the type at index `i`, counted from 0, or `None` if there are fewer types.
fn read_type(bytes: &[u8], i: usize) -> Option<AttributeType>
    ensures { result ≡ slice_get (types_in bytes.now) i }
{
    if i >= bytes.len() / TYPE_LENGTH {
        return None;
    }
    Some(AttributeType::new(BigEndian::read_u16(&bytes[TYPE_LENGTH * i..])))
}

/// States that every byte is less than 256. Only the proof uses this call.
fn state_bytes_fit(bytes: &[u8])
    ensures { (i : ℕ) → slice_index bytes.now i < 2 ^ 8 }
{}

/// Returns the number of types of the visible attributes in `message` that the receiver must
/// understand but that are not in `known`. Each type is counted once.
pub(super) fn count_unknown(message: &Message<'_>, known: &[AttributeType]) -> usize
    ensures value { result ≡ length (unknown_types known.now message.now) }
    ensures few { result < 2 ^ 14 }
    ensures fit { AreTypes (unknown_types known.now message.now) }
{
    // For the proof alone: the types are in these bytes.
    let _bytes = message.as_bytes();
    state_bytes_fit(_bytes);
    unknown_types(message, known).count()
}

/// Returns the number of types that are encoded in the bytes.
fn count_types(bytes: &[u8]) -> usize
    ensures value { result ≡ length (types_in bytes.now) }
    ensures fit { AreTypes (types_in bytes.now) }
{
    bytes.len() / TYPE_LENGTH
}

impl<'a> UnknownAttributes<'a> {
    /// Creates UNKNOWN-ATTRIBUTES with the types of the visible attributes in `message` that the
    /// receiver must understand but that are not in `known`, in the order of `unknown_types`. This
    /// does not allocate.
    pub fn of(message: &'a Message<'a>, known: &'a [AttributeType]) -> Self
        ensures { result ≡ unknown_types known.now message.now }
    {
        UnknownAttributes {
            source: Source::OfMessage(message, known),
        }
    }

    /// Returns `true` if the list of types is empty.
    pub fn is_empty(&self) -> bool
        ensures { IsTrue result ↔ (self.now ≡ []) }
    {
        match self.source {
            Source::OfMessage(message, known) => unknown_types(message, known).next().is_none(),
            Source::Received(bytes) => count_types(bytes) == 0,
        }
    }

    /// Returns the number of types.
    pub fn len(&self) -> usize
        ensures value { result ≡ length self.now }
        ensures fit { AreTypes self.now }
    {
        match self.source {
            Source::OfMessage(message, known) => count_unknown(message, known),
            Source::Received(bytes) => count_types(bytes),
        }
    }

    /// Returns the type at index `i`, counted from 0, or `None` if there are fewer types. This
    /// takes constant time if the attribute was parsed. If it was created by
    /// [`of`](UnknownAttributes::of), the call walks over the message.
    pub fn get(&self, i: usize) -> Option<AttributeType>
        ensures { result ≡ slice_get self.now i }
    {
        match self.source {
            Source::OfMessage(message, known) => unknown_types(message, known).nth(i),
            Source::Received(bytes) => read_type(bytes, i),
        }
    }

    /// Appends the types to `writer`. The caller must have reserved 2 bytes for each type.
    fn append_types<W: MessageWrite>(&self, writer: &mut W)
        requires { 2 * length self.now ≤ W.reserved writer.old }
        ensures bytes { W.bytes writer.new ≡ W.bytes writer.old ++ spelled_types self.now }
        ensures room { W.room writer.new + 2 * length self.now ≡ W.room writer.old }
        ensures reserved { W.reserved writer.new + 2 * length self.now ≡ W.reserved writer.old }
    {
        match self.source {
            Source::OfMessage(message, known) => append_unknown(message, known, writer),
            Source::Received(bytes) => append_received(bytes, writer),
        }
    }
}

/// Appends the types of the visible attributes in `message` that the receiver must understand but
/// that are not in `known`. The caller must have reserved 2 bytes for each of these types.
fn append_unknown<W: MessageWrite>(message: &Message<'_>, known: &[AttributeType], writer: &mut W)
    requires { 2 * length (unknown_types known.now message.now) ≤ W.reserved writer.old }
    ensures bytes { W.bytes writer.new
        ≡ W.bytes writer.old ++ spelled_types (unknown_types known.now message.now) }
    ensures room { W.room writer.new + 2 * length (unknown_types known.now message.now)
        ≡ W.room writer.old }
    ensures reserved { W.reserved writer.new + 2 * length (unknown_types known.now message.now)
        ≡ W.reserved writer.old }
{
    for kind in unknown_types(message, known) {
        writer.append(&kind.value().to_be_bytes());
    }
}

/// Appends the types that are encoded in the bytes, 2 bytes for each. The caller must have reserved
/// these bytes in the writer.
fn append_received<W: MessageWrite>(bytes: &[u8], writer: &mut W)
    requires even { length bytes.now % 2 ≡ 0 }
    requires reserved { 2 * length (types_in bytes.now) ≤ W.reserved writer.old }
    ensures bytes { W.bytes writer.new ≡ W.bytes writer.old ++ spelled_types (types_in bytes.now) }
    ensures room { W.room writer.new + 2 * length (types_in bytes.now) ≡ W.room writer.old }
    ensures reserved { W.reserved writer.new + 2 * length (types_in bytes.now)
        ≡ W.reserved writer.old }
{
    writer.append(bytes);
}

impl<'a> AttributeStaticType for UnknownAttributes<'a> {
    const TYPE: AttributeType = super::UNKNOWN_ATTRIBUTES;

    ghost static_kind = { UNKNOWN_ATTRIBUTES };

    fn static_type() -> AttributeType
        ensures { result.0 ≡ UNKNOWN_ATTRIBUTES }
    {
        Self::TYPE
    }
}

impl<'a> Attribute for UnknownAttributes<'a> {
    ghost kind = { λ _. UNKNOWN_ATTRIBUTES };

    ghost value = { λ types. spelled_types types };

    ghost is_well_formed = { AreTypes };

    fn get_type(&self) -> AttributeType {
        Self::TYPE
    }

    #[tactic(auto, using(crate::proofs::UnknownLemmas::length_of_types))]
    fn length(&self) -> usize {
        self.len().saturating_mul(TYPE_LENGTH)
    }

    #[tactic(auto, using(crate::proofs::UnknownLemmas::length_of_types))]
    fn write_into<W: MessageWrite>(&self, writer: &mut W) {
        let count = self.len();
        writer.append(&Self::TYPE.value().to_be_bytes());
        writer.append(&((TYPE_LENGTH * count) as u16).to_be_bytes());
        self.append_types(writer);
        if count % 2 == 1 {
            writer.append(&[0, 0]);
        }
    }
}

impl<'a> AttributeFromRaw<'a> for UnknownAttributes<'a> {
    ghost reading = { unknown_attributes_in };

    ghost reads_back = { unknown_attributes_in-written };

    fn from_raw(raw: RawAttribute<'a>) -> Result<Self, StunParseError> {
        let bytes = raw.value();
        if raw.get_type() != Self::TYPE || bytes.len() % TYPE_LENGTH != 0 {
            return Err(StunParseError::InvalidAttributeData);
        }
        Ok(UnknownAttributes {
            source: Source::Received(bytes),
        })
    }
}
