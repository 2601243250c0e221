//! Attributes of a message: their types, their values and their padding.

ghost use Rattle.std.specs.Prelude.{◌≡◌, ◌+◌, ◌-◌, ◌^◌, ◌<◌, ◌≤◌, ◌++◌, ℕ, List, drop, length};
ghost use Rattle.std.specs.Prelude.{min, true, false, OnSome, IfSome, IfNone, Some, refl, ⊤};
ghost use Rattle.std.specs.Cmp.{partial_equiv_from_equiv};
ghost use Rattle.stun_types.specs.Equality.{same_attribute, same_attribute_equivalence};
ghost use Rattle.stun_types.specs.Attribute.{attribute_length, padded_length};
ghost use Rattle.stun_types.specs.Attribute.{has_attribute, first_attribute};
ghost use Rattle.stun_types.specs.Grammar.{spelled_attribute};
ghost use Rattle.stun_types.specs.Limits.{max_length};

use crate::write::MessageWrite;
use crate::write::append::append_attribute;
pub use crate::write::append::append_header;
use byteorder::{BigEndian, ByteOrder};
use std::alloc::AllocError;
use std::marker::Model;
pub use stun_base::attribute_type::AttributeType;
use stun_base::error::StunParseError;

pub mod derives;
mod error_code;
pub mod laws;
mod message_integrity;
mod nonce;
mod password_algorithm;
mod password_algorithms;
mod realm;
mod text;
mod userhash;
mod username;
mod xor_mapped_address;

pub use error_code::{ErrorCode, ErrorCodeBuilder};
pub use message_integrity::{MessageIntegrity, MessageIntegritySha256};
pub use nonce::Nonce;
pub use password_algorithm::{PasswordAlgorithm, PasswordAlgorithmValue};
pub use password_algorithms::PasswordAlgorithms;
pub use realm::Realm;
pub use userhash::Userhash;
pub use username::Username;
pub use xor_mapped_address::XorMappedAddress;

/// The number of bytes of an attribute's header, which consists of the attribute's type and the
/// length of its value (RFC 8489, section 14).
pub const ATTRIBUTE_HEADER_LENGTH: usize = 4;

/// Returns the number of zero bytes that pad a value of `value_length` bytes to a multiple of 4
/// bytes.
pub(crate) fn count_padding_length(value_length: usize) -> usize
    ensures { result ≡ padded_length value_length - value_length }
{
    (4 - value_length % 4) % 4
}

/// Returns the number of bytes of an attribute, with its header and its padding, whose value has
/// `value_length` bytes. The result is at most `usize::MAX`.
pub fn attribute_length(value_length: usize) -> usize
    ensures { result ≡ min (attribute_length value_length) (2 ^ 64 - 1) }
{
    value_length
        .saturating_add(count_padding_length(value_length))
        .saturating_add(ATTRIBUTE_HEADER_LENGTH)
}

/// An attribute whose value has not been parsed: its type, and its value, which is borrowed.
#[derive(Debug, Drop)]
pub struct RawAttribute<'a> {
    kind: AttributeType,
    value: &'a [u8],
}

impl<'a> Model for RawAttribute<'a> {
    ghost use Rattle.std.specs.Prelude.{◌<◌, ◌^◌};
    ghost use Rattle.stun_types.specs.Attribute.{TypedValue};

    ghost Value = { TypedValue };

    ghost view = { λ attribute. record { kind = attribute.kind.0; value = attribute.value.now } };

    ghost invariant = { λ attribute. attribute.kind.0 < 2 ^ 16 };
}

/// Copies the reference, not the bytes. This does not allocate and never fails.
impl<'a> Clone for RawAttribute<'a> {
    ghost is_clone = { λ it copy. copy ≡ it };

    ghost is_infallible = { λ _. ⊤ };

    fn clone(&self) -> Result<Self, AllocError> {
        Ok(RawAttribute {
            kind: self.kind,
            value: self.value,
        })
    }
}

/// Two attributes are equal if they have the same type and their values have the same bytes.
impl<'a> PartialEq for RawAttribute<'a> {
    ghost eq = { same_attribute };

    ghost laws = { partial_equiv_from_equiv same_attribute_equivalence };

    fn eq(&self, other: &Self) -> bool {
        self.kind == other.kind && self.value == other.value
    }
}

impl<'a> Eq for RawAttribute<'a> {
    ghost laws = { same_attribute_equivalence };
}

/// An attribute that can be written to a message.
///
/// In an implementation the four calls must agree: `write_into` must append exactly the attribute
/// whose type is `get_type` and whose value has `length` bytes. Otherwise a reader of the message
/// would misread everything that follows the attribute.
pub trait Attribute {
    // The type of the attribute.
    ghost kind: { Self → ℕ };

    // The bytes of its value.
    ghost value: { Self → List ℕ };

    // A property of every attribute of this Rust type.
    ghost is_well_formed: { Self → Type 0 };

    /// Returns the type of the attribute.
    fn get_type(&self) -> AttributeType
        ensures { result.0 ≡ kind self.now };

    /// Returns the number of bytes of the value, without padding. The result is at most
    /// `usize::MAX`.
    fn length(&self) -> usize
        ensures length { result ≡ min (length (value self.now)) (2 ^ 64 - 1) }
        ensures well_formed { is_well_formed self.now };

    /// Returns the number of bytes of the attribute, with its header and its padding. The result is
    /// at most `usize::MAX`.
    fn padded_len(&self) -> usize
        ensures { result ≡ min (attribute_length (length (value self.now))) (2 ^ 64 - 1) }
    {
        attribute_length(self.length())
    }

    /// Appends the attribute to `writer`: its type and the length of its value, two bytes each in
    /// network order, its value, and zeros up to a multiple of 4 bytes. The value must have at most
    /// 65532 bytes, and the caller must have reserved the bytes of the whole attribute in the
    /// writer.
    fn write_into<W: MessageWrite>(&self, writer: &mut W)
        requires fits { length (value self.now) ≤ max_length }
        requires reserved { attribute_length (length (value self.now)) ≤ W.reserved writer.old }
        ensures bytes { W.bytes writer.new ≡ W.bytes writer.old
            ++ spelled_attribute (record { kind = kind self.now; value = value self.now }) }
        ensures room { W.room writer.new + attribute_length (length (value self.now))
            ≡ W.room writer.old }
        ensures reserved { W.reserved writer.new + attribute_length (length (value self.now))
            ≡ W.reserved writer.old };
}

/// A Rust type of attributes that all have the same attribute type.
pub trait AttributeStaticType {
    /// The attribute type.
    const TYPE: AttributeType;

    // The number of the attribute type.
    ghost static_kind: { ℕ };

    /// Returns `TYPE`.
    ///
    /// Contracts: the clause states the number of the type, because a constant cannot have a
    /// clause. An impl for a type with a lifetime must define this call itself.
    fn static_type() -> AttributeType
        ensures { result.0 ≡ static_kind };
}

/// An attribute that can be parsed from a [`RawAttribute`].
pub trait AttributeFromRaw<'a>: Attribute + Sized {
    ghost use Rattle.std.specs.Prelude.{◌≡◌, Option, Some};
    ghost use Rattle.stun_types.specs.Attribute.{TypedValue};
    ghost use Rattle.stun_types.specs.Reading.{attribute_answer};

    // The attribute with a type and a value, if the value is well formed.
    ghost reading: { TypedValue → Option Self };

    /// Parses the attribute.
    ///
    /// # Errors
    ///
    /// `InvalidAttributeData`: the attribute is of a different type, or its value is malformed.
    fn from_raw(raw: RawAttribute<'a>) -> Result<Self, StunParseError>
        ensures { result ≡ attribute_answer (reading raw.entry) };

    // An attribute that is written and then parsed is the same attribute.
    ghost reads_back: { (x : Self) → Self.is_well_formed x
        → reading (record { kind = Self.kind x; value = Self.value x }) ≡ Some x };
}

impl<'a> RawAttribute<'a> {
    /// Creates an attribute from its type and its value.
    pub fn new(kind: AttributeType, value: &'a [u8]) -> RawAttribute<'a>
        ensures kind { result.kind ≡ kind.0 }
        ensures value { result.value ≡ value.now }
    {
        RawAttribute { kind, value }
    }

    /// Returns the attribute at the offset `place` of a message, visible or not, or `None` if the
    /// attribute or its padding extends past the end of the bytes.
    ///
    /// The first attribute of a message has the offset 20, and each further attribute begins where
    /// the one before it ends, `padded_len` bytes after its offset. At any other offset, this call
    /// reads whatever bytes are there as an attribute. `Message::iter_attributes` returns the
    /// visible attributes only.
    pub fn at(bytes: &'a [u8], place: usize) -> Option<RawAttribute<'a>>
        ensures none { IfNone result (has_attribute (drop place bytes.now) ≡ false) }
        ensures whole { OnSome result (has_attribute (drop place bytes.now) ≡ true) }
        ensures value { IfSome result
            (λ attribute. attribute ≡ first_attribute (drop place bytes.now)) }
    {
        let bytes = bytes.get(place..)?;
        if bytes.len() < ATTRIBUTE_HEADER_LENGTH {
            return None;
        }
        let kind = AttributeType::new(BigEndian::read_u16(bytes));
        let length = usize::from(BigEndian::read_u16(&bytes[2..]));
        if bytes.len() < attribute_length(length) {
            return None;
        }
        Some(RawAttribute::new(kind, &bytes[ATTRIBUTE_HEADER_LENGTH..][..length]))
    }

    /// Returns the type of the attribute.
    pub fn get_type(&self) -> AttributeType
        ensures { result.0 ≡ self.now.kind }
    {
        self.kind
    }

    /// Returns the value of the attribute.
    pub fn value(&self) -> &'a [u8]
        ensures { result.now ≡ self.now.value }
    {
        self.value
    }

    /// Returns the number of bytes of the value.
    pub fn length(&self) -> usize
        ensures { result ≡ length self.now.value }
    {
        self.value.len()
    }

    /// Returns the number of bytes of the attribute in a message, with its header and its padding.
    pub fn padded_len(&self) -> usize
        ensures { result ≡ attribute_length (length self.now.value) }
    {
        attribute_length(self.value.len())
    }
}

impl<'a> Attribute for RawAttribute<'a> {
    ghost kind = { λ attribute. attribute.kind };

    ghost value = { λ attribute. attribute.value };

    ghost is_well_formed = { λ attribute. attribute.kind < 2 ^ 16 };

    fn get_type(&self) -> AttributeType {
        self.kind
    }

    fn length(&self) -> usize {
        self.value.len()
    }

    fn write_into<W: MessageWrite>(&self, writer: &mut W) {
        append_attribute(writer, self.kind, self.value);
    }
}

impl<'a> AttributeFromRaw<'a> for RawAttribute<'a> {
    ghost reading = { λ attribute. Some attribute };

    ghost reads_back = { λ attribute whole. refl };

    fn from_raw(raw: RawAttribute<'a>) -> Result<Self, StunParseError> {
        Ok(raw)
    }
}
