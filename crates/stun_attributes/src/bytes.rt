//! Attributes whose value is any bytes.
ghost use Rattle.std.specs.Prelude.{◌≡◌, ⊤};
ghost use Rattle.std.specs.Cmp.{partial_equiv_from_equiv};
ghost use Rattle.stun_base.specs.Credentials.{same_text, same_text_equivalence};
ghost use Rattle.stun_extra.specs.Values.{bytes_of, bytes_of-written};

use std::alloc::AllocError;
use std::marker::Model;
use stun_base::error::StunParseError;
use stun_types::attribute::{AttributeType, RawAttribute};
use stun_types::prelude::*;

/// An attribute of type `KIND` whose value is any bytes, which are borrowed.
///
/// Contracts: the value is the list of its bytes.
#[derive(Debug, Drop)]
pub struct Bytes<'a, const KIND: u16> {
    bytes: &'a [u8],
}

impl<'a, const KIND: u16> Model for Bytes<'a, KIND> {
    ghost use Rattle.std.specs.Prelude.{ℕ, List};

    ghost Value = { List ℕ };

    ghost view = { λ attribute. attribute.bytes.now };
}

/// Copies the reference, not the bytes. This does not allocate and never fails.
impl<'a, const KIND: u16> Clone for Bytes<'a, KIND> {
    ghost is_clone = { λ it copy. copy ≡ it };

    ghost is_infallible = { λ _. ⊤ };

    fn clone(&self) -> Result<Self, AllocError> {
        Ok(Bytes { bytes: self.bytes })
    }
}

/// Two attributes are equal if they have the same bytes.
impl<'a, const KIND: u16> PartialEq for Bytes<'a, KIND> {
    ghost eq = { same_text };

    ghost laws = { partial_equiv_from_equiv same_text_equivalence };

    fn eq(&self, other: &Self) -> bool {
        self.bytes == other.bytes
    }
}

impl<'a, const KIND: u16> Eq for Bytes<'a, KIND> {
    ghost laws = { same_text_equivalence };
}

impl<'a, const KIND: u16> Bytes<'a, KIND> {
    /// Creates the attribute from bytes. `add_attribute` fails with `TooLarge` if the message would
    /// be too long.
    pub fn new(bytes: &'a [u8]) -> Self
        ensures { result ≡ bytes.now }
    {
        Bytes { bytes }
    }

    /// Returns the bytes.
    pub fn bytes(&self) -> &'a [u8]
        ensures { result.now ≡ self.now }
    {
        self.bytes
    }
}

impl<'a, const KIND: u16> AttributeStaticType for Bytes<'a, KIND> {
    const TYPE: AttributeType = AttributeType(KIND);

    ghost static_kind = { KIND };

    fn static_type() -> AttributeType
        ensures { result.0 ≡ KIND }
    {
        AttributeType(KIND)
    }
}

impl<'a, const KIND: u16> Attribute for Bytes<'a, KIND> {
    ghost kind = { λ _. KIND };

    ghost value = { λ bytes. bytes };

    ghost is_well_formed = { λ _. Unit {0} };

    fn get_type(&self) -> AttributeType {
        AttributeType(KIND)
    }

    fn length(&self) -> usize {
        self.bytes.len()
    }

    fn write_into<W: MessageWrite>(&self, writer: &mut W) {
        RawAttribute::new(AttributeType(KIND), self.bytes).write_into(writer);
    }
}

impl<'a, const KIND: u16> AttributeFromRaw<'a> for Bytes<'a, KIND> {
    ghost reading = { bytes_of KIND };

    ghost reads_back = { bytes_of-written KIND };

    fn from_raw(raw: RawAttribute<'a>) -> Result<Self, StunParseError> {
        if raw.get_type() != AttributeType(KIND) {
            return Err(StunParseError::InvalidAttributeData);
        }
        Ok(Bytes { bytes: raw.value() })
    }
}
