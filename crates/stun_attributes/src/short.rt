//! Attributes whose value is a 16-bit number.
ghost use Rattle.std.specs.Prelude.{◌≡◌, ◌<◌, ◌^◌};
ghost use Rattle.byteorder.specs.Endian.{big_bytes};
ghost use Rattle.stun_attributes.specs.Values.{short_of, short_of-written};

use byteorder::{BigEndian, ByteOrder};
use std::marker::Model;
use stun_base::error::StunParseError;
use stun_types::attribute::{AttributeType, RawAttribute};
use stun_types::prelude::*;

/// An attribute of type `KIND` whose value is a 16-bit number in network order.
///
/// The value is written with a length of 2, so the two bytes after the number are padding. It can
/// be parsed with a length of 2 or 4, because senders differ in this.
///
/// Contracts: the value is the number.
#[derive(Clone, Copy, Debug, PartialEq, Eq)]
pub struct Short<const KIND: u16> {
    number: u16,
}

impl<const KIND: u16> Model for Short<KIND> {
    ghost use Rattle.std.specs.Prelude.{ℕ};

    ghost Value = { ℕ };

    ghost view = { λ attribute. attribute.number };

    ghost inverse = { λ number. record { number = number } };
}

impl<const KIND: u16> Short<KIND> {
    /// Creates the attribute from a number.
    pub fn new(number: u16) -> Self
        ensures { result ≡ number }
    {
        Short { number }
    }

    /// Returns the number.
    pub fn number(&self) -> u16
        ensures { result ≡ self.now }
    {
        self.number
    }
}

impl<const KIND: u16> AttributeStaticType for Short<KIND> {
    const TYPE: AttributeType = AttributeType(KIND);

    ghost static_kind = { KIND };

    fn static_type() -> AttributeType
        ensures { result.0 ≡ KIND }
    {
        AttributeType(KIND)
    }
}

impl<const KIND: u16> Attribute for Short<KIND> {
    ghost kind = { λ _. KIND };

    ghost value = { λ number. big_bytes 2 number };

    ghost is_well_formed = { λ number. number < 2 ^ 16 };

    fn get_type(&self) -> AttributeType {
        AttributeType(KIND)
    }

    fn length(&self) -> usize {
        self.number.to_be_bytes().as_slice().len()
    }

    fn write_into<W: MessageWrite>(&self, writer: &mut W) {
        RawAttribute::new(AttributeType(KIND), &self.number.to_be_bytes()).write_into(writer);
    }
}

impl<'a, const KIND: u16> AttributeFromRaw<'a> for Short<KIND> {
    ghost reading = { short_of KIND };

    ghost reads_back = { short_of-written KIND };

    fn from_raw(raw: RawAttribute<'a>) -> Result<Self, StunParseError> {
        if raw.get_type() != AttributeType(KIND) || (raw.length() != 2 && raw.length() != 4) {
            return Err(StunParseError::InvalidAttributeData);
        }
        Ok(Short {
            number: BigEndian::read_u16(raw.value()),
        })
    }
}
