//! Attributes whose value is a 32-bit number.
ghost use Rattle.std.specs.Prelude.{◌≡◌, ◌<◌, ◌^◌};
ghost use Rattle.byteorder.specs.Endian.{big_bytes};
ghost use Rattle.stun_extra.specs.Values.{number_of, number_of_4-written};

use byteorder::{BigEndian, ByteOrder};
use std::marker::Model;
use stun_base::error::StunParseError;
use stun_types::attribute::{AttributeType, RawAttribute};
use stun_types::prelude::*;

/// An attribute of type `KIND` whose value is a 32-bit number in network order.
///
/// Contracts: the value is the number.
#[derive(Clone, Copy, Debug, PartialEq, Eq)]
pub struct Number<const KIND: u16> {
    number: u32,
}

impl<const KIND: u16> Model for Number<KIND> {
    ghost use Rattle.std.specs.Prelude.{ℕ};

    ghost Value = { ℕ };

    ghost view = { λ attribute. attribute.number };

    ghost inverse = { λ number. record { number = number } };
}

impl<const KIND: u16> Number<KIND> {
    /// Creates the attribute from a number.
    pub fn new(number: u32) -> Self
        ensures { result ≡ number }
    {
        Number { number }
    }

    /// Returns the number.
    pub fn number(&self) -> u32
        ensures { result ≡ self.now }
    {
        self.number
    }
}

impl<const KIND: u16> AttributeStaticType for Number<KIND> {
    const TYPE: AttributeType = AttributeType(KIND);

    ghost static_kind = { KIND };

    fn static_type() -> AttributeType
        ensures { result.0 ≡ KIND }
    {
        AttributeType(KIND)
    }
}

impl<const KIND: u16> Attribute for Number<KIND> {
    ghost kind = { λ _. KIND };

    ghost value = { λ number. big_bytes 4 number };

    ghost is_well_formed = { λ number. number < 2 ^ 32 };

    fn get_type(&self) -> AttributeType {
        AttributeType(KIND)
    }

    fn length(&self) -> usize {
        self.number.to_be_bytes().as_slice().len()
    }

    fn write_into<W: MessageWrite>(&self, writer: &mut W) {
        RawAttribute::new(AttributeType(KIND), &self.number.to_be_bytes()).write_into(writer);
    }
}

impl<'a, const KIND: u16> AttributeFromRaw<'a> for Number<KIND> {
    ghost reading = { number_of KIND 4 };

    ghost reads_back = { number_of_4-written KIND };

    fn from_raw(raw: RawAttribute<'a>) -> Result<Self, StunParseError> {
        if raw.get_type() != AttributeType(KIND) || raw.length() != 4 {
            return Err(StunParseError::InvalidAttributeData);
        }
        Ok(Number {
            number: BigEndian::read_u32(raw.value()),
        })
    }
}
