//! Attributes whose value is the family of an address (RFC 8656, sections 18.6 and 18.11).
ghost use Rattle.std.specs.Prelude.{◌≡◌};
ghost use Rattle.stun_attributes.specs.Turn.{family_number, family_of, family_of-written};
ghost use Rattle.stun_attributes.specs.Turn.{family_value};
ghost use Rattle.stun_attributes.specs.Turn.{numbered_family};

use std::marker::Model;
use stun_base::error::StunParseError;
use stun_types::attribute::{AttributeType, RawAttribute};
use stun_types::prelude::*;

/// The number of bytes of a value: one for the family, and three that are reserved.
const LENGTH: usize = 4;

/// The family of an address (RFC 8489, section 14.1).
#[derive(Clone, Copy, Debug, PartialEq, Eq)]
pub enum AddressFamily {
    /// IPv4, whose number is 0x01.
    Ipv4,
    /// IPv6, whose number is 0x02.
    Ipv6,
}

impl AddressFamily {
    /// Returns the number of the family.
    pub fn number(self) -> u8
        ensures { result ≡ family_number self }
    {
        match self {
            AddressFamily::Ipv4 => 1,
            AddressFamily::Ipv6 => 2,
        }
    }

    /// Returns the family with this number, or `None` if the number is neither 1 (IPv4) nor 2
    /// (IPv6).
    pub fn from_number(number: u8) -> Option<AddressFamily>
        ensures { result ≡ numbered_family number }
    {
        match number {
            1 => Some(AddressFamily::Ipv4),
            2 => Some(AddressFamily::Ipv6),
            _ => None,
        }
    }
}

/// An attribute of type `KIND` whose value is the family of an address.
///
/// Contracts: the value is the family.
#[derive(Clone, Copy, Debug, PartialEq, Eq)]
pub struct Family<const KIND: u16> {
    family: AddressFamily,
}

impl<const KIND: u16> Model for Family<KIND> {
    ghost use Rattle.stun_attributes.specs.declared.address_family.AddressFamily.{AddressFamily};

    ghost Value = { AddressFamily };

    ghost view = { λ attribute. attribute.family };

    ghost inverse = { λ family. record { family = family } };
}

impl<const KIND: u16> Family<KIND> {
    /// Creates the attribute from a family.
    pub fn new(family: AddressFamily) -> Self
        ensures { result ≡ family }
    {
        Family { family }
    }

    /// Returns the family.
    pub fn family(&self) -> AddressFamily
        ensures { result ≡ self.now }
    {
        self.family
    }
}

impl<const KIND: u16> AttributeStaticType for Family<KIND> {
    const TYPE: AttributeType = AttributeType(KIND);

    ghost static_kind = { KIND };

    fn static_type() -> AttributeType
        ensures { result.0 ≡ KIND }
    {
        AttributeType(KIND)
    }
}

impl<const KIND: u16> Attribute for Family<KIND> {
    ghost kind = { λ _. KIND };

    ghost value = { family_value };

    ghost is_well_formed = { λ _. Unit {0} };

    fn get_type(&self) -> AttributeType {
        AttributeType(KIND)
    }

    fn length(&self) -> usize {
        LENGTH
    }

    fn write_into<W: MessageWrite>(&self, writer: &mut W) {
        let value = [self.family.number(), 0, 0, 0];
        RawAttribute::new(AttributeType(KIND), &value).write_into(writer);
    }
}

impl<'a, const KIND: u16> AttributeFromRaw<'a> for Family<KIND> {
    ghost reading = { family_of KIND };

    ghost reads_back = { family_of-written KIND };

    fn from_raw(raw: RawAttribute<'a>) -> Result<Self, StunParseError> {
        if raw.get_type() != AttributeType(KIND) || raw.length() != LENGTH {
            return Err(StunParseError::InvalidAttributeData);
        }
        match AddressFamily::from_number(raw.value()[0]) {
            Some(family) => Ok(Family { family }),
            None => Err(StunParseError::InvalidAttributeData),
        }
    }
}
