//! Attributes whose value is a tie-breaker, which is a 64-bit number (RFC 8445, section 16.1).
ghost use Rattle.std.specs.Prelude.{◌≡◌, ◌<◌, ◌^◌};
ghost use Rattle.byteorder.specs.Endian.{big_bytes};
ghost use Rattle.stun_extra.specs.Values.{number_of, number_of_8-written};

use byteorder::{BigEndian, ByteOrder};
use std::marker::Model;
use stun_base::error::StunParseError;
use stun_types::attribute::{AttributeType, RawAttribute};
use stun_types::prelude::*;

/// An attribute of type `KIND` whose value is a 64-bit tie-breaker.
///
/// Contracts: the value is the number.
#[derive(Clone, Copy, Debug, PartialEq, Eq)]
pub struct TieBreaker<const KIND: u16> {
    tie_breaker: u64,
}

impl<const KIND: u16> Model for TieBreaker<KIND> {
    ghost use Rattle.std.specs.Prelude.{ℕ};

    ghost Value = { ℕ };

    ghost view = { λ attribute. attribute.tie_breaker };

    ghost inverse = { λ tie_breaker. record { tie_breaker = tie_breaker } };
}

impl<const KIND: u16> TieBreaker<KIND> {
    /// Creates the attribute from a tie-breaker.
    pub fn new(tie_breaker: u64) -> Self
        ensures { result ≡ tie_breaker }
    {
        TieBreaker { tie_breaker }
    }

    /// Returns the tie-breaker.
    pub fn tie_breaker(&self) -> u64
        ensures { result ≡ self.now }
    {
        self.tie_breaker
    }
}

impl<const KIND: u16> AttributeStaticType for TieBreaker<KIND> {
    const TYPE: AttributeType = AttributeType(KIND);

    ghost static_kind = { KIND };

    fn static_type() -> AttributeType
        ensures { result.0 ≡ KIND }
    {
        AttributeType(KIND)
    }
}

impl<const KIND: u16> Attribute for TieBreaker<KIND> {
    ghost kind = { λ _. KIND };

    ghost value = { λ tie_breaker. big_bytes 8 tie_breaker };

    ghost is_well_formed = { λ tie_breaker. tie_breaker < 2 ^ 64 };

    fn get_type(&self) -> AttributeType {
        AttributeType(KIND)
    }

    fn length(&self) -> usize {
        self.tie_breaker.to_be_bytes().as_slice().len()
    }

    fn write_into<W: MessageWrite>(&self, writer: &mut W) {
        RawAttribute::new(AttributeType(KIND), &self.tie_breaker.to_be_bytes()).write_into(writer);
    }
}

impl<'a, const KIND: u16> AttributeFromRaw<'a> for TieBreaker<KIND> {
    ghost reading = { number_of KIND 8 };

    ghost reads_back = { number_of_8-written KIND };

    fn from_raw(raw: RawAttribute<'a>) -> Result<Self, StunParseError> {
        if raw.get_type() != AttributeType(KIND) || raw.length() != 8 {
            return Err(StunParseError::InvalidAttributeData);
        }
        Ok(TieBreaker {
            tie_breaker: BigEndian::read_u64(raw.value()),
        })
    }
}
