//! Attributes that have no value.
ghost use Rattle.std.specs.Prelude.{◌≡◌, []};
ghost use Rattle.stun_extra.specs.Values.{flag_of, flag_of-written};

use std::marker::Model;
use stun_base::error::StunParseError;
use stun_types::attribute::{AttributeType, RawAttribute};
use stun_types::prelude::*;

/// An attribute of type `KIND` that has no value.
#[derive(Clone, Copy, Debug, PartialEq, Eq)]
pub struct Flag<const KIND: u16>;

impl<const KIND: u16> Model for Flag<KIND> {
    ghost Value = { Unit {0} };

    ghost view = { λ _. tt };

    ghost inverse = { λ _. record {} };
}

impl<const KIND: u16> Flag<KIND> {
    /// Creates the attribute.
    pub fn new() -> Self {
        Flag
    }
}

impl<const KIND: u16> AttributeStaticType for Flag<KIND> {
    const TYPE: AttributeType = AttributeType(KIND);

    ghost static_kind = { KIND };

    fn static_type() -> AttributeType
        ensures { result.0 ≡ KIND }
    {
        AttributeType(KIND)
    }
}

impl<const KIND: u16> Attribute for Flag<KIND> {
    ghost kind = { λ _. KIND };

    ghost value = { λ _. [] };

    ghost is_well_formed = { λ _. Unit {0} };

    fn get_type(&self) -> AttributeType {
        AttributeType(KIND)
    }

    fn length(&self) -> usize {
        0
    }

    fn write_into<W: MessageWrite>(&self, writer: &mut W) {
        RawAttribute::new(AttributeType(KIND), &[]).write_into(writer);
    }
}

impl<'a, const KIND: u16> AttributeFromRaw<'a> for Flag<KIND> {
    ghost reading = { flag_of KIND };

    ghost reads_back = { flag_of-written KIND };

    fn from_raw(raw: RawAttribute<'a>) -> Result<Self, StunParseError> {
        if raw.get_type() != AttributeType(KIND) || raw.length() != 0 {
            return Err(StunParseError::InvalidAttributeData);
        }
        Ok(Flag)
    }
}
