//! MESSAGE-INTEGRITY and MESSAGE-INTEGRITY-SHA256 (RFC 8489, sections 14.5 and 14.6), as they are
//! parsed.
//!
//! These attributes have no constructors: the calls of a writer that sign a message append them.

ghost use Rattle.std.specs.Prelude.{◌≡◌, length, ⊤};
ghost use Rattle.std.specs.Cmp.{partial_equiv_from_equiv};
ghost use Rattle.stun_base.specs.Credentials.{same_text, same_text_equivalence};
ghost use Rattle.stun_base.specs.Algorithm.{digest_length};
ghost use Rattle.stun_base.specs.declared.keys.algorithm.IntegrityAlgorithm.TheVariants.{Sha1};
ghost use Rattle.stun_base.specs.Attributes.{MESSAGE_INTEGRITY, MESSAGE_INTEGRITY_SHA256};
ghost use Rattle.stun_types.specs.IntegrityAttributes.{IsSha256Digest, digest_of};
ghost use Rattle.stun_types.specs.IntegrityAttributes.{digest_of-written, digest_of-written_sha256};

use crate::attribute::{
    Attribute, AttributeFromRaw, AttributeStaticType, AttributeType, RawAttribute,
};
use crate::integrity::is_well_formed;
use crate::write::MessageWrite;
use crate::write::append::append_attribute;
use std::alloc::AllocError;
use std::marker::Model;
use stun_base::error::StunParseError;
use stun_base::hmac::SHA1_LENGTH;

/// MESSAGE-INTEGRITY (RFC 8489, section 14.5): the HMAC-SHA1 of a message, which has 20 bytes.
///
/// Contracts: the value is the list of its bytes.
#[derive(Clone, Copy, Debug, PartialEq, Eq)]
pub struct MessageIntegrity {
    hmac: [u8; SHA1_LENGTH],
}

impl Model for MessageIntegrity {
    ghost use Rattle.std.specs.Prelude.{ℕ, List};

    ghost Value = { List ℕ };

    ghost view = { λ integrity. integrity.hmac };

    ghost inverse = { λ hmac. record { hmac = hmac } };
}

impl MessageIntegrity {
    /// Returns the HMAC.
    pub fn hmac(&self) -> &[u8; 20]
        ensures { result.now ≡ self.now }
    {
        &self.hmac
    }
}

impl AttributeStaticType for MessageIntegrity {
    const TYPE: AttributeType = AttributeType::MESSAGE_INTEGRITY;

    ghost static_kind = { MESSAGE_INTEGRITY };

    fn static_type() -> AttributeType
        ensures { result.0 ≡ MESSAGE_INTEGRITY }
    {
        Self::TYPE
    }
}

impl Attribute for MessageIntegrity {
    ghost kind = { λ _. MESSAGE_INTEGRITY };

    ghost value = { λ hmac. hmac };

    ghost is_well_formed = { λ hmac. length hmac ≡ digest_length Sha1 };

    fn get_type(&self) -> AttributeType {
        Self::TYPE
    }

    fn length(&self) -> usize {
        self.hmac.as_slice().len()
    }

    fn write_into<W: MessageWrite>(&self, writer: &mut W) {
        append_attribute(writer, Self::TYPE, &self.hmac);
    }
}

impl<'a> AttributeFromRaw<'a> for MessageIntegrity {
    ghost reading = { digest_of MESSAGE_INTEGRITY };

    ghost reads_back = { digest_of-written };

    fn from_raw(raw: RawAttribute<'a>) -> Result<Self, StunParseError> {
        if raw.get_type() != Self::TYPE || raw.length() != SHA1_LENGTH {
            return Err(StunParseError::InvalidAttributeData);
        }
        let mut hmac = [0; SHA1_LENGTH];
        hmac.copy_from_slice(raw.value());
        Ok(MessageIntegrity { hmac })
    }
}

/// MESSAGE-INTEGRITY-SHA256 (RFC 8489, section 14.6): the HMAC-SHA256 of a message, which has 16,
/// 20, 24, 28 or 32 bytes. An HMAC of fewer than 32 bytes is truncated: it can be parsed, but never
/// counts as a valid signature.
///
/// Contracts: the value is the list of its bytes.
#[derive(Debug, Drop)]
pub struct MessageIntegritySha256<'a> {
    hmac: &'a [u8],
}

impl<'a> Model for MessageIntegritySha256<'a> {
    ghost use Rattle.std.specs.Prelude.{ℕ, List};
    ghost use Rattle.stun_types.specs.IntegrityAttributes.{IsSha256Digest};

    ghost Value = { List ℕ };

    ghost view = { λ integrity. integrity.hmac.now };

    ghost invariant = { λ integrity. IsSha256Digest integrity.hmac.now };
}

/// Copies the reference, not the bytes. This does not allocate and never fails.
impl<'a> Clone for MessageIntegritySha256<'a> {
    ghost is_clone = { λ it copy. copy ≡ it };

    ghost is_infallible = { λ _. ⊤ };

    fn clone(&self) -> Result<Self, AllocError> {
        Ok(MessageIntegritySha256 { hmac: self.hmac })
    }
}

/// Two attributes are equal if they have the same bytes.
impl<'a> PartialEq for MessageIntegritySha256<'a> {
    ghost eq = { same_text };

    ghost laws = { partial_equiv_from_equiv same_text_equivalence };

    fn eq(&self, other: &Self) -> bool {
        self.hmac == other.hmac
    }
}

impl<'a> Eq for MessageIntegritySha256<'a> {
    ghost laws = { same_text_equivalence };
}

impl<'a> MessageIntegritySha256<'a> {
    /// Returns the HMAC, which may be truncated.
    pub fn hmac(&self) -> &'a [u8]
        ensures bytes { result.now ≡ self.now }
        ensures lengths { IsSha256Digest result.now }
    {
        self.hmac
    }
}

impl<'a> AttributeStaticType for MessageIntegritySha256<'a> {
    const TYPE: AttributeType = AttributeType::MESSAGE_INTEGRITY_SHA256;

    ghost static_kind = { MESSAGE_INTEGRITY_SHA256 };

    fn static_type() -> AttributeType
        ensures { result.0 ≡ MESSAGE_INTEGRITY_SHA256 }
    {
        Self::TYPE
    }
}

impl<'a> Attribute for MessageIntegritySha256<'a> {
    ghost kind = { λ _. MESSAGE_INTEGRITY_SHA256 };

    ghost value = { λ hmac. hmac };

    ghost is_well_formed = { IsSha256Digest };

    fn get_type(&self) -> AttributeType {
        Self::TYPE
    }

    fn length(&self) -> usize {
        self.hmac.len()
    }

    fn write_into<W: MessageWrite>(&self, writer: &mut W) {
        append_attribute(writer, Self::TYPE, self.hmac);
    }
}

impl<'a> AttributeFromRaw<'a> for MessageIntegritySha256<'a> {
    ghost reading = { digest_of MESSAGE_INTEGRITY_SHA256 };

    ghost reads_back = { digest_of-written_sha256 };

    fn from_raw(raw: RawAttribute<'a>) -> Result<Self, StunParseError> {
        if raw.get_type() != Self::TYPE || !is_well_formed(&raw) {
            return Err(StunParseError::InvalidAttributeData);
        }
        Ok(MessageIntegritySha256 { hmac: raw.value() })
    }
}
