//! PASSWORD-ALGORITHM (RFC 8489, section 14.12), and the algorithms that derive keys from passwords
//! (section 18.5).

ghost use Rattle.std.specs.Prelude.{◌≡◌, ◌≤◌, length};
ghost use Rattle.stun_base.specs.Attributes.{PASSWORD_ALGORITHM};
ghost use Rattle.stun_types.specs.PasswordAlgorithms.{ENTRY_LENGTH, password_algorithm_in};
ghost use Rattle.stun_types.specs.PasswordAlgorithms.{password_algorithm_in-written};
ghost use Rattle.stun_types.specs.PasswordAlgorithms.{entry_at_front, integrity_of};
ghost use Rattle.stun_types.specs.PasswordAlgorithms.{password_algorithm_of, spelled_entry};

use crate::attribute::{
    Attribute, AttributeFromRaw, AttributeStaticType, AttributeType, RawAttribute,
};
use crate::write::MessageWrite;
use crate::write::append::append_attribute;
use byteorder::{BigEndian, ByteOrder};
use std::marker::Model;
use stun_base::algorithm::IntegrityAlgorithm;
use stun_base::error::StunParseError;

/// The number of bytes of an entry without parameters: the number of the algorithm, and the length
/// of its parameters.
pub(super) const ENTRY_LENGTH: usize = 4;

/// The hash function that derives a long-term key from a password.
#[derive(Clone, Copy, Debug, PartialEq, Eq, Hash)]
pub enum PasswordAlgorithmValue {
    /// MD5 (RFC 8489, section 18.5.1.1), whose keys are for HMAC-SHA1.
    MD5,
    /// SHA-256 (RFC 8489, section 18.5.1.2), whose keys are for HMAC-SHA256.
    SHA256,
}

impl PasswordAlgorithmValue {
    /// Returns the algorithm of the signatures that are made with keys that this hash function
    /// derives.
    pub fn as_integrity(self) -> IntegrityAlgorithm
        ensures { result ≡ integrity_of self }
    {
        match self {
            PasswordAlgorithmValue::MD5 => IntegrityAlgorithm::Sha1,
            PasswordAlgorithmValue::SHA256 => IntegrityAlgorithm::Sha256,
        }
    }

    /// Returns the hash function that derives keys for signatures with this algorithm.
    pub fn from_integrity(integrity: IntegrityAlgorithm) -> Self
        ensures { result ≡ password_algorithm_of integrity }
    {
        match integrity {
            IntegrityAlgorithm::Sha1 => PasswordAlgorithmValue::MD5,
            IntegrityAlgorithm::Sha256 => PasswordAlgorithmValue::SHA256,
        }
    }

    /// Returns the entry of this algorithm: its number, and no parameters.
    pub(super) fn to_entry(self) -> [u8; ENTRY_LENGTH]
        ensures { result ≡ spelled_entry self }
    {
        match self {
            PasswordAlgorithmValue::MD5 => [0, 1, 0, 0],
            PasswordAlgorithmValue::SHA256 => [0, 2, 0, 0],
        }
    }
}

/// Reads the algorithm of the first entry in `bytes`. Returns `None` if the number of the algorithm
/// is unknown, or if the entry has parameters.
pub(super) fn read_entry(bytes: &[u8]) -> Option<PasswordAlgorithmValue>
    requires { ENTRY_LENGTH ≤ length bytes.now }
    ensures { result ≡ entry_at_front bytes.now }
{
    if BigEndian::read_u16(&bytes[2..]) != 0 {
        return None;
    }
    match BigEndian::read_u16(bytes) {
        1 => Some(PasswordAlgorithmValue::MD5),
        2 => Some(PasswordAlgorithmValue::SHA256),
        _ => None,
    }
}

/// PASSWORD-ALGORITHM (RFC 8489, section 14.12): the algorithm that the client chose.
///
/// Contracts: the value is the algorithm.
#[derive(Clone, Copy, Debug, PartialEq, Eq)]
pub struct PasswordAlgorithm {
    algorithm: PasswordAlgorithmValue,
}

impl Model for PasswordAlgorithm {
    ghost use Rattle.stun_types.specs.declared.attribute.password_algorithm.PasswordAlgorithmValue.{
      PasswordAlgorithmValue,
    };

    ghost Value = { PasswordAlgorithmValue };

    ghost view = { λ chosen. chosen.algorithm };

    ghost inverse = { λ algorithm. record { algorithm = algorithm } };
}

impl PasswordAlgorithm {
    /// Creates the attribute from an algorithm.
    pub fn new(algorithm: PasswordAlgorithmValue) -> Self
        ensures { result ≡ algorithm }
    {
        PasswordAlgorithm { algorithm }
    }

    /// Returns the algorithm.
    pub fn algorithm(&self) -> PasswordAlgorithmValue
        ensures { result ≡ self.now }
    {
        self.algorithm
    }
}

impl AttributeStaticType for PasswordAlgorithm {
    const TYPE: AttributeType = AttributeType::PASSWORD_ALGORITHM;

    ghost static_kind = { PASSWORD_ALGORITHM };

    fn static_type() -> AttributeType
        ensures { result.0 ≡ PASSWORD_ALGORITHM }
    {
        Self::TYPE
    }
}

impl Attribute for PasswordAlgorithm {
    ghost kind = { λ _. PASSWORD_ALGORITHM };

    ghost value = { λ algorithm. spelled_entry algorithm };

    ghost is_well_formed = { λ _. Unit {0} };

    fn get_type(&self) -> AttributeType {
        Self::TYPE
    }

    fn length(&self) -> usize {
        self.algorithm.to_entry().as_slice().len()
    }

    fn write_into<W: MessageWrite>(&self, writer: &mut W) {
        append_attribute(writer, Self::TYPE, &self.algorithm.to_entry());
    }
}

impl<'a> AttributeFromRaw<'a> for PasswordAlgorithm {
    ghost reading = { password_algorithm_in };

    ghost reads_back = { password_algorithm_in-written };

    fn from_raw(raw: RawAttribute<'a>) -> Result<Self, StunParseError> {
        if raw.get_type() != Self::TYPE || raw.length() != ENTRY_LENGTH {
            return Err(StunParseError::InvalidAttributeData);
        }
        match read_entry(raw.value()) {
            Some(algorithm) => Ok(PasswordAlgorithm { algorithm }),
            None => Err(StunParseError::InvalidAttributeData),
        }
    }
}
