//! USERHASH (RFC 8489, section 14.4).

ghost use Rattle.std.specs.Prelude.{◌≡◌, length};
ghost use Rattle.stun_base.specs.Attributes.{USERHASH};
ghost use Rattle.stun_base.specs.Keys as keys;
ghost use Rattle.stun_types.specs.Userhash.{USERHASH_LENGTH, hash_of, hash_of-written};

use crate::attribute::{
    Attribute, AttributeFromRaw, AttributeStaticType, AttributeType, RawAttribute,
};
use crate::write::MessageWrite;
use crate::write::append::append_attribute;
use std::marker::Model;
use stun_base::error::StunParseError;
use stun_base::key::userhash;

/// The number of bytes of a hash.
const LENGTH: usize = 32;

/// USERHASH (RFC 8489, section 14.4): the 32-byte hash that a client sends instead of its user
/// name.
///
/// Contracts: the value is the list of its bytes.
#[derive(Clone, Copy, Debug, PartialEq, Eq)]
pub struct Userhash {
    hash: [u8; LENGTH],
}

impl Model for Userhash {
    ghost use Rattle.std.specs.Prelude.{ℕ, List};

    ghost Value = { List ℕ };

    ghost view = { λ userhash. userhash.hash };

    ghost inverse = { λ hash. record { hash = hash } };
}

impl Userhash {
    /// Creates the attribute from a hash, for example the result of `compute`.
    pub fn new(hash: [u8; 32]) -> Self
        ensures { result ≡ hash }
    {
        Userhash { hash }
    }

    /// Computes the hash of a user name in a realm: SHA-256 of `user:realm` (RFC 8489, section
    /// 14.4).
    ///
    /// The texts are used as they are: preparing them with OpaqueString (RFC 8265, section 4.2) is
    /// up to the caller. This does not allocate.
    pub fn compute(user: &str, realm: &str) -> [u8; 32]
        ensures { result ≡ keys.userhash_of user.now realm.now }
    {
        userhash(user, realm)
    }

    /// Returns the hash.
    pub fn hash(&self) -> &[u8; 32]
        ensures { result.now ≡ self.now }
    {
        &self.hash
    }
}

impl AttributeStaticType for Userhash {
    const TYPE: AttributeType = AttributeType::USERHASH;

    ghost static_kind = { USERHASH };

    fn static_type() -> AttributeType
        ensures { result.0 ≡ USERHASH }
    {
        Self::TYPE
    }
}

impl Attribute for Userhash {
    ghost kind = { λ _. USERHASH };

    ghost value = { λ userhash. userhash };

    ghost is_well_formed = { λ userhash. length userhash ≡ USERHASH_LENGTH };

    fn get_type(&self) -> AttributeType {
        Self::TYPE
    }

    fn length(&self) -> usize {
        self.hash.as_slice().len()
    }

    fn write_into<W: MessageWrite>(&self, writer: &mut W) {
        append_attribute(writer, Self::TYPE, &self.hash);
    }
}

impl<'a> AttributeFromRaw<'a> for Userhash {
    ghost reading = { hash_of };

    ghost reads_back = { hash_of-written };

    fn from_raw(raw: RawAttribute<'a>) -> Result<Self, StunParseError> {
        if raw.get_type() != Self::TYPE || raw.length() != LENGTH {
            return Err(StunParseError::InvalidAttributeData);
        }
        let mut hash = [0; LENGTH];
        hash.copy_from_slice(raw.value());
        Ok(Userhash { hash })
    }
}
