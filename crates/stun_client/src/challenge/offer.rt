//! PASSWORD-ALGORITHMS as it arrived, and the known algorithms in its list (RFC 8489, section
//! 14.11).
ghost use Rattle.std.specs.Prelude.{◌≡◌, find, ⊤};
ghost use Rattle.stun_base.specs.Attributes.{PASSWORD_ALGORITHMS};
ghost use Rattle.stun_extra.specs.Values.{bytes_of, bytes_of-written};
ghost use Rattle.stun_client.specs.Offers.{algorithms_in, are_entries, known};
ghost use Rattle.stun_client.specs.Preferences.{supports};
ghost use Rattle.stun_client.specs.code.Offers.{if_supported};

use crate::preferences::Preferences;
use std::marker::Model;
use stun_base::error::StunParseError;
use stun_extra::attribute::AlgorithmList;
use stun_types::attribute::{AttributeType, RawAttribute};
use stun_types::message::IntegrityAlgorithm;
use stun_types::prelude::*;

/// PASSWORD-ALGORITHMS with its value as borrowed bytes.
///
/// Contracts: the value is the list of the bytes.
#[derive(Debug, Drop)]
pub(crate) struct Offer<'a> {
    bytes: &'a [u8],
}

impl<'a> Model for Offer<'a> {
    ghost use Rattle.std.specs.Prelude.{ℕ, List};

    ghost Value = { List ℕ };

    ghost view = { λ offer. offer.bytes.now };
}

impl<'a> Offer<'a> {
    /// Creates the attribute from the bytes of its value.
    pub(crate) fn new(bytes: &'a [u8]) -> Self
        ensures { result ≡ bytes.now }
    {
        Offer { bytes }
    }

    /// Returns the bytes of the value.
    pub(crate) fn bytes(&self) -> &'a [u8]
        ensures { result.now ≡ self.now }
    {
        self.bytes
    }
}

impl<'a> AttributeStaticType for Offer<'a> {
    const TYPE: AttributeType = AttributeType::PASSWORD_ALGORITHMS;

    ghost static_kind = { PASSWORD_ALGORITHMS };

    fn static_type() -> AttributeType
        ensures { result.0 ≡ PASSWORD_ALGORITHMS }
    {
        Self::TYPE
    }
}

impl<'a> Attribute for Offer<'a> {
    ghost kind = { λ _. PASSWORD_ALGORITHMS };

    ghost value = { λ bytes. bytes };

    ghost is_well_formed = { λ _. Unit {0} };

    fn get_type(&self) -> AttributeType {
        Self::TYPE
    }

    fn length(&self) -> usize {
        self.bytes.len()
    }

    fn write_into<W: MessageWrite>(&self, writer: &mut W) {
        RawAttribute::new(Self::TYPE, self.bytes).write_into(writer);
    }
}

impl<'a> AttributeFromRaw<'a> for Offer<'a> {
    ghost reading = { bytes_of PASSWORD_ALGORITHMS };

    ghost reads_back = { bytes_of-written PASSWORD_ALGORITHMS };

    fn from_raw(raw: RawAttribute<'a>) -> Result<Self, StunParseError> {
        if raw.get_type() != Self::TYPE {
            return Err(StunParseError::InvalidAttributeData);
        }
        Ok(Offer { bytes: raw.value() })
    }
}

/// Returns whether these bytes are a sequence of whole entries.
pub(crate) fn are_entries(bytes: &[u8]) -> bool
    ensures { result ≡ are_entries bytes.now }
{
    let raw = RawAttribute::new(AttributeType::PASSWORD_ALGORITHMS, bytes);
    AlgorithmList::from_raw(raw).is_ok()
}

/// Returns the integrity algorithm whose key is made by the password algorithm of an entry. Returns
/// `None` if the number of the password algorithm is unknown, or if the entry has parameters.
fn read_algorithm(entry: &RawAttribute<'_>) -> Option<IntegrityAlgorithm>
    ensures { result ≡ known entry.now }
{
    if entry.length() != 0 {
        return None;
    }
    match entry.get_type().value() {
        0x0001 => Some(IntegrityAlgorithm::Sha1),
        0x0002 => Some(IntegrityAlgorithm::Sha256),
        _ => None,
    }
}

/// Returns the integrity algorithm of an entry, or `None` if it is unknown or the client does not
/// support it.
fn read_supported(preferences: Preferences, entry: &RawAttribute<'_>) -> Option<IntegrityAlgorithm>
    ensures { result ≡ if_supported preferences (known entry.now) }
{
    match read_algorithm(entry) {
        Some(algorithm) if preferences.supports(algorithm) => Some(algorithm),
        _ => None,
    }
}

/// Returns the first algorithm in a list that the client supports, or `None` if it supports none of
/// them. Unknown entries are skipped.
pub(crate) fn find_supported(preferences: Preferences, list: &[u8]) -> Option<IntegrityAlgorithm>
    ensures { result ≡ find (supports preferences) (algorithms_in list.now) }
{
    let mut place = 0;
    while let Some(entry) = RawAttribute::at(list, place) {
        if let Some(algorithm) = read_supported(preferences, &entry) {
            return Some(algorithm);
        }
        place += entry.padded_len();
    }
    None
}
