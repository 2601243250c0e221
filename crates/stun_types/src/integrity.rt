//! The validation of signatures (RFC 8489, sections 14.5, 14.6 and 9.2.4).

ghost use Rattle.byteorder.specs.Endian.{big_bytes};
ghost use Rattle.std.specs.Prelude.{◌≡◌, ◌++◌, take, ◌+◌, ◌-◌, ◌^◌, ◌<◌, ◌≤◌, List};
ghost use Rattle.std.specs.Prelude.{ℕ, length, IfOk, OnOk, IfErr, OnErr, IfSome};
ghost use Rattle.std.specs.Prelude.{Some, None, true, false, ◌==◌, if◌then◌else◌};
ghost use Rattle.stun_base.specs.Algorithm.{digest_length};
ghost use Rattle.stun_base.specs.Header.{HEADER_LENGTH as header_length};
ghost use Rattle.stun_base.specs.Keys.OfCredentials.{keys_of};
ghost use Rattle.stun_types.specs.Attribute.{ATTRIBUTE_HEADER_LENGTH as attribute_header_length};
ghost use Rattle.stun_types.specs.Visible.{visible};
ghost use Rattle.stun_types.specs.code.Walk.{IsInside};
ghost use Rattle.stun_types.specs.Integrity.{first_of as first_member_of, integrity_algorithm};
ghost use Rattle.stun_types.specs.Integrity.{deciding, deciding_algorithm, is_digest};
ghost use Rattle.stun_types.specs.Integrity.{integrity_refusal, is_integrity, is_well_formed};
ghost use Rattle.stun_types.specs.Integrity.{Verifies, verified_algorithm, verified_by};

pub(crate) mod digest_key;

use crate::attribute::{ATTRIBUTE_HEADER_LENGTH, AttributeType, RawAttribute};
use crate::message::walk::{find_deciding_place, find_first_place};
use crate::message::{Message, StunParseError, ValidateError};
use std::alloc::Allocator;
use stun_base::algorithm::IntegrityAlgorithm;
use stun_base::compare::is_same_text;
use stun_base::credentials::MessageIntegrityCredentials;
use stun_base::header::HEADER_LENGTH;
use stun_base::hmac::{SHA1_LENGTH, SHA256_LENGTH, hmac_sha1, hmac_sha256};
use stun_base::key::IntegrityKey;
use stun_base::prepared_key::PreparedKey;

/// The smallest number of bytes of a truncated HMAC-SHA256 (RFC 8489, section 14.6).
const MIN_SHA256_LENGTH: usize = 16;

/// Returns the first visible attribute of this type with its offset, or `None` if no attribute of
/// this type is visible.
pub(crate) fn find_first<'a>(
    message: &Message<'a>,
    kind: AttributeType,
) -> Option<(usize, RawAttribute<'a>)>
    ensures first { result ≡ first_member_of kind.0 (visible message.now) }
    ensures within { IfSome result (IsInside message.now) }
{
    let bytes = message.as_bytes();
    let place = find_first_place(bytes, kind)?;
    Some((place, RawAttribute::at(bytes, place)?))
}

/// Returns the algorithm that belongs to the type of an integrity attribute.
fn read_algorithm(attribute: &RawAttribute<'_>) -> IntegrityAlgorithm
    ensures { result ≡ integrity_algorithm attribute.now }
{
    if attribute.get_type() == AttributeType::MESSAGE_INTEGRITY_SHA256 {
        IntegrityAlgorithm::Sha256
    } else {
        IntegrityAlgorithm::Sha1
    }
}

/// Returns the algorithm of the attribute that decides whether these bytes of a message are signed:
/// HMAC-SHA256 if MESSAGE-INTEGRITY-SHA256 is visible, otherwise HMAC-SHA1 if MESSAGE-INTEGRITY is
/// visible, and otherwise `None` (RFC 8489, sections 14.5 and 14.6).
///
/// The value of the attribute is not read. This does not allocate.
pub fn deciding_algorithm(bytes: &[u8]) -> Option<IntegrityAlgorithm>
    ensures { result ≡ deciding_algorithm bytes.now }
{
    let place = find_deciding_place(bytes)?;
    let attribute = RawAttribute::at(bytes, place)?;
    Some(read_algorithm(&attribute))
}

/// Returns `true` if the value of an integrity attribute has a length that the type of the
/// attribute allows. An HMAC-SHA256 may be truncated.
pub(crate) fn is_well_formed(attribute: &RawAttribute<'_>) -> bool
    ensures { result ≡ is_well_formed attribute.now }
{
    let length = attribute.length();
    match read_algorithm(attribute) {
        IntegrityAlgorithm::Sha1 => length == SHA1_LENGTH,
        IntegrityAlgorithm::Sha256 => {
            (MIN_SHA256_LENGTH..=SHA256_LENGTH).contains(&length) && length % 4 == 0
        }
    }
}

/// Returns the deciding attribute with its offset, so that its HMAC can be compared. Fails if no
/// key can make the signature valid: the attribute is missing or malformed, or its HMAC is
/// truncated.
fn find_claimed_digest<'a>(
    message: &Message<'a>,
) -> Result<(usize, RawAttribute<'a>), ValidateError>
    ensures deciding { IfOk result (λ m. deciding message.now ≡ Some m) }
    ensures whole { IfOk result (λ m. length m.1.value ≡ digest_length (integrity_algorithm m.1)) }
    ensures within { IfOk result (IsInside message.now) }
    ensures compared { OnOk result (integrity_refusal message.now ≡ ValidateError.IntegrityFailed) }
    ensures refused { IfErr result (λ error. error ≡ integrity_refusal message.now) }
    ensures none { IfErr result (λ _.
        (keys : IntegrityAlgorithm → List ℕ) → verified_by keys message.now ≡ None) }
{
    let Some((place, attribute)) = message.deciding_attribute() else {
        return Err(ValidateError::Parse(StunParseError::MissingAttribute(
            AttributeType::MESSAGE_INTEGRITY,
        )));
    };
    check_whole(&attribute)?;
    Ok((place, attribute))
}

/// Fails if the value of an integrity attribute does not have the length of a whole HMAC. The error
/// is `IntegrityFailed` for a truncated HMAC-SHA256, and otherwise `InvalidAttributeData`.
fn check_whole(attribute: &RawAttribute<'_>) -> Result<(), ValidateError>
    ensures whole { OnOk result (length attribute.now.value
        ≡ digest_length (integrity_algorithm attribute.now)) }
    ensures well_formed { OnOk result (is_well_formed attribute.now ≡ true) }
    ensures not_whole { OnErr result
        ((length attribute.now.value == digest_length (integrity_algorithm attribute.now))
        ≡ false) }
    ensures refused { IfErr result (λ error. error
        ≡ (if is_well_formed attribute.now then ValidateError.IntegrityFailed
        else ValidateError.Parse StunParseError.InvalidAttributeData)) }
{
    if !is_well_formed(attribute) {
        return Err(ValidateError::Parse(StunParseError::InvalidAttributeData));
    }
    if attribute.length() != read_algorithm(attribute).digest_length() {
        return Err(ValidateError::IntegrityFailed);
    }
    Ok(())
}

/// Returns the message length that is covered by the HMAC in an attribute at this offset: the
/// length of a message that ends after this attribute.
fn count_covered_length(place: usize, value_length: usize) -> u16
    requires behind_header { header_length ≤ place }
    requires fits { place + attribute_header_length + value_length < header_length + 2 ^ 16 }
    ensures { result ≡ place + attribute_header_length + value_length - header_length }
{
    (place + ATTRIBUTE_HEADER_LENGTH + value_length - HEADER_LENGTH) as u16
}

/// Returns the first four bytes that are covered by the HMAC in an attribute at this offset: the
/// type of the message, and the message length that `count_covered_length` returns.
fn make_covered_start(message: &[u8], place: usize, value_length: usize) -> [u8; 4]
    requires behind_header { header_length ≤ place }
    requires within { place + attribute_header_length + value_length ≤ length message.now }
    requires limit { length message.now < header_length + 2 ^ 16 }
    ensures { result ≡
        take 2 message.now
        ++ big_bytes 2 (place + attribute_header_length + value_length - header_length) }
{
    let length = count_covered_length(place, value_length).to_be_bytes();
    [message[0], message[1], length[0], length[1]]
}

/// Returns `true` if the value of the integrity attribute at this offset is the HMAC of the bytes
/// that it covers. The message is not copied.
fn is_digest(message: &[u8], key: &[u8], place: usize, attribute: &RawAttribute<'_>) -> bool
    requires behind_header { header_length ≤ place }
    requires within { place + attribute_header_length + length attribute.now.value
        ≤ length message.now }
    requires limit { length message.now < header_length + 2 ^ 16 }
    requires whole { length attribute.now.value
        ≡ digest_length (integrity_algorithm attribute.now) }
    ensures { result ≡ is_digest message.now key.now (place, attribute.now) }
{
    let start = make_covered_start(message, place, attribute.length());
    let pieces: [&[u8]; 2] = [&start, &message[4..place]];
    let claimed = attribute.value();
    match read_algorithm(attribute) {
        IntegrityAlgorithm::Sha1 => is_same_text(claimed, &hmac_sha1(key, &pieces)),
        IntegrityAlgorithm::Sha256 => is_same_text(claimed, &hmac_sha256(key, &pieces)),
    }
}

/// Like `is_digest`, but with a prepared key.
fn is_prepared_digest<A: Allocator>(
    message: &[u8],
    key: &PreparedKey<A>,
    place: usize,
    attribute: &RawAttribute<'_>,
) -> bool
    requires behind_header { header_length ≤ place }
    requires within { place + attribute_header_length + length attribute.now.value
        ≤ length message.now }
    requires limit { length message.now < header_length + 2 ^ 16 }
    requires whole { length attribute.now.value
        ≡ digest_length (integrity_algorithm attribute.now) }
    ensures { result ≡ is_digest message.now key.now (place, attribute.now) }
{
    let start = make_covered_start(message, place, attribute.length());
    let pieces: [&[u8]; 2] = [&start, &message[4..place]];
    let claimed = attribute.value();
    match read_algorithm(attribute) {
        IntegrityAlgorithm::Sha1 => is_same_text(claimed, &key.hmac_sha1(&pieces)),
        IntegrityAlgorithm::Sha256 => is_same_text(claimed, &key.hmac_sha256(&pieces)),
    }
}

impl RawAttribute<'_> {
    /// Returns `true` if this is a MESSAGE-INTEGRITY or a MESSAGE-INTEGRITY-SHA256 and its value
    /// has a length that its type allows (RFC 8489, sections 14.5 and 14.6).
    pub fn is_integrity(&self) -> bool
        ensures { result ≡ is_integrity self.now }
    {
        let kind = self.get_type();
        (kind == AttributeType::MESSAGE_INTEGRITY
            || kind == AttributeType::MESSAGE_INTEGRITY_SHA256)
            && is_well_formed(self)
    }
}

impl<'a> Message<'a> {
    /// Returns the attribute that decides whether the message is signed, with its offset: the
    /// position of its first byte in the message. It is the first visible MESSAGE-INTEGRITY-SHA256
    /// or, without one, the first visible MESSAGE-INTEGRITY (RFC 8489, sections 14.5 and 14.6). Its
    /// value may have any length. Returns `None` if neither is visible.
    ///
    /// To validate the message with several keys, pass the result to `validate_integrity_at` or
    /// `validate_integrity_prepared`. This does not allocate.
    pub fn deciding_attribute(&self) -> Option<(usize, RawAttribute<'a>)>
        ensures { result ≡ deciding self.now }
    {
        let bytes = self.as_bytes();
        let place = find_deciding_place(bytes)?;
        Some((place, RawAttribute::at(bytes, place)?))
    }

    /// Validates the signature of the message with these credentials, and returns the algorithm of
    /// the signature.
    ///
    /// If MESSAGE-INTEGRITY-SHA256 is visible, only that attribute is checked, and otherwise
    /// MESSAGE-INTEGRITY. The key is the password, or the long-term key for the algorithm of the
    /// checked attribute. A long-term key is derived only if the attribute has an HMAC that is not
    /// truncated. This does not allocate.
    ///
    /// # Errors
    ///
    /// The first of these that applies:
    ///
    /// - `Parse(MissingAttribute)` with the type of MESSAGE-INTEGRITY: neither attribute is
    ///   visible.
    /// - `Parse(InvalidAttributeData)`: the attribute to check has a length that is not allowed.
    /// - `IntegrityFailed`: the signature is invalid. A truncated HMAC-SHA256 counts as invalid.
    pub fn validate_integrity<A: Allocator>(
        &self,
        credentials: &MessageIntegrityCredentials<A>,
    ) -> Result<IntegrityAlgorithm, ValidateError>
        ensures { Verifies self.now (verified_by (keys_of credentials.now) self.now) result }
    {
        let (place, attribute) = find_claimed_digest(self)?;
        let algorithm = read_algorithm(&attribute);
        let key = credentials.key(algorithm);
        if !is_digest(self.as_bytes(), key.as_bytes(), place, &attribute) {
            return Err(ValidateError::IntegrityFailed);
        }
        Ok(algorithm)
    }

    /// Like `validate_integrity`, but with a key. HMACs are compared without an early exit
    /// (`stun_base::compare`).
    ///
    /// The result is the algorithm of the signature, which can differ from the algorithm that the
    /// key was derived for. For example, if the checked attribute is MESSAGE-INTEGRITY and its
    /// HMAC-SHA1 is valid under the key, the result is `Sha1`, even if the key was derived for
    /// HMAC-SHA256.
    ///
    /// # Errors
    ///
    /// The errors of `validate_integrity`, in the same order.
    pub fn validate_integrity_with_key<A: Allocator>(
        &self,
        key: &IntegrityKey<A>,
    ) -> Result<IntegrityAlgorithm, ValidateError>
        ensures { Verifies self.now (verified_algorithm self.now key.now) result }
    {
        self.validate_integrity_with_key_bytes(key.as_bytes())
    }

    /// Like `validate_integrity_with_key`, but with the bytes of a key, which may have any length.
    /// This does not allocate.
    ///
    /// # Errors
    ///
    /// The errors of `validate_integrity`, in the same order.
    pub fn validate_integrity_with_key_bytes(
        &self,
        key: &[u8],
    ) -> Result<IntegrityAlgorithm, ValidateError>
        ensures { Verifies self.now (verified_algorithm self.now key.now) result }
    {
        let (place, attribute) = find_claimed_digest(self)?;
        if !is_digest(self.as_bytes(), key, place, &attribute) {
            return Err(ValidateError::IntegrityFailed);
        }
        Ok(read_algorithm(&attribute))
    }

    /// Like `validate_integrity_with_key`, but with a prepared key. If the key was prepared for the
    /// algorithm of the signature, the HMAC hashes two blocks fewer. This does not allocate.
    ///
    /// # Errors
    ///
    /// The errors of `validate_integrity`, in the same order.
    pub fn validate_integrity_with_prepared_key<A: Allocator>(
        &self,
        key: &PreparedKey<A>,
    ) -> Result<IntegrityAlgorithm, ValidateError>
        ensures { Verifies self.now (verified_algorithm self.now key.now) result }
    {
        let (place, attribute) = find_claimed_digest(self)?;
        if !is_prepared_digest(self.as_bytes(), key, place, &attribute) {
            return Err(ValidateError::IntegrityFailed);
        }
        Ok(read_algorithm(&attribute))
    }

    /// Like `validate_integrity_with_key`, but takes the deciding attribute as an argument. The
    /// message is not searched again, so you can try any number of keys after a single search.
    ///
    /// `place` and `attribute` must be the offset and the attribute that `deciding_attribute`
    /// returned for this message. This does not allocate.
    ///
    /// # Errors
    ///
    /// The errors of `validate_integrity`, in the same order, except `Parse(MissingAttribute)`.
    pub fn validate_integrity_at<A: Allocator>(
        &self,
        place: usize,
        attribute: &RawAttribute<'_>,
        key: &IntegrityKey<A>,
    ) -> Result<IntegrityAlgorithm, ValidateError>
        requires { deciding self.now ≡ Some (place, attribute.now) }
        ensures { Verifies self.now (verified_algorithm self.now key.now) result }
    {
        check_whole(attribute)?;
        if !is_digest(self.as_bytes(), key.as_bytes(), place, attribute) {
            return Err(ValidateError::IntegrityFailed);
        }
        Ok(read_algorithm(attribute))
    }

    /// Like `validate_integrity_at`, but with a prepared key.
    ///
    /// `place` and `attribute` must be the offset and the attribute that `deciding_attribute`
    /// returned for this message. This does not allocate.
    ///
    /// # Errors
    ///
    /// The errors of `validate_integrity`, in the same order, except `Parse(MissingAttribute)`.
    pub fn validate_integrity_prepared<A: Allocator>(
        &self,
        place: usize,
        attribute: &RawAttribute<'_>,
        key: &PreparedKey<A>,
    ) -> Result<IntegrityAlgorithm, ValidateError>
        requires { deciding self.now ≡ Some (place, attribute.now) }
        ensures { Verifies self.now (verified_algorithm self.now key.now) result }
    {
        check_whole(attribute)?;
        if !is_prepared_digest(self.as_bytes(), key, place, attribute) {
            return Err(ValidateError::IntegrityFailed);
        }
        Ok(read_algorithm(attribute))
    }
}
