//! Adds FINGERPRINT to a message, and checks it (RFC 8489, section 14.7).
ghost use Rattle.std.specs.Prelude.{◌≡◌, ◌≤◌, ℕ, List, length, IfOk};
ghost use Rattle.std.specs.Prelude.{IsOk, IsOkUnless, MatchOption, None, Err};
ghost use Rattle.stun_base.specs.Attributes.{FINGERPRINT};
ghost use Rattle.stun_base.specs.declared.keys.algorithm.IntegrityAlgorithm.{IntegrityAlgorithm};
ghost use Rattle.stun_types.specs.Integrity.{first_of, verified_by};
ghost use Rattle.stun_types.specs.Message.{IsMessage};
ghost use Rattle.stun_types.specs.Visible.{visible};
ghost use Rattle.stun_types.specs.Writing.{HasOneMore};
ghost use Rattle.stun_extra.specs.Fingerprint.{fingerprint_at, fingerprint_attribute};
ghost use Rattle.stun_extra.specs.Fingerprint.{fingerprint_in, fingerprint_word};
ghost use Rattle.stun_extra.specs.Fingerprint.{fingerprint_refusal, with_fingerprint};

use crate::crc32::crc32;
use byteorder::{BigEndian, ByteOrder};
use stun_base::attribute_type::AttributeType;
use stun_base::error::StunWriteError;
use stun_base::header::HEADER_LENGTH;
use stun_types::attribute::RawAttribute;
use stun_types::limits::MAX_LENGTH;
use stun_types::message::Message;
use stun_types::prelude::*;

/// The number with which the CRC-32 in a FINGERPRINT is XORed (RFC 8489, section 14.7).
pub const FINGERPRINT_XOR: u32 = 0x5354_554E;

/// The number of bytes of a FINGERPRINT, with its type and its length.
pub const FINGERPRINT_LENGTH: usize = 8;

/// The state of a message's FINGERPRINT.
///
/// # Examples
///
/// ```
/// use seatcrane_stun::extra::{Fingerprint, check_fingerprint};
/// use seatcrane_stun::types::message::Message;
///
/// /// Returns `true` if a message of ICE, which always has a FINGERPRINT, is undamaged.
/// fn is_whole(message: &Message<'_>) -> bool {
///     check_fingerprint(message) == Fingerprint::Right
/// }
/// # assert!(!is_whole(&Message::from_bytes(b"\0\x01\0\0\x21\x12\xa4\x42 any 12 byte").unwrap()));
/// ```
#[derive(Clone, Copy, Debug, PartialEq, Eq)]
pub enum Fingerprint {
    /// FINGERPRINT matches the bytes before it.
    Right,
    /// FINGERPRINT does not match the bytes before it: the message is damaged, or belongs to
    /// another protocol.
    Wrong,
    /// FINGERPRINT is not the last attribute, or its value does not have 4 bytes.
    Misplaced,
    /// The message has no FINGERPRINT.
    Absent,
}

/// Checks the FINGERPRINT of a message (RFC 8489, section 14.7). This does not allocate.
///
/// A FINGERPRINT distinguishes STUN from other protocols on the same port. It does not protect a
/// message, because an attacker can compute it too.
pub fn check_fingerprint(message: &Message<'_>) -> Fingerprint
    ensures { result ≡ fingerprint_in message.now }
{
    match find_fingerprint(message) {
        Some((place, attribute)) => fingerprint_at(message.as_bytes(), place, &attribute),
        None => Fingerprint::Absent,
    }
}

/// Returns the first visible FINGERPRINT of a message and its offset.
fn find_fingerprint<'a>(message: &Message<'a>) -> Option<(usize, RawAttribute<'a>)>
    ensures { result ≡ first_of FINGERPRINT (visible message.now) }
{
    message
        .iter_attributes()
        .find(|found| found.1.get_type() == AttributeType::FINGERPRINT)
}

/// Checks `attribute`, at the offset `place` of a message, as the FINGERPRINT of the message
/// (RFC 8489, section 14.7). The type of the attribute is ignored.
///
/// Returns `Right`, `Wrong` or `Misplaced`. This does not allocate.
pub fn fingerprint_at(message: &[u8], place: usize, attribute: &RawAttribute<'_>) -> Fingerprint
    ensures { result ≡ fingerprint_at message.now (place, attribute.now) }
{
    let value = attribute.value();
    if value.len() != 4
        || message.len() < FINGERPRINT_LENGTH
        || message.len() - FINGERPRINT_LENGTH != place
    {
        return Fingerprint::Misplaced;
    }
    if BigEndian::read_u32(value) == compute_fingerprint(&message[..place]) {
        Fingerprint::Right
    } else {
        Fingerprint::Wrong
    }
}

/// Returns the value of a FINGERPRINT that follows these bytes of a message: their CRC-32, XORed
/// with `FINGERPRINT_XOR`.
fn compute_fingerprint(bytes: &[u8]) -> u32
    ensures { result ≡ fingerprint_word bytes.now }
{
    crc32(bytes) ^ FINGERPRINT_XOR
}

/// Adds FINGERPRINT to a message, and finishes the writer, so that no attribute can follow
/// FINGERPRINT. The writer must contain a message, or at least the header of one.
///
/// If you want to sign the message, sign it first. The signature stays valid, because it covers
/// only the bytes before the integrity attribute.
///
/// # Errors
///
/// The first of these that applies. The writer is then dropped.
///
/// - [`StunWriteError::AttributeExists`]: the message has a FINGERPRINT already.
/// - [`StunWriteError::TooLarge`]: the message would have more than 65532 bytes after its header.
/// - [`StunWriteError::TooSmall`]: the writer has room for fewer than 8 bytes.
/// - [`StunWriteError::OutOfMemory`]: an allocation failed.
pub fn finish_with_fingerprint<W: MessageWrite>(mut writer: W) -> Result<W::Output, StunWriteError>
    requires { 20 ≤ length (W.bytes writer) }

    // Fails with the first error that applies. If none does, only an allocation can fail.
    ensures refused { MatchOption (fingerprint_refusal (W.bytes writer) (W.room writer))
        (IsOkUnless result StunWriteError.OutOfMemory)
        (λ reason. result ≡ Err reason) }

    // If no error applies and the bytes are reserved already, the call succeeds.
    ensures succeeds { fingerprint_refusal (W.bytes writer) (W.room writer) ≡ None
        → 8 ≤ W.reserved writer → IsOk result }

    // If no error applies and no allocation fails, the call succeeds.
    ensures granted { W.grants → fingerprint_refusal (W.bytes writer) (W.room writer) ≡ None
        → IsOk result }
    ensures bytes { IfOk result (λ output. W.Output.contents output
        ≡ with_fingerprint (W.bytes writer)) }

    // A reader finds the attributes that it found before, followed by FINGERPRINT.
    ensures added { IfOk result (λ output. IsMessage (W.bytes writer)
        → HasOneMore (W.bytes writer) (W.Output.contents output)
        (fingerprint_attribute (W.bytes writer))) }
    ensures right { IfOk result (λ output. IsMessage (W.bytes writer)
        → fingerprint_in (W.Output.contents output) ≡ Fingerprint.Right) }

    // The signature is valid under the same keys as before.
    ensures verdict { IfOk result (λ output. IsMessage (W.bytes writer)
        → (keys : IntegrityAlgorithm → List ℕ)
        → verified_by keys (W.Output.contents output) ≡ verified_by keys (W.bytes writer)) }
{
    if writer.has_attribute(AttributeType::FINGERPRINT) {
        return Err(StunWriteError::AttributeExists(AttributeType::FINGERPRINT));
    }
    let message_length = writer.data().len() - HEADER_LENGTH + FINGERPRINT_LENGTH;
    if message_length > MAX_LENGTH {
        return Err(StunWriteError::TooLarge);
    }
    writer.reserve(FINGERPRINT_LENGTH)?;
    writer.set_length(message_length as u16);
    let value = compute_fingerprint(writer.data()).to_be_bytes();
    RawAttribute::new(AttributeType::FINGERPRINT, &value).write_into(&mut writer);
    Ok(writer.finish())
}
