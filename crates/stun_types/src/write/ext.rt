//! The calls that are the same for all writers.

ghost use Rattle.std.specs.Prelude.{◌≡◌, ◌≤◌, ◌<◌, ◌+◌, ◌-◌, ◌^◌, ◌↔◌, ◌++◌, false};
ghost use Rattle.std.specs.Prelude.{min, length, IsTrue};
ghost use Rattle.stun_base.specs.Algorithm.{digest, digest_length};
ghost use Rattle.stun_base.specs.Header.{BeginsWithHeader, HEADER_LENGTH as header_length};
ghost use Rattle.stun_base.specs.Header.{header_of, transaction_id_field};
ghost use Rattle.stun_base.specs.Keys.OfCredentials.{keys_of};
ghost use Rattle.stun_base.specs.MessageType.{class_in, IsResponse};
ghost use Rattle.stun_types.specs.Attribute.{attribute_length};
ghost use Rattle.stun_types.specs.Grammar.{spelled_attribute};
ghost use Rattle.stun_types.specs.Limits.{max_length};
ghost use Rattle.stun_types.specs.Visible.{has_kind};
ghost use Rattle.stun_types.specs.Walk.{walk};
ghost use Rattle.stun_types.specs.WriterCalls.{AddsAttribute, Signs, SignsUnchecked};
ghost use Rattle.stun_types.specs.Writing.{another_refusal, attribute_refusal, has_integrity};
ghost use Rattle.stun_types.specs.Writing.{integrity_kind, is_set_apart, length_with};
ghost use Rattle.stun_types.specs.Writing.{size_refusal};

use crate::attribute::{Attribute, AttributeType, attribute_length};
use crate::integrity::digest_key::DigestKey;
use crate::limits::MAX_LENGTH;
use crate::message::walk::{has_attribute, has_either};
use crate::write::MessageWrite;
use crate::write::append::append_attribute;
use std::alloc::{AllocError, Allocator};
use stun_base::algorithm::IntegrityAlgorithm;
use stun_base::credentials::MessageIntegrityCredentials;
use stun_base::error::StunWriteError;
use stun_base::header::{HEADER_LENGTH, MessageHeader};
use stun_base::key::IntegrityKey;
use stun_base::message_type::MessageClass;
use stun_base::prepared_key::PreparedKey;
use stun_base::transaction_id::TransactionId;

/// Returns `true` if `add_attribute` refuses attributes of this type: FINGERPRINT, and the
/// integrity attributes, which only the calls that sign a message add.
fn is_set_apart(kind: AttributeType) -> bool
    ensures { result ≡ is_set_apart kind.0 }
{
    kind == AttributeType::MESSAGE_INTEGRITY
        || kind == AttributeType::MESSAGE_INTEGRITY_SHA256
        || kind == AttributeType::FINGERPRINT
}

/// The calls that are the same for all writers: they inspect the message in the writer, add
/// attributes to it, and sign it.
///
/// The writer must contain a message without FINGERPRINT. The builders of `Message` start such a
/// message, and these calls never add FINGERPRINT.
///
/// Contracts: the calls do not require a whole message. For most calls, the bytes in the writer
/// must begin with a header. For some, there need only be as many bytes as a header has.
pub trait MessageWriteExt: MessageWrite {
    /// Returns `true` if the message has an attribute of this type, whether it is visible or not.
    final fn has_attribute(&self, kind: AttributeType) -> bool
    where
        Self: Sized,
        requires { header_length ≤ length (Self.bytes self.now) }
        ensures { result ≡ has_kind kind.0 (walk (Self.bytes self.now)) }
    {
        has_attribute(self.data(), kind)
    }

    /// Returns `true` if the message has this class.
    final fn has_class(&self, class: MessageClass) -> bool
    where
        Self: Sized,
        requires { BeginsWithHeader (Self.bytes self.now) }
        ensures { IsTrue result ↔ (class_in (Self.bytes self.now) ≡ class) }
    {
        read_header(self.data()).get_type().has_class(class)
    }

    /// Returns `true` if the message is a response, either a success or an error.
    final fn is_response(&self) -> bool
    where
        Self: Sized,
        requires { BeginsWithHeader (Self.bytes self.now) }
        ensures { IsTrue result ↔ IsResponse (class_in (Self.bytes self.now)) }
    {
        read_header(self.data()).get_type().is_response()
    }

    /// Returns the transaction ID of the message.
    final fn transaction_id(&self) -> TransactionId
    where
        Self: Sized,
        requires { BeginsWithHeader (Self.bytes self.now) }
        ensures { result ≡ transaction_id_field (Self.bytes self.now) }
    {
        read_header(self.data()).transaction_id()
    }

    /// Adds an attribute at the end of the message.
    ///
    /// # Errors
    ///
    /// The first of these that applies. After an error, the bytes and the room of the writer are
    /// unchanged, and bytes that were reserved stay reserved.
    ///
    /// - `NotAllowed`: the attribute is an integrity attribute or FINGERPRINT.
    /// - `MessageIntegrityExists`: the message has an integrity attribute.
    /// - `AttributeExists`: the message has an attribute of this type.
    /// - `TooLarge`: the message would have more than 65532 bytes after its header.
    /// - `TooSmall`: the writer does not have enough room for the attribute.
    /// - `OutOfMemory`: an allocation failed.
    final fn add_attribute<A: Attribute>(&mut self, attribute: &A) -> Result<(), StunWriteError>
    where
        Self: Sized,
        requires { header_length ≤ length (Self.bytes self.old) }
        ensures { AddsAttribute Self.grants Self.bytes Self.room Self.reserved self.old self.new
            (attribute_refusal (Self.bytes self.old) (Self.room self.old)
            (A.kind attribute.now) (length (A.value attribute.now)))
            (record { kind = A.kind attribute.now; value = A.value attribute.now }) result }
    {
        let kind = attribute.get_type();
        if is_set_apart(kind) {
            return Err(StunWriteError::NotAllowed);
        }
        if has_integrity(self.data()) {
            return Err(StunWriteError::MessageIntegrityExists);
        }
        if has_attribute(self.data(), kind) {
            return Err(StunWriteError::AttributeExists(kind));
        }
        add_whole(self, attribute)
    }

    /// Adds an attribute at the end of the message, even if the message has an attribute of this
    /// type already.
    ///
    /// Use this call for requests that have several attributes of one type, such as a
    /// CreatePermission request for several peers (RFC 8656, section 9.1). If a type may occur only
    /// once, use `add_attribute`, which fails if the message has an attribute of that type already.
    ///
    /// # Errors
    ///
    /// The first of these that applies. After an error, the bytes and the room of the writer are
    /// unchanged, and bytes that were reserved stay reserved.
    ///
    /// - `NotAllowed`: the attribute is an integrity attribute or FINGERPRINT.
    /// - `MessageIntegrityExists`: the message has an integrity attribute.
    /// - `TooLarge`: the message would have more than 65532 bytes after its header.
    /// - `TooSmall`: the writer does not have enough room for the attribute.
    /// - `OutOfMemory`: an allocation failed.
    final fn add_another_attribute<A: Attribute>(
        &mut self,
        attribute: &A,
    ) -> Result<(), StunWriteError>
    where
        Self: Sized,
        requires { header_length ≤ length (Self.bytes self.old) }
        ensures { AddsAttribute Self.grants Self.bytes Self.room Self.reserved self.old self.new
            (another_refusal (Self.bytes self.old) (Self.room self.old)
            (A.kind attribute.now) (length (A.value attribute.now)))
            (record { kind = A.kind attribute.now; value = A.value attribute.now }) result }
    {
        if is_set_apart(attribute.get_type()) {
            return Err(StunWriteError::NotAllowed);
        }
        if has_integrity(self.data()) {
            return Err(StunWriteError::MessageIntegrityExists);
        }
        add_whole(self, attribute)
    }

    /// Signs the message: adds MESSAGE-INTEGRITY for HMAC-SHA1, or MESSAGE-INTEGRITY-SHA256 for
    /// HMAC-SHA256.
    ///
    /// The key comes from the credentials: it is the bytes of the password, or the long-term key
    /// for this algorithm. No key is allocated.
    ///
    /// # Errors
    ///
    /// The first of these that applies. After an error, the bytes and the room of the writer are
    /// unchanged, and bytes that were reserved stay reserved.
    ///
    /// - `MessageIntegrityExists`: the message has an integrity attribute.
    /// - `TooLarge`: the message would have more than 65532 bytes after its header.
    /// - `TooSmall`: the writer does not have enough room for the integrity attribute.
    /// - `OutOfMemory`: an allocation failed.
    final fn add_message_integrity<A: Allocator>(
        &mut self,
        credentials: &MessageIntegrityCredentials<A>,
        algorithm: IntegrityAlgorithm,
    ) -> Result<(), StunWriteError>
    where
        Self: Sized,
        requires { header_length ≤ length (Self.bytes self.old) }
        ensures { Signs Self.grants Self.bytes Self.room Self.reserved self.old self.new
            algorithm (keys_of credentials.now algorithm) result }
    {
        let key = credentials.key(algorithm);
        add_integrity(self, &key.as_bytes(), algorithm)
    }

    /// Like `add_message_integrity`, but with a key.
    ///
    /// # Errors
    ///
    /// The errors of `add_message_integrity`, in the same order.
    final fn add_message_integrity_with_key<A: Allocator>(
        &mut self,
        key: &IntegrityKey<A>,
        algorithm: IntegrityAlgorithm,
    ) -> Result<(), StunWriteError>
    where
        Self: Sized,
        requires { header_length ≤ length (Self.bytes self.old) }
        ensures { Signs Self.grants Self.bytes Self.room Self.reserved self.old self.new
            algorithm key.now result }
    {
        add_integrity(self, &key.as_bytes(), algorithm)
    }

    /// Like `add_message_integrity`, but with the bytes of a key, which may have any length.
    ///
    /// # Errors
    ///
    /// The errors of `add_message_integrity`, in the same order.
    final fn add_message_integrity_with_key_bytes(
        &mut self,
        key: &[u8],
        algorithm: IntegrityAlgorithm,
    ) -> Result<(), StunWriteError>
    where
        Self: Sized,
        requires { header_length ≤ length (Self.bytes self.old) }
        ensures { Signs Self.grants Self.bytes Self.room Self.reserved self.old self.new
            algorithm key.now result }
    {
        add_integrity(self, &key, algorithm)
    }

    /// Like `add_message_integrity`, but with a prepared key. If the key was prepared for this
    /// algorithm, the HMAC hashes two blocks fewer.
    ///
    /// # Errors
    ///
    /// The errors of `add_message_integrity`, in the same order.
    final fn add_message_integrity_with_prepared_key<A: Allocator>(
        &mut self,
        key: &PreparedKey<A>,
        algorithm: IntegrityAlgorithm,
    ) -> Result<(), StunWriteError>
    where
        Self: Sized,
        requires { header_length ≤ length (Self.bytes self.old) }
        ensures { Signs Self.grants Self.bytes Self.room Self.reserved self.old self.new
            algorithm key.now result }
    {
        add_integrity(self, key, algorithm)
    }

    /// Like `add_message_integrity_with_key`, but does not check first whether the message can be
    /// signed.
    ///
    /// The caller must ensure the following. Otherwise the message can become malformed, or the
    /// call can fail because the writer has too little room:
    ///
    /// - The message has no integrity attribute.
    /// - With the new integrity attribute, the message has at most 65532 bytes after its header.
    /// - The writer has room for the new integrity attribute: 24 bytes for HMAC-SHA1, and 36 for
    ///   HMAC-SHA256.
    ///
    /// # Errors
    ///
    /// `AllocError`: an allocation failed. The bytes and the room of the writer are then unchanged,
    /// and bytes that were reserved stay reserved.
    final fn add_message_integrity_with_key_unchecked<A: Allocator>(
        &mut self,
        key: &IntegrityKey<A>,
        algorithm: IntegrityAlgorithm,
    ) -> Result<(), AllocError>
    where
        Self: Sized,
        requires header { header_length ≤ length (Self.bytes self.old) }
        requires unsigned { has_integrity (Self.bytes self.old) ≡ false }
        requires short { length_with (Self.bytes self.old) (digest_length algorithm) ≤ max_length }
        requires room { attribute_length (digest_length algorithm) ≤ Self.room self.old }
        ensures { SignsUnchecked Self.grants Self.bytes Self.room Self.reserved self.old self.new
            algorithm key.now result }
    {
        sign(self, &key.as_bytes(), algorithm)
    }

    /// Like `add_message_integrity_with_key_unchecked`, but with a prepared key. The same
    /// conditions apply.
    ///
    /// # Errors
    ///
    /// `AllocError`: an allocation failed. The bytes and the room of the writer are then unchanged,
    /// and bytes that were reserved stay reserved.
    final fn add_message_integrity_with_prepared_key_unchecked<A: Allocator>(
        &mut self,
        key: &PreparedKey<A>,
        algorithm: IntegrityAlgorithm,
    ) -> Result<(), AllocError>
    where
        Self: Sized,
        requires header { header_length ≤ length (Self.bytes self.old) }
        requires unsigned { has_integrity (Self.bytes self.old) ≡ false }
        requires short { length_with (Self.bytes self.old) (digest_length algorithm) ≤ max_length }
        requires room { attribute_length (digest_length algorithm) ≤ Self.room self.old }
        ensures { SignsUnchecked Self.grants Self.bytes Self.room Self.reserved self.old self.new
            algorithm key.now result }
    {
        sign(self, key, algorithm)
    }
}

impl<W: MessageWrite> MessageWriteExt for W {}

/// Reads the header of a message.
fn read_header(message: &[u8]) -> MessageHeader
    requires { BeginsWithHeader message.now }
    ensures { result ≡ header_of message.now }
{
    MessageHeader::from_bytes(message).unwrap()
}

/// Returns `true` if a message has an integrity attribute, visible or not.
fn has_integrity(message: &[u8]) -> bool
    requires { header_length ≤ length message.now }
    ensures { result ≡ has_integrity message.now }
{
    has_either(
        message,
        AttributeType::MESSAGE_INTEGRITY,
        AttributeType::MESSAGE_INTEGRITY_SHA256,
    )
}

/// Returns the message length after `more` bytes are added. The result is at most `usize::MAX`.
fn count_length_with(message: &[u8], more: usize) -> usize
    requires { header_length ≤ length message.now }
    ensures { result ≡ min (length message.now - header_length + more) (2 ^ 64 - 1) }
{
    (message.len() - HEADER_LENGTH).saturating_add(more)
}

/// Adds an attribute: sets the length of the message, and appends the attribute. Fails if the
/// attribute does not fit, or if an allocation fails.
fn add_whole<W: MessageWrite, A: Attribute>(
    writer: &mut W,
    attribute: &A,
) -> Result<(), StunWriteError>
    requires header { header_length ≤ length (W.bytes writer.old) }
    requires kind { A.kind attribute.now < 2 ^ 16 }
    requires other { is_set_apart (A.kind attribute.now) ≡ false }
    ensures { AddsAttribute W.grants W.bytes W.room W.reserved writer.old writer.new
        (size_refusal (W.bytes writer.old) (W.room writer.old) (length (A.value attribute.now)))
        (record { kind = A.kind attribute.now; value = A.value attribute.now }) result }
{
    let message_length = count_length_with(writer.data(), attribute.padded_len());
    if message_length > MAX_LENGTH {
        return Err(StunWriteError::TooLarge);
    }
    writer.reserve(attribute.padded_len())?;
    writer.set_length(message_length as u16);
    attribute.write_into(writer);
    Ok(())
}

/// Returns the number of bytes of the integrity attribute for this algorithm, with its header.
fn count_integrity_length(algorithm: IntegrityAlgorithm) -> usize
    ensures { result ≡ attribute_length (digest_length algorithm) }
{
    attribute_length(algorithm.digest_length())
}

/// Signs the message with this algorithm, or fails with the first error of `add_message_integrity`
/// that applies.
fn add_integrity<W: MessageWrite, K: DigestKey>(
    writer: &mut W,
    key: &K,
    algorithm: IntegrityAlgorithm,
) -> Result<(), StunWriteError>
    requires { header_length ≤ length (W.bytes writer.old) }
    ensures { Signs W.grants W.bytes W.room W.reserved writer.old writer.new
        algorithm (K.key_bytes key.now) result }
{
    if has_integrity(writer.data()) {
        return Err(StunWriteError::MessageIntegrityExists);
    }
    let padded_length = count_integrity_length(algorithm);
    if count_length_with(writer.data(), padded_length) > MAX_LENGTH {
        return Err(StunWriteError::TooLarge);
    }
    if writer.room() < padded_length {
        return Err(StunWriteError::TooSmall);
    }
    sign(writer, key, algorithm)?;
    Ok(())
}

/// Signs the message: sets its length for the integrity attribute, and appends the attribute.
fn sign<W: MessageWrite, K: DigestKey>(
    writer: &mut W,
    key: &K,
    algorithm: IntegrityAlgorithm,
) -> Result<(), AllocError>
    requires header { header_length ≤ length (W.bytes writer.old) }
    requires short { length_with (W.bytes writer.old) (digest_length algorithm) ≤ max_length }
    requires room { attribute_length (digest_length algorithm) ≤ W.room writer.old }
    ensures { SignsUnchecked W.grants W.bytes W.room W.reserved writer.old writer.new
        algorithm (K.key_bytes key.now) result }
{
    let padded_length = count_integrity_length(algorithm);
    let message_length = count_length_with(writer.data(), padded_length);
    if writer.reserve(padded_length).is_err() {
        return Err(AllocError);
    }
    writer.set_length(message_length as u16);
    append_integrity(writer, key, algorithm);
    Ok(())
}

/// Appends the integrity attribute, whose value is the HMAC of all bytes before it. The caller must
/// have reserved the bytes of the attribute.
fn append_integrity<W: MessageWrite, K: DigestKey>(
    writer: &mut W,
    key: &K,
    algorithm: IntegrityAlgorithm,
)
    requires { attribute_length (digest_length algorithm) ≤ W.reserved writer.old }
    ensures bytes { W.bytes writer.new ≡ W.bytes writer.old
        ++ spelled_attribute (record {
          kind = integrity_kind algorithm;
          value = digest algorithm (K.key_bytes key.now) (W.bytes writer.old);
        }) }
    ensures room { W.room writer.new + attribute_length (digest_length algorithm)
        ≡ W.room writer.old }
{
    match algorithm {
        IntegrityAlgorithm::Sha1 => {
            let digest = key.digest_sha1(writer.data());
            append_attribute(writer, AttributeType::MESSAGE_INTEGRITY, &digest);
        }
        IntegrityAlgorithm::Sha256 => {
            let digest = key.digest_sha256(writer.data());
            append_attribute(writer, AttributeType::MESSAGE_INTEGRITY_SHA256, &digest);
        }
    }
}
