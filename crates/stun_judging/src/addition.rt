//! Adds attributes to a message, one after another, and the integrity attribute last.
ghost use Rattle.std.specs.Prelude.{◌≡◌, ◌≤◌, ◌<◌, ◌+◌, ◌*◌, ◌^◌, ◌∷◌, [], ⊤, false, length};
ghost use Rattle.stun_base.specs.Algorithm.{digest_length};
ghost use Rattle.stun_types.specs.Attribute.{attribute_length};
ghost use Rattle.stun_judging.specs.Parts.{attribute_of};
ghost use Rattle.stun_judging.specs.Additions.{UnlessMemory, attribute, integrity};
ghost use Rattle.stun_judging.specs.Additions.{is_text_too_long, page_in};
ghost use Rattle.stun_judging.specs.Outcome.{IsAdded, IsOutcome};

use std::alloc::Allocator;
use stun_types::attribute::{
    Nonce, PasswordAlgorithm, PasswordAlgorithmValue, PasswordAlgorithms, Realm, Userhash, Username,
};
use stun_types::message::{IntegrityAlgorithm, PreparedKey, StunWriteError};
use stun_types::prelude::*;

/// An attribute that signing adds before the integrity attribute.
#[derive(Clone, Copy)]
pub enum AddedAttribute<'a> {
    /// NONCE (RFC 8489, section 14.10): at most 763 bytes.
    Nonce(&'a str),
    /// REALM (RFC 8489, section 14.9): at most 763 bytes.
    Realm(&'a str),
    /// USERNAME (RFC 8489, section 14.3): at most 513 bytes.
    Username(&'a str),
    /// USERHASH (RFC 8489, section 14.4).
    Userhash([u8; 32]),
    /// PASSWORD-ALGORITHMS (RFC 8489, section 14.11): the algorithms that a server offers, and that
    /// a client repeats.
    PasswordAlgorithms(&'a [PasswordAlgorithmValue]),
    /// PASSWORD-ALGORITHM (RFC 8489, section 14.12): the algorithm that the client chose, as the
    /// integrity algorithm that its keys are for.
    PasswordAlgorithm(IntegrityAlgorithm),
}

/// Adds an attribute to the message in a writer. The message must have its header already.
///
/// The errors are tested in this order:
///
/// - `TooLarge`: NONCE or REALM has more than 763 bytes, or USERNAME more than 513. The writer is
///   then unchanged.
/// - `MessageIntegrityExists`: the message is signed already.
/// - `AttributeExists`: the message already has an attribute of this type.
/// - `TooLarge`: the message would become too long.
/// - `TooSmall`: the writer has too little room.
/// - `OutOfMemory`: an allocation failed. This cannot happen if the writer has reserved the bytes.
pub fn add<W: MessageWrite>(writer: &mut W, added: AddedAttribute<'_>) -> Result<(), StunWriteError>
    requires { 20 ≤ length (W.bytes writer.old) }
    ensures header { 20 ≤ length (W.bytes writer.new) }
    ensures added { IsAdded (attribute (attribute_of added.entry) ∷ [])
        (page_in W.bytes W.room writer.old) (W.reserved writer.old) result
        (page_in W.bytes W.room writer.new) (W.reserved writer.new) }
    ensures granted { W.grants → UnlessMemory result ⊤ ⊥ }
{
    match added {
        AddedAttribute::Nonce(text) => add_made(writer, &Nonce::new(text)?),
        AddedAttribute::Realm(text) => add_made(writer, &Realm::new(text)?),
        AddedAttribute::Username(text) => add_made(writer, &Username::new(text)?),
        AddedAttribute::Userhash(hash) => add_made(writer, &Userhash::new(hash)),
        AddedAttribute::PasswordAlgorithms(list) => {
            add_made(writer, &PasswordAlgorithms::new(list))
        }
        AddedAttribute::PasswordAlgorithm(algorithm) => add_made(
            writer,
            &PasswordAlgorithm::new(PasswordAlgorithmValue::from_integrity(algorithm)),
        ),
    }
}

/// Adds an attribute whose text, if it has one, is within its limit. The message must have its
/// header already. Fails like `MessageWrite::add_attribute`.
#[tactic(auto, unfolding(crate::specs::Additions::added_one))]
pub fn add_made<W: MessageWrite, M: Attribute>(
    writer: &mut W,
    made: &M,
) -> Result<(), StunWriteError>
    requires header { 20 ≤ length (W.bytes writer.old) }
    requires within_limit { is_text_too_long
        (record { kind = M.kind made.now; value = M.value made.now }) ≡ false }
    ensures header { 20 ≤ length (W.bytes writer.new) }
    ensures added { IsAdded
        (attribute (record { kind = M.kind made.now; value = M.value made.now }) ∷ [])
        (page_in W.bytes W.room writer.old) (W.reserved writer.old) result
        (page_in W.bytes W.room writer.new) (W.reserved writer.new) }
    ensures granted { W.grants → UnlessMemory result ⊤ ⊥ }
{
    writer.add_attribute(made)
}

/// Adds the integrity attribute of an algorithm, with the signature under a key (RFC 8489, sections
/// 14.5 and 14.6). The message must have its header already.
///
/// The errors are tested in this order:
///
/// - `MessageIntegrityExists`: the message is signed already.
/// - `TooLarge`: the message would become too long.
/// - `TooSmall`: the writer has too little room.
/// - `OutOfMemory`: an allocation failed. This cannot happen if the writer has reserved the bytes.
#[tactic(auto, unfolding(crate::specs::Additions::added_one))]
pub fn add_integrity<W: MessageWrite, A: Allocator>(
    writer: &mut W,
    key: &PreparedKey<A>,
    algorithm: IntegrityAlgorithm,
) -> Result<(), StunWriteError>
    requires { 20 ≤ length (W.bytes writer.old) }
    ensures outcome { IsOutcome (integrity algorithm key.now ∷ []) (page_in W.bytes W.room writer.old)
        (W.reserved writer.old)
        result (page_in W.bytes W.room writer.new) }
    ensures granted { W.grants → UnlessMemory result ⊤ ⊥ }
{
    writer.add_message_integrity_with_prepared_key(key, algorithm)
}

/// Returns the number of bytes of the integrity attribute of an algorithm, with its header: 24 for
/// HMAC-SHA1, and 36 for HMAC-SHA256.
pub fn integrity_bytes(algorithm: IntegrityAlgorithm) -> usize
    ensures { result ≡ attribute_length (digest_length algorithm) }
{
    match algorithm {
        IntegrityAlgorithm::Sha1 => 24,
        IntegrityAlgorithm::Sha256 => 36,
    }
}

/// Returns the number of bytes of an attribute whose value has `length` bytes, with its header and
/// its padding (RFC 8489, section 14).
pub fn attribute_bytes(length: usize) -> usize
    requires { length < 2 ^ 63 }
    ensures { result ≡ attribute_length length }
{
    4 + length.div_ceil(4) * 4
}
