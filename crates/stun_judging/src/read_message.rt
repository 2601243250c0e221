//! A message that is read once, so that it can be judged under several nonces (RFC 8489, section
//! 9.2.4).

ghost use Rattle.std.specs.Option.{option_copied, option_map, option_map_or};
ghost use Rattle.std.specs.Prelude.{◌≡◌, ◌≤◌, length, map};
ghost use Rattle.stun_base.specs.MessageType.{is_response, is_success};
ghost use Rattle.stun_judging.specs.Reading.{is_malformed, reading_of, verified_under};
ghost use Rattle.stun_types.specs.Integrity.{deciding_algorithm};
ghost use Rattle.stun_types.specs.Limits.{TEXT_LIMIT};
ghost use Rattle.stun_types.specs.PasswordAlgorithms.{integrity_of};

use crate::claim::JudgeableMessage;
use crate::reading::MessageReading;
use std::alloc::Allocator;
use std::marker::Model;
use stun_base::algorithm::IntegrityAlgorithm;
use stun_base::prepared_key::PreparedKey;
use stun_types::attribute::PasswordAlgorithms;
use stun_types::message::Message;

/// A message whose attributes were read in one walk. A server that accepts several nonces of an
/// address judges the message under each of them, and reads it only once.
///
/// The calls return the contents of the last visible attribute of a type. If that attribute is
/// malformed, it counts as missing, even if an earlier one is well formed. Of an integrity
/// attribute, the first visible one of its type counts instead.
///
/// Contracts: the value is the list of the message's bytes.
#[derive(Drop)]
pub struct ReadMessage<'a, 'm> {
    message: &'m Message<'a>,
    pub(crate) reading: MessageReading<'a, 'm>,
}

impl<'a, 'm> Model for ReadMessage<'a, 'm> {
    ghost use Rattle.std.specs.Prelude.{◌≡◌, ℕ, List};
    ghost use Rattle.stun_judging.specs.Reading.{reading_of};
    ghost use Rattle.stun_judging.specs.code.ReadingSeen.{reading_seen};

    ghost Value = { List ℕ };

    ghost view = { λ read. read.message.now };

    ghost invariant = { λ read. (reading_seen read.reading ≡ reading_of read.message.now)
        × (read.reading.signature ≡ read.message.now) };
}

impl<'a, 'm> ReadMessage<'a, 'm> {
    /// Reads the attributes of a message in one walk. It does not allocate.
    pub fn of(message: &'m Message<'a>) -> Self
        ensures { result ≡ message.now }
    {
        let reading = MessageReading::of(message);
        ReadMessage { message, reading }
    }

    /// Returns the message.
    pub fn message(&self) -> &'m Message<'a>
        ensures { result.now ≡ self.now }
    {
        self.message
    }

    /// Returns whether the message is a response.
    pub fn is_response(&self) -> bool
        ensures { result ≡ is_response (reading_of self.now).class }
    {
        self.reading.is_response()
    }

    /// Returns whether the message is a success response.
    pub fn is_success(&self) -> bool
        ensures { result ≡ is_success (reading_of self.now).class }
    {
        self.reading.is_success()
    }

    /// Returns whether the message has a well-formed integrity attribute but lacks REALM, NONCE or
    /// a user name. Such a message is refused with `BadRequest` under every nonce.
    pub fn is_malformed(&self) -> bool
        ensures { result ≡ is_malformed (reading_of self.now) }
    {
        JudgeableMessage::of(&self.reading).is_none()
    }

    /// Returns the code of an error response, or `None` if the message is not an error response or
    /// has no well-formed ERROR-CODE (RFC 8489, section 14.8).
    pub fn error_code(&self) -> Option<u16>
        ensures { result ≡ (reading_of self.now).error }
    {
        self.reading.error
    }

    /// Returns the text of REALM, which has at most 763 bytes, or `None` if REALM is missing or
    /// malformed (RFC 8489, section 14.9).
    pub fn realm(&self) -> Option<&'a str>
        ensures text { option_copied result ≡ (reading_of self.now).realm }
        ensures short { option_map_or (λ text. length text.now) result 0 ≤ TEXT_LIMIT }
    {
        self.reading.realm
    }

    /// Returns the text of NONCE, which has at most 763 bytes, or `None` if NONCE is missing or
    /// malformed (RFC 8489, section 14.10).
    pub fn nonce(&self) -> Option<&'a str>
        ensures text { option_copied result ≡ (reading_of self.now).nonce }
        ensures short { option_map_or (λ text. length text.now) result 0 ≤ TEXT_LIMIT }
    {
        self.reading.nonce
    }

    /// Returns the list of password algorithms in PASSWORD-ALGORITHMS, or `None` if the attribute
    /// is missing or malformed (RFC 8489, section 14.11).
    pub fn into_password_algorithms(self) -> Option<PasswordAlgorithms<'a>>
        ensures { option_map (map integrity_of) result ≡ (reading_of self.entry).algorithms }
    {
        self.reading.algorithms
    }

    /// Returns the algorithm of the attribute that decides whether the message is signed:
    /// HMAC-SHA256 if MESSAGE-INTEGRITY-SHA256 is visible, otherwise HMAC-SHA1 if MESSAGE-INTEGRITY
    /// is visible, and otherwise `None` (RFC 8489, sections 14.5 and 14.6). The signature is not
    /// checked.
    pub fn deciding_algorithm(&self) -> Option<IntegrityAlgorithm>
        ensures { result ≡ deciding_algorithm self.now }
    {
        self.reading.deciding_algorithm()
    }

    /// Returns the algorithm of the message's signature if the signature is valid under `key`, and
    /// `None` otherwise.
    pub fn verified_under<A: Allocator>(&self, key: &PreparedKey<A>) -> Option<IntegrityAlgorithm>
        ensures { result ≡ verified_under (reading_of self.now) key.now }
    {
        self.reading.verify_under(key)
    }
}
