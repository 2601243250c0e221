//! Reads the attributes that long-term authentication needs in one walk: parses the last visible
//! attribute of each type, and ignores it if it is malformed. For the two integrity types, uses the
//! first visible attribute instead.
//!
//! Nothing here allocates.

ghost use Rattle.std.specs.Prelude.{◌≡◌, ◌≤◌, Option, length};
ghost use Rattle.std.specs.Option.{is_some, option_and_then, option_copied};
ghost use Rattle.std.specs.Option.{option_map, option_map_or};
ghost use Rattle.stun_base.specs.Attributes.{NONCE, REALM, USERNAME};
ghost use Rattle.stun_types.specs.Integrity.{deciding_algorithm, verified_algorithm};
ghost use Rattle.stun_types.specs.Limits.{TEXT_LIMIT, USERNAME_LIMIT};
ghost use Rattle.stun_types.specs.PasswordAlgorithms.{password_algorithm_in, integrity_of};
ghost use Rattle.stun_types.specs.Text.{text_of};
ghost use Rattle.stun_types.specs.Userhash.{hash_of};
ghost use Rattle.stun_types.specs.Visible.{visible};
ghost use Rattle.stun_base.specs.MessageType.{is_response, is_success};
ghost use Rattle.stun_judging.specs.Reading.{reading_of, verified_under};
ghost use Rattle.stun_judging.specs.code.LastAttributes.{last_error_code, last_attributes};
ghost use Rattle.stun_judging.specs.code.LastAttributes.{with_member};

use std::alloc::Allocator;
use std::marker::Model;
use stun_base::algorithm::IntegrityAlgorithm;
use stun_base::prepared_key::PreparedKey;
use stun_types::attribute::{
    AttributeType, ErrorCode, Nonce, PasswordAlgorithm, PasswordAlgorithms, RawAttribute, Realm,
    Userhash, Username,
};
use stun_types::message::{Message, MessageClass};
use stun_types::prelude::AttributeFromRaw;

/// The last visible attribute of each type that long-term authentication needs. For each of the two
/// integrity types, this is the first visible attribute instead, with its offset.
#[derive(Drop)]
struct LastAttributes<'a> {
    error_code: Option<RawAttribute<'a>>,
    realm: Option<RawAttribute<'a>>,
    nonce: Option<RawAttribute<'a>>,
    username: Option<RawAttribute<'a>>,
    userhash: Option<RawAttribute<'a>>,
    password_algorithms: Option<RawAttribute<'a>>,
    password_algorithm: Option<RawAttribute<'a>>,
    integrity: Option<(usize, RawAttribute<'a>)>,
    integrity_sha256: Option<(usize, RawAttribute<'a>)>,
    /// Whether a visible integrity attribute is well formed.
    has_integrity: bool,
}

impl<'a> LastAttributes<'a> {
    /// Finds these attributes in a message, in one walk.
    fn of(message: &Message<'a>) -> Self
        ensures { result ≡ last_attributes (visible message.now) }
    {
        let mut last = LastAttributes {
            error_code: None,
            realm: None,
            nonce: None,
            username: None,
            userhash: None,
            password_algorithms: None,
            password_algorithm: None,
            integrity: None,
            integrity_sha256: None,
            has_integrity: false,
        };
        for (place, attribute) in message.iter_attributes() {
            last.note(place, attribute);
        }
        last
    }

    /// Stores an attribute as the last of its type. An integrity attribute is stored only if it is
    /// the first of its type.
    fn note(&mut self, place: usize, attribute: RawAttribute<'a>)
        ensures { self.new ≡ with_member self.old (place, attribute.entry) }
    {
        let kind = attribute.get_type();
        if kind == AttributeType::USERNAME {
            self.username = Some(attribute);
        } else if kind == AttributeType::REALM {
            self.realm = Some(attribute);
        } else if kind == AttributeType::NONCE {
            self.nonce = Some(attribute);
        } else if kind == AttributeType::USERHASH {
            self.userhash = Some(attribute);
        } else if kind == AttributeType::PASSWORD_ALGORITHM {
            self.password_algorithm = Some(attribute);
        } else if kind == AttributeType::PASSWORD_ALGORITHMS {
            self.password_algorithms = Some(attribute);
        } else if kind == AttributeType::ERROR_CODE {
            self.error_code = Some(attribute);
        } else if kind == AttributeType::MESSAGE_INTEGRITY {
            self.has_integrity = self.has_integrity || attribute.is_integrity();
            if self.integrity.is_none() {
                self.integrity = Some((place, attribute));
            }
        } else if kind == AttributeType::MESSAGE_INTEGRITY_SHA256 {
            self.has_integrity = self.has_integrity || attribute.is_integrity();
            if self.integrity_sha256.is_none() {
                self.integrity_sha256 = Some((place, attribute));
            }
        }
    }
}

/// A message, with the integrity attribute that decides whether its signature is valid.
///
/// Contracts: the value is the list of the message's bytes.
#[derive(Drop)]
struct Signature<'a, 'm> {
    message: &'m Message<'a>,
    decides: Option<(usize, RawAttribute<'a>)>,
}

impl<'a, 'm> Model for Signature<'a, 'm> {
    ghost use Rattle.std.specs.Prelude.{◌≡◌, ℕ, List};
    ghost use Rattle.stun_types.specs.Integrity.{deciding};

    ghost Value = { List ℕ };

    ghost view = { λ signature. signature.message.now };

    ghost invariant = { λ signature. deciding signature.message.now ≡ signature.decides };
}

impl Signature<'_, '_> {
    /// Returns the algorithm of the integrity attribute that decides, or `None` if no integrity
    /// attribute is visible.
    fn algorithm(&self) -> Option<IntegrityAlgorithm>
        ensures { result ≡ deciding_algorithm self.now }
    {
        match &self.decides {
            Some((_, attribute)) => {
                if attribute.get_type() == AttributeType::MESSAGE_INTEGRITY_SHA256 {
                    Some(IntegrityAlgorithm::Sha256)
                } else {
                    Some(IntegrityAlgorithm::Sha1)
                }
            }
            None => None,
        }
    }

    /// Returns the algorithm of the message's signature if the signature is valid under `key`, and
    /// `None` otherwise.
    fn verify_under<A: Allocator>(&self, key: &PreparedKey<A>) -> Option<IntegrityAlgorithm>
        ensures { result ≡ verified_algorithm self.now key.now }
    {
        match &self.decides {
            Some((place, attribute)) => {
                self.message
                    .validate_integrity_prepared(*place, attribute, key)
                    .ok()
            }
            None => None,
        }
    }
}

/// Parses an attribute as a value of type `A`. Returns `None` if there is no attribute, or if it is
/// malformed.
fn read<'a, A: AttributeFromRaw<'a>>(attribute: Option<RawAttribute<'a>>) -> Option<A>
    ensures { result ≡ option_and_then A.reading attribute.entry }
{
    match attribute {
        Some(attribute) => A::from_raw(attribute).ok(),
        None => None,
    }
}

/// Returns the error code in `attribute`, which is an ERROR-CODE. Returns `None` if `class` is not
/// the class of error responses, or if the attribute is missing or malformed.
fn read_error_code(class: MessageClass, attribute: Option<RawAttribute<'_>>) -> Option<u16>
    ensures { result ≡ last_error_code class attribute.entry }
{
    match class {
        MessageClass::Error => match read::<ErrorCode<'_>>(attribute) {
            Some(error) => Some(error.code()),
            None => None,
        },
        _ => None,
    }
}

/// Returns the text of REALM, or `None` if it is missing or malformed.
fn read_realm<'a>(attribute: Option<RawAttribute<'a>>) -> Option<&'a str>
    ensures text { option_copied result
        ≡ option_and_then (text_of REALM TEXT_LIMIT) attribute.entry }
    ensures short { option_map_or (λ text. length text.now) result 0 ≤ TEXT_LIMIT }
{
    match read::<Realm<'a>>(attribute) {
        Some(realm) => Some(realm.realm()),
        None => None,
    }
}

/// Returns the text of NONCE, or `None` if it is missing or malformed.
fn read_nonce<'a>(attribute: Option<RawAttribute<'a>>) -> Option<&'a str>
    ensures text { option_copied result
        ≡ option_and_then (text_of NONCE TEXT_LIMIT) attribute.entry }
    ensures short { option_map_or (λ text. length text.now) result 0 ≤ TEXT_LIMIT }
{
    match read::<Nonce<'a>>(attribute) {
        Some(nonce) => Some(nonce.nonce()),
        None => None,
    }
}

/// Returns the text of USERNAME, or `None` if it is missing or malformed.
fn read_username<'a>(attribute: Option<RawAttribute<'a>>) -> Option<&'a str>
    ensures { option_copied result
        ≡ option_and_then (text_of USERNAME USERNAME_LIMIT) attribute.entry }
{
    match read::<Username<'a>>(attribute) {
        Some(username) => Some(username.username()),
        None => None,
    }
}

/// Returns the hash in USERHASH, or `None` if it is missing or malformed.
fn read_userhash(attribute: Option<RawAttribute<'_>>) -> Option<[u8; 32]>
    ensures { result ≡ option_and_then hash_of attribute.entry }
{
    match read::<Userhash>(attribute) {
        Some(userhash) => Some(*userhash.hash()),
        None => None,
    }
}

/// Returns the integrity algorithm whose key is made by the password algorithm in
/// PASSWORD-ALGORITHM, or `None` if the attribute is missing or malformed.
fn read_algorithm(attribute: Option<RawAttribute<'_>>) -> Option<IntegrityAlgorithm>
    ensures { result
        ≡ option_map integrity_of (option_and_then password_algorithm_in attribute.entry) }
{
    match read::<PasswordAlgorithm>(attribute) {
        Some(chosen) => Some(chosen.algorithm().as_integrity()),
        None => None,
    }
}

/// The contents of a message that long-term authentication needs (RFC 8489, sections 9.2.4 and
/// 9.2.5). The value of an attribute comes from the last visible attribute of its type, and is
/// `None` if that attribute is missing or malformed.
#[derive(Drop)]
pub(crate) struct MessageReading<'a, 'm> {
    signature: Signature<'a, 'm>,
    class: MessageClass,
    /// The code of an error response.
    pub(crate) error: Option<u16>,
    pub(crate) realm: Option<&'a str>,
    pub(crate) nonce: Option<&'a str>,
    pub(crate) username: Option<&'a str>,
    pub(crate) userhash: Option<[u8; 32]>,
    /// The list of password algorithms.
    pub(crate) algorithms: Option<PasswordAlgorithms<'a>>,
    /// The integrity algorithm whose key is made by the password algorithm in PASSWORD-ALGORITHM.
    pub(crate) algorithm: Option<IntegrityAlgorithm>,
    /// Whether a well-formed integrity attribute is visible.
    pub(crate) has_integrity: bool,
    ghost short_realm: { option_map_or (λ text. length text.now) realm 0 ≤ TEXT_LIMIT },
    ghost short_nonce: { option_map_or (λ text. length text.now) nonce 0 ≤ TEXT_LIMIT },
}

impl<'a, 'm> MessageReading<'a, 'm> {
    ghost use Rattle.stun_judging.specs.code.ReadingSeen.{reading_seen};

    /// Reads a message, in one walk of its attributes.
    #[tactic(auto, unfolding(crate::specs::Reading::reading_of))]
    pub(crate) fn of(message: &'m Message<'a>) -> Self
        ensures reading { reading_seen result ≡ reading_of message.now }
        ensures message { result.signature ≡ message.now }
    {
        let last = LastAttributes::of(message);
        let class = message.class();
        MessageReading {
            signature: Signature {
                message,
                decides: last.integrity_sha256.or(last.integrity),
            },
            class,
            error: read_error_code(class, last.error_code),
            realm: read_realm(last.realm),
            nonce: read_nonce(last.nonce),
            username: read_username(last.username),
            userhash: read_userhash(last.userhash),
            algorithms: read::<PasswordAlgorithms<'a>>(last.password_algorithms),
            algorithm: read_algorithm(last.password_algorithm),
            has_integrity: last.has_integrity,
        }
    }

    /// Returns whether the message is a response.
    pub(crate) fn is_response(&self) -> bool
        ensures { result ≡ is_response (reading_seen self.now).class }
    {
        matches!(self.class, MessageClass::Success | MessageClass::Error)
    }

    /// Returns whether the message is a success response.
    pub(crate) fn is_success(&self) -> bool
        ensures { result ≡ is_success (reading_seen self.now).class }
    {
        matches!(self.class, MessageClass::Success)
    }

    /// Returns the algorithm of the integrity attribute that decides, or `None` if no integrity
    /// attribute is visible.
    pub(crate) fn deciding_algorithm(&self) -> Option<IntegrityAlgorithm>
        ensures { result ≡ deciding_algorithm self.now.signature }
    {
        self.signature.algorithm()
    }

    /// Returns the algorithm of the message's signature if the signature is valid under `key`, and
    /// `None` otherwise.
    pub(crate) fn verify_under<A: Allocator>(
        &self,
        key: &PreparedKey<A>,
    ) -> Option<IntegrityAlgorithm>
        ensures { result ≡ verified_under (reading_seen self.now) key.now }
    {
        if !self.has_integrity {
            return None;
        }
        self.signature.verify_under(key)
    }
}
