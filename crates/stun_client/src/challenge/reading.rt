//! Reads a challenge: the first visible attribute of each type (RFC 8489, section 14).
ghost use Rattle.std.specs.Prelude.{◌≡◌, ◌≤◌, length};
ghost use Rattle.std.specs.Option.{option_copied, option_map_or};
ghost use Rattle.stun_types.specs.Limits.{TEXT_LIMIT};
ghost use Rattle.stun_client.specs.Challenging.{code_in, is_challenge, list_in};
ghost use Rattle.stun_client.specs.Challenging.{nonce_in, realm_in};

use crate::challenge::offer::{Offer, are_entries};
use stun_types::attribute::{ErrorCode, Nonce, Realm};
use stun_types::message::{Message, MessageClass};

/// Returns the error code of a message, or `None` if the message is not an error response with a
/// well-formed ERROR-CODE.
pub(crate) fn read_code(message: &Message<'_>) -> Option<u16>
    ensures { result ≡ code_in message.now }
{
    if message.class() != MessageClass::Error {
        return None;
    }
    match message.attribute::<ErrorCode<'_>>() {
        Ok(error) => Some(error.code()),
        Err(_) => None,
    }
}

/// Returns whether a message is an error response with the code 401 or 438.
pub(crate) fn is_challenge(message: &Message<'_>) -> bool
    ensures { result ≡ is_challenge message.now }
{
    match read_code(message) {
        Some(code) => code == ErrorCode::UNAUTHORIZED || code == ErrorCode::STALE_NONCE,
        None => false,
    }
}

/// Returns the text of REALM, or `None` if it is missing or malformed.
pub(crate) fn read_realm<'a>(message: &Message<'a>) -> Option<&'a str>
    ensures text { option_copied result ≡ realm_in message.now }
    ensures short { option_map_or (λ text. length text.now) result 0 ≤ TEXT_LIMIT }
{
    match message.attribute::<Realm<'a>>() {
        Ok(realm) => Some(realm.realm()),
        Err(_) => None,
    }
}

/// Returns the text of NONCE, or `None` if it is missing or malformed.
pub(crate) fn read_nonce<'a>(message: &Message<'a>) -> Option<&'a str>
    ensures text { option_copied result ≡ nonce_in message.now }
    ensures short { option_map_or (λ text. length text.now) result 0 ≤ TEXT_LIMIT }
{
    match message.attribute::<Nonce<'a>>() {
        Ok(nonce) => Some(nonce.nonce()),
        Err(_) => None,
    }
}

/// Returns the value of PASSWORD-ALGORITHMS, or `None` if it is missing or not a sequence of whole
/// entries.
pub(crate) fn read_list<'a>(message: &Message<'a>) -> Option<&'a [u8]>
    ensures { option_copied result ≡ list_in message.now }
{
    match message.attribute::<Offer<'a>>() {
        Ok(offer) if are_entries(offer.bytes()) => Some(offer.bytes()),
        _ => None,
    }
}
