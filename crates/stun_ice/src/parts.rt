//! Reads the parts of a check: USERNAME, PRIORITY, USE-CANDIDATE, and the role of its sender (RFC
//! 8445, section 7.1). Also reads XOR-MAPPED-ADDRESS in the answer to a check, and finds out
//! whether an agent understands a message.

ghost use Rattle.std.specs.Option.{is_some, option_copied};
ghost use Rattle.std.specs.Prelude.{◌≡◌};
ghost use Rattle.stun_base.specs.Attributes.{USERNAME};
ghost use Rattle.stun_extra.specs.AttributeTypes.{USE_CANDIDATE as USE_CANDIDATE_TYPE};
ghost use Rattle.stun_extra.specs.Binding.{is_binding};
ghost use Rattle.stun_extra.specs.Unknown.{is_empty, unknown_types};
ghost use Rattle.stun_types.specs.Integrity.{first_of};
ghost use Rattle.stun_types.specs.Visible.{visible};
ghost use Rattle.stun_ice.specs.Agent.{after_front, peer_name_in};
ghost use Rattle.stun_ice.specs.Parts.{has_use_candidate, mapped_address_in};
ghost use Rattle.stun_ice.specs.Parts.{UNDERSTOOD as UNDERSTOOD_TYPES, priority_in, rival};
ghost use Rattle.stun_ice.specs.Parts.{username_in};

use crate::role::Role;
use stun_extra::attribute::{IceControlled, IceControlling, Priority};
use stun_extra::unknown::unknown_types;
use stun_types::attribute::{AttributeType, RawAttribute, XorMappedAddress};
use stun_types::message::{BINDING, Message};

/// The comprehension-required attribute types that an agent understands: those of STUN itself (RFC
/// 8489, section 18.3), PRIORITY and USE-CANDIDATE (RFC 8445, section 16.1).
pub(crate) const UNDERSTOOD: [AttributeType; 13] = [
    AttributeType::USERNAME,
    AttributeType(0x0024),
    AttributeType::MESSAGE_INTEGRITY,
    AttributeType(0x0025),
    AttributeType::XOR_MAPPED_ADDRESS,
    AttributeType::ERROR_CODE,
    AttributeType(0x000A),
    AttributeType::MESSAGE_INTEGRITY_SHA256,
    AttributeType(0x0001),
    AttributeType::REALM,
    AttributeType::NONCE,
    AttributeType::PASSWORD_ALGORITHM,
    AttributeType::USERHASH,
];

/// The type of the attribute USE-CANDIDATE (RFC 8445, section 16.1).
const USE_CANDIDATE: AttributeType = AttributeType(0x0025);

/// Returns the first visible USERNAME with its offset, or `None` if there is none.
fn find_username<'a>(message: &Message<'a>) -> Option<(usize, RawAttribute<'a>)>
    ensures { result ≡ first_of USERNAME (visible message.now) }
{
    message
        .iter_attributes()
        .find(|found| found.1.get_type() == AttributeType::USERNAME)
}

/// Returns the first visible USE-CANDIDATE with its offset, or `None` if there is none.
fn find_use_candidate<'a>(message: &Message<'a>) -> Option<(usize, RawAttribute<'a>)>
    ensures { result ≡ first_of USE_CANDIDATE_TYPE (visible message.now) }
{
    message
        .iter_attributes()
        .find(|found| found.1.get_type() == USE_CANDIDATE)
}

/// Returns whether a message has the method Binding.
pub(crate) fn is_binding(message: &Message<'_>) -> bool
    ensures { result ≡ is_binding message.now }
{
    message.method() == BINDING
}

/// Returns the value of the first visible USERNAME, or `None` if there is none.
pub(crate) fn read_username<'a>(message: &Message<'a>) -> Option<&'a [u8]>
    ensures { option_copied result ≡ username_in message.now }
{
    match find_username(message) {
        Some((_, attribute)) => Some(attribute.value()),
        None => None,
    }
}

/// Returns the bytes that follow `front` in `bytes`, or `None` if `bytes` do not begin with
/// `front`.
fn strip_front<'a>(front: &[u8], bytes: &'a [u8]) -> Option<&'a [u8]>
    ensures { option_copied result ≡ after_front front.now bytes.now }
{
    bytes.strip_prefix(front)
}

/// Returns the name of the peer in a USERNAME that the agent `name` receives: the part after `name`
/// and a colon. Returns `None` if USERNAME does not begin with `name` and a colon.
pub(crate) fn read_peer_name<'a>(name: &str, username: &'a [u8]) -> Option<&'a [u8]>
    ensures { option_copied result ≡ peer_name_in name.now username.now }
{
    match strip_front(name.as_bytes(), username) {
        Some(rest) => strip_front(b":", rest),
        None => None,
    }
}

/// Returns the number in PRIORITY, or `None` if PRIORITY is missing or malformed.
pub(crate) fn read_priority(message: &Message<'_>) -> Option<u32>
    ensures { result ≡ priority_in message.now }
{
    match message.attribute::<Priority>() {
        Ok(attribute) => Some(attribute.priority()),
        Err(_) => None,
    }
}

/// Returns whether a message has USE-CANDIDATE.
pub(crate) fn has_use_candidate(message: &Message<'_>) -> bool
    ensures { result ≡ has_use_candidate message.now }
{
    find_use_candidate(message).is_some()
}

/// Returns the tie-breaker in a check, or `None` if the check does not state that its sender has
/// the role `role`.
pub(crate) fn read_tie_breaker(role: Role, message: &Message<'_>) -> Option<u64>
    ensures { result ≡ rival role message.now }
{
    match role {
        Role::Controlling => read_controlling(message),
        Role::Controlled => read_controlled(message),
    }
}

/// Returns the tie-breaker in ICE-CONTROLLING, or `None` if this attribute is missing or malformed.
fn read_controlling(message: &Message<'_>) -> Option<u64>
    ensures { result ≡ rival Role.Controlling message.now }
{
    match message.attribute::<IceControlling>() {
        Ok(attribute) => Some(attribute.tie_breaker()),
        Err(_) => None,
    }
}

/// Returns the tie-breaker in ICE-CONTROLLED, or `None` if this attribute is missing or malformed.
fn read_controlled(message: &Message<'_>) -> Option<u64>
    ensures { result ≡ rival Role.Controlled message.now }
{
    match message.attribute::<IceControlled>() {
        Ok(attribute) => Some(attribute.tie_breaker()),
        Err(_) => None,
    }
}

/// Returns XOR-MAPPED-ADDRESS, or `None` if it is missing or malformed.
pub(crate) fn read_mapped_address(message: &Message<'_>) -> Option<XorMappedAddress>
    ensures { result ≡ mapped_address_in message.now }
{
    match message.attribute::<XorMappedAddress>() {
        Ok(attribute) => Some(attribute),
        Err(_) => None,
    }
}

/// Returns whether an agent understands all comprehension-required attributes of a message.
pub(crate) fn is_understood(message: &Message<'_>) -> bool
    ensures { result ≡ is_empty (unknown_types UNDERSTOOD_TYPES message.now) }
{
    unknown_types(message, &UNDERSTOOD).next().is_none()
}
