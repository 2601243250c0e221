//! Notes on whether a message names the user, and the realm of the user, whose key it is verified
//! with.

use crate::command::User;
use crate::registry::attribute_name;
use std::alloc::{AllocError, Allocator};
use stun_types::attribute::{AttributeType, Realm, Userhash, Username};
use stun_types::message::{Message, StunParseError};

/// Returns a line for a visible USERNAME that is malformed or is not the user's name, and a line
/// for a visible REALM that is malformed or is not the user's realm. If a USERHASH is visible,
/// another line states whether it is the hash of the user's name.
///
/// Returns no lines for a password alone, or if the bytes are not a message. Fails if an allocation
/// fails.
pub fn notes_on<A: Allocator>(
    alloc: A,
    bytes: &[u8],
    user: Option<User<'_>>,
) -> Result<String<A>, AllocError> {
    let mut notes = String::new(alloc);
    let Some(User { name, realm }) = user else {
        return Ok(notes);
    };
    let Ok(message) = Message::from_bytes(bytes) else {
        return Ok(notes);
    };
    push_username(&mut notes, &message, name)?;
    push_userhash(&mut notes, &message, name, realm)?;
    push_realm(&mut notes, &message, realm)?;
    Ok(notes)
}

/// Appends the line for USERNAME, or nothing if it is missing or is the user's name.
fn push_username<A: Allocator>(
    notes: &mut String<A>,
    message: &Message<'_>,
    name: &str,
) -> Result<(), AllocError> {
    match message.attribute::<Username>() {
        Ok(username) if username.username() == name => Ok(()),
        Ok(_) => notes.push_str("USERNAME is another name\n"),
        Err(error) => push_fault(notes, message, AttributeType::USERNAME, error),
    }
}

/// Appends the line for USERHASH.
fn push_userhash<A: Allocator>(
    notes: &mut String<A>,
    message: &Message<'_>,
    name: &str,
    realm: &str,
) -> Result<(), AllocError> {
    match message.attribute::<Userhash>() {
        Ok(userhash) if *userhash.hash() == Userhash::compute(name, realm) => {
            notes.push_str("USERHASH is that of the name and the realm\n")
        }
        Ok(_) => notes.push_str("USERHASH is another hash\n"),
        Err(StunParseError::InvalidAttributeData) => {
            notes.push_str("USERHASH does not have 32 bytes\n")
        }
        Err(_) => Ok(()),
    }
}

/// Appends the line for REALM.
fn push_realm<A: Allocator>(
    notes: &mut String<A>,
    message: &Message<'_>,
    realm: &str,
) -> Result<(), AllocError> {
    match message.attribute::<Realm>() {
        Ok(attribute) if attribute.realm() == realm => Ok(()),
        Ok(_) => notes.push_str("REALM is another realm\n"),
        Err(error) => push_fault(notes, message, AttributeType::REALM, error),
    }
}

/// Appends the line for a malformed text attribute of this type, or nothing if the attribute is
/// missing.
fn push_fault<A: Allocator>(
    notes: &mut String<A>,
    message: &Message<'_>,
    kind: AttributeType,
    error: StunParseError,
) -> Result<(), AllocError> {
    if error != StunParseError::InvalidAttributeData {
        return Ok(());
    }
    notes.push_str(attribute_name(kind.value()))?;
    notes.push_str(fault_of(message, kind))
}

/// Returns the reason why the first visible attribute of a text type is malformed: it is not UTF-8,
/// or it is longer than a USERNAME (RFC 8489, section 14.3) or a REALM (section 14.9).
fn fault_of(message: &Message<'_>, kind: AttributeType) -> &'static str {
    let found = message
        .iter_attributes()
        .find(|found| found.1.get_type() == kind);
    match found {
        Some((_, attribute)) if str::from_utf8(attribute.value()).is_err() => " is not UTF-8\n",
        _ if kind == AttributeType::USERNAME => " has more than 513 bytes\n",
        _ => " has more than 763 bytes\n",
    }
}
