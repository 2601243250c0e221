//! Searches the attributes of a message, and reads only their types and lengths.

ghost use Rattle.std.specs.Prelude.{◌≡◌, ◌||◌, true, false, drop, IfSome, IfNone, OnSome};
ghost use Rattle.std.specs.Option.{option_map};
ghost use Rattle.stun_types.specs.Attribute.{attribute_length, first_attribute};
ghost use Rattle.stun_types.specs.Attribute.{has_attribute, kind_field};
ghost use Rattle.stun_types.specs.Integrity.{deciding, first_of};
ghost use Rattle.stun_types.specs.Visible.{has_kind, visible};
ghost use Rattle.stun_types.specs.Walk.{next_place, walk};

use crate::attribute::{ATTRIBUTE_HEADER_LENGTH, AttributeType};
use crate::message::visibility::Visibility;
use byteorder::{BigEndian, ByteOrder};
use stun_base::header::HEADER_LENGTH;

/// Returns the number of bytes of an attribute, with its header and its padding, whose length field
/// is `value_length`.
fn count_length_by_field(value_length: u16) -> usize
    ensures { result ≡ attribute_length value_length }
{
    (usize::from(value_length) + ATTRIBUTE_HEADER_LENGTH + 3) / 4 * 4
}

/// Returns the type of the attribute at an offset, and the offset after its padding. Returns `None`
/// if the attribute or its padding extends past the end of the bytes.
pub(crate) fn read_kind(bytes: &[u8], place: usize) -> Option<(AttributeType, usize)>
    ensures none { IfNone result (has_attribute (drop place bytes.now) ≡ false) }
    ensures whole { OnSome result (has_attribute (drop place bytes.now) ≡ true) }
    ensures kind { IfSome result (λ found. found.0.0 ≡ kind_field (drop place bytes.now)) }
    ensures behind { IfSome result (λ found. found.1 ≡ next_place place bytes.now) }
{
    let rest = bytes.get(place..)?;
    if rest.len() < ATTRIBUTE_HEADER_LENGTH {
        return None;
    }
    let kind = AttributeType::new(BigEndian::read_u16(rest));
    let length = count_length_by_field(BigEndian::read_u16(&rest[2..]));
    if rest.len() < length {
        return None;
    }
    Some((kind, place + length))
}

/// Returns `true` if a message has an attribute of this type, visible or not.
pub(crate) fn has_attribute(message: &[u8], kind: AttributeType) -> bool
    ensures { result ≡ has_kind kind.0 (walk message.now) }
{
    let mut place = HEADER_LENGTH;
    while let Some((found, behind)) = read_kind(message, place) {
        if found == kind {
            return true;
        }
        place = behind;
    }
    false
}

/// Returns `true` if a message has an attribute of one of two types, visible or not.
pub(crate) fn has_either(message: &[u8], one: AttributeType, other: AttributeType) -> bool
    ensures { result ≡ (has_kind one.0 (walk message.now) || has_kind other.0 (walk message.now)) }
{
    let mut place = HEADER_LENGTH;
    while let Some((found, behind)) = read_kind(message, place) {
        if found == one {
            return true;
        }
        if found == other {
            return true;
        }
        place = behind;
    }
    false
}

/// Returns the offset of the first visible attribute of this type, or `None` if no attribute of
/// this type is visible. The search ends at the first attribute that hides this type, because no
/// attribute of this type is visible after it.
pub(crate) fn find_first_place(message: &[u8], kind: AttributeType) -> Option<usize>
    ensures whole { IfSome result (λ place. has_attribute (drop place message.now) ≡ true) }
    ensures first { first_of kind.0 (visible message.now)
        ≡ option_map (λ place. (place, first_attribute (drop place message.now))) result }
{
    let mut place = HEADER_LENGTH;
    while let Some((found, behind)) = read_kind(message, place) {
        if found == kind {
            return Some(place);
        }
        if !Visibility::Everything.after(found).shows(kind) {
            return None;
        }
        place = behind;
    }
    None
}

/// Returns the offset of the attribute that decides whether the message is signed: the first
/// visible MESSAGE-INTEGRITY-SHA256 or, without one, the first visible MESSAGE-INTEGRITY. Returns
/// `None` if neither is visible. The search ends at MESSAGE-INTEGRITY-SHA256 and at FINGERPRINT,
/// because no integrity attribute is visible after either of them.
pub(crate) fn find_deciding_place(message: &[u8]) -> Option<usize>
    ensures whole { IfSome result (λ place. has_attribute (drop place message.now) ≡ true) }
    ensures deciding { deciding message.now
        ≡ option_map (λ place. (place, first_attribute (drop place message.now))) result }
{
    let mut place = HEADER_LENGTH;
    let mut weaker = None;
    while let Some((kind, behind)) = read_kind(message, place) {
        if kind == AttributeType::MESSAGE_INTEGRITY_SHA256 {
            return Some(place);
        }
        if kind == AttributeType::FINGERPRINT {
            return weaker;
        }
        if kind == AttributeType::MESSAGE_INTEGRITY && weaker.is_none() {
            weaker = Some(place);
        }
        place = behind;
    }
    weaker
}
