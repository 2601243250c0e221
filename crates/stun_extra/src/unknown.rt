//! Attributes that a receiver must understand but does not know (RFC 8489, sections 6.3.1 to 6.3.4
//! and 14.13).
ghost use Rattle.std.specs.Prelude.{◌≡◌, ◌<◌, ◌^◌, ◌↔◌, IsTrue, length};
ghost use Rattle.std.specs.Iterator.{YieldsFirst, item_count};
ghost use Rattle.stun_extra.specs.Unknown.{HasUnknown, is_known, unknown_types};
ghost use Rattle.stun_extra.specs.code.Told.{is_new};

use crate::told::Told;
use std::marker::Model;
use stun_base::attribute_type::AttributeType;
use stun_types::message::{Message, MessageAttributesIter};

mod answer;
mod attribute;

pub use answer::{UNKNOWN_ATTRIBUTE, answer_unknown, ends_failed};
pub use attribute::UnknownAttributes;

/// The type of UNKNOWN-ATTRIBUTES (RFC 8489, section 18.3).
pub const UNKNOWN_ATTRIBUTES: AttributeType = AttributeType(0x000A);

/// An iterator over the types of a message's visible attributes that a receiver must understand
/// (those below 0x8000; RFC 8489, section 14) but does not know. It returns each type once, in the
/// order of the message.
///
/// It does not allocate. It has a size of about 4 KiB, because it has a bit for each of these
/// types.
///
/// Contracts: the value is the list of the types that are left.
#[derive(Debug, Drop)]
pub struct UnknownTypes<'a> {
    left: MessageAttributesIter<'a>,
    known: &'a [AttributeType],
    told: Told,
}

impl<'a> Model for UnknownTypes<'a> {
    ghost use Rattle.std.specs.Prelude.{List};
    ghost use Rattle.stun_base.specs.declared.wire.attribute_type.AttributeType.{AttributeType};
    ghost use Rattle.stun_extra.specs.code.Told.{left_to_tell};

    ghost Value = { List AttributeType };

    ghost view = { λ it. left_to_tell it.known.now it.told.words it.left };
}

/// Returns the types of the visible attributes that a receiver must understand (those below
/// 0x8000), but that are not in `known`. Each type occurs once, in the order of the message.
///
/// If a request has such an attribute, the server answers it with error 420 and
/// [`UnknownAttributes`]. An indication with such an attribute is dropped. A response with such an
/// attribute ends its request as failed (RFC 8489, sections 6.3.1 to 6.3.4).
pub fn unknown_types<'a>(message: &Message<'a>, known: &'a [AttributeType]) -> UnknownTypes<'a>
    ensures types { result ≡ unknown_types known.now message.now }
    ensures few { length result < 2 ^ 14 }
{
    UnknownTypes {
        left: message.iter_attributes(),
        known,
        told: Told::new(),
    }
}

/// Returns `true` if a type is in a list.
fn is_known(known: &[AttributeType], kind: AttributeType) -> bool
    ensures { result ≡ is_known known.now kind.0 }
{
    known.iter().any(|one| one.value() == kind.value())
}

/// Returns `true` if a message has a visible attribute that a receiver must understand, but whose
/// type is not in `known`. If the message is an indication, drop it (RFC 8489, section 6.3.2).
pub fn has_unknown(message: &Message<'_>, known: &[AttributeType]) -> bool
    ensures { IsTrue result ↔ HasUnknown known.now message.now }
{
    unknown_types(message, known).next().is_some()
}

/// Returns `true` if the iterator should return this type: the receiver must understand it, it is
/// not in `known`, and it has not been returned yet.
fn is_new(known: &[AttributeType], told: &Told, kind: AttributeType) -> bool
    ensures { result ≡ is_new known.now told.now.words kind.0 }
{
    kind.value() < 0x8000 && !is_known(known, kind) && !told.has(kind.value())
}

impl<'a> Iterator for UnknownTypes<'a> {
    type Item = AttributeType;

    ghost next_gives = { YieldsFirst (λ left. left) };

    ghost remaining = { item_count (λ left. left) };

    fn next(&mut self) -> Option<AttributeType> {
        while let Some(found) = self.left.next() {
            let kind = found.1.get_type();
            if is_new(self.known, &self.told, kind) {
                self.told.add(kind.value());
                return Some(kind);
            }
        }
        None
    }
}
