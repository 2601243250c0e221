//! Lists the attributes of a message, including those that are not visible.
ghost use Rattle.std.specs.Prelude.{◌≡◌, IfOk};
ghost use Rattle.stun_types.specs.Visible.{visible};
ghost use Rattle.stun_inspect.specs.Telling.{told_attributes, unhidden_members};

use std::alloc::{AllocError, Allocator};
use stun_base::header::HEADER_LENGTH;
use stun_types::attribute::{AttributeType, RawAttribute};
use stun_types::message::Visibility;

/// An attribute of a message.
#[derive(Debug, Drop)]
pub struct Told<'a> {
    /// The offset of the first byte of the attribute in the message.
    pub place: usize,
    /// The type and the value of the attribute.
    pub attribute: RawAttribute<'a>,
    /// The type of the earlier attribute that makes this attribute invisible (RFC 8489, sections
    /// 14.5 to 14.7), or `None` if the attribute is visible.
    pub hidden_by: Option<AttributeType>,
}

/// Lists the attributes of a message, in order, each with its offset and the earlier attribute that
/// makes it invisible, if there is one. The visible attributes are those that the iterator of the
/// message returns. For a truncated message, the list has the attributes before the cut. Fails if
/// an allocation fails.
pub fn tell<'a, A: Allocator>(alloc: A, bytes: &'a [u8]) -> Result<Vec<Told<'a>, A>, AllocError>
    ensures told { IfOk result (λ told. told.items ≡ told_attributes bytes.now) }
    ensures visible { IfOk result (λ told. unhidden_members told.items ≡ visible bytes.now) }
{
    let mut told = Vec::new(alloc);
    let mut place = HEADER_LENGTH;
    let mut visibility = Visibility::Everything;
    while let Some(attribute) = RawAttribute::at(bytes, place) {
        let kind = attribute.get_type();
        let length = attribute.padded_len();
        told.push(Told {
            place,
            attribute,
            hidden_by: visibility.hider(kind),
        })?;
        place += length;
        visibility = visibility.after(kind);
    }
    Ok(told)
}
