//! Walks over the visible attributes of a message, and reads each of its attributes once.

ghost use Rattle.std.specs.Prelude.{◌≡◌, ◌≤◌, ◌+◌, length, drop, slice_get, IfOk, IfErr, OnOk};
ghost use Rattle.std.specs.Prelude.{IfNone, IfSome, Some, None};
ghost use Rattle.stun_types.specs.Visible.{visible_after};
ghost use Rattle.stun_types.specs.Walk.{walk_from};
ghost use Rattle.stun_c.specs.Reading.{number_after};
ghost use Rattle.stun_c.specs.Walking.{ahead, cursor_refusal, visibility_from, walk_answer};

use stun_base::header::HEADER_LENGTH;
use stun_numbers::refusal::Refusal;
use stun_types::attribute::{ATTRIBUTE_HEADER_LENGTH, RawAttribute};
use stun_types::message::{Message, Visibility};

/// A position among the attributes of a message. If it is all zeros, it is before the first
/// attribute.
#[repr(C)]
#[derive(Debug, Clone, Copy, PartialEq, Eq)]
pub struct Cursor {
    /// The offset of the next attribute, or 0 before the first one.
    pub place: usize,
    /// Which attributes are visible from here on: 0 for all, 1 for the attributes that may follow
    /// MESSAGE-INTEGRITY, 2 for the attributes that may follow MESSAGE-INTEGRITY-SHA256, and any
    /// other number for none.
    pub hidden: u32,
}

/// Converts the number in a cursor to a visibility.
fn to_visibility(hidden: u32) -> Visibility
    ensures { result ≡ visibility_from hidden }
{
    match hidden {
        0 => Visibility::Everything,
        1 => Visibility::AfterIntegrity,
        2 => Visibility::AfterIntegritySha256,
        _ => Visibility::Nothing,
    }
}

/// Converts a visibility to the number in a cursor.
fn to_hidden_number(visibility: Visibility) -> u32
    ensures { visibility_from result ≡ visibility }
{
    match visibility {
        Visibility::Everything => 0,
        Visibility::AfterIntegrity => 1,
        Visibility::AfterIntegritySha256 => 2,
        Visibility::Nothing => 3,
    }
}

/// Returns the first attribute that is visible from a cursor on, with its offset, and moves the
/// cursor past it. If no attribute is visible from the cursor on, returns `None`, and moves the
/// cursor to the end of the message.
fn advance<'a>(message: &'a [u8], cursor: &mut Cursor) -> Option<(usize, RawAttribute<'a>)>
    requires behind { 20 ≤ cursor.old.place }
    requires within { cursor.old.place ≤ length message.now }
    ensures first { result ≡ slice_get (visible_after (visibility_from cursor.old.hidden)
        (walk_from cursor.old.place message.now)) 0 }
    ensures place { IfSome result (λ m. m.0 + 4 ≤ length message.now) }
    ensures rest { visible_after (visibility_from cursor.new.hidden)
        (walk_from cursor.new.place message.now)
        ≡ drop 1 (visible_after (visibility_from cursor.old.hidden)
        (walk_from cursor.old.place message.now)) }
    ensures behind { 20 ≤ cursor.new.place }
    ensures within { cursor.new.place ≤ length message.now }
{
    while let Some(attribute) = RawAttribute::at(message, cursor.place) {
        let place = cursor.place;
        let kind = attribute.get_type();
        let visibility = to_visibility(cursor.hidden);
        let after = visibility.after(kind);
        cursor.place += attribute.padded_len();
        cursor.hidden = to_hidden_number(after);
        if visibility.shows(kind) {
            return Some((place, attribute));
        }
    }
    None
}

/// Returns the cursor at which a walk continues: the caller's cursor, or the one just after the
/// header of the message if the offset in the caller's cursor is 0. Fails with `BadArgument` if any
/// other offset is in the header or after the end of the message.
#[tactic(auto, using(crate::proofs::Walking::shown_visible))]
fn begin_walk(message: &[u8], cursor: Cursor) -> Result<Cursor, Refusal>
    ensures ok { IfOk result
        (λ begun. visible_after (visibility_from begun.hidden) (walk_from begun.place message.now)
        ≡ ahead cursor message.now) }
    ensures behind { IfOk result (λ begun. 20 ≤ begun.place) }
    ensures within { IfOk result (λ begun. begun.place ≤ length message.now) }
    ensures accepted { OnOk result (cursor_refusal cursor message.now ≡ None) }
    ensures err { IfErr result (λ refusal. cursor_refusal cursor message.now ≡ Some refusal) }
{
    if cursor.place == 0 {
        Message::from_bytes(message)?;
        return Ok(Cursor {
            place: HEADER_LENGTH,
            hidden: 0,
        });
    }
    if cursor.place < HEADER_LENGTH || message.len() < cursor.place {
        return Err(Refusal::BadArgument);
    }
    Ok(cursor)
}

/// Finds the first visible attribute from a cursor on, writes its type and the length of its value,
/// and moves the cursor past it. Returns the offset of its value, 0 if there is no such attribute,
/// or a negative error code.
pub fn walk(message: &[u8], cursor: &mut Cursor, kind: &mut u16, value_length: &mut usize) -> i64
    ensures answer { result ≡ walk_answer (cursor_refusal cursor.old message.now)
        (slice_get (ahead cursor.old message.now) 0) }
    ensures kind { kind.new ≡ number_after (λ a. a.kind) (cursor_refusal cursor.old message.now)
        (slice_get (ahead cursor.old message.now) 0) kind.old }
    ensures value_length { value_length.new ≡ number_after (λ a. length a.value)
        (cursor_refusal cursor.old message.now)
        (slice_get (ahead cursor.old message.now) 0) value_length.old }
    ensures goes_on { IfNone (cursor_refusal cursor.old message.now)
        (cursor_refusal cursor.new message.now ≡ None) }
    ensures rest { IfNone (cursor_refusal cursor.old message.now)
        (ahead cursor.new message.now ≡ drop 1 (ahead cursor.old message.now)) }
    ensures refused { IfSome (cursor_refusal cursor.old message.now)
        (λ _. cursor.new ≡ cursor.old) }
{
    match begin_walk(message, *cursor) {
        Ok(begun) => {
            *cursor = begun;
            match advance(message, cursor) {
                Some((place, attribute)) => {
                    *kind = attribute.get_type().value();
                    *value_length = attribute.length();
                    (place + ATTRIBUTE_HEADER_LENGTH) as i64
                }
                None => 0,
            }
        }
        Err(refusal) => refusal.code(),
    }
}
