//! Reads the value of the attribute at an offset of a message, as a text or as a list of types.

ghost use Rattle.std.specs.Prelude.{◌≡◌, ◌≤◌, ◌<◌, ◌+◌, length, IfOk, IfErr, OnOk, Ok, Err};
ghost use Rattle.stun_c.specs.Extra.{held_after, held_number, numbers_after, types_at};
ghost use Rattle.stun_c.specs.Reading.{attribute_place, text_answer, text_at, text_length_after};
ghost use Rattle.stun_c.specs.Reading.{value_at};

use crate::unknown::put;
use stun_base::header::HEADER_LENGTH;
use stun_extra::unknown::{UNKNOWN_ATTRIBUTES, UnknownAttributes};
use stun_numbers::refusal::Refusal;
use stun_numbers::text::text;
use stun_types::attribute::{ATTRIBUTE_HEADER_LENGTH, RawAttribute};
use stun_types::prelude::*;

/// Returns the offset of the attribute whose value is at the offset `place`.
pub fn attribute_place(place: usize) -> usize
    ensures { result ≡ attribute_place place }
{
    place.saturating_sub(ATTRIBUTE_HEADER_LENGTH)
}

/// Returns the value of the attribute at the offset `place` of a message. Fails with `BadArgument`
/// if there is no attribute at this offset.
fn read_value_at(message: &[u8], place: usize) -> Result<&[u8], Refusal>
    ensures ok { IfOk result (λ value. value_at message.now place ≡ Ok value.now) }
    ensures within { OnOk result (place + 4 ≤ length message.now) }
    ensures short { IfOk result (λ value. length value.now < 65536) }
    ensures err { IfErr result (λ refusal. value_at message.now place ≡ Err refusal) }
{
    if place < HEADER_LENGTH {
        return Err(Refusal::BadArgument);
    }
    match RawAttribute::at(message, place) {
        Some(attribute) => Ok(attribute.value()),
        None => Err(Refusal::BadArgument),
    }
}

/// Returns the text in the attribute at the offset `place` of a message. Fails with `BadArgument`
/// if there is no attribute, and with `NotText` if its value is not UTF-8.
fn read_text_at(message: &[u8], place: usize) -> Result<&str, Refusal>
    ensures ok { IfOk result (λ text. text_at message.now place ≡ Ok text.now) }
    ensures within { OnOk result (place + 4 ≤ length message.now) }
    ensures err { IfErr result (λ refusal. text_at message.now place ≡ Err refusal) }
{
    let value = read_value_at(message, place)?;
    text(value)
}

/// Writes the length of the text in the attribute at the offset `place` of a message. Returns the
/// offset of the text, or a negative error code.
pub fn read_text(message: &[u8], place: usize, text_length: &mut usize) -> i64
    ensures answer { result ≡ text_answer (text_at message.now place) place }
    ensures text_length { text_length.new
        ≡ text_length_after (text_at message.now place) text_length.old }
{
    match read_text_at(message, place) {
        Ok(text) => {
            *text_length = text.len();
            (place + ATTRIBUTE_HEADER_LENGTH) as i64
        }
        Err(refusal) => refusal.code(),
    }
}

/// Returns the list of types in the attribute at the offset `place` of a message. Fails with
/// `BadArgument` if there is no attribute, and with `MalformedAttribute` if its value is not a list
/// of types.
#[tactic(auto, using(crate::proofs::Told::held_few))]
fn read_types_at(message: &[u8], place: usize) -> Result<UnknownAttributes<'_>, Refusal>
    ensures ok { IfOk result (λ types. types_at message.now place ≡ Ok types) }
    ensures few { IfOk result (λ types. length types < 65536) }
    ensures err { IfErr result (λ refusal. types_at message.now place ≡ Err refusal) }
{
    let value = read_value_at(message, place)?;
    match UnknownAttributes::from_raw(RawAttribute::new(UNKNOWN_ATTRIBUTES, value)) {
        Ok(types) => Ok(types),
        Err(_) => Err(Refusal::MalformedAttribute),
    }
}

/// Writes as many of the types as fit to the front of the caller's array.
#[tactic(auto, using(crate::proofs::Told::held_next, crate::proofs::Told::held_none, crate::proofs::Told::held_all))]
fn hold(held: &UnknownAttributes<'_>, types: &mut [u16])
    ensures { types.new ≡ numbers_after held.now types.old }
{
    for i in 0..held.len() {
        if let Some(kind) = held.get(i) {
            put(types, i, kind.value());
        }
    }
}

/// Writes the types in the attribute at the offset `place` of a message, as many as fit into the
/// caller's array. Returns how many types the attribute has, or a negative error code.
pub fn read_types(message: &[u8], place: usize, types: &mut [u16]) -> i64
    ensures answer { result ≡ held_number (types_at message.now place) }
    ensures types { types.new ≡ held_after (types_at message.now place) types.old }
{
    match read_types_at(message, place) {
        Ok(held) => {
            hold(&held, types);
            held.len() as i64
        }
        Err(refusal) => refusal.code(),
    }
}
