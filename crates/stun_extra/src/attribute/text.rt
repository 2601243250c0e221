//! Attributes whose value is a text (RFC 8489, sections 14.14 and 14.16).
ghost use Rattle.std.specs.Prelude.{◌≡◌, ◌≤◌, ◌<◌, ◌↔◌, Some, None, IfOk, IfErr};
ghost use Rattle.std.specs.Prelude.{OnErr, IsOkUnless, IsErrOf, IsUtf8, length, ⊤};
ghost use Rattle.std.specs.Cmp.{partial_equiv_from_equiv};
ghost use Rattle.stun_base.specs.Credentials.{same_text, same_text_equivalence};
ghost use Rattle.stun_types.specs.Text.{short_text, text_of, text_of-written};

use std::alloc::AllocError;
use std::marker::Model;
use std::str;
use stun_base::error::{StunParseError, StunWriteError};
use stun_types::attribute::{AttributeType, RawAttribute};
use stun_types::prelude::*;

/// An attribute of type `KIND` whose value is UTF-8 text of at most `LIMIT` bytes.
///
/// Contracts: the value is the list of its bytes.
#[derive(Debug, Drop)]
pub struct Text<'a, const KIND: u16, const LIMIT: usize> {
    text: &'a str,
}

impl<'a, const KIND: u16, const LIMIT: usize> Model for Text<'a, KIND, LIMIT> {
    ghost use Rattle.std.specs.Prelude.{ℕ, List, ◌≤◌, length};

    ghost Value = { List ℕ };

    ghost view = { λ attribute. attribute.text.now };

    ghost invariant = { λ attribute. length attribute.text.now ≤ LIMIT };
}

/// Copies the reference, not the text. This does not allocate and never fails.
impl<'a, const KIND: u16, const LIMIT: usize> Clone for Text<'a, KIND, LIMIT> {
    ghost is_clone = { λ it copy. copy ≡ it };

    ghost is_infallible = { λ _. ⊤ };

    fn clone(&self) -> Result<Self, AllocError> {
        Ok(Text { text: self.text })
    }
}

/// Two attributes are equal if their texts have the same bytes.
impl<'a, const KIND: u16, const LIMIT: usize> PartialEq for Text<'a, KIND, LIMIT> {
    ghost eq = { same_text };

    ghost laws = { partial_equiv_from_equiv same_text_equivalence };

    fn eq(&self, other: &Self) -> bool {
        self.text == other.text
    }
}

impl<'a, const KIND: u16, const LIMIT: usize> Eq for Text<'a, KIND, LIMIT> {
    ghost laws = { same_text_equivalence };
}

impl<'a, const KIND: u16, const LIMIT: usize> Text<'a, KIND, LIMIT> {
    /// Creates the attribute from a text. This does not allocate.
    ///
    /// # Errors
    ///
    /// - [`StunWriteError::TooLarge`]: the text has more than `LIMIT` bytes.
    pub fn new(text: &'a str) -> Result<Self, StunWriteError>
        ensures ok { IfOk result (λ attribute. attribute ≡ text.now) }
        ensures only_too_large { IsOkUnless result StunWriteError.TooLarge }
        ensures too_large { IsErrOf result StunWriteError.TooLarge ↔ (LIMIT < length text.now) }
    {
        if text.len() > LIMIT {
            return Err(StunWriteError::TooLarge);
        }
        Ok(Text { text })
    }

    /// Returns the text.
    pub fn text(&self) -> &'a str
        ensures text { result.now ≡ self.now }
        ensures within_limit { length result.now ≤ LIMIT }
    {
        self.text
    }
}

impl<'a, const KIND: u16, const LIMIT: usize> AttributeStaticType for Text<'a, KIND, LIMIT> {
    const TYPE: AttributeType = AttributeType(KIND);

    ghost static_kind = { KIND };

    fn static_type() -> AttributeType
        ensures { result.0 ≡ KIND }
    {
        AttributeType(KIND)
    }
}

impl<'a, const KIND: u16, const LIMIT: usize> Attribute for Text<'a, KIND, LIMIT> {
    ghost kind = { λ _. KIND };

    ghost value = { λ text. text };

    ghost is_well_formed = { λ text. IsUtf8 text × (length text ≤ LIMIT) };

    fn get_type(&self) -> AttributeType {
        AttributeType(KIND)
    }

    fn length(&self) -> usize {
        self.text.as_bytes().len()
    }

    fn write_into<W: MessageWrite>(&self, writer: &mut W) {
        RawAttribute::new(AttributeType(KIND), self.text.as_bytes()).write_into(writer);
    }
}

impl<'a, const KIND: u16, const LIMIT: usize> AttributeFromRaw<'a> for Text<'a, KIND, LIMIT> {
    ghost reading = { text_of KIND LIMIT };

    ghost reads_back = { text_of-written KIND LIMIT };

    fn from_raw(raw: RawAttribute<'a>) -> Result<Self, StunParseError> {
        if raw.get_type() != AttributeType(KIND) {
            return Err(StunParseError::InvalidAttributeData);
        }
        let text = read_short_text(raw.value(), LIMIT)?;
        Ok(Text { text })
    }
}

/// Reads the bytes as a text. Fails with `InvalidAttributeData` if there are more than `most` bytes
/// or if they are not UTF-8.
#[tactic(auto, using(stun_types::proofs::ReadingLemmas::short_text_read, stun_types::proofs::ReadingLemmas::short_text_not_read))]
fn read_short_text(bytes: &[u8], most: usize) -> Result<&str, StunParseError>
    ensures ok { IfOk result (λ text. short_text most bytes.now ≡ Some text.now) }
    ensures malformed { OnErr result (short_text most bytes.now ≡ None) }
    ensures error { IfErr result (λ error. error ≡ StunParseError.InvalidAttributeData) }
{
    if bytes.len() > most {
        return Err(StunParseError::InvalidAttributeData);
    }
    match str::from_utf8(bytes) {
        Ok(text) => Ok(text),
        Err(_) => Err(StunParseError::InvalidAttributeData),
    }
}
