//! PASSWORD-ALGORITHMS with any algorithms, including unknown ones, and with their parameters
//! (RFC 8489, section 14.11).
ghost use Rattle.std.specs.Prelude.{◌≡◌, ◌≤◌, ◌<◌, ◌+◌, ◌-◌, ◌^◌, ◌++◌, ◌↔◌, ℕ, [], IsTrue, true};
ghost use Rattle.std.specs.Prelude.{false, IfNone, IfSome, OnSome, drop, length, min, slice_index};
ghost use Rattle.std.specs.Prelude.{⊤};
ghost use Rattle.std.specs.Iterator.{YieldsFirst, item_count};
ghost use Rattle.std.specs.List.{AllByRecursion};
ghost use Rattle.stun_base.specs.Attributes.{PASSWORD_ALGORITHMS};
ghost use Rattle.stun_types.specs.Attribute.{first_attribute, has_attribute};
ghost use Rattle.stun_types.specs.Grammar.{IsSpellable, spelled_attributes};
ghost use Rattle.stun_types.specs.Limits.{max_length};
ghost use Rattle.stun_extra.specs.AlgorithmList.{algorithm_list_in, are_filled, entry_answer};
ghost use Rattle.stun_extra.specs.AlgorithmListLaws.{algorithm_list_in-written};

use std::alloc::AllocError;
use std::marker::Model;
use stun_base::error::{StunParseError, StunWriteError};
use stun_types::attribute::{AttributeType, RawAttribute, append_header};
use stun_types::prelude::*;

/// The largest number of bytes of an entry's parameters.
const PARAMETERS_LIMIT: usize = 65535;

/// An entry of a PASSWORD-ALGORITHMS (RFC 8489, section 14.11): the number of an algorithm and its
/// parameters, which are borrowed.
///
/// Contracts: the value has the form of an attribute. Its kind is the number of the algorithm, and
/// its value is the parameters.
#[derive(Debug, Drop)]
pub struct AlgorithmEntry<'a> {
    number: u16,
    parameters: &'a [u8],
}

impl<'a> Model for AlgorithmEntry<'a> {
    ghost use Rattle.std.specs.Prelude.{◌<◌, ◌^◌, length};
    ghost use Rattle.stun_types.specs.Attribute.{TypedValue};

    ghost Value = { TypedValue };

    ghost view = { λ entry. record { kind = entry.number; value = entry.parameters.now } };

    ghost invariant = { λ entry. (entry.number < 2 ^ 16) × (length entry.parameters.now < 2 ^ 16) };
}

/// Copies the reference, not the parameters. This does not allocate and never fails.
impl<'a> Clone for AlgorithmEntry<'a> {
    ghost is_clone = { λ it copy. copy ≡ it };

    ghost is_infallible = { λ _. ⊤ };

    fn clone(&self) -> Result<Self, AllocError> {
        Ok(AlgorithmEntry {
            number: self.number,
            parameters: self.parameters,
        })
    }
}

impl<'a> AlgorithmEntry<'a> {
    /// Creates an entry from the number of an algorithm and its parameters.
    ///
    /// # Errors
    ///
    /// `TooLarge`: the parameters have more than 65535 bytes.
    pub fn new(number: u16, parameters: &'a [u8]) -> Result<Self, StunWriteError>
        ensures { result ≡ entry_answer number parameters.now }
    {
        if parameters.len() > PARAMETERS_LIMIT {
            return Err(StunWriteError::TooLarge);
        }
        Ok(AlgorithmEntry { number, parameters })
    }

    /// Returns the number of the algorithm (RFC 8489, section 18.5).
    pub fn number(&self) -> u16
        ensures { result ≡ self.now.kind }
    {
        self.number
    }

    /// Returns the parameters, without their padding.
    pub fn parameters(&self) -> &'a [u8]
        ensures { result.now ≡ self.now.value }
    {
        self.parameters
    }

    /// Returns the entry as a raw attribute, which has the same encoding.
    fn to_raw(&self) -> RawAttribute<'a>
        ensures same { result ≡ self.now }
        ensures fits { IsSpellable self.now }
    {
        RawAttribute::new(AttributeType(self.number), self.parameters)
    }
}

/// Where the entries come from.
#[derive(Clone, Copy, Debug)]
enum Source<'a> {
    /// A list that the caller passed.
    Listed(&'a [AlgorithmEntry<'a>]),
    /// The value of an attribute that was parsed, and the offset of the next entry.
    Received(&'a [u8], usize),
}

/// PASSWORD-ALGORITHMS (RFC 8489, section 14.11) with all its entries, including those of unknown
/// algorithms, and with their parameters. It borrows a list, or the bytes of a message.
///
/// `PasswordAlgorithms` can be parsed only if the authenticators know all its algorithms. Use
/// `AlgorithmList` to print or to forward the list of a server.
///
/// Contracts: the value is the list of the entries.
#[derive(Debug, Drop)]
pub struct AlgorithmList<'a> {
    source: Source<'a>,
}

impl<'a> Model for AlgorithmList<'a> {
    ghost use Rattle.std.specs.Prelude.{List};
    ghost use Rattle.stun_types.specs.Attribute.{TypedValue};

    ghost Value = { List TypedValue };

    ghost use Rattle.stun_extra.specs.code.AlgorithmSource.{source_entries, IsFilled};

    ghost view = { λ list. source_entries list.source };

    ghost invariant = { λ list. IsFilled list.source };
}

/// An iterator over the entries of an [`AlgorithmList`], in their order.
///
/// Contracts: the value is the list of the entries that are left.
#[derive(Debug, Drop)]
pub struct AlgorithmEntries<'a> {
    left: Source<'a>,
}

impl<'a> Model for AlgorithmEntries<'a> {
    ghost use Rattle.std.specs.Prelude.{List};
    ghost use Rattle.stun_types.specs.Attribute.{TypedValue};

    ghost Value = { List TypedValue };

    ghost use Rattle.stun_extra.specs.code.AlgorithmSource.{source_entries, IsFilled};

    ghost view = { λ entries. source_entries entries.left };

    ghost invariant = { λ entries. IsFilled entries.left };
}

/// States that every byte is less than 256. Only the proof uses this call.
fn state_bytes_fit(bytes: &[u8])
    ensures { (i : ℕ) → slice_index bytes.now i < 2 ^ 8 }
{}

/// Returns the entry at an offset, or `None` if there is no whole entry at the offset.
fn read_entry<'a>(bytes: &'a [u8], place: usize) -> Option<AlgorithmEntry<'a>>
    ensures none { IfNone result (has_attribute (drop place bytes.now) ≡ false) }
    ensures whole { OnSome result (has_attribute (drop place bytes.now) ≡ true) }
    ensures value { IfSome result (λ entry. entry ≡ first_attribute (drop place bytes.now)) }
    ensures sized { length bytes.now < 2 ^ 64 }
{
    let entry = RawAttribute::at(bytes, place)?;
    state_bytes_fit(bytes);
    Some(AlgorithmEntry {
        number: entry.get_type().value(),
        parameters: entry.value(),
    })
}

/// Returns `true` if the bytes consist of whole entries.
fn are_filled(bytes: &[u8]) -> bool
    ensures { result ≡ are_filled bytes.now }
{
    let mut place = 0;
    while let Some(entry) = RawAttribute::at(bytes, place) {
        place += entry.padded_len();
    }
    place == bytes.len()
}

impl<'a> Iterator for AlgorithmEntries<'a> {
    type Item = AlgorithmEntry<'a>;

    ghost next_gives = { YieldsFirst (λ left. left) };

    ghost remaining = { item_count (λ left. left) };

    fn next(&mut self) -> Option<AlgorithmEntry<'a>> {
        match self.left {
            Source::Listed(list) => {
                let first = list.first()?;
                self.left = Source::Listed(&list[1..]);
                Some(AlgorithmEntry {
                    number: first.number,
                    parameters: first.parameters,
                })
            }
            Source::Received(bytes, place) => {
                let Some(first) = read_entry(bytes, place) else {
                    return None;
                };
                self.left = Source::Received(bytes, place + first.to_raw().padded_len());
                Some(first)
            }
        }
    }
}

impl<'a> AlgorithmList<'a> {
    /// Creates the attribute from a list of entries. This does not allocate. `add_attribute` fails
    /// with `TooLarge` if the message would have more than 65532 bytes after its header.
    pub fn new(entries: &'a [AlgorithmEntry<'a>]) -> Self
        ensures { result ≡ entries.now }
    {
        AlgorithmList {
            source: Source::Listed(entries),
        }
    }

    /// Returns an iterator over the entries, in their order.
    pub fn iter(&self) -> AlgorithmEntries<'a>
        ensures { result ≡ self.now }
    {
        AlgorithmEntries { left: self.source }
    }

    /// Returns `true` if the list is empty.
    pub fn is_empty(&self) -> bool
        ensures { IsTrue result ↔ (self.now ≡ []) }
    {
        self.iter().next().is_none()
    }

    /// Returns the number of bytes of the entries with their padding, at most `usize::MAX`.
    fn count_value_bytes(&self) -> usize
        ensures length { result ≡ min (length (spelled_attributes self.now)) (2 ^ 64 - 1) }
        ensures fits { AllByRecursion IsSpellable self.now }
    {
        let mut total: usize = 0;
        for entry in self.iter() {
            total = total.saturating_add(entry.to_raw().padded_len());
        }
        total
    }

    /// Appends the entries to `writer`. The entries must have at most 65532 bytes with their
    /// padding, and the caller must have reserved these bytes.
    fn append_entries<W: MessageWrite>(&self, writer: &mut W)
        requires fits { length (spelled_attributes self.now) ≤ max_length }
        requires reserved { length (spelled_attributes self.now) ≤ W.reserved writer.old }
        ensures bytes { W.bytes writer.new ≡ W.bytes writer.old ++ spelled_attributes self.now }
        ensures room { W.room writer.new + length (spelled_attributes self.now)
            ≡ W.room writer.old }
        ensures reserved { W.reserved writer.new + length (spelled_attributes self.now)
            ≡ W.reserved writer.old }
    {
        for entry in self.iter() {
            entry.to_raw().write_into(writer);
        }
    }
}

impl<'a> AttributeStaticType for AlgorithmList<'a> {
    const TYPE: AttributeType = AttributeType::PASSWORD_ALGORITHMS;

    ghost static_kind = { PASSWORD_ALGORITHMS };

    fn static_type() -> AttributeType
        ensures { result.0 ≡ PASSWORD_ALGORITHMS }
    {
        Self::TYPE
    }
}

impl<'a> Attribute for AlgorithmList<'a> {
    ghost kind = { λ _. PASSWORD_ALGORITHMS };

    ghost value = { λ entries. spelled_attributes entries };

    ghost is_well_formed = { AllByRecursion IsSpellable };

    fn get_type(&self) -> AttributeType {
        Self::TYPE
    }

    fn length(&self) -> usize {
        self.count_value_bytes()
    }

    fn write_into<W: MessageWrite>(&self, writer: &mut W) {
        append_header(writer, Self::TYPE, self.count_value_bytes());
        self.append_entries(writer);
    }
}

impl<'a> AttributeFromRaw<'a> for AlgorithmList<'a> {
    ghost reading = { algorithm_list_in };

    ghost reads_back = { algorithm_list_in-written };

    fn from_raw(raw: RawAttribute<'a>) -> Result<Self, StunParseError> {
        let bytes = raw.value();
        if raw.get_type() != Self::TYPE || !are_filled(bytes) {
            return Err(StunParseError::InvalidAttributeData);
        }
        Ok(AlgorithmList {
            source: Source::Received(bytes, 0),
        })
    }
}
