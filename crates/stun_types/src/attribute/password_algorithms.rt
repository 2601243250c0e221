//! PASSWORD-ALGORITHMS (RFC 8489, section 14.11).

ghost use Rattle.std.specs.Prelude.{◌≡◌, ◌≤◌, ◌<◌, ◌+◌, ◌*◌, ◌/◌, ◌++◌, ◌↔◌, [], IsTrue, length, ⊤};
ghost use Rattle.std.specs.List.{Contains, slice_get};
ghost use Rattle.stun_base.specs.Attributes.{PASSWORD_ALGORITHMS};
ghost use Rattle.stun_types.specs.PasswordAlgorithms.{ENTRY_LENGTH, password_algorithms_in};
ghost use Rattle.stun_types.specs.PasswordAlgorithms.{password_algorithms_in-written};
ghost use Rattle.stun_types.specs.PasswordAlgorithms.{spelled_entries};
ghost use Rattle.stun_types.specs.code.PasswordAlgorithms.{are_entries, entry_list};

use crate::attribute::password_algorithm::{ENTRY_LENGTH, read_entry};
use crate::attribute::{
    Attribute, AttributeFromRaw, AttributeStaticType, AttributeType, PasswordAlgorithmValue,
    RawAttribute,
};
use crate::write::MessageWrite;
use crate::write::append::{append_header, append_padding};
use std::alloc::AllocError;
use std::marker::Model;
use stun_base::error::StunParseError;

/// Where the algorithms come from.
#[derive(Clone, Copy, Debug)]
enum Source<'a> {
    /// A list that the caller passed.
    Listed(&'a [PasswordAlgorithmValue]),
    /// The entries of an attribute in a message.
    Received(&'a [u8]),
}

/// PASSWORD-ALGORITHMS (RFC 8489, section 14.11): the algorithms that a server offers, the
/// preferred one first. It borrows a list, or the bytes of a message.
///
/// If the list has an algorithm other than MD5 and SHA-256, or an algorithm with parameters, the
/// attribute is malformed as a whole.
///
/// Contracts: the value is the list.
#[derive(Debug, Drop)]
pub struct PasswordAlgorithms<'a> {
    source: Source<'a>,
}

impl<'a> Model for PasswordAlgorithms<'a> {
    ghost use Rattle.std.specs.Prelude.{List};
    ghost use Rattle.stun_types.specs.declared.attribute.password_algorithm.PasswordAlgorithmValue.{
      PasswordAlgorithmValue,
    };

    ghost Value = { List PasswordAlgorithmValue };

    ghost use Rattle.stun_types.specs.code.AlgorithmSource.{list_of, IsKnown};

    ghost view = { λ algorithms. list_of algorithms.source };

    ghost invariant = { λ algorithms. IsKnown algorithms.source };
}

/// Copies the reference, not the list. This does not allocate and never fails.
impl<'a> Clone for PasswordAlgorithms<'a> {
    ghost is_clone = { λ it copy. copy ≡ it };

    ghost is_infallible = { λ _. ⊤ };

    fn clone(&self) -> Result<Self, AllocError> {
        Ok(PasswordAlgorithms {
            source: self.source,
        })
    }
}

/// Returns `true` if the bytes consist of entries of known algorithms without parameters.
fn are_known(bytes: &[u8]) -> bool
    ensures { result ≡ are_entries bytes.now }
{
    let mut rest = bytes;
    while !rest.is_empty() {
        if rest.len() < ENTRY_LENGTH || read_entry(rest).is_none() {
            return false;
        }
        rest = &rest[ENTRY_LENGTH..];
    }
    true
}

/// Returns the algorithm of the entry with this index, or `None` if there are fewer entries.
fn read_entry_at(bytes: &[u8], i: usize) -> Option<PasswordAlgorithmValue>
    requires { IsTrue (are_entries bytes.now) }
    ensures { result ≡ slice_get (entry_list bytes.now) i }
{
    if i >= bytes.len() / ENTRY_LENGTH {
        return None;
    }
    read_entry(&bytes[ENTRY_LENGTH * i..])
}

/// Returns the number of entries.
fn count_entries(bytes: &[u8]) -> usize
    requires { IsTrue (are_entries bytes.now) }
    ensures { result ≡ length (entry_list bytes.now) }
{
    bytes.len() / ENTRY_LENGTH
}

impl<'a> PasswordAlgorithms<'a> {
    /// Creates the attribute from a list of algorithms. This does not allocate.
    pub fn new(algorithms: &'a [PasswordAlgorithmValue]) -> Self
        ensures { result ≡ algorithms.now }
    {
        PasswordAlgorithms {
            source: Source::Listed(algorithms),
        }
    }

    /// Returns the number of algorithms.
    pub fn len(&self) -> usize
        ensures { result ≡ length self.now }
    {
        match self.source {
            Source::Listed(list) => list.len(),
            Source::Received(bytes) => count_entries(bytes),
        }
    }

    /// Returns `true` if the list is empty.
    pub fn is_empty(&self) -> bool
        ensures { IsTrue result ↔ (self.now ≡ []) }
    {
        self.len() == 0
    }

    /// Returns the algorithm at this index, or `None` if the list is shorter. The first index is 0.
    pub fn get(&self, i: usize) -> Option<PasswordAlgorithmValue>
        ensures { result ≡ slice_get self.now i }
    {
        match self.source {
            Source::Listed(list) => list.get(i).copied(),
            Source::Received(bytes) => read_entry_at(bytes, i),
        }
    }

    /// Returns `true` if the algorithm is in the list.
    pub fn contains(&self, algorithm: PasswordAlgorithmValue) -> bool
        ensures { IsTrue result ↔ Contains self.now algorithm }
    {
        for i in 0..self.len() {
            if self.get(i) == Some(algorithm) {
                return true;
            }
        }
        false
    }

    /// Returns `true` if the list consists of these algorithms in this order.
    pub fn equals(&self, algorithms: &[PasswordAlgorithmValue]) -> bool
        ensures { IsTrue result ↔ (self.now ≡ algorithms.now) }
    {
        if self.len() != algorithms.len() {
            return false;
        }
        for (i, algorithm) in algorithms.iter().enumerate() {
            if self.get(i) != Some(*algorithm) {
                return false;
            }
        }
        true
    }

    /// Appends the entries of the algorithms to `writer`. The caller must have reserved 4 bytes for
    /// each entry.
    fn append_entries<W: MessageWrite>(&self, writer: &mut W)
        requires { ENTRY_LENGTH * length self.now ≤ W.reserved writer.old }
        ensures bytes { W.bytes writer.new ≡ W.bytes writer.old ++ spelled_entries self.now }
        ensures room { W.room writer.new + ENTRY_LENGTH * length self.now ≡ W.room writer.old }
        ensures reserved { W.reserved writer.new + ENTRY_LENGTH * length self.now
            ≡ W.reserved writer.old }
    {
        for i in 0..self.len() {
            if let Some(algorithm) = self.get(i) {
                writer.append(&algorithm.to_entry());
            }
        }
    }
}

impl<'a> AttributeStaticType for PasswordAlgorithms<'a> {
    const TYPE: AttributeType = AttributeType::PASSWORD_ALGORITHMS;

    ghost static_kind = { PASSWORD_ALGORITHMS };

    fn static_type() -> AttributeType
        ensures { result.0 ≡ PASSWORD_ALGORITHMS }
    {
        Self::TYPE
    }
}

impl<'a> Attribute for PasswordAlgorithms<'a> {
    ghost kind = { λ _. PASSWORD_ALGORITHMS };

    ghost value = { λ algorithms. spelled_entries algorithms };

    ghost is_well_formed = { λ _. Unit {0} };

    fn get_type(&self) -> AttributeType {
        Self::TYPE
    }

    #[tactic(auto, using(crate::proofs::EntryLemmas::length_of_entries))]
    fn length(&self) -> usize {
        self.len().saturating_mul(ENTRY_LENGTH)
    }

    #[tactic(auto, using(crate::proofs::EntryLemmas::length_of_entries))]
    fn write_into<W: MessageWrite>(&self, writer: &mut W) {
        let value_length = ENTRY_LENGTH * self.len();
        append_header(writer, Self::TYPE, value_length);
        self.append_entries(writer);
        append_padding(writer, value_length);
    }
}

impl<'a> AttributeFromRaw<'a> for PasswordAlgorithms<'a> {
    ghost reading = { password_algorithms_in };

    ghost reads_back = { password_algorithms_in-written };

    fn from_raw(raw: RawAttribute<'a>) -> Result<Self, StunParseError> {
        let bytes = raw.value();
        if raw.get_type() != Self::TYPE || !are_known(bytes) {
            return Err(StunParseError::InvalidAttributeData);
        }
        Ok(PasswordAlgorithms {
            source: Source::Received(bytes),
        })
    }
}
