//! Laws of messages, on which other crates rely.
//!
//! Each law is a function whose contract is the law. The function does nothing, or makes one call.
ghost use Rattle.std.specs.Prelude.{◌≡◌, ℕ, false, Some, ◌≤◌, ◌<◌, ◌^◌};
ghost use Rattle.std.specs.Prelude.{List, [], ◌∷◌, ◌++◌, length, take, slice_index};
ghost use Rattle.stun_base.specs.Algorithm.{digest_length};
ghost use Rattle.stun_base.specs.Attributes.{FINGERPRINT, MESSAGE_INTEGRITY};
ghost use Rattle.stun_base.specs.Attributes.{MESSAGE_INTEGRITY_SHA256};
ghost use Rattle.stun_base.specs.Header.{transaction_id_field, type_field};
ghost use Rattle.stun_types.specs.Attribute.{TypedValue};
ghost use Rattle.stun_types.specs.Grammar.{spelled_message, SpellsWhatIsFound};
ghost use Rattle.stun_types.specs.Grammar.{FindsWhatIsSpelled, FindsWhatIsWritten};
ghost use Rattle.stun_types.specs.Integrity.{deciding, verified_algorithm, verified_by};
ghost use Rattle.stun_types.specs.Limits.{max_length};
ghost use Rattle.stun_types.specs.Message.{with_length};
ghost use Rattle.stun_types.specs.Tail.{AgreeUpToIntegrity, IsContinuedAnew, besides_fingerprint};
ghost use Rattle.stun_types.specs.Visible.{of_kind, visible, visible_after};
ghost use Rattle.stun_types.specs.Walk.{Member, walk};
ghost use Rattle.stun_types.specs.Writing.{HasOneMore, IsAddable, IsOpen};
ghost use Rattle.stun_types.specs.Writing.{integrity_attribute, is_set_apart};
ghost use Rattle.stun_types.specs.Writing.{length_with, with_attribute, with_integrity};

use crate::message::Visibility;
use stun_base::algorithm::IntegrityAlgorithm;

/// Every message is a header followed by its encoded attributes (`found`). A reader finds exactly
/// these attributes (`spelled`). For every list of attributes there is a message that has them, if
/// their encoding has less than 65,536 bytes and each type has 16 bits (`written`).
pub fn message_is_spelled_attributes()
    ensures found { (bytes : List ℕ)
        → ((i : ℕ) → slice_index bytes i < 2 ^ 8) → SpellsWhatIsFound bytes }
    ensures spelled { (bytes : List ℕ) (attributes : List TypedValue)
        → FindsWhatIsSpelled bytes attributes }
    ensures written { (message_type transaction_id : ℕ) (attributes : List TypedValue)
        → FindsWhatIsWritten message_type transaction_id attributes }
{}

/// `Visibility` alone decides which attributes of a message are visible. A walk begins with
/// `Everything` at the first attribute, and calls `after` for each attribute that it passes. The
/// visible attributes are those for which `shows` returns `true`.
pub fn a_walk_finds_what_is_visible()
    ensures { (bytes : List ℕ) → visible_after Visibility.Everything (walk bytes)
        ≡ visible bytes }
{}

/// At most one MESSAGE-INTEGRITY, one MESSAGE-INTEGRITY-SHA256 and one FINGERPRINT are visible in a
/// message, so for each of these types the first visible attribute is also the last.
pub fn each_hiding_attribute_counts_once()
    ensures integrity { (bytes : List ℕ) → length (of_kind MESSAGE_INTEGRITY (visible bytes)) ≤ 1 }
    ensures integrity_sha256 { (bytes : List ℕ)
        → length (of_kind MESSAGE_INTEGRITY_SHA256 (visible bytes)) ≤ 1 }
    ensures fingerprint { (bytes : List ℕ) → length (of_kind FINGERPRINT (visible bytes)) ≤ 1 }
{}

/// States what adding an attribute to a message does. A message is *open* if it has neither an
/// integrity attribute nor FINGERPRINT, so attributes can be added to it.
///
/// - `begun`: a message that a builder has started is open, and has no attributes.
/// - `shown`: all attributes of an open message are visible.
/// - `added`: after an attribute was added to an open message, a reader finds the attributes that
///   the message had before, followed by the new one.
/// - `open`: the message is then still open, unless the new attribute is an integrity attribute or
///   FINGERPRINT.
/// - `spelled`: adding an attribute to a message gives the same bytes as writing a message that has
///   the new attribute after the others.
pub fn writing_adds_one_attribute()
    ensures begun { (message_type transaction_id : ℕ) → message_type < 2 ^ 14
        → IsOpen (spelled_message message_type transaction_id [])
        × (walk (spelled_message message_type transaction_id []) ≡ []) }
    ensures shown { (message : List ℕ) → IsOpen message → visible message ≡ walk message }
    ensures added { (message : List ℕ) (attribute : TypedValue)
        → IsOpen message → IsAddable message attribute
        → HasOneMore message (with_attribute message attribute) attribute }
    ensures open { (message : List ℕ) (attribute : TypedValue)
        → IsOpen message → IsAddable message attribute
        → is_set_apart attribute.kind ≡ false → IsOpen (with_attribute message attribute) }
    ensures spelled { (message_type transaction_id : ℕ) (attributes : List TypedValue)
        (attribute : TypedValue)
        → with_attribute (spelled_message message_type transaction_id attributes) attribute
        ≡ spelled_message message_type transaction_id (attributes ++ attribute ∷ []) }
{}

/// If an open message is signed, its signature is valid under the same key (`stands`), and the
/// integrity attribute is the only new attribute (`added`). The signature is also valid if each
/// algorithm has a key of its own, and the message is signed with the key of its algorithm
/// (`stands_by`). Premise: the attributes of the signed message have at most 65,532 bytes.
pub fn signed_message_stands()
    ensures stands { (message : List ℕ) (algorithm : IntegrityAlgorithm) (key : List ℕ)
        → IsOpen message → length_with message (digest_length algorithm) ≤ max_length
        → verified_algorithm (with_integrity message algorithm key) key ≡ Some algorithm }
    ensures stands_by { (message : List ℕ) (algorithm : IntegrityAlgorithm)
        (keys : IntegrityAlgorithm → List ℕ)
        → IsOpen message → length_with message (digest_length algorithm) ≤ max_length
        → verified_by keys (with_integrity message algorithm (keys algorithm)) ≡ Some algorithm }
    ensures added { (message : List ℕ) (algorithm : IntegrityAlgorithm) (key : List ℕ)
        → IsOpen message → length_with message (digest_length algorithm) ≤ max_length
        → HasOneMore message (with_integrity message algorithm key)
        (integrity_attribute message algorithm key) }
{}

/// Neither the length field nor the bytes after the deciding attribute affect whether a signature
/// is valid. The *deciding attribute* is the integrity attribute with which a message is verified.
/// Two messages are validated with the same result under the same keys if they have the same
/// deciding attribute at the same offset, and the same bytes before it except for the length field.
pub fn tail_does_not_count()
    ensures { (keys : IntegrityAlgorithm → List ℕ) (bytes others : List ℕ) (m : Member)
        → deciding bytes ≡ Some m → deciding others ≡ Some m
        → with_length (take m.0 bytes) 0 ≡ with_length (take m.0 others) 0
        → verified_by keys bytes ≡ verified_by keys others }
{}

/// No attribute after the deciding attribute is visible, except FINGERPRINT. The *deciding
/// attribute* is the integrity attribute with which a message is verified. Two messages that are
/// equal up to the end of the deciding attribute, except for the length field, have the same type
/// and transaction ID (`header`), the same result of validation (`verdict`), and the same visible
/// attributes except FINGERPRINT (`visible`). This holds whatever follows the deciding attribute in
/// each of them, unless a stronger integrity attribute follows (`appended`).
pub fn what_follows_integrity_is_hidden()
    ensures header { (bytes others : List ℕ) → AgreeUpToIntegrity bytes others
        → (type_field bytes ≡ type_field others)
        × (transaction_id_field bytes ≡ transaction_id_field others) }
    ensures visible { (bytes others : List ℕ) → AgreeUpToIntegrity bytes others
        → besides_fingerprint (visible bytes) ≡ besides_fingerprint (visible others) }
    ensures verdict { (keys : IntegrityAlgorithm → List ℕ) (bytes others : List ℕ)
        → AgreeUpToIntegrity bytes others → verified_by keys bytes ≡ verified_by keys others }
    ensures appended { (bytes others : List ℕ) (m : Member)
        → IsContinuedAnew bytes others m → AgreeUpToIntegrity bytes others }
{}
