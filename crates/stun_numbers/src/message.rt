//! Reads the message at the front of the buffer that a caller passes.

ghost use Rattle.std.specs.Prelude.{◌≡◌, ◌≤◌, length, take, IfOk, IfErr, OnOk, Some, None};
ghost use Rattle.stun_types.specs.Writing.{is_set_apart};
ghost use Rattle.stun_numbers.specs.Messages.{base_refusal, is_closed};

use crate::refusal::Refusal;
use stun_base::attribute_type::AttributeType;
use stun_types::message::Message;

/// Returns `true` if attributes of this type are written only by calls of their own:
/// MESSAGE-INTEGRITY, MESSAGE-INTEGRITY-SHA256 and FINGERPRINT.
pub fn is_set_apart(kind: AttributeType) -> bool
    ensures { result ≡ is_set_apart kind.0 }
{
    kind == AttributeType::MESSAGE_INTEGRITY
        || kind == AttributeType::MESSAGE_INTEGRITY_SHA256
        || kind == AttributeType::FINGERPRINT
}

/// Returns `true` if the message has MESSAGE-INTEGRITY, MESSAGE-INTEGRITY-SHA256 or FINGERPRINT,
/// after which no ordinary attribute may be added.
pub fn is_closed(message: &Message<'_>) -> bool
    ensures { result ≡ is_closed message.now }
{
    message
        .iter_attributes()
        .find(|found| is_set_apart(found.1.get_type()))
        .is_some()
}

/// Parses the message in the first `count` bytes of a buffer, so that the caller can add an
/// attribute to it.
///
/// # Errors
///
/// The first of these that applies:
///
/// - `BadArgument`: the buffer has fewer than `count` bytes.
/// - The errors of `Message::from_bytes`.
/// - `Closed`: the message has an integrity attribute, which only FINGERPRINT may follow, or
///   FINGERPRINT, which must be the last attribute.
pub fn base_message(buffer: &[u8], count: usize) -> Result<Message<'_>, Refusal>
    ensures ok { IfOk result (λ message. message ≡ take count buffer.now) }
    ensures within { OnOk result (count ≤ length buffer.now) }
    ensures accepted { OnOk result (base_refusal buffer.now count ≡ None) }
    ensures err { IfErr result (λ refusal. base_refusal buffer.now count ≡ Some refusal) }
{
    let Some(bytes) = buffer.get(..count) else {
        return Err(Refusal::BadArgument);
    };
    let message = Message::from_bytes(bytes)?;
    if is_closed(&message) {
        return Err(Refusal::Closed);
    }
    Ok(message)
}
