//! Answers a request with unknown attributes at a server, and handles a response with unknown
//! attributes at a client (RFC 8489, sections 6.3.1, 6.3.3 and 6.3.4).
ghost use Rattle.std.specs.Prelude.{◌≡◌, ◌≤◌, ◌<◌, ◌↔◌, [], Ok, None, IfOk, IfSome};
ghost use Rattle.std.specs.Prelude.{IsErrOf, IsOk, IsOkUnless, IsSome, IsTrue, length};
ghost use Rattle.stun_base.specs.Attributes.{ERROR_CODE};
ghost use Rattle.stun_types.specs.Integrity.{first_of};
ghost use Rattle.stun_types.specs.Limits.{LENGTH_LIMIT};
ghost use Rattle.stun_types.specs.Visible.{visible};
ghost use Rattle.stun_types.specs.Writing.{IsOpen};
ghost use Rattle.stun_extra.specs.Unknown.{EndsFailed, IsRefused, refusing_answer};

use crate::unknown::attribute::count_unknown;
use crate::unknown::{UnknownAttributes, has_unknown};
use stun_base::attribute_type::AttributeType;
use stun_base::error::StunWriteError;
use stun_base::header::HEADER_LENGTH;
use stun_base::message_type::MessageClass;
use stun_types::attribute::{ErrorCode, RawAttribute, attribute_length};
use stun_types::message::Message;
use stun_types::prelude::*;

/// The code of the error response to a request with unknown attributes (RFC 8489, section 14.8).
pub const UNKNOWN_ATTRIBUTE: u16 = 420;

/// The number of bytes of an ERROR-CODE with this code and its reason phrase.
const ERROR_LENGTH: usize = 28;

/// Writes the error response to a request with unknown attributes: it has the code 420 and
/// UNKNOWN-ATTRIBUTES (RFC 8489, section 6.3.1). `writer` must be empty. You can add attributes to
/// the response and sign it.
///
/// Returns `None`, and drops the writer, if the message is not a request, or if `known` has the
/// types of all its visible attributes that the server must understand.
///
/// # Errors
///
/// The first of these that applies. The writer is then dropped.
///
/// - [`StunWriteError::TooSmall`]: the writer does not have enough room for the response.
/// - [`StunWriteError::OutOfMemory`]: an allocation failed.
pub fn answer_unknown<W: MessageWrite>(
    request: &Message<'_>,
    known: &[AttributeType],
    writer: W,
) -> Result<Option<W>, StunWriteError>
    requires { W.bytes writer ≡ [] }
    ensures passed { (IsRefused known.now request.now → ⊥) → result ≡ Ok None }
    ensures answered { IfOk result (λ answer. IsRefused known.now request.now → IsSome answer) }
    ensures bytes { IfOk result (λ answer. IfSome answer (λ built. W.bytes built
        ≡ refusing_answer known.now request.now)) }
    ensures open { IfOk result (λ answer. IfSome answer (λ built. IsOpen (W.bytes built))) }
    ensures too_small { IsErrOf result StunWriteError.TooSmall
        ↔ (IsRefused known.now request.now
        × (W.room writer < length (refusing_answer known.now request.now))) }
    ensures otherwise_memory { length (refusing_answer known.now request.now) ≤ W.room writer
        → IsOkUnless result StunWriteError.OutOfMemory }
    ensures granted { W.grants → length (refusing_answer known.now request.now) ≤ W.room writer
        → IsOk result }
{
    if !request.has_class(MessageClass::Request) || !has_unknown(request, known) {
        return Ok(None);
    }
    Ok(Some(write_refusal(request, known, writer)?))
}

/// Writes the error response to a request with unknown attributes.
fn write_refusal<W: MessageWrite>(
    request: &Message<'_>,
    known: &[AttributeType],
    writer: W,
) -> Result<W, StunWriteError>
    requires { W.bytes writer ≡ [] }
    ensures bytes { IfOk result (λ built. W.bytes built ≡ refusing_answer known.now request.now) }
    ensures open { IfOk result (λ built. IsOpen (W.bytes built)) }
    ensures too_small { IsErrOf result StunWriteError.TooSmall
        ↔ (W.room writer < length (refusing_answer known.now request.now)) }
    ensures otherwise_memory { length (refusing_answer known.now request.now) ≤ W.room writer
        → IsOkUnless result StunWriteError.OutOfMemory }
    ensures granted { W.grants → length (refusing_answer known.now request.now) ≤ W.room writer
        → IsOk result }
{
    if writer.room() < count_refusal_bytes(request, known) {
        return Err(StunWriteError::TooSmall);
    }
    write_parts(request, known, writer)
}

/// Writes the header, ERROR-CODE and UNKNOWN-ATTRIBUTES of the response. If they fit, only an
/// allocation can fail.
fn write_parts<W: MessageWrite>(
    request: &Message<'_>,
    known: &[AttributeType],
    writer: W,
) -> Result<W, StunWriteError>
    requires { W.bytes writer ≡ [] }
    ensures bytes { IfOk result (λ built. W.bytes built ≡ refusing_answer known.now request.now) }
    ensures open { IfOk result (λ built. IsOpen (W.bytes built)) }
    ensures otherwise_memory { length (refusing_answer known.now request.now) ≤ W.room writer
        → length (refusing_answer known.now request.now) ≤ LENGTH_LIMIT
        → IsOkUnless result StunWriteError.OutOfMemory }
    ensures granted { W.grants → length (refusing_answer known.now request.now) ≤ W.room writer
        → length (refusing_answer known.now request.now) ≤ LENGTH_LIMIT → IsOk result }
{
    let error = ErrorCode::builder(UNKNOWN_ATTRIBUTE)
        .reason("Unknown Attribute")
        .build()?;
    let mut answer = Message::builder_error(request, writer)?;
    answer.add_attribute(&error)?;
    answer.add_attribute(&UnknownAttributes::of(request, known))?;
    Ok(answer)
}

/// Returns the number of bytes of the response that `write_refusal` writes.
fn count_refusal_bytes(request: &Message<'_>, known: &[AttributeType]) -> usize
    ensures value { result ≡ length (refusing_answer known.now request.now) }
    ensures short { result ≤ LENGTH_LIMIT }
{
    HEADER_LENGTH + ERROR_LENGTH + attribute_length(2 * count_unknown(request, known))
}

/// Returns `true` if a response makes its request fail, whatever else it contains (RFC 8489,
/// sections 6.3.3 and 6.3.4).
///
/// A response does so if it has a visible attribute that the client must understand and whose type
/// is not in `known`, or if it is an error response without ERROR-CODE.
pub fn ends_failed(response: &Message<'_>, known: &[AttributeType]) -> bool
    ensures { IsTrue result ↔ EndsFailed known.now response.now }
{
    if has_unknown(response, known) {
        return true;
    }
    response.has_class(MessageClass::Error) && find_error_code(response).is_none()
}

/// Returns the first visible ERROR-CODE of a message and its offset.
fn find_error_code<'a>(message: &Message<'a>) -> Option<(usize, RawAttribute<'a>)>
    ensures { result ≡ first_of ERROR_CODE (visible message.now) }
{
    message
        .iter_attributes()
        .find(|found| found.1.get_type() == AttributeType::ERROR_CODE)
}
