//! The command `list`: the line that it prints for a message.
ghost use Rattle.std.specs.Prelude.{◌≡◌, false, IfOk, string_bytes};
ghost use Rattle.stun_cli.specs.Line.{has_line_feed, IsLine};
ghost use Rattle.stun_inspect.specs.Found.{status_of_found};
ghost use Rattle.stun_inspect.specs.Listed.{status_of_refusal};
ghost use Rattle.stun_types.specs.Message.{refusal};

use crate::decode::{class_name, push_id, push_method_number};
use crate::found::Found;
use crate::registry::{attribute, method_name};
use crate::telling::{Told, tell};
use crate::value::read;
use std::alloc::{AllocError, Allocator};
use stun_base::header::HEADER_LENGTH;
use stun_cli::line::Line;
use stun_types::attribute::{AttributeType, ErrorCode, RawAttribute};
use stun_types::message::{Message, MessageHeader, StunParseError};

/// Returns the reason why the bytes are not a message, or `None` if they are a message.
pub fn refusal_of(bytes: &[u8]) -> Option<StunParseError>
    ensures { result ≡ refusal bytes.now }
{
    match Message::from_bytes(bytes) {
        Ok(_) => None,
        Err(error) => Some(error),
    }
}

/// Returns the finding for an input. `refusal` is the reason why the input is not a message, or
/// `None` if it is a message.
pub fn found_of(refusal: Option<StunParseError>) -> Found
    ensures { status_of_found result ≡ status_of_refusal refusal }
{
    match refusal {
        None => Found::Good,
        Some(_) => Found::NotAMessage,
    }
}

/// Returns the line for `bytes`. `refusal` is the reason why they are not a message, or `None` if
/// they are a message.
///
/// The line has class, method and transaction ID, and the name of each attribute, or its type if
/// the type has no name. The code of an ERROR-CODE follows the name. The line for a truncated
/// message has the attributes before the cut. Fails if an allocation fails.
pub fn line_of<A: Allocator + Copy>(
    alloc: A,
    bytes: &[u8],
    refusal: Option<StunParseError>,
) -> Result<String<A>, AllocError>
    ensures { IfOk result (λ line. IsLine (string_bytes line)) }
{
    let mut line = Line::new(alloc);
    match refusal {
        None => push_message(&mut line, alloc, bytes)?,
        Some(error) => push_refused(&mut line, alloc, bytes, error)?,
    }
    line.end()
}

/// Appends the reason why the bytes are not a message. For a truncated message, first appends the
/// part before the cut.
fn push_refused<A: Allocator + Copy>(
    line: &mut Line<A>,
    alloc: A,
    bytes: &[u8],
    error: StunParseError,
) -> Result<(), AllocError> {
    if error == StunParseError::Truncated && bytes.len() >= HEADER_LENGTH {
        push_message(line, alloc, bytes)?;
        line.push_str("; ")?;
    }
    line.push_str(refusal_text(error))
}

/// Returns the text for the reason why bytes are not a message.
fn refusal_text(error: StunParseError) -> &'static str
    ensures { has_line_feed result.now ≡ false }
{
    match error {
        StunParseError::Truncated => "not a message: truncated",
        StunParseError::NotStun => "not a message: not stun",
        StunParseError::TooLarge => "not a message: too large",
        StunParseError::MissingAttribute(_) => "not a message: missing attribute",
        StunParseError::InvalidAttributeData => "not a message: malformed attribute",
    }
}

/// Appends class, method, transaction ID and attributes of a message, or nothing if its header is
/// cut.
fn push_message<A: Allocator + Copy>(
    line: &mut Line<A>,
    alloc: A,
    bytes: &[u8],
) -> Result<(), AllocError> {
    let Ok(header) = MessageHeader::from_bytes(bytes) else {
        return Ok(());
    };
    let told = tell(alloc, bytes)?;
    line.push_str(class_name(header.get_type().class()))?;
    line.push(' ')?;
    push_method(line, header.get_type().method().value())?;
    line.push(' ')?;
    push_id(line, header.transaction_id())?;
    push_attributes(line, told.as_slice())
}

/// Appends the name of a method, or its number if it has no name.
fn push_method<A: Allocator + Copy>(line: &mut Line<A>, method: u16) -> Result<(), AllocError> {
    match method_name(method) {
        "unregistered" => push_method_number(line, method),
        name => line.push_str(name),
    }
}

/// Appends the type of an attribute as four hexadecimal digits.
fn push_type<A: Allocator + Copy>(line: &mut Line<A>, number: u16) -> Result<(), AllocError> {
    let [high, low] = number.to_be_bytes();
    line.push_str("0x")?;
    line.push_byte(high)?;
    line.push_byte(low)
}

/// Appends a list of attributes.
fn push_attributes<A: Allocator + Copy>(
    line: &mut Line<A>,
    told: &[Told<'_>],
) -> Result<(), AllocError> {
    for (index, attribute) in told.iter().enumerate() {
        line.push_str(separator_before(index))?;
        push_attribute(line, &attribute.attribute)?;
    }
    Ok(())
}

/// Returns the text that is printed before the attribute with this index.
fn separator_before(index: usize) -> &'static str
    ensures { has_line_feed result.now ≡ false }
{
    match index {
        0 => ": ",
        _ => ", ",
    }
}

/// Appends the name of an attribute, or its type if the type has no name, and the code of an
/// ERROR-CODE.
fn push_attribute<A: Allocator + Copy>(
    line: &mut Line<A>,
    raw: &RawAttribute<'_>,
) -> Result<(), AllocError> {
    let kind = raw.get_type();
    match attribute(kind.value()) {
        Some(registered) => line.push_str(registered.name)?,
        None => push_type(line, kind.value())?,
    }
    match code_of(raw) {
        Some(code) => {
            line.push(' ')?;
            line.push_number(u64::from(code))
        }
        None => Ok(()),
    }
}

/// Returns the code of an attribute, or `None` if the attribute is not a well-formed ERROR-CODE.
fn code_of(raw: &RawAttribute<'_>) -> Option<u16> {
    if raw.get_type() != AttributeType::ERROR_CODE {
        return None;
    }
    Some(read::<ErrorCode>(raw.value())?.code())
}
