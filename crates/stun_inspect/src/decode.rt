//! The command `decode`: the text that it prints for a message.
ghost use Rattle.std.specs.Prelude.{◌≡◌, false, IfOk, length, string_bytes};
ghost use Rattle.stun_cli.specs.Line.{has_line_feed, IsLine};
ghost use Rattle.stun_base.specs.Header.{header_refusal};
ghost use Rattle.stun_inspect.specs.Decode.{AreLinesOn, Describes, DescribesBeforeCut};
ghost use Rattle.stun_inspect.specs.Decode.{DescribesBeforeRefusal, DescribesRefused};
ghost use Rattle.stun_inspect.specs.Decode.{IsHeader, IsLineOn, NAME_LENGTH};
ghost use Rattle.stun_inspect.specs.Names.{IsName};

use crate::fingerprint::ending_of;
use crate::registry::{Form, attribute, attribute_name, method_name};
use crate::telling::{Told, tell};
use crate::value::{push_digits, push_value};
use std::alloc::{AllocError, Allocator};
use stun_cli::line::Line;
use stun_cli::verdict::refusal_line;
use stun_types::message::{
    MessageClass, MessageHeader, MessageType, StunParseError, TransactionId,
};

/// Returns the text that is printed for a message of this type and with this transaction ID: one
/// line each for its class, its method and its transaction ID, and then a line for each attribute.
/// For a truncated message, these are the attributes before the cut. Fails if an allocation fails.
pub fn describe<A: Allocator + Copy>(
    alloc: A,
    bytes: &[u8],
    kind: MessageType,
    id: TransactionId,
) -> Result<String<A>, AllocError>
    ensures { IfOk result (λ text. Describes bytes.now (string_bytes text)) }
{
    let told = tell(alloc, bytes)?;
    let lines = lines_on(alloc, bytes, told.as_slice(), id)?;
    let mut text = header_text(alloc, kind, id)?;
    text.push_str(lines.as_str())?;
    Ok(text)
}

/// Returns the text that is printed for bytes that are not a message: a line with the reason, and
/// before it, for a truncated message, the text for the part before the cut. Fails if an allocation
/// fails.
pub fn describe_refused<A: Allocator + Copy>(
    alloc: A,
    bytes: &[u8],
    error: StunParseError,
) -> Result<String<A>, AllocError>
    ensures { IfOk result (λ text. DescribesRefused error bytes.now (string_bytes text)) }
{
    let mut text = describe_before_refusal(alloc, bytes, error)?;
    text.push_str(refusal_line(error))?;
    Ok(text)
}

fn describe_before_refusal<A: Allocator + Copy>(
    alloc: A,
    bytes: &[u8],
    error: StunParseError,
) -> Result<String<A>, AllocError>
    ensures { IfOk result (λ text.
        DescribesBeforeRefusal error bytes.now (string_bytes text)) }
{
    match error {
        StunParseError::Truncated => describe_before_cut(alloc, bytes),
        StunParseError::NotStun => Ok(String::new(alloc)),
        StunParseError::TooLarge => Ok(String::new(alloc)),
        StunParseError::MissingAttribute(_) => Ok(String::new(alloc)),
        StunParseError::InvalidAttributeData => Ok(String::new(alloc)),
    }
}

/// Returns the text that is printed for the part of a truncated message before its cut. The text is
/// empty if the header is cut.
fn describe_before_cut<A: Allocator + Copy>(alloc: A, bytes: &[u8]) -> Result<String<A>, AllocError>
    ensures { IfOk result (λ text.
        DescribesBeforeCut (header_refusal bytes.now) bytes.now (string_bytes text)) }
{
    match MessageHeader::from_bytes(bytes) {
        Ok(header) => describe(alloc, bytes, header.get_type(), header.transaction_id()),
        Err(_) => Ok(String::new(alloc)),
    }
}

/// Returns the name of a class.
pub fn class_name(class: MessageClass) -> &'static str
    ensures { has_line_feed result.now ≡ false }
{
    match class {
        MessageClass::Request => "request",
        MessageClass::Indication => "indication",
        MessageClass::Success => "success response",
        MessageClass::Error => "error response",
    }
}

/// Returns the lines for the header.
fn header_text<A: Allocator + Copy>(
    alloc: A,
    kind: MessageType,
    id: TransactionId,
) -> Result<String<A>, AllocError>
    ensures { IfOk result (λ text. IsHeader (string_bytes text)) }
{
    let class = class_name(kind.class());
    let first = header_line(alloc, "class", class)?;
    let method = method_text(alloc, kind.method().value())?;
    let second = header_line(alloc, "method", method.as_str())?;
    let mut digits = Line::new(alloc);
    push_id(&mut digits, id)?;
    let third = header_line(alloc, "id", digits.as_str())?;
    let text = format!(in alloc; "{first}{second}{third}")?;
    Ok(text)
}

/// Appends the 24 digits of a transaction ID.
pub fn push_id<A: Allocator + Copy>(
    line: &mut Line<A>,
    id: TransactionId,
) -> Result<(), AllocError> {
    let bytes = id.as_u128().to_be_bytes();
    push_digits(line, &bytes[4..])?;
    Ok(())
}

/// Returns the line for a field of the header.
fn header_line<A: Allocator + Copy>(
    alloc: A,
    name: &str,
    value: &str,
) -> Result<String<A>, AllocError>
    requires name { IsName name.now }
    requires value { has_line_feed value.now ≡ false }
    ensures { IfOk result (λ line. IsLine (string_bytes line)) }
{
    let mut line = column_of(alloc, name)?;
    line.push(' ')?;
    line.push_str(value)?;
    line.end()
}

/// Returns the name and the number of a method.
fn method_text<A: Allocator + Copy>(alloc: A, method: u16) -> Result<Line<A>, AllocError> {
    let mut line = Line::new(alloc);
    line.push_str(method_name(method))?;
    line.push(' ')?;
    push_method_number(&mut line, method)?;
    Ok(line)
}

/// Appends the number of a method as three hexadecimal digits.
pub fn push_method_number<A: Allocator + Copy>(
    line: &mut Line<A>,
    method: u16,
) -> Result<(), AllocError> {
    let [high, low] = method.to_be_bytes();
    line.push_str("0x")?;
    line.push_hexadecimal(u32::from(high))?;
    line.push_byte(low)
}

/// Returns a line for each attribute of a message.
fn lines_on<A: Allocator + Copy>(
    alloc: A,
    message: &[u8],
    told: &[Told<'_>],
    id: TransactionId,
) -> Result<String<A>, AllocError>
    ensures { IfOk result (λ text. AreLinesOn message.now told.now (string_bytes text)) }
{
    let mut text = String::new(alloc);
    for attribute in told {
        let line = line_on(alloc, message, attribute, id)?;
        text.push_str(line.as_str())?;
    }
    Ok(text)
}

/// Returns the line for an attribute of a message.
fn line_on<A: Allocator + Copy>(
    alloc: A,
    message: &[u8],
    told: &Told<'_>,
    id: TransactionId,
) -> Result<String<A>, AllocError>
    ensures { IfOk result (λ line. IsLineOn message.now told.now (string_bytes line)) }
{
    let kind = told.attribute.get_type();
    let (name, form) = match attribute(kind.value()) {
        Some(registered) => (registered.name, registered.form),
        None => ("unregistered", Form::Bytes),
    };
    let column = column_of(alloc, name)?;
    let name = column.as_str();
    let end = rest_of_line(alloc, told, form, id)?;
    let rest = end.as_str();
    let place = told.place;
    let ending = ending_of(message, told);
    let line = format!(in alloc; "{name} {kind} at {place} {rest}{ending}\n")?;
    Ok(line)
}

/// The width of the column of names: the length of the longest name.
const NAME_LENGTH: usize = 28;

/// Returns a name, padded with blanks to the width of its column.
fn column_of<A: Allocator + Copy>(alloc: A, name: &str) -> Result<Line<A>, AllocError>
    requires { IsName name.now }
    ensures { IfOk result (λ column. length (string_bytes column.text) ≡ NAME_LENGTH) }
{
    let mut column = Line::new(alloc);
    column.push_str(name)?;
    for _place in name.len()..NAME_LENGTH {
        column.push(' ')?;
    }
    Ok(column)
}

/// Returns the blanks that pad a number to the width of its column, which is five digits.
fn blanks_beside(number: usize) -> &'static str
    ensures { has_line_feed result.now ≡ false }
{
    match number {
        0..=9 => "    ",
        10..=99 => "   ",
        100..=999 => "  ",
        1000..=9999 => " ",
        _ => "",
    }
}

/// Returns the rest of an attribute's line, after its name, its type and its offset: the length of
/// the value, the earlier attribute that makes this one invisible, if there is one, and the value.
fn rest_of_line<A: Allocator + Copy>(
    alloc: A,
    told: &Told<'_>,
    form: Form,
    id: TransactionId,
) -> Result<Line<A>, AllocError> {
    let length = told.attribute.length();
    let mut rest = Line::new(alloc);
    rest.push_str(blanks_beside(told.place))?;
    rest.push_str(blanks_beside(length))?;
    rest.push_number(length as u64)?;
    rest.push_str(" bytes  ")?;
    if let Some(hider) = told.hidden_by {
        rest.push_str("hidden by ")?;
        rest.push_str(attribute_name(hider.value()))?;
        rest.push_str(": ")?;
    }
    push_value(&mut rest, form, told.attribute.value(), id)?;
    Ok(rest)
}
