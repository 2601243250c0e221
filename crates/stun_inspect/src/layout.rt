//! Decodes the messages in a text, which has one of three layouts: hex dumps with offsets, one
//! message in each line, or one message in the whole text.
ghost use Rattle.std.specs.Prelude.{◌≡◌, ◌≤◌, IfOk, true, length};
ghost use Rattle.stun_types.specs.Limits.{LENGTH_LIMIT};
ghost use Rattle.stun_inspect.specs.Input.{is_raw};

use crate::digits::{bad_input, read_plain};
use crate::dump::{has_dump, read_dumps};
use crate::failure::{Failure, Wanted};
use crate::lines::{has_lines, read_lines};
use base64::DecodeAllocError;
use base64::engine::general_purpose::STANDARD;
use byteorder::{BigEndian, ByteOrder};
use captures::internet::Carried;
use captures::link::{ETHERNET, RAW, carried};
use std::alloc::{AllocError, Allocator};
use stun_base::header::MAGIC_COOKIE;
use stun_types::limits::LENGTH_LIMIT;

/// A part of a text, and the bytes that it encodes.
#[derive(Drop)]
pub struct Spelled<A: Allocator> {
    /// The line at which the part begins, counted from 1.
    pub line: usize,
    pub bytes: Vec<u8, A>,
}

/// Returns whether the bytes are read as a raw message: the first two bits are zero, and the magic
/// cookie begins at byte 4.
pub fn is_raw(bytes: &[u8]) -> bool
    ensures { result ≡ is_raw bytes.now }
{
    bytes.len() >= 8
        && BigEndian::read_u16(bytes) < 0x4000
        && BigEndian::read_u32(&bytes[4..]) == MAGIC_COOKIE
}

/// Returns the bytes that may be a message. If `bytes` do not begin like a message, but are a
/// packet that carries UDP, returns the payload of the datagram. Otherwise returns `bytes`. Fails
/// if the result would have more than 65552 bytes.
pub fn message_of(bytes: &[u8]) -> Result<&[u8], Failure>
    ensures limit { IfOk result (λ message. length message.now ≤ LENGTH_LIMIT) }
    ensures raw { is_raw bytes.now ≡ true → IfOk result (λ message. message.now ≡ bytes.now) }
{
    if is_raw(bytes) {
        return within_limit(bytes);
    }
    within_limit(payload(bytes))
}

/// Returns the bytes. Fails if there are more than 65552, the limit of a message.
pub fn within_limit(bytes: &[u8]) -> Result<&[u8], Failure>
    ensures limit { IfOk result (λ same. length same.now ≤ LENGTH_LIMIT) }
    ensures same { IfOk result (λ same. same.now ≡ bytes.now) }
{
    if bytes.len() > LENGTH_LIMIT {
        return Err(bad_input(1, 1, Wanted::EndOfMessage));
    }
    Ok(bytes)
}

/// Returns the UDP payload, if the bytes are an IPv4 or IPv6 packet or an Ethernet frame that
/// carries UDP. Otherwise returns the bytes themselves.
fn payload(bytes: &[u8]) -> &[u8] {
    if let Some(Carried::Udp(datagram)) = carried(RAW, bytes) {
        return datagram.payload;
    }
    match carried(ETHERNET, bytes) {
        Some(Carried::Udp(datagram)) => datagram.payload,
        _ => bytes,
    }
}

/// Decodes the messages in a text: its dumps with offsets, one message in each line, or one message
/// in the whole text. Lines and whole texts are hexadecimal digits or base64. Fails if an
/// allocation fails, or if the text does not encode bytes.
pub fn read_text<A: Allocator + Copy>(
    alloc: A,
    input: &[u8],
) -> Result<Vec<Spelled<A>, A>, Failure> {
    let Ok(text) = str::from_utf8(input) else {
        return Err(bad_text(input));
    };
    if has_dump(text) {
        return read_dumps(alloc, text);
    }
    if has_lines(alloc, text)? {
        return read_lines(alloc, text);
    }
    let bytes = read_digits(alloc, text)?;
    let mut spelled = Vec::new(alloc);
    push_spelled(&mut spelled, 1, bytes)?;
    Ok(spelled)
}

/// Appends the bytes that the part of a text at `line` encodes.
pub fn push_spelled<A: Allocator + Copy>(
    spelled: &mut Vec<Spelled<A>, A>,
    line: usize,
    bytes: Vec<u8, A>,
) -> Result<(), Failure> {
    match spelled.push(Spelled { line, bytes }) {
        Ok(()) => Ok(()),
        Err(_) => Err(Failure::Memory),
    }
}

/// Parses a text as hexadecimal digits or, if it has any other form, as base64 whose bytes begin
/// like a message. If neither form fits, fails with the error for the hexadecimal digits.
pub fn read_digits<A: Allocator + Copy>(alloc: A, text: &str) -> Result<Vec<u8, A>, Failure> {
    match read_plain(alloc, text) {
        Err(Failure::Input(bad)) => match read_base64(alloc, text.as_bytes())? {
            Some(bytes) => Ok(bytes),
            None => Err(Failure::Input(bad)),
        },
        read => read,
    }
}

/// Returns the failure for an input that is not UTF-8, at the position of its first byte that is
/// not ASCII.
fn bad_text(input: &[u8]) -> Failure {
    let mut line: usize = 1;
    let mut column: usize = 1;
    for byte in input {
        if !byte.is_ascii() {
            break;
        }
        column = column.saturating_add(1);
        if *byte == b'\n' {
            line = line.saturating_add(1);
            column = 1;
        }
    }
    bad_input(line, column, Wanted::Text)
}

/// Parses base64 with white space anywhere. Returns `None` if the text is not base64, or its bytes
/// do not begin like a message.
fn read_base64<A: Allocator + Copy>(
    alloc: A,
    input: &[u8],
) -> Result<Option<Vec<u8, A>>, AllocError> {
    let letters: Vec<u8, A> = input
        .iter()
        .copied()
        .filter(|byte| !byte.is_ascii_whitespace())
        .collect(alloc)?;
    match STANDARD.decode(alloc, letters.as_slice()) {
        Ok(bytes) => {
            if is_raw(bytes.as_slice()) {
                Ok(Some(bytes))
            } else {
                Ok(None)
            }
        }
        Err(DecodeAllocError::OutOfMemory) => Err(AllocError),
        Err(_) => Ok(None),
    }
}
