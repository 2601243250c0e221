//! Decodes texts with one message in each line, as `tshark -T fields -e udp.payload` prints them.

use crate::digits::bad_input;
use crate::failure::Failure;
use crate::layout::{Spelled, is_raw, message_of, push_spelled, read_digits};
use byteorder::{BigEndian, ByteOrder};
use std::alloc::Allocator;
use stun_base::header::HEADER_LENGTH;

/// Returns whether the bytes, or their UDP payload, have the length that the header of the message
/// states.
fn is_whole(bytes: &[u8]) -> bool {
    let Ok(message) = message_of(bytes) else {
        return false;
    };
    is_raw(message)
        && message.len() >= HEADER_LENGTH
        && usize::from(BigEndian::read_u16(&message[2..])) == message.len() - HEADER_LENGTH
}

/// Returns whether a text encodes a whole message. Fails if an allocation fails.
fn spells_whole<A: Allocator + Copy>(alloc: A, text: &str) -> Result<bool, Failure> {
    match read_digits(alloc, text) {
        Ok(bytes) => Ok(is_whole(bytes.as_slice())),
        Err(Failure::Memory) => Err(Failure::Memory),
        Err(_) => Ok(false),
    }
}

/// Returns whether each line of a text must be read separately: at least one line encodes a whole
/// message, but the whole text does not. Fails if an allocation fails.
pub fn has_lines<A: Allocator + Copy>(alloc: A, text: &str) -> Result<bool, Failure> {
    if spells_whole(alloc, text)? {
        return Ok(false);
    }
    for line in text.split('\n') {
        if spells_whole(alloc, line)? {
            return Ok(true);
        }
    }
    Ok(false)
}

/// Decodes the message in each line that is not blank.
pub fn read_lines<A: Allocator + Copy>(
    alloc: A,
    text: &str,
) -> Result<Vec<Spelled<A>, A>, Failure> {
    let mut spelled = Vec::new(alloc);
    let mut number: usize = 0;
    for line in text.split('\n') {
        number = number.saturating_add(1);
        if !line.trim_start().is_empty() {
            let bytes = read_line(alloc, line, number)?;
            push_spelled(&mut spelled, number, bytes)?;
        }
    }
    Ok(spelled)
}

/// Decodes the message in a line.
fn read_line<A: Allocator + Copy>(
    alloc: A,
    line: &str,
    number: usize,
) -> Result<Vec<u8, A>, Failure> {
    match read_digits(alloc, line) {
        Err(Failure::Input(bad)) => Err(bad_input(number, bad.column, bad.wanted)),
        read => read,
    }
}
