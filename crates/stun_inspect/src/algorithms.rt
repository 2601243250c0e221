//! Writes the values of PASSWORD-ALGORITHM and PASSWORD-ALGORITHMS as text (RFC 8489, sections
//! 14.11 and 14.12). Each function returns `false`, and appends nothing, if the value is malformed.

use crate::value::push_digits;
use captures::numbers::{Order, number_16};
use std::alloc::{AllocError, Allocator};
use stun_cli::line::Line;

/// A password algorithm with its parameters, at the front of a value.
#[derive(Clone, Copy)]
struct Entry<'a> {
    number: u16,
    parameters: &'a [u8],
    /// The bytes after the parameters and their padding.
    rest: &'a [u8],
}

/// Returns the algorithm at the front of a value. Returns `None` if it is not whole, or if it is
/// MD5 or SHA-256 with parameters, because these two algorithms have none (RFC 8489, section
/// 18.5.1).
fn entry_of(value: &[u8]) -> Option<Entry<'_>> {
    let number = number_16(Order::Big, value, 0)?;
    let length = usize::from(number_16(Order::Big, value, 2)?);
    let behind = value.get(4..)?;
    let parameters = behind.get(..length)?;
    let rest = behind.get(length.next_multiple_of(4)..)?;
    if (number == 1 || number == 2) && length > 0 {
        return None;
    }
    Some(Entry {
        number,
        parameters,
        rest,
    })
}

/// Returns whether a value is a list of whole algorithms.
fn is_list(value: &[u8]) -> bool {
    let mut rest = value;
    for _entry in 0..value.len() {
        if rest.is_empty() {
            return true;
        }
        match entry_of(rest) {
            Some(entry) => rest = entry.rest,
            None => return false,
        }
    }
    rest.is_empty()
}

/// Appends the name of an algorithm, or its number if the algorithm is unknown, and its parameters.
fn push_entry<A: Allocator + Copy>(line: &mut Line<A>, entry: Entry<'_>) -> Result<(), AllocError> {
    let number = entry.number;
    match number {
        1 => line.push_str("MD5")?,
        2 => line.push_str("SHA-256")?,
        _ => {
            line.push_str("0x")?;
            push_digits(line, &number.to_be_bytes())?;
        }
    }
    if !entry.parameters.is_empty() {
        line.push_str(" with ")?;
        push_digits(line, entry.parameters)?;
    }
    Ok(())
}

/// Appends the algorithm of PASSWORD-ALGORITHM.
pub fn push_algorithm<A: Allocator + Copy>(
    line: &mut Line<A>,
    value: &[u8],
) -> Result<bool, AllocError> {
    match entry_of(value) {
        Some(entry) if entry.rest.is_empty() => {
            push_entry(line, entry)?;
            Ok(true)
        }
        _ => Ok(false),
    }
}

/// Appends the algorithms of PASSWORD-ALGORITHMS.
pub fn push_algorithms<A: Allocator + Copy>(
    line: &mut Line<A>,
    value: &[u8],
) -> Result<bool, AllocError> {
    if !is_list(value) {
        return Ok(false);
    }
    if value.is_empty() {
        line.push_str("none")?;
    }
    let mut rest = value;
    for count in 0..value.len() {
        let Some(entry) = entry_of(rest) else {
            break;
        };
        if count > 0 {
            line.push_str(", ")?;
        }
        push_entry(line, entry)?;
        rest = entry.rest;
    }
    Ok(true)
}
