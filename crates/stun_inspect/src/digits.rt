//! Parses hexadecimal digits without offsets.

use crate::failure::{BadInput, Failure, Wanted};
use std::alloc::Allocator;

/// Returns the value of a hexadecimal digit.
pub fn digit(byte: u8) -> Option<u8> {
    match byte {
        b'0'..=b'9' => Some(byte - b'0'),
        b'a'..=b'f' => Some(byte - b'a' + 10),
        b'A'..=b'F' => Some(byte - b'A' + 10),
        _ => None,
    }
}

/// Returns the byte with these two hexadecimal digits.
pub fn byte_of(high: u8, low: u8) -> u8 {
    (high << 4) | low
}

/// The state of a parser within a sequence of digits.
#[derive(Clone, Copy, Debug)]
struct Run {
    /// The first digit of a byte whose second digit has not been read yet.
    high: Option<u8>,
    /// Whether the digit in `high` is a zero, so that an `x` may follow it.
    may_be_prefix: bool,
    /// Whether the next digit is at the beginning of a word.
    is_at_word: bool,
}

/// The result of reading one byte of the input.
enum Step {
    Byte(u8),
    Nothing,
    Wrong(Wanted),
}

impl Run {
    const BEGUN: Run = Run {
        high: None,
        may_be_prefix: false,
        is_at_word: true,
    };

    /// Reads the next byte of the input.
    fn take(&mut self, byte: u8) -> Step {
        if let Some(low) = digit(byte) {
            return self.take_digit(low);
        }
        if byte.is_ascii_whitespace() {
            self.is_at_word = true;
            self.may_be_prefix = false;
            return Step::Nothing;
        }
        if (byte == b'x' || byte == b'X') && self.may_be_prefix {
            *self = Run::BEGUN;
            return Step::Nothing;
        }
        if self.high.is_some() {
            return Step::Wrong(Wanted::SecondDigit);
        }
        if byte == b':' {
            *self = Run::BEGUN;
            return Step::Nothing;
        }
        Step::Wrong(Wanted::Digit)
    }

    fn take_digit(&mut self, low: u8) -> Step {
        match self.high {
            Some(high) => {
                self.high = None;
                self.may_be_prefix = false;
                self.is_at_word = false;
                Step::Byte(byte_of(high, low))
            }
            None => {
                self.high = Some(low);
                self.may_be_prefix = self.is_at_word && low == 0;
                self.is_at_word = false;
                Step::Nothing
            }
        }
    }
}

/// Parses hexadecimal digits, two digits of either case for each byte. White space may be anywhere,
/// a colon may follow each byte, and `0x` may precede each byte at the start of a word.
pub fn read_plain<A: Allocator>(alloc: A, text: &str) -> Result<Vec<u8, A>, Failure> {
    let mut bytes = Vec::new(alloc);
    let mut run = Run::BEGUN;
    let mut line: usize = 1;
    let mut column: usize = 1;
    for byte in text.bytes() {
        match run.take(byte) {
            Step::Byte(read) => push(&mut bytes, read)?,
            Step::Nothing => {}
            Step::Wrong(wanted) => return Err(bad_input(line, column, wanted)),
        }
        column = column.saturating_add(1);
        if byte == b'\n' {
            line = line.saturating_add(1);
            column = 1;
        }
    }
    if run.high.is_some() {
        return Err(bad_input(line, column, Wanted::SecondDigit));
    }
    if bytes.is_empty() {
        return Err(bad_input(line, column, Wanted::Bytes));
    }
    Ok(bytes)
}

/// Appends one byte.
pub fn push<A: Allocator>(bytes: &mut Vec<u8, A>, byte: u8) -> Result<(), Failure> {
    match bytes.push(byte) {
        Ok(()) => Ok(()),
        Err(_) => Err(Failure::Memory),
    }
}

/// Creates the failure for a position in the input at which `wanted` was expected.
pub fn bad_input(line: usize, column: usize, wanted: Wanted) -> Failure {
    Failure::Input(BadInput {
        line,
        column,
        wanted,
    })
}
