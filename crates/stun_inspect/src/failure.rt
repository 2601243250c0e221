//! The errors of the commands.

use captures::damage::Damage;
use std::alloc::AllocError;
use std::fmt;

/// The greatest number of bytes of an input that is not a capture.
pub const INPUT_LIMIT: usize = 67_108_864;

/// Why a command has no result.
#[derive(Clone, Copy)]
pub enum Failure {
    /// A read or a write failed.
    Io,
    /// An allocation failed.
    Memory,
    /// The file cannot be opened.
    File,
    /// The input does not end within 67108864 bytes and 1048576 reads.
    NoEnd,
    /// The input is compressed by gzip.
    Gzip,
    /// The input has none of the formats that the command can read.
    Input(BadInput),
    /// The capture is damaged, and cannot be read further.
    Capture(Damage),
}

/// The position at which an input cannot be read, and what was expected there.
#[derive(Clone, Copy, Debug, PartialEq, Eq)]
pub struct BadInput {
    /// The line, counted from 1.
    pub line: usize,
    /// The position in the line in bytes, counted from 1.
    pub column: usize,
    /// What was expected.
    pub wanted: Wanted,
}

/// What was expected at a position of an input.
#[derive(Clone, Copy, Debug, PartialEq, Eq)]
pub enum Wanted {
    /// The bytes of a message.
    Bytes,
    /// Text, because the bytes are not a message.
    Text,
    /// A hexadecimal digit.
    Digit,
    /// The second hexadecimal digit of a byte.
    SecondDigit,
    /// The offset of the next row of a dump.
    Offset(usize),
    /// The end of the message, which has 65552 bytes already.
    EndOfMessage,
    /// A password in UTF-8.
    Password,
}

impl From<AllocError> for Failure {
    fn from(_error: AllocError) -> Failure {
        Failure::Memory
    }
}

impl From<stun_cli::failure::Failure> for Failure {
    fn from(failure: stun_cli::failure::Failure) -> Failure {
        match failure {
            stun_cli::failure::Failure::Io => Failure::Io,
            stun_cli::failure::Failure::Memory => Failure::Memory,
            stun_cli::failure::Failure::NoEnd => Failure::NoEnd,
        }
    }
}

impl From<captures::damage::Failure> for Failure {
    fn from(failure: captures::damage::Failure) -> Failure {
        match failure {
            captures::damage::Failure::Memory => Failure::Memory,
            captures::damage::Failure::Damage(damage) => Failure::Capture(damage),
        }
    }
}

impl fmt::Display for Wanted {
    fn fmt<W: fmt::Write>(&self, f: &mut fmt::Formatter<W>) -> fmt::Result {
        match self {
            Wanted::Bytes => f.write_str("the bytes of a message"),
            Wanted::Text => {
                f.write_str("text, a capture, or a message, which has 2112a442 at its byte 4")
            }
            Wanted::Digit => f.write_str("a hexadecimal digit"),
            Wanted::SecondDigit => f.write_str("the second hexadecimal digit of a byte"),
            Wanted::Offset(offset) => write!(f, "the offset {offset:04x} of a row, or the end"),
            Wanted::EndOfMessage => f.write_str("the end of a message of at most 65552 bytes"),
            Wanted::Password => f.write_str("a line with a password in UTF-8"),
        }
    }
}

impl fmt::Display for Failure {
    fn fmt<W: fmt::Write>(&self, f: &mut fmt::Formatter<W>) -> fmt::Result {
        match self {
            Failure::Io => f.write_str("a read or a write failed"),
            Failure::Memory => f.write_str("an allocation failed"),
            Failure::File => f.write_str("the file cannot be opened"),
            Failure::NoEnd => {
                f.write_str("the input does not end within 67108864 bytes and 1048576 reads")
            }
            Failure::Gzip => {
                f.write_str(
                    "the input is compressed with gzip: decompress it first, as gunzip does",
                )
            }
            Failure::Capture(damage) => write!(f, "{damage}"),
            Failure::Input(bad) => {
                let BadInput {
                    line,
                    column,
                    wanted,
                } = *bad;
                write!(
                    f,
                    "bad input at line {line}, column {column}: expected {wanted}"
                )
            }
        }
    }
}
