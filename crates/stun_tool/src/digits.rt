//! Parses bytes that are written as hexadecimal digits.
ghost use Rattle.std.specs.Prelude.{◌≡◌, IfOk, option_map};
ghost use Rattle.stun_tool.specs.Input.{digits_of, bytes_read};

use hex::FromHexError;
use std::alloc::{AllocError, Allocator};
use stun_cli::failure::Failure;

/// Returns the input without its white space: spaces, tabs, line feeds, form feeds and carriage
/// returns.
fn digits<A: Allocator>(alloc: A, input: &[u8]) -> Result<Vec<u8, A>, AllocError>
    ensures { IfOk result (λ digits. digits.items ≡ digits_of input.now) }
{
    input
        .iter()
        .copied()
        .filter(|byte| !matches!(*byte, b' ' | b'\t' | b'\n' | 0x0c | b'\r'))
        .collect(alloc)
}

/// Parses bytes that are written as hexadecimal digits, two of either case for each byte, with
/// white space anywhere. Returns `None` if the input has any other character, or an odd number of
/// digits.
///
/// # Errors
///
/// `Memory`: an allocation failed.
pub fn read_digits<A: Allocator + Copy>(
    alloc: A,
    input: &[u8],
) -> Result<Option<Vec<u8, A>>, Failure>
    ensures { IfOk result (λ read. option_map (λ bytes. bytes.items) read ≡ bytes_read input.now) }
{
    let digits = digits(alloc, input)?;
    match hex::decode(alloc, digits.as_slice()) {
        Ok(bytes) => Ok(Some(bytes)),
        Err(FromHexError::OutOfMemory) => Err(Failure::Memory),
        Err(_) => Ok(None),
    }
}
