//! The letters of a nonce: A to Z, a to z, 0 to 9.

ghost use Rattle.std.specs.Prelude.{◌≡◌, ◌+◌, ◌++◌, ◌^◌, ◌≤◌, [], IfOk, IsOk, OnOk, map};
ghost use Rattle.std.specs.String.{string_bytes, string_capacity, string_len};
ghost use Rattle.stun_judging.specs.Nonces.{letter};

use std::alloc::{AllocError, Allocator};
use stun_base::memory::Memory;

/// Returns the letter for a number, which depends only on the number modulo 62.
fn to_letter(number: u32) -> u8
    ensures { result ≡ letter number }
{
    // A compiler can vectorize these comparisons, but not a look-up in a table.
    let n = (number % 62) as u8;
    if n < 26 {
        b'A' + n
    } else if n < 52 {
        b'a' + (n - 26)
    } else {
        b'0' + (n - 52)
    }
}

/// Returns the letters for sixteen numbers.
fn to_letters(numbers: &[u32; 16]) -> [u8; 16]
    ensures { result ≡ map letter numbers.now }
{
    let mut letters = [0; 16];
    for i in 0..16 {
        letters[i] = to_letter(numbers[i]);
    }
    letters
}

/// Appends the letters for sixteen numbers, all at once. Fails if an allocation fails. If the text
/// has room for sixteen more bytes, it does not allocate.
pub fn push_letters<A: Allocator>(
    text: &mut String<A>,
    numbers: &[u32; 16],
) -> Result<(), AllocError>
    ensures letters { OnOk result (string_bytes text.new
        ≡ string_bytes text.old ++ map letter numbers.now) }
    ensures capacity { string_capacity text.old ≤ string_capacity text.new }
    ensures succeeds { string_len text.old + 16 ≤ string_capacity text.old → IsOk result }
{
    let letters = to_letters(numbers);
    text.push_str(str::from_utf8(&letters).unwrap())
}

/// Creates an empty text with room for `room` bytes. Fails if an allocation fails.
pub fn text_with_room<A: Memory>(alloc: A, room: usize) -> Result<String<A>, AllocError>
    ensures bytes { IfOk result (λ text. string_bytes text ≡ []) }
    ensures len { IfOk result (λ text. string_len text ≡ 0) }
    ensures room { IfOk result (λ text. room ≤ string_capacity text) }
    ensures granted { A.grants → room ≤ 2 ^ 17 → IsOk result }
{
    let mut bytes = Vec::new(alloc);
    A::reserve(&mut bytes, room)?;
    Ok(String::from_utf8(bytes).unwrap())
}
