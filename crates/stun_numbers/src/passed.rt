//! Checks the lengths that a caller passes.

ghost use Rattle.std.specs.Prelude.{◌≡◌, false};

/// The greatest number of bytes that a slice can have.
const MOST: usize = 9_223_372_036_854_775_807;

/// Returns `true` if a caller in C has passed more bytes than a slice can have, such as the -1 of a
/// `recv` that failed. Nothing may be read there.
///
/// The contract says `false`, because the language has no such slice: only the archive, whose
/// callers pass a pointer and any length, can return `true`. So nothing is proved about the calls
/// that return an error because of this function.
pub fn is_impossible(bytes: &[u8]) -> bool
    ensures { result ≡ false }
{
    bytes.len() > MOST
}
