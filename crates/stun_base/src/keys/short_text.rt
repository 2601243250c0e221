//! Short texts that are put together from pieces.

ghost use Rattle.std.specs.Prelude.{◌≡◌, ◌+◌, ◌≤◌, ◌↔◌, ◌++◌, [], length, IsTrue, true, false};
ghost use Rattle.std.specs.Str.{IsUtf8};

use simdutf8::Checker;
use std::marker::Model;
use std::simd::prelude::*;

/// The largest number of bytes of a short text.
const LONGEST: usize = 64;

/// A text of up to 64 bytes in one block. Hashing a whole block, or testing whether it is UTF-8, is
/// faster than hashing or testing the text piece by piece. The rest of the block is zeros, so that
/// the UTF-8 test can read all of it.
///
/// Contracts: the value is the list of the text's bytes.
#[derive(Drop)]
pub(crate) struct ShortText {
    block: [u8; LONGEST],
    length: usize,
}

impl Model for ShortText {
    ghost use Rattle.std.specs.Prelude.{◌≡◌, ◌-◌, ◌≤◌, ℕ, List, take, drop, replicate};

    ghost Value = { List ℕ };

    ghost view = { λ text. take text.length text.block };

    ghost invariant = { λ text.
        (text.length ≤ 64) × (drop text.length text.block ≡ replicate (64 - text.length) 0) };
}

impl ShortText {
    /// Creates an empty text.
    pub(crate) fn new() -> ShortText
        ensures { result ≡ [] }
    {
        ShortText {
            block: [0; LONGEST],
            length: 0,
        }
    }

    /// Appends a piece. Returns `false`, and leaves the text unchanged, if the piece does not fit.
    pub(crate) fn push(&mut self, piece: &[u8]) -> bool
        ensures fits { IsTrue result ↔ (length self.old + length piece.now ≤ 64) }
        ensures added { result ≡ true → self.new ≡ self.old ++ piece.now }
        ensures left { result ≡ false → self.new ≡ self.old }
    {
        if piece.len() > LONGEST - self.length {
            return false;
        }
        let end = self.length + piece.len();
        self.block[self.length..end].copy_from_slice(piece);
        self.length = end;
        true
    }

    /// Returns the bytes.
    pub(crate) fn as_bytes(&self) -> &[u8]
        ensures { result.now ≡ self.now }
    {
        &self.block[..self.length]
    }

    /// Returns whether the bytes are UTF-8.
    pub(crate) fn is_utf8(&self) -> bool
        ensures { IsTrue result ↔ IsUtf8 self.now }
    {
        Checker::new().step(u8x64::from_array(self.block)).finish()
    }
}
