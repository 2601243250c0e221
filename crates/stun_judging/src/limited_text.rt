//! Texts within the limit of REALM and NONCE (RFC 8489, sections 14.9 and 14.10).
ghost use Rattle.std.specs.Prelude.{◌≡◌, ◌≤◌, length, IfOk, IsOk};
ghost use Rattle.std.specs.String.{string_bytes};
ghost use Rattle.stun_types.specs.Limits.{TEXT_LIMIT};

use std::alloc::{AllocError, Allocator};
use stun_base::memory::Memory;

/// A text of at most 763 bytes.
#[derive(Drop)]
pub struct LimitedText<A: Allocator> {
    text: String<A>,
    ghost short: { length (string_bytes text) ≤ TEXT_LIMIT },
}

impl<A: Allocator> LimitedText<A> {
    /// Creates the value from a text of at most 763 bytes.
    pub fn new(text: String<A>) -> Self
        requires { length (string_bytes text) ≤ TEXT_LIMIT }
        ensures { string_bytes result.text ≡ string_bytes text }
    {
        LimitedText { text }
    }

    /// Returns the text.
    pub fn as_str(&self) -> &str
        ensures value { result.now ≡ string_bytes self.now.text }
        ensures short { length result.now ≤ TEXT_LIMIT }
    {
        self.text.as_str()
    }

    /// Returns the length of the text in bytes.
    pub fn len(&self) -> usize
        ensures { result ≡ length (string_bytes self.now.text) }
    {
        self.text.len()
    }
}

impl<A: Memory> LimitedText<A> {
    /// Copies a text of at most 763 bytes. Fails if an allocation fails.
    pub fn copied(alloc: A, text: &str) -> Result<Self, AllocError>
        requires { length text.now ≤ TEXT_LIMIT }
        ensures text { IfOk result (λ copy. string_bytes copy.text ≡ text.now) }
        ensures granted { A.grants → IsOk result }
    {
        let text = A::text(alloc, text)?;
        Ok(LimitedText { text })
    }

    /// Copies the text. Fails if an allocation fails.
    pub fn cloned(&self) -> Result<Self, AllocError>
        ensures text { IfOk result (λ copy. string_bytes copy.text ≡ string_bytes self.now.text) }
        ensures granted { A.grants → IsOk result }
    {
        let text = A::text(*self.text.allocator(), self.text.as_str())?;
        Ok(LimitedText { text })
    }
}
