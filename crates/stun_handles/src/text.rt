//! Copies the texts that a caller passes.

ghost use Rattle.std.specs.Prelude.{◌≡◌, IfOk, string_bytes};

use std::alloc::{AllocError, Global};

/// Copies a text to the heap.
pub fn copied(alloc: Global, text: &str) -> Result<String<Global>, AllocError>
    ensures { IfOk result (λ copy. string_bytes copy ≡ text.now) }
{
    String::from_str(alloc, text)
}
