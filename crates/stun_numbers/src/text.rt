//! Texts that a caller passes as bytes.

ghost use Rattle.std.specs.Prelude.{◌≡◌, true, false, IfOk, IfErr, OnErr};
ghost use Rattle.std.specs.Str.{is_utf8};

use crate::refusal::Refusal;
use std::str;

/// Converts bytes to a text.
///
/// # Errors
///
/// `NotText`: the bytes are not UTF-8.
#[tactic(auto, using(crate::proofs::Texts::is_text, crate::proofs::Texts::is_no_text))]
pub fn text(bytes: &[u8]) -> Result<&str, Refusal>
    ensures ok { IfOk result (λ text. (is_utf8 bytes.now ≡ true) × (text.now ≡ bytes.now)) }
    ensures not_text { OnErr result (is_utf8 bytes.now ≡ false) }
    ensures err { IfErr result (λ refusal. refusal ≡ Refusal.NotText) }
{
    match str::from_utf8(bytes) {
        Ok(text) => Ok(text),
        Err(_) => Err(Refusal::NotText),
    }
}
