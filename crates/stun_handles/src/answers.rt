//! Converts results to the numbers that calls return.

ghost use Rattle.std.specs.Prelude.{◌≡◌};
ghost use Rattle.stun_handles.specs.Numbers.{done_answer, length_answer, number_answer};

use stun_numbers::refusal::Refusal;

/// The greatest number that a call can return, because calls return an `i64`.
const MOST: usize = 9_223_372_036_854_775_807;

/// Returns 0 for a call that has succeeded, or the negative code of its error.
pub fn done(answer: Result<(), Refusal>) -> i64
    ensures { result ≡ done_answer answer }
{
    match answer {
        Ok(()) => 0,
        Err(refusal) => refusal.code(),
    }
}

/// Returns the number that a call has returned, or the negative code of its error.
// Not inlined, because about twenty calls for C end with it.
#[inline(never)]
pub fn number(answer: Result<u32, Refusal>) -> i64
    ensures { result ≡ number_answer answer }
{
    match answer {
        Ok(number) => i64::from(number),
        Err(refusal) => refusal.code(),
    }
}

/// Returns the length that a call has returned, at most 2^63 - 1, or the negative code of its
/// error.
pub fn length(answer: Result<usize, Refusal>) -> i64
    ensures { result ≡ length_answer answer }
{
    match answer {
        Ok(length) => length.min(MOST) as i64,
        Err(refusal) => refusal.code(),
    }
}
