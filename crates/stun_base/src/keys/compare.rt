//! Comparison without an early exit, for HMACs, nonces and other bytes that an attacker may try to
//! guess.

ghost use Rattle.std.specs.Prelude.{◌≡◌, ◌↔◌, IsTrue};
ghost use Rattle.stun_base.specs.Pairs.{all_read};

#[doc(hidden)]
pub use crate::keys::compare::pairs::BytePairs;

mod pairs;

/// Returns `true` if two texts have the same bytes. This does not allocate.
///
/// If the lengths differ, no byte is read. If they are equal, every byte is read once, even after a
/// difference, so the work does not depend on the number of bytes that agree. Whether the call
/// takes the same time for all texts of a length also depends on the compiler and the processor,
/// and is neither proved nor promised.
///
/// Contracts: the clause `reads` of `is_same_text_counted` states that each byte is read once.
pub fn is_same_text(one: &[u8], other: &[u8]) -> bool
    ensures { IsTrue result ↔ (one.now ≡ other.now) }
{
    if one.len() != other.len() {
        return false;
    }
    is_same_text_counted(&mut BytePairs::of(one, other))
}

/// Returns `true` if two texts of the same length have the same bytes. `pairs` must be new, so that
/// no pair has been read before. The call reads every pair once, whatever the bytes are.
#[doc(hidden)]
pub fn is_same_text_counted(pairs: &mut BytePairs<'_>) -> bool
    requires unread { pairs.old.read ≡ 0 }
    ensures same { IsTrue result ↔ (pairs.old.one ≡ pairs.old.other) }
    ensures reads { pairs.new ≡ all_read pairs.old }
{
    let mut difference = 0;
    for _ in 0..pairs.len() {
        let (one, other) = pairs.read_pair();
        difference |= one ^ other;
    }
    difference == 0
}
