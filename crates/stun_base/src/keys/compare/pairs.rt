//! The bytes of two texts of the same length, in pairs. The fields are private to this module, and
//! `read_pair`, which counts the pairs, is the only call that returns bytes. So every pair that is
//! read is counted, and no pair is read twice.
ghost use Rattle.std.specs.Prelude.{◌≡◌, ◌+◌, ◌<◌, length, slice_index};
ghost use Rattle.stun_base.specs.Pairs.{after_reads};

use std::marker::Model;

/// Two texts of the same length, and the number of pairs of bytes that have been read.
///
/// Contracts: the value is a record of the texts and the number.
#[derive(Drop)]
pub struct BytePairs<'a> {
    one: &'a [u8],
    other: &'a [u8],
    read: usize,
}

impl<'a> Model for BytePairs<'a> {
    ghost use Rattle.std.specs.Prelude.{◌≡◌, length};
    ghost use Rattle.stun_base.specs.Pairs.{ReadPairs, after_reads};

    ghost Value = { ReadPairs };

    ghost view = { λ pairs. after_reads pairs.read pairs.one.now pairs.other.now };

    ghost invariant = { λ pairs. length pairs.one.now ≡ length pairs.other.now };
}

impl<'a> BytePairs<'a> {
    /// Creates the pairs of two texts of the same length, with no pair read yet.
    #[inline]
    pub fn of(one: &'a [u8], other: &'a [u8]) -> Self
        requires { length one.now ≡ length other.now }
        ensures { result ≡ after_reads 0 one.now other.now }
    {
        BytePairs {
            one,
            other,
            read: 0,
        }
    }

    /// Returns the number of pairs, read and unread.
    #[inline]
    pub(super) fn len(&self) -> usize
        ensures one { result ≡ length self.now.one }
        ensures other { result ≡ length self.now.other }
    {
        self.one.len()
    }

    /// Reads the next pair, and counts it. No other call returns a byte of the texts.
    #[inline]
    pub(super) fn read_pair(&mut self) -> (u8, u8)
        requires { self.old.read < length self.old.one }
        ensures one { result.0 ≡ slice_index self.old.one self.old.read }
        ensures other { result.1 ≡ slice_index self.old.other self.old.read }
        ensures counts { self.new
            ≡ after_reads (self.old.read + 1) self.old.one self.old.other }
    {
        let pair = (self.one[self.read], self.other[self.read]);
        self.read += 1;
        pair
    }
}
