//! A source of random numbers that the caller supplies.

ghost use Rattle.std.specs.Prelude.{◌≡◌, ◌+◌, length};
ghost use Rattle.rand_core.specs.Steps.{stream_of, steps_u32};
ghost use Rattle.stun_base.specs.Words.{next_word};

use rand_core::utils::NextWord;
use rand_core::{Rng, utils};
use std::marker::Model;

/// A source of sixteen 32-bit random numbers, which the caller supplies. It returns these numbers
/// in order, and then only zeros.
///
/// Contracts: the value is the list of the numbers that have not been read.
#[derive(Debug, Drop)]
pub struct WordSource {
    words: [u32; 16],
    taken: usize,
}

impl Model for WordSource {
    ghost use Rattle.std.specs.Prelude.{ℕ, List, drop, ◌≤◌};

    ghost Value = { List ℕ };

    ghost view = { λ s. drop s.taken s.words };

    ghost invariant = { λ s. s.taken ≤ 16 };
}

/// Two sources are equal if the numbers that have not been read yet are the same in both.
impl PartialEq for WordSource {
    ghost use Rattle.std.specs.Prelude.{nat_eq};
    ghost use Rattle.std.specs.Cmp.{partial_equiv_from_equiv};
    ghost use Rattle.std.specs.Cmp.Lexicographic.{pointwise, nat_list_eq_equiv};

    ghost eq = { pointwise nat_eq };

    ghost laws = { partial_equiv_from_equiv nat_list_eq_equiv };

    fn eq(&self, other: &Self) -> bool {
        self.words[self.taken..] == other.words[other.taken..]
    }
}

impl Eq for WordSource {
    ghost use Rattle.std.specs.Cmp.Lexicographic.{nat_list_eq_equiv};

    ghost laws = { nat_list_eq_equiv };
}

impl WordSource {
    /// Creates a source that returns these numbers.
    pub fn new(words: [u32; 16]) -> Self
        ensures words { result ≡ words }
        ensures count { length result ≡ 16 }
    {
        WordSource { words, taken: 0 }
    }

    /// Returns how many of the sixteen numbers have been read.
    pub fn taken(&self) -> usize
        ensures { result + length self.now ≡ 16 }
    {
        self.taken
    }
}

impl NextWord<u32> for WordSource {
    ghost step = { next_word };

    fn next_word(&mut self) -> u32 {
        if self.taken == 16 {
            return 0;
        }
        let word = self.words[self.taken];
        self.taken += 1;
        word
    }
}

impl Rng for WordSource {
    ghost stream = { stream_of (steps_u32 next_word) };

    fn next_u32(&mut self) -> u32 {
        self.next_word()
    }

    fn next_u64(&mut self) -> u64 {
        utils::next_u64_via_u32(self)
    }

    fn fill_bytes(&mut self, dst: &mut [u8]) {
        utils::fill_bytes_via_u32(self, dst)
    }
}
