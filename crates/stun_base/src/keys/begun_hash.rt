//! Hash functions that have hashed a first block.

ghost use Rattle.std.specs.Prelude.{ℕ, List};
ghost use Rattle.sha1.specs.Sha1.{Holds as HoldsSha1};
ghost use Rattle.sha2.specs.Hashers.{Holds256};

use crate::keys::hash::HashFunction;
use sha1::{Sha1, Sha1 as BegunSha1};
use sha2::{Sha256, Sha256 as BegunSha256};

/// The state of a hash function that has been fed one block. Any number of hashers can start from
/// it, for messages that begin with this block. Some hash function crates have a separate type for
/// such a state. It is smaller than a hasher, because it has no buffer for an incomplete block.
pub(crate) trait BegunHash: Drop {
    type Hasher: HashFunction;

    // States that the hash function has been fed this block.
    ghost has_begun: { Self → List ℕ → Type 0 };

    /// Creates the state of a hash function that has been fed this block.
    fn of(block: &[u8; 64]) -> Self
        ensures { has_begun result block.now };

    /// Returns a copy of this state.
    fn copy(&self) -> Self
        ensures { (block : List ℕ) → has_begun self.now block → has_begun result block };

    /// Returns a hasher that has been fed the block of this state.
    fn hasher(&self) -> Self::Hasher
        ensures { (block : List ℕ) → has_begun self.now block → Self.Hasher.holds result block };
}

impl BegunHash for BegunSha1 {
    type Hasher = Sha1;

    ghost has_begun = { λ begun block. HoldsSha1 begun block };

    fn of(block: &[u8; 64]) -> BegunSha1 {
        let mut hasher = Sha1::start();
        hasher.feed(block);
        hasher.into()
    }

    fn copy(&self) -> BegunSha1 {
        self.clone().unwrap()
    }

    fn hasher(&self) -> Sha1 {
        self.copy().into()
    }
}

impl BegunHash for BegunSha256 {
    type Hasher = Sha256;

    ghost has_begun = { λ begun block. Holds256 begun block };

    fn of(block: &[u8; 64]) -> BegunSha256 {
        let mut hasher = Sha256::start();
        hasher.feed(block);
        hasher.into()
    }

    fn copy(&self) -> BegunSha256 {
        self.clone().unwrap()
    }

    fn hasher(&self) -> Sha256 {
        self.copy().into()
    }
}
