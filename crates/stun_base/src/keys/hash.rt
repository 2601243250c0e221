//! The hash functions that HMACs and keys are computed with.

ghost use Rattle.std.specs.Prelude.{◌≡◌, ◌≤◌, ◌++◌, ℕ, List, [], length};
ghost use Rattle.md5.specs.Md5.{md5};
ghost use Rattle.md5.specs.Md5.{Holds as HoldsMd5};
ghost use Rattle.sha1.specs.Sha1.{sha1};
ghost use Rattle.sha1.specs.Sha1.{Holds as HoldsSha1};
ghost use Rattle.sha2.specs.Sha256.{sha256};
ghost use Rattle.sha2.specs.Hashers.{Holds256};

use md5::Md5;
use sha1::Sha1;
use sha2::{Digest, Sha256};
use std::convert::AsSlice;

/// A hash function with blocks of 64 bytes, which can be fed a message in pieces.
pub(crate) trait HashFunction: Drop {
    type Digest: AsSlice<u8> + Drop;

    // States that the hasher has been fed this message.
    ghost holds: { Self → List ℕ → Type 0 };

    // The digest of a message.
    ghost digest: { List ℕ → List ℕ };

    fn start() -> Self
        ensures { holds result [] };

    fn feed(&mut self, piece: &[u8])
        ensures { (message : List ℕ) →
            holds self.old message → holds self.new (message ++ piece.now) };

    fn finish(self) -> Self::Digest
        ensures value { (message : List ℕ) →
            holds self message → Self.Digest.items result ≡ digest message }
        ensures fits { length (Self.Digest.items result) ≤ 64 };
}

/// Returns the digest of a message, which is passed in one piece.
pub(crate) fn digest_message<H: HashFunction>(message: &[u8]) -> H::Digest
    ensures value { H.Digest.items result ≡ H.digest message.now }
    ensures fits { length (H.Digest.items result) ≤ 64 }
{
    let mut hasher = H::start();
    hasher.feed(message);
    hasher.finish()
}

impl HashFunction for Sha1 {
    type Digest = [u8; 20];

    ghost holds = { λ hasher message. HoldsSha1 hasher message };

    ghost digest = { sha1 };

    fn start() -> Sha1 {
        Sha1::new()
    }

    fn feed(&mut self, piece: &[u8]) {
        self.update(piece);
    }

    fn finish(self) -> [u8; 20] {
        self.finalize()
    }
}

impl HashFunction for Sha256 {
    type Digest = [u8; 32];

    ghost holds = { λ hasher message. Holds256 hasher message };

    ghost digest = { sha256 };

    fn start() -> Sha256 {
        Digest::new()
    }

    fn feed(&mut self, piece: &[u8]) {
        self.update(piece);
    }

    fn finish(self) -> [u8; 32] {
        self.finalize()
    }
}

impl HashFunction for Md5 {
    type Digest = [u8; 16];

    ghost holds = { λ hasher message. HoldsMd5 hasher message };

    ghost digest = { md5 };

    fn start() -> Md5 {
        md5::Digest::new()
    }

    fn feed(&mut self, piece: &[u8]) {
        md5::Digest::update(self, piece);
    }

    fn finish(self) -> [u8; 16] {
        md5::Digest::finalize(self)
    }
}
