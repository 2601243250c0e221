//! The keys with which HMACs are computed: the bytes of a key, or a prepared key.

ghost use Rattle.std.specs.Prelude.{◌≡◌, ℕ, List};
ghost use Rattle.stun_base.specs.Algorithm.{digest};

use std::alloc::Allocator;
use stun_base::algorithm::IntegrityAlgorithm;
use stun_base::hmac::{SHA1_LENGTH, SHA256_LENGTH, hmac_sha1, hmac_sha256};
use stun_base::prepared_key::PreparedKey;

/// A key with which HMACs are computed.
pub(crate) trait DigestKey {
    // The bytes of the key.
    ghost key_bytes: { Self → List ℕ };

    /// Returns the HMAC-SHA1 of a text.
    fn digest_sha1(&self, text: &[u8]) -> [u8; SHA1_LENGTH]
        ensures { result ≡ digest IntegrityAlgorithm.Sha1 (key_bytes self.now) text.now };

    /// Returns the HMAC-SHA256 of a text.
    fn digest_sha256(&self, text: &[u8]) -> [u8; SHA256_LENGTH]
        ensures { result ≡ digest IntegrityAlgorithm.Sha256 (key_bytes self.now) text.now };
}

impl<'a> DigestKey for &'a [u8] {
    ghost key_bytes = { λ key. key.now };

    fn digest_sha1(&self, text: &[u8]) -> [u8; SHA1_LENGTH] {
        hmac_sha1(self, &[text])
    }

    fn digest_sha256(&self, text: &[u8]) -> [u8; SHA256_LENGTH] {
        hmac_sha256(self, &[text])
    }
}

impl<A: Allocator> DigestKey for PreparedKey<A> {
    ghost key_bytes = { λ key. key };

    fn digest_sha1(&self, text: &[u8]) -> [u8; SHA1_LENGTH] {
        self.hmac_sha1(&[text])
    }

    fn digest_sha256(&self, text: &[u8]) -> [u8; SHA256_LENGTH] {
        self.hmac_sha256(&[text])
    }
}
