//! HMAC (RFC 2104) over SHA-1 and SHA-256.

ghost use Rattle.std.specs.Prelude.{◌≡◌, ◌≤◌, ◌++◌, ℕ, List, length, map};
ghost use Rattle.std.specs.List.{concat};
ghost use Rattle.sha1.specs.Sha1.{sha1};
ghost use Rattle.sha2.specs.Sha256.{sha256};
ghost use Rattle.stun_base.specs.Hmac as spec;
ghost use Rattle.stun_base.specs.code.Padded.{IsBegun};

use crate::keys::begun_hash::BegunHash;
use crate::keys::hash::HashFunction;
use sha1::Sha1;
use sha2::Sha256;
use std::convert::AsSlice;

/// The number of bytes of an HMAC-SHA1.
pub const SHA1_LENGTH: usize = 20;

/// The number of bytes of an HMAC-SHA256.
pub const SHA256_LENGTH: usize = 32;

/// The number of bytes of a block, which is the same for both hash functions.
const BLOCK_LENGTH: usize = 64;

/// The byte with which each byte of the key block is XORed before the text is hashed.
const INNER_PAD: u8 = 0x36;

/// The byte with which each byte of the key block is XORed before the inner digest is hashed.
const OUTER_PAD: u8 = 0x5c;

/// Returns the key as one block, filled up with zeros. A key that is longer than a block is first
/// replaced by its digest (RFC 2104, section 2).
fn make_key_block<H: HashFunction>(key: &[u8]) -> [u8; BLOCK_LENGTH]
    ensures { result ≡ spec.key_block H.digest key.now }
{
    if key.len() > BLOCK_LENGTH {
        let mut hasher = H::start();
        hasher.feed(key);
        let digest = hasher.finish();
        fill_block(digest.as_slice())
    } else {
        fill_block(key)
    }
}

/// Returns these bytes as one block, filled up with zeros.
fn fill_block(bytes: &[u8]) -> [u8; BLOCK_LENGTH]
    requires { length bytes.now ≤ 64 }
    ensures { result ≡ spec.block_of bytes.now }
{
    let mut block = [0; BLOCK_LENGTH];
    block[..bytes.len()].copy_from_slice(bytes);
    block
}

/// Returns the block with each of its bytes XORed with `pad`.
fn xor_block(block: &[u8; BLOCK_LENGTH], pad: u8) -> [u8; BLOCK_LENGTH]
    ensures { result ≡ spec.xor_pad pad block.now }
{
    let mut masked = [0; BLOCK_LENGTH];
    for i in 0..BLOCK_LENGTH {
        masked[i] = block[i] ^ pad;
    }
    masked
}

/// Returns a hasher that has been fed the key block, XORed with `pad`.
fn begin_hash<H: HashFunction>(block: &[u8; BLOCK_LENGTH], pad: u8) -> H
    ensures { H.holds result (spec.xor_pad pad block.now) }
{
    let mut hasher = H::start();
    hasher.feed(&xor_block(block, pad));
    hasher
}

/// Feeds the pieces to a hasher, in their order.
fn feed_all<H: HashFunction>(hasher: &mut H, pieces: &[&[u8]])
    ensures { (message : List ℕ) → H.holds hasher.old message →
        H.holds hasher.new (message ++ concat (map (λ piece. piece.now) pieces.now)) }
{
    for piece in pieces {
        hasher.feed(piece);
    }
}

/// Computes the HMAC of the concatenated `pieces` under `key`, with the hash function `H`.
#[tactic(auto, unfolding(crate::specs::Hmac::hmac))]
fn compute_hmac<H: HashFunction>(key: &[u8], pieces: &[&[u8]]) -> H::Digest
    ensures { H.Digest.items result ≡
        spec.hmac H.digest key.now (concat (map (λ piece. piece.now) pieces.now)) }
{
    let block = make_key_block::<H>(key);
    let mut inner = begin_hash::<H>(&block, INNER_PAD);
    feed_all(&mut inner, pieces);
    let mut outer = begin_hash::<H>(&block, OUTER_PAD);
    outer.feed(inner.finish().as_slice());
    outer.finish()
}

/// The part of an HMAC that does not depend on the text (RFC 2104, section 4): the states of two
/// hash functions, one of which has been fed the key block XORed with the inner pad, and the other
/// the key block XORed with the outer pad. They are as secret as the key, because anybody who has
/// them can compute HMACs under the key.
#[derive(Drop)]
pub(crate) struct BegunHmac<B: BegunHash> {
    inner: B,
    outer: B,
}

impl<B: BegunHash> BegunHmac<B> {
    /// Computes the part of an HMAC that depends only on the key.
    pub(crate) fn of(key: &[u8]) -> Self
        ensures { IsBegun B.has_begun B.Hasher.digest key.now result.inner result.outer }
    {
        let block = make_key_block::<B::Hasher>(key);
        BegunHmac {
            inner: B::of(&xor_block(&block, INNER_PAD)),
            outer: B::of(&xor_block(&block, OUTER_PAD)),
        }
    }

    /// Returns a copy for the same key.
    pub(crate) fn copy(&self) -> Self
        ensures { (key : List ℕ) →
            IsBegun B.has_begun B.Hasher.digest key self.now.inner self.now.outer →
            IsBegun B.has_begun B.Hasher.digest key result.inner result.outer }
    {
        BegunHmac {
            inner: self.inner.copy(),
            outer: self.outer.copy(),
        }
    }

    /// Computes the HMAC of the concatenated `pieces` under this key.
    #[tactic(auto, unfolding(crate::specs::Hmac::hmac))]
    pub(crate) fn digest(&self, pieces: &[&[u8]]) -> <B::Hasher as HashFunction>::Digest
        ensures { (key : List ℕ) →
            IsBegun B.has_begun B.Hasher.digest key self.now.inner self.now.outer →
            B.Hasher.Digest.items result ≡
            spec.hmac B.Hasher.digest key (concat (map (λ piece. piece.now) pieces.now)) }
    {
        let mut inner = self.inner.hasher();
        feed_all(&mut inner, pieces);
        let mut outer = self.outer.hasher();
        outer.feed(inner.finish().as_slice());
        outer.finish()
    }
}

/// Computes the HMAC-SHA1 (RFC 2104) of the concatenated `pieces` under `key`. The key and the
/// pieces may have any length. This does not allocate.
pub fn hmac_sha1(key: &[u8], pieces: &[&[u8]]) -> [u8; SHA1_LENGTH]
    ensures { result ≡ spec.hmac sha1 key.now (concat (map (λ piece. piece.now) pieces.now)) }
{
    compute_hmac::<Sha1>(key, pieces)
}

/// Computes the HMAC-SHA256 (RFC 2104) of the concatenated `pieces` under `key`. The key and the
/// pieces may have any length. This does not allocate.
pub fn hmac_sha256(key: &[u8], pieces: &[&[u8]]) -> [u8; SHA256_LENGTH]
    ensures { result ≡ spec.hmac sha256 key.now (concat (map (λ piece. piece.now) pieces.now)) }
{
    compute_hmac::<Sha256>(key, pieces)
}
