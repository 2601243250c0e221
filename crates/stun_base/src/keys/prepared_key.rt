//! Keys that are prepared for many HMACs: the part of an HMAC that does not depend on the text is
//! computed once (RFC 2104, section 4).

ghost use Rattle.std.specs.Prelude.{◌≡◌, ◌≤◌, ◌⊎◌, Some, codes, length, map};
ghost use Rattle.std.specs.List.{concat};
ghost use Rattle.std.specs.Fmt.{WritesOnOk, WritesStyledOnOk};
ghost use Rattle.sha1.specs.Sha1.{sha1};
ghost use Rattle.sha2.specs.Sha256.{sha256};
ghost use Rattle.stun_base.specs.Hmac.{hmac};

use crate::keys::algorithm::IntegrityAlgorithm;
use crate::keys::hmac::{BegunHmac, SHA1_LENGTH, SHA256_LENGTH, hmac_sha1, hmac_sha256};
use crate::keys::key::IntegrityKey;
use crate::memory::Memory;
use sha1::Sha1 as BegunSha1;
use sha2::Sha256 as BegunSha256;
use std::alloc::{AllocError, Allocator, Global};
use std::fmt;
use std::marker::Model;

/// A key that is prepared for one algorithm: the part of an HMAC that does not depend on the text
/// has been computed in advance (RFC 2104, section 4).
///
/// With that algorithm, computing an HMAC hashes two blocks fewer than with an unprepared key. This
/// follows from the way the code is written, and is not proved. The prepared key also works with
/// the other algorithm, but then saves nothing. It is at most about 250 bytes larger than the
/// unprepared key, and preparing it does not allocate.
///
/// All of its contents are as secret as the key, and `Debug` shows none of them.
///
/// Contracts: the value is the list of the key's bytes.
#[derive(Drop)]
pub struct PreparedKey<A: Allocator = Global> {
    key: IntegrityKey<A>,
    begun: Begun,
}

/// The part of an HMAC that does not depend on the text, for one algorithm.
#[derive(Drop)]
enum Begun {
    Sha1(BegunHmac<BegunSha1>),
    Sha256(BegunHmac<BegunSha256>),
}

impl<A: Allocator> Model for PreparedKey<A> {
    ghost use Rattle.std.specs.Prelude.{ℕ, List};
    ghost use Rattle.stun_base.specs.code.Begun.{IsBegunUnder};

    ghost Value = { List ℕ };

    ghost view = { λ prepared. prepared.key };

    ghost invariant = { λ prepared. IsBegunUnder prepared.key prepared.begun };
}

impl<A: Allocator> PreparedKey<A> {
    /// Prepares a key for HMACs with this algorithm. This does not allocate.
    pub fn new(key: IntegrityKey<A>, algorithm: IntegrityAlgorithm) -> Self
        ensures { result ≡ key }
    {
        let begun = match algorithm {
            IntegrityAlgorithm::Sha1 => Begun::Sha1(BegunHmac::of(key.as_bytes())),
            IntegrityAlgorithm::Sha256 => Begun::Sha256(BegunHmac::of(key.as_bytes())),
        };
        PreparedKey { key, begun }
    }

    /// Returns the key that was prepared.
    pub fn key(&self) -> &IntegrityKey<A>
        ensures { result.now ≡ self.now }
    {
        &self.key
    }

    /// Computes the HMAC-SHA1 of the concatenated `pieces` under this key. The result is the same
    /// as that of `hmac::hmac_sha1`. This does not allocate.
    pub fn hmac_sha1(&self, pieces: &[&[u8]]) -> [u8; SHA1_LENGTH]
        ensures { result ≡ hmac sha1 self.now (concat (map (λ piece. piece.now) pieces.now)) }
    {
        match &self.begun {
            Begun::Sha1(begun) => begun.digest(pieces),
            Begun::Sha256(_) => hmac_sha1(self.key.as_bytes(), pieces),
        }
    }

    /// Computes the HMAC-SHA256 of the concatenated `pieces` under this key. The result is the same
    /// as that of `hmac::hmac_sha256`. This does not allocate.
    pub fn hmac_sha256(&self, pieces: &[&[u8]]) -> [u8; SHA256_LENGTH]
        ensures { result ≡ hmac sha256 self.now (concat (map (λ piece. piece.now) pieces.now)) }
    {
        match &self.begun {
            Begun::Sha1(_) => hmac_sha256(self.key.as_bytes(), pieces),
            Begun::Sha256(begun) => begun.digest(pieces),
        }
    }
}

/// Copies the key and the prepared part, so nothing is hashed again. A key of up to 32 bytes is
/// copied without an allocation, and a longer key is allocated by the allocator of the original.
impl<A: Memory> Clone for PreparedKey<A> {
    ghost is_clone = { λ prepared copy. copy ≡ prepared };

    ghost is_infallible = { λ prepared. (length prepared ≤ 32) ⊎ A.grants };

    fn clone(&self) -> Result<Self, AllocError> {
        let key = self.key.clone()?;
        let begun = match &self.begun {
            Begun::Sha1(begun) => Begun::Sha1(begun.copy()),
            Begun::Sha256(begun) => Begun::Sha256(begun.copy()),
        };
        Ok(PreparedKey { key, begun })
    }
}

impl<A: Allocator> fmt::Debug for PreparedKey<A> {
    ghost debug_output = { λ _. Some (codes "PreparedKey { .. }") };

    fn fmt<W: fmt::Write>(&self, f: &mut fmt::Formatter<W>) -> fmt::Result
        ensures writes { WritesOnOk W.write_str_gives f.old result
            (codes "PreparedKey { .. }") f.new }

        // The options of the formatter, such as the width, do not change the text.
        ensures styled { WritesStyledOnOk W.write_str_gives f.old result
            (codes "PreparedKey { .. }") f.new }
    {
        f.write_str("PreparedKey { .. }")
    }
}
