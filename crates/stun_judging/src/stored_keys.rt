//! Keys that are stored in place of a user's password.

ghost use Rattle.std.specs.Prelude.{◌≡◌, Some, codes};
ghost use Rattle.std.specs.Fmt.{WritesOnOk, WritesStyledOnOk};
ghost use Rattle.stun_judging.specs.Registered.{stored_key};

use std::alloc::Allocator;
use std::fmt;
use stun_base::algorithm::IntegrityAlgorithm;
use stun_base::key::IntegrityKey;

/// The keys of a user, which a database can store in place of the password. Each key is a hash of
/// `username:realm:password`, as `long_term_key` makes it (RFC 8489, section 9.2.2). If a key is
/// `None`, the user has no key for that algorithm.
///
/// Anybody who has a key can sign as that user, so keep it as secret as a password. `Debug` shows
/// no key.
#[derive(Clone, Copy)]
pub struct StoredKeys {
    /// The key for HMAC-SHA1: the MD5 hash (RFC 8489, section 9.2.2).
    pub sha1: Option<[u8; 16]>,
    /// The key for HMAC-SHA256: the SHA-256 hash (RFC 8489, section 18.5.1).
    pub sha256: Option<[u8; 32]>,
}

impl StoredKeys {
    /// Makes the key for an algorithm from the stored bytes, or returns `None` if they are not
    /// stored. It does not allocate.
    pub(crate) fn make_key<A: Allocator + Copy>(
        &self,
        alloc: A,
        algorithm: IntegrityAlgorithm,
    ) -> Option<IntegrityKey<A>>
        ensures { result ≡ stored_key self.now algorithm }
    {
        match algorithm {
            IntegrityAlgorithm::Sha1 => match &self.sha1 {
                Some(key) => Some(IntegrityKey::from_bytes(alloc, key).unwrap()),
                None => None,
            },
            IntegrityAlgorithm::Sha256 => match &self.sha256 {
                Some(key) => Some(IntegrityKey::from_bytes(alloc, key).unwrap()),
                None => None,
            },
        }
    }
}

impl fmt::Debug for StoredKeys {
    ghost debug_output = { λ _. Some (codes "StoredKeys { .. }") };

    fn fmt<W: fmt::Write>(&self, f: &mut fmt::Formatter<W>) -> fmt::Result
        ensures writes { WritesOnOk W.write_str_gives f.old result
            (codes "StoredKeys { .. }") f.new }

        // The options of the formatter, such as the width, do not change the text.
        ensures styled { WritesStyledOnOk W.write_str_gives f.old result
            (codes "StoredKeys { .. }") f.new }
    {
        f.write_str("StoredKeys { .. }")
    }
}
