//! The algorithms of message integrity (RFC 8489, sections 14.5 and 14.6).

ghost use Rattle.std.specs.Prelude.{◌≡◌};

use crate::keys::hmac::{SHA1_LENGTH, SHA256_LENGTH};

/// The algorithm of a signature. HMAC-SHA1 is less than HMAC-SHA256, because it is weaker.
#[derive(Debug, Clone, Copy, PartialEq, Eq, PartialOrd, Ord, Hash)]
pub enum IntegrityAlgorithm {
    /// HMAC-SHA1, which has 20 bytes and is sent in MESSAGE-INTEGRITY (RFC 8489, section 14.5).
    Sha1,
    /// HMAC-SHA256, which has 32 bytes and is sent in MESSAGE-INTEGRITY-SHA256 (RFC 8489, section
    /// 14.6).
    Sha256,
}

impl IntegrityAlgorithm {
    ghost use Rattle.stun_base.specs.Algorithm.{digest_length};

    /// Returns the number of bytes of an HMAC that is not truncated: 20 for HMAC-SHA1, and 32 for
    /// HMAC-SHA256.
    pub fn digest_length(self) -> usize
        ensures { result ≡ digest_length self }
    {
        match self {
            IntegrityAlgorithm::Sha1 => SHA1_LENGTH,
            IntegrityAlgorithm::Sha256 => SHA256_LENGTH,
        }
    }
}
