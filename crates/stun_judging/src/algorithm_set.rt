//! The set of integrity algorithms that a server or a client supports, or that a server has
//! offered.
ghost use Rattle.std.specs.Prelude.{◌≡◌, map};
ghost use Rattle.stun_types.specs.PasswordAlgorithms.{integrity_of};
ghost use Rattle.stun_judging.specs.Algorithms.{algorithms_of};

use stun_base::algorithm::IntegrityAlgorithm;
use stun_types::attribute::PasswordAlgorithmValue;

/// A set of integrity algorithms (RFC 8489, sections 14.5 and 14.6) that is not empty, because a
/// server or a client with long-term credentials supports at least one.
#[derive(Clone, Copy, Debug, PartialEq, Eq)]
pub enum AlgorithmSet {
    /// HMAC-SHA1 alone. Its long-term keys are made with MD5.
    OnlySha1,
    /// HMAC-SHA256 alone. Its long-term keys are made with SHA-256.
    OnlySha256,
    /// HMAC-SHA1 and HMAC-SHA256.
    Both,
}

impl AlgorithmSet {
    ghost use Rattle.stun_judging.specs.Algorithms.{contains, only, with_algorithm};

    /// Returns the set that contains only this algorithm.
    pub fn only(algorithm: IntegrityAlgorithm) -> AlgorithmSet
        ensures { result ≡ only algorithm }
    {
        match algorithm {
            IntegrityAlgorithm::Sha1 => AlgorithmSet::OnlySha1,
            IntegrityAlgorithm::Sha256 => AlgorithmSet::OnlySha256,
        }
    }

    /// Returns this set with `algorithm` added.
    pub fn with(self, algorithm: IntegrityAlgorithm) -> AlgorithmSet
        ensures { result ≡ with_algorithm algorithm self }
    {
        match (self, algorithm) {
            (AlgorithmSet::OnlySha1, IntegrityAlgorithm::Sha1) => AlgorithmSet::OnlySha1,
            (AlgorithmSet::OnlySha256, IntegrityAlgorithm::Sha256) => AlgorithmSet::OnlySha256,
            _ => AlgorithmSet::Both,
        }
    }

    /// Returns whether the algorithm is in the set.
    pub fn contains(self, algorithm: IntegrityAlgorithm) -> bool
        ensures { result ≡ contains algorithm self }
    {
        match algorithm {
            IntegrityAlgorithm::Sha1 => !matches!(self, AlgorithmSet::OnlySha256),
            IntegrityAlgorithm::Sha256 => !matches!(self, AlgorithmSet::OnlySha1),
        }
    }

    /// Returns the password algorithms that make the keys for the algorithms of this set, the
    /// strongest first.
    pub(crate) fn as_password_algorithms(self) -> &'static [PasswordAlgorithmValue]
        ensures { map integrity_of result.now ≡ algorithms_of self }
    {
        match self {
            AlgorithmSet::OnlySha1 => &[PasswordAlgorithmValue::MD5],
            AlgorithmSet::OnlySha256 => &[PasswordAlgorithmValue::SHA256],
            AlgorithmSet::Both => &[PasswordAlgorithmValue::SHA256, PasswordAlgorithmValue::MD5],
        }
    }

    /// Returns the algorithms, the strongest first.
    pub fn as_slice(self) -> &'static [IntegrityAlgorithm]
        ensures { result.now ≡ algorithms_of self }
    {
        match self {
            AlgorithmSet::OnlySha1 => &[IntegrityAlgorithm::Sha1],
            AlgorithmSet::OnlySha256 => &[IntegrityAlgorithm::Sha256],
            AlgorithmSet::Both => &[IntegrityAlgorithm::Sha256, IntegrityAlgorithm::Sha1],
        }
    }
}
