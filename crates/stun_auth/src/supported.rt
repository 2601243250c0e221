//! The algorithms that a client supports.
ghost use Rattle.std.specs.Prelude.{◌≡◌, ◌∷◌, []};
ghost use Rattle.stun_judging.specs.Algorithms.{has};
ghost use Rattle.stun_auth.specs.Supported.{with_supported};
ghost use Rattle.stun_auth.specs.code.Supported.{in_order};

use stun_base::algorithm::IntegrityAlgorithm;

/// One algorithm, or both algorithms in the order in which they were added.
#[derive(Clone, Copy, Debug, PartialEq, Eq)]
pub(crate) enum Supported {
    Only(IntegrityAlgorithm),
    Both { first: IntegrityAlgorithm },
}

impl Supported {
    /// Creates the set that contains only this algorithm.
    pub(crate) fn only(algorithm: IntegrityAlgorithm) -> Self
        ensures { in_order result ≡ algorithm ∷ [] }
    {
        Supported::Only(algorithm)
    }

    /// Returns the set with an algorithm added at the end, unless the set has it already.
    pub(crate) fn with(self, algorithm: IntegrityAlgorithm) -> Self
        ensures { in_order result ≡ with_supported algorithm (in_order self) }
    {
        match (self, algorithm) {
            (Supported::Only(IntegrityAlgorithm::Sha1), IntegrityAlgorithm::Sha256) => {
                Supported::Both {
                    first: IntegrityAlgorithm::Sha1,
                }
            }
            (Supported::Only(IntegrityAlgorithm::Sha256), IntegrityAlgorithm::Sha1) => {
                Supported::Both {
                    first: IntegrityAlgorithm::Sha256,
                }
            }
            (Supported::Only(IntegrityAlgorithm::Sha1), IntegrityAlgorithm::Sha1) => self,
            (Supported::Only(IntegrityAlgorithm::Sha256), IntegrityAlgorithm::Sha256) => self,
            (Supported::Both { .. }, _) => self,
        }
    }

    /// Returns whether the algorithm is in the set.
    pub(crate) fn contains(self, algorithm: IntegrityAlgorithm) -> bool
        ensures { result ≡ has algorithm (in_order self) }
    {
        match (self, algorithm) {
            (Supported::Only(IntegrityAlgorithm::Sha1), IntegrityAlgorithm::Sha256) => false,
            (Supported::Only(IntegrityAlgorithm::Sha256), IntegrityAlgorithm::Sha1) => false,
            (Supported::Only(IntegrityAlgorithm::Sha1), IntegrityAlgorithm::Sha1) => true,
            (Supported::Only(IntegrityAlgorithm::Sha256), IntegrityAlgorithm::Sha256) => true,
            (Supported::Both { .. }, _) => true,
        }
    }

    /// Returns the algorithms in the order in which they were added.
    pub(crate) fn as_slice(&self) -> &'static [IntegrityAlgorithm]
        ensures { result.now ≡ in_order self.now }
    {
        match self {
            Supported::Only(IntegrityAlgorithm::Sha1) => &[IntegrityAlgorithm::Sha1],
            Supported::Only(IntegrityAlgorithm::Sha256) => &[IntegrityAlgorithm::Sha256],
            Supported::Both {
                first: IntegrityAlgorithm::Sha1,
            } => &[IntegrityAlgorithm::Sha1, IntegrityAlgorithm::Sha256],
            Supported::Both {
                first: IntegrityAlgorithm::Sha256,
            } => &[IntegrityAlgorithm::Sha256, IntegrityAlgorithm::Sha1],
        }
    }
}
