//! The algorithms that a client supports, and its use of hashed user names.
ghost use Rattle.std.specs.Prelude.{◌≡◌};

use stun_judging::algorithm_set::AlgorithmSet;
use stun_judging::feature::Feature;
use stun_types::message::IntegrityAlgorithm;

/// The algorithms that a client supports, and whether it sends its user name as a hash.
#[derive(Clone, Copy, Debug, PartialEq, Eq)]
pub struct Preferences {
    /// The integrity algorithms that the client supports.
    pub algorithms: AlgorithmSet,
    /// Whether the user name is sent as a hash (RFC 8489, section 14.4): never, if the server
    /// allows it, or always.
    pub anonymous_username: Feature,
}

impl Preferences {
    ghost use Rattle.stun_client.specs.Preferences.{supports};

    /// Returns whether an algorithm is supported.
    pub fn supports(self, algorithm: IntegrityAlgorithm) -> bool
        ensures { result ≡ supports self algorithm }
    {
        self.algorithms.contains(algorithm)
    }
}
