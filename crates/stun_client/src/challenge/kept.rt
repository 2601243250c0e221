//! The parts of a challenge: realm, nonce, list, algorithm, name and key.
ghost use Rattle.std.specs.Prelude.{◌≡◌, IfOk, IsOk};

use std::alloc::{AllocError, Allocator};
use stun_base::memory::Memory;
use stun_judging::limited_text::LimitedText;
use stun_judging::naming::UserNaming;
use stun_types::message::{IntegrityAlgorithm, PreparedKey};

/// The parts of a server's challenge that a client stores, and the key that the client made for the
/// challenge.
#[derive(Drop)]
pub(crate) struct KeptChallenge<A: Allocator> {
    pub(crate) naming: UserNaming<A>,
    pub(crate) realm: LimitedText<A>,
    pub(crate) nonce: LimitedText<A>,
    /// The server's list of algorithms, as the bytes of its value, which each request must repeat.
    /// It is empty if the nonce does not have the security bit *Password algorithms*.
    pub(crate) offered: Vec<u8, A>,
    pub(crate) algorithm: IntegrityAlgorithm,
    pub(crate) key: PreparedKey<A>,
}

impl<A: Memory> KeptChallenge<A> {
    ghost use Rattle.stun_client.specs.code.Kept.{challenge_seen};

    /// Copies the parts. Fails if an allocation fails.
    pub(crate) fn copy(&self) -> Result<Self, AllocError>
        ensures copy { IfOk result (λ copy. challenge_seen copy ≡ challenge_seen self.now) }
        ensures granted { A.grants → IsOk result }
    {
        Ok(KeptChallenge {
            naming: self.naming.copied()?,
            realm: self.realm.cloned()?,
            nonce: self.nonce.cloned()?,
            offered: A::copied(*self.offered.allocator(), self.offered.as_slice())?,
            algorithm: self.algorithm,
            key: self.key.clone()?,
        })
    }
}
