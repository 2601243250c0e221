//! A user's password, or the keys stored in its place.

ghost use Rattle.std.specs.Prelude.{◌≡◌, Some};
ghost use Rattle.stun_judging.specs.Registered.{key_from};
ghost use Rattle.stun_judging.specs.code.UserSecret.{secret_seen};

use crate::stored_keys::StoredKeys;
use std::alloc::Allocator;
use stun_base::algorithm::IntegrityAlgorithm;
use stun_base::key::{IntegrityKey, long_term_key};

/// A password, or stored keys that were made from one.
#[derive(Drop)]
pub(crate) enum UserSecret<A: Allocator> {
    Password(String<A>),
    Keys(StoredKeys),
}

impl<A: Allocator + Copy> UserSecret<A> {
    /// Makes the key for an algorithm, from the name, the realm and the password, or from the
    /// stored keys. Returns `None` if the secret is stored keys, and none of them is for this
    /// algorithm. It does not allocate.
    pub(crate) fn make_key(
        &self,
        alloc: A,
        algorithm: IntegrityAlgorithm,
        name: &str,
        realm: &str,
    ) -> Option<IntegrityKey<A>>
        ensures { result ≡ key_from algorithm name.now realm.now (secret_seen self.now) }
    {
        match self {
            UserSecret::Password(password) => {
                let key = long_term_key(alloc, algorithm, name, realm, password.as_str());
                Some(key)
            }
            UserSecret::Keys(keys) => keys.make_key(alloc, algorithm),
        }
    }
}
