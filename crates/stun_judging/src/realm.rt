//! A realm: its users with their keys, the algorithms that it supports, and whether clients may
//! name a user by a hash (RFC 8489, section 9.2).

ghost use Rattle.std.specs.Fmt.{WritesOnOk, WritesStyledOnOk};
ghost use Rattle.std.specs.Option.{option_copied};
ghost use Rattle.std.specs.Prelude.{◌≡◌, IfOk, IsOk, OnErr, OnOk, Some, codes};
ghost use Rattle.std.specs.String.{string_bytes};
ghost use Rattle.stun_judging.specs.Named.{just};
ghost use Rattle.stun_judging.specs.Nonces.{nonce_of};
ghost use Rattle.stun_judging.specs.Realm.{with_registered};
ghost use Rattle.stun_judging.specs.Registered.{empty_realm, key_at, name_with_hash, user_by_keys};
ghost use Rattle.stun_judging.specs.Registered.{user_by_password, with_user, with_user_by_keys};
ghost use Rattle.stun_judging.specs.Registered.{without_user};

use crate::algorithm_set::AlgorithmSet;
use crate::feature::Feature;
use crate::nonce::nonce_of_words;
use crate::registry::Registry;
use crate::stored_keys::StoredKeys;
use crate::user::LongTermServerUser;
use crate::user_secret::UserSecret;
use std::alloc::{AllocError, Allocator, Global};
use std::marker::Model;
use std::{fmt, mem};
use stun_base::algorithm::IntegrityAlgorithm;
use stun_base::credentials::LongTermCredentials;
use stun_base::memory::Memory;
use stun_base::prepared_key::PreparedKey;

mod challenge;
mod judging;

/// A realm: its users with their keys, the algorithms that it supports, and whether clients may
/// name a user by a hash (RFC 8489, section 9.2).
///
/// A realm stores nothing about an address or a message. It judges a message under a nonce that the
/// caller passes (`judge`), and adds a challenge to a response (`add_challenge`).
///
/// `Debug` shows nothing of the contents.
///
/// Contracts: the value is a record of the realm's name, algorithms and users (`registered`), and
/// of the use of hashed names (`feature`).
#[derive(Drop)]
pub struct Realm<A: Allocator = Global> {
    pub(crate) alloc: A,
    pub(crate) registry: Registry<A>,
    feature: Feature,
}

impl<A: Allocator> Model for Realm<A> {
    ghost use Rattle.stun_judging.specs.Realm.{RealmSeen};
    ghost use Rattle.stun_judging.specs.code.Realm.{coded_realm};

    ghost Value = { RealmSeen };

    ghost coded = { coded_realm };

    ghost view = { λ realm. record { registered = realm.registry; feature = realm.feature } };
}

impl<A: Allocator> fmt::Debug for Realm<A> {
    ghost debug_output = { λ _. Some (codes "Realm { .. }") };

    fn fmt<W: fmt::Write>(&self, f: &mut fmt::Formatter<W>) -> fmt::Result
        ensures writes { WritesOnOk W.write_str_gives f.old result
            (codes "Realm { .. }") f.new }

        // The options of the formatter, such as the width, do not change the text.
        ensures styled { WritesStyledOnOk W.write_str_gives f.old result
            (codes "Realm { .. }") f.new }
    {
        f.write_str("Realm { .. }")
    }
}

impl<A: Memory> Realm<A> {
    /// Creates a realm without users. The call does not allocate.
    ///
    /// A name of more than 763 bytes is accepted, but then `add_challenge` fails with `TooLarge`,
    /// because REALM cannot carry the name (RFC 8489, section 14.9).
    pub fn new(alloc: A, name: String<A>, algorithms: AlgorithmSet, feature: Feature) -> Self
        ensures { result ≡ record {
          registered = empty_realm (string_bytes name) algorithms;
          feature = feature;
        } }
    {
        Realm {
            alloc,
            registry: Registry::new(alloc, name, algorithms),
            feature,
        }
    }

    /// Returns the name of the realm, which is the value of REALM (RFC 8489, section 14.9).
    pub fn name(&self) -> &str
        ensures { result.now ≡ self.now.registered.realm }
    {
        self.registry.realm()
    }

    /// Returns the supported algorithms.
    pub fn algorithms(&self) -> AlgorithmSet
        ensures { result ≡ self.now.registered.algorithms }
    {
        self.registry.supported()
    }

    /// Sets the supported algorithms. Of each user's keys, the realm then uses only the keys for
    /// these algorithms. The call does not allocate.
    pub fn set_algorithms(&mut self, algorithms: AlgorithmSet)
        ensures { self.new ≡ record self.old {
          registered = record self.old.registered { algorithms = algorithms };
        } }
    {
        self.registry.set_supported(algorithms);
    }

    /// Returns whether clients may send a hash (USERHASH) in place of the user name (RFC 8489,
    /// section 14.4).
    pub fn feature(&self) -> Feature
        ensures { result ≡ self.now.feature }
    {
        self.feature
    }

    /// Sets whether clients may send a hash (USERHASH) in place of the user name (RFC 8489, section
    /// 14.4). Nonces that are made from now on announce this setting.
    ///
    /// A realm treats `Feature::Required` like `Feature::Auto`: it still accepts a plain USERNAME.
    pub fn set_feature(&mut self, feature: Feature)
        ensures { self.new ≡ record self.old { feature = feature } }
    {
        self.feature = feature;
    }

    /// Returns the key of a registered user for an algorithm. Returns `None` if there is no such
    /// user, or if the user has no key for this algorithm.
    pub fn key(&self, name: &str, algorithm: IntegrityAlgorithm) -> Option<&PreparedKey<A>>
        ensures { option_copied result ≡ key_at self.now.registered name.now algorithm }
    {
        self.registry.find_key(name, algorithm)
    }

    /// Returns the name of the registered user whose name has this hash at the realm (USERHASH, RFC
    /// 8489, section 14.4), or `None` if there is no such user. If several names have the hash,
    /// returns the first of them in byte order. The call does not allocate and computes no hash.
    pub fn name_with_hash(&self, hash: &[u8; 32]) -> Option<&str>
        ensures { option_copied result ≡ name_with_hash self.now.registered hash.now }
    {
        self.registry.find_name_by_hash(hash)
    }

    /// Adds a user with a key for each algorithm (RFC 8489, section 9.2.2), or replaces the
    /// password or keys of a user with this name. The realm uses the keys for the algorithms that
    /// it supports, including algorithms that it supports later.
    ///
    /// A name of more than 513 bytes is accepted, but only a USERHASH can name such a user, because
    /// USERNAME is limited to 513 bytes (section 14.3).
    ///
    /// Fails if an allocation fails. The realm is then unchanged.
    pub fn add_user(&mut self, credentials: LongTermCredentials<A>) -> Result<(), AllocError>
        ensures ok { OnOk result (self.new ≡ record self.old {
          registered = with_user self.old.registered credentials;
        }) }
        ensures err { OnErr result (self.new ≡ self.old) }
        ensures granted { A.grants → IsOk result }
    {
        self.registry.add_user(credentials)
    }

    /// Adds a user with stored keys in place of a password, or replaces the password or keys of a
    /// user with this name. The keys must have been made for this realm, because clients derive
    /// their keys for it.
    ///
    /// The realm uses the keys for the algorithms that it supports, including algorithms that it
    /// supports later. A name of more than 513 bytes is accepted, but only a USERHASH can name such
    /// a user, because USERNAME is limited to 513 bytes (RFC 8489, section 14.3).
    ///
    /// Fails if an allocation fails. The realm is then unchanged.
    pub fn add_user_with_keys(
        &mut self,
        name: String<A>,
        keys: StoredKeys,
    ) -> Result<(), AllocError>
        ensures ok { OnOk result (self.new ≡ record self.old {
          registered = with_user_by_keys self.old.registered (string_bytes name) keys;
        }) }
        ensures err { OnErr result (self.new ≡ self.old) }
        ensures granted { A.grants → IsOk result }
    {
        self.registry.add_user_with_keys(name, keys)
    }

    /// Removes a user and the user's keys, so that messages in that name are refused from now on.
    /// If there is no such user, the realm is unchanged. The call does not allocate.
    pub fn remove_user(&mut self, name: &str)
        ensures { self.new ≡ record self.old {
          registered = without_user self.old.registered name.now;
        } }
    {
        self.registry.remove_user(name);
    }

    /// Prepares a user whom you look up elsewhere: makes a key for each algorithm (RFC 8489, section
    /// 9.2.2). Pass the result to `judge_of`, at this realm or at another realm with this name. The
    /// user is not added to the realm.
    ///
    /// Fails if an allocation fails.
    pub fn prepare_user(
        &self,
        credentials: LongTermCredentials<A>,
    ) -> Result<LongTermServerUser<A>, AllocError>
        ensures user { IfOk result (λ user. user
            ≡ just self.now.registered (Some (user_by_password credentials))) }
        ensures granted { A.grants → IsOk result }
    {
        let (name, password) = credentials.into_parts();
        let registry = self
            .registry
            .with_just(name, UserSecret::Password(password))?;
        Ok(LongTermServerUser { registry })
    }

    /// Prepares a user like `prepare_user`, with stored keys in place of a password. The keys must
    /// have been made for this realm, because clients derive their keys for it.
    ///
    /// Fails if an allocation fails.
    pub fn prepare_user_with_keys(
        &self,
        name: String<A>,
        keys: StoredKeys,
    ) -> Result<LongTermServerUser<A>, AllocError>
        ensures user { IfOk result (λ user. user
            ≡ just self.now.registered (Some (user_by_keys (string_bytes name) keys))) }
        ensures granted { A.grants → IsOk result }
    {
        let registry = self.registry.with_just(name, UserSecret::Keys(keys))?;
        Ok(LongTermServerUser { registry })
    }

    /// Makes a nonce from sixteen random numbers, with the security bits of this realm (RFC 8489,
    /// section 9.2). The nonce has 29 bytes, or 16 if the realm has no security bits to announce.
    ///
    /// A server that stores no nonces derives the numbers from a secret, the address of the client
    /// and the time. The secret is necessary, because anybody who can predict the numbers can
    /// predict nonces. Only the remainders of the numbers modulo 62 count
    /// (law `nonces_of_different_words_differ`).
    ///
    /// Fails if an allocation fails.
    pub fn nonce_of_words(&self, words: &[u32; 16]) -> Result<String<A>, AllocError>
        ensures nonce { IfOk result (λ nonce. string_bytes nonce
            ≡ nonce_of self.now.registered.algorithms self.now.feature words.now) }
        ensures granted { A.grants → IsOk result }
    {
        nonce_of_words(self.alloc, self.algorithms(), self.feature, words)
    }

    /// Exchanges the users of the realm for `user`, who is then the only user of the realm, while
    /// `user` holds the users that the realm had. The name and the algorithms of the realm are also
    /// exchanged for those that `user` was prepared for. A second call undoes the first.
    pub fn exchange_users(&mut self, user: &mut LongTermServerUser<A>)
        ensures realm { self.new ≡ with_registered self.old user.old }
        ensures user { user.new ≡ self.old.registered }
    {
        mem::swap(&mut self.registry, &mut user.registry);
    }
}
