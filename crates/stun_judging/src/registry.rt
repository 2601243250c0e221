//! The users of a realm, and the keys of each user for both algorithms.

ghost use Rattle.std.specs.Prelude.{◌≡◌, ◌↔◌, Option, None, Some, IsTrue, OnOk};
ghost use Rattle.std.specs.Prelude.{OnErr, IfOk, IfErr, IfNone, IfSome, IsOk};
ghost use Rattle.std.specs.FinMap as map;
ghost use Rattle.std.specs.Ordering.{nat_cmp};
ghost use Rattle.std.specs.BTreeMap.{Updates, UpdatesBy, get_by_text};
ghost use Rattle.std.specs.Cmp.Lexicographic.{slice_cmp};
ghost use Rattle.std.specs.Option.{option_copied};
ghost use Rattle.std.specs.String.{string_bytes, string_cmp};
ghost use Rattle.stun_judging.specs.Named.{just};
ghost use Rattle.stun_judging.specs.Registered.{empty_realm, key_at, key_from, name_with_hash};
ghost use Rattle.stun_judging.specs.Registered.{with_user, with_user_by_keys, without_user};
ghost use Rattle.stun_judging.specs.code.UserSecret.{secret_seen};

use crate::algorithm_set::AlgorithmSet;
use crate::name_index::NameIndex;
use crate::stored_keys::StoredKeys;
use crate::user_secret::UserSecret;
use std::alloc::{AllocError, Allocator};
use std::collections::BTreeMap;
use std::marker::Model;
use stun_base::algorithm::IntegrityAlgorithm;
use stun_base::credentials::LongTermCredentials;
use stun_base::key::userhash;
use stun_base::memory::Memory;
use stun_base::prepared_key::PreparedKey;

/// A user: the password or stored keys, and the keys for both algorithms, prepared to verify
/// signatures. So the same user fits a realm with any algorithms.
#[derive(Drop)]
pub(crate) struct User<A: Allocator> {
    /// The contents are in a box, because they are long: a node of the tree reserves room for
    /// several users, and can be half empty.
    kept: Box<KeptUser<A>, A>,
}

/// The secret of a user, and the prepared keys.
#[derive(Drop)]
pub(crate) struct KeptUser<A: Allocator> {
    secret: UserSecret<A>,
    sha1: Option<PreparedKey<A>>,
    sha256: Option<PreparedKey<A>>,
}

/// Prepares the key of a user for an algorithm. Returns `None` if the user has stored keys, and
/// none of them is for this algorithm. It does not allocate.
fn prepare_key<A: Allocator + Copy>(
    alloc: A,
    algorithm: IntegrityAlgorithm,
    name: &str,
    realm: &str,
    secret: &UserSecret<A>,
) -> Option<PreparedKey<A>>
    ensures { result ≡ key_from algorithm name.now realm.now (secret_seen secret.now) }
{
    match secret.make_key(alloc, algorithm, name, realm) {
        Some(key) => Some(PreparedKey::new(key, algorithm)),
        None => None,
    }
}

impl<A: Memory> User<A> {
    ghost use Rattle.stun_judging.specs.code.Users.{HasKeys, key_in, secret_of};

    /// Creates a user with this secret, and prepares the keys for both algorithms. Fails if an
    /// allocation fails.
    fn new(alloc: A, name: &str, realm: &str, secret: UserSecret<A>) -> Result<Self, AllocError>
        ensures keys { IfOk result (HasKeys realm.now name.now) }
        ensures secret { IfOk result (λ user. secret_of user ≡ secret_seen secret) }
        ensures granted { A.grants → IsOk result }
    {
        let sha1 = prepare_key(alloc, IntegrityAlgorithm::Sha1, name, realm, &secret);
        let sha256 = prepare_key(alloc, IntegrityAlgorithm::Sha256, name, realm, &secret);
        let kept = KeptUser {
            secret,
            sha1,
            sha256,
        };
        Ok(User {
            kept: A::boxed(alloc, kept)?,
        })
    }

    /// Returns the user's key for an algorithm, or `None` if the user has no such key.
    fn find_key(&self, algorithm: IntegrityAlgorithm) -> Option<&PreparedKey<A>>
        ensures { option_copied result ≡ key_in self.now algorithm }
    {
        match algorithm {
            IntegrityAlgorithm::Sha1 => self.kept.sha1.as_ref(),
            IntegrityAlgorithm::Sha256 => self.kept.sha256.as_ref(),
        }
    }
}

/// The users of a realm.
#[derive(Drop)]
pub(crate) struct Registry<A: Allocator> {
    realm: String<A>,
    supported: AlgorithmSet,
    users: BTreeMap<String<A>, User<A>, A>,
    /// The name of each user, indexed by its hash.
    hashed: NameIndex<A>,
}

impl<A: Allocator> Model for Registry<A> {
    ghost use Rattle.std.specs.String.{string_bytes};
    ghost use Rattle.stun_judging.specs.Registered.{Registered};
    ghost use Rattle.stun_judging.specs.code.Registered.{coded_registered};

    ghost Value = { Registered };

    ghost coded = { coded_registered };

    ghost use Rattle.stun_judging.specs.code.NameIndex.{IsNameIndexOf};
    ghost use Rattle.stun_judging.specs.code.Users.{secrets_seen, AllHaveKeys};

    ghost view = { λ r. record {
      realm = string_bytes r.realm;
      algorithms = r.supported;
      secrets = secrets_seen r.users.entries;
    } };

    ghost invariant = { λ r. AllHaveKeys (string_bytes r.realm) r.users
        × IsNameIndexOf (string_bytes r.realm) (secrets_seen r.users.entries) r.hashed };
}

impl<A: Memory> Registry<A> {
    /// Creates a registry without users for a realm.
    pub(crate) fn new(alloc: A, realm: String<A>, supported: AlgorithmSet) -> Self
        ensures { result ≡ empty_realm (string_bytes realm) supported }
    {
        Registry {
            realm,
            supported,
            users: BTreeMap::new(alloc),
            hashed: NameIndex::new(alloc),
        }
    }

    /// Returns the name of the realm.
    pub(crate) fn realm(&self) -> &str
        ensures { result.now ≡ self.now.realm }
    {
        self.realm.as_str()
    }

    /// Returns the supported algorithms.
    pub(crate) fn supported(&self) -> AlgorithmSet
        ensures { result ≡ self.now.algorithms }
    {
        self.supported
    }

    /// Returns whether another registry has the same realm and supports the same algorithms.
    pub(crate) fn has_realm_of(&self, other: &Self) -> bool
        ensures { IsTrue result ↔ ((self.now.realm ≡ other.now.realm)
            × (self.now.algorithms ≡ other.now.algorithms)) }
    {
        self.supported == other.supported && self.realm.as_str() == other.realm.as_str()
    }

    /// Returns the key of a registered user for an algorithm. Returns `None` if there is no such
    /// user or key, or if the algorithm is not supported.
    #[tactic(auto, using(crate::proofs::TableUsers::key_own))]
    pub(crate) fn find_key(
        &self,
        name: &str,
        algorithm: IntegrityAlgorithm,
    ) -> Option<&PreparedKey<A>>
        ensures { option_copied result ≡ key_at self.now name.now algorithm }
    {
        self.find_key_among(self.supported(), name, algorithm)
    }

    /// Returns the key of a registered user for an algorithm, as if the registry supported these
    /// algorithms in place of its own.
    #[tactic(auto, using(crate::proofs::UserMaps::key_supported, crate::proofs::UserMaps::key_unsupported))]
    pub(crate) fn find_key_among(
        &self,
        supported: AlgorithmSet,
        name: &str,
        algorithm: IntegrityAlgorithm,
    ) -> Option<&PreparedKey<A>>
        ensures { option_copied result
            ≡ key_at (record self.now { algorithms = supported }) name.now algorithm }
    {
        if supported.contains(algorithm) {
            self.find_stored_key(name, algorithm)
        } else {
            None
        }
    }

    /// Returns the key of a registered user for an algorithm, whether or not the algorithm is
    /// supported. Returns `None` if there is no such user or key.
    fn find_stored_key(&self, name: &str, algorithm: IntegrityAlgorithm) -> Option<&PreparedKey<A>>
        ensures { option_copied result
            ≡ key_at (record self.now { algorithms = AlgorithmSet.Both }) name.now algorithm }
    {
        match self.users.get(name) {
            Some(user) => user.find_key(algorithm),
            None => None,
        }
    }

    /// Returns the name of the registered user whose name has this hash, or `None` if there is no
    /// such user. If several names have the hash, returns the first of them in byte order.
    pub(crate) fn find_name_by_hash(&self, hash: &[u8; 32]) -> Option<&str>
        ensures { option_copied result ≡ name_with_hash self.now hash.now }
    {
        self.hashed.find_first(hash)
    }

    /// Adds a user, or replaces the password and the keys of a registered user.
    pub(crate) fn add_user(&mut self, credentials: LongTermCredentials<A>) -> Result<(), AllocError>
        ensures ok { OnOk result (self.new ≡ with_user self.old credentials) }
        ensures err { OnErr result (self.new ≡ self.old) }
        ensures granted { A.grants → IsOk result }
    {
        let (name, password) = credentials.into_parts();
        self.insert(name, UserSecret::Password(password))
    }

    /// Adds a user with stored keys, or replaces the password or the keys of a registered user.
    pub(crate) fn add_user_with_keys(
        &mut self,
        name: String<A>,
        keys: StoredKeys,
    ) -> Result<(), AllocError>
        ensures ok { OnOk result (self.new ≡ with_user_by_keys self.old (string_bytes name) keys) }
        ensures err { OnErr result (self.new ≡ self.old) }
        ensures granted { A.grants → IsOk result }
    {
        self.insert(name, UserSecret::Keys(keys))
    }

    /// Adds a user with this secret, or replaces the secret and the keys of a registered user.
    /// Fails if an allocation fails, and then leaves the registry unchanged.
    fn insert(&mut self, name: String<A>, secret: UserSecret<A>) -> Result<(), AllocError>
        ensures ok { OnOk result (self.new ≡ record self.old {
          secrets = map.insert self.old.secrets (string_bytes name) (secret_seen secret);
        }) }
        ensures err { OnErr result (self.new ≡ self.old) }
        ensures granted { A.grants → IsOk result }
    {
        let alloc = *name.allocator();
        let realm = self.realm.as_str();
        let user = User::new(alloc, name.as_str(), realm, secret)?;
        let hash = userhash(name.as_str(), self.realm.as_str());
        self.hashed.insert(hash, A::text(alloc, name.as_str())?)?;
        match put_user(&mut self.users, name, user) {
            Ok(()) => Ok(()),
            Err(refused) => {
                // The map refuses only a name that it did not contain, so the index contains the
                // name only because of this call.
                self.hashed.remove(hash, refused);
                Err(AllocError)
            }
        }
    }

    /// Returns a registry with the same realm and algorithms, whose only user has this name and
    /// secret. Fails if an allocation fails.
    pub(crate) fn with_just(
        &self,
        name: String<A>,
        secret: UserSecret<A>,
    ) -> Result<Self, AllocError>
        ensures users { IfOk result (λ users. users ≡ just self.now
            (Some (record { username = string_bytes name; secret = secret_seen secret }))) }
        ensures granted { A.grants → IsOk result }
    {
        let alloc = *self.realm.allocator();
        let realm = A::text(alloc, self.realm.as_str())?;
        let mut users = Registry::new(alloc, realm, self.supported);
        users.insert(name, secret)?;
        Ok(users)
    }

    /// Removes a user and the user's keys.
    pub(crate) fn remove_user(&mut self, name: &str)
        ensures { self.new ≡ without_user self.old name.now }
    {
        if let Some(name) = take_user(&mut self.users, name) {
            let hash = userhash(name.as_str(), self.realm.as_str());
            self.hashed.remove(hash, name);
        }
    }

    /// Sets the supported algorithms.
    pub(crate) fn set_supported(&mut self, supported: AlgorithmSet)
        ensures { self.new ≡ record self.old { algorithms = supported } }
    {
        self.supported = supported;
    }
}

/// Stores a user under a name, in place of the former user with that name, if there was one. If an
/// allocation fails, the error contains the name.
fn put_user<A: Memory>(
    users: &mut BTreeMap<String<A>, User<A>, A>,
    name: String<A>,
    user: User<A>,
) -> Result<(), String<A>>
    ensures ok { OnOk result (Updates string_cmp users.old users.new name (Some user)) }
    ensures refused { IfErr result (λ refused. refused ≡ name) }
    ensures absent { OnErr result (get_by_text users.old (string_bytes name) ≡ None) }
    ensures same { OnErr result (users.new.entries ≡ users.old.entries) }
    ensures granted { A.grants → IsOk result }
{
    match A::insert(users, name, user) {
        Ok(_) => Ok(()),
        Err(refused) => {
            let (name, _) = refused.value;
            Err(name)
        }
    }
}

/// Removes the user with this name, and returns the name that was stored, or `None` if there is no
/// such user. It does not allocate.
fn take_user<A: Allocator + Copy>(
    users: &mut BTreeMap<String<A>, User<A>, A>,
    name: &str,
) -> Option<String<A>>
    ensures name { IfSome result (λ kept. string_bytes kept ≡ name.now) }
    ensures updates { UpdatesBy string_cmp (λ k. slice_cmp nat_cmp name.now
        (string_bytes k)) users.old users.new None }
    ensures same { IfNone result (users.new.entries ≡ users.old.entries) }
{
    let (name, _) = users.remove_entry(name)?;
    Some(name)
}
