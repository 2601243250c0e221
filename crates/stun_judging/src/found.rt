//! A user whom the caller found, for a server that looks its users up elsewhere and stores none of
//! them (RFC 8489, section 9.2.4). A key of the user is made only when a message needs it.
//!
//! ```text
//! let read = ReadMessage::of(&message);
//! let Some(claim) = realm.claim_in(&read) else { .. judge .. };
//! if !claim.has_nonce(&nonce) { .. judge .. }
//! match realm.verify_found(&claim, &look_up(claim.user())?) {
//!     Some((algorithm, key)) => .. accepted: sign the response with algorithm and key ..,
//!     None => .. refused: answer 401 ..,
//! }
//! ```

ghost use Rattle.std.specs.Fmt.{WritesOnOk, WritesStyledOnOk};
ghost use Rattle.std.specs.Prelude.{◌≡◌, Some, codes};
ghost use Rattle.std.specs.Str.{bytes_eq};
ghost use Rattle.stun_judging.specs.Algorithms.{contains};
ghost use Rattle.stun_judging.specs.Found.{claim_of, found_key, is_claimed};
ghost use Rattle.stun_judging.specs.Named.{named_seen};
ghost use Rattle.stun_judging.specs.Reading.{reading_of};
ghost use Rattle.stun_judging.specs.Registered.{key_from, key_if, user_by_keys, user_by_password};
ghost use Rattle.stun_judging.specs.Verdict.{their_nonce};

use crate::algorithm_set::AlgorithmSet;
use crate::named_user::NamedUser;
use crate::read_message::ReadMessage;
use crate::realm::Realm;
use crate::stored_keys::StoredKeys;
use crate::verdict::{agree_on_algorithm, is_same_nonce, is_unoffered};
use std::alloc::Allocator;
use std::fmt;
use std::marker::Model;
use stun_base::algorithm::IntegrityAlgorithm;
use stun_base::compare::is_same_text;
use stun_base::key::{IntegrityKey, long_term_key, userhash};
use stun_base::memory::Memory;
use stun_base::prepared_key::PreparedKey;

/// The claim of a signed message: the user whom it names, its nonce, and the algorithm that both
/// sides agree on. The nonce may still be out of date, the user may not exist, and the signature
/// may be invalid, because a claim is made before these are checked.
///
/// `Realm::claim_in` returns a claim, and `Realm::verify_found` checks its user and its signature.
///
/// Contracts: the value is a record of the message's bytes, the user and the algorithm.
#[derive(Drop)]
pub struct UserClaim<'a, 'm, 'r> {
    read: &'r ReadMessage<'a, 'm>,
    nonce: &'a str,
    user: NamedUser<'a>,
    algorithm: IntegrityAlgorithm,
}

impl<'a, 'm, 'r> Model for UserClaim<'a, 'm, 'r> {
    ghost use Rattle.std.specs.Prelude.{◌≡◌, Some};
    ghost use Rattle.stun_judging.specs.Found.{ClaimSeen};
    ghost use Rattle.stun_judging.specs.Named.{named_seen};
    ghost use Rattle.stun_judging.specs.Reading.{reading_of};

    ghost Value = { ClaimSeen };

    ghost view = { λ claim. record {
      message = claim.read.now;
      user = named_seen claim.user;
      algorithm = claim.algorithm;
    } };

    ghost invariant = { λ claim. (reading_of claim.read.now).nonce ≡ Some claim.nonce.now };
}

impl<'a, 'm, 'r> UserClaim<'a, 'm, 'r> {
    /// Returns the user whom the message names. Anybody can name any user, because the signature is
    /// not checked yet.
    pub fn user(&self) -> NamedUser<'a>
        ensures { named_seen result ≡ self.now.user }
    {
        self.user
    }

    /// Returns the algorithm that both sides agree on. `Realm::verify_found` accepts the message
    /// only if its signature is valid under the user's key for this algorithm.
    pub fn algorithm(&self) -> IntegrityAlgorithm
        ensures { result ≡ self.now.algorithm }
    {
        self.algorithm
    }

    /// Returns whether the message has this nonce. The call compares all bytes, even after a
    /// difference.
    pub fn has_nonce(&self, nonce: &str) -> bool
        ensures { result ≡ bytes_eq (their_nonce (reading_of self.now.message)) nonce.now }
    {
        is_same_nonce(self.nonce, nonce)
    }
}

/// The secret of a user who was found.
#[derive(Clone, Copy)]
enum FoundSecret<'u> {
    Password(&'u str),
    Keys(StoredKeys),
}

impl FoundSecret<'_> {
    ghost use Rattle.stun_judging.specs.code.Found.{found_secret};

    /// Makes the key for an algorithm, from the name, the realm and the password, or from the
    /// stored keys. Returns `None` if the secret is stored keys, and none of them is for this
    /// algorithm. It does not allocate.
    fn make_key<A: Allocator + Copy>(
        &self,
        alloc: A,
        algorithm: IntegrityAlgorithm,
        name: &str,
        realm: &str,
    ) -> Option<IntegrityKey<A>>
        ensures { result ≡ key_from algorithm name.now realm.now (found_secret self.now) }
    {
        match self {
            FoundSecret::Password(password) => {
                Some(long_term_key(alloc, algorithm, name, realm, password))
            }
            FoundSecret::Keys(keys) => keys.make_key(alloc, algorithm),
        }
    }
}

/// A user whom the caller found: a name, and a password or stored keys. The name and the password
/// are borrowed from the caller. A key is made only when a message needs it.
///
/// For a user who sends many messages it is cheaper to call `Realm::prepare_user` once.
///
/// `Debug` shows nothing of the contents.
///
/// Contracts: the value is a record of the name, and of the password or the keys.
#[derive(Drop)]
pub struct FoundUser<'u> {
    name: &'u str,
    secret: FoundSecret<'u>,
}

impl<'u> Model for FoundUser<'u> {
    ghost use Rattle.stun_judging.specs.Registered.{RegisteredUser};
    ghost use Rattle.stun_judging.specs.code.Found.{found_secret};

    ghost Value = { RegisteredUser };

    ghost view = { λ user. record {
      username = user.name.now;
      secret = found_secret user.secret;
    } };
}

impl<'u> FoundUser<'u> {
    /// Creates a user with a password.
    pub fn with_password(name: &'u str, password: &'u str) -> Self
        ensures { result ≡ user_by_password
            (record { username = name.entry.now; password = password.entry.now }) }
    {
        FoundUser {
            name,
            secret: FoundSecret::Password(password),
        }
    }

    /// Creates a user with stored keys in place of a password. The keys must have been made for the
    /// realm that judges the message, because clients derive their keys for this realm.
    pub fn with_keys(name: &'u str, keys: StoredKeys) -> Self
        ensures { result ≡ user_by_keys name.entry.now keys }
    {
        FoundUser {
            name,
            secret: FoundSecret::Keys(keys),
        }
    }

    /// Returns the user's name.
    pub fn name(&self) -> &'u str
        ensures { result.now ≡ self.now.username }
    {
        self.name
    }

    /// Prepares the user's key for an algorithm at a realm. Returns `None` if the algorithm is not
    /// supported, or if the user has no key for it. It does not allocate.
    fn prepare_key<A: Allocator + Copy>(
        &self,
        alloc: A,
        supported: AlgorithmSet,
        algorithm: IntegrityAlgorithm,
        realm: &str,
    ) -> Option<PreparedKey<A>>
        ensures { result ≡ key_if (contains algorithm supported) algorithm self.now.username
            realm.now self.now.secret }
    {
        if !supported.contains(algorithm) {
            return None;
        }
        let key = self.secret.make_key(alloc, algorithm, self.name, realm)?;
        Some(PreparedKey::new(key, algorithm))
    }
}

impl fmt::Debug for FoundUser<'_> {
    ghost debug_output = { λ _. Some (codes "FoundUser { .. }") };

    fn fmt<W: fmt::Write>(&self, f: &mut fmt::Formatter<W>) -> fmt::Result
        ensures writes { WritesOnOk W.write_str_gives f.old result
            (codes "FoundUser { .. }") f.new }

        // The options of the formatter, such as the width, do not change the text.
        ensures styled { WritesStyledOnOk W.write_str_gives f.old result
            (codes "FoundUser { .. }") f.new }
    {
        f.write_str("FoundUser { .. }")
    }
}

/// Returns whether `user`, whom a message names, is the user with this name at this realm.
fn is_claimed(user: NamedUser<'_>, name: &str, realm: &str) -> bool
    ensures { result ≡ is_claimed (named_seen user.entry) name.now realm.now }
{
    match user {
        NamedUser::ByName(claimed) => is_same_text(claimed.as_bytes(), name.as_bytes()),
        NamedUser::ByHash(hash) => is_same_text(&userhash(name, realm), &hash),
    }
}

impl<A: Memory> Realm<A> {
    /// Returns the claim of a message if only the nonce, the user and the signature remain to be
    /// checked (RFC 8489, section 9.2.4). Such a message has a well-formed integrity attribute, a
    /// REALM, a NONCE, and a user name or, if the realm accepts hashes, the hash of a user name. If
    /// the nonce has the security bit *Password algorithms*, and the message has algorithms, these
    /// agree with the algorithms that the realm supports. Otherwise the algorithm of the claim is
    /// HMAC-SHA1, even if the realm does not support it. If HMAC-SHA1 is the only algorithm that
    /// the realm supports, it offers no list, and the message has no algorithms.
    ///
    /// Returns `None` for every other message, and `judge` refuses such a message whatever users
    /// the realm has. This call does not check the class of the message, so reject responses before
    /// you call it. It does not allocate.
    pub fn claim_in<'a, 'm, 'r>(
        &self,
        read: &'r ReadMessage<'a, 'm>,
    ) -> Option<UserClaim<'a, 'm, 'r>>
        ensures { result ≡ claim_of self.now.registered.algorithms self.now.feature read.now }
    {
        let reading = &read.reading;
        if !reading.has_integrity {
            return None;
        }
        reading.realm?;
        let nonce = reading.nonce?;
        let user = self.named_in(read)?;
        if is_unoffered(self.algorithms(), reading) {
            return None;
        }
        let algorithm = agree_on_algorithm(reading, nonce, Some(self.algorithms()))?;
        Some(UserClaim {
            read,
            nonce,
            user,
            algorithm,
        })
    }

    /// Verifies that a message was signed by a user whom you found: it names the user, the user has
    /// a key for the agreed algorithm, and the signature is valid under that key. If so, returns
    /// the agreed algorithm, and the key. Otherwise returns `None`.
    ///
    /// If the call returns a key, the message is accepted from this user under the message's own
    /// nonce. `judge_of`, called with this nonce and with the user that `prepare_user` returns,
    /// gives the same verdict. Check with `UserClaim::has_nonce` that the nonce is current.
    ///
    /// Sign the response with this key and this algorithm, which is the one that
    /// `UserClaim::algorithm` returns. The signature of the message itself may have the other
    /// algorithm. The call derives only this one key, and does not allocate.
    ///
    /// Contracts: law `found_users_are_judged_as_prepared_ones`.
    pub fn verify_found(
        &self,
        claim: &UserClaim<'_, '_, '_>,
        user: &FoundUser<'_>,
    ) -> Option<(IntegrityAlgorithm, PreparedKey<A>)>
        ensures { result ≡ found_key self.now.registered claim.now user.now }
    {
        let realm = self.name();
        if !is_claimed(claim.user, user.name, realm) {
            return None;
        }
        let key = user.prepare_key(self.alloc, self.algorithms(), claim.algorithm, realm)?;
        match claim.read.verified_under(&key) {
            Some(_) => Some((claim.algorithm, key)),
            None => None,
        }
    }
}
