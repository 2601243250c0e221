//! A server with long-term credentials: its settings, and the calls that need only the settings
//! (RFC 8489, section 9.2).

ghost use Rattle.std.specs.Fmt.{WritesOnOk, WritesStyledOnOk};
ghost use Rattle.std.specs.Prelude.{◌≡◌, ◌≤◌, Some, IfOk, IsOk, codes, length};
ghost use Rattle.std.specs.String.{string_bytes};
ghost use Rattle.stun_judging.specs.Algorithms.{contains};
ghost use Rattle.stun_judging.specs.Named.{just};
ghost use Rattle.stun_judging.specs.Nonces.{asks_for_algorithms};
ghost use Rattle.stun_judging.specs.Registered.{user_by_keys, user_by_password};
ghost use Rattle.stun_base.specs.declared.keys.algorithm.IntegrityAlgorithm.TheVariants.{Sha256};
ghost use Rattle.stun_endpoint.specs.Nonces.{current_nonce, nonce_in};
ghost use Rattle.stun_endpoint.specs.Realm.{table_of};
ghost use Rattle.stun_endpoint.specs.Settings.{registered_of};
ghost use Rattle.stun_types.specs.Limits.{TEXT_LIMIT};

use crate::nonces::write_nonce;
use crate::responder::Responder;
use crate::unix_time::UnixTime;
use crate::users::Users;
use std::alloc::{AllocError, Allocator, Global};
use std::fmt;
use std::marker::Model;
use std::net::SocketAddr;
use stun_base::credentials::LongTermCredentials;
use stun_base::memory::Memory;
use stun_base::prepared_key::PreparedKey;
use stun_judging::realm::Realm;
use stun_judging::stored_keys::StoredKeys;
use stun_judging::user::LongTermServerUser;

mod batches;
mod caused;
mod causes;
mod identifying;
pub(crate) mod judges;
mod judging;
mod receiving;
mod refusing;
mod settings;

pub use causes::Cause;
pub use settings::{
    BuildError, DEFAULT_NONCE_LIFETIME, LongTerm, SHORTEST_NONCE_LIFETIME, STUN_ATTRIBUTES,
};

/// A STUN server with long-term credentials (RFC 8489, section 9.2). It stores nothing about its
/// clients, and no call changes it.
///
/// The outcome of a datagram depends only on the datagram, its source address, the time, the
/// settings and the users, and not on earlier datagrams. So a flood of datagrams uses no memory,
/// threads share a server without a lock, and machines with the same settings can answer each
/// other's clients.
///
/// To change settings, build another server with the same secret. A table of users and a prepared
/// user serve every server of their realm. Whatever the settings of the server that made them, each
/// server accepts what its own settings offer. A server of another realm drops every datagram that
/// it is passed with them, with `DropReason::OtherRealm`.
///
/// If you remove HMAC-SHA256 from the algorithms, a client of this library that has succeeded with
/// HMAC-SHA256 drops the new challenges, because they are weaker. Its next request times out, and
/// the request after that succeeds. The same happens to a client that has succeeded with a hash, if
/// you forbid hashed names. After any other change of the algorithms or of `user_hashes`, each
/// client gets one 401 or 438, and signs its request again.
///
/// Contracts: a server is a record of its settings. `Debug` shows none of them, because the secret
/// is one of them.
#[derive(Drop)]
pub struct Server<A: Allocator = Global> {
    alloc: A,
    realm: Realm<A>,
    secret: PreparedKey<A>,
    previous: Option<PreparedKey<A>>,
    lifetime: u64,
    responder: Responder<A>,
}

impl<A: Allocator> Model for Server<A> {
    ghost use Rattle.std.specs.Prelude.{◌≡◌, ◌<◌, ◌≤◌, length};
    ghost use Rattle.stun_types.specs.Limits.{TEXT_LIMIT};
    ghost use Rattle.stun_judging.specs.Registered.{empty_realm};
    ghost use Rattle.stun_endpoint.specs.Settings.{Settings};

    ghost Value = { Settings };

    ghost view = { λ server. record {
      realm = server.realm.registered.realm;
      algorithms = server.realm.registered.algorithms;
      feature = server.realm.feature;
      secret = server.secret;
      previous = server.previous;
      lifetime = server.lifetime;
      known = server.responder.known;
      software = server.responder.software;
      answers_binding = server.responder.answers_binding;
      requires_fingerprint = server.responder.requires_fingerprint;
    } };

    ghost invariant = { λ server. (0 < server.lifetime)
        × (server.realm.registered
        ≡ empty_realm server.realm.registered.realm server.realm.registered.algorithms)
        × (length server.realm.registered.realm ≤ TEXT_LIMIT) };
}

impl<A: Allocator> fmt::Debug for Server<A> {
    ghost debug_output = { λ _. Some (codes "Server { .. }") };

    fn fmt<W: fmt::Write>(&self, f: &mut fmt::Formatter<W>) -> fmt::Result
        ensures writes { WritesOnOk W.write_str_gives f.old result
            (codes "Server { .. }") f.new }

        // The text does not depend on the width, the precision or any other option.
        ensures styled { WritesStyledOnOk W.write_str_gives f.old result
            (codes "Server { .. }") f.new }
    {
        f.write_str("Server { .. }")
    }
}

impl<A: Memory> Server<A> {
    /// Returns an empty table of users for this server's realm. It serves every server of this
    /// realm. Fails if an allocation fails.
    pub fn users(&self) -> Result<Users<A>, AllocError>
        ensures users { IfOk result (λ users. users ≡ table_of self.now) }
        ensures granted { A.grants → IsOk result }
    {
        let name = A::text(self.alloc, self.realm.name())?;
        let (algorithms, feature) = (self.realm.algorithms(), self.realm.feature());
        let realm = Realm::new(self.alloc, name, algorithms, feature);
        Ok(Users { realm })
    }

    /// Derives the keys of a user with a password, for `receive_for`. You may cache the result and
    /// use it with every server of the same realm. Fails if an allocation fails.
    pub fn user(
        &self,
        credentials: LongTermCredentials<A>,
    ) -> Result<LongTermServerUser<A>, AllocError>
        ensures user { IfOk result (λ user. user
            ≡ just (registered_of self.now) (Some (user_by_password credentials))) }
        ensures granted { A.grants → IsOk result }
    {
        self.realm.prepare_user(credentials)
    }

    /// Prepares a user with keys that are stored in place of a password, for `receive_for`. The
    /// keys must have been made for this server's realm. You may cache the result and use it with
    /// every server of the same realm. Fails if an allocation fails.
    pub fn user_with_keys(
        &self,
        name: String<A>,
        keys: StoredKeys,
    ) -> Result<LongTermServerUser<A>, AllocError>
        ensures user { IfOk result (λ user. user
            ≡ just (registered_of self.now) (Some (user_by_keys (string_bytes name) keys))) }
        ensures granted { A.grants → IsOk result }
    {
        self.realm.prepare_user_with_keys(name, keys)
    }

    /// Returns the nonce that the server sends to an address at a time, in a 401 or a 438. The
    /// nonce depends only on the secret, the settings, the address and the time. It is accepted for
    /// one to two lifetimes after it is sent. It begins with the nonce cookie and the security bits
    /// of the settings, which are zero if only HMAC-SHA1 is supported and names are never hashed
    /// (RFC 8489, section 9.2). Fails if an allocation fails.
    pub fn nonce_for(&self, from: SocketAddr, now: UnixTime) -> Result<String<A>, AllocError>
        ensures nonce { IfOk result (λ nonce. string_bytes nonce
            ≡ current_nonce self.now from now) }
        ensures granted { A.grants → IsOk result }
    {
        self.make_nonce(&self.secret, from, now.epoch(self.lifetime))
    }

    /// Returns the nonce that the server makes with a secret for the address `from` in this epoch.
    /// It has the security bit *Password algorithms* if and only if HMAC-SHA256 is supported.
    #[tactic(auto, using(crate::proofs::OfferLemmas::nonce_asks, crate::proofs::OfferedLemmas::nonce_short))]
    fn make_nonce(
        &self,
        secret: &PreparedKey<A>,
        from: SocketAddr,
        epoch: u64,
    ) -> Result<String<A>, AllocError>
        ensures nonce { IfOk result (λ nonce. string_bytes nonce
            ≡ nonce_in self.now secret.now from epoch) }
        ensures offer { IfOk result (λ nonce. asks_for_algorithms (string_bytes nonce)
            ≡ contains Sha256 self.now.algorithms) }
        ensures short { IfOk result (λ nonce. length (string_bytes nonce) ≤ TEXT_LIMIT) }
        ensures granted { A.grants → IsOk result }
    {
        let (algorithms, feature) = (self.realm.algorithms(), self.realm.feature());
        write_nonce(self.alloc, secret, from, epoch, algorithms, feature)
    }
}
