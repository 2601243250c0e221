//! The server side of long-term authentication (RFC 8489, section 9.2.4).
//!
//! docs/PARTS.md gives the steps of a server and the reason for each, and
//! `rust/checks/src/api/server_loop.rs` contains a complete loop.
//!
//! `validate_incoming_message` and `sign_outgoing_message` keep a record of each client address. A
//! server that stores nothing about its clients calls `nonce_of_words`, `judge` and `add_challenge`
//! of a `Realm` (`as_realm`) in place of these two calls.

ghost use Rattle.std.specs.Prelude.{◌≡◌, ◌≤◌, Option, None, Some, OnOk, OnErr, Ok};
ghost use Rattle.std.specs.Prelude.{IsOk, codes};
ghost use Rattle.std.specs.Duration.{as_nanos};
ghost use Rattle.std.specs.Fmt.{WritesOnOk, WritesStyledOnOk};
ghost use Rattle.std.specs.Option.{option_copied, option_map};
ghost use Rattle.std.specs.FinMap as map;
ghost use Rattle.std.specs.String.{string_bytes};
ghost use Rattle.stun_judging.specs.Algorithms.{algorithms_of, only, with_algorithm};
ghost use Rattle.stun_auth.specs.Forgetting.{after_forgetting, without_place};
ghost use Rattle.stun_auth.specs.ForgettingSteps.{after_step, next_address};
ghost use Rattle.stun_auth.specs.Validation.{MINIMUM_EXPIRY, client_at, new_server, realm_of};
ghost use Rattle.stun_auth.specs.Seen.{PlaceSeen};
ghost use Rattle.stun_auth.specs.Places.{with_change, with_client};
ghost use Rattle.stun_judging.specs.Registered.{name_with_hash, with_user, with_user_by_keys};
ghost use Rattle.stun_judging.specs.Registered.{without_user};

use crate::server::places::Places;
use std::alloc::{AllocError, Allocator, Global};
use std::fmt;
use std::marker::Model;
use std::net::SocketAddr;
use std::time::Duration;
use stun_base::algorithm::IntegrityAlgorithm;
use stun_base::credentials::LongTermCredentials;
use stun_base::instant::Instant;
use stun_base::memory::Memory;
use stun_judging::algorithm_set::AlgorithmSet;
use stun_judging::feature::Feature;
use stun_judging::realm::Realm;
use stun_judging::stored_keys::StoredKeys;

mod drawn;
mod handed;
pub(crate) mod places;
pub(crate) mod reason;
mod signing;
mod validation;

/// The shortest time for which a nonce may be valid, in seconds.
const MINIMUM_NONCE_EXPIRY_SECONDS: u64 = 30;

/// The time for which a nonce is valid unless another time is set, in seconds.
const DEFAULT_NONCE_EXPIRY_SECONDS: u64 = 3600;

/// Returns the shortest time for which a nonce may be valid, 30 seconds: the least that
/// `LongTermServerAuth::set_nonce_expiry_duration` accepts.
pub fn minimum_nonce_expiry_duration() -> Duration
    ensures { as_nanos result ≡ MINIMUM_EXPIRY }
{
    Duration::from_secs(MINIMUM_NONCE_EXPIRY_SECONDS)
}

/// The server side of long-term authentication (RFC 8489, section 9.2.4): a realm with its users,
/// and a record for each client address.
///
/// The record of an address holds the latest nonce that was made for it, the time at which that
/// nonce expires, the algorithms that the address was offered, and its *client*. The client is the
/// user who was validated there last.
///
/// Almost every request or indication from a new address adds a record, even if it is refused. The
/// only exception is a message that has an integrity attribute but lacks REALM, NONCE or a user
/// name. So anybody who can send from many addresses makes the server grow, and you have to limit
/// the number of records (see `address_count`).
///
/// A record stays until a call forgets it or the server is dropped. `forget_expired` forgets a
/// record that has no client once its nonce has expired. `forget` forgets a record at once.
///
/// `Debug` shows nothing of the contents.
///
/// Contracts: the value is a record of the realm's name, algorithms and users (`registered`), the
/// settings (`feature`, `expiry`), and the records of addresses (`places`). Each user has a
/// password or stored keys.
#[derive(Drop)]
pub struct LongTermServerAuth<A: Allocator = Global> {
    alloc: A,
    realm: Realm<A>,
    expiry: Duration,
    places: Places<A>,
}

impl<A: Allocator> Model for LongTermServerAuth<A> {
    ghost use Rattle.std.specs.Duration.{as_nanos};
    ghost use Rattle.stun_auth.specs.Validation.{ServerSeen};
    ghost use Rattle.stun_auth.specs.code.Validation.{coded_server};

    ghost Value = { ServerSeen };

    ghost coded = { coded_server };

    ghost view = { λ s. record {
      registered = s.realm.registered;
      feature = s.realm.feature;
      expiry = as_nanos s.expiry;
      places = s.places.seen;
    } };
}

impl<A: Allocator> fmt::Debug for LongTermServerAuth<A> {
    ghost debug_output = { λ _. Some (codes "LongTermServerAuth { .. }") };

    fn fmt<W: fmt::Write>(&self, f: &mut fmt::Formatter<W>) -> fmt::Result
        ensures writes { WritesOnOk W.write_str_gives f.old result
            (codes "LongTermServerAuth { .. }") f.new }

        // The options of the formatter, such as the width, do not change the text.
        ensures styled { WritesStyledOnOk W.write_str_gives f.old result
            (codes "LongTermServerAuth { .. }") f.new }
    {
        f.write_str("LongTermServerAuth { .. }")
    }
}

impl<A: Memory> LongTermServerAuth<A> {
    /// Creates a server for a realm, without users. It supports HMAC-SHA1 only, accepts hashed user
    /// names (`Feature::Auto`), and its nonces are valid for 3600 seconds.
    ///
    /// A realm longer than 763 bytes is accepted here, but then no response can be signed (RFC
    /// 8489, section 14.9). The call does not allocate.
    pub fn new(alloc: A, realm: String<A>) -> Self
        ensures { result ≡ new_server (string_bytes realm) }
    {
        LongTermServerAuth {
            alloc,
            realm: Realm::new(alloc, realm, AlgorithmSet::OnlySha1, Feature::Auto),
            expiry: Duration::from_secs(DEFAULT_NONCE_EXPIRY_SECONDS),
            places: Places::new(alloc),
        }
    }

    /// Returns the realm with its users, which judges messages under nonces that you pass
    /// (`Realm::judge`), returns the user whom a message names (`Realm::named_in`), and prepares a
    /// user whom you look up elsewhere (`Realm::prepare_user`).
    ///
    /// These calls neither read nor make a record of an address, use no random numbers, and judge
    /// without an allocation. They take `&self`, so threads can share the server. A server that
    /// derives its nonces from a secret, the address and the time needs no record of an address, so
    /// it can use a `Realm` in place of this type.
    pub fn as_realm(&self) -> &Realm<A>
        ensures { result.now ≡ realm_of self.now }
    {
        &self.realm
    }

    /// Returns the name of the realm, which is the value of REALM in responses (RFC 8489, section
    /// 14.9).
    pub fn realm(&self) -> &str
        ensures { result.now ≡ self.now.registered.realm }
    {
        self.realm.name()
    }

    /// Returns the name of the registered user whose name has this hash at the realm (USERHASH, RFC
    /// 8489, section 14.4), or `None` if there is no such user. If several names have the hash,
    /// returns the first of them in byte order. The call does not allocate and computes no hash.
    pub fn name_with_hash(&self, hash: &[u8; 32]) -> Option<&str>
        ensures { option_copied result ≡ name_with_hash self.now.registered hash.now }
    {
        self.realm.name_with_hash(hash)
    }

    /// Returns the supported algorithms, the strongest first: HMAC-SHA256 before HMAC-SHA1.
    pub fn supported_integrity(&self) -> &[IntegrityAlgorithm]
        ensures { result.now ≡ algorithms_of self.now.registered.algorithms }
    {
        self.realm.algorithms().as_slice()
    }

    /// Returns whether clients may send a hash (USERHASH) in place of the user name (RFC 8489,
    /// section 14.4).
    pub fn anonymous_username(&self) -> Feature
        ensures { result ≡ self.now.feature }
    {
        self.realm.feature()
    }

    /// Returns the number of addresses that have a record. It takes constant time.
    ///
    /// To limit the number of records, let the server validate a message only if the count is below
    /// your limit, or if the address of the message already has a record. The count then never
    /// exceeds your limit, because a message adds at most one record, and only for a new address.
    /// Only `forget`, `forget_expired` and `forget_expired_within` remove records.
    ///
    /// Contracts: law `addresses_stay_within_a_bound`.
    pub fn address_count(&self) -> usize
        ensures { result ≡ map.len self.now.places }
    {
        self.places.len()
    }

    /// Returns the latest nonce that was made for an address, whether it has expired or not, or
    /// `None` if the address has no record.
    pub fn nonce_for_client(&self, address: SocketAddr) -> Option<&str>
        ensures { option_copied result ≡ option_map (λ (p : PlaceSeen). p.nonce)
            (map.get self.now.places address) }
    {
        match self.places.get(address) {
            Some(place) => Some(place.nonce.as_str()),
            None => None,
        }
    }

    /// Returns the client of an address, which is the user who was validated there last, and the
    /// algorithm that both sides agreed on. The last request or indication that was `Validated` at
    /// the address named this user.
    ///
    /// Call this right after `Validated` to learn who sent the request. The first USERNAME of a
    /// message, and the algorithm of its signature, may differ from the name and the algorithm that
    /// this call returns. A refused message does not change the client of the address, and a user
    /// who has been removed since is still returned.
    ///
    /// Returns `None` if nobody was validated at the address, or after `remove_client`.
    pub fn client(&self, address: SocketAddr) -> Option<(&str, IntegrityAlgorithm)>
        ensures { option_map (λ pair. record { name = pair.0.now; algorithm = pair.1 }) result
            ≡ client_at self.now address }
    {
        match self.places.get(address) {
            Some(place) => match place.client() {
                Some(client) => Some((client.name.as_str(), client.algorithm)),
                None => None,
            },
            None => None,
        }
    }

    /// Adds a user with a key for each algorithm (RFC 8489, section 9.2.2), or replaces the
    /// password or keys of an existing user. The server uses the keys for the algorithms that it
    /// supports, including algorithms that it supports later.
    ///
    /// A name longer than 513 bytes is accepted, but only a USERHASH can name such a user (section
    /// 14.3).
    ///
    /// Fails if an allocation fails. The server is then unchanged.
    pub fn add_user(&mut self, credentials: LongTermCredentials<A>) -> Result<(), AllocError>
        ensures ok { OnOk result (self.new ≡ record self.old {
          registered = with_user self.old.registered credentials;
        }) }
        ensures err { OnErr result (self.new ≡ self.old) }
        ensures granted { A.grants → IsOk result }
    {
        self.realm.add_user(credentials)
    }

    /// Adds a user with stored keys in place of a password, or replaces the password or keys of an
    /// existing user.
    ///
    /// Clients derive their keys for the realm that the server sends, so `keys` must have been made
    /// for this realm. The user has the keys of the algorithms that the server supports, including
    /// algorithms that it supports later, if `keys` has them.
    ///
    /// A name of more than 513 bytes is accepted, but only a USERHASH can name such a user, because
    /// USERNAME is limited to 513 bytes (RFC 8489, section 14.3).
    ///
    /// Fails if an allocation fails. The server is then unchanged.
    pub fn add_user_with_keys(
        &mut self,
        name: String<A>,
        keys: StoredKeys,
    ) -> Result<(), AllocError>
        ensures ok { OnOk result (self.new ≡ record self.old {
          registered = with_user_by_keys self.old.registered (string_bytes name) keys;
        }) }
        ensures err { OnErr result (self.new ≡ self.old) }
        ensures granted { A.grants → IsOk result }
    {
        self.realm.add_user_with_keys(name, keys)
    }

    /// Returns the supported algorithms as a set.
    pub fn algorithms(&self) -> AlgorithmSet
        ensures { result ≡ self.now.registered.algorithms }
    {
        self.realm.algorithms()
    }

    /// Sets the supported algorithms. Of each user's keys, the server then uses only the keys for
    /// these algorithms. The call does not allocate.
    ///
    /// Call it before the first message arrives, for the reason that `set_supported_integrity`
    /// gives.
    pub fn set_algorithms(&mut self, algorithms: AlgorithmSet)
        ensures { self.new ≡ record self.old {
          registered = record self.old.registered { algorithms = algorithms };
        } }
    {
        self.realm.set_algorithms(algorithms);
    }

    /// Adds a supported algorithm. It does not allocate.
    pub fn add_supported_integrity(&mut self, algorithm: IntegrityAlgorithm)
        ensures { self.new ≡ record self.old {
          registered = record self.old.registered {
            algorithms = with_algorithm algorithm self.old.registered.algorithms;
          };
        } }
    {
        self.set_algorithms(self.algorithms().with(algorithm));
    }

    /// Makes this the only supported algorithm. Each user then has only a key for this algorithm,
    /// and a user whose stored keys include none for it has no key. The call does not allocate.
    ///
    /// Call it before the first message arrives, because messages to a client that uses another
    /// algorithm can no longer be signed until you call `remove_client`.
    pub fn set_supported_integrity(&mut self, algorithm: IntegrityAlgorithm)
        ensures { self.new ≡ record self.old {
          registered = record self.old.registered { algorithms = only algorithm };
        } }
    {
        self.set_algorithms(AlgorithmSet::only(algorithm));
    }

    /// Sets whether clients may send a hash (USERHASH) in place of the user name (RFC 8489, section
    /// 14.4). Nonces that are made from now on announce this setting.
    ///
    /// A server treats `Feature::Required` like `Feature::Auto`: it still accepts a plain USERNAME.
    ///
    /// It never fails. The `Result` leaves room for a server that stores hashes only if they are
    /// needed.
    pub fn set_anonymous_username(&mut self, feature: Feature) -> Result<(), AllocError>
        ensures ok { result ≡ Ok tt }
        ensures state { self.new ≡ record self.old { feature = feature } }
    {
        self.realm.set_feature(feature);
        Ok(())
    }

    /// Removes a user and the user's keys, so that requests in that name are refused from now on.
    /// It does not allocate.
    ///
    /// If the user is still the client of an address, messages to that address cannot be signed
    /// (`IntegrityFailed`) until you call `remove_client` for it.
    pub fn remove_user(&mut self, name: &str)
        ensures { self.new ≡ record self.old {
          registered = without_user self.old.registered name.now;
        } }
    {
        self.realm.remove_user(name);
    }

    /// Forgets the client of an address, but keeps the nonce of the address and the algorithms that
    /// it was offered. Messages to this address get no signature until a client is validated there
    /// again. It does not allocate.
    ///
    /// The record keeps the memory of the user's name until another user is validated there or the
    /// record is forgotten. So the next request of the same user from the same address needs no new
    /// memory for the name.
    ///
    /// Call it after every response. As long as an address has a client, its record never expires,
    /// and its 401 and 438 responses have no list of algorithms, so a new client at the same
    /// address cannot authenticate.
    pub fn remove_client(&mut self, address: SocketAddr)
        ensures { self.new ≡ record self.old {
          places = with_change self.old.places address
              (with_client None);
        } }
    {
        self.places.remove_client(address);
    }

    /// Removes the record of an address: its nonce with the expiry time, the algorithms that it was
    /// offered, and its client. The records of other addresses stay. The next message from the
    /// address is treated like its first.
    ///
    /// It finds the record in logarithmic time, and does not allocate.
    pub fn forget(&mut self, address: SocketAddr)
        ensures { self.new ≡ without_place self.old address }
    {
        self.places.forget(address);
    }

    /// Removes every record that has no client and whose nonce expired before `now`, and frees its
    /// memory. Other records stay.
    ///
    /// Pass the current time minus the nonce lifetime, so that a record outlives its nonce by one
    /// more lifetime. A client that returns within that time gets a 438 and can continue. Without
    /// the record, a client that repeats the algorithms that it was once offered is refused with
    /// `BadRequest`.
    ///
    /// This visits every record once, so call it every few seconds rather than for each message. It
    /// does not allocate.
    pub fn forget_expired(&mut self, now: Instant)
        ensures { self.new ≡ after_forgetting self.old now }
    {
        self.places.forget_expired(now);
    }

    /// Forgets records like `forget_expired`, but visits at most `most` records, so that a server
    /// with many records has no long pause.
    ///
    /// It visits addresses that have a record, in the order of `SocketAddr`, starting at `from`, or
    /// at the first one if `from` is `None`. It returns the first address that it did not visit, or
    /// `None` once it has visited the last. Pass the result of each call to the next:
    ///
    /// ```text
    /// next = auth.forget_expired_within(now, next, 100);
    /// ```
    ///
    /// A series of calls that ends with `None`, with no other call between them, forgets the same
    /// records as `forget_expired` (law `steps_forget_what_has_expired`). A record that is made
    /// during the series is visited in this series if its address comes after `next`, and otherwise
    /// in the next one.
    ///
    /// It does not allocate. Each record costs one look-up, and one more if it is removed.
    pub fn forget_expired_within(
        &mut self,
        now: Instant,
        from: Option<SocketAddr>,
        most: usize,
    ) -> Option<SocketAddr>
        ensures next { result ≡ next_address self.old from most }
        ensures state { self.new ≡ after_step self.old now from most }
    {
        self.places.forget_expired_within(now, from, most)
    }

    /// Sets how long new nonces are valid. Existing nonces are not affected.
    ///
    /// `expiry` must be at least `minimum_nonce_expiry_duration()`, which is 30 seconds.
    pub fn set_nonce_expiry_duration(&mut self, expiry: Duration)
        requires { MINIMUM_EXPIRY ≤ as_nanos expiry }
        ensures { self.new ≡ record self.old { expiry = as_nanos expiry } }
    {
        self.expiry = expiry;
    }
}
