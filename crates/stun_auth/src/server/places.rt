//! The records of addresses: nonce, expiry time, offered algorithms, and client.

ghost use Rattle.std.specs.Prelude.{◌≡◌, ◌↔◌, IfOk, IfSome, IsTrue, false, Option, None, Some};
ghost use Rattle.std.specs.Prelude.{IsOk, OnOk, OnErr, if◌then◌else◌};
ghost use Rattle.std.specs.Option.{option_map, option_map_or, option_copied};
ghost use Rattle.std.specs.FinMap as map;
ghost use Rattle.std.specs.String.{string_bytes};
ghost use Rattle.stun_auth.specs.Forgetting.{is_forgotten, places_kept};
ghost use Rattle.stun_auth.specs.ForgettingSteps.{is_looked_at, next_address_from};
ghost use Rattle.stun_auth.specs.ForgettingSteps.{places_kept_where, start_of};
ghost use Rattle.stun_auth.specs.Places.{with_change, with_client, with_offer};
ghost use Rattle.stun_auth.specs.code.Places.{IsFirstFrom, client_seen, place_seen, renewed_with};

use std::alloc::{AllocError, Allocator};
use std::collections::BTreeMap;
use std::marker::Model;
use std::net::SocketAddr;
use std::ops::Bound;
use stun_base::algorithm::IntegrityAlgorithm;
use stun_base::instant::Instant;
use stun_base::memory::Memory;
use stun_judging::algorithm_set::AlgorithmSet;
use stun_judging::limited_text::LimitedText;

/// The user who was validated last at an address.
#[derive(Drop)]
pub(crate) struct ValidatedUser<A: Allocator> {
    pub(crate) name: String<A>,
    pub(crate) algorithm: IntegrityAlgorithm,
}

impl<A: Memory> ValidatedUser<A> {
    ghost use Rattle.stun_auth.specs.code.Places.{client_seen};

    /// Creates a client with a copy of this name. Fails if an allocation fails.
    pub(crate) fn new(
        alloc: A,
        name: &str,
        algorithm: IntegrityAlgorithm,
    ) -> Result<Self, AllocError>
        ensures client { IfOk result (λ client. client_seen client
            ≡ record { name = name.now; algorithm = algorithm }) }
        ensures granted { A.grants → IsOk result }
    {
        let name = A::text(alloc, name)?;
        Ok(ValidatedUser { name, algorithm })
    }

    /// Returns a client with this name. If `removed` has the same name, its text is used and
    /// nothing is allocated. Otherwise the name is copied.
    pub(crate) fn from_removed(
        removed: Option<Self>,
        alloc: A,
        name: &str,
        algorithm: IntegrityAlgorithm,
    ) -> Result<Self, AllocError>
        ensures client { IfOk result (λ client. client_seen client
            ≡ record { name = name.now; algorithm = algorithm }) }
        ensures needless { option_map (λ user. string_bytes user.name) removed ≡ Some name.now
            → IsOk result }
        ensures granted { A.grants → IsOk result }
    {
        match removed {
            Some(user) => {
                if user.name.as_str() == name {
                    return Ok(ValidatedUser {
                        name: user.name,
                        algorithm,
                    });
                }
            }
            None => {}
        }
        ValidatedUser::new(alloc, name, algorithm)
    }
}

/// The record of an address.
///
/// After a client is removed, the record has no client, but keeps the name, so that no memory is
/// needed if that client returns.
#[derive(Drop)]
pub(crate) struct Place<A: Allocator> {
    pub(crate) nonce: LimitedText<A>,
    pub(crate) expires: Instant,
    pub(crate) offered: Option<AlgorithmSet>,
    last_user: Option<ValidatedUser<A>>,
    is_removed: bool,
}

impl<A: Allocator> Place<A> {
    ghost use Rattle.stun_auth.specs.Forgetting.{is_forgotten};
    ghost use Rattle.stun_auth.specs.Places.{with_client, with_offer};
    ghost use Rattle.stun_auth.specs.code.Places.{place_seen, client_seen, renewed_with};

    /// Creates the record of an address that had no record.
    fn new(nonce: LimitedText<A>, expires: Instant, client: Option<ValidatedUser<A>>) -> Self
        ensures { place_seen result ≡ renewed_with None (string_bytes nonce.text) expires
            (option_map client_seen client) }
    {
        Place {
            nonce,
            expires,
            offered: None,
            last_user: client,
            is_removed: false,
        }
    }

    /// Returns the client, which is the user who was validated last. Returns `None` if no user was
    /// validated, or if the client has been removed since.
    pub(crate) fn client(&self) -> Option<&ValidatedUser<A>>
        ensures { option_map client_seen (option_copied result) ≡ (place_seen self.now).client }
    {
        if self.is_removed {
            return None;
        }
        match &self.last_user {
            Some(client) => Some(client),
            None => None,
        }
    }

    /// Returns whether the record has a client with this name and this algorithm.
    pub(crate) fn has_client(&self, name: &str, algorithm: IntegrityAlgorithm) -> bool
        ensures { IsTrue result ↔ ((place_seen self.now).client
            ≡ Some (record { name = name.now; algorithm = algorithm })) }
    {
        match self.client() {
            Some(client) => client.algorithm == algorithm && client.name.as_str() == name,
            None => false,
        }
    }

    /// Returns whether the record may be forgotten at a time: it has no client, and its nonce
    /// expired before that time.
    fn is_forgotten(&self, now: Instant) -> bool
        ensures { result ≡ is_forgotten now (place_seen self.now) }
    {
        self.client().is_none() && self.expires < now
    }

    /// Stores the algorithms that were offered. Does nothing if the record has a client.
    fn offer(&mut self, supported: AlgorithmSet)
        ensures { place_seen self.new ≡ with_offer supported (place_seen self.old) }
    {
        if self.client().is_none() {
            self.offered = Some(supported);
        }
    }

    /// Stores another nonce in the record, and another client if one is passed.
    fn renew(&mut self, nonce: LimitedText<A>, expires: Instant, client: Option<ValidatedUser<A>>)
        ensures { place_seen self.new ≡ renewed_with (Some (place_seen self.old))
            (string_bytes nonce.text) expires (option_map client_seen client) }
    {
        self.nonce = nonce;
        self.expires = expires;
        if client.is_some() {
            self.set_client(client);
        }
    }

    /// Makes a user the client of the record, or removes its client if `client` is `None`.
    fn set_client(&mut self, client: Option<ValidatedUser<A>>)
        ensures { place_seen self.new
            ≡ with_client (option_map client_seen client) (place_seen self.old) }
    {
        self.last_user = client;
        self.is_removed = false;
    }

    /// Removes the client, but keeps the name.
    fn remove_client(&mut self)
        ensures state { place_seen self.new ≡ with_client None (place_seen self.old) }
        ensures kept { self.new.last_user ≡ self.old.last_user }
    {
        self.is_removed = true;
    }

    /// Returns the client that was removed, and no longer stores its name. Returns `None` if no
    /// client was removed.
    fn take_removed(&mut self) -> Option<ValidatedUser<A>>
        ensures state { place_seen self.new ≡ place_seen self.old }
        ensures removed { result ≡ (if self.old.is_removed then self.old.last_user else None) }
    {
        if self.is_removed {
            return self.last_user.take();
        }
        None
    }
}

/// The first address with a record in a range, and whether that record may be forgotten.
#[derive(Clone, Copy)]
struct FirstPlace {
    address: SocketAddr,
    has_expired: bool,
}

/// A map from each address to its record.
#[derive(Drop)]
pub(crate) struct Places<A: Allocator> {
    by_address: BTreeMap<SocketAddr, Place<A>, A>,
}

impl<A: Allocator> Model for Places<A> {
    ghost use Rattle.stun_auth.specs.code.Places.{PlacesKept, coded_places};
    ghost use Rattle.stun_auth.specs.code.Places.{last_users_of, places_seen};

    ghost Value = { PlacesKept };

    ghost coded = { coded_places };

    ghost view = { λ places. record {
      seen = places_seen places.by_address.entries;
      last_users = last_users_of places.by_address.entries;
    } };
}

impl<A: Memory> Places<A> {
    /// Creates a map without records.
    pub(crate) fn new(alloc: A) -> Self
        ensures { result.seen ≡ map.empty }
    {
        Places {
            by_address: BTreeMap::new(alloc),
        }
    }

    /// Returns the number of addresses that have a record.
    pub(crate) fn len(&self) -> usize
        ensures { result ≡ map.len self.now.seen }
    {
        self.by_address.len()
    }

    /// Returns the record of an address, or `None` if the address has no record.
    pub(crate) fn get(&self, address: SocketAddr) -> Option<&Place<A>>
        ensures { option_map place_seen (option_copied result) ≡ map.get self.now.seen address }
    {
        self.by_address.get(&address)
    }

    /// Makes a user the client of an address that has a record, or removes the client if `client`
    /// is `None`.
    pub(crate) fn set_client(&mut self, address: SocketAddr, client: Option<ValidatedUser<A>>)
        ensures { self.new.seen ≡ with_change self.old.seen address
            (with_client (option_map client_seen client)) }
    {
        match self.by_address.get_mut(&address) {
            Some(place) => {
                place.set_client(client);
                return;
            }
            None => return,
        }
    }

    /// Removes the client of an address, but keeps the name until another user is validated there.
    pub(crate) fn remove_client(&mut self, address: SocketAddr)
        ensures state { self.new.seen ≡ with_change self.old.seen address (with_client None) }
        ensures names { self.new.last_users ≡ self.old.last_users }
    {
        match self.by_address.get_mut(&address) {
            Some(place) => {
                place.remove_client();
                return;
            }
            None => return,
        }
    }

    /// Returns the client that was removed from an address, and no longer stores its name. Returns
    /// `None` if no client was removed there.
    pub(crate) fn take_removed(&mut self, address: SocketAddr) -> Option<ValidatedUser<A>>
        ensures { self.new.seen ≡ self.old.seen }
    {
        match self.by_address.get_mut(&address) {
            Some(place) => return place.take_removed(),
            None => return None,
        }
    }

    /// Forgets the record of an address.
    pub(crate) fn forget(&mut self, address: SocketAddr)
        ensures { self.new.seen ≡ map.remove self.old.seen address }
    {
        self.by_address.remove(&address);
    }

    /// Forgets each record without a client whose nonce expired before a time.
    pub(crate) fn forget_expired(&mut self, now: Instant)
        ensures { self.new.seen ≡ places_kept now self.old.seen }
    {
        self.by_address.retain(|_, place| !place.is_forgotten(now));
    }

    /// Forgets records like `forget_expired`, but visits at most `most` addresses, beginning at
    /// `from`, or at the first address if `from` is `None`. Returns the first address that it did
    /// not visit, or `None` if it has visited the last.
    pub(crate) fn forget_expired_within(
        &mut self,
        now: Instant,
        from: Option<SocketAddr>,
        most: usize,
    ) -> Option<SocketAddr>
        ensures next { result ≡ next_address_from self.old.seen (start_of from) most }
        ensures state { self.new.seen ≡ places_kept_where (is_looked_at from result) now self.old.seen }
    {
        let mut start = start_at(from);
        for _looked in 0..most {
            let first = self.find_first_from(start, now)?;
            self.forget_if(first.address, first.has_expired);
            start = Bound::Excluded(first.address);
        }
        let next = self.find_first_from(start, now)?;
        Some(next.address)
    }

    /// Returns the first address from `start` on that has a record, and whether that record may be
    /// forgotten. Returns `None` if there is no such address.
    fn find_first_from(&self, start: Bound<SocketAddr>, now: Instant) -> Option<FirstPlace>
        ensures first { IsFirstFrom self.now.seen start (option_map (λ f. f.address) result) }
        ensures expired { IfSome result (λ f. f.has_expired
            ≡ option_map_or (is_forgotten now) (map.get self.now.seen f.address) false) }
    {
        let (address, place) = self.by_address.range((start, Bound::Unbounded)).next()?;
        Some(FirstPlace {
            address: *address,
            has_expired: place.is_forgotten(now),
        })
    }

    /// Forgets the record of an address if `has_expired` is true. Pass `true` if the record may be
    /// forgotten (see `is_forgotten`).
    fn forget_if(&mut self, address: SocketAddr, has_expired: bool)
        ensures { self.new.seen ≡ (if has_expired then map.remove self.old.seen address else self.old.seen) }
    {
        if has_expired {
            self.forget(address);
        }
    }

    /// Stores the algorithms that were offered to an address. Does nothing if the address has no
    /// record, or if the record has a client.
    pub(crate) fn offer(&mut self, address: SocketAddr, supported: AlgorithmSet)
        ensures { self.new.seen ≡ with_change self.old.seen address (with_offer supported) }
    {
        match self.by_address.get_mut(&address) {
            Some(place) => {
                place.offer(supported);
                return;
            }
            None => return,
        }
    }

    /// Stores a nonce for an address in place of the former nonce, if any, and a client if one is
    /// passed.
    ///
    /// Only the first nonce of an address allocates here.
    pub(crate) fn renew(
        &mut self,
        address: SocketAddr,
        nonce: LimitedText<A>,
        expires: Instant,
        client: Option<ValidatedUser<A>>,
    ) -> Result<(), AllocError>
        ensures ok { OnOk result (self.new.seen ≡ map.insert self.old.seen address
            (renewed_with (map.get self.old.seen address) (string_bytes nonce.text) expires
            (option_map client_seen client))) }
        ensures err { OnErr result (self.new ≡ self.old) }
        ensures granted { A.grants → IsOk result }
    {
        match self.by_address.get_mut(&address) {
            Some(place) => {
                place.renew(nonce, expires, client);
                Ok(())
            }
            None => {
                let place = Place::new(nonce, expires, client);
                A::insert(&mut self.by_address, address, place)?;
                Ok(())
            }
        }
    }
}

/// Returns the bound at which a walk over addresses begins: `from`, or the first address if `from`
/// is `None`.
fn start_at(from: Option<SocketAddr>) -> Bound<SocketAddr>
    ensures { result ≡ start_of from }
{
    match from {
        Some(address) => Bound::Included(address),
        None => Bound::Unbounded,
    }
}
