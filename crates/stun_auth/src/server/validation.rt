//! Judges the messages that arrive at a server (RFC 8489, section 9.2.4).

ghost use Rattle.std.specs.Prelude.{◌≡◌, ◌↔◌, ⊤, true, IsTrue, Option, None, Some, IfOk};
ghost use Rattle.std.specs.Prelude.{IsOk, IfNone, Ok, if◌then◌else◌, option_and_then};
ghost use Rattle.std.specs.FinMap as map;
ghost use Rattle.std.specs.Option.{option_copied, option_map};
ghost use Rattle.stun_base.specs.Words.{next_words, after_words};
ghost use Rattle.stun_judging.specs.Reading.{reading_of, verified_under};
ghost use Rattle.stun_judging.specs.Registered.{key_at};
ghost use Rattle.stun_auth.specs.Seen.{PlaceSeen};
ghost use Rattle.stun_auth.specs.code.Places.{client_seen, place_seen};
ghost use Rattle.stun_auth.specs.Reasons.{ServerUnlessMemory};
ghost use Rattle.stun_auth.specs.Server.{has_current_nonce};
ghost use Rattle.stun_auth.specs.Validation.{ChangesNothing, ValidatesAccepted};
ghost use Rattle.stun_auth.specs.Validation.{after_validation, answer, client_verified};
ghost use Rattle.stun_auth.specs.Validation.{draws, sight, validated_or_failed};
ghost use Rattle.stun_auth.specs.code.Judging.{ChangesNoPlace, IsJudged, judgement_answer};
ghost use Rattle.stun_auth.specs.code.Judging.{new_nonce, place_with, places_left, renewal_seen};

use crate::server::LongTermServerAuth;
use crate::server::drawn::make_nonce;
use crate::server::places::{Place, Places, ValidatedUser};
use crate::server::reason::{
    LongTermServerAuthError, LongTermServerAuthErrorReason, LongTermServerValidation, wrap_reason,
};
use rand_core::Rng;
use std::alloc::{AllocError, Allocator};
use std::net::SocketAddr;
use stun_base::algorithm::IntegrityAlgorithm;
use stun_base::instant::Instant;
use stun_base::memory::Memory;
use stun_judging::accepted::Accepted;
use stun_judging::algorithm_set::AlgorithmSet;
use stun_judging::limited_text::LimitedText;
use stun_judging::read_message::ReadMessage;
use stun_judging::realm::Realm;
use stun_judging::refusal::VerdictRefusal;
use stun_types::message::Message;

/// A nonce that was made for an address, and its expiry time.
#[derive(Drop)]
struct Renewal<A: Allocator> {
    nonce: LimitedText<A>,
    expires: Instant,
}

/// The result of judging a message under a nonce.
#[derive(Drop)]
enum Judgement<A: Allocator> {
    /// The message is refused.
    Refused(VerdictRefusal),
    /// The message is accepted from the user who is already the client in the record, with this
    /// algorithm.
    Known(IntegrityAlgorithm),
    /// The message is accepted from another user, who becomes the client.
    New(ValidatedUser<A>),
}

impl<A: Allocator> Judgement<A> {
    ghost use Rattle.stun_auth.specs.code.Judging.{judgement_answer, client_in};

    /// Returns the result of `validate_incoming_message` for this judgement.
    fn to_answer(&self) -> Result<LongTermServerValidation, LongTermServerAuthErrorReason>
        ensures { result ≡ judgement_answer self.now }
    {
        match self {
            Judgement::Refused(refusal) => Err(LongTermServerAuthErrorReason::from(*refusal)),
            Judgement::Known(algorithm) => Ok(LongTermServerValidation::Validated(*algorithm)),
            Judgement::New(client) => Ok(LongTermServerValidation::Validated(client.algorithm)),
        }
    }

    /// Returns the new client, or `None` if the message is refused or the record has the client
    /// already.
    fn into_client(self) -> Option<ValidatedUser<A>>
        ensures { option_map client_seen result ≡ client_in self }
    {
        match self {
            Judgement::Refused(_) | Judgement::Known(_) => None,
            Judgement::New(client) => Some(client),
        }
    }
}

/// Returns whether there is a record whose nonce is current, which means that `now` is not later
/// than its expiry time.
fn has_current_nonce<A: Allocator>(place: Option<&Place<A>>, now: Instant) -> bool
    ensures { result ≡ has_current_nonce now (option_map place_seen (option_copied place.entry)) }
{
    match place {
        Some(place) => now <= place.expires,
        None => false,
    }
}

/// Returns the nonce under which a message is judged: the new nonce if one was made, and otherwise
/// the stored nonce.
fn choose_nonce<'p, A: Allocator>(
    place: Option<&'p Place<A>>,
    renewal: &'p Option<Renewal<A>>,
) -> &'p str
    ensures { result.now ≡ (place_with (option_map place_seen (option_copied place.entry))
        (option_map renewal_seen renewal.now)).nonce }
{
    match renewal {
        Some(renewal) => renewal.nonce.as_str(),
        None => match place {
            Some(place) => place.nonce.as_str(),
            None => "",
        },
    }
}

/// Returns the algorithms that were offered to an address, or `None` if it has no record or no
/// offer.
fn find_offered<A: Allocator>(place: Option<&Place<A>>) -> Option<AlgorithmSet>
    ensures { result ≡ option_and_then (λ (p : PlaceSeen). p.offered)
        (option_map place_seen (option_copied place.entry)) }
{
    match place {
        Some(place) => place.offered,
        None => None,
    }
}

/// Returns whether the accepted user is already the client in the record, with the same algorithm.
fn is_known<A: Allocator>(place: Option<&Place<A>>, accepted: &Accepted<'_, A>) -> bool
    ensures { IsTrue result ↔ (option_and_then (λ (p : PlaceSeen). p.client)
        (option_map place_seen (option_copied place.entry))
        ≡ Some accepted.now.client) }
{
    match place {
        Some(place) => place.has_client(accepted.name(), accepted.algorithm()),
        None => false,
    }
}

impl<A: Memory> LongTermServerAuth<A> {
    /// Checks the signature of a message with the key that a registered user has for `algorithm`,
    /// and returns the algorithm of the signature if it is valid. Returns `None` if the signature
    /// is missing or invalid, or if there is no such user or key.
    ///
    /// It checks the integrity attribute that `validate_incoming_message` checks, whichever
    /// algorithm the key is for. Use it to check a user's key, or to find out who could have signed
    /// a message.
    ///
    /// This is not authentication: nonce, realm, name and algorithms of the message are not
    /// checked, so the signature of a recorded message is still valid. The call reveals no key,
    /// changes nothing and does not allocate.
    pub fn user_verifies(
        &self,
        name: &str,
        algorithm: IntegrityAlgorithm,
        message: &Message<'_>,
    ) -> Option<IntegrityAlgorithm>
        ensures { result ≡ option_and_then (verified_under (reading_of message.now))
            (key_at self.now.registered name.now algorithm) }
    {
        match self.realm.key(name, algorithm) {
            Some(key) => ReadMessage::of(message).verified_under(key),
            None => None,
        }
    }

    /// Judges a message that arrived from an address (RFC 8489, section 9.2.4).
    ///
    /// A response is `Validated` if its signature is valid under the key of the address's client.
    /// Otherwise the call fails with `IntegrityFailed`: drop the response.
    ///
    /// A request or an indication is `Validated` with an algorithm if and only if
    ///
    /// - it has a REALM, whose value is not compared;
    /// - its NONCE is the current one of the address;
    /// - its algorithms agree with those that the address was offered;
    /// - it names a registered user, who has a key for the agreed algorithm;
    /// - its signature is valid under that key.
    ///
    /// The user is then the client of the address. Otherwise the message is refused with the first
    /// of these that applies:
    ///
    /// - `Unauthorized` (answer 401): there is no well-formed integrity attribute.
    /// - `BadRequest` (400): REALM, NONCE or the user name is missing, or the algorithms disagree
    ///   with the offer. Answer 438 in place of 400 if the address had no nonce before this call
    ///   and has one after it: its record was lost, and the client repeats an old offer.
    /// - `StaleNonce` (438): the nonce is not the current one. If its security bits differ too, the
    ///   refusal is `Unauthorized` (401).
    /// - `Unauthorized` (401): the user is not registered or has no key for the algorithm, or the
    ///   signature is invalid.
    ///
    /// A nonce is current up to and including its expiry time. If the address has no current nonce,
    /// a new one is made from sixteen random numbers, unless the message is a response, or has a
    /// well-formed integrity attribute but lacks REALM, NONCE or a user name.
    ///
    /// `OutOfMemory` means that an allocation failed, and can occur only when a nonce must be made
    /// or a new client stored. The record of the address is then unchanged, but random numbers may
    /// have been read. Random numbers are read only to make a nonce. Everybody can see the nonce,
    /// so never use these random numbers for anything else.
    pub fn validate_incoming_message<R: Rng>(
        &mut self,
        message: &Message<'_>,
        from: SocketAddr,
        now: Instant,
        rng: &mut R,
    ) -> Result<LongTermServerValidation, LongTermServerAuthError>
        ensures answer { ServerUnlessMemory result
            (result ≡ answer (sight self.old from) now (next_words 16 (R.stream rng.old))
            (reading_of message.now)) ⊤ }
        ensures accepted { ServerUnlessMemory result
            (ValidatesAccepted (sight self.old from) now (next_words 16 (R.stream rng.old))
            (reading_of message.now) result) ⊤ }
        ensures state { ServerUnlessMemory result
            (self.new ≡ after_validation self.old from now (next_words 16 (R.stream rng.old))
            (reading_of message.now))
            (self.new ≡ self.old) }
        ensures source { ServerUnlessMemory result
            (R.stream rng.new ≡ (if draws (sight self.old from) now
            (reading_of message.now) then after_words 16
            (R.stream rng.old) else R.stream rng.old)) ⊤ }

        // If the message changes nothing, no allocation fails. A response and a malformed message
        // change nothing. Under a current nonce, neither does a refused message, nor a message of
        // the client that is already stored.
        ensures unchanged { ChangesNothing (sight self.old from) now
            (next_words 16 (R.stream rng.old)) (reading_of message.now) →
            result ≡ answer (sight self.old from) now (next_words 16 (R.stream rng.old))
            (reading_of message.now) }
        ensures granted { A.grants → ServerUnlessMemory result ⊤ ⊥ }
    {
        wrap_reason(self.judge_incoming(message, from, now, rng))
    }

    /// Judges a message like `validate_incoming_message`, but fails with the bare reason.
    fn judge_incoming<R: Rng>(
        &mut self,
        message: &Message<'_>,
        from: SocketAddr,
        now: Instant,
        rng: &mut R,
    ) -> Result<LongTermServerValidation, LongTermServerAuthErrorReason>
        ensures answer { ServerUnlessMemory result
            (result ≡ answer (sight self.old from) now (next_words 16 (R.stream rng.old))
            (reading_of message.now)) ⊤ }
        ensures state { ServerUnlessMemory result
            (self.new ≡ after_validation self.old from now (next_words 16 (R.stream rng.old))
            (reading_of message.now))
            (self.new ≡ self.old) }
        ensures source { ServerUnlessMemory result
            (R.stream rng.new ≡ (if draws (sight self.old from) now
            (reading_of message.now) then after_words 16
            (R.stream rng.old) else R.stream rng.old)) ⊤ }
        ensures unchanged { ChangesNothing (sight self.old from) now
            (next_words 16 (R.stream rng.old)) (reading_of message.now) →
            result ≡ answer (sight self.old from) now (next_words 16 (R.stream rng.old))
            (reading_of message.now) }
        ensures granted { A.grants → ServerUnlessMemory result ⊤ ⊥ }
    {
        let read = ReadMessage::of(message);
        if read.is_response() {
            return self.check_response(&read, from);
        }
        if read.is_malformed() {
            return Err(LongTermServerAuthErrorReason::BadRequest);
        }
        let place = self.places.get(from);
        let Ok(renewal) = self.make_renewal(place, now, rng) else {
            return Err(LongTermServerAuthErrorReason::OutOfMemory);
        };
        let Ok(judged) = self.judge_at(&read, from, &renewal) else {
            return Err(LongTermServerAuthErrorReason::OutOfMemory);
        };
        self.commit(from, renewal, judged)
    }

    /// Checks the signature of a response under the key of the address's client. Fails with
    /// `IntegrityFailed` if the signature is missing or invalid, or if there is no such client or
    /// key.
    fn check_response(
        &self,
        read: &ReadMessage<'_, '_>,
        from: SocketAddr,
    ) -> Result<LongTermServerValidation, LongTermServerAuthErrorReason>
        ensures { result ≡ validated_or_failed
            (client_verified self.now.registered (reading_of read.now)
            (map.get self.now.places from)) }
    {
        let Some(place) = self.places.get(from) else {
            return Err(LongTermServerAuthErrorReason::IntegrityFailed);
        };
        let Some(client) = place.client() else {
            return Err(LongTermServerAuthErrorReason::IntegrityFailed);
        };
        let Some(key) = self.realm.key(client.name.as_str(), client.algorithm) else {
            return Err(LongTermServerAuthErrorReason::IntegrityFailed);
        };
        match read.verified_under(key) {
            Some(algorithm) => Ok(LongTermServerValidation::Validated(algorithm)),
            None => Err(LongTermServerAuthErrorReason::IntegrityFailed),
        }
    }

    /// Makes a new nonce from the next sixteen random numbers, or returns `None` if the stored
    /// nonce is current.
    fn make_renewal<R: Rng>(
        &self,
        place: Option<&Place<A>>,
        now: Instant,
        rng: &mut R,
    ) -> Result<Option<Renewal<A>>, AllocError>
        ensures made { IfOk result (λ made. option_map renewal_seen made
            ≡ new_nonce self.now now (next_words 16 (R.stream rng.old))
            (option_map place_seen (option_copied place.entry))) }
        ensures source { IfOk result (λ _. R.stream rng.new
            ≡ (if has_current_nonce now (option_map place_seen
            (option_copied place.entry)) then R.stream rng.old else after_words 16
            (R.stream rng.old))) }
        ensures needless { has_current_nonce now (option_map place_seen (option_copied place.entry))
            ≡ true
            → IsOk result }
        ensures granted { A.grants → IsOk result }
    {
        if has_current_nonce(place, now) {
            return Ok(None);
        }
        let nonce = make_nonce(&self.realm, rng)?;
        Ok(Some(Renewal {
            nonce,
            expires: now + self.expiry,
        }))
    }

    /// Judges a message under the address's record, or under the new nonce if one was made. It
    /// allocates only to copy the name of a new client, unless this client was removed from the
    /// record before.
    fn judge_at(
        &mut self,
        read: &ReadMessage<'_, '_>,
        from: SocketAddr,
        renewal: &Option<Renewal<A>>,
    ) -> Result<Judgement<A>, AllocError>
        ensures judged { IfOk result (IsJudged self.old.registered self.old.feature
            (reading_of read.now)
            (place_with (map.get self.old.places from) (option_map renewal_seen renewal.now))) }
        ensures state { self.new ≡ self.old }
        ensures needless { ChangesNoPlace self.old.registered self.old.feature
            (reading_of read.now)
            (place_with (map.get self.old.places from) (option_map renewal_seen renewal.now))
            → IsOk result }
        ensures granted { A.grants → IsOk result }
    {
        let alloc = self.alloc;
        judge_by(&self.realm, &mut self.places, alloc, read, from, renewal)
    }

    /// Stores the new nonce if one was made, and the new client if there is one, and returns the
    /// result of the validation. It allocates only for the first nonce of an address.
    fn commit(
        &mut self,
        from: SocketAddr,
        renewal: Option<Renewal<A>>,
        judged: Judgement<A>,
    ) -> Result<LongTermServerValidation, LongTermServerAuthErrorReason>
        ensures answer { ServerUnlessMemory result (result ≡ judgement_answer judged) ⊤ }
        ensures state { ServerUnlessMemory result
            (self.new ≡ record self.old {
              places = places_left self.old.places from
                  (option_map renewal_seen renewal) judged;
            })
            (self.new ≡ self.old) }
        ensures needless { IfNone renewal (result ≡ judgement_answer judged) }
        ensures granted { A.grants → result ≡ judgement_answer judged }
    {
        let answer = judged.to_answer();
        let client = judged.into_client();
        match renewal {
            None => {
                if client.is_some() {
                    self.places.set_client(from, client);
                }
                answer
            }
            Some(renewal) => {
                match self
                    .places
                    .renew(from, renewal.nonce, renewal.expires, client)
                {
                    Ok(()) => answer,
                    Err(_) => Err(LongTermServerAuthErrorReason::OutOfMemory),
                }
            }
        }
    }
}

/// Judges a message like `judge_at`, with this realm and these records.
fn judge_by<A: Memory>(
    realm: &Realm<A>,
    places: &mut Places<A>,
    alloc: A,
    read: &ReadMessage<'_, '_>,
    from: SocketAddr,
    renewal: &Option<Renewal<A>>,
) -> Result<Judgement<A>, AllocError>
    ensures judged { IfOk result (IsJudged realm.now.registered realm.now.feature
        (reading_of read.now)
        (place_with (map.get places.old.seen from) (option_map renewal_seen renewal.now))) }
    ensures state { places.new.seen ≡ places.old.seen }
    ensures needless { ChangesNoPlace realm.now.registered realm.now.feature
        (reading_of read.now)
        (place_with (map.get places.old.seen from) (option_map renewal_seen renewal.now))
        → IsOk result }
    ensures granted { A.grants → IsOk result }
{
    let place = places.get(from);
    let nonce = choose_nonce(place, renewal);
    let offered = find_offered(place);
    match realm.judge_offered(read, nonce, offered) {
        Err(refusal) => Ok(Judgement::Refused(refusal)),
        Ok(accepted) => {
            if is_known(place, &accepted) {
                return Ok(Judgement::Known(accepted.algorithm()));
            }
            let client = new_client(places, alloc, from, &accepted)?;
            Ok(Judgement::New(client))
        }
    }
}

/// Returns the accepted user, to be stored as the client of an address. It allocates unless this is
/// the user who was removed there.
fn new_client<A: Memory>(
    places: &mut Places<A>,
    alloc: A,
    from: SocketAddr,
    accepted: &Accepted<'_, A>,
) -> Result<ValidatedUser<A>, AllocError>
    ensures client { IfOk result (λ client. client_seen client ≡ accepted.now.client) }
    ensures state { places.new.seen ≡ places.old.seen }
    ensures granted { A.grants → IsOk result }
{
    let removed = places.take_removed(from);
    ValidatedUser::from_removed(removed, alloc, accepted.name(), accepted.algorithm())
}
