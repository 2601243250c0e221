//! The calls for a server whose users are in a database: one before the look-up of a user, and one
//! after it (RFC 8489, section 9.2.4).

ghost use Rattle.std.specs.Option.{is_some, option_copied, option_map};
ghost use Rattle.std.specs.Prelude.{◌≡◌, ◌&&◌, [], IfOk, IsOk, None, OnErr, Some, false, not};
ghost use Rattle.stun_judging.specs.Named.{named_seen};
ghost use Rattle.stun_judging.specs.Judged.{client_judged};
ghost use Rattle.stun_judging.specs.Reading.{reading_of};
ghost use Rattle.stun_judging.specs.Verdict.{verdict_offering};
ghost use Rattle.stun_endpoint.specs.Answers.{is_fingerprinted};
ghost use Rattle.stun_endpoint.specs.Buffered.{LeavesNothing, outcome_in};
ghost use Rattle.stun_endpoint.specs.Buffered.{LeavesNothingKnown, identification_in};
ghost use Rattle.stun_endpoint.specs.Identified.{identification_of};
ghost use Rattle.stun_endpoint.specs.Lookups.{identified_as, identified_by, waits_for};
ghost use Rattle.stun_endpoint.specs.Nonces.{epoch_of, nonce_in};
ghost use Rattle.stun_endpoint.specs.Outcomes.{outcome_of};
ghost use Rattle.stun_endpoint.specs.Received.{received_by, received_for};
ghost use Rattle.stun_endpoint.specs.Responding.{drop_reason, is_undropped_request};
ghost use Rattle.stun_endpoint.specs.Settings.{registered_of};
ghost use Rattle.stun_endpoint.specs.code.Judges.{realm_of, users_of};
ghost use Rattle.stun_endpoint.specs.code.Found.{waiting_claim};
ghost use Rattle.stun_endpoint.specs.code.Waiting.{IsWaiting};

use crate::arrived::Arrived;
use crate::buffered::{IdentifiedInto, ReceivedInto};
use crate::lookup::{Identified, Lookup};
use crate::received::{DropReason, Received, Request};
use crate::server::Server;
use crate::server::judges::Judges;
use crate::unix_time::UnixTime;
use crate::users::Users;
use std::alloc::AllocError;
use std::net::SocketAddr;
use stun_base::memory::Memory;
use stun_judging::accepted::Accepted;
use stun_judging::found::UserClaim;
use stun_judging::named_user::NamedUser;
use stun_judging::read_message::ReadMessage;
use stun_judging::refusal::VerdictRefusal;
use stun_judging::user::LongTermServerUser;

mod found;

impl<A: Memory> Server<A> {
    /// Judges a datagram as far as that is possible without its user, for a server whose users are
    /// in a database.
    ///
    /// - `Done` has the outcome, which is what `receive_for` returns for any user of this realm.
    /// - `Lookup` is a request that is signed, names a user, and carries a nonce that is accepted
    ///   for its source at this time. Look the user up, and pass the `Lookup` and the user to
    ///   `resume`.
    ///
    /// So an attacker who invents a nonce causes no look-up. The nonces of an address are only sent
    /// to that address, so an attacker who forges a source address causes look-ups only after
    /// seeing a nonce that is still accepted for that address.
    ///
    /// Fails if an allocation fails, which can happen only for a request. Over UDP nothing is lost
    /// then, because the client retransmits its request.
    ///
    /// Contracts: laws `identify_needs_no_user`, `lookups_have_accepted_nonces` and
    /// `resume_is_receive_with_all_users`.
    pub fn identify<'a>(
        &'a self,
        bytes: &'a [u8],
        from: SocketAddr,
        now: UnixTime,
    ) -> Result<Identified<'a, A>, AllocError>
        ensures identified { IfOk result (λ identified. identification_of identified
            ≡ identified_by self.now from now bytes.now) }
        ensures no_memory { is_undropped_request self.now.requires_fingerprint bytes.now
            ≡ false → IsOk result }
        ensures granted { A.grants → IsOk result }
    {
        let mut buffer = Vec::new(self.alloc);
        self.identify_datagram(bytes, from, now, &mut buffer)
    }

    /// Judges a datagram like `identify`, and writes the response into a buffer, replacing its
    /// contents. If the buffer has the capacity for the response, no memory is allocated for it.
    /// The buffer is empty afterwards if there is no response, or if the call fails.
    ///
    /// Fails if an allocation fails, which can happen only for a request. Over UDP nothing is lost
    /// then, because the client retransmits its request.
    pub fn identify_into<'a>(
        &'a self,
        bytes: &'a [u8],
        from: SocketAddr,
        now: UnixTime,
        buffer: &mut Vec<u8, A>,
    ) -> Result<IdentifiedInto<'a, A>, AllocError>
        // With the bytes in the buffer, the result is what `identify` returns.
        ensures identified { IfOk result (λ identified.
            identification_in identified buffer.new.items
            ≡ identified_by self.now from now bytes.now) }
        ensures rest { IfOk result (λ identified. LeavesNothingKnown identified buffer.new.items) }
        ensures no_memory { is_undropped_request self.now.requires_fingerprint bytes.now
            ≡ false → IsOk result }
        ensures granted { A.grants → IsOk result }
        ensures err { OnErr result (buffer.new.items ≡ []) }
    {
        match self.identify_datagram(bytes, from, now, buffer) {
            Ok(identified) => Ok(identified.into_buffer(buffer)),
            Err(_) => {
                buffer.clear();
                Err(AllocError)
            }
        }
    }

    /// Judges a datagram as far as that is possible without its user. A response takes over the
    /// memory of the buffer.
    #[tactic(auto, using(crate::proofs::DroppedLemmas::undropped_anywhere))]
    fn identify_datagram<'a>(
        &'a self,
        bytes: &'a [u8],
        from: SocketAddr,
        now: UnixTime,
        buffer: &mut Vec<u8, A>,
    ) -> Result<Identified<'a, A>, AllocError>
        ensures identified { IfOk result (λ identified. identification_of identified
            ≡ identified_by self.now from now bytes.now) }
        ensures no_memory { is_undropped_request self.now.requires_fingerprint bytes.now
            ≡ false → IsOk result }
        ensures granted { A.grants → IsOk result }
    {
        match self.read(bytes) {
            Arrived::Request(message, has_fingerprint) => {
                let read = ReadMessage::of(&message);
                self.identify_request(&read, from, now, has_fingerprint, buffer)
            }
            Arrived::Indication(message) => Ok(Identified::Done(self.judge_indication(message))),
            Arrived::Response(message) => Ok(Identified::Done(Received::Response(message))),
            Arrived::Dropped(reason) => Ok(Identified::Done(Received::Dropped(reason))),
        }
    }

    /// Judges the request of a look-up with the user that you found, or with no user if there is
    /// none. The result is what `receive_for` returns at the time at which the request arrived. If
    /// the user is of a realm with another name, the request is dropped with `OtherRealm`.
    ///
    /// If the name of the user differs from the name in `user_id`, as after a look-up that ignores
    /// case, the client gets a 401. You may resume at another server with the same realm and
    /// secret, for example after a change of settings.
    ///
    /// Fails if an allocation fails. Over UDP nothing is lost then, because the client retransmits
    /// its request.
    pub fn resume<'a>(
        &'a self,
        lookup: Lookup<'a>,
        user: Option<&'a LongTermServerUser<A>>,
    ) -> Result<Received<'a, A>, AllocError>
        ensures received { IfOk result (λ received. outcome_of received
            ≡ received_for self.now (option_copied user.entry) lookup.entry.from lookup.entry.arrived lookup.entry.message) }
        ensures granted { A.grants → IsOk result }
    {
        let mut buffer = Vec::new(self.alloc);
        self.judge_lookup(lookup, &Judges::from_user(user), &mut buffer)
    }

    /// Judges the request of a look-up like `resume`, with the user in this table whom the request
    /// names, or with no user if there is none. The result is what `receive` returns at the time at
    /// which the request arrived.
    ///
    /// Fails if an allocation fails. Over UDP nothing is lost then, because the client retransmits
    /// its request.
    pub fn resume_among<'a>(
        &'a self,
        lookup: Lookup<'a>,
        users: &'a Users<A>,
    ) -> Result<Received<'a, A>, AllocError>
        ensures received { IfOk result (λ received. outcome_of received
            ≡ received_for self.now (Some users.now.registered) lookup.entry.from
            lookup.entry.arrived lookup.entry.message) }
        ensures granted { A.grants → IsOk result }
    {
        let mut buffer = Vec::new(self.alloc);
        self.judge_lookup(lookup, &Judges::Table(&users.realm), &mut buffer)
    }

    /// Judges the request of a look-up like `resume`, and writes the response into a buffer,
    /// replacing its contents. If the buffer has the capacity for the response, no memory is
    /// allocated for it. The buffer is empty afterwards if there is no response, or if the call
    /// fails.
    ///
    /// Fails if an allocation fails. Over UDP nothing is lost then, because the client retransmits
    /// its request.
    pub fn resume_into<'a>(
        &'a self,
        lookup: Lookup<'a>,
        user: Option<&'a LongTermServerUser<A>>,
        buffer: &mut Vec<u8, A>,
    ) -> Result<ReceivedInto<'a, Request<'a, A>>, AllocError>
        // With the bytes in the buffer, the result is what `resume` returns.
        ensures received { IfOk result (λ received. outcome_in received buffer.new.items
            ≡ received_for self.now (option_copied user.entry) lookup.entry.from lookup.entry.arrived lookup.entry.message) }
        ensures rest { IfOk result (λ received. LeavesNothing received buffer.new.items) }
        ensures err { OnErr result (buffer.new.items ≡ []) }
        ensures granted { A.grants → IsOk result }
    {
        self.judge_lookup_into(lookup, &Judges::from_user(user), buffer)
    }

    /// Returns the outcome of a request, or `Lookup` if the request waits for its user. A response
    /// takes over the memory of the buffer.
    fn identify_request<'a>(
        &'a self,
        read: &ReadMessage<'a, '_>,
        from: SocketAddr,
        now: UnixTime,
        has_fingerprint: bool,
        buffer: &mut Vec<u8, A>,
    ) -> Result<Identified<'a, A>, AllocError>
        requires undropped { drop_reason self.now.requires_fingerprint read.now ≡ None }
        requires waits { IsWaiting read.now }
        requires fingerprint { has_fingerprint ≡ is_fingerprinted read.now }
        ensures identified { IfOk result (λ identified. identification_of identified
            ≡ identified_as self.now from now read.now
            (waits_for self.now from (epoch_of self.now now) (reading_of read.now))) }
        ensures granted { A.grants → IsOk result }
    {
        let epoch = self.compute_epoch(now);
        let nonce = self.make_nonce(&self.secret, from, epoch)?;
        match self.find_awaited_user(read, from, epoch, &nonce)? {
            Some(user) => {
                let message = read.message().clone()?;
                let lookup = Lookup::new(message, from, now, user, has_fingerprint);
                Ok(Identified::Lookup(lookup))
            }
            None => {
                // The request has no other accepted nonce, so the current one decides its outcome.
                let verdict = self.judge_by_nobody(read, &nonce);
                let received = self.apply_verdict(
                    read,
                    from,
                    &nonce,
                    verdict,
                    has_fingerprint,
                    buffer,
                )?;
                Ok(Identified::Done(received))
            }
        }
    }

    /// Returns the user who must be looked up before the request can be judged, or `None` if no
    /// look-up is needed.
    #[tactic(auto, using(crate::proofs::ReadyLemmas::claim_is_awaited, crate::proofs::ReadyLemmas::nobody_is_awaited))]
    fn find_awaited_user<'a>(
        &self,
        read: &ReadMessage<'a, '_>,
        from: SocketAddr,
        epoch: u64,
        nonce: &str,
    ) -> Result<Option<NamedUser<'a>>, AllocError>
        requires { nonce.now ≡ nonce_in self.now self.now.secret from epoch }
        ensures user { IfOk result (λ user. option_map named_seen user
            ≡ waits_for self.now from epoch (reading_of read.now)) }
        ensures granted { A.grants → IsOk result }
    {
        match self.find_waiting_claim(read, from, epoch, nonce)? {
            Some(claim) => Ok(Some(claim.user())),
            None => Ok(None),
        }
    }

    /// Returns the claim of a request that waits for its user, or `None` if it does not wait. A
    /// request waits if its nonce is accepted in this epoch, and the server has only its user and
    /// signature left to check.
    #[tactic(auto, using(crate::proofs::ReadyLemmas::no_claim_waits_not, crate::proofs::ReadyLemmas::unaccepted_waits_not, crate::proofs::ReadyLemmas::claim_waits))]
    fn find_waiting_claim<'a, 'm, 'r>(
        &self,
        read: &'r ReadMessage<'a, 'm>,
        from: SocketAddr,
        epoch: u64,
        nonce: &str,
    ) -> Result<Option<UserClaim<'a, 'm, 'r>>, AllocError>
        requires { nonce.now ≡ nonce_in self.now self.now.secret from epoch }
        ensures claim { IfOk result (λ claim. claim
            ≡ waiting_claim self.now from epoch read.now) }
        ensures granted { A.grants → IsOk result }
    {
        let Some(claim) = self.realm.claim_in(read) else {
            return Ok(None);
        };
        if !self.has_accepted_nonce(read, from, epoch, nonce)? {
            return Ok(None);
        }
        Ok(Some(claim))
    }

    /// Judges a request under a nonce, at a realm without users.
    pub(super) fn judge_by_nobody<'a>(
        &'a self,
        read: &ReadMessage<'a, '_>,
        nonce: &str,
    ) -> Result<Accepted<'a, A>, VerdictRefusal>
        ensures { client_judged result
            ≡ verdict_offering (registered_of self.now) self.now.feature nonce.now
            self.now.algorithms (reading_of read.now) }
    {
        self.realm.judge_by_nobody(read, nonce)
    }

    /// Returns the outcome of the request of a look-up. A response takes over the memory of the
    /// buffer.
    fn judge_lookup<'a>(
        &self,
        lookup: Lookup<'a>,
        judges: &Judges<'a, A>,
        buffer: &mut Vec<u8, A>,
    ) -> Result<Received<'a, A>, AllocError>
        ensures received { IfOk result (λ received. outcome_of received
            ≡ received_for self.now (users_of judges.now) lookup.entry.from lookup.entry.arrived
            lookup.entry.message) }
        ensures granted { A.grants → IsOk result }
    {
        if self.has_other_realm(judges) {
            return Ok(Received::Dropped(DropReason::OtherRealm));
        }
        self.judge_lookup_at_realm(lookup, judges, buffer)
    }

    /// Returns the outcome of the request of a look-up with users of the server's realm. A response
    /// takes over the memory of the buffer.
    #[tactic(auto, using(crate::proofs::JudgementLemmas::resumed_received, crate::proofs::JudgementLemmas::resumed_dropped))]
    fn judge_lookup_at_realm<'a>(
        &self,
        lookup: Lookup<'a>,
        judges: &Judges<'a, A>,
        buffer: &mut Vec<u8, A>,
    ) -> Result<Received<'a, A>, AllocError>
        ensures received { IfOk result (λ received. outcome_of received
            ≡ received_by self.now (realm_of self.now judges.now) lookup.entry.from
            lookup.entry.arrived lookup.entry.message) }
        ensures granted { A.grants → IsOk result }
    {
        let from = lookup.source();
        let now = lookup.arrived();
        let has_fingerprint = lookup.has_fingerprint();
        let message = lookup.into_message();
        // The server that made the look-up may not have required FINGERPRINT.
        if self.lacks_fingerprint(has_fingerprint) {
            return Ok(Received::Dropped(DropReason::MissingFingerprint));
        }
        let read = ReadMessage::of(&message);
        self.judge_request(&read, from, now, judges, has_fingerprint, buffer)
    }

    /// Returns the outcome of the request of a look-up, and writes the bytes of a response into the
    /// buffer.
    fn judge_lookup_into<'a>(
        &self,
        lookup: Lookup<'a>,
        judges: &Judges<'a, A>,
        buffer: &mut Vec<u8, A>,
    ) -> Result<ReceivedInto<'a, Request<'a, A>>, AllocError>
        ensures received { IfOk result (λ received. outcome_in received buffer.new.items
            ≡ received_for self.now (users_of judges.now) lookup.entry.from lookup.entry.arrived
            lookup.entry.message) }
        ensures rest { IfOk result (λ received. LeavesNothing received buffer.new.items) }
        ensures err { OnErr result (buffer.new.items ≡ []) }
        ensures granted { A.grants → IsOk result }
    {
        match self.judge_lookup(lookup, judges, buffer) {
            Ok(received) => Ok(received.into_buffer(buffer)),
            Err(_) => {
                buffer.clear();
                Err(AllocError)
            }
        }
    }

    /// Returns whether a message is dropped because it has no FINGERPRINT.
    fn lacks_fingerprint(&self, has_fingerprint: bool) -> bool
        ensures { result ≡ (self.now.requires_fingerprint && not has_fingerprint) }
    {
        self.responder.requires_fingerprint() && !has_fingerprint
    }
}
