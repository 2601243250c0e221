//! Judges a datagram with a user who was looked up, and derives only the key that the request needs
//! (RFC 8489, section 9.2.4).

ghost use Rattle.std.specs.Prelude.{◌≡◌, IfOk, IsOk, Some, false};
ghost use Rattle.stun_judging.specs.Found.{found_key};
ghost use Rattle.stun_judging.specs.Named.{just};
ghost use Rattle.stun_judging.specs.Reading.{reading_of};
ghost use Rattle.stun_base.specs.MessageType.{class_in};
ghost use Rattle.stun_endpoint.specs.Answers.{is_fingerprinted};
ghost use Rattle.stun_endpoint.specs.Judged.{judged};
ghost use Rattle.stun_endpoint.specs.Nonces.{nonce_in};
ghost use Rattle.stun_endpoint.specs.Outcomes.{outcome_of};
ghost use Rattle.stun_endpoint.specs.Received.{by_verdict, received_by, received_for};
ghost use Rattle.stun_endpoint.specs.Responding.{is_undropped_request};
ghost use Rattle.stun_endpoint.specs.Settings.{registered_of};
ghost use Rattle.stun_endpoint.specs.code.Found.{IsFoundKey, realm_of_found};

use crate::arrived::Arrived;
use crate::received::Received;
use crate::server::Server;
use crate::unix_time::UnixTime;
use std::alloc::AllocError;
use std::net::SocketAddr;
use stun_base::algorithm::IntegrityAlgorithm;
use stun_base::memory::Memory;
use stun_base::prepared_key::PreparedKey;
use stun_judging::found::{FoundUser, UserClaim};
use stun_judging::read_message::ReadMessage;
use stun_types::message::MessageClass;

impl<A: Memory> Server<A> {
    /// Judges a datagram like `receive_for`, with a user whom you have found but not prepared. The
    /// result is what `receive_for` returns with the user that `user` or `user_with_keys` returns
    /// for the same name and the same password or keys.
    ///
    /// This call derives only the key that the request needs, and no key for a request for which
    /// `identify` returns no `Lookup`. For a user who sends many requests, prepare the keys once
    /// and pass them to `receive_for`.
    ///
    /// Fails if an allocation fails, which can happen only for a request. Over UDP nothing is lost
    /// then, because the client retransmits its request.
    pub fn receive_found<'a>(
        &'a self,
        bytes: &'a [u8],
        from: SocketAddr,
        now: UnixTime,
        user: &FoundUser<'a>,
    ) -> Result<Received<'a, A>, AllocError>
        ensures received { IfOk result (λ received. outcome_of received
            ≡ received_for self.now (Some (just (registered_of self.now) (Some user.now))) from now
            bytes.now) }
        ensures no_memory { is_undropped_request self.now.requires_fingerprint bytes.now
            ≡ false → IsOk result }
        ensures granted { A.grants → IsOk result }
    {
        self.judge_found_datagram(bytes, from, now, user)
    }

    /// Returns the outcome of a datagram.
    fn judge_found_datagram<'a>(
        &'a self,
        bytes: &'a [u8],
        from: SocketAddr,
        now: UnixTime,
        user: &FoundUser<'a>,
    ) -> Result<Received<'a, A>, AllocError>
        ensures received { IfOk result (λ received. outcome_of received
            ≡ received_by self.now (realm_of_found self.now user.now) from now bytes.now) }
        ensures no_memory { is_undropped_request self.now.requires_fingerprint bytes.now
            ≡ false → IsOk result }
        ensures granted { A.grants → IsOk result }
    {
        match self.read(bytes) {
            Arrived::Request(message, has_fingerprint) => {
                let read = ReadMessage::of(&message);
                self.judge_found_request(&read, from, now, user, has_fingerprint)
            }
            Arrived::Indication(message) => Ok(self.judge_indication(message)),
            Arrived::Response(message) => Ok(Received::Response(message)),
            Arrived::Dropped(reason) => Ok(Received::Dropped(reason)),
        }
    }

    /// Returns the outcome of a request.
    fn judge_found_request<'a>(
        &'a self,
        read: &ReadMessage<'a, '_>,
        from: SocketAddr,
        now: UnixTime,
        user: &FoundUser<'a>,
        has_fingerprint: bool,
    ) -> Result<Received<'a, A>, AllocError>
        requires fingerprint { has_fingerprint ≡ is_fingerprinted read.now }
        requires request { class_in read.now ≡ MessageClass.Request }
        ensures received { IfOk result (λ received. outcome_of received
            ≡ by_verdict self.now (realm_of_found self.now user.now) from now read.now
            (judged self.now (realm_of_found self.now user.now) from now
            (reading_of read.now))) }
        ensures granted { A.grants → IsOk result }
    {
        let mut buffer = self.responder.make_buffer();
        let epoch = self.compute_epoch(now);
        let nonce = self.make_nonce(&self.secret, from, epoch)?;
        match self.find_accepted_key(read, from, epoch, &nonce, user)? {
            Some((algorithm, key)) => {
                let name = user.name();
                self.accept_from(
                    read,
                    from,
                    name,
                    algorithm,
                    key,
                    has_fingerprint,
                    &mut buffer,
                )
            }
            None => {
                // Whatever the user's key is, the current nonce decides why the request is refused.
                let verdict = self.judge_by_nobody(read, &nonce);
                self.apply_verdict(read, from, &nonce, verdict, has_fingerprint, &mut buffer)
            }
        }
    }

    /// Returns the agreed algorithm and the user's key if a request is accepted from this user, and
    /// `None` otherwise.
    #[tactic(auto, using(crate::proofs::FoundLemmas::found_unclaimed, crate::proofs::FoundLemmas::found_either))]
    fn find_accepted_key(
        &self,
        read: &ReadMessage<'_, '_>,
        from: SocketAddr,
        epoch: u64,
        nonce: &str,
        user: &FoundUser<'_>,
    ) -> Result<Option<(IntegrityAlgorithm, PreparedKey<A>)>, AllocError>
        requires { nonce.now ≡ nonce_in self.now self.now.secret from epoch }
        ensures key { IfOk result
            (IsFoundKey self.now user.now from epoch (reading_of read.now)) }
        ensures granted { A.grants → IsOk result }
    {
        let Some(claim) = self.find_waiting_claim(read, from, epoch, nonce)? else {
            return Ok(None);
        };
        Ok(self.verify_claim(&claim, user))
    }

    /// Returns the agreed algorithm and the user's key for it, if a claim names this user and its
    /// signature is valid under the key, and `None` otherwise.
    fn verify_claim(
        &self,
        claim: &UserClaim<'_, '_, '_>,
        user: &FoundUser<'_>,
    ) -> Option<(IntegrityAlgorithm, PreparedKey<A>)>
        ensures { result ≡ found_key (registered_of self.now) claim.now user.now }
    {
        self.realm.verify_found(claim, user)
    }
}
