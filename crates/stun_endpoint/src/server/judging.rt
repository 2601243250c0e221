//! Judges a request under the nonces that are accepted (RFC 8489, section 9.2.4).

ghost use Rattle.std.specs.Option.{option_map};
ghost use Rattle.std.specs.Prelude.{◌≡◌, IfOk, IsOk};
ghost use Rattle.std.specs.String.{string_bytes};
ghost use Rattle.stun_judging.specs.Judged.{HasVerifyingKey, client_judged};
ghost use Rattle.stun_judging.specs.Reading.{reading_of};
ghost use Rattle.stun_endpoint.specs.Judged.{judged_in};
ghost use Rattle.stun_endpoint.specs.Lookups.{accepted_nonces, has_one_of, nonces_of};
ghost use Rattle.stun_endpoint.specs.Nonces.{nonce_in};
ghost use Rattle.stun_endpoint.specs.code.Earlier.{earlier_nonces, nonces_before};
ghost use Rattle.stun_endpoint.specs.code.Earlier.{their_nonce_among};
ghost use Rattle.stun_endpoint.specs.code.Judges.{realm_of};

use crate::server::Server;
use crate::server::judges::Judges;
use std::alloc::AllocError;
use std::net::SocketAddr;
use stun_base::memory::Memory;
use stun_base::prepared_key::PreparedKey;
use stun_judging::accepted::Accepted;
use stun_judging::read_message::ReadMessage;
use stun_judging::refusal::VerdictRefusal;
use stun_judging::told::has_nonce;

impl<A: Memory> Server<A> {
    /// Judges a request that arrived from the address `from` in this epoch. `nonce` is the current
    /// nonce, which the server makes for `from` in this epoch. A request with an earlier nonce that
    /// is still accepted is judged under that nonce.
    #[tactic(auto, using(crate::proofs::EarlierLemmas::accepted_decides, crate::proofs::EarlierLemmas::unauthorized_decides, crate::proofs::EarlierLemmas::bad_decides, crate::proofs::EarlierLemmas::no_earlier_accepts))]
    pub(super) fn judge_in<'a>(
        &self,
        judges: &Judges<'a, A>,
        read: &ReadMessage<'a, '_>,
        from: SocketAddr,
        epoch: u64,
        nonce: &str,
    ) -> Result<Result<Accepted<'a, A>, VerdictRefusal>, AllocError>
        requires { nonce.now ≡ nonce_in self.now self.now.secret from epoch }
        ensures verdict { IfOk result (λ verdict. client_judged verdict
            ≡ judged_in self.now (realm_of self.now judges.now) from epoch (reading_of read.now)) }
        ensures key { IfOk result (λ verdict. IfOk verdict
            (HasVerifyingKey (realm_of self.now judges.now).users (reading_of read.now))) }
        ensures granted { A.grants → IsOk result }
    {
        match self.judge_under(judges, read, nonce) {
            Err(VerdictRefusal::StaleNonce) => {
                let Some(earlier) = self.find_earlier_nonce(read, from, epoch)? else {
                    return Ok(Err(VerdictRefusal::StaleNonce));
                };
                // A request that is refused under its earlier nonce is answered with a 438, because
                // its client needs the current nonce.
                match self.judge_under(judges, read, &earlier) {
                    Ok(accepted) => Ok(Ok(accepted)),
                    Err(_) => Ok(Err(VerdictRefusal::StaleNonce)),
                }
            }
            verdict => Ok(verdict),
        }
    }

    /// Returns whether a request has a nonce that is accepted from the address `from` in this
    /// epoch. `nonce` is the current nonce of this address.
    #[tactic(auto, using(crate::proofs::EarlierLemmas::has_current, crate::proofs::EarlierLemmas::has_earlier))]
    pub(super) fn has_accepted_nonce(
        &self,
        read: &ReadMessage<'_, '_>,
        from: SocketAddr,
        epoch: u64,
        nonce: &str,
    ) -> Result<bool, AllocError>
        requires { nonce.now ≡ nonce_in self.now self.now.secret from epoch }
        ensures has { IfOk result (λ has. has
            ≡ has_one_of (reading_of read.now) (accepted_nonces self.now from epoch)) }
        ensures granted { A.grants → IsOk result }
    {
        if has_nonce(read, nonce) {
            return Ok(true);
        }
        let earlier = self.find_earlier_nonce(read, from, epoch)?;
        Ok(earlier.is_some())
    }

    /// Returns the nonce of a request if it was current earlier and is still accepted: it is the
    /// nonce of the epoch before, or one of the two nonces that are made with the previous secret.
    fn find_earlier_nonce(
        &self,
        read: &ReadMessage<'_, '_>,
        from: SocketAddr,
        epoch: u64,
    ) -> Result<Option<String<A>>, AllocError>
        ensures nonce { IfOk result (λ nonce. option_map string_bytes nonce
            ≡ their_nonce_among (reading_of read.now) (earlier_nonces self.now from epoch)) }
        ensures granted { A.grants → IsOk result }
    {
        if let Some(nonce) = self.find_nonce_before(read, &self.secret, from, epoch)? {
            return Ok(Some(nonce));
        }
        match &self.previous {
            Some(secret) => self.find_nonce_under(read, secret, from, epoch),
            None => Ok(None),
        }
    }

    /// Returns the nonce of a request if it is the nonce that is made with a secret for this epoch,
    /// or for the epoch before.
    #[tactic(auto, using(crate::proofs::EarlierLemmas::under_has, crate::proofs::EarlierLemmas::under_other))]
    fn find_nonce_under(
        &self,
        read: &ReadMessage<'_, '_>,
        secret: &PreparedKey<A>,
        from: SocketAddr,
        epoch: u64,
    ) -> Result<Option<String<A>>, AllocError>
        ensures nonce { IfOk result (λ nonce. option_map string_bytes nonce
            ≡ their_nonce_among (reading_of read.now) (nonces_of self.now secret.now from epoch)) }
        ensures granted { A.grants → IsOk result }
    {
        let nonce = self.make_nonce(secret, from, epoch)?;
        if has_nonce(read, &nonce) {
            return Ok(Some(nonce));
        }
        self.find_nonce_before(read, secret, from, epoch)
    }

    /// Returns the nonce of a request if it is the nonce that is made with a secret for the epoch
    /// before this one.
    #[tactic(auto, using(crate::proofs::EarlierLemmas::none_before, crate::proofs::EarlierLemmas::before_has, crate::proofs::EarlierLemmas::before_other))]
    fn find_nonce_before(
        &self,
        read: &ReadMessage<'_, '_>,
        secret: &PreparedKey<A>,
        from: SocketAddr,
        epoch: u64,
    ) -> Result<Option<String<A>>, AllocError>
        ensures nonce { IfOk result (λ nonce. option_map string_bytes nonce
            ≡ their_nonce_among (reading_of read.now)
            (nonces_before self.now secret.now from epoch)) }
        ensures granted { A.grants → IsOk result }
    {
        if epoch == 0 {
            return Ok(None);
        }
        let nonce = self.make_nonce(secret, from, epoch - 1)?;
        if has_nonce(read, &nonce) {
            Ok(Some(nonce))
        } else {
            Ok(None)
        }
    }
}
