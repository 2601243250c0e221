//! The responses to a refused request (RFC 8489, sections 9.2.4 and 14.8).

ghost use Rattle.std.specs.Prelude.{◌≡◌, ◌≤◌, ◌∷◌, IfOk, IsOk, length};
ghost use Rattle.stun_judging.specs.AddedAttribute as added;
ghost use Rattle.stun_judging.specs.Algorithms.{contains};
ghost use Rattle.stun_judging.specs.Nonces.{asks_for_algorithms};
ghost use Rattle.stun_base.specs.declared.keys.algorithm.IntegrityAlgorithm.TheVariants.{Sha256};
ghost use Rattle.stun_endpoint.specs.Answers.{challenge_page, is_fingerprinted, offered};
ghost use Rattle.stun_endpoint.specs.Answers.{with_attributes};
ghost use Rattle.stun_endpoint.specs.Outcomes.{outcome_of};
ghost use Rattle.stun_endpoint.specs.Received.{answer_to_refused, challenge_answer, refused_with};
ghost use Rattle.stun_endpoint.specs.Received.{responding_of};
ghost use Rattle.stun_endpoint.specs.Refusals.{code_of, phrase_of};
ghost use Rattle.stun_endpoint.specs.Responding.{refusal_by};
ghost use Rattle.stun_endpoint.specs.code.Room.{HasRoom, IsEndable, LATER};
ghost use Rattle.stun_types.specs.Limits.{TEXT_LIMIT};

use crate::pages::begin_error_page;
use crate::received::{Answer, Received, Refusal};
use crate::server::Server;
use std::alloc::AllocError;
use std::net::SocketAddr;
use stun_base::memory::Memory;
use stun_buffer::writer::BufferWriter;
use stun_judging::algorithm_set::AlgorithmSet;
use stun_judging::read_message::ReadMessage;
use stun_judging::refusal::VerdictRefusal;
use stun_judging::told::told_refusal;
use stun_types::attribute::attribute_length;
use stun_types::message::{Message, StunWriteError};

/// The number of bytes of an algorithm in PASSWORD-ALGORITHMS (RFC 8489, section 14.11).
const ALGORITHM_LENGTH: usize = 4;

impl<A: Memory> Server<A> {
    /// Returns the outcome of a refused request.
    pub(super) fn refuse<'a>(
        &self,
        read: &ReadMessage<'_, '_>,
        from: SocketAddr,
        nonce: &str,
        refusal: VerdictRefusal,
        has_fingerprint: bool,
        buffer: &mut Vec<u8, A>,
    ) -> Result<Received<'a, A>, AllocError>
        requires fingerprint { has_fingerprint ≡ is_fingerprinted read.now }
        requires offer { asks_for_algorithms nonce.now ≡ contains Sha256 self.now.algorithms }
        requires short { length nonce.now ≤ TEXT_LIMIT }
        ensures received { IfOk result (λ received. outcome_of received
            ≡ refused_with self.now nonce.now from read.now refusal) }
        ensures granted { A.grants → IsOk result }
    {
        let told = told_refusal(refusal, read, nonce);
        let request = read.message();
        let answer = self.write_refused_answer(
            request,
            from,
            nonce,
            told,
            has_fingerprint,
            buffer,
        )?;
        Ok(Received::Answer(answer))
    }

    /// Writes the response that the refusal `told` requires: a 401 or a 438 with the challenge, or
    /// a 400.
    fn write_refused_answer(
        &self,
        request: &Message<'_>,
        from: SocketAddr,
        nonce: &str,
        told: VerdictRefusal,
        has_fingerprint: bool,
        buffer: &mut Vec<u8, A>,
    ) -> Result<Answer<A>, AllocError>
        requires fingerprint { has_fingerprint ≡ is_fingerprinted request.now }
        requires offer { asks_for_algorithms nonce.now ≡ contains Sha256 self.now.algorithms }
        requires short { length nonce.now ≤ TEXT_LIMIT }
        ensures answer { IfOk result (λ answer. answer
            ≡ answer_to_refused self.now nonce.now from request.now told) }
        ensures granted { A.grants → IsOk result }
    {
        match told {
            VerdictRefusal::Unauthorized => self.write_challenge_answer(
                request,
                from,
                Refusal::Unauthenticated,
                nonce,
                has_fingerprint,
                buffer,
            ),
            VerdictRefusal::StaleNonce => self.write_challenge_answer(
                request,
                from,
                Refusal::StaleNonce,
                nonce,
                has_fingerprint,
                buffer,
            ),
            VerdictRefusal::BadRequest => self.write_bad_answer(
                request,
                from,
                has_fingerprint,
                buffer,
            ),
        }
    }

    /// Writes a 400.
    fn write_bad_answer(
        &self,
        request: &Message<'_>,
        from: SocketAddr,
        has_fingerprint: bool,
        buffer: &mut Vec<u8, A>,
    ) -> Result<Answer<A>, AllocError>
        requires { has_fingerprint ≡ is_fingerprinted request.now }
        ensures answer { IfOk result (λ answer. answer
            ≡ refusal_by (responding_of self.now) Refusal.BadRequest from request.now) }
        ensures granted { A.grants → IsOk result }
    {
        self.responder.write_refusal(request, from, Refusal::BadRequest, has_fingerprint, buffer)
    }

    /// Writes a 401 or a 438, which challenges the client with `nonce`.
    #[tactic(auto, unfolding(crate::specs::Received::challenge_answer))]
    fn write_challenge_answer(
        &self,
        request: &Message<'_>,
        from: SocketAddr,
        refusal: Refusal,
        nonce: &str,
        has_fingerprint: bool,
        buffer: &mut Vec<u8, A>,
    ) -> Result<Answer<A>, AllocError>
        requires fingerprint { has_fingerprint ≡ is_fingerprinted request.now }
        requires offer { asks_for_algorithms nonce.now ≡ contains Sha256 self.now.algorithms }
        requires short { length nonce.now ≤ TEXT_LIMIT }
        ensures answer { IfOk result (λ answer. answer
            ≡ challenge_answer self.now refusal nonce.now from request.now) }
        ensures granted { A.grants → IsOk result }
    {
        let more = self.count_challenge_bytes(nonce, has_fingerprint);
        let page = self.begin_challenge_page(request, nonce, refusal, more, buffer)?;
        let bytes = self.responder.end(page, &None, has_fingerprint)?;
        Ok(Answer::new(from, Some(refusal), bytes))
    }

    /// Returns how many bytes a 401 or a 438 has after its ERROR-CODE. The memory for them is
    /// reserved before the response is written, so that it takes one allocation. If less memory
    /// were reserved, the response would have the same bytes, but take two allocations.
    fn count_challenge_bytes(&self, nonce: &str, has_fingerprint: bool) -> usize
        requires { length nonce.now ≤ TEXT_LIMIT }
        ensures { result ≤ 5000 }
    {
        let algorithms = match self.realm.algorithms() {
            AlgorithmSet::Both => attribute_length(2 * ALGORITHM_LENGTH),
            AlgorithmSet::OnlySha256 => attribute_length(ALGORITHM_LENGTH),
            AlgorithmSet::OnlySha1 => 0,
        };
        attribute_length(nonce.len())
            .saturating_add(attribute_length(self.realm.name().len()))
            .saturating_add(algorithms)
            .saturating_add(self.responder.count_end_bytes(&None, has_fingerprint))
    }

    /// Begins a 401 or a 438 with ERROR-CODE and the challenge, and reserves `more` bytes for all
    /// attributes after ERROR-CODE.
    fn begin_challenge_page(
        &self,
        request: &Message<'_>,
        nonce: &str,
        refusal: Refusal,
        more: usize,
        buffer: &mut Vec<u8, A>,
    ) -> Result<BufferWriter<A>, AllocError>
        requires offer { asks_for_algorithms nonce.now ≡ contains Sha256 self.now.algorithms }
        requires short { length nonce.now ≤ TEXT_LIMIT }
        ensures bytes { IfOk result (λ page. page.bytes
            ≡ challenge_page self.now nonce.now request.now (code_of refusal) (phrase_of refusal)) }
        ensures header { IfOk result (λ page. 20 ≤ length page.bytes) }
        ensures room { IfOk result (λ page. IsEndable page.bytes) }
        ensures granted { A.grants → more ≤ 5000 → IsOk result }
    {
        let page = begin_error_page(buffer, request, refusal.code(), refusal.phrase(), more)?;
        match self.add_challenge(page, nonce) {
            Ok(page) => Ok(page),
            // The settings ensure that these attributes fit into a response, so an allocation has
            // failed.
            Err(_) => Err(AllocError),
        }
    }

    /// Adds NONCE, REALM and, if and only if HMAC-SHA256 is supported, PASSWORD-ALGORITHMS.
    fn add_challenge(
        &self,
        page: BufferWriter<A>,
        nonce: &str,
    ) -> Result<BufferWriter<A>, StunWriteError>
        requires page { HasRoom LATER 1000 page.bytes }
        requires offer { asks_for_algorithms nonce.now ≡ contains Sha256 self.now.algorithms }
        requires short { length nonce.now ≤ TEXT_LIMIT }
        ensures bytes { IfOk result (λ challenged. challenged.bytes
            ≡ with_attributes page.bytes (added.nonce nonce.now
            ∷ added.realm self.now.realm ∷ offered self.now.algorithms)) }
        ensures header { IfOk result (λ challenged. 20 ≤ length challenged.bytes) }
        ensures room { IfOk result (λ challenged. IsEndable challenged.bytes) }
        ensures granted { A.grants → IsOk result }
    {
        self.realm.add_challenge(page, nonce)
    }
}
