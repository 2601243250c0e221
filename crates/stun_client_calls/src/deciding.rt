//! Decides what happens to an outstanding request after a response to one of its messages was
//! judged (RFC 8489, sections 5, 6.2.1 and 9.2.5).
ghost use Rattle.std.specs.Option.{option_map};
ghost use Rattle.std.specs.Prelude.{◌≡◌, IfOk, IsOk, false};
ghost use Rattle.stun_client.specs.Judging.{verdict_of};
ghost use Rattle.stun_client_calls.specs.Deciding.{answered_anew, answered_refusal, back_to};
ghost use Rattle.stun_client_calls.specs.Deciding.{begun_again, decided, decision_of, is_doubted};
ghost use Rattle.stun_client_calls.specs.Deciding.{is_idle, on_doubt, place_of, refused_again};
ghost use Rattle.stun_client_calls.specs.Deciding.{turns_for, undoubted, without_eligible};
ghost use Rattle.stun_client_calls.specs.Messages.{message_for, signed_eligible};

use crate::asked::{Asked, Sent};
use crate::turning::Why;
use std::alloc::{AllocError, Allocator};
use stun_base::instant::Instant;
use stun_base::memory::Memory;
use stun_client::challenge::Challenge;
use stun_client::judged::Judged;
use stun_client::standing::Standing;
use stun_client_endpoint::ended::{DropReason, reason_of};
use stun_types::message::{IntegrityAlgorithm, TransactionId};

/// The limits on the messages of a request.
#[derive(Clone, Copy)]
pub struct Limits {
    /// How often another message of a request may become the current one.
    pub turns: u32,
    /// Whether the transport is reliable, so that messages are not retransmitted over it.
    pub is_reliable: bool,
}

/// What happens to an outstanding request after a response to one of its messages.
#[derive(Drop)]
pub enum Decision<A: Allocator> {
    /// The response is believed and ends the request. The algorithm is that of its signature, or
    /// `None` if it is not signed.
    Answered(Option<IntegrityAlgorithm>),
    /// The response is a challenge, and the request has been challenged or refused as often as the
    /// limits allow. The request ends, as `Unauthorized` or as `TooManyChallenges`.
    ChallengedOut,
    /// Another message becomes the current one: the earlier message with this rank and this
    /// transaction ID, or a new message if these are `None`. It is signed for this challenge, or
    /// not signed if the challenge is `None`.
    Turn(Why, Option<(u32, TransactionId)>, Option<Challenge<A>>),
    /// The response repeats the challenge that the request is signed for. It is dropped, and counts
    /// as a refusal.
    Refuse,
    /// The response is dropped, for this reason.
    Drop(DropReason),
}

/// Decides what happens after a response, by how it was judged.
///
/// - A response that is believed ends the request.
/// - A challenge is answered with the message for it, which is an earlier message of the request or
///   a new one. After the first plan of the request, the challenge is dropped as `LateChallenge`,
///   but a challenge that arrives exactly at the end of this plan is answered.
///   If another message has become the current one as often as the limit allows, the challenge ends
///   the request.
/// - A 401 for the same realm and security bits, with a different nonce or list, is answered like a
///   challenge the first two times. The third such 401 ends the request.
/// - If the response repeats the challenge that the current message is signed for, it is dropped as
///   a refusal. It counts at most once for each time that the message was sent since it became the
///   current one, and not before the message was sent. The second refusal that counts ends the
///   request. Over a reliable transport, the first refusal ends it. When another message becomes the
///   current one, no refusal of the former message counts any more, even if the former message
///   becomes the current one again.
/// - A *doubt* is an error that casts doubt on the message that it answers. It is dropped after the
///   first plan of the request, once another message has become the current one as often as the
///   limit allows, and once three doubts have made another message the current one. Otherwise the
///   eligible earlier message that was written last becomes the current one again. A message is
///   eligible if it is not in doubt, and is not signed for a challenge that is weaker than the
///   challenge that a success has confirmed. If it is signed, new requests are then signed for its
///   challenge, so an unsigned 437, which anybody can send, can change that challenge.
///
///   If there is no eligible message, the effect of a doubt depends on the current message. If that
///   message is signed, a new unsigned message replaces it, unless the request has an unsigned
///   message already. If it is unsigned, the last signed message that is not too weak replaces it,
///   even if that message is in doubt. If there is no message to replace it, the doubt is dropped.
///
/// Fails if an allocation fails. It allocates only for a doubt.
pub fn decide<A: Memory>(
    asked: &Asked<A>,
    standing: &Standing<A>,
    limits: Limits,
    judged: Judged<A>,
    now: Instant,
) -> Result<Decision<A>, AllocError>
    ensures decided { IfOk result (λ decision. decision_of decision
        ≡ decided limits standing.now now asked.now (verdict_of judged)) }
    ensures no_memory { is_doubted (verdict_of judged) ≡ false → IsOk result }
    ensures granted { A.grants → IsOk result }
{
    match judged {
        Judged::Believed(by) => Ok(Decision::Answered(by)),
        Judged::Anew(challenge) => Ok(decide_on_challenge(asked, limits, challenge, now)),
        Judged::Refused(None) => Ok(decide_on_repeat(asked, limits)),
        Judged::Refused(Some(challenge)) => Ok(decide_on_refusal(asked, limits, challenge, now)),
        Judged::Doubted => decide_on_doubt(asked, standing, limits, now),
        Judged::Dropped(why) => Ok(Decision::Drop(reason_of(why))),
    }
}

/// Decides on a new challenge: answers it, drops it after the first plan, or ends the request at
/// the limit.
fn decide_on_challenge<A: Allocator + Copy>(
    asked: &Asked<A>,
    limits: Limits,
    challenge: Challenge<A>,
    now: Instant,
) -> Decision<A>
    ensures { decision_of result ≡ answered_anew limits now asked.now challenge }
{
    if asked.is_late(now) {
        return Decision::Drop(DropReason::LateChallenge);
    }
    if asked.is_spent(limits.turns) {
        return Decision::ChallengedOut;
    }
    turn_for_challenge(Why::Challenged, challenge, asked)
}

/// Decides on a 401 for the same realm and security bits, with a different nonce or list: answers
/// it like a challenge, but only twice.
fn decide_on_refusal<A: Allocator + Copy>(
    asked: &Asked<A>,
    limits: Limits,
    challenge: Challenge<A>,
    now: Instant,
) -> Decision<A>
    ensures { decision_of result ≡ answered_refusal limits now asked.now challenge }
{
    if asked.is_late(now) {
        return Decision::Drop(DropReason::LateChallenge);
    }
    if asked.is_spent(limits.turns) || asked.refusals().is_last() {
        return Decision::ChallengedOut;
    }
    turn_for_challenge(Why::Refused, challenge, asked)
}

/// Decides on a response that repeats the challenge that the message is signed for: ends the
/// request if the transport is reliable, or if such a response arrived before the request was sent
/// last. Otherwise drops the response as a refusal.
fn decide_on_repeat<A: Allocator + Copy>(asked: &Asked<A>, limits: Limits) -> Decision<A>
    ensures { decision_of result ≡ refused_again limits asked.now }
{
    if limits.is_reliable || asked.refusals().is_earlier() {
        Decision::ChallengedOut
    } else {
        Decision::Refuse
    }
}

/// Decides that the message for a challenge becomes the current one: the earlier message that is
/// signed for it, or a new message.
fn turn_for_challenge<A: Allocator + Copy>(
    why: Why,
    challenge: Challenge<A>,
    asked: &Asked<A>,
) -> Decision<A>
    ensures { decision_of result ≡ turns_for why challenge asked.now }
{
    let place = find_place(asked, &challenge);
    Decision::Turn(why, place, Some(challenge))
}

/// Returns the rank and the transaction ID of the earlier message that is signed for a challenge,
/// or `None` if there is no such message.
fn find_place<A: Allocator + Copy>(
    asked: &Asked<A>,
    challenge: &Challenge<A>,
) -> Option<(u32, TransactionId)>
    ensures { result ≡ option_map place_of (message_for challenge.now asked.now.earlier) }
{
    match asked.message_for(challenge) {
        Some((rank, sent)) => Some((rank, sent.id())),
        None => None,
    }
}

/// Decides on a doubt, which is an error that casts doubt on the message that it answers (see
/// `decide`). Fails if an allocation fails.
fn decide_on_doubt<A: Memory>(
    asked: &Asked<A>,
    standing: &Standing<A>,
    limits: Limits,
    now: Instant,
) -> Result<Decision<A>, AllocError>
    ensures value { IfOk result (λ decision. decision_of decision
        ≡ on_doubt limits standing.now now asked.now) }
    ensures granted { A.grants → IsOk result }
{
    if is_idle(asked, limits, now) {
        return Ok(Decision::Drop(DropReason::NotVerified));
    }
    match asked.eligible(standing) {
        Some((rank, sent)) => turn_back_to(Why::Doubted, rank, sent),
        None => decide_without_eligible(asked, standing),
    }
}

/// Returns whether a doubt comes too late or too often to have an effect.
fn is_idle<A: Allocator + Copy>(asked: &Asked<A>, limits: Limits, now: Instant) -> bool
    ensures { result ≡ is_idle limits now asked.now }
{
    asked.is_late(now) || asked.is_spent(limits.turns) || asked.is_doubted_out()
}

/// Decides that an earlier message becomes the current one again. Fails if an allocation fails.
fn turn_back_to<A: Memory>(why: Why, rank: u32, sent: &Sent<A>) -> Result<Decision<A>, AllocError>
    ensures value { IfOk result (λ decision. decision_of decision ≡ back_to why (rank, sent.now)) }
    ensures granted { A.grants → IsOk result }
{
    let signed_for = copy_challenge(sent.signed_for())?;
    Ok(Decision::Turn(why, Some((rank, sent.id())), signed_for))
}

/// Copies a challenge, if there is one. Fails if an allocation fails.
pub(crate) fn copy_challenge<A: Memory>(
    challenge: &Option<Challenge<A>>,
) -> Result<Option<Challenge<A>>, AllocError>
    ensures value { IfOk result (λ copy. copy ≡ challenge.now) }
    ensures granted { A.grants → IsOk result }
{
    match challenge {
        Some(challenge) => Ok(Some(challenge.clone()?)),
        None => Ok(None),
    }
}

/// Decides on a doubt if every earlier message is in doubt or too weak. Fails if an allocation
/// fails.
fn decide_without_eligible<A: Memory>(
    asked: &Asked<A>,
    standing: &Standing<A>,
) -> Result<Decision<A>, AllocError>
    ensures value { IfOk result (λ decision. decision_of decision
        ≡ without_eligible standing.now asked.now) }
    ensures granted { A.grants → IsOk result }
{
    if asked.signed_for().is_none() {
        decide_for_unsigned(asked, standing)
    } else {
        Ok(decide_for_signed(asked))
    }
}

/// Decides on a doubt about a signed message, if every earlier message is in doubt or too weak:
/// replaces the message by a new unsigned one, or drops the response if an earlier message is
/// unsigned already.
fn decide_for_signed<A: Allocator + Copy>(asked: &Asked<A>) -> Decision<A>
    ensures { decision_of result ≡ begun_again asked.now }
{
    if asked.has_unsigned() {
        Decision::Drop(DropReason::NotVerified)
    } else {
        Decision::Turn(Why::Doubted, None, None)
    }
}

/// Decides on a doubt about an unsigned message, if every earlier message is in doubt or too weak:
/// goes back to the last signed message that is not too weak, or drops the response if there is
/// none. Fails if an allocation fails.
fn decide_for_unsigned<A: Memory>(
    asked: &Asked<A>,
    standing: &Standing<A>,
) -> Result<Decision<A>, AllocError>
    ensures value { IfOk result (λ decision. decision_of decision
        ≡ undoubted (signed_eligible standing.now asked.now.earlier)) }
    ensures granted { A.grants → IsOk result }
{
    match asked.signed_eligible(standing) {
        Some((rank, sent)) => turn_back_to(Why::Undoubted, rank, sent),
        None => Ok(Decision::Drop(DropReason::NotVerified)),
    }
}
