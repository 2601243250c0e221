//! Acts on a decision about a response: ends the request, or makes another of its messages the
//! current one.
ghost use Rattle.std.specs.BTreeMap.{insert_entry};
ghost use Rattle.std.specs.Duration.{as_nanos};
ghost use Rattle.std.specs.Option.{IfSome, option_map};
ghost use Rattle.std.specs.Ordering.{nat_cmp};
ghost use Rattle.std.specs.Prelude.{◌≡◌, ◌⊎◌, ◌&&◌, ⊤, Err, IfErr, IfOk, IsOk, None, Ok, Some};
ghost use Rattle.std.specs.Prelude.{if◌then◌else◌, length, true};
ghost use Rattle.stun_agent.specs.Transactions.{IsRequestOf};
ghost use Rattle.stun_judging.specs.Additions.{UnlessMemory as UnlessRefused};
ghost use Rattle.stun_base.specs.MessageType.{class_in};
ghost use Rattle.stun_client_calls.specs.Clients.{with_requests};
ghost use Rattle.stun_client_calls.specs.Deciding.{answered, challenged_out};
ghost use Rattle.stun_client_calls.specs.Messages.{AskedSeen};
ghost use Rattle.stun_client_calls.specs.Options.{round_trip};
ghost use Rattle.stun_client_calls.specs.Receiving.{Met, UnlessMemory, all_memory, answered_in};
ghost use Rattle.stun_client_calls.specs.Receiving.{by_decision, end_after};
ghost use Rattle.stun_client_calls.specs.Receiving.{spot_of, turned_at, turned_to, unwritten};
ghost use Rattle.stun_client_calls.specs.Writing.{message_bytes};
ghost use Rattle.stun_client_calls.specs.code.Acting.{IsExchanged, confirmed_in, exchanging};
ghost use Rattle.stun_client_requests.specs.Requests.{after_answering, datum_of, number_at};

use crate::asked::{Asked, End};
use crate::deciding::copy_challenge;
use crate::endpoint::ClientEndpoint;
use crate::endpoint::changing::make_placeholder;
use crate::turning::{Turn, Why};
use crate::writing::message as write_message;
use std::alloc::AllocError;
use std::collections::BTreeMap;
use std::marker::Model;
use std::time::Duration;
use stun_base::instant::Instant;
use stun_base::memory::Memory;
use stun_client::challenge::Challenge;
use stun_client::judged::Outcome;
use stun_client_endpoint::ended::{DropReason, RequestEnd};
use stun_client_endpoint::reading::code_of;
use stun_client_endpoint::told::Received;
use stun_types::attribute::ErrorCode;
use stun_types::message::{
    IntegrityAlgorithm, Message, MessageClass, StunWriteError, TransactionId,
};

/// The message that becomes the current message of a request: its transaction ID, its rank, and the
/// number of the next transaction ID.
///
/// Contracts: the value is a record of all fields.
#[derive(Drop)]
pub(crate) struct Spot {
    id: TransactionId,
    rank: u32,
    next_id: u64,
}

impl Model for Spot {
    ghost use Rattle.stun_client_calls.specs.Receiving.{Spot as SpotSeen};

    ghost Value = { SpotSeen };

    ghost view = { λ s. record { id = s.id; rank = s.rank; next_id = s.next_id } };
}

impl<A: Memory> ClientEndpoint<A> {
    /// Ends a request with a response that is believed.
    pub(crate) fn end_answered(
        &mut self,
        number: u64,
        is_current: bool,
        by: Option<IntegrityAlgorithm>,
        message: &Message<'_>,
        now: Instant,
    ) -> Received<'static>
        ensures acted { (m : Met) → answered_in message.now self.old ≡ Some m → number ≡ m.number
            → is_current ≡ m.is_current
            → UnlessMemory (λ memory. by_decision memory self.old now message.now m (answered by))
            message.now (Some m) self.old (result, self.new) }
        ensures granted { A.grants → (m : Met) → answered_in message.now self.old ≡ Some m
            → number ≡ m.number → is_current ≡ m.is_current
            → (result, self.new)
            ≡ by_decision all_memory self.old now message.now m (answered by) }
    {
        let Ok(response) = A::copied(self.alloc, message.as_bytes()) else {
            return self.drop_for(number, DropReason::OutOfMemory, message);
        };
        let Ok(confirmed) = self.copy_confirmed(number, is_current, message) else {
            return self.drop_for(number, DropReason::OutOfMemory, message);
        };
        let end = End {
            end: RequestEnd::Answered(Outcome::of(message, &self.understood), by),
            response,
            round_trip: self.measure_round_trip(number, is_current, now),
        };
        let Some(asked) = self.end_by(number, is_current, end, message, now) else {
            return Received::NotOurs;
        };
        self.standing.confirm(confirmed);
        asked.forget(&mut self.earlier);
        Received::Consumed
    }

    /// Returns the time between a message of a request and a response to it that arrives at `now`.
    /// Returns `None` unless the message is the current one and `poll` has returned its bytes
    /// exactly once.
    fn measure_round_trip(&self, number: u64, is_current: bool, now: Instant) -> Option<Duration>
        ensures { (a : AskedSeen) → datum_of number self.now.requests ≡ Some a
            → option_map as_nanos result
            ≡ if is_current then round_trip now a.handed_out else None }
    {
        if !is_current {
            return None;
        }
        let asked = self.requests.datum_of(number)?;
        asked.round_trip(now)
    }

    /// Returns the challenge that a success confirms: the challenge that the answered message is
    /// signed for. An error response confirms no challenge. Fails if an allocation fails.
    fn copy_confirmed(
        &self,
        number: u64,
        is_current: bool,
        message: &Message<'_>,
    ) -> Result<Option<Challenge<A>>, AllocError>
        ensures confirmed { (m : Met) → answered_in message.now self.now ≡ Some m
            → number ≡ m.number → is_current ≡ m.is_current
            → IfOk result (λ c. c ≡ confirmed_in (class_in message.now) m) }
        ensures granted { A.grants → IsOk result }
    {
        if message.class() != MessageClass::Success {
            return Ok(None);
        }
        let Some(asked) = self.requests.datum_of(number) else {
            return Ok(None);
        };
        if is_current {
            return copy_challenge(asked.signed_for());
        }
        match asked.message(message.transaction_id()) {
            Some((_, sent)) => copy_challenge(sent.signed_for()),
            None => Ok(None),
        }
    }

    /// Ends a request that was challenged or refused too often (see `choose_end`).
    pub(crate) fn end_challenged(
        &mut self,
        number: u64,
        is_current: bool,
        message: &Message<'_>,
        now: Instant,
    ) -> Received<'static>
        ensures acted { (m : Met) → answered_in message.now self.old ≡ Some m → number ≡ m.number
            → is_current ≡ m.is_current
            → UnlessMemory (λ memory. by_decision memory self.old now message.now m challenged_out)
            message.now (Some m) self.old (result, self.new) }
        ensures granted { A.grants → (m : Met) → answered_in message.now self.old ≡ Some m
            → number ≡ m.number → is_current ≡ m.is_current
            → (result, self.new)
            ≡ by_decision all_memory self.old now message.now m challenged_out }
    {
        let end = End::bare(self.alloc, self.choose_end(number, message));
        let Some(asked) = self.end_by(number, is_current, end, message, now) else {
            return Received::NotOurs;
        };
        asked.forget(&mut self.earlier);
        Received::Consumed
    }

    /// Returns how a challenge ends a request: as `Unauthorized` if the challenge is a 401 and the
    /// current message of the request is signed, and otherwise as `TooManyChallenges`.
    fn choose_end(&self, number: u64, message: &Message<'_>) -> RequestEnd
        ensures { (a : AskedSeen) → datum_of number self.now.requests ≡ Some a
            → result ≡ end_after a.signed_for message.now }
    {
        let Some(asked) = self.requests.datum_of(number) else {
            return RequestEnd::TooManyChallenges;
        };
        if asked.signed_for().is_some() && code_of(message) == Some(ErrorCode::UNAUTHORIZED) {
            RequestEnd::Unauthorized
        } else {
            RequestEnd::TooManyChallenges
        }
    }

    /// Ends a request with the outcome `end`, and returns its state. Returns `None` if no
    /// outstanding request has this number.
    fn end_by(
        &mut self,
        number: u64,
        is_current: bool,
        end: End<A>,
        message: &Message<'_>,
        now: Instant,
    ) -> Option<Asked<A>>
        ensures stored { result ≡ datum_of number self.old.requests }
        ensures after { self.new ≡ with_requests (after_answering number (length message.now)
            (if is_current then Some now else None) end self.old.requests) self.old }
    {
        let moment = if is_current { Some(now) } else { None };
        self.requests
            .answer(number, message.as_bytes().len(), moment, end)
    }

    /// Makes another message of a request the current one, or drops the response if that message
    /// cannot be written.
    pub(crate) fn turn(
        &mut self,
        number: u64,
        why: Why,
        place: Option<(u32, TransactionId)>,
        signed_for: Option<Challenge<A>>,
        message: &Message<'_>,
        now: Instant,
    ) -> Received<'static>
        ensures acted { (m : Met) → answered_in message.now self.old ≡ Some m → number ≡ m.number
            → UnlessMemory (λ memory. turned_at memory self.old now message.now m why signed_for
            (spot_of self.old m.asked place))
            message.now (Some m) self.old (result, self.new) }
        ensures granted { A.grants → (m : Met) → answered_in message.now self.old ≡ Some m
            → number ≡ m.number
            → (result, self.new) ≡ turned_at all_memory self.old now message.now m why signed_for
            (spot_of self.old m.asked place) }
    {
        let Some(spot) = self.find_spot(number, place) else {
            return self.drop_for(number, DropReason::OutOfMemory, message);
        };
        match self.write_bytes(number, spot.id, &signed_for) {
            Ok(bytes) => self.turn_to(number, why, spot, signed_for, bytes, message, now),
            Err(error) => self.drop_for(number, explain_failure(why, error), message),
        }
    }

    /// Returns the transaction ID, the rank and the next number for the message that becomes the
    /// current one: the earlier message at `place`, or a new one if `place` is `None`. Returns
    /// `None` if no transaction ID is left for a new message, or if a current message has the
    /// transaction ID of the earlier one.
    fn find_spot(&self, number: u64, place: Option<(u32, TransactionId)>) -> Option<Spot>
        ensures { (a : AskedSeen) → datum_of number self.now.requests ≡ Some a
            → result ≡ spot_of self.now a place }
    {
        let asked = self.requests.datum_of(number)?;
        match place {
            Some((rank, id)) => {
                // Another message may have this ID by now, if there was no memory to record that
                // the ID is in use.
                if self.requests.number_of(id).is_some() {
                    return None;
                }
                Some(Spot {
                    id,
                    rank,
                    next_id: self.next_id,
                })
            }
            None => {
                let free = self.choose_id()?;
                Some(Spot {
                    id: free.id,
                    rank: asked.next_rank(),
                    next_id: free.number + 1,
                })
            }
        }
    }

    /// Writes the message of a request with this transaction ID, signed for this challenge.
    fn write_bytes(
        &self,
        number: u64,
        id: TransactionId,
        signed_for: &Option<Challenge<A>>,
    ) -> Result<Vec<u8, A>, StunWriteError>
        ensures ok { (a : AskedSeen) → datum_of number self.now.requests ≡ Some a
            → IfOk result (λ bytes. message_bytes self.now.form self.now.identity signed_for.now id a
            ≡ Ok bytes.items) }
        ensures named { IfOk result (λ bytes. IsRequestOf id bytes.items) }
        ensures refused { (a : AskedSeen) → datum_of number self.now.requests ≡ Some a
            → IfErr result (λ why. (why ≡ StunWriteError.OutOfMemory)
            ⊎ (message_bytes self.now.form self.now.identity signed_for.now id a ≡ Err why)) }
        ensures granted { A.grants → (a : AskedSeen) → datum_of number self.now.requests ≡ Some a
            → UnlessRefused result ⊤ ⊥ }
    {
        let Some(asked) = self.requests.datum_of(number) else {
            return Err(StunWriteError::OutOfMemory);
        };
        let signed_for = signed_for.as_ref();
        write_message(
            self.alloc,
            &self.form,
            &self.credentials,
            signed_for,
            id,
            asked,
        )
    }

    /// Makes the message with these bytes the current message of a request, which `poll` then
    /// returns to be sent. If an allocation fails, drops the response instead.
    fn turn_to(
        &mut self,
        number: u64,
        why: Why,
        spot: Spot,
        signed_for: Option<Challenge<A>>,
        bytes: Vec<u8, A>,
        message: &Message<'_>,
        now: Instant,
    ) -> Received<'static>
        requires named { IsRequestOf spot.id bytes.items }
        ensures acted { (m : Met) → answered_in message.now self.old ≡ Some m → number ≡ m.number
            → UnlessMemory (λ memory. turned_to memory self.old now message.now m why signed_for
            spot bytes.items)
            message.now (Some m) self.old (result, self.new) }
        ensures granted { A.grants → (m : Met) → answered_in message.now self.old ≡ Some m
            → number ≡ m.number → number_at spot.id self.old.requests.table.attached ≡ None
            → (result, self.new) ≡ turned_to all_memory self.old now message.now m why signed_for
            spot bytes.items }
    {
        let Ok(answered) = copy_challenge(&signed_for) else {
            return self.drop_for(number, DropReason::OutOfMemory, message);
        };
        let turn = Turn {
            id: spot.id,
            rank: spot.rank,
            signed_for,
            next_id: spot.next_id,
            answered,
            why,
        };
        let Some(asked) = self.requests.datum_of(number) else {
            return self.drop_for(number, DropReason::OutOfMemory, message);
        };
        let plan = asked.plan(self.plan);
        let empty = make_placeholder(self.alloc, asked.method());
        let response = (message.as_bytes().len(), Some(now));
        match self
            .requests
            .again(number, response, turn.id, bytes, plan, empty, now)
        {
            Ok(former) => {
                let (_bytes, asked) = former.into_parts();
                self.exchange(number, message.transaction_id(), asked, turn);
                Received::Consumed
            }
            Err(_) => self.drop_for(number, DropReason::OutOfMemory, message),
        }
    }

    /// Stores another message as the current one of a request, in place of the message with the
    /// transaction ID `former`.
    fn exchange(&mut self, number: u64, former: TransactionId, asked: Asked<A>, turn: Turn<A>)
        ensures exchanged { IsExchanged number former asked turn self.old self.new }
        ensures granted { A.grants
            → self.new ≡ exchanging all_memory number former asked turn self.old }
    {
        self.next_id = turn.next_id;
        self.earlier.remove(&turn.id);
        let (asked, is_kept, answered) = asked.turned(former, turn);
        let _is_noted = note(&mut self.earlier, is_kept, former, number);
        self.requests.replace(number, asked);
        if let Some(challenge) = answered {
            self.standing.answer(challenge);
        }
    }
}

/// Records the number of the request that an earlier message belongs to, and returns `true`.
/// Returns `false` and records nothing if the message is not stored (`is_kept`), or if an
/// allocation fails.
fn note<A: Memory>(
    earlier: &mut BTreeMap<TransactionId, u64, A>,
    is_kept: bool,
    id: TransactionId,
    number: u64,
) -> bool
    ensures noted { earlier.new.entries ≡ if is_kept && result
        then insert_entry nat_cmp earlier.old.entries id number else earlier.old.entries }
    ensures granted { A.grants → is_kept ≡ true → result ≡ true }
{
    // The ID of a message that is not stored would not be removed when the request ends.
    is_kept && A::insert(earlier, id, number).is_ok()
}

/// Returns the reason to drop a response after which another message should be sent, if writing
/// that message has failed with `error`.
fn explain_failure(why: Why, error: StunWriteError) -> DropReason
    ensures memory { error ≡ StunWriteError.OutOfMemory → result ≡ DropReason.OutOfMemory }
    ensures other { (error ≡ StunWriteError.OutOfMemory) ⊎ (result ≡ unwritten why) }
{
    match error {
        StunWriteError::OutOfMemory => DropReason::OutOfMemory,
        _ => explain_unwritten(why),
    }
}

/// Returns the reason to drop a response after which another message should be sent, if no valid
/// message can be written.
fn explain_unwritten(why: Why) -> DropReason
    ensures { result ≡ unwritten why }
{
    if why.is_doubt() {
        DropReason::NotVerified
    } else {
        DropReason::UnanswerableChallenge
    }
}
