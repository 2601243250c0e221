//! Reads datagrams, and acts on responses.
ghost use Rattle.std.specs.Option.{option_and_then};
ghost use Rattle.std.specs.Prelude.{◌≡◌, false, IfOk, IsOk, None, Some};
ghost use Rattle.stun_base.specs.MessageType.{class_in};
ghost use Rattle.stun_client.specs.Answers.{is_answer};
ghost use Rattle.stun_client_calls.specs.Deciding.{decision_of, drops};
ghost use Rattle.stun_client_calls.specs.Ids.{number_in};
ghost use Rattle.stun_client_calls.specs.Messages.{AskedSeen};
ghost use Rattle.stun_client_calls.specs.Receiving.{Met as MetSeen, UnlessMemory, answered_in, by_class};
ghost use Rattle.stun_client_calls.specs.Receiving.{by_decision, by_met, current_of, decision_for};
ghost use Rattle.stun_client_calls.specs.Receiving.{dropping, dropping_refusal, earlier_of, heard_in};
ghost use Rattle.stun_client_calls.specs.Receiving.{indicated, judge_for};
ghost use Rattle.stun_client_calls.specs.Receiving.{IsDropped, Memory as MemoryFor, all_memory};
ghost use Rattle.stun_client_calls.specs.Receiving.{is_heeded, met, received};
ghost use Rattle.stun_client_calls.specs.Receiving.{takes_memory, without_memory};
ghost use Rattle.stun_client_calls.specs.code.Acting.{DropsResponse};
ghost use Rattle.stun_client_endpoint.specs.Settings.{is_reliable};
ghost use Rattle.stun_client_endpoint.specs.declared.ended.DropReason.{DropReason};

use crate::asked::{Asked, Change};
use crate::deciding::{Decision, Limits, decide};
use crate::endpoint::ClientEndpoint;
use crate::endpoint::changing::change;
use std::alloc::{AllocError, Allocator};
use std::marker::Model;
use std::net::SocketAddr;
use stun_base::instant::Instant;
use stun_base::memory::Memory;
use stun_base::transport::TransportType;
use stun_client::challenge::Challenge;
use stun_client::credentials::Credentials;
use stun_client_endpoint::ended::DropReason;
use stun_client_endpoint::reading::code_of;
use stun_client_endpoint::told::Received;
use stun_extra::canonical_address::is_same_address;
use stun_types::message::{Message, MessageClass, Method, TransactionId};

/// The message of an outstanding request that a response answers.
///
/// Contracts: the value is a record of all fields.
#[derive(Drop)]
pub(crate) struct Met<'a, A: Allocator> {
    number: u64,
    asked: &'a Asked<A>,
    is_current: bool,
    signed_for: &'a Option<Challenge<A>>,
}

impl<'a, A: Allocator> Model for Met<'a, A> {
    ghost use Rattle.stun_client_calls.specs.Receiving.{Met as MetSeen};

    ghost Value = { MetSeen };

    ghost view = { λ m. record {
      number = m.number;
      asked = m.asked.now;
      is_current = m.is_current;
      signed_for = m.signed_for.now;
    } };
}

impl<A: Memory> ClientEndpoint<A> {
    /// Reads a datagram that came from this address. If the result is `NotOurs`, offer the datagram
    /// to the next client on the socket. If it is `Consumed`, call `poll`, which returns what to do
    /// next.
    ///
    /// A response to any message of a request ends the request if it is believed (see
    /// `Credentials::judge`), and comes from the address that answers the request. This is the
    /// server's address, unless the options of the request name another one (see
    /// `RequestOptions::from`). Otherwise `deciding::decide` decides: the request ends as
    /// `Unauthorized` or as `TooManyChallenges`, another message becomes the current one, or the
    /// response is dropped. A response from any other address is `NotOurs`, and so is an indication
    /// that does not come from the server.
    ///
    /// If an allocation fails, or no transaction ID is left, the response is dropped as
    /// `OutOfMemory`. There is one exception: if another message becomes the current one, and there
    /// is no memory to store the former message, only the former message is forgotten, and a
    /// response to it is `NotOurs`.
    pub fn receive<'a>(&mut self, bytes: &'a [u8], from: SocketAddr, now: Instant) -> Received<'a>
        ensures received { UnlessMemory (λ memory. received memory from bytes.now now self.old)
            bytes.now (heard_in from bytes.now self.old) self.old (result, self.new) }
        ensures unheeded { is_heeded from bytes.now self.old ≡ false → (memory : MemoryFor)
            → (result, self.new) ≡ received memory from bytes.now now self.old }
        ensures drops { IsDropped from bytes.now now self.old (result, self.new) }
        ensures granted { A.grants
            → (result, self.new) ≡ received all_memory from bytes.now now self.old }
    {
        let Ok(message) = Message::from_bytes(bytes) else {
            return Received::NotOurs;
        };
        self.by_class(message, from, now)
    }

    /// Handles a message that came from the address `from`, according to its class.
    fn by_class<'a>(&mut self, message: Message<'a>, from: SocketAddr, now: Instant) -> Received<'a>
        ensures acted { UnlessMemory
            (λ memory. by_class memory from self.old now message.entry (class_in message.entry))
            message.entry (heard_in from message.entry self.old) self.old (result, self.new) }
        ensures unheeded { heard_in from message.entry self.old ≡ None → (memory : MemoryFor)
            → (result, self.new)
            ≡ by_class memory from self.old now message.entry (class_in message.entry) }
        ensures drops { DropsResponse from message.entry now self.old (result, self.new) }
        ensures granted { A.grants → (result, self.new)
            ≡ by_class all_memory from self.old now message.entry (class_in message.entry) }
    {
        match message.class() {
            MessageClass::Request => Received::NotOurs,
            MessageClass::Indication => self.receive_indication(message, from),
            MessageClass::Success => self.respond(&message, from, now),
            MessageClass::Error => self.respond(&message, from, now),
        }
    }

    /// Returns `Received::Indication` if the indication came from the server, and
    /// `Received::NotOurs` otherwise.
    fn receive_indication<'a>(&self, message: Message<'a>, from: SocketAddr) -> Received<'a>
        ensures { (result, self.now) ≡ indicated from message.entry self.now }
    {
        if is_same_address(from, self.server) {
            Received::Indication(message)
        } else {
            Received::NotOurs
        }
    }

    /// Judges a response that came from this address, and acts on the judgement. Returns `NotOurs`
    /// if the response answers no message of an outstanding request, or if `from` is not the
    /// address that answers the request.
    fn respond(
        &mut self,
        message: &Message<'_>,
        from: SocketAddr,
        now: Instant,
    ) -> Received<'static>
        ensures acted { UnlessMemory
            (λ memory. by_met memory self.old now message.now (heard_in from message.now self.old))
            message.now (heard_in from message.now self.old) self.old (result, self.new) }
        ensures unheeded { heard_in from message.now self.old ≡ None
            → (result, self.new) ≡ without_memory message.now self.old None }
        ensures drops { DropsResponse from message.now now self.old (result, self.new) }
        ensures granted { A.grants → (result, self.new)
            ≡ by_met all_memory self.old now message.now (heard_in from message.now self.old) }
    {
        let Some(met) = self.find_answered_from(message, from) else {
            return Received::NotOurs;
        };
        let number = met.number;
        let is_current = met.is_current;
        match self.decide(&met, message, now) {
            Ok(decision) => self.act(number, is_current, decision, message, now),
            Err(_) => self.drop_for(number, DropReason::OutOfMemory, message),
        }
    }

    /// Returns the message that a response answers. Returns `None` if it answers no message of an
    /// outstanding request, or if `from` is not the address that answers the request.
    fn find_answered_from(&self, message: &Message<'_>, from: SocketAddr) -> Option<Met<'_, A>>
        ensures { result ≡ heard_in from message.now self.now }
    {
        let met = self.find_answered(message)?;
        if is_same_address(from, met.asked.address(self.server)) {
            Some(met)
        } else {
            None
        }
    }

    /// Returns the message that a response answers, whatever address the response comes from.
    /// Returns `None` if it answers no message of an outstanding request.
    fn find_answered(&self, message: &Message<'_>) -> Option<Met<'_, A>>
        ensures { result ≡ answered_in message.now self.now }
    {
        let met = self.find_message(message.transaction_id())?;
        if is_answer(met.asked.method(), message) {
            Some(met)
        } else {
            None
        }
    }

    /// Returns the current or earlier message with this transaction ID, or `None` if there is none.
    fn find_message(&self, id: TransactionId) -> Option<Met<'_, A>>
        ensures { result ≡ met id self.now }
    {
        match self.requests.number_of(id) {
            Some(number) => self.find_current(number),
            None => self.find_earlier(id),
        }
    }

    /// Returns the current message of a request, or `None` if no outstanding request has this
    /// number.
    fn find_current(&self, number: u64) -> Option<Met<'_, A>>
        ensures { result ≡ current_of self.now number }
    {
        let asked = self.requests.datum_of(number)?;
        Some(Met {
            number,
            asked,
            is_current: true,
            signed_for: asked.signed_for(),
        })
    }

    /// Returns the earlier message with this transaction ID, or `None` if there is none.
    fn find_earlier(&self, id: TransactionId) -> Option<Met<'_, A>>
        ensures { result ≡ option_and_then (earlier_of id self.now) (number_in id self.now.earlier) }
    {
        let Some(number) = self.earlier.get(&id) else {
            return None;
        };
        let Some(asked) = self.requests.datum_of(*number) else {
            return None;
        };
        match asked.message(id) {
            Some((_, sent)) => Some(Met {
                number: *number,
                asked,
                is_current: false,
                signed_for: sent.signed_for(),
            }),
            None => None,
        }
    }

    /// Judges a response to a message, and decides what happens to the request. Fails if an
    /// allocation fails.
    fn decide(
        &self,
        met: &Met<'_, A>,
        message: &Message<'_>,
        now: Instant,
    ) -> Result<Decision<A>, AllocError>
        ensures decided { IfOk result (λ decision. decision_of decision
            ≡ decision_for self.now now message.now met.now) }
        ensures no_memory { takes_memory self.now message.now met.now ≡ false → IsOk result }
        ensures granted { A.grants → IsOk result }
    {
        let unsigned = Credentials::Unsigned;
        let credentials = met.asked.credentials(&unsigned, &self.credentials);
        let judged = credentials.judge(
            self.alloc,
            self.requires_fingerprint,
            met.is_current,
            &self.standing,
            met.signed_for,
            message,
        )?;
        decide(met.asked, &self.standing, self.make_limits(), judged, now)
    }

    /// Returns the limits on the messages of a request.
    fn make_limits(&self) -> Limits
        ensures { (a : AskedSeen) → result ≡ (judge_for self.now a).limits }
    {
        Limits {
            turns: self.turns,
            is_reliable: is_reliable(self.requests.transport()),
        }
    }

    /// Drops a response to a request for the reason `why`, and counts it among the dropped
    /// responses of the request.
    pub(crate) fn drop_for(
        &mut self,
        number: u64,
        why: DropReason,
        message: &Message<'_>,
    ) -> Received<'static>
        ensures { (result, self.new) ≡ dropping number why message.now self.old }
    {
        let noted = Change::Noted(why, code_of(message));
        change(&mut self.requests, self.alloc, number, noted);
        Received::Dropped(why)
    }

    /// Drops a response that repeats the challenge that the current message is signed for.
    fn refuse(&mut self, number: u64, message: &Message<'_>) -> Received<'static>
        ensures { (result, self.new) ≡ dropping_refusal number message.now self.old }
    {
        let refused = Change::Refused(code_of(message));
        change(&mut self.requests, self.alloc, number, refused);
        Received::Dropped(DropReason::Refused)
    }

    /// Acts on the decision about a response to a message.
    fn act(
        &mut self,
        number: u64,
        is_current: bool,
        decision: Decision<A>,
        message: &Message<'_>,
        now: Instant,
    ) -> Received<'static>
        ensures acted { (m : MetSeen) → answered_in message.now self.old ≡ Some m
            → number ≡ m.number → is_current ≡ m.is_current
            → UnlessMemory
            (λ memory. by_decision memory self.old now message.now m (decision_of decision))
            message.now (Some m) self.old (result, self.new) }
        ensures drops { (why : DropReason) → decision_of decision ≡ drops why
            → (result, self.new) ≡ dropping number why message.now self.old }
        ensures granted { A.grants → (m : MetSeen) → answered_in message.now self.old ≡ Some m
            → number ≡ m.number → is_current ≡ m.is_current
            → (result, self.new)
            ≡ by_decision all_memory self.old now message.now m (decision_of decision) }
    {
        match decision {
            Decision::Answered(by) => self.end_answered(number, is_current, by, message, now),
            Decision::ChallengedOut => self.end_challenged(number, is_current, message, now),
            Decision::Turn(why, place, signed_for) => {
                self.turn(number, why, place, signed_for, message, now)
            }
            Decision::Refuse => self.refuse(number, message),
            Decision::Drop(why) => self.drop_for(number, why, message),
        }
    }
}

/// Returns whether a message is a response with this method.
fn is_answer(method: Method, message: &Message<'_>) -> bool
    ensures { result ≡ is_answer method message.now }
{
    match message.class() {
        MessageClass::Success => message.method() == method,
        MessageClass::Error => message.method() == method,
        MessageClass::Request => false,
        MessageClass::Indication => false,
    }
}

/// Returns whether a transport is reliable, so that messages are not retransmitted over it.
fn is_reliable(transport: TransportType) -> bool
    ensures { result ≡ is_reliable transport }
{
    match transport {
        TransportType::Udp => false,
        TransportType::Tcp => true,
    }
}
