//! The state of an outstanding request, and the outcome of a request that has ended.
ghost use Rattle.std.specs.Duration.{as_nanos};
ghost use Rattle.std.specs.Option.{is_none, option_map};
ghost use Rattle.std.specs.Prelude.{◌≡◌, ◌==◌, if◌then◌else◌, Some, nat_le, true};
ghost use Rattle.stun_client.specs.Judging.{identity_of, unsigned as nobody};
ghost use Rattle.stun_agent.specs.Timing.{settings_of};
ghost use Rattle.stun_client_calls.specs.Options.{address_by, identity_by, options_of, plan_by};
ghost use Rattle.stun_client_calls.specs.Options.{round_trip};
ghost use Rattle.stun_client.specs.Challenges.{is_one};
ghost use Rattle.stun_client_calls.specs.Messages.{DOUBTS, challenge_for, counted_on, eligible};
ghost use Rattle.stun_client_calls.specs.Messages.{exchanged};
ghost use Rattle.stun_client_calls.specs.Messages.{has_unsigned, is_eligible, is_late, is_signed_eligible, is_too_weak};
ghost use Rattle.stun_client_calls.specs.Messages.{message_at, message_for, new_asked, noting};
ghost use Rattle.stun_client_calls.specs.Messages.{rank_after, refusing, sent_out, signed_eligible, stepped_back};
ghost use Rattle.stun_client_calls.specs.Clients.{changed};
ghost use Rattle.stun_client_calls.specs.Messages.{turned};
ghost use Rattle.stun_client_calls.specs.Endpoints.{bare_end, without_all};

use crate::options::{HandedOut, RequestOptions};
use crate::turning::Turn;
use std::alloc::Allocator;
use std::collections::BTreeMap;
use std::marker::Model;
use std::mem;
use std::net::SocketAddr;
use std::time::Duration;
use stun_agent::agent::RequestRto;
use stun_base::instant::Instant;
use stun_base::memory::Memory;
use stun_client::challenge::Challenge;
use stun_client::credentials::Credentials;
use stun_client::standing::Standing;
use stun_client_endpoint::body::Body;
use stun_client_endpoint::ended::{DropReason, Drops, RequestEnd};
use stun_client_endpoint::refusals::Refusals;
use stun_types::message::{Method, TransactionId};

/// An earlier message of a request, which is no longer sent: its transaction ID, the challenge that
/// it is signed for, and whether a response has cast doubt on it.
///
/// Contracts: the value is a record of all fields.
#[derive(Drop)]
pub struct Sent<A: Allocator> {
    id: TransactionId,
    signed_for: Option<Challenge<A>>,
    is_doubted: bool,
}

impl<A: Allocator> Model for Sent<A> {
    ghost use Rattle.stun_client_calls.specs.Messages.{SentSeen};

    ghost Value = { SentSeen };

    ghost view = { λ s. record {
      id = s.id;
      signed_for = s.signed_for;
      is_doubted = s.is_doubted;
    } };
}

impl<A: Allocator + Copy> Sent<A> {
    /// Returns the transaction ID of the message.
    pub fn id(&self) -> TransactionId
        ensures { result ≡ self.now.id }
    {
        self.id
    }

    /// Returns the challenge that the message is signed for, or `None` if the message is not
    /// signed.
    pub fn signed_for(&self) -> &Option<Challenge<A>>
        ensures { result.now ≡ self.now.signed_for }
    {
        &self.signed_for
    }

    /// Returns whether the message has this transaction ID.
    fn has_id(&self, id: TransactionId) -> bool
        ensures { result ≡ (self.now.id == id) }
    {
        self.id == id
    }

    /// Returns whether the message is signed for this challenge.
    fn is_for(&self, challenge: &Challenge<A>) -> bool
        ensures { result ≡ is_one (Some challenge.now) self.now.signed_for }
    {
        challenge.is_same_as(&self.signed_for)
    }

    /// Returns whether the message is not signed.
    fn is_unsigned(&self) -> bool
        ensures { result ≡ is_none self.now.signed_for }
    {
        self.signed_for.is_none()
    }

    /// Returns whether the message may become the current one again: it is not in doubt, and is not
    /// signed for a challenge that is weaker than the challenge that a success has confirmed.
    fn is_eligible(&self, standing: &Standing<A>) -> bool
        ensures { result ≡ is_eligible standing.now self.now }
    {
        !self.is_doubted && !is_too_weak(standing, &self.signed_for)
    }

    /// Returns whether the message may become the current one again if doubts are ignored: it is
    /// signed, and for a challenge that is not weaker than the challenge that a success has
    /// confirmed.
    fn is_signed_eligible(&self, standing: &Standing<A>) -> bool
        ensures { result ≡ is_signed_eligible standing.now self.now }
    {
        self.signed_for.is_some() && !is_too_weak(standing, &self.signed_for)
    }
}

/// Returns whether `signed_for` is a challenge that is weaker than the challenge that a success has
/// confirmed.
fn is_too_weak<A: Allocator + Copy>(
    standing: &Standing<A>,
    signed_for: &Option<Challenge<A>>,
) -> bool
    ensures { result ≡ is_too_weak standing.now signed_for.now }
{
    match signed_for {
        Some(challenge) => standing.ignores(challenge),
        None => false,
    }
}

/// The state of an outstanding request: its method, attributes and options, the time at which its
/// first plan ends, its earlier messages, and its refusals and dropped responses. For its current
/// message, the state has the challenge that it is signed for, and how often `poll` returned its
/// bytes.
///
/// Each message has a rank: the later it was written, the lower its rank. So *the last* of several
/// earlier messages is the one that was written last, whichever of them was the current one last.
///
/// Contracts: the value is a record of all fields.
#[derive(Drop)]
pub struct Asked<A: Allocator> {
    method: Method,
    body: Body<A>,
    // The options are in a box, because they are long and few requests have them.
    options: Option<Box<RequestOptions, A>>,
    until: Instant,
    rank: u32,
    signed_for: Option<Challenge<A>>,
    handed_out: HandedOut,
    // By rank, so the message that was written last comes first.
    earlier: BTreeMap<u32, Sent<A>, A>,
    turns: u32,
    doubts: u32,
    refusals: Refusals,
    drops: Drops,
}

impl<A: Allocator> Model for Asked<A> {
    ghost use Rattle.std.specs.Option.{option_map};
    ghost use Rattle.stun_client_calls.specs.Messages.{AskedSeen};
    ghost use Rattle.stun_client_calls.specs.Options.{options_of};

    ghost Value = { AskedSeen };

    ghost view = { λ a. record {
      method = a.method;
      body = a.body;
      options = option_map (λ b. options_of b.value) a.options;
      until = a.until;
      rank = a.rank;
      signed_for = a.signed_for;
      handed_out = a.handed_out;
      earlier = a.earlier.entries;
      turns = a.turns;
      doubts = a.doubts;
      refusals = a.refusals;
      drops = a.drops;
    } };
}

impl<A: Memory> Asked<A> {
    /// Creates the state of a new request. `until` is the time at which its first plan ends, and
    /// `signed_for` the challenge that its first message is signed for.
    pub fn new(
        alloc: A,
        method: Method,
        body: Body<A>,
        options: Option<Box<RequestOptions, A>>,
        until: Instant,
        signed_for: Option<Challenge<A>>,
    ) -> Asked<A>
        ensures { result ≡ new_asked method body (option_map (λ b. options_of b.value) options) until
            signed_for }
    {
        Asked {
            method,
            body,
            options,
            until,
            rank: compute_rank(0),
            signed_for,
            handed_out: HandedOut::Never,
            earlier: BTreeMap::new(alloc),
            turns: 0,
            doubts: 0,
            refusals: Refusals::none(),
            drops: Drops::none(),
        }
    }

    /// Returns the method.
    pub fn method(&self) -> Method
        ensures { result ≡ self.now.method }
    {
        self.method
    }

    /// Returns the attributes.
    pub fn body(&self) -> &Body<A>
        ensures { result.now ≡ self.now.body }
    {
        &self.body
    }

    /// Returns the credentials that the messages of the request are signed with: the credentials of
    /// its client, or `unsigned` if the request is not signed. Pass `Credentials::Unsigned` as
    /// `unsigned`.
    pub fn credentials<'a>(
        &self,
        unsigned: &'a Credentials<A>,
        of_client: &'a Credentials<A>,
    ) -> &'a Credentials<A>
        requires { identity_of unsigned.now ≡ nobody }
        ensures { identity_of result.now
            ≡ identity_by self.now.options (identity_of of_client.now) }
    {
        let Some(options) = &self.options else {
            return of_client;
        };
        if options.is_signed {
            of_client
        } else {
            unsigned
        }
    }

    /// Returns the plan of each message: the plan in the options of the request or, if the request
    /// has no options, `of_client`, which is the plan of the client.
    pub fn plan(&self, of_client: RequestRto) -> RequestRto
        ensures { settings_of result ≡ plan_by self.now.options (settings_of of_client) }
    {
        match &self.options {
            Some(options) => options.timeouts,
            None => of_client,
        }
    }

    /// Returns the address that the responses come from: the address in the options of the request
    /// or, if the request has no options, `of_server`, which is the address of the server.
    pub fn address(&self, of_server: SocketAddr) -> SocketAddr
        ensures { result ≡ address_by self.now.options of_server }
    {
        match &self.options {
            Some(options) => options.from,
            None => of_server,
        }
    }

    /// Returns the round-trip time of the current message, if a response to it arrives at this time
    /// and it is known which transmission the response answers.
    pub fn round_trip(&self, now: Instant) -> Option<Duration>
        ensures { option_map as_nanos result ≡ round_trip now self.now.handed_out }
    {
        self.handed_out.round_trip(now)
    }

    /// Returns the time at which the first plan ends.
    pub fn until(&self) -> Instant
        ensures { result ≡ self.now.until }
    {
        self.until
    }

    /// Returns the challenge that the current message is signed for, or `None` if it is not signed.
    pub fn signed_for(&self) -> &Option<Challenge<A>>
        ensures { result.now ≡ self.now.signed_for }
    {
        &self.signed_for
    }

    /// Returns how many responses were dropped for the request, and why the last one was dropped.
    pub fn drops(&self) -> Drops
        ensures { result ≡ self.now.drops }
    {
        self.drops
    }

    /// Returns the refusals of the request (see `Refusals`).
    pub fn refusals(&self) -> Refusals
        ensures { result ≡ self.now.refusals }
    {
        self.refusals
    }

    /// Returns whether the first plan is over. It is not over at the time at which it ends.
    pub fn is_late(&self, now: Instant) -> bool
        ensures { result ≡ is_late now self.now }
    {
        self.until < now
    }

    /// Returns whether another message has become the current one at least `most` times.
    pub fn is_spent(&self, most: u32) -> bool
        ensures { result ≡ nat_le most self.now.turns }
    {
        most <= self.turns
    }

    /// Returns whether three doubts have made another message the current one, which is the limit.
    pub fn is_doubted_out(&self) -> bool
        ensures { result ≡ nat_le DOUBTS self.now.doubts }
    {
        self.doubts >= 3
    }

    /// Returns the rank of a message that is written now and becomes the current one.
    pub fn next_rank(&self) -> u32
        ensures { result ≡ rank_after (counted_on self.now.turns) }
    {
        compute_rank(self.turns.saturating_add(1))
    }

    /// Returns the earlier message with a transaction ID, and its rank, or `None` if there is no
    /// such message.
    pub fn message(&self, id: TransactionId) -> Option<(u32, &Sent<A>)>
        ensures { option_map (λ e. (e.0, e.1.now)) result ≡ message_at id self.now.earlier }
    {
        match self.earlier.iter().find(|e| e.1.has_id(id)) {
            Some((rank, sent)) => Some((*rank, sent)),
            None => None,
        }
    }

    /// Returns the last earlier message that is signed for a challenge, and its rank, or `None` if
    /// there is no such message.
    pub fn message_for(&self, challenge: &Challenge<A>) -> Option<(u32, &Sent<A>)>
        ensures { option_map (λ e. (e.0, e.1.now)) result
            ≡ message_for challenge.now self.now.earlier }
    {
        match self.earlier.iter().find(|e| e.1.is_for(challenge)) {
            Some((rank, sent)) => Some((*rank, sent)),
            None => None,
        }
    }

    /// Returns whether there is an earlier message that is not signed.
    pub fn has_unsigned(&self) -> bool
        ensures { result ≡ has_unsigned self.now.earlier }
    {
        let unsigned = self.earlier.iter().find(|e| e.1.is_unsigned());
        unsigned.is_some()
    }

    /// Returns the last earlier message that may become the current one again, and its rank, or
    /// `None` if there is no such message. This message is not in doubt, and is not signed for a
    /// challenge that is weaker than the challenge that a success has confirmed.
    pub fn eligible(&self, standing: &Standing<A>) -> Option<(u32, &Sent<A>)>
        ensures { option_map (λ e. (e.0, e.1.now)) result
            ≡ eligible standing.now self.now.earlier }
    {
        match self.earlier.iter().find(|e| e.1.is_eligible(standing)) {
            Some((rank, sent)) => Some((*rank, sent)),
            None => None,
        }
    }

    /// Returns the last signed earlier message that may become the current one again, whether it is
    /// in doubt or not, and its rank. Returns `None` if there is no such message.
    pub fn signed_eligible(&self, standing: &Standing<A>) -> Option<(u32, &Sent<A>)>
        ensures { option_map (λ e. (e.0, e.1.now)) result
            ≡ signed_eligible standing.now self.now.earlier }
    {
        match self
            .earlier
            .iter()
            .find(|e| e.1.is_signed_eligible(standing))
        {
            Some((rank, sent)) => Some((*rank, sent)),
            None => None,
        }
    }

    /// Makes another message the current one, and stores the former message, which has the
    /// transaction ID `former`, as an earlier message. If an allocation fails, the former message
    /// is forgotten, and the second result is `false`. The third result is the challenge that the
    /// new message answers.
    pub fn turned(
        self,
        former: TransactionId,
        turn: Turn<A>,
    ) -> (Asked<A>, bool, Option<Challenge<A>>)
        ensures turned { result.0 ≡ turned result.1 former turn self }
        ensures answered { result.2 ≡ turn.answered }
        ensures granted { A.grants → result.1 ≡ true }
    {
        let mut asked = self;
        let is_kept = asked.turn_to(former, turn.rank, turn.signed_for, turn.why.leaves_doubt());
        asked.turns = asked.turns.saturating_add(1);
        if turn.why.is_doubt() {
            asked.doubts = asked.doubts.saturating_add(1);
        }
        asked.refusals = asked.refusals.turned(turn.why.is_refusal());
        (asked, is_kept, turn.answered)
    }

    /// Exchanges the current message for another one, and returns whether there was memory to store
    /// the former message.
    fn turn_to(
        &mut self,
        former: TransactionId,
        rank: u32,
        signed_for: Option<Challenge<A>>,
        is_doubted: bool,
    ) -> bool
        ensures turned { self.new ≡ exchanged result former rank signed_for is_doubted self.old }
        ensures granted { A.grants → result ≡ true }
    {
        let is_back = self.earlier.remove(&rank).is_some();
        let sent = Sent {
            id: former,
            signed_for: mem::replace(&mut self.signed_for, signed_for),
            is_doubted,
        };
        let before = mem::replace(&mut self.rank, rank);
        self.handed_out = count_handed_out(is_back);
        A::insert(&mut self.earlier, before, sent).is_ok()
    }

    /// Informs `standing` that the request has timed out. If one of the request's messages is
    /// signed for the current challenge, this challenge may be forged, and the client steps back
    /// from it.
    pub fn step_back(&self, standing: &mut Standing<A>)
        ensures { standing.new ≡ stepped_back self.now standing.old }
    {
        let signed_for = self.find_challenge(standing.current());
        standing.step_back(signed_for);
    }

    /// Returns this challenge if an earlier message is signed for it, and otherwise the challenge
    /// that the current message is signed for.
    fn find_challenge(&self, challenge: &Option<Challenge<A>>) -> &Option<Challenge<A>>
        ensures { result.now ≡ challenge_for challenge.now self.now }
    {
        let Some(challenge) = challenge else {
            return &self.signed_for;
        };
        match self.message_for(challenge) {
            Some((_rank, sent)) => sent.signed_for(),
            None => &self.signed_for,
        }
    }

    /// Removes the transaction IDs of the earlier messages from `all`. It does not allocate.
    pub fn forget(self, all: &mut BTreeMap<TransactionId, u64, A>)
        ensures { all.new.entries ≡ without_all self.earlier all.old.entries }
    {
        let mut earlier = self.earlier;
        while let Some((_, sent)) = earlier.pop_first() {
            all.remove(&sent.id);
        }
    }

    /// Returns the state after `poll` returned the bytes of the current message at this time.
    pub fn sent_out(self, now: Instant) -> Asked<A>
        ensures { result ≡ sent_out now self }
    {
        let mut asked = self;
        asked.handed_out = asked.handed_out.handed_out_at(now);
        asked.refusals = asked.refusals.sent();
        asked
    }

    /// Returns the state after a response was dropped for this reason. Pass the error code if the
    /// response is an error.
    pub fn noting(self, why: DropReason, code: Option<u16>) -> Asked<A>
        ensures { result ≡ noting why code self }
    {
        let mut asked = self;
        asked.drops = asked.drops.noted(why, code);
        asked
    }

    /// Returns the state after a response was dropped because it repeats the challenge that the
    /// current message is signed for. Pass the error code of the response.
    pub fn refusing(self, code: Option<u16>) -> Asked<A>
        ensures { result ≡ refusing code self }
    {
        let mut asked = self;
        asked.drops = asked.drops.noted(DropReason::Refused, code);
        asked.refusals = asked.refusals.noted();
        asked
    }

    /// Returns the state after a change that leaves the messages as they are.
    pub fn changed(self, change: Change) -> Asked<A>
        ensures { result ≡ changed change self }
    {
        match change {
            Change::SentOut(now) => self.sent_out(now),
            Change::Noted(why, code) => self.noting(why, code),
            Change::Refused(code) => self.refusing(code),
        }
    }
}

/// A change of an outstanding request that leaves its messages as they are.
#[derive(Clone, Copy)]
pub enum Change {
    /// `poll` returns the bytes of the current message at this time.
    SentOut(Instant),
    /// A response to the request is dropped for this reason. The code is that of the response, if
    /// the response is an error.
    Noted(DropReason, Option<u16>),
    /// A response is dropped because it repeats the challenge that the request is signed for. The
    /// code is that of the response.
    Refused(Option<u16>),
}

/// Returns the rank of a message that is written after another message has become the current one
/// `turns` times.
fn compute_rank(turns: u32) -> u32
    ensures { result ≡ rank_after turns }
{
    u32::MAX - turns
}

/// Returns how often `poll` has returned the bytes of a message that becomes the current one: never
/// for a new message. For an earlier message (`is_back`) the number is not stored, so the message
/// counts as sent more than once.
fn count_handed_out(is_back: bool) -> HandedOut
    ensures { result ≡ if is_back then HandedOut.Again else HandedOut.Never }
{
    if is_back {
        HandedOut::Again
    } else {
        HandedOut::Never
    }
}

/// How a request has ended.
#[derive(Drop)]
pub struct End<A: Allocator> {
    /// The outcome of the request.
    pub end: RequestEnd,
    /// The bytes of the response that ended the request, or no bytes.
    pub response: Vec<u8, A>,
    /// The round-trip time of the message that this response answers. It is `None` if the message
    /// is an earlier one, was sent more than once, or became the current one again, because then it
    /// is not known which transmission the response answers.
    pub round_trip: Option<Duration>,
}

impl<A: Allocator> End<A> {
    /// Creates the outcome of a request that ended without a response. It does not allocate.
    pub fn bare(alloc: A, end: RequestEnd) -> End<A>
        ensures { result ≡ bare_end end }
    {
        End {
            end,
            response: Vec::new(alloc),
            round_trip: None,
        }
    }
}

impl<A: Allocator> Model for End<A> {
    ghost use Rattle.std.specs.Duration.{as_nanos};
    ghost use Rattle.std.specs.Option.{option_map};
    ghost use Rattle.stun_client_calls.specs.Endpoints.{EndSeen};

    ghost Value = { EndSeen };

    ghost view = { λ e. record {
      end = e.end;
      response = e.response.items;
      round_trip = option_map as_nanos e.round_trip;
    } };
}
