//! Laws about runs. Some of them follow from the definitions alone, and the others relate single
//! calls on a server or an agent to a run.
ghost use Rattle.std.specs.Prelude.{◌≡◌, ◌≤◌, List, [], Ok, IsErrOf, OnErr, length, ℕ};
ghost use Rattle.std.specs.declared.net.socket_addr.SocketAddr.{SocketAddr as Address};
ghost use Rattle.std.specs.Global.{Vec as TheVec};
ghost use Rattle.stun_base.specs.Moments.{last_moment};
ghost use Rattle.stun_base.specs.Words.{next_words};
ghost use Rattle.stun_base.specs.declared.wire.transport.TransportType.{TransportType as Transport};
ghost use Rattle.stun_base.specs.declared.wire.transport.TransportType.TheVariants.{Udp, Tcp};
ghost use Rattle.stun_types.specs.Message.{IsMessage};
ghost use Rattle.stun_agent.specs.Agent.{Agent, new_agent};
ghost use Rattle.stun_agent.specs.Timing.{default_settings};
ghost use Rattle.stun_agent.specs.Transactions.{IsAscending};
ghost use Rattle.stun_judging.specs.Additions.{UnlessMemory, written_page};
ghost use Rattle.stun_auth.specs.Client.{initial};
ghost use Rattle.stun_judging.specs.Reading.{Reading};
ghost use Rattle.stun_auth.specs.Reasons.{ServerUnlessMemory};
ghost use Rattle.stun_auth.specs.Server.{Sight};
ghost use Rattle.stun_auth.specs.Validation.{answer};
ghost use Rattle.stun_proto.specs.AgentLoop.{LoopsAreDriven, LoopsExist, LoopsSendByPlan};
ghost use Rattle.stun_proto.specs.AnyLoop.{CallsExist, CallsSendInTime};
ghost use Rattle.stun_proto.specs.Appending.{AgreeingAreAnsweredAlike, ContinuedAreAnsweredAlike};
ghost use Rattle.stun_proto.specs.Best.{BestIsStrongest};
ghost use Rattle.stun_proto.specs.DatabaseLoop.{StoredCallsAreServed};
ghost use Rattle.stun_proto.specs.Examples.{example_request, udp_steps, tcp_steps};
ghost use Rattle.stun_proto.specs.Contact.{IsNewClient, NewClientsAreIntroduced};
ghost use Rattle.stun_proto.specs.Counters.{RunsCountSteps};
ghost use Rattle.stun_proto.specs.Honest.{AgreesOn, ShortNamesAreSigned, StrongestIsAgreed};
ghost use Rattle.stun_proto.specs.MeetingExample.{IsServed, a_meeting, a_server, a_user};
ghost use Rattle.stun_proto.specs.MeetingLoop.{MeetingsAgree, MeetingsAreNegotiated};
ghost use Rattle.stun_proto.specs.Negotiation.{BINDING, whole_negotiation};
ghost use Rattle.stun_proto.specs.Renewal.{NonceIsRenewed};
ghost use Rattle.stun_proto.specs.Headline.{IsAskedOnce, IsReadyClient};
ghost use Rattle.stun_proto.specs.Headline.{SendsByPlan, ValidatesOneCall};
ghost use Rattle.stun_proto.specs.Run.{IsDriven};
ghost use Rattle.stun_proto.specs.RunLaws.{EventsHaveRuns, IsDetermined};
ghost use Rattle.stun_proto.specs.RunLaws.{IsDeterminedThroughout, KeepPlans, requester};
ghost use Rattle.stun_proto.specs.Schedule.{AreInOrder, plan};
ghost use Rattle.stun_proto.specs.ServerLoop.{BuiltAreWrittenSo, CallsAreServed};
ghost use Rattle.stun_proto.specs.ServerLoop.{CallsAreValidated, IsMade, reply_with};
ghost use Rattle.stun_proto.specs.Serving.{reply_of_answer, reply_of_signing};
ghost use Rattle.stun_proto.specs.Session.{SessionsGoOn};
ghost use Rattle.stun_proto.specs.SessionExample.{ALLOCATE, AreExchanged, HasSession, a_contact};
ghost use Rattle.stun_proto.specs.Shards.{ShardsServeAsOne};
ghost use Rattle.stun_proto.specs.Signing.{written_anew};
ghost use Rattle.stun_proto.specs.Steps.{Step};
ghost use Rattle.stun_proto.specs.StoredExample.{OneIsStored};
ghost use Rattle.stun_proto.specs.Stopped.{StoppedRunsEnd, StoppedRunsGoOn};
ghost use Rattle.stun_proto.specs.Stopped.{StoppedRunsHaveTheRest, StoppedRunsStopAgain};
ghost use Rattle.stun_proto.specs.declared.replay.event.AgentEvent.{AgentEvent as TheEvent};

use crate::replay::ServerCall;
use rand_core::Rng;
use std::alloc::Allocator;
use std::net::SocketAddr;
use stun_auth::auth::{LongTermServerAuth, LongTermServerAuthError, LongTermServerValidation};
use stun_auth::laws as auth_laws;
use stun_base::algorithm::IntegrityAlgorithm;
use stun_base::error::StunWriteError;
use stun_base::instant::Instant;
use stun_judging::laws as judging_laws;
use stun_types::message::Message;
use stun_types::prelude::MessageWrite;

/// A list of events has at most one run: the events determine its steps and the agent after it
/// (`driven`). This holds for every time at which the run begins or ends (`throughout`).
pub fn runs_are_determined()
    ensures driven { IsDetermined }
    ensures throughout { IsDeterminedThroughout }
{}

/// Every list of events has a run, if the times of the events do not decrease.
pub fn events_have_runs()
    ensures { EventsHaveRuns }
{}

/// A run that stopped because an allocation failed can be continued: drive the agent that it left
/// through the remaining events. The second run makes exactly those steps of the whole run that the
/// first run did not make, and leaves the agent in the same state, so nothing is sent twice
/// (`left`, `parts`). It may stop again, any number of times (`again`). If no event is left, the
/// agent is already in the state in which the whole run leaves it (`complete`).
pub fn stopped_runs_go_on()
    ensures left { StoppedRunsGoOn }
    ensures parts { StoppedRunsHaveTheRest }
    ensures again { StoppedRunsStopAgain }
    ensures complete { StoppedRunsEnd }
{}

/// The steps of a run and the counters of its agent agree on five numbers: the requests that timed
/// out, the requests that were canceled, the indications and the responses that were sent, and the
/// bytes that were sent, including retransmissions (RFC 8489, section 6.2). So a program that
/// stores the steps does not need these counters.
pub fn runs_count_steps()
    ensures { RunsCountSteps }
{}

/// Suppose that an agent makes a run of `drive`. Then a request that is undisturbed (see `drive`)
/// is sent at the times of its plan. If the run lasts until the end of the plan, the request times
/// out, once.
pub fn runs_send_by_plan()
    ensures { (until : ℕ) (a b : Agent) (events : List (ℕ × TheEvent)) (steps : List Step)
        → until ≤ last_moment → IsAscending a.transactions → AreInOrder until 0 events
        → IsDriven until a events steps b → SendsByPlan until (requester a) events steps }
{}

/// Like `runs_send_by_plan`, but for transaction IDs that are used again. Each request that the
/// agent accepts follows its plan until it ends, if until then no event cancels or changes it, and
/// no response to it arrives from the address that it was sent to. If no later event sends a
/// request with this ID, the run has no other steps with this ID after the request was sent.
pub fn runs_keep_plans()
    ensures { (until : ℕ) (a b : Agent) (events : List (ℕ × TheEvent)) (steps : List Step)
        → until ≤ last_moment → IsAscending a.transactions → AreInOrder until 0 events
        → IsDriven until a events steps b → KeepPlans until a events steps }
{}

/// If a program calls an agent in a loop of whole turns and on time, the agent makes the steps that
/// `drive` makes with the same events (`driven`). In a whole turn, the program calls
/// `poll_transmit` until it returns `None`, and then `poll` until it returns `WaitUntil` (`Loop`).
/// So the third theorem of this library (the clause `headline` of `drive`) holds for this agent
/// (`plans`; RFC 8489, section 6.2.1). For any events at times that do not decrease, there is such
/// a loop, on time or late (`exist`).
///
/// Premises of `driven` and `plans`: the agent starts without outstanding requests, the program
/// makes a whole turn at the exact time of each event, and no turn is later than the time that
/// `poll` returned. So the law is about loops over a simulated clock. For loops over a real clock,
/// see `any_loop_sends_in_time`.
pub fn loops_are_driven()
    ensures driven { LoopsAreDriven }
    ensures plans { LoopsSendByPlan }
    ensures exist { LoopsExist }
{}

/// If a program calls an agent at most `late` nanoseconds after each deadline, each undisturbed
/// request is retransmitted and times out in time (`in_time`):
///
/// - The request is retransmitted after its timeout since the previous transmission has passed, and
///   at most `late` after that. It is never transmitted more often than its settings allow.
/// - The request times out after the final wait has passed, and at most `late` after that.
/// - So transmission k, counted from 0, is never before its time in the plan, and at most k times
///   `late` after it.
/// - If one of these steps is missing at the end, the last call was at most `late` after the step
///   was due.
///
/// This holds for every sequence of calls (`Calls`) in which no call has a time before that of the
/// previous call. The program need not poll after each event, and need not repeat `poll_transmit`
/// until it returns `None`. It may also make calls that change no request. Premise: at each call,
/// no deadline is more than `late` nanoseconds ago. Every such sequence satisfies this for some
/// `late` (`exist`).
pub fn any_loop_sends_in_time()
    ensures in_time { CallsSendInTime }
    ensures exist { CallsExist }
{}

/// The plan of a request with the default settings, in numbers. Over UDP, the request is sent at 0,
/// 500, 1500, 3500, 7500, 15500 and 31500 ms, and times out at 39500 ms (`udp`). Over TCP it is
/// sent once, and times out at the same time (`tcp`; RFC 8489, sections 6.2.1 and 6.2.2). A new
/// agent that sends only this request satisfies the premise of `runs_send_by_plan` (`asked`).
pub fn plan_of_a_request()
    ensures udp { (to : Address) → plan Udp 0 default_settings 7 to example_request ≡ udp_steps to }
    ensures tcp { (to : Address) → plan Tcp 0 default_settings 7 to example_request ≡ tcp_steps to }
    ensures asked { (transport : Transport) (here to : Address)
        → IsAskedOnce (requester (new_agent transport here)) 7 0 example_request to [] [] }
{}

/// The reply to a request or an indication is `Validated` with an algorithm if and only if the
/// message is accepted with that algorithm (RFC 8489, section 9.2.4).
pub fn one_call_validates()
    ensures { (s : Sight) (now : ℕ) (words : List ℕ) (r : Reading)
        → ValidatesOneCall s now words r (answer s now words r) }
{
    stun_auth::laws::accepted_messages_are_validated();
}

/// If a program makes calls on one server, one by one, these calls are a run of `serve`: they
/// return the replies of the run, and leave the server in the same state as the run (`served`). So
/// the first theorem of this library (the clause `headline` of `serve`) holds for them
/// (`validated`; RFC 8489, section 9.2.4).
///
/// Premises: the calls are among those that `ServerCall` has, so no user is passed with a message
/// (`validate_incoming_message_of`), and `forget_expired_within` is not called. Each call does what
/// the clauses of the server's own call state (`IsMade`), on the server as the previous call left
/// it.
///
/// If a message was built attribute by attribute, a run of `serve` writes it again unchanged
/// (`plain`), so the run signs the message that the program signed.
pub fn calls_are_a_run()
    ensures served { CallsAreServed }
    ensures validated { CallsAreValidated }
    ensures plain { BuiltAreWrittenSo }
{
    auth_laws::accepted_messages_are_validated();
}

/// The calls on a server whose users are in a database are a run of `serve`, too: the run of a
/// server that has all users of the database. So the first theorem of this library (the clause
/// `headline` of `serve`) holds for these calls (`served`; RFC 8489, section 9.2.4). There are such
/// calls (`exist`).
///
/// To validate a message, the caller looks up the user whom `named_user` returns. To sign a
/// message, it looks up the client of the address. It passes this user to the call, with a password
/// or with stored keys (`validate_incoming_message_of`, `sign_outgoing_message_of`). The database
/// may change between any two calls. In the run, a step of `forget_expired_within` is a list of
/// calls of `forget`, one for each address that the step forgets.
///
/// Premise: each call does what the clauses of the server's own call state (`IsMadeOf`), on the
/// server as the previous call left it.
pub fn stored_calls_are_a_run()
    ensures served { StoredCallsAreServed }
    ensures exist { OneIsStored }
{
    auth_laws::accepted_messages_are_validated();
    auth_laws::the_named_user_is_enough();
}

/// One call of `validate_incoming_message` is the call `Validate` of a run (`IsMade`), with the
/// next sixteen numbers of `rng`. If an allocation failed, the call is not part of a run, and the
/// server is unchanged.
pub fn a_validation_is_made<A: Allocator + Copy, R: Rng>(
    server: &mut LongTermServerAuth<A>,
    message: &Message<'_>,
    from: SocketAddr,
    now: Instant,
    rng: &mut R,
) -> Result<LongTermServerValidation, LongTermServerAuthError>
    ensures { ServerUnlessMemory result
        ((bytes : TheVec ℕ) → bytes.items ≡ message.now → IsMade server.old
        (ServerCall.Validate from now bytes (next_words 16 (R.stream rng.old)))
        (reply_with (reply_of_answer result) server.new))
        (server.new ≡ server.old) }
{
    // For the proof alone: the clause of this call states that the bytes are a message.
    let _bytes = message.as_bytes();
    server.validate_incoming_message(message, from, now, rng)
}

/// One call of `sign_outgoing_message` is the call `Sign` of a run (`IsMade`), with any writer
/// (`made`). Premise: `serve` writes the message again unchanged, as the clause `plain` of
/// `calls_are_a_run` states for built messages. If an allocation failed, or the writer had too
/// little room, the call is not part of a run. After each error the server is unchanged
/// (`refused`).
pub fn a_signing_is_made<A: Allocator + Copy, W: MessageWrite>(
    server: &mut LongTermServerAuth<A>,
    writer: W,
    to: SocketAddr,
) -> Result<W, StunWriteError>
    requires { IsMessage (W.bytes writer) }
    ensures made { UnlessMemory result
        ((bytes : TheVec ℕ) → bytes.items ≡ W.bytes writer
        → written_anew (W.bytes writer) ≡ Ok (W.bytes writer)
        → (IsErrOf result StunWriteError.TooSmall → ⊥)
        → IsMade server.old (ServerCall.Sign to bytes)
        (reply_with (reply_of_signing (written_page W.bytes W.room result)) server.new))
        (server.new ≡ server.old) }
    ensures refused { OnErr result (server.new ≡ server.old) }
{
    server.sign_outgoing_message(writer, to)
}

/// The algorithm that a client and a server can agree on is the strongest one that both support.
/// They cannot agree if and only if they have no algorithm in common, or the client must send a
/// hash of its user name and the server does not allow that.
pub fn best_is_strongest()
    ensures { BestIsStrongest }
{}

/// Suppose that two messages have the same bytes, except for the length field, up to the end of the
/// integrity attribute with which both are verified. Then the server gives both the same reply, and
/// is in the same state after either of them, with the same record of their address. The same holds
/// for two runs that differ only in which of these two messages they contain (`agreeing`). So an
/// attacker who appends to a signed request does not change how the server judges it (`appended`),
/// with one exception: if he appends a MESSAGE-INTEGRITY-SHA256 to a MESSAGE-INTEGRITY, the message
/// is verified with the new attribute (RFC 8489, sections 14.5 to 14.7).
pub fn appending_changes_no_reply()
    ensures agreeing { AgreeingAreAnsweredAlike }
    ensures appended { ContinuedAreAnsweredAlike }
{
    stun_types::laws::what_follows_integrity_is_hidden();
    judging_laws::what_follows_integrity_is_not_read();
}

/// The addresses of clients can be divided among any number of servers that start with the same
/// state. Each server gets the calls for its own addresses, and all calls that concern every
/// address (users, settings, the removal of expired records). Then each address gets the replies
/// that it would get from a single server with all the calls, and the server of the address has the
/// same record of it as the single server.
pub fn shards_serve_as_one()
    ensures { ShardsServeAsOne }
{}

/// An honest client and its server agree on the strongest algorithm that both support: the server
/// accepts the client's second request with this algorithm, and both sides are then authenticated.
/// If they cannot agree on an algorithm (`best_is_strongest`), the client gives up and stores
/// nothing (RFC 8489, section 9.2).
///
/// Premises: the client is ready and every message can be signed (`IsHonest`), and the realm and
/// the user name are UTF-8, as each `str` is. The law is about the steps of a meeting, which are
/// computed from the bytes of its messages.
pub fn strongest_is_agreed()
    ensures { StrongestIsAgreed }
{
    judging_laws::nonces_ask_for_what_is_supported();
    judging_laws::signed_messages_are_read();
    judging_laws::built_messages_can_be_signed();
    auth_laws::sides_add_by_attribute();
}

/// If a client and a server exchange Binding messages without other attributes, they get the
/// outcome that `negotiate` returns, and are afterwards in the states in which `negotiate` leaves
/// them (`negotiated`). So an honest client and its server agree as `strongest_is_agreed` states
/// (`strongest`; RFC 8489, section 9.2). Premise: the programs of both sides make their calls one
/// by one and in order, each for the message that the other side has sent (`HaveMet`).
pub fn calls_are_a_meeting()
    ensures negotiated { MeetingsAreNegotiated }
    ensures strongest { MeetingsAgree }
{
    strongest_is_agreed();
}

/// Every message in the meeting of a ready client (`IsReady`) can be signed if the realm and the
/// user name fit into their attributes, which hold at most 763 and 513 bytes (RFC 8489, sections
/// 14.3 and 14.9).
pub fn short_names_are_signed()
    ensures { ShortNamesAreSigned }
{
    judging_laws::nonces_ask_for_what_is_supported();
    judging_laws::signed_messages_are_read();
    judging_laws::built_messages_can_be_signed();
    auth_laws::sides_add_by_attribute();
    auth_laws::sides_sign_with_room();
}

/// An example of a meeting of a client that must send its user name as a hash (USERHASH; RFC 8489,
/// section 14.4), and a server whose only user is the user of this client. Both support HMAC-SHA1
/// and HMAC-SHA256. For any address of the client, and any random numbers:
///
/// - The client satisfies the premise of the second theorem of this library (the clause `headline`
///   of `negotiate`).
/// - The meeting ends `Validated` with HMAC-SHA256.
/// - The server makes three calls: `serve` challenges the first request, signs the challenge, and
///   validates the second request.
pub fn a_hashed_name_is_validated()
    ensures ready { (from : Address) (words more : List ℕ)
        → IsReadyClient initial (a_meeting from words more) a_user a_server }
    ensures validated { (from : Address) (words more : List ℕ) → length words ≤ 16
        → AgreesOn from a_user IntegrityAlgorithm.Sha256
        (whole_negotiation (a_meeting from words more) initial a_server) }
    ensures served { (from : Address) (words more : List ℕ) → length words ≤ 16
        → IsServed from words more }
{
    strongest_is_agreed();
    short_names_are_signed();
    judging_laws::built_messages_can_be_signed();
    judging_laws::additions_are_read_back();
    auth_laws::sides_add_by_attribute();
}

/// An authenticated client sends a request after its nonce has expired. The server refuses the
/// request with `StaleNonce`, unless the nonce that is then current happens to equal the expired
/// one. In that case it accepts the request. If the request is refused, the client reads one error
/// of code 438 that the server signed. Its next request is then accepted while the nonce of that
/// error is current (RFC 8489, sections 9.2.4 and 9.2.5).
///
/// - The messages are of any method, and have any attributes except those that signing adds.
/// - Users and settings do not change between the messages.
/// - Before the request, the server may read other messages from the client's address at any time.
///   One of them may have made the nonce that is current. After the request, the server may read
///   such messages while that nonce is current.
/// - If no call removes the client at its address, `forget_expired` may be called with any times.
/// - If calls do remove the client, `forget_expired` can remove its record too. So its times must
///   not be later than the expiry of the client's nonce before the request, nor later than the
///   expiry of the new nonce after the request.
pub fn nonce_is_renewed()
    ensures { NonceIsRenewed }
{
    judging_laws::nonces_ask_for_what_is_supported();
    judging_laws::signed_messages_are_read();
    judging_laws::built_messages_can_be_signed();
    auth_laws::sides_add_by_attribute();
}

/// Once a client and its server are authenticated, each request that the client signs is accepted
/// while the nonce is valid, and each response that the server signs is accepted by the client (RFC
/// 8489, sections 9.2.4 and 9.2.5). The law holds for any list of such exchanges, with any number
/// of renewals of the nonce (`nonce_is_renewed`) between them (`go_on`). For each address, there
/// are a client, a server and two such exchanges (`exist`).
///
/// - Requests and responses are of any method, and have any attributes except those that signing
///   adds. A response is a success, or an error with any code except 438.
/// - Users and settings do not change. In between, the server may read messages from the client's
///   address until the nonce expires, and may be called in any way for other addresses.
/// - A request is accepted even if the client was removed before. A response is accepted if the
///   server still has a client at that address when it signs the response.
pub fn sessions_go_on()
    ensures go_on { SessionsGoOn }
    ensures exist { (from : Address) → HasSession from }
{
    judging_laws::nonces_ask_for_what_is_supported();
    judging_laws::signed_messages_are_read();
    judging_laws::built_messages_can_be_signed();
    auth_laws::sides_add_by_attribute();
    auth_laws::sides_sign_with_room();
}

/// A client that is new to a server sends a request without credentials, and the server answers it
/// with a challenge. Then the client sends the request again, and the server accepts it with the
/// strongest algorithm that both support. The client accepts the success response, and both sides
/// are then authenticated (RFC 8489, sections 9.2.3 to 9.2.5), so `sessions_go_on` covers what
/// follows. If they can agree on no algorithm (`best_is_strongest`), the client gives up and stores
/// nothing (`introduced`). For each address, there are a client and a server that exchange an
/// Allocate request or a Binding request in this way (`exist`).
///
/// - The messages are of any method, and have any attributes except those that signing adds.
/// - The client has the credentials of a registered user, no two registered users share a USERHASH,
///   and the server has no record of the client's address.
/// - Until the challenge is signed, only calls for other addresses come in between. After that,
///   users, settings and the nonce stay the same, and the second request arrives before the nonce
///   expires.
/// - When the server signs the success response, it still has the client at its address.
pub fn new_clients_are_introduced()
    ensures introduced { NewClientsAreIntroduced }
    ensures exist { (from : Address) (words more : List ℕ) → length words ≤ 16
        → IsNewClient (a_contact from words more) a_user a_server
        × AreExchanged ALLOCATE (a_contact from words more) a_user a_server
        × AreExchanged BINDING (a_contact from words more) a_user a_server }
{
    judging_laws::nonces_ask_for_what_is_supported();
    judging_laws::signed_messages_are_read();
    judging_laws::built_messages_can_be_signed();
    auth_laws::sides_add_by_attribute();
    auth_laws::sides_sign_with_room();
}
