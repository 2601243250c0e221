//! The steps of a meeting: a request, the challenge to it, the request with credentials, and the
//! success response.
#![tactic(none)]

ghost use Rattle.std.specs.Prelude.{◌≡◌, ◌≢◌, Ok, Err};
ghost use Rattle.stun_base.specs.Header.{transaction_id_field, type_field};
ghost use Rattle.stun_base.specs.MessageType.{method_of};
ghost use Rattle.stun_auth.specs.declared.server.reason.LongTermServerAuthErrorReason.TheVariants.{Unauthorized};
ghost use Rattle.stun_auth.specs.declared.server.reason.LongTermServerValidation.TheVariants.{Validated};
ghost use Rattle.stun_proto.specs.Negotiation.{BINDING as BINDING_METHOD, client_request};
ghost use Rattle.stun_proto.specs.Negotiation.{first_answered, whole_negotiation};
ghost use Rattle.stun_proto.specs.Negotiation.{outcome_of_success};
ghost use Rattle.stun_proto.specs.Negotiation.{second_answered, second_asked};
ghost use Rattle.stun_proto.specs.Sides.{Passes, PassesAccepted, PassesResend, PassesUnauthorized};
ghost use Rattle.stun_proto.specs.code.FirstAnswers.{end_of_challenge, end_of_first};
ghost use Rattle.stun_proto.specs.code.Meetings.{meeting_of};
ghost use Rattle.stun_proto.specs.code.Sides.{IsRun};

use crate::replay::call::ServerCall;
use crate::replay::judging::judge;
use crate::replay::negotiation::messages::{
    make_challenge, make_request, make_success, parse_message, read,
};
use crate::replay::negotiation::{NegotiateError, Outcome};
use crate::replay::serving::serve;
use std::net::SocketAddr;
use stun_auth::auth::{
    LongTermClientAuth, LongTermClientAuthErrorReason, LongTermClientValidation,
    LongTermServerAuth, LongTermServerAuthErrorReason,
};
use stun_base::algorithm::IntegrityAlgorithm;
use stun_base::instant::Instant;
use stun_base::memory::Memory;
use stun_base::transaction_id::TransactionId;
use stun_types::message::Message;
use stun_types::prelude::*;

/// One of the two requests of a meeting: its transaction ID, the time at which the server reads it,
/// and the random numbers for a nonce. `before` is a list of calls that the server makes: for the
/// first request, just before the client reads the 401, and for the second request, just before the
/// server itself reads the request.
#[derive(Clone, Copy)]
pub(crate) struct Asking<'a> {
    pub(crate) id: TransactionId,
    pub(crate) moment: Instant,
    pub(crate) words: [u32; 16],
    pub(crate) before: &'a [ServerCall],
}

/// The client's address, and its two requests.
#[derive(Clone, Copy)]
pub(crate) struct Meeting<'a> {
    pub(crate) from: SocketAddr,
    pub(crate) first: Asking<'a>,
    pub(crate) second: Asking<'a>,
}

/// Runs a meeting: a request, the challenge to it, the request with credentials, and the success
/// response. Each message is read by the other side. The server makes the first list of calls just
/// before the client reads the challenge, and the second list just before it reads the second
/// request itself. Returns the first outcome that ends the meeting.
#[tactic(auto)]
pub(crate) fn meet<A: Memory>(
    alloc: A,
    client: &mut LongTermClientAuth<A>,
    server: &mut LongTermServerAuth<A>,
    meeting: &Meeting<'_>,
) -> Result<Outcome, NegotiateError>
    ensures settings { client.new.settings ≡ client.old.settings }
    ensures run { let m = meeting_of client.old.settings meeting.now in
        IsRun result client.new.state server.new (whole_negotiation m client.old.state server.old)
        (Passes m client.old.state server.old) }
    ensures granted { A.grants → result ≢ Err NegotiateError.Memory }
{
    let first = &meeting.first;
    let unproven = make_request(alloc, client, first.id)?;
    let asked = parse_message(unproven.data());
    let answer = judge(server, &asked, meeting.from, first.moment, first.words)?;
    match to_first_outcome(answer) {
        Some(outcome) => Ok(outcome),
        None => run_from_challenge(alloc, client, server, &asked, meeting),
    }
}

/// Continues the meeting if the first request must be challenged: the server signs a 401 and makes
/// the first list of calls, and the client reads the 401.
#[tactic(auto)]
fn run_from_challenge<A: Memory>(
    alloc: A,
    client: &mut LongTermClientAuth<A>,
    server: &mut LongTermServerAuth<A>,
    asked: &Message<'_>,
    meeting: &Meeting<'_>,
) -> Result<Outcome, NegotiateError>
    requires method { method_of (type_field asked.now) ≡ BINDING_METHOD }
    requires id { transaction_id_field asked.now ≡ meeting.now.first.id }
    ensures settings { client.new.settings ≡ client.old.settings }
    ensures run { let m = meeting_of client.old.settings meeting.now in
        IsRun result client.new.state server.new (first_answered m client.old.state server.old
        (Err Unauthorized)) (PassesUnauthorized m client.old.state server.old) }
    ensures granted { A.grants → result ≢ Err NegotiateError.Memory }
{
    let failure = make_challenge(alloc, server, asked, meeting.from)?;
    serve(alloc, server, meeting.first.before)?;
    let answer = read(client, failure.data())?;
    match to_challenge_outcome(answer) {
        Some(outcome) => Ok(outcome),
        None => run_from_resend(alloc, client, server, meeting),
    }
}

/// Continues the meeting if the client must send its request again: the client signs a request, and
/// the server makes the second list of calls and reads the request.
#[tactic(auto)]
fn run_from_resend<A: Memory>(
    alloc: A,
    client: &mut LongTermClientAuth<A>,
    server: &mut LongTermServerAuth<A>,
    meeting: &Meeting<'_>,
) -> Result<Outcome, NegotiateError>
    ensures settings { client.new.settings ≡ client.old.settings }
    ensures run { let m = meeting_of client.old.settings meeting.now in
        IsRun result client.new.state server.new (second_asked m client.old.state server.old
        (client_request m.second.id client.old.state))
        (PassesResend m client.old.state server.old) }
    ensures granted { A.grants → result ≢ Err NegotiateError.Memory }
{
    let second = &meeting.second;
    let proven = make_request(alloc, client, second.id)?;
    let again = parse_message(proven.data());
    serve(alloc, server, second.before)?;
    let verdict = judge(server, &again, meeting.from, second.moment, second.words)?;
    match verdict {
        Ok(algorithm) => run_from_success(alloc, client, server, &again, algorithm, meeting),
        Err(reason) => Ok(Outcome::ServerRefused(reason)),
    }
}

/// Continues the meeting if the server has accepted the second request with this algorithm: the
/// server signs a success response, and the client reads it.
#[tactic(auto)]
fn run_from_success<A: Memory>(
    alloc: A,
    client: &mut LongTermClientAuth<A>,
    server: &mut LongTermServerAuth<A>,
    again: &Message<'_>,
    algorithm: IntegrityAlgorithm,
    meeting: &Meeting<'_>,
) -> Result<Outcome, NegotiateError>
    requires method { method_of (type_field again.now) ≡ BINDING_METHOD }
    requires id { transaction_id_field again.now ≡ meeting.now.second.id }
    ensures settings { client.new.settings ≡ client.old.settings }
    ensures run { let m = meeting_of client.old.settings meeting.now in
        IsRun result client.new.state server.new (second_answered m client.old.state server.old
        (Ok (Validated algorithm))) (PassesAccepted m client.old.state server.old) }
    ensures granted { A.grants → result ≢ Err NegotiateError.Memory }
{
    let granted = make_success(alloc, server, again, meeting.from)?;
    let answer = read(client, granted.data())?;
    Ok(to_success_outcome(algorithm, answer))
}

/// Returns the outcome if the meeting ends with the first request, because the server does not
/// challenge it. Returns `None` if the server must challenge the request.
#[tactic(auto)]
fn to_first_outcome(
    answer: Result<IntegrityAlgorithm, LongTermServerAuthErrorReason>,
) -> Option<Outcome>
    ensures { result ≡ end_of_first answer }
{
    match answer {
        Ok(algorithm) => Some(Outcome::AlreadyValidated(algorithm)),
        Err(LongTermServerAuthErrorReason::Unauthorized) => None,
        Err(reason) => Some(Outcome::ServerRefused(reason)),
    }
}

/// Returns the outcome if the meeting ends with the challenge, because the client does not answer
/// it. Returns `None` if the client answers the challenge.
#[tactic(auto)]
fn to_challenge_outcome(
    answer: Result<LongTermClientValidation, LongTermClientAuthErrorReason>,
) -> Option<Outcome>
    ensures { result ≡ end_of_challenge answer }
{
    match answer {
        Ok(LongTermClientValidation::ResendRequest(_)) => None,
        Ok(LongTermClientValidation::Validated(_)) => Some(Outcome::ClientRefused(
            LongTermClientAuthErrorReason::Unauthorized,
        )),
        Err(reason) => Some(Outcome::ClientRefused(reason)),
    }
}

/// Returns the outcome of a meeting in which the server has accepted the second request with this
/// algorithm. `answer` is the client's result for the success response.
#[tactic(auto)]
fn to_success_outcome(
    algorithm: IntegrityAlgorithm,
    answer: Result<LongTermClientValidation, LongTermClientAuthErrorReason>,
) -> Outcome
    ensures { result ≡ outcome_of_success algorithm answer }
{
    match answer {
        Ok(LongTermClientValidation::Validated(_)) => Outcome::Validated(algorithm),
        Ok(LongTermClientValidation::ResendRequest(_)) => {
            Outcome::ClientRefused(LongTermClientAuthErrorReason::Unauthorized)
        }
        Err(reason) => Outcome::ClientRefused(reason),
    }
}
