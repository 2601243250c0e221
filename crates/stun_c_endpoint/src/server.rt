//! Judges a datagram with a server, and writes the outcome and the server's own response for the
//! caller.

ghost use Rattle.std.specs.Prelude.{◌≡◌, Err, None, Ok, Some};
ghost use Rattle.stun_handles.specs.Numbers.{number_answer};
ghost use Rattle.stun_c_endpoint.specs.Causes.{CausedAs, cause_at, cause_number, caused_at};
ghost use Rattle.stun_c_endpoint.specs.Causes.{long_term_with};
ghost use Rattle.stun_c_endpoint.specs.Kept.{by_realm, by_users, judge_with, openly};
ghost use Rattle.stun_c_endpoint.specs.Lookups.{IdentifiesAs, identified_at, long_term_of};
ghost use Rattle.stun_endpoint.specs.Outcomes.{outcome_of};
ghost use Rattle.stun_c_endpoint.specs.Told.{IsTold, ReceivesAs, answered, code_told, outcome_at};
ghost use Rattle.stun_c_endpoint.specs.Told.{told_by};

use crate::handle::endpoint::Kept;
use crate::received::{Accepted, RECEIVED_SIZE, Received};
use std::alloc::Global;
use stun_endpoint::lookup::Identified;
use stun_endpoint::open::OpenServer;
use stun_endpoint::received::{Answer, Received as Outcome, Refusal as Refused};
use stun_endpoint::server::{Cause, Server};
use stun_endpoint::short_term::{ShortTermServer, ShortTermUsers};
use stun_endpoint::unix_time::UnixTime;
use stun_endpoint::users::Users;
use stun_handles::address::Address;
use stun_numbers::buffer::put;
use stun_numbers::refusal::Refusal;

pub mod laws;

/// The greatest time that a call accepts, in seconds since 1970. A greater number is probably in
/// another unit, such as nanoseconds.
pub const LAST_SECOND: u64 = 1_099_511_627_776;

/// Returns the error code of a response, or 0 if it is a success response.
fn to_code(refusal: Option<Refused>) -> u16
    ensures { result ≡ code_told refusal }
{
    match refusal {
        Some(refusal) => refusal.code(),
        None => 0,
    }
}

/// Copies a response to the front of `out`, and writes its code and length to `received`. If `out`
/// is too small, sets only `received.needed`, and fails with `BufferTooSmall`.
fn write_answer(
    answer: &Answer<Global>,
    out: &mut [u8],
    received: &mut Received,
) -> Result<u32, Refusal>
    ensures { IsTold (answered answer.now) (number_answer result) out.old out.new received.old
        received.new }
{
    let bytes = answer.bytes();
    if out.len() < bytes.len() {
        received.needed = bytes.len();
        return Err(Refusal::BufferTooSmall);
    }
    put(out, bytes);
    received.answered(to_code(answer.refusal()), bytes.len());
    Ok(1)
}

/// Writes the outcome of a datagram at a server to `received`, and the server's own response, if
/// there is one, to `out`. Returns the `stunp_kind`.
pub fn tell<R: Accepted, I: Accepted>(
    outcome: &Outcome<'_, Global, R, I>,
    out: &mut [u8],
    received: &mut Received,
) -> Result<u32, Refusal>
    ensures { IsTold (told_by R.told I.told (outcome_of outcome.now)) (number_answer result) out.old
        out.new received.old received.new }
{
    match outcome {
        Outcome::Answer(answer) => write_answer(answer, out, received),
        Outcome::Request(request) => Ok(request.tell(received)),
        Outcome::Indication(indication) => Ok(indication.tell(received)),
        Outcome::Response(message) => {
            received.responded(message);
            Ok(4)
        }
        Outcome::Dropped(why) => {
            received.dropped(*why);
            Ok(0)
        }
    }
}

/// Judges a datagram with a server and a table of users, and writes the outcome. A server without
/// credentials ignores the table. Fails with `WrongHandle` if `server` is not a server, or if
/// `users` is not a table of users with the server's kind of credentials.
pub fn receive(
    server: &Kept,
    users: &Kept,
    message: &[u8],
    from: &Address,
    unix_seconds: u64,
    out: &mut [u8],
    received: &mut Received,
) -> Result<u32, Refusal>
    ensures { ReceivesAs (outcome_at (judge_with (Some users.now) server.now) from.now unix_seconds
        message.now received.old) (number_answer result) out.old out.new received.old
        received.new }
{
    match (server, users) {
        (Kept::Server(server), Kept::Users(users)) => {
            judge(server, users, message, from, unix_seconds, out, received)
        }
        (Kept::ShortTerm(server), Kept::ShortTermUsers(users)) => {
            judge_short_term(server, users, message, from, unix_seconds, out, received)
        }
        (Kept::Open(server), _) => {
            judge_openly(server, message, from, unix_seconds, out, received)
        }
        _ => Err(Refusal::WrongHandle),
    }
}

/// Judges a datagram with a server and no table of users, and writes the outcome. Fails with
/// `EmptyHandle` if the server has credentials, because the call then needs a table, and with
/// `WrongHandle` if the value is not a server.
pub fn receive_alone(
    server: &Kept,
    message: &[u8],
    from: &Address,
    unix_seconds: u64,
    out: &mut [u8],
    received: &mut Received,
) -> Result<u32, Refusal>
    ensures answer { ReceivesAs (outcome_at (judge_with None server.now) from.now unix_seconds
        message.now received.old) (number_answer result) out.old out.new received.old received.new }
    ensures no_cause { cause_at (judge_with None server.now) from.now unix_seconds message.now
        received.old ≡ 0 }
{
    match server {
        Kept::Open(server) => judge_openly(server, message, from, unix_seconds, out, received),
        Kept::Server(_) => Err(Refusal::EmptyHandle),
        Kept::ShortTerm(_) => Err(Refusal::EmptyHandle),
        _ => Err(Refusal::WrongHandle),
    }
}

/// Judges a datagram with a server and a table of users with long-term credentials, and writes the
/// outcome.
fn judge(
    server: &Server<Global>,
    users: &Users<Global>,
    message: &[u8],
    from: &Address,
    unix_seconds: u64,
    out: &mut [u8],
    received: &mut Received,
) -> Result<u32, Refusal>
    ensures { ReceivesAs (outcome_at (Ok (by_realm server.now users.now)) from.now unix_seconds
        message.now received.old) (number_answer result) out.old out.new received.old
        received.new }
{
    if received.size != RECEIVED_SIZE || unix_seconds > LAST_SECOND {
        return Err(Refusal::BadArgument);
    }
    let from = from.socket()?;
    let outcome = server.receive(message, from, UnixTime::from_secs(unix_seconds), users)?;
    tell(&outcome, out, received)
}

/// Judges a datagram with a server and a table of users with short-term credentials, and writes the
/// outcome.
pub fn judge_short_term(
    server: &ShortTermServer<Global>,
    users: &ShortTermUsers<Global>,
    message: &[u8],
    from: &Address,
    unix_seconds: u64,
    out: &mut [u8],
    received: &mut Received,
) -> Result<u32, Refusal>
    ensures { ReceivesAs (outcome_at (Ok (by_users server.now users.now)) from.now unix_seconds
        message.now received.old) (number_answer result) out.old out.new received.old
        received.new }
{
    if received.size != RECEIVED_SIZE || unix_seconds > LAST_SECOND {
        return Err(Refusal::BadArgument);
    }
    let outcome = server.receive(message, from.socket()?, users)?;
    tell(&outcome, out, received)
}

/// Judges a datagram with a server without credentials, and writes the outcome.
pub fn judge_openly(
    server: &OpenServer<Global>,
    message: &[u8],
    from: &Address,
    unix_seconds: u64,
    out: &mut [u8],
    received: &mut Received,
) -> Result<u32, Refusal>
    ensures { ReceivesAs (outcome_at (Ok (openly server.now)) from.now unix_seconds message.now
        received.old) (number_answer result) out.old out.new received.old received.new }
{
    if received.size != RECEIVED_SIZE || unix_seconds > LAST_SECOND {
        return Err(Refusal::BadArgument);
    }
    let outcome = server.receive(message, from.socket()?)?;
    tell(&outcome, out, received)
}

/// Judges a datagram with a server as far as that is possible without the user, and writes the
/// outcome. Fails with `WrongHandle` if the value is not a server with long-term credentials.
pub fn identify(
    server: &Kept,
    message: &[u8],
    from: &Address,
    unix_seconds: u64,
    out: &mut [u8],
    received: &mut Received,
) -> Result<u32, Refusal>
    ensures { IdentifiesAs (identified_at (long_term_of server.now) from.now unix_seconds message.now
        received.old) (number_answer result) out.old out.new received.old received.new }
{
    match server {
        Kept::Server(server) => identify_at(server, message, from, unix_seconds, out, received),
        _ => Err(Refusal::WrongHandle),
    }
}

/// Judges a datagram with this server as far as that is possible without the user, and writes the
/// outcome.
fn identify_at(
    server: &Server<Global>,
    message: &[u8],
    from: &Address,
    unix_seconds: u64,
    out: &mut [u8],
    received: &mut Received,
) -> Result<u32, Refusal>
    ensures { IdentifiesAs (identified_at (Ok server.now) from.now unix_seconds message.now
        received.old) (number_answer result) out.old out.new received.old received.new }
{
    if received.size != RECEIVED_SIZE || unix_seconds > LAST_SECOND {
        return Err(Refusal::BadArgument);
    }
    let from = from.socket()?;
    match server.identify(message, from, UnixTime::from_secs(unix_seconds))? {
        Identified::Done(outcome) => tell(&outcome, out, received),
        Identified::Lookup(lookup) => {
            received.looked_up(&lookup);
            Ok(5)
        }
    }
}

/// Returns the `stunp_cause` of a cause, or 0 if there is none.
pub fn cause_number(cause: Option<Cause>) -> u32
    ensures { result ≡ cause_number cause }
{
    match cause {
        None => 0,
        Some(Cause::NoSignature) => 1,
        Some(Cause::Incomplete) => 2,
        Some(Cause::OtherAlgorithms) => 3,
        Some(Cause::OtherFeatures) => 4,
        Some(Cause::StaleNonce) => 5,
        Some(Cause::WrongCredentials) => 6,
        Some(Cause::UnknownAttribute) => 7,
    }
}

/// Returns the `stunp_cause` for which a server with this table of users refuses a datagram, or 0
/// if it does not refuse the datagram. Fails with `WrongHandle` if the server or the table does not
/// have long-term credentials.
pub fn cause(
    server: &Kept,
    users: &Kept,
    message: &[u8],
    from: &Address,
    unix_seconds: u64,
) -> Result<u32, Refusal>
    ensures { CausedAs (caused_at (long_term_with (Some users.now) server.now) from.now unix_seconds
        message.now) (number_answer result) }
{
    match (server, users) {
        (Kept::Server(server), Kept::Users(users)) => {
            find_cause(server, users, message, from, unix_seconds)
        }
        _ => Err(Refusal::WrongHandle),
    }
}

/// Returns the error with which `stunp_endpoint_server_cause_own` fails if the users' handle is
/// empty: `EmptyHandle`, or `WrongHandle` if the server does not have long-term credentials.
pub fn cause_alone(server: &Kept) -> Refusal
    ensures { long_term_with None server.now ≡ Err result }
{
    match server {
        Kept::Server(_) => Refusal::EmptyHandle,
        _ => Refusal::WrongHandle,
    }
}

/// Returns the `stunp_cause` for which this server with this table refuses a datagram, or 0 if it
/// does not refuse the datagram.
fn find_cause(
    server: &Server<Global>,
    users: &Users<Global>,
    message: &[u8],
    from: &Address,
    unix_seconds: u64,
) -> Result<u32, Refusal>
    ensures { CausedAs (caused_at (Ok (record { settings = server.now; users = users.now }))
        from.now unix_seconds message.now) (number_answer result) }
{
    if unix_seconds > LAST_SECOND {
        return Err(Refusal::BadArgument);
    }
    let from = from.socket()?;
    let cause = server.cause(message, from, UnixTime::from_secs(unix_seconds), users)?;
    Ok(cause_number(cause))
}
