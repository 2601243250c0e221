//! Writes the outcome of a datagram at a server together with the cause of its refusal, and judges
//! the datagram only once.

ghost use Rattle.std.specs.Prelude.{◌≡◌, Ok, Some};
ghost use Rattle.stun_handles.specs.Numbers.{number_answer};
ghost use Rattle.stun_c_endpoint.specs.Causes.{IsCause, cause_at};
ghost use Rattle.stun_c_endpoint.specs.Kept.{by_realm, judge_with};
ghost use Rattle.stun_c_endpoint.specs.Told.{ReceivesAs, outcome_at};

use crate::handle::endpoint::Kept;
use crate::received::{RECEIVED_SIZE, Received};
use crate::server::{LAST_SECOND, cause_number, judge_openly, judge_short_term, tell};
use std::alloc::Global;
use stun_endpoint::server::Server;
use stun_endpoint::unix_time::UnixTime;
use stun_endpoint::users::Users;
use stun_handles::address::Address;
use stun_numbers::refusal::Refusal;

/// Judges a datagram with a server and a table of users, and writes the outcome to `received`, the
/// server's own response to `out`, and the `stunp_cause` to `cause`, which must be 0 before the
/// call.
pub fn receive(
    server: &Kept,
    users: &Kept,
    message: &[u8],
    from: &Address,
    unix_seconds: u64,
    out: &mut [u8],
    received: &mut Received,
    cause: &mut u32,
) -> Result<u32, Refusal>
    requires { cause.now ≡ 0 }
    ensures answer { ReceivesAs (outcome_at (judge_with (Some users.now) server.now) from.now
        unix_seconds message.now received.old) (number_answer result) out.old out.new received.old
        received.new }
    ensures cause { IsCause (cause_at (judge_with (Some users.now) server.now) from.now unix_seconds
        message.now received.old) (number_answer result) cause.new }
{
    match (server, users) {
        (Kept::Server(server), Kept::Users(users)) => {
            judge(
                server,
                users,
                message,
                from,
                unix_seconds,
                out,
                received,
                cause,
            )
        }
        (Kept::ShortTerm(server), Kept::ShortTermUsers(users)) => {
            judge_short_term(server, users, message, from, unix_seconds, out, received)
        }
        (Kept::Open(server), _) => {
            judge_openly(server, message, from, unix_seconds, out, received)
        }
        _ => Err(Refusal::WrongHandle),
    }
}

/// Judges a datagram with a server and a table of users with long-term credentials, and writes the
/// outcome to `received`, the server's own response to `out`, and the `stunp_cause` to `cause`.
fn judge(
    server: &Server<Global>,
    users: &Users<Global>,
    message: &[u8],
    from: &Address,
    unix_seconds: u64,
    out: &mut [u8],
    received: &mut Received,
    cause: &mut u32,
) -> Result<u32, Refusal>
    requires { cause.now ≡ 0 }
    ensures answer { ReceivesAs (outcome_at (Ok (by_realm server.now users.now)) from.now
        unix_seconds message.now received.old) (number_answer result) out.old out.new received.old
        received.new }
    ensures cause { IsCause (cause_at (Ok (by_realm server.now users.now)) from.now unix_seconds
        message.now received.old) (number_answer result) cause.new }
{
    if received.size != RECEIVED_SIZE || unix_seconds > LAST_SECOND {
        return Err(Refusal::BadArgument);
    }
    let from = from.socket()?;
    let now = UnixTime::from_secs(unix_seconds);
    let (outcome, why) = server.receive_with_cause(message, from, now, users)?;
    *cause = cause_number(why);
    tell(&outcome, out, received)
}
