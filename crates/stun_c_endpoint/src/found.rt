//! Judges a request with the user whom the caller has found for it.

ghost use Rattle.std.specs.Prelude.{◌≡◌, Ok};
ghost use Rattle.stun_handles.specs.Numbers.{number_answer};
ghost use Rattle.stun_c_endpoint.specs.Found.{judge_by_found};
ghost use Rattle.stun_c_endpoint.specs.Told.{ReceivesAs, outcome_at};
ghost use Rattle.stun_c_endpoint.specs.code.Found.{found_judge, found_user, key_user};
ghost use Rattle.stun_c_endpoint.specs.code.Found.{password_user};

use crate::handle::endpoint::Kept;
use crate::received::{RECEIVED_SIZE, Received};
use crate::server::{LAST_SECOND, tell};
use crate::users::{check_keys, check_name, check_password};
use std::alloc::Global;
use stun_endpoint::server::Server;
use stun_endpoint::unix_time::UnixTime;
use stun_handles::address::Address;
use stun_handles::keys::keys_of;
use stun_judging::found::FoundUser;
use stun_numbers::refusal::Refusal;
use stun_numbers::text::text;

/// A user whom the caller has found: a name, with a password or with stored keys.
#[derive(Clone, Copy)]
pub struct Found<'f> {
    pub name: &'f [u8],
    pub password: &'f [u8],
    pub has_password: bool,
    pub sha1: &'f [u8],
    pub sha256: &'f [u8],
}

/// Converts a user with a password. Fails with `NotText` if a text is not UTF-8, then with
/// `TextTooLong` if the name is too long, then with `BadArgument` if the name or the password is
/// empty.
fn by_password<'f>(name: &'f [u8], password: &'f [u8]) -> Result<FoundUser<'f>, Refusal>
    ensures { result ≡ password_user name.entry.now password.entry.now }
{
    let name = text(name)?;
    let password = text(password)?;
    check_name(name)?;
    check_password(password)?;
    Ok(FoundUser::with_password(name, password))
}

/// Converts a user with stored keys. Fails with `NotText` if the name is not UTF-8, then with
/// `TextTooLong` if the name is too long, then with `BadArgument` if the name is empty, both keys
/// are missing or a key has a wrong length.
fn by_keys<'f>(name: &'f [u8], sha1: &[u8], sha256: &[u8]) -> Result<FoundUser<'f>, Refusal>
    ensures { result ≡ key_user name.entry.now sha1.now sha256.now }
{
    let name = text(name)?;
    check_name(name)?;
    check_keys(sha1, sha256)?;
    let keys = keys_of(sha1, sha256)?;
    Ok(FoundUser::with_keys(name, keys))
}

impl<'f> Found<'f> {
    /// Converts the user to the type of the library. This does not allocate.
    fn to_user(&self) -> Result<FoundUser<'f>, Refusal>
        ensures { result ≡ found_user self.now.name.now self.now.password.now self.now.has_password
            self.now.sha1.now self.now.sha256.now }
    {
        if self.has_password {
            by_password(self.name, self.password)
        } else {
            by_keys(self.name, self.sha1, self.sha256)
        }
    }
}

/// Judges a datagram with a server and the user whom the caller has found, and writes the outcome
/// to `received` and the server's own response to `out`. Fails with `WrongHandle` if the value is
/// not a server with long-term credentials.
#[tactic(auto, using(crate::proofs::FoundLemmas::judged_by_user, crate::proofs::FoundLemmas::judged_by_none))]
pub fn resume(
    server: &Kept,
    found: &Found<'_>,
    message: &[u8],
    from: &Address,
    unix_seconds: u64,
    out: &mut [u8],
    received: &mut Received,
) -> Result<u32, Refusal>
    ensures { ReceivesAs (outcome_at (judge_by_found found.now.name.now found.now.password.now
        found.now.has_password found.now.sha1.now found.now.sha256.now server.now) from.now
        unix_seconds message.now received.old) (number_answer result) out.old out.new received.old
        received.new }
{
    match server {
        Kept::Server(server) => match found.to_user() {
            Ok(user) => resume_at(server, &user, message, from, unix_seconds, out, received),
            Err(refusal) => Err(refusal),
        },
        _ => Err(Refusal::WrongHandle),
    }
}

/// Judges a datagram with this server and this user, and writes the outcome to `received` and the
/// server's own response to `out`.
fn resume_at(
    server: &Server<Global>,
    user: &FoundUser<'_>,
    message: &[u8],
    from: &Address,
    unix_seconds: u64,
    out: &mut [u8],
    received: &mut Received,
) -> Result<u32, Refusal>
    ensures { ReceivesAs (outcome_at (Ok (found_judge server.now user.now)) from.now unix_seconds
        message.now received.old) (number_answer result) out.old out.new received.old
        received.new }
{
    if received.size != RECEIVED_SIZE || unix_seconds > LAST_SECOND {
        return Err(Refusal::BadArgument);
    }
    let from = from.socket()?;
    let now = UnixTime::from_secs(unix_seconds);
    let outcome = server.receive_found(message, from, now, user)?;
    tell(&outcome, out, received)
}
