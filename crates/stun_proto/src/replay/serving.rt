//! Runs a server over a list of calls.

ghost use Rattle.std.specs.Prelude.{◌≡◌, ◌≢◌, ◌≤◌, None, Ok, Err, IfOk};
ghost use Rattle.std.specs.Prelude.{OnOk, OnErr, IfErr, IsOk, length, take};
ghost use Rattle.std.specs.declared.net.socket_addr.SocketAddr.{SocketAddr as TheAddress};
ghost use Rattle.stun_types.specs.Message.{refusal};
ghost use Rattle.stun_judging.specs.Reading.{reading_of};
ghost use Rattle.stun_auth.specs.Validation.{after_validation, answer, sight};
ghost use Rattle.stun_proto.specs.Accepting.{ValidatesEachAccepted};
ghost use Rattle.stun_proto.specs.Headline.{ValidatesEachCall};
ghost use Rattle.stun_proto.specs.Isolation.{IsIsolated, own_calls, sight_over};
ghost use Rattle.stun_proto.specs.Replies.{message_read};
ghost use Rattle.stun_proto.specs.Serving.{after_call, after_calls, places_unless};
ghost use Rattle.stun_proto.specs.Serving.{replies, replies_of, reply, reply_of};
ghost use Rattle.stun_proto.specs.Serving.{reply_of_answer, reply_unless};

use crate::replay::call::{ServerCall, ServerReply};
use crate::replay::event::Stopped;
use crate::replay::judging::judge;
use crate::replay::signing::sign;
use std::alloc::{AllocError, Allocator};
use std::net::SocketAddr;
use std::time::Duration;
use stun_auth::auth::{LongTermServerAuth, minimum_nonce_expiry_duration};
use stun_auth::laws;
use stun_base::credentials::LongTermCredentials;
use stun_base::instant::Instant;
use stun_base::memory::Memory;
use stun_types::message::Message;

/// Makes a list of calls to a server, in order, and returns the reply to each.
///
/// The replies to an address depend only on the calls for this address and on the calls that
/// concern every address: those that change users or settings, and `ForgetExpired`. A request or an
/// indication is validated if and only if it has all of these (RFC 8489, section 9.2.4):
///
/// - a realm;
/// - the current nonce of its address;
/// - algorithms that agree with those that the server offered to its address;
/// - a valid signature under the key of the registered user whom it names.
///
/// The server judges the message with the record of its address that the earlier calls have left.
///
/// # Errors
///
/// `Stopped`: an allocation failed. The server is then in the state after the first `done` calls.
/// They include the call whose allocation failed only if that call was complete and its reply could
/// not be stored.
///
/// # Examples
///
/// A request that is not signed:
///
/// ```
/// use seatcrane_stun::replay::proved::auth::LongTermServerAuth;
/// use seatcrane_stun::replay::proved::{Global, Instant, String, Vec};
/// use seatcrane_stun::replay::{ServerCall, ServerReply, serve};
///
/// let realm = String::from_str(Global, "example.org").unwrap();
/// let mut server = LongTermServerAuth::new(Global, realm);
/// let request = b"\0\x01\0\0\x21\x12\xa4\x42 any 12 byte";
/// let (from, now, words) = ("192.0.2.1:4242".parse().unwrap(), Instant::ZERO, [7; 16]);
/// let message = Vec::from_slice(Global, request).unwrap();
/// let calls = [ServerCall::Validate { from, now, message, words }, ServerCall::Forget(from)];
///
/// let replies = serve(Global, &mut server, &calls).unwrap();
/// assert!(matches!(replies[0], ServerReply::Refused(_))); // answer 401
/// assert_eq!(replies[1], ServerReply::Done);
/// ```
pub fn serve<A: Memory>(
    alloc: A,
    server: &mut LongTermServerAuth<A>,
    calls: &[ServerCall],
) -> Result<Vec<ServerReply<A>, A>, Stopped>
    ensures headline { IfOk result (λ given. ValidatesEachCall message_read replies
        server.old calls.now (replies_of given.items)) }
    ensures replies { IfOk result (λ given. replies_of given.items ≡ replies server.old calls.now) }
    ensures server { OnOk result (server.new ≡ after_calls server.old calls.now) }
    ensures isolated { IfOk result (λ given. IsIsolated server.old calls.now
        (replies_of given.items)) }
    ensures place { OnOk result ((a : TheAddress)
        → sight server.new a ≡ sight_over (sight server.old a) (own_calls a calls.now)) }
    ensures accepted { IfOk result (λ given. ValidatesEachAccepted server.old calls.now
        (replies_of given.items)) }
    ensures stopped { IfErr result (λ e. (e.done ≤ length calls.now)
        × (server.new ≡ after_calls server.old (take e.done calls.now))) }
    ensures granted { A.grants → IsOk result }
{
    // A law does nothing when it runs. This one is for the clause `accepted`.
    laws::accepted_messages_are_validated();
    let mut replies = Vec::new(alloc);
    for (done, call) in calls.iter().enumerate() {
        match serve_call(alloc, server, call) {
            Ok(reply) => match A::push(&mut replies, reply) {
                Ok(()) => {}
                Err(_) => return Err(Stopped { done: done + 1 }),
            },
            Err(_) => return Err(Stopped { done }),
        }
    }
    Ok(replies)
}

/// Makes one call. Fails only if an allocation fails; the server is then unchanged.
fn serve_call<A: Memory>(
    alloc: A,
    server: &mut LongTermServerAuth<A>,
    call: &ServerCall,
) -> Result<ServerReply<A>, AllocError>
    ensures reply { IfOk result (λ given. reply_of given ≡ reply server.old call.now) }
    ensures server { OnOk result (server.new ≡ after_call server.old call.now) }
    ensures err { OnErr result (server.new ≡ server.old) }
    ensures granted { A.grants → IsOk result }
{
    match call {
        ServerCall::Validate {
            from,
            now,
            message,
            words,
        } => return validate(server, message.as_slice(), *from, *now, *words),
        ServerCall::Sign { to, message } => return sign(alloc, server, message.as_slice(), *to),
        ServerCall::SetExpiry(expiry) => return Ok(set_expiry(server, *expiry)),
        ServerCall::AddUser { name, password } => {
            let name = A::text(alloc, name.as_str())?;
            let password = A::text(alloc, password.as_str())?;
            server.add_user(LongTermCredentials::new(name, password))?;
        }
        ServerCall::RemoveUser(name) => server.remove_user(name.as_str()),
        ServerCall::AddIntegrity(algorithm) => server.add_supported_integrity(*algorithm),
        ServerCall::SetIntegrity(algorithm) => server.set_supported_integrity(*algorithm),
        ServerCall::SetAnonymous(feature) => server.set_anonymous_username(*feature)?,
        ServerCall::RemoveClient(address) => server.remove_client(*address),
        ServerCall::ForgetExpired(now) => server.forget_expired(*now),
        ServerCall::Forget(address) => server.forget(*address),
    }
    Ok(ServerReply::Done)
}

/// Validates the message in `bytes`, which came from the address `from`. If the bytes are not a
/// message, replies `NotAMessage`, and does not fail.
fn validate<A: Memory>(
    server: &mut LongTermServerAuth<A>,
    bytes: &[u8],
    from: SocketAddr,
    now: Instant,
    words: [u32; 16],
) -> Result<ServerReply<A>, AllocError>
    ensures reply { IfOk result (λ given. reply_of given
        ≡ reply_unless (refusal bytes.now) (reply_of_answer
        (answer (sight server.old from) now words (reading_of bytes.now)))) }
    ensures server { OnOk result (server.new ≡ record server.old {
      places = places_unless
          (refusal bytes.now) server.old.places (after_validation server.old from now words
          (reading_of bytes.now)).places;
    }) }
    ensures err { OnErr result (server.new ≡ server.old) }
    ensures no_message { refusal bytes.now ≢ None → IsOk result }
    ensures granted { A.grants → IsOk result }
{
    let message = match Message::from_bytes(bytes) {
        Ok(message) => message,
        Err(error) => return Ok(ServerReply::NotAMessage(error)),
    };
    match judge(server, &message, from, now, words)? {
        Ok(algorithm) => Ok(ServerReply::Validated(algorithm)),
        Err(reason) => Ok(ServerReply::Refused(reason)),
    }
}

/// Sets how long new nonces are valid. If this time is too short, replies `TooShort`, and changes
/// nothing.
fn set_expiry<A: Allocator + Copy>(
    server: &mut LongTermServerAuth<A>,
    expiry: Duration,
) -> ServerReply<A>
    ensures reply { reply_of result ≡ reply server.old (ServerCall.SetExpiry expiry) }
    ensures server { server.new ≡ after_call server.old (ServerCall.SetExpiry expiry) }
{
    if expiry.as_nanos() < minimum_nonce_expiry_duration().as_nanos() {
        return ServerReply::TooShort;
    }
    server.set_nonce_expiry_duration(expiry);
    ServerReply::Done
}
