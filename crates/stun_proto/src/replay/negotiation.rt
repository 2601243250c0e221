//! A run in which a client and a server authenticate each other.

ghost use Rattle.std.specs.Prelude.{◌≡◌, ◌≢◌, ◌<◌, IfSome, IsUtf8, Err, length};
ghost use Rattle.stun_base.specs.Credentials.{NameAndPassword};
ghost use Rattle.stun_auth.specs.Client.{initial};
ghost use Rattle.stun_proto.specs.Headline.{EndsAtStrongest, IsReadyClient};
ghost use Rattle.stun_proto.specs.Honest.{ComesTo, IsHonest, strongest};
ghost use Rattle.stun_proto.specs.code.Meetings.{round_of};
ghost use Rattle.stun_proto.specs.Negotiating.{lists, meeting, met_by, round_at};
ghost use Rattle.stun_proto.specs.Negotiation.{whole_negotiation};
ghost use Rattle.stun_proto.specs.Sides.{Passes, sides};

mod meeting;
mod messages;

use crate::laws;
use crate::replay::call::ServerCall;
use crate::replay::event::Stopped;
use crate::replay::negotiation::meeting::{Asking, Meeting, meet};
use std::alloc::{AllocError, Allocator};
use std::net::SocketAddr;
use stun_auth::auth::{
    LongTermClientAuth, LongTermClientAuthErrorReason, LongTermServerAuth,
    LongTermServerAuthErrorReason,
};
use stun_base::algorithm::IntegrityAlgorithm;
use stun_base::error::StunWriteError;
use stun_base::instant::Instant;
use stun_base::memory::Memory;
use stun_base::transaction_id::TransactionId;
use thiserror::Error;

/// The outcome of a run in which a client and a server try to authenticate each other.
#[derive(Clone, Copy, Debug, PartialEq, Eq)]
pub enum Outcome {
    /// Both sides are authenticated: the server validated the second request with this algorithm,
    /// and the client validated the success response.
    Validated(IntegrityAlgorithm),
    /// The server validated even the first request, with this algorithm.
    AlreadyValidated(IntegrityAlgorithm),
    /// The server refused a request, for this reason.
    ServerRefused(LongTermServerAuthErrorReason),
    /// The client refused a response, for this reason.
    ClientRefused(LongTermClientAuthErrorReason),
}

/// The reason why a run ended without an [`Outcome`].
#[derive(Clone, Copy, Debug, PartialEq, Eq, Error)]
pub enum NegotiateError {
    /// An allocation failed.
    #[error("out of memory")]
    Memory,
    /// A message could not be signed, for this reason, which is never `OutOfMemory`.
    #[error(transparent)]
    Write(StunWriteError),
}

impl From<StunWriteError> for NegotiateError {
    ghost use Rattle.stun_proto.specs.Negotiating.{error_of_write};

    ghost from_gives = { λ reason error. error ≡ error_of_write reason };

    fn from(reason: StunWriteError) -> NegotiateError {
        match reason {
            StunWriteError::OutOfMemory => NegotiateError::Memory,
            reason => NegotiateError::Write(reason),
        }
    }
}

impl From<AllocError> for NegotiateError {
    ghost use Rattle.stun_proto.specs.declared.replay.negotiation.NegotiateError.TheVariants.{Memory};

    ghost from_gives = { λ _ error. error ≡ Memory };

    fn from(_error: AllocError) -> NegotiateError {
        NegotiateError::Memory
    }
}

impl From<Stopped> for NegotiateError {
    ghost use Rattle.stun_proto.specs.declared.replay.negotiation.NegotiateError.TheVariants.{Memory};

    ghost from_gives = { λ _ error. error ≡ Memory };

    fn from(_error: Stopped) -> NegotiateError {
        NegotiateError::Memory
    }
}

/// Lets a client and a server authenticate each other, and returns the outcome.
///
/// 1. The client sends a Binding request with the first ID, which the server reads at the first
///    time.
/// 2. The server sends a 401, which the client reads.
/// 3. The client sends a request with the second ID, which the server reads at the second time.
/// 4. The server sends a success, which the client reads.
///
/// All of these are Binding messages. Before they are signed they have no attributes, except
/// ERROR-CODE in the 401. Each message is signed by the side that sends it, and parsed from its
/// bytes by the other side. For each of the two requests, `words` has the random numbers for a new
/// nonce, if the server makes one. The server makes the first list of calls just before the client
/// reads the 401, and the second list just before the server itself reads the second request.
///
/// If the client is ready, the server validates its second request, with the strongest algorithm
/// that both sides support, and both sides are then authenticated. There are two exceptions: the
/// sides share no algorithm, or the client must send its user name as a hash and the server does
/// not accept that. In both cases the client fails with `UnsupportedFeature` and stores nothing,
/// and the server has no client at the client's address (RFC 8489, section 9.2). A client is ready
/// if all of these hold:
///
/// - It is new, and has the name and password of a registered user. No two registered users share a
///   USERHASH.
/// - It comes from an address that is new to the server.
/// - Its second request arrives while its nonce is current.
/// - The realm has at most 763 bytes, and the name at most 513.
/// - The calls between the steps are calls for other addresses. None of them changes users or
///   settings, and none is a `ForgetExpired`, which concerns every address.
///
/// In this run there is no attacker between the two sides, so it shows nothing about downgrade
/// attacks.
///
/// Contracts: the clause `headline` states all this. The clause `strongest` states it without the
/// two limits on lengths, on the condition that every message can be signed. The clause `steps`
/// states that the two sides went through the steps of the meeting.
///
/// The run ends, with an [`Outcome`], when one of these happens:
///
/// - The server validates the first request.
/// - The server refuses the first request for a reason other than `Unauthorized`, or the second
///   request for any reason.
/// - The client refuses a response.
/// - The client reads the 401 and returns a result other than `ResendRequest`.
/// - Both sides are authenticated.
///
/// # Errors
///
/// - `Write`: a message could not be signed.
/// - `Memory`: an allocation failed. Both sides are then in the state before the run, or in the
///   state after one of its steps, except the last. Each call of a list is a step of its own.
///
/// # Examples
///
/// A user with a wrong password:
///
/// ```
/// use seatcrane_stun::replay::proved::auth::{LongTermClientAuth, LongTermServerAuth};
/// use seatcrane_stun::replay::proved::types::message::*;
/// use seatcrane_stun::replay::proved::{Global, Instant, String};
/// use seatcrane_stun::replay::{Outcome, negotiate};
///
/// let text = |text| String::from_str(Global, text).unwrap();
/// let alice = |password| LongTermCredentials::new(text("alice"), text(password));
/// let mut server = LongTermServerAuth::new(Global, text("example.org"));
/// server.add_user(alice("wonderland")).unwrap();
/// let mut client = LongTermClientAuth::new(Global);
/// client.set_credentials(alice("looking glass"));
///
/// let from = "192.0.2.1:4242".parse().unwrap();
/// let ids = [1, 2].map(|number| TransactionId::from_u128(number).unwrap());
/// let (times, random, between) = ([Instant::ZERO; 2], [[7; 16]; 2], [&[][..]; 2]);
/// let outcome = negotiate(Global, &mut client, &mut server, from, ids, times, random, between);
/// assert!(matches!(outcome, Ok(Outcome::ServerRefused(_))));
/// ```
#[tactic(none)]
pub fn negotiate<A: Memory>(
    alloc: A,
    client: &mut LongTermClientAuth<A>,
    server: &mut LongTermServerAuth<A>,
    from: SocketAddr,
    ids: [TransactionId; 2],
    moments: [Instant; 2],
    words: [[u32; 16]; 2],
    between: [&[ServerCall]; 2],
) -> Result<Outcome, NegotiateError>
    ensures settings { client.new.settings ≡ client.old.settings }
    ensures steps { let m = meeting client.old.settings from ids moments words
        (lists between.entry) in IfSome (met_by result client.new.state server.new)
        (λ met. met ≡ whole_negotiation m client.old.state server.old) }
    ensures strongest { let m = meeting client.old.settings from ids moments words
        (lists between.entry) in client.old.state ≡ initial → (who : NameAndPassword)
        → IsHonest m who server.old → IfSome (met_by result client.new.state server.new)
        (ComesTo from who (strongest m server.old)) }
    ensures headline { let m = meeting client.old.settings from ids moments words
        (lists between.entry) in
        (who : NameAndPassword) → IsReadyClient client.old.state m who server.old
        → EndsAtStrongest m who server.old result client.new.state server.new }
    ensures memory { let m = meeting client.old.settings from ids moments words
        (lists between.entry) in result ≡ Err NegotiateError.Memory
        → Passes m client.old.state server.old (sides client.new.state server.new) }
    ensures write { result ≢ Err (NegotiateError.Write StunWriteError.OutOfMemory) }
    ensures granted { A.grants → result ≢ Err NegotiateError.Memory }
{
    laws::strongest_is_agreed();
    laws::short_names_are_signed();
    show_realm_is_text(server);
    show_name_is_text(client);
    let first = make_round(0, ids, moments, words, between);
    let second = make_round(1, ids, moments, words, between);
    let meeting = Meeting {
        from,
        first,
        second,
    };
    meet(alloc, client, server, &meeting)
}

/// Returns the first request of the meeting for the index 0, and the second request for the index
/// 1.
fn make_round<'a>(
    index: usize,
    ids: [TransactionId; 2],
    moments: [Instant; 2],
    words: [[u32; 16]; 2],
    between: [&'a [ServerCall]; 2],
) -> Asking<'a>
    requires { index < 2 }
    ensures turn { round_of result ≡ round_at index ids moments words (lists between.entry) }
    ensures count { length result.words ≡ 16 }
{
    let words = words[index];
    show_words_are_sixteen(words);
    Asking {
        id: ids[index],
        moment: moments[index],
        words,
        before: between[index],
    }
}

/// States that there are sixteen random numbers. Only the proof uses this call: the type of the
/// numbers guarantees it, but contracts do not see types.
fn show_words_are_sixteen(words: [u32; 16])
    ensures { length words ≡ 16 }
{}

/// States that the realm of a server is UTF-8. Only the proof uses this call, which makes known
/// what the type `&str` promises.
fn show_realm_is_text<A: Allocator + Copy>(server: &LongTermServerAuth<A>)
    ensures { IsUtf8 server.now.registered.realm }
{
    let _realm = server.realm();
}

/// States that the name of a client's user is UTF-8. Only the proof uses this call, which makes
/// known what the type `&str` promises.
fn show_name_is_text<A: Allocator>(client: &LongTermClientAuth<A>)
    ensures { IfSome client.now.settings.credentials (λ who. IsUtf8 who.username) }
{
    match client.credentials() {
        Some(user) => {
            let _name = user.username();
        }
        None => {}
    }
}
