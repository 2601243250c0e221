//! Laws about lists of datagrams that arrive at a server. They state which requests a server
//! accepts, whatever arrived before. An *epoch* is the time for which a server sends an address the
//! same nonce. The functions without arguments do nothing when they run. Each of the other
//! functions makes the call that its law is about.
ghost use Rattle.std.specs.Global.{Vec as TheVec};
ghost use Rattle.std.specs.Prelude.{◌≡◌, ◌≢◌, ◌∷◌, ◌++◌, ℕ, List, IfOk, Some, length, slice_get};
ghost use Rattle.stun_datagrams.specs.Events.{Arrived, ServerEvent, UserSecrets, outcomes};
ghost use Rattle.stun_datagrams.specs.Events.{users_after, verdicts};
ghost use Rattle.stun_datagrams.specs.Example.{SignedRequestsAreAccepted};
ghost use Rattle.stun_datagrams.specs.Others.{OpenDatagram, ShortTermDatagram, open_outcomes};
ghost use Rattle.stun_datagrams.specs.Others.{short_term_outcomes};
ghost use Rattle.stun_datagrams.specs.Sentence.{AcceptsFromClients, AreIsolated, AreJudgedAlone};
ghost use Rattle.stun_datagrams.specs.Sentence.{HandsOutAccepted};
ghost use Rattle.stun_endpoint.specs.Outcomes.{outcome_of};
ghost use Rattle.stun_endpoint.specs.Received.{dropped};
ghost use Rattle.stun_endpoint.specs.Settings.{Settings};
ghost use Rattle.stun_endpoint.specs.declared.received.DropReason.TheVariants.{OtherRealm};

use std::alloc::{AllocError, Allocator};
use std::net::SocketAddr;
use stun_endpoint::laws as endpoint_laws;
use stun_endpoint::open::{OpenReceived, OpenServer};
use stun_endpoint::received::Received;
use stun_endpoint::server::Server;
use stun_endpoint::short_term::{ShortTermReceived, ShortTermServer, ShortTermUsers};
use stun_endpoint::unix_time::UnixTime;
use stun_endpoint::users::Users;
use stun_judging::laws as judging_laws;

/// States which datagrams a server accepts (RFC 8489, section 9.2.4). The clauses hold for every
/// list of events. An event is the arrival of a datagram, or a user who is added or removed.
///
/// - `handed`: the server returns a datagram to its caller as an accepted request of a client if
///   and only if three conditions hold:
///   - The datagram is a request that is not dropped.
///   - The request is accepted from this client, with the users who are registered when it arrives.
///   - The server leaves the response to its caller. It does so if it understands all
///     comprehension-required attributes, and does not itself answer the request as a Binding
///     request.
/// - `accepted`: the verdict on a datagram accepts a client, who has a name and an algorithm, if
///   and only if the datagram is a request that is not dropped and is accepted from this client.
///   The server may then also write the response itself.
/// - `isolated`: the outcomes of the datagrams from one source stay the same if the datagrams from
///   all other sources are removed from the list.
/// - `alone`: the outcome of a datagram depends only on the datagram, its source, its time and the
///   users who are registered at that time. What arrived before does not matter.
///
/// A request is accepted from a client (`IsAcceptedAt`) if all of these conditions hold:
///
/// - The request has a REALM.
/// - Its nonce is valid: the server makes this nonce for the request's source in the current epoch,
///   or made it in the epoch before, from its current secret or from its previous secret.
/// - Its algorithms agree with the ones that the server offers. A server that supports only
///   HMAC-SHA1 offers none, so the request then has neither a list of algorithms nor a choice.
/// - Its signature is valid under the key of the registered user whom the request names.
pub fn accepted_datagrams_are_handed_out()
    ensures handed { (s : Settings) (start : UserSecrets) (events : List ServerEvent)
        → HandsOutAccepted s start events (outcomes s start events) }
    ensures accepted { (s : Settings) (start : UserSecrets) (events : List ServerEvent)
        → AcceptsFromClients s start events (verdicts s start events) }
    ensures isolated { (s : Settings) (start : UserSecrets) (events : List ServerEvent)
        → AreIsolated s start events (outcomes s start events) }
    ensures alone { (s : Settings) → AreJudgedAlone s }
{}

/// States that for each server and each of its users there is a request that the server accepts. It
/// is a Binding request that the user has signed for the nonce that is current for its source. The
/// server accepts the request from that user, with the strongest algorithm that the server
/// supports. This holds for every source and every time.
///
/// Premises: the settings do not require FINGERPRINT, the user is registered with a password, and
/// the realm and the user name are UTF-8 and fit into their attributes.
pub fn signed_requests_are_accepted()
    ensures { SignedRequestsAreAccepted }
{
    judging_laws::additions_are_read_back();
    judging_laws::signed_messages_are_read();
    judging_laws::signing_succeeds_with_room();
    judging_laws::built_messages_can_be_signed();
    endpoint_laws::nonces_have_the_bits_of_their_server();
}

/// Calls `Server::receive` with any table of users, and relates the result to lists of events.
///
/// - `listed`: if the table is of a realm with the name of the server's realm, the result is the
///   outcome that the datagram has in every list of events in which the users at the datagram's
///   position are the users of the table. So no earlier datagram changes the result, and the law
///   `accepted_datagrams_are_handed_out`, which is about lists, also holds for this call. It does
///   not matter for which algorithms, and for which use of hashed names, the table was made.
/// - `other_realm`: if the table is of a realm with another name, the datagram is dropped.
pub fn a_datagram_is_one_of_a_list<'a, A: Allocator + Copy>(
    server: &Server<A>,
    bytes: &'a [u8],
    from: SocketAddr,
    now: UnixTime,
    users: &'a Users<A>,
) -> Result<Received<'a, A>, AllocError>
    ensures listed { IfOk result (λ received. users.now.registered.realm ≡ server.now.realm
        → (start : UserSecrets) (before after : List ServerEvent) (message : TheVec ℕ)
        → message.items ≡ bytes.now
        → users.now.registered.secrets ≡ users_after start before
        → slice_get (outcomes server.now start (before ++ Arrived from now message ∷ after))
        (length before)
        ≡ Some (Some (outcome_of received))) }
    ensures other_realm { IfOk result (λ received.
        users.now.registered.realm ≢ server.now.realm → outcome_of received ≡ dropped OtherRealm) }
{
    server.receive(bytes, from, now, users)
}

/// Calls `OpenServer::receive`, and states that the result is the outcome that the datagram has in
/// every list of datagrams. So no earlier datagram changes the result.
pub fn an_open_datagram_is_one_of_a_list<'a, A: Allocator + Copy>(
    server: &OpenServer<A>,
    bytes: &'a [u8],
    from: SocketAddr,
) -> Result<OpenReceived<'a, A>, AllocError>
    ensures { IfOk result (λ received. (before after : List OpenDatagram)
        → slice_get (open_outcomes server.now
        (before ++ record { from = from; bytes = bytes.now } ∷ after)) (length before)
        ≡ Some (outcome_of received)) }
{
    server.receive(bytes, from)
}

/// Calls `ShortTermServer::receive`, and states that the result is the outcome that the datagram
/// has in every list of datagrams in which it is listed with the users `users`. Each datagram of
/// such a list has users of its own. So no earlier datagram changes the result.
pub fn a_short_term_datagram_is_one_of_a_list<'a, A: Allocator + Copy>(
    server: &ShortTermServer<A>,
    bytes: &'a [u8],
    from: SocketAddr,
    users: &'a ShortTermUsers<A>,
) -> Result<ShortTermReceived<'a, A>, AllocError>
    ensures { IfOk result (λ received. (before after : List ShortTermDatagram)
        → slice_get (short_term_outcomes server.now
        (before ++ record { from = from; bytes = bytes.now; users = users.now } ∷ after))
        (length before)
        ≡ Some (outcome_of received)) }
{
    server.receive(bytes, from, users)
}
