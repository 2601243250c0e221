//! Laws about the exchanges of a client with a server of this library. An *epoch* is the time for
//! which the server sends an address the same nonce.
ghost use Rattle.stun_client_meetings.specs.Beginning.{NewClientsMeetServers, ThereAreMeetings};
ghost use Rattle.stun_client_meetings.specs.Meeting.{ClientsMeetServers};

/// A client and a server agree in two exchanges on the strongest algorithm that both support. The
/// law is about a request that a client with long-term credentials sends to a server. As long as
/// the request is outstanding, the client and the server do the following:
///
/// - While the request's current message has no signature, as before the first challenge, the
///   server answers the message with a challenge (`challenged`). When the challenge arrives, the
///   client sends the request again, signed for the challenge (`renewed`). If an earlier message of
///   the request is already signed for this challenge, the client sends that message.
/// - While the current message is signed for a challenge of the server, the server accepts the
///   message in the epoch of the challenge and in the next epoch, as a request of the client's
///   user. The algorithm is the strongest that both sides support (`accepted`). A signed answer to
///   the message ends the request with the result in the answer and with the round-trip time, if it
///   is known (`ended`).
/// - If the current message is signed for a challenge whose nonce has expired, the server answers
///   it with a 438, which has the current nonce (`stale`). When the 438 arrives, the client sends
///   the request again, signed for this nonce (`refreshed`).
///
/// The request may have any method, body and plan. Any other calls of the client may be made before
/// and after each of these steps: for example, they may start, answer or cancel other requests. It
/// does not matter whether the client has memory to store an earlier message when another one
/// replaces it. Datagrams from other sources do not change what the server does, because the
/// outcome of a datagram is a function of the settings, the users, the source, the time and the
/// bytes.
///
/// Premises:
///
/// - The client and the server can meet (`CanMeet`): the server was built, the user is registered
///   in the table that the server is passed, the user name is UTF-8 and has at most 513 bytes, both
///   sides agree on an algorithm, and the client sends FINGERPRINT if one of them requires it. The
///   table is of the server's realm, and may be made for any algorithms.
/// - The client has the address of this server and the credentials of this user (`IsClientOf`).
/// - The options of the request, if it has any, say that it is signed, and that its responses come
///   from the address of the server (`IsMeetable`).
/// - The method has 12 bits, as each `Method` does, and the body is one that `Body` builds.
///
/// Further premises of `renewed` and `refreshed`:
///
/// - The challenge is not weaker than the challenge that a success has confirmed last, because the
///   client ignores weaker challenges.
/// - The request can be sent again (`CanGoOn`): its first plan has not ended, its current message
///   was replaced by another one less often than the client's limit allows, and a transaction ID is
///   left.
/// - If an earlier message of the request is signed for the challenge, no current message has the
///   transaction ID of that earlier message. A current message has this ID only if the seed gives
///   two messages the same ID, and there was no memory to record the ID of the earlier message.
///
/// It is not a premise that the request fits into a message with all the attributes that the client
/// adds: law `requests_can_be_written` of `stun_requests` proves this. The law does not state that
/// a datagram arrives. It does not state either that allocations succeed: if one fails, the client
/// may drop a response.
pub fn clients_meet_servers()
    ensures { ClientsMeetServers }
{
    stun_client_runs::laws::clients_stay_in_order();
    stun_client_runs::laws::requests_are_sent_as_they_were_started();
    stun_requests::laws::requests_are_read_back();
    stun_requests::laws::requests_are_challenged();
    stun_requests::laws::requests_are_accepted();
    stun_endpoint::laws::nonces_have_the_bits_of_their_server();
    stun_exchanges::exchanges::challenges_are_read_as_meant();
    stun_exchanges::exchanges::challenges_of_a_server_are_answered();
    stun_exchanges::client::signed_answers_are_believed();
    stun_client::laws::nonces_of_a_server_are_up_to_date();
    stun_sessions::sessions::forgotten_nonces_are_stale();
    stun_requests::laws::requests_can_be_written();
}

/// A new client and a server agree on an algorithm with the client's first request. When the client
/// starts the request, with any method and body, the server challenges it. The client sends the
/// request again, signed for the challenge, and the server accepts it while the nonce lasts
/// (`met`). Law `clients_meet_servers` states what happens after that.
///
/// All premises of `met` can be true at once (`exist`): there are a server, a user of it and a
/// client of that user that agree in this way on HMAC-SHA256, for a Binding request and for an
/// Allocate request. This is proved for a user name that is sent as a hash and for one in clear.
///
/// Premises of `met`:
///
/// - The client and the server can meet (`CanMeet`), so the client has the name and the password of
///   a registered user.
/// - The client can send the request again (`CanBegin`): it answers at least one challenge for each
///   request, SOFTWARE has at most 763 bytes, and the first two transaction IDs that are derived
///   from the seed differ.
/// - The options of the request, if it has any, say that it is signed, and that its responses come
///   from the address of the server (`IsMeetable`).
/// - The method has 12 bits, as each `Method` does, and the body is one that `Body` builds.
/// - The challenge arrives within the plan of the request.
pub fn new_clients_meet_servers()
    ensures met { NewClientsMeetServers }
    ensures exist { ThereAreMeetings }
{
    stun_client_runs::laws::clients_stay_in_order();
    clients_meet_servers();
    stun_exchanges::exchanges::sides_can_meet();
    stun_client::laws::nonces_of_a_server_are_up_to_date();
    stun_requests::laws::requests_can_be_written();
}
