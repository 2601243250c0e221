//! Laws about a session. Each request takes one exchange while the nonce lasts. Once the nonce has
//! expired, a 438 costs one more exchange. An *epoch* is the time for which the server sends an
//! address the same nonce.
ghost use Rattle.stun_sessions.specs.Sessions.{ChallengesOfOneAreHeeded, ChallengesOfOneStay};
ghost use Rattle.stun_sessions.specs.Sessions.{ChallengesStay, ForgottenAreStale, OneExchangeEach};

/// If a request meets all conditions for being accepted except that its nonce has expired, the
/// server answers it with a 438 that has the current nonce.
///
/// Premises: the request is not dropped, and its nonce was once current for its source, but is no
/// longer one that the server accepts (`IsForgotten`). The server accepts the nonces of the current
/// epoch and of the epoch before, each made with its current secret or with its previous secret. An
/// expired nonce is equal to one of these only if the hashes from which both are made begin with
/// the same bytes.
pub fn forgotten_nonces_are_stale()
    ensures { ForgottenAreStale }
{
    stun_endpoint::laws::nonces_have_the_bits_of_their_server();
}

/// While the nonce lasts, the client of a registered user needs one exchange for each request. The
/// server accepts the request as a request of that user, with the algorithm on which both agree.
/// The answer is signed with the key of the challenge that the request is signed for. This holds
/// whether the server writes the answer itself, or its caller begins the answer with `success` or
/// `error` and completes it with `finish`. The client believes such an answer
/// (`signed_answers_are_believed` of `stun_exchanges`).
///
/// Premises (`IsInSession`):
///
/// - The server was built. The user is registered in the table of users that the server is passed,
///   and found by the hash of the name. The table is of the server's realm, and may be made for any
///   algorithms.
/// - Client and server agree on an algorithm.
/// - The request is signed for the challenge that the server intended, and is not dropped. It has
///   at most 65,552 bytes and a transaction ID of 96 bits.
/// - The request has FINGERPRINT if its client requires FINGERPRINT in responses.
/// - If the caller writes the answer, `finish` can complete it (`begun_responses_are_pages`).
pub fn each_request_takes_one_exchange()
    ensures { OneExchangeEach }
{
    stun_exchanges::exchanges::users_are_accepted_by_the_strongest();
    crate::responses::accepted_requests_are_answered();
}

/// A session continues with the challenge that the client answered last: new requests are signed
/// for it until a request that is signed for a stronger challenge succeeds (`stays`).
///
/// Now suppose that the settings of a server do not change:
///
/// - `alike`: if new requests are signed for one of the server's challenges, this does not change
///   when a request succeeds that is signed for another of its challenges.
/// - `heeded`: the client ignores none of the server's challenges, unless the challenge that was
///   confirmed last comes from another server or from other settings. So if all successes of a
///   client come from this server, the client answers the 438 that it gets once the nonce has
///   expired (`challenges_of_a_server_are_answered` of `stun_exchanges`).
pub fn a_session_goes_on_with_the_last_challenge()
    ensures stays { ChallengesStay }
    ensures alike { ChallengesOfOneStay }
    ensures heeded { ChallengesOfOneAreHeeded }
{
    stun_client::laws::nonces_of_a_server_are_up_to_date();
}
