//! Laws about downgrades, which a client prevents by its choice of messages, and about wrong
//! passwords, which end a request soon.
ghost use Rattle.stun_client_strength.specs.Costs.{CostsThreeDatagrams};
ghost use Rattle.stun_client_strength.specs.Refusing.{RefusalsAreRemembered, SecondRefusalsEnd};
ghost use Rattle.stun_client_strength.specs.Refusing.{ThirdRefusalsEnd};
ghost use Rattle.stun_client_strength.specs.Strength.{NewRequestsAreStrong, NothingIsBidDown};
ghost use Rattle.stun_client_strength.specs.Strength.{NothingWeakerIsSent, SuccessesConfirm};
ghost use Rattle.stun_client_strength.specs.Unsigned.{UnsignedRequestsAnswerNothing};
ghost use Rattle.stun_client_strength.specs.Unsigned.{UnsignedRequestsDoubtNothing};
ghost use Rattle.stun_client_strength.specs.Unsigned.{UnsignedRequestsStayUnsigned};

/// A wrong password ends a signed request soon. The request may have any plan, and its options may
/// name any address as the source of its responses.
///
/// - If a response repeats the challenge that the current message is signed for, the client drops
///   the response as `Refused` the first time, and retransmits the message by its timer. If such a
///   response arrives again after the message was sent once more, it ends the request: as
///   `Unauthorized` if it is a 401, and as `TooManyChallenges` if it is a 438. Over a reliable
///   transport, the first such response already ends the request. A response that arrives before
///   the message was sent since it became the current one does not count (`second`).
/// - The client remembers the first refusal, whatever calls are made in between, until another
///   message of the request becomes the current one (`remembered`). So a client with a wrong
///   password sends the signed message twice over UDP, and once over a reliable transport, if the
///   server answers each datagram in time.
/// - A 401 with the same realm and security bits, but another nonce or list of algorithms, ends the
///   request if two conditions hold: two such 401s have already caused the client to send the
///   request again as another message, and the third arrives within the first plan of the request.
///   The request then ends as `Unauthorized` (`third`).
///
/// Law `refusals_ask_for_the_same_credentials` of `stun_exchanges` states which challenges count as
/// refusals. A response to a request that is not signed never counts as a refusal
/// (`unsigned_requests_change_no_challenge`).
pub fn refusals_end_requests()
    ensures second { SecondRefusalsEnd }
    ensures remembered { RefusalsAreRemembered }
    ensures third { ThirdRefusalsEnd }
{
    stun_client_runs::laws::clients_stay_in_order();
}

/// If the password of a client is wrong, the client sends a request with any options at most three
/// times: the unsigned message once, and the signed message twice. If the client already has a
/// challenge to sign the request for, it sends the request at most twice. If the options of the
/// request say that it is not signed, the client sends it at most once, because it answers no
/// challenge for such a request.
///
/// Premises (`IsRefusedRun`):
///
/// - Each datagram is answered before the next one is sent.
/// - The answer to an unsigned datagram is a challenge that the client answers, and the answer to a
///   signed datagram is the challenge that this datagram is signed for.
/// - The other calls in between, which may also be for other requests, change neither the challenge
///   that the current message of the request is signed for, nor the refusals that the client has
///   counted for the request.
pub fn a_wrong_password_costs_three_datagrams()
    ensures { CostsThreeDatagrams }
{
    stun_client_runs::laws::clients_stay_in_order();
    stun_client_runs::laws::what_is_to_be_sent_is_there();
}

/// An attacker cannot make a server accept a client's request with an algorithm that is weaker than
/// the strongest that both support. The law is about a client with long-term credentials. It holds
/// for all datagrams that the client has received, and for every sequence of calls.
///
/// - `any`: when `poll` returns `Transmit` for a request, a reader of the request's bytes finds
///   that they are not signed, or that they are signed for a challenge that follows the client's
///   own rule. A server whose settings do not change accepts the bytes only with the strongest
///   algorithm that client and server support.
/// - `confirms`: a success confirms the challenge of the message that it answers, if new requests
///   are signed for this challenge, or if it is stronger than the challenge that was confirmed
///   last.
/// - `starts`: after the success, the client signs new requests for a challenge that is not weaker
///   than the confirmed one. So it does not sign them with HMAC-SHA1 in place of HMAC-SHA256, and
///   does not send the user name in clear in place of a hash.
/// - `since`: after the success, each message that `poll` returns is signed for a challenge that is
///   not weaker than the confirmed one either, with these exceptions:
///   - The message was already the current message of its request when the success arrived. `poll`
///     may return such a message after the success for the first time, even if the message is
///     unsigned or signed for a weaker challenge.
///   - The message is unsigned because a 400, a 437 or a 441 has cast doubt on a message of the
///     request. An unsigned message reveals neither the password nor a signature, and a server with
///     long-term credentials answers it with a challenge.
///   - The message is unsigned because the options of its request say so.
///
/// `starts` and `since` hold until `poll` returns the timeout of a request that has a message for
/// the confirmed challenge. After that, the client answers any challenge, because the settings of
/// the server may have changed.
///
/// A request whose options say that it is not signed is always sent without a signature. Such
/// requests may be outstanding at any time, and do not affect the other requests
/// (`unsigned_requests_change_no_challenge`).
///
/// Premises of `any`: the user name is UTF-8, the body is one that `Body` builds, the method has 12
/// bits, and the request starts at a time that an `Instant` can have.
pub fn nothing_sent_is_bid_down()
    ensures any { NothingIsBidDown }
    ensures confirms { SuccessesConfirm }
    ensures starts { NewRequestsAreStrong }
    ensures since { NothingWeakerIsSent }
{
    stun_client::laws::challenges_are_by_the_rule();
    stun_client::laws::requests_are_sent_again_for_new_challenges();
    stun_client::laws::successes_weaken_nothing();
    stun_client_calls::laws::requests_never_turn_to_weaker_messages();
    stun_client_runs::laws::clients_stay_in_order();
    stun_client_runs::laws::requests_are_sent_as_they_were_started();
    stun_client_runs::laws::what_is_to_be_sent_is_there();
    stun_requests::laws::requests_are_read_back();
    stun_requests::laws::written_requests_are_not_bid_down();
    stun_requests::laws::requests_can_be_written();
}

/// A request whose options say that it is not signed does not change the challenges that its client
/// stores. This holds for every kind of credentials, and after every sequence of calls.
///
/// - `unsigned`: the request has one message, which is not signed.
/// - `responses`: a response to the request either ends it or is dropped. The client does not
///   answer the response as a challenge or count it as a refusal, and the response casts no doubt
///   on a message and confirms no challenge. It changes neither the challenge that new requests are
///   signed for nor what is stored of the client's other requests.
/// - `ends`: when `poll` returns the outcome of the request, even a timeout, the client keeps the
///   challenge that new requests are signed for and the challenge that was confirmed last.
pub fn unsigned_requests_change_no_challenge()
    ensures unsigned { UnsignedRequestsStayUnsigned }
    ensures responses { UnsignedRequestsAnswerNothing }
    ensures ends { UnsignedRequestsDoubtNothing }
{
    stun_client_runs::laws::clients_stay_in_order();
}
