//! Laws about the messages that a client and a server of this library exchange: the challenge, the
//! signed request, and the signed answer (RFC 8489, sections 9.2.3 to 9.2.5). They do nothing when
//! they run. An *epoch* is the time for which the server sends an address the same nonce.
ghost use Rattle.stun_exchanges.specs.Exchange.{AnswersAreSigned, BindingAnswersAreSigned};
ghost use Rattle.stun_exchanges.specs.Exchange.{ChallengesAreAnswered, ChallengesAreRead};
ghost use Rattle.stun_exchanges.specs.Exchange.{SignedAreAccepted, SuccessesArePages};
ghost use Rattle.stun_exchanges.specs.Instance.{SidesCanMeet};

/// A client reads each 401 and each 438 that a server writes as the challenge that the server
/// intended, whatever the request was and whatever challenge came before. The response answers the
/// request, and is not dropped because of its FINGERPRINT. The challenge that the client reads in
/// the response is the one that its rule (`by_rule`) makes from the server's realm, the nonce and
/// the server's algorithms.
///
/// Premises:
///
/// - The server was built (`IsServer`, which `Server::new` ensures).
/// - The transaction ID has 96 bits.
/// - If the client requires FINGERPRINT in responses, the request has FINGERPRINT.
pub fn challenges_are_read_as_meant()
    ensures { ChallengesAreRead }
{
    stun_judging::laws::additions_are_read_back();
    stun_judging::laws::built_messages_can_be_signed();
    stun_judging::laws::signing_succeeds_with_room();
    stun_endpoint::laws::nonces_have_the_bits_of_their_server();
    stun_types::laws::writing_adds_one_attribute();
}

/// A client with long-term credentials answers the challenges of a server with which it agrees on
/// an algorithm. After a 401 or a 438 to the current message of a request, the client sends the
/// request again, signed for the challenge that the server intended. A 401 to a message that was
/// signed for the same realm and security bits also counts as a refusal, but a 438 does not
/// (`answered_to`).
///
/// Premises, in addition to those of `challenges_are_read_as_meant`:
///
/// - Client and server agree on an algorithm (`AgreeOn`). Law `common_algorithms_are_answered` says
///   when there is such an algorithm.
/// - The message was not already signed for this challenge.
/// - The challenge is not weaker than the challenge that was confirmed last. This always holds for
///   a client that has received no success response.
pub fn challenges_of_a_server_are_answered()
    ensures { ChallengesAreAnswered }
{
    challenges_are_read_as_meant();
    crate::client::common_algorithms_are_answered();
    stun_client::laws::nonces_of_a_server_are_up_to_date();
    stun_client::laws::answerable_challenges_are_answered();
}

/// A server accepts each request that one of its users has signed for the server's challenge, if
/// the request arrives in the epoch of the challenge's nonce or in the next epoch. The server
/// accepts it as a request of that user, with the algorithm on which both sides agree, which is the
/// strongest that both support. The request may have any method and body, and may name the user by
/// a hash.
///
/// Premises:
///
/// - Both sides agree on an algorithm (`AgreeOn`).
/// - The user is registered with this password in the table that the server is passed
///   (`IsRegisteredUser`). The table is of the server's realm, and may be made for any algorithms.
///   No earlier user in the order of names has the same hash, so the server finds the user by the
///   hash. No two texts with the same SHA-256 are known.
/// - The request is not dropped.
pub fn users_are_accepted_by_the_strongest()
    ensures { SignedAreAccepted }
{
    stun_client::laws::nonces_of_a_server_are_up_to_date();
    crate::server::clients_are_accepted_while_their_nonce_lasts();
}

/// The responses that a server completes are signed answers (`IsSignedAnswer`). To complete a
/// response, the server adds SOFTWARE if its settings have such a text, then a signature under a
/// key, and then FINGERPRINT if the request has one.
///
/// - `written`: a completed response answers the request and is a signed answer.
/// - `successes`: each success response to the request can be completed in this way.
/// - `binding`: the response that the server itself writes to a Binding request answers the request
///   and is a signed answer.
///
/// A client believes a signed answer if the request was signed with the same key
/// (`signed_answers_are_believed`).
///
/// Premises:
///
/// - Before it is completed, the response is a message of at most 60,000 bytes with the request's
///   method and transaction ID, without a signature and without FINGERPRINT. It is neither a 401
///   nor a 438 (`IsPage`).
/// - The server was built.
/// - The transaction ID has 96 bits.
/// - If the client requires FINGERPRINT in responses, the request has FINGERPRINT.
pub fn answers_of_a_server_are_signed()
    ensures written { AnswersAreSigned }
    ensures successes { SuccessesArePages }
    ensures binding { BindingAnswersAreSigned }
{
    stun_types::laws::signed_message_stands();
    stun_types::laws::writing_adds_one_attribute();
}

/// There are a server, a user and a client for which the premises of these laws hold. The server
/// supports both algorithms and accepts hashed user names, and it may have any secret.
pub fn sides_can_meet()
    ensures { SidesCanMeet }
{}
