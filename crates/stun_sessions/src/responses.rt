//! Laws about the responses that end a request: the responses that a server writes itself, and the
//! responses that its caller begins with `success` or `error` and completes with `finish`.
ghost use Rattle.stun_sessions.specs.Responses.{AcceptedAreAnswered, AddingKeepsPages};
ghost use Rattle.stun_sessions.specs.Responses.{ErrorsArePages, SuccessesBegin, UnknownIsPage};

/// `Reply::success` and `Reply::error` begin a response that `finish` can complete (`success`,
/// `error`). The response can still be completed after an attribute was added (`added`). The 420
/// that a server writes can be completed in the same way (`unknown`). By law
/// `answers_of_a_server_are_signed` of `stun_exchanges`, a completed response answers the request
/// and is signed.
///
/// Premises:
///
/// - The transaction ID has 96 bits.
/// - For `error`: the code is one that `Reply::error` can write. It is neither 401 nor 438, because
///   the server itself asks for credentials with these codes.
/// - For `added`: the attribute fits into the message, as `add_attribute` tests, and is not a
///   signature, FINGERPRINT or a second ERROR-CODE. With the attribute, the response has at most
///   60,000 bytes.
/// - For `unknown`: the request has at most 65,552 bytes.
pub fn begun_responses_are_pages()
    ensures success { SuccessesBegin }
    ensures error { ErrorsArePages }
    ensures added { AddingKeepsPages }
    ensures unknown { UnknownIsPage }
{
    stun_types::laws::writing_adds_one_attribute();
    stun_exchanges::exchanges::answers_of_a_server_are_signed();
}

/// Each response to an accepted request is signed with the key of the request's user, and ends the
/// request at the client. This holds for the responses that the server writes itself: the success
/// response to a Binding request, and the 420. It also holds for each response that the caller
/// begins with `Reply::success` or `Reply::error` (`begun_responses_are_pages`) and completes with
/// `Reply::finish`.
///
/// Premises:
///
/// - The server was built.
/// - The request is signed, as each accepted request is. It has at most 65,552 bytes and a
///   transaction ID of 96 bits. If the client requires FINGERPRINT, the request has one.
/// - The premises of `begun_responses_are_pages` hold for the caller's response.
pub fn accepted_requests_are_answered()
    ensures { AcceptedAreAnswered }
{
    begun_responses_are_pages();
    stun_exchanges::exchanges::answers_of_a_server_are_signed();
}
