//! Laws about the bytes of a request. An *epoch* is the time for which a server sends an address
//! the same nonce.
ghost use Rattle.stun_requests.specs.Fitting.{BuiltAreOrdinary, RequestsAreWritten};
ghost use Rattle.stun_requests.specs.ReadBack.{BodiesAreReadBack, RequestsAreReadBack};
ghost use Rattle.stun_requests.specs.ReadBack.{WrittenIsNotBidDown};
ghost use Rattle.stun_requests.specs.Served.{RequestsAreAccepted, RequestsAreChallenged};

/// A reader finds in the bytes of a request what the client wrote.
///
/// - `as_made`: the request has the method with which it was written. Of the attributes that
///   signing can add, it has exactly those that the challenge requires, and its signature is valid
///   under the key of the challenge. If the client sends FINGERPRINT, the request has a valid
///   FINGERPRINT. Otherwise it has none.
/// - `body`: the attributes of the request's body come first, in their order and unchanged.
///
/// Premises:
///
/// - The method has 12 bits, as each `Method` does.
/// - The body has only attributes that `Body` accepts (`AreOrdinary`). `Body::add` refuses all
///   other attributes.
/// - For `as_made`: the texts of the challenge are UTF-8 (`IsText`), as the texts of each
///   `Challenge` are.
pub fn requests_are_read_back()
    ensures as_made { RequestsAreReadBack }
    ensures body { BodiesAreReadBack }
{
    stun_types::laws::writing_adds_one_attribute();
    stun_types::laws::signed_message_stands();
    stun_judging::laws::built_messages_can_be_signed();
    stun_judging::laws::signed_messages_are_read();
    stun_judging::laws::additions_are_read_back();
}

/// A server whose settings do not change accepts the bytes of a request only with the strongest
/// algorithm that both sides support. The request may be unsigned, or signed for any challenge that
/// the client answers by its own rule.
///
/// Premises: those of `requests_are_read_back`. In addition, the challenge follows the rule for the
/// client's preferences (`IsChosen`), as each challenge that `judge` returns does.
pub fn written_requests_are_not_bid_down()
    ensures { WrittenIsNotBidDown }
{
    requests_are_read_back();
    stun_client::laws::signed_requests_are_not_bid_down();
}

/// A server answers each unsigned request with a 401 that has the current nonce of the request's
/// source address. This holds for every method and body of the request, and for all users of the
/// server.
///
/// Premises: the method has 12 bits, the body has only attributes that `Body` accepts, and the
/// client sends FINGERPRINT if the server requires it.
pub fn requests_are_challenged()
    ensures { RequestsAreChallenged }
{
    requests_are_read_back();
    stun_exchanges::server::unsigned_requests_are_challenged();
}

/// A server accepts each request that a registered user's client signs for the server's challenge,
/// if the request arrives in the epoch of the challenge or in the next epoch. The server accepts it
/// as a request of that user, with the algorithm on which both sides agree, which is the strongest
/// that both support. The request may have any method and body.
///
/// Premises, in addition to those of `requests_are_challenged`:
///
/// - The user is registered with this password in the table of users that the server is passed,
///   and found by the hash of the name (`IsRegisteredUser`). The table is of the server's realm,
///   and may be made for any algorithms. The name is UTF-8, as each `str` is.
/// - The server was built (`IsServer`).
/// - Both sides agree on an algorithm (`AgreeOn`).
pub fn requests_are_accepted()
    ensures { RequestsAreAccepted }
{
    requests_are_read_back();
    stun_endpoint::laws::nonces_have_the_bits_of_their_server();
    stun_exchanges::exchanges::users_are_accepted_by_the_strongest();
}

/// A request with any body that `Body` builds can be written, both unsigned and signed for any
/// challenge of a server of this library. Such a body has at most 60,000 bytes, and no attribute
/// that the client writes itself (`bodies`). The attributes that the client adds always fit into
/// the message (`written`), so a caller need not test whether they fit.
///
/// Premises of `written`:
///
/// - The method has 12 bits, as each `Method` does.
/// - SOFTWARE has at most 763 bytes, as `request` tests.
/// - If the request is signed, the challenge is short (`IsShort`): the realm and the nonce have at
///   most 763 bytes, as those of each `Challenge` do, the user name has at most 513 bytes, a hash
///   of the name has 32 bytes, and the list of algorithms has at most 2,600 bytes. The list of a
///   server of this library has at most 8 bytes.
pub fn requests_can_be_written()
    ensures bodies { BuiltAreOrdinary }
    ensures written { RequestsAreWritten }
{
    stun_types::laws::writing_adds_one_attribute();
    stun_types::laws::signed_message_stands();
    stun_judging::laws::built_messages_can_be_signed();
    stun_judging::laws::signed_messages_are_read();
    stun_judging::laws::additions_are_read_back();
}
