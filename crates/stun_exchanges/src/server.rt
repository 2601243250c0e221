//! Laws about a server alone (RFC 8489, section 9.2.4). The server challenges unsigned requests,
//! and accepts a nonce for two epochs. An *epoch* is the time for which it sends an address the
//! same nonce. A datagram has the same outcome under all passwords of a user for which its
//! signature is invalid.
ghost use Rattle.std.specs.Prelude.{◌≡◌, ℕ, List, None, Some};
ghost use Rattle.std.specs.declared.net.socket_addr.SocketAddr.{SocketAddr};
ghost use Rattle.stun_base.specs.MessageType.{class_in};
ghost use Rattle.stun_base.specs.declared.wire.message_type.MessageClass.TheVariants as MessageClass;
ghost use Rattle.stun_judging.specs.OtherUsers.{VerifiesUnderNone};
ghost use Rattle.stun_judging.specs.Reading.{reading_of};
ghost use Rattle.stun_judging.specs.Registered.{UserSecret};
ghost use Rattle.stun_judging.specs.Verdict.{ClientSeen, IsAcceptedOffering};
ghost use Rattle.stun_endpoint.specs.Judged.{Realm, key_of_client};
ghost use Rattle.stun_endpoint.specs.Nonces.{current_nonce};
ghost use Rattle.stun_endpoint.specs.Received.{answered, challenge_answer, outcome_of_accepted};
ghost use Rattle.stun_endpoint.specs.Received.{received_by};
ghost use Rattle.stun_endpoint.specs.Responding.{drop_reason};
ghost use Rattle.stun_endpoint.specs.Settings.{Settings};
ghost use Rattle.stun_endpoint.specs.declared.received.Refusal.TheVariants as refused;
ghost use Rattle.stun_exchanges.specs.Exchange.{IsWithinPeriod};
ghost use Rattle.stun_exchanges.specs.OtherSecrets.{with_secret_at};

/// A server challenges each unsigned request, whatever users it has. Unless the request is dropped,
/// the server answers it with a 401 that has the current nonce of the request's source address.
pub fn unsigned_requests_are_challenged()
    ensures { (s : Settings) (realm : Realm) (from : SocketAddr) (now : ℕ) (bytes : List ℕ)
        → drop_reason s.requires_fingerprint bytes ≡ None → class_in bytes ≡ MessageClass.Request
        → (reading_of bytes).integrity ≡ None
        → received_by s realm from now bytes
        ≡ answered (challenge_answer s refused.Unauthenticated (current_nonce s from now) from
        bytes) }
{}

/// A client is accepted while its nonce lasts: in the epoch in which the server wrote the nonce,
/// and in the next epoch. In these two epochs, a request that is not dropped has the outcome of an
/// accepted request if it meets the following conditions (`IsAcceptedOffering`):
///
/// - It has a REALM.
/// - Its nonce is the one that was current for its source when the server wrote the nonce.
/// - Its algorithms agree with those that the server offers. A server that supports only HMAC-SHA1
///   offers none, so the request then has neither a list of algorithms nor a choice.
/// - Its signature is valid under the key of the registered user whom it names.
pub fn clients_are_accepted_while_their_nonce_lasts()
    ensures { (s : Settings) (realm : Realm) (from : SocketAddr) (made now : ℕ) (bytes : List ℕ)
        (client : ClientSeen) → drop_reason s.requires_fingerprint bytes ≡ None
        → class_in bytes ≡ MessageClass.Request → IsWithinPeriod s made now
        → IsAcceptedOffering realm.users realm.feature (current_nonce s from made) realm.offered
        (reading_of bytes) client
        → received_by s realm from now bytes
        ≡ outcome_of_accepted s (key_of_client realm client) from bytes client }
{
    stun_endpoint::laws::requests_are_accepted_under_their_nonces();
}

/// The outcome of a datagram reveals nothing about a password. Suppose that a user gets a new
/// password or new keys. A datagram whose signature is valid neither under the old keys nor under
/// the new keys then has the same outcome as before, byte for byte (`received`). If such a datagram
/// names the user in USERNAME, and has no USERHASH, its outcome is the same as if the user were not
/// registered (`unregistered`).
///
/// The law says nothing about the time that an answer takes.
pub fn outcomes_tell_no_password()
    ensures received { (s : Settings) (realm : Realm) (name : List ℕ) (one other : UserSecret)
        (from : SocketAddr) (now : ℕ) (bytes : List ℕ)
        → VerifiesUnderNone realm.users name one (reading_of bytes)
        → VerifiesUnderNone realm.users name other (reading_of bytes)
        → received_by s (with_secret_at realm name (Some one)) from now bytes
        ≡ received_by s (with_secret_at realm name (Some other)) from now bytes }
    ensures unregistered { (s : Settings) (realm : Realm) (name : List ℕ) (secret : UserSecret)
        (from : SocketAddr) (now : ℕ) (bytes : List ℕ)
        → (reading_of bytes).userhash ≡ None → (reading_of bytes).username ≡ Some name
        → VerifiesUnderNone realm.users name secret (reading_of bytes)
        → received_by s (with_secret_at realm name (Some secret)) from now bytes
        ≡ received_by s (with_secret_at realm name None) from now bytes }
{}
