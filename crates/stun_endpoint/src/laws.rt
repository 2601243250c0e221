//! Laws about the definitions that the contracts of this crate cite. They do nothing when they run.
//! An *epoch* is the time for which a server sends an address the same nonce.
ghost use Rattle.std.specs.Prelude.{◌≡◌, ◌≢◌, ◌↔◌, ◌⊎◌, ◌≤◌, ◌+◌, ◌++◌, ℕ, Bool, List, None, Ok, Option};
ghost use Rattle.std.specs.Prelude.{◌&&◌, IsUtf8, Some, false, length, map, slice_get, true};
ghost use Rattle.std.specs.Option.{is_none, option_map};
ghost use Rattle.std.specs.Str.{bytes_eq};
ghost use Rattle.std.specs.declared.net.socket_addr.SocketAddr.{SocketAddr};
ghost use Rattle.stun_judging.specs.declared.refusal.VerdictRefusal.{VerdictRefusal};
ghost use Rattle.stun_judging.specs.Reading.{Reading, reading_of, is_complete, is_malformed};
ghost use Rattle.stun_judging.specs.Named.{just, user_of};
ghost use Rattle.stun_judging.specs.Registered.{Registered};
ghost use Rattle.stun_judging.specs.Verdict.{ClientSeen, their_nonce};
ghost use Rattle.stun_judging.specs.Nonces.{begins_with_cookie, letter, security_bits};
ghost use Rattle.stun_endpoint.specs.Batches.{Datagram, picked, received_all};
ghost use Rattle.stun_endpoint.specs.Causes.{cause_for, code_of_cause, credential_cause};
ghost use Rattle.stun_endpoint.specs.Causes.{has_other_bits, is_agreed, refused_code};
ghost use Rattle.stun_endpoint.specs.Judged.{IsAcceptedAt, Realm, judged, key_of_client};
ghost use Rattle.stun_endpoint.specs.Judged.{has_other_realm};
ghost use Rattle.stun_endpoint.specs.Lookups.{LookupSeen, WaitsUnderItsNonce, done};
ghost use Rattle.stun_endpoint.specs.Lookups.{identified_by, looked_up};
ghost use Rattle.stun_base.specs.MessageType.{class_in};
ghost use Rattle.stun_base.specs.declared.wire.message_type.MessageClass.TheVariants as MessageClass;
ghost use Rattle.stun_endpoint.specs.Nonces.{current_nonce, front_of, nonce_in};
ghost use Rattle.stun_endpoint.specs.Nonces.{security_bytes};
ghost use Rattle.stun_endpoint.specs.Received.{AcceptedRequest, Answer as TheAnswer, Outcome};
ghost use Rattle.stun_endpoint.specs.Received.{answered, dropped, indicated, outcome_of_accepted};
ghost use Rattle.stun_endpoint.specs.Received.{received_by, received_for, refused_with};
ghost use Rattle.stun_endpoint.specs.Received.{requested};
ghost use Rattle.stun_endpoint.specs.Offers.{IsOffered};
ghost use Rattle.stun_endpoint.specs.Open as openly;
ghost use Rattle.stun_endpoint.specs.Open.{OpenRequest, received_openly};
ghost use Rattle.stun_endpoint.specs.Responding.{Responding, drop_reason, is_binding, is_empty};
ghost use Rattle.stun_endpoint.specs.Responding.{is_undropped_request, own_answer, refusal_by};
ghost use Rattle.stun_endpoint.specs.Settings.{Settings};
ghost use Rattle.stun_extra.specs.Fingerprint.{fingerprint_in};
ghost use Rattle.stun_extra.specs.Unknown.{unknown_types};
ghost use Rattle.stun_extra.specs.declared.fingerprint.Fingerprint.TheVariants as Fingerprint;
ghost use Rattle.stun_endpoint.specs.ShortTerm as short_term;
ghost use Rattle.stun_endpoint.specs.ShortTerm.{IsSignedBy, Keys, SignedIndication, Signer};
ghost use Rattle.stun_endpoint.specs.ShortTerm.{or_handed, received_signed, signature_of};
ghost use Rattle.stun_endpoint.specs.ShortTerm.{signer_of};
ghost use Rattle.stun_endpoint.specs.declared.received.DropReason.TheVariants.{NotSigned, OtherRealm};
ghost use Rattle.stun_endpoint.specs.declared.received.DropReason.TheVariants.{UnknownAttribute};
ghost use Rattle.stun_endpoint.specs.declared.received.Refusal.{Refusal};
ghost use Rattle.stun_endpoint.specs.declared.received.Refusal.TheVariants as refused;
ghost use Rattle.stun_endpoint.specs.declared.server.causes.Cause.TheVariants.{OtherFeatures};

/// A server accepts a client if and only if the client is accepted under one of the nonces that the
/// server accepts from the client's address at that time (`verdict`). These are the nonces of the
/// current epoch and of the epoch before, each made with the current secret or with the previous
/// secret. Earlier datagrams have no influence.
///
/// So a request that is not dropped has the outcome of an accepted request if its client is
/// accepted (`accepted`), and is refused if no client is accepted (`refused`).
pub fn requests_are_accepted_under_their_nonces()
    ensures verdict { (s : Settings) (realm : Realm) (from : SocketAddr) (now : ℕ) (r : Reading)
        (client : ClientSeen)
        → (judged s realm from now r ≡ Ok client) ↔ IsAcceptedAt s realm from now r client }
    ensures accepted { (s : Settings) (realm : Realm) (from : SocketAddr) (now : ℕ) (bytes : List ℕ)
        (client : ClientSeen) → drop_reason s.requires_fingerprint bytes ≡ None → class_in bytes ≡ MessageClass.Request
        → IsAcceptedAt s realm from now (reading_of bytes) client
        → received_by s realm from now bytes
        ≡ outcome_of_accepted s (key_of_client realm client) from bytes client }
    ensures refused { (s : Settings) (realm : Realm) (from : SocketAddr) (now : ℕ) (bytes : List ℕ)
        → drop_reason s.requires_fingerprint bytes ≡ None → class_in bytes ≡ MessageClass.Request
        → ((client : ClientSeen) → IsAcceptedAt s realm from now (reading_of bytes) client → ⊥)
        → (why : VerdictRefusal) × (received_by s realm from now bytes
        ≡ refused_with s (current_nonce s from now) from bytes why) }
{}

/// States what the nonces of a server contain, and that the server distinguishes a nonce with other
/// security bits from a stale nonce (RFC 8489, sections 9.2 and 18.1).
///
/// - `cookie`, `bits`: each nonce begins with the nonce cookie (`cookie`), and has exactly the 24
///   security bits that follow from the server's settings (`bits`). The first bit is set if the
///   server supports HMAC-SHA256, and the second if users may be named by a hash. All other bits
///   are zero.
/// - `text`, `short`: each nonce is UTF-8 (`text`). The nonce cookie and the security bits have at
///   most 13 bytes, and the letters that are made from the HMAC follow them (`short`).
/// - `other_bits`: if the nonce of a request has security bits other than the server's, the request
///   is refused with the cause `OtherFeatures`. Premises: the request is signed, it has REALM,
///   NONCE and a user name, and its algorithms agree with its nonce and with the server's offer.
/// - `no_bits`: a request whose nonce has no security bits is never refused with this cause.
pub fn nonces_have_the_bits_of_their_server()
    ensures cookie { (s : Settings) (secret : List ℕ) (from : SocketAddr) (epoch : ℕ)
        → begins_with_cookie (nonce_in s secret from epoch) ≡ true }
    ensures bits { (s : Settings) (secret : List ℕ) (from : SocketAddr) (epoch : ℕ)
        → security_bits (nonce_in s secret from epoch)
        ≡ Some (security_bytes s.algorithms s.feature) }
    ensures text { (s : Settings) (words : List ℕ)
        → IsUtf8 (front_of s.algorithms s.feature ++ map letter words) }
    ensures short { (s : Settings) (words : List ℕ)
        → length (front_of s.algorithms s.feature ++ map letter words) ≤ 13 + length words }
    ensures other_bits { (s : Settings) (realm : Realm) (from : SocketAddr) (now : ℕ) (r : Reading)
        (bits : List ℕ) → is_none r.integrity ≡ false → is_complete r ≡ true
        → is_agreed realm r ≡ true → security_bits (their_nonce r) ≡ Some bits
        → bytes_eq (security_bytes s.algorithms s.feature) bits ≡ false
        → credential_cause s realm from now r ≡ Some OtherFeatures }
    ensures no_bits { (s : Settings) (from : SocketAddr) (now : ℕ) (r : Reading)
        → security_bits (their_nonce r) ≡ None
        → has_other_bits (current_nonce s from now) r ≡ false }
{}

/// States for which requests a datagram can have certain outcomes:
///
/// - A request that is returned to the caller comes from a client that is accepted under one of the
///   nonces of its address (`accepted`).
/// - A success or a 420 goes only to a client that is accepted in this sense (`answered`).
/// - A 400 goes only to a request that is malformed, or that has the current nonce of its address
///   (`no_lockout`).
pub fn outcomes_are_of_accepted_clients()
    ensures accepted { (s : Settings) (realm : Realm) (from : SocketAddr) (now : ℕ) (bytes : List ℕ)
        (request : AcceptedRequest) → received_by s realm from now bytes ≡ requested request
        → IsAcceptedAt s realm from now (reading_of bytes) request.client }
    ensures answered { (s : Settings) (realm : Realm) (from : SocketAddr) (now : ℕ) (bytes : List ℕ)
        (answer : TheAnswer) → received_by s realm from now bytes ≡ answered answer
        → (answer.refusal ≡ None) ⊎ (answer.refusal ≡ Some refused.UnknownAttribute)
        → (client : ClientSeen) × IsAcceptedAt s realm from now (reading_of bytes) client }
    ensures no_lockout { (s : Settings) (realm : Realm) (from : SocketAddr) (now : ℕ)
        (bytes : List ℕ) (answer : TheAnswer)
        → received_by s realm from now bytes ≡ answered answer
        → answer.refusal ≡ Some refused.BadRequest
        → (is_malformed (reading_of bytes) ≡ true)
        ⊎ (bytes_eq (their_nonce (reading_of bytes)) (current_nonce s from now) ≡ true) }
{}

/// A server judges by its own settings, whatever the settings for which its users were made.
///
/// - `requests`: a request that is returned to the caller has only what the server's settings
///   offer (`IsOffered`). The agreed algorithm is one that the server supports. A list of
///   algorithms is the one that the server offers, and the choice is the agreed algorithm. A server
///   that supports only HMAC-SHA1 offers no list, and accepts neither list nor choice. A hash of a
///   name is accepted only if the server allows hashed names.
/// - `answers`: the same holds for a request that the server answers with a success or a 420.
/// - `other_realm`: with users of a realm with another name, the server drops every datagram, and
///   names the reason. So it accepts nobody.
pub fn servers_judge_by_their_own_settings()
    ensures requests { (s : Settings) (users : Option Registered) (from : SocketAddr) (now : ℕ)
        (bytes : List ℕ) (request : AcceptedRequest)
        → received_for s users from now bytes ≡ requested request
        → IsOffered s (reading_of bytes) request.client }
    ensures answers { (s : Settings) (users : Option Registered) (from : SocketAddr) (now : ℕ)
        (bytes : List ℕ) (answer : TheAnswer)
        → received_for s users from now bytes ≡ answered answer
        → (answer.refusal ≡ None) ⊎ (answer.refusal ≡ Some refused.UnknownAttribute)
        → (client : ClientSeen) × IsOffered s (reading_of bytes) client }
    ensures other_realm { (s : Settings) (users : Registered) (from : SocketAddr) (now : ℕ)
        (bytes : List ℕ) → users.realm ≢ s.realm
        → received_for s (Some users) from now bytes ≡ dropped OtherRealm }
{}

/// A datagram that is not dropped has a valid FINGERPRINT, or it has none and the server does not
/// require one (RFC 8489, sections 7.3 and 14.7). A FINGERPRINT is invalid if its value is wrong or
/// is not 4 bytes long, or if it is not the last attribute.
pub fn undropped_messages_are_whole()
    ensures { (required : Bool) (bytes : List ℕ) → drop_reason required bytes ≡ None
        → (fingerprint_in bytes ≡ Fingerprint.Right)
        ⊎ ((fingerprint_in bytes ≡ Fingerprint.Absent) × (required ≡ false)) }
{}

/// The cause of a refusal agrees with the outcome: there is a cause if and only if the outcome is a
/// response that refuses the datagram, and the cause has the same code as the response.
pub fn causes_have_their_codes()
    ensures { (s : Settings) (users : Option Registered) (from : SocketAddr) (now : ℕ)
        (bytes : List ℕ) → option_map code_of_cause (cause_for s users from now bytes)
        ≡ refused_code (received_for s users from now bytes) }
{}

/// If `identify` returns an outcome rather than a look-up, the outcome does not depend on the user:
/// `receive` would return the same one with any user of the server's realm, or with none.
pub fn identify_needs_no_user()
    ensures { (s : Settings) (from : SocketAddr) (now : ℕ) (bytes : List ℕ) (outcome : Outcome)
        → identified_by s from now bytes ≡ done outcome → (user : Option Registered)
        → has_other_realm s user ≡ false → received_for s user from now bytes ≡ outcome }
{}

/// After a look-up, `resume` returns the outcome that `receive` returns for the request with a
/// table of all users, at the time at which the request arrived. Premise: you pass to `resume` the
/// user of this table whom the look-up names, by name or by hash, or no user if the table has no
/// such user. The table may be made for any settings.
pub fn resume_is_receive_with_all_users()
    ensures { (s : Settings) (all : Registered) (from : SocketAddr) (now : ℕ) (bytes : List ℕ)
        (lookup : LookupSeen) → identified_by s from now bytes ≡ looked_up lookup
        → received_for s (Some (just all (user_of all lookup.user))) lookup.from lookup.arrived
        lookup.message
        ≡ received_for s (Some all) from now bytes }
{
    stun_judging::laws::the_named_user_is_enough_to_judge();
}

/// If `identify` returns a look-up, the datagram is a signed request with a nonce that the server
/// accepts from its source at the time at which the request arrived. This is a nonce of the epoch
/// of that time or of the epoch before, made with the current secret or with the previous secret.
pub fn lookups_have_accepted_nonces()
    ensures { (s : Settings) (from : SocketAddr) (now : ℕ) (bytes : List ℕ) (lookup : LookupSeen)
        → identified_by s from now bytes ≡ looked_up lookup
        → (lookup.message ≡ bytes) × (lookup.from ≡ from) × (lookup.arrived ≡ now)
        × WaitsUnderItsNonce s lookup }
{}

/// In a batch, each datagram has the outcome that `receive` returns for it alone, with the same
/// users at the same time.
///
/// - `each`: the outcome at an index of the batch is the outcome that `receive` returns for the
///   datagram at this index.
/// - `parts`: if a batch is divided into parts, its outcomes are the outcomes of the parts, one
///   after another. So the outcome of a datagram is the same at a server that has received the
///   datagrams before it, and at a server that has not.
/// - `order`: if the datagrams arrive in another order, or if only some of them arrive, their
///   outcomes stay the same, because the server stores nothing about its clients.
pub fn a_batch_is_its_single_calls()
    ensures each { (s : Settings) (users : Option Registered) (now : ℕ)
        (datagrams : List Datagram) (place : ℕ) (d : Datagram)
        → slice_get datagrams place ≡ Some d
        → slice_get (received_all s users now datagrams) place
        ≡ Some (received_for s users d.from now d.bytes) }
    ensures parts { (s : Settings) (users : Option Registered) (now : ℕ)
        (first later : List Datagram)
        → received_all s users now (first ++ later)
        ≡ received_all s users now first ++ received_all s users now later }
    ensures order { (s : Settings) (users : Option Registered) (now : ℕ)
        (datagrams : List Datagram) (places : List ℕ)
        → received_all s users now (picked places datagrams)
        ≡ picked places (received_all s users now datagrams) }
{}

/// A server with short-term credentials accepts a message as signed by a user if and only if
/// `IsSignedBy` holds (`signer`), whatever datagrams arrived before. `IsSignedBy` says that the
/// first USERNAME before the signature is the name of the user, and that the signature is valid
/// under the user's key.
///
/// So if a user has signed a request that is not dropped, the server accepts the request: it
/// answers the request itself or returns it to its caller (`accepted`). If no user has signed the
/// request, the server refuses it (`refused`).
pub fn signers_are_known_exactly()
    ensures signer { (users : Keys) (bytes : List ℕ) (signer : Signer)
        → (signer_of users bytes ≡ Ok signer) ↔ IsSignedBy users bytes signer }
    ensures accepted { (s : Responding) (users : Keys) (from : SocketAddr) (bytes : List ℕ)
        (signer : Signer) → drop_reason s.requires_fingerprint bytes ≡ None → class_in bytes ≡ MessageClass.Request
        → IsSignedBy users bytes signer
        → received_signed s users from bytes
        ≡ or_handed s from bytes signer (own_answer s (Some (signature_of signer)) from bytes) }
    ensures refused { (s : Responding) (users : Keys) (from : SocketAddr) (bytes : List ℕ)
        → drop_reason s.requires_fingerprint bytes ≡ None → class_in bytes ≡ MessageClass.Request
        → ((signer : Signer) → IsSignedBy users bytes signer → ⊥)
        → (why : Refusal)
        × (received_signed s users from bytes ≡ short_term.answered (refusal_by s why from bytes)) }
{}

/// At a server with short-term credentials, an indication that is not dropped for another reason
/// and that no user has signed is dropped as `NotSigned`, with the refusal 400 or 401.
pub fn unsigned_indications_are_dropped()
    ensures { (s : Responding) (users : Keys) (from : SocketAddr) (bytes : List ℕ)
        → drop_reason s.requires_fingerprint bytes ≡ None
        → class_in bytes ≡ MessageClass.Indication
        → ((signer : Signer) → IsSignedBy users bytes signer → ⊥)
        → (received_signed s users from bytes
        ≡ short_term.dropped (NotSigned refused.BadRequest))
        ⊎ (received_signed s users from bytes
        ≡ short_term.dropped (NotSigned refused.Unauthenticated)) }
{}

/// A request or an indication that `received_signed` returns to the caller comes from the user who
/// has signed it (`requested`, `indicated`), and a success or a 420 goes only to a request that a
/// user has signed (`answered`).
pub fn outcomes_are_of_signers()
    ensures requested { (s : Responding) (users : Keys) (from : SocketAddr) (bytes : List ℕ)
        (request : AcceptedRequest)
        → received_signed s users from bytes ≡ short_term.requested request
        → (key : List ℕ) × IsSignedBy users bytes (record { client = request.client; key = key }) }
    ensures indicated { (s : Responding) (users : Keys) (from : SocketAddr) (bytes : List ℕ)
        (indication : SignedIndication)
        → received_signed s users from bytes ≡ short_term.indicated indication
        → (key : List ℕ)
        × IsSignedBy users bytes (record { client = indication.client; key = key }) }
    ensures answered { (s : Responding) (users : Keys) (from : SocketAddr) (bytes : List ℕ)
        (answer : TheAnswer) → received_signed s users from bytes ≡ short_term.answered answer
        → (answer.refusal ≡ None) ⊎ (answer.refusal ≡ Some refused.UnknownAttribute)
        → (signer : Signer) × IsSignedBy users bytes signer }
{}

/// Only a request that is not dropped gets a response, and the response goes to the address that
/// the request came from. This holds at a server with long-term credentials (`long_term`), with
/// short-term credentials (`short_term`) and without credentials (`no_credentials`). An indication
/// or a response never gets a response, so two servers cannot keep each other busy (RFC 8489,
/// section 6.3).
pub fn only_requests_are_answered()
    ensures long_term { (s : Settings) (realm : Realm) (from : SocketAddr) (now : ℕ)
        (bytes : List ℕ) (answer : TheAnswer)
        → received_by s realm from now bytes ≡ answered answer
        → (is_undropped_request s.requires_fingerprint bytes ≡ true) × (answer.to ≡ from) }
    ensures short_term { (s : Responding) (users : Keys) (from : SocketAddr) (bytes : List ℕ)
        (answer : TheAnswer) → received_signed s users from bytes ≡ short_term.answered answer
        → (is_undropped_request s.requires_fingerprint bytes ≡ true) × (answer.to ≡ from) }
    ensures no_credentials { (s : Responding) (from : SocketAddr) (bytes : List ℕ)
        (answer : TheAnswer) → received_openly s from bytes ≡ openly.answered answer
        → (is_undropped_request s.requires_fingerprint bytes ≡ true) × (answer.to ≡ from) }
{}

/// If a request of any method from an accepted client has a comprehension-required attribute that
/// the server does not understand, the server answers it with a 420 (RFC 8489, section 6.3.1). This
/// holds for servers with long-term credentials (`long_term`), with short-term credentials
/// (`short_term`), and without credentials, which accept everybody (`no_credentials`).
pub fn unknown_attributes_are_refused()
    ensures long_term { (s : Settings) (realm : Realm) (from : SocketAddr) (now : ℕ)
        (bytes : List ℕ) (client : ClientSeen)
        → drop_reason s.requires_fingerprint bytes ≡ None → class_in bytes ≡ MessageClass.Request
        → IsAcceptedAt s realm from now (reading_of bytes) client
        → is_empty (unknown_types s.known bytes) ≡ false
        → (answer : TheAnswer) × (received_by s realm from now bytes ≡ answered answer)
        × (answer.refusal ≡ Some refused.UnknownAttribute) }
    ensures short_term { (s : Responding) (users : Keys) (from : SocketAddr) (bytes : List ℕ)
        (signer : Signer)
        → drop_reason s.requires_fingerprint bytes ≡ None → class_in bytes ≡ MessageClass.Request
        → IsSignedBy users bytes signer → is_empty (unknown_types s.known bytes) ≡ false
        → (answer : TheAnswer) × (received_signed s users from bytes ≡ short_term.answered answer)
        × (answer.refusal ≡ Some refused.UnknownAttribute) }
    ensures no_credentials { (s : Responding) (from : SocketAddr) (bytes : List ℕ)
        → drop_reason s.requires_fingerprint bytes ≡ None → class_in bytes ≡ MessageClass.Request
        → is_empty (unknown_types s.known bytes) ≡ false
        → (answer : TheAnswer) × (received_openly s from bytes ≡ openly.answered answer)
        × (answer.refusal ≡ Some refused.UnknownAttribute) }
{}

/// If the server understands all comprehension-required attributes of a request from an accepted
/// client, it returns the request to its caller, unless it is a Binding request that the server
/// answers itself (RFC 8489, section 6.3.1). The request is returned unchanged, as a request of
/// that client, and its reply goes to the address that the request came from. This holds for
/// servers with long-term credentials (`long_term`), with short-term credentials (`short_term`),
/// and without credentials, which accept everybody (`no_credentials`).
pub fn understood_requests_are_handed_out()
    ensures long_term { (s : Settings) (realm : Realm) (from : SocketAddr) (now : ℕ)
        (bytes : List ℕ) (client : ClientSeen)
        → drop_reason s.requires_fingerprint bytes ≡ None → class_in bytes ≡ MessageClass.Request
        → IsAcceptedAt s realm from now (reading_of bytes) client
        → is_empty (unknown_types s.known bytes) ≡ true
        → (s.answers_binding && is_binding bytes) ≡ false
        → (request : AcceptedRequest) × (received_by s realm from now bytes ≡ requested request)
        × (request.message ≡ bytes) × (request.client ≡ client) × (request.reply.to ≡ from) }
    ensures short_term { (s : Responding) (users : Keys) (from : SocketAddr) (bytes : List ℕ)
        (signer : Signer)
        → drop_reason s.requires_fingerprint bytes ≡ None → class_in bytes ≡ MessageClass.Request
        → IsSignedBy users bytes signer → is_empty (unknown_types s.known bytes) ≡ true
        → (s.answers_binding && is_binding bytes) ≡ false
        → (request : AcceptedRequest)
        × (received_signed s users from bytes ≡ short_term.requested request)
        × (request.message ≡ bytes) × (request.client ≡ signer.client)
        × (request.reply.to ≡ from) }
    ensures no_credentials { (s : Responding) (from : SocketAddr) (bytes : List ℕ)
        → drop_reason s.requires_fingerprint bytes ≡ None → class_in bytes ≡ MessageClass.Request
        → is_empty (unknown_types s.known bytes) ≡ true
        → (s.answers_binding && is_binding bytes) ≡ false
        → (request : OpenRequest) × (received_openly s from bytes ≡ openly.requested request)
        × (request.message ≡ bytes) × (request.reply.to ≡ from) }
{}

/// A server returns an indication to its caller if it understands all comprehension-required
/// attributes of the indication. Otherwise it drops the indication (RFC 8489, section 6.3.2). This
/// holds for every indication at a server with long-term credentials, because they do not protect
/// indications (section 9.2; `long_term`), and at a server without credentials (`no_credentials`).
/// At a server with short-term credentials, it holds for every indication that a user has signed
/// (`short_term`).
pub fn understood_indications_are_handed_out()
    ensures long_term { (s : Settings) (realm : Realm) (from : SocketAddr) (now : ℕ)
        (bytes : List ℕ)
        → drop_reason s.requires_fingerprint bytes ≡ None
        → class_in bytes ≡ MessageClass.Indication
        → ((is_empty (unknown_types s.known bytes) ≡ true)
        → received_by s realm from now bytes ≡ indicated bytes)
        × ((is_empty (unknown_types s.known bytes) ≡ false)
        → received_by s realm from now bytes ≡ dropped UnknownAttribute) }
    ensures short_term { (s : Responding) (users : Keys) (from : SocketAddr) (bytes : List ℕ)
        (signer : Signer)
        → drop_reason s.requires_fingerprint bytes ≡ None
        → class_in bytes ≡ MessageClass.Indication → IsSignedBy users bytes signer
        → ((is_empty (unknown_types s.known bytes) ≡ true)
        → received_signed s users from bytes
        ≡ short_term.indicated (record { message = bytes; client = signer.client }))
        × ((is_empty (unknown_types s.known bytes) ≡ false)
        → received_signed s users from bytes ≡ short_term.dropped UnknownAttribute) }
    ensures no_credentials { (s : Responding) (from : SocketAddr) (bytes : List ℕ)
        → drop_reason s.requires_fingerprint bytes ≡ None
        → class_in bytes ≡ MessageClass.Indication
        → ((is_empty (unknown_types s.known bytes) ≡ true)
        → received_openly s from bytes ≡ openly.indicated bytes)
        × ((is_empty (unknown_types s.known bytes) ≡ false)
        → received_openly s from bytes ≡ openly.dropped UnknownAttribute) }
{}
