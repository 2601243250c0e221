//! Laws about the definitions that the contracts of this crate cite. They do nothing when they run.
ghost use Rattle.std.specs.Prelude.{map as list_map, ◌↔◌};
ghost use Rattle.std.specs.Prelude.{◌≡◌, ◌≤◌, ◌||◌, ℕ, ◌+◌, Bool, true};
ghost use Rattle.std.specs.Prelude.{false, List, length, Ok, Err, Option};
ghost use Rattle.std.specs.Prelude.{Some, None, IsOk, ◌⊎◌, nat_le};
ghost use Rattle.std.specs.Prelude.{nat_lt};
ghost use Rattle.std.specs.Option.{IsSome, IsSomeAnd};
ghost use Rattle.std.specs.FinMap as map;
ghost use Rattle.std.specs.declared.net.socket_addr.SocketAddr.{SocketAddr};
ghost use Rattle.stun_base.specs.Credentials.{NameAndPassword};
ghost use Rattle.stun_base.specs.Moments.{moment_after};
ghost use Rattle.stun_base.specs.MessageType.{is_response};
ghost use Rattle.stun_base.specs.declared.wire.message_type.MessageClass.{MessageClass};
ghost use Rattle.stun_types.specs.Message.{LENGTH_LIMIT};
ghost use Rattle.stun_types.specs.Tail.{AgreeUpToIntegrity};
ghost use Rattle.stun_types.specs.Writing.{IsOpen};
ghost use Rattle.stun_judging.specs.declared.stored_keys.StoredKeys.{StoredKeys};
ghost use Rattle.stun_judging.specs.Additions.{Page, added_all};
ghost use Rattle.stun_auth.specs.Client.{ClientSettings, ClientState};
ghost use Rattle.stun_auth.specs.ClientSigning.{client_additions};
ghost use Rattle.stun_auth.specs.ClientStep.{client_step};
ghost use Rattle.stun_auth.specs.Datagrams.{TimedDatagram, Derivation, JudgesEachDatagram};
ghost use Rattle.stun_auth.specs.Datagrams.{judged_datagram};
ghost use Rattle.stun_auth.specs.Epochs.{IsAcceptedIn, judged_in};
ghost use Rattle.stun_auth.specs.Forgetting.{after_forgetting, place_kept, without_place};
ghost use Rattle.stun_auth.specs.ForgettingSteps.{after_steps};
ghost use Rattle.stun_judging.specs.Named.{AreKeysOf, just};
ghost use Rattle.stun_auth.specs.Handed.{judged_by, meant_user, named_at, with_just, with_users};
ghost use Rattle.stun_auth.specs.Judged.{offered_after, verdict_by_nonce};
ghost use Rattle.stun_judging.specs.Nonces.{nonce_of};
ghost use Rattle.stun_judging.specs.OtherUsers.{MeansAnother, VerifiesUnderNone, with_secret_for};
ghost use Rattle.stun_auth.specs.Places.{with_change, with_client};
ghost use Rattle.stun_judging.specs.Reading.{Reading, reading_of};
ghost use Rattle.stun_auth.specs.Reasons.{ServerRefusal};
ghost use Rattle.stun_judging.specs.Registered.{user_by_keys, UserSecret, user_by_password};
ghost use Rattle.stun_judging.specs.Verdict.{ClientSeen};
ghost use Rattle.stun_auth.specs.Seen.{PlaceSeen};
ghost use Rattle.stun_auth.specs.Server.{Sight, has_current_nonce};
ghost use Rattle.stun_auth.specs.ServerSigning.{after_signing, server_additions, server_signed};
ghost use Rattle.stun_auth.specs.ShortTerm.{Secret, short_term_answer};
ghost use Rattle.stun_judging.specs.Signed.{Added, IsBuilt, IsSignable, IsSmall, IsText, ReadsAs};
ghost use Rattle.stun_judging.specs.Signed.{additions_of};
ghost use Rattle.stun_auth.specs.Signed.{IsSignableAtClient};
ghost use Rattle.stun_auth.specs.Signed.{IsSignableAtServer, added_by_client, added_by_server};
ghost use Rattle.stun_auth.specs.Validation.{ChangesNothing, ServerSeen};
ghost use Rattle.stun_auth.specs.Validation.{ValidatesAccepted, after_validation, answer};
ghost use Rattle.stun_auth.specs.Validation.{answer_to, draws, needs_nonce, place_after, sight};
ghost use Rattle.stun_auth.specs.Validation.{verdict_at, with_accepted};

/// Nothing after the integrity attribute with which a message is verified has an effect. For two
/// messages that are equal up to the end of this attribute, each server (`server`) and client
/// (`client`) returns the same result, and is then in the same state. The result is also the same
/// under each short-term password (`short_term`).
pub fn what_follows_integrity_changes_nothing()
    ensures server { (s : ServerSeen) (from : SocketAddr) (now : ℕ) (words bytes others : List ℕ)
        → AgreeUpToIntegrity bytes others
        → (answer (sight s from) now words (reading_of bytes)
        ≡ answer (sight s from) now words (reading_of others))
        × (after_validation s from now words (reading_of bytes)
        ≡ after_validation s from now words (reading_of others)) }
    ensures client { (settings : ClientSettings) (state : ClientState) (bytes others : List ℕ)
        → AgreeUpToIntegrity bytes others
        → client_step settings state (reading_of bytes)
        ≡ client_step settings state (reading_of others) }
    ensures short_term { (secret : Option Secret) (bytes others : List ℕ)
        → AgreeUpToIntegrity bytes others
        → short_term_answer secret bytes ≡ short_term_answer secret others }
{
    stun_judging::laws::what_follows_integrity_is_not_read();
    stun_types::laws::what_follows_integrity_is_hidden();
}

/// A request or an indication is `Validated` with an algorithm if and only if it is accepted with
/// that algorithm (RFC 8489, section 9.2.4).
pub fn accepted_messages_are_validated()
    ensures { (s : Sight) (now : ℕ) (words : List ℕ) (r : Reading)
        → ValidatesAccepted s now words r (answer s now words r) }
{}

/// A server is unchanged after a response, and after a message that has an integrity attribute but
/// lacks REALM, NONCE or a user name (`needless`). While the nonce of an address is current, the
/// server is also unchanged after a refused message from that address (`refused`), and after an
/// accepted message of the client that the address already has (`repeated`).
pub fn messages_that_change_nothing()
    ensures needless { (s : Sight) (now : ℕ) (words : List ℕ) (r : Reading) → needs_nonce r ≡ false
        → ChangesNothing s now words r }
    ensures refused { (s : Sight) (now : ℕ) (words : List ℕ) (r : Reading) (place : PlaceSeen)
        (e : ServerRefusal) → s.place ≡ Some place → has_current_nonce now (Some place) ≡ true
        → verdict_at s place r ≡ Err e → ChangesNothing s now words r }
    ensures repeated { (s : Sight) (now : ℕ) (words : List ℕ) (r : Reading) (place : PlaceSeen)
        (client : ClientSeen) → s.place ≡ Some place → has_current_nonce now (Some place) ≡ true
        → verdict_at s place r ≡ Ok client → place.client ≡ Some client
        → ChangesNothing s now words r }
{}

/// If all algorithms were offered to an address, the verdict of `Realm::judge` under the current
/// nonce of the address determines what `validate_incoming_message` returns for a request or an
/// indication (`answer`), and which client the address has afterwards (`place`).
pub fn judging_is_validating()
    ensures answer { (s : ServerSeen) (from : SocketAddr) (now : ℕ) (words : List ℕ) (r : Reading)
        (place : PlaceSeen) → map.get s.places from ≡ Some place
        → has_current_nonce now (Some place) ≡ true
        → place.offered ≡ Some s.registered.algorithms → is_response r.class ≡ false
        → answer (sight s from) now words r ≡ answer_to (verdict_by_nonce s place.nonce r) }
    ensures place { (s : ServerSeen) (from : SocketAddr) (now : ℕ) (words : List ℕ) (r : Reading)
        (place : PlaceSeen) → map.get s.places from ≡ Some place
        → has_current_nonce now (Some place) ≡ true
        → place.offered ≡ Some s.registered.algorithms → needs_nonce r ≡ true
        → place_after (sight s from) now words r
        ≡ Some (with_accepted place (verdict_by_nonce s place.nonce r)) }
{}

/// One call of `Realm::judge` replaces four calls for an address without a record: validate the
/// message with some random numbers, sign a response, validate the message again before the nonce
/// expires, and forget the address. If the message needs a nonce, the second validation returns the
/// verdict that `Realm::judge` returns under the nonce made from these numbers (`answer`). After
/// the four calls, the server is as it was before them (`forgotten`).
pub fn judging_is_a_run_of_calls()
    ensures answer { (s : ServerSeen) (from : SocketAddr) (now later : ℕ) (words others : List ℕ)
        (r : Reading) → map.get s.places from ≡ None → needs_nonce r ≡ true
        → nat_le later (moment_after now s.expiry) ≡ true
        → answer (sight (offered_after s from now words r) from) later others r
        ≡ answer_to (verdict_by_nonce s (nonce_of s.registered.algorithms s.feature words) r) }
    ensures forgotten { (s : ServerSeen) (from : SocketAddr) (now later : ℕ) (words others : List ℕ)
        (r : Reading) → map.get s.places from ≡ None
        → without_place (after_validation (offered_after s from now words r) from later others r)
        from ≡ s }
{}

/// If each epoch has its own nonce, a client is accepted in an epoch if and only if it is accepted
/// under the nonce of that epoch or under the nonce of the epoch before. The verdict depends
/// neither on a record of an address nor on earlier messages.
pub fn two_epochs_accept_what_one_does()
    ensures { (s : ServerSeen) (words : ℕ → List ℕ) (epoch : ℕ) (r : Reading)
        (client : ClientSeen)
        → (judged_in s words epoch r ≡ Ok client) ↔ IsAcceptedIn s words epoch r client }
{}

/// Each datagram of a list is judged by itself, however the random numbers for nonces are derived
/// from the address and the epoch. So its verdict depends only on the datagram, its source, the
/// time, and the settings and the users of the server.
pub fn datagrams_are_judged_alone()
    ensures { (s : ServerSeen) (how : Derivation) (datagrams : List TimedDatagram)
        → JudgesEachDatagram s how datagrams (list_map (judged_datagram s how) datagrams) }
{}

/// The answer to a message depends only on the user whose key the message must be signed with. A
/// server that has only this user gives the same answer as the server that has all users
/// (`answer`), uses the same number of random numbers (`source`), and stores the same record
/// (`state`). If this user is not registered, this holds for a server without any users.
pub fn the_named_user_is_enough()
    ensures answer { (s : ServerSeen) (from : SocketAddr) (now : ℕ) (words : List ℕ) (r : Reading)
        → answer (sight (with_users s (just s.registered (meant_user s from r))) from) now words r
        ≡ answer (sight s from) now words r }
    ensures state { (s : ServerSeen) (from : SocketAddr) (now : ℕ) (words : List ℕ) (r : Reading)
        → after_validation (with_users s (just s.registered (meant_user s from r))) from now words r
        ≡ with_users (after_validation s from now words r)
        (just s.registered (meant_user s from r)) }
    ensures source { (s : ServerSeen) (from : SocketAddr) (now : ℕ) (r : Reading)
        → draws (sight (with_users s (just s.registered (meant_user s from r))) from) now r
        ≡ draws (sight s from) now r }
{}

/// A user who is passed with stored keys is treated like a user who is passed with a password, if
/// the names are the same and the keys are made from the password for the server's realm: messages
/// are judged (`answer`, `state`, `source`) and signed (`signed`, `additions`, `left`) in the same
/// way. A key for an algorithm that the server does not support may have any value.
pub fn stored_keys_are_as_their_password()
    ensures answer { (s : ServerSeen) (user : NameAndPassword) (keys : StoredKeys)
        (from : SocketAddr) (now : ℕ) (words : List ℕ) (r : Reading)
        → AreKeysOf s.registered user keys
        → answer (sight (with_just s (user_by_keys user.username keys)) from) now words r
        ≡ answer (sight (with_just s (user_by_password user)) from) now words r }
    ensures state { (s : ServerSeen) (user : NameAndPassword) (keys : StoredKeys)
        (from : SocketAddr) (now : ℕ) (words : List ℕ) (r : Reading)
        → AreKeysOf s.registered user keys
        → with_users (after_validation (with_just s (user_by_keys user.username keys)) from now
        words r) s.registered
        ≡ with_users (after_validation (with_just s (user_by_password user)) from now
        words r) s.registered }
    ensures source { (s : ServerSeen) (user : NameAndPassword) (keys : StoredKeys)
        (from : SocketAddr) (now : ℕ) (r : Reading)
        → draws (sight (with_just s (user_by_keys user.username keys)) from) now r
        ≡ draws (sight (with_just s (user_by_password user)) from) now r }
    ensures signed { (s : ServerSeen) (user : NameAndPassword) (keys : StoredKeys)
        (to : SocketAddr) (response : Bool) (page : Page)
        → AreKeysOf s.registered user keys
        → server_signed (sight (with_just s (user_by_keys user.username keys)) to) response page
        ≡ server_signed (sight (with_just s (user_by_password user)) to) response page }
    ensures additions { (s : ServerSeen) (user : NameAndPassword) (keys : StoredKeys)
        (to : SocketAddr) (response : Bool)
        → AreKeysOf s.registered user keys
        → server_additions (sight (with_just s (user_by_keys user.username keys)) to) response
        ≡ server_additions (sight (with_just s (user_by_password user)) to) response }
    ensures left { (s : ServerSeen) (user : NameAndPassword) (keys : StoredKeys)
        (to : SocketAddr) (response : Bool)
        → with_users (after_signing (with_just s (user_by_keys user.username keys)) to
        response) s.registered
        ≡ with_users (after_signing (with_just s (user_by_password user)) to
        response) s.registered }
{}

/// Users do not affect each other. If a user is added or removed, or gets a new password or new
/// keys, nothing changes for the other users. Each message that refers to another user gets the
/// same answer (`answer`), uses the same number of random numbers (`source`), and leaves the same
/// record (`state`). Messages to the address of another user are signed as before (`signed`).
///
/// A message refers to another user if it has another name, or a hash that is not the hash of this
/// user's name. A response refers to the client of its address.
pub fn users_do_not_meet()
    ensures answer { (s : ServerSeen) (name : List ℕ) (secret : Option UserSecret)
        (from : SocketAddr) (now : ℕ) (words : List ℕ) (r : Reading)
        → MeansAnother s.registered name (judged_by (sight s from) r)
        → answer (sight (with_users s (with_secret_for s.registered name secret)) from) now words r
        ≡ answer (sight s from) now words r }
    ensures state { (s : ServerSeen) (name : List ℕ) (secret : Option UserSecret)
        (from : SocketAddr) (now : ℕ) (words : List ℕ) (r : Reading)
        → MeansAnother s.registered name (judged_by (sight s from) r)
        → after_validation (with_users s (with_secret_for s.registered name secret)) from now
        words r
        ≡ with_users (after_validation s from now words r)
        (with_secret_for s.registered name secret) }
    ensures source { (s : ServerSeen) (name : List ℕ) (secret : Option UserSecret)
        (from : SocketAddr) (now : ℕ) (r : Reading)
        → draws (sight (with_users s (with_secret_for s.registered name secret)) from) now r
        ≡ draws (sight s from) now r }
    ensures signed { (s : ServerSeen) (name : List ℕ) (secret : Option UserSecret)
        (to : SocketAddr) (response : Bool) (page : Page)
        → MeansAnother s.registered name (named_at (map.get s.places to))
        → server_signed (sight (with_users s (with_secret_for s.registered name secret)) to)
        response page
        ≡ server_signed (sight s to) response page }
{}

/// An answer reveals nothing about a password. Take two servers that differ only in the password or
/// keys of one user, and a message whose signature is valid under neither of them. Both servers
/// give it the same answer (`answer`), store the same record of its address (`state`), and use the
/// same number of random numbers (`source`).
///
/// The law says nothing about the time that an answer takes.
pub fn answers_tell_no_password()
    ensures answer { (s : ServerSeen) (name : List ℕ) (one other : UserSecret) (r : Reading)
        → VerifiesUnderNone s.registered name one r → VerifiesUnderNone s.registered name other r
        → (from : SocketAddr) (now : ℕ) (words : List ℕ)
        → answer (sight (with_users s (with_secret_for s.registered name (Some one))) from) now
        words r
        ≡ answer (sight (with_users s (with_secret_for s.registered name (Some other))) from) now
        words r }
    ensures state { (s : ServerSeen) (name : List ℕ) (one other : UserSecret) (r : Reading)
        → VerifiesUnderNone s.registered name one r → VerifiesUnderNone s.registered name other r
        → (from : SocketAddr) (now : ℕ) (words : List ℕ)
        → with_users (after_validation (with_users s
        (with_secret_for s.registered name (Some one))) from now words r) s.registered
        ≡ with_users (after_validation (with_users s
        (with_secret_for s.registered name (Some other))) from now words r) s.registered }
    ensures source { (s : ServerSeen) (name : List ℕ) (one other : UserSecret)
        (from : SocketAddr) (now : ℕ) (r : Reading)
        → draws (sight (with_users s (with_secret_for s.registered name (Some one))) from) now r
        ≡ draws (sight (with_users s (with_secret_for s.registered name (Some other))) from)
        now r }
{}

/// If a server validates messages only while it has fewer records than a bound, or has a record of
/// the message's address, it never has more records than this bound (`bound`). A message adds at
/// most one record (`grows`). Signing, removing a client and forgetting an address add none.
pub fn addresses_stay_within_a_bound()
    ensures bound { (bound : ℕ) (s : ServerSeen) (from : SocketAddr) (now : ℕ) (words : List ℕ)
        (r : Reading) → map.len s.places ≤ bound
        → (nat_lt (map.len s.places) bound || map.contains_key s.places from) ≡ true
        → map.len (after_validation s from now words r).places ≤ bound }
    ensures grows { (s : ServerSeen) (from : SocketAddr) (now : ℕ) (words : List ℕ) (r : Reading)
        → map.len (after_validation s from now words r).places ≤ map.len s.places + 1 }
    ensures signing { (s : ServerSeen) (to : SocketAddr)
        → map.len (after_signing s to true).places ≡ map.len s.places }
    ensures client { (s : ServerSeen) (address : SocketAddr) (client : Option ClientSeen)
        → map.len (with_change s.places address (with_client client)) ≡ map.len s.places }
    ensures forgotten { (s : ServerSeen) (address : SocketAddr)
        → map.len (without_place s address).places ≤ map.len s.places }
{}

/// `forget_expired` decides about each record separately (`place`). Afterwards, each remaining
/// record has a client, or a nonce that expires at `now` or later (`left`). Every record with such
/// a client (`client`) or nonce (`current`) remains, and is unchanged.
pub fn expired_nonces_are_forgotten()
    ensures place { (s : ServerSeen) (now : ℕ) (a : SocketAddr) →
        map.get (after_forgetting s now).places a ≡ place_kept now (map.get s.places a) }
    ensures left { (s : ServerSeen) (now : ℕ) (a : SocketAddr) (place : PlaceSeen) →
        map.get (after_forgetting s now).places a ≡ Some place
        → IsSome place.client ⊎ (now ≤ place.expires) }
    ensures client { (s : ServerSeen) (now : ℕ) (a : SocketAddr) (place : PlaceSeen) →
        map.get s.places a ≡ Some place → IsSome place.client
        → map.get (after_forgetting s now).places a ≡ Some place }
    ensures current { (s : ServerSeen) (now : ℕ) (a : SocketAddr) (place : PlaceSeen) →
        map.get s.places a ≡ Some place → now ≤ place.expires
        → map.get (after_forgetting s now).places a ≡ Some place }
{}

/// Calls of `forget_expired_within` that continue one another leave the server in the same state as
/// one call of `forget_expired`, once they have visited the last address.
pub fn steps_forget_what_has_expired()
    ensures { (s : ServerSeen) (now : ℕ) (sizes : List ℕ) (left : ServerSeen)
        → after_steps s now None sizes ≡ Some left → left ≡ after_forgetting s now }
{}

/// `added_by_client` gives the attributes that a client adds (`client`). `added_by_server` gives
/// those that a server adds (`server`), and has a value if the server signs successfully (`there`).
pub fn sides_add_by_attribute()
    ensures client { (request : Bool) (state : ClientState)
        → client_additions request state ≡ additions_of (added_by_client request state) }
    ensures server { (s : Sight) (response : Bool) (page : Page) (a : Added)
        → added_by_server s response ≡ Some a
        → server_signed s response page ≡ added_all (additions_of a) page }
    ensures there { (s : Sight) (response : Bool) (page : Page)
        → IsOk (server_signed s response page) → IsSome (added_by_server s response) }
{}

/// If a message is signable (`IsSignable`), a client and a server can sign it: signing fails only
/// if an allocation fails.
pub fn sides_sign_what_is_signable()
    ensures client { (request : Bool) (state : ClientState) (message : List ℕ) (room : ℕ)
        → IsSignable (added_by_client request state) message room
        → IsOk (added_all (client_additions request state)
        (record { bytes = message; room = room })) }
    ensures server { (s : Sight) (response : Bool) (message : List ℕ) (room : ℕ)
        → IsSomeAnd (added_by_server s response) (λ a. IsSignable a message room)
        → IsOk (server_signed s response (record { bytes = message; room = room })) }
{
    stun_judging::laws::signing_succeeds_with_room();
    sides_add_by_attribute();
}

/// If a client or a server can sign a message of a valid length without a signature or FINGERPRINT
/// (`IsOpen`), `sign_outgoing_message_unchecked` may also sign it, in a writer with the same room.
pub fn what_was_signed_may_be_signed()
    ensures client { (request : Bool) (state : ClientState) (message : List ℕ) (room : ℕ)
        → IsOpen message → length message ≤ LENGTH_LIMIT
        → IsOk (added_all (client_additions request state)
        (record { bytes = message; room = room })) → IsSignableAtClient request state message room }
    ensures server { (s : Sight) (response : Bool) (message : List ℕ) (room : ℕ) → IsOpen message
        → length message ≤ LENGTH_LIMIT
        → IsOk (server_signed s response (record { bytes = message; room = room }))
        → IsSignableAtServer s response message room }
{
    stun_types::laws::writing_adds_one_attribute();
    stun_types::laws::signed_message_stands();
    sides_add_by_attribute();
}

/// Signing does not change which attributes a server adds to later messages to the address. So a
/// message that was signed once may be signed again with `sign_outgoing_message_unchecked`.
pub fn signing_leaves_what_is_added()
    ensures { (s : ServerSeen) (to : SocketAddr) (response later : Bool)
        → added_by_server (sight (after_signing s to response) to) later
        ≡ added_by_server (sight s to) later }
{}

/// A client and a server can sign a message that was built without attributes or with an error code
/// alone, if what they add is within its limits (`IsSmall`) and there is room for 2,148 bytes.
pub fn sides_sign_with_room()
    ensures client { (request : Bool) (state : ClientState) (class : MessageClass)
        (error : Option ℕ) (message : List ℕ) (room : ℕ) → IsBuilt message class error
        → IsSmall (added_by_client request state) → 2148 ≤ room
        → IsOk (added_all (client_additions request state)
        (record { bytes = message; room = room })) }
    ensures server { (s : Sight) (response : Bool) (a : Added) (class : MessageClass)
        (error : Option ℕ) (message : List ℕ) (room : ℕ) → IsBuilt message class error
        → added_by_server s response ≡ Some a → IsSmall a → 2148 ≤ room
        → IsOk (server_signed s response (record { bytes = message; room = room })) }
{
    stun_judging::laws::signing_succeeds_with_room();
    sides_add_by_attribute();
}

/// A reader of a built message (`IsBuilt`) that a client signed finds its class, its error code,
/// and the attributes that the client added for the server's challenge, if their texts are UTF-8.
pub fn client_messages_are_read()
    ensures { (request : Bool) (state : ClientState) (class : MessageClass) (error : Option ℕ)
        (message : List ℕ) (room : ℕ) (page : Page) → IsBuilt message class error
        → IsText (added_by_client request state)
        → added_all (client_additions request state) (record { bytes = message; room = room })
        ≡ Ok page
        → ReadsAs class error (added_by_client request state) (reading_of page.bytes) }
{
    stun_judging::laws::signed_messages_are_read();
    sides_add_by_attribute();
}

/// A reader of a built message (`IsBuilt`) that a server signed finds its class, its error code,
/// the challenge of the address, and the signature under the key of the address's client.
pub fn server_messages_are_read()
    ensures { (s : Sight) (response : Bool) (a : Added) (class : MessageClass) (error : Option ℕ)
        (message : List ℕ) (room : ℕ) (page : Page) → IsBuilt message class error
        → added_by_server s response ≡ Some a → IsText a
        → server_signed s response (record { bytes = message; room = room }) ≡ Ok page
        → ReadsAs class error a (reading_of page.bytes) }
{
    stun_judging::laws::signed_messages_are_read();
    sides_add_by_attribute();
}
