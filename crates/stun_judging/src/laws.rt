//! Laws about the definitions that the contracts of this crate cite. They do nothing when they run.
ghost use Rattle.std.specs.Prelude.{map as list_map};
ghost use Rattle.std.specs.Prelude.{◌≡◌, ◌≢◌, ◌<◌, ◌≤◌, ◌^◌, ◌||◌, ℕ, ◌+◌, true};
ghost use Rattle.std.specs.Prelude.{false, List, [], ◌∷◌, ◌++◌, length, Ok, Option};
ghost use Rattle.std.specs.Prelude.{Some, None, if◌then◌else◌, IsUtf8};
ghost use Rattle.std.specs.Prelude.{◌%◌};
ghost use Rattle.std.specs.List.{AllByRecursion};
ghost use Rattle.std.specs.Option.{IsSome, is_some, option_and_then};
ghost use Rattle.stun_base.specs.Credentials.{NameAndPassword};
ghost use Rattle.stun_base.specs.Keys.{long_term_key};
ghost use Rattle.stun_base.specs.MessageType.{class_of, class_in, is_error};
ghost use Rattle.stun_base.specs.declared.keys.algorithm.IntegrityAlgorithm.{IntegrityAlgorithm};
ghost use Rattle.stun_base.specs.declared.keys.algorithm.IntegrityAlgorithm.TheVariants.{Sha256};
ghost use Rattle.stun_base.specs.declared.wire.message_type.MessageClass.{MessageClass};
ghost use Rattle.stun_types.specs.ErrorCode.{CodeAndReason, IsError};
ghost use Rattle.stun_types.specs.Grammar.{spelled_message};
ghost use Rattle.stun_types.specs.Tail.{AgreeUpToIntegrity};
ghost use Rattle.stun_types.specs.Writing.{IsOpen};
ghost use Rattle.stun_judging.specs.declared.algorithm_set.AlgorithmSet.{AlgorithmSet};
ghost use Rattle.stun_judging.specs.declared.feature.Feature.{Feature as TheFeature};
ghost use Rattle.stun_judging.specs.declared.stored_keys.StoredKeys.{StoredKeys};
ghost use Rattle.stun_judging.specs.Additions.{Addition, Page, added_all, growth};
ghost use Rattle.stun_judging.specs.Algorithms.{contains};
ghost use Rattle.stun_judging.specs.Feature.{is_possible};
ghost use Rattle.stun_judging.specs.Found.{ClaimSeen, claim_of, found_key, found_verdict};
ghost use Rattle.stun_judging.specs.Named.{just, named_in, user_of};
ghost use Rattle.stun_judging.specs.Joined.{HasAdded, IsReadBack, IsTyped, page_after};
ghost use Rattle.stun_judging.specs.Nonces.{asks_for_algorithms, asks_for_userhash};
ghost use Rattle.stun_judging.specs.Nonces.{begins_with_cookie, letter};
ghost use Rattle.stun_judging.specs.Nonces.{nonce_of, security_bits, spelled_bits};
ghost use Rattle.stun_judging.specs.OtherUsers.{MeansAnother, VerifiesUnderNone, with_secret_for};
ghost use Rattle.stun_judging.specs.Reading.{Reading, error_code, reading_of, verified_under};
ghost use Rattle.stun_judging.specs.Registered.{Registered, RegisteredUser, key_at, UserSecret};
ghost use Rattle.stun_judging.specs.Registered.{at_realm, stored_key, with_user};
ghost use Rattle.stun_judging.specs.Registered.{with_user_by_keys};
ghost use Rattle.stun_judging.specs.Registered.{without_user};
ghost use Rattle.stun_judging.specs.Verdict.{their_nonce, verdict, verdict_offering};
ghost use Rattle.stun_judging.specs.Signed.{Added, HasRoomFor, IsBuilt, IsSignable, IsSmall};
ghost use Rattle.stun_judging.specs.Signed.{IsText, IsUnsigned, IsWithinLimits, ReadsAs};
ghost use Rattle.stun_judging.specs.Signed.{additions_of, error_attribute};

/// If attributes are added to a message that has neither an integrity attribute nor FINGERPRINT
/// (`IsOpen`), a reader finds the new attributes after the attributes that the message had, which
/// stay visible (`added`). If a signature was added last, it is valid under its key (`read`).
pub fn additions_are_read_back()
    ensures added { (list : List Addition) (message : List ℕ) (room : ℕ) (page : Page)
        → IsOpen message → AllByRecursion IsTyped list
        → added_all list (record { bytes = message; room = room }) ≡ Ok page
        → HasAdded message list page.bytes }
    ensures read { (list : List Addition) (message : List ℕ) (room : ℕ) (page : Page)
        → IsOpen message → AllByRecursion IsTyped list
        → added_all list (record { bytes = message; room = room }) ≡ Ok page
        → IsReadBack message list page.bytes }
{
    stun_types::laws::writing_adds_one_attribute();
    stun_types::laws::signed_message_stands();
}

/// A reader of a signed message finds its class, its error code, and exactly the attributes that
/// signing added, with a valid signature. Premises: the added texts are UTF-8, and the message had
/// no FINGERPRINT and no attribute of a type that signing adds (`IsUnsigned`).
pub fn signed_messages_are_read()
    ensures { (a : Added) (message : List ℕ) (room : ℕ) (page : Page) → IsUnsigned message
        → IsText a
        → added_all (additions_of a) (record { bytes = message; room = room }) ≡ Ok page
        → ReadsAs (class_in message) (error_code message) a (reading_of page.bytes) }
{
    stun_types::laws::writing_adds_one_attribute();
    stun_types::laws::signed_message_stands();
}

/// Nothing is read after the integrity attribute with which a message is verified: two messages
/// that are equal up to the end of this attribute have the same reading.
pub fn what_follows_integrity_is_not_read()
    ensures { (bytes others : List ℕ) → AgreeUpToIntegrity bytes others
        → reading_of bytes ≡ reading_of others }
{
    stun_types::laws::what_follows_integrity_is_hidden();
}

/// The verdict on a message depends only on the user whom the message names. A realm that has only
/// this user judges the message, under each nonce and offer, like the realm that has all users
/// (`verdict`). If this user is not registered, a realm without any users returns the same verdict.
/// So `judge_of` returns with this user of a table what `judge_among` returns with the table
/// (`offering`).
pub fn the_named_user_is_enough_to_judge()
    ensures verdict { (users : Registered) (feature : TheFeature) (nonce : List ℕ)
        (offered : Option AlgorithmSet) (r : Reading)
        → verdict (just users (option_and_then (user_of users)
        (named_in r.userhash r.username feature))) feature nonce offered r
        ≡ verdict users feature nonce offered r }
    ensures offering { (realm users : Registered) (feature : TheFeature) (nonce : List ℕ)
        (supported : AlgorithmSet) (r : Reading)
        → verdict_offering (at_realm realm (just users (option_and_then (user_of users)
        (named_in r.userhash r.username feature)))) feature nonce supported r
        ≡ verdict_offering (at_realm realm users) feature nonce supported r }
{}

/// `verify_found` judges a message like `judge_of` with a prepared user. It returns the verdict
/// that a realm with only the found user returns under the message's own nonce (`verdict`). So if
/// `verify_found` returns a key, the message is accepted from that user. It returns the agreed
/// algorithm (`algorithm`) with the user's key for this algorithm (`key`), and the signature is
/// valid under this key (`verifies`).
pub fn found_users_are_judged_as_prepared_ones()
    ensures verdict { (users : Registered) (user : RegisteredUser) (feature : TheFeature)
        (bytes : List ℕ) (claim : ClaimSeen) → claim_of users.algorithms feature bytes ≡ Some claim
        → verdict_offering (just users (Some user)) feature (their_nonce (reading_of bytes))
        users.algorithms (reading_of bytes)
        ≡ found_verdict claim user (found_key users claim user) }
    ensures algorithm { (users : Registered) (user : RegisteredUser) (claim : ClaimSeen)
        (found : IntegrityAlgorithm × List ℕ) → found_key users claim user ≡ Some found
        → found.0 ≡ claim.algorithm }
    ensures key { (users : Registered) (user : RegisteredUser) (claim : ClaimSeen)
        (found : IntegrityAlgorithm × List ℕ) → found_key users claim user ≡ Some found
        → key_at (just users (Some user)) user.username found.0 ≡ Some found.1 }
    ensures verifies { (users : Registered) (user : RegisteredUser) (claim : ClaimSeen)
        (found : IntegrityAlgorithm × List ℕ) → found_key users claim user ≡ Some found
        → IsSome (verified_under (reading_of claim.message) found.1) }
{}

/// A user who is added with a password has the long-term key of this name, realm and password for
/// each supported algorithm, and no other key (`added`). A user who is added with stored keys has
/// only the keys for supported algorithms (`by_keys`). A user who is removed has no key
/// (`removed`). Other users keep their keys. `Realm::key` returns these keys.
pub fn users_have_their_keys()
    ensures added { (users : Registered) (user : NameAndPassword) (a : IntegrityAlgorithm)
        → key_at (with_user users user) user.username a
        ≡ (if contains a users.algorithms
        then Some (long_term_key a user.username users.realm user.password) else None) }
    ensures by_keys { (users : Registered) (name : List ℕ) (keys : StoredKeys)
        (a : IntegrityAlgorithm) → key_at (with_user_by_keys users name keys) name a
        ≡ (if contains a users.algorithms then stored_key keys a else None) }
    ensures removed { (users : Registered) (name : List ℕ) (a : IntegrityAlgorithm)
        → key_at (without_user users name) name a ≡ None }
    ensures others_at_adding { (users : Registered) (user : NameAndPassword) (name : List ℕ)
        (a : IntegrityAlgorithm) → name ≢ user.username
        → key_at (with_user users user) name a ≡ key_at users name a }
    ensures others_at_keys { (users : Registered) (added name : List ℕ) (keys : StoredKeys)
        (a : IntegrityAlgorithm) → name ≢ added
        → key_at (with_user_by_keys users added keys) name a ≡ key_at users name a }
    ensures others_at_removal { (users : Registered) (gone name : List ℕ) (a : IntegrityAlgorithm)
        → name ≢ gone → key_at (without_user users gone) name a ≡ key_at users name a }
{}

/// Users do not affect each other. If a user is added or removed, or gets a new password or new
/// keys, each message that refers to another user gets the same verdict.
///
/// A message refers to another user if it has another name, or a hash that is not the hash of this
/// user's name.
pub fn users_are_judged_apart()
    ensures { (users : Registered) (name : List ℕ) (secret : Option UserSecret)
        (feature : TheFeature) (nonce : List ℕ) (offered : Option AlgorithmSet) (r : Reading)
        → MeansAnother users name (named_in r.userhash r.username feature)
        → verdict (with_secret_for users name secret) feature nonce offered r
        ≡ verdict users feature nonce offered r }
{}

/// A refusal reveals nothing about a password. Take two realms that differ only in the password or
/// keys of one user, and a message whose signature is valid under neither of them. It gets the same
/// verdict in both (`judged`). A message with the name in USERNAME and no USERHASH is refused as if
/// the user were not registered (`unregistered`).
///
/// The law says nothing about the time that a verdict takes.
pub fn refusals_tell_no_password()
    ensures judged { (users : Registered) (name : List ℕ) (one other : UserSecret) (r : Reading)
        → VerifiesUnderNone users name one r → VerifiesUnderNone users name other r
        → (feature : TheFeature) (nonce : List ℕ) (offered : Option AlgorithmSet)
        → verdict (with_secret_for users name (Some one)) feature nonce offered r
        ≡ verdict (with_secret_for users name (Some other)) feature nonce offered r }
    ensures unregistered { (users : Registered) (name : List ℕ) (secret : UserSecret)
        (feature : TheFeature) (nonce : List ℕ) (offered : Option AlgorithmSet) (r : Reading)
        → r.userhash ≡ None → r.username ≡ Some name → VerifiesUnderNone users name secret r
        → verdict (with_secret_for users name (Some secret)) feature nonce offered r
        ≡ verdict (with_secret_for users name None) feature nonce offered r }
{}

/// Different random numbers give different nonces. Two nonces of the same settings are equal only
/// if their random numbers are equal modulo 62, the number of letters to choose from (`with_bits`).
/// This also holds for nonces without security bits (`without_bits`), unless their letters begin
/// with the nonce cookie by chance, because the first letter is then replaced.
pub fn nonces_of_different_words_differ()
    ensures with_bits { (set : AlgorithmSet) (feature : TheFeature) (words others : List ℕ)
        → (contains Sha256 set || is_possible feature) ≡ true
        → nonce_of set feature words ≡ nonce_of set feature others
        → list_map (λ word. word % 62) words ≡ list_map (λ word. word % 62) others }
    ensures without_bits { (set : AlgorithmSet) (feature : TheFeature) (words others : List ℕ)
        → (contains Sha256 set || is_possible feature) ≡ false
        → begins_with_cookie (list_map letter words) ≡ false
        → begins_with_cookie (list_map letter others) ≡ false
        → nonce_of set feature words ≡ nonce_of set feature others
        → list_map (λ word. word % 62) words ≡ list_map (λ word. word % 62) others }
{}

/// A message that is built without attributes (`bare`) or with an error code alone (`error`) can be
/// signed. A reader finds in it the class and the error code that it was built with.
pub fn built_messages_can_be_signed()
    ensures bare { (message_type transaction_id : ℕ) → message_type < 2 ^ 14
        → IsBuilt (spelled_message message_type transaction_id []) (class_of message_type) None }
    ensures error { (message_type transaction_id : ℕ) (error : CodeAndReason)
        → message_type < 2 ^ 14 → IsError error
        → IsBuilt (spelled_message message_type transaction_id (error_attribute error ∷ []))
        (class_of message_type) (if is_error
        (class_of message_type) then Some error.code else None) }
{
    stun_types::laws::writing_adds_one_attribute();
    stun_types::laws::signed_message_stands();
}

/// If signing succeeds, the texts that it added are within their limits (`within`). Signing
/// succeeds if the texts are within their limits, and the message and the writer have room for all
/// attributes to add (`succeeds`, `signable`). These attributes take at most 2,148 bytes if at most
/// two algorithms are listed (`growth`), so this room is enough to sign a built message (`room`).
pub fn signing_succeeds_with_room()
    ensures within { (a : Added) (page signed : Page) → added_all (additions_of a) page ≡ Ok signed
        → IsWithinLimits a }
    ensures growth { (a : Added) → IsSmall a → growth (additions_of a) ≤ 2148 }
    ensures room { (a : Added) (message : List ℕ) (room : ℕ) (class : MessageClass)
        (error : Option ℕ) → IsBuilt message class error → IsSmall a → 2148 ≤ room
        → HasRoomFor a message room }
    ensures succeeds { (a : Added) (message : List ℕ) (room : ℕ) → IsUnsigned message
        → IsWithinLimits a → HasRoomFor a message room
        → added_all (additions_of a) (record { bytes = message; room = room })
        ≡ Ok (page_after (additions_of a) (record { bytes = message; room = room })) }
    ensures signable { (a : Added) (message : List ℕ) (room : ℕ) → IsSignable a message room
        → added_all (additions_of a) (record { bytes = message; room = room })
        ≡ Ok (page_after (additions_of a) (record { bytes = message; room = room })) }
{
    stun_types::laws::writing_adds_one_attribute();
    stun_types::laws::signed_message_stands();
}

/// The nonces that a realm makes are UTF-8 (`text`; RFC 8489, section 9.2). They ask for password
/// algorithms if and only if HMAC-SHA256 is supported (`algorithms`), and allow a hashed user name
/// if and only if the realm does (`userhash`). They have security bits if and only if one of these
/// two conditions holds (`there`), and the same bits if the settings are the same (`alike`). Before
/// the letters made from random numbers, a nonce has at most 13 bytes (`short`).
pub fn nonces_ask_for_what_is_supported()
    ensures text { (set : AlgorithmSet) (feature : TheFeature) (words : List ℕ)
        → IsUtf8 (nonce_of set feature words) }
    ensures algorithms { (set : AlgorithmSet) (feature : TheFeature) (words : List ℕ)
        → asks_for_algorithms (nonce_of set feature words) ≡ contains Sha256 set }
    ensures userhash { (set : AlgorithmSet) (feature : TheFeature) (words : List ℕ)
        → asks_for_userhash (nonce_of set feature words) ≡ is_possible feature }
    ensures there { (set : AlgorithmSet) (feature : TheFeature) (words : List ℕ)
        → is_some (security_bits (nonce_of set feature words))
        ≡ (contains Sha256 set || is_possible feature) }
    ensures alike { (set : AlgorithmSet) (feature : TheFeature) (words others : List ℕ)
        → security_bits (nonce_of set feature words) ≡ security_bits (nonce_of set feature others) }
    ensures short { (set : AlgorithmSet) (feature : TheFeature) (words : List ℕ)
        → length (nonce_of set feature words) ≤ 13 + length words }
{}

/// `security_bits` returns the security bits that a nonce begins with, whatever text follows them
/// (RFC 8489, section 9.2).
pub fn security_bits_are_read_back()
    ensures { (a b c : ℕ) (text : List ℕ) → a < 2 ^ 8 → b < 2 ^ 8 → c < 2 ^ 8
        → security_bits (spelled_bits (a ∷ b ∷ c ∷ []) ++ text) ≡ Some (a ∷ b ∷ c ∷ []) }
{}
