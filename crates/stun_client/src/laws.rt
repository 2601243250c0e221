//! Laws about the definitions that the contracts of this crate cite. They do nothing when they run.
ghost use Rattle.std.specs.Option.{IfSome, IsSome};
ghost use Rattle.std.specs.Prelude.{◌≡◌, ◌++◌, ℕ, Bool, List, None, Option, Some, false, true};
ghost use Rattle.stun_base.specs.Credentials.{NameAndPassword};
ghost use Rattle.stun_base.specs.declared.keys.algorithm.IntegrityAlgorithm.{IntegrityAlgorithm};
ghost use Rattle.stun_base.specs.declared.wire.message_type.MessageClass.{MessageClass};
ghost use Rattle.stun_types.specs.Integrity.{verified_algorithm};
ghost use Rattle.stun_judging.specs.Nonces.{front, nonce_of, security_byte};
ghost use Rattle.stun_judging.specs.Reading.{reading_of};
ghost use Rattle.stun_judging.specs.Registered.{Registered};
ghost use Rattle.stun_judging.specs.Signed.{ReadsAs};
ghost use Rattle.stun_judging.specs.declared.feature.Feature.{Feature as TheFeature};
ghost use Rattle.stun_client.specs.Challenge.{Challenge, added_under};
ghost use Rattle.stun_client.specs.Challenges.{Answered, IsAnswerable, IsOfMessage};
ghost use Rattle.stun_client.specs.Challenges.{challenge_of, is_one};
ghost use Rattle.stun_client.specs.Downgrade.{IsNowhereBidDown, IsUpToDate};
ghost use Rattle.stun_client.specs.Judging.{IsAnsweredAnew, IsBelievable, IsEndOrNothing, IsSentAgain};
ghost use Rattle.stun_client.specs.Judging.{Identity, answered_in, believed, fault_in, judged, long_term};
ghost use Rattle.stun_client.specs.Judging.{sent_for, signed_with, takes_unsigned};
ghost use Rattle.stun_client.specs.Rule.{IsByRule, IsChosen};
ghost use Rattle.stun_client.specs.Standing.{AreHeededEvents, AreUsualEvents, StandingEvent};
ghost use Rattle.stun_client.specs.Standing.{StandingSeen, after_success, confirmed, is_ignored};
ghost use Rattle.stun_client.specs.Standing.{is_standing, is_stronger_than, new_standing};
ghost use Rattle.stun_client.specs.Standing.{standing_after_all};
ghost use Rattle.stun_client.specs.declared.preferences.Preferences.{Preferences as ThePreferences};

/// Each challenge that a client reads in a message follows the client's rule and comes from this
/// message.
///
/// - `by_rule`: the algorithm, and whether the user name is sent as a hash, follow from the
///   client's preferences and from the nonce and the list of algorithms in the challenge.
/// - `of_message`: the challenge has the realm, the nonce and the list of algorithms that the
///   message has, with two exceptions. If a signed 438 has no list, the list of the previous
///   challenge may be used. If the nonce does not ask for a password algorithm, the list is empty.
pub fn challenges_are_by_the_rule()
    ensures by_rule { (p : ThePreferences) (who : NameAndPassword) (before : Option Challenge)
        (bytes : List ℕ) (c : Challenge) → challenge_of p who before bytes ≡ Some c
        → IsByRule p who c }
    ensures of_message { (p : ThePreferences) (who : NameAndPassword) (before : Option Challenge)
        (bytes : List ℕ) (c : Challenge) → challenge_of p who before bytes ≡ Some c
        → IsOfMessage before bytes c }
{}

/// States which messages a client reads as challenges, and how it judges them.
///
/// - `read`: a client reads a challenge from each message for which `IsAnswerable` holds. This is a
///   401 or a 438 that has a realm and a nonce, and offers an algorithm that the client supports,
///   whatever other algorithms its list has. If the client must send the user name as a hash, the
///   nonce allows this.
/// - `sent`: if a client with long-term credentials reads a challenge in a response to the current
///   message of a request, `judge` returns that the request is to be sent again for this challenge,
///   or that the response is a refusal with this challenge.
///
/// Premises of `sent`: the response is not dropped because of its FINGERPRINT, the message was not
/// already signed for this challenge, and the challenge is not weaker than the challenge that was
/// confirmed last. The law does not say that the client then sends the request again.
pub fn answerable_challenges_are_answered()
    ensures read { (p : ThePreferences) (who : NameAndPassword) (before : Option Challenge)
        (bytes : List ℕ) → IsAnswerable p before bytes → IsSome (challenge_of p who before bytes) }
    ensures sent { (required : Bool) (who : NameAndPassword) (p : ThePreferences)
        (accepts_unsigned : Bool) (standing : StandingSeen) (before : Option Answered)
        (bytes : List ℕ) (c : Answered) → fault_in required bytes ≡ None
        → answered_in p who before bytes ≡ Some c → is_one (Some c) before ≡ false
        → is_ignored standing c ≡ false
        → judged required true (long_term who p accepts_unsigned) standing before bytes
        ≡ sent_for before bytes c }
{}

/// No challenge causes a server to accept a request with an algorithm that is weaker than the
/// strongest that client and server support (RFC 8489, section 9.2.5). Suppose that a reader finds
/// in a message the attributes with which a client signs for a challenge. Each server whose nonce
/// and offer are up to date then accepts the message only with the strongest algorithm that both
/// support. Premise: the challenge follows the client's rule (`IsChosen`). The law assumes nothing
/// about users, passwords or HMAC, nor about the messages that the client has read before.
pub fn signed_requests_are_not_bid_down()
    ensures { (p : ThePreferences) (c : Challenge) (class : MessageClass) (error : Option ℕ)
        (bytes : List ℕ) → IsChosen p c
        → ReadsAs class error (added_under true c) (reading_of bytes)
        → IsNowhereBidDown p (reading_of bytes) }
{}

/// The nonces that a server makes, together with an offer of all its algorithms, are up to date
/// (`IsUpToDate`). This means that the security bits of each nonce match the server's current
/// settings. It holds for the nonces of `LongTermServerAuth` (`made`), and for all nonces that
/// begin with the nonce cookie and these security bits, such as the nonces of `stun_endpoint`
/// (`marked`).
pub fn nonces_of_a_server_are_up_to_date()
    ensures made { (users : Registered) (feature : TheFeature) (words : List ℕ)
        → IsUpToDate users feature (nonce_of users.algorithms feature words)
        (Some users.algorithms) }
    ensures marked { (users : Registered) (feature : TheFeature) (behind : List ℕ)
        → IsUpToDate users feature (front (security_byte users.algorithms feature) ++ behind)
        (Some users.algorithms) }
{
    stun_judging::laws::nonces_ask_for_what_is_supported();
}

/// A client believes a response only in one of these cases: the client has no credentials, it
/// accepts this response unsigned, or the response is signed with the same key as the request
/// (`signed`). The FINGERPRINT of a response that is believed is valid, and the response has one if
/// the client requires FINGERPRINT (`whole`).
pub fn believed_responses_are_believable()
    ensures signed { (required is_current : Bool) (identity : Identity) (standing : StandingSeen)
        (before : Option Answered) (bytes : List ℕ) (by : Option IntegrityAlgorithm)
        → judged required is_current identity standing before bytes ≡ believed by
        → IsBelievable identity before bytes by }
    ensures whole { (required is_current : Bool) (identity : Identity) (standing : StandingSeen)
        (before : Option Answered) (bytes : List ℕ) (by : Option IntegrityAlgorithm)
        → judged required is_current identity standing before bytes ≡ believed by
        → fault_in required bytes ≡ None }
{}

/// A client believes a response to an earlier message of a request, which another message has
/// replaced, only if the response is signed with the key of the earlier message (`signed`). Each
/// other response to such a message has no effect, whatever its contents are: it does not cause the
/// request to be sent again, does not refuse it, and casts no doubt on a message (`only`).
pub fn earlier_messages_end_by_signature_alone()
    ensures signed { (required : Bool) (identity : Identity) (standing : StandingSeen)
        (before : Option Answered) (bytes : List ℕ) (by : Option IntegrityAlgorithm)
        → judged required false identity standing before bytes ≡ believed by
        → IsSome by × (signed_with identity before bytes ≡ by) }
    ensures only { (required : Bool) (identity : Identity) (standing : StandingSeen)
        (before : Option Answered) (bytes : List ℕ)
        → IsEndOrNothing (judged required false identity standing before bytes) }
{}

/// A client does not believe a response, whether an error or a success, that is not signed with the
/// key of the message that it answers. The exception is a response to the current message if the
/// client has no credentials, or if it accepts unsigned responses and the message was not signed.
pub fn unsigned_errors_end_nothing()
    ensures { (required is_current : Bool) (identity : Identity) (standing : StandingSeen)
        (before : Option Answered) (bytes : List ℕ) (by : Option IntegrityAlgorithm)
        → signed_with identity before bytes ≡ None
        → judged required is_current identity standing before bytes ≡ believed by
        → (takes_unsigned identity before ≡ true) × (is_current ≡ true) }
{}

/// If a response causes a client to send a request again for a challenge, this challenge is the one
/// that the client reads in the response by its rule, even if the response counts as a refusal. It
/// is neither the challenge that the request was signed for, nor a challenge that the client
/// ignores.
pub fn requests_are_sent_again_for_new_challenges()
    ensures { (required is_current : Bool) (who : NameAndPassword) (p : ThePreferences)
        (accepts_unsigned : Bool) (standing : StandingSeen) (before : Option Answered)
        (bytes : List ℕ) (c : Answered)
        → IsSentAgain (judged required is_current (long_term who p accepts_unsigned) standing before
        bytes) c
        → IsAnsweredAnew p who standing before bytes c }
{}

/// A client with long-term credentials does not believe an unsigned response if the request was
/// signed (`signed`), or if the client does not accept unsigned responses (`first`). Such a
/// response can cause the request to be sent again for a challenge, refuse the request, or cast
/// doubt on the message that it answers. Otherwise it is dropped.
pub fn unsigned_responses_are_not_believed()
    ensures signed { (required is_current : Bool) (who : NameAndPassword) (p : ThePreferences)
        (accepts_unsigned : Bool) (standing : StandingSeen) (before : Answered) (bytes : List ℕ)
        (by : Option IntegrityAlgorithm)
        → verified_algorithm bytes before.challenge.key ≡ None
        → judged required is_current (long_term who p accepts_unsigned) standing (Some before) bytes
        ≡ believed by → ⊥ }
    ensures first { (required is_current : Bool) (who : NameAndPassword) (p : ThePreferences)
        (standing : StandingSeen) (bytes : List ℕ) (by : Option IntegrityAlgorithm)
        → judged required is_current (long_term who p false) standing None bytes ≡ believed by → ⊥ }
{}

/// A challenge that is weaker than the one that a success has confirmed stays ignored, until a
/// request that is signed for the confirmed challenge times out. This holds whatever other
/// challenges the client answers, and whatever other requests succeed or time out. Premise: the
/// client answers no challenge that it ignores.
pub fn weaker_challenges_stay_ignored()
    ensures { (s : StandingSeen) (events : List StandingEvent) (c : Answered) → s.is_validated ≡ true
        → is_ignored s c ≡ true → AreUsualEvents s events
        → is_ignored (standing_after_all s events) c ≡ true }
{}

/// States which challenge a success confirms, and that a success never causes a client to answer
/// weaker challenges than before.
///
/// - `standing`, `stronger`: a success confirms the challenge of the message that it answers, if
///   new requests are signed for this challenge (`standing`), or if it is stronger than the
///   challenge that was confirmed last (`stronger`).
/// - `ignored`: challenges that were ignored before a success are still ignored after it.
/// - `signed`: new requests are signed for a challenge that is not weaker than the challenge that
///   was confirmed last, if there is one.
///
/// `ignored` and `signed` hold for a client that began without a challenge, whatever challenges it
/// has answered, and whatever requests have succeeded or timed out. Premise: it has answered no
/// challenge that it must ignore (`AreHeededEvents`).
pub fn successes_weaken_nothing()
    ensures standing { (s : StandingSeen) (c : Answered) → is_standing s (Some c) ≡ true
        → confirmed (after_success s (Some c)) ≡ s.current }
    ensures stronger { (s : StandingSeen) (c : Answered) → is_standing s (Some c) ≡ false
        → is_stronger_than c (confirmed s) ≡ true → confirmed (after_success s (Some c)) ≡ Some c }
    ensures ignored { (events : List StandingEvent) (signed_for : Option Answered) (c : Answered)
        → AreHeededEvents new_standing events
        → is_ignored (standing_after_all new_standing events) c ≡ true
        → is_ignored (after_success (standing_after_all new_standing events) signed_for) c ≡ true }
    ensures signed { (events : List StandingEvent) → AreHeededEvents new_standing events
        → let s = standing_after_all new_standing events in
        (IsSome (confirmed s) → IsSome s.current)
        × IfSome s.current (λ c. is_ignored s c ≡ false) }
{}
