//! Laws about the definitions that the contracts of this crate cite. They do nothing when they run.
ghost use Rattle.std.specs.Option.{IsSome};
ghost use Rattle.std.specs.Prelude.{◌≡◌, ◌≤◌, ℕ, Bool, List, None, Option, Some, false, true};
ghost use Rattle.stun_base.specs.declared.keys.algorithm.IntegrityAlgorithm.{IntegrityAlgorithm};
ghost use Rattle.stun_client.specs.Challenges.{Answered, is_one};
ghost use Rattle.stun_client.specs.Judging.{Verdict, refused, signed_with, takes_unsigned};
ghost use Rattle.stun_client.specs.Standing.{StandingSeen};
ghost use Rattle.stun_client_calls.specs.Bounds.{BeginsPunctual, BeginsStored, EndsWithinTwoPlans};
ghost use Rattle.stun_client_calls.specs.Bounds.{KeepsPlan, StartsPlan, StaysPunctual, StaysStored};
ghost use Rattle.stun_client_calls.specs.Bounds.{WaitsInTime};
ghost use Rattle.stun_client_calls.specs.Deciding.{Place, answered, decided, refuses, turns};
ghost use Rattle.stun_client_calls.specs.Laws.{IsAnswerOrDrop, IsNoEnd, IsUnspent, IsWithinLimits};
ghost use Rattle.stun_client_calls.specs.Laws.{Judge, decision_on};
ghost use Rattle.stun_client_calls.specs.Messages.{AskedSeen, TurnSeen, has_unsigned, is_too_weak};
ghost use Rattle.stun_client_calls.specs.Messages.{message_for, refusing, sent_out, turned};
ghost use Rattle.stun_client_calls.specs.OptionLaws.{ConfirmsNothing, IsNotHeardElsewhere};
ghost use Rattle.stun_client_calls.specs.OptionLaws.{IsNotSentOtherwise, IsWrittenUnsigned, StartsUnsigned};
ghost use Rattle.stun_client_calls.specs.declared.deciding.Limits.{Limits as TheLimits};
ghost use Rattle.stun_client_calls.specs.declared.turning.Why.{Why as TheWhy};

/// States how often the current message of a request can be replaced by another one. This happens
/// only within the first plan of the request, and only as often as the client's limit allows.
/// Responses that cast doubt on the current message cause at most three of these changes, and
/// refusals with another challenge cause at most two (`within`). So the number of all changes never
/// exceeds the limit (`counted`).
pub fn requests_are_sent_by_a_bounded_number_of_messages()
    ensures within { (limits : TheLimits) (standing : StandingSeen) (now : ℕ) (a : AskedSeen)
        (v : Verdict) (why : TheWhy) (place : Option Place) (c : Option Answered)
        → decided limits standing now a v ≡ turns why place c → IsWithinLimits limits now a why }
    ensures counted { (limits : TheLimits) (standing : StandingSeen) (now : ℕ) (a : AskedSeen)
        (v : Verdict) (place : Option Place) (is_kept : Bool) (former : ℕ) (t : TurnSeen)
        → decided limits standing now a v ≡ turns t.why place t.signed_for
        → (turned is_kept former t a).turns ≤ limits.turns }
{}

/// A message that becomes the current one of a request is never signed for a challenge that is
/// weaker than the challenge that was confirmed last. So no datagram causes a downgrade.
pub fn requests_never_turn_to_weaker_messages()
    ensures { (j : Judge) (is_current : Bool) (now : ℕ) (a : AskedSeen) (before : Option Answered)
        (bytes : List ℕ) (why : TheWhy) (place : Option Place) (c : Option Answered)
        → decision_on j is_current now a before bytes ≡ turns why place c
        → is_too_weak j.standing c ≡ false }
{}

/// A request has at most one message for each challenge, and at most one unsigned message. A new
/// message is written for a challenge only if no message of the request is signed for that
/// challenge (`signed`). A new unsigned message is written only if the current message is signed
/// and no earlier message is unsigned (`unsigned`).
pub fn a_request_has_one_message_for_each_challenge()
    ensures signed { (j : Judge) (now : ℕ) (a : AskedSeen) (bytes : List ℕ) (why : TheWhy)
        (c : Answered) → decision_on j true now a a.signed_for bytes ≡ turns why None (Some c)
        → (message_for c a.earlier ≡ None) × (is_one (Some c) a.signed_for ≡ false) }
    ensures unsigned { (limits : TheLimits) (standing : StandingSeen) (now : ℕ) (a : AskedSeen)
        (v : Verdict) (why : TheWhy) → decided limits standing now a v ≡ turns why None None
        → IsSome a.signed_for × (has_unsigned a.earlier ≡ false) }
{}

/// No single datagram that an attacker forges over UDP ends a signed request, as long as the
/// request has not reached its limits. The law is about a response that is not signed with the key
/// of the message that it answers.
///
/// - `answers`: such a response ends the request as answered only if the message is the current one
///   and the client accepts unsigned responses to it.
/// - `one`: if the client does not accept unsigned responses to the message, such a response does
///   not end the request at all. Premises: the transport is UDP, and the request has reached
///   neither its limit on refusals nor its limit on messages (`IsUnspent`).
pub fn one_forged_datagram_ends_no_signed_request()
    ensures answers { (j : Judge) (is_current : Bool) (now : ℕ) (a : AskedSeen)
        (before : Option Answered) (bytes : List ℕ) (by : Option IntegrityAlgorithm)
        → signed_with j.identity before bytes ≡ None
        → decision_on j is_current now a before bytes ≡ answered by
        → (takes_unsigned j.identity before ≡ true) × (is_current ≡ true) }
    ensures one { (j : Judge) (is_current : Bool) (now : ℕ) (a : AskedSeen)
        (before : Option Answered) (bytes : List ℕ) → signed_with j.identity before bytes ≡ None
        → takes_unsigned j.identity before ≡ false → IsUnspent j.limits a
        → IsNoEnd (decision_on j is_current now a before bytes) }
{}

/// A response that repeats the challenge that the current message of a request is signed for counts
/// as a refusal at most once for each transmission of this message. Over UDP, such a response does
/// not end the request when it arrives for the first time (`first`), nor when it arrives again before
/// the message is sent again (`repeated`).
///
/// Refusals are counted by message. When another message becomes the current one, whatever arrived
/// before does not count against it, so its first refusal does not end the request (`turned`). What
/// refuses this message before it is sent is a copy of an older response, and does not count either
/// (`unsent`).
pub fn the_first_refusal_ends_nothing()
    ensures first { (limits : TheLimits) (standing : StandingSeen) (now : ℕ) (a : AskedSeen)
        → limits.is_reliable ≡ false → a.refusals.is_earlier ≡ false
        → decided limits standing now a (refused None) ≡ refuses }
    ensures repeated { (limits : TheLimits) (standing : StandingSeen) (now : ℕ) (a : AskedSeen)
        (code : Option ℕ) → limits.is_reliable ≡ false → a.refusals.is_earlier ≡ false
        → decided limits standing now (refusing code a) (refused None) ≡ refuses }
    ensures turned { (limits : TheLimits) (standing : StandingSeen) (now : ℕ) (a : AskedSeen)
        (is_kept : Bool) (former : ℕ) (t : TurnSeen) → limits.is_reliable ≡ false
        → decided limits standing now (turned is_kept former t a) (refused None) ≡ refuses }
    ensures unsent { (limits : TheLimits) (standing : StandingSeen) (now later : ℕ) (a : AskedSeen)
        (is_kept : Bool) (former : ℕ) (t : TurnSeen) (code : Option ℕ)
        → limits.is_reliable ≡ false
        → decided limits standing now (sent_out later (refusing code (turned is_kept former t a)))
        (refused None) ≡ refuses }
{}

/// A response to an earlier message of a request either answers the request or is dropped. It does
/// not make another message the current one, and is not counted as a refusal or a doubt.
pub fn responses_to_earlier_messages_answer_or_are_dropped()
    ensures { (j : Judge) (now : ℕ) (a : AskedSeen) (before : Option Answered) (bytes : List ℕ)
        → IsAnswerOrDrop (decision_on j false now a before bytes) }
{}

/// A request ends at the latest when the time of two plans has passed since its start, if `poll` is
/// called then (RFC 8489, sections 6.2.1 and 9.2.5). This holds however late `poll` is called, and
/// whatever other calls are made.
///
/// - `ends`: if `ClientEndpoint::poll` returns `Wait` after this time has passed, the request has
///   ended.
/// - `waits`: if a request is still outstanding when `poll` returns `Wait`, the time of two plans
///   has not yet passed since its start, and the wait ends at the latest when this time has passed.
/// - `begins`, `stays`: nothing is sent for a request after its first plan. This holds for a new
///   client, and each call preserves it.
/// - `starts`, `keeps`: the first plan of a request ends when the time of one plan has passed since
///   its start, and no call changes this end.
/// - `first`, `stored`: a client stores each request once. This holds for a new client, and each
///   call preserves it.
pub fn a_request_ends_within_two_plans()
    ensures ends { EndsWithinTwoPlans }
    ensures first { BeginsStored }
    ensures stored { StaysStored }
    ensures begins { BeginsPunctual }
    ensures stays { StaysPunctual }
    ensures starts { StartsPlan }
    ensures keeps { KeepsPlan }
    ensures waits { WaitsInTime }
{}

/// States what the client does with a request whose options say that it is not signed
/// (`RequestOptions::is_signed`; RFC 8489, section 9).
///
/// - `written`, `first`: the client writes the request like a client without credentials, without
///   USERNAME, USERHASH, REALM, NONCE or a signature (`written`). So the request is signed for no
///   challenge (`first`).
/// - `alone`: a response either answers the request or is dropped. The client does not answer it as
///   a challenge, and writes no other message of the request.
/// - `unconfirmed`: a response to a message that is signed for no challenge confirms no challenge.
/// - `elsewhere`: if a response to any request comes from an address other than the one from which
///   the request accepts responses, `receive` returns `NotOurs`, and nothing changes.
pub fn a_request_that_is_not_signed_is_answered_or_dropped()
    ensures written { IsWrittenUnsigned }
    ensures first { StartsUnsigned }
    ensures alone { IsNotSentOtherwise }
    ensures unconfirmed { ConfirmsNothing }
    ensures elsewhere { IsNotHeardElsewhere }
{}
