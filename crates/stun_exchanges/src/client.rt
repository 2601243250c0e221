//! Laws about a client alone: the challenges that it answers, and the responses that it believes
//! (RFC 8489, section 9.2.5).
ghost use Rattle.std.specs.Prelude.{◌≡◌, ℕ, Bool, List, Some, true};
ghost use Rattle.stun_base.specs.Credentials.{NameAndPassword};
ghost use Rattle.stun_base.specs.declared.keys.algorithm.IntegrityAlgorithm.{IntegrityAlgorithm};
ghost use Rattle.stun_judging.specs.Algorithms.{contains};
ghost use Rattle.stun_judging.specs.Feature.{is_required, is_possible};
ghost use Rattle.stun_judging.specs.Registered.{Registered};
ghost use Rattle.stun_judging.specs.declared.algorithm_set.AlgorithmSet.{AlgorithmSet};
ghost use Rattle.stun_judging.specs.declared.feature.Feature.{Feature};
ghost use Rattle.stun_client.specs.Challenges.{Answered, by_rule};
ghost use Rattle.stun_client.specs.Downgrade.{IsStrongestOfBoth, IsUpToDate};
ghost use Rattle.stun_client.specs.Judging.{believed, judged, long_term};
ghost use Rattle.stun_client.specs.Preferences.{supports};
ghost use Rattle.stun_client.specs.Standing.{StandingSeen};
ghost use Rattle.stun_client.specs.declared.preferences.Preferences.{Preferences};
ghost use Rattle.stun_exchanges.specs.Agreement.{AgreeOn, IsSignedAnswer, meant_by, offered_by};
ghost use Rattle.stun_exchanges.specs.Refusals.{RefusalsAreOfTheSameCredentials};
ghost use Rattle.stun_exchanges.specs.Refusals.{SameCredentialsAreRefused};

/// A client that has an algorithm in common with a server can answer the server's challenges.
///
/// - `agreed`: if both support an algorithm, there is an algorithm on which they agree. Premise:
///   the server accepts hashed user names, or the client need not send them.
/// - `answered`: from the server's realm, nonce and list of algorithms, the client's rule
///   (`by_rule`) makes exactly the challenge that the server intended, with the algorithm on which
///   they agree. Premise: the nonce is up to date, as each nonce of a server is
///   (`stun_client::laws::nonces_of_a_server_are_up_to_date`).
/// - `strongest`: the algorithm on which they agree is the strongest that both support.
pub fn common_algorithms_are_answered()
    ensures agreed { (p : Preferences) (server : AlgorithmSet) (feature : Feature)
        (a : IntegrityAlgorithm) → supports p a ≡ true → contains a server ≡ true
        → (is_required p.anonymous_username ≡ true → is_possible feature ≡ true)
        → (b : IntegrityAlgorithm) × AgreeOn p server feature b }
    ensures answered { (p : Preferences) (who : NameAndPassword) (users : Registered)
        (feature : Feature) (nonce : List ℕ) (a : IntegrityAlgorithm)
        → IsUpToDate users feature nonce (Some users.algorithms)
        → AgreeOn p users.algorithms feature a
        → by_rule p who users.realm nonce (offered_by users.algorithms)
        ≡ Some (meant_by p who users.realm users.algorithms nonce a) }
    ensures strongest { (p : Preferences) (server : AlgorithmSet) (feature : Feature)
        (a : IntegrityAlgorithm) → AgreeOn p server feature a → IsStrongestOfBoth p server a }
{}

/// If the current message of a request is signed for a challenge, and the response to this message
/// is signed with the key of the same challenge, the client believes the response. The request then
/// ends as answered, with the algorithm of the response's signature.
///
/// Premises: the response is neither a 401 nor a 438, and is not dropped because of its
/// FINGERPRINT.
pub fn signed_answers_are_believed()
    ensures { (required : Bool) (who : NameAndPassword) (p : Preferences)
        (accepts_unsigned : Bool) (standing : StandingSeen) (c : Answered) (bytes : List ℕ)
        (a : IntegrityAlgorithm) → IsSignedAnswer required bytes c.challenge.key a
        → judged required true (long_term who p accepts_unsigned) standing (Some c) bytes
        ≡ believed (Some a) }
{}

/// Says which challenges count as a refusal of a signed request. The challenge for which the
/// request was signed always counts. Another challenge counts only if the response is a 401, and
/// the challenge has the same realm and a nonce with the same security bits (`only`). Each such 401
/// that causes the request to be sent again counts (`each`). A 438 with another challenge does not
/// count, because an expired nonce says nothing about the password.
pub fn refusals_ask_for_the_same_credentials()
    ensures only { RefusalsAreOfTheSameCredentials }
    ensures each { SameCredentialsAreRefused }
{}
