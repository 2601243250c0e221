//! Laws about the definitions that the contracts of this crate cite. They do nothing when they run.

ghost use Rattle.std.specs.Prelude.{◌≡◌, ◌⊎◌, ◌↔◌, ◌∷◌, [], ℕ, List, Option, Some, None};
ghost use Rattle.std.specs.Prelude.{Bool, true, false};
ghost use Rattle.std.specs.declared.net.socket_addr.SocketAddr.{SocketAddr};
ghost use Rattle.stun_base.specs.Keys.{with_colon};
ghost use Rattle.stun_ice.specs.Agent.{Agent, Peer, SentCheck, build_refusal, can_nominate};
ghost use Rattle.stun_ice.specs.Agent.{check_page, sent_check, sent_page, side_refusal};
ghost use Rattle.stun_ice.specs.Buffered.{LeavesNoAnswer, given_in};
ghost use Rattle.stun_ice.specs.Checks.{Accepts, sender_in};
ghost use Rattle.stun_ice.specs.Conflicts.{AreSettled, Happening, after_all, arrives, beginning};
ghost use Rattle.stun_ice.specs.Conflicts.{hears, of_left, sends};
ghost use Rattle.stun_ice.specs.Parts.{username_in};
ghost use Rattle.stun_ice.specs.Received.{checked, given, is_check, judgement_of, role_left};
ghost use Rattle.stun_ice.specs.Responses.{IsValid};
ghost use Rattle.stun_ice.specs.Roles.{opposite};
ghost use Rattle.stun_ice.specs.Told.{IsAcceptedCheck, IsValidAnswer, TellsAccepted, TellsValid};
ghost use Rattle.stun_ice.specs.declared.checker.judging.Acceptance.{Acceptance};
ghost use Rattle.stun_ice.specs.declared.checker.judging.Verdict.TheVariants as Verdict;
ghost use Rattle.stun_ice.specs.declared.checker.receiving.Judgement.TheVariants as Judgement;
ghost use Rattle.stun_ice.specs.declared.received.Judged.{Judged};
ghost use Rattle.stun_ice.specs.declared.received.Mapped.{Mapped};
ghost use Rattle.stun_ice.specs.declared.received.Outcome.TheVariants as Outcome;
ghost use Rattle.stun_ice.specs.declared.received.ReceivedInto.{ReceivedInto};
ghost use Rattle.stun_ice.specs.declared.role.Role.{Role};
ghost use Rattle.stun_ice.specs.declared.role.Role.TheVariants.{Controlling, Controlled};

/// Two agents that begin in the same role, with distinct tie-breakers, end in opposite roles. The
/// agent that began with the larger tie-breaker then has the controlling role. The agents have
/// these roles as soon as one of them has received the answer to one check, and keep them. Before
/// that, they either both have the role that they began in, or already have the final roles
/// (`settle`). Two agents that begin in opposite roles keep their roles (`stay`).
///
/// The network may lose, repeat, delay and reorder datagrams: any check and any answer may arrive
/// at any time after it was sent, any number of times. After a 487, an agent may choose any
/// tie-breaker. Clause `instance` is an example with one check and its answer.
pub fn roles_end_opposite()
    ensures settle { (role : Role) (left right : ℕ) → (left ≡ right → ⊥) → (events : List Happening)
        → let both = after_all
        (record { left = beginning role left; right = beginning role right }) events in
        ((both.left.role ≡ role) × (both.right.role ≡ role) × (both.left.heard ≡ false)
        × (both.right.heard ≡ false)) ⊎ AreSettled left right both }
    ensures stay { (role : Role) (left right : ℕ) (events : List Happening)
        → let both = after_all
        (record { left = beginning role left; right = beginning (opposite role) right })
        events in
        (both.left.role ≡ role) × (both.right.role ≡ opposite role) }

    // One check from the left side, and its answer.
    ensures instance { let both = after_all
        (record { left = beginning Controlling 1; right = beginning Controlling 2 })
        (of_left sends ∷ of_left (arrives 0) ∷ of_left (hears 0 7) ∷ []) in
        (both.left.role ≡ Controlled) × (both.right.role ≡ Controlling)
        × (both.left.heard ≡ true) × (both.left.tie_breaker ≡ 7) }
{}

/// States that an agent accepts a datagram as a check with the values `check` (the algorithm, the
/// priority, the nomination, and the role of the agent after the check) if and only if `Accepts`
/// holds for the datagram and these values.
pub fn checks_are_accepted_exactly()
    ensures { (a : Agent) (c : Option SentCheck) (from : SocketAddr) (bytes : List ℕ)
        (check : Acceptance)
        → (judgement_of a c from bytes ≡ Judgement.Check bytes (Verdict.Accepted check))
        ↔ Accepts a bytes check }
{}

/// How an agent judges a check does not depend on whether the agent knows the credentials of its
/// peer: the verdict, each byte of the answer, and the role that the agent has afterwards are the
/// same. So an agent answers checks that arrive before the credentials of the peer in the same way
/// as later checks. The judgement also does not depend on which check of the agent the caller
/// passes with the datagram.
pub fn answers_do_not_depend_on_the_peer()
    ensures { (a : Agent) (peer : Option Peer) (c d : Option SentCheck) (from : SocketAddr)
        (bytes message answer : List ℕ) (judged : Judged)
        → given a from (judgement_of a c from bytes) ≡ checked message answer judged
        → let b = record a { peer = peer } in
        (given b from (judgement_of b d from bytes) ≡ checked message answer judged)
        × (role_left b.role (judgement_of b d from bytes)
        ≡ role_left a.role (judgement_of a c from bytes)) }
{}

/// `Checker::sender` returns the peer's half of USERNAME, which follows the agent's own name and a
/// colon. It returns `Some` if and only if USERNAME has this form, as it does in each check for
/// which `Accepts` holds.
pub fn checks_name_their_sender()
    ensures { (a : Agent) (bytes peer : List ℕ)
        → (sender_in a bytes ≡ Some peer)
        ↔ (username_in bytes ≡ Some (with_colon a.name peer)) }
{}

/// States that a datagram answers a check and makes the pair of the check valid, with the address
/// `mapped`, if and only if `IsValid` holds.
pub fn pairs_are_valid_exactly()
    ensures { (a : Agent) (check : SentCheck) (from : SocketAddr) (bytes : List ℕ)
        (mapped : Mapped)
        → (judgement_of a (Some check) from bytes ≡ Judgement.Response (Outcome.Valid mapped))
        ↔ IsValid a check from bytes mapped }
{}

/// States that the results that a caller gets match the definitions. A check is reported as
/// accepted if and only if the agent accepts it (`accepted`). A pair is reported as valid if and
/// only if the datagram answers the check that the caller passed, and makes the pair of that check
/// valid (`valid`).
pub fn callers_are_told_what_is_so()
    ensures accepted { (a : Agent) (c : Option SentCheck) (from : SocketAddr) (bytes : List ℕ)
        → TellsAccepted (given a from (judgement_of a c from bytes)) ↔ IsAcceptedCheck a bytes }
    ensures valid { (a : Agent) (c : Option SentCheck) (from : SocketAddr) (bytes : List ℕ)
        → TellsValid (given a from (judgement_of a c from bytes)) ↔ IsValidAnswer a c from bytes }
{}

/// States that only checks are answered (`answered`). So after any other datagram the buffer of
/// `receive_into` is empty, and a program that sends the contents of the buffer sends nothing
/// (`empty`).
pub fn only_checks_are_answered()
    ensures answered { (a : Agent) (c : Option SentCheck) (from : SocketAddr)
        (bytes message answer : List ℕ) (judged : Judged)
        → given a from (judgement_of a c from bytes) ≡ checked message answer judged
        → is_check (judgement_of a c from bytes) ≡ true }
    ensures empty { (a : Agent) (c : Option SentCheck) (from : SocketAddr)
        (bytes buffer : List ℕ) (received : ReceivedInto)
        → given_in received buffer ≡ given a from (judgement_of a c from bytes)
        → LeavesNoAnswer received buffer
        → is_check (judgement_of a c from bytes) ≡ false → buffer ≡ [] }
{}

/// The credentials of two agents are accepted together if and only if the credentials of each are
/// accepted alone (`sides`). Names that are accepted have no colon, so no two pairs of names have
/// the same USERNAME (`names`): a check names its receiver and its sender, and nobody else.
pub fn usernames_name_both()
    ensures sides { (name peer password peer_password : List ℕ)
        → (build_refusal name peer password peer_password ≡ None)
        ↔ ((side_refusal name password ≡ None) × (side_refusal peer peer_password ≡ None)) }
    ensures names { (name peer password other another other_password : List ℕ)
        → side_refusal name password ≡ None → side_refusal other other_password ≡ None
        → with_colon name peer ≡ with_colon other another → (name ≡ other) × (peer ≡ another) }
{}

/// If a program begins a check and finishes it without adding attributes, the check has the same
/// bytes as the check that `check` writes.
pub fn checks_in_two_steps_are_checks()
    ensures { (a : Agent) (peer : Peer) (id : ℕ) (to : SocketAddr) (priority : ℕ)
        (nominate : Bool)
        → sent_page a peer id to nominate
        (check_page a peer id priority (can_nominate a.role nominate))
        ≡ sent_check a peer id to priority nominate }
{}
