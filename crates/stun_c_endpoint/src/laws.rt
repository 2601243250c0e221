//! Laws about the definitions that the contracts of this crate cite. They do nothing when they run.

ghost use Rattle.std.specs.Prelude.{◌≡◌, ℕ, ℤ, pos, Bool, true, List, [], Option};
ghost use Rattle.std.specs.Prelude.{if◌then◌else◌, Result, Ok, Err};
ghost use Rattle.std.specs.declared.net.socket_addr.SocketAddr.{SocketAddr};
ghost use Rattle.stun_c_endpoint.specs.Agents.{SetsRole, controlling_answer};
ghost use Rattle.stun_c_endpoint.specs.Causes.{IsCause, cause_at, cause_number, caused_at};
ghost use Rattle.stun_c_endpoint.specs.Causes.{long_term_and_users};
ghost use Rattle.stun_c_endpoint.specs.Extended.{AddsFurther, ExtendsTo, is_kept_from_checks};
ghost use Rattle.stun_c_endpoint.specs.Kept.{Judge, agent_in, judge_of};
ghost use Rattle.stun_c_endpoint.specs.Replies.{IsReply, SignsForUser};
ghost use Rattle.stun_c_endpoint.specs.Told.{IsTold, RECEIVED_SIZE, outcome_by};
ghost use Rattle.stun_c_endpoint.specs.declared.handle.endpoint.Kept.{Kept};
ghost use Rattle.stun_c_endpoint.specs.declared.received.Received.{Received};
ghost use Rattle.stun_endpoint.specs.declared.server.causes.Cause.{Cause};
ghost use Rattle.stun_handles.specs.declared.address.Address.{Address};
ghost use Rattle.stun_ice.specs.Agent.{Agent, Peer, SentCheck, sent_check};
ghost use Rattle.stun_numbers.specs.declared.refusal.Refusal.{Refusal};
ghost use Rattle.stun_numbers.specs.declared.refusal.Refusal.TheVariants.{NotAllowed};
ghost use Rattle.stun_types.specs.Attribute.{first_attribute, has_attribute};

/// States that if a call returns `STUNP_IS_REQUEST`, a response that is signed with the data in
/// `reply` has a valid signature under the key of the user in `name`. So `stunp_verify` accepts
/// each response that `stunp_reply_finish` signs, however long the user's password is.
pub fn replies_sign_for_the_user()
    ensures { (judge : Judge) (from : SocketAddr) (seconds : ℕ) (bytes : List ℕ) (result : ℤ)
        (out out' : List ℕ) (r r' : Received)
        → IsTold (outcome_by judge from seconds bytes) result out out' r r'
        → result ≡ pos 2 → SignsForUser judge r' }
{}

/// States that if a call returns `STUNP_IS_REQUEST`, the calls that answer the request accept the
/// data in `reply`: it differs from a reply of zeros, and the key has at most 64 bytes.
pub fn replies_are_not_empty()
    ensures { (judge : Judge) (from : SocketAddr) (seconds : ℕ) (bytes : List ℕ) (result : ℤ)
        (out out' : List ℕ) (r r' : Received)
        → IsTold (outcome_by judge from seconds bytes) result out out' r r'
        → result ≡ pos 2 → IsReply r'.reply }
{}

/// If `stunp_ice_checker_set_role` has set the controlling role of the agent in a handle,
/// `stunp_ice_checker_is_controlling` returns 1. If it has set the controlled role, the result is
/// 0.
pub fn set_roles_are_told()
    ensures { (a : Agent) (controls : Bool) (result : ℤ) (before now : Option Kept)
        → SetsRole (Ok a) controls result before now
        → controlling_answer (agent_in now) ≡ (if controls then pos 1 else pos 0) }
{}

/// States which attributes the body of a check may have. If the body is empty, the check is the
/// same as the one that `stunp_ice_checker_check_with` writes (`nothing`). A body with
/// USE-CANDIDATE, ICE-CONTROLLING or ICE-CONTROLLED is refused, because the agent writes these
/// attributes itself. XOR-PEER-ADDRESS is refused too, because a body stores the address of this
/// attribute without the XOR (`refused`).
pub fn bodies_say_nothing_of_ice()
    ensures nothing { (a : Agent) (peer : Peer) (id : ℕ) (to : SocketAddr) (priority : ℕ)
        (nominate : Bool) (check : SentCheck)
        → ExtendsTo a peer id to priority nominate [] (Ok check)
        → check ≡ sent_check a peer id to priority nominate }
    ensures refused { (page bytes : List ℕ) (result : Result (List ℕ) Refusal)
        → has_attribute bytes ≡ true → is_kept_from_checks (first_attribute bytes).kind ≡ true
        → AddsFurther page bytes result → result ≡ Err NotAllowed }
{}

/// Two calls report the cause for which a request is refused: one returns only the cause, and one
/// writes both the outcome of the datagram and the cause. Both report the same cause.
pub fn both_calls_name_one_cause()
    ensures { (server users : Option Kept) (from : Address) (seconds : ℕ) (bytes : List ℕ)
        (r : Received) (cause : Option Cause) (result : ℤ) (told : ℕ) → r.size ≡ RECEIVED_SIZE
        → caused_at (long_term_and_users server users) from seconds bytes ≡ Ok cause
        → IsCause (cause_at (judge_of server users) from seconds bytes r) result told
        → IsCause (cause_number cause) result told }
{}
