//! Laws about two agents of one session and the bytes that they send each other (RFC 8445, sections
//! 7.2 and 7.3). They are about the definitions of `stun_ice`. The functions without arguments do
//! nothing when they run.

ghost use Rattle.std.specs.Net.Socket.{IsPlainSocket, IsSocketAddr, socket_ip};
ghost use Rattle.std.specs.Prelude.{◌≡◌, ℕ, Bool, IfOk, Option, Some, true};
ghost use Rattle.std.specs.declared.net.socket_addr.SocketAddr.{SocketAddr};
ghost use Rattle.stun_base.specs.declared.keys.algorithm.IntegrityAlgorithm.TheVariants.{Sha1};
ghost use Rattle.stun_types.specs.XorMappedAddress.{IsHidden, xor_port};
ghost use Rattle.stun_extra.specs.CanonicalAddress.{is_same_address};
ghost use Rattle.stun_ice.specs.Agent.{Agent, Peer, SentCheck, check_bytes, remote_peer};
ghost use Rattle.stun_ice.specs.Answers.{conflict_answer, success_answer};
ghost use Rattle.stun_ice.specs.Conflicts.{rival_of};
ghost use Rattle.stun_ice.specs.Received.{given, judgement_of, responded, role_after_outcome};
ghost use Rattle.stun_ice.specs.Received.{role_left};
ghost use Rattle.stun_ice.specs.Responses.{IsValid};
ghost use Rattle.stun_ice.specs.Roles.{is_same_role, role_after_check};
ghost use Rattle.stun_ice.specs.declared.received.Outcome.TheVariants as Outcome;
ghost use Rattle.stun_peers.specs.Peers.{IsAgent, IsNumbered, Knows, SaysCheck, mapped_of};
ghost use Rattle.stun_peers.specs.Peers.{given_by, role_by, said_by, written_check};

use std::alloc::Allocator;
use stun_ice::checker::{BuildError, Checker, Credentials};
use stun_ice::role::Role;

/// States that a reader of a check finds in it what the agent wrote. The check is a Binding request
/// with the transaction ID `id`, the names of the peer and of the agent in USERNAME, the priority
/// `priority`, and the role and the tie-breaker of the agent. It has USE-CANDIDATE if and only if
/// it nominates its pair. Its signature is valid under the password of the peer, and its
/// FINGERPRINT is valid. Agents understand all its comprehension-required attributes.
pub fn checks_are_read_back()
    ensures { (a : Agent) (peer : Peer) (id priority : ℕ) (nominates : Bool) → IsAgent a peer
        → IsNumbered id priority
        → SaysCheck a peer id priority nominates (check_bytes a peer id priority nominates) }
{}

/// Creates the two agents of a session, which then know each other's credentials. The first agent,
/// with the credentials `one`, makes the offer, and knows the credentials `other` as soon as the
/// answer has arrived (`set_remote`). The second agent, with the credentials `other`, answers the
/// offer, and knows the credentials `one` from the start. The law `checks_are_read_back` holds for
/// the checks of both agents.
pub fn agents_of_one_session_know_each_other<A: Allocator + Copy>(
    alloc: A,
    one: Credentials<'_>,
    other: Credentials<'_>,
    tie_breakers: (u64, u64),
    roles: (Role, Role),
) -> Result<(Checker<A>, Checker<A>), BuildError>
    ensures { let right = remote_peer one.entry.name.now other.entry.name.now
        other.entry.password.now in
        let left = remote_peer other.entry.name.now one.entry.name.now one.entry.password.now in
        IfOk result (λ both. IsAgent both.0 right × Knows both.0 both.1 right
        × IsAgent both.1 left × Knows both.1 both.0 left) }
{
    let mut left = Checker::offer(alloc, one, tie_breakers.0, roles.0)?;
    let right = Checker::new(alloc, other, one, tie_breakers.1, roles.1)?;
    left.set_remote(other)?;
    Ok((left, right))
}

/// States what happens when a check of an agent arrives at its peer. The peer either accepts the
/// check, with the priority in the check, or answers it with a 487 (`judged`). Which of the two it
/// does, and which role the peer has afterwards (`role`), depends only on the roles and the
/// tie-breakers of both agents, as `role_after_check` defines. The law `roles_end_opposite` of
/// `stun_ice` uses the same definition for the arrival of a check.
///
/// The agent has the credentials of its peer (`Knows`). The peer need not have the credentials of
/// the agent, because it may have made an offer whose answer has not arrived yet. Law
/// `agents_of_one_session_know_each_other` shows which calls create such agents.
pub fn a_check_is_accepted_by_its_peer()
    ensures judged { (a b : Agent) (peer : Peer) (c : Option SentCheck) (from : SocketAddr)
        (id priority : ℕ) (nominates : Bool) → IsAgent a peer → IsNumbered id priority
        → Knows a b peer
        → let bytes = check_bytes a peer id priority nominates in
        given b from (judgement_of b c from bytes)
        ≡ given_by b from bytes priority nominates
        (role_after_check b.role b.tie_breaker (rival_of b.role (said_by a))) }

    // The role of the peer after the check.
    ensures role { (a b : Agent) (peer : Peer) (c : Option SentCheck) (from : SocketAddr)
        (id priority : ℕ) (nominates : Bool) → IsAgent a peer → IsNumbered id priority
        → Knows a b peer
        → role_left b.role (judgement_of b c from (check_bytes a peer id priority nominates))
        ≡ role_by b.role
        (role_after_check b.role b.tie_breaker (rival_of b.role (said_by a))) }
{}

/// States that when agent `b` answers a check sent by agent `a`, the answer has the intended effect
/// at `a`, provided it comes from the address to which the check was sent. A success makes the pair
/// valid, with the address from which the check came (`valid`, `address`). A 487 switches the role
/// of `a`, if `a` still has the role in which it sent the check (`conflict`).
///
/// `a` is the sender's state when it sent the check, and `sent` is the peer credentials that it had
/// then. `now` is the sender's state when the answer arrives; its role and tie-breaker may have
/// changed since. The check arrived at `b` from the address `from`, and the answer arrives from the
/// address `source`.
pub fn its_answer_makes_the_pair_valid()
    ensures valid { (a b now : Agent) (sent peer : Peer) (id priority : ℕ) (nominates : Bool)
        (to from source : SocketAddr) → IsAgent a sent → IsNumbered id priority → Knows now b peer
        → IsSocketAddr from → is_same_address source to ≡ true
        → IsValid now (written_check a sent id to priority nominates) source
        (success_answer b from (check_bytes a sent id priority nominates) Sha1)
        (mapped_of from id) }

    // `Mapped::address` then returns that address, in one of the two forms of an IPv4 address.
    ensures address { (from address : SocketAddr) (id : ℕ) → IsSocketAddr from
        → IsHidden id (mapped_of from id).attribute (socket_ip address)
        → IsPlainSocket address (xor_port (mapped_of from id).attribute.port)
        → is_same_address address from ≡ true }
    ensures conflict { (a b now : Agent) (sent peer : Peer) (id priority : ℕ) (nominates : Bool)
        (to source : SocketAddr) → IsAgent a sent → IsNumbered id priority → Knows now b peer
        → is_same_address source to ≡ true
        → let j = judgement_of now (Some (written_check a sent id to priority nominates)) source
        (conflict_answer b (check_bytes a sent id priority nominates) Sha1) in
        (given now source j ≡ responded (Outcome.RoleConflict (is_same_role now.role a.role)))
        × (role_left now.role j
        ≡ role_after_outcome now.role (Outcome.RoleConflict (is_same_role now.role a.role))) }
{}
