//! Laws about the results of the calls on an ICE agent, the data that they write, and the agent
//! after a call. They do nothing when they run.

ghost use Rattle.std.specs.Prelude.{◌≡◌, ◌≢◌, ◌<◌, ◌^◌, ◌↔◌, ℕ, ℤ, pos, Bool, true, List, [], length};
ghost use Rattle.std.specs.Prelude.{Option, Some, None, Result, Ok};
ghost use Rattle.std.specs.declared.net.socket_addr.SocketAddr.{SocketAddr};
ghost use Rattle.byteorder.specs.Endian.{big_number};
ghost use Rattle.stun_c_endpoint.specs.Agents.{AgentGiven, MakesAgent, MakesOffering, SetsPeer};
ghost use Rattle.stun_c_endpoint.specs.Agents.{SetsTieBreaker, SideGiven, is_controlling};
ghost use Rattle.stun_c_endpoint.specs.Agents.{refusal_of_building};
ghost use Rattle.stun_c_endpoint.specs.Checks.{WritesCheck, check_asked, check_given};
ghost use Rattle.stun_c_endpoint.specs.Checks.{check_told};
ghost use Rattle.stun_c_endpoint.specs.Extended.{ExtendsTo, WritesExtended};
ghost use Rattle.stun_c_endpoint.specs.HandleLaws.{IsErrorNumber};
ghost use Rattle.stun_c_endpoint.specs.IceLaws.{HasOwn, IsSide, IsWritten, Knows, TellsGiven};
ghost use Rattle.stun_c_endpoint.specs.Judged.{Seen, SeesAs, ice_drop_number, ice_failed, seen_at};
ghost use Rattle.stun_c_endpoint.specs.Judged.{seen_by};
ghost use Rattle.stun_c_endpoint.specs.Kept.{agent_in};
ghost use Rattle.stun_c_endpoint.specs.declared.handle.endpoint.Kept.{Kept};
ghost use Rattle.stun_c_endpoint.specs.declared.handle.endpoint.Kept.TheVariants as kind;
ghost use Rattle.stun_c_endpoint.specs.declared.ice.told.IceCheck.{IceCheck};
ghost use Rattle.stun_c_endpoint.specs.declared.ice.told.IceReceived.{IceReceived};
ghost use Rattle.stun_handles.specs.Addresses.{socket_address};
ghost use Rattle.stun_handles.specs.declared.address.Address.{Address};
ghost use Rattle.stun_ice.specs.Agent.{Agent, Peer, SentCheck, build_refusal, sent_check};
ghost use Rattle.stun_ice.specs.Received.{given, judgement_of, role_left};
ghost use Rattle.stun_ice.specs.Told.{TellsAccepted, TellsValid};
ghost use Rattle.stun_ice.specs.declared.checker.BuildError.{BuildError};
ghost use Rattle.stun_ice.specs.declared.checker.BuildError.TheVariants as at_building;
ghost use Rattle.stun_ice.specs.declared.received.DropReason.{DropReason};
ghost use Rattle.stun_numbers.specs.Refusals.{refusal_number};
ghost use Rattle.stun_numbers.specs.declared.refusal.Refusal.{Refusal};
ghost use Rattle.stun_numbers.specs.declared.refusal.Refusal.TheVariants.{BufferTooSmall, CannotSign};
ghost use Rattle.stun_numbers.specs.declared.refusal.Refusal.TheVariants.{OutOfMemory};

/// A new agent has the credentials, the tie-breaker and the role that the caller passed, and the
/// library has accepted them.
///
/// - `made`, `offering`: if the caller passed the credentials of the peer, the agent signs its
///   checks with the peer's password (`made`). Otherwise the agent knows no peer yet (`offering`).
/// - `peer`, `tie_breaker`: a call that sets the credentials of the peer or the tie-breaker leaves
///   the other values of the agent unchanged.
/// - `two_steps`: if an agent is created with its own credentials, and the credentials of its peer
///   are set afterwards, it is equal to an agent that is created with both at once.
/// - `memory`: the calls report `STUNP_OUT_OF_MEMORY` only for a failed allocation.
pub fn agents_are_made_of_what_is_passed()
    ensures made { (g : AgentGiven) (now : Option Kept) → MakesAgent g (pos 0) now
        → (a : Agent) × (now ≡ Some (kind.Checker a))
        × (build_refusal g.name g.peer_name g.password g.peer_password ≡ None)
        × HasOwn a g.name g.password g.tie_breaker g.controls
        × Knows a g.peer_name g.peer_password }
    ensures offering { (s : SideGiven) (tie : ℕ) (controls : Bool) (now : Option Kept)
        → MakesOffering s tie controls (pos 0) now
        → (a : Agent) × (now ≡ Some (kind.Checker a)) × IsSide s.name s.password
        × HasOwn a s.name s.password tie controls × (a.peer ≡ None) }
    ensures peer { (a : Agent) (s : SideGiven) (before now : Option Kept)
        → SetsPeer (Ok a) s (pos 0) before now
        → (b : Agent) × (now ≡ Some (kind.Checker b)) × IsSide s.name s.password
        × HasOwn b a.name a.password a.tie_breaker (is_controlling a.role)
        × Knows b s.name s.password }
    ensures tie_breaker { (a : Agent) (tie : ℕ) (result : ℤ) (before now : Option Kept)
        → SetsTieBreaker (Ok a) tie result before now
        → (b : Agent) × (result ≡ pos 0) × (now ≡ Some (kind.Checker b))
        × HasOwn b a.name a.password tie (is_controlling a.role) × (b.peer ≡ a.peer) }
    ensures two_steps { (g : AgentGiven) (offered now once : Option Kept)
        → MakesOffering (record { name = g.name; password = g.password }) g.tie_breaker
        g.controls (pos 0) offered
        → SetsPeer (agent_in offered)
        (record { name = g.peer_name; password = g.peer_password }) (pos 0) offered now
        → MakesAgent g (pos 0) once → now ≡ once }
    ensures memory { (error : BuildError) → refusal_of_building error ≡ OutOfMemory
        → error ≡ at_building.OutOfMemory }
{}

/// States which check a call writes for the address and the priority that the caller passed.
///
/// - `written`, `with_body`: the call writes the check that the library writes (`written`), with
///   the attributes of the body if the caller passed one (`with_body`). The bytes of the check are
///   at the front of the buffer, the call returns their number, and the caller's struct describes
///   the check.
/// - `unknown_peer`: if the agent does not know the credentials of its peer, the call fails with
///   `STUNP_CANNOT_SIGN`.
/// - `unwritten`, `unwritten_with_body`: a call that fails writes nothing.
pub fn checks_are_those_of_the_library()
    ensures written { (a : Agent) (id : List ℕ) (to : Address) (priority : ℕ) (nominate : Bool)
        (n : ℕ) (out after : List ℕ) (k told : IceCheck) → length out < 2 ^ 63
        → WritesCheck (check_asked (Ok a) id to priority nominate) (pos n) out after k told
        → (address : SocketAddr) × (peer : Peer) × (socket_address to ≡ Some address)
        × (a.peer ≡ Some peer)
        × IsWritten (sent_check a peer (big_number 12 id) address priority nominate) n out after
        told }
    ensures with_body { (a : Agent) (id : List ℕ) (to : Address) (priority : ℕ)
        (nominate : Bool) (body : List ℕ) (n : ℕ) (out after : List ℕ) (k told : IceCheck)
        → length out < 2 ^ 63
        → WritesExtended (Ok a) id to priority nominate body (pos n) out after k told
        → (address : SocketAddr) × (peer : Peer) × (check : SentCheck)
        × (socket_address to ≡ Some address) × (a.peer ≡ Some peer)
        × ExtendsTo a peer (big_number 12 id) address priority nominate body (Ok check)
        × IsWritten check n out after told }
    ensures unknown_peer { (a : Agent) (id : List ℕ) (to : Address) (priority : ℕ)
        (nominate : Bool) (result : ℤ) (out after : List ℕ) (k told : IceCheck)
        (address : SocketAddr) → a.peer ≡ None → socket_address to ≡ Some address
        → WritesCheck (check_asked (Ok a) id to priority nominate) result out after k told
        → result ≡ refusal_number CannotSign }
    ensures unwritten { (check : Result SentCheck Refusal) (result : ℤ) (out after : List ℕ)
        (k told : IceCheck) → WritesCheck check result out after k told → IsErrorNumber result
        → (after ≡ out) × (told ≡ k) }
    ensures unwritten_with_body { (a : Result Agent Refusal) (id : List ℕ) (to : Address)
        (priority : ℕ) (nominate : Bool) (body : List ℕ) (result : ℤ) (out after : List ℕ)
        (k told : IceCheck) → WritesExtended a id to priority nominate body result out after k told
        → IsErrorNumber result → (after ≡ out) × (told ≡ k) }
{}

/// States that the struct that describes a check contains everything that the agent needs to judge
/// the answer, so the caller only has to pass this struct again. The struct has all data of the
/// check except its bytes (`same`), and the judgement does not depend on these bytes (`judged`).
pub fn checks_are_passed_again()
    ensures same { (check : SentCheck) (to : Address) → length to.octets ≡ 16
        → socket_address to ≡ Some check.to → check.id < 256 ^ 12
        → check_given true (check_told check) ≡ Some (Some (record check { bytes = [] })) }
    ensures judged { (a : Agent) (check : SentCheck) (from : SocketAddr) (bytes : List ℕ)
        → seen_by a (Some (record check { bytes = [] })) from bytes
        ≡ seen_by a (Some check) from bytes }
{}

/// States that a caller receives the outcome that the library returns for the same datagram from
/// the same address and with the same check, and that the agent in the handle is then in the same
/// state as after the library's call (`told`). So the call reports that a check is accepted
/// (`accepted`), or that a pair is valid (`valid`), if and only if the library does.
pub fn datagrams_are_judged_as_by_the_library()
    ensures told { (a : Agent) (has_check : Bool) (k : IceCheck) (from : Address)
        (bytes : List ℕ) (n : ℕ) (out after : List ℕ) (r told : IceReceived)
        (before now : Option Kept)
        → SeesAs (seen_at (Ok a) has_check k from bytes r) (pos n) out after r told before now
        → (address : SocketAddr) × (check : Option SentCheck)
        × (socket_address from ≡ Some address) × (check_given has_check k ≡ Some check)
        × TellsGiven (given a address (judgement_of a check address bytes)) n out after told
        × (now ≡ Some (kind.Checker
        (record a { role = role_left a.role (judgement_of a check address bytes) }))) }
    ensures accepted { (a : Agent) (has_check : Bool) (k : IceCheck) (from : Address)
        (bytes : List ℕ) (n : ℕ) (out after : List ℕ) (r told : IceReceived)
        (before now : Option Kept)
        → SeesAs (seen_at (Ok a) has_check k from bytes r) (pos n) out after r told before now
        → (address : SocketAddr) × (check : Option SentCheck)
        × (socket_address from ≡ Some address) × (check_given has_check k ≡ Some check)
        × (TellsAccepted (given a address (judgement_of a check address bytes))
        ↔ ((n ≡ 1) × (told.outcome ≡ 1))) }
    ensures valid { (a : Agent) (has_check : Bool) (k : IceCheck) (from : Address)
        (bytes : List ℕ) (n : ℕ) (out after : List ℕ) (r told : IceReceived)
        (before now : Option Kept)
        → SeesAs (seen_at (Ok a) has_check k from bytes r) (pos n) out after r told before now
        → (address : SocketAddr) × (check : Option SentCheck)
        × (socket_address from ≡ Some address) × (check_given has_check k ≡ Some check)
        × (TellsValid (given a address (judgement_of a check address bytes))
        ↔ ((n ≡ 4) × (told.outcome ≡ 4))) }
{}

/// States what the call that receives a datagram writes.
///
/// - `unanswered`: only a check of the peer is answered, so the buffer is unchanged after any other
///   outcome.
/// - `needed`: if the answer does not fit into the buffer, the caller's struct states the length of
///   the answer, which is greater than the length of the buffer. The agent and the buffer are then
///   unchanged.
/// - `kind`: the kind in the struct is the number that the call returns.
/// - `failed`: after an error, the struct has the kind 7 and the length 0.
/// - `why`: different reasons to drop a datagram have different numbers.
pub fn only_checks_have_answers()
    ensures unanswered { (seen : Result Seen Refusal) (result : ℤ) (out after : List ℕ)
        (r told : IceReceived) (before now : Option Kept)
        → SeesAs seen result out after r told before now → result ≢ pos 1 → after ≡ out }
    ensures needed { (seen : Seen) (out after : List ℕ) (r told : IceReceived)
        (before now : Option Kept)
        → SeesAs (Ok seen) (refusal_number BufferTooSmall) out after r told before now
        → (length out < told.needed) × (after ≡ out) × (now ≡ before) }
    ensures kind { (seen : Result Seen Refusal) (n : ℕ) (out after : List ℕ)
        (r told : IceReceived) (before now : Option Kept)
        → SeesAs seen (pos n) out after r told before now → told.kind ≡ n }
    ensures failed { (seen : Result Seen Refusal) (result : ℤ) (out after : List ℕ)
        (r told : IceReceived) (before now : Option Kept)
        → SeesAs seen result out after (ice_failed r) told before now → IsErrorNumber result
        → (told.kind ≡ 7) × (told.length ≡ 0) × (told.size ≡ r.size) }
    ensures why { (one other : DropReason) → ice_drop_number one ≡ ice_drop_number other
        → one ≡ other }
{}
