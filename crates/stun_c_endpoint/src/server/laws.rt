//! Laws about the results of the calls on a server, and the data that they write. They do nothing
//! when they run.

ghost use Rattle.std.specs.Prelude.{◌≡◌, ◌<◌, ◌≤◌, ℕ, ℤ, pos, List, length, Some, Result, Ok};
ghost use Rattle.std.specs.declared.net.socket_addr.SocketAddr.{SocketAddr};
ghost use Rattle.stun_c_endpoint.specs.Causes.{CausedAs, OfRealm, cause_number, caused_at};
ghost use Rattle.stun_c_endpoint.specs.HandleLaws.{IsErrorNumber};
ghost use Rattle.stun_c_endpoint.specs.Kept.{Judge};
ghost use Rattle.stun_c_endpoint.specs.Lookups.{IdentifiesAs, identified_at};
ghost use Rattle.stun_c_endpoint.specs.ServerLaws.{Names};
ghost use Rattle.stun_c_endpoint.specs.Told.{IsTold, ReceivesAs, failed, of_users, outcome_at};
ghost use Rattle.stun_c_endpoint.specs.Told.{outcome_by, told_of};
ghost use Rattle.stun_c_endpoint.specs.declared.received.Received.{Received};
ghost use Rattle.stun_endpoint.specs.Causes.{cause_for};
ghost use Rattle.stun_endpoint.specs.Lookups.{LookupSeen, identified_by, looked_up};
ghost use Rattle.stun_endpoint.specs.Settings.{Settings};
ghost use Rattle.stun_endpoint.specs.ShortTerm as short_term;
ghost use Rattle.stun_endpoint.specs.declared.received.DropReason.{DropReason};
ghost use Rattle.stun_handles.specs.Addresses.{socket_address};
ghost use Rattle.stun_handles.specs.declared.address.Address.{Address};
ghost use Rattle.stun_numbers.specs.Refusals.{refusal_number};
ghost use Rattle.stun_numbers.specs.declared.refusal.Refusal.{Refusal};
ghost use Rattle.stun_numbers.specs.declared.refusal.Refusal.TheVariants.{BufferTooSmall};

/// States that a caller receives the outcomes of the library.
///
/// - `judged`: the outcome is the one that the library returns for the same datagram, from the same
///   address and at the same time, with the server and the users in the handles.
/// - `cause`: a call that returns the cause of a refusal returns the library's cause.
/// - `kind`: the kind in the caller's struct is the number that the call returns.
/// - `needed`: if a response does not fit into the buffer, the struct states the length of the
///   response, which is greater than the length of the buffer.
pub fn datagrams_are_judged_as_by_the_library()
    ensures judged { (judge : Judge) (from : Address) (seconds : ℕ) (bytes : List ℕ) (n : ℕ)
        (out after : List ℕ) (r told : Received)
        → ReceivesAs (outcome_at (Ok judge) from seconds bytes r) (pos n) out after r told
        → (address : SocketAddr) × (socket_address from ≡ Some address)
        × (seconds ≤ 1099511627776)
        × IsTold (outcome_by judge address seconds bytes) (pos n) out after r told }
    ensures kind { (judge : Result Judge Refusal) (from : Address) (seconds : ℕ)
        (bytes : List ℕ) (n : ℕ) (out after : List ℕ) (r told : Received)
        → ReceivesAs (outcome_at judge from seconds bytes r) (pos n) out after r told
        → told.kind ≡ n }
    ensures needed { (judge : Judge) (from : Address) (seconds : ℕ) (bytes : List ℕ)
        (out after : List ℕ) (r told : Received)
        → ReceivesAs (outcome_at (Ok judge) from seconds bytes r)
        (refusal_number BufferTooSmall) out after r told → length out < told.needed }
    ensures cause { (realm : OfRealm) (from : Address) (seconds : ℕ) (bytes : List ℕ) (n : ℕ)
        → CausedAs (caused_at (Ok realm) from seconds bytes) (pos n)
        → (address : SocketAddr) × (socket_address from ≡ Some address)
        × (n ≡ cause_number
        (cause_for realm.settings (Some realm.users.registered) address seconds bytes)) }
{}

/// States that the fields `why` and `code` of the caller's struct tell the reasons to drop a
/// datagram apart: if two dropped datagrams have the same numbers there, the library dropped both
/// for the same reason.
pub fn reasons_are_told_apart()
    ensures { (one other : DropReason) (r before : Received)
        → (told_of (of_users (short_term.dropped one)) r).why
        ≡ (told_of (of_users (short_term.dropped other)) before).why
        → (told_of (of_users (short_term.dropped one)) r).code
        ≡ (told_of (of_users (short_term.dropped other)) before).code → one ≡ other }
{}

/// States that a call asks its caller to look up the user of a request only if the library does.
/// The caller then receives the name of this user, or the hash of the name, from the library's
/// result.
pub fn users_are_looked_up_as_by_the_library()
    ensures { (s : Settings) (from : Address) (seconds : ℕ) (bytes out after : List ℕ)
        (r told : Received)
        → IdentifiesAs (identified_at (Ok s) from seconds bytes r) (pos 5) out after r told
        → (address : SocketAddr) × (lookup : LookupSeen) × (socket_address from ≡ Some address)
        × (identified_by s address seconds bytes ≡ looked_up lookup) × (after ≡ out)
        × Names lookup.user told }
{}

/// States that a call that fails writes only to the caller's struct, which then has the kind 7 and
/// the length 0.
pub fn errors_write_nothing()
    ensures received { (judge : Result Judge Refusal) (from : Address) (seconds : ℕ)
        (bytes : List ℕ) (result : ℤ) (out after : List ℕ) (r told : Received)
        → ReceivesAs (outcome_at judge from seconds bytes (failed r)) result out after (failed r)
        told → IsErrorNumber result → (after ≡ out) × (told.kind ≡ 7) × (told.length ≡ 0) }
    ensures identified { (s : Result Settings Refusal) (from : Address) (seconds : ℕ)
        (bytes : List ℕ) (result : ℤ) (out after : List ℕ) (r told : Received)
        → IdentifiesAs (identified_at s from seconds bytes (failed r)) result out after (failed r)
        told → IsErrorNumber result → (after ≡ out) × (told.kind ≡ 7) × (told.length ≡ 0) }
{}
