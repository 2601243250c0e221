//! Laws about the values in handles before and after a call. They do nothing when they run.

ghost use Rattle.std.specs.Prelude.{◌≡◌, ◌≢◌, ℕ, ℤ, pos, Bool, List, Option, Some, None, Result};
ghost use Rattle.std.specs.Prelude.{Err};
ghost use Rattle.stun_c_endpoint.specs.Agents.{AgentGiven, MakesAgent, MakesOffering, SetsPeer};
ghost use Rattle.stun_c_endpoint.specs.Agents.{SetsRole, SetsTieBreaker, SideGiven};
ghost use Rattle.stun_c_endpoint.specs.Clients.{client_in};
ghost use Rattle.stun_c_endpoint.specs.ClientsGiven.{ClientGiven, MakesClient};
ghost use Rattle.stun_c_endpoint.specs.Found.{judge_of_found};
ghost use Rattle.stun_c_endpoint.specs.Given.{Fills, Given, GivenAlone, LeavesFull, MakesOpen};
ghost use Rattle.stun_c_endpoint.specs.Given.{MakesServer, MakesShortTerm};
ghost use Rattle.stun_c_endpoint.specs.HandleLaws.{IsErrorNumber, Takes};
ghost use Rattle.stun_c_endpoint.specs.Judged.{Seen, SeesAs};
ghost use Rattle.stun_c_endpoint.specs.Kept.{agent_in};
ghost use Rattle.stun_c_endpoint.specs.Lookups.{long_term_in};
ghost use Rattle.stun_c_endpoint.specs.Users.{LeavesTable, LeavesTableOr, adding, adding_keys};
ghost use Rattle.stun_c_endpoint.specs.Users.{removing, table_for};
ghost use Rattle.stun_c_endpoint.specs.declared.handle.endpoint.Kept.{Kept};
ghost use Rattle.stun_c_endpoint.specs.declared.handle.endpoint.Kept.TheVariants as kind;
ghost use Rattle.stun_c_endpoint.specs.declared.ice.told.IceReceived.{IceReceived};
ghost use Rattle.stun_judging.specs.Realm.{RealmSeen};
ghost use Rattle.stun_endpoint.specs.Responding.{Responding};
ghost use Rattle.stun_endpoint.specs.Settings.{Settings};
ghost use Rattle.stun_endpoint.specs.ShortTerm.{Keys};
ghost use Rattle.stun_ice.specs.Agent.{Agent};
ghost use Rattle.stun_numbers.specs.declared.refusal.Refusal.{Refusal};
ghost use Rattle.stun_numbers.specs.declared.refusal.Refusal.TheVariants.{WrongHandle};

/// A call fails with `STUNP_EMPTY_HANDLE` if the handle is empty, and with `STUNP_WRONG_HANDLE` if
/// the handle has a value of a kind other than the one that the call needs. So stored keys cannot
/// be added to a table of users with short-term credentials (`stored`), and no table can be created
/// for a server without credentials (`table`).
pub fn other_handles_are_refused()
    ensures agent { (handle : Option Kept) → Takes kind.Checker handle (agent_in handle) }
    ensures client { (handle : Option Kept) → Takes kind.Client handle (client_in handle) }
    ensures server { (handle : Option Kept) → Takes kind.Server handle (long_term_in handle) }
    ensures added { (name password : List ℕ) (k : Kept)
        → ((u : RealmSeen) → k ≢ kind.Users u) → ((u : Keys) → k ≢ kind.ShortTermUsers u)
        → adding name password k ≡ Err WrongHandle }
    ensures removed { (name : List ℕ) (k : Kept)
        → ((u : RealmSeen) → k ≢ kind.Users u) → ((u : Keys) → k ≢ kind.ShortTermUsers u)
        → removing name k ≡ Err WrongHandle }
    ensures stored { (name sha1 sha256 : List ℕ) (k : Kept)
        → ((u : RealmSeen) → k ≢ kind.Users u)
        → adding_keys name sha1 sha256 k ≡ Err WrongHandle }
    ensures table { (k : Kept) → ((s : Settings) → k ≢ kind.Server s)
        → ((s : Responding) → k ≢ kind.ShortTerm s) → table_for k ≡ Err WrongHandle }
    ensures found { (name password sha1 sha256 : List ℕ) (has_password : Bool) (k : Kept)
        → ((s : Settings) → k ≢ kind.Server s)
        → judge_of_found name password has_password sha1 sha256 (Some k) ≡ Err WrongHandle }
{}

/// A call that creates a value returns 0 only if the handle was empty (`filled`). After an error,
/// the handle is unchanged: it is still empty, or still has its value.
pub fn handles_are_filled_once()
    ensures filled { (before now : Option Kept) → LeavesFull before now (pos 0) → before ≡ None }
    ensures agent { (g : AgentGiven) (result : ℤ) (before now : Option Kept)
        → Fills before now result (MakesAgent g) → IsErrorNumber result → now ≡ before }
    ensures offering { (s : SideGiven) (tie : ℕ) (controls : Bool) (result : ℤ)
        (before now : Option Kept) → Fills before now result (MakesOffering s tie controls)
        → IsErrorNumber result → now ≡ before }
    ensures server { (g : Given) (result : ℤ) (before now : Option Kept)
        → Fills before now result (MakesServer g) → IsErrorNumber result → now ≡ before }
    ensures short_term { (g : GivenAlone) (result : ℤ) (before now : Option Kept)
        → Fills before now result (MakesShortTerm g) → IsErrorNumber result → now ≡ before }
    ensures open { (g : GivenAlone) (result : ℤ) (before now : Option Kept)
        → Fills before now result (MakesOpen g) → IsErrorNumber result → now ≡ before }
    ensures client { (g : ClientGiven) (result : ℤ) (before now : Option Kept)
        → Fills before now result (MakesClient g) → IsErrorNumber result → now ≡ before }
{}

/// If a call on an agent or on a table of users fails, the handle has the value that it had before
/// the call.
pub fn errors_leave_what_a_handle_has()
    ensures peer { (a : Result Agent Refusal) (s : SideGiven) (result : ℤ)
        (before now : Option Kept) → SetsPeer a s result before now → IsErrorNumber result
        → now ≡ before }
    ensures tie_breaker { (a : Result Agent Refusal) (tie : ℕ) (result : ℤ)
        (before now : Option Kept) → SetsTieBreaker a tie result before now
        → IsErrorNumber result → now ≡ before }
    ensures role { (a : Result Agent Refusal) (controls : Bool) (result : ℤ)
        (before now : Option Kept) → SetsRole a controls result before now
        → IsErrorNumber result → now ≡ before }
    ensures datagram { (seen : Result Seen Refusal) (result : ℤ) (out out_after : List ℕ)
        (r after : IceReceived) (before now : Option Kept)
        → SeesAs seen result out out_after r after before now → IsErrorNumber result
        → now ≡ before }
    ensures table { (left : Result Kept Refusal) (result : ℤ) (before now : Option Kept)
        → LeavesTable left result before now → IsErrorNumber result → now ≡ before }
    ensures added { (left : Result Kept Refusal) (result : ℤ) (before now : Option Kept)
        → LeavesTableOr left result before now → IsErrorNumber result → now ≡ before }
{}
