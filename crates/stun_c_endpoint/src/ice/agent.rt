//! Creates an ICE agent, and reads and sets its role, its tie-breaker and its peer.

ghost use Rattle.std.specs.Prelude.{◌≡◌, IfOk, None, OnErr, OnOk, Some};
ghost use Rattle.stun_c_endpoint.specs.Agents.{MakesAgent, agent_given, agent_refusal};
ghost use Rattle.stun_c_endpoint.specs.Agents.{MakesOffering, SetsPeer, SetsRole, SetsTieBreaker};
ghost use Rattle.stun_c_endpoint.specs.Agents.{controlling_answer, knowing_agent, offering_agent};
ghost use Rattle.stun_c_endpoint.specs.Agents.{is_controlling, refusal_of_building, role_if};
ghost use Rattle.stun_c_endpoint.specs.Agents.{side_given_refusal};
ghost use Rattle.stun_c_endpoint.specs.Kept.{agent_of};
ghost use Rattle.stun_c_endpoint.specs.code.Building.{Builds, RefusedFor};
ghost use Rattle.stun_handles.specs.Numbers.{done_answer, number_answer};
ghost use Rattle.stun_c_endpoint.specs.declared.handle.endpoint.Kept.TheVariants as kind;

use crate::handle::endpoint::{EndpointHandle, Kept};
use std::alloc::{AllocError, Global};
use std::marker::Model;
use stun_ice::checker::{BuildError, Checker, Credentials};
use stun_ice::role::Role;
use stun_numbers::refusal::Refusal;
use stun_numbers::text::text;

/// Returns the controlling role if `is_controlling` is true, and otherwise the controlled role.
pub fn role_if(is_controlling: bool) -> Role
    ensures { result ≡ role_if is_controlling }
{
    if is_controlling {
        Role::Controlling
    } else {
        Role::Controlled
    }
}

/// Returns `true` if the role is the controlling role.
pub fn is_controlling(role: Role) -> bool
    ensures { result ≡ is_controlling role }
{
    match role {
        Role::Controlling => true,
        Role::Controlled => false,
    }
}

/// The username fragment and the password of one side, as a caller passes them.
///
/// Contracts: both are lists of bytes.
#[derive(Drop)]
pub struct Side<'a> {
    pub name: &'a [u8],
    pub password: &'a [u8],
}

impl<'a> Model for Side<'a> {
    ghost use Rattle.stun_c_endpoint.specs.Agents.{SideGiven};

    ghost Value = { SideGiven };

    ghost view = { λ side. record {
      name = side.name.now;
      password = side.password.now;
    } };
}

/// The arguments for creating an agent whose peer is known.
///
/// Contracts: the texts are lists of bytes, and the tie-breaker is a number.
#[derive(Drop)]
pub struct Given<'a> {
    pub name: &'a [u8],
    pub password: &'a [u8],
    pub peer_name: &'a [u8],
    pub peer_password: &'a [u8],
    pub tie_breaker: u64,
    pub is_controlling: bool,
}

impl<'a> Model for Given<'a> {
    ghost use Rattle.stun_c_endpoint.specs.Agents.{AgentGiven};

    ghost Value = { AgentGiven };

    ghost view = { λ given. record {
      name = given.name.now;
      password = given.password.now;
      peer_name = given.peer_name.now;
      peer_password = given.peer_password.now;
      tie_breaker = given.tie_breaker;
      controls = given.is_controlling;
    } };
}

/// Converts the library's error for an agent that could not be created.
fn convert_build_error(error: BuildError) -> Refusal
    ensures { result ≡ refusal_of_building error }
{
    match error {
        BuildError::NameLength => Refusal::BadArgument,
        BuildError::ColonInName => Refusal::BadArgument,
        BuildError::PasswordLength => Refusal::BadArgument,
        BuildError::OutOfMemory => Refusal::OutOfMemory,
    }
}

/// Moves an agent to the heap.
fn box_checker(alloc: Global, checker: Checker<Global>) -> Result<Box<Kept, Global>, AllocError>
    ensures { IfOk result (λ made. made.value ≡ kind.Checker checker) }
{
    match Box::new(alloc, Kept::Checker(checker)) {
        Ok(made) => Ok(made),
        Err(_) => Err(AllocError),
    }
}

impl<'a> Given<'a> {
    /// Creates the agent in an empty handle. Returns 0, or a negative error code.
    pub fn place(&self, alloc: Global, handle: &mut EndpointHandle) -> i64
        requires { handle.old.kept ≡ None }
        ensures { MakesAgent self.now result handle.new.kept }
    {
        match self.make_checker(alloc) {
            Ok(checker) => match box_checker(alloc, checker) {
                Ok(made) => {
                    handle.put(alloc, made);
                    0
                }
                Err(_) => Refusal::OutOfMemory.code(),
            },
            Err(refusal) => refusal.code(),
        }
    }

    /// Creates the agent from these arguments.
    #[tactic(auto, unfolding(crate::specs::Agents::agent_refusal))]
    fn make_checker(&self, alloc: Global) -> Result<Checker<Global>, Refusal>
        ensures { Builds (agent_refusal self.now) (agent_given self.now) result }
    {
        let local = Credentials {
            name: text(self.name)?,
            password: text(self.password)?,
        };
        let remote = Credentials {
            name: text(self.peer_name)?,
            password: text(self.peer_password)?,
        };
        match Checker::new(
            alloc,
            local,
            remote,
            self.tie_breaker,
            role_if(self.is_controlling),
        ) {
            Ok(checker) => Ok(checker),
            Err(error) => Err(convert_build_error(error)),
        }
    }
}

impl<'a> Side<'a> {
    /// Creates an agent that has these credentials and does not know its peer yet, in an empty
    /// handle. Returns 0, or a negative error code.
    pub fn place(
        &self,
        alloc: Global,
        tie_breaker: u64,
        is_controlling: bool,
        handle: &mut EndpointHandle,
    ) -> i64
        requires { handle.old.kept ≡ None }
        ensures { MakesOffering self.now tie_breaker is_controlling result handle.new.kept }
    {
        match self.make_checker(alloc, tie_breaker, is_controlling) {
            Ok(checker) => match box_checker(alloc, checker) {
                Ok(made) => {
                    handle.put(alloc, made);
                    0
                }
                Err(_) => Refusal::OutOfMemory.code(),
            },
            Err(refusal) => refusal.code(),
        }
    }

    /// Creates an agent that has these credentials, and whose peer is not known yet.
    #[tactic(auto, unfolding(crate::specs::Agents::side_given_refusal))]
    fn make_checker(
        &self,
        alloc: Global,
        tie_breaker: u64,
        is_controlling: bool,
    ) -> Result<Checker<Global>, Refusal>
        ensures { Builds (side_given_refusal self.now)
            (offering_agent self.now tie_breaker is_controlling) result }
    {
        let local = Credentials {
            name: text(self.name)?,
            password: text(self.password)?,
        };
        match Checker::offer(alloc, local, tie_breaker, role_if(is_controlling)) {
            Ok(checker) => Ok(checker),
            Err(error) => Err(convert_build_error(error)),
        }
    }

    /// Sets the credentials of this agent's peer.
    #[tactic(auto, unfolding(crate::specs::Agents::side_given_refusal))]
    fn set(&self, checker: &mut Checker<Global>) -> Result<(), Refusal>
        ensures refused { RefusedFor (side_given_refusal self.now) result }
        ensures set { OnOk result (checker.new ≡ knowing_agent checker.old self.now) }
        ensures err { OnErr result (checker.new ≡ checker.old) }
    {
        let remote = Credentials {
            name: text(self.name)?,
            password: text(self.password)?,
        };
        match checker.set_remote(remote) {
            Ok(()) => Ok(()),
            Err(error) => Err(convert_build_error(error)),
        }
    }

    /// Sets the credentials of the agent's peer. Fails with `WrongHandle` if the value is not an
    /// agent.
    pub fn set_at(&self, kept: &mut Kept) -> Result<(), Refusal>
        ensures { SetsPeer (agent_of kept.old) self.now (done_answer result) (Some kept.old)
            (Some kept.new) }
    {
        match kept {
            Kept::Checker(checker) => self.set(checker),
            _ => Err(Refusal::WrongHandle),
        }
    }
}

/// Returns 1 if the agent has the controlling role, and otherwise 0. Fails with `WrongHandle` if
/// the value is not an agent.
pub fn controlling(kept: &Kept) -> Result<u32, Refusal>
    ensures { number_answer result ≡ controlling_answer (agent_of kept.now) }
{
    match kept {
        Kept::Checker(checker) => Ok(u32::from(is_controlling(checker.role()))),
        _ => Err(Refusal::WrongHandle),
    }
}

/// Sets the tie-breaker of the agent. Fails with `WrongHandle` if the value is not an agent.
pub fn set_tie_breaker(kept: &mut Kept, tie_breaker: u64) -> Result<(), Refusal>
    ensures { SetsTieBreaker (agent_of kept.old) tie_breaker (done_answer result) (Some kept.old)
        (Some kept.new) }
{
    match kept {
        Kept::Checker(checker) => {
            checker.set_tie_breaker(tie_breaker);
            Ok(())
        }
        _ => Err(Refusal::WrongHandle),
    }
}

/// Sets the role of the agent. Fails with `WrongHandle` if the value is not an agent.
pub fn set_role(kept: &mut Kept, is_controlling: bool) -> Result<(), Refusal>
    ensures { SetsRole (agent_of kept.old) is_controlling (done_answer result) (Some kept.old)
        (Some kept.new) }
{
    match kept {
        Kept::Checker(checker) => {
            checker.set_role(role_if(is_controlling));
            Ok(())
        }
        _ => Err(Refusal::WrongHandle),
    }
}
