//! The roles of two agents, and the rule that resolves a conflict between them (RFC 8445, sections
//! 6.1.1 and 7.3.1.1).

ghost use Rattle.std.specs.Prelude.{◌≡◌};
ghost use Rattle.stun_ice.specs.Roles.{is_same_role, opposite, role_after_check};

/// The role of an agent (RFC 8445, section 6.1.1).
#[derive(Clone, Copy, Debug, PartialEq, Eq)]
pub enum Role {
    /// The agent nominates the pairs to use.
    Controlling,
    /// The agent waits for the nominations of the other agent.
    Controlled,
}

impl Role {
    /// Returns the other role.
    pub fn opposite(self) -> Role
        ensures { result ≡ opposite self }
    {
        match self {
            Role::Controlling => Role::Controlled,
            Role::Controlled => Role::Controlling,
        }
    }

    /// Returns whether the two roles are equal.
    pub(crate) fn is(self, other: Role) -> bool
        ensures { result ≡ is_same_role self other }
    {
        match (self, other) {
            (Role::Controlling, Role::Controlling) => true,
            (Role::Controlling, Role::Controlled) => false,
            (Role::Controlled, Role::Controlling) => false,
            (Role::Controlled, Role::Controlled) => true,
        }
    }

    /// Returns the role that an agent has after a check, or `None` if the sender of the check must
    /// switch its role. `self` and `ours` are the role and the tie-breaker of the agent. `theirs`
    /// is the tie-breaker of the sender if the check states that the sender has the same role as
    /// the agent, and otherwise `None`.
    pub(crate) fn resolve_conflict(self, ours: u64, theirs: Option<u64>) -> Option<Role>
        ensures { result ≡ role_after_check self ours theirs }
    {
        let Some(theirs) = theirs else {
            return Some(self);
        };
        match self {
            Role::Controlling if theirs <= ours => None,
            Role::Controlling => Some(Role::Controlled),
            Role::Controlled if theirs <= ours => Some(Role::Controlling),
            Role::Controlled => None,
        }
    }
}
