//! Judges checks of the peer (RFC 8489, section 9.1.3; RFC 8445, section 7.3).

ghost use Rattle.std.specs.Prelude.{◌≡◌, ◌&&◌, Some, not};
ghost use Rattle.stun_types.specs.Integrity.{deciding, verified_algorithm};
ghost use Rattle.stun_ice.specs.Checks.{by_priority, by_signature, is_nominated};
ghost use Rattle.stun_ice.specs.Checks.{judged_of, role_of, verdict_of};

use crate::checker::Checker;
use crate::parts::{
    has_use_candidate, is_understood, read_peer_name, read_priority, read_tie_breaker,
    read_username,
};
use crate::received::{Judged, Refusal};
use crate::role::Role;
use std::alloc::Allocator;
use stun_types::attribute::RawAttribute;
use stun_types::message::{IntegrityAlgorithm, Message};

/// The contents of an accepted check, and the algorithm of its signature.
#[derive(Clone, Copy)]
pub(crate) struct Acceptance {
    pub(crate) algorithm: IntegrityAlgorithm,
    /// The role of the receiver after the check.
    pub(crate) role: Role,
    pub(crate) priority: u32,
    pub(crate) nominated: bool,
}

/// The outcome of a check, and the algorithm with which its answer is signed.
#[derive(Clone, Copy)]
pub(crate) enum Verdict {
    Accepted(Acceptance),
    Conflict(IntegrityAlgorithm),
    Refused(Refusal, Option<IntegrityAlgorithm>),
}

impl Verdict {
    /// Returns the outcome for the caller. `before` is the role that the agent had before the
    /// check.
    pub(crate) fn to_judged(self, before: Role) -> Judged
        ensures { result ≡ judged_of before self }
    {
        match self {
            Verdict::Accepted(accepted) => Judged::Accepted {
                priority: accepted.priority,
                nominated: accepted.nominated,
                switched: !before.is(accepted.role),
            },
            Verdict::Conflict(_) => Judged::RoleConflict,
            Verdict::Refused(refusal, _) => Judged::Refused(refusal),
        }
    }
}

impl Verdict {
    /// Returns the role that an agent has after the check. `before` is its role before the check.
    pub(crate) fn choose_role(self, before: Role) -> Role
        ensures { result ≡ role_of before self }
    {
        match self {
            Verdict::Accepted(accepted) => accepted.role,
            Verdict::Conflict(_) => before,
            Verdict::Refused(_, _) => before,
        }
    }
}

impl<A: Allocator> Checker<A> {
    /// Judges a check.
    pub(super) fn judge_check(&self, check: &Message<'_>) -> Verdict
        ensures { result ≡ verdict_of self.now check.now }
    {
        let Some((place, attribute)) = check.deciding_attribute() else {
            return Verdict::Refused(Refusal::BadRequest, None);
        };
        let Some(name) = read_username(check) else {
            return Verdict::Refused(Refusal::BadRequest, None);
        };
        // Only the first half of the name is checked, so that checks can be answered before the
        // peer's credentials arrive (RFC 8445, section 7.3).
        if read_peer_name(&self.name, name).is_none() {
            return Verdict::Refused(Refusal::Unauthenticated, None);
        }
        self.judge_by_signature(check, place, &attribute)
    }

    /// Judges the signature of a check whose USERNAME is already accepted. `attribute` is the
    /// integrity attribute that decides, and `place` is its offset.
    fn judge_by_signature(
        &self,
        check: &Message<'_>,
        place: usize,
        attribute: &RawAttribute<'_>,
    ) -> Verdict
        requires { deciding check.now ≡ Some (place, attribute.now) }
        ensures { result ≡ by_signature self.now check.now
            (verified_algorithm check.now self.now.password) }
    {
        match check.validate_integrity_prepared(place, attribute, &self.password) {
            Ok(algorithm) => self.judge_by_attributes(check, algorithm),
            Err(_) => Verdict::Refused(Refusal::Unauthenticated, None),
        }
    }

    /// Judges a check with a valid signature by its other attributes.
    fn judge_by_attributes(&self, check: &Message<'_>, algorithm: IntegrityAlgorithm) -> Verdict
        ensures { result ≡ by_signature self.now check.now (Some algorithm) }
    {
        if !is_understood(check) {
            return Verdict::Refused(Refusal::UnknownAttribute, Some(algorithm));
        }
        match read_priority(check) {
            Some(priority) => self.judge_by_role(check, algorithm, priority),
            None => Verdict::Refused(Refusal::BadRequest, Some(algorithm)),
        }
    }

    /// Judges a check with a well-formed PRIORITY by the roles of both sides.
    fn judge_by_role(
        &self,
        check: &Message<'_>,
        algorithm: IntegrityAlgorithm,
        priority: u32,
    ) -> Verdict
        ensures { result ≡ by_priority self.now check.now algorithm (Some priority) }
    {
        let theirs = read_tie_breaker(self.role, check);
        match self.role.resolve_conflict(self.tie_breaker, theirs) {
            Some(role) => Verdict::Accepted(Acceptance {
                algorithm,
                role,
                priority,
                nominated: is_nominated(role, check),
            }),
            None => Verdict::Conflict(algorithm),
        }
    }
}

/// Returns whether a check nominates its pair. `role` is the role of its receiver.
fn is_nominated(role: Role, check: &Message<'_>) -> bool
    ensures { result ≡ is_nominated role check.now }
{
    match role {
        Role::Controlling => false,
        Role::Controlled => has_use_candidate(check),
    }
}
