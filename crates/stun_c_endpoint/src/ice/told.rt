//! The structs in which a caller receives a new check, and the outcome of a datagram.

ghost use Rattle.std.specs.Prelude.{◌≡◌};
ghost use Rattle.stun_ice.specs.Received.{dropped};
ghost use Rattle.stun_ice.specs.declared.received.Outcome.TheVariants as Ended;
ghost use Rattle.stun_c_endpoint.specs.Checks.{check_told};
ghost use Rattle.stun_c_endpoint.specs.Judged.{IsMapped, failure_told, ice_blank};
ghost use Rattle.stun_c_endpoint.specs.Judged.{ice_drop_number, ice_failed, judged_told};
ghost use Rattle.stun_c_endpoint.specs.Judged.{outcome_told};

use crate::ice::agent::is_controlling;
use crate::received::{FAILED, id_bytes};
use std::alloc::Global;
use stun_handles::address::Address;
use stun_ice::check::Check;
use stun_ice::received::{DropReason, Failure, Judged, Mapped, Outcome};

/// The size of `IceReceived` in bytes, which its first field must state.
pub const ICE_RECEIVED_SIZE: usize = 72;

/// The data that the agent needs to judge the answer to a check. The bytes of the check are not
/// among them.
#[repr(C)]
#[derive(Clone, Copy)]
pub struct IceCheck {
    /// The transaction ID.
    pub id: [u8; 12],
    /// The address that the check was sent to.
    pub to: Address,
    /// Whether the check states that its sender has the controlling role.
    pub is_controlling: bool,
    /// Whether the check nominates its pair.
    pub nominates: bool,
}

/// The outcome of a datagram at an ICE agent.
#[repr(C)]
pub struct IceReceived {
    /// The size of this struct in the caller's program.
    pub size: usize,
    /// The outcome, a `stunp_kind`.
    pub kind: u32,
    /// The reason for which the datagram is dropped, a `stunp_drop`.
    pub why: u32,
    /// How a check of the peer was judged, or how a check of this agent has ended, a
    /// `stunp_ice_outcome`.
    pub outcome: u32,
    /// The code of an error response.
    pub code: u32,
    /// The priority of an accepted check.
    pub priority: u32,
    /// The type of a comprehension-required attribute in the answer that the agent does not
    /// understand.
    pub not_understood: u16,
    /// Whether an accepted check nominates its pair.
    pub nominated: bool,
    /// Whether the agent has switched its role because of the datagram.
    pub switched: bool,
    /// The length of the answer that was written.
    pub length: usize,
    /// The length of the answer, if the buffer had no room for it.
    pub needed: usize,
    /// The address in a success response, from which the peer saw the check arrive.
    pub mapped: Address,
}

impl IceCheck {
    /// Converts a check to the struct that a caller stores.
    pub fn of(check: &Check<Global>) -> IceCheck
        ensures { result ≡ check_told check.now }
    {
        IceCheck {
            id: id_bytes(check.id()),
            to: Address::of(check.to()),
            is_controlling: is_controlling(check.role()),
            nominates: check.nominates(),
        }
    }
}

/// Returns the `stunp_drop` of a reason to drop a datagram.
fn drop_number(why: DropReason) -> u32
    ensures { result ≡ ice_drop_number why }
{
    match why {
        DropReason::NotStun => 1,
        DropReason::Malformed => 2,
        DropReason::WrongFingerprint => 3,
        DropReason::UnknownAttribute => 4,
        DropReason::OtherMethod => 5,
        DropReason::NotAsked => 6,
        DropReason::WrongSignature => 7,
    }
}

impl IceReceived {
    /// Sets the kind, and resets all other fields except the size.
    fn begin(&mut self, kind: u32)
        ensures { self.new ≡ ice_blank kind self.old }
    {
        self.kind = kind;
        self.why = 0;
        self.outcome = 0;
        self.code = 0;
        self.priority = 0;
        self.not_understood = 0;
        self.nominated = false;
        self.switched = false;
        self.length = 0;
        self.needed = 0;
        self.mapped = Address::of_start(None);
    }

    /// Sets the kind to `FAILED`, until another outcome is set. If the size is wrong, sets only the
    /// kind and the length, because the struct may lack the fields after them.
    pub fn fails(&mut self)
        ensures { self.new ≡ ice_failed self.old }
    {
        if self.size == ICE_RECEIVED_SIZE {
            self.begin(FAILED);
        } else {
            self.kind = FAILED;
            self.length = 0;
        }
    }

    /// Sets the outcome to a datagram that is dropped for this reason.
    pub fn dropped(&mut self, why: DropReason)
        ensures { self.new ≡ record (ice_blank 0 self.old) { why = ice_drop_number why } }
    {
        self.begin(0);
        self.why = drop_number(why);
    }

    /// Sets the outcome to an indication.
    pub fn indicated(&mut self)
        ensures { self.new ≡ ice_blank 3 self.old }
    {
        self.begin(3);
    }

    /// Sets the outcome to a check of the peer, with the length of the answer to it.
    pub fn checked(&mut self, judged: Judged, length: usize)
        ensures { self.new ≡ record (judged_told judged (ice_blank 1 self.old)) {
          length = length;
        } }
    {
        self.begin(1);
        self.set_judged(judged);
        self.length = length;
    }

    /// Sets the fields that say how a check of the peer was judged.
    fn set_judged(&mut self, judged: Judged)
        ensures { self.new ≡ judged_told judged self.old }
    {
        match judged {
            Judged::Accepted {
                priority,
                nominated,
                switched,
            } => {
                self.outcome = 1;
                self.priority = priority;
                self.nominated = nominated;
                self.switched = switched;
            }
            Judged::RoleConflict => {
                self.outcome = 2;
                self.code = 487;
            }
            Judged::Refused(refusal) => {
                self.outcome = 3;
                self.code = u32::from(refusal.code());
            }
        }
    }

    /// Sets the outcome to an answer that makes the pair valid, with the address from which the
    /// peer saw the check arrive.
    pub fn valid(&mut self, mapped: &Mapped)
        ensures told { self.new ≡ outcome_told (Ended.Valid mapped.now) self.new.mapped
            (ice_blank 4 self.old) }
        ensures mapped { IsMapped mapped.now self.new.mapped }
    {
        self.begin(4);
        self.outcome = 4;
        self.mapped = Address::of(mapped.address());
    }

    /// Sets the outcome to an answer in which the peer reports a role conflict. `switched` says
    /// whether this agent has switched its role.
    pub fn conflict(&mut self, switched: bool)
        ensures { self.new ≡ record (ice_blank 4 self.old) {
          outcome = 5;
          code = 487;
          switched = switched;
        } }
    {
        self.begin(4);
        self.outcome = 5;
        self.code = 487;
        self.switched = switched;
    }

    /// Sets the outcome to a check of this agent that has failed, with the reason.
    pub fn failed(&mut self, failure: Failure)
        ensures { self.new ≡ failure_told failure (ice_blank 4 self.old) }
    {
        self.begin(4);
        match failure {
            Failure::Error(code) => {
                self.outcome = 6;
                self.code = u32::from(code);
            }
            Failure::OtherPath => self.outcome = 7,
            Failure::NotUnderstood(kind) => {
                self.outcome = 8;
                self.not_understood = kind.value();
            }
            Failure::Malformed => self.outcome = 9,
        }
    }
}
