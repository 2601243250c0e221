//! Judges responses to the checks of this agent (RFC 8445, section 7.2.5).

ghost use Rattle.std.specs.Prelude.{◌≡◌, [], ◌∷◌};
ghost use Rattle.std.specs.Option.{is_some};
ghost use Rattle.stun_base.specs.MessageType.{class_in};
ghost use Rattle.stun_extra.specs.Unknown.{unknown_types};
ghost use Rattle.stun_ice.specs.Parts.{error_in};
ghost use Rattle.stun_ice.specs.Responses.{of_error, of_path, of_response, of_success, of_unknown};
ghost use Rattle.stun_ice.specs.Responses.{is_answered, is_signed};

use crate::check::Check;
use crate::checker::Checker;
use crate::parts::{UNDERSTOOD, read_mapped_address};
use crate::received::{Failure, Mapped, Outcome};
use std::alloc::Allocator;
use std::net::SocketAddr;
use stun_extra::canonical_address::is_same_address;
use stun_extra::unknown::unknown_types;
use stun_types::attribute::ErrorCode;
use stun_types::message::{IntegrityAlgorithm, Message, MessageClass};

impl<A: Allocator> Checker<A> {
    /// Returns whether the peer has signed a response with the password and the algorithm of this
    /// agent's checks.
    pub(super) fn is_signed(&self, response: &Message<'_>) -> bool
        ensures { result ≡ is_signed self.now response.now }
    {
        let Some(remote) = &self.remote else {
            return false;
        };
        match response.validate_integrity_with_prepared_key(&remote.password) {
            Ok(IntegrityAlgorithm::Sha1) => true,
            Ok(IntegrityAlgorithm::Sha256) => false,
            Err(_) => false,
        }
    }

    /// Judges a response that answers a check and that the peer has signed: first by the address
    /// that it came from, and then by its attributes.
    pub(super) fn judge_answer(
        &self,
        response: &Message<'_>,
        from: SocketAddr,
        check: &Check<A>,
    ) -> Outcome
        ensures { result ≡ of_path self.now.role check.now from response.now }
    {
        if !is_same_address(from, check.to()) {
            return Outcome::Failed(Failure::OtherPath);
        }
        match unknown_types(response, &UNDERSTOOD).next() {
            Some(kind) => Outcome::Failed(Failure::NotUnderstood(kind)),
            None => self.judge_by_class(response, check),
        }
    }

    /// Judges a response whose attributes are understood.
    fn judge_by_class(&self, response: &Message<'_>, check: &Check<A>) -> Outcome
        ensures { result ≡ of_response self.now.role check.now response.now (class_in response.now) }
    {
        match response.class() {
            MessageClass::Success => judge_success(response),
            _ => self.judge_error(response, check),
        }
    }

    /// Judges an error response.
    fn judge_error(&self, response: &Message<'_>, check: &Check<A>) -> Outcome
        ensures { result ≡ of_error self.now.role check.now.role (error_in response.now) }
    {
        match response.attribute::<ErrorCode<'_>>() {
            Ok(error) if error.code() == 487 => Outcome::RoleConflict {
                switched: self.role.is(check.role()),
            },
            Ok(error) => Outcome::Failed(Failure::Error(error.code())),
            Err(_) => Outcome::Failed(Failure::Malformed),
        }
    }
}

/// Judges a success response.
fn judge_success(response: &Message<'_>) -> Outcome
    ensures { result ≡ of_success response.now }
{
    match read_mapped_address(response) {
        Some(address) => Outcome::Valid(Mapped::new(address, response.transaction_id())),
        None => Outcome::Failed(Failure::Malformed),
    }
}

/// Returns whether a response answers a check: it has the ID of the check.
pub(super) fn is_answered<A: Allocator>(check: &Check<A>, response: &Message<'_>) -> bool
    ensures { result ≡ is_answered check.now response.now }
{
    check.id() == response.transaction_id()
}
