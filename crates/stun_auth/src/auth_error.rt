//! The error of a long-term authenticator that refuses a message.

ghost use Rattle.std.specs.Prelude.{◌≡◌, None};

use std::fmt::{Debug, Display};
use std::marker::Model;
use stun_base::algorithm::IntegrityAlgorithm;
use thiserror::Error;

/// The error with which a long-term client or server refuses a message. `R` is the type of that
/// side's reasons.
///
/// Contracts: the value is the reason.
#[derive(Clone, Copy, Debug, PartialEq, Eq, Error)]
#[error("{reason}")]
pub struct LongTermAuthError<R: Debug + Display> {
    reason: R,
}

impl<R: Debug + Display> Model for LongTermAuthError<R> {
    ghost Value = { R };

    ghost view = { λ error. error.reason };

    ghost inverse = { λ reason. record { reason = reason } };
}

impl<R: Copy + Debug + Display> LongTermAuthError<R> {
    /// Creates an error with this reason.
    pub(crate) fn new(reason: R) -> Self
        ensures { result ≡ reason }
    {
        LongTermAuthError { reason }
    }

    /// Returns the reason for which the message was refused.
    pub fn reason(&self) -> R
        ensures { result ≡ self.now }
    {
        self.reason
    }

    /// Returns `None` for every error, because nothing is known about the signature of a message
    /// that was refused.
    pub fn integrity(&self) -> Option<IntegrityAlgorithm>
        ensures { result ≡ None }
    {
        None
    }
}
