//! The errors of an agent.
use std::alloc::AllocError;
use stun_base::error::{StunParseError, StunWriteError};
use thiserror::Error;

/// The reason why a call of an agent failed. The agent is then unchanged.
#[derive(Clone, Copy, Debug, PartialEq, Eq, Error)]
pub enum StunError {
    /// A request with this transaction ID is already outstanding.
    #[error("The operation is already in progress")]
    AlreadyInProgress,
    /// No call of an agent returns this. It exists because the crate `stun-proto` has it.
    #[error("A required resource could not be found")]
    ResourceNotFound,
    /// No call of an agent returns this. It exists because the crate `stun-proto` has it.
    #[error("An operation timed out")]
    TimedOut,
    /// The call does not send messages of this class, or the agent has a fixed remote address and
    /// you passed a different one.
    #[error("Unexpected data was received")]
    ProtocolViolation,
    /// No call of an agent returns this. It exists because the crate `stun-proto` has it.
    #[error("Operation was aborted")]
    Aborted,
    /// The bytes do not start with a STUN header.
    #[error(transparent)]
    ParseError(StunParseError),
    /// No call of an agent returns this. It exists because the crate `stun-proto` has it.
    #[error(transparent)]
    WriteError(StunWriteError),
    /// An allocation failed.
    #[error("Out of memory")]
    OutOfMemory,
}

/// The request to send has more bytes than the caller allowed (`StunAgent::poll_transmit_within`).
#[derive(Clone, Copy, Debug, PartialEq, Eq, Error)]
#[error("No room for what is to be sent")]
pub struct NoRoom;

impl From<StunParseError> for StunError {
    ghost use Rattle.std.specs.Prelude.{◌≡◌};
    ghost use Rattle.stun_agent.specs.declared.error.StunError.TheVariants.{ParseError};

    ghost from_gives = { λ inner error. error ≡ ParseError inner };

    fn from(error: StunParseError) -> StunError {
        StunError::ParseError(error)
    }
}

impl From<StunWriteError> for StunError {
    ghost use Rattle.std.specs.Prelude.{◌≡◌};
    ghost use Rattle.stun_agent.specs.declared.error.StunError.TheVariants.{WriteError};

    ghost from_gives = { λ inner error. error ≡ WriteError inner };

    fn from(error: StunWriteError) -> StunError {
        StunError::WriteError(error)
    }
}

impl From<AllocError> for StunError {
    ghost use Rattle.std.specs.Prelude.{◌≡◌};
    ghost use Rattle.stun_agent.specs.declared.error.StunError.TheVariants.{OutOfMemory};

    ghost from_gives = { λ _ error. error ≡ OutOfMemory };

    fn from(_error: AllocError) -> StunError {
        StunError::OutOfMemory
    }
}
