//! The errors of reading and writing.
ghost use Rattle.std.specs.Prelude.{◌≡◌};
ghost use Rattle.stun_cli.specs.declared.failure.Failure.TheVariants.{Memory};

use std::alloc::AllocError;

/// Why an input could not be read, or a text could not be written.
#[derive(Clone, Copy, Debug, PartialEq, Eq)]
pub enum Failure {
    /// A read or a write failed.
    Io,
    /// An allocation failed.
    Memory,
    /// The input is longer than allowed, or has not ended within the allowed number of reads.
    NoEnd,
}

impl From<AllocError> for Failure {
    ghost from_gives = { λ _ failure. failure ≡ Memory };

    fn from(_error: AllocError) -> Failure {
        Failure::Memory
    }
}
