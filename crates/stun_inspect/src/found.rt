//! The finding of a command for the bytes of a message.
ghost use Rattle.std.specs.Prelude.{◌≡◌};
ghost use Rattle.stun_cli.specs.Verdict.{status_of};
ghost use Rattle.stun_inspect.specs.Found.{found_of, status_of_found};

use stun_cli::status::Status;
use stun_cli::verdict::Verdict;

/// The finding of a command for the bytes of a message.
#[derive(Clone, Copy, Debug, PartialEq, Eq)]
pub enum Found {
    /// The bytes are a message and, for `verify`, its signature is valid.
    Good,
    /// The bytes are a message whose signature is invalid, or whose integrity attribute is
    /// malformed.
    Invalid,
    /// The bytes are a message that is not signed.
    Unsigned,
    /// The bytes are not a message.
    NotAMessage,
}

impl Found {
    /// Returns the finding for a verdict.
    pub fn of_verdict(verdict: Verdict) -> Found
        ensures found { result ≡ found_of verdict }
        ensures status { status_of_found result ≡ status_of verdict }
    {
        match verdict {
            Verdict::Valid(_) => Found::Good,
            Verdict::NoIntegrity => Found::Unsigned,
            Verdict::OtherDigest | Verdict::MalformedIntegrity => Found::Invalid,
            Verdict::NotAMessage(_) | Verdict::BadInput => Found::NotAMessage,
        }
    }

    /// Returns the status of a command whose only message has this finding.
    pub fn status(self) -> Status
        ensures { result ≡ status_of_found self }
    {
        match self {
            Found::Good => Status::Good,
            _ => Status::Bad,
        }
    }
}
