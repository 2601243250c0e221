//! The exit statuses of the programs.
ghost use Rattle.std.specs.Prelude.{◌≡◌};
ghost use Rattle.std.specs.Process.{exit_status};
ghost use Rattle.stun_cli.specs.Status.{exit_code};

use std::process::ExitCode;

/// How a command ended.
#[derive(Clone, Copy, Debug, PartialEq, Eq)]
pub enum Status {
    /// The command has a result, and it is good.
    Good,
    /// The command has a result, and it is a refusal.
    Bad,
    /// The command has no result, and ends with the exit status of a refusal.
    Failed,
    /// The arguments were wrong, so the command judged nothing.
    NotJudged,
}

impl Status {
    /// Returns the exit status of the process: 0 for `Good`, 1 for `Bad` and `Failed`, and 2 for
    /// `NotJudged`.
    pub fn code(self) -> ExitCode
        ensures { exit_status result ≡ exit_code self }
    {
        ExitCode::from(match self {
            Status::Good => 0,
            Status::Bad | Status::Failed => 1,
            Status::NotJudged => 2,
        })
    }
}
