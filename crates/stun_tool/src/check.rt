//! The command `check`, which verifies the signature of a message under a password.
ghost use Rattle.std.specs.Prelude.{◌≡◌, ◌≢◌, ◌≤◌, ◌+◌, ◌↔◌, length, IfSome};
ghost use Rattle.stun_tool.specs.Check.{Prints};
ghost use Rattle.stun_cli.specs.Input.{most_tries};

use crate::verdict::{line, verdict_on_input};
use std::alloc::Allocator;
use std::io::Write;
use stun_cli::input::{CountedRead, read_to_end};
use stun_cli::output::write_text;
use stun_cli::status::Status;

/// Reads a message as hexadecimal digits, and prints in one line whether it is signed with the
/// password that is the only argument. The bytes of the password are the key (RFC 8489, section
/// 9.1.1).
///
/// Returns `NotJudged` for any other number of arguments, and then neither reads nor prints.
/// Returns `Failed` if a read, a write or an allocation fails, or if the input does not end within
/// 1048576 reads. In these cases, at most the beginning of the line is printed.
#[tactic(auto, using(crate::proofs::VerdictLines::nothing_printed))]
pub fn check<R: CountedRead, W: Write, A: Allocator + Copy>(
    alloc: A,
    words: &[String],
    reader: &mut R,
    writer: &mut W,
) -> Status
    ensures wrong_words { (result ≡ Status.NotJudged) ↔ (length words.now ≢ 1) }
    ensures untouched { result ≡ Status.NotJudged → (reader.new ≡ reader.old)
        × (writer.new ≡ writer.old) }
    ensures prints { IfSome (R.remaining reader.old)
        (λ input. Prints words.now input result (W.contents writer.old) (W.contents writer.new)) }
    ensures asked { R.asked reader.new ≤ R.asked reader.old + most_tries }
{
    let [password] = words else {
        return Status::NotJudged;
    };
    let Ok(input) = read_to_end(alloc, reader, usize::MAX) else {
        return Status::Failed;
    };
    let Ok(verdict) = verdict_on_input(alloc, input.as_slice(), password.as_bytes()) else {
        return Status::Failed;
    };
    match write_text(writer, line(verdict).as_bytes()) {
        Ok(()) => verdict.status(),
        Err(_) => Status::Failed,
    }
}
