//! The command `serve`, which makes the calls of a script on a server.
ghost use Rattle.std.specs.Prelude.{◌≡◌, ◌≢◌, ◌≤◌, ◌+◌, ◌↔◌, length, true, false, IfOk};
ghost use Rattle.stun_cli.specs.Input.{most_tries};
ghost use Rattle.stun_tool.specs.Serve.{PrintsWrongLineAlone};

use crate::script::{Script, read_script};
use std::alloc::{AllocError, Allocator, Global};
use std::io::Write;
use stun_cli::failure::Failure;
use stun_cli::input::{CountedRead, read_to_end};
use stun_cli::output::write_text;
use stun_cli::status::Status;
use stun_cli::verdict::refusal_line;
use stun_proto::auth::LongTermServerAuth;
use stun_proto::replay;
use stun_proto::replay::{ServerCall, ServerReply};
use stun_types::message::StunWriteError;

/// Reads a whole script of calls, makes the calls on a new long-term server, whose realm is the
/// only argument, and prints a line for each reply (RFC 8489, section 9.2.4).
///
/// If a line is not a call, the command makes no calls, prints only `wrong line N` for the first
/// such line, and returns `Bad`. A refusal by the server is a reply like any other, and the status
/// is `Good`.
///
/// Returns `NotJudged` for other arguments, and prints nothing. Returns `Failed` if a read, a write
/// or an allocation fails, or if the input does not end within 1048576 reads. After a failed read
/// nothing is printed. After any other failure nothing more is printed.
pub fn serve<R: CountedRead, W: Write>(
    alloc: Global,
    words: &[String],
    reader: &mut R,
    writer: &mut W,
) -> Status
    ensures wrong_words { (result ≡ Status.NotJudged) ↔ (length words.now ≢ 1) }
    ensures untouched { result ≡ Status.NotJudged → (reader.new ≡ reader.old)
        × (writer.new ≡ writer.old) }
    ensures wrong_line { result ≡ Status.Bad
        → PrintsWrongLineAlone (W.contents writer.old) (W.contents writer.new) }
    ensures failed_read { R.failed reader.new ≡ true → length words.now ≡ 1
        → (result ≡ Status.Failed) × (writer.new ≡ writer.old) }
    ensures asked { R.asked reader.new ≤ R.asked reader.old + most_tries }
{
    let [realm] = words else {
        return Status::NotJudged;
    };
    let Ok(input) = read_to_end(alloc, reader, usize::MAX) else {
        return Status::Failed;
    };
    match print_script(alloc, realm.as_str(), input.as_slice(), writer) {
        Ok(true) => Status::Good,
        Ok(false) => Status::Bad,
        Err(_) => Status::Failed,
    }
}

/// Makes the calls of a script and prints the replies, or prints the number of its first wrong
/// line. Returns whether the calls were made.
fn print_script<W: Write>(
    alloc: Global,
    realm: &str,
    script: &[u8],
    writer: &mut W,
) -> Result<bool, Failure>
    ensures { IfOk result (λ is_run. is_run ≡ false
        → PrintsWrongLineAlone (W.contents writer.old) (W.contents writer.new)) }
{
    match read_script(alloc, script)? {
        Script::Calls(calls) => {
            print_replies(alloc, realm, calls.as_slice(), writer)?;
            Ok(true)
        }
        Script::WrongLine(number) => {
            print_wrong_line(alloc, number, writer)?;
            Ok(false)
        }
    }
}

/// Prints that the line with this number is wrong.
fn print_wrong_line<W: Write, A: Allocator>(
    alloc: A,
    number: usize,
    writer: &mut W,
) -> Result<(), Failure>
    ensures { IfOk result
        (λ _. PrintsWrongLineAlone (W.contents writer.old) (W.contents writer.new)) }
{
    let line = format!(in alloc; "wrong line {number}\n")?;
    write_text(writer, line.as_bytes())?;
    Ok(())
}

/// Makes the calls on a new server, and prints a line for each reply.
fn print_replies<W: Write, A: Allocator + Copy>(
    alloc: A,
    realm: &str,
    calls: &[ServerCall],
    writer: &mut W,
) -> Result<(), Failure> {
    let realm = String::from_str(alloc, realm)?;
    let mut server = LongTermServerAuth::new(alloc, realm);
    let Ok(replies) = replay::serve(alloc, &mut server, calls) else {
        return Err(Failure::Memory);
    };
    for reply in replies.as_slice() {
        let line = line_of(alloc, reply)?;
        write_text(writer, line.as_bytes())?;
    }
    Ok(())
}

/// Returns the line for a reply.
fn line_of<A: Allocator + Copy>(alloc: A, reply: &ServerReply<A>) -> Result<String<A>, AllocError> {
    match reply {
        ServerReply::NotAMessage(error) => { String::from_str(alloc, refusal_line(*error)) }
        ServerReply::Validated(algorithm) => { format!(in alloc; "validated {algorithm:?}\n") }
        ServerReply::Refused(reason) => { format!(in alloc; "refused {reason:?}\n") }
        ServerReply::Signed(bytes) => {
            let digits = hex::encode(alloc, bytes.as_slice())?;
            format!(in alloc; "signed {digits}\n")
        }
        ServerReply::SignRefused(error) => {
            let name = error_name(*error);
            format!(in alloc; "sign refused {name}\n")
        }
        ServerReply::Done => String::from_str(alloc, "ok\n"),
        ServerReply::TooShort => String::from_str(alloc, "too short\n"),
    }
}

/// Returns the name of a `StunWriteError`. The name of `AttributeExists` does not include the type.
fn error_name(error: StunWriteError) -> &'static str {
    match error {
        StunWriteError::NotAllowed => "NotAllowed",
        StunWriteError::MessageIntegrityExists => "MessageIntegrityExists",
        StunWriteError::AttributeExists(_) => "AttributeExists",
        StunWriteError::TooLarge => "TooLarge",
        StunWriteError::TooSmall => "TooSmall",
        StunWriteError::IntegrityFailed => "IntegrityFailed",
        StunWriteError::OutOfMemory => "OutOfMemory",
    }
}
