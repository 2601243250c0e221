//! Runs the commands: reads their inputs, and prints their results.
ghost use Rattle.std.specs.Prelude.{◌≡◌, ◌≢◌, codes, true, IfOk, IfSome, string_bytes};
ghost use Rattle.stun_base.specs.Keys.{long_term_key};
ghost use Rattle.stun_base.specs.Keys.OfCredentials.{keys_of};
ghost use Rattle.stun_inspect.specs.Decode.{PrintsDecoded};
ghost use Rattle.stun_inspect.specs.Found.{status_of_found};
ghost use Rattle.stun_inspect.specs.Input.{is_raw};
ghost use Rattle.stun_inspect.specs.Run.{Answers, PrintsDigits, PrintsLine, PrintsResult};
ghost use Rattle.stun_inspect.specs.Run.{PrintsText, keys_for};
ghost use Rattle.stun_cli.specs.Line.{IsLine};
ghost use Rattle.stun_cli.specs.Verdict.{verdict_of};
ghost use Rattle.stun_inspect.specs.Listed.{PrintsListed, status_of_refusal};
ghost use Rattle.stun_types.specs.Message.{refusal};
ghost use Rattle.stun_inspect.specs.Verify.{PrintsVerdictAndNotes, PrintsWithNotes};

use crate::command::{Command, User, Who};
use crate::decode::{describe, describe_refused};
use crate::digits::bad_input;
use crate::each::{tell_capture, tell_input};
use crate::failure::{Failure, INPUT_LIMIT, Wanted};
use crate::found::Found;
use crate::input::{Input, begin};
use crate::layout::{is_raw, within_limit};
use crate::list::{found_of, line_of, refusal_of};
use crate::notes::notes_on;
use crate::teller::Teller;
use crate::usage::{HELP, VERSION};
use crate::value::push_security_bits;
use crate::verdict::{line, verdict_on};
use std::alloc::{AllocError, Allocator};
use std::io::Write;
use stun_cli::input::{CountedRead, read_to_end, read_up_to};
use stun_cli::line::Line;
use stun_cli::output::write_text;
use stun_cli::status::Status;
use stun_cli::verdict::Verdict;
use stun_types::attribute::Userhash;
use stun_types::message::{
    IntegrityAlgorithm, LongTermCredentials, Message, MessageIntegrityCredentials,
    ShortTermCredentials, long_term_key,
};

/// Runs a command, and returns how it ended. Fails if a read, a write or an allocation fails, or if
/// the input has none of the formats that the command can read.
pub fn run_command<R: CountedRead, W: Write, A: Allocator + Copy>(
    alloc: A,
    command: Command<'_>,
    reader: &mut R,
    writer: &mut W,
) -> Result<Status, Failure>
    ensures { Answers command.entry (R.remaining reader.old) result
        (W.contents writer.old) (W.contents writer.new) }
{
    match command {
        Command::Help => print(writer, HELP.as_bytes()),
        Command::Version => print(writer, VERSION.as_bytes()),
        Command::Decode => tell_reader(alloc, &Teller::Decode, reader, writer),
        Command::List => tell_reader(alloc, &Teller::List, reader, writer),
        Command::Verify(who) => verify_input(alloc, who, reader, writer),
        Command::Key(algorithm, user, password) => {
            print_key(alloc, algorithm, user, password, reader, writer)
        }
        Command::Userhash(user) => {
            print_digits(alloc, &Userhash::compute(user.name, user.realm), writer)
        }
        Command::Nonce(nonce) => print_nonce(alloc, nonce, writer),
    }
}

fn print<W: Write>(writer: &mut W, text: &[u8]) -> Result<Status, Failure>
    ensures { IfOk result (λ status.
        PrintsText text.now status (W.contents writer.old) (W.contents writer.new)) }
{
    write_text(writer, text)?;
    Ok(Status::Good)
}

/// Prints bytes as a line of hexadecimal digits.
fn print_digits<W: Write, A: Allocator + Copy>(
    alloc: A,
    bytes: &[u8],
    writer: &mut W,
) -> Result<Status, Failure>
    ensures { IfOk result (λ status.
        PrintsDigits bytes.now status (W.contents writer.old) (W.contents writer.new)) }
{
    let mut line = hex::encode(alloc, bytes)?;
    line.push('\n')?;
    print(writer, line.as_bytes())
}

/// Reads an input, and prints the result for each message in it.
fn tell_reader<R: CountedRead, W: Write, A: Allocator + Copy>(
    alloc: A,
    teller: &Teller<'_, A>,
    reader: &mut R,
    writer: &mut W,
) -> Result<Status, Failure>
    ensures { IfSome (R.remaining reader.old) (λ input. IfOk result (λ status.
        is_raw input ≡ true
        → PrintsResult teller.now input status (W.contents writer.old) (W.contents writer.new))) }
{
    match begin(alloc, reader)? {
        Input::Capture(capture, begun) => {
            tell_capture(alloc, teller, capture, begun, reader, writer)
        }
        Input::Bytes(input) => tell_bytes(alloc, teller, input.as_slice(), writer),
    }
}

/// Prints the result for each message in an input.
fn tell_bytes<W: Write, A: Allocator + Copy>(
    alloc: A,
    teller: &Teller<'_, A>,
    input: &[u8],
    writer: &mut W,
) -> Result<Status, Failure>
    ensures { is_raw input.now ≡ true → IfOk result (λ status.
        PrintsResult teller.now input.now status (W.contents writer.old) (W.contents writer.new)) }
{
    if is_raw(input) {
        within_limit(input)?;
        let found = teller.tell(alloc, input, writer)?;
        return Ok(found.status());
    }
    tell_input(alloc, teller, input, writer)
}

/// Verifies the signature of each message in an input, and prints the results. If the password is
/// `-`, it is the first line of the input.
fn verify_input<R: CountedRead, W: Write, A: Allocator + Copy>(
    alloc: A,
    who: Who<'_>,
    reader: &mut R,
    writer: &mut W,
) -> Result<Status, Failure>
    ensures { who.entry.password.now ≢ codes "-" → IfSome (R.remaining reader.old)
        (λ input. IfOk result (λ status. is_raw input ≡ true
        → PrintsVerdictAndNotes (verdict_of input (keys_for who.entry.user who.entry.password.now))
        status
        (W.contents writer.old) (W.contents writer.new))) }
{
    let line = password_line(alloc, who.password, reader)?;
    let found = password_of(who.password, line.as_slice())?;
    let (password, _) = found;
    verify_reader(alloc, who.user, password, reader, writer)
}

/// Verifies the signature of each message in an input, for a user or under a password alone, and
/// prints the results.
fn verify_reader<R: CountedRead, W: Write, A: Allocator + Copy>(
    alloc: A,
    user: Option<User<'_>>,
    password: &str,
    reader: &mut R,
    writer: &mut W,
) -> Result<Status, Failure>
    ensures { IfSome (R.remaining reader.old) (λ input. IfOk result (λ status.
        is_raw input ≡ true
        → PrintsVerdictAndNotes (verdict_of input (keys_for user.entry password.now)) status
        (W.contents writer.old) (W.contents writer.new))) }
{
    let credentials = credentials_of(alloc, user, password)?;
    tell_reader(alloc, &Teller::Verify(user, &credentials), reader, writer)
}

/// Verifies the signature of each message of a file, and prints the results. If the password is
/// `-`, it is read from the first line of `reader`.
pub fn verify_file<R: CountedRead, F: CountedRead, W: Write, A: Allocator + Copy>(
    alloc: A,
    who: Who<'_>,
    reader: &mut R,
    file: &mut F,
    writer: &mut W,
) -> Result<Status, Failure> {
    let given = password_input(alloc, who.password, reader)?;
    let found = password_of(who.password, given.as_slice())?;
    let (password, _) = found;
    verify_reader(alloc, who.user, password, file, writer)
}

/// Prints the long-term key of a user.
fn print_key<R: CountedRead, W: Write, A: Allocator + Copy>(
    alloc: A,
    algorithm: IntegrityAlgorithm,
    user: User<'_>,
    password: &str,
    reader: &mut R,
    writer: &mut W,
) -> Result<Status, Failure>
    ensures { password.now ≢ codes "-" → IfOk result (λ status.
        PrintsDigits (long_term_key algorithm user.entry.name.now user.entry.realm.now password.now)
        status (W.contents writer.old) (W.contents writer.new)) }
{
    let input = password_input(alloc, password, reader)?;
    let found = password_of(password, input.as_slice())?;
    let (password, _) = found;
    let key = long_term_key(alloc, algorithm, user.name, user.realm, password);
    print_digits(alloc, key.as_bytes(), writer)
}

/// Prints each attribute of the message, or the reason why the bytes are not a message. For a
/// truncated message it first prints the attributes before the cut. Returns a `Found` for the
/// bytes.
pub fn decode<W: Write, A: Allocator + Copy>(
    alloc: A,
    bytes: &[u8],
    writer: &mut W,
) -> Result<Found, Failure>
    ensures { IfOk result (λ found. PrintsDecoded bytes.now (status_of_found found)
        (W.contents writer.old) (W.contents writer.new)) }
{
    match Message::from_bytes(bytes) {
        Ok(message) => {
            let text = describe(alloc, bytes, message.get_type(), message.transaction_id())?;
            write_text(writer, text.as_bytes())?;
            Ok(Found::Good)
        }
        Err(error) => {
            let text = describe_refused(alloc, bytes, error)?;
            write_text(writer, text.as_bytes())?;
            Ok(Found::NotAMessage)
        }
    }
}

/// Prints a line for the message, or a line with the reason why the bytes are not a message.
/// Returns a `Found` for the bytes.
pub fn list<W: Write, A: Allocator + Copy>(
    alloc: A,
    bytes: &[u8],
    writer: &mut W,
) -> Result<Found, Failure>
    ensures { IfOk result (λ found. PrintsListed bytes.now (status_of_found found)
        (W.contents writer.old) (W.contents writer.new)) }
{
    let refusal = refusal_of(bytes);
    let line = line_of(alloc, bytes, refusal)?;
    write_text(writer, line.as_bytes())?;
    Ok(found_of(refusal))
}

/// Prints the line for the message, with `place` (where the message is in the input) in front. The
/// line is written in one piece, so a failed allocation leaves no partial line. Returns a `Found`
/// for the bytes.
pub fn list_at<W: Write, A: Allocator + Copy>(
    alloc: A,
    place: &str,
    bytes: &[u8],
    writer: &mut W,
) -> Result<Found, Failure>
    ensures { IfOk result (λ found. status_of_found found ≡ status_of_refusal (refusal bytes.now)) }
{
    let refusal = refusal_of(bytes);
    let found = found_of(refusal);
    let line = line_of(alloc, bytes, refusal)?;
    let text = format!(in alloc; "{place}: {line}")?;
    write_text(writer, text.as_bytes())?;
    Ok(found)
}

/// Verifies the signature of the message, and prints the verdict. If a user is given, also prints
/// notes on whether the message names this user and the user's realm (see `notes_on`). Returns the
/// verdict.
pub fn verify<W: Write, A: Allocator + Copy, B: Allocator>(
    alloc: A,
    bytes: &[u8],
    user: Option<User<'_>>,
    credentials: &MessageIntegrityCredentials<B>,
    writer: &mut W,
) -> Result<Verdict, Failure>
    ensures verdict { IfOk result (λ verdict.
        verdict ≡ verdict_of bytes.now (keys_of credentials.now)) }
    ensures prints { IfOk result (λ verdict.
        PrintsWithNotes verdict (W.contents writer.old) (W.contents writer.new)) }
{
    let notes = notes_on(alloc, bytes, user)?;
    let verdict = verdict_on(bytes, credentials);
    write_text(writer, line(verdict).as_bytes())?;
    write_text(writer, notes.as_bytes())?;
    Ok(verdict)
}

/// Returns the long-term credentials of a user, or the short-term credentials of a password alone.
fn credentials_of<A: Allocator + Copy>(
    alloc: A,
    user: Option<User<'_>>,
    password: &str,
) -> Result<MessageIntegrityCredentials<A>, AllocError>
    ensures { IfOk result (λ credentials.
        keys_of credentials ≡ keys_for user.entry password.now) }
{
    let password = String::from_str(alloc, password)?;
    match user {
        None => Ok(MessageIntegrityCredentials::ShortTerm(ShortTermCredentials::new(password))),
        Some(user) => {
            let name = String::from_str(alloc, user.name)?;
            let realm = String::from_str(alloc, user.realm)?;
            let key = LongTermCredentials::new(name, password).to_key(realm)?;
            Ok(MessageIntegrityCredentials::LongTerm(key))
        }
    }
}

/// If the argument is `-`, reads the first line of the input, and returns it with its line end.
/// Otherwise reads nothing and returns no bytes.
fn password_line<R: CountedRead, A: Allocator + Copy>(
    alloc: A,
    word: &str,
    reader: &mut R,
) -> Result<Vec<u8, A>, Failure>
    ensures { word.now ≢ codes "-" → reader.new ≡ reader.old }
{
    if word == "-" {
        read_line(alloc, reader)
    } else {
        Ok(Vec::new(alloc))
    }
}

/// Reads the first line of the input, with its line end.
fn read_line<R: CountedRead, A: Allocator + Copy>(
    alloc: A,
    reader: &mut R,
) -> Result<Vec<u8, A>, Failure> {
    let mut line = Vec::new(alloc);
    for count in 0..INPUT_LIMIT {
        line = read_up_to(reader, line, count + 1)?;
        if line.len() <= count || line.last() == Some(&b'\n') {
            return Ok(line);
        }
    }
    Err(Failure::NoEnd)
}

/// If the argument is `-`, reads the whole input, whose first line is the password. Otherwise reads
/// nothing and returns no bytes.
fn password_input<R: CountedRead, A: Allocator + Copy>(
    alloc: A,
    word: &str,
    reader: &mut R,
) -> Result<Vec<u8, A>, Failure> {
    if word == "-" {
        return Ok(read_to_end(alloc, reader, INPUT_LIMIT)?);
    }
    Ok(Vec::new(alloc))
}

/// Returns the password, and the rest of the input. If the argument is `-`, the password is the
/// first line of the input, without its line end. Otherwise the password is the argument, and the
/// rest is the whole input.
fn password_of<'a>(word: &'a str, input: &'a [u8]) -> Result<(&'a str, &'a [u8]), Failure>
    ensures word { word.now ≢ codes "-" → IfOk result (λ found. found.0.now ≡ word.now) }
    ensures input { word.now ≢ codes "-" → IfOk result (λ found. found.1.now ≡ input.now) }
{
    if word != "-" {
        return Ok((word, input));
    }
    let (line, rest) = match input.iter().position(|byte| *byte == b'\n') {
        Some(end) => (
            input.get(..end).unwrap_or(input),
            input.get(end.saturating_add(1)..).unwrap_or(&[]),
        ),
        None => (input, &[] as &[u8]),
    };
    let line = match line {
        [front @ .., b'\r'] => front,
        whole => whole,
    };
    match str::from_utf8(line) {
        Ok(password) => Ok((password, rest)),
        Err(_) => Err(bad_input(1, 1, Wanted::Password)),
    }
}

/// Prints the security bits of a nonce as a line.
fn print_nonce<W: Write, A: Allocator + Copy>(
    alloc: A,
    nonce: &str,
    writer: &mut W,
) -> Result<Status, Failure>
    ensures { IfOk result (λ status.
        PrintsLine status (W.contents writer.old) (W.contents writer.new)) }
{
    let line = nonce_line(alloc, nonce)?;
    write_text(writer, line.as_bytes())?;
    Ok(Status::Good)
}

/// Returns the line that describes the security bits of a nonce.
fn nonce_line<A: Allocator + Copy>(alloc: A, nonce: &str) -> Result<String<A>, AllocError>
    ensures { IfOk result (λ line. IsLine (string_bytes line)) }
{
    let mut line = Line::new(alloc);
    push_security_bits(&mut line, nonce)?;
    line.end()
}
