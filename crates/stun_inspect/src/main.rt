//! A program that decodes STUN messages and verifies their signatures.
#![tactic(auto)]

ghost use Rattle.std.specs.Prelude.{◌≡◌, ◌≢◌};

mod algorithms;
mod answers;
mod command;
mod decode;
mod digits;
mod dump;
mod each;
mod failure;
mod fingerprint;
mod found;
mod frames;
mod further_value;
mod input;
mod layout;
mod lines;
mod list;
mod notes;
mod registry;
mod tally;
mod teller;
mod telling;
mod usage;
mod value;
mod verdict;

use answers::{run_command, verify_file};
use command::{Asked, Command, asked_of};
use failure::Failure;
use std::alloc::Allocator;
use std::io::{BufReader, ErrorKind, Write};
use std::process::ExitCode;
use std::rt::Files;
use std::{fs, io};
use stun_cli::input::{Counted, CountedRead};
use stun_cli::output::write_text;
use stun_cli::status::Status;
use stun_cli::words::words_of;
use usage::usage_of;

/// Runs the command that the arguments name. If the command has no result, writes the reason to
/// `errors`.
fn run<F: Files, R: CountedRead, W: Write, E: Write, A: Allocator + Copy>(
    files: &F,
    alloc: A,
    words: &[String],
    reader: &mut R,
    writer: &mut W,
    errors: &mut E,
) -> Status
    ensures silent { result ≢ Status.NotJudged → errors.new ≡ errors.old }
{
    let Some(asked) = asked_of(words) else {
        let _ = write_text(errors, usage_of(words).as_bytes());
        return Status::NotJudged;
    };
    match run_asked(files, alloc, asked, reader, writer) {
        Ok(status) => status,
        Err(failure) => {
            let _ = tell_failure(alloc, failure, errors);
            Status::NotJudged
        }
    }
}

/// Runs a command on the file that the arguments name, or on the reader.
fn run_asked<F: Files, R: CountedRead, W: Write, A: Allocator + Copy>(
    files: &F,
    alloc: A,
    asked: Asked<'_>,
    reader: &mut R,
    writer: &mut W,
) -> Result<Status, Failure> {
    let Some(path) = asked.file else {
        return run_command(alloc, asked.command, reader, writer);
    };
    let file = match fs::open(files, path) {
        Ok(file) => file,
        Err(error) if error.kind() == ErrorKind::OutOfMemory => return Err(Failure::Memory),
        Err(_) => return Err(Failure::File),
    };
    let mut file = match BufReader::new(alloc, file) {
        Ok(buffered) => Counted::new(buffered),
        Err(_) => return Err(Failure::Memory),
    };
    match asked.command {
        Command::Verify(who) => verify_file(alloc, who, reader, &mut file, writer),
        command => run_command(alloc, command, &mut file, writer),
    }
}

fn tell_failure<E: Write, A: Allocator>(
    alloc: A,
    failure: Failure,
    errors: &mut E,
) -> Result<(), Failure> {
    let line = format!(in alloc; "stun_inspect: {failure}\n")?;
    Ok(write_text(errors, line.as_bytes())?)
}

fn main(rt: HostRuntime) -> ExitCode {
    let Ok(words) = words_of(&rt) else {
        return Status::NotJudged.code();
    };
    run(
        &rt,
        rt.alloc(),
        words.as_slice(),
        &mut Counted::new(rt.reader()),
        &mut io::writer(&rt),
        &mut rt.stderr(),
    )
    .code()
}
