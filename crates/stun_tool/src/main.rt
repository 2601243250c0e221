//! A program with the commands `check`, `schedule`, `negotiate` and `serve`. Each command is a
//! function of its arguments, a reader and a writer.
#![tactic(auto)]

ghost use Rattle.std.specs.Prelude.{◌≡◌, ◌≢◌, ◌≤◌, ◌+◌, ◌↔◌, length, IfSome, IfNone};
ghost use Rattle.stun_tool.specs.Check.{Prints};
ghost use Rattle.stun_cli.specs.Input.{most_tries};
ghost use Rattle.stun_tool.specs.code.Output.{AppendsUnlessFailed};
ghost use Rattle.stun_tool.specs.code.Run.{words_of_check, words_of_negotiate};
ghost use Rattle.stun_tool.specs.code.Run.{words_of_schedule, words_of_serve, usage_line};

mod check;
mod digits;
mod negotiate;
mod schedule;
mod script;
mod serve;
mod verdict;
mod words;

use check::check;
use negotiate::negotiate;
use schedule::schedule;
use serve::serve;
use std::alloc::Global;
use std::io;
use std::io::Write;
use std::process::ExitCode;
use stun_cli::input::{Counted, CountedRead};
use stun_cli::output::write_text;
use stun_cli::status::Status;
use stun_cli::words::words_of;

/// The line that is written to standard error for wrong arguments.
const USAGE: &str = "usage: stun_tool check PASSWORD \
    | schedule TRANSPORT INITIAL_MS MAX_MS RETRANSMITS FINAL_MS [answer MS FROM] \
    | negotiate CLIENT_ALGORITHMS CLIENT_FEATURE SERVER_ALGORITHMS SERVER_FEATURE \
    | serve REALM\n";

/// Runs the command that the arguments name. For wrong arguments it only writes the usage to
/// `errors`.
fn run<R: CountedRead, W: Write, E: Write>(
    alloc: Global,
    words: &[String],
    reader: &mut R,
    writer: &mut W,
    errors: &mut E,
) -> Status
    ensures other_command { IfNone (words_of_check words.now)
        (IfNone (words_of_schedule words.now) (IfNone (words_of_negotiate words.now)
        (IfNone (words_of_serve words.now) (result ≡ Status.NotJudged)))) }
    ensures wrong_words { IfSome (words_of_check words.now)
        (λ others. (result ≡ Status.NotJudged) ↔ (length others ≢ 1)) }
    ensures wrong_settings { IfSome (words_of_schedule words.now)
        (λ others. length others ≢ 5 → length others ≢ 8 → result ≡ Status.NotJudged) }
    ensures wrong_sides { IfSome (words_of_negotiate words.now)
        (λ others. length others ≢ 4 → result ≡ Status.NotJudged) }
    ensures wrong_realm { IfSome (words_of_serve words.now)
        (λ others. (result ≡ Status.NotJudged) ↔ (length others ≢ 1)) }
    ensures unread { IfSome (words_of_schedule words.now) (λ _. reader.new ≡ reader.old)
        × IfSome (words_of_negotiate words.now) (λ _. reader.new ≡ reader.old) }
    ensures untouched { result ≡ Status.NotJudged → (reader.new ≡ reader.old)
        × (writer.new ≡ writer.old) }
    ensures usage { result ≡ Status.NotJudged
        → AppendsUnlessFailed (E.contents errors.old) (E.contents errors.new) usage_line }
    ensures silent { result ≢ Status.NotJudged → errors.new ≡ errors.old }
    ensures prints { IfSome (words_of_check words.now) (λ others. IfSome (R.remaining reader.old)
        (λ input. Prints others input result (W.contents writer.old) (W.contents writer.new))) }
    ensures asked { R.asked reader.new ≤ R.asked reader.old + most_tries }
{
    let status = match words {
        [command, others @ ..] if command.as_str() == "check" => {
            check(alloc, others, reader, writer)
        }
        [command, others @ ..] if command.as_str() == "schedule" => {
            schedule(alloc, others, reader, writer)
        }
        [command, others @ ..] if command.as_str() == "negotiate" => {
            negotiate(alloc, others, reader, writer)
        }
        [command, others @ ..] if command.as_str() == "serve" => {
            serve(alloc, others, reader, writer)
        }
        _ => Status::NotJudged,
    };
    if status == Status::NotJudged {
        let _ = write_text(errors, USAGE.as_bytes());
    }
    status
}

fn main(rt: HostRuntime) -> ExitCode {
    let Ok(words) = words_of(&rt) else {
        return Status::Failed.code();
    };
    run(
        rt.alloc(),
        words.as_slice(),
        &mut Counted::new(rt.reader()),
        &mut io::writer(&rt),
        &mut rt.stderr(),
    )
    .code()
}
