//! The command `schedule`, which prints the times at which a request is sent and times out.
ghost use Rattle.std.specs.Prelude.{◌≡◌, ◌≢◌, None, length};

use crate::words::{address, moment, number};
use std::alloc::{Allocator, Global};
use std::io::Write;
use std::net::{IpAddr, Ipv4Addr, SocketAddr};
use std::time::Duration;
use stun_cli::failure::Failure;
use stun_cli::input::CountedRead;
use stun_cli::output::write_text;
use stun_cli::status::Status;
use stun_proto::Instant;
use stun_proto::agent::StunAgent;
use stun_proto::replay::{AgentEvent, AgentStep, drive};
use stun_types::TransportType;
use stun_types::message::{
    BINDING, Message, MessageClass, MessageType, MessageWriteVec, TransactionId,
};
use stun_types::prelude::MessageWrite;

/// The greatest number of transmissions that the command accepts.
const MOST_TRANSMISSIONS: u64 = 1000;

/// The transport and the timeouts of the request, and the response to it, if one arrives.
#[derive(Clone, Copy, Debug, PartialEq, Eq)]
pub struct Settings {
    transport: TransportType,
    initial: Duration,
    max: Duration,
    retransmits: u32,
    final_wait: Duration,
    response: Option<Response>,
}

/// The time at which a response arrives, and the address that it comes from.
#[derive(Clone, Copy, Debug, PartialEq, Eq)]
pub struct Response {
    at: Instant,
    from: SocketAddr,
}

/// Prints the times at which a Binding request is sent, and the time at which it times out (RFC
/// 8489, sections 6.2.1 and 6.2.2). The request has transaction ID 1, and is sent at time 0 from
/// 10.0.0.1:12345 to 10.0.0.2:3478. There is a line `sent MS` for each transmission, and a last
/// line `timed out MS`, in whole milliseconds rounded down.
///
/// These are the arguments, with times in milliseconds:
///
/// - the transport, `udp` or `tcp`;
/// - the wait after the first transmission;
/// - the longest wait between two transmissions, or `-` for no limit;
/// - the number of transmissions, at most 1000;
/// - the wait after the last transmission.
///
/// These arguments may be followed by `answer`, a time up to `Instant::MAX`, and an IPv4 address
/// with a port. At that time a success response with transaction ID 1 arrives from that address. If
/// it ends the request, there is a line `received MS` for it, and nothing after that. Otherwise the
/// line is `ignored MS`.
///
/// Returns `NotJudged` for other arguments, and prints nothing. Returns `Failed` if a write or an
/// allocation fails, and prints nothing more. It reads nothing.
pub fn schedule<R: CountedRead, W: Write>(
    alloc: Global,
    words: &[String],
    _reader: &mut R,
    writer: &mut W,
) -> Status
    ensures other_count { length words.now ≢ 5 → length words.now ≢ 8 → result ≡ Status.NotJudged }
    ensures untouched { result ≡ Status.NotJudged → writer.new ≡ writer.old }
    ensures unread { _reader.new ≡ _reader.old }
{
    let Some(settings) = settings_of(words) else {
        return Status::NotJudged;
    };
    let (Ok(request), Ok(response)) = (
        binding_message(alloc, MessageClass::Request),
        binding_message(alloc, MessageClass::Success),
    ) else {
        return Status::Failed;
    };
    match print_schedule(alloc, settings, request, response, writer) {
        Ok(()) => Status::Good,
        Err(_) => Status::Failed,
    }
}

/// Parses the arguments. Returns `None` if the command does not accept them.
fn settings_of(words: &[String]) -> Option<Settings>
    ensures { length words.now ≢ 5 → length words.now ≢ 8 → result ≡ None }
{
    let [
        transport,
        initial,
        max,
        retransmits,
        final_wait,
        others @ ..,
    ] = words
    else {
        return None;
    };
    let response = match others {
        [] => None,
        [answer, at, from] if answer.as_str() == "answer" => {
            Some(response_of(at.as_str(), from.as_str())?)
        }
        _ => return None,
    };
    let transport = match transport.as_str() {
        "udp" => TransportType::Udp,
        "tcp" => TransportType::Tcp,
        _ => return None,
    };
    let retransmits = number(retransmits.as_str())?;
    if retransmits > MOST_TRANSMISSIONS {
        return None;
    }
    Some(Settings {
        transport,
        initial: milliseconds(initial.as_str())?,
        max: longest_wait(max.as_str())?,
        retransmits: retransmits as u32,
        final_wait: milliseconds(final_wait.as_str())?,
        response,
    })
}

fn milliseconds(word: &str) -> Option<Duration> {
    Some(Duration::from_millis(number(word)?))
}

/// Parses a number of milliseconds, or `-` for no limit.
fn longest_wait(word: &str) -> Option<Duration> {
    if word == "-" {
        Some(Duration::MAX)
    } else {
        milliseconds(word)
    }
}

fn response_of(at: &str, from: &str) -> Option<Response> {
    Some(Response {
        at: moment(at)?,
        from: address(from)?,
    })
}

/// Prints a line for each step of the request, and for the response if there is one.
fn print_schedule<W: Write, A: Allocator + Copy>(
    alloc: A,
    settings: Settings,
    request: Vec<u8>,
    response: Vec<u8>,
    writer: &mut W,
) -> Result<(), Failure> {
    let steps = steps_of(alloc, settings, request, response)?;
    for step in &steps {
        match step {
            AgentStep::Transmitted { at, .. } => {
                print_line(alloc, "sent", *at, writer)?;
            }
            AgentStep::TimedOut { at, .. } => {
                print_line(alloc, "timed out", *at, writer)?;
            }
            AgentStep::Received { at, accepted: true } => {
                print_line(alloc, "received", *at, writer)?;
            }
            AgentStep::Received { at, .. } => {
                print_line(alloc, "ignored", *at, writer)?;
            }
            _ => {}
        }
    }
    Ok(())
}

/// Returns the steps of an agent that sends the request at time 0, and receives the response if the
/// settings have one.
fn steps_of<A: Allocator + Copy>(
    alloc: A,
    settings: Settings,
    request: Vec<u8>,
    response: Vec<u8>,
) -> Result<Vec<AgentStep<A>, A>, Failure> {
    let local = SocketAddr::new(IpAddr::V4(Ipv4Addr::new(10, 0, 0, 1)), 12345);
    let to = SocketAddr::new(IpAddr::V4(Ipv4Addr::new(10, 0, 0, 2)), 3478);
    let mut agent = StunAgent::builder(alloc, settings.transport, local)
        .request_retransmits(
            settings.initial,
            settings.max,
            settings.retransmits,
            settings.final_wait,
        )
        .build();
    let sending = AgentEvent::SendRequest { bytes: request, to };
    let driven = match settings.response {
        None => {
            let events = [(Instant::ZERO, sending)];
            drive(alloc, &mut agent, &events, Instant::MAX)
        }
        Some(Response { at, from }) => {
            let receiving = AgentEvent::Receive {
                bytes: response,
                from,
            };
            let events = [(Instant::ZERO, sending), (at, receiving)];
            drive(alloc, &mut agent, &events, Instant::MAX)
        }
    };
    driven.map_err(|_| Failure::Memory)
}

/// Builds a Binding message of this class with transaction ID 1, without attributes.
fn binding_message(alloc: Global, class: MessageClass) -> Result<Vec<u8>, Failure> {
    let id = TransactionId::from_u128(1).ok_or(Failure::Memory)?;
    let kind = MessageType::from_class_method(class, BINDING);
    match Message::builder(kind, id, MessageWriteVec::new(alloc)) {
        Ok(writer) => Ok(writer.finish()),
        Err(_) => Err(Failure::Memory),
    }
}

/// Prints a line with a word and a time in milliseconds, rounded down.
fn print_line<W: Write, A: Allocator>(
    alloc: A,
    word: &str,
    moment: Instant,
    writer: &mut W,
) -> Result<(), Failure> {
    let milliseconds = moment.as_nanos() / 1_000_000;
    let line = format!(in alloc; "{word} {milliseconds}\n")?;
    write_text(writer, line.as_bytes())
}
