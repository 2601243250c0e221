//! The command `negotiate`, which prints the outcome of the first exchanges between a client and a
//! server.
ghost use Rattle.std.specs.Prelude.{◌≡◌, ◌≢◌, length, IfOk, IfSome};

use crate::words::{algorithm, feature};
use std::alloc::{AllocError, Allocator};
use std::io::Write;
use std::net::{IpAddr, Ipv4Addr, SocketAddr};
use stun_cli::failure::Failure;
use stun_cli::input::CountedRead;
use stun_cli::output::write_text;
use stun_cli::status::Status;
use stun_proto::auth::{Feature, LongTermClientAuth, LongTermServerAuth};
use stun_proto::replay::Outcome;
use stun_proto::{Instant, replay};
use stun_types::message::{IntegrityAlgorithm, LongTermCredentials, TransactionId};

/// The name of the one user.
const NAME: &str = "user";

/// The user's password, on both sides.
const PASSWORD: &str = "pass";

/// The realm of the server.
const REALM: &str = "realm";

/// The settings of the client or of the server.
#[derive(Clone, Copy, Debug, PartialEq, Eq)]
pub struct Side {
    /// The algorithm that is added first.
    first: IntegrityAlgorithm,
    /// The algorithm that is added second, if there is one.
    second: Option<IntegrityAlgorithm>,
    /// Whether the user name is sent as a hash.
    feature: Feature,
}

/// Prints the outcome of the first exchanges between a new client and a new server with one user
/// (RFC 8489, section 9.2). The two sides make no other calls. The server reads both requests at
/// time 0, and all random numbers are 0.
///
/// The arguments are two for the client, and then the same two for the server:
///
/// - the algorithms of the side: `sha1`, `sha256`, or both with a comma between them, in the order
///   in which they are added;
/// - whether a client sends a hash in place of its user name: `auto`, `required` or `disabled`.
///
/// If the sides agree, the line is `validated` and the algorithm, or `already validated` if the
/// first request is accepted. Otherwise it is `refused` and the reason why one side gives up.
///
/// Returns `NotJudged` for other arguments, and prints nothing. Returns `Failed` if a write or an
/// allocation fails, and prints nothing more. It reads nothing.
pub fn negotiate<R: CountedRead, W: Write, A: Allocator + Copy>(
    alloc: A,
    words: &[String],
    _reader: &mut R,
    writer: &mut W,
) -> Status
    ensures other_count { length words.now ≢ 4 → result ≡ Status.NotJudged }
    ensures untouched { result ≡ Status.NotJudged → writer.new ≡ writer.old }
    ensures unread { _reader.new ≡ _reader.old }
{
    let Some((client, server)) = sides_of(words) else {
        return Status::NotJudged;
    };
    let Ok(outcome) = outcome_of(alloc, client, server) else {
        return Status::Failed;
    };
    match print_outcome(alloc, outcome, writer) {
        Ok(status) => status,
        Err(_) => Status::Failed,
    }
}

/// Parses the settings of the client and of the server. Returns `None` for other arguments.
fn sides_of(words: &[String]) -> Option<(Side, Side)>
    ensures { IfSome result (λ _. length words.now ≡ 4) }
{
    let [
        client_algorithms,
        client_feature,
        server_algorithms,
        server_feature,
    ] = words
    else {
        return None;
    };
    let client = side_of(client_algorithms.as_str(), client_feature.as_str())?;
    let server = side_of(server_algorithms.as_str(), server_feature.as_str())?;
    Some((client, server))
}

fn side_of(algorithms: &str, hashing: &str) -> Option<Side> {
    let (first, second) = match algorithms {
        "sha1,sha256" => (IntegrityAlgorithm::Sha1, Some(IntegrityAlgorithm::Sha256)),
        "sha256,sha1" => (IntegrityAlgorithm::Sha256, Some(IntegrityAlgorithm::Sha1)),
        single => (algorithm(single)?, None),
    };
    Some(Side {
        first,
        second,
        feature: feature(hashing)?,
    })
}

/// Runs the exchanges of these two sides, and returns the outcome. Fails if an allocation fails.
fn outcome_of<A: Allocator + Copy>(
    alloc: A,
    client: Side,
    server: Side,
) -> Result<Outcome, Failure> {
    let mut client = new_client(alloc, client)?;
    let mut server = new_server(alloc, server)?;
    let from = SocketAddr::new(IpAddr::V4(Ipv4Addr::new(10, 0, 0, 1)), 12345);
    let first = TransactionId::from_u128(1).ok_or(Failure::Memory)?;
    let second = TransactionId::from_u128(2).ok_or(Failure::Memory)?;
    replay::negotiate(
        alloc,
        &mut client,
        &mut server,
        from,
        [first, second],
        [Instant::ZERO, Instant::ZERO],
        [[0; 16], [0; 16]],
        [&[], &[]],
    )
    .map_err(|_| Failure::Memory)
}

fn credentials<A: Allocator + Copy>(alloc: A) -> Result<LongTermCredentials<A>, AllocError> {
    let name = String::from_str(alloc, NAME)?;
    let password = String::from_str(alloc, PASSWORD)?;
    Ok(LongTermCredentials::new(name, password))
}

fn new_client<A: Allocator + Copy>(
    alloc: A,
    side: Side,
) -> Result<LongTermClientAuth<A>, AllocError> {
    let mut client = LongTermClientAuth::new(alloc);
    client.set_supported_integrity(side.first);
    if let Some(second) = side.second {
        client.add_supported_integrity(second);
    }
    client.set_anonymous_username(side.feature);
    client.set_credentials(credentials(alloc)?);
    Ok(client)
}

fn new_server<A: Allocator + Copy>(
    alloc: A,
    side: Side,
) -> Result<LongTermServerAuth<A>, AllocError> {
    let mut server = LongTermServerAuth::new(alloc, String::from_str(alloc, REALM)?);
    server.set_supported_integrity(side.first);
    if let Some(second) = side.second {
        server.add_supported_integrity(second);
    }
    server.set_anonymous_username(side.feature)?;
    server.add_user(credentials(alloc)?)?;
    Ok(server)
}

/// Prints a line for the outcome, and returns the status of the command.
fn print_outcome<W: Write, A: Allocator>(
    alloc: A,
    outcome: Outcome,
    writer: &mut W,
) -> Result<Status, Failure>
    ensures { IfOk result (λ status. status ≢ Status.NotJudged) }
{
    let (line, status) = match outcome {
        Outcome::Validated(algorithm) => {
            (
                format!(in alloc; "validated {algorithm:?}\n")?,
                Status::Good,
            )
        }
        Outcome::AlreadyValidated(algorithm) => {
            (
                format!(in alloc; "already validated {algorithm:?}\n")?,
                Status::Good,
            )
        }
        Outcome::ServerRefused(reason) => {
            (format!(in alloc; "refused {reason:?}\n")?, Status::Bad)
        }
        Outcome::ClientRefused(reason) => {
            (format!(in alloc; "refused {reason:?}\n")?, Status::Bad)
        }
    };
    write_text(writer, line.as_bytes())?;
    Ok(status)
}
