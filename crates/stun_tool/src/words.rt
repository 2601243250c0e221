//! Parses single words: arguments of a command, or parts of a script.

use std::net::{SocketAddr, SocketAddrV4};
use stun_proto::Instant;
use stun_proto::auth::Feature;
use stun_types::message::IntegrityAlgorithm;

/// The nanoseconds of a millisecond.
const NANOS_PER_MILLI: u64 = 1_000_000;

/// Parses a decimal number. Returns `None` if the word has a character that is not a digit, or if
/// the number does not fit in 64 bits.
pub fn number(word: &str) -> Option<u64> {
    if word.bytes().all(|byte| byte.is_ascii_digit()) {
        word.parse::<u64>().ok()
    } else {
        None
    }
}

/// Parses an algorithm: `sha1` or `sha256`.
pub fn algorithm(word: &str) -> Option<IntegrityAlgorithm> {
    match word {
        "sha1" => Some(IntegrityAlgorithm::Sha1),
        "sha256" => Some(IntegrityAlgorithm::Sha256),
        _ => None,
    }
}

/// Parses a `Feature`: `auto`, `required` or `disabled`.
pub fn feature(word: &str) -> Option<Feature> {
    match word {
        "auto" => Some(Feature::Auto),
        "required" => Some(Feature::Required),
        "disabled" => Some(Feature::Disabled),
        _ => None,
    }
}

/// Parses an IPv4 address and a port, both without leading zeros.
pub fn address(word: &str) -> Option<SocketAddr> {
    let (_, port) = word.split_once(':')?;
    if port.len() > 1 && port.starts_with('0') {
        return None;
    }
    let address = word.parse::<SocketAddrV4>().ok()?;
    Some(SocketAddr::V4(address))
}

/// Parses a time in whole milliseconds, up to `Instant::MAX`.
pub fn moment(word: &str) -> Option<Instant> {
    let nanos = number(word)?.checked_mul(NANOS_PER_MILLI)?;
    Some(Instant::from_nanos(nanos))
}
