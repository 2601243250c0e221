//! The parts of STUN (RFC 8489) that the other crates share: headers, message types, transaction
//! IDs, times, errors, HMAC, keys and credentials.
#![tactic(auto)]

pub mod derives;
mod keys;
pub mod memory;
mod wire;

pub use keys::{algorithm, compare, credentials, hmac, key, prepared_key};
pub use wire::{
    attribute_type, data, error, header, instant, message_type, transaction_id, transport, words,
};
