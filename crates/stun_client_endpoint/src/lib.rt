//! The parts of a client of one STUN server: its settings, and the body, the bytes, the refusals
//! and the outcome of each request (RFC 8489, sections 5, 6.1 to 6.3, 9.1 and 9.2).
//!
//! The crate `stun_client_calls` contains the client itself.
#![tactic(auto)]

pub mod body;
pub mod ended;
pub mod form;
mod piece;
pub mod reading;
pub mod refusals;
pub mod settings;
pub mod told;
