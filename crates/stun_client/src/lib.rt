//! How a client answers challenges, judges the responses to its requests, and derives transaction
//! IDs from a seed. It answers challenges by one rule, which prevents a server from accepting a
//! request with a weaker algorithm than the strongest one that both sides support (RFC 8489,
//! section 9.2.5).
#![tactic(auto)]

pub mod challenge;
pub mod credentials;
pub mod ids;
pub mod judged;
pub mod laws;
pub mod preferences;
mod signing;
pub mod standing;
