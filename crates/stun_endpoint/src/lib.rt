//! A STUN server as one value: it judges datagrams without a record of any address (RFC 8489,
//! sections 6.3 and 9.2).
#![tactic(auto)]

mod arrived;
pub mod batch;
pub mod buffered;
mod ending;
pub mod laws;
pub mod lookup;
mod nonces;
pub mod open;
mod pages;
pub mod received;
pub mod reply;
pub mod responder;
pub mod server;
pub mod short_term;
mod understood;
pub mod unix_time;
pub mod users;
