//! Authenticators of STUN messages (RFC 8489, section 9).
//!
//! With long-term credentials, the authenticator of a server stores a record of each client
//! address, and the authenticator of a client stores the challenge that it accepted. With
//! short-term credentials, an authenticator stores the shared password.
//!
//! The crate `stun_judging` has what server and client share: it reads messages, judges them under
//! a nonce, and adds the attributes of a signature.
#![tactic(auto)]

pub mod auth;
mod auth_error;
mod client;
pub mod derives;
pub mod laws;
mod server;
mod short_term;
mod supported;
