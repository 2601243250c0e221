//! Laws about how a client and a server of this library judge each other's messages (RFC 8489,
//! sections 9.2.3 to 9.2.5). They are about the definitions of `stun_client` and `stun_endpoint`,
//! and do nothing when they run.
#![tactic(auto)]

pub mod client;
pub mod exchanges;
pub mod server;
