//! Laws about a session of a client with long-term credentials at a server of this library: the
//! responses that end the client's requests, and the exchange after a nonce has expired (RFC 8489,
//! sections 9.2.3 to 9.2.5). They are about the definitions of `stun_client` and `stun_endpoint`,
//! and do nothing when they run.
#![tactic(auto)]

pub mod responses;
pub mod sessions;
