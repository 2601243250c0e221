//! Laws about a client and a server of this library that talk to each other, from the first
//! datagram of a request to its outcome (RFC 8489, sections 9.2.3 to 9.2.5). They are about the
//! definitions of `stun_client_calls` and `stun_endpoint`, and do nothing when they run.
#![tactic(auto)]

pub mod laws;
