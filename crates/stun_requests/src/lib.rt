//! Laws about the bytes of the requests that `stun_client_endpoint` writes (RFC 8489, sections
//! 9.2.3 to 9.2.5). They state what a reader finds in the bytes, and how a server judges them. They
//! do nothing when they run.
#![tactic(auto)]

pub mod laws;
