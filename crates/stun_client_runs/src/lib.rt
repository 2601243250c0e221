//! Laws about a client that hold for every sequence of calls (RFC 8489, sections 5, 6.1, 6.2 and
//! 9.2.5). They are about the definitions of `stun_client_calls`, and do nothing when they run.
#![tactic(auto)]

pub mod laws;
