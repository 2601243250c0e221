//! Laws about the times at which a request without an answer is sent and ends, and about the
//! outcome that is returned for each request (RFC 8489, sections 6.2.1, 6.2.2 and 6.3.3). They are
//! about the definitions of `stun_client_calls`, and do nothing when they run.
#![tactic(auto)]

pub mod laws;
