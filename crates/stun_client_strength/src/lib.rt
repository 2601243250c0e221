//! Laws about the strength of the signatures of a client with long-term credentials (RFC 8489,
//! sections 9.2.5 and 16.1.3). Whatever the client has received, a server whose settings do not
//! change accepts its requests only with the strongest algorithm that both support. A wrong
//! password ends a request soon. Requests that are sent unsigned do not affect the others. The laws
//! are about the definitions of `stun_client_calls`, and do nothing when they run.
#![tactic(auto)]

pub mod laws;
