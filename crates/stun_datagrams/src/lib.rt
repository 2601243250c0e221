//! Laws about lists of datagrams that arrive at a server, and about lists of calls whose replies
//! give the server's verdicts on these datagrams (RFC 8489, section 9.2.4).
#![tactic(auto)]

pub mod laws;
