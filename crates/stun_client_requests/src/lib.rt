//! The requests of a client of one server. Each request is stored once, under its transaction ID
//! and its number, until its outcome is returned (RFC 8489, sections 6.2, 6.3 and 9.2.5).
//!
//! `requests::Requests` contains all requests. The `Table` of `stun_agent` stores the bytes and the
//! timer of each outstanding request by its transaction ID, together with a datum that the owner of
//! the requests passes. `numbers::Numbers` stores the numbers of the outstanding requests with
//! their IDs, and the numbers of the requests that have ended. The owner of the requests is the
//! client of `stun_client_calls`. Its datum has the challenge that a request is signed for, the
//! method of the request, and its dropped responses.
#![tactic(auto)]

pub mod laws;
pub mod numbers;
pub mod requests;
