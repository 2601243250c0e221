//! A STUN agent: it stores outstanding requests, retransmits them, and gives up on them. It
//! performs no I/O: it owns no socket and reads no clock.
#![tactic(auto)]

pub mod agent;
mod calls;
pub mod derives;
mod error;
pub mod laws;
mod poll;
mod state;
pub mod stats;
pub mod table;
