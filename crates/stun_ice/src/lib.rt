//! The connectivity checks of ICE: one check and its answer, in both roles (RFC 8445, sections 7.2
//! and 7.3).
#![tactic(auto)]

pub mod check;
pub mod checker;
pub mod laws;
mod parts;
pub mod received;
pub mod role;
