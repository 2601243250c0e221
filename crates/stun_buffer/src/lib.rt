//! A writer of messages that reuses the memory of a vector.
#![tactic(auto)]

pub mod writer;
