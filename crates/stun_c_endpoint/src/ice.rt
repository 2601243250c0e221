//! The implementation of the calls on an ICE agent: creating the agent, writing checks, and judging
//! datagrams.

pub mod agent;
pub mod extended;
pub mod judging;
pub mod laws;
pub mod told;
pub mod writing;
