//! A law about whole runs of two ICE agents that send each other datagrams over any network. It is
//! about the definitions of `stun_ice` and `stun_peers`, and does nothing when it runs.
#![tactic(auto)]

pub mod laws;
