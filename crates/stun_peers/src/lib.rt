//! Laws about what the bytes of an ICE agent mean to its peer, in terms of the definitions of
//! `stun_ice`. One law creates two agents when it runs, and the others do nothing.
#![tactic(auto)]

pub mod laws;
