//! What the archives for programs in C need in addition to their calls: handles to values on the
//! heap, addresses, texts, stored keys, and the numbers that calls return.
#![tactic(auto)]

pub mod address;
pub mod answers;
pub mod handle;
pub mod keys;
pub mod text;
