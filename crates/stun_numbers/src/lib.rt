//! The common parts of the archives for C: the errors and their codes, the numbers of algorithms,
//! and the texts, transaction IDs, buffers, messages and lengths that a caller passes.
#![tactic(auto)]

pub mod algorithm;
pub mod buffer;
pub mod id;
pub mod message;
pub mod passed;
pub mod refusal;
pub mod text;
