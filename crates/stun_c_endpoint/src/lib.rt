//! The calls on endpoints for programs in C, which `include/stunp_endpoint.h` declares.
//!
//! Each call takes the value out of its handle, calls the crates below with it, and puts it back.
//! The contracts state in the terms of those crates what a call returns, writes and changes.
#![tactic(auto)]

mod calls;
mod caused;
mod client;
mod found;
mod handle;
mod ice;
pub mod laws;
mod received;
mod release;
mod server;
mod settings;
mod users;
