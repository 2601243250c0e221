//! The calls for programs in C, in the order of `include/stunp_endpoint.h`.

mod client;
mod ice;
mod server;
mod users;
