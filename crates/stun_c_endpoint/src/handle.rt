//! The handle through which a program in C uses a server, a table of users, a client or an ICE
//! agent on the heap.

pub mod endpoint;
pub mod laws;
