//! The parts that the programs share: the arguments of a command line, reading and writing, the
//! verdict on a message, and the exit status.
#![tactic(auto)]

pub mod failure;
pub mod input;
pub mod line;
pub mod output;
pub mod status;
pub mod verdict;
pub mod words;
