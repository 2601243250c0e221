//! The implementation of the calls on a client: its settings, the bodies and the options of its
//! requests, and the events that a caller receives.

pub mod body;
pub mod doing;
pub mod event;
pub mod laws;
pub mod options;
pub mod settings;
