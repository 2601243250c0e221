//! Whole runs: each function of this module makes a series of calls in a fixed order and returns
//! their results.

mod apply;
mod call;
mod driven;
mod event;
mod judging;
mod negotiation;
mod serving;
mod signing;
mod step_log;
mod turn;

// These three laws on meetings are exported here too, next to `negotiate`.
pub use crate::laws::{nonce_is_renewed, short_names_are_signed, strongest_is_agreed};
pub use call::{ServerCall, ServerReply};
pub use driven::drive;
pub use event::{AgentEvent, AgentStep, Stopped};
pub use negotiation::{NegotiateError, Outcome, negotiate};
pub use serving::serve;
pub use stun_base::words::WordSource;
