//! The authenticators, and the types of their arguments and results.
pub use crate::auth_error::LongTermAuthError;
pub use crate::client::LongTermClientAuth;
pub use crate::client::answer::{
    LongTermClientAuthError, LongTermClientAuthErrorReason, LongTermClientValidation,
};
pub use crate::server::reason::{
    LongTermServerAuthError, LongTermServerAuthErrorReason, LongTermServerValidation,
};
pub use crate::server::{LongTermServerAuth, minimum_nonce_expiry_duration};
pub use crate::short_term::ShortTermAuth;
pub use stun_judging::accepted::Accepted;
pub use stun_judging::algorithm_set::AlgorithmSet;
pub use stun_judging::feature::Feature;
pub use stun_judging::named_user::NamedUser;
pub use stun_judging::nonce::{LONG_TERM_RFC8489_NONCE_COOKIE, NonceSecurityBits};
pub use stun_judging::refusal::VerdictRefusal;
pub use stun_judging::stored_keys::StoredKeys;
pub use stun_judging::user::LongTermServerUser;
