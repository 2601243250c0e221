//! Empty, as in the crate `stun-proto`: the traits of attributes and of writers are in
//! `types::prelude`.
