//! The settings of a server, which are checked when it is built.

ghost use Rattle.std.specs.Option.{option_map};
ghost use Rattle.std.specs.Prelude.{◌≡◌, ◌<◌, ◌≤◌, ◌++◌, [], None, IfOk, IsOk, IsOkUnless, MatchOption, Err};
ghost use Rattle.std.specs.Prelude.{true, false, length, unwrap_or};
ghost use Rattle.std.specs.String.{string_bytes};
ghost use Rattle.stun_endpoint.specs.Built.{build_refusal};
ghost use Rattle.stun_endpoint.specs.Realm.{feature_for};
ghost use Rattle.stun_judging.specs.Registered.{empty_realm};
ghost use Rattle.stun_endpoint.specs.Settings.{registered_of};
ghost use Rattle.stun_types.specs.Limits.{TEXT_LIMIT};

use crate::responder::{Responder, count_text_bytes, with_stun_attributes};
use crate::server::Server;
use std::alloc::{AllocError, Allocator, Global};
use stun_base::attribute_type::AttributeType;
use stun_base::key::IntegrityKey;
use stun_base::memory::Memory;
use stun_base::prepared_key::PreparedKey;
use stun_judging::algorithm_set::AlgorithmSet;
use stun_judging::feature::Feature;
use stun_judging::realm::Realm;
use stun_types::limits::TEXT_LIMIT;
use stun_types::message::IntegrityAlgorithm;
use thiserror::Error;

/// The shortest nonce lifetime, in seconds.
pub const SHORTEST_NONCE_LIFETIME: u64 = 30;

/// The default nonce lifetime, in seconds.
pub const DEFAULT_NONCE_LIFETIME: u64 = 3600;

/// The types of STUN's own attributes that must be understood. Every server understands them.
pub const STUN_ATTRIBUTES: [AttributeType; 11] = [
    AttributeType(0x0001),
    AttributeType::USERNAME,
    AttributeType::MESSAGE_INTEGRITY,
    AttributeType::ERROR_CODE,
    AttributeType(0x000A),
    AttributeType::REALM,
    AttributeType::NONCE,
    AttributeType::MESSAGE_INTEGRITY_SHA256,
    AttributeType::PASSWORD_ALGORITHM,
    AttributeType::USERHASH,
    AttributeType::XOR_MAPPED_ADDRESS,
];

/// The settings of a server with long-term credentials (RFC 8489, section 9.2). `new` enables both
/// algorithms and hashed names, and sets a nonce lifetime of one hour.
#[derive(Drop)]
pub struct LongTerm<A: Allocator = Global> {
    /// The realm, which has at most 763 bytes (section 14.9).
    pub realm: String<A>,
    /// 32 random bytes. Anybody who has them can make nonces that are accepted. Servers with the
    /// same secret, algorithms, `user_hashes` and nonce lifetime accept each other's nonces, if
    /// their clocks agree. Time is divided into epochs of one nonce lifetime, and a server accepts
    /// a nonce only in the epoch of the nonce and in the next epoch, by its own clock. So it
    /// refuses a nonce of an epoch that has not begun on its clock, for example if the clock of the
    /// server that sent the nonce is ahead. A server that restarts with this secret accepts the
    /// nonces of its earlier run at once, if its clock has kept running meanwhile, as the wall
    /// clock does.
    pub secret: [u8; 32],
    /// A second secret, whose nonces are accepted too, but never sent. When you change the secret,
    /// set this to the old secret, and remove it two nonce lifetimes later.
    pub previous_secret: Option<[u8; 32]>,
    /// The integrity algorithms that the server supports. Nonces depend on this setting (see
    /// `Server`).
    pub algorithms: AlgorithmSet,
    /// Whether clients may send a hash in place of a name (section 14.4). Nonces depend on this
    /// setting (see `Server`).
    pub user_hashes: bool,
    /// The nonce lifetime in seconds, at least 30: how long the server sends the same nonce to an
    /// address. After it is sent, a nonce is accepted for one to two lifetimes.
    pub nonce_lifetime: u64,
    /// The types of attributes that you understand, in addition to `STUN_ATTRIBUTES`.
    pub understood: Vec<AttributeType, A>,
    /// The text of SOFTWARE in each response, which has at most 763 bytes (section 14.14).
    pub software: Option<String<A>>,
    /// Whether the server itself responds to each accepted Binding request.
    pub answers_binding: bool,
    /// Whether a message without FINGERPRINT is dropped (section 7.3).
    pub requires_fingerprint: bool,
}

/// Why a server could not be built.
#[derive(Clone, Copy, Debug, PartialEq, Eq, Error)]
pub enum BuildError {
    /// The realm has more than 763 bytes, so no response could carry it.
    #[error("the realm has more than 763 bytes")]
    RealmTooLong,
    /// The text of SOFTWARE has more than 763 bytes, so no response could carry it.
    #[error("the text of SOFTWARE has more than 763 bytes")]
    SoftwareTooLong,
    /// The nonce lifetime is less than 30 seconds.
    #[error("a nonce lasts for less than 30 seconds")]
    NonceLifetime,
    /// An allocation failed.
    #[error("out of memory")]
    OutOfMemory,
}

impl<A: Allocator + Copy> LongTerm<A> {
    /// Returns the settings of a server for this realm, with this secret: both algorithms, hashed
    /// names, a nonce lifetime of one hour, no further attributes and no SOFTWARE. Binding requests
    /// are returned to you, and no FINGERPRINT is required.
    pub fn new(alloc: A, realm: String<A>, secret: [u8; 32]) -> LongTerm<A>
        ensures realm { result.realm ≡ realm }
        ensures secret { result.secret ≡ secret }
        ensures previous { result.previous_secret ≡ None }
        ensures algorithms { result.algorithms ≡ AlgorithmSet.Both }
        ensures hashes { result.user_hashes ≡ true }
        ensures lifetime { result.nonce_lifetime ≡ DEFAULT_NONCE_LIFETIME }
        ensures others { (result.understood.items ≡ []) × (result.software ≡ None) }
        ensures binding { result.answers_binding ≡ false }
        ensures fingerprint { result.requires_fingerprint ≡ false }
    {
        LongTerm {
            realm,
            secret,
            previous_secret: None,
            algorithms: AlgorithmSet::Both,
            user_hashes: true,
            nonce_lifetime: DEFAULT_NONCE_LIFETIME,
            understood: Vec::new(alloc),
            software: None,
            answers_binding: false,
            requires_fingerprint: false,
        }
    }

    /// Returns why no server can be built from these settings, or `None` if one can be built.
    fn find_refusal(&self) -> Option<BuildError>
        ensures { result ≡ build_refusal (string_bytes self.now.realm)
            (option_map string_bytes self.now.software) self.now.nonce_lifetime }
    {
        if self.realm.len() > TEXT_LIMIT {
            return Some(BuildError::RealmTooLong);
        }
        if count_text_bytes(&self.software) > TEXT_LIMIT {
            return Some(BuildError::SoftwareTooLong);
        }
        if self.nonce_lifetime < SHORTEST_NONCE_LIFETIME {
            return Some(BuildError::NonceLifetime);
        }
        None
    }
}

/// Returns whether names may be hashed, as a feature: `Auto` if they may, and otherwise `Disabled`.
fn choose_feature(user_hashes: bool) -> Feature
    ensures { result ≡ feature_for user_hashes }
{
    if user_hashes {
        Feature::Auto
    } else {
        Feature::Disabled
    }
}

/// Returns a secret, prepared for HMAC-SHA1.
fn prepare_secret<A: Allocator + Copy>(alloc: A, secret: &[u8; 32]) -> PreparedKey<A>
    ensures { result ≡ secret.now }
{
    let key = IntegrityKey::from_bytes(alloc, secret).unwrap();
    PreparedKey::new(key, IntegrityAlgorithm::Sha1)
}

/// Returns the previous secret, prepared for HMAC-SHA1, or `None` if there is none.
fn prepare_previous<A: Allocator + Copy>(
    alloc: A,
    secret: &Option<[u8; 32]>,
) -> Option<PreparedKey<A>>
    ensures { result ≡ secret.now }
{
    match secret {
        Some(secret) => Some(prepare_secret(alloc, secret)),
        None => None,
    }
}

impl<A: Memory> Server<A> {
    /// Builds a server with these settings.
    ///
    /// # Errors
    ///
    /// The first of these that applies:
    ///
    /// - `RealmTooLong`: the realm has more than 763 bytes.
    /// - `SoftwareTooLong`: the text of SOFTWARE has more than 763 bytes.
    /// - `NonceLifetime`: the nonce lifetime is less than 30 seconds.
    /// - `OutOfMemory`: an allocation failed.
    pub fn new(alloc: A, settings: LongTerm<A>) -> Result<Server<A>, BuildError>
        ensures refused { MatchOption (build_refusal (string_bytes settings.realm)
            (option_map string_bytes settings.software) settings.nonce_lifetime)
            (IsOkUnless result BuildError.OutOfMemory)
            (λ refusal. result ≡ Err refusal) }
        ensures realm { IfOk result (λ server. registered_of server
            ≡ empty_realm (string_bytes settings.realm) settings.algorithms) }
        ensures built { IfOk result (λ server. server ≡ record {
          realm = string_bytes settings.realm;
          algorithms = settings.algorithms;
          feature = feature_for settings.user_hashes;
          secret = settings.secret;
          previous = settings.previous_secret;
          lifetime = settings.nonce_lifetime;
          known = settings.understood.items ++ STUN_ATTRIBUTES;
          software = option_map string_bytes settings.software;
          answers_binding = settings.answers_binding;
          requires_fingerprint = settings.requires_fingerprint;
        }) }
        ensures granted { A.grants → build_refusal (string_bytes settings.realm)
            (option_map string_bytes settings.software) settings.nonce_lifetime ≡ None
            → IsOk result }
    {
        if let Some(refusal) = settings.find_refusal() {
            return Err(refusal);
        }
        match Server::build_checked(alloc, settings) {
            Ok(server) => Ok(server),
            Err(_) => Err(BuildError::OutOfMemory),
        }
    }

    /// Builds a server from settings that were checked.
    fn build_checked(alloc: A, settings: LongTerm<A>) -> Result<Server<A>, AllocError>
        requires lifetime { 0 < settings.nonce_lifetime }
        requires realm { length (string_bytes settings.realm) ≤ TEXT_LIMIT }
        requires software { length (unwrap_or (option_map string_bytes settings.software) [])
            ≤ TEXT_LIMIT }
        ensures built { IfOk result (λ server. server ≡ record {
          realm = string_bytes settings.realm;
          algorithms = settings.algorithms;
          feature = feature_for settings.user_hashes;
          secret = settings.secret;
          previous = settings.previous_secret;
          lifetime = settings.nonce_lifetime;
          known = settings.understood.items ++ STUN_ATTRIBUTES;
          software = option_map string_bytes settings.software;
          answers_binding = settings.answers_binding;
          requires_fingerprint = settings.requires_fingerprint;
        }) }
        ensures granted { A.grants → IsOk result }
    {
        let known = with_stun_attributes(settings.understood)?;
        let responder = Responder::of(
            alloc,
            known,
            settings.software,
            settings.answers_binding,
            settings.requires_fingerprint,
        );
        let feature = choose_feature(settings.user_hashes);
        Ok(Server {
            alloc,
            realm: Realm::new(alloc, settings.realm, settings.algorithms, feature),
            secret: prepare_secret(alloc, &settings.secret),
            previous: prepare_previous(alloc, &settings.previous_secret),
            lifetime: settings.nonce_lifetime,
            responder,
        })
    }
}
