//! Creates a server from the arguments that a caller passes.

ghost use Rattle.std.specs.Option.{option_map};
ghost use Rattle.std.specs.Prelude.{◌≡◌, ◌==◌, IfOk, None, Some};
ghost use Rattle.std.specs.Prelude.{length, not, pos};
ghost use Rattle.std.specs.Str.{bytes_eq};
ghost use Rattle.std.specs.String.{string_bytes};
ghost use Rattle.stun_extra.specs.Unknown.{types_of};
ghost use Rattle.stun_handles.specs.Numbers.{OrOutOfMemory};
ghost use Rattle.stun_c_endpoint.specs.Given.{MakesOpen, MakesServer, MakesShortTerm};
ghost use Rattle.stun_c_endpoint.specs.Given.{algorithms_given, alone_refusal, given_refusal};
ghost use Rattle.stun_c_endpoint.specs.Given.{if_any, is_out_of_range, is_repeated};
ghost use Rattle.stun_c_endpoint.specs.Given.{is_wrong_previous, is_wrong_secret, nonce_seconds};
ghost use Rattle.stun_c_endpoint.specs.Given.{responding_given, server_given};
ghost use Rattle.stun_c_endpoint.specs.code.Building.{Builds, RefusedFor};

pub mod laws;

use crate::handle::endpoint::{EndpointHandle, Kept};
use std::alloc::{AllocError, Global};
use std::marker::Model;
use stun_base::attribute_type::AttributeType;
use stun_base::compare::is_same_text;
use stun_endpoint::open::OpenServer;
use stun_endpoint::responder::ResponseSettings;
use stun_endpoint::server::{DEFAULT_NONCE_LIFETIME, LongTerm, SHORTEST_NONCE_LIFETIME, Server};
use stun_endpoint::short_term::ShortTermServer;
use stun_handles::text::copied;
use stun_judging::algorithm_set::AlgorithmSet;
use stun_numbers::refusal::Refusal;
use stun_numbers::text::text;
use stun_types::limits::TEXT_LIMIT;

/// The number for HMAC-SHA1 alone.
const ONLY_SHA1: u32 = 1;

/// The number for HMAC-SHA256 alone.
pub const ONLY_SHA256: u32 = 2;

/// The greatest valid number in `Given::algorithms`, which means both algorithms.
const MOST_ALGORITHMS: u32 = 3;

/// The greatest `stunp_feature`, which means that clients may not send a hash in place of the user
/// name.
const DISABLED: u32 = 2;

/// The longest nonce lifetime, in seconds: 30 days.
const LONGEST_NONCE_LIFETIME: u64 = 2_592_000;

/// The arguments for creating a server with long-term credentials.
///
/// Contracts: the texts and the secrets are lists of bytes, and the attribute types are numbers.
#[derive(Drop)]
pub struct Given<'a> {
    pub realm: &'a [u8],
    pub software: &'a [u8],
    pub secret: [u8; 32],
    pub previous_secret: Option<[u8; 32]>,
    pub understood: &'a [u16],
    pub nonce_seconds: u64,
    pub algorithms: u32,
    pub anonymous_username: u32,
    pub answers_binding: bool,
    pub requires_fingerprint: bool,
}

impl<'a> Model for Given<'a> {
    ghost use Rattle.stun_c_endpoint.specs.Given.{Given as GivenSeen};

    ghost Value = { GivenSeen };

    ghost view = { λ given. record {
      realm = given.realm.now;
      software = given.software.now;
      secret = given.secret;
      previous_secret = given.previous_secret;
      understood = given.understood.now;
      nonce_seconds = given.nonce_seconds;
      algorithms = given.algorithms;
      anonymous_username = given.anonymous_username;
      answers_binding = given.answers_binding;
      requires_fingerprint = given.requires_fingerprint;
    } };
}

/// Returns the nonce lifetime in seconds: the number that the caller passes, or an hour if this
/// number is 0.
fn choose_nonce_seconds(seconds: u64) -> u64
    ensures { result ≡ nonce_seconds seconds }
{
    if seconds == 0 {
        return DEFAULT_NONCE_LIFETIME;
    }
    seconds
}

/// Returns the algorithms with this number: HMAC-SHA1 for 1, HMAC-SHA256 for 2, and both for any
/// other number. The header has 0 and 3 for both, and the callers refuse greater numbers.
pub fn algorithms(number: u32) -> AlgorithmSet
    ensures { result ≡ algorithms_given number }
{
    match number {
        ONLY_SHA1 => AlgorithmSet::OnlySha1,
        ONLY_SHA256 => AlgorithmSet::OnlySha256,
        _ => AlgorithmSet::Both,
    }
}

/// Returns `true` if two secrets are equal.
fn is_same(one: &[u8; 32], other: &[u8; 32]) -> bool
    ensures { result ≡ bytes_eq one.now other.now }
{
    is_same_text(one, other)
}

/// Returns `true` if all bytes are equal. Such bytes do not come from a random generator.
pub fn is_repeated(bytes: &[u8; 32]) -> bool
    ensures { result ≡ is_repeated bytes.now }
{
    let first = [bytes[0]; 32];
    is_same(bytes, &first)
}

/// Returns `true` if a previous secret cannot have been in use, because it is one repeated byte, or
/// is equal to the secret.
fn is_wrong_previous(secret: &[u8; 32], previous: &Option<[u8; 32]>) -> bool
    ensures { result ≡ is_wrong_previous secret.now previous.now }
{
    match previous {
        Some(previous) => is_repeated(previous) || is_same(previous, secret),
        None => false,
    }
}

/// Converts numbers to attribute types.
pub fn types(alloc: Global, numbers: &[u16]) -> Result<Vec<AttributeType, Global>, AllocError>
    ensures { IfOk result (λ types. types.items ≡ types_of numbers.now) }
{
    let mut types = Vec::new(alloc);
    types.resize(numbers.len(), AttributeType::new(0))?;
    copy_types(types.as_mut_slice(), numbers);
    Ok(types)
}

/// Writes the attribute types with these numbers to an array of the same length.
fn copy_types(types: &mut [AttributeType], numbers: &[u16])
    requires { length types.old ≡ length numbers.now }
    ensures { types.new ≡ types_of numbers.now }
{
    for i in 0..numbers.len() {
        types[i] = AttributeType::new(numbers[i]);
    }
}

/// Copies a text, or returns `None` if the text is empty.
pub fn text_if_any(alloc: Global, text: &str) -> Result<Option<String<Global>>, AllocError>
    ensures { IfOk result (λ copy. option_map string_bytes copy ≡ if_any text.now) }
{
    if text.len() == 0 {
        return Ok(None);
    }
    Ok(Some(copied(alloc, text)?))
}

/// Moves a value to the heap and puts it into an empty handle. Returns 0, or the code of
/// `OutOfMemory`.
pub fn placed(alloc: Global, handle: &mut EndpointHandle, server: Kept) -> i64
    requires { handle.old.kept ≡ None }
    ensures { OrOutOfMemory result None handle.new.kept (pos 0) (Some server) }
{
    match Box::new(alloc, server) {
        Ok(made) => {
            handle.put(alloc, made);
            0
        }
        Err(_) => Refusal::OutOfMemory.code(),
    }
}

impl<'a> Given<'a> {
    /// Returns `true` if the number for the algorithms, the number for the feature or the nonce
    /// lifetime is out of range.
    fn is_out_of_range(&self) -> bool
        ensures { result ≡ is_out_of_range self.now }
    {
        self.algorithms > MOST_ALGORITHMS
            || self.anonymous_username > DISABLED
            || choose_nonce_seconds(self.nonce_seconds) < SHORTEST_NONCE_LIFETIME
            || choose_nonce_seconds(self.nonce_seconds) > LONGEST_NONCE_LIFETIME
    }

    /// Returns `true` if a secret is one repeated byte, or if both secrets are equal.
    fn is_wrong_secret(&self) -> bool
        ensures { result ≡ is_wrong_secret self.now }
    {
        is_repeated(&self.secret) || is_wrong_previous(&self.secret, &self.previous_secret)
    }

    /// Creates the settings of the server, with this realm and this SOFTWARE text.
    fn make_long_term(
        &self,
        alloc: Global,
        realm: &str,
        software: &str,
    ) -> Result<LongTerm<Global>, AllocError>
        ensures realm { IfOk result (λ made. string_bytes made.realm ≡ realm.now) }
        ensures software { IfOk result (λ made. option_map string_bytes made.software
            ≡ if_any software.now) }
        ensures secret { IfOk result (λ made. made.secret ≡ self.now.secret) }
        ensures previous { IfOk result (λ made. made.previous_secret ≡ self.now.previous_secret) }
        ensures algorithms { IfOk result (λ made. made.algorithms
            ≡ algorithms_given self.now.algorithms) }
        ensures hashes { IfOk result (λ made. made.user_hashes
            ≡ not (self.now.anonymous_username == 2)) }
        ensures lifetime { IfOk result (λ made. made.nonce_lifetime
            ≡ nonce_seconds self.now.nonce_seconds) }
        ensures understood { IfOk result (λ made. made.understood.items
            ≡ types_of self.now.understood) }
        ensures binding { IfOk result (λ made. made.answers_binding
            ≡ self.now.answers_binding) }
        ensures fingerprint { IfOk result (λ made. made.requires_fingerprint
            ≡ self.now.requires_fingerprint) }
    {
        let software = text_if_any(alloc, software)?;
        let understood = types(alloc, self.understood)?;
        Ok(LongTerm {
            realm: copied(alloc, realm)?,
            secret: self.secret,
            previous_secret: self.previous_secret,
            algorithms: algorithms(self.algorithms),
            user_hashes: self.anonymous_username != DISABLED,
            nonce_lifetime: choose_nonce_seconds(self.nonce_seconds),
            understood,
            software,
            answers_binding: self.answers_binding,
            requires_fingerprint: self.requires_fingerprint,
        })
    }

    /// Creates the server in an empty handle. Returns 0, or a negative error code.
    pub fn place(&self, alloc: Global, handle: &mut EndpointHandle) -> i64
        requires { handle.old.kept ≡ None }
        ensures { MakesServer self.now result handle.new.kept }
    {
        match self.make_server(alloc) {
            Ok(server) => placed(alloc, handle, Kept::Server(server)),
            Err(refusal) => refusal.code(),
        }
    }

    /// Creates the server from these arguments.
    #[tactic(auto, unfolding(crate::specs::Given::given_refusal))]
    fn make_server(&self, alloc: Global) -> Result<Server<Global>, Refusal>
        ensures { Builds (given_refusal self.now) (server_given self.now) result }
    {
        if self.is_out_of_range() || self.is_wrong_secret() || self.realm.is_empty() {
            return Err(Refusal::BadArgument);
        }
        let realm = text(self.realm)?;
        let software = text(self.software)?;
        if realm.len() > TEXT_LIMIT || software.len() > TEXT_LIMIT {
            return Err(Refusal::TextTooLong);
        }
        let settings = self.make_long_term(alloc, realm, software)?;
        match Server::new(alloc, settings) {
            Ok(server) => Ok(server),
            // Wrong settings were refused above, so the cause is a failed allocation.
            Err(_) => Err(Refusal::OutOfMemory),
        }
    }
}

/// The arguments for creating a server with short-term credentials, or a server without
/// credentials.
///
/// Contracts: the text is a list of bytes, and the attribute types are numbers.
#[derive(Drop)]
pub struct GivenAlone<'a> {
    pub software: &'a [u8],
    pub understood: &'a [u16],
    pub answers_binding: bool,
    pub requires_fingerprint: bool,
}

impl<'a> Model for GivenAlone<'a> {
    ghost use Rattle.stun_c_endpoint.specs.Given.{GivenAlone as GivenSeen};

    ghost Value = { GivenSeen };

    ghost view = { λ given. record {
      software = given.software.now;
      understood = given.understood.now;
      answers_binding = given.answers_binding;
      requires_fingerprint = given.requires_fingerprint;
    } };
}

impl<'a> GivenAlone<'a> {
    /// Creates a server with short-term credentials in an empty handle. Returns 0, or a negative
    /// error code.
    pub fn place_short_term(&self, alloc: Global, handle: &mut EndpointHandle) -> i64
        requires { handle.old.kept ≡ None }
        ensures { MakesShortTerm self.now result handle.new.kept }
    {
        match self.make_short_term(alloc) {
            Ok(server) => placed(alloc, handle, Kept::ShortTerm(server)),
            Err(refusal) => refusal.code(),
        }
    }

    /// Creates a server without credentials in an empty handle. Returns 0, or a negative error
    /// code.
    pub fn place_open(&self, alloc: Global, handle: &mut EndpointHandle) -> i64
        requires { handle.old.kept ≡ None }
        ensures { MakesOpen self.now result handle.new.kept }
    {
        match self.make_open(alloc) {
            Ok(server) => placed(alloc, handle, Kept::Open(server)),
            Err(refusal) => refusal.code(),
        }
    }

    /// Creates the settings of a server's responses. Fails with `NotText`, `TextTooLong` or
    /// `OutOfMemory` if the SOFTWARE text is not UTF-8, is too long or cannot be stored.
    fn make_settings(&self, alloc: Global) -> Result<ResponseSettings<Global>, Refusal>
        ensures refused { RefusedFor (alone_refusal self.now) result }
        ensures software { IfOk result (λ made. option_map string_bytes made.software
            ≡ if_any self.now.software) }
        ensures understood { IfOk result (λ made. made.understood.items
            ≡ types_of self.now.understood) }
        ensures binding { IfOk result (λ made. made.answers_binding ≡ self.now.answers_binding) }
        ensures fingerprint { IfOk result (λ made. made.requires_fingerprint
            ≡ self.now.requires_fingerprint) }
    {
        let software = text(self.software)?;
        if software.len() > TEXT_LIMIT {
            return Err(Refusal::TextTooLong);
        }
        let software = text_if_any(alloc, software)?;
        Ok(ResponseSettings {
            understood: types(alloc, self.understood)?,
            software,
            answers_binding: self.answers_binding,
            requires_fingerprint: self.requires_fingerprint,
        })
    }

    /// Creates a server with short-term credentials.
    fn make_short_term(&self, alloc: Global) -> Result<ShortTermServer<Global>, Refusal>
        ensures { Builds (alone_refusal self.now) (responding_given self.now) result }
    {
        match ShortTermServer::new(alloc, self.make_settings(alloc)?) {
            Ok(server) => Ok(server),
            // Wrong settings were refused above, so the cause is a failed allocation.
            Err(_) => Err(Refusal::OutOfMemory),
        }
    }

    /// Creates a server without credentials.
    fn make_open(&self, alloc: Global) -> Result<OpenServer<Global>, Refusal>
        ensures { Builds (alone_refusal self.now) (responding_given self.now) result }
    {
        match OpenServer::new(alloc, self.make_settings(alloc)?) {
            Ok(server) => Ok(server),
            // Wrong settings were refused above, so the cause is a failed allocation.
            Err(_) => Err(Refusal::OutOfMemory),
        }
    }
}
