//! Creates a client from the arguments that a caller passes.

ghost use Rattle.std.specs.Prelude.{◌≡◌, ◌++◌, IfOk, None};
ghost use Rattle.stun_extra.specs.Unknown.{types_of};
ghost use Rattle.stun_client.specs.Judging.{identity_of};
ghost use Rattle.stun_c_endpoint.specs.Given.{Makes};
ghost use Rattle.stun_c_endpoint.specs.declared.handle.endpoint.Kept.TheVariants as kind;
ghost use Rattle.stun_agent.specs.Timing.{settings_of};
ghost use Rattle.stun_c_endpoint.specs.ClientsGiven.{MakesClient, algorithm_given};
ghost use Rattle.stun_c_endpoint.specs.ClientsGiven.{client_given, client_refusal, feature_given};
ghost use Rattle.stun_c_endpoint.specs.ClientsGiven.{identity_given, is_half_user, is_out_of_range};
ghost use Rattle.stun_c_endpoint.specs.ClientsGiven.{or_else};
ghost use Rattle.stun_c_endpoint.specs.ClientsGiven.{preferences_given, timeouts_given};
ghost use Rattle.stun_c_endpoint.specs.ClientsGiven.{transport_given};
ghost use Rattle.stun_c_endpoint.specs.code.Building.{Builds};

use crate::handle::endpoint::{EndpointHandle, Kept};
use crate::settings::{ONLY_SHA256, algorithms, is_repeated, placed, text_if_any, types};
use std::alloc::{AllocError, Global};
use std::marker::Model;
use std::net::SocketAddr;
use std::time::Duration;
use stun_agent::agent::RequestRto;
use stun_base::attribute_type::AttributeType;
use stun_base::key::IntegrityKey;
use stun_base::transport::TransportType;
use stun_client::credentials::{Credentials, LongTerm, ShortTerm};
use stun_client::preferences::Preferences;
use stun_client_calls::endpoint::ClientEndpoint;
use stun_client_endpoint::form::Form;
use stun_client_endpoint::settings::Settings;
use stun_handles::address::Address;
use stun_handles::text::copied;
use stun_judging::feature::Feature;
use stun_numbers::refusal::Refusal;
use stun_numbers::text::text;
use stun_types::limits::{TEXT_LIMIT, USERNAME_LIMIT};
use stun_types::message::{IntegrityAlgorithm, LongTermCredentials, PreparedKey};

/// The types of all comprehension-required attributes in `include/stunp.h`, which each client
/// understands in responses.
pub const UNDERSTOOD: [AttributeType; 28] = [
    AttributeType(0x0001),
    AttributeType(0x0003),
    AttributeType(0x0006),
    AttributeType(0x0008),
    AttributeType(0x0009),
    AttributeType(0x000A),
    AttributeType(0x000C),
    AttributeType(0x000D),
    AttributeType(0x0012),
    AttributeType(0x0013),
    AttributeType(0x0014),
    AttributeType(0x0015),
    AttributeType(0x0016),
    AttributeType(0x0017),
    AttributeType(0x0018),
    AttributeType(0x0019),
    AttributeType(0x001A),
    AttributeType(0x001B),
    AttributeType(0x001C),
    AttributeType(0x001D),
    AttributeType(0x001E),
    AttributeType(0x0020),
    AttributeType(0x0022),
    AttributeType(0x0024),
    AttributeType(0x0025),
    AttributeType(0x0026),
    AttributeType(0x0027),
    AttributeType(0x002A),
];

/// The default wait after the first transmission of a request, in nanoseconds (RFC 8489, section
/// 6.2.1).
const INITIAL: u64 = 500_000_000;

/// The default for the longest wait between two transmissions, in nanoseconds: the greatest number,
/// so that the waits have no limit.
const LONGEST: u64 = 18_446_744_073_709_551_615;

/// The default wait after the last transmission, in nanoseconds.
const LAST: u64 = 8_000_000_000;

/// The default number of transmissions of a request.
const TRANSMISSIONS: u32 = 7;

/// The default number of challenges for which a request is sent again.
const CHALLENGES: u32 = 6;

/// The `stunp_credentials` for short-term credentials.
const SHORT_TERM: u32 = 1;

/// The number in `ClientOptions::algorithms` for both algorithms, which is the greatest valid
/// number.
const BOTH: u32 = 3;

/// The greatest `stunp_feature`, which means that the user name is never sent as a hash.
const DISABLED: u32 = 2;

/// The options of a client. If a number is 0, its default is used.
#[repr(C)]
#[derive(Clone, Copy)]
pub struct ClientOptions {
    /// The wait after the first transmission of a request, in nanoseconds.
    pub initial: u64,
    /// The longest wait between two transmissions, in nanoseconds.
    pub longest: u64,
    /// The wait after the last transmission, in nanoseconds.
    pub last: u64,
    /// The number of transmissions of a request.
    pub transmissions: u32,
    /// The greatest number of challenges for which a request is sent again.
    pub challenges: u32,
    /// The kind of the credentials, a `stunp_credentials`.
    pub credentials: u32,
    /// The supported algorithms: 1 is HMAC-SHA1, 2 is HMAC-SHA256, and 3 is both.
    pub algorithms: u32,
    /// When the user name is sent as a hash, a `stunp_feature`.
    pub anonymous_username: u32,
    /// Whether messages are sent over a stream.
    pub is_stream: bool,
    /// Whether an unsigned response to an unsigned request is accepted.
    pub accepts_unsigned: bool,
    /// Whether requests end with FINGERPRINT.
    pub has_fingerprint: bool,
    /// Whether a response without FINGERPRINT is dropped.
    pub requires_fingerprint: bool,
}

/// The arguments for creating a client.
///
/// Contracts: the texts and the seed are lists of bytes, and the attribute types are numbers.
#[derive(Drop)]
pub struct ClientGiven<'a> {
    pub server: &'a Address,
    pub seed: &'a [u8; 32],
    pub name: &'a [u8],
    pub password: &'a [u8],
    pub software: &'a [u8],
    pub understood: &'a [u16],
    pub options: &'a ClientOptions,
}

impl<'a> Model for ClientGiven<'a> {
    ghost use Rattle.stun_c_endpoint.specs.ClientsGiven.{ClientGiven as GivenSeen};

    ghost Value = { GivenSeen };

    ghost view = { λ given. record {
      server = given.server.now;
      seed = given.seed.now;
      name = given.name.now;
      password = given.password.now;
      software = given.software.now;
      understood = given.understood.now;
      options = given.options.now;
    } };
}

/// Returns a number, or its default if the number is 0.
fn choose_number(number: u64, default: u64) -> u64
    ensures { result ≡ or_else number default }
{
    if number == 0 { default } else { number }
}

/// Like `choose_number`, but for a number of 32 bits.
fn choose_small_number(number: u32, default: u32) -> u32
    ensures { result ≡ or_else number default }
{
    if number == 0 { default } else { number }
}

/// Returns the feature with this number: `Required` for 1, `Disabled` for 2, and otherwise `Auto`.
fn choose_feature(number: u32) -> Feature
    ensures { result ≡ feature_given number }
{
    match number {
        1 => Feature::Required,
        2 => Feature::Disabled,
        _ => Feature::Auto,
    }
}

/// Returns the algorithm for short-term credentials: HMAC-SHA256 if `number` is 2, and otherwise
/// HMAC-SHA1.
fn choose_algorithm(number: u32) -> IntegrityAlgorithm
    ensures { result ≡ algorithm_given number }
{
    if number == ONLY_SHA256 {
        IntegrityAlgorithm::Sha256
    } else {
        IntegrityAlgorithm::Sha1
    }
}

impl ClientOptions {
    /// Returns the preferences of a user with long-term credentials: the algorithms, and when the
    /// user name is sent as a hash.
    fn make_preferences(&self) -> Preferences
        ensures { result ≡ preferences_given self.now }
    {
        Preferences {
            algorithms: algorithms(self.algorithms),
            anonymous_username: choose_feature(self.anonymous_username),
        }
    }

    /// Returns `true` if an option is invalid. `has_user` says whether the client has a user,
    /// because the kind of the credentials matters only then.
    fn is_out_of_range(&self, has_user: bool) -> bool
        ensures { result ≡ is_out_of_range has_user self.now }
    {
        self.algorithms > BOTH
            || self.anonymous_username > DISABLED
            || (has_user && self.credentials > SHORT_TERM)
            || (has_user && self.credentials == SHORT_TERM && self.algorithms == BOTH)
    }

    /// Returns the transport over which messages are sent.
    fn choose_transport(&self) -> TransportType
        ensures { result ≡ transport_given self.now.is_stream }
    {
        if self.is_stream {
            TransportType::Tcp
        } else {
            TransportType::Udp
        }
    }

    /// Returns the retransmission timeouts of requests.
    fn choose_timeouts(&self) -> RequestRto
        ensures { settings_of result ≡ timeouts_given self.now }
    {
        RequestRto {
            initial: Duration::from_nanos(choose_number(self.initial, INITIAL)),
            max: Duration::from_nanos(choose_number(self.longest, LONGEST)),
            retransmits: choose_small_number(self.transmissions, TRANSMISSIONS),
            last_retransmit: Duration::from_nanos(choose_number(self.last, LAST)),
        }
    }

    /// Creates the credentials of the client's user, or `Unsigned` if the name is empty.
    fn make_credentials(
        &self,
        alloc: Global,
        name: &str,
        password: &str,
    ) -> Result<Credentials<Global>, AllocError>
        ensures { IfOk result (λ made. identity_of made
            ≡ identity_given name.now password.now self.now) }
    {
        if name.is_empty() {
            return Ok(Credentials::Unsigned);
        }
        let name = copied(alloc, name)?;
        if self.credentials == SHORT_TERM {
            let algorithm = choose_algorithm(self.algorithms);
            let key = IntegrityKey::from_bytes(alloc, password.as_bytes())?;
            return Ok(Credentials::ShortTerm(ShortTerm {
                name,
                password: PreparedKey::new(key, algorithm),
                algorithm,
            }));
        }
        Ok(Credentials::LongTerm(LongTerm {
            user: LongTermCredentials::new(name, copied(alloc, password)?),
            preferences: self.make_preferences(),
            accepts_unsigned: self.accepts_unsigned,
        }))
    }
}

/// Returns the types that a client understands: those that the caller passes, and `UNDERSTOOD`.
fn list_understood(alloc: Global, numbers: &[u16]) -> Result<Vec<AttributeType, Global>, AllocError>
    ensures { IfOk result (λ types. types.items ≡ types_of numbers.now ++ UNDERSTOOD) }
{
    let mut types = types(alloc, numbers)?;
    types.extend_from_slice(&UNDERSTOOD)?;
    Ok(types)
}

impl<'a> ClientGiven<'a> {
    /// Returns `true` if there is a name without a password, or a password without a name.
    fn is_half_user(&self) -> bool
        ensures { result ≡ is_half_user self.now.name self.now.password }
    {
        if self.name.is_empty() {
            !self.password.is_empty()
        } else {
            self.password.is_empty()
        }
    }

    /// Creates the client in an empty handle. Returns 0, or a negative error code.
    pub fn place(&self, alloc: Global, handle: &mut EndpointHandle) -> i64
        requires { handle.old.kept ≡ None }
        ensures { MakesClient self.now result handle.new.kept }
    {
        match self.server.socket() {
            Ok(server) => self.place_at(alloc, server, handle),
            Err(refusal) => refusal.code(),
        }
    }

    /// Creates the client of a server at this address in an empty handle. Returns 0, or a negative
    /// error code.
    fn place_at(&self, alloc: Global, server: SocketAddr, handle: &mut EndpointHandle) -> i64
        requires { handle.old.kept ≡ None }
        ensures { Makes (client_refusal self.now) (kind.Client (client_given self.now server)) result
            handle.new.kept }
    {
        match self.make_client(alloc, server) {
            Ok(client) => placed(alloc, handle, Kept::Client(client)),
            Err(refusal) => refusal.code(),
        }
    }

    /// Creates the client of a server at this address.
    #[tactic(auto, unfolding(crate::specs::ClientsGiven::client_refusal))]
    fn make_client(
        &self,
        alloc: Global,
        server: SocketAddr,
    ) -> Result<ClientEndpoint<Global>, Refusal>
        ensures { Builds (client_refusal self.now) (client_given self.now server) result }
    {
        if self.options.is_out_of_range(!self.name.is_empty())
            || self.is_half_user()
            || is_repeated(self.seed)
        {
            return Err(Refusal::BadArgument);
        }
        let name = text(self.name)?;
        let password = text(self.password)?;
        let software = text(self.software)?;
        if name.len() > USERNAME_LIMIT || software.len() > TEXT_LIMIT {
            return Err(Refusal::TextTooLong);
        }
        match self.make_from_texts(alloc, server, name, password, software) {
            Ok(client) => Ok(client),
            Err(_) => Err(Refusal::OutOfMemory),
        }
    }

    /// Creates the client from these settings. `name`, `password` and `software` are the fields of
    /// the same names, which the caller has checked to be UTF-8.
    fn make_from_texts(
        &self,
        alloc: Global,
        server: SocketAddr,
        name: &str,
        password: &str,
        software: &str,
    ) -> Result<ClientEndpoint<Global>, AllocError>
        requires name { name.now ≡ self.now.name }
        requires password { password.now ≡ self.now.password }
        requires software { software.now ≡ self.now.software }
        ensures { IfOk result (λ client. client ≡ client_given self.now server) }
    {
        let credentials = self.options.make_credentials(alloc, name, password)?;
        let software = text_if_any(alloc, software)?;
        let settings = Settings {
            form: Form::new(software, self.options.has_fingerprint),
            requires_fingerprint: self.options.requires_fingerprint,
            understood: list_understood(alloc, self.understood)?,
            challenges: choose_small_number(self.options.challenges, CHALLENGES),
            timeouts: self.options.choose_timeouts(),
        };
        ClientEndpoint::new(
            alloc,
            self.options.choose_transport(),
            server,
            credentials,
            settings,
            self.seed,
            false,
        )
    }
}
