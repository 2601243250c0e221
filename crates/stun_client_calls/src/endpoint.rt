//! A client of one server, as one value that stores each request once.
ghost use Rattle.std.specs.Option.{is_some, option_copied, option_map};
ghost use Rattle.std.specs.Prelude.{◌≡◌, IfOk, IsOk};
ghost use Rattle.stun_agent.specs.Timing.{settings_of};
ghost use Rattle.stun_client.specs.Judging.{identity_of};
ghost use Rattle.stun_client_calls.specs.Clients.{cancelled, new_client};
ghost use Rattle.stun_client_calls.specs.Ids.{number_with};
ghost use Rattle.stun_client_requests.specs.Numbers.{id_at};
ghost use Rattle.stun_client_requests.specs.Requests.{bytes_at, datum_of, outstanding_count};

use crate::asked::{Asked, End};
use std::alloc::{AllocError, Allocator, Global};
use std::collections::BTreeMap;
use std::marker::Model;
use std::net::SocketAddr;
use stun_agent::agent::RequestRto;
use stun_agent::stats::StunAgentStats;
use stun_base::memory::Memory;
use stun_base::transport::TransportType;
use stun_client::credentials::Credentials;
use stun_client::standing::Standing;
use stun_client_endpoint::ended::{Drops, RequestEnd};
use stun_client_endpoint::form::Form;
use stun_client_endpoint::settings::Settings;
use stun_client_requests::requests::Requests;
use stun_types::attribute::AttributeType;
use stun_types::message::{IntegrityAlgorithm, IntegrityKey, PreparedKey, TransactionId};

mod acting;
pub(crate) mod changing;
mod polling;
mod receiving;
mod requesting;

/// A client of one server on one transport, with any number of requests at the same time.
///
/// The client retransmits, answers challenges and verifies signatures. `poll` returns the outcome
/// of each request once. Take every `now` from one clock that never goes back, because otherwise
/// requests are retransmitted too late.
///
/// With long-term credentials, the client writes a new message of a request for each challenge that
/// it answers, and at most one unsigned message. Each message has a plan of its own: the times at
/// which it is sent, and how long the client waits for its response. The plan is
/// `Settings::timeouts`, 39.5 seconds by default, unless the request's options override it. The
/// client answers the challenges of a request only within the plan of the request's first message,
/// and sends nothing for the request after that plan. So `poll` ends a request after at most two
/// plans, 79 seconds by default.
///
/// If an allocation fails, `request` returns an error. `poll` and `cancel` do not allocate.
///
/// The client contains a password, so it has no `Debug`.
///
/// Contracts: the value is a record of the client's state.
#[derive(Drop)]
pub struct ClientEndpoint<A: Allocator = Global> {
    pub(crate) alloc: A,
    pub(crate) server: SocketAddr,
    pub(crate) requires_fingerprint: bool,
    pub(crate) form: Form<A>,
    pub(crate) understood: Vec<AttributeType, A>,
    // The limit on how often another message of a request becomes the current one.
    pub(crate) turns: u32,
    pub(crate) plan: RequestRto,
    pub(crate) seed: PreparedKey<A>,
    pub(crate) next_id: u64,
    pub(crate) credentials: Credentials<A>,
    pub(crate) standing: Standing<A>,
    pub(crate) requests: Requests<A, Asked<A>, End<A>>,
    // The number of the request that each earlier message belongs to.
    pub(crate) earlier: BTreeMap<TransactionId, u64, A>,
}

impl<A: Allocator> Model for ClientEndpoint<A> {
    ghost use Rattle.stun_agent.specs.Timing.{settings_of};
    ghost use Rattle.stun_client.specs.Judging.{identity_of};
    ghost use Rattle.stun_client_calls.specs.Clients.{Client};

    ghost Value = { Client };

    ghost view = { λ e. record {
      server = e.server;
      requires_fingerprint = e.requires_fingerprint;
      form = e.form;
      understood = e.understood.items;
      turns = e.turns;
      plan = settings_of e.plan;
      seed = e.seed;
      next_id = e.next_id;
      identity = identity_of e.credentials;
      standing = e.standing;
      requests = e.requests;
      earlier = e.earlier.entries;
    } };
}

impl<A: Memory> ClientEndpoint<A> {
    /// Creates a client of this server that has no requests yet. It keeps statistics if `stats` is
    /// true. Pass 32 unpredictable bytes as `seed`, and never use them for another client, because
    /// the transaction IDs are derived from them.
    ///
    /// Fails if an allocation fails.
    pub fn new(
        alloc: A,
        transport: TransportType,
        server: SocketAddr,
        credentials: Credentials<A>,
        settings: Settings<A>,
        seed: &[u8; 32],
        stats: bool,
    ) -> Result<ClientEndpoint<A>, AllocError>
        ensures client { IfOk result (λ client. client ≡ new_client transport server stats
            settings.requires_fingerprint (identity_of credentials) settings.form
            settings.understood.items settings.challenges (settings_of settings.timeouts) seed.now) }
        ensures granted { A.grants → IsOk result }
    {
        let Settings {
            form,
            requires_fingerprint,
            understood,
            challenges,
            timeouts,
        } = settings;
        let key = IntegrityKey::from_bytes(alloc, seed)?;
        Ok(ClientEndpoint {
            alloc,
            server,
            requires_fingerprint,
            form,
            understood,
            turns: challenges,
            plan: timeouts,
            seed: PreparedKey::new(key, IntegrityAlgorithm::Sha1),
            next_id: 0,
            credentials,
            standing: Standing::new(),
            requests: Requests::new(alloc, transport, server, stats),
            earlier: BTreeMap::new(alloc),
        })
    }

    /// Returns the address of the server.
    pub fn server(&self) -> SocketAddr
        ensures { result ≡ self.now.server }
    {
        self.server
    }

    /// Returns the timeouts of the requests that have no timeouts of their own.
    pub fn timeouts(&self) -> RequestRto
        ensures { settings_of result ≡ self.now.plan }
    {
        self.plan
    }

    /// Returns the statistics, if the client keeps them.
    pub fn stats(&self) -> Option<&StunAgentStats>
        ensures { option_copied result ≡ self.now.requests.table.statistics }
    {
        self.requests.stats()
    }

    /// Returns the bytes of the current message of a request, while it is outstanding.
    pub fn bytes_of(&self, number: u64) -> Option<&[u8]>
        ensures { option_map (λ b. b.now) result ≡ bytes_at number self.now.requests }
    {
        self.requests.bytes_of(number)
    }

    /// Returns the transaction ID of the current message of a request, while it is outstanding.
    pub fn transaction_id(&self, number: u64) -> Option<TransactionId>
        ensures { result ≡ id_at number self.now.requests.numbers }
    {
        self.requests.id_of(number)
    }

    /// Returns the number of the outstanding request that has a message with this transaction ID,
    /// the current one or an earlier one.
    pub fn request_of(&self, id: TransactionId) -> Option<u64>
        ensures { result ≡ number_with id self.now.requests.table.attached self.now.earlier }
    {
        match self.requests.number_of(id) {
            Some(number) => Some(number),
            None => self.earlier.get(&id).copied(),
        }
    }

    /// Returns how many responses to the request with this number were dropped, and why the last of
    /// them was dropped. Returns `None` if no outstanding request has this number.
    pub fn dropped(&self, number: u64) -> Option<Drops>
        ensures { result ≡ option_map (λ a. a.drops) (datum_of number self.now.requests) }
    {
        let asked = self.requests.datum_of(number)?;
        Some(asked.drops())
    }

    /// Returns the number of outstanding requests.
    pub fn outstanding(&self) -> usize
        ensures { result ≡ outstanding_count self.now.requests.numbers }
    {
        self.requests.outstanding()
    }

    /// Cancels a request. `poll` then returns `Ended` for it, with `RequestEnd::Cancelled`. Returns
    /// `false` if no outstanding request has this number. It does not allocate.
    pub fn cancel(&mut self, number: u64) -> bool
        ensures known { result ≡ is_some (datum_of number self.old.requests) }
        ensures after { self.new ≡ cancelled number self.old }
    {
        let end = End::bare(self.alloc, RequestEnd::Cancelled);
        let Some(asked) = self.requests.cancel(number, end) else {
            return false;
        };
        asked.forget(&mut self.earlier);
        true
    }
}
