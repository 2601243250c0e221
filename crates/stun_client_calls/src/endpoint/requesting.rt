//! Starts requests.
ghost use Rattle.std.specs.Duration.{as_nanos};
ghost use Rattle.std.specs.Option.{IfSome, option_copied, option_map};
ghost use Rattle.std.specs.Prelude.{◌≡◌, ◌<◌, ◌+◌, ◌⊎◌, Err, IfErr, IfOk, IsErr, IsOk, IsOkUnless};
ghost use Rattle.std.specs.Prelude.{MatchOption, None, Ok, OnErr, OnOk, Some, true};
ghost use Rattle.stun_agent.specs.Timing.{settings_of};
ghost use Rattle.stun_agent.specs.Transactions.{IsRequestOf};
ghost use Rattle.stun_client.specs.Ids.{id_of};
ghost use Rattle.stun_client.specs.Judging.{identity_of};
ghost use Rattle.stun_client_calls.specs.Clients.{chosen, error_of, first_asked};
ghost use Rattle.stun_client_calls.specs.Clients.{refusal_at_once, refusal_to_start, started};
ghost use Rattle.stun_client_calls.specs.Options.{challenge_by, identity_by, options_of, plan_by};
ghost use Rattle.stun_client_endpoint.specs.Settings.{plan_of};
ghost use Rattle.stun_client_endpoint.specs.Written.{is_text_too_long, request_bytes};
ghost use Rattle.stun_client_requests.specs.Requests.{LAST_NUMBER, after_start, start_refusal};

use crate::asked::Asked;
use crate::deciding::copy_challenge;
use crate::endpoint::ClientEndpoint;
use crate::ids::{NumberedId, free_number};
use crate::options::{RequestOptions, choose_plan};
use std::alloc::AllocError;
use std::time::Duration;
use stun_agent::agent::RequestRto;
use stun_base::instant::Instant;
use stun_base::memory::Memory;
use stun_base::transport::TransportType;
use stun_client::challenge::Challenge;
use stun_client::credentials::Credentials;
use stun_client_endpoint::body::Body;
use stun_client_endpoint::form::Form;
use stun_client_endpoint::told::RequestError;
use stun_client_requests::requests::StartRefusal;
use stun_types::message::{Method, StunWriteError, TransactionId};

impl<A: Memory> ClientEndpoint<A> {
    /// Starts a request, and returns its number. `poll` then returns `Transmit` with this number:
    /// send the bytes that `bytes_of` returns for it. If `poll` is not called before the first plan
    /// of the request is over, the request ends without having been sent.
    ///
    /// # Errors
    ///
    /// Fails with the first of these that applies. The first two are tested before anything is
    /// allocated, but `OutOfMemory` may come before the others. A call that fails changes nothing.
    ///
    /// - `NoId`: the seed has no transaction ID left.
    /// - `TooLarge`: the text of SOFTWARE has more than 763 bytes (see `Form::new`).
    /// - `TooLarge`: the message would be too long.
    /// - `NoId`: no number is left.
    /// - `OutOfMemory`: an allocation failed.
    pub fn request(
        &mut self,
        method: Method,
        body: Body<A>,
        now: Instant,
    ) -> Result<u64, RequestError>
        ensures refused { MatchOption (refusal_to_start self.old method body None)
            (IsOkUnless result RequestError.OutOfMemory)
            (λ why. (result ≡ Err why) ⊎ (result ≡ Err RequestError.OutOfMemory)) }
        ensures at_once { IfSome (refusal_at_once self.old) (λ why. result ≡ Err why) }
        ensures granted { A.grants → refusal_to_start self.old method body None ≡ None
            → IsOk result }
        ensures number { IfOk result (λ number. number ≡ self.old.requests.next) }
        ensures after { OnOk result (self.new ≡ started method body None now self.old) }
        ensures same { OnErr result (self.new ≡ self.old) }
    {
        self.begin(method, body, None, now)
    }

    /// Starts a request like [`request`](ClientEndpoint::request), but with these options:
    /// unsigned, with timeouts of its own, or answered from an address other than the server's.
    ///
    /// A request that is not signed is written without credentials (RFC 8489, section 9). Its first
    /// response from the right address is believed, unless its FINGERPRINT is wrong, or missing
    /// although the client requires it. The client answers no challenge for it, and a success
    /// confirms no challenge.
    ///
    /// The response comes from the server's address, unless the request asks for a response from a
    /// different address (RFC 5780, section 7.2).
    ///
    /// # Errors
    ///
    /// Fails with the first of these that applies. The first two are tested before anything is
    /// allocated, but `OutOfMemory` may come before the others. A call that fails changes nothing.
    ///
    /// - `NoId`: the seed has no transaction ID left.
    /// - `TooLarge`: the text of SOFTWARE has more than 763 bytes (see `Form::new`).
    /// - `TooLarge`: the message would be too long.
    /// - `NoId`: no number is left.
    /// - `OutOfMemory`: an allocation failed.
    pub fn request_with(
        &mut self,
        method: Method,
        body: Body<A>,
        options: RequestOptions,
        now: Instant,
    ) -> Result<u64, RequestError>
        ensures refused { MatchOption (refusal_to_start self.old method body
            (Some (options_of options)))
            (IsOkUnless result RequestError.OutOfMemory)
            (λ why. (result ≡ Err why) ⊎ (result ≡ Err RequestError.OutOfMemory)) }
        ensures at_once { IfSome (refusal_at_once self.old) (λ why. result ≡ Err why) }
        ensures granted { A.grants → refusal_to_start self.old method body (Some (options_of options)) ≡ None
            → IsOk result }
        ensures number { IfOk result (λ number. number ≡ self.old.requests.next) }
        ensures after { OnOk result (self.new
            ≡ started method body (Some (options_of options)) now self.old) }
        ensures same { OnErr result (self.new ≡ self.old) }
    {
        self.begin(method, body, Some(options), now)
    }

    /// Starts a request with these options, or with the settings of the client if there are none.
    fn begin(
        &mut self,
        method: Method,
        body: Body<A>,
        options: Option<RequestOptions>,
        now: Instant,
    ) -> Result<u64, RequestError>
        ensures refused { MatchOption (refusal_to_start self.old method body
            (option_map options_of options))
            (IsOkUnless result RequestError.OutOfMemory)
            (λ why. (result ≡ Err why) ⊎ (result ≡ Err RequestError.OutOfMemory)) }
        ensures at_once { IfSome (refusal_at_once self.old) (λ why. result ≡ Err why) }
        ensures granted { A.grants → refusal_to_start self.old method body (option_map options_of options) ≡ None
            → IsOk result }
        ensures number { IfOk result (λ number. number ≡ self.old.requests.next) }
        ensures after { OnOk result (self.new
            ≡ started method body (option_map options_of options) now self.old) }
        ensures same { OnErr result (self.new ≡ self.old) }
    {
        let Some(free) = self.choose_id() else {
            return Err(RequestError::NoId);
        };
        // A method has 12 bits, so the message begins with the header of a request.
        prove!(method.value() < 4096);
        let bytes = self.write_first_message(method, free.id, &body, options)?;
        let Ok(asked) = self.make_first_asked(method, body, options, now) else {
            return Err(RequestError::OutOfMemory);
        };
        self.start(free, bytes, asked, now)
    }

    /// Returns the transaction ID of the next message and its number, or `None` if no ID is left.
    pub(crate) fn choose_id(&self) -> Option<NumberedId>
        ensures chosen { option_map (λ free. free.number) result ≡ chosen self.now }
        ensures named { IfSome result (λ free. free.id ≡ id_of self.now.seed free.number) }
        ensures low { IfSome result (λ free. free.number < LAST_NUMBER) }
    {
        free_number(&self.seed, &self.requests, &self.earlier, self.next_id)
    }

    /// Writes the first message of a request, with this transaction ID.
    fn write_first_message(
        &self,
        method: Method,
        id: TransactionId,
        body: &Body<A>,
        options: Option<RequestOptions>,
    ) -> Result<Vec<u8, A>, RequestError>
        ensures ok { IfOk result (λ bytes. request_bytes self.now.form
            (identity_by (option_map options_of options) self.now.identity)
            (challenge_by (option_map options_of options) self.now.standing.current)
            method id body.now ≡ Ok bytes.items) }
        ensures refused { IfErr result (λ why. (why ≡ RequestError.OutOfMemory)
            ⊎ ((why ≡ RequestError.TooLarge) × IsErr (request_bytes self.now.form
            (identity_by (option_map options_of options) self.now.identity)
            (challenge_by (option_map options_of options) self.now.standing.current)
            method id body.now))) }
        ensures granted { A.grants → IfErr result (λ why. (why ≡ RequestError.TooLarge)
            × IsErr (request_bytes self.now.form
            (identity_by (option_map options_of options) self.now.identity)
            (challenge_by (option_map options_of options) self.now.standing.current)
            method id body.now)) }
        ensures at_once { is_text_too_long self.now.form.software ≡ true
            → result ≡ Err RequestError.TooLarge }
    {
        let Some(options) = options else {
            return self.write_signed_message(method, id, body);
        };
        if options.is_signed {
            return self.write_signed_message(method, id, body);
        }
        let unsigned = Credentials::Unsigned;
        let challenge: Option<Challenge<A>> = None;
        let signed_for = challenge.as_ref();
        write_request(
            self.alloc, &self.form, &unsigned, signed_for, method, id, body,
        )
    }

    /// Writes the first message of a request that is signed with the credentials of the client.
    fn write_signed_message(
        &self,
        method: Method,
        id: TransactionId,
        body: &Body<A>,
    ) -> Result<Vec<u8, A>, RequestError>
        ensures ok { IfOk result (λ bytes. request_bytes self.now.form self.now.identity
            self.now.standing.current method id body.now ≡ Ok bytes.items) }
        ensures refused { IfErr result (λ why. (why ≡ RequestError.OutOfMemory)
            ⊎ ((why ≡ RequestError.TooLarge) × IsErr (request_bytes self.now.form self.now.identity
            self.now.standing.current method id body.now))) }
        ensures granted { A.grants → IfErr result (λ why. (why ≡ RequestError.TooLarge)
            × IsErr (request_bytes self.now.form self.now.identity
            self.now.standing.current method id body.now)) }
        ensures at_once { is_text_too_long self.now.form.software ≡ true
            → result ≡ Err RequestError.TooLarge }
    {
        let signed_for = self.standing.current().as_ref();
        let credentials = &self.credentials;
        write_request(
            self.alloc,
            &self.form,
            credentials,
            signed_for,
            method,
            id,
            body,
        )
    }

    /// Returns the state of a request that is being started. Fails if an allocation fails.
    fn make_first_asked(
        &self,
        method: Method,
        body: Body<A>,
        options: Option<RequestOptions>,
        now: Instant,
    ) -> Result<Asked<A>, AllocError>
        ensures value { IfOk result (λ asked. asked
            ≡ first_asked self.now method body (option_map options_of options) now) }
        ensures granted { A.grants → IsOk result }
    {
        let signed_for = self.copy_first_challenge(options)?;
        let until = now + measure_plan(choose_plan(options, self.plan));
        let stored = box_options(self.alloc, options)?;
        Ok(Asked::new(self.alloc, method, body, stored, until, signed_for))
    }

    /// Copies the challenge that a new request is signed for, or returns `None` if the request is
    /// not signed. Fails if an allocation fails.
    fn copy_first_challenge(
        &self,
        options: Option<RequestOptions>,
    ) -> Result<Option<Challenge<A>>, AllocError>
        ensures value { IfOk result (λ c. c
            ≡ challenge_by (option_map options_of options) self.now.standing.current) }
        ensures granted { A.grants → IsOk result }
    {
        let Some(options) = options else {
            return copy_challenge(self.standing.current());
        };
        if options.is_signed {
            copy_challenge(self.standing.current())
        } else {
            Ok(None)
        }
    }

    /// Starts a request whose first message has these bytes and this transaction ID.
    fn start(
        &mut self,
        free: NumberedId,
        bytes: Vec<u8, A>,
        asked: Asked<A>,
        now: Instant,
    ) -> Result<u64, RequestError>
        requires named { IsRequestOf free.id bytes.items }
        requires low { free.number < LAST_NUMBER }
        ensures refused { MatchOption (option_map error_of (start_refusal self.old.requests free.id))
            (IsOkUnless result RequestError.OutOfMemory) (λ why. result ≡ Err why) }
        ensures granted { A.grants → start_refusal self.old.requests free.id ≡ None → IsOk result }
        ensures number { IfOk result (λ number. number ≡ self.old.requests.next) }
        ensures after { OnOk result (self.new ≡ record self.old {
          next_id = free.number + 1;
          requests = after_start free.id bytes.items (plan_by asked.options self.old.plan) asked now
              self.old.requests;
        }) }
        ensures same { OnErr result (self.new ≡ self.old) }
    {
        let plan = asked.plan(self.plan);
        match self.requests.start(free.id, bytes, plan, asked, now) {
            Ok(number) => {
                self.next_id = free.number + 1;
                Ok(number)
            }
            Err(refusal) => Err(to_error(refusal)),
        }
    }
}

/// Writes a message that is signed for this challenge.
fn write_request<A: Memory>(
    alloc: A,
    form: &Form<A>,
    credentials: &Credentials<A>,
    signed_for: Option<&Challenge<A>>,
    method: Method,
    id: TransactionId,
    body: &Body<A>,
) -> Result<Vec<u8, A>, RequestError>
    ensures ok { IfOk result (λ bytes. request_bytes form.now (identity_of credentials.now)
        (option_copied signed_for.entry) method id body.now ≡ Ok bytes.items) }
    ensures refused { IfErr result (λ why. (why ≡ RequestError.OutOfMemory)
        ⊎ ((why ≡ RequestError.TooLarge) × IsErr (request_bytes form.now
        (identity_of credentials.now) (option_copied signed_for.entry) method id body.now))) }
    ensures granted { A.grants → IfErr result (λ why. (why ≡ RequestError.TooLarge)
        × IsErr (request_bytes form.now (identity_of credentials.now)
        (option_copied signed_for.entry) method id body.now)) }
    ensures at_once { is_text_too_long form.now.software ≡ true
        → result ≡ Err RequestError.TooLarge }
{
    match form.written(alloc, credentials, signed_for, method, id, body) {
        Ok(bytes) => Ok(bytes),
        Err(StunWriteError::OutOfMemory) => Err(RequestError::OutOfMemory),
        Err(_) => Err(RequestError::TooLarge),
    }
}

/// Puts options into a box. Fails if an allocation fails.
fn box_options<A: Memory>(
    alloc: A,
    options: Option<RequestOptions>,
) -> Result<Option<Box<RequestOptions, A>>, AllocError>
    ensures value { IfOk result (λ stored. option_map (λ b. options_of b.value) stored
        ≡ option_map options_of options) }
    ensures granted { A.grants → IsOk result }
{
    match options {
        Some(options) => Ok(Some(A::boxed(alloc, options)?)),
        None => Ok(None),
    }
}

/// Converts the reason why the table of requests has refused a request to an error.
fn to_error(refusal: StartRefusal) -> RequestError
    ensures { result ≡ error_of refusal }
{
    match refusal {
        StartRefusal::OutOfMemory => RequestError::OutOfMemory,
        _ => RequestError::NoId,
    }
}

/// Returns the duration of a plan: the time from the first transmission of a message until the
/// client stops waiting for a response.
fn measure_plan(timeouts: RequestRto) -> Duration
    ensures { as_nanos result ≡ plan_of (settings_of timeouts) }
{
    // Over TCP the client waits as long as a plan over UDP takes.
    timeouts.final_wait(TransportType::Tcp)
}
