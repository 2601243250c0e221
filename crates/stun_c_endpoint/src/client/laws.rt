//! Laws about the results of the calls on a client, the data that they write, and the client after
//! a call. They do nothing when they run.

ghost use Rattle.std.specs.Prelude.{◌≡◌, ◌≢◌, ◌<◌, ◌≤◌, ◌==◌, ℕ, ℤ, pos, List, [], length};
ghost use Rattle.std.specs.Prelude.{Option, Some, None, Result, Ok};
ghost use Rattle.std.specs.Option.{is_some};
ghost use Rattle.std.specs.declared.net.socket_addr.SocketAddr.{SocketAddr};
ghost use Rattle.stun_c_endpoint.specs.Attributes.{Reads};
ghost use Rattle.stun_c_endpoint.specs.ClientLaws.{AreAllowed, TellsPoll, TellsReceived};
ghost use Rattle.stun_c_endpoint.specs.Clients.{AsksAs, CancelsAs, HearsAs, PollsAs, TellsDropped};
ghost use Rattle.stun_c_endpoint.specs.ClientsGiven.{ClientGiven, MakesClient};
ghost use Rattle.stun_c_endpoint.specs.Events.{drop_told, drops_told, event_failed};
ghost use Rattle.stun_c_endpoint.specs.HandleLaws.{IsErrorNumber};
ghost use Rattle.stun_c_endpoint.specs.RequestsGiven.{options_if_any};
ghost use Rattle.stun_c_endpoint.specs.SettingLaws.{IsClientOf};
ghost use Rattle.stun_c_endpoint.specs.declared.client.event.Dropped.{Dropped};
ghost use Rattle.stun_c_endpoint.specs.declared.client.event.Event.{Event};
ghost use Rattle.stun_c_endpoint.specs.declared.client.options.RequestOptions.{RequestOptions};
ghost use Rattle.stun_c_endpoint.specs.declared.handle.endpoint.Kept.{Kept};
ghost use Rattle.stun_c_endpoint.specs.declared.handle.endpoint.Kept.TheVariants as kind;
ghost use Rattle.stun_client_calls.specs.Clients.{Client as ClientSeen, cancelled};
ghost use Rattle.stun_client_calls.specs.Clients.{refusal_to_start, started, told};
ghost use Rattle.stun_client_calls.specs.Messages.{AskedSeen};
ghost use Rattle.stun_client_calls.specs.Options.{Options};
ghost use Rattle.stun_client_calls.specs.Receiving.{Answer, UnlessMemory, heard_in, received};
ghost use Rattle.stun_client_calls.specs.Runs.{next_number};
ghost use Rattle.stun_client_endpoint.specs.Bodies.{Body};
ghost use Rattle.stun_client_endpoint.specs.declared.ended.DropReason.{DropReason};
ghost use Rattle.stun_client_requests.specs.Requests.{datum_of};
ghost use Rattle.stun_handles.specs.Addresses.{socket_address};
ghost use Rattle.stun_handles.specs.declared.address.Address.{Address};
ghost use Rattle.stun_numbers.specs.Refusals.{refusal_number};
ghost use Rattle.stun_numbers.specs.declared.refusal.Refusal.{Refusal};
ghost use Rattle.stun_numbers.specs.declared.refusal.Refusal.TheVariants.{BufferTooSmall};

/// States that if the call that creates a client returns 0, the handle has a client for the server
/// at the address that was passed. The client authenticates with the name, the password and the
/// kind of credentials that were passed, or has no credentials if there is no name. Options that
/// are 0 have their defaults. The call creates no client if the seed is one repeated byte, or if
/// only one of name and password is passed.
pub fn clients_are_made_as_asked_for()
    ensures { (g : ClientGiven) (now : Option Kept) → MakesClient g (pos 0) now
        → (server : SocketAddr) × (c : ClientSeen) × (socket_address g.server ≡ Some server)
        × (now ≡ Some (kind.Client c)) × IsClientOf g server c }
{}

/// States what the calls on the requests of a client do.
///
/// - `started`: if the call that starts a request returns 0, the library accepts the request, with
///   the options that were passed and with the attributes that the bytes of the body encode. The
///   caller receives the number of the request, and the client in the handle is in the same state
///   as after the library's call.
/// - `body`: no attribute of the body has a type that the client writes itself.
/// - `cancelled`: the call that cancels a request returns 1 if the request is outstanding, and
///   returns 0 if it is not.
/// - `outstanding`, `ended`: the call that reports the dropped responses of a request returns 1 if
///   the request is outstanding (`outstanding`), and returns 0 and writes nothing if it is not
///   (`ended`).
pub fn requests_are_those_of_the_library()
    ensures started { (c : ClientSeen) (method : ℕ) (bytes : List ℕ)
        (given : Option RequestOptions) (now id named : ℕ) (before after : Option Kept)
        → AsksAs (Ok c) method bytes given now (pos 0) id named before after
        → (body : Body) × (options : Option Options) × (method ≤ 4095)
        × (options_if_any given c ≡ Ok options) × Reads [] bytes (Ok body)
        × (refusal_to_start c method body options ≡ None) × (named ≡ next_number c)
        × (after ≡ Some (kind.Client (started method body options now c))) }
    ensures body { (bytes : List ℕ) (body : Body) → Reads [] bytes (Ok body) → AreAllowed body }
    ensures cancelled { (c : ClientSeen) (number n : ℕ) (before after : Option Kept)
        → CancelsAs (Ok c) number (pos n) before after
        → (is_some (datum_of number c.requests) ≡ (n == 1))
        × (after ≡ Some (kind.Client (cancelled number c))) }
    ensures outstanding { (c : ClientSeen) (number : ℕ) (d now : Dropped)
        → TellsDropped (Ok c) number (pos 1) d now
        → (a : AskedSeen) × (datum_of number c.requests ≡ Some a)
        × (now ≡ drops_told a.drops) }
    ensures ended { (c : ClientSeen) (number : ℕ) (d now : Dropped)
        → TellsDropped (Ok c) number (pos 0) d now
        → (datum_of number c.requests ≡ None) × (now ≡ d) }
{}

/// States that a caller receives what the library returns, and that the client in the handle is
/// then in the same state as after the library's call.
///
/// - `datagram`: this holds for a datagram, if the library gets the same datagram from the same
///   address.
/// - `poll`: this holds for a poll, if the library is polled with the same time. If a request has
///   ended, the caller receives the result, the response that ended the request, the algorithm of
///   the response's signature, and the round-trip time.
/// - `kind`: the kind in the caller's struct is the number that the poll returns.
/// - `why`: different reasons to drop a datagram have different numbers.
pub fn callers_read_what_the_library_returns()
    ensures datagram { (c : ClientSeen) (from : Address) (bytes : List ℕ) (now n why told : ℕ)
        (before after : Option Kept)
        → HearsAs (Ok c) from bytes now (pos n) why told before after
        → (address : SocketAddr) × (answer : Answer) × (socket_address from ≡ Some address)
        × UnlessMemory (λ memory. received memory address bytes now c) bytes
        (heard_in address bytes c) c answer
        × TellsReceived answer.0 n why told × (after ≡ Some (kind.Client answer.1)) }
    ensures poll { (c : ClientSeen) (now n : ℕ) (out written : List ℕ) (v event : Event)
        (before after : Option Kept)
        → PollsAs (Ok c) now (pos n) out written v event before after
        → TellsPoll (told now c).1 (told now c).0 n out written event
        × (after ≡ Some (kind.Client (told now c).1)) }
    ensures kind { (c : Result ClientSeen Refusal) (now n : ℕ) (out written : List ℕ)
        (v event : Event) (before after : Option Kept)
        → PollsAs c now (pos n) out written v event before after → event.kind ≡ n }
    ensures why { (one other : DropReason) → drop_told one ≡ drop_told other → one ≡ other }
{}

/// States that after an error the client is unchanged (`request`, `datagram`, `cancelled`, `poll`),
/// with one exception. A poll whose bytes do not fit into the buffer changes the client. The bytes
/// are then lost, and the event states their number, which is greater than the length of the buffer
/// (`lost`). A failed poll writes only to the event, which then has the kind 7 and the length 0
/// (`event`).
pub fn errors_leave_the_client()
    ensures request { (c : Result ClientSeen Refusal) (method : ℕ) (bytes : List ℕ)
        (given : Option RequestOptions) (now : ℕ) (result : ℤ) (id named : ℕ)
        (before after : Option Kept)
        → AsksAs c method bytes given now result id named before after → IsErrorNumber result
        → (after ≡ before) × (named ≡ id) }
    ensures datagram { (c : Result ClientSeen Refusal) (from : Address) (bytes : List ℕ)
        (now : ℕ) (result : ℤ) (why told : ℕ) (before after : Option Kept)
        → HearsAs c from bytes now result why told before after → IsErrorNumber result
        → (after ≡ before) × (told ≡ why) }
    ensures cancelled { (c : Result ClientSeen Refusal) (number : ℕ) (result : ℤ)
        (before after : Option Kept) → CancelsAs c number result before after
        → IsErrorNumber result → after ≡ before }
    ensures poll { (c : Result ClientSeen Refusal) (now : ℕ) (result : ℤ)
        (out written : List ℕ) (v event : Event) (before after : Option Kept)
        → PollsAs c now result out written v event before after → IsErrorNumber result
        → result ≢ refusal_number BufferTooSmall → (after ≡ before) × (event ≡ v) }
    ensures event { (c : Result ClientSeen Refusal) (now : ℕ) (result : ℤ)
        (out written : List ℕ) (v event : Event) (before after : Option Kept)
        → PollsAs c now result out written (event_failed v) event before after
        → IsErrorNumber result → (written ≡ out) × (event.kind ≡ 7) × (event.length ≡ 0) }
    ensures lost { (c : ClientSeen) (now : ℕ) (out written : List ℕ) (v event : Event)
        (before after : Option Kept)
        → PollsAs (Ok c) now (refusal_number BufferTooSmall) out written v event before after
        → (length out < event.needed) × (after ≡ Some (kind.Client (told now c).1)) }
{}
