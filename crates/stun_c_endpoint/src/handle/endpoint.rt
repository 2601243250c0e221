//! The handle to a server, to a table of users, to an ICE agent or to a client.
ghost use Rattle.std.specs.Prelude.{◌≡◌, Some, None, Option, IfSome, IfNone};
ghost use Rattle.stun_c_endpoint.specs.declared.handle.endpoint.Kept.{Kept};
ghost use Rattle.stun_handles.specs.code.Handle.{handle_owns};
ghost use Rattle.stun_c_endpoint.specs.code.Handle.{kept_row, kept_coded};

use std::alloc::Global;
use std::marker::Model;
use std::mem::replace;
use stun_client_calls::endpoint::ClientEndpoint;
use stun_endpoint::open::OpenServer;
use stun_endpoint::server::Server;
use stun_endpoint::short_term::{ShortTermServer, ShortTermUsers};
use stun_endpoint::users::Users;
use stun_handles::handle::Loose;
use stun_ice::checker::Checker;

/// A value on the heap: a server, a table of users, an ICE agent, or a client.
#[derive(Drop)]
pub enum Kept {
    Server(Server<Global>),
    Users(Users<Global>),
    ShortTerm(ShortTermServer<Global>),
    ShortTermUsers(ShortTermUsers<Global>),
    Open(OpenServer<Global>),
    Checker(Checker<Global>),
    Client(ClientEndpoint<Global>),
}

/// The caller's handle: all zero if it is empty, and otherwise as `put` wrote it.
#[repr(C)]
pub struct EndpointHandle {
    is_full: bool,
    at: *mut u8,
    pub ghost kept: { Option Kept } by { kept_coded },
}

impl Model for EndpointHandle {
    ghost also_owns = { λ h. handle_owns kept_row h.is_full h.at h.kept };
}

impl EndpointHandle {
    fn of_loose(loose: Loose<Kept>) -> EndpointHandle
        ensures { result.kept ≡ loose.state }
    {
        let Loose { is_full, at } = loose;
        let at = at as *mut u8;
        EndpointHandle { is_full, at }
    }

    fn into_loose(self) -> Loose<Kept>
        ensures { result.state ≡ self.kept }
    {
        let EndpointHandle { is_full, at } = self;
        let at = at as *mut Kept;
        Loose { is_full, at }
    }

    /// Takes the value out of the handle, which is then empty. Returns `None` if the handle was
    /// empty before.
    pub fn take(&mut self, alloc: Global) -> Option<Box<Kept, Global>>
        ensures some { IfSome result (λ kept. self.old.kept ≡ Some kept.value) }
        ensures none { IfNone result (self.old.kept ≡ None) }
        ensures empty { self.new.kept ≡ None }
    {
        let empty = EndpointHandle::of_loose(Loose::none());
        replace(self, empty).into_loose().into_box(alloc)
    }

    /// Puts a value into an empty handle.
    pub fn put(&mut self, alloc: Global, kept: Box<Kept, Global>)
        requires { self.old.kept ≡ None }
        ensures { self.new.kept ≡ Some kept.value }
    {
        let full = EndpointHandle::of_loose(Loose::of(kept));
        replace(self, full).into_loose().discard(alloc)
    }
}
