//! Changes of the state of an outstanding request.
ghost use Rattle.std.specs.Prelude.{◌≡◌, None, []};
ghost use Rattle.stun_client_calls.specs.Clients.{changed_at};
ghost use Rattle.stun_client_calls.specs.Messages.{new_asked};

use crate::asked::{Asked, Change, End};
use std::alloc::Allocator;
use stun_base::instant::Instant;
use stun_client_endpoint::body::Body;
use stun_client_requests::requests::Requests;
use stun_types::message::Method;

/// Returns a placeholder for the state of a request, which the table holds while the state is
/// changed. It does not allocate.
pub(crate) fn make_placeholder<A: Allocator + Copy>(alloc: A, method: Method) -> Asked<A>
    ensures { result ≡ new_asked method [] None 0 None }
{
    Asked::new(alloc, method, Body::new(alloc), None, Instant::ZERO, None)
}

/// Changes the state of the outstanding request with this number, if there is one. It does not
/// allocate.
pub(crate) fn change<A: Allocator + Copy>(
    requests: &mut Requests<A, Asked<A>, End<A>>,
    alloc: A,
    number: u64,
    change: Change,
)
    ensures { requests.new ≡ changed_at change number requests.old }
{
    let Some(asked) = requests.datum_of(number) else {
        return;
    };
    let method = asked.method();
    if let Some(asked) = requests.replace(number, make_placeholder(alloc, method)) {
        requests.replace(number, asked.changed(change));
    }
}
