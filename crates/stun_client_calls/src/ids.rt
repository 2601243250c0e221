//! Finds the transaction ID of the next message, which no message of an outstanding request may
//! have.
ghost use Rattle.std.specs.Option.{IfSome, option_map};
ghost use Rattle.std.specs.Prelude.{◌≡◌, ◌<◌};
ghost use Rattle.stun_client.specs.Ids.{id_of};
ghost use Rattle.stun_client_calls.specs.Ids.{free_number, is_message};
ghost use Rattle.stun_client_requests.specs.Requests.{LAST_NUMBER};

use crate::asked::{Asked, End};
use std::alloc::Allocator;
use std::collections::BTreeMap;
use stun_client::ids::id_of;
use stun_client_requests::requests::Requests;
use stun_types::message::{PreparedKey, TransactionId};

/// A number, and the transaction ID that is derived from it (see `stun_client::ids::id_of`).
#[derive(Drop)]
pub struct NumberedId {
    /// The number that the transaction ID is derived from.
    pub number: u64,
    /// The transaction ID that is derived from the number.
    pub id: TransactionId,
}

/// Finds the first number, from `next` on, whose transaction ID no message of an outstanding
/// request has. Returns the number with that ID, or `None` if no number is left. The last number,
/// `u64::MAX`, is not used. It does not allocate.
pub fn free_number<A: Allocator + Copy>(
    seed: &PreparedKey<A>,
    requests: &Requests<A, Asked<A>, End<A>>,
    earlier: &BTreeMap<TransactionId, u64, A>,
    next: u64,
) -> Option<NumberedId>
    ensures free { option_map (λ free. free.number) result
        ≡ free_number seed.now requests.now.table.attached earlier.now.entries next }
    ensures named { IfSome result (λ free. free.id ≡ id_of seed.now free.number) }
    ensures low { IfSome result (λ free. free.number < LAST_NUMBER) }
{
    for number in next..u64::MAX {
        let id = id_of(seed, number);
        if !is_taken(requests, earlier, id) {
            return Some(NumberedId { number, id });
        }
    }
    None
}

/// Returns whether a message of an outstanding request has this transaction ID.
fn is_taken<A: Allocator + Copy>(
    requests: &Requests<A, Asked<A>, End<A>>,
    earlier: &BTreeMap<TransactionId, u64, A>,
    id: TransactionId,
) -> bool
    ensures { result ≡ is_message id requests.now.table.attached earlier.now.entries }
{
    requests.number_of(id).is_some() || earlier.contains_key(&id)
}
