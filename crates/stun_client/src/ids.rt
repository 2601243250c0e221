//! The transaction IDs of a client, which are derived from its seed.
ghost use Rattle.std.specs.Prelude.{◌≡◌};
ghost use Rattle.stun_client.specs.Ids.{id_of};

use byteorder::{BigEndian, ByteOrder};
use std::alloc::Allocator;
use stun_types::message::{PreparedKey, TransactionId};

/// Returns the transaction ID with this number: the first 96 bits of the HMAC-SHA1 of the number
/// under the seed. Without the seed nobody can predict the next ID, if HMAC-SHA1 is a pseudorandom
/// function.
pub fn id_of<A: Allocator>(seed: &PreparedKey<A>, number: u64) -> TransactionId
    ensures { result ≡ id_of seed.now number }
{
    let digest = seed.hmac_sha1(&[&number.to_be_bytes()]);
    TransactionId::from_u128(BigEndian::read_uint128(&digest, 12)).unwrap()
}
