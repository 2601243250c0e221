//! Parses the transaction ID that a caller passes.

ghost use Rattle.std.specs.Prelude.{◌≡◌, length, IfOk, IfErr};
ghost use Rattle.byteorder.specs.Endian.{big_number};

use crate::refusal::Refusal;
use byteorder::{BigEndian, ByteOrder};
use stun_base::transaction_id::TransactionId;

/// The number of bytes of a transaction ID.
pub const ID_LENGTH: usize = 12;

/// Creates a transaction ID from its bytes in network order.
///
/// # Errors
///
/// `BadArgument`: there are more or fewer than 12 bytes.
pub fn transaction_id(bytes: &[u8]) -> Result<TransactionId, Refusal>
    ensures ok { IfOk result (λ id. (length bytes.now ≡ 12) × (id ≡ big_number 12 bytes.now)) }
    ensures err { IfErr result (λ refusal. ¬ (length bytes.now ≡ 12)
        × (refusal ≡ Refusal.BadArgument)) }
{
    if bytes.len() != ID_LENGTH {
        return Err(Refusal::BadArgument);
    }
    Ok(TransactionId::from_u128(BigEndian::read_uint128(bytes, ID_LENGTH)).unwrap())
}
