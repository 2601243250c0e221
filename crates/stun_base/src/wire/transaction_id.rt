//! Transaction IDs.

ghost use Rattle.std.specs.Prelude.{◌≡◌, ◌<◌, ◌≤◌, ◌^◌, ◌↔◌, length, IsSome, IfSome, Some};
ghost use Rattle.stun_base.specs.TransactionId.{value_of_words};
ghost use Rattle.stun_base.specs.Words.{next_words, after_words};

use byteorder::{BigEndian, ByteOrder};
use rand_core::Rng;
use std::marker::Model;

/// A transaction ID (RFC 8489, section 5): a 96-bit number that matches a response to its request.
///
/// An attacker who can guess the ID of an outstanding request can forge a response to it. So IDs
/// must be unpredictable, and every new request needs a new one.
///
/// Contracts: the value is the number, and IDs are ordered as numbers.
#[derive(Debug, Clone, Copy, PartialEq, Eq, PartialOrd, Ord, Hash)]
pub struct TransactionId(u128);

impl Model for TransactionId {
    ghost use Rattle.std.specs.Prelude.{ℕ, ◌<◌, ◌^◌};

    ghost Value = { ℕ };

    ghost view = { λ id. id.0 };

    ghost invariant = { λ id. id.0 < 2 ^ 96 };

    ghost inverse = { λ number. record { 0 = number } };
}

impl TransactionId {
    ghost use Rattle.byteorder.specs.Endian.{big_number};

    /// Creates a transaction ID from the first 12 bytes of `bytes`, in network order.
    pub(crate) fn from_bytes(bytes: &[u8]) -> TransactionId
        requires { 12 ≤ length bytes.now }
        ensures { result ≡ big_number 12 bytes.now }
    {
        TransactionId(BigEndian::read_uint128(bytes, 12))
    }

    /// Creates a transaction ID from a number. Returns `None` if the number does not fit in 96
    /// bits.
    pub fn from_u128(number: u128) -> Option<TransactionId>
        ensures fits { IsSome result ↔ (number < 2 ^ 96) }
        ensures value { IfSome result (λ id. id ≡ number) }
    {
        if number < 1 << 96 {
            Some(TransactionId(number))
        } else {
            None
        }
    }

    /// Creates a random transaction ID from the next three 32-bit numbers of `rng`. The first
    /// number becomes the highest 32 bits.
    ///
    /// Use a cryptographically secure generator, because an attacker who can predict its numbers
    /// can predict transaction IDs (RFC 8489, section 5).
    #[tactic(auto, unfolding(crate::specs::Words::next_words, crate::specs::Words::after_words))]
    pub fn generate<R: Rng>(rng: &mut R) -> TransactionId
        ensures value { result ≡ value_of_words (next_words 3 (R.stream rng.old)) }
        ensures source { R.stream rng.new ≡ after_words 3 (R.stream rng.old) }
    {
        let high = rng.next_u32() as u128;
        let middle = rng.next_u32() as u128;
        let low = rng.next_u32() as u128;
        TransactionId((high << 64) + (middle << 32) + low)
    }

    /// Returns the transaction ID as a number, which is less than 2^96.
    pub fn as_u128(self) -> u128
        ensures value { result ≡ self }
        ensures fits { result < 2 ^ 96 }
    {
        self.0
    }
}
