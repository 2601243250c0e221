//! The signer of a message with short-term credentials (RFC 8489, section 9.1.3).

ghost use Rattle.std.specs.FinMap as map;
ghost use Rattle.std.specs.Prelude.{◌≡◌, Err, IfErr, IfOk, IsOk, Ok, Some};
ghost use Rattle.stun_endpoint.specs.ShortTerm.{by_key, named_by, signature_of, signer_of};

use crate::ending::Signature;
use crate::received::Refusal;
use crate::short_term::users::ShortTermUsers;
use std::alloc::{AllocError, Allocator};
use std::marker::Model;
use stun_base::error::StunParseError;
use stun_base::memory::Memory;
use stun_base::prepared_key::PreparedKey;
use stun_types::attribute::Username;
use stun_types::message::{IntegrityAlgorithm, Message};

/// A user whose key signed a message, and the algorithm of the signature.
#[derive(Drop)]
pub(super) struct Signer<'a, A: Allocator> {
    name: &'a str,
    algorithm: IntegrityAlgorithm,
    key: &'a PreparedKey<A>,
}

impl<'a, A: Allocator> Model for Signer<'a, A> {
    ghost use Rattle.stun_endpoint.specs.ShortTerm.{Signer as SignerSeen};

    ghost Value = { SignerSeen };

    ghost view = { λ signer. record {
      client = record { name = signer.name.now; algorithm = signer.algorithm };
      key = signer.key.now;
    } };
}

impl<'a, A: Allocator> Signer<'a, A> {
    /// Returns the user's name.
    pub(super) fn name(&self) -> &'a str
        ensures { result.now ≡ self.now.client.name }
    {
        self.name
    }

    /// Returns the algorithm of the signature.
    pub(super) fn algorithm(&self) -> IntegrityAlgorithm
        ensures { result ≡ self.now.client.algorithm }
    {
        self.algorithm
    }
}

impl<'a, A: Memory> Signer<'a, A> {
    /// Returns the signature for the response to the message: the same algorithm and the same key.
    pub(super) fn make_signature(&self) -> Result<Option<Signature<A>>, AllocError>
        ensures signature { IfOk result (λ signature. signature
            ≡ Some (signature_of self.now)) }
        ensures granted { A.grants → IsOk result }
    {
        Ok(Some(Signature::new(self.algorithm, self.key.clone()?)))
    }
}

/// Returns the user who has signed a message. Otherwise fails with `BadRequest` if the message has
/// no integrity attribute or no USERNAME, and with `Unauthenticated` if the name or the signature
/// is wrong.
pub(super) fn find_signer<'a, A: Allocator + Copy>(
    users: &'a ShortTermUsers<A>,
    message: &Message<'a>,
) -> Result<Signer<'a, A>, Refusal>
    ensures { result ≡ signer_of users.now message.now }
{
    if message.deciding_attribute().is_none() {
        return Err(Refusal::BadRequest);
    }
    match read_name(message) {
        Ok(name) => verify_signer(users, message, name),
        Err(refusal) => Err(refusal),
    }
}

/// Returns the name in the first visible USERNAME. Fails with `BadRequest` if there is no USERNAME,
/// and with `Unauthenticated` if USERNAME is malformed.
fn read_name<'a>(message: &Message<'a>) -> Result<&'a str, Refusal>
    ensures ok { IfOk result (λ name. named_by message.now ≡ Ok name.now) }
    ensures err { IfErr result (λ refusal. named_by message.now ≡ Err refusal) }
{
    match message.attribute::<Username<'a>>() {
        Ok(username) => Ok(username.username()),
        Err(StunParseError::MissingAttribute(_)) => Err(Refusal::BadRequest),
        Err(_) => Err(Refusal::Unauthenticated),
    }
}

/// Returns the user `name`, if the signature of a message is valid under the user's key. Fails with
/// `Unauthenticated` otherwise.
fn verify_signer<'a, A: Allocator + Copy>(
    users: &'a ShortTermUsers<A>,
    message: &Message<'a>,
    name: &'a str,
) -> Result<Signer<'a, A>, Refusal>
    ensures { result ≡ by_key message.now name.entry.now (map.get users.now name.entry.now) }
{
    let Some(key) = users.find_key(name) else {
        return Err(Refusal::Unauthenticated);
    };
    match message.validate_integrity_with_prepared_key(key) {
        Ok(algorithm) => Ok(Signer {
            name,
            algorithm,
            key,
        }),
        Err(_) => Err(Refusal::Unauthenticated),
    }
}
