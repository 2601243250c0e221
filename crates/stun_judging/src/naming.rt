//! How a client names its user (RFC 8489, section 9.2.5).
ghost use Rattle.std.specs.Option.{IfSome};
ghost use Rattle.std.specs.Prelude.{◌≡◌, ◌≤◌, ⊤, IfOk, IsOk, IsUtf8, length};
ghost use Rattle.std.specs.String.{string_bytes};
ghost use Rattle.stun_types.specs.Attribute.{attribute_length};
ghost use Rattle.stun_judging.specs.Additions.{UnlessMemory, page_in};
ghost use Rattle.stun_judging.specs.Naming.{name_attribute, who_asks, naming_of};
ghost use Rattle.stun_judging.specs.Outcome.{IsAdded};
ghost use Rattle.stun_judging.specs.Parts.{attribute_of, naming_seen};
ghost use Rattle.stun_judging.specs.Signed.{hashed_name, plain_name};

use crate::addition::{AddedAttribute, add, attribute_bytes};
use std::alloc::{AllocError, Allocator};
use stun_base::key::userhash;
use stun_base::memory::Memory;
use stun_types::message::StunWriteError;
use stun_types::prelude::*;

/// How a client names its user: in USERNAME, or in USERHASH.
#[derive(Drop)]
pub enum UserNaming<A: Allocator> {
    /// The name itself, which is the value of USERNAME (RFC 8489, section 14.3).
    Plain(String<A>),
    /// The hash of the name at the realm, which is the value of USERHASH (RFC 8489, section 14.4).
    Hashed([u8; 32]),
}

impl<A: Memory> UserNaming<A> {
    /// Copies the name of a user or, if `hashes` is true, computes the hash of the name at a realm.
    /// Fails if an allocation fails.
    pub fn new(alloc: A, hashes: bool, username: &str, realm: &str) -> Result<Self, AllocError>
        ensures naming { IfOk result (λ naming. naming_seen naming
            ≡ naming_of hashes username.now realm.now) }
        ensures granted { A.grants → IsOk result }
    {
        if hashes {
            Ok(UserNaming::Hashed(userhash(username, realm)))
        } else {
            Ok(UserNaming::Plain(A::text(alloc, username)?))
        }
    }

    /// Copies the name or the hash. Fails if an allocation fails.
    pub fn copied(&self) -> Result<Self, AllocError>
        ensures naming { IfOk result (λ copy. naming_seen copy ≡ naming_seen self.now) }
        ensures granted { A.grants → IsOk result }
    {
        match self {
            UserNaming::Plain(name) => {
                let name = A::text(*name.allocator(), name.as_str())?;
                Ok(UserNaming::Plain(name))
            }
            UserNaming::Hashed(hash) => Ok(UserNaming::Hashed(*hash)),
        }
    }
}

impl<A: Allocator> UserNaming<A> {
    /// Adds NONCE, REALM, and USERNAME or USERHASH (RFC 8489, section 9.2.5).
    ///
    /// The attributes are added one after another. The call fails with the first error, like
    /// `addition::add`. Do not send the message then, because it may have only some of the
    /// attributes.
    pub fn add_identity<W: MessageWrite>(
        &self,
        writer: &mut W,
        nonce: &str,
        realm: &str,
    ) -> Result<(), StunWriteError>
        requires { 20 ≤ length (W.bytes writer.old) }
        ensures header { 20 ≤ length (W.bytes writer.new) }
        ensures added { IsAdded (who_asks nonce.now realm.now (naming_seen self.now))
            (page_in W.bytes W.room writer.old) (W.reserved writer.old)
            result (page_in W.bytes W.room writer.new) (W.reserved writer.new) }
        ensures granted { W.grants → UnlessMemory result ⊤ ⊥ }
    {
        add(writer, AddedAttribute::Nonce(nonce))?;
        add(writer, AddedAttribute::Realm(realm))?;
        add(writer, self.as_attribute())
    }

    /// Returns the attribute that names the user.
    fn as_attribute(&self) -> AddedAttribute<'_>
        ensures { attribute_of result ≡ name_attribute (naming_seen self.now) }
    {
        match self {
            UserNaming::Plain(name) => AddedAttribute::Username(name.as_str()),
            UserNaming::Hashed(hash) => AddedAttribute::Userhash(*hash),
        }
    }

    /// Returns the number of bytes of the attribute that names the user, with its header and its
    /// padding.
    pub fn bytes(&self) -> usize
        ensures { result ≡ attribute_length (length (name_attribute (naming_seen self.now)).value) }
    {
        match self {
            UserNaming::Plain(name) => attribute_bytes(name.len()),
            UserNaming::Hashed(hash) => attribute_bytes(hash.as_slice().len()),
        }
    }

    /// Does nothing at run time. It gives proofs two facts: a name is UTF-8, and a hash has 32
    /// bytes.
    pub fn keeps_text(&self)
        ensures plain { IfSome (plain_name (naming_seen self.now)) IsUtf8 }
        ensures hashed { IfSome (hashed_name (naming_seen self.now)) (λ hash. length hash ≡ 32) }
    {
        match self {
            UserNaming::Plain(name) => keeps_utf8(name),
            UserNaming::Hashed(hash) => keeps_length(hash),
        }
    }
}

/// Does nothing at run time. It gives proofs the fact that a text is UTF-8.
fn keeps_utf8<A: Allocator>(text: &String<A>)
    ensures { IsUtf8 (string_bytes text.now) }
{
    let _ = text.as_str();
}

/// Does nothing at run time. It gives proofs the fact that a hash has 32 bytes.
fn keeps_length(hash: &[u8; 32])
    ensures { length hash.now ≡ 32 }
{
    let _ = hash.as_slice().len();
}
