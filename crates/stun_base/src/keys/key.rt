//! Integrity keys (RFC 8489, sections 9.1.1 and 9.2.2), and hashes of user names (section 14.4).

ghost use Rattle.std.specs.Prelude.{◌≡◌, ◌≤◌, ◌↔◌, ◌⊎◌, [], length, true, IfOk};
ghost use Rattle.std.specs.Prelude.{IsOk, Some, IfSome, IsSome, codes};
ghost use Rattle.std.specs.Fmt.{WritesOnOk, WritesStyledOnOk};
ghost use Rattle.std.specs.Str.{is_utf8};
ghost use Rattle.stun_base.specs.Keys as spec;

use crate::keys::algorithm::IntegrityAlgorithm;
use crate::keys::hash::{HashFunction, digest_message};
use crate::keys::no_memory::NoMemory;
use crate::keys::short_text::ShortText;
use crate::memory::Memory;
use md5::Md5;
use sha2::Sha256;
use smallvec::SmallVec;
use std::alloc::{AllocError, Allocator, Global};
use std::fmt;
use std::marker::Model;

/// The largest number of bytes of a key that is stored inline, without an allocation.
const INLINE_LENGTH: usize = 32;

/// A key with which messages are signed and validated. A key of up to 32 bytes is stored inline,
/// and a longer key is allocated.
///
/// `Debug` shows none of its bytes.
///
/// Contracts: the value is the list of its bytes.
#[derive(Drop)]
pub struct IntegrityKey<A: Allocator = Global> {
    bytes: KeyBytes<A>,
}

/// The bytes of a key: up to 32 bytes inline, or more on the heap.
#[derive(Drop)]
enum KeyBytes<A: Allocator> {
    Inline(SmallVec<u8, INLINE_LENGTH, NoMemory>),
    Heap(Vec<u8, A>),
}

impl<A: Allocator> Model for IntegrityKey<A> {
    ghost use Rattle.std.specs.Prelude.{ℕ, List};
    ghost use Rattle.stun_base.specs.code.KeyBytes.{key_bytes, IsInItsPlace};

    ghost Value = { List ℕ };

    ghost view = { λ key. key_bytes key.bytes };

    ghost invariant = { λ key. IsInItsPlace key.bytes };
}

impl<A: Memory> IntegrityKey<A> {
    /// Creates a key from its bytes. A key of up to 32 bytes is stored inline, and a longer key is
    /// stored in memory from `alloc`.
    ///
    /// # Errors
    ///
    /// `AllocError`: there are more than 32 bytes, and the allocation failed.
    pub fn from_bytes(alloc: A, bytes: &[u8]) -> Result<Self, AllocError>
        ensures ok { IfOk result (λ key. key ≡ bytes.now) }
        ensures succeeds_inline { length bytes.now ≤ 32 → IsOk result }
        ensures granted { A.grants → IsOk result }
    {
        let bytes = match SmallVec::from_slice(NoMemory, bytes) {
            Ok(inline) => KeyBytes::Inline(inline),
            Err(_) => KeyBytes::Heap(A::copied(alloc, bytes)?),
        };
        Ok(IntegrityKey { bytes })
    }
}

impl<A: Allocator> IntegrityKey<A> {
    /// Returns the bytes of the key.
    pub fn as_bytes(&self) -> &[u8]
        ensures { result.now ≡ self.now }
    {
        match &self.bytes {
            KeyBytes::Inline(inline) => inline.as_slice(),
            KeyBytes::Heap(heap) => heap.as_slice(),
        }
    }
}

/// Copies the key. A key of up to 32 bytes is copied without an allocation, and a longer key is
/// copied into memory from the allocator of the original.
impl<A: Memory> Clone for IntegrityKey<A> {
    ghost is_clone = { λ key copy. copy ≡ key };

    ghost is_infallible = { λ key. (length key ≤ 32) ⊎ A.grants };

    fn clone(&self) -> Result<Self, AllocError> {
        let bytes = match &self.bytes {
            KeyBytes::Inline(inline) => {
                KeyBytes::Inline(SmallVec::from_slice(NoMemory, inline.as_slice()).unwrap())
            }
            KeyBytes::Heap(heap) => {
                KeyBytes::Heap(A::copied(*heap.allocator(), heap.as_slice())?)
            }
        };
        Ok(IntegrityKey { bytes })
    }
}

impl<A: Allocator> fmt::Debug for IntegrityKey<A> {
    ghost debug_output = { λ _. Some (codes "IntegrityKey { .. }") };

    fn fmt<W: fmt::Write>(&self, f: &mut fmt::Formatter<W>) -> fmt::Result
        ensures writes { WritesOnOk W.write_str_gives f.old result
            (codes "IntegrityKey { .. }") f.new }

        // The options of the formatter, such as the width, do not change the text.
        ensures styled { WritesStyledOnOk W.write_str_gives f.old result
            (codes "IntegrityKey { .. }") f.new }
    {
        f.write_str("IntegrityKey { .. }")
    }
}

/// Writes `username:realm:password` to `text`, which must be empty. Returns `false` if the three
/// texts do not fit. The caller passes `text` by reference, because a text that is moved after it
/// was filled is slower to hash.
fn join(text: &mut ShortText, username: &[u8], realm: &[u8], password: &[u8]) -> bool
    requires { text.old ≡ [] }
    ensures { result ≡ true → text.new ≡ spec.with_colon
        (spec.with_colon username.now realm.now) password.now }
{
    text.push(username)
        && text.push(b":")
        && text.push(realm)
        && text.push(b":")
        && text.push(password)
}

/// Returns the digest of `username:realm:password`. The text is fed to the hasher in pieces.
fn digest_in_turn<H: HashFunction>(username: &[u8], realm: &[u8], password: &[u8]) -> H::Digest
    ensures value { H.Digest.items result ≡
        H.digest (spec.with_colon (spec.with_colon username.now realm.now) password.now) }
    ensures fits { length (H.Digest.items result) ≤ 64 }
{
    let mut hasher = H::start();
    hasher.feed(username);
    hasher.feed(b":");
    hasher.feed(realm);
    hasher.feed(b":");
    hasher.feed(password);
    hasher.finish()
}

/// Returns the digest of `username:realm:password`.
fn digest_credentials<H: HashFunction>(username: &[u8], realm: &[u8], password: &[u8]) -> H::Digest
    ensures value { H.Digest.items result ≡
        H.digest (spec.with_colon (spec.with_colon username.now realm.now) password.now) }
    ensures fits { length (H.Digest.items result) ≤ 64 }
{
    let mut text = ShortText::new();
    if join(&mut text, username, realm, password) {
        digest_message::<H>(text.as_bytes())
    } else {
        digest_in_turn::<H>(username, realm, password)
    }
}

/// Returns whether the bytes are UTF-8.
fn is_utf8(bytes: &[u8]) -> bool
    ensures { result ≡ is_utf8 bytes.now }
{
    simdutf8::basic::from_utf8(bytes).is_ok()
}

/// Returns the digest of `username:realm:password`, or `None` if one of the three texts is not
/// UTF-8.
fn digest_utf8<H: HashFunction>(username: &[u8], realm: &[u8], password: &[u8]) -> Option<H::Digest>
    ensures digest { IfSome result (λ digest. H.Digest.items digest ≡
        H.digest (spec.with_colon (spec.with_colon username.now realm.now) password.now)) }
    ensures utf8 { IsSome result ↔ (spec.are_utf8 username.now realm.now password.now ≡ true) }
{
    // UTF-8 is tested last, because the processor can run this test while it still computes the
    // digest.
    let mut text = ShortText::new();
    if join(&mut text, username, realm, password) {
        let digest = digest_message::<H>(text.as_bytes());
        text.is_utf8().then_some(digest)
    } else {
        let digest = digest_in_turn::<H>(username, realm, password);
        let are_utf8 = is_utf8(username) && is_utf8(realm) && is_utf8(password);
        are_utf8.then_some(digest)
    }
}

/// Derives the long-term key of a user in a realm: the hash of `username:realm:password` (RFC 8489,
/// sections 9.2.2 and 18.5.1). For HMAC-SHA1 the key is the 16-byte MD5 hash, and for HMAC-SHA256
/// the 32-byte SHA-256 hash.
///
/// The texts are used as they are: preparing them with OpaqueString (RFC 8265, section 4.2) is up
/// to the caller. This does not allocate: `alloc` only determines the allocator type of the key,
/// and is dropped.
pub fn long_term_key<A: Allocator>(
    alloc: A,
    algorithm: IntegrityAlgorithm,
    username: &str,
    realm: &str,
    password: &str,
) -> IntegrityKey<A>
    ensures { result ≡ spec.long_term_key algorithm username.now realm.now password.now }
{
    drop(alloc);
    derive_key(algorithm, username, realm, password)
}

/// Like `long_term_key`, but without an allocator as an argument, because only the allocator type
/// of the key is needed.
pub(crate) fn derive_key<A: Allocator>(
    algorithm: IntegrityAlgorithm,
    username: &str,
    realm: &str,
    password: &str,
) -> IntegrityKey<A>
    ensures { result ≡ spec.long_term_key algorithm username.now realm.now password.now }
{
    let username = username.as_bytes();
    let realm = realm.as_bytes();
    let password = password.as_bytes();
    let inline = match algorithm {
        IntegrityAlgorithm::Sha1 => SmallVec::from_slice(
            NoMemory,
            &digest_credentials::<Md5>(username, realm, password),
        ),
        IntegrityAlgorithm::Sha256 => SmallVec::from_slice(
            NoMemory,
            &digest_credentials::<Sha256>(username, realm, password),
        ),
    };
    IntegrityKey {
        bytes: KeyBytes::Inline(inline.unwrap()),
    }
}

/// Derives the long-term key for HMAC-SHA1 from texts that are passed as bytes: the MD5 hash of
/// `username:realm:password` (RFC 8489, section 9.2.2). Returns `None` if one of the texts is not
/// UTF-8.
///
/// The texts are used as they are: preparing them with OpaqueString (RFC 8265, section 4.2) is up
/// to the caller. This does not allocate.
pub fn md5_key_from_utf8(username: &[u8], realm: &[u8], password: &[u8]) -> Option<[u8; 16]>
    ensures key { IfSome result (λ key. key
        ≡ spec.long_term_key IntegrityAlgorithm.Sha1 username.now realm.now password.now) }
    ensures utf8 { IsSome result ↔ (spec.are_utf8 username.now realm.now password.now ≡ true) }
{
    digest_utf8::<Md5>(username, realm, password)
}

/// Derives the long-term key for HMAC-SHA256 from texts that are passed as bytes: the SHA-256 hash
/// of `username:realm:password` (RFC 8489, section 18.5.1). Returns `None` if one of the texts is
/// not UTF-8.
///
/// The texts are used as they are: preparing them with OpaqueString (RFC 8265, section 4.2) is up
/// to the caller. This does not allocate.
pub fn sha256_key_from_utf8(username: &[u8], realm: &[u8], password: &[u8]) -> Option<[u8; 32]>
    ensures key { IfSome result (λ key. key
        ≡ spec.long_term_key IntegrityAlgorithm.Sha256 username.now realm.now password.now) }
    ensures utf8 { IsSome result ↔ (spec.are_utf8 username.now realm.now password.now ≡ true) }
{
    digest_utf8::<Sha256>(username, realm, password)
}

/// Computes the hash that a client sends in USERHASH instead of its user name: SHA-256 of
/// `username:realm` (RFC 8489, section 14.4).
///
/// The texts are used as they are: preparing them with OpaqueString (RFC 8265, section 4.2) is up
/// to the caller. This does not allocate.
pub fn userhash(username: &str, realm: &str) -> [u8; 32]
    ensures { result ≡ spec.userhash_of username.now realm.now }
{
    let mut hasher = Sha256::start();
    hasher.feed(username.as_bytes());
    hasher.feed(b":");
    hasher.feed(realm.as_bytes());
    hasher.finish()
}
