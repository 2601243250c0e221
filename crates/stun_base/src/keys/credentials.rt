//! Credentials (RFC 8489, section 9), and the keys that are derived from them.

ghost use Rattle.std.specs.Prelude.{◌≡◌, ◌≤◌, length, IfOk, IsOk, Some, codes, string_bytes};
ghost use Rattle.std.specs.Cmp.{partial_equiv_from_equiv};
ghost use Rattle.std.specs.Fmt.{WritesOnOk, WritesStyledOnOk};
ghost use Rattle.stun_base.specs.Credentials.{same_text, same_user, same_text_equivalence};
ghost use Rattle.stun_base.specs.Credentials.{same_user_equivalence};
ghost use Rattle.stun_base.specs.Keys.{long_term_key_of};

use crate::keys::algorithm::IntegrityAlgorithm;
use crate::keys::key::{self, IntegrityKey};
use crate::memory::Memory;
use std::alloc::{AllocError, Allocator, Global};
use std::fmt;
use std::marker::Model;

/// A password without a user name, as a short-term credential (RFC 8489, section 9.1).
///
/// The password is used as it is: preparing it with OpaqueString (RFC 8265, section 4.2) is up to
/// the caller. `Debug` does not show it.
///
/// Contracts: the value is the list of the password's bytes.
#[derive(Drop)]
pub struct ShortTermCredentials<A: Allocator = Global> {
    password: String<A>,
}

impl<A: Allocator> Model for ShortTermCredentials<A> {
    ghost use Rattle.std.specs.Prelude.{ℕ, List, string_bytes};

    ghost Value = { List ℕ };

    ghost view = { λ credentials. string_bytes credentials.password };
}

impl<A: Allocator> ShortTermCredentials<A> {
    /// Creates the credentials from a password, and takes ownership of it.
    pub fn new(password: String<A>) -> Self
        ensures { result ≡ string_bytes password }
    {
        ShortTermCredentials { password }
    }

    /// Returns the password, whose bytes are the key for both algorithms.
    pub fn password(&self) -> &str
        ensures { result.now ≡ self.now }
    {
        self.password.as_str()
    }
}

impl<A: Memory> ShortTermCredentials<A> {
    /// Returns the key, which consists of the bytes of the password (RFC 8489, section 9.1.1). A
    /// key of up to 32 bytes is stored inline, and a longer key is allocated by the allocator of
    /// the password.
    ///
    /// # Errors
    ///
    /// `AllocError`: the password has more than 32 bytes, and the allocation failed.
    pub fn make_key(&self) -> Result<IntegrityKey<A>, AllocError>
        ensures key { IfOk result (λ key. key ≡ self.now) }
        ensures succeeds_inline { length self.now ≤ 32 → IsOk result }
        ensures granted { A.grants → IsOk result }
    {
        IntegrityKey::from_bytes(*self.password.allocator(), self.password.as_bytes())
    }
}

/// Copies the password into memory of its own allocator.
impl<A: Memory> Clone for ShortTermCredentials<A> {
    ghost is_clone = { λ credentials copy. copy ≡ credentials };

    ghost is_infallible = { λ _. A.grants };

    fn clone(&self) -> Result<Self, AllocError> {
        Ok(ShortTermCredentials::new(copy_text(&self.password)?))
    }
}

impl<A: Allocator> fmt::Debug for ShortTermCredentials<A> {
    ghost debug_output = { λ _. Some (codes "ShortTermCredentials { .. }") };

    fn fmt<W: fmt::Write>(&self, f: &mut fmt::Formatter<W>) -> fmt::Result
        ensures writes { WritesOnOk W.write_str_gives f.old result
            (codes "ShortTermCredentials { .. }") f.new }

        // The options of the formatter, such as the width, do not change the text.
        ensures styled { WritesStyledOnOk W.write_str_gives f.old result
            (codes "ShortTermCredentials { .. }") f.new }
    {
        f.write_str("ShortTermCredentials { .. }")
    }
}

/// Two credentials are equal if their passwords have the same bytes.
impl<A: Allocator> PartialEq for ShortTermCredentials<A> {
    ghost eq = { same_text };

    ghost laws = { partial_equiv_from_equiv same_text_equivalence };

    fn eq(&self, other: &Self) -> bool {
        self.password == other.password
    }
}

impl<A: Allocator> Eq for ShortTermCredentials<A> {
    ghost laws = { same_text_equivalence };
}

/// The name and the password of a user (RFC 8489, section 9.2).
///
/// The texts are used as they are: preparing them with OpaqueString (RFC 8265, section 4.2) is up
/// to the caller. `Debug` does not show them.
///
/// Contracts: the value is a record of the bytes of the name and of the password.
#[derive(Drop)]
pub struct LongTermCredentials<A: Allocator = Global> {
    username: String<A>,
    password: String<A>,
}

impl<A: Allocator> Model for LongTermCredentials<A> {
    ghost use Rattle.std.specs.Prelude.{string_bytes};
    ghost use Rattle.stun_base.specs.Credentials.{NameAndPassword};

    ghost Value = { NameAndPassword };

    ghost view = { λ credentials. record {
      username = string_bytes credentials.username;
      password = string_bytes credentials.password;
    } };
}

impl<A: Allocator> LongTermCredentials<A> {
    /// Creates the credentials from a user name and a password, and takes ownership of both.
    pub fn new(username: String<A>, password: String<A>) -> Self
        ensures { result ≡ record {
          username = string_bytes username;
          password = string_bytes password;
        } }
    {
        LongTermCredentials { username, password }
    }

    /// Returns the user name.
    pub fn username(&self) -> &str
        ensures { result.now ≡ self.now.username }
    {
        self.username.as_str()
    }

    /// Returns the password.
    pub fn password(&self) -> &str
        ensures { result.now ≡ self.now.password }
    {
        self.password.as_str()
    }

    /// Converts the credentials into the user name and the password.
    pub fn into_parts(self) -> (String<A>, String<A>)
        ensures username { string_bytes result.0 ≡ self.username }
        ensures password { string_bytes result.1 ≡ self.password }
    {
        let LongTermCredentials { username, password } = self;
        (username, password)
    }
}

impl<A: Memory> LongTermCredentials<A> {
    /// Combines the credentials with a realm. Deriving keys from the result does not allocate.
    ///
    /// The user name and the password are copied, each into memory of its own allocator.
    ///
    /// # Errors
    ///
    /// `AllocError`: an allocation failed.
    pub fn to_key(&self, realm: String<A>) -> Result<LongTermKeyCredentials<A>, AllocError>
        ensures key { IfOk result (λ key. key ≡ record {
          username = self.now.username;
          realm = string_bytes realm;
          password = self.now.password;
        }) }
        ensures granted { A.grants → IsOk result }
    {
        let username = copy_text(&self.username)?;
        let password = copy_text(&self.password)?;
        Ok(LongTermKeyCredentials {
            username,
            realm,
            password,
        })
    }
}

/// Copies a text into memory of its own allocator.
fn copy_text<A: Memory>(text: &String<A>) -> Result<String<A>, AllocError>
    ensures bytes { IfOk result (λ copy. string_bytes copy ≡ string_bytes text.now) }
    ensures granted { A.grants → IsOk result }
{
    A::text(*text.allocator(), text.as_str())
}

/// Copies the user name and the password, each into memory of its own allocator.
impl<A: Memory> Clone for LongTermCredentials<A> {
    ghost is_clone = { λ credentials copy. copy ≡ credentials };

    ghost is_infallible = { λ _. A.grants };

    fn clone(&self) -> Result<Self, AllocError> {
        let username = copy_text(&self.username)?;
        let password = copy_text(&self.password)?;
        Ok(LongTermCredentials { username, password })
    }
}

impl<A: Allocator> fmt::Debug for LongTermCredentials<A> {
    ghost debug_output = { λ _. Some (codes "LongTermCredentials { .. }") };

    fn fmt<W: fmt::Write>(&self, f: &mut fmt::Formatter<W>) -> fmt::Result
        ensures writes { WritesOnOk W.write_str_gives f.old result
            (codes "LongTermCredentials { .. }") f.new }

        // The options of the formatter, such as the width, do not change the text.
        ensures styled { WritesStyledOnOk W.write_str_gives f.old result
            (codes "LongTermCredentials { .. }") f.new }
    {
        f.write_str("LongTermCredentials { .. }")
    }
}

/// Two credentials are equal if their user names have the same bytes and their passwords have the
/// same bytes.
impl<A: Allocator> PartialEq for LongTermCredentials<A> {
    ghost eq = { same_user };

    ghost laws = { partial_equiv_from_equiv same_user_equivalence };

    fn eq(&self, other: &Self) -> bool {
        self.username == other.username && self.password == other.password
    }
}

impl<A: Allocator> Eq for LongTermCredentials<A> {
    ghost laws = { same_user_equivalence };
}

/// The user name, the realm and the password from which the long-term keys of a user are derived
/// (RFC 8489, section 9.2.2). `LongTermCredentials::to_key` creates this value.
///
/// `Debug` shows none of the three texts.
///
/// Contracts: the value is a record of the bytes of the three texts.
#[derive(Drop)]
pub struct LongTermKeyCredentials<A: Allocator = Global> {
    username: String<A>,
    realm: String<A>,
    password: String<A>,
}

impl<A: Allocator> Model for LongTermKeyCredentials<A> {
    ghost use Rattle.std.specs.Prelude.{string_bytes};
    ghost use Rattle.stun_base.specs.Credentials.{UserAtRealm};

    ghost Value = { UserAtRealm };

    ghost view = { λ credentials. record {
      username = string_bytes credentials.username;
      realm = string_bytes credentials.realm;
      password = string_bytes credentials.password;
    } };
}

impl<A: Allocator> LongTermKeyCredentials<A> {
    /// Returns the user name.
    pub fn username(&self) -> &str
        ensures { result.now ≡ self.now.username }
    {
        self.username.as_str()
    }

    /// Returns the realm.
    pub fn realm(&self) -> &str
        ensures { result.now ≡ self.now.realm }
    {
        self.realm.as_str()
    }

    /// Returns the password.
    pub fn password(&self) -> &str
        ensures { result.now ≡ self.now.password }
    {
        self.password.as_str()
    }

    /// Derives the key for this algorithm: the hash of `username:realm:password` (RFC 8489,
    /// sections 9.2.2 and 18.5.1). For HMAC-SHA1 the key is the 16-byte MD5 hash, and for
    /// HMAC-SHA256 the 32-byte SHA-256 hash. This does not allocate.
    pub fn make_key(&self, algorithm: IntegrityAlgorithm) -> IntegrityKey<A>
        ensures { result ≡ long_term_key_of self.now algorithm }
    {
        key::derive_key(
            algorithm,
            self.username.as_str(),
            self.realm.as_str(),
            self.password.as_str(),
        )
    }
}

/// Copies the three texts, each into memory of its own allocator.
impl<A: Memory> Clone for LongTermKeyCredentials<A> {
    ghost is_clone = { λ credentials copy. copy ≡ credentials };

    ghost is_infallible = { λ _. A.grants };

    fn clone(&self) -> Result<Self, AllocError> {
        let username = copy_text(&self.username)?;
        let realm = copy_text(&self.realm)?;
        let password = copy_text(&self.password)?;
        Ok(LongTermKeyCredentials {
            username,
            realm,
            password,
        })
    }
}

impl<A: Allocator> fmt::Debug for LongTermKeyCredentials<A> {
    ghost debug_output = { λ _. Some (codes "LongTermKeyCredentials { .. }") };

    fn fmt<W: fmt::Write>(&self, f: &mut fmt::Formatter<W>) -> fmt::Result
        ensures writes { WritesOnOk W.write_str_gives f.old result
            (codes "LongTermKeyCredentials { .. }") f.new }

        // The options of the formatter, such as the width, do not change the text.
        ensures styled { WritesStyledOnOk W.write_str_gives f.old result
            (codes "LongTermKeyCredentials { .. }") f.new }
    {
        f.write_str("LongTermKeyCredentials { .. }")
    }
}

/// The credentials with which messages are signed and validated (RFC 8489, section 9).
///
/// They have one key for each algorithm: the bytes of the password, or a long-term key. `Debug`
/// shows only the variant.
#[derive(Drop)]
pub enum MessageIntegrityCredentials<A: Allocator = Global> {
    /// A password without a user name (RFC 8489, section 9.1).
    ShortTerm(ShortTermCredentials<A>),
    /// A user name, a realm and a password (RFC 8489, section 9.2).
    LongTerm(LongTermKeyCredentials<A>),
}

impl<A: Allocator> MessageIntegrityCredentials<A> {
    ghost use Rattle.stun_base.specs.Keys.OfCredentials.{keys_of};

    /// Returns the key for this algorithm: the bytes of the password, which are borrowed, or the
    /// long-term key. This does not allocate.
    pub fn key(&self, algorithm: IntegrityAlgorithm) -> CredentialsKey<'_, A>
        ensures { result ≡ keys_of self.now algorithm }
    {
        let bytes = match self {
            MessageIntegrityCredentials::ShortTerm(credentials) => {
                CredentialsKeyBytes::Password(credentials.password().as_bytes())
            }
            MessageIntegrityCredentials::LongTerm(credentials) => {
                CredentialsKeyBytes::Made(credentials.make_key(algorithm))
            }
        };
        CredentialsKey { bytes }
    }
}

impl<A: Allocator> From<ShortTermCredentials<A>> for MessageIntegrityCredentials<A> {
    ghost use Rattle.std.specs.Prelude.{◌≡◌};
    ghost use Rattle.stun_base.specs.declared.keys.credentials.MessageIntegrityCredentials.TheVariants.{
      ShortTerm,
    };

    ghost from_gives = { λ credentials result. result ≡ ShortTerm credentials };

    fn from(credentials: ShortTermCredentials<A>) -> Self {
        MessageIntegrityCredentials::ShortTerm(credentials)
    }
}

impl<A: Allocator> From<LongTermKeyCredentials<A>> for MessageIntegrityCredentials<A> {
    ghost use Rattle.std.specs.Prelude.{◌≡◌};
    ghost use Rattle.stun_base.specs.declared.keys.credentials.MessageIntegrityCredentials.TheVariants.{
      LongTerm,
    };

    ghost from_gives = { λ credentials result. result ≡ LongTerm credentials };

    fn from(credentials: LongTermKeyCredentials<A>) -> Self {
        MessageIntegrityCredentials::LongTerm(credentials)
    }
}

impl<A: Allocator> fmt::Debug for MessageIntegrityCredentials<A> {
    ghost use Rattle.stun_base.specs.Keys.OfCredentials.{kind_shown};

    ghost debug_output = { λ credentials. Some (kind_shown credentials) };

    fn fmt<W: fmt::Write>(&self, f: &mut fmt::Formatter<W>) -> fmt::Result
        ensures writes { WritesOnOk W.write_str_gives f.old result (kind_shown self.now) f.new }

        // The options of the formatter, such as the width, do not change the text.
        ensures styled { WritesStyledOnOk W.write_str_gives f.old result
            (kind_shown self.now) f.new }
    {
        match self {
            MessageIntegrityCredentials::ShortTerm(_) => f.write_str("ShortTerm(..)"),
            MessageIntegrityCredentials::LongTerm(_) => f.write_str("LongTerm(..)"),
        }
    }
}

/// The key of some credentials for one algorithm: a borrowed password, or a long-term key. `Debug`
/// shows none of its bytes.
///
/// Contracts: the value is the list of the key's bytes.
#[derive(Drop)]
pub struct CredentialsKey<'a, A: Allocator = Global> {
    bytes: CredentialsKeyBytes<'a, A>,
}

/// The bytes of a key: a borrowed password, or a long-term key.
#[derive(Drop)]
enum CredentialsKeyBytes<'a, A: Allocator> {
    Password(&'a [u8]),
    Made(IntegrityKey<A>),
}

impl<'a, A: Allocator> Model for CredentialsKey<'a, A> {
    ghost use Rattle.std.specs.Prelude.{ℕ, List};
    ghost use Rattle.stun_base.specs.code.CredentialsKeyBytes.{credentials_key_bytes};

    ghost Value = { List ℕ };

    ghost view = { λ key. credentials_key_bytes key.bytes };
}

impl<'a, A: Allocator> CredentialsKey<'a, A> {
    /// Returns the bytes of the key.
    pub fn as_bytes(&self) -> &[u8]
        ensures { result.now ≡ self.now }
    {
        match &self.bytes {
            CredentialsKeyBytes::Password(bytes) => bytes,
            CredentialsKeyBytes::Made(key) => key.as_bytes(),
        }
    }
}

impl<'a, A: Allocator> fmt::Debug for CredentialsKey<'a, A> {
    ghost debug_output = { λ _. Some (codes "CredentialsKey { .. }") };

    fn fmt<W: fmt::Write>(&self, f: &mut fmt::Formatter<W>) -> fmt::Result
        ensures writes { WritesOnOk W.write_str_gives f.old result
            (codes "CredentialsKey { .. }") f.new }

        // The options of the formatter, such as the width, do not change the text.
        ensures styled { WritesStyledOnOk W.write_str_gives f.old result
            (codes "CredentialsKey { .. }") f.new }
    {
        f.write_str("CredentialsKey { .. }")
    }
}
