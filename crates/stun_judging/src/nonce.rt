//! The nonces of a server, and the security bits that they carry (RFC 8489, section 9.2).
ghost use Rattle.base64.specs.Engines.{standard};
ghost use Rattle.base64.specs.GeneralPurpose.{encode_of};
ghost use Rattle.std.specs.Prelude.{◌≡◌, ◌+◌, ◌++◌, ◌≤◌, List, ℕ, Some, None, IfOk, IsOk, OnOk};
ghost use Rattle.std.specs.Str.{IsUtf8};
ghost use Rattle.std.specs.String.{string_bytes, string_capacity, string_len};
ghost use Rattle.stun_base.specs.Words.{next_words, after_words};
ghost use Rattle.stun_judging.specs.Nonces.{begins_with_cookie, security_bits, security_byte};
ghost use Rattle.stun_judging.specs.Nonces.{nonce_of, asks_for_algorithms, asks_for_userhash};
ghost use Rattle.stun_judging.specs.Algorithms.{contains};
ghost use Rattle.stun_judging.specs.Feature.{is_possible};

use crate::algorithm_set::AlgorithmSet;
use crate::feature::Feature;
use crate::letters::{push_letters, text_with_room};
use base64::engine::general_purpose::STANDARD;
use std::alloc::{AllocError, Allocator};
use std::marker::Model;
use stun_base::algorithm::IntegrityAlgorithm;
use stun_base::memory::Memory;

/// The nonce cookie: every nonce that has security bits begins with it (RFC 8489, section 9.2).
pub const LONG_TERM_RFC8489_NONCE_COOKIE: &str = "obMatJos2";

/// The number of bytes that the cookie and the security bits, which are four characters of base64,
/// take at the beginning of a nonce.
const FRONT_LENGTH: usize = 13;

/// The number of random letters of a nonce.
const LETTERS: usize = 16;

/// The number that replaces the first one if the letters of a nonce begin with the cookie by
/// chance. Its letter is `p`, with which the cookie does not begin.
const NUMBER_OF_P: u32 = 41;

/// The security bit *Password algorithms*, in the first byte (RFC 8489, section 18.1).
const PASSWORD_ALGORITHMS: u8 = 0x80;

/// The security bit *Username anonymity*, in the first byte (RFC 8489, section 18.1).
const USERNAME_ANONYMITY: u8 = 0x40;

/// The 24 security bits of a nonce (RFC 8489, sections 9.2 and 18.1), with which a server announces
/// the features that it supports.
///
/// A nonce that has security bits begins with the cookie `obMatJos2`, followed by the bits as four
/// characters of base64.
///
/// Contracts: the value is the list of the three bytes.
#[derive(Clone, Copy, Debug, Default, PartialEq, Eq, Hash)]
pub struct NonceSecurityBits {
    bytes: [u8; 3],
}

impl Model for NonceSecurityBits {
    ghost use Rattle.std.specs.Prelude.{ℕ, List};

    ghost Value = { List ℕ };

    ghost view = { λ bits. bits.bytes };

    ghost inverse = { λ bytes. record { bytes = bytes } };
}

impl NonceSecurityBits {
    ghost use Rattle.std.specs.Prelude.{Some};
    ghost use Rattle.stun_judging.specs.Nonces.{first_has, with_first_bit, spelled_bits};

    /// Creates the security bits from three bytes, in the order in which a nonce contains them.
    pub fn from_bytes(bytes: [u8; 3]) -> NonceSecurityBits
        ensures { result ≡ bytes }
    {
        NonceSecurityBits { bytes }
    }

    /// Returns the security bits as three bytes. The two bits that have a meaning are in the first
    /// byte.
    pub fn bytes(&self) -> [u8; 3]
        ensures { result ≡ self.now }
    {
        self.bytes
    }

    /// Returns the security bits of a nonce. Returns `None` if the nonce has no security bits: it
    /// does not begin with the cookie, or the four characters after the cookie are not three bytes
    /// in base64 (RFC 8489, section 9.2).
    #[tactic(auto, unfolding(crate::specs::Nonces::security_bits))]
    pub fn from_nonce(nonce: &str) -> Option<NonceSecurityBits>
        ensures { result ≡ security_bits nonce.now }
    {
        let text = nonce.as_bytes();
        if !begins_with_cookie(text) || text.len() < FRONT_LENGTH {
            return None;
        }
        let mut bytes = [0u8; 3];
        match STANDARD.decode_slice(&text[9..FRONT_LENGTH], &mut bytes) {
            Ok(3) => Some(NonceSecurityBits { bytes }),
            _ => None,
        }
    }

    /// Returns the 13 bytes that a nonce with these bits begins with: the cookie, followed by the
    /// bits as four characters of base64. Fails if an allocation fails.
    pub fn as_string<A: Memory>(&self, alloc: A) -> Result<String<A>, AllocError>
        ensures text { IfOk result (λ text. string_bytes text ≡ spelled_bits self.now) }
        ensures granted { A.grants → IsOk result }
    {
        let mut text = text_with_room(alloc, FRONT_LENGTH)?;
        self.push_to(&mut text)?;
        Ok(text)
    }

    /// Appends the 13 bytes of `as_string` to a text. It does not allocate if the text has room for
    /// them.
    #[tactic(auto, unfolding(crate::specs::Nonces::spelled_bits))]
    fn push_to<A: Allocator>(&self, text: &mut String<A>) -> Result<(), AllocError>
        ensures bytes { OnOk result (string_bytes text.new
            ≡ string_bytes text.old ++ spelled_bits self.now) }
        ensures len { OnOk result (string_len text.new ≡ string_len text.old + 13) }
        ensures capacity { string_capacity text.old ≤ string_capacity text.new }
        ensures succeeds { string_len text.old + 13 ≤ string_capacity text.old → IsOk result }
    {
        let bits = to_base64(&self.bytes);
        text.push_str(LONG_TERM_RFC8489_NONCE_COOKIE)?;
        text.push_str(str::from_utf8(&bits).unwrap())
    }

    /// Returns `true` if the client must choose among password algorithms (RFC 8489, section 18.1).
    pub fn password_algorithms(&self) -> bool
        ensures { result ≡ first_has 0x80 (Some self.now) }
    {
        self.bytes[0] & PASSWORD_ALGORITHMS != 0
    }

    /// Sets whether the client must choose among password algorithms.
    pub fn set_password_algorithms(&mut self, enabled: bool)
        ensures { self.new ≡ with_first_bit 0x80 enabled self.old }
    {
        if enabled {
            self.bytes[0] |= PASSWORD_ALGORITHMS;
        } else {
            self.bytes[0] &= !PASSWORD_ALGORITHMS;
        }
    }

    /// Returns `true` if the user name may be sent as a hash (RFC 8489, section 18.1).
    pub fn username_anonymity(&self) -> bool
        ensures { result ≡ first_has 0x40 (Some self.now) }
    {
        self.bytes[0] & USERNAME_ANONYMITY != 0
    }

    /// Sets whether the user name may be sent as a hash.
    pub fn set_username_anonymity(&mut self, enabled: bool)
        ensures { self.new ≡ with_first_bit 0x40 enabled self.old }
    {
        if enabled {
            self.bytes[0] |= USERNAME_ANONYMITY;
        } else {
            self.bytes[0] &= !USERNAME_ANONYMITY;
        }
    }
}

/// Returns three bytes as four characters of base64.
fn to_base64(bytes: &[u8; 3]) -> [u8; 4]
    ensures characters { result ≡ encode_of standard bytes.now }
    ensures text { IsUtf8 result }
{
    let mut characters = [0u8; 4];
    STANDARD.encode_slice(bytes, &mut characters).unwrap();
    characters
}

/// Returns whether a nonce has the security bit *Password algorithms*: whether a client has to
/// choose an algorithm from the list that the server sends with the nonce.
pub fn asks_for_algorithms(nonce: &str) -> bool
    ensures { result ≡ asks_for_algorithms nonce.now }
{
    match NonceSecurityBits::from_nonce(nonce) {
        Some(bits) => bits.password_algorithms(),
        None => false,
    }
}

/// Returns whether a nonce has the security bit *Username anonymity*: whether a client may send a
/// hash of its user name.
pub fn asks_for_userhash(nonce: &str) -> bool
    ensures { result ≡ asks_for_userhash nonce.now }
{
    match NonceSecurityBits::from_nonce(nonce) {
        Some(bits) => bits.username_anonymity(),
        None => false,
    }
}

/// Returns whether a text begins with the nonce cookie.
fn begins_with_cookie(text: &[u8]) -> bool
    ensures { result ≡ begins_with_cookie text.now }
{
    text.starts_with(LONG_TERM_RFC8489_NONCE_COOKIE.as_bytes())
}

/// Makes the first byte of the security bits that announce these settings.
fn make_security_byte(algorithms: AlgorithmSet, feature: Feature) -> u8
    ensures { result ≡ security_byte algorithms feature }
{
    let for_algorithms = if algorithms.contains(IntegrityAlgorithm::Sha256) {
        PASSWORD_ALGORITHMS
    } else {
        0
    };
    let for_userhash = if feature.is_possible() {
        USERNAME_ANONYMITY
    } else {
        0
    };
    for_algorithms + for_userhash
}

/// Makes a nonce from sixteen random numbers (RFC 8489, section 9.2). The nonce asks for password
/// algorithms if and only if HMAC-SHA256 is supported, and allows hashed names if and only if
/// `feature` does. If it does neither, it has no security bits and 16 bytes, and otherwise 29
/// bytes.
///
/// The call allocates once, and fails if the allocation fails.
pub fn nonce_of_words<A: Memory>(
    alloc: A,
    algorithms: AlgorithmSet,
    feature: Feature,
    words: &[u32; 16],
) -> Result<String<A>, AllocError>
    ensures text { IfOk result (λ text. string_bytes text ≡ nonce_of algorithms feature words.now) }
    ensures granted { A.grants → IsOk result }
{
    let byte = make_security_byte(algorithms, feature);
    if byte != 0 {
        let mut text = text_with_room(alloc, FRONT_LENGTH + LETTERS)?;
        NonceSecurityBits::from_bytes([byte, 0, 0]).push_to(&mut text)?;
        push_letters(&mut text, words)?;
        return Ok(text);
    }
    let mut text = text_with_room(alloc, LETTERS)?;
    push_letters(&mut text, words)?;
    if !begins_with_cookie(text.as_bytes()) {
        return Ok(text);
    }
    // The letters begin with the cookie by chance, so a client would read security bits that nobody
    // set. Another first letter prevents that.
    let mut others = *words;
    others[0] = NUMBER_OF_P;
    text.clear();
    push_letters(&mut text, &others)?;
    Ok(text)
}
