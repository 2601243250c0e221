//! A line of output that is being written.
ghost use Rattle.std.specs.Prelude.{◌≡◌, ◌<◌, ◌≤◌, ◌++◌, ◌∷◌, [], false, decimal, IfOk, OnOk};
ghost use Rattle.std.specs.Fmt.{digit_glyph, digits};
ghost use Rattle.std.specs.Net.Text.{socket_text};
ghost use Rattle.std.specs.String.{string_bytes};
ghost use Rattle.stun_base.specs.AttributeText.{hex_byte};
ghost use Rattle.stun_cli.specs.Line.{has_line_feed, IsLine};

use std::alloc::{AllocError, Allocator};
use std::net::SocketAddr;

/// The text of a line, which has no line feed. Each call that appends to it fails with `AllocError`
/// if an allocation fails.
#[derive(Drop)]
pub struct Line<A: Allocator> {
    text: String<A>,
    alloc: A,
    ghost unbroken: { has_line_feed (string_bytes text) ≡ false },
}

/// Returns the character of a hexadecimal digit, in lower case.
fn glyph(digit: u8) -> char
    requires { digit < 16 }
    ensures { result ≡ digit_glyph false digit }
{
    if digit < 10 {
        char::from(b'0' + digit)
    } else {
        char::from(b'a' - 10 + digit)
    }
}

impl<A: Allocator + Copy> Line<A> {
    /// Creates an empty line.
    pub fn new(alloc: A) -> Line<A>
        ensures { string_bytes result.text ≡ [] }
    {
        Line {
            text: String::new(alloc),
            alloc,
        }
    }

    /// Appends a text, which must not have a line feed.
    pub fn push_str(&mut self, text: &str) -> Result<(), AllocError>
        requires { has_line_feed text.now ≡ false }
        ensures { OnOk result
            (string_bytes self.new.text ≡ string_bytes self.old.text ++ text.now) }
    {
        self.text.push_str(text)
    }

    /// Appends a printable ASCII character.
    pub fn push(&mut self, character: char) -> Result<(), AllocError>
        requires { (32 ≤ character) × (character ≤ 126) }
        ensures { OnOk result
            (string_bytes self.new.text ≡ string_bytes self.old.text ++ character ∷ []) }
    {
        self.text.push(character)
    }

    /// Appends a number in decimal.
    #[tactic(auto, using(crate::proofs::Unbroken::no_line_feed_in_digits))]
    pub fn push_number(&mut self, number: u64) -> Result<(), AllocError>
        ensures { OnOk result
            (string_bytes self.new.text ≡ string_bytes self.old.text ++ decimal number) }
    {
        let text = format!(in self.alloc; "{number}")?;
        self.push_str(text.as_str())
    }

    /// Appends a number in hexadecimal, without leading zeros.
    #[tactic(auto, using(crate::proofs::Unbroken::no_line_feed_in_digits))]
    pub fn push_hexadecimal(&mut self, number: u32) -> Result<(), AllocError>
        ensures { OnOk result
            (string_bytes self.new.text ≡ string_bytes self.old.text ++ digits 16 false number) }
    {
        let text = format!(in self.alloc; "{number:x}")?;
        self.push_str(text.as_str())
    }

    /// Appends a byte as two hexadecimal digits.
    pub fn push_byte(&mut self, byte: u8) -> Result<(), AllocError>
        ensures { OnOk result
            (string_bytes self.new.text ≡ string_bytes self.old.text ++ hex_byte byte) }
    {
        self.push(glyph(byte / 16))?;
        self.push(glyph(byte % 16))
    }

    /// Appends an address and a port.
    #[tactic(auto, using(crate::proofs::Unbroken::no_line_feed_in_address))]
    pub fn push_address(&mut self, address: SocketAddr) -> Result<(), AllocError>
        ensures { OnOk result
            (string_bytes self.new.text ≡ string_bytes self.old.text ++ socket_text address) }
    {
        let text = format!(in self.alloc; "{address}")?;
        self.push_str(text.as_str())
    }

    /// Returns the text.
    pub fn as_str(&self) -> &str
        ensures text { result.now ≡ string_bytes self.now.text }
        ensures unbroken { has_line_feed result.now ≡ false }
    {
        self.text.as_str()
    }

    /// Returns the text, followed by a line feed.
    ///
    /// # Errors
    ///
    /// `AllocError`: an allocation failed.
    pub fn end(self) -> Result<String<A>, AllocError>
        ensures line { IfOk result (λ line. IsLine (string_bytes line)) }
        ensures text { IfOk result
            (λ line. string_bytes line ≡ string_bytes self.text ++ 10 ∷ []) }
    {
        let Line { mut text, alloc: _ } = self;
        text.push('\n')?;
        Ok(text)
    }
}
