//! The action of a command for each message that it reads.
ghost use Rattle.std.specs.Prelude.{IfOk};
ghost use Rattle.stun_inspect.specs.Found.{status_of_found};
ghost use Rattle.stun_inspect.specs.Run.{PrintsResult};

use crate::answers::{decode, list, list_at, verify};
use crate::command::User;
use crate::failure::Failure;
use crate::found::Found;
use crate::frames::ChannelData;
use crate::tally::Tally;
use crate::value::push_digits;
use std::alloc::{AllocError, Allocator};
use std::io::Write;
use stun_cli::line::Line;
use stun_cli::output::write_text;
use stun_types::message::MessageIntegrityCredentials;

/// The action of a command for each message.
#[derive(Drop)]
pub enum Teller<'a, B: Allocator> {
    /// Prints the attributes of a message.
    Decode,
    /// Prints a line for a message.
    List,
    /// Verifies the signature of a message, for a user or under a password alone.
    Verify(Option<User<'a>>, &'a MessageIntegrityCredentials<B>),
}

impl<'a, B: Allocator> Teller<'a, B> {
    /// Prints the result for a message, and returns the finding.
    pub fn tell<W: Write, A: Allocator + Copy>(
        &self,
        alloc: A,
        message: &[u8],
        writer: &mut W,
    ) -> Result<Found, Failure>
        ensures { IfOk result (λ found. PrintsResult self.now message.now (status_of_found found)
            (W.contents writer.old) (W.contents writer.new)) }
    {
        match self {
            Teller::Decode => decode(alloc, message, writer),
            Teller::List => list(alloc, message, writer),
            Teller::Verify(user, credentials) => {
                let verdict = verify(alloc, message, *user, *credentials, writer)?;
                Ok(Found::of_verdict(verdict))
            }
        }
    }

    /// Prints `place`, which is the position of one of several messages, and then the result for
    /// the message. Returns the finding.
    pub fn tell_at<W: Write, A: Allocator + Copy>(
        &self,
        alloc: A,
        place: &str,
        message: &[u8],
        writer: &mut W,
    ) -> Result<Found, Failure> {
        match self {
            Teller::List => list_at(alloc, place, message, writer),
            _ => {
                let heading = format!(in alloc; "{place}\n")?;
                write_text(writer, heading.as_bytes())?;
                let found = self.tell(alloc, message, writer)?;
                write_text(writer, b"\n")?;
                Ok(found)
            }
        }
    }

    /// Prints `place` and then ChannelData that carries no message. Prints nothing if the command
    /// verifies signatures, because ChannelData has no signature.
    pub fn tell_channel<W: Write, A: Allocator + Copy>(
        &self,
        alloc: A,
        place: &str,
        data: ChannelData<'_>,
        writer: &mut W,
    ) -> Result<(), Failure> {
        let ChannelData { channel, bytes } = data;
        let length = bytes.len();
        let text = match self {
            Teller::Decode => {
                let mut digits = Line::new(alloc);
                push_digits(&mut digits, bytes)?;
                let digits = digits.as_str();
                let mut text = format!(in alloc; "{place}\n{:<28} 0x{channel:04x}\n", "channel")?;
                write!(text, "{:<28} {length} bytes  {digits}\n\n", "data")?;
                text
            }
            Teller::List => {
                format!(in alloc; "{place}: channel 0x{channel:04x}, {length} bytes\n")?
            }
            Teller::Verify(..) => String::new(alloc),
        };
        Ok(write_text(writer, text.as_bytes())?)
    }

    /// Returns the last line that is printed after several messages: for `verify`, the counts of
    /// its findings, and for the other commands an empty text.
    pub fn summary<A: Allocator + Copy>(
        &self,
        alloc: A,
        tally: &Tally,
    ) -> Result<String<A>, AllocError> {
        match self {
            Teller::Verify(..) => tally.summary(alloc),
            _ => Ok(String::new(alloc)),
        }
    }
}
