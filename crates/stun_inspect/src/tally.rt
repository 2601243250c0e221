//! Counts the messages of an input, and its other parts.
ghost use Rattle.std.specs.Prelude.{◌≡◌};
ghost use Rattle.stun_inspect.specs.Counts.{counted, status_of_counts};

use crate::found::Found;
use std::alloc::{AllocError, Allocator};
use stun_cli::status::Status;

/// Why a packet is not read.
#[derive(Clone, Copy)]
pub enum Unread {
    /// The link layer of the packet has this type, which is not supported.
    Link(u32),
    /// The packet is a fragment of an IP packet.
    Fragment,
    /// The capture has cut the headers of the packet short.
    Cut,
    /// The packet is a segment of TCP that ends within a message.
    Begun,
}

/// The packets that are not read, for one of the reasons.
#[derive(Clone, Copy)]
struct Missed {
    count: usize,
    /// The number of the first such packet, and the offset of its record in the file.
    packet: usize,
    place: usize,
}

impl Missed {
    const NONE: Missed = Missed {
        count: 0,
        packet: 0,
        place: 0,
    };

    fn count(&mut self, packet: usize, place: usize) {
        if self.count == 0 {
            self.packet = packet;
            self.place = place;
        }
        self.count = self.count.saturating_add(1);
    }

    /// Appends a line for these packets, if there are any.
    fn push<A: Allocator + Copy>(self, text: &mut String<A>, why: &str) -> Result<(), AllocError> {
        let Missed {
            count,
            packet,
            place,
        } = self;
        if count > 0 {
            write!(text, "not read: {count} {why}, ")?;
            write!(text, "the first is packet {packet} at byte {place}\n")?;
        }
        Ok(())
    }
}

/// The number of messages with each finding. A count stops at `usize::MAX`.
#[derive(Clone, Copy)]
pub struct Counts {
    good: usize,
    invalid: usize,
    unsigned: usize,
    not_messages: usize,
}

impl Counts {
    const NONE: Counts = Counts {
        good: 0,
        invalid: 0,
        unsigned: 0,
        not_messages: 0,
    };

    /// Counts a message with this finding.
    fn count(&mut self, found: Found)
        ensures { self.new ≡ counted found self.old }
    {
        match found {
            Found::Good => self.good = self.good.saturating_add(1),
            Found::Invalid => self.invalid = self.invalid.saturating_add(1),
            Found::Unsigned => self.unsigned = self.unsigned.saturating_add(1),
            Found::NotAMessage => self.not_messages = self.not_messages.saturating_add(1),
        }
    }

    /// Returns the status of the command: `Good` if there is a good message, and every other
    /// message is good or unsigned.
    fn status(&self) -> Status
        ensures { result ≡ status_of_counts self.now }
    {
        if self.good > 0 && self.invalid == 0 && self.not_messages == 0 {
            Status::Good
        } else {
            Status::Bad
        }
    }
}

/// The counts of an input.
#[derive(Clone, Copy)]
pub struct Tally {
    messages: usize,
    /// The number of messages with each finding.
    found: Counts,
    /// The number of datagrams, or of parts of a text, that are not messages.
    others: usize,
    without_udp: usize,
    /// The number of ChannelData messages of TURN that carry no STUN message.
    channels: usize,
    fragments: Missed,
    begun: Missed,
    cut: Missed,
    links: Missed,
    /// The type of the first link layer that is not supported.
    link: u32,
}

impl Tally {
    pub const NONE: Tally = Tally {
        messages: 0,
        found: Counts::NONE,
        others: 0,
        without_udp: 0,
        channels: 0,
        fragments: Missed::NONE,
        begun: Missed::NONE,
        cut: Missed::NONE,
        links: Missed::NONE,
        link: 0,
    };

    /// Returns the number of the next message, counted from 1.
    pub fn next(&self) -> usize {
        self.messages.saturating_add(1)
    }

    /// Counts a message with this finding.
    pub fn count_message(&mut self, found: Found)
        ensures { self.new.found ≡ counted found self.old.found }
    {
        self.messages = self.messages.saturating_add(1);
        self.found.count(found);
    }

    /// Counts a datagram, or a part of a text, that is not a message.
    pub fn count_other(&mut self) {
        self.others = self.others.saturating_add(1);
    }

    pub fn count_without_udp(&mut self) {
        self.without_udp = self.without_udp.saturating_add(1);
    }

    pub fn count_channel(&mut self) {
        self.channels = self.channels.saturating_add(1);
    }

    /// Counts a packet that is not read.
    pub fn count_unread(&mut self, why: Unread, packet: usize, place: usize) {
        match why {
            Unread::Fragment => self.fragments.count(packet, place),
            Unread::Cut => self.cut.count(packet, place),
            Unread::Begun => self.begun.count(packet, place),
            Unread::Link(link) => {
                if self.links.count == 0 {
                    self.link = link;
                }
                self.links.count(packet, place);
            }
        }
    }

    /// Returns the status of the command.
    pub fn status(&self) -> Status
        ensures { result ≡ status_of_counts self.now.found }
    {
        self.found.status()
    }

    /// Returns the last line of `verify`, which has the number of messages with each finding.
    pub fn summary<A: Allocator + Copy>(&self, alloc: A) -> Result<String<A>, AllocError> {
        let Counts {
            good,
            invalid,
            unsigned,
            not_messages,
        } = self.found;
        let mut text = format!(in alloc; "valid: {good}, invalid: {invalid}, ")?;
        write!(
            text,
            "unsigned: {unsigned}, not a message: {not_messages}\n"
        )?;
        Ok(text)
    }

    /// Returns the line that counts the parts of a text.
    pub fn ending_of_text<A: Allocator + Copy>(&self, alloc: A) -> Result<String<A>, AllocError> {
        let (messages, others) = (self.messages, self.others);
        format!(in alloc; "messages: {messages}, other: {others}\n")
    }

    /// Returns the lines that count the packets of a capture.
    pub fn ending_of_capture<A: Allocator + Copy>(
        &self,
        alloc: A,
    ) -> Result<String<A>, AllocError> {
        let (messages, others, without_udp) = (self.messages, self.others, self.without_udp);
        let mut text = format!(in alloc; "messages: {messages}, other UDP: {others}, ")?;
        write!(text, "no UDP: {without_udp}\n")?;
        if self.channels > 0 {
            let channels = self.channels;
            write!(text, "channel data: {channels}\n")?;
        }
        self.fragments.push(&mut text, "fragments")?;
        self.begun
            .push(&mut text, "segments of TCP that end within a message")?;
        self.cut.push(&mut text, "with headers cut short")?;
        let link = self.link;
        let why = format!(in alloc; "of another link type, such as {link}")?;
        self.links.push(&mut text, why.as_str())?;
        Ok(text)
    }
}
