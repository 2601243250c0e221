//! Prints the results for an input that is not a raw message: for the only message of a text, or
//! for each of several messages, after a line with its position.

use crate::digits::bad_input;
use crate::failure::{Failure, Wanted};
use crate::frames::{Part, Read, cut_of, part_of, read_of};
use crate::layout::{Spelled, is_raw, message_of, read_text};
use crate::tally::{Tally, Unread};
use crate::teller::Teller;
use captures::capture::{Capture, Packet, Step};
use captures::internet::{Carried, Datagram};
use captures::link::carried;
use std::alloc::{AllocError, Allocator};
use std::io::Write;
use stun_cli::input::{CountedRead, read_up_to};
use stun_cli::output::write_text;
use stun_cli::status::Status;

/// Prints the result for each message of a text.
pub fn tell_input<W: Write, A: Allocator + Copy>(
    alloc: A,
    teller: &Teller<'_, A>,
    input: &[u8],
    writer: &mut W,
) -> Result<Status, Failure> {
    if let [0x1F, 0x8B, ..] = input {
        return Err(Failure::Gzip);
    }
    let spelled = read_text(alloc, input)?;
    match spelled.as_slice() {
        [only] => {
            let message = message_of(only.bytes.as_slice())?;
            let found = teller.tell(alloc, message, writer)?;
            Ok(found.status())
        }
        several => {
            check_lengths(several)?;
            let mut series = Series::new(alloc, teller, writer);
            series.tell_spelled(several)?;
            let ending = series.tally.ending_of_text(alloc)?;
            series.end(ending)
        }
    }
}

/// Fails if a part of a text encodes more bytes than a message may have. It is called before
/// anything is printed.
fn check_lengths<A: Allocator + Copy>(spelled: &[Spelled<A>]) -> Result<(), Failure> {
    for part in spelled {
        if message_of(part.bytes.as_slice()).is_err() {
            return Err(bad_input(part.line, 1, Wanted::EndOfMessage));
        }
    }
    Ok(())
}

/// Prints the result for each message of a capture, record by record. `begun` has the bytes of the
/// first record that were read already. If a record is damaged, the call fails after it has printed
/// the results for the messages before that record.
pub fn tell_capture<R: CountedRead, W: Write, A: Allocator + Copy>(
    alloc: A,
    teller: &Teller<'_, A>,
    capture: Capture<A>,
    begun: Vec<u8, A>,
    reader: &mut R,
    writer: &mut W,
) -> Result<Status, Failure> {
    let mut capture = capture;
    let mut record = begun;
    let mut series = Series::new(alloc, teller, writer);
    let mut damage = None;
    for _record in 0..u64::MAX {
        record = read_up_to(reader, record, capture.front_length())?;
        if record.is_empty() {
            break;
        }
        match capture.record_length(record.as_slice()) {
            Ok(length) => record = read_up_to(reader, record, length)?,
            Err(failure) => {
                damage = Some(failure);
                break;
            }
        }
        match capture.step(record.as_slice()) {
            Ok(Step::Packet(packet)) => series.tell_packet(&packet)?,
            Ok(Step::Other) => {}
            Err(failure) => {
                damage = Some(failure);
                break;
            }
        }
        record.clear();
    }
    let ending = series.tally.ending_of_capture(alloc)?;
    let status = series.end(ending)?;
    match damage {
        Some(failure) => Err(Failure::from(failure)),
        None => Ok(status),
    }
}

/// The state of a command that handles the messages of an input one after another: what it does for
/// each message, the writer for the results, and the counts so far.
#[derive(Drop)]
struct Series<'a, 'b, W: Write, A: Allocator + Copy> {
    alloc: A,
    teller: &'a Teller<'b, A>,
    writer: &'a mut W,
    tally: Tally,
}

impl<'a, 'b, W: Write, A: Allocator + Copy> Series<'a, 'b, W, A> {
    /// Creates a series before its first message.
    fn new(alloc: A, teller: &'a Teller<'b, A>, writer: &'a mut W) -> Series<'a, 'b, W, A> {
        let tally = Tally::NONE;
        Series {
            alloc,
            teller,
            writer,
            tally,
        }
    }

    /// Prints the result for a message, and counts the message.
    fn tell_at(&mut self, place: &str, message: &[u8]) -> Result<(), Failure> {
        let found = self
            .teller
            .tell_at(self.alloc, place, message, self.writer)?;
        self.tally.count_message(found);
        Ok(())
    }

    /// Prints the result for each part of a text.
    fn tell_spelled(&mut self, spelled: &[Spelled<A>]) -> Result<(), Failure> {
        for part in spelled {
            let message = message_of(part.bytes.as_slice())?;
            if is_raw(message) {
                let (number, line) = (self.tally.next(), part.line);
                let place = format!(in self.alloc; "message {number}, line {line}")?;
                self.tell_at(place.as_str(), message)?;
            } else {
                self.tally.count_other();
            }
        }
        Ok(())
    }

    /// Prints the result for the content of a packet, or counts the packet as unread.
    fn tell_packet(&mut self, packet: &Packet<'_>) -> Result<(), Failure> {
        let why = match carried(packet.link, packet.bytes) {
            Some(Carried::Udp(datagram)) => return self.tell_datagram(packet, &datagram),
            Some(Carried::Tcp(segment)) => match read_of(segment.payload) {
                Read::Whole => return self.tell_segment(packet, &segment),
                Read::Begun => {
                    self.tell_segment(packet, &segment)?;
                    Unread::Begun
                }
                Read::Nothing => return Ok(self.tally.count_without_udp()),
            },
            Some(Carried::Other) => return Ok(self.tally.count_without_udp()),
            Some(Carried::Fragment) => Unread::Fragment,
            Some(Carried::Cut) => Unread::Cut,
            None => Unread::Link(packet.link),
        };
        self.tally.count_unread(why, packet.number, packet.place);
        Ok(())
    }

    /// Prints the result for the content of a datagram, or counts it as other UDP.
    fn tell_datagram(
        &mut self,
        packet: &Packet<'_>,
        datagram: &Datagram<'_>,
    ) -> Result<(), Failure> {
        match part_of(datagram.payload) {
            Some(part) => {
                let way = way_of(self.alloc, packet, datagram, "")?;
                self.tell_part(way.as_str(), part)
            }
            None => Ok(self.tally.count_other()),
        }
    }

    /// Prints the result for each whole part of a segment of TCP.
    fn tell_segment(&mut self, packet: &Packet<'_>, segment: &Datagram<'_>) -> Result<(), Failure> {
        let way = way_of(self.alloc, packet, segment, ", TCP")?;
        let mut rest = segment.payload;
        for _part in 0..segment.payload.len() {
            let Some(cut) = cut_of(rest) else {
                break;
            };
            self.tell_part(way.as_str(), cut.part)?;
            rest = cut.rest;
        }
        Ok(())
    }

    /// Prints the result for a part of a datagram or a segment. If the data of ChannelData is a
    /// message, prints the result for that message, and otherwise prints and counts the ChannelData
    /// itself.
    fn tell_part(&mut self, way: &str, part: Part<'_>) -> Result<(), Failure> {
        let (alloc, number) = (self.alloc, self.tally.next());
        match part {
            Part::Message(message) => {
                let place = format!(in alloc; "message {number}, {way}")?;
                self.tell_at(place.as_str(), message)
            }
            Part::Channel(data) if is_raw(data.bytes) => {
                let channel = data.channel;
                let place = format!(in alloc; "message {number}, {way}, channel 0x{channel:04x}")?;
                self.tell_at(place.as_str(), data.bytes)
            }
            Part::Channel(data) => {
                self.tally.count_channel();
                let place = format!(in alloc; "channel data, {way}")?;
                self.teller
                    .tell_channel(alloc, place.as_str(), data, self.writer)
            }
        }
    }

    /// Prints `ending`, which follows the results, and then the summary. Returns the status of the
    /// command.
    fn end(&mut self, ending: String<A>) -> Result<Status, Failure> {
        let mut ending = ending;
        let summary = self.teller.summary(self.alloc, &self.tally)?;
        ending.push_str(summary.as_str())?;
        write_text(self.writer, ending.as_bytes())?;
        Ok(self.tally.status())
    }
}

/// Returns the position and the path of a packet as text: its number, its time, and its source and
/// destination addresses.
fn way_of<A: Allocator + Copy>(
    alloc: A,
    packet: &Packet<'_>,
    datagram: &Datagram<'_>,
    protocol: &str,
) -> Result<String<A>, AllocError> {
    let number = packet.number;
    let mut way = format!(in alloc; "packet {number}, ")?;
    if let Some(moment) = packet.moment {
        write!(way, "{moment}, ")?;
    }
    let (from, to) = (datagram.from, datagram.to);
    write!(way, "{from} to {to}{protocol}")?;
    if datagram.is_cut {
        let place = packet.place;
        write!(way, ", cut, at byte {place}")?;
    }
    Ok(way)
}
