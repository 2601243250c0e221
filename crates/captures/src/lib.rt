//! Reads packet captures, as `tcpdump`, `tshark` and Wireshark write them: packet by packet, with
//! the UDP datagram or the segment of TCP that each packet carries.
//!
//! ```text
//! Capture::open(alloc, header)             creates a capture from the header of its file
//! capture.record_length(front)             returns the length of the record that begins here
//! capture.step(record)                     parses a record, which has a packet or not
//! carried(packet.link, packet.bytes)       returns the datagram or the segment of a packet
//! ```
#![tactic(auto)]

pub mod blocks;
pub mod capture;
pub mod classic;
pub mod clock;
pub mod damage;
pub mod internet;
pub mod link;
pub mod numbers;
