//! Reads inputs. A command reads every input through this module.
ghost use Rattle.std.specs.Prelude.{◌≡◌, ◌≢◌, ◌≤◌, ◌+◌, ◌++◌, ◌↔◌, ◌⊎◌, ℕ, Bool, true, IfErr, IfOk};
ghost use Rattle.std.specs.Prelude.{IfSome, length};
ghost use Rattle.std.specs.Io.{ReadsAtMost};
ghost use Rattle.std.specs.Io.KnownBytes.{ReadConsumes};
ghost use Rattle.std.specs.Io.KnownBytes.{IsAtEnd};
ghost use Rattle.stun_cli.specs.Input.{most_tries, asked_after, IsFailed, IsReadOn, IsReason};
ghost use Rattle.stun_cli.specs.Input.{IsReasonOfReads, IsReasonOfRest};

use crate::failure::Failure;
use std::alloc::Allocator;
use std::io;
use std::io::{ErrorKind, Read};

/// The greatest number of reads in one call of this module.
pub const MAX_READS: u32 = 1_048_576;

/// The greatest number of bytes of one read.
pub const READ_SIZE: usize = 256;

/// A reader that counts its reads, so that contracts can bound their number.
pub trait CountedRead: Read {
    // The number of reads so far, at most 4294967295.
    ghost asked: { Self → ℕ };
    // Whether the last read failed, other than by an interrupt.
    ghost failed: { Self → Bool };

    /// Reads once, like `read`, and counts the read. An interrupted read counts too.
    fn ask(&mut self, buf: &mut [u8]) -> io::Result<usize>
        ensures bound { ReadsAtMost result buf.new }
        ensures bytes { ReadConsumes (Self.remaining self.old)
            (Self.remaining self.new) result buf.new }
        ensures counted { asked self.new ≡ asked_after 1 (asked self.old) }
        ensures failed { (failed self.new ≡ true) ↔ IsFailed result };
}

/// A reader that counts its reads.
#[derive(Drop)]
pub struct Counted<R: Read + Drop> {
    pub reader: R,
    asked: u32,
    failed: bool,
}

impl<R: Read + Drop> Counted<R> {
    /// Creates a counting reader that has not been read yet.
    pub fn new(reader: R) -> Counted<R> {
        Counted {
            reader,
            asked: 0,
            failed: false,
        }
    }
}

impl<R: Read + Drop> Read for Counted<R> {
    ghost remaining = { λ counted. R.remaining counted.reader };

    fn read(&mut self, buf: &mut [u8]) -> io::Result<usize> {
        self.ask(buf)
    }
}

impl<R: Read + Drop> CountedRead for Counted<R> {
    ghost asked = { λ counted. counted.asked };

    ghost failed = { λ counted. counted.failed };

    fn ask(&mut self, buf: &mut [u8]) -> io::Result<usize> {
        self.asked = self.asked.saturating_add(1);
        let result = self.reader.read(buf);
        self.failed = match &result {
            Ok(_) => false,
            Err(error) => error.kind() != ErrorKind::Interrupted,
        };
        result
    }
}

/// Reads all bytes that the reader still has, at most `most` bytes.
///
/// An interrupted read is repeated, and counts as a read.
///
/// # Errors
///
/// - `Io`: a read failed.
/// - `Memory`: an allocation failed.
/// - `NoEnd`: there are more than `most` bytes, or the end does not come within 1048576 reads.
pub fn read_to_end<R: CountedRead, A: Allocator>(
    alloc: A,
    reader: &mut R,
    most: usize,
) -> Result<Vec<u8, A>, Failure>
    ensures all { IfSome (R.remaining reader.old)
        (λ input. IfOk result (λ bytes. bytes.items ≡ input)) }
    ensures limit { IfOk result (λ bytes. length bytes.items ≤ most) }
    ensures asked { R.asked reader.new ≤ R.asked reader.old + most_tries }
    ensures reason { IfErr result (λ failure. IsReason failure most (R.remaining reader.old)
        (R.asked reader.old) (R.asked reader.new) (R.failed reader.new)) }
    ensures good { IfOk result (λ _. R.failed reader.new ≢ true) }
{
    let mut bytes = Vec::new(alloc);
    let mut buffer = [0u8; READ_SIZE];
    for _turn in 0..MAX_READS {
        match reader.ask(&mut buffer) {
            Ok(0) => return Ok(bytes),
            Ok(count) => {
                if count > most - bytes.len() {
                    return Err(Failure::NoEnd);
                }
                bytes.extend_from_slice(&buffer[..count])?;
            }
            Err(error) => {
                if error.kind() != ErrorKind::Interrupted {
                    return Err(Failure::Io);
                }
            }
        }
    }
    Err(Failure::NoEnd)
}

/// Reads bytes and appends them to `before`, until the result has `least` bytes or the reader has
/// no more. The call reads only as many bytes as the result needs.
///
/// An interrupted read is repeated, and counts as a read.
///
/// # Errors
///
/// - `Io`: a read failed.
/// - `Memory`: an allocation failed.
/// - `NoEnd`: 1048576 reads were not enough.
pub fn read_up_to<R: CountedRead, A: Allocator>(
    reader: &mut R,
    before: Vec<u8, A>,
    least: usize,
) -> Result<Vec<u8, A>, Failure>
    ensures read { IfOk result (λ bytes. IsReadOn (R.remaining reader.old) (R.remaining reader.new)
        before.items bytes.items) }
    ensures enough { IfOk result (λ bytes.
        (least ≤ length bytes.items) ⊎ IsAtEnd (R.remaining reader.new)) }
    ensures reason { IfErr result (λ failure. IsReasonOfReads failure (R.asked reader.old)
        (R.asked reader.new) (R.failed reader.new)) }
{
    let mut bytes = before;
    let mut buffer = [0u8; READ_SIZE];
    for _turn in 0..MAX_READS {
        let lack = least.saturating_sub(bytes.len());
        if lack == 0 {
            return Ok(bytes);
        }
        let piece = &mut buffer[..lack.min(READ_SIZE)];
        match reader.ask(piece) {
            Ok(0) => return Ok(bytes),
            Ok(count) => bytes.extend_from_slice(&piece[..count])?,
            Err(error) => {
                if error.kind() != ErrorKind::Interrupted {
                    return Err(Failure::Io);
                }
            }
        }
    }
    Err(Failure::NoEnd)
}

/// Reads all bytes that the reader still has, and appends them to `before`.
///
/// An interrupted read is repeated, and counts as a read. Each byte of `before` counts as a read
/// too.
///
/// # Errors
///
/// - `Io`: a read failed.
/// - `Memory`: an allocation failed.
/// - `NoEnd`: the result would have more than `most` bytes, or 1048576 reads were not enough.
pub fn read_rest<R: CountedRead, A: Allocator>(
    reader: &mut R,
    before: Vec<u8, A>,
    most: usize,
) -> Result<Vec<u8, A>, Failure>
    ensures all { IfSome (R.remaining reader.old)
        (λ rest. IfOk result (λ bytes. bytes.items ≡ before.items ++ rest)) }
    ensures reason { IfErr result (λ failure. IsReasonOfRest failure most before.items
        (R.remaining reader.old) (R.asked reader.old) (R.asked reader.new)
        (R.failed reader.new)) }
{
    let mut bytes = before;
    let mut buffer = [0u8; READ_SIZE];
    for _turn in bytes.len()..MAX_READS as usize {
        match reader.ask(&mut buffer) {
            Ok(0) => return Ok(bytes),
            Ok(count) => {
                if count > most.saturating_sub(bytes.len()) {
                    return Err(Failure::NoEnd);
                }
                bytes.extend_from_slice(&buffer[..count])?;
            }
            Err(error) => {
                if error.kind() != ErrorKind::Interrupted {
                    return Err(Failure::Io);
                }
            }
        }
    }
    Err(Failure::NoEnd)
}
