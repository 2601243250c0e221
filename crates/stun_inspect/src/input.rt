//! Opens an input: a capture, which is read packet by packet, or other bytes, which are read to
//! their end.
ghost use Rattle.std.specs.Prelude.{IfOk, IfSome};
ghost use Rattle.stun_inspect.specs.Input.{IsBegun};
ghost use Rattle.stun_inspect.specs.code.Opened.{IsCapture};

use crate::failure::{Failure, INPUT_LIMIT};
use crate::layout::is_raw;
use captures::capture::{Capture, FRONT_LENGTH, header_length_of};
use std::alloc::Allocator;
use stun_cli::input::{CountedRead, read_rest, read_up_to};

/// An input that was opened.
#[derive(Drop)]
pub enum Input<A: Allocator> {
    /// A capture, and the bytes of its first record that were read already.
    Capture(Capture<A>, Vec<u8, A>),
    /// All bytes of an input that is not a capture.
    Bytes(Vec<u8, A>),
}

/// Reads the header of a capture, or all bytes of another input. Fails if a read or an allocation
/// fails, if the header is cut short, or if an input that is not a capture has more than 67108864
/// bytes.
pub fn begin<R: CountedRead, A: Allocator + Copy>(
    alloc: A,
    reader: &mut R,
) -> Result<Input<A>, Failure>
    ensures { IfSome (R.remaining reader.old) (λ given. IfOk result (λ input.
        IsBegun given input)) }
{
    let front = read_up_to(reader, Vec::new(alloc), FRONT_LENGTH)?;
    if !is_raw(front.as_slice()) {
        if let Some(length) = header_length_of(front.as_slice()) {
            return open(alloc, reader, front, length);
        }
    }
    Ok(Input::Bytes(read_rest(reader, front, INPUT_LIMIT)?))
}

/// Opens the capture whose file begins with these bytes and has a header of this length.
fn open<R: CountedRead, A: Allocator + Copy>(
    alloc: A,
    reader: &mut R,
    front: Vec<u8, A>,
    length: usize,
) -> Result<Input<A>, Failure>
    ensures { IfOk result IsCapture }
{
    let header = read_up_to(reader, front, length)?;
    let capture = Capture::open(alloc, header.as_slice())?;
    let begun = if length > 0 { Vec::new(alloc) } else { header };
    Ok(Input::Capture(capture, begun))
}
