//! Writes outputs. A command writes every output through this module.
ghost use Rattle.std.specs.Prelude.{OnOk, OnErr};
ghost use Rattle.std.specs.Io.KnownBytes.{Appends};
ghost use Rattle.stun_cli.specs.Output.{AppendsBeginning};

use crate::failure::Failure;
use std::io::{ErrorKind, Write};

/// The greatest number of writes in one call of `write_text`.
const MAX_WRITES: u32 = 1_048_576;

/// Writes the text, in at most 1048576 writes. An interrupted write is repeated.
///
/// # Errors
///
/// `Io`: a write failed or wrote nothing, or 1048576 writes were not enough. In this case, at most
/// the beginning of the text was written.
pub fn write_text<W: Write>(writer: &mut W, text: &[u8]) -> Result<(), Failure>
    ensures ok { OnOk result (Appends (W.contents writer.old) (W.contents writer.new) text.now) }
    ensures err { OnErr result (AppendsBeginning (W.contents writer.old)
        (W.contents writer.new) text.now) }
{
    let mut written = 0;
    for _ in 0..MAX_WRITES {
        if written == text.len() {
            return Ok(());
        }
        match writer.write(&text[written..]) {
            Ok(0) => return Err(Failure::Io),
            Ok(count) => written += count,
            Err(error) => {
                if error.kind() != ErrorKind::Interrupted {
                    return Err(Failure::Io);
                }
            }
        }
    }
    if written == text.len() {
        Ok(())
    } else {
        Err(Failure::Io)
    }
}
