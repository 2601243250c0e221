//! Parses dumps with a column of offsets, as `xxd`, `hexdump -C`, `od -A x -t x1`, `tcpdump -x` and
//! Wireshark print them.
ghost use Rattle.std.specs.Prelude.{◌≡◌, ◌≢◌, ◌<◌, ℕ, length, get_or, option_copied};
ghost use Rattle.std.specs.Prelude.{IfSome, IfNone};
ghost use Rattle.stun_inspect.specs.Dump.{IsFirstBlank, is_before_byte};
ghost use Rattle.stun_inspect.specs.Dump.{offset_digits, without_prefix};

use crate::digits::{bad_input, byte_of, digit, push};
use crate::failure::{Failure, Wanted};
use crate::layout::{Spelled, push_spelled};
use std::alloc::Allocator;
use std::mem;

/// Returns the index of the first blank of a row, which ends its first word.
pub fn first_blank(row: &[u8]) -> Option<usize>
    ensures some { IfSome result (λ place. IsFirstBlank row.now place) }
    ensures none { IfNone result ((i : ℕ) → i < length row.now → get_or row.now i 0 ≢ 32) }
{
    row.iter().position(|byte| *byte == b' ')
}

/// Returns the digits of the offset in a row, or `None` if the row has no offset. `word` is the
/// first word of the row, and `rest` is the text after the blank that ends this word. The row has
/// an offset if its first word is one of these:
///
/// - a word that ends with a colon (the colon, and a `0x` before the digits, are left out);
/// - a word before two blanks;
/// - a word of six characters before a word of two characters, as `od` writes them.
///
/// A colon further on, such as one in the column of characters, does not end an offset.
pub fn offset_digits<'a>(word: &'a [u8], rest: &[u8]) -> Option<&'a [u8]>
    ensures { option_copied result ≡ offset_digits word.now rest.now }
{
    if !word.is_empty() && word[word.len() - 1] == b':' {
        Some(without_prefix(&word[..word.len() - 1]))
    } else if !rest.is_empty() && rest[0] == b' ' {
        Some(word)
    } else if is_before_byte(word, rest) {
        Some(word)
    } else {
        None
    }
}

/// Returns whether a word has six characters, and the word after it has two.
fn is_before_byte(word: &[u8], rest: &[u8]) -> bool
    ensures { result ≡ is_before_byte word.now rest.now }
{
    word.len() == 6 && (rest.len() == 2 || rest.len() > 2 && rest[2] == b' ')
}

/// Returns the digits without a leading `0x`.
fn without_prefix(digits: &[u8]) -> &[u8]
    ensures { result.now ≡ without_prefix digits.now }
{
    if digits.len() >= 2 && digits[0] == b'0' && digits[1] == b'x' {
        &digits[2..]
    } else {
        digits
    }
}

/// Parses the offset at the front of a row, and returns the offset and the rest of the row after
/// the blank.
fn offset_of(row: &str) -> Option<(usize, &str)> {
    let row = row.trim_start();
    let blank = first_blank(row.as_bytes())?;
    let (word, rest) = (row.get(..blank)?, row.get(blank + 1..)?);
    let digits = offset_digits(word.as_bytes(), rest.as_bytes())?;
    Some((number_of(digits)?, rest))
}

/// Parses a number of four to eight hexadecimal digits.
fn number_of(digits: &[u8]) -> Option<usize> {
    if digits.len() < 4 || digits.len() > 8 {
        return None;
    }
    let mut number: usize = 0;
    for byte in digits {
        number = (number << 4) | usize::from(digit(*byte)?);
    }
    Some(number)
}

/// Returns whether one of the lines is the first row of a dump, which has the offset 0.
pub fn has_dump(text: &str) -> bool {
    for line in text.split('\n') {
        if let Some((0, _)) = offset_of(line) {
            return true;
        }
    }
    false
}

/// Reads the bytes of each dump of a text. A dump begins with a row of offset 0. These lines are
/// skipped: blank lines, the lines before the first row of a dump, and a line that has only the
/// number of bytes in the rows before it, which some programs print at the end of a dump.
///
/// Fails if the offset of a row is not the number of bytes in the rows before it, if the text has
/// no dump, or if any other line comes between the rows of a dump or after the last dump.
pub fn read_dumps<A: Allocator + Copy>(
    alloc: A,
    text: &str,
) -> Result<Vec<Spelled<A>, A>, Failure> {
    let mut dumps = Dumps {
        dumps: Vec::new(alloc),
        bytes: Vec::new(alloc),
        first: 1,
        stray: None,
    };
    let mut number: usize = 0;
    for line in text.split('\n') {
        number = number.saturating_add(1);
        dumps.take_line(alloc, line, number)?;
    }
    dumps.end(number)
}

/// The dumps that were read so far.
#[derive(Drop)]
struct Dumps<A: Allocator> {
    /// The dumps before the last one.
    dumps: Vec<Spelled<A>, A>,
    /// The bytes of the last dump.
    bytes: Vec<u8, A>,
    /// The line of the last dump's first row.
    first: usize,
    /// The first line that follows the rows of the last dump and belongs to no dump.
    stray: Option<usize>,
}

impl<A: Allocator + Copy> Dumps<A> {
    fn take_line(&mut self, alloc: A, line: &str, number: usize) -> Result<(), Failure> {
        let found = offset_of(line);
        if let Some((0, _)) = found {
            self.begin(alloc, number)?;
        }
        match found {
            Some((offset, rest)) => self.take_row(line, offset, rest, number),
            None => {
                let is_skipped = line.trim_start().is_empty() || self.bytes.is_empty();
                if !is_skipped && self.stray.is_none() && !is_end(line, self.bytes.len()) {
                    self.stray = Some(number);
                }
                Ok(())
            }
        }
    }

    /// Reads a row with this offset, or skips it before the first dump. Fails if the offset is not
    /// the number of bytes in the rows before, or if a line before the row belongs to no dump.
    fn take_row(
        &mut self,
        line: &str,
        offset: usize,
        rest: &str,
        number: usize,
    ) -> Result<(), Failure> {
        let wanted = Wanted::Offset(self.bytes.len());
        match self.stray {
            Some(stray) => Err(bad_input(stray, 1, wanted)),
            None if offset == self.bytes.len() => {
                let before = line.len().saturating_sub(rest.len());
                read_row_of(&mut self.bytes, line, rest, number, before)
            }
            None if self.bytes.is_empty() => Ok(()),
            None => Err(bad_input(number, 1, wanted)),
        }
    }

    /// Begins the next dump.
    fn begin(&mut self, alloc: A, number: usize) -> Result<(), Failure> {
        if !self.bytes.is_empty() {
            let bytes = mem::replace(&mut self.bytes, Vec::new(alloc));
            push_spelled(&mut self.dumps, self.first, bytes)?;
        }
        self.first = number;
        self.stray = None;
        Ok(())
    }

    /// Returns all dumps, after the last line of the text was read. `number` is the number of this
    /// line. Fails if there is no dump, or if a line after the last dump belongs to no dump.
    fn end(self, number: usize) -> Result<Vec<Spelled<A>, A>, Failure> {
        let Dumps {
            mut dumps,
            bytes,
            first,
            stray,
        } = self;
        if let Some(stray) = stray {
            return Err(bad_input(stray, 1, Wanted::Offset(bytes.len())));
        }
        if bytes.is_empty() {
            return Err(bad_input(number, 1, Wanted::Bytes));
        }
        push_spelled(&mut dumps, first, bytes)?;
        Ok(dumps)
    }
}

/// Returns whether a line has only the number of bytes of a dump, as `hexdump` and `od` print it at
/// the end.
fn is_end(line: &str, length: usize) -> bool {
    let line = line.trim_end();
    line.len() >= 6 && number_of(line.as_bytes()) == Some(length)
}

/// The offset of the column of characters in a row of `hexdump -C`.
const CHARACTERS: usize = 60;

/// Appends the bytes of a row. In a row of `hexdump -C` the bytes are between two blanks and a bar
/// in a fixed column. In other rows they end before two blanks.
fn read_row_of<A: Allocator>(
    bytes: &mut Vec<u8, A>,
    line: &str,
    rest: &str,
    number: usize,
    before: usize,
) -> Result<(), Failure> {
    match canonical_row(line) {
        Some(row) => read_row(bytes, row, number, 10, Gap::InRow),
        None => read_row(bytes, rest, number, before, Gap::AtEnd),
    }
}

/// Returns the part of a row of `hexdump -C` that has the digits. It follows the eight digits of
/// the offset and two blanks, and ends before a bar in a fixed column. Returns `None` if the row
/// does not have this form.
fn canonical_row(line: &str) -> Option<&str> {
    let _offset = number_of(line.get(..8)?.as_bytes())?;
    match (line.get(8..10)?, line.as_bytes().get(CHARACTERS)?) {
        ("  ", b'|') => line.get(10..CHARACTERS),
        _ => None,
    }
}

/// Whether two blanks are allowed among the bytes of a row, or end them.
#[derive(Clone, Copy)]
enum Gap {
    InRow,
    AtEnd,
}

/// The state of a parser within the digits of a row.
#[derive(Clone, Copy)]
enum Column {
    /// Before the first digit.
    Front,
    /// After a whole byte.
    Byte,
    /// After the first digit of a byte.
    High(u8),
    /// After a blank that follows a byte.
    Blank,
}

/// The result of reading one byte of a row.
enum Step {
    To(Column),
    Byte(u8),
    End,
    Wrong(Wanted),
}

/// Reads the next byte of a row.
fn next_of(at: Column, byte: u8, gap: Gap) -> Step {
    match digit(byte) {
        Some(low) => match at {
            Column::High(high) => Step::Byte(byte_of(high, low)),
            _ => Step::To(Column::High(low)),
        },
        None => match at {
            Column::High(_) => Step::Wrong(Wanted::SecondDigit),
            _ if !byte.is_ascii_whitespace() => Step::Wrong(Wanted::Digit),
            Column::Front => Step::To(Column::Front),
            Column::Byte => Step::To(Column::Blank),
            Column::Blank => match gap {
                Gap::InRow => Step::To(Column::Blank),
                Gap::AtEnd => Step::End,
            },
        },
    }
}

/// Appends the bytes of a row. If two blanks end the bytes, a column of characters may follow.
fn read_row<A: Allocator>(
    bytes: &mut Vec<u8, A>,
    row: &str,
    line: usize,
    before: usize,
    gap: Gap,
) -> Result<(), Failure> {
    let mut column = before;
    let mut at = Column::Front;
    for byte in row.bytes() {
        column = column.saturating_add(1);
        match next_of(at, byte, gap) {
            Step::To(next) => at = next,
            Step::Byte(read) => {
                push(bytes, read)?;
                at = Column::Byte;
            }
            Step::End => return Ok(()),
            Step::Wrong(wanted) => return Err(bad_input(line, column, wanted)),
        }
    }
    match at {
        Column::High(_) => Err(bad_input(line, column, Wanted::SecondDigit)),
        _ => Ok(()),
    }
}
