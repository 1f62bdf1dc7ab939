ghost use Rattle.std.specs.Prelude.{◌≡◌, ◌++◌, ◌-◌, ◌≤◌, ◌<◌, take, length, vec_len, IfOk, OnOk, OnErr};
ghost use Rattle.std.specs.Prelude.{IfSome, MatchResult};
ghost use Rattle.std.specs.Io.KnownBytes.{Appends, Consumes, IsAtEnd, Keeps};
ghost use Rattle.text_lines.specs.Streams.{AppendsFront, ConsumesAtMost, ConsumesText, Moves, Reads};
ghost use Rattle.text_lines.specs.Streams.{is_long, longest, most_read_of};

use std::alloc::{AllocError, Global};
use std::io::{ErrorKind, Read, Write};
use thiserror::Error;

/// The most bytes that are read of a text: one more than one of version 3 may have.
pub const MAX_READ_BYTES: usize = 268_435_457;

/// The most calls that are made of a reader.
pub const MAX_READS: u32 = 33_554_434;

// The most bytes of one read.
const PIECE: usize = 8_192;

/// Why a text was not read.
#[derive(Clone, Copy, Debug, Error, PartialEq, Eq)]
pub enum ReadError {
    /// The text had no room in memory.
    #[error("no memory")]
    Memory,
    /// The reader failed, or gave no end within `MAX_READS` calls.
    #[error("read fault")]
    Read,
}

/// The writer failed, or took nothing of what it was given.
#[derive(Clone, Copy, Debug, Error, PartialEq, Eq)]
#[error("write fault")]
pub struct WriteError;

#[derive(Clone, Copy)]
enum Progress {
    More,
    End,
}

/// How many bytes a text may have that begins so: 16 MiB, and 256 MiB where its first line is `problem 3`,
/// `script 3` or `job 3`.
pub fn longest(text: &[u8]) -> usize
    ensures { result ≡ longest text.now }
{
    if is_long(text) {
        268_435_456
    } else {
        16_777_216
    }
}

// Whether the first line is that of a text of version 3.
fn is_long(text: &[u8]) -> bool
    ensures { result ≡ is_long text.now }
{
    text.starts_with(b"problem 3\n")
        || text.starts_with(b"script 3\n")
        || text.starts_with(b"job 3\n")
}

/// All that the reader has, or as many bytes as the text may have and one more: no byte past those is asked
/// for. A read that was interrupted is made again.
pub fn read_text<R: Read>(alloc: Global, reader: &mut R) -> Result<Vec<u8>, ReadError>
    ensures read { IfOk result (λ text.
        IfSome (R.remaining reader.old) (λ input. text.items ≡ take (most_read_of input) input)) }
    ensures bound { IfOk result (λ text. vec_len text ≤ most_read_of text.items) }
    ensures unread { ConsumesText (R.remaining reader.old) (R.remaining reader.new) }
{
    let mut text = Vec::new(alloc);
    let mut piece = [0u8; PIECE];
    for _ in 0..MAX_READS {
        let most = longest(&text) + 1;
        if text.len() >= most {
            return Ok(text);
        }
        match read_piece(reader, &mut piece, &mut text, most)? {
            Progress::More => {}
            Progress::End => return Ok(text),
        }
    }
    Err(ReadError::Read)
}

// One read by way of `piece`, after which the text has at most so many bytes. A read that was interrupted
// gives nothing.
fn read_piece<R: Read>(
    reader: &mut R,
    piece: &mut [u8; PIECE],
    text: &mut Vec<u8>,
    most: usize,
) -> Result<Progress, ReadError>
    requires { vec_len text.old < most }
    ensures bound { vec_len text.new ≤ most }
    ensures ok { OnOk result
        (Reads (R.remaining reader.old) (R.remaining reader.new) text.old.items text.new.items) }
    ensures end { result ≡ Ok Progress.End → IsAtEnd (R.remaining reader.new) }
    ensures err { OnErr result
        (ConsumesAtMost (R.remaining reader.old) (R.remaining reader.new)
        (most - vec_len text.old)) }
{
    let room = PIECE.min(most - text.len());
    match reader.read(&mut piece[..room]) {
        Ok(0) => Ok(Progress::End),
        Ok(count) => {
            text.extend_from_slice(&piece[..count])
                .map_err(|_| ReadError::Memory)?;
            Ok(Progress::More)
        }
        Err(error) if error.kind() == ErrorKind::Interrupted => Ok(Progress::More),
        Err(_) => Err(ReadError::Read),
    }
}

/// Writes the text, by as many calls as the writer wants, and flushes. A write that was interrupted is
/// made again.
pub fn write_text<W: Write>(writer: &mut W, text: &[u8]) -> Result<(), WriteError>
    ensures ok { OnOk result (Appends (W.contents writer.old) (W.contents writer.new) text.now) }
    ensures err { OnErr result (AppendsFront (W.contents writer.old) (W.contents writer.new) text.now) }
{
    let mut rest = text;
    for _ in 0..u64::MAX {
        if rest.is_empty() {
            return flush(writer);
        }
        rest = write_piece(writer, rest)?;
    }
    Err(WriteError)
}

// One write, and what it left of the text. A write that was interrupted leaves all.
fn write_piece<'a, W: Write>(writer: &mut W, rest: &'a [u8]) -> Result<&'a [u8], WriteError>
    ensures ok { IfOk result (λ left.
        Moves (W.contents writer.old) (W.contents writer.new) rest.entry.now left.now) }
    ensures err { OnErr result (Keeps (W.contents writer.old) (W.contents writer.new)) }
{
    match writer.write(rest) {
        Ok(0) => Err(WriteError),
        Ok(count) => Ok(&rest[count..]),
        Err(error) if error.kind() == ErrorKind::Interrupted => Ok(rest),
        Err(_) => Err(WriteError),
    }
}

fn flush<W: Write>(writer: &mut W) -> Result<(), WriteError>
    ensures { Keeps (W.contents writer.old) (W.contents writer.new) }
{
    writer.flush().map_err(|_| WriteError)
}
