//! Talks: one line after another is read, and each is answered, whole, before the next one is read.
//!
//! A `Talker` answers a line, and may change by it. `talk` reads lines from any reader and writes each
//! answer, with an empty line behind it, to any writer. Its contract says once what was answered to what was
//! read, however the talk ends (`specs/Talks.antt`). Of a longer line a talker hears the first 524,288 bytes,
//! so that the lines need bounded memory. Below stand the streams of `text_lines`.
#![tactic(auto)]

ghost use Rattle.std.specs.Prelude.{◌≡◌, ◌≤◌, ◌<◌, ℕ, List, IfOk, MatchOption, [], length, slice_index};
ghost use Rattle.std.specs.Prelude.{string_bytes, take, OnOk, ⊤};
ghost use Rattle.line_talk.specs.declared.Turn.{Turn};
ghost use Rattle.line_talk.specs.Talks.{IsUnbroken, ReadsLine, Shows, Talked, TakesPiece, Turned, heard};

use command_runner::{NoAnswer, ToolError};
use memchr::memchr;
use std::alloc::{AllocError, Global};
use std::io::{BufRead, ErrorKind, Write};
use text_lines::write_text;

/// The most bytes of a line that a talker hears.
pub const MAX_HEARD_BYTES: usize = 524_288;

/// Whether a talk goes on after an answer.
#[derive(Clone, Copy, Debug, PartialEq, Eq)]
pub enum Turn {
    More,
    Last,
}

/// How a talk has ended.
#[derive(Clone, Copy, Debug, PartialEq, Eq)]
pub enum TalkEnd {
    /// A line was answered as the last.
    Told,
    /// The input ended between two lines.
    Over,
    /// The input ended within a line, which was not answered.
    Unfed,
}

/// What was read.
#[derive(Clone, Copy, Debug, PartialEq, Eq)]
pub enum LineRead {
    Whole,
    Over,
    Unfed,
}

/// What one read gave of a line.
#[derive(Clone, Copy, Debug, PartialEq, Eq)]
enum Piece {
    /// The rest of the line, with its line feed.
    Last,
    Part,
    /// The read was interrupted.
    Nothing,
    /// The input is at its end.
    End,
}

/// Who answers lines. `Replies` says which lines answer a line, whether it was the last, and what the talker
/// is then. A talker that is `ready` is so again after each answer.
pub trait Talker {
    ghost ready: { Self → Type 0 } = { λ _. ⊤ };

    ghost Replies: { Self → List ℕ → Turn → List ℕ → Self → Type 0 };

    /// The answer to a line, which is given without its line feed.
    fn reply(&mut self, alloc: Global, line: &[u8]) -> Result<(String, Turn), NoAnswer>
        requires { ready self.old }
        ensures ready { OnOk result (ready self.new) }
        ensures replies { IfOk result (λ given.
            Replies self.old line.now given.1 (string_bytes given.0) self.new) };
}

/// Answers one line after another, each before the next one is read, until one is the last.
pub fn talk<T: Talker, R: BufRead, W: Write>(
    alloc: Global,
    talker: &mut T,
    reader: &mut R,
    writer: &mut W,
) -> Result<TalkEnd, ToolError>
    requires { T.ready talker.old }
    ensures talked { Talked T.Replies (R.remaining reader.old) (R.remaining reader.new) (W.contents writer.old)
        (W.contents writer.new) talker.old talker.new result }
    ensures ready { OnOk result (T.ready talker.new) }
{
    let mut line = Vec::with_capacity(alloc, MAX_HEARD_BYTES)?;
    for _ in 0..u64::MAX {
        line.clear();
        match read_line(reader, MAX_HEARD_BYTES, &mut line)? {
            LineRead::Whole => match answer_line(alloc, talker, writer, line.as_slice())? {
                Turn::More => {}
                Turn::Last => return Ok(TalkEnd::Told),
            },
            LineRead::Over => return Ok(TalkEnd::Over),
            LineRead::Unfed => return Ok(TalkEnd::Unfed),
        }
    }
    Err(ToolError::Read)
}

/// Reads the next line, and puts it without its line feed behind what stands in `line`, until that has `most`
/// bytes. The rest of the line is passed over.
pub fn read_line<R: BufRead>(
    reader: &mut R,
    most: usize,
    line: &mut Vec<u8>,
) -> Result<LineRead, ToolError>
    requires { length line.old.items ≤ most }
    ensures { ReadsLine most line.old.items line.new.items (R.remaining reader.old) (R.remaining reader.new)
        result }
{
    let mut is_begun = false;
    for _ in 0..u64::MAX {
        match take_piece(reader, most, line)? {
            Piece::Last => return Ok(LineRead::Whole),
            Piece::Part => is_begun = true,
            Piece::Nothing => {}
            Piece::End if is_begun => return Ok(LineRead::Unfed),
            Piece::End => return Ok(LineRead::Over),
        }
    }
    Err(ToolError::Read)
}

// Takes what one read gives of a line.
fn take_piece<R: BufRead>(
    reader: &mut R,
    most: usize,
    line: &mut Vec<u8>,
) -> Result<Piece, ToolError>
    requires { length line.old.items ≤ most }
    ensures { TakesPiece most line.old.items line.new.items (R.remaining reader.old) (R.remaining reader.new)
        result }
{
    let shown = match reader.fill_buf() {
        Ok(shown) => shown,
        Err(error) => {
            return if error.kind() == ErrorKind::Interrupted {
                Ok(Piece::Nothing)
            } else {
                Err(ToolError::Read)
            };
        }
    };
    let (count, piece) = keep_shown(shown, most, line)?;
    reader.consume(count);
    Ok(piece)
}

// Keeps the line's bytes, of the bytes that a reader shows, as far as there is room. Answers how many bytes
// are done with.
fn keep_shown(shown: &[u8], most: usize, line: &mut Vec<u8>) -> Result<(usize, Piece), AllocError>
    requires { length line.old.items ≤ most }
    ensures { IfOk result (λ given.
        Shows most line.old.items line.new.items shown.now given.0 given.1) }
{
    let end = feed_at(shown);
    let kept = end.unwrap_or(shown.len()).min(most - line.len());
    line.extend_from_slice(&shown[..kept])?;
    match end {
        Some(at) => Ok((at + 1, Piece::Last)),
        None if shown.is_empty() => Ok((0, Piece::End)),
        None => Ok((shown.len(), Piece::Part)),
    }
}

// Where the first line feed stands.
fn feed_at(bytes: &[u8]) -> Option<usize>
    ensures { MatchOption result (IsUnbroken bytes.now) (λ at. (at < length bytes.now)
        × IsUnbroken (take at bytes.now) × (slice_index bytes.now at ≡ 10)) }
{
    memchr(b'\n', bytes)
}

// Answers a line that is given without its line feed, and writes the answer with an empty line behind it.
fn answer_line<T: Talker, W: Write>(
    alloc: Global,
    talker: &mut T,
    writer: &mut W,
    line: &[u8],
) -> Result<Turn, ToolError>
    requires { T.ready talker.old }
    ensures ready { OnOk result (T.ready talker.new) }
    ensures turned { (body : List ℕ) → line.now ≡ heard body
        → Turned T.Replies (W.contents writer.old) (W.contents writer.new) talker.old body talker.new result }
{
    let (mut answer, turn) = talker.reply(alloc, line)?;
    answer.push('\n')?;
    write_text(writer, answer.as_bytes())?;
    Ok(turn)
}
