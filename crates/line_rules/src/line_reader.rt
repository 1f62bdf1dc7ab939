ghost use Rattle.std.specs.Prelude.{◌≡◌, ◌↔◌, ◌+◌, ◌≤◌, [], Err, IfErr, IfOk, IsTrue, MatchOption, OnOk};
ghost use Rattle.std.specs.Prelude.{All, length};
ghost use Rattle.text_lines.specs.Texts.{IsPrintable, Line};
ghost use Rattle.line_rules.specs.Faults.{IsLeastOf};
ghost use Rattle.line_rules.specs.Known.{known_at};
ghost use Rattle.line_rules.specs.Reading.{HasKeyword, IsAllRead, IsCut, IsLeastError, IsReadingError, Takes};
ghost use Rattle.line_rules.specs.Reading.{error_at};
ghost use Rattle.line_rules.specs.Texts.{LineHas, RestHas};
ghost use Rattle.text_lines.specs.Streams.{longest};
ghost use Rattle.line_rules.specs.declared.section.Section.TheVariants.{Ended};
ghost use Rattle.line_rules.specs.declared.line_reader.LineError.TheVariants.{Memory};
ghost use Rattle.line_rules.specs.declared.line_reader.ReadingError.TheVariants as reading;

use crate::known::KnownLines;
use crate::one_line::{cut_keyword, fit_after};
use crate::purpose::Purpose;
use crate::section::Section;
use line_shapes::{KeyedLine, Keyword};
use std::alloc::{AllocError, Global};
use text_lines::{Fault, TextFault, has_printable_lines, longest, split_line};

/// Why a text was not read.
#[derive(Clone, Copy, Debug, PartialEq, Eq)]
pub enum ReadingError {
    /// The least fault of the text.
    Text(TextFault),
    Memory,
}

/// Why a line was not taken.
#[derive(Clone, Copy)]
pub enum LineError {
    /// The line's least fault.
    Fault(Fault),
    Memory,
}

impl From<AllocError> for ReadingError {
    ghost from_gives = { λ _ e. e ≡ reading.Memory };

    fn from(_error: AllocError) -> ReadingError {
        ReadingError::Memory
    }
}

impl From<AllocError> for LineError {
    ghost from_gives = { λ _ e. e ≡ Memory };

    fn from(_error: AllocError) -> LineError {
        LineError::Memory
    }
}

/// What all lines of a text say, or the text's least fault, where the text is read for this purpose. The
/// value borrows its words from the text.
pub fn read_lines(
    alloc: Global,
    purpose: Purpose,
    text: &[u8],
) -> Result<KnownLines<'_>, ReadingError>
    ensures ok { IfOk result (IsAllRead purpose text.entry.now) }
    ensures err { IfErr result (IsReadingError purpose text.entry.now) }
{
    if text.len() > longest(text) {
        return Err(fault_in(0, Fault::TooLong));
    }
    let mut known = KnownLines::before(alloc, purpose, text.len())?;
    let mut words = Vec::new(alloc);
    take_lines(&mut words, &mut Vec::new(alloc), text, &mut known)?;
    Ok(known)
}

// Takes all lines of a text, and what follows the last line feed. `words` has room for the words of one line
// at a time, and `holders` for the numbers of its holders.
fn take_lines<'t>(
    words: &mut Vec<&'t str>,
    holders: &mut Vec<u32>,
    text: &'t [u8],
    known: &mut KnownLines<'t>,
) -> Result<(), ReadingError>
    requires short { length text.now ≤ longest text.now }
    requires first { known.old ≡ known_at known.old.purpose [] }
    ensures ok { OnOk result (IsAllRead known.old.purpose text.entry.now known.new) }
    ensures err { IfErr result (IsReadingError known.old.purpose text.entry.now) }
{
    let printable = has_printable_lines(text);
    let mut rest = text;
    let mut lines_read: u32 = 0;
    loop {
        let (line, after) = split_line(rest);
        let Some(after) = after else {
            return match fault_of_rest(known, line) {
                Some(fault) => Err(fault_in(lines_read + 1, fault)),
                None => Ok(()),
            };
        };
        if let Err(error) = take_line(words, holders, printable, line, known) {
            return Err(error_in(lines_read + 1, error));
        }
        rest = after;
        lines_read += 1;
    }
}

// Takes a line, given without its line feed. `printable` says that all its bytes are known to be printable.
// The line's words and the numbers of its holders replace what `words` and `holders` had.
#[inline(never)]
fn take_line<'t>(
    words: &mut Vec<&'t str>,
    holders: &mut Vec<u32>,
    printable: bool,
    line: &'t [u8],
    known: &mut KnownLines<'t>,
) -> Result<(), LineError>
    requires { IsTrue printable → All IsPrintable line.now }
    ensures ok { OnOk result (Takes known.old line.entry.now known.new) }
    ensures err { IfErr result (IsLeastError (LineHas known.old line.entry.now)) }
    ensures memory { result ≡ Err LineError.Memory → HasKeyword known.old line.entry.now }
{
    let (keyword, rest) = cut_keyword(printable, line, known)?;
    match keyword {
        Keyword::Split => take_words(words, holders, Keyword::Split, rest, known),
        _ => take_other_words(words, holders, keyword, rest, known),
    }
}

// Takes a line that begins with this keyword; `rest` is what follows the space after it. The function is
// inlined for each keyword of many lines, so that the compiler finds what depends on the keyword alone.
#[inline(always)]
fn take_words<'t>(
    words: &mut Vec<&'t str>,
    holders: &mut Vec<u32>,
    keyword: Keyword,
    rest: Option<&'t str>,
    known: &mut KnownLines<'t>,
) -> Result<(), LineError>
    ensures ok { OnOk result ((line : Line) → IsCut known.old line keyword rest.entry
        → Takes known.old line known.new) }
    ensures err { IfErr result (λ error. (line : Line) → IsCut known.old line keyword rest.entry
        → IsLeastError (LineHas known.old line) error) }
{
    let bar = fit_after(words, holders, keyword, rest, known)?;
    known.enter(&KeyedLine { keyword, words }, rest, bar, holders)?;
    Ok(())
}

// The same for a line that is no split's.
#[inline(never)]
fn take_other_words<'t>(
    words: &mut Vec<&'t str>,
    holders: &mut Vec<u32>,
    keyword: Keyword,
    rest: Option<&'t str>,
    known: &mut KnownLines<'t>,
) -> Result<(), LineError>
    ensures ok { OnOk result ((line : Line) → IsCut known.old line keyword rest.entry
        → Takes known.old line known.new) }
    ensures err { IfErr result (λ error. (line : Line) → IsCut known.old line keyword rest.entry
        → IsLeastError (LineHas known.old line) error) }
{
    match keyword {
        Keyword::Worker => take_words(words, holders, Keyword::Worker, rest, known),
        Keyword::Barred => take_words(words, holders, Keyword::Barred, rest, known),
        _ => take_words(words, holders, keyword, rest, known),
    }
}

pub(crate) fn is_ended(known: &KnownLines<'_>) -> bool
    ensures { IsTrue result ↔ (known.now.section ≡ Ended) }
{
    match known.section() {
        Section::Ended => true,
        Section::First | Section::Head | Section::Body => false,
    }
}

// The least fault of what follows the last line feed.
fn fault_of_rest(known: &KnownLines<'_>, rest: &[u8]) -> Option<Fault>
    ensures { MatchOption result ((rest.now ≡ []) × (known.now.section ≡ Ended))
        (IsLeastOf (RestHas known.now rest.now)) }
{
    if !rest.is_empty() {
        Some(Fault::NoFeed)
    } else if !is_ended(known) {
        Some(Fault::Misplaced)
    } else {
        None
    }
}

fn error_in(line: u32, error: LineError) -> ReadingError
    ensures { result ≡ error_at line error }
{
    match error {
        LineError::Fault(fault) => fault_in(line, fault),
        LineError::Memory => ReadingError::Memory,
    }
}

fn fault_in(line: u32, number: Fault) -> ReadingError
    ensures { result ≡ ReadingError.Text (record { line = line; number = number }) }
{
    ReadingError::Text(TextFault { line, number })
}
