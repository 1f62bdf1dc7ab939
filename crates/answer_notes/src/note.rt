ghost use Rattle.std.specs.Prelude.{◌≡◌, ◌++◌, [], IfOk, OnOk, codes, map, replicate, slice_index_or};
ghost use Rattle.std.specs.Prelude.{◌-◌, string_bytes};
ghost use Rattle.std.specs.Fmt.{decimal};
ghost use Rattle.text_lines.specs.Faults.{number_of_fault};
ghost use Rattle.text_lines.specs.Texts.{lines_of};
ghost use Rattle.answer_notes.specs.Notes.{Adds, IsFaultNote, IsMarked, IsUnder, number_of_condition};
ghost use Rattle.answer_notes.specs.Notes.{told, visible as seen_as};

use crate::culprit::culprit;
use crate::listening::Listening;
use explanations::{add_line, entry_named};
use price_certificate::Condition;
use std::alloc::{AllocError, Global};
use std::io::Write;
use text_lines::{Fault, TextFault, printable, split_line};

// So many bytes of a line are shown at most.
const WIDTH: usize = 76;

// A line is shown from its start where the mark begins before this place, else from so many bytes before it.
const FAR: usize = 56;

const AHEAD: usize = 20;

/// A piece of a line: where it begins, and how many bytes it has.
#[derive(Clone, Copy, Debug, PartialEq, Eq)]
pub struct Span {
    pub start: usize,
    pub len: usize,
}

/// What a fault of a text means; under it the line, as far as there is room for it, and a mark under the word
/// at fault, or after the last word, where one is missing. A byte that is not printable is shown as `?`.
pub fn fault_note(alloc: Global, text: &[u8], fault: TextFault) -> Result<Vec<u8>, AllocError>
    ensures { IfOk result (λ note. IsFaultNote text.now fault note.items) }
{
    let mut note = Vec::new(alloc);
    let number = fault.number.number();
    add_told(&mut note, alloc, "fault", number)?;
    add_line_of(&mut note, alloc, text, fault)?;
    Ok(note)
}

// Appends the line at which a fault is told, with its mark; nothing for a fault of the whole text.
fn add_line_of(
    note: &mut Vec<u8>,
    alloc: Global,
    text: &[u8],
    fault: TextFault,
) -> Result<(), AllocError>
    ensures { OnOk result (Adds (IsUnder fault.line text.now) note.old.items note.new.items) }
{
    if fault.line == 0 {
        return Ok(());
    }
    let line = line_at(text, fault.line);
    let span = culprit(alloc, text, fault, line)?;
    add_marked(note, line, span)?;
    Ok(())
}

/// What a condition demands that a check names.
pub fn condition_note(alloc: Global, condition: Condition) -> Result<Vec<u8>, AllocError>
    ensures { IfOk result (λ note. note.items
        ≡ told (codes "condition") (codes "C" ++ decimal (number_of_condition condition))) }
{
    let number = number_of(condition);
    let name = format!(in alloc; "C{number}")?;
    let mut note = Vec::new(alloc);
    add_named(&mut note, alloc, "condition", name.as_str())?;
    Ok(note)
}

fn number_of(condition: Condition) -> u8
    ensures { result ≡ number_of_condition condition }
{
    match condition {
        Condition::Open(_) => 1,
        Condition::Allowed(_, _) => 2,
        Condition::Room(_) => 3,
        Condition::SplitPrice(_) | Condition::WorkerPrice(_) => 4,
        Condition::Priced(_, _) => 5,
        Condition::Tight(_, _) => 6,
        Condition::Unstarted(_) => 7,
        Condition::Spare(_) => 8,
    }
}

/// Why commands were ignored, as far as it was heard: a line for each reason, by number.
pub fn reasons_note<W: Write>(alloc: Global, heard: &Listening<W>) -> Result<Vec<u8>, AllocError> {
    let mut note = Vec::new(alloc);
    for reason in 0..32 {
        if heard.has_heard(reason) {
            add_told(&mut note, alloc, "ignored", reason)?;
        }
    }
    Ok(note)
}

/// What a line of an answer means that tells a fault, the reason for which a command was ignored, or the
/// condition that refuses a plan; nothing of another line.
pub fn answer_note(alloc: Global, line: &[u8]) -> Result<Vec<u8>, AllocError> {
    let mut note = Vec::new(alloc);
    let Some((kind, rest)) = printable(line).and_then(|text| text.split_once(' ')) else {
        return Ok(note);
    };
    let name = match rest.split_once(' ') {
        Some((name, _)) => name,
        None => rest,
    };
    match kind {
        "fault" | "ignored" => add_named(&mut note, alloc, kind, name)?,
        "refused" => add_named(&mut note, alloc, "condition", name)?,
        _ => {}
    }
    Ok(note)
}

// Appends what the table says of a number of this kind.
fn add_told(note: &mut Vec<u8>, alloc: Global, kind: &str, number: u8) -> Result<(), AllocError>
    ensures { OnOk result (note.new.items ≡ note.old.items ++ told kind.now (decimal number)) }
{
    let name = format!(in alloc; "{number}")?;
    add_named(note, alloc, kind, name.as_str())
}

// Appends what the table says of a name of this kind.
fn add_named(note: &mut Vec<u8>, alloc: Global, kind: &str, name: &str) -> Result<(), AllocError>
    ensures { OnOk result (note.new.items ≡ note.old.items ++ told kind.now name.now) }
{
    let mut line = String::new(alloc);
    if let Some(entry) = entry_named(kind, name) {
        add_line(&mut line, entry)?;
    }
    note.extend_from_slice(line.as_bytes())?;
    Ok(())
}

// The line of this number, from 1, without its line feed; an empty one past the last.
fn line_at(text: &[u8], number: u32) -> &[u8]
    ensures { result.now ≡ slice_index_or (lines_of text.entry.now) (number - 1) [] }
{
    let mut rest = text;
    for _ in 1..number {
        match split_line(rest).1 {
            Some(after) => rest = after,
            None => return &[],
        }
    }
    split_line(rest).0
}

// Appends a line, and a mark under this piece of it.
fn add_marked(note: &mut Vec<u8>, line: &[u8], span: Span) -> Result<(), AllocError>
    ensures { OnOk result (Adds (IsMarked line.now) note.old.items note.new.items) }
{
    let start = span.start.min(line.len());
    let from = if start < FAR { 0 } else { start - AHEAD };
    let to = line.len().min(from + WIDTH);
    let marks = span.len.min(to - start).max(1);
    add_visible(note, &line[from..to])?;
    add_marks(note, start - from, marks)
}

// Appends this piece of a line, as it can be shown.
fn add_visible(note: &mut Vec<u8>, piece: &[u8]) -> Result<(), AllocError>
    ensures { OnOk result
        (note.new.items ≡ note.old.items ++ codes "  " ++ map seen_as piece.now ++ codes "\n") }
{
    note.extend_from_slice(b"  ")?;
    for byte in piece {
        note.push(visible(*byte))?;
    }
    note.push(b'\n')?;
    Ok(())
}

fn visible(byte: u8) -> u8
    ensures { result ≡ seen_as byte }
{
    if b' ' <= byte && byte <= b'~' {
        byte
    } else {
        b'?'
    }
}

// Appends so many marks after so many spaces.
fn add_marks(note: &mut Vec<u8>, spaces: usize, marks: usize) -> Result<(), AllocError>
    ensures { OnOk result (note.new.items
        ≡ note.old.items ++ codes "  " ++ replicate spaces 32 ++ replicate marks 94 ++ codes "\n") }
{
    note.extend_from_slice(b"  ")?;
    add_times(note, b' ', spaces)?;
    add_times(note, b'^', marks)?;
    note.push(b'\n')?;
    Ok(())
}

// Appends a byte so many times.
fn add_times(note: &mut Vec<u8>, byte: u8, times: usize) -> Result<(), AllocError>
    ensures { OnOk result (note.new.items ≡ note.old.items ++ replicate times byte) }
{
    for _ in 0..times {
        note.push(byte)?;
    }
    Ok(())
}
