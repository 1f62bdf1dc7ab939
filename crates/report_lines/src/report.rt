ghost use Rattle.std.specs.Prelude.{◌≡◌, ◌≤◌, ◌++◌, [], IfOk, List, OnErr, OnOk, length, string_bytes, ℕ};
ghost use Rattle.text_lines.specs.Texts.{Word};
ghost use Rattle.report_lines.specs.Lines.{copy_lines};
ghost use Rattle.report_lines.specs.Past.{PastView, copies_at};
ghost use Rattle.report_lines.specs.Reports.{made_bytes, report_bytes, turns_bytes};
ghost use Rattle.text_lines.specs.Streams.{AppendsFront, Moves};
ghost use Rattle.report_lines.specs.Rising.{IsRising};

use crate::own_names::OwnNames;
use crate::past::Past;
use crate::turns::Turns;
use command_runner::{AnswerLines, Piece};
use std::alloc::{AllocError, Global};
use std::io::Write;
use std::mem::replace;
use text_lines::{NameTable, WriteError};

/// The lines of a report while it is made. Of a `copies` is kept how many events came before it.
#[derive(Drop)]
pub struct ReportLines {
    pub turns: Turns,
    /// The lines since the orders of the last `copies`.
    pub last: String,
}

impl ReportLines {
    /// No lines.
    pub fn new(alloc: Global) -> ReportLines
        ensures lines { (splits workers : List Word) (past : PastView)
            → report_bytes splits workers past result ≡ [] }
        ensures seen { result.turns.seen ≡ 0 }
    {
        ReportLines {
            turns: Turns::new(alloc),
            last: String::new(alloc),
        }
    }

    /// A law of the lines: no `copies` had fewer events before it than the one before.
    pub fn are_in_turn(&self)
        ensures { IsRising 0 self.now.turns.each self.now.turns.seen }
    {
        self.turns.are_in_turn();
    }

    /// Adds the line of a `copies` that came after so many events and orders so many copies.
    pub fn add_copies(&mut self, alloc: Global, count: usize, events: u32) -> Result<(), AllocError>
        requires { self.old.turns.seen ≤ events }
        ensures seen { OnOk result (self.new.turns.seen ≡ events) }
        ensures lines { (splits workers : List Word) (past : PastView)
            → count ≡ length (copies_at past events)
            → OnOk result (report_bytes splits workers past self.new
            ≡ report_bytes splits workers past self.old
            ++ copy_lines splits workers (copies_at past events)) }
    {
        write!(self.last, "copies {count}\n")?;
        let before = replace(&mut self.last, String::new(alloc));
        self.turns.push(before, events)
    }
}

/// A report that is made. Writing it takes no memory.
#[derive(Drop)]
pub struct MadeReport {
    splits: OwnNames,
    workers: OwnNames,
    lines: ReportLines,
    /// The past of the master, of which the orders of copies are made; a text in place of a report has none.
    past: Option<Past>,
    piece: Piece,
}

impl MadeReport {
    /// The report of these lines, by these names, whose copies are told of this past.
    pub fn new(
        alloc: Global,
        splits: &NameTable<'_>,
        workers: &NameTable<'_>,
        lines: ReportLines,
        past: Past,
    ) -> Result<MadeReport, AllocError>
        ensures { IfOk result (λ made.
            made_bytes made ≡ report_bytes splits.now workers.now past lines) }
    {
        Ok(MadeReport {
            splits: OwnNames::of(alloc, splits)?,
            workers: OwnNames::of(alloc, workers)?,
            lines,
            past: Some(past),
            piece: Piece::new(alloc)?,
        })
    }

    /// A text in place of a report.
    pub fn of_text(alloc: Global, text: String) -> Result<MadeReport, AllocError>
        ensures { IfOk result (λ made. made_bytes made ≡ string_bytes text) }
    {
        let lines = ReportLines {
            turns: Turns::new(alloc),
            last: text,
        };
        Ok(MadeReport {
            splits: OwnNames::none(alloc),
            workers: OwnNames::none(alloc),
            lines,
            past: None,
            piece: Piece::new(alloc)?,
        })
    }
}

impl AnswerLines for MadeReport {
    ghost bytes = { made_bytes };

    fn write_to<W: Write>(self, writer: &mut W) -> Result<(), WriteError> {
        let MadeReport {
            splits,
            workers,
            lines,
            past,
            mut piece,
        } = self;
        put_turns(&mut piece, writer, &splits, &workers, &lines.turns, past)?;
        piece.put(writer, lines.last.as_bytes())?;
        piece.finish(writer)
    }
}

// The lines of all turns, where there is a past.
fn put_turns<W: Write>(
    piece: &mut Piece,
    writer: &mut W,
    splits: &OwnNames,
    workers: &OwnNames,
    turns: &Turns,
    past: Option<Past>,
) -> Result<(), WriteError>
    ensures ok { OnOk result (Moves (W.contents writer.old) (W.contents writer.new)
        (piece.old ++ turns_bytes splits.now workers.now past turns.now.each) piece.new) }
    ensures err { OnErr result (AppendsFront (W.contents writer.old) (W.contents writer.new)
        (piece.old ++ turns_bytes splits.now workers.now past turns.now.each)) }
{
    match past {
        Some(past) => turns.put(piece, writer, splits, workers, past),
        None => Ok(()),
    }
}
