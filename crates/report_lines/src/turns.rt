//! What stands in a report up to the orders of its last `copies`.
ghost use Rattle.std.specs.Prelude.{◌≡◌, ◌<◌, ◌≤◌, ◌++◌, ◌∷◌, [], OnErr, OnOk, length, string_bytes};
ghost use Rattle.std.specs.List.{flat_map};
ghost use Rattle.text_lines.specs.Streams.{AppendsFront, Moves};
ghost use Rattle.block_map.specs.Copies.{copy_at, holdings, one_or_none};
ghost use Rattle.report_lines.specs.Lines.{copy_line};
ghost use Rattle.report_lines.specs.Past.{IsSound, copies_of};
ghost use Rattle.report_lines.specs.Reports.{turns_lines};
ghost use Rattle.report_lines.specs.Rising.{IsRising};

use crate::own_names::OwnNames;
use crate::past::Past;
use crate::replaying::go_on;
use crate::tables::{Story, Tables};
use block_map::CopyOrder;
use command_runner::Piece;
use node_ids::SplitNo;
use std::alloc::{AllocError, Global};
use std::io::Write;
use std::marker::Model;
use text_lines::WriteError;

/// What stands in a report from one `copies` to the orders of the next one, and how many events came before
/// these.
#[derive(Drop)]
pub struct Turn {
    before: String,
    events: u32,
}

/// All turns of a report.
#[derive(Drop)]
pub struct Turns {
    turns: Vec<Turn>,
    /// How many events came before the last turn.
    seen: u32,
}

impl Model for Turns {
    ghost use Rattle.report_lines.specs.ToldTurn.{ToldTurns};

    ghost Value = { ToldTurns };

    ghost use Rattle.report_lines.specs.Turns.{all_told, AreInTurn};

    ghost view = { all_told };

    ghost invariant = { AreInTurn };
}

impl Turns {
    /// No turn.
    pub(crate) fn new(alloc: Global) -> Turns
        ensures { result ≡ record { each = []; seen = 0 } }
    {
        Turns {
            turns: Vec::new(alloc),
            seen: 0,
        }
    }

    /// A law of turns: no turn had fewer events than the one before.
    pub(crate) fn are_in_turn(&self)
        ensures { IsRising 0 self.now.each self.now.seen }
    {
        // (a look at a field shows it)
        let _seen = self.seen;
    }

    /// Adds a turn.
    pub(crate) fn push(&mut self, before: String, events: u32) -> Result<(), AllocError>
        requires { self.old.seen ≤ events }
        ensures { OnOk result (self.new ≡ record {
          each = self.old.each ++ record { before = string_bytes before; events = events } ∷ [];
          seen = events;
        }) }
    {
        self.turns.push(Turn { before, events })?;
        self.seen = events;
        Ok(())
    }

    /// Puts the lines of each turn after the bytes that wait. No call takes memory.
    pub(crate) fn put<W: Write>(
        &self,
        piece: &mut Piece,
        writer: &mut W,
        splits: &OwnNames,
        workers: &OwnNames,
        past: Past,
    ) -> Result<(), WriteError>
        ensures ok { OnOk result (Moves (W.contents writer.old) (W.contents writer.new)
            (piece.old ++ turns_lines splits.now workers.now past self.now.each) piece.new) }
        ensures err { OnErr result (AppendsFront (W.contents writer.old) (W.contents writer.new)
            (piece.old ++ turns_lines splits.now workers.now past self.now.each)) }
    {
        let (story, mut tables) = past.into_parts();
        let mut done = 0;
        for turn in &self.turns {
            let events = turn.events as usize;
            go_on(&mut tables, &story, done, events);
            put_turn(piece, writer, splits, workers, &story, &tables, turn)?;
            done = events;
        }
        Ok(())
    }
}

// The lines of a turn, where these are the tables after its events.
fn put_turn<W: Write>(
    piece: &mut Piece,
    writer: &mut W,
    splits: &OwnNames,
    workers: &OwnNames,
    story: &Story,
    tables: &Tables,
    turn: &Turn,
) -> Result<(), WriteError>
    requires { IsSound story.now.tree tables.now }
    ensures ok { OnOk result (Moves (W.contents writer.old) (W.contents writer.new)
        (piece.old ++ (string_bytes turn.now.before ++ flat_map (copy_line splits.now workers.now)
        (copies_of story.now.tree story.now.target tables.now))) piece.new) }
    ensures err { OnErr result (AppendsFront (W.contents writer.old) (W.contents writer.new)
        (piece.old ++ (string_bytes turn.now.before ++ flat_map (copy_line splits.now workers.now)
        (copies_of story.now.tree story.now.target tables.now)))) }
{
    piece.put(writer, turn.before.as_bytes())?;
    put_copies(piece, writer, splits, workers, story, tables)
}

// A line for each split that wants a copy.
fn put_copies<W: Write>(
    piece: &mut Piece,
    writer: &mut W,
    splits: &OwnNames,
    workers: &OwnNames,
    story: &Story,
    tables: &Tables,
) -> Result<(), WriteError>
    requires { IsSound story.now.tree tables.now }
    ensures ok { OnOk result (Moves (W.contents writer.old) (W.contents writer.new)
        (piece.old ++ flat_map (copy_line splits.now workers.now)
        (copies_of story.now.tree story.now.target tables.now)) piece.new) }
    ensures err { OnErr result (AppendsFront (W.contents writer.old) (W.contents writer.new)
        (piece.old ++ flat_map (copy_line splits.now workers.now)
        (copies_of story.now.tree story.now.target tables.now))) }
{
    for number in 0..tables.holders.splits() {
        let split = SplitNo::new(number as u32);
        put_copy_at(piece, writer, splits, workers, story, tables, split)?;
    }
    Ok(())
}

// The line of a split, if it wants a copy.
fn put_copy_at<W: Write>(
    piece: &mut Piece,
    writer: &mut W,
    splits: &OwnNames,
    workers: &OwnNames,
    story: &Story,
    tables: &Tables,
    split: SplitNo,
) -> Result<(), WriteError>
    requires sound { IsSound story.now.tree tables.now }
    requires split { split < length tables.now.holders }
    ensures ok { OnOk result (Moves (W.contents writer.old) (W.contents writer.new)
        (piece.old ++ flat_map (copy_line splits.now workers.now) (one_or_none (copy_at
        (holdings tables.now.workers story.now.tree tables.now.holders story.now.target) split)))
        piece.new) }
    ensures err { OnErr result (AppendsFront (W.contents writer.old) (W.contents writer.new)
        (piece.old ++ flat_map (copy_line splits.now workers.now) (one_or_none (copy_at
        (holdings tables.now.workers story.now.tree tables.now.holders story.now.target) split)))) }
{
    let Tables {
        workers: table,
        holders,
    } = tables;
    match holders.copy_order(table, &story.tree, story.target, split) {
        Some(order) => put_copy(piece, writer, splits, workers, order),
        None => Ok(()),
    }
}

fn put_copy<W: Write>(
    piece: &mut Piece,
    writer: &mut W,
    splits: &OwnNames,
    workers: &OwnNames,
    order: CopyOrder,
) -> Result<(), WriteError>
    ensures ok { OnOk result (Moves (W.contents writer.old) (W.contents writer.new)
        (piece.old ++ copy_line splits.now workers.now order) piece.new) }
    ensures err { OnErr result (AppendsFront (W.contents writer.old) (W.contents writer.new)
        (piece.old ++ copy_line splits.now workers.now order)) }
{
    let split = splits.name_or_empty(order.split.index());
    let from = workers.name_or_empty(order.from.index());
    let to = workers.name_or_empty(order.to.index());
    let words: [&[u8]; 7] = [b"copy ", split, b" ", from, b" ", to, b"\n"];
    piece.put_all(writer, &words)
}
