ghost use Rattle.std.specs.Prelude.{◌≡◌, ◌++◌, [], IfOk, OnErr, OnOk};
ghost use Rattle.std.specs.List.{flat_map};
ghost use Rattle.std.specs.Io.KnownBytes.{Appends};
ghost use Rattle.text_lines.specs.Streams.{AppendsFront, Moves};

use std::alloc::{AllocError, Global};
use std::io::Write;
use std::marker::Model;
use text_lines::{WriteError, write_text};

/// The most bytes that wait for the writer.
pub const PIECE_BYTES: usize = 65_536;

/// A buffer in front of a writer. It is written when the next bytes do not fit into it, so a long text takes few
/// calls. Only `new` asks for memory.
#[derive(Drop)]
pub struct Piece {
    waiting: Vec<u8>,
}

impl Model for Piece {
    ghost use Rattle.std.specs.Prelude.{◌≤◌, List, vec_capacity, vec_len, ℕ};
    ghost use Rattle.command_runner.specs.declared.pieces.TheConstants.{PIECE_BYTES};

    ghost Value = { List ℕ };

    ghost view = { λ p. p.waiting.items };

    ghost invariant = { λ p. (vec_len p.waiting ≤ PIECE_BYTES) × (PIECE_BYTES ≤ vec_capacity p.waiting) };
}

impl Piece {
    /// No byte waits, and there is room for `PIECE_BYTES`.
    pub fn new(alloc: Global) -> Result<Piece, AllocError>
        ensures { IfOk result (λ piece. piece ≡ []) }
    {
        Ok(Piece {
            waiting: Vec::with_capacity(alloc, PIECE_BYTES)?,
        })
    }

    /// Puts bytes behind the ones in the buffer.
    pub fn put<W: Write>(&mut self, writer: &mut W, bytes: &[u8]) -> Result<(), WriteError>
        ensures ok { OnOk result (Moves (W.contents writer.old) (W.contents writer.new)
            (self.old ++ bytes.now) self.new) }
        ensures err { OnErr result (AppendsFront (W.contents writer.old) (W.contents writer.new)
            (self.old ++ bytes.now)) }
    {
        if bytes.len() > PIECE_BYTES - self.waiting.len() {
            self.hand_on(writer)?;
            return write_text(writer, bytes);
        }
        let Ok(()) = self.waiting.extend_from_slice(bytes) else {
            unreachable!();
        };
        Ok(())
    }

    // The bytes that wait go to the writer.
    fn hand_on<W: Write>(&mut self, writer: &mut W) -> Result<(), WriteError>
        ensures ok { OnOk result
            (Appends (W.contents writer.old) (W.contents writer.new) self.old) }
        ensures none { self.new ≡ [] }
        ensures err { OnErr result (AppendsFront (W.contents writer.old) (W.contents writer.new) self.old) }
    {
        let written = write_text(writer, self.waiting.as_slice());
        self.waiting.clear();
        written
    }

    /// The texts come after the bytes that wait, one after another.
    pub fn put_all<W: Write>(&mut self, writer: &mut W, texts: &[&[u8]]) -> Result<(), WriteError>
        ensures ok { OnOk result (Moves (W.contents writer.old) (W.contents writer.new)
            (self.old ++ flat_map (λ text. text.now) texts.now) self.new) }
        ensures err { OnErr result (AppendsFront (W.contents writer.old) (W.contents writer.new)
            (self.old ++ flat_map (λ text. text.now) texts.now)) }
    {
        for text in texts {
            self.put(writer, text)?;
        }
        Ok(())
    }

    /// The bytes that still wait go to the writer.
    pub fn finish<W: Write>(self, writer: &mut W) -> Result<(), WriteError>
        ensures ok { OnOk result (Appends (W.contents writer.old) (W.contents writer.new) self) }
        ensures err { OnErr result (AppendsFront (W.contents writer.old) (W.contents writer.new) self) }
    {
        write_text(writer, self.waiting.as_slice())
    }
}
