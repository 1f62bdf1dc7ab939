ghost use Rattle.std.specs.Prelude.{List, OnErr, OnOk, ℕ, string_bytes};
ghost use Rattle.std.specs.Io.KnownBytes.{Appends};
ghost use Rattle.text_lines.specs.Streams.{AppendsFront};

use std::io::Write;
use text_lines::{WriteError, write_text};

/// The lines of an answer. All that is left to do is to write them: no memory is asked for any more.
pub trait AnswerLines {
    ghost bytes: { Self → List ℕ };

    /// Writes the lines, and flushes.
    fn write_to<W: Write>(self, writer: &mut W) -> Result<(), WriteError>
        ensures ok { OnOk result (Appends (W.contents writer.old) (W.contents writer.new) (bytes self)) }
        ensures err { OnErr result
            (AppendsFront (W.contents writer.old) (W.contents writer.new) (bytes self)) };
}

impl AnswerLines for String {
    ghost bytes = { string_bytes };

    fn write_to<W: Write>(self, writer: &mut W) -> Result<(), WriteError> {
        write_text(writer, self.as_bytes())
    }
}
