ghost use Rattle.std.specs.Prelude.{◌≡◌, ⊤, ℕ, List, Err, IfOk};
ghost use Rattle.std.specs.declared.result.Result.{Result};
ghost use Rattle.text_lines.specs.declared.fault.TextFault.{TextFault};
ghost use Rattle.command_runner.specs.CommandRun.{HasOneAnswer, HasRun, NoText, WroteItsAnswer, outcome};

use crate::lines::AnswerLines;
use crate::tool_error::{NoAnswer, ToolError};
use std::alloc::Global;
use std::io::{Read, Write};
use text_lines::{TextFault, read_text};

/// A command that answers a text. `Answers` relates a text to the command's end and the lines that answer it.
/// Any two ends of one text are the `SameEnd`, and any two answers `Alike`; by default both mean equal.
/// `IsFull` says for which texts the command may run out of attempts; by default for none.
pub trait Command {
    /// How the command ends that was answered without a fault of its text.
    type End: Drop;

    /// What writes the lines of an answer.
    type Lines: AnswerLines + Drop;

    ghost ready: { Self → Type 0 } = { λ _. ⊤ };

    ghost Answers: { Self → List ℕ → Result Self.End TextFault → List ℕ → Type 0 };

    ghost SameEnd: { Result Self.End TextFault → Result Self.End TextFault → Type 0 } = { λ a b. a ≡ b };

    ghost Alike: { List ℕ → List ℕ → Type 0 } = { λ x y. x ≡ y };

    ghost IsFull: { Self → List ℕ → Type 0 } = { λ _. NoText };

    /// The lines that answer a text, and how the command ends with them.
    fn answer(
        &self,
        alloc: Global,
        text: &[u8],
    ) -> Result<(Self::Lines, Result<Self::End, TextFault>), NoAnswer>
        requires { ready self.now }
        ensures answers { IfOk result (λ given.
            Answers self.now text.now given.1 (Self.Lines.bytes given.0)) }
        ensures full { result ≡ Err NoAnswer.HistoryFull → IsFull self.now text.now };

    ghost one_answer: { (command : Self) → HasOneAnswer (Answers command) SameEnd Alike };
}

/// Reads a text, and writes the command's answer to it. All that asks for memory is done before the first byte
/// is written.
pub fn run_command<C: Command, R: Read, W: Write>(
    command: &C,
    alloc: Global,
    reader: &mut R,
    writer: &mut W,
) -> Result<C::End, ToolError>
    requires { C.ready command.now }
    ensures ran { HasRun (C.Answers command.now) (C.IsFull command.now) (R.remaining reader.old)
        (R.remaining reader.new) (W.contents writer.old) (W.contents writer.new) result }
    ensures same { WroteItsAnswer (C.Answers command.now) C.SameEnd C.Alike (R.remaining reader.old)
        (W.contents writer.old) (W.contents writer.new) result }
{
    let text = read_text(alloc, reader)?;
    let (lines, end) = command.answer(alloc, text.as_slice())?;
    lines.write_to(writer)?;
    ended(end)
}

// What a command that answered the text ends with.
fn ended<E: Drop>(end: Result<E, TextFault>) -> Result<E, ToolError>
    ensures { result ≡ outcome end }
{
    match end {
        Ok(end) => Ok(end),
        Err(fault) => Err(ToolError::Text(fault)),
    }
}
