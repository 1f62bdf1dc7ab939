ghost use Rattle.tools.specs.Explanation.{HasExplained};

use command_runner::ToolError;
use explanations::{Entry, said};
use std::alloc::Global;
use std::io::Write;
use text_lines::write_text;

/// Writes what this entry of the table of explanations says, or what each of them says. All lines are made
/// before their first byte is written.
pub fn explain<W: Write>(
    alloc: Global,
    writer: &mut W,
    entry: Option<Entry>,
) -> Result<(), ToolError>
    ensures { HasExplained entry (W.contents writer.old) (W.contents writer.new) result }
{
    let lines = said(alloc, entry)?;
    write_text(writer, lines.as_bytes())?;
    Ok(())
}
