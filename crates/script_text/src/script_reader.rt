ghost use Rattle.std.specs.Prelude.{◌≡◌, ◌≤◌, ◌⊎◌, All, IfErr, IfOk, length};
ghost use Rattle.line_shapes.specs.declared.keyword.Keyword.TheVariants.{Target};
ghost use Rattle.line_rules.specs.Entering.{most_workers};
ghost use Rattle.line_rules.specs.Reading.{IsReadingError};
ghost use Rattle.line_rules.specs.declared.edition.Version.TheVariants.{Three};
ghost use Rattle.line_rules.specs.declared.purpose.Purpose.TheVariants.{Playing, Running};
ghost use Rattle.plan_text.specs.Tidy.{AreTidy};
ghost use Rattle.script_text.specs.Heads.{FitMaster, IsFitHead, MakesHead};
ghost use Rattle.script_text.specs.Commands.{SayCommands};
ghost use Rattle.script_text.specs.Naming.{AreNames};
ghost use Rattle.script_text.specs.Ready.{IsWholeCommand, told_names};
ghost use Rattle.script_text.specs.Scripts.{Declares, IsOfHead, IsOpening, IsScriptOf, IsTarget};
ghost use Rattle.script_text.specs.Settings.{setting};

use crate::commands::commands_of;
use crate::heads::build_head;
use crate::naming::{all_names, setting_of};
use crate::script::{Script, ScriptText};
use line_rules::{CommandList, KnownLines, Purpose, ReadingError, read_lines};
use line_shapes::Keyword;
use plan_text::TidyRows;
use std::alloc::{AllocError, Global};

/// The head and the script that a text declares, or the text's least fault. It borrows its names from the
/// text.
pub fn read_script(alloc: Global, text: &[u8]) -> Result<ScriptText<'_>, ReadingError>
    ensures ok { IfOk result (IsScriptOf Playing text.entry.now) }
    ensures fit { IfOk result (λ value. IsFitHead value.head) }
    ensures known { IfOk result (λ value. IsOfHead value.head value.script) }
    ensures target { IfOk result (λ value. IsTarget value.script.target) }
    ensures err { IfErr result (IsReadingError Playing text.entry.now) }
{
    read_for(alloc, Purpose::Playing, text)
}

/// The job that a text declares, or the text's least fault. It borrows its names from the text.
pub fn read_job(alloc: Global, text: &[u8]) -> Result<ScriptText<'_>, ReadingError>
    ensures ok { IfOk result (IsScriptOf Running text.entry.now) }
    ensures fit { IfOk result (λ value. IsFitHead value.head) }
    ensures known { IfOk result (λ value. IsOfHead value.head value.script) }
    ensures target { IfOk result (λ value. IsTarget value.script.target) }
    ensures few { IfOk result (λ value. length value.head.slots.items ≤ 1024) }
    ensures err { IfErr result (IsReadingError Running text.entry.now) }
{
    read_for(alloc, Purpose::Running, text)
}

/// What the head of a script declares, and what is known after its `begin`; or the text's least fault. The
/// text is the head with an `end` behind it. Both values borrow their names from it.
pub fn read_opening(
    alloc: Global,
    text: &[u8],
) -> Result<(ScriptText<'_>, KnownLines<'_>), ReadingError>
    ensures ok { IfOk result (λ read. IsOpening text.entry.now read.0 read.1) }
    ensures fit { IfOk result (λ read. IsFitHead read.0.head) }
    ensures known { IfOk result (λ read. IsOfHead read.0.head read.0.script) }
    ensures target { IfOk result (λ read. IsTarget read.0.script.target) }
    ensures err { IfErr result (IsReadingError Playing text.entry.now) }
{
    let mut known = read_lines(alloc, Purpose::Playing, text)?;
    let script = script_of(alloc, &known)?;
    known.reopen();
    Ok((script, known))
}

// What a text declares, by the rules of what it is read for.
fn read_for(alloc: Global, purpose: Purpose, text: &[u8]) -> Result<ScriptText<'_>, ReadingError>
    requires { (purpose ≡ Playing) ⊎ (purpose ≡ Running) }
    ensures ok { IfOk result (IsScriptOf purpose text.entry.now) }
    ensures fit { IfOk result (λ value. IsFitHead value.head) }
    ensures known { IfOk result (λ value. IsOfHead value.head value.script) }
    ensures target { IfOk result (λ value. IsTarget value.script.target) }
    ensures few { IfOk result (λ value. length value.head.slots.items ≤ most_workers Three purpose) }
    ensures err { IfErr result (IsReadingError purpose text.entry.now) }
{
    let known = read_lines(alloc, purpose, text)?;
    Ok(script_of(alloc, &known)?)
}

// What the lines that were read declare.
fn script_of<'t>(alloc: Global, known: &KnownLines<'t>) -> Result<ScriptText<'t>, AllocError>
    requires tidy { AreTidy known.now.rows }
    requires few { FitMaster known.now.rows }
    requires ready { All (IsWholeCommand (told_names known.now.rows)) known.now.commands }
    ensures script { IfOk result (λ value. Declares known.now value.script) }
    ensures head { IfOk result (λ value. MakesHead known.now.version known.now.rows value.head) }
    ensures fit { IfOk result (λ value. IsFitHead value.head) }
{
    let rows = TidyRows::new(known);
    let head = build_head(alloc, known.version(), &rows)?;
    let script = build_script(alloc, &rows, known.commands())?;
    Ok(ScriptText { head, script })
}

// The script of these commands.
fn build_script<'t>(
    alloc: Global,
    rows: &TidyRows<'_, 't>,
    lines: &CommandList<'_>,
) -> Result<Script<'t>, AllocError>
    requires few { FitMaster rows.now }
    requires ready { All (IsWholeCommand (told_names rows.now)) lines.now }
    ensures names { IfOk result (λ script. AreNames rows.now script.names) }
    ensures target { IfOk result (λ script. script.target ≡ setting Target 3 rows.now) }
    ensures commands { IfOk result (λ script. SayCommands script.names lines.now script.commands.items) }
{
    rows.are_tidy();
    let names = all_names(alloc, rows)?;
    let commands = commands_of(alloc, &names, lines)?;
    Ok(Script {
        names,
        target: setting_of(rows, Keyword::Target, 3) as usize,
        commands,
    })
}
