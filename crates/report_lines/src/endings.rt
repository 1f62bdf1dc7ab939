ghost use Rattle.std.specs.Prelude.{◌≡◌, ◌++◌, OnOk, [], if◌then◌else◌, count_by, length, not, string_bytes};
ghost use Rattle.master_state.specs.Tests.{is_done};
ghost use Rattle.report_lines.specs.Lines.{found_line, index_count, index_lines, open_line, stuck_lines};
ghost use Rattle.report_lines.specs.Lines.{word_lines};

use master_state::SplitState;
use std::alloc::AllocError;
use text_lines::NameTable;
use word_map::Entry;

/// How many words the index has, and each word with its documents.
pub fn add_index(
    lines: &mut String,
    documents: &NameTable<'_>,
    entries: &[Entry],
) -> Result<(), AllocError>
    ensures { OnOk result (string_bytes lines.new
        ≡ string_bytes lines.old ++ index_lines documents.now entries.now) }
{
    add_index_count(lines, entries.len())?;
    add_words(lines, documents, entries)
}

/// How many words an index has.
pub fn add_index_count(lines: &mut String, count: usize) -> Result<(), AllocError>
    ensures { OnOk result (string_bytes lines.new ≡ string_bytes lines.old ++ index_count count) }
{
    write!(lines, "index {count}\n")
}

/// Each word with its documents.
pub fn add_words(
    lines: &mut String,
    documents: &NameTable<'_>,
    entries: &[Entry],
) -> Result<(), AllocError>
    ensures { OnOk result (string_bytes lines.new
        ≡ string_bytes lines.old ++ word_lines documents.now entries.now) }
{
    for entry in entries {
        add_found(lines, documents, entry)?;
    }
    Ok(())
}

fn add_found(lines: &mut String, documents: &NameTable<'_>, entry: &Entry) -> Result<(), AllocError>
    ensures { OnOk result (string_bytes lines.new
        ≡ string_bytes lines.old ++ found_line documents.now entry.now) }
{
    lines.push_str("word ")?;
    lines.push_str(entry.word())?;
    for document in entry.documents() {
        lines.push_str(" ")?;
        lines.push_str(documents.name_or_empty(document.index()))?;
    }
    lines.push_str("\n")
}

/// How many splits are not done, and which, by number.
pub fn add_stuck(
    lines: &mut String,
    splits: &NameTable<'_>,
    states: &[SplitState],
) -> Result<(), AllocError>
    requires { length splits.now ≡ length states.now }
    ensures { OnOk result (string_bytes lines.new
        ≡ string_bytes lines.old ++ stuck_lines splits.now states.now) }
{
    let count = open_count(states);
    write!(lines, "stuck {count}\n")?;
    for number in 0..states.len() {
        add_open(lines, splits, number, is_open(&states[number]))?;
    }
    Ok(())
}

// A line for a split that is not done.
pub(crate) fn add_open(
    lines: &mut String,
    splits: &NameTable<'_>,
    number: usize,
    is_open: bool,
) -> Result<(), AllocError>
    ensures { OnOk result (string_bytes lines.new
        ≡ string_bytes lines.old ++ (if is_open then open_line splits.now number else [])) }
{
    if !is_open {
        return Ok(());
    }
    let split = splits.name_or_empty(number);
    write!(lines, "open {split}\n")
}

fn open_count(states: &[SplitState]) -> usize
    ensures { result ≡ count_by (λ state. not (is_done state)) states.now }
{
    states.iter().filter(|state| is_open(state)).count()
}

fn is_open(state: &SplitState) -> bool
    ensures { result ≡ not (is_done state.now) }
{
    !matches!(state, SplitState::Done(_))
}
