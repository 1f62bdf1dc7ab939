ghost use Rattle.std.specs.Prelude.{◌≡◌, ◌++◌, IfOk, OnOk, map, string_bytes};
ghost use Rattle.std.specs.Option.{option_map};
ghost use Rattle.explanations.specs.Table.{line_of, lines_of, row_named, row_of, said as said_of, table};

use std::alloc::{AllocError, Global};

/// What a line of the table tells of, and what it means.
#[derive(Clone, Copy, Debug, PartialEq, Eq)]
pub struct Entry {
    /// `fault`, `condition`, `ignored` or `status`.
    pub kind: &'static str,
    /// Its number, of a condition its name.
    pub name: &'static str,
    /// What it means.
    pub sentence: &'static str,
}

// Faults, conditions, the reasons of ignored commands, statuses.
const ENTRIES: [Entry; 44] = [
    Entry {
        kind: "fault",
        name: "1",
        sentence: "the first word is no keyword, or what follows it has not the keyword's shape",
    },
    Entry {
        kind: "fault",
        name: "2",
        sentence: "a word in a name's place is no name",
    },
    Entry {
        kind: "fault",
        name: "3",
        sentence: "a name that is used is not declared, or is of another kind",
    },
    Entry {
        kind: "fault",
        name: "4",
        sentence: "a name, a setting, a barred pair, a dead worker, a busy split or a worker's places are declared twice",
    },
    Entry {
        kind: "fault",
        name: "5",
        sentence: "a number is out of its range, or prices of places fall",
    },
    Entry {
        kind: "fault",
        name: "6",
        sentence: "there are more centres, racks, workers, splits, holders, documents or commands than there may be",
    },
    Entry {
        kind: "fault",
        name: "7",
        sentence: "a line stands where it may not, the first line is another text's, or `end` is missing",
    },
    Entry {
        kind: "fault",
        name: "8",
        sentence: "a holder stands twice in one `split` line, or a split twice in one `join` line",
    },
    Entry {
        kind: "fault",
        name: "9",
        sentence: "a split is started twice, or a name is priced twice",
    },
    Entry {
        kind: "fault",
        name: "10",
        sentence: "a split or a worker has no price at `end`",
    },
    Entry {
        kind: "fault",
        name: "11",
        sentence: "the text has more than 16,777,216 bytes, or 268,435,456 in version 3",
    },
    Entry {
        kind: "fault",
        name: "12",
        sentence: "the last line has no line feed",
    },
    Entry {
        kind: "fault",
        name: "13",
        sentence: "a byte is not printable ASCII",
    },
    Entry {
        kind: "fault",
        name: "14",
        sentence: "a line stands after `end`",
    },
    Entry {
        kind: "condition",
        name: "C1",
        sentence: "a started split is pending and has a live holder",
    },
    Entry {
        kind: "condition",
        name: "C2",
        sentence: "the worker of a started split lives, and the pair is not barred",
    },
    Entry {
        kind: "condition",
        name: "C3",
        sentence: "no worker has more starts than free slots",
    },
    Entry {
        kind: "condition",
        name: "C4",
        sentence: "no price is above K, the reward of a start",
    },
    Entry {
        kind: "condition",
        name: "C5",
        sentence: "the two prices and the cost of each admissible pair come to at least K",
    },
    Entry {
        kind: "condition",
        name: "C6",
        sentence: "the two prices and the cost of each started pair come to K",
    },
    Entry {
        kind: "condition",
        name: "C7",
        sentence: "a split that is not started has the price 0",
    },
    Entry {
        kind: "condition",
        name: "C8",
        sentence: "a worker's price is at least its last taken place's and at most its next one's (0 if free)",
    },
    Entry {
        kind: "ignored",
        name: "1",
        sentence: "no split and no part runs the attempt",
    },
    Entry {
        kind: "ignored",
        name: "2",
        sentence: "the worker is dead",
    },
    Entry {
        kind: "ignored",
        name: "3",
        sentence: "the worker lives",
    },
    Entry {
        kind: "ignored",
        name: "4",
        sentence: "the worker holds the split",
    },
    Entry {
        kind: "ignored",
        name: "5",
        sentence: "the worker does not hold the split",
    },
    Entry {
        kind: "ignored",
        name: "6",
        sentence: "a split has eight holders, or sixteen in version 3",
    },
    Entry {
        kind: "ignored",
        name: "7",
        sentence: "the reduce attempt or the backup may not start now",
    },
    Entry {
        kind: "ignored",
        name: "8",
        sentence: "the result is of another text, part or number of parts",
    },
    Entry {
        kind: "ignored",
        name: "9",
        sentence: "no place is left for the event, the attempts or the sweep",
    },
    Entry {
        kind: "ignored",
        name: "10",
        sentence: "memory is wanting",
    },
    Entry {
        kind: "ignored",
        name: "11",
        sentence: "the last call of its hand does not stand in this history",
    },
    Entry {
        kind: "ignored",
        name: "12",
        sentence: "the split does not run, runs two attempts, or runs on the worker",
    },
    Entry {
        kind: "ignored",
        name: "13",
        sentence: "the pair is barred",
    },
    Entry {
        kind: "status",
        name: "0",
        sentence: "planned, certified, explained, every part is done, or help",
    },
    Entry {
        kind: "status",
        name: "1",
        sentence: "a condition fails: `refused CONDITION PLACE`; or not every part is done: `stuck N`",
    },
    Entry {
        kind: "status",
        name: "2",
        sentence: "the text has a fault: `line N: fault F`",
    },
    Entry {
        kind: "status",
        name: "3",
        sentence: "want of memory",
    },
    Entry {
        kind: "status",
        name: "4",
        sentence: "a read or a write failed",
    },
    Entry {
        kind: "status",
        name: "5",
        sentence: "more than 1,000,000 attempts of a script, or no place left in a job's history",
    },
    Entry {
        kind: "status",
        name: "6",
        sentence: "a job's history is not made of its threads' calls, or a thread could not be started",
    },
    Entry {
        kind: "status",
        name: "64",
        sentence: "usage: no command is asked for, or a direct network past 1,024 splits or 256 workers or with prices of places",
    },
    Entry {
        kind: "status",
        name: "141",
        sentence: "the reader of the answer has gone",
    },
];

/// The whole table, in its order: faults, conditions, the reasons of ignored commands, statuses.
#[tactic(auto, unfolding(crate::specs::Table::table))]
pub fn entries() -> &'static [Entry]
    ensures { map row_of result.now ≡ table }
{
    &ENTRIES
}

/// What a name of this kind means, if it is in the table.
pub fn entry_named(kind: &str, name: &str) -> Option<Entry>
    ensures { option_map row_of result ≡ row_named table kind.now name.now }
{
    found(entries(), kind, name)
}

// The first of these entries with this kind and name.
fn found(entries: &[Entry], kind: &str, name: &str) -> Option<Entry>
    ensures { option_map row_of result ≡ row_named (map row_of entries.now) kind.now name.now }
{
    for entry in entries {
        if entry.kind == kind && entry.name == name {
            return Some(*entry);
        }
    }
    None
}

/// What the table says of this entry: its line. Without one, all lines.
pub fn said(alloc: Global, entry: Option<Entry>) -> Result<String, AllocError>
    ensures { IfOk result (λ lines. string_bytes lines ≡ said_of table (option_map row_of entry)) }
{
    let mut lines = String::new(alloc);
    match entry {
        Some(entry) => add_line(&mut lines, entry)?,
        None => add_lines(&mut lines, entries())?,
    }
    Ok(lines)
}

/// Appends a line of the table.
pub fn add_line(lines: &mut String, entry: Entry) -> Result<(), AllocError>
    ensures { OnOk result (string_bytes lines.new ≡ string_bytes lines.old ++ line_of (row_of entry)) }
{
    let Entry {
        kind,
        name,
        sentence,
    } = entry;
    write!(lines, "{kind} {name}: {sentence}\n")
}

// Appends the lines of these entries.
fn add_lines(lines: &mut String, entries: &[Entry]) -> Result<(), AllocError>
    ensures { OnOk result (string_bytes lines.new
        ≡ string_bytes lines.old ++ lines_of (map row_of entries.now)) }
{
    for entry in entries {
        add_line(lines, *entry)?;
    }
    Ok(())
}
