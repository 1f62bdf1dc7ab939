//! What the numbers that `mrjob` writes mean: of faults, conditions, ignored commands and statuses.
//!
//! One table has a sentence for each number (`specs/Table.antt`), the same as in docs/MODEL.md. A line of
//! the table is found by its words, and all lines together are one text. The crate stands on `std` alone;
//! above it `command_line` finds the line that is asked for, and `tools` writes it.
#![tactic(auto)]

mod table;

pub use table::{Entry, add_line, entries, entry_named, said};
