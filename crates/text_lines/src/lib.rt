//! Texts: lists of lines, each ended by one line feed, of words with one space between.
//!
//! A whole text is read from any reader within bounds, and written to any writer. Of a text the
//! layer tells its lines, words, names and numbers; tables number the names that a text declares;
//! and a fault of a text has a line and a number. The definitions are in `specs/Texts.antt`. Above
//! it stand the readers of problems, plans, scripts and jobs; below it only std, `indexmap` and `memchr`.
#![tactic(auto)]

pub mod fault;
pub mod lines;
pub mod names;
pub mod number;
pub mod same;
pub mod streams;
pub mod tables;

pub use fault::{Fault, TextFault, fault_line};
pub use lines::{add_words, has_printable_lines, printable, printable_in, split_line, split_word};
pub use names::{is_long_name, is_name};
pub use number::{Number, value_in};
pub use same::are_same;
pub use streams::{
    MAX_READ_BYTES, MAX_READS, ReadError, WriteError, longest, read_text, write_text,
};
pub use tables::NameTable;
