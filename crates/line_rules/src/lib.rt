//! The rules of lines: where in a text a line may stand, and what it may say in view of the lines before it.
//!
//! The rules are tables over the keywords of `line_shapes`. They say in which section of a text and in
//! which version a line may stand (`specs/Sections.antt`), which words are names in that version
//! (`specs/Names.antt`), by which words a line is entered, and how many such lines there may be
//! (`specs/Entering.antt`). What a line says, a keyword and its words, is a statement
//! (`KeyedLine`), and a statement that is entered is a row. `Rows` finds a row by its keyword and its number
//! among the rows of that keyword, and the number by the words by which the row was entered. It keeps a
//! barred pair by the numbers of its split and its worker, since a text may bar each of their pairs. A word
//! that is a key alone stands in a hash table with chains (`specs/WordTable.antt`).
//! `KnownLines` holds the rows and answers the least fault of the next line. It keeps the numbers of the
//! holders of splits too (`specs/Holders.antt`), which are found as the names are tested. Each fault is one
//! definition over the places of a line (`specs/Faults.antt`) and one test in the code. `fit_line` reads one
//! line more and enters nothing. `read_lines` reads and enters all lines of a text, or answers its least
//! fault (`specs/Texts.antt`), and `fault_answer` makes the line that tells the fault. Above the crate
//! `plan_text` and `script_text` make values of the rows.
#![tactic(auto)]

pub mod answer;
pub mod command_list;
pub mod edition;
pub mod entering;
mod fit;
mod holders;
pub mod known;
pub mod line_list;
pub mod line_reader;
mod long;
pub mod one_line;
pub mod purpose;
mod rising;
pub mod rows;
pub mod rule;
pub mod rules;
pub mod section;
mod word_table;

pub use answer::fault_answer;
pub use command_list::CommandList;
pub use edition::{Edition, Version};
pub use entering::{Entering, Follow};
pub use known::KnownLines;
pub use line_list::LineList;
pub use line_reader::{LineError, ReadingError, read_lines};
pub use one_line::fit_line;
pub use purpose::Purpose;
pub use rows::{Row, Rows};
pub use rule::Rule;
pub use section::Section;
