//! The shapes of lines: each line is a keyword and its words.
//!
//! What follows a keyword is a table of places (`specs/Places.antt`): a new name, a used name of a kind, a
//! number within its range, and what may follow these any number of times, or a text as it stands. The
//! keyword of a line is cut before its words. A fault of a line alone, without
//! a view of the lines before it, is one definition over the places (`specs/Demands.antt`) and one loop here.
//! Below stand the words, names and numbers of `text_lines`; no kind of text is known here.
#![tactic(auto)]

mod apart;
pub mod cut;
pub mod demand;
pub mod keyword;
pub mod line;
pub mod place;

pub use cut::cut_words;
pub use demand::{Demand, is_within, meets};
pub use keyword::{Keyword, keyword_of};
pub use line::{KeyedLine, said_by};
pub use place::{Kind, Place};
