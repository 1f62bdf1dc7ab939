//! The map side of an inverted index: the words of a split's documents, divided into parts.
//!
//! A word is a longest run of ASCII letters, in lower case, and its part is its hash modulo the number of
//! parts. Upward the layer promises that a `Run` holds just the pairs of a word and a document that its
//! text has for its part: its entries are the words, rising, each with its documents. The type keeps this,
//! so whoever has a run has its pairs right. `map_split` makes a run for each part; `map_split_paced` does the
//! same and tells a caller's `Pace` that it goes on; a `WordTable` gathers entries of any runs. It stands on
//! the numbers of `node_ids`, and on `indexmap`.
#![tactic(auto)]

mod distinct;
mod divide;
mod entry;
mod hash;
mod pace;
mod runs;
mod table;
mod text;
mod tokens;
mod word;

pub use entry::Entry;
pub use hash::part_of;
pub use pace::{Pace, Unpaced};
pub use runs::{MapResult, Run, map_split, map_split_paced};
pub use table::WordTable;
pub use text::{Document, SplitText, Text};
