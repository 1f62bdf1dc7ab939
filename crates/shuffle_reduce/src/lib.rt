//! The reduce side of an inverted index: the runs of a part are merged into its result, and the results
//! into the index.
//!
//! Upward the layer promises: `merge` gives just the pairs of its runs, rising, each once. `merge_paced` does
//! the same, and tells a caller's `Pace` that it goes on. `covers` tells exactly whether a result is of the
//! texts asked for. `finish` gives the sequential index of the texts, or says that a part is double or
//! missing. It stands on the runs of `word_map`, whose type keeps that their pairs are right.
#![tactic(auto)]

mod counts;
mod covers;
mod gather;
mod index;
pub mod laws;
mod part;

pub use covers::are_equal_texts;
pub use index::{FinishError, Index, are_ready, finish};
pub use part::{PartResult, are_of_part, merge, merge_paced};
pub use word_map::Entry;
