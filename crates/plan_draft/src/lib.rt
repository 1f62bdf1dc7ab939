//! A plan that a client puts together line by line.
//!
//! A `Draft` keeps what was said of a plan so far: where splits start, and the prices of splits and of
//! workers. `take` takes a line `start` or `price` of a text to check, unless it says a second time what was
//! said before (`specs/Drafts.antt`). Once each price is said, `plan` gives the plan and its prices, for a
//! caller to certify. A line without a fault has all the words that `take` asks for
//! (`proofs/DraftLines.antt`). Below stand the names of `script_text`.
#![tactic(auto)]

mod draft;
mod words;

pub use draft::Draft;
