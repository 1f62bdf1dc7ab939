//! What a person is told beside an answer: what it means, and where in a text its fault lies.
//!
//! `fault_note` has the sentence of a fault, the line, and a mark under the word at fault; the others have a
//! sentence alone. `Copying` is a reader that keeps what it gave, and `Listening` a writer that hears which
//! commands were ignored, so that a command's own contract says what it writes, whoever listens. Below stand
//! the sentences of `explanations`, the lines of `text_lines` and the shapes of `line_shapes`; above it
//! `mrjob` writes the notes to standard error.
#![tactic(auto)]

pub mod copying;
mod culprit;
pub mod listening;
pub mod note;
mod words;

pub use copying::Copying;
pub use listening::Listening;
pub use note::{answer_note, condition_note, fault_note, reasons_note};
