//! Runs a command that reads a text and answers it, from any reader to any writer.
//!
//! A `Command` takes a whole text and makes its answer, lines that write themselves and need no more memory
//! for it (`AnswerLines`); a `Piece` is how long ones do. `run_command` reads the text from a reader, runs the
//! command, and has the lines written to a writer. Its contract says, once for all commands, which lines are
//! written for which text, when nothing is written, and that no byte past the bound is read. The crate stands
//! on the streams of `text_lines`; the commands are in `tools` and `job_play`.
#![tactic(auto)]

pub mod command;
pub mod lines;
pub mod pieces;
pub mod tool_error;

pub use command::{Command, run_command};
pub use lines::AnswerLines;
pub use pieces::{PIECE_BYTES, Piece};
pub use tool_error::{NoAnswer, ToolError};
