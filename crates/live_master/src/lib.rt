//! A live master: the commands of a script are answered one by one, each before the next one is read.
//!
//! `serve` reads the head of a script, then a command or a request a line. Whenever it reads on, just the
//! answers so far are written, whole (`specs/Sessions.antt`). What was said is a script, and its report
//! (`specs/Serving.antt`). Below stand the talks of `line_talk`, the texts of `script_text` and the commands
//! of `job_play`.
#![tactic(auto)]

pub mod requests;
pub mod serving;

pub use requests::{Request, request_of, requests_are_no_commands};
pub use serving::{Session, serve, sessions_are_scripts};
