//! What a script or a job declares: its head, the names in it, and a script's commands by number.
//!
//! `read_script` and `read_job` read a text by the rules of `line_rules`. They make the head and the script
//! that its lines declare (`specs/Scripts.antt`), or answer the text's least fault. A job is a script without
//! commands. The head has all that a cluster is made of, and meets all that a cluster asks
//! (`specs/Heads.antt`). `read_opening` keeps also what is known after `begin`, so that `command_of` can read
//! lines one by one. Names are numbered in the order in which the text declares them. The crate stands on
//! the tidy rows of `plan_text`; `job_play` plays the script, and `job_run` runs the job.
#![tactic(auto)]

mod commands;
mod documents;
mod heads;
mod naming;
pub mod numbers;
mod script;
mod script_reader;

pub use commands::command_of;
pub use heads::Head;
pub use script::{Command, Names, Script, ScriptText};
pub use script_reader::{read_job, read_opening, read_script};
