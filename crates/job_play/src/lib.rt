//! Scripts, from a reader's bytes to a writer's.
//!
//! `play` writes a report of the script that a text declares: some legal history answers the commands by
//! these lines, one command after another, and the last lines tell the index, or what is not done
//! (`specs/Reports.antt`, `specs/PlayAnswer.antt`). `play_script` makes it of a script and a cluster.
//! `perform` performs one command, for scripts and for live masters. Below stand the texts of `script_text`,
//! the master of `master_core` and the lines of `report_lines`.
#![tactic(auto)]

pub mod clusters;
pub mod ending;
mod fitting;
pub mod given;
mod handing;
mod pasts;
pub mod performing;
mod player;
pub mod playing;
mod rooms;
mod tables;
pub mod waves;

pub use fitting::fits;
pub use player::{
    PlayEnd, PlayError, Report, ScriptObserver, Unobserved, play_script, play_script_observed,
};
pub use playing::{play, play_observed};
pub use rooms::{MAX_ATTEMPTS, MAX_COMMANDS, limits_for};
pub use tables::counts_for;
