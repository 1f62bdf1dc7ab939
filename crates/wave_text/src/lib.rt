//! A wave told as a text that `mrjob check` certifies.
//!
//! `wave_text` writes the problem that a wave found, its starts and its prices, by the names of a session's
//! head. No law says how a text is written. Instead `read_plan` reads what was written, and the text is given
//! only where what was read is what was to be told (`specs/Told.antt`). The law of `laws` says that what
//! certifies the wave certifies the text's too. The crate stands on the rows of `line_rules` and on the texts
//! of `plan_text`.
#![tactic(auto)]

mod comparing;
pub mod laws;
mod telling;
mod writing;

pub use telling::wave_text;
