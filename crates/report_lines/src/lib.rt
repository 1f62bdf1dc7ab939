//! The lines of a report: what a master answered, by names; and of what stands.
//!
//! Each call appends the lines of one answer to a text in memory; its contract says which bytes these are, by
//! the words of `specs/Lines.antt`. A whole report keeps of each `copies` how many events came before it. As
//! it is written, it goes through a master's events once more, and makes the lines of copies of what they
//! come to (`specs/Past.antt`, `specs/Reports.antt`). Names stand in tables by number, as a text declared
//! them; a number past the last has the empty name. After an error the text may hold a front of the lines;
//! its owner drops it. Below stand the answers of `master_state` and the entries of an index.
#![tactic(auto)]

mod answers;
mod endings;
mod history;
pub mod laws;
mod own_names;
mod past;
mod replaying;
mod report;
mod standing;
mod tables;
mod turns;

pub use answers::{
    add_accepted, add_ahead, add_answer, add_backup, add_copies, add_dead, add_ignored, add_queued,
    add_reduce, add_start, add_wave,
};
pub use endings::{add_index, add_index_count, add_stuck, add_words};
pub use history::add_history;
pub use past::Past;
pub use report::{MadeReport, ReportLines};
pub use standing::{add_open_parts, add_open_splits, add_outputs, add_workers};
pub use tables::{Story, Tables};
pub use turns::Turns;
