//! The tables of a master, and what each call changes in them.
//!
//! Upward it promises what each change does to the tables: the entries of splits and parts, the lists of
//! starts, sweeps, events and results, the workers and the holders. `master_state` defines each change, and a
//! call of the master is made of such changes. Only calls that make a new list take memory. The crate stands
//! on the tables of `worker_table` and `block_map`.
#![tactic(auto)]

pub mod backups;
pub mod completions;
pub mod counts;
pub mod deaths;
pub mod entries;
pub mod holders;
pub mod lines;
pub mod log;
pub mod parts;
pub mod running;
pub mod starting;
