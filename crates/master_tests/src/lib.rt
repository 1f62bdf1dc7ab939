//! Tests of the master's crates and of the shared master, called as any caller calls them.
//!
//! Each public call once with ample memory, and rows whose answers were worked out by hand: silences, slots,
//! bars, the reasons of a map of holders, which copies are ordered, and what a master answers call by call.
//! Calls of threads are accepted and settle, and where a hand is left out it is missed; other threads' calls
//! go on while a wave is solved; a call that found no memory changed nothing. What is asserted of threads
//! holds for every schedule.
#![tactic(auto)]

#[cfg(test)]
mod aheads;
#[cfg(test)]
mod backups;
#[cfg(test)]
mod block_rows;
#[cfg(test)]
mod clusters;
#[cfg(test)]
mod hand_refusals;
#[cfg(test)]
mod hands;
#[cfg(test)]
mod histories;
#[cfg(test)]
mod jobs;
#[cfg(test)]
mod kept;
#[cfg(test)]
mod late;
#[cfg(test)]
mod numbers;
#[cfg(test)]
mod one_hold;
#[cfg(test)]
mod own_threads;
#[cfg(test)]
mod refusals;
#[cfg(test)]
mod runs;
#[cfg(test)]
mod seen;
#[cfg(test)]
mod shared_aheads;
#[cfg(test)]
mod shared_jobs;
#[cfg(test)]
mod shared_masters;
#[cfg(test)]
mod turns;
#[cfg(test)]
mod worker_rows;
