//! Tests of what `beat_board` and `lane_queue` offer to threads, called as any caller calls it.
//!
//! They show that what clauses say of tokens comes out when threads run beside one another, and that a
//! refused allocation leaves no trace. They stand in a crate of their own so that neither crate is proved
//! twice.
#![tactic(auto)]

#[cfg(test)]
mod boards;
#[cfg(test)]
mod lanes;
