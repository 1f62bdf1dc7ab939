//! Lemmas on a list of views, one for each token that a thread holds: what a sum over the list becomes
//! where one view changes, and what holds of each view then.
//!
//! The layer is lemmas alone, in `proofs/`, and no code. `proofs/Sums.antt` has sums, `proofs/Each.antt`
//! facts about each view, `proofs/Last.antt` a list that gives away its last element. The rules of
//! `beat_board` and `lane_queue` rest on it. It stands on the list lemmas of `atomic_table`.
#![tactic(auto)]
