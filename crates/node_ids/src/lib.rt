//! The numbers by which splits, workers, racks, data centres, parts, attempts and documents go, sets of
//! splits and of barred pairs, and the law of a numbering of a network's nodes.
//!
//! A number is `Copy`, compares as its number does and is seen by contracts as that number. It does
//! not know how many of its kind there are: a call that takes one asks that it is below the size of
//! what it is called on. The lemmas that several crates use stand in `proofs/`: tables of bits, rising rows,
//! the change of one element of a list, and first positions.
#![tactic(auto)]

pub mod layout;
pub mod numbered;
pub mod numbers;
pub mod pairs;
pub mod sets;

pub use layout::Layout;
pub use numbered::Numbered;
pub use numbers::{AttemptNo, CentreNo, DocNo, PartNo, RackNo, SplitNo, WorkerNo};
pub use pairs::PairSet;
pub use sets::{SplitRow, SplitSet, SplitTable};
