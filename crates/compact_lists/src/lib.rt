//! Lists of what a master accepts, in few bytes and in room that is reserved before.
//!
//! An `EventList` keeps an event in 12 bytes. The set of a join and the totals of a wave stand in lists of
//! their own, and the event names their place there. A `CountList` keeps some sweeps' counts whole, as bases.
//! It keeps each count of any other sweep in two bytes, by how much it is above the base's. Upward the layer
//! promises that a list reads as the values that were pushed, and that no push takes memory. It stands on the
//! events of `master_state`.
#![tactic(auto)]

pub mod counts;
mod entries;
pub mod events;
pub mod row_table;

pub use counts::{CountList, Counts};
pub use events::{EventList, hold};
pub use row_table::add_all;
