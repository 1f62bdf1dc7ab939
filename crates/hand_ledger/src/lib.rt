//! The hands of a shared master: what each thread keeps of its accepted calls, and whether a history is
//! made of them.
//!
//! A hand keeps each accepted call of its thread, with its place, and notes two kinds of answers. Its type
//! keeps a share of a ledger that counts its calls, and `Hands` the book with the share of the hands that are
//! still to come. Upward the layer promises: a hand changes only as defined; every event that is counted is
//! kept by some hand; `torn_place` names the lowest place at which a history and a list of hands disagree. It
//! stands on the events and the answers of `master_state` and on the lists of `compact_lists`.
#![tactic(auto)]

mod entries;
pub mod keeping;
pub mod logs;
pub mod making;
mod marks;
pub mod settling;

pub use keeping::Hand;
pub use logs::Log;
pub use making::{HandError, Hands};
pub use settling::torn_place;
