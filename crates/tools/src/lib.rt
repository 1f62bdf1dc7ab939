//! The commands of `mrjob` for callers of their own: from the bytes of a reader to those of a writer.
//!
//! `check` reads a problem, a plan and prices, and writes whether the prices certify the plan; `check_on`
//! writes the same by many threads; `plan` reads a problem and writes a best plan. Each is a `Command` of
//! `command_runner`, run by its `run_command`; `specs/CheckAnswer.antt` and `specs/PlanAnswer.antt` say
//! which lines answer a text. `explain` writes what numbers mean. `Ending` has the statuses and the words
//! with which the program ends.
#![tactic(auto)]

pub mod checking;
pub mod explaining;
pub mod planning;
pub mod program_end;

pub use checking::{check, check_on};
pub use explaining::explain;
pub use planning::plan;
pub use program_end::{CheckEnd, Ending, Message, PlanEnd};
