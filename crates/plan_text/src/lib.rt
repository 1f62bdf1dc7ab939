//! Texts of problems and plans, and the lines that answer them.
//!
//! `read_plan` reads the problem, the plan and the prices that a text declares, and `read_problem` the
//! problem of a text to plan from. Of a text with faults each answers the least: the first faulty line, and
//! the lowest number of its faults. `specs/Value.antt` says what the lines declare. `TidyRows` are the rows
//! of a text without a fault, from which `built` makes the values; `script_text` makes a cluster of them
//! too. `check_report` writes the answers of a check, and `plan_report` the lines of a plan and its prices, both
//! with the `figures` of a plan.
//! The crate stands on the rows of `line_rules` and on the types of `wave_problem` and `price_certificate`.
#![tactic(auto)]

pub mod built;
pub mod check_report;
pub mod figures;
pub mod name_list;
pub mod place_rows;
pub mod plan_report;
pub mod reader;
pub mod tidy_rows;

pub use built::{PlanText, ProblemText};
pub use line_rules::ReadingError;
pub use name_list::NameList;
pub use reader::{read_plan, read_problem};
pub use tidy_rows::TidyRows;
