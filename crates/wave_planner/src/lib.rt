//! Plans of a wave that start as many splits as can be started, at the least cost, with prices that show it.
//!
//! `plan_with` has a plan and its prices made over the network that is asked for: over that of
//! `direct_network` by a least-cost flow, over that of `rack_network` by `tree_planner`, whose plan is read
//! off a least-cost flow of it too (`engine_is_a_flow`). Both promise that the prices certify the plan, so no
//! test is made. It always answers a best plan with prices that certify it, or that memory is wanting, or
//! that the direct network was asked for and the problem has more splits or workers than that is built for.
//! `plan_places` plans where places have prices, over the tree. Stands on these three and on
//! `certificate_checker`.
//!
//! # How the layer above uses it
//! The program `plan_a_wave` plans a wave, and has its plan checked by its prices. The two contracts together
//! prove that what the planner makes always passes:
//!
//! ```text
//! pub fn passes(alloc: Global, problem: &Problem) -> Option<bool>
//!     ensures { IfSome result (λ b. b ≡ true) }
//! {
//!     let planned = plan(alloc, problem).ok()?;
//!     Some(certify(alloc, problem, planned.plan(), planned.prices()).is_ok())
//! }
//! ```
#![tactic(auto)]

mod laws;
mod planning;

pub use flow_network::NetworkKind;
pub use laws::engine_is_a_flow;
pub use planning::{PlanError, Planned, cost_of, pairs_of, plan, plan_places, plan_with};
