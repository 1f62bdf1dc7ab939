//! The law that a plan, written beside the problem text that it was made from, is a text to check.
//!
//! Take the head of a text to plan from, a line `plan`, the written starts and prices, and `end`. This text
//! has no fault, and declares the same wave, prices of places, starts and prices. The law stands on the rows of `line_rules`
//! and the texts of `plan_text`, for the program that writes plans.
#![tactic(auto)]

ghost use Rattle.written_plan.specs.Joined.{WrittenPlanReadsBack};

/// A plan that was written, put after the head that it was made from, reads back as itself.
pub fn a_written_plan_reads_back()
    ensures { WrittenPlanReadsBack }
{}
