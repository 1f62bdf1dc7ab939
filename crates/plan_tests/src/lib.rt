//! Tests of the layers from numbers to the planner, called as any caller calls them.
//!
//! They show what no clause says: worked values from outside, and that each call succeeds where there is
//! memory. Small networks are compared with a search that lists all paths, plans with worked rows, with arc
//! counts and, over problems made from a seed, with all assignments (`small` shares no code with the
//! planner). They stand in a crate of their own so that none of these crates is proved twice.
#![tactic(auto)]

#[cfg(test)]
mod arc_counts;
#[cfg(test)]
mod centres;
#[cfg(test)]
mod charges;
#[cfg(test)]
mod clusters;
#[cfg(test)]
mod distances;
#[cfg(test)]
mod engine;
#[cfg(test)]
mod events;
#[cfg(test)]
mod flows;
#[cfg(test)]
mod networks;
#[cfg(test)]
mod orders;
#[cfg(test)]
mod parts;
#[cfg(test)]
mod paths;
#[cfg(test)]
mod planned;
#[cfg(test)]
mod plans;
#[cfg(test)]
mod price_lists;
#[cfg(test)]
mod problems;
#[cfg(test)]
mod random;
#[cfg(test)]
mod shipments;
#[cfg(test)]
mod small;
#[cfg(test)]
mod small_problems;
#[cfg(test)]
mod verdicts;
