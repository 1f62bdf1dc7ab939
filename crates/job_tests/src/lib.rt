//! Tests of jobs that run on threads, called as any caller calls them, and of how the run of a text ends.
#![tactic(auto)]

#[cfg(test)]
mod aheads;
#[cfg(test)]
mod asks;
#[cfg(test)]
mod deaths;
#[cfg(test)]
mod ends;
#[cfg(test)]
mod gates;
#[cfg(test)]
mod histories;
#[cfg(test)]
mod jobs;
#[cfg(test)]
mod long_indexes;
#[cfg(test)]
mod made;
#[cfg(test)]
mod recorded;
#[cfg(test)]
mod rows;
#[cfg(test)]
mod runs;
#[cfg(test)]
mod sizes;
#[cfg(test)]
mod told;
