//! Tests of texts, words and commands, called as any caller calls them.
//!
//! They show what no clause says: worked values from outside, that each call succeeds where there is memory,
//! what comes of readers and writers that fail, that are interrupted or that give one byte a call, which
//! words are lines, and what `clap` says of a command's words. Commands run through the built program, on the
//! texts in `examples/` and with each call refused in turn (`scripts/refused_calls.sh`).
//! Nothing stands on this crate, and so the others are proved once, without tests.
#![tactic(auto)]

#[cfg(test)]
mod asking;
#[cfg(test)]
mod checks;
#[cfg(test)]
mod faults;
#[cfg(test)]
mod heads;
#[cfg(test)]
mod indexes;
#[cfg(test)]
mod maps;
#[cfg(test)]
mod played;
#[cfg(test)]
mod readers;
#[cfg(test)]
mod scripts;
#[cfg(test)]
mod texts;
#[cfg(test)]
mod words;
#[cfg(test)]
mod writers;
