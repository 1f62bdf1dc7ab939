ghost use Rattle.std.specs.Prelude.{◌≤◌, ◌<◌, ◌≡◌, IfOk, length, map};
ghost use Rattle.plan_text.specs.Value.{number_in as number_told};
ghost use Rattle.script_text.specs.Commands.{AreNumbered, AreTold, IsNumbered, IsAmount, word_at};
ghost use Rattle.script_text.specs.Ready.{HasName, HasNumber, HaveNames, HaveNumbers};

use node_ids::{AttemptNo, SplitNo, WorkerNo};
use std::alloc::{AllocError, Global};
use text_lines::{NameTable, value_in};

/// The word at a place.
pub fn word_in<'t>(words: &[&'t str], place: usize) -> &'t str
    requires { place < length words.now }
    ensures { result.now ≡ word_at (map (λ w. w.now) words.now) place }
{
    words[place]
}

/// The number of the name that stands at a place.
pub fn number_in(names: &NameTable<'_>, words: &[&str], place: usize) -> usize
    requires { HasName names.now (map (λ w. w.now) words.now) place }
    ensures numbered { IsNumbered names.now (word_at (map (λ w. w.now) words.now) place) result }
    ensures value { result ≡ number_told names.now (word_at (map (λ w. w.now) words.now) place) }
    ensures within { result < length names.now }
{
    match names.number(word_in(words, place)) {
        Some(number) => number,
        None => unreachable!(),
    }
}

/// The number of the split that the word at a place names.
pub fn split_at(names: &NameTable<'_>, words: &[&str], place: usize) -> SplitNo
    requires few { length names.now ≤ 131072 }
    requires known { HasName names.now (map (λ w. w.now) words.now) place }
    ensures { IsNumbered names.now (word_at (map (λ w. w.now) words.now) place) result }
{
    SplitNo::new(number_in(names, words, place) as u32)
}

/// The number of the worker that the word at a place names.
pub fn worker_at(names: &NameTable<'_>, words: &[&str], place: usize) -> WorkerNo
    requires few { length names.now ≤ 32768 }
    requires known { HasName names.now (map (λ w. w.now) words.now) place }
    ensures { IsNumbered names.now (word_at (map (λ w. w.now) words.now) place) result }
{
    WorkerNo::new(number_in(names, words, place) as u16)
}

// The number that stands at a place.
fn number_at(words: &[&str], place: usize) -> u64
    requires { HasNumber 1099511627776 (map (λ w. w.now) words.now) place }
    ensures { IsAmount (word_at (map (λ w. w.now) words.now) place) result }
{
    match value_in(word_in(words, place)) {
        Some(value) => value,
        None => unreachable!(),
    }
}

/// The attempt whose number stands at a place.
pub fn attempt_at(words: &[&str], place: usize) -> AttemptNo
    requires { HasNumber 1000000 (map (λ w. w.now) words.now) place }
    ensures { IsAmount (word_at (map (λ w. w.now) words.now) place) result }
{
    AttemptNo::new(number_at(words, place) as u32)
}

/// The numbers of the splits that the words from a place on name.
pub fn splits_from(
    alloc: Global,
    names: &NameTable<'_>,
    words: &[&str],
    first: usize,
) -> Result<Vec<SplitNo>, AllocError>
    requires few { length names.now ≤ 131072 }
    requires whole { first ≤ length words.now }
    requires known { HaveNames names.now (map (λ w. w.now) words.now) first }
    ensures { IfOk result (λ splits.
        AreNumbered names.now (map (λ w. w.now) words.now) first splits.items) }
{
    let mut splits = Vec::new(alloc);
    for place in first..words.len() {
        splits.push(split_at(names, words, place))?;
    }
    Ok(splits)
}

/// The numbers that the words are.
pub fn numbers_in(alloc: Global, words: &[&str]) -> Result<Vec<u64>, AllocError>
    requires { HaveNumbers 1099511627776 (map (λ w. w.now) words.now) }
    ensures { IfOk result (λ numbers. AreTold (map (λ w. w.now) words.now) numbers.items) }
{
    let mut numbers = Vec::new(alloc);
    for place in 0..words.len() {
        numbers.push(number_at(words, place))?;
    }
    Ok(numbers)
}
