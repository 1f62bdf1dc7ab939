ghost use Rattle.std.specs.Prelude.{◌≡◌, ◌<◌, ◌≤◌, All, IfOk, IsSome, IsTrue, MatchOption, Some, true};
ghost use Rattle.std.specs.Prelude.{false, length, map, ◌↔◌, slice_set};
ghost use Rattle.rack_tree.specs.declared.TheConstants.{MAX_WORKERS};
ghost use Rattle.wave_problem.specs.declared.TheConstants.{MAX_SPLITS};
ghost use Rattle.line_shapes.specs.Lines.{stated, statement_of};
ghost use Rattle.line_shapes.specs.declared.keyword.Keyword.TheVariants.{Price, Start};
ghost use Rattle.script_text.specs.Ready.{HavePair};
ghost use Rattle.plan_draft.specs.Drafts.{AreNamesOf, DraftView, HavePrice, IsDraftLine, IsPriced, IsSaid};
ghost use Rattle.plan_draft.specs.Drafts.{IsSound, empty_draft, prices_in, prices_said, said, said_at};

use crate::words::{number_if_known, price_at};
use line_shapes::{KeyedLine, Keyword};
use node_ids::WorkerNo;
use price_certificate::Prices;
use script_text::Names;
use script_text::numbers::number_in;
use std::alloc::{AllocError, Global};
use std::marker::Model;
use wave_problem::Plan;

/// What was said of a plan so far, by number. No call but `new` and `plan` takes memory.
#[derive(Drop)]
pub struct Draft {
    // the worker that each split starts on
    starts: Vec<Option<WorkerNo>>,
    // the prices of splits and of workers
    splits: Vec<Option<u64>>,
    workers: Vec<Option<u64>>,
}

impl Model for Draft {
    ghost Value = { DraftView };

    ghost view = { λ d. record {
      starts = d.starts.items;
      splits = d.splits.items;
      workers = d.workers.items;
    } };

    ghost invariant = { λ d. IsSound d.starts.items d.splits.items d.workers.items };
}

impl Draft {
    /// Nothing is said of so many splits and workers.
    pub fn new(alloc: Global, splits: usize, workers: usize) -> Result<Draft, AllocError>
        requires splits { splits ≤ MAX_SPLITS }
        requires workers { workers ≤ MAX_WORKERS }
        ensures { IfOk result (λ draft. draft ≡ empty_draft splits workers) }
    {
        Ok(Draft {
            starts: vec![in alloc; None; splits]?,
            splits: vec![in alloc; None; splits]?,
            workers: vec![in alloc; None; workers]?,
        })
    }

    /// Takes a line `start` or `price`. False where the split starts already, or the name has its price:
    /// then nothing changes.
    pub fn take(&mut self, names: &Names<'_>, line: &KeyedLine<'_, '_>) -> bool
        requires names { AreNamesOf names.now self.old }
        requires line { IsDraftLine names.now (statement_of line.now) }
        ensures taken { result ≡ true → (IsSaid names.now self.old (statement_of line.now) → ⊥)
            × (self.new ≡ said names.now self.old (statement_of line.now)) }
        ensures second { result ≡ false → IsSaid names.now self.old (statement_of line.now)
            × (self.new ≡ self.old) }
        ensures names { AreNamesOf names.now self.new }
    {
        let words = line.words;
        match line.keyword {
            Keyword::Start => self.take_start(names, words),
            Keyword::Price => self.take_price(names, words),
            _ => unreachable!(),
        }
    }

    // Takes `start` with these words.
    fn take_start(&mut self, names: &Names<'_>, words: &[&str]) -> bool
        requires names { AreNamesOf names.now self.old }
        requires words { HavePair names.now (map (λ w. w.now) words.now) }
        ensures taken { result ≡ true → (IsSaid names.now self.old (stated Start words.now) → ⊥)
            × (self.new ≡ said names.now self.old (stated Start words.now)) }
        ensures second { result ≡ false → IsSaid names.now self.old (stated Start words.now)
            × (self.new ≡ self.old) }
        ensures names { AreNamesOf names.now self.new }
    {
        let split = number_in(&names.splits, words, 0);
        let worker = number_in(&names.workers, words, 1);
        if self.starts[split].is_some() {
            return false;
        }
        self.starts[split] = Some(WorkerNo::new(worker as u16));
        true
    }

    // Takes `price` with these words.
    fn take_price(&mut self, names: &Names<'_>, words: &[&str]) -> bool
        requires names { AreNamesOf names.now self.old }
        requires words { HavePrice names.now (map (λ w. w.now) words.now) }
        ensures taken { result ≡ true → (IsSaid names.now self.old (stated Price words.now) → ⊥)
            × (self.new ≡ said names.now self.old (stated Price words.now)) }
        ensures second { result ≡ false → IsSaid names.now self.old (stated Price words.now)
            × (self.new ≡ self.old) }
        ensures names { AreNamesOf names.now self.new }
    {
        let price = price_at(words, 1);
        match number_if_known(&names.splits, words, 0) {
            Some(split) => put_price(&mut self.splits, split, price),
            None => {
                let worker = number_in(&names.workers, words, 0);
                put_price(&mut self.workers, worker, price)
            }
        }
    }

    /// The plan and the prices that were said, or None where a split or a worker has no price.
    pub fn plan(&self, alloc: Global) -> Result<Option<(Plan, Prices)>, AllocError>
        ensures made { IfOk result (λ made. MatchOption made (IsPriced self.now → ⊥) (λ plan.
            IsPriced self.now × (plan.0.starts ≡ self.now.starts)
            × (plan.0.workers ≡ length self.now.workers) × (plan.1 ≡ prices_said self.now))) }
        ensures one_size { length self.now.starts ≡ length self.now.splits }
    {
        if !are_said(&self.splits) || !are_said(&self.workers) {
            return Ok(None);
        }
        let prices = self.prices(alloc)?;
        let starts = self.starts.iter().copied().collect(alloc)?;
        Ok(Some((Plan::from_starts(starts, self.workers.len()), prices)))
    }

    // The prices that were said, 0 where none is said.
    fn prices(&self, alloc: Global) -> Result<Prices, AllocError>
        ensures { IfOk result (λ prices. prices ≡ prices_said self.now) }
    {
        let splits = prices_in(alloc, &self.splits)?;
        let workers = prices_in(alloc, &self.workers)?;
        Ok(Prices::from_lists(splits, workers))
    }

    /// As if nothing had been said.
    pub fn clear(&mut self)
        ensures { self.new ≡ empty_draft (length self.old.splits) (length self.old.workers) }
    {
        self.starts.fill(None);
        self.splits.fill(None);
        self.workers.fill(None);
    }
}

// Puts a price where none is said yet. False where one is.
fn put_price(prices: &mut [Option<u64>], number: usize, price: u64) -> bool
    requires { number < length prices.old }
    ensures taken { result ≡ true → (IsSome (said_at prices.old number) → ⊥)
        × (prices.new ≡ slice_set prices.old number (Some price)) }
    ensures second { result ≡ false → IsSome (said_at prices.old number) × (prices.new ≡ prices.old) }
{
    if prices[number].is_some() {
        return false;
    }
    prices[number] = Some(price);
    true
}

// Whether each price is said.
fn are_said(prices: &[Option<u64>]) -> bool
    ensures { IsTrue result ↔ All IsSome prices.now }
{
    prices.iter().all(|price| price.is_some())
}

// The prices, 0 where none is said.
fn prices_in(alloc: Global, prices: &[Option<u64>]) -> Result<Vec<u64>, AllocError>
    ensures { IfOk result (λ list. list.items ≡ prices_in prices.now) }
{
    prices.iter().map(|price| price.unwrap_or(0)).collect(alloc)
}
