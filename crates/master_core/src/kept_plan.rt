//! The engine of a wave, with its plan or its starts alone.
ghost use Rattle.std.specs.Prelude.{◌≡◌, ◌≢◌, ℕ, ◌<◌, ◌≤◌, false, length, map, slice_index_or, All, IfOk};
ghost use Rattle.std.specs.Prelude.{◌⊎◌, ◌++◌, IsPermutation, IsTrue, OnOk, Some};
ghost use Rattle.std.specs.List.{Contains};
ghost use Rattle.wave_problem.specs.declared.TheConstants.{MAX_SLOTS, MAX_SPLITS};
ghost use Rattle.wave_problem.specs.Assignment.{IsBest, pairs_of, total};
ghost use Rattle.wave_problem.specs.Wave.{split_at, worker_at, worker_in};
ghost use Rattle.price_certificate.specs.Certificate.{claim, Certifies, HasOneSize};
ghost use Rattle.flow_network.specs.declared.kinds.NetworkKind.{NetworkKind};
ghost use Rattle.tree_flow.specs.Slots.{with_workers};
ghost use Rattle.tree_planner.specs.Going.{flagged, turned, HasSameGround};
ghost use Rattle.master_state.specs.Steps.{worker_line};
ghost use Rattle.wave_planner.specs.Planned.{IsMadeOver};
ghost use Rattle.master_tables.specs.Entries.{shown_as};
ghost use Rattle.master_core.specs.Near.{flags_of, HasFlags, HasLines, IsSettled};
ghost use Rattle.master_core.specs.Fitting.{AreFitAmong, AreLinedBut, AreOthersLined, HasOtherLines};
ghost use Rattle.master_core.specs.Starts.{ArePlanned};

use crate::lists::pending_flags;
use crate::touched::Touched;
use master_tables::entries::{SplitEntry, is_pending};
use master_tables::lines::worker_lines;
use node_ids::{SplitNo, WorkerNo};
use std::alloc::{AllocError, Global};
use tree_planner::{Engine, Found};
use wave_planner::{Planned, cost_of};
use wave_problem::{Problem, WorkerLine};
use worker_table::Worker;

// To ship all splits anew takes as long as so many searches, one for each slot that comes back. A search
// looks at each split.
const MANY_SLOTS: usize = 256;

/// The plan of an engine with all splits shipped, and prices that certify it.
pub(crate) fn plan_of(alloc: Global, engine: &Engine) -> Result<Planned, AllocError>
    requires { IsSettled engine.now }
    ensures over { IfOk result (λ planned.
        IsMadeOver NetworkKind.Racks engine.now.wave planned.plan.starts planned.prices) }
    ensures sizes { IfOk result (λ planned.
        HasOneSize (claim engine.now.wave planned.plan.starts planned.prices) planned.plan.workers) }
    ensures certifies { IfOk result (λ planned.
        Certifies (claim engine.now.wave planned.plan.starts planned.prices)) }
    ensures best { IfOk result (λ planned. IsBest engine.now.wave (pairs_of planned.plan.starts)) }
    ensures few { IfOk result (λ planned. length (pairs_of planned.plan.starts) ≤ MAX_SPLITS) }
    ensures count { IfOk result (λ planned. planned.certified.count ≡ length (pairs_of planned.plan.starts)) }
    ensures cost { IfOk result (λ planned.
        planned.certified.cost ≡ total engine.now.wave (pairs_of planned.plan.starts)) }
{
    let found = engine.found(alloc)?;
    let Found {
        plan,
        prices,
        pairs,
    } = found;
    engine.problem().limits();
    Ok(Planned::known(engine.problem(), plan, prices, pairs))
}

/// The starts of a best plan, by rising split, and their byte-distance.
#[derive(Drop)]
pub struct BestStarts {
    pub pairs: Vec<(SplitNo, WorkerNo)>,
    pub cost: u64,
}

/// The starts of an engine with all splits shipped.
pub(crate) fn starts_of(alloc: Global, engine: &mut Engine) -> Result<BestStarts, AllocError>
    requires { IsSettled engine.old }
    ensures planned { IfOk result (λ starts. ArePlanned engine.old.wave starts.pairs.items) }
    ensures cost { IfOk result (λ starts. starts.cost ≡ total engine.old.wave starts.pairs.items) }
    ensures few { IfOk result (λ starts. length starts.pairs.items ≤ MAX_SPLITS) }
    ensures wave { engine.new.wave ≡ engine.old.wave }
{
    let pairs = engine.starts(alloc)?;
    engine.problem().limits();
    let cost = cost_of(engine.problem(), &pairs);
    Ok(BestStarts { pairs, cost })
}

/// The engine after it went over to another problem, with all splits shipped.
pub(crate) fn gone_over(
    alloc: Global,
    engine: Engine,
    problem: Problem,
) -> Result<Engine, AllocError>
    ensures wave { IfOk result (λ engine. engine.wave ≡ problem) }
    ensures settled { IfOk result IsSettled }
{
    let mut engine = engine;
    engine.go_to(alloc, problem)?;
    Ok(engine)
}

/// A new engine of a problem, with all splits shipped.
pub(crate) fn fresh(alloc: Global, problem: Problem) -> Result<Engine, AllocError>
    ensures wave { IfOk result (λ engine. engine.wave ≡ problem) }
    ensures settled { IfOk result IsSettled }
{
    let mut engine = Engine::new(alloc, problem)?;
    engine.settle(alloc)?;
    Ok(engine)
}

/// The engine after it kept up with these workers and these splits, with all splits shipped. The fewer of
/// them have changed, the less there is to do: only touched splits and touched workers are looked at. Where
/// other workers live, the engine is made anew.
pub(crate) fn kept_up(
    alloc: Global,
    engine: Engine,
    workers: &[Worker],
    touched: &Touched,
    entries: &[SplitEntry],
) -> Result<Engine, AllocError>
    requires workers { length workers.now ≡ length engine.wave.workers }
    requires within { All (λ worker. worker.taken ≤ worker.slots) workers.now }
    requires most { All (λ line. line.free ≤ MAX_SLOTS) (map worker_line workers.now) }
    requires splits { length entries.now ≡ length engine.wave.splits }
    requires flagged { HasFlags engine.wave touched.now (map shown_as entries.now) }
    requires lined { HasLines engine.wave touched.now (map worker_line workers.now) }
    ensures wave { IfOk result (λ kept.
        kept.wave ≡ turned engine.wave (map worker_line workers.now) (flags_of entries.now)) }
    ensures settled { IfOk result IsSettled }
{
    let mut engine = engine;
    let started = flag_splits(alloc, &mut engine, touched, entries)?;
    put_workers(alloc, &mut engine, workers, touched, &started, entries)?;
    engine.settle(alloc)?;
    Ok(engine)
}

// Lets just these splits be pending, of which only touched ones may have changed. It answers the workers on
// which splits started, and no others where only touched splits are looked at.
fn flag_splits(
    alloc: Global,
    engine: &mut Engine,
    touched: &Touched,
    entries: &[SplitEntry],
) -> Result<Vec<WorkerNo>, AllocError>
    requires splits { length entries.now ≡ length engine.old.wave.splits }
    requires flagged { HasFlags engine.old.wave touched.now (map shown_as entries.now) }
    ensures ground { OnOk result (HasSameGround engine.old.wave engine.new.wave) }
    ensures flagged { OnOk result
        (flagged engine.new.wave.splits (flags_of entries.now) ≡ engine.new.wave.splits) }
    ensures lines { IfOk result (λ started. IsTrue touched.now.any
        ⊎ AreOthersLined engine.old.wave engine.new.wave started.items) }
{
    if touched.any {
        flag_all(alloc, engine, entries)?;
        Ok(Vec::new(alloc))
    } else {
        flag_each(alloc, engine, &touched.splits, entries)
    }
}

// Lets just these splits be pending, one after another.
fn flag_all(alloc: Global, engine: &mut Engine, entries: &[SplitEntry]) -> Result<(), AllocError>
    requires { length entries.now ≡ length engine.old.wave.splits }
    ensures ground { OnOk result (HasSameGround engine.old.wave engine.new.wave) }
    ensures flagged { OnOk result
        (flagged engine.new.wave.splits (flags_of entries.now) ≡ engine.new.wave.splits) }
{
    for s in 0..engine.problem().splits() {
        flag_split(alloc, engine, SplitNo::new(s as u32), entries)?;
    }
    Ok(())
}

// Lets just these splits be pending, where each split that is not listed has its flag already. It answers the
// workers on which splits started.
fn flag_each(
    alloc: Global,
    engine: &mut Engine,
    splits: &[SplitNo],
    entries: &[SplitEntry],
) -> Result<Vec<WorkerNo>, AllocError>
    requires size { length entries.now ≡ length engine.old.wave.splits }
    requires others { (s : ℕ) → s < length engine.old.wave.splits → Contains splits.now s
        ⊎ ((split_at engine.old.wave s).pending ≡ slice_index_or (flags_of entries.now) s false) }
    ensures ground { OnOk result (HasSameGround engine.old.wave engine.new.wave) }
    ensures flagged { OnOk result
        (flagged engine.new.wave.splits (flags_of entries.now) ≡ engine.new.wave.splits) }
    ensures lines { IfOk result (λ started.
        AreOthersLined engine.old.wave engine.new.wave started.items) }
{
    let mut started = Vec::new(alloc);
    for i in 0..splits.len() {
        let split = splits[i];
        if split.index() < engine.problem().splits() {
            if let Some(worker) = flag_split(alloc, engine, split, entries)? {
                started.push(worker)?;
            }
        }
    }
    Ok(started)
}

// Lets the split be pending, or not, as its entry says. It answers on which worker it started.
fn flag_split(
    alloc: Global,
    engine: &mut Engine,
    split: SplitNo,
    entries: &[SplitEntry],
) -> Result<Option<WorkerNo>, AllocError>
    requires split { split < length engine.old.wave.splits }
    requires size { length entries.now ≡ length engine.old.wave.splits }
    ensures ground { OnOk result (HasSameGround engine.old.wave engine.new.wave) }
    ensures here { OnOk result
        ((split_at engine.new.wave split).pending ≡ slice_index_or (flags_of entries.now) split false) }
    ensures others { OnOk result ((s : ℕ) → s ≢ split
        → (split_at engine.new.wave s).pending ≡ (split_at engine.old.wave s).pending) }
    ensures lines { IfOk result (λ started. (w : ℕ) → started ≢ Some w
        → worker_at engine.new.wave w ≡ worker_at engine.old.wave w) }
{
    let pending = flag_at(entries, split.index());
    if engine.problem().is_pending(split) != pending {
        return engine.flag(alloc, split, pending);
    }
    Ok(None)
}

// Whether the split at this place is pending.
fn flag_at(entries: &[SplitEntry], place: usize) -> bool
    requires { place < length entries.now }
    ensures { result ≡ slice_index_or (flags_of entries.now) place false }
{
    is_pending(&entries[place])
}

// Gives the workers their lines, of which all splits have their flags already.
fn put_workers(
    alloc: Global,
    engine: &mut Engine,
    workers: &[Worker],
    touched: &Touched,
    started: &[WorkerNo],
    entries: &[SplitEntry],
) -> Result<(), AllocError>
    requires workers { length workers.now ≡ length engine.old.wave.workers }
    requires within { All (λ worker. worker.taken ≤ worker.slots) workers.now }
    requires most { All (λ line. line.free ≤ MAX_SLOTS) (map worker_line workers.now) }
    requires lined { AreLinedBut engine.old.wave touched.now started.now (map worker_line workers.now) }
    requires splits { length entries.now ≡ length engine.old.wave.splits }
    requires flagged { flagged engine.old.wave.splits (flags_of entries.now) ≡ engine.old.wave.splits }
    ensures { OnOk result (engine.new.wave
        ≡ turned engine.old.wave (map worker_line workers.now) (flags_of entries.now)) }
{
    if are_few_back(engine.problem(), workers, touched)
        && fit_workers(alloc, engine, workers, touched, started)?
    {
        return Ok(());
    }
    let lines = worker_lines(alloc, workers)?;
    let pending = pending_flags(alloc, entries)?;
    engine.renew(alloc, &lines, &pending)?;
    Ok(())
}

// Whether so few slots come back that to search for each of them costs less than to ship all splits anew.
// The end of a map attempt touches its split, and gives two slots back at most; parts are few. So where few
// splits are touched, no worker is looked at.
fn are_few_back(problem: &Problem, workers: &[Worker], touched: &Touched) -> bool
    requires workers { length workers.now ≡ length problem.now.workers }
    requires within { All (λ worker. worker.taken ≤ worker.slots) workers.now }
{
    if !touched.any && touched.splits.len() < MANY_SLOTS / 2 {
        return true;
    }
    let mut back = 0;
    for w in 0..problem.workers() {
        let free = line_at(workers, w).free;
        back += usize::from(free.saturating_sub(problem.free(WorkerNo::new(w as u16))));
    }
    back < MANY_SLOTS
}

// Loses and frees slots until each worker has as many as its line says, of which only touched ones may have
// changed, and those on which splits started. It answers whether this could be done: it can where the same
// workers live.
fn fit_workers(
    alloc: Global,
    engine: &mut Engine,
    workers: &[Worker],
    touched: &Touched,
    started: &[WorkerNo],
) -> Result<bool, AllocError>
    requires workers { length workers.now ≡ length engine.old.wave.workers }
    requires within { All (λ worker. worker.taken ≤ worker.slots) workers.now }
    requires most { All (λ line. line.free ≤ MAX_SLOTS) (map worker_line workers.now) }
    requires lined { AreLinedBut engine.old.wave touched.now started.now (map worker_line workers.now) }
    ensures ground { OnOk result (HasSameGround engine.old.wave engine.new.wave) }
    ensures fit { IfOk result (λ fit. IsTrue fit
        → engine.new.wave ≡ with_workers engine.old.wave (map worker_line workers.now)) }
{
    if touched.any {
        return fit_all(alloc, engine, workers);
    }
    let listed = in_order(alloc, &touched.workers, started)?;
    fit_each(alloc, engine, workers, &listed)
}

// The same of each worker.
fn fit_all(alloc: Global, engine: &mut Engine, workers: &[Worker]) -> Result<bool, AllocError>
    requires workers { length workers.now ≡ length engine.old.wave.workers }
    requires within { All (λ worker. worker.taken ≤ worker.slots) workers.now }
    requires most { All (λ line. line.free ≤ MAX_SLOTS) (map worker_line workers.now) }
    ensures ground { OnOk result (HasSameGround engine.old.wave engine.new.wave) }
    ensures fit { IfOk result (λ fit. IsTrue fit
        → engine.new.wave ≡ with_workers engine.old.wave (map worker_line workers.now)) }
{
    for w in 0..engine.problem().workers() {
        let line = line_at(workers, w);
        if !engine.fit_worker(alloc, WorkerNo::new(w as u16), line)? {
            return Ok(false);
        }
    }
    Ok(true)
}

// The same of each listed worker: the others keep their lines.
fn fit_each(
    alloc: Global,
    engine: &mut Engine,
    workers: &[Worker],
    listed: &[WorkerNo],
) -> Result<bool, AllocError>
    requires workers { length workers.now ≡ length engine.old.wave.workers }
    requires within { All (λ worker. worker.taken ≤ worker.slots) workers.now }
    requires most { All (λ line. line.free ≤ MAX_SLOTS) (map worker_line workers.now) }
    ensures only { OnOk result (HasOtherLines engine.old.wave engine.new.wave) }
    ensures fit { IfOk result (λ fit. IsTrue fit
        → AreFitAmong engine.old.wave engine.new.wave listed.now (map worker_line workers.now)) }
{
    for i in 0..listed.len() {
        let worker = listed[i];
        if worker.index() < engine.problem().workers() {
            let line = line_at(workers, worker.index());
            if !engine.fit_worker(alloc, worker, line)? {
                return Ok(false);
            }
        }
    }
    Ok(true)
}

// The workers of both lists, by rising number. Of equally good plans the engine comes to one or the other by
// the order in which slots come back: here it is the order in which `fit_all` comes to the workers.
fn in_order(
    alloc: Global,
    one: &[WorkerNo],
    other: &[WorkerNo],
) -> Result<Vec<WorkerNo>, AllocError>
    ensures { IfOk result (λ both. IsPermutation (one.now ++ other.now) both.items) }
{
    let mut both = Vec::new(alloc);
    both.extend_from_slice(one)?;
    both.extend_from_slice(other)?;
    both.sort_unstable();
    Ok(both)
}

/// The line of the worker at this place.
pub(crate) fn line_at(workers: &[Worker], place: usize) -> WorkerLine
    requires place { place < length workers.now }
    requires within { All (λ worker. worker.taken ≤ worker.slots) workers.now }
    ensures { result ≡ worker_in (map worker_line workers.now) place }
{
    let worker = &workers[place];
    WorkerLine {
        live: worker.live,
        free: worker.slots - worker.taken,
    }
}
