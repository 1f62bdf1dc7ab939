//! A plan that is kept while splits are shipped one after another.
ghost use Rattle.std.specs.Prelude.{◌≡◌, ◌≢◌, ℕ, ◌<◌, ◌≤◌, false, true, All, IfOk, IfSome, OnOk, OnErr};
ghost use Rattle.std.specs.Prelude.{None, Some, length};
ghost use Rattle.wave_problem.specs.declared.TheConstants.{MAX_SLOTS};
ghost use Rattle.wave_problem.specs.Wave.{split_at, worker_at, IsAdmissible, IsUsable};
ghost use Rattle.price_certificate.specs.Certificate.{claim, worker_price, Certifies, HasOneSize};
ghost use Rattle.tree_flow.specs.declared.nodes.End.{End};
ghost use Rattle.tree_flow.specs.declared.nodes.Place.TheVariants.{Stands, Unshipped};
ghost use Rattle.tree_planner.specs.Events.{slot_less, slot_more, started, with_pending};
ghost use Rattle.tree_planner.specs.Going.{turned, HasSameGround};
ghost use Rattle.tree_planner.specs.WayBack.{AreAllSame};
ghost use Rattle.tree_planner.specs.Shown.{state_in};
ghost use Rattle.tree_flow.specs.State.{place_of, IsKept};
ghost use Rattle.tree_planner.specs.Starting.{AreBestStarts};
ghost use Rattle.tree_planner.specs.Way.{AreOthersSame};
ghost use Rattle.wave_problem.specs.Assignment.{pairs_of, IsBest};

use crate::back::SearchBack;
use crate::copies::Copies;
use crate::engine::{Fixed, Found, fixed_parts, read_off, ship};
use crate::events::{free, pass_over, pend, place_at, settle, start};
use crate::follow::shorten_lists;
use crate::hand_down::all_starts;
use crate::like::is_like;
use crate::lose::lose;
use crate::renewed::renew;
use crate::search::Search;
use crate::tables::{Tables, fresh_tables};
use crate::turn::turn_to;
use node_ids::{SplitNo, WorkerNo};
use price_certificate::{PlacePrices, Prices};
use std::alloc::{AllocError, Global};
use std::marker::Model;
use tree_flow::Place;
use wave_problem::{Plan, Problem, WorkerLine};

/// A problem, and the state of its splits. At every moment the state is kept to: the splits shipped so far
/// stand at ends of theirs or wait, no slot is taken twice, and no other choice for them is cheaper.
pub struct Engine {
    problem: Problem,
    fixed: Fixed,
    tables: Tables,
    // (lent to each search back, blank before and after)
    search_back: SearchBack,
    copies: Copies,
    // (if so, each split is known to be shipped, or to wait)
    settled: bool,
}

// (one call wherever it is dropped)
impl Drop for Engine {
    fn drop(self) {
        let Engine {
            problem: _,
            fixed: _,
            tables: _,
            search_back: _,
            copies: _,
            settled: _,
        } = self;
    }
}

impl Model for Engine {
    ghost use Rattle.tree_planner.specs.Engine.{IsFixed, IsStanding};
    ghost use Rattle.tree_planner.specs.Shown.{AreShippedIf, Shown};
    ghost use Rattle.tree_planner.specs.SearchingBack.{IsBlank};

    ghost Value = { Shown };

    ghost view = { λ e. record { wave = e.problem; tables = e.tables } };

    ghost invariant = { λ e. IsFixed e.problem e.fixed × IsStanding e.problem e.tables
        × IsBlank e.problem.tree e.search_back × AreShippedIf e.settled e.problem e.tables };
}

impl Engine {
    /// The engine of a problem, with no split shipped.
    pub fn new(alloc: Global, problem: Problem) -> Result<Engine, AllocError>
        ensures wave { IfOk result (λ engine. engine.wave ≡ problem) }
        ensures unshipped { IfOk result (λ engine. (s : ℕ) → s < length problem.splits
            → place_of (state_in engine) s ≡ Unshipped) }
    {
        let fixed = fixed_parts(alloc, &problem)?;
        let tables = fresh_tables(alloc, &problem, fixed.reward, PlacePrices::free(alloc))?;
        let search_back = SearchBack::new(alloc, problem.tree())?;
        let copies = Copies::new(alloc, &problem)?;
        Ok(Engine {
            problem,
            fixed,
            tables,
            search_back,
            copies,
            settled: false,
        })
    }

    /// That the state is kept to.
    pub fn kept(&self)
        ensures { IsKept self.now.wave (state_in self.now) }
    {
        let _ = &self.problem;
    }

    /// Ships a split, or lets it wait, whichever is cheaper. Without memory nothing changes.
    pub fn ship(&mut self, alloc: Global, split: SplitNo) -> Result<(), AllocError>
        requires split { split < length self.old.wave.splits }
        requires unshipped { place_of (state_in self.old) split ≡ Unshipped }
        ensures wave { self.new.wave ≡ self.old.wave }
        ensures shipped { OnOk result (place_of (state_in self.new) split ≢ Unshipped) }
        ensures others { OnOk result (AreOthersSame (state_in self.old) (state_in self.new) split) }
        ensures err { OnErr result (self.new ≡ self.old) }
    {
        let nodes = self.fixed.nodes.len();
        let mut search = Search::new(alloc, self.problem.tree(), nodes, 0)?;
        let split = split.index() as u32;
        self.settled = false;
        ship(
            &self.problem,
            &self.fixed,
            &mut self.tables,
            &mut search,
            split,
        );
        Ok(())
    }

    /// The wave for which the engine stands.
    pub fn problem(&self) -> &Problem
        ensures { result.now ≡ self.now.wave }
    {
        &self.problem
    }

    /// Ships the splits that are not shipped yet, or lets them wait. Without memory some may be left.
    pub fn settle(&mut self, alloc: Global) -> Result<(), AllocError>
        ensures wave { self.new.wave ≡ self.old.wave }
        ensures shipped { OnOk result ((s : ℕ) → s < length self.old.wave.splits
            → place_of (state_in self.new) s ≢ Unshipped) }
    {
        if self.settled {
            return Ok(());
        }
        settle(alloc, &self.problem, &self.fixed, &mut self.tables)?;
        self.settled = true;
        Ok(())
    }

    /// A slot of a worker comes back: a split that waits takes it, other splits change their places for it,
    /// or it stays free. Without memory nothing changes.
    pub fn free(&mut self, alloc: Global, worker: WorkerNo) -> Result<(), AllocError>
        requires worker { worker < length self.old.wave.workers }
        requires live { (worker_at self.old.wave worker).live ≡ true }
        requires room { (worker_at self.old.wave worker).free < MAX_SLOTS }
        ensures wave { OnOk result (self.new.wave ≡ slot_more self.old.wave worker) }
        ensures same { OnOk result (AreAllSame (state_in self.old) (state_in self.new)) }
        ensures err { OnErr result (self.new ≡ self.old) }
    {
        let _ = alloc;
        let first = self
            .copies
            .first_waiting(&self.problem, &self.tables.places, worker.index());
        free(
            &mut self.problem,
            &mut self.fixed,
            &mut self.tables,
            &mut self.search_back,
            worker,
            first,
        );
        Ok(())
    }

    /// A slot of a worker goes away, as when the worker dies. Where none of its slots is free, a split that
    /// would start on it is not shipped any more. Without memory the wave is as it was.
    pub fn lose(&mut self, alloc: Global, worker: WorkerNo) -> Result<(), AllocError>
        requires worker { worker < length self.old.wave.workers }
        requires usable { IsUsable self.old.wave.workers worker }
        ensures wave { OnOk result (self.new.wave ≡ slot_less self.old.wave worker) }
        ensures err { OnErr result (self.new.wave ≡ self.old.wave) }
    {
        self.settled = false;
        lose(
            alloc,
            &mut self.problem,
            &mut self.fixed,
            &mut self.tables,
            worker,
        )
    }

    /// Starts a split, where it stands, on the worker to which its unit goes: both are taken away, with the
    /// slot. A split that waits, or is not shipped, starts nowhere, and nothing changes.
    pub fn start(&mut self, alloc: Global, split: SplitNo) -> Option<WorkerNo>
        requires { split < length self.old.wave.splits }
        ensures wave { IfSome result (λ worker. self.new.wave ≡ started self.old.wave split worker) }
        ensures admissible { IfSome result (λ worker. IsAdmissible self.old.wave split worker) }
        ensures same { AreAllSame (state_in self.old) (state_in self.new) }
        ensures none { result ≡ None → (self.new ≡ self.old)
            × ((e : End) → place_of (state_in self.old) split ≢ Stands e) }
    {
        match place_at(&self.tables, split.index() as u32) {
            Place::Stands(_) => {
                let worker = start(
                    alloc,
                    &mut self.problem,
                    &mut self.fixed,
                    &mut self.tables,
                    split,
                );
                Some(worker)
            }
            _ => None,
        }
    }

    /// A split is not pending any more. Where it stands, it starts, and a slot is taken away with it. It
    /// answers on which worker.
    pub fn set_aside(&mut self, alloc: Global, split: SplitNo) -> Option<WorkerNo>
        requires { split < length self.old.wave.splits }
        ensures ground { HasSameGround self.old.wave self.new.wave }
        ensures split { self.new.wave.splits ≡ (with_pending self.old.wave split false).splits }
        ensures lines { (w : ℕ) → result ≢ Some w → worker_at self.new.wave w ≡ worker_at self.old.wave w }
    {
        match self.start(alloc, split) {
            Some(worker) => Some(worker),
            None => {
                self.pass_over(alloc, split);
                None
            }
        }
    }

    // A split that does not stand is not pending any more.
    fn pass_over(&mut self, alloc: Global, split: SplitNo)
        requires split { split < length self.old.wave.splits }
        requires idle { (e : End) → place_of (state_in self.old) split ≢ Stands e }
        ensures { self.new.wave ≡ with_pending self.old.wave split false }
    {
        self.settled = false;
        pass_over(
            alloc,
            &mut self.problem,
            &mut self.fixed,
            &mut self.tables,
            split,
        );
    }

    /// A split that has started, or was never pending, is pending again. It is not shipped yet. Without
    /// memory nothing changes.
    pub fn pend(&mut self, alloc: Global, split: SplitNo) -> Result<(), AllocError>
        requires split { split < length self.old.wave.splits }
        requires idle { (split_at self.old.wave split).pending ≡ false }
        ensures wave { OnOk result (self.new.wave ≡ with_pending self.old.wave split true) }
        ensures unshipped { OnOk result (place_of (state_in self.new) split ≡ Unshipped) }
        ensures others { OnOk result (AreOthersSame (state_in self.old) (state_in self.new) split) }
        ensures err { OnErr result (self.new ≡ self.old) }
    {
        self.settled = false;
        pend(
            alloc,
            &mut self.problem,
            &mut self.fixed,
            &mut self.tables,
            split,
        )
    }

    /// The engine goes over to another problem. Where that has the same tree, slots and bytes, as after a
    /// change of holders, bars or pending splits, the splits whose ends stay the same stay where they are;
    /// else none is shipped yet. Without memory the wave is as it was, and some splits may not be shipped any
    /// more.
    pub fn turn_to(&mut self, alloc: Global, problem: Problem) -> Result<(), AllocError>
        ensures wave { OnOk result (self.new.wave ≡ problem) }
        ensures err { OnErr result (self.new.wave ≡ self.old.wave) }
    {
        if is_like(&self.problem, &problem) {
            self.settled = false;
            turn_to(
                alloc,
                &mut self.problem,
                &mut self.fixed,
                &mut self.tables,
                problem,
            )?;
            return Ok(());
        }
        let engine = Engine::new(alloc, problem)?;
        *self = engine;
        Ok(())
    }

    /// The engine goes over to other lines of its workers and other pending splits. No split is shipped then.
    /// Without memory the wave is as it was.
    pub fn renew(
        &mut self,
        alloc: Global,
        lines: &[WorkerLine],
        pending: &[bool],
    ) -> Result<(), AllocError>
        requires workers { length lines.now ≡ length self.old.wave.workers }
        requires most { All (λ line. line.free ≤ MAX_SLOTS) lines.now }
        requires splits { length pending.now ≡ length self.old.wave.splits }
        ensures wave { OnOk result (self.new.wave ≡ turned self.old.wave lines.now pending.now) }
        ensures err { OnErr result (self.new.wave ≡ self.old.wave) }
    {
        self.settled = false;
        renew(
            alloc,
            &mut self.problem,
            &mut self.fixed,
            &mut self.tables,
            lines,
            pending,
        )
    }

    /// The plan when every split is shipped, with prices that certify it.
    pub fn plan(&self, alloc: Global) -> Result<(Plan, Prices), AllocError>
        requires { (s : ℕ) → s < length self.now.wave.splits → place_of (state_in self.now) s ≢ Unshipped }
        ensures sizes { IfOk result
            (λ pair. HasOneSize (claim self.now.wave pair.0.starts pair.1) pair.0.workers) }
        ensures certifies { IfOk result (λ pair. Certifies (claim self.now.wave pair.0.starts pair.1)) }
        ensures idle { IfOk result (λ pair. (w : ℕ) → (IsUsable self.now.wave.workers w → ⊥)
            → worker_price pair.1 w ≡ 0) }
        ensures best { IfOk result (λ pair. IsBest self.now.wave (pairs_of pair.0.starts)) }
    {
        let found = self.found(alloc)?;
        Ok((found.plan, found.prices))
    }

    /// The same, with the splits that start.
    pub fn found(&self, alloc: Global) -> Result<Found, AllocError>
        requires { (s : ℕ) → s < length self.now.wave.splits → place_of (state_in self.now) s ≢ Unshipped }
        ensures sizes { IfOk result
            (λ found. HasOneSize (claim self.now.wave found.plan.starts found.prices) found.plan.workers) }
        ensures certifies { IfOk result
            (λ found. Certifies (claim self.now.wave found.plan.starts found.prices)) }
        ensures idle { IfOk result (λ found. (w : ℕ) → (IsUsable self.now.wave.workers w → ⊥)
            → worker_price found.prices w ≡ 0) }
        ensures best { IfOk result (λ found. IsBest self.now.wave (pairs_of found.plan.starts)) }
        ensures pairs { IfOk result (λ found. found.pairs.items ≡ pairs_of found.plan.starts) }
    {
        read_off(alloc, &self.problem, &self.fixed, &self.tables)
    }

    /// The splits that start when every split is shipped, each with its worker, by rising split. The time
    /// grows with the splits that stand, and not with all splits. No prices are made.
    pub fn starts(&mut self, alloc: Global) -> Result<Vec<(SplitNo, WorkerNo)>, AllocError>
        requires { (s : ℕ) → s < length self.old.wave.splits → place_of (state_in self.old) s ≢ Unshipped }
        ensures best { IfOk result (λ pairs. AreBestStarts self.old.wave pairs.items) }
        ensures wave { self.new.wave ≡ self.old.wave }
        ensures state { state_in self.new ≡ state_in self.old }
    {
        self.problem.limits();
        let pairs = all_starts(alloc, &self.problem, &self.fixed.children, &self.tables)?;
        shorten_lists(&self.problem, &mut self.tables, pairs.len());
        Ok(pairs)
    }
}
