//! The waves of a master: what is to be planned, and what starts.
ghost use Rattle.std.specs.Prelude.{◌≡◌, ◌≢◌, ◌<◌, ◌≤◌, length, false, true, Err, IfErr};
ghost use Rattle.std.specs.Prelude.{IfOk, OnErr, OnOk, map};
ghost use Rattle.wave_problem.specs.declared.TheConstants.{MAX_SPLITS};
ghost use Rattle.wave_problem.specs.Assignment.{IsBest, pairs_of, total};
ghost use Rattle.price_certificate.specs.declared.Condition.{Condition};
ghost use Rattle.price_certificate.specs.Certificate.{Certifies, IsFirstFailure};
ghost use Rattle.certificate_checker.specs.Verdict.{IsCertified};
ghost use Rattle.flow_network.specs.declared.kinds.NetworkKind.{NetworkKind};
ghost use Rattle.wave_planner.specs.Planned.{IsMadeOver};
ghost use Rattle.master_state.specs.Refusals.{has_no_room};
ghost use Rattle.master_state.specs.Steps.{problem_of, worker_line};
ghost use Rattle.master_state.specs.Jobs.{AnswersCommit, IsCommitted, LacksRoomForBest, present};
ghost use Rattle.master_core.specs.Near.{HasFlags, HasLines, HasPlaces, IsFlagged, IsLined, IsNear, IsSettled};
ghost use Rattle.master_core.specs.Starts.{AreCommitted, ArePlanned, ArePriced, HasSizesOf, HasStarted, HasTotals};

use crate::kept::Kept;
use crate::kept_plan::{BestStarts, fresh, gone_over, kept_up, plan_of, starts_of};
use crate::master::Master;
use crate::touched::Touched;
use certificate_checker::{Certified, certify};
use master_state::{CommitError, Event, Wave};
use master_tables::lines::{all_split_lines, worker_lines};
use master_tables::log::record_event;
use master_tables::starting::start_each;
use node_ids::{AttemptNo, SplitNo, WorkerNo};
use price_certificate::Prices;
use std::alloc::{AllocError, Global};
use tree_planner::Engine;
use wave_planner::{Planned, pairs_of};
use wave_problem::{Plan, Problem};

impl Master {
    /// The problem of the present state, from which the next wave is planned.
    pub fn problem(&self, alloc: Global) -> Result<Problem, AllocError>
        ensures present { IfOk result (λ problem. problem ≡ problem_of self.now.setup self.now.state) }
        ensures splits { IfOk result (λ problem.
            length problem.splits ≡ length self.now.setup.cluster.splits) }
        ensures workers { IfOk result (λ problem.
            length problem.workers ≡ length self.now.setup.cluster.slots) }
    {
        let workers = worker_lines(alloc, self.workers.workers())?;
        let splits = all_split_lines(alloc, self.cluster.splits(), &self.splits, &self.holders)?;
        let tree = self.cluster.tree().copy(alloc)?;
        let barred = self.workers.bars().rows(alloc)?;
        Problem::within_limits(alloc, tree, workers, &splits, barred)
    }

    /// Starts the splits of a plan, if its prices certify it in the present state. It is tested in the
    /// order HistoryFull, Memory, Stale.
    pub fn commit(&mut self, alloc: Global, planned: &Planned) -> Result<Wave, CommitError>
        requires { HasSizesOf self.old.setup planned.now.plan planned.now.prices }
        ensures { AnswersCommit self.old planned.now.plan.starts planned.now.prices result self.new }
    {
        self.commit_plan(alloc, planned.plan(), planned.prices())
    }

    /// As `commit`, of a plan and prices from anywhere.
    pub fn commit_plan(
        &mut self,
        alloc: Global,
        plan: &Plan,
        prices: &Prices,
    ) -> Result<Wave, CommitError>
        requires { HasSizesOf self.old.setup plan.now prices.now }
        ensures { AnswersCommit self.old plan.now.starts prices.now result self.new }
    {
        self.is_kept();
        if self.has_no_room(plan.count()) {
            return Err(CommitError::HistoryFull);
        }
        let Ok(pairs) = pairs_of(alloc, plan) else {
            return Err(CommitError::Memory);
        };
        let certified = self.certified(alloc, plan, prices)?;
        Ok(self.start_pairs(&pairs, certified.cost))
    }

    /// Plans the best wave of the present state, by an engine that is kept from wave to wave, and starts it:
    /// `problem`, a plan over the network with racks and `commit` in one call. The engine's prices are known
    /// to certify the plan, so that it is not certified once more, and is never stale. It is tested in the
    /// order Memory, HistoryFull.
    pub fn start_best(&mut self, alloc: Global) -> Result<(Planned, Wave), CommitError>
        ensures over { IfOk result (λ p. IsMadeOver NetworkKind.Racks
            (problem_of self.old.setup self.old.state) p.0.plan.starts p.0.prices) }
        ensures certifies { IfOk result (λ p.
            Certifies (present self.old p.0.plan.starts p.0.prices)) }
        ensures committed { IfOk result (λ p. IsCommitted self.old p.0.plan.starts p.1 self.new) }
        ensures full { result ≡ Err CommitError.HistoryFull → LacksRoomForBest self.old }
        ensures fresh { (c : Condition) → result ≢ Err (CommitError.Stale c) }
        ensures err { OnErr result (self.new ≡ self.old) }
    {
        let planned = self.best_plan(alloc)?;
        let wave = self.start_in_room(planned.pairs(), planned.certified().cost)?;
        Ok((planned, wave))
    }

    /// As `start_best`, but it tells the starts alone, by rising split, without the plan and the prices. So it
    /// takes as long as what starts and what completions, failures and beats have changed since the last wave,
    /// not as there are splits. After a death, a join or other holders it looks at all of them once.
    pub fn start_wave(
        &mut self,
        alloc: Global,
    ) -> Result<(Vec<(SplitNo, WorkerNo)>, Wave), CommitError>
        ensures started { IfOk result (λ p. HasStarted self.old p.0.items p.1 self.new) }
        ensures full { result ≡ Err CommitError.HistoryFull → LacksRoomForBest self.old }
        ensures fresh { (c : Condition) → result ≢ Err (CommitError.Stale c) }
        ensures err { OnErr result (self.new ≡ self.old) }
    {
        let BestStarts { pairs, cost } = self.best_starts(alloc)?;
        let wave = self.start_in_room(&pairs, cost)?;
        Ok((pairs, wave))
    }

    // A best plan of the present state, with the prices that show it.
    fn best_plan(&mut self, alloc: Global) -> Result<Planned, CommitError>
        ensures over { IfOk result (λ planned. IsMadeOver NetworkKind.Racks
            (problem_of self.old.setup self.old.state) planned.plan.starts planned.prices) }
        ensures certifies { IfOk result (λ planned.
            Certifies (present self.old planned.plan.starts planned.prices)) }
        ensures best { IfOk result (λ planned.
            IsBest (problem_of self.old.setup self.old.state) (pairs_of planned.plan.starts)) }
        ensures counted { IfOk result (λ planned.
            HasTotals self.old planned.plan.starts planned.certified) }
        ensures few { IfOk result (λ planned. length (pairs_of planned.plan.starts) ≤ MAX_SPLITS) }
        ensures memory { IfErr result (λ e. e ≡ CommitError.Memory) }
        ensures same { self.new ≡ self.old }
    {
        let engine = self.present_engine(alloc)?;
        let Ok(planned) = plan_of(alloc, &engine) else {
            return Err(CommitError::Memory);
        };
        self.keep_engine(engine);
        Ok(planned)
    }

    // The starts of a best plan of the present state.
    fn best_starts(&mut self, alloc: Global) -> Result<BestStarts, CommitError>
        ensures planned { IfOk result (λ starts.
            ArePlanned (problem_of self.old.setup self.old.state) starts.pairs.items) }
        ensures cost { IfOk result (λ starts. starts.cost
            ≡ total (problem_of self.old.setup self.old.state) starts.pairs.items) }
        ensures few { IfOk result (λ starts. length starts.pairs.items ≤ MAX_SPLITS) }
        ensures memory { IfErr result (λ e. e ≡ CommitError.Memory) }
        ensures same { self.new ≡ self.old }
    {
        let mut engine = self.present_engine(alloc)?;
        let Ok(starts) = starts_of(alloc, &mut engine) else {
            return Err(CommitError::Memory);
        };
        self.keep_engine(engine);
        Ok(starts)
    }

    // An engine of the present state's problem, with all splits shipped. None is kept then.
    fn present_engine(&mut self, alloc: Global) -> Result<Engine, CommitError>
        ensures present { IfOk result (λ engine. engine.wave ≡ problem_of self.old.setup self.old.state) }
        ensures settled { IfOk result IsSettled }
        ensures memory { IfErr result (λ e. e ≡ CommitError.Memory) }
        ensures same { self.new ≡ self.old }
    {
        let kept = self.engine.take();
        match self.engine_from(alloc, kept, &self.touched) {
            Ok(engine) => Ok(engine),
            Err(_) => Err(CommitError::Memory),
        }
    }

    // Keeps an engine of the present state's problem for the next wave.
    fn keep_engine(&mut self, engine: Engine)
        requires { engine.wave ≡ problem_of self.old.setup self.old.state }
        ensures { self.new ≡ self.old }
    {
        self.engine = Kept::Near(engine);
        self.touched.clear();
    }

    // An engine of the present state's problem: the kept engine, or a new engine.
    fn engine_from(
        &self,
        alloc: Global,
        kept: Kept,
        touched: &Touched,
    ) -> Result<Engine, AllocError>
        requires near { IsNear kept self.now.setup.cluster self.now.state.holders
            self.now.state.workers.barred }
        requires flagged { IsFlagged kept touched.now self.now.state.splits }
        requires lined { IsLined kept touched.now (map worker_line self.now.state.workers.each) }
        ensures present { IfOk result (λ engine. engine.wave ≡ problem_of self.now.setup self.now.state) }
        ensures settled { IfOk result IsSettled }
    {
        match kept {
            Kept::Near(engine) => self.kept_up(alloc, engine, touched),
            Kept::Far(engine) => gone_over(alloc, engine, self.problem(alloc)?),
            Kept::None => fresh(alloc, self.problem(alloc)?),
        }
    }

    // The engine of a wave with the present holders and barred pairs, of which the workers' lines and the
    // pending splits alone have changed.
    fn kept_up(
        &self,
        alloc: Global,
        engine: Engine,
        touched: &Touched,
    ) -> Result<Engine, AllocError>
        requires near { HasPlaces engine.wave self.now.setup.cluster self.now.state.holders
            self.now.state.workers.barred }
        requires flagged { HasFlags engine.wave touched.now self.now.state.splits }
        requires lined { HasLines engine.wave touched.now (map worker_line self.now.state.workers.each) }
        ensures present { IfOk result (λ kept. kept.wave ≡ problem_of self.now.setup self.now.state) }
        ensures settled { IfOk result IsSettled }
    {
        engine.problem().limits();
        kept_up(alloc, engine, self.workers.workers(), touched, &self.splits)
    }

    // Starts the splits of a best plan of the present state, if there is room for them.
    fn start_in_room(
        &mut self,
        pairs: &[(SplitNo, WorkerNo)],
        cost: u64,
    ) -> Result<Wave, CommitError>
        requires few { length pairs.now ≤ MAX_SPLITS }
        requires best { IsBest (problem_of self.old.setup self.old.state) pairs.now }
        requires priced { ArePriced self.old pairs.now }
        requires cost { cost ≡ total (problem_of self.old.setup self.old.state) pairs.now }
        ensures committed { IfOk result (λ wave. AreCommitted self.old pairs.now wave self.new) }
        ensures why { IfErr result (λ e. (e ≡ CommitError.HistoryFull)
            × (has_no_room self.old.setup self.old.state (length pairs.now) ≡ true)) }
        ensures err { OnErr result (self.new ≡ self.old) }
    {
        if self.has_no_room(pairs.len()) {
            return Err(CommitError::HistoryFull);
        }
        Ok(self.start_pairs(pairs, cost))
    }

    // Starts the splits of a best plan of the present state, for which there is room.
    fn start_pairs(&mut self, pairs: &[(SplitNo, WorkerNo)], cost: u64) -> Wave
        requires best { IsBest (problem_of self.old.setup self.old.state) pairs.now }
        requires priced { ArePriced self.old pairs.now }
        requires cost { cost ≡ total (problem_of self.old.setup self.old.state) pairs.now }
        requires room { has_no_room self.old.setup self.old.state (length pairs.now) ≡ false }
        ensures { AreCommitted self.old pairs.now result self.new }
    {
        let first = AttemptNo::new(self.starts.len() as u32 + 1);
        let count = pairs.len() as u32;
        start_each(&mut self.workers, &mut self.splits, &mut self.starts, pairs);
        self.touched.touch_each(pairs);
        let place = record_event(&mut self.history, Event::Wave { first, count, cost });
        Wave {
            place,
            first,
            count,
            cost,
        }
    }

    // What the prices say of the plan in the present state.
    fn certified(
        &self,
        alloc: Global,
        plan: &Plan,
        prices: &Prices,
    ) -> Result<Certified, CommitError>
        requires { HasSizesOf self.now.setup plan.now prices.now }
        ensures certified { IfOk result (λ certified.
            IsCertified (present self.now plan.now.starts prices.now) certified) }
        ensures best { OnOk result
            (IsBest (problem_of self.now.setup self.now.state) (pairs_of plan.now.starts)) }
        ensures counted { IfOk result (λ certified. HasTotals self.now plan.now.starts certified) }
        ensures stale { (c : Condition) → result ≡ Err (CommitError.Stale c)
            → IsFirstFailure (present self.now plan.now.starts prices.now) c }
        ensures room { result ≢ Err CommitError.HistoryFull }
    {
        let Ok(problem) = self.problem(alloc) else {
            return Err(CommitError::Memory);
        };
        match certify(alloc, &problem, plan, prices) {
            Ok(certified) => Ok(certified),
            Err(condition) => Err(CommitError::Stale(condition)),
        }
    }
}
