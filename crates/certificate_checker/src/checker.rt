ghost use Rattle.std.specs.Prelude.{◌≡◌, ◌+◌, ◌*◌, ◌<◌, ◌≤◌, ◌↔◌, [], length, option_copied};
ghost use Rattle.std.specs.Prelude.{unwrap_or, All, IsTrue, OnOk, Err, IfErr, IfOk, IfSome};
ghost use Rattle.node_ids.specs.Sets.{HasPair};
ghost use Rattle.rack_tree.specs.Tree.{IsWithinReach};
ghost use Rattle.rack_tree.specs.declared.TheConstants.{MAX_DISTANCE, MAX_WORKERS};
ghost use Rattle.wave_problem.specs.declared.TheConstants.{MAX_BYTES, MAX_SLOTS, MAX_SPLITS};
ghost use Rattle.price_certificate.specs.declared.TheConstants.{MAX_PLACE_PRICE};
ghost use Rattle.wave_problem.specs.Wave.{cost, worker_at, IsOpen, IsUsable};
ghost use Rattle.wave_problem.specs.Assignment.{load, pairs_of, start_of, total};
ghost use Rattle.price_certificate.specs.Places.{all_places, place_price, places_taken, IsFitRow};
ghost use Rattle.price_certificate.specs.Certificate.{AllHold, charged_claim, claim, Certifies, HasOneSize};
ghost use Rattle.price_certificate.specs.Certificate.{Holds, IsFirstFailure, IsFirstOf, MayTake, priced_at};
ghost use Rattle.price_certificate.specs.Certificate.{reward_of, split_price, worker_price, of_allowed};
ghost use Rattle.price_certificate.specs.Certificate.{of_open, of_priced, of_room, of_spare, of_split_price, of_tight};
ghost use Rattle.price_certificate.specs.Certificate.{of_unstarted, of_worker_price, Claim};
ghost use Rattle.certificate_checker.specs.Verdict.{IfFailed, IsCertified, IsFirstUnderpriced, IsVerdict};
ghost use Rattle.certificate_checker.specs.Verdict.{MayComparePairs};
ghost use Rattle.certificate_checker.specs.Slots.{AreSlots};
ghost use Rattle.certificate_checker.specs.View.{claim_of, most_reward, AreLoads, IsSound};

use crate::pairs::PairChecker;
use crate::slots::{Slot, sort_by_price};
use crate::{Certified, CheckError};
use node_ids::{SplitNo, WorkerNo};
use price_certificate::{Condition, PlacePrices, Prices};
use std::alloc::{AllocError, Global};
use std::marker::Model;
use std::thread::Threads;
use wave_problem::{Plan, Problem};

// A problem, a plan and prices of one size, with what would be counted again at each place. Without a table
// of the loads, each is counted as it is asked for. Without prices of places, all places are free.
#[derive(Drop)]
pub(crate) struct Checker<'a> {
    problem: &'a Problem,
    places: Option<&'a PlacePrices>,
    plan: &'a Plan,
    prices: &'a Prices,
    reward: u64,
    loads: Option<Vec<u32>>,
}

impl<'a> Model for Checker<'a> {
    ghost Value = { Claim };

    ghost view = { claim_of };

    ghost invariant = { IsSound };
}

// What the conditions speak of.
impl<'a> Checker<'a> {
    pub(crate) fn new(
        problem: &'a Problem,
        places: Option<&'a PlacePrices>,
        plan: &'a Plan,
        prices: &'a Prices,
        loads: Option<Vec<u32>>,
    ) -> Checker<'a>
        requires sizes { HasOneSize (claim problem.now plan.now.starts prices.now) plan.now.workers }
        requires loads { IfSome loads (λ loads. AreLoads plan.now loads.items) }
        ensures value { result
            ≡ charged_claim problem.now (unwrap_or (option_copied places.entry) []) plan.now.starts prices.now }
        ensures near { IsWithinReach problem.now.tree }
        ensures fit { All IsFitRow (unwrap_or (option_copied places.entry) []) }
    {
        problem.limits();
        Checker {
            problem,
            places,
            plan,
            prices,
            reward: total_of(places, problem) + problem.reward(),
            loads,
        }
    }

    pub(crate) fn problem(&self) -> &Problem
        ensures { result.now ≡ self.now.wave }
    {
        self.problem
    }

    pub(crate) fn splits(&self) -> usize
        ensures count { result ≡ length self.now.wave.splits }
        ensures starts { result ≡ length self.now.starts }
        ensures prices { result ≡ length self.now.prices.splits }
        ensures most { result ≤ MAX_SPLITS }
    {
        self.problem.splits()
    }

    pub(crate) fn workers(&self) -> usize
        ensures count { result ≡ length self.now.wave.workers }
        ensures prices { result ≡ length self.now.prices.workers }
        ensures most { result ≤ MAX_WORKERS }
    {
        self.problem.workers()
    }

    pub(crate) fn start(&self, split: SplitNo) -> Option<WorkerNo>
        requires { split < length self.now.wave.splits }
        ensures start { result ≡ start_of self.now.starts split }
        ensures known { IfSome result (λ w. w < length self.now.wave.workers) }
    {
        self.plan.of(split)
    }

    fn load(&self, worker: WorkerNo) -> usize
        requires { worker < length self.now.wave.workers }
        ensures { result ≡ load (pairs_of self.now.starts) worker }
    {
        match &self.loads {
            Some(loads) => loads[worker.index()] as usize,
            None => self.plan.load(worker),
        }
    }

    fn slots(&self, worker: WorkerNo) -> usize
        requires { worker < length self.now.wave.workers }
        ensures { result ≡ (worker_at self.now.wave worker).free }
    {
        usize::from(self.problem.free(worker))
    }

    pub(crate) fn reward(&self) -> u64
        ensures reward { result ≡ reward_of self.now }
        ensures most { result ≤ most_reward }
    {
        self.reward
    }

    fn place_price(&self, worker: WorkerNo, place: usize) -> u64
        ensures { result ≡ place_price self.now.places worker place }
    {
        match self.places {
            Some(places) => places.price(worker, place),
            None => 0,
        }
    }

    pub(crate) fn split_price(&self, split: SplitNo) -> u64
        requires { split < length self.now.wave.splits }
        ensures { result ≡ split_price self.now.prices split }
    {
        self.prices.split(split)
    }

    pub(crate) fn worker_price(&self, worker: WorkerNo) -> u64
        requires { worker < length self.now.wave.workers }
        ensures { result ≡ worker_price self.now.prices worker }
    {
        self.prices.worker(worker)
    }

    pub(crate) fn cost(&self, split: SplitNo, worker: WorkerNo) -> u64
        requires split { split < length self.now.wave.splits }
        requires worker { worker < length self.now.wave.workers }
        ensures cost { result ≡ unwrap_or (cost self.now.wave split worker) 0 }
        ensures most { result ≤ MAX_DISTANCE * MAX_BYTES }
    {
        self.problem.cost(split, worker).unwrap_or(0)
    }

    // What is said of a plan that is certified.
    pub(crate) fn certified(&self) -> Certified
        requires { Certifies self.now }
        ensures { IsCertified self.now result }
    {
        Certified {
            count: self.plan.count(),
            cost: self.total(),
            places: self.places_taken(),
        }
    }

    fn places_taken(&self) -> u64
        requires { Certifies self.now }
        ensures { result ≡ places_taken self.now.places self.now.wave (pairs_of self.now.starts) }
    {
        match self.places {
            Some(places) => self.taken_at(places),
            None => 0,
        }
    }

    // What the plan's places cost by these prices.
    fn taken_at(&self, places: &PlacePrices) -> u64
        requires { Certifies self.now }
        ensures { result ≡ places_taken places.now self.now.wave (pairs_of self.now.starts) }
    {
        if places.is_free() {
            return 0;
        }
        self.problem().limits();
        let mut total = 0;
        for i in 0..self.workers() {
            let worker = WorkerNo::new(i as u16);
            total += places.cost(worker, self.load(worker));
        }
        total
    }

    fn total(&self) -> u64
        requires { Certifies self.now }
        ensures { result ≡ total self.now.wave (pairs_of self.now.starts) }
    {
        let mut total = 0;
        for i in 0..self.splits() {
            let split = SplitNo::new(i as u32);
            if let Some(worker) = self.start(split) {
                total += self.tight_cost(split, worker);
            }
        }
        total
    }

    // The cost of a tight start: what both prices leave of the reward.
    fn tight_cost(&self, split: SplitNo, worker: WorkerNo) -> u64
        requires split { split < length self.now.wave.splits }
        requires worker { worker < length self.now.wave.workers }
        requires tight { priced_at self.now.wave self.now.prices split worker ≡ reward_of self.now }
        ensures cost { result ≡ unwrap_or (cost self.now.wave split worker) 0 }
        ensures most { result ≤ MAX_DISTANCE * MAX_BYTES }
    {
        self.problem().limits();
        self.reward() - self.split_price(split) - self.worker_price(worker)
    }
}

// The conditions at one place.
impl<'a> Checker<'a> {
    fn opens(&self, split: SplitNo) -> bool
        requires { split < length self.now.wave.splits }
        ensures { IsTrue result ↔ Holds self.now (Condition.Open split) }
    {
        self.plan.of(split).is_none() || self.is_open(split)
    }

    fn is_open(&self, split: SplitNo) -> bool
        requires { split < length self.now.wave.splits }
        ensures { IsTrue result ↔ IsOpen self.now.wave split }
    {
        self.problem.is_pending(split) && self.problem.has_live_holder(split)
    }

    fn allows(&self, split: SplitNo, worker: WorkerNo) -> bool
        requires split { split < length self.now.wave.splits }
        requires worker { worker < length self.now.wave.workers }
        ensures { IsTrue result ↔ MayTake self.now.wave split worker }
    {
        self.problem.is_live(worker) && !self.problem.is_barred(split, worker)
    }

    // Whether the worker has a slot for which the split is not barred.
    pub(crate) fn may_take(&self, split: SplitNo, worker: WorkerNo) -> bool
        requires split { split < length self.now.wave.splits }
        requires worker { worker < length self.now.wave.workers }
        ensures { IsTrue result ↔ (IsUsable self.now.wave.workers worker
            × (HasPair self.now.wave.barred split worker → ⊥)) }
    {
        self.problem.is_live(worker)
            && self.problem.free(worker) > 0
            && !self.problem.is_barred(split, worker)
    }

    fn has_room(&self, worker: WorkerNo) -> bool
        requires { worker < length self.now.wave.workers }
        ensures { IsTrue result ↔ Holds self.now (Condition.Room worker) }
    {
        self.load(worker) <= self.slots(worker)
    }

    fn has_split_price(&self, split: SplitNo) -> bool
        requires { split < length self.now.wave.splits }
        ensures { IsTrue result ↔ Holds self.now (Condition.SplitPrice split) }
    {
        self.split_price(split) <= self.reward()
    }

    fn has_worker_price(&self, worker: WorkerNo) -> bool
        requires { worker < length self.now.wave.workers }
        ensures { IsTrue result ↔ Holds self.now (Condition.WorkerPrice worker) }
    {
        self.worker_price(worker) <= self.reward()
    }

    // Both prices of a pair.
    fn price(&self, split: SplitNo, worker: WorkerNo) -> u64
        requires before { MayComparePairs self.now }
        requires split { split < length self.now.wave.splits }
        requires worker { worker < length self.now.wave.workers }
        ensures sum { result ≡ split_price self.now.prices split + worker_price self.now.prices worker }
        ensures most { result ≤ 2 * most_reward }
    {
        self.prices.split(split) + self.prices.worker(worker)
    }

    fn is_priced(&self, split: SplitNo, worker: WorkerNo) -> bool
        requires before { MayComparePairs self.now }
        requires split { split < length self.now.wave.splits }
        requires worker { worker < length self.now.wave.workers }
        ensures { IsTrue result ↔ Holds self.now (Condition.Priced split worker) }
    {
        let sum = self.price(split, worker) + self.cost(split, worker);
        sum >= self.reward || !self.problem.admissible(split, worker)
    }

    fn is_tight(&self, split: SplitNo, worker: WorkerNo) -> bool
        requires before { MayComparePairs self.now }
        requires split { split < length self.now.wave.splits }
        requires worker { worker < length self.now.wave.workers }
        ensures { IsTrue result ↔ (priced_at self.now.wave self.now.prices split worker
            ≡ reward_of self.now) }
    {
        self.price(split, worker) + self.cost(split, worker) == self.reward
    }

    // The first worker with which the split is admissible and priced below the reward, by a look at each.
    pub(crate) fn first_underpriced(&self, split: SplitNo) -> Option<WorkerNo>
        requires before { MayComparePairs self.now }
        requires split { split < length self.now.wave.splits }
        ensures { IsFirstUnderpriced self.now split result }
    {
        if !self.is_open(split) {
            return None;
        }
        for i in 0..self.workers() {
            let worker = WorkerNo::new(i as u16);
            if !self.is_priced(split, worker) {
                return Some(worker);
            }
        }
        None
    }

    fn is_free_unless_started(&self, split: SplitNo) -> bool
        requires { split < length self.now.wave.splits }
        ensures { IsTrue result ↔ Holds self.now (Condition.Unstarted split) }
    {
        self.start(split).is_some() || self.split_price(split) == 0
    }

    fn fits_places(&self, worker: WorkerNo) -> bool
        requires { worker < length self.now.wave.workers }
        ensures { IsTrue result ↔ Holds self.now (Condition.Spare worker) }
    {
        let taken = self.load(worker);
        let price = self.worker_price(worker);
        (taken == 0 || self.place_price(worker, taken - 1) <= price)
            && (taken >= self.slots(worker) || price <= self.place_price(worker, taken))
    }
}

// The conditions at all places, in their order.
impl<'a> Checker<'a> {
    pub(crate) fn verdict(&self, alloc: Global) -> Result<Certified, Condition>
        ensures { IsVerdict self.now result }
    {
        self.check_before_pairs()?;
        self.check_priced(alloc)?;
        self.check_after_priced()?;
        Ok(self.certified())
    }

    // As `verdict`, with the pass over the pairs on many threads.
    pub(crate) fn verdict_on(
        &self,
        rt: &(impl Threads + Sync),
        alloc: Global,
    ) -> Result<Certified, CheckError>
        ensures certified { IfOk result (IsCertified self.now) }
        ensures failed { IfFailed result (IsFirstFailure self.now) }
        ensures memory { result ≡ Err CheckError.Memory → MayComparePairs self.now }
    {
        self.check_before_pairs()?;
        self.pair_checker(alloc)?.check_priced_on(rt, alloc)?;
        self.check_after_priced()?;
        Ok(self.certified())
    }

    fn check_before_pairs(&self) -> Result<(), Condition>
        ensures ok { OnOk result (MayComparePairs self.now) }
        ensures err { IfErr result (IsFirstFailure self.now) }
    {
        self.check_open()?;
        self.check_allowed()?;
        self.check_room()?;
        self.check_split_prices()?;
        self.check_worker_prices()
    }

    // By the slots of the workers; where there is no memory for them, by a look at each pair.
    fn check_priced(&self, alloc: Global) -> Result<(), Condition>
        requires { MayComparePairs self.now }
        ensures ok { OnOk result (AllHold self.now of_priced) }
        ensures err { IfErr result (IsFirstOf self.now of_priced) }
    {
        match self.pair_checker(alloc) {
            Ok(pairs) => pairs.check_priced(),
            Err(_) => self.check_each_pair(),
        }
    }

    fn check_after_priced(&self) -> Result<(), Condition>
        requires before { MayComparePairs self.now }
        requires priced { AllHold self.now of_priced }
        ensures ok { OnOk result (Certifies self.now) }
        ensures err { IfErr result (IsFirstFailure self.now) }
    {
        self.check_tight()?;
        self.check_unstarted()?;
        self.check_spare()
    }

    // What tests the pairs by the slots of all workers.
    fn pair_checker(&self, alloc: Global) -> Result<PairChecker<'_>, AllocError>
        requires { MayComparePairs self.now }
        ensures { IfOk result (λ pairs. pairs ≡ self.now) }
    {
        let slots = self.sorted_slots(alloc)?;
        PairChecker::new(alloc, self, slots)
    }

    // The slots of all workers by rising price. A slot that nobody can take counts as the dearest.
    fn sorted_slots(&self, alloc: Global) -> Result<Vec<Slot>, AllocError>
        ensures { IfOk result (λ slots. AreSlots self.now slots.items) }
    {
        let mut slots = Vec::with_capacity(alloc, self.workers())?;
        for i in 0..self.workers() {
            let worker = WorkerNo::new(i as u16);
            slots.push_reserved(Slot {
                worker,
                price: self.slot_price(worker),
            });
        }
        sort_by_price(&mut slots);
        Ok(slots)
    }

    fn slot_price(&self, worker: WorkerNo) -> u64
        requires { worker < length self.now.wave.workers }
        ensures { IsUsable self.now.wave.workers worker → result ≡ worker_price self.now.prices worker }
    {
        if self.problem.is_live(worker) && self.problem.free(worker) > 0 {
            self.worker_price(worker)
        } else {
            self.reward()
        }
    }

    fn check_open(&self) -> Result<(), Condition>
        ensures ok { OnOk result (AllHold self.now of_open) }
        ensures err { IfErr result (IsFirstOf self.now of_open) }
    {
        for i in 0..self.splits() {
            let split = SplitNo::new(i as u32);
            if !self.opens(split) {
                return Err(Condition::Open(split));
            }
        }
        Ok(())
    }

    fn check_allowed(&self) -> Result<(), Condition>
        ensures ok { OnOk result (AllHold self.now of_allowed) }
        ensures err { IfErr result (IsFirstOf self.now of_allowed) }
    {
        for i in 0..self.splits() {
            let split = SplitNo::new(i as u32);
            if let Some(worker) = self.start(split) {
                if !self.allows(split, worker) {
                    return Err(Condition::Allowed(split, worker));
                }
            }
        }
        Ok(())
    }

    fn check_room(&self) -> Result<(), Condition>
        requires { AllHold self.now of_allowed }
        ensures ok { OnOk result (AllHold self.now of_room) }
        ensures err { IfErr result (IsFirstOf self.now of_room) }
    {
        for i in 0..self.workers() {
            let worker = WorkerNo::new(i as u16);
            if !self.has_room(worker) {
                return Err(Condition::Room(worker));
            }
        }
        Ok(())
    }

    fn check_split_prices(&self) -> Result<(), Condition>
        ensures ok { OnOk result (AllHold self.now of_split_price) }
        ensures err { IfErr result (IsFirstOf self.now of_split_price) }
    {
        for i in 0..self.splits() {
            let split = SplitNo::new(i as u32);
            if !self.has_split_price(split) {
                return Err(Condition::SplitPrice(split));
            }
        }
        Ok(())
    }

    fn check_worker_prices(&self) -> Result<(), Condition>
        ensures ok { OnOk result (AllHold self.now of_worker_price) }
        ensures err { IfErr result (IsFirstOf self.now of_worker_price) }
    {
        for i in 0..self.workers() {
            let worker = WorkerNo::new(i as u16);
            if !self.has_worker_price(worker) {
                return Err(Condition::WorkerPrice(worker));
            }
        }
        Ok(())
    }

    fn check_each_pair(&self) -> Result<(), Condition>
        requires { MayComparePairs self.now }
        ensures ok { OnOk result (AllHold self.now of_priced) }
        ensures err { IfErr result (IsFirstOf self.now of_priced) }
    {
        for i in 0..self.splits() {
            let split = SplitNo::new(i as u32);
            if let Some(worker) = self.first_underpriced(split) {
                return Err(Condition::Priced(split, worker));
            }
        }
        Ok(())
    }

    fn check_tight(&self) -> Result<(), Condition>
        requires { MayComparePairs self.now }
        ensures ok { OnOk result (AllHold self.now of_tight) }
        ensures err { IfErr result (IsFirstOf self.now of_tight) }
    {
        for i in 0..self.splits() {
            let split = SplitNo::new(i as u32);
            if let Some(worker) = self.start(split) {
                if !self.is_tight(split, worker) {
                    return Err(Condition::Tight(split, worker));
                }
            }
        }
        Ok(())
    }

    fn check_unstarted(&self) -> Result<(), Condition>
        ensures ok { OnOk result (AllHold self.now of_unstarted) }
        ensures err { IfErr result (IsFirstOf self.now of_unstarted) }
    {
        for i in 0..self.splits() {
            let split = SplitNo::new(i as u32);
            if !self.is_free_unless_started(split) {
                return Err(Condition::Unstarted(split));
            }
        }
        Ok(())
    }

    fn check_spare(&self) -> Result<(), Condition>
        requires { AllHold self.now of_room }
        ensures ok { OnOk result (AllHold self.now of_spare) }
        ensures err { IfErr result (IsFirstOf self.now of_spare) }
    {
        for i in 0..self.workers() {
            let worker = WorkerNo::new(i as u16);
            if !self.fits_places(worker) {
                return Err(Condition::Spare(worker));
            }
        }
        Ok(())
    }
}

// What the places of all free slots cost together.
fn total_of(places: Option<&PlacePrices>, problem: &Problem) -> u64
    ensures total { result ≡ all_places (unwrap_or (option_copied places.entry) []) problem.now }
    ensures most { result ≤ MAX_WORKERS * (MAX_SLOTS * MAX_PLACE_PRICE) }
    ensures fit { All IsFitRow (unwrap_or (option_copied places.entry) []) }
{
    match places {
        Some(places) => {
            places.limits();
            places.total(problem)
        }
        None => 0,
    }
}

// How many splits the plan starts on each of its workers.
pub(crate) fn loads_of(alloc: Global, plan: &Plan) -> Result<Vec<u32>, AllocError>
    ensures { IfOk result (λ loads. AreLoads plan.now loads.items) }
{
    let mut loads = vec![in alloc; 0; plan.workers()]?;
    for i in 0..plan.splits() {
        if let Some(worker) = plan.of(SplitNo::new(i as u32)) {
            loads[worker.index()] += 1;
        }
    }
    Ok(loads)
}
