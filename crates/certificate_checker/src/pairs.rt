//! The condition on pairs of a split and a worker, by the slots of the workers.
ghost use Rattle.std.specs.Prelude.{◌≡◌, ℕ, ◌<◌, ◌≤◌, false, length, slice_index_or, All};
ghost use Rattle.std.specs.Prelude.{IsTrue, OnOk, IfErr, IfOk};
ghost use Rattle.wave_problem.specs.declared.TheConstants.{MAX_SPLITS};
ghost use Rattle.wave_problem.specs.Wave.{split_at};
ghost use Rattle.price_certificate.specs.Certificate.{AllHold, Claim, IsFirstOf, of_priced};
ghost use Rattle.certificate_checker.specs.Verdict.{IfFailed, IsFirstUnderpriced, MayComparePairs};
ghost use Rattle.certificate_checker.specs.Slots.{nodes_at, AreFrom, AreSlots, Links};
ghost use Rattle.certificate_checker.specs.Settled.{ArePriced, IsEnough, IsLeast, IsPricedAround};
ghost use Rattle.certificate_checker.specs.Settled.{IsPricedNear, IsPricedOn, IsSettled};
ghost use Rattle.certificate_checker.specs.PairsView.{claim_of, IsReady};
ghost use Rattle.certificate_checker.specs.declared.slots.Level.TheVariants.{Centre, Cluster, Rack};

use crate::CheckError;
use crate::checker::Checker;
use crate::slots::{Chain, Level, Slot, Slots};
use node_ids::{SplitNo, WorkerNo};
use price_certificate::Condition;
use rayon::prelude::*;
use std::alloc::{AllocError, Global};
use std::marker::Model;
use std::thread::Threads;
use wave_problem::Problem;

// How many splits a thread takes at the least: fewer are not worth the start of a thread.
const SPLITS_PER_THREAD: usize = 128;

// A checker that has found the conditions before the pairs to hold, with the slots of the workers by rising
// price.
#[derive(Drop)]
pub(crate) struct PairChecker<'a> {
    checker: &'a Checker<'a>,
    reward: u64,
    slots: Slots,
}

// The least prices of workers with which a split is priced, by how far they are from its nearest holder.
#[derive(Clone, Copy)]
struct Enough {
    held: u64,
    in_rack: u64,
    in_centre: u64,
    anywhere: u64,
}

impl<'a> Model for PairChecker<'a> {
    ghost Value = { Claim };

    ghost view = { claim_of };

    ghost invariant = { IsReady };
}

impl<'a> PairChecker<'a> {
    pub(crate) fn new(
        alloc: Global,
        checker: &'a Checker<'a>,
        slots: Vec<Slot>,
    ) -> Result<PairChecker<'a>, AllocError>
        requires before { MayComparePairs checker.now }
        requires slots { AreSlots checker.now slots.items }
        ensures { IfOk result (λ pairs. pairs ≡ checker.now) }
    {
        let racks = linked(alloc, checker, &slots, Level::Rack)?;
        let centres = linked(alloc, checker, &slots, Level::Centre)?;
        let cluster = linked(alloc, checker, &slots, Level::Cluster)?;
        Ok(PairChecker {
            checker,
            reward: checker.reward(),
            slots: Slots {
                all: slots,
                racks,
                centres,
                cluster,
            },
        })
    }

    fn problem(&self) -> &Problem
        ensures { result.now ≡ self.now.wave }
    {
        self.checker.problem()
    }

    fn splits(&self) -> usize
        ensures count { result ≡ length self.now.wave.splits }
        ensures starts { result ≡ length self.now.starts }
        ensures most { result ≤ MAX_SPLITS }
    {
        self.checker.splits()
    }

    pub(crate) fn check_priced(&self) -> Result<(), Condition>
        ensures ok { OnOk result (AllHold self.now of_priced) }
        ensures err { IfErr result (IsFirstOf self.now of_priced) }
    {
        for i in 0..self.splits() {
            let split = SplitNo::new(i as u32);
            if let Some(worker) = self.first_unless(self.is_settled(split), split) {
                return Err(Condition::Priced(split, worker));
            }
        }
        Ok(())
    }

    // As `check_priced`. Many threads find which splits are settled. Then the others are looked at in order,
    // up to the first that has an underpriced worker.
    pub(crate) fn check_priced_on(
        &self,
        rt: &(impl Threads + Sync),
        alloc: Global,
    ) -> Result<(), CheckError>
        ensures ok { OnOk result (AllHold self.now of_priced) }
        ensures failed { IfFailed result (IsFirstOf self.now of_priced) }
    {
        let settled = self.settled_on(rt, alloc)?;
        for i in 0..self.splits() {
            let split = SplitNo::new(i as u32);
            if let Some(worker) = self.first_unless(settled[i], split) {
                return Err(CheckError::Failed(Condition::Priced(split, worker)));
            }
        }
        Ok(())
    }

    // Which splits are settled, found by as many threads as there are processors.
    fn settled_on(&self, rt: &(impl Threads + Sync), alloc: Global) -> Result<Vec<bool>, AllocError>
        ensures { IfOk result (λ rows. (length rows.items ≡ length self.now.wave.splits)
            × ((s : ℕ) → s < length self.now.wave.splits
            → IsSettled self.now s (slice_index_or rows.items s false))) }
    {
        (0..self.splits())
            .into_par_iter()
            .map(
                |i: usize| -> bool
                    requires { (i < length self.now.wave.splits) × (i < MAX_SPLITS) }
                    ensures { IsSettled self.entry.now i result }
                { self.is_settled(SplitNo::new(i as u32)) },
            )
            .with_min_len(SPLITS_PER_THREAD)
            .collect(rt, alloc)
    }
}

// By which prices a split is settled.
impl<'a> PairChecker<'a> {
    // The first worker with which a split is admissible and priced below the reward: none if it is settled.
    fn first_unless(&self, settled: bool, split: SplitNo) -> Option<WorkerNo>
        requires split { split < length self.now.wave.splits }
        requires settled { IsSettled self.now split settled }
        ensures { IsFirstUnderpriced self.now split result }
    {
        if settled {
            return None;
        }
        self.checker.first_underpriced(split)
    }

    // Whether no worker is cheap enough to be underpriced: none of all, were it a holder, or none under the
    // nodes above the live holders, each by its steps.
    fn is_settled(&self, split: SplitNo) -> bool
        requires split { split < length self.now.wave.splits }
        ensures { IsSettled self.now split result }
    {
        if !self.problem().is_pending(split) {
            return true;
        }
        let enough = self.enough(split);
        self.are_from(split, Level::Cluster, 0, enough.held)
            || (self.is_priced_far(split, &enough) && self.is_priced_near(split, &enough))
    }

    fn enough(&self, split: SplitNo) -> Enough
        requires split { split < length self.now.wave.splits }
        ensures { IsEnough self.now split result }
    {
        let held = self.reward - self.checker.split_price(split);
        let bytes = self.problem().bytes(split);
        Enough {
            held,
            in_rack: held.saturating_sub(2 * bytes),
            in_centre: held.saturating_sub(4 * bytes),
            anywhere: held.saturating_sub(6 * bytes),
        }
    }

    // Whether the split is priced with the workers of a live holder's data centre, and of the other centres.
    fn is_priced_far(&self, split: SplitNo, enough: &Enough) -> bool
        requires split { split < length self.now.wave.splits }
        requires enough { IsEnough self.now split enough.now }
        ensures anywhere { IsTrue result → ArePriced self.now split Cluster 0 6 }
        ensures centres { IsTrue result →
            All (IsPricedAround self.now split Centre 4) (split_at self.now.wave split).holders }
    {
        self.are_from(split, Level::Cluster, 0, enough.in_centre)
            || (self.are_from(split, Level::Cluster, 0, enough.anywhere)
                && self.is_priced_in_centres(split, enough))
    }

    fn is_priced_in_centres(&self, split: SplitNo, enough: &Enough) -> bool
        requires split { split < length self.now.wave.splits }
        requires enough { IsEnough self.now split enough.now }
        ensures { IsTrue result →
            All (IsPricedAround self.now split Centre 4) (split_at self.now.wave split).holders }
    {
        let holders = self.problem().holders(split);
        for i in 0..holders.len() {
            if !self.is_priced_around(split, holders[i], Level::Centre, enough.in_centre) {
                return false;
            }
        }
        true
    }

    // Whether it is priced with each live holder, and with the others of its rack.
    fn is_priced_near(&self, split: SplitNo, enough: &Enough) -> bool
        requires split { split < length self.now.wave.splits }
        requires enough { IsEnough self.now split enough.now }
        ensures { IsTrue result → All (IsPricedNear self.now split) (split_at self.now.wave split).holders }
    {
        let holders = self.problem().holders(split);
        for i in 0..holders.len() {
            if !(self.is_priced_around(split, holders[i], Level::Rack, enough.in_rack)
                && self.is_priced_on(split, holders[i], enough))
            {
                return false;
            }
        }
        true
    }

    // Whether the workers of the node above a holder, if it lives, cost at least so much, but for barred
    // ones.
    fn is_priced_around(&self, split: SplitNo, holder: WorkerNo, level: Level, least: u64) -> bool
        requires split { split < length self.now.wave.splits }
        requires holder { holder < length self.now.wave.workers }
        ensures { (steps : ℕ) → IsLeast self.now split steps least → IsTrue result
            → IsPricedAround self.now split level steps holder }
    {
        let problem = self.problem();
        !problem.is_live(holder)
            || self.are_from(split, level, level.node(problem.tree(), holder), least)
    }

    // Whether it is priced with a holder.
    fn is_priced_on(&self, split: SplitNo, holder: WorkerNo, enough: &Enough) -> bool
        requires split { split < length self.now.wave.splits }
        requires holder { holder < length self.now.wave.workers }
        requires enough { IsEnough self.now split enough.now }
        ensures { IsTrue result → IsPricedOn self.now split holder }
    {
        self.checker.worker_price(holder) >= enough.held || !self.checker.may_take(split, holder)
    }

    // Whether each worker under the node costs at least so much, but for those from which the split is
    // barred.
    fn are_from(&self, split: SplitNo, level: Level, node: usize, least: u64) -> bool
        requires split { split < length self.now.wave.splits }
        requires node { node < nodes_at self.now.wave.tree level }
        ensures { IsTrue result → AreFrom self.now split level node least }
    {
        let problem = self.problem();
        let slots = &self.slots.all;
        let chain = self.slots.chain(level);
        let mut place = chain.first(node);
        'slots: while place < slots.len() {
            let slot = slots[place];
            if slot.price >= least {
                return true;
            }
            if !problem.is_barred(split, slot.worker) {
                return false;
            }
            place = chain.next(place);
        }
        true
    }
}

// The chain of the slots at a level.
fn linked(
    alloc: Global,
    checker: &Checker<'_>,
    slots: &[Slot],
    level: Level,
) -> Result<Chain, AllocError>
    requires { AreSlots checker.now slots.now }
    ensures { IfOk result (Links checker.now slots.now level) }
{
    let tree = checker.problem().tree();
    let mut chain = Chain::new(alloc, level.nodes(tree), slots.len())?;
    for place in (0..slots.len()).rev() {
        chain.link(level.node(tree, slots[place].worker), place);
    }
    Ok(chain)
}
