ghost use Rattle.std.specs.Prelude.{◌≡◌, ◌+◌, ◌-◌, ◌<◌, ◌≤◌, ◌⊎◌, [], ◌++◌, drop, length, true};
ghost use Rattle.std.specs.Prelude.{vec_capacity, vec_len};
ghost use Rattle.std.specs.Prelude.{Err, IfOk, MatchResult};
ghost use Rattle.flow_network.specs.declared.kinds.NetworkKind.{NetworkKind};
ghost use Rattle.wave_planner.specs.Planned.{IsMadeOver};
ghost use Rattle.wave_problem.specs.Assignment.{IsBest, pairs_of};
ghost use Rattle.price_certificate.specs.Certificate.{claim, Certifies, HasOneSize};
ghost use Rattle.master_core.specs.Starts.{HasSizesOf};
ghost use Rattle.hand_ledger.specs.Hands.{has_room, with_call};
ghost use Rattle.shared_master.specs.declared.waves.WaveError.{WaveError};
ghost use Rattle.shared_master.specs.Held.{IsMasterOf};
ghost use Rattle.shared_master.specs.Waves.{CommitsAs, has_place, IsAsked, IsLastWave, IsUnasked};
ghost use Rattle.shared_master.specs.Waves.{PlansAs, ahead_event, kept_as, noted_wave, wave_event, why_of};

use crate::held::Held;
use crate::of_job::OfJob;
use hand_ledger::{Hand, Hands};
use master_core::Master;
use master_state::{CommitError, Event, Start, Wave, Why};
use node_ids::AttemptNo;
use price_certificate::Condition;
use std::alloc::Global;
use std::sync::ledger::Ledger;
use wave_planner::{Planned, plan};
use wave_problem::Problem;

/// A wave or the heads of a plan ahead, and the starts by rising split.
#[derive(Drop)]
pub struct SharedWave {
    pub wave: Wave,
    pub starts: Vec<Start>,
}

/// Why no wave was committed. It is tested in the order StrangeHand, HistoryFull for want of a place for an
/// event, Memory, HistoryFull for want of room for the starts, and again Memory.
#[derive(Clone, Copy, Debug, PartialEq, Eq)]
pub enum WaveError {
    /// No memory for the problem, the plan or the starts.
    Memory = 1,
    /// No place is left for the event or the starts, in the history or in the hand.
    HistoryFull = 2,
    /// The hand is of another shared master.
    StrangeHand = 3,
}

/// What is done before and after the solution of a wave, while the lock is free.
pub trait Between {
    /// Before the solution of this turn, from 1 to 3, when its problem is known.
    fn asked(&self, turn: u32);

    /// After the solution of this turn, before its commit.
    fn solved(&self, turn: u32);
}

/// Nothing is done.
#[derive(Clone, Copy, Debug)]
pub struct Nothing;

impl Between for Nothing {
    fn asked(&self, _turn: u32) {}

    fn solved(&self, _turn: u32) {}
}

// A plan with its prices, and room for its starts: taken while the lock is free, so that want of it is told
// before a full history.
#[derive(Drop)]
pub(crate) struct Solved {
    pub(crate) planned: Planned,
    pub(crate) starts: Vec<Start>,
}

impl Solved {
    // The room for its starts.
    fn into_starts(self) -> Vec<Start>
        ensures { result ≡ self.starts }
    {
        self.starts
    }
}

// Why a plan was not committed.
pub(crate) enum Uncommitted {
    Refused(WaveError),
    Stale(Condition),
}

// Plans a wave.
pub(crate) fn solve(alloc: Global, problem: &Problem) -> Result<Solved, WaveError>
    ensures over { IfOk result (λ s.
        IsMadeOver NetworkKind.Racks problem.now s.planned.plan.starts s.planned.prices) }
    ensures certifies { IfOk result
        (λ s. Certifies (claim problem.now s.planned.plan.starts s.planned.prices)) }
    ensures best { IfOk result (λ s. IsBest problem.now (pairs_of s.planned.plan.starts)) }
    ensures sizes { IfOk result (λ s. HasOneSize (claim problem.now s.planned.plan.starts s.planned.prices)
        s.planned.plan.workers) }
    ensures starts { IfOk result (λ s. s.starts.items ≡ []) }
    ensures room { IfOk result (λ s. length (pairs_of s.planned.plan.starts) ≤ vec_capacity s.starts) }
    ensures err { (e : WaveError) → result ≡ Err e → e ≡ WaveError.Memory }
{
    let Ok(planned) = plan(alloc, problem) else {
        return Err(WaveError::Memory);
    };
    let Ok(starts) = Vec::with_capacity(alloc, planned.plan().count()) else {
        return Err(WaveError::Memory);
    };
    Ok(Solved { planned, starts })
}

impl<L: Ledger + OfJob> Held<L> {
    // The problem of the present state, where the hand is this master's and a place is left for an event.
    pub(crate) fn problem(&self, alloc: Global, hand: &mut Hand<L>) -> Result<Problem, WaveError>
        ensures of_job { IsMasterOf L.setup self.now.job }
        ensures asked { MatchResult result
            (λ problem. IsAsked self.now.job hand.old problem × (hand.new ≡ hand.old))
            (λ e. IsUnasked self.now.job hand.old e
            × (hand.new ≡ noted_wave (length self.now.job.setup.cluster.splits) hand.old e)) }
        ensures splits { IfOk result (λ problem. length problem.splits ≡ length L.setup.cluster.splits) }
        ensures workers { IfOk result (λ problem. length problem.workers ≡ length L.setup.cluster.slots) }
    {
        self.is_of_job();
        let splits = self.splits();
        if !self.is_own(hand) {
            return Err(refused(hand, splits, WaveError::StrangeHand));
        }
        if !self.has_place(hand) {
            return Err(refused(hand, splits, WaveError::HistoryFull));
        }
        let Ok(problem) = self.master.problem(alloc) else {
            return Err(WaveError::Memory);
        };
        Ok(problem)
    }

    // How many splits the job has.
    pub(crate) fn splits(&self) -> usize
        ensures { result ≡ length self.now.job.setup.cluster.splits }
    {
        self.master.cluster().splits().len()
    }

    // Whether a place is left for an event, in the hand and in the history.
    fn has_place(&self, hand: &Hand<L>) -> bool
        ensures { result ≡ has_place self.now.job hand.now }
    {
        hand.has_room(0, 0) && self.master.events() < self.master.limits().events
    }

    // Commits a plan.
    pub(crate) fn commit(
        &mut self,
        alloc: Global,
        hand: &mut Hand<L>,
        solved: Solved,
    ) -> Result<SharedWave, Uncommitted>
        requires sizes { HasSizesOf L.setup solved.planned.plan solved.planned.prices }
        requires starts { solved.starts.items ≡ [] }
        requires room { length (pairs_of solved.planned.plan.starts) ≤ vec_capacity solved.starts }
        ensures old { IsMasterOf L.setup self.old.job }
        ensures answer { CommitsAs self.old.job hand.old solved.planned.plan.starts
            solved.planned.prices result self.new.job hand.new }
        ensures made { self.new.made ≡ self.old.made }
    {
        self.is_of_job();
        let splits = self.splits();
        if !self.is_own(hand) {
            let error = refused(hand, splits, WaveError::StrangeHand);
            return Err(Uncommitted::Refused(error));
        }
        if !hand.has_room(0, solved.planned.plan().count()) {
            let error = refused(hand, splits, WaveError::HistoryFull);
            return Err(Uncommitted::Refused(error));
        }
        let wave = match self.master.commit(alloc, &solved.planned) {
            Ok(wave) => wave,
            Err(CommitError::Stale(condition)) => return Err(Uncommitted::Stale(condition)),
            Err(CommitError::HistoryFull) => {
                let error = refused(hand, splits, WaveError::HistoryFull);
                return Err(Uncommitted::Refused(error));
            }
            Err(CommitError::Memory) => return Err(Uncommitted::Refused(WaveError::Memory)),
        };
        // (its starts are of this cluster)
        self.master.is_kept();
        let starts = solved.into_starts();
        let event = wave_event(&wave);
        Ok(keep_starts(&self.master, &mut self.hands, hand, wave, &event, starts))
    }

    // Plans a wave and commits it in one hold of the lock.
    pub(crate) fn plan_wave(
        &mut self,
        alloc: Global,
        hand: &mut Hand<L>,
    ) -> Result<SharedWave, WaveError>
        ensures old { IsMasterOf L.setup self.old.job }
        ensures answer { PlansAs self.old.job hand.old result self.new.job hand.new }
        ensures made { self.new.made ≡ self.old.made }
    {
        self.is_of_job();
        let problem = self.problem(alloc, hand)?;
        let solved = solve(alloc, &problem)?;
        match self.commit(alloc, hand, solved) {
            Ok(shared) => Ok(shared),
            Err(Uncommitted::Refused(error)) => Err(error),
            Err(Uncommitted::Stale(_)) => unreachable!(),
        }
    }

    // Plans the best wave of the present state by the engine that the master keeps, and starts it. Where the
    // hand lacks room for as many starts as there are splits, only a plan tells whether it has room for them.
    pub(crate) fn start_best(
        &mut self,
        alloc: Global,
        hand: &mut Hand<L>,
    ) -> Result<SharedWave, WaveError>
        ensures old { IsMasterOf L.setup self.old.job }
        ensures answer { PlansAs self.old.job hand.old result self.new.job hand.new }
        ensures made { self.new.made ≡ self.old.made }
    {
        if hand.has_room(0, self.splits()) {
            self.start_any(alloc, hand)
        } else {
            self.plan_wave(alloc, hand)
        }
    }

    // The same, where the hand has room for any wave.
    fn start_any(&mut self, alloc: Global, hand: &mut Hand<L>) -> Result<SharedWave, WaveError>
        requires room { has_room hand.old 0 (length self.old.job.setup.cluster.splits) ≡ true }
        ensures old { IsMasterOf L.setup self.old.job }
        ensures answer { PlansAs self.old.job hand.old result self.new.job hand.new }
        ensures made { self.new.made ≡ self.old.made }
    {
        self.is_of_job();
        let splits = self.splits();
        if !self.is_own(hand) {
            return Err(refused(hand, splits, WaveError::StrangeHand));
        }
        if !self.has_place(hand) {
            return Err(refused(hand, splits, WaveError::HistoryFull));
        }
        let Ok(starts) = Vec::with_capacity(alloc, splits) else {
            return Err(WaveError::Memory);
        };
        let wave = match self.master.start_wave(alloc) {
            Ok((_pairs, wave)) => wave,
            Err(CommitError::HistoryFull) => {
                return Err(refused(hand, splits, WaveError::HistoryFull));
            }
            Err(CommitError::Memory) => return Err(WaveError::Memory),
            Err(CommitError::Stale(_)) => unreachable!(),
        };
        // (its starts are of this cluster)
        self.master.is_kept();
        let event = wave_event(&wave);
        Ok(keep_starts(&self.master, &mut self.hands, hand, wave, &event, starts))
    }
}

// The event of a wave.
fn wave_event(wave: &Wave) -> Event<'static>
    ensures { result ≡ wave_event wave.now }
{
    Event::Wave {
        first: wave.first,
        count: wave.count,
        cost: wave.cost,
    }
}

// Keeps the last event of a master, a wave or a plan ahead, in the hand with its starts.
pub(crate) fn keep_starts<L: Ledger>(
    master: &Master,
    hands: &mut Hands<L>,
    hand: &mut Hand<L>,
    wave: Wave,
    event: &Event<'_>,
    starts: Vec<Start>,
) -> SharedWave
    requires last { IsLastWave master.now wave }
    requires event { (event.now ≡ wave_event wave) ⊎ (event.now ≡ ahead_event wave) }
    requires empty { starts.items ≡ [] }
    requires fits { wave.count ≤ vec_capacity starts }
    requires room { has_room hand.old 0 wave.count ≡ true }
    ensures wave { result.wave ≡ wave }
    ensures starts { result.starts.items ≡ drop (wave.first - 1) master.now.state.starts }
    ensures hand { hand.new ≡ with_call hand.old (kept_as event.now result) }
    ensures total { hands.new.total ≡ hands.old.total + 1 }
    ensures made { hands.new.made ≡ hands.old.made }
{
    let starts = with_all(starts, starts_from(master, wave.first));
    // (the event is the last)
    hand.keep(hands, master.events(), event, None, &starts);
    SharedWave { wave, starts }
}

// Notes why a wave came to nothing.
pub(crate) fn refused<L: Ledger>(hand: &mut Hand<L>, splits: usize, error: WaveError) -> WaveError
    ensures error { result ≡ error }
    ensures hand { hand.new ≡ noted_wave splits hand.old error }
{
    let had_room = hand.has_room(0, splits);
    hand.note(had_room, why_of(error));
    error
}

fn why_of(error: WaveError) -> Why
    ensures { result ≡ why_of error }
{
    match error {
        WaveError::Memory => Why::Memory,
        WaveError::HistoryFull => Why::HistoryFull,
        WaveError::StrangeHand => Why::StrangeHand,
    }
}

// The starts from this attempt on.
fn starts_from(master: &Master, first: AttemptNo) -> &[Start]
    requires some { 0 < first }
    requires within { first - 1 ≤ length master.now.state.starts }
    ensures { result.now ≡ drop (first - 1) master.now.state.starts }
{
    let (_, last) = master.starts().split_at(first.index() - 1);
    last
}

// A list with room for them, and these starts behind its own.
fn with_all(mut list: Vec<Start>, more: &[Start]) -> Vec<Start>
    requires { vec_len list + length more.now ≤ vec_capacity list }
    ensures { result.items ≡ list.items ++ more.now }
{
    for start in more {
        list.push_reserved(*start);
    }
    list
}
