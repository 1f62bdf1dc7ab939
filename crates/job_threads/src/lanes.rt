ghost use Rattle.std.specs.Prelude.{◌≡◌, ◌⊎◌, ◌<◌, ◌≤◌, ◌++◌, [], ◌∷◌, IfErr, IfOk, IfSome, IfNone, OnErr, OnOk, Some};
ghost use Rattle.std.specs.Prelude.{length, map, nat_le, slice_get};
ghost use Rattle.lane_queue.specs.Lanes.{LaneValue, PassValue};
ghost use Rattle.lane_queue.specs.Orders.{attempt_of};
ghost use Rattle.job_threads.specs.Closing.{AreHandedOver, IsHandedOver, IsHalfOf, first_pass, lane_places};
ghost use Rattle.job_threads.specs.Steps.{with_put};
ghost use Rattle.job_threads.specs.declared.outcome.RunError.{RunError};

use crate::aim::Aim;
use crate::common::GoingOn;
use crate::outcome::RunError;
use lane_queue::{Full, Lane, Order, Pass};
use node_ids::WorkerNo;
use std::alloc::{AllocError, Global};
use std::marker::{Model, PhantomData};
use std::sync::Wait;
use std::sync::atomic::{AtomicU64, Ordering};

// How many orders a lane holds at least.
const LEAST_PLACES: usize = 32;

// A worker's lane. It has two places for each slot of the worker, since beside the orders that may run there
// may lie as many that were lost when the worker died.
#[derive(Drop)]
pub(crate) struct Way {
    lane: Lane,
    // attempts up to this number are lost
    lost: AtomicU64,
}

impl Model for Way {
    ghost Value = { LaneValue };

    ghost view = { λ w. w.lane };

    ghost invariant = { λ w. 32 ≤ w.lane.capacity };
}

impl Way {
    // A new lane of a worker with so many slots, with its first pass.
    fn new(alloc: Global, slots: u8) -> Result<(Way, Pass), AllocError>
        ensures places { IfOk result (λ made. made.0.capacity ≡ lane_places slots) }
        ensures pass { IfOk result (λ made. made.1 ≡ first_pass made.0) }
    {
        let places = (2 * usize::from(slots)).max(LEAST_PLACES);
        let (lane, pass) = Lane::new(alloc, places)?;
        let lost = AtomicU64::new(0);
        Ok((Way { lane, lost }, pass))
    }
}

// A lane for each worker, by its slots, with its first pass.
pub(crate) fn new_ways(alloc: Global, slots: &[u8]) -> Result<(Vec<Way>, Vec<Pass>), AllocError>
    ensures count { IfOk result (λ made. length made.0.items ≡ length slots.now) }
    ensures places { IfOk result (λ made.
        map (λ way. way.capacity) made.0.items ≡ map lane_places slots.now) }
    ensures passes { IfOk result (λ made. made.1.items ≡ map first_pass made.0.items) }
{
    let mut ways = Vec::new(alloc);
    let mut passes = Vec::new(alloc);
    for slots in slots {
        let (way, pass) = Way::new(alloc, *slots)?;
        ways.push(way)?;
        passes.push(pass)?;
    }
    Ok((ways, passes))
}

// A pass of a worker's lane, one of two.
#[derive(Drop)]
pub(crate) struct Half<L: Aim> {
    worker: WorkerNo,
    pass: Pass,
    of: PhantomData<L>,
}

impl<L: Aim> Model for Half<L> {
    ghost use Rattle.lane_queue.specs.Lanes.{PassValue};
    ghost use Rattle.job_threads.specs.Closing.{IsHalfOf};

    ghost Value = { PassValue };

    ghost view = { λ h. h.pass };

    ghost invariant = { λ h. IsHalfOf L.lanes h.worker h.pass };
}

impl<L: Aim> Half<L> {
    fn put<R: Wait>(&mut self, rt: &R, way: &Way, order: Order) -> Result<(), Full>
        requires { self.old.lane ≡ way.now.lane }
        ensures lane { self.new.lane ≡ self.old.lane }
        ensures put { OnOk result (self.new ≡ with_put order self.old) }
        ensures err { OnErr result (self.new ≡ self.old) }
        ensures given_back { IfErr result (λ full. full.order ≡ order) }
    {
        way.lane.put(rt, &mut self.pass, order)
    }

    fn take<R: Wait>(&mut self, rt: &R, way: &Way) -> Option<Order>
        requires { self.old.lane ≡ way.now.lane }
        ensures lane { self.new.lane ≡ self.old.lane }
        ensures taken { IfSome result (λ order. self.new
            ≡ record self.old { takes = self.old.takes ++ order ∷ [] }) }
        ensures none { IfNone result (self.new ≡ self.old) }
    {
        way.lane.take(rt, &mut self.pass)
    }
}

// One end of a worker's lane: the lane, and a pass of it.
#[derive(Drop)]
pub(crate) struct LaneEnd<'a, L: Aim> {
    way: &'a Way,
    half: Half<L>,
}

impl<'a, L: Aim> Model for LaneEnd<'a, L> {
    ghost use Rattle.std.specs.Prelude.{◌≡◌, ◌≤◌};
    ghost use Rattle.lane_queue.specs.Lanes.{PassValue};

    ghost Value = { PassValue };

    ghost view = { λ e. e.half };

    ghost invariant = { λ e. (e.half.lane ≡ e.way.now.lane) × (32 ≤ e.way.now.capacity) };
}

impl<'a, L: Aim> LaneEnd<'a, L> {
    // Both ends of a new lane.
    pub(crate) fn both(
        way: &'a Way,
        worker: WorkerNo,
        mut pass: Pass,
    ) -> Result<(LaneEnd<'a, L>, LaneEnd<'a, L>), AllocError>
        requires lane { slice_get L.lanes worker ≡ Some way.now }
        requires pass { pass ≡ first_pass way.now }
        ensures lane { IfOk result (λ ends. ends.0.lane ≡ ends.1.lane) }
        ensures takes { IfOk result (λ ends. ends.1.takes ≡ []) }
    {
        let other = way.lane.share(&mut pass)?;
        let ours = LaneEnd::of(way, worker, pass);
        Ok((ours, LaneEnd::of(way, worker, other)))
    }

    // An end of a worker's lane, with this pass.
    fn of(way: &'a Way, worker: WorkerNo, pass: Pass) -> LaneEnd<'a, L>
        requires lane { (slice_get L.lanes worker ≡ Some way.now) × (32 ≤ way.now.capacity) }
        requires pass { (pass.lane ≡ way.now.lane) × (pass.depth ≡ 1) }
        ensures { result ≡ pass }
    {
        let half = Half {
            worker,
            pass,
            of: PhantomData,
        };
        LaneEnd { way, half }
    }

    // Puts an order at the back, unless the lane is full.
    pub(crate) fn put<R: Wait>(&mut self, rt: &R, order: Order) -> Result<(), Full>
        ensures put { OnOk result (self.new ≡ with_put order self.old) }
        ensures err { OnErr result (self.new ≡ self.old) }
        ensures given_back { IfErr result (λ full. full.order ≡ order) }
    {
        self.half.put(rt, self.way, order)
    }

    // The order at the front.
    pub(crate) fn take<R: Wait>(&mut self, rt: &R, _going: GoingOn) -> Option<Order>
        ensures taken { IfSome result (λ order. self.new
            ≡ record self.old { takes = self.old.takes ++ order ∷ [] }) }
        ensures none { IfNone result (self.new ≡ self.old) }
    {
        self.half.take(rt, self.way)
    }

    // The worker died, and all attempts that were started on it so far are lost.
    pub(crate) fn pass_over(&self, newest: u32) {
        let way = self.way;
        way.lost.store(u64::from(newest), Ordering::SeqCst);
    }

    // Whether the order's attempt is lost.
    pub(crate) fn is_lost(&self, order: &Order) -> bool {
        let way = self.way;
        is_up_to(order, way.lost.load(Ordering::SeqCst))
    }

    // The pass of the end.
    pub(crate) fn into_half(self) -> Half<L>
        ensures { result ≡ self.entry }
    {
        self.half
    }
}

// Whether the order's attempt is this one or an earlier one.
fn is_up_to(order: &Order, attempt: u64) -> bool
    ensures { result ≡ nat_le (attempt_of order.now) attempt }
{
    order.attempt().index() as u64 <= attempt
}

// The passes of these ends.
pub(crate) fn halves_of<L: Aim>(
    alloc: Global,
    ends: Vec<LaneEnd<'_, L>>,
) -> Result<Vec<Half<L>>, AllocError>
    ensures { IfOk result (λ halves. halves.items ≡ ends.entry.items) }
{
    let mut halves = Vec::with_capacity(alloc, ends.len())?;
    for end in ends {
        halves.push(end.into_half())?;
    }
    Ok(halves)
}

// Closes the lanes, whose passes are all there: each order was taken or is left as often as it was put.
pub(crate) fn close_ways<L: Aim, R: Wait>(
    rt: &R,
    alloc: Global,
    mut ways: Vec<Way>,
    mut ours: Vec<Half<L>>,
    mut theirs: Vec<Half<L>>,
) -> Result<(), RunError>
    requires { ways.items ≡ L.lanes }
    ensures closed { OnOk result (AreHandedOver ours.items theirs.items) }
    ensures err { IfErr result (λ e. (e ≡ RunError.Memory) ⊎ (e ≡ RunError.Torn 0)) }
{
    while let Some(way) = ways.pop() {
        let (Some(our), Some(their)) = (ours.pop(), theirs.pop()) else {
            return Err(RunError::Torn(0));
        };
        close_way(rt, alloc, ways.len(), way, our, their)?;
    }
    if ours.is_empty() && theirs.is_empty() {
        Ok(())
    } else {
        Err(RunError::Torn(0))
    }
}

// Closes the lane of a worker, by its two passes.
fn close_way<L: Aim, R: Wait>(
    rt: &R,
    alloc: Global,
    worker: usize,
    way: Way,
    our: Half<L>,
    their: Half<L>,
) -> Result<(), RunError>
    requires { slice_get L.lanes worker ≡ Some way }
    ensures closed { OnOk result (IsHandedOver our their) }
    ensures err { IfErr result (λ e. (e ≡ RunError.Memory) ⊎ (e ≡ RunError.Torn 0)) }
{
    if our.worker.index() != worker || their.worker.index() != worker {
        return Err(RunError::Torn(0));
    }
    let Ok(mut passes) = Vec::with_capacity(alloc, 2) else {
        return Err(RunError::Memory);
    };
    passes.push_reserved(our.pass);
    passes.push_reserved(their.pass);
    match way.lane.close(rt, alloc, passes) {
        Ok(_) => Ok(()),
        Err(_) => Err(RunError::Memory),
    }
}
