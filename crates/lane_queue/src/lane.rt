ghost use Rattle.std.specs.Prelude.{◌≡◌, ◌+◌, ◌<◌, ◌≤◌, ◌++◌, List, [], ◌∷◌, length, vec_capacity, IfOk};
ghost use Rattle.std.specs.Prelude.{IfErr, IfSome, IfNone, IsOk, OnOk, OnErr, MatchOption, true};
ghost use Rattle.std.specs.List.{All};
ghost use Rattle.crossbeam_queue.specs.Passes.{view, IsPassOf, ruled_capacity};
ghost use Rattle.lane_queue.specs.declared.order.Order.{Order};
ghost use Rattle.lane_queue.specs.Orders.{Settles};
ghost use Rattle.lane_queue.specs.Lanes.{Knows, AreWhole, puts_of, takes_of, depths_of, one_each, LaneValue};
ghost use Rattle.lane_queue.specs.Lanes.{PassValue};
ghost use Rattle.lane_queue.specs.Steps.{hand, Totals, depth_of};

use crate::order::Order;
use crate::view::{InLine, PutStep, ShareJoin, ShareSplit, TakeStep, View};
use crossbeam_queue::RuledArrayQueue;
use std::alloc::{AllocError, Global};
use std::marker::Model;
use std::sync::Wait;

type Queue = RuledArrayQueue<Order, View, InLine>;

type Token = crossbeam_queue::Pass<Order, View>;

/// A queue of orders with a fixed number of places, which threads share by a reference.
#[derive(Drop)]
pub struct Lane {
    queue: Queue,
}

impl Model for Lane {
    ghost Value = { LaneValue };

    ghost view = { λ l. record { lane = l.queue.table.shared.table_id; capacity = ruled_capacity l.queue } };
}

/// The right to put into one lane and to take from it. What it put and took is known to contracts alone,
/// and takes no memory. One thread holds it at a time.
#[derive(Drop)]
pub struct Pass {
    token: Token,
}

impl Model for Pass {
    ghost Value = { PassValue };

    ghost view = { λ p. record {
      lane = p.token.table_id;
      puts = p.token.me.0.client.puts;
      takes = p.token.me.0.client.takes;
      depth = depth_of p.token.me.0.client.depths;
    } };

    ghost invariant = { λ p. (p.token.me.1 ≡ []) × (p.token.me.0.client
        ≡ hand p.token.me.0.client.puts p.token.me.0.client.takes
        (depth_of p.token.me.0.client.depths ∷ []) true) };
}

/// The lane was full.
#[derive(Drop)]
pub struct Full {
    /// The order that was to be put.
    pub order: Order,
}

/// What a closed lane held.
#[derive(Drop)]
pub struct Tally {
    /// The orders that nobody took, in the order in which they were put.
    pub left: Vec<Order>,
}

/// There is no memory for what a lane holds, or no pass came, and the lane is as it was. All that was given
/// comes back.
#[derive(Drop)]
pub struct CloseRefused {
    /// The lane, which is still open.
    pub lane: Lane,
    /// The passes that were given, in their order.
    pub passes: Vec<Pass>,
}

impl Lane {
    /// An empty lane for so many orders, and its first pass, whose part is the whole lane. It takes all
    /// its memory here.
    pub fn new(alloc: Global, capacity: usize) -> Result<(Lane, Pass), AllocError>
        requires some { 0 < capacity }
        requires few { capacity ≤ 512 }
        ensures capacity { IfOk result (λ r. r.0.capacity ≡ capacity) }
        ensures pass { IfOk result (λ r. r.1 ≡ record { lane = r.0.lane; puts = []; takes = []; depth = 0 }) }
    {
        let (queue, token) = Queue::ruled(alloc, capacity)?;
        Ok((Lane { queue }, Pass { token }))
    }

    /// Another pass, which gets half of this one's part of the lane. Any pass may be shared, and as often
    /// as one likes. It takes no memory, so it is never refused.
    pub fn share(&self, pass: &mut Pass) -> Result<Pass, AllocError>
        requires { pass.old.lane ≡ self.now.lane }
        ensures half { pass.new ≡ record pass.old { depth = pass.old.depth + 1 } }
        ensures other { IfOk result (λ p. p
            ≡ record { lane = self.now.lane; puts = []; takes = []; depth = pass.old.depth + 1 }) }
        ensures memory { IsOk result }
    {
        let token = self.queue.another::<ShareSplit>(&mut pass.token);
        Ok(Pass { token })
    }

    /// Puts an order at the back. It comes back where the lane was found full: of a pass that was never
    /// shared a clause says that it was; what others put and took meanwhile a shared pass does not know.
    pub fn put<R: Wait>(&self, rt: &R, pass: &mut Pass, order: Order) -> Result<(), Full>
        requires { pass.old.lane ≡ self.now.lane }
        ensures lane { pass.new.lane ≡ pass.old.lane }
        ensures put { OnOk result (pass.new ≡ record pass.old { puts = pass.old.puts ++ order ∷ [] }) }
        ensures err { OnErr result (pass.new ≡ pass.old) }
        ensures given_back { IfErr result (λ full. full.order ≡ order) }
        ensures full { IfErr result (λ _. (items : List Order)
            × (length items ≡ self.now.capacity) × Knows pass.old items) }
    {
        match self.queue.push_as::<PutStep, R>(rt, &mut pass.token, order) {
            Ok(()) => Ok(()),
            Err(order) => Err(Full { order }),
        }
    }

    /// Takes the order at the front. There is none where the lane was found empty: of a pass that was never
    /// shared a clause says that it was.
    pub fn take<R: Wait>(&self, rt: &R, pass: &mut Pass) -> Option<Order>
        requires { pass.old.lane ≡ self.now.lane }
        ensures lane { pass.new.lane ≡ pass.old.lane }
        ensures taken { IfSome result (λ order. pass.new
            ≡ record pass.old { takes = pass.old.takes ++ order ∷ [] }) }
        ensures none { IfNone result (pass.new ≡ pass.old) }
        ensures empty { IfNone result (Knows pass.old []) }
    {
        self.queue.pop_as::<TakeStep, R>(rt, &mut pass.token)
    }

    /// Ends the lane, and answers what was left in it, however many of its passes come. What they know
    /// settles it where they are all that were made: where their parts make up the whole lane. Orders can
    /// only be taken with a pass, so where none comes the lane comes back.
    pub fn close<R: Wait>(
        self,
        rt: &R,
        alloc: Global,
        passes: Vec<Pass>,
    ) -> Result<Tally, CloseRefused>
        requires { All (λ p. p.lane ≡ self.lane) passes.items }
        ensures settled { IfOk result (λ t. AreWhole (depths_of passes.items)
            → Settles (one_each passes.items) (puts_of passes.items) (takes_of passes.items) t.left.items) }
        ensures few { IfOk result (λ t. length t.left.items ≤ self.capacity) }
        ensures some { IsOk result → 0 < length passes.items }
        ensures given_back { IfErr result (λ r. (r.lane ≡ self) × (r.passes ≡ passes)) }
    {
        if passes.is_empty() {
            return Err(CloseRefused { lane: self, passes });
        }
        let Ok(left) = Vec::with_capacity(alloc, self.queue.capacity()) else {
            return Err(CloseRefused { lane: self, passes });
        };
        let Lane { queue } = self;
        let Some(token) = gather(&queue, passes) else {
            unreachable!()
        };
        let left = drain(rt, &queue, token, left);
        Ok(Tally { left })
    }
}

// All passes in one, the last first.
fn gather(queue: &Queue, mut passes: Vec<Pass>) -> Option<Token>
    requires { All (λ p. p.lane ≡ queue.now.table.shared.table_id) passes.items }
    ensures { MatchOption result (passes.items ≡ []) (λ p. IsPassOf queue.now p
        × (0 < length (depths_of passes.items))
        × (view p ≡ hand (puts_of passes.items) (takes_of passes.items) (depths_of passes.items)
        (one_each passes.items))) }
{
    let Pass { mut token } = passes.pop()?;
    while let Some(pass) = passes.pop() {
        let Pass { token: mut next } = pass;
        queue.absorb::<ShareJoin>(&mut next, token);
        token = next;
    }
    Some(token)
}

// Takes what is left.
fn drain<R: Wait>(rt: &R, queue: &Queue, mut token: Token, mut left: Vec<Order>) -> Vec<Order>
    requires pass { IsPassOf queue.now token × (0 < length (view token).depths) }
    requires left { (left.items ≡ []) × (ruled_capacity queue.now ≤ vec_capacity left) }
    ensures totals { Totals (view token) result.items }
    ensures few { length result.items ≤ ruled_capacity queue.now }
{
    let count = queue.len_as::<TakeStep, R>(rt, &mut token);
    for _ in 0..count {
        match queue.pop_as::<TakeStep, R>(rt, &mut token) {
            Some(order) => left.push_reserved(order),
            None => return left,
        }
    }
    queue.learn_as::<TakeStep>(&mut token);
    left
}
