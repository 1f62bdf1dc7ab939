ghost use Rattle.std.specs.Prelude.{◌≡◌, ◌≤◌, ◌++◌, [], ◌∷◌, length, vec_len, vec_capacity, IfSome};
ghost use Rattle.std.specs.List.{All};
ghost use Rattle.lane_queue.specs.Lanes.{AreWhole, depths_of, one_each, puts_of, takes_of};
ghost use Rattle.lane_queue.specs.Orders.{Settles};

use lane_queue::{Lane, Order, Pass};
use node_ids::{AttemptNo, PartNo, SplitNo};
use std::alloc::{AllocError, Global};
use std::process::Abort;
use std::sync::{Arc, Wait};
use std::thread;
use std::thread::{PromisedHandle, Scope, Threads};
use word_map::SplitText;

// Puts one order, and waits while the lane is full.
fn put_one<R: Wait>(rt: &R, lane: &Lane, mut pass: Pass, order: Order) -> Pass
    requires { pass.lane ≡ lane.now.lane }
    ensures { result ≡ record pass { puts = pass.puts ++ order ∷ [] } }
{
    let mut waiting = order;
    for _ in rt.forever() {
        match lane.put(rt, &mut pass, waiting) {
            Ok(()) => return pass,
            Err(full) => waiting = full.order,
        }
        thread::yield_now();
    }
    unreachable!()
}

// Puts all the orders.
fn put_all<R: Wait>(rt: &R, lane: &Lane, mut pass: Pass, orders: Vec<Order>) -> Pass
    requires { pass.lane ≡ lane.now.lane }
    ensures { result ≡ record pass { puts = pass.puts ++ orders.items } }
{
    for order in orders {
        pass = put_one(rt, lane, pass, order);
    }
    pass
}

// Takes one order, and waits while the lane is empty.
fn take_one<R: Wait>(rt: &R, lane: &Lane, pass: &mut Pass) -> Order
    requires { pass.old.lane ≡ lane.now.lane }
    ensures { pass.new ≡ record pass.old { takes = pass.old.takes ++ result ∷ [] } }
{
    for _ in rt.forever() {
        if let Some(order) = lane.take(rt, pass) {
            return order;
        }
        thread::yield_now();
    }
    unreachable!()
}

// Takes so many orders.
fn take_many<R: Wait>(
    rt: &R,
    lane: &Lane,
    mut pass: Pass,
    mut taken: Vec<Order>,
    count: usize,
) -> (Pass, Vec<Order>)
    requires lane { pass.lane ≡ lane.now.lane }
    requires room { (taken.items ≡ []) × (count ≤ vec_capacity taken) }
    ensures taken { result.0 ≡ record pass { takes = pass.takes ++ result.1.items } }
    ensures count { length result.1.items ≡ count }
{
    for _ in 0..count {
        taken.push_reserved(take_one(rt, lane, &mut pass));
    }
    (pass, taken)
}

// Puts all the orders in one thread, and takes as many in another.
fn put_and_take<R: Threads + Wait + Sync>(
    rt: &R,
    lane: &Lane,
    putter: Pass,
    taker: Pass,
    orders: Vec<Order>,
    taken: Vec<Order>,
) -> (Pass, Pass, Vec<Order>)
    requires lanes { (putter.lane ≡ lane.now.lane) × (taker.lane ≡ lane.now.lane) }
    requires room { (taken.items ≡ []) × (vec_len orders ≤ vec_capacity taken) }
    ensures putter { result.0 ≡ record putter { puts = putter.puts ++ orders.items } }
    ensures taker { result.1 ≡ record taker { takes = taker.takes ++ result.2.items } }
    ensures count { length result.2.items ≡ length orders.items }
{
    let count = orders.len();
    let (putter, (taker, taken)) = thread::join(
        rt,
        || -> Pass
            requires { putter.lane ≡ lane.now.lane }
            ensures { result ≡ record putter { puts = putter.puts ++ orders.items } }
        { put_all(rt, lane, putter, orders) },
        || -> (Pass, Vec<Order>)
            requires { (taker.lane ≡ lane.now.lane) × (taken.items ≡ []) × (count ≤ vec_capacity taken) }
            ensures { (result.0 ≡ record taker { takes = taker.takes ++ result.1.items })
                × (length result.1.items ≡ count) }
        { take_many(rt, lane, taker, taken, count) },
    );
    (putter, taker, taken)
}

// A lane with room for two orders, and two passes of it, each half of its first.
fn two_passes(alloc: Global) -> Option<(Lane, Pass, Pass)>
    ensures one { IfSome result (λ r. r.1 ≡ record { lane = r.0.lane; puts = []; takes = []; depth = 1 }) }
    ensures two { IfSome result (λ r. r.2 ≡ record { lane = r.0.lane; puts = []; takes = []; depth = 1 }) }
{
    let (lane, mut one) = Lane::new(alloc, 2).ok()?;
    let two = lane.share(&mut one).ok()?;
    Some((lane, one, two))
}

fn list_of_two(alloc: Global, one: Pass, two: Pass) -> Option<Vec<Pass>>
    ensures { IfSome result (λ passes. passes.items ≡ one ∷ two ∷ []) }
{
    vec![in alloc; one, two].ok()
}

// Closes the lane with these passes: what is left in it.
fn close_with<R: Wait + Abort>(rt: &R, alloc: Global, lane: Lane, passes: Vec<Pass>) -> Vec<Order>
    requires { All (λ p. p.lane ≡ lane.lane) passes.items }
    ensures { AreWhole (depths_of passes.items)
        → Settles (one_each passes.items) (puts_of passes.items) (takes_of passes.items) result.items }
{
    let tally = lane.close(rt, alloc, passes).ok();
    tally.expect(rt, "not closed").left
}

// Hands all the orders to another thread, which takes them in their order.
fn hand_over<R: Threads + Wait + Sync>(
    rt: &R,
    alloc: Global,
    orders: Vec<Order>,
) -> Option<Vec<Order>>
    ensures { IfSome result (λ taken. taken.items ≡ orders.items) }
{
    let taken = Vec::with_capacity(alloc, orders.len()).ok()?;
    let mut passes = Vec::with_capacity(alloc, 2).ok()?;
    let (lane, mut putter) = Lane::new(alloc, 2).ok()?;
    let taker = lane.share(&mut putter).ok()?;
    let (putter, taker, taken) = put_and_take(rt, &lane, putter, taker, orders, taken);
    passes.push_reserved(putter);
    passes.push_reserved(taker);
    match lane.close(rt, alloc, passes) {
        Ok(_) => Some(taken),
        Err(_) => None,
    }
}

fn map_order(alloc: Global, attempt: u32) -> Result<Order, AllocError> {
    let text = SplitText::new(SplitNo::new(0), Vec::new(alloc));
    Ok(Order::Map(AttemptNo::new(attempt), Arc::new(alloc, text)?))
}

fn reduce_order(alloc: Global, attempt: u32) -> Order {
    Order::Reduce(AttemptNo::new(attempt), PartNo::new(0), Vec::new(alloc))
}

// What a thread gives back: a pass of the lane.
#[derive(Clone, Copy)]
struct PassOf<'a>(&'a Lane);

impl<'a> thread::Promise<Pass> for PassOf<'a> {
    ghost kept_by = { λ p s. s.lane ≡ p.0.now.lane };
}

// A thread of the scope, which puts the order with the pass.
fn start<'s, E, R: Wait + Abort + Sync>(
    rt: &'s R,
    scope: &Scope<'s, E>,
    lane: &'s Lane,
    pass: Pass,
    order: Order,
) -> PromisedHandle<Pass, PassOf<'s>>
    requires { pass.lane ≡ lane.now.lane }
    ensures { result.promise.0.now.lane ≡ lane.now.lane }
{
    let started = scope.spawn_with(
        PassOf(lane),
        move || -> Pass
            requires { pass.lane ≡ lane.now.lane }
            ensures { result.lane ≡ lane.entry.now.lane }
        { put_one(rt, lane, pass, order) },
    );
    started.expect(rt, "no thread")
}

// A thread for each pass. The attempts are numbered from 1.
fn start_each<'s, E, R: Wait + Abort + Sync>(
    rt: &'s R,
    scope: &Scope<'s, E>,
    alloc: Global,
    lane: &'s Lane,
    passes: Vec<Pass>,
) -> Vec<PromisedHandle<Pass, PassOf<'s>>>
    requires { All (λ p. p.lane ≡ lane.now.lane) passes.items }
    ensures { All (λ t. t.promise.0.now.lane ≡ lane.now.lane) result.items }
{
    let mut threads = Vec::new(alloc);
    let mut attempt = 0u32;
    for pass in passes {
        attempt = attempt.wrapping_add(1);
        let thread = start(rt, scope, lane, pass, reduce_order(alloc, attempt));
        threads.push(thread).expect(rt, "no memory");
    }
    threads
}

// A thread for each pass, which puts an order, and the passes that come back.
fn each_puts<R: Threads + Wait + Sync + Abort>(
    rt: &R,
    alloc: Global,
    lane: &Lane,
    passes: Vec<Pass>,
) -> Vec<Pass>
    requires { All (λ p. p.lane ≡ lane.now.lane) passes.items }
    ensures { All (λ p. p.lane ≡ lane.now.lane) result.items }
{
    thread::scope(
        thread::scope_env(),
        rt,
        |scope| -> Vec<Pass>
            requires { All (λ p. p.lane ≡ lane.now.lane) passes.items }
            ensures { All (λ p. p.lane ≡ lane.entry.now.lane) result.items }
        {
            let threads = start_each(rt, scope, alloc, lane, passes);
            thread::join_promised(rt, threads).expect(rt, "no memory")
        },
    )
}

// The attempts of orders, each below 10, as the digits of a number.
fn digits(orders: &[Order]) -> usize {
    let mut seen = 0usize;
    for order in orders {
        seen = seen.wrapping_mul(10).wrapping_add(order.attempt().index());
    }
    seen
}

// The attempts of what is left in the lane, which these passes close.
fn left_in<R: Wait + Abort>(rt: &R, alloc: Global, lane: Lane, passes: Vec<Pass>) -> usize
    requires { All (λ p. p.lane ≡ lane.lane) passes.items }
{
    digits(&close_with(rt, alloc, lane, passes))
}

// Whether there was room for an order with the attempt's text.
fn put_map<R: Wait + Abort>(
    rt: &R,
    alloc: Global,
    lane: &Lane,
    pass: &mut Pass,
    attempt: u32,
) -> bool
    requires { pass.old.lane ≡ lane.now.lane }
    ensures { pass.new.lane ≡ lane.now.lane }
{
    let order = map_order(alloc, attempt).expect(rt, "no memory");
    lane.put(rt, pass, order).is_ok()
}

// The attempt of the order that comes back, where there is no room for it.
fn put_in_vain<R: Wait>(rt: &R, alloc: Global, lane: &Lane, pass: &mut Pass) -> Option<usize>
    requires { pass.old.lane ≡ lane.now.lane }
    ensures { pass.new.lane ≡ lane.now.lane }
{
    let full = lane.put(rt, pass, reduce_order(alloc, 3)).err()?;
    Some(full.order.attempt().index())
}

// The attempt of the order that is taken.
fn take<R: Wait>(rt: &R, lane: &Lane, pass: &mut Pass) -> Option<usize>
    requires { pass.old.lane ≡ lane.now.lane }
    ensures { pass.new.lane ≡ lane.now.lane }
{
    let order = lane.take(rt, pass)?;
    Some(order.attempt().index())
}

// A lane of two places: the third order comes back, the first is taken, and the second is left.
#[test]
fn the_third_order_comes_back(rt: HostRuntime) {
    let alloc = rt.alloc();
    let (lane, mut putter, mut taker) = two_passes(alloc).expect(&rt, "no lane");
    let one = put_map(&rt, alloc, &lane, &mut putter, 1);
    let two = put_map(&rt, alloc, &lane, &mut putter, 2);
    let back = put_in_vain(&rt, alloc, &lane, &mut putter);
    let taken = take(&rt, &lane, &mut taker);
    let passes = list_of_two(alloc, putter, taker).expect(&rt, "no memory");
    let left = left_in(&rt, alloc, lane, passes);
    assert_eq!(rt;
        (one, two, back, taken, left),
        (true, true, Some(3), Some(1), 2)
    );
}

fn five_orders(rt: &impl Abort, alloc: Global) -> Vec<Order> {
    let mut orders = Vec::new(alloc);
    for attempt in 1..6u32 {
        let order = reduce_order(alloc, attempt);
        orders.push(order).expect(rt, "no memory");
    }
    orders
}

#[test]
fn another_thread_takes_all_in_order(rt: HostRuntime) {
    let orders = five_orders(&rt, rt.alloc());
    let taken = hand_over(&rt, rt.alloc(), orders).expect(&rt, "not handed over");
    assert_eq!(rt; digits(&taken), 12345);
}

// A lane with room for four orders, and three passes of it.
fn three_passes(rt: &impl Abort, alloc: Global) -> (Lane, Vec<Pass>)
    ensures { All (λ p. p.lane ≡ result.0.lane) result.1.items }
{
    let (lane, mut one) = Lane::new(alloc, 4).expect(rt, "no lane");
    let mut two = lane.share(&mut one).expect(rt, "no pass");
    let three = lane.share(&mut two).expect(rt, "no pass");
    let passes = vec![in alloc; one, two, three].expect(rt, "no memory");
    (lane, passes)
}

// Three threads put an order each, and all three are left, each once.
#[test]
fn each_thread_puts_an_order(rt: HostRuntime) {
    let (lane, passes) = three_passes(&rt, rt.alloc());
    let passes = each_puts(&rt, rt.alloc(), &lane, passes);
    let seen = left_in(&rt, rt.alloc(), lane, passes);
    assert!(rt; [123, 132, 213, 231, 312, 321].contains(&seen), "{seen}");
}

// Closes the lane with no pass, and then with this one: the attempts of what is left.
fn close_again<R: Wait + Abort>(rt: &R, alloc: Global, lane: Lane, pass: Pass) -> usize
    requires { pass.lane ≡ lane.lane }
{
    let refused = lane
        .close(rt, alloc, Vec::new(alloc))
        .err()
        .expect(rt, "no pass came");
    let mut passes = refused.passes;
    passes.push(pass).expect(rt, "no memory");
    left_in(rt, alloc, refused.lane, passes)
}

// What is left comes with any pass of the lane; without one the lane comes back.
#[test]
fn what_is_left_comes_with_any_pass(rt: HostRuntime) {
    let (lane, mut putter, other) = two_passes(rt.alloc()).expect(&rt, "no lane");
    let put = lane.put(&rt, &mut putter, reduce_order(rt.alloc(), 1));
    let is_put = put.is_ok();
    let left = close_again(&rt, rt.alloc(), lane, other);
    assert_eq!(rt; (is_put, left), (true, 1));
}

// Takes from the lane, which is empty, and puts an order.
fn take_and_put<R: Wait + Abort>(
    rt: &R,
    alloc: Global,
    lane: &Lane,
    mut one: Pass,
    mut two: Pass,
) -> Option<Vec<Pass>>
    requires { (one.lane ≡ lane.now.lane) × (two.lane ≡ lane.now.lane) }
    ensures { IfSome result (λ passes. All (λ p. p.lane ≡ lane.now.lane) passes.items) }
{
    assert!(rt; lane.take(rt, &mut two).is_none());
    assert!(rt; lane.put(rt, &mut one, reduce_order(alloc, 1)).is_ok());
    list_of_two(alloc, one, two)
}

// The attempts of what is left, told at the second call where the first is refused.
fn close_in_two<R: Wait + Abort>(rt: &R, alloc: Global, lane: Lane, passes: Vec<Pass>) -> usize
    requires { All (λ p. p.lane ≡ lane.lane) passes.items }
{
    match lane.close(rt, alloc, passes) {
        Ok(tally) => digits(&tally.left),
        Err(refused) => {
            assert_eq!(rt; refused.passes.len(), 2);
            left_in(rt, alloc, refused.lane, refused.passes)
        }
    }
}

// Whatever allocation is refused, there is a whole lane or none, and a close that is refused gives all back.
#[test]
fn a_refused_close_gives_all_back(rt: HostRuntime) {
    let Some((lane, one, two)) = two_passes(rt.alloc()) else {
        return;
    };
    if let Some(passes) = take_and_put(&rt, rt.alloc(), &lane, one, two) {
        assert_eq!(rt; close_in_two(&rt, rt.alloc(), lane, passes), 1);
    }
}
