//! An engine that is told what happens to its wave, beside all assignments of small problems.
use crate::random::Random;
use crate::small::{Small, Value};
use crate::small_problems::of;
use certificate_checker::{Certified, certify};
use node_ids::{SplitNo, WorkerNo};
use std::alloc::Global;
use std::process::Abort;
use tree_planner::Engine;

// The engine of a problem, with a best plan.
fn engine_of(rt: &impl Abort, alloc: Global, small: &Small) -> Engine {
    let problem = of(rt, alloc, small);
    let mut engine = Engine::new(alloc, problem).expect(rt, "no engine");
    engine.settle(alloc).expect(rt, "not settled");
    engine
}

// That the engine's plan with its prices is certified, with the count and cost of the best assignment.
fn assert_best(rt: &impl Abort, alloc: Global, engine: &mut Engine, small: &Small) {
    engine.settle(alloc).expect(rt, "not settled");
    let best = small.best();
    let want = Certified {
        count: best.count,
        cost: best.cost,
        places: 0,
    };
    let (plan, prices) = engine.plan(alloc).expect(rt, "no plan");
    let certified = certify(alloc, engine.problem(), &plan, &prices);
    assert_eq!(rt; certified, Ok(want));
}

// A slot of a live worker comes back.
fn free(rt: &impl Abort, alloc: Global, engine: &mut Engine, small: &mut Small, worker: usize) {
    if worker < 4 && worker < engine.problem().workers() {
        let number = WorkerNo::new(worker as u16);
        if engine.problem().is_live(number) && engine.problem().free(number) < 16 {
            engine.free(alloc, number).expect(rt, "no slot");
            small.worker[worker].free = small.worker[worker].free.wrapping_add(1);
        }
    }
}

// A slot of a worker goes away.
fn lose(rt: &impl Abort, alloc: Global, engine: &mut Engine, small: &mut Small, worker: usize) {
    if worker < 4 && worker < engine.problem().workers() {
        let number = WorkerNo::new(worker as u16);
        if engine.problem().is_live(number) && engine.problem().free(number) > 0 {
            engine.lose(alloc, number).expect(rt, "not lost");
            small.worker[worker].free = small.worker[worker].free.wrapping_sub(1);
        }
    }
}

// A split starts, where it stands: what that is worth.
fn start(
    rt: &impl Abort,
    alloc: Global,
    engine: &mut Engine,
    small: &mut Small,
    split: usize,
) -> Value {
    if split < 4 && split < engine.problem().splits() {
        let number = SplitNo::new(split as u32);
        if let Some(worker) = engine.start(alloc, number) {
            let cost = small
                .start_cost(split, worker.index())
                .expect(rt, "not admissible");
            small.split[split].pending = false;
            if let Some(line) = small.worker.get_mut(worker.index()) {
                line.free = line.free.wrapping_sub(1);
            }
            return Value { count: 1, cost };
        }
    }
    Value::default()
}

// A split that is not pending is pending again.
fn pend(rt: &impl Abort, alloc: Global, engine: &mut Engine, small: &mut Small, split: usize) {
    if split < 4 && split < engine.problem().splits() {
        let number = SplitNo::new(split as u32);
        if !engine.problem().is_pending(number) {
            engine.pend(alloc, number).expect(rt, "not pending");
            small.split[split].pending = true;
        }
    }
}

// A pair is barred, a holder comes or goes, a worker dies or joins.
fn turn(
    rt: &impl Abort,
    alloc: Global,
    engine: &mut Engine,
    small: &mut Small,
    random: &mut Random,
) {
    let (s, w) = (random.below(4) as usize, random.below(4) as usize);
    if s < 4 && w < 4 && w < small.workers {
        match random.below(3) {
            0 => small.split[s].barred_on[w] = true,
            1 => small.split[s].held_by[w] = !small.split[s].held_by[w],
            _ => small.worker[w].live = !small.worker[w].live,
        }
    }
    let next = of(rt, alloc, small);
    engine.turn_to(alloc, next).expect(rt, "not turned");
}

// What happens to a problem between two waves: a slot comes or goes, a split starts or is pending again, a
// pair is barred, a holder comes or goes, a worker dies or joins.
fn change(small: &mut Small, random: &mut Random) {
    let (s, w) = (random.below(4) as usize, random.below(4) as usize);
    if s < 4 && w < 4 && w < small.workers {
        match random.below(6) {
            0 => small.split[s].barred_on[w] = random.once_in(2),
            1 => small.split[s].held_by[w] = !small.split[s].held_by[w],
            2 => small.split[s].pending = s < small.splits && !small.split[s].pending,
            3 => small.worker[w].live = !small.worker[w].live,
            4 => small.worker[w].free = random.one_of(&[0, 1, 2]),
            _ => {
                small.split[s].pending = false;
                small.worker[w].free = small.worker[w].free.saturating_sub(1);
            }
        }
    }
}

fn event(
    rt: &impl Abort,
    alloc: Global,
    engine: &mut Engine,
    small: &mut Small,
    random: &mut Random,
) {
    let place = random.below(4) as usize;
    match random.below(5) {
        0 => free(rt, alloc, engine, small, place),
        1 => lose(rt, alloc, engine, small, place),
        2 => pend(rt, alloc, engine, small, place),
        3 => turn(rt, alloc, engine, small, random),
        _ => {
            start(rt, alloc, engine, small, place);
        }
    }
}

#[test]
fn plans_stay_best(rt: HostRuntime) {
    let mut random = Random::new(17);
    for _ in 0..200usize {
        let mut small = Small::random(&mut random);
        let mut engine = engine_of(&rt, rt.alloc(), &small);
        for _ in 0..10usize {
            event(&rt, rt.alloc(), &mut engine, &mut small, &mut random);
            assert_best(&rt, rt.alloc(), &mut engine, &small);
        }
    }
}

// An engine goes over to what became of its problem, after a few events at once, or to another problem.
#[test]
fn going_over_stays_best(rt: HostRuntime) {
    let mut random = Random::new(29);
    let mut engine = engine_of(&rt, rt.alloc(), &Small::random(&mut random));
    for _ in 0..200usize {
        let mut small = Small::random(&mut random);
        for _ in 0..10usize {
            let next = of(&rt, rt.alloc(), &small);
            engine.go_to(rt.alloc(), next).expect(&rt, "not gone over");
            assert_best(&rt, rt.alloc(), &mut engine, &small);
            for _ in 0..random.below(4) {
                change(&mut small, &mut random);
            }
        }
    }
}

// Starts one after another are together the best assignment.
#[test]
fn starts_add_up(rt: HostRuntime) {
    let mut random = Random::new(23);
    for _ in 0..200usize {
        let mut small = Small::random(&mut random);
        let want = small.best();
        let mut engine = engine_of(&rt, rt.alloc(), &small);
        let mut sum = Value::default();
        for s in 0..4usize {
            let value = start(&rt, rt.alloc(), &mut engine, &mut small, s);
            sum.count = sum.count.wrapping_add(value.count);
            sum.cost = sum.cost.wrapping_add(value.cost);
        }
        assert_eq!(&rt; sum, want);
    }
}
