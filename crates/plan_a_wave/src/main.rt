//! Plans one wave, and has the plan checked by its prices.
#![tactic(auto)]

ghost use Rattle.std.specs.Prelude.{◌≡◌, true, length, IfSome};

use certificate_checker::certify;
use node_ids::{PairSet, SplitNo, WorkerNo};
use rack_tree::RackTree;
use std::alloc::Global;
use std::io;
use std::io::Print;
use wave_planner::{Planned, plan};
use wave_problem::{Plan, Problem, SplitLine, WorkerLine};

// Two workers in one rack.
fn tree(alloc: Global) -> Option<RackTree>
    ensures { IfSome result (λ tree. length tree.rack_of ≡ 2) }
{
    let mut tree = RackTree::new(alloc);
    let centre = tree.add_centre().ok()?;
    let rack = tree.add_rack(centre).ok()?;
    tree.add_worker(rack).ok()?;
    tree.add_worker(rack).ok()?;
    Some(tree)
}

fn workers(alloc: Global) -> Option<Vec<WorkerLine>>
    ensures { IfSome result (λ workers. length workers.items ≡ 2) }
{
    let worker = WorkerLine {
        live: true,
        free: 1,
    };
    let mut workers = Vec::new(alloc);
    workers.push(worker).ok()?;
    workers.push(worker).ok()?;
    Some(workers)
}

fn split(alloc: Global, bytes: u64) -> Option<SplitLine> {
    let mut holders = Vec::new(alloc);
    holders.push(WorkerNo::new(0)).ok()?;
    Some(SplitLine {
        bytes,
        pending: true,
        holders,
    })
}

// Two splits, that both lie on the first worker.
fn splits(alloc: Global) -> Option<Vec<SplitLine>>
    ensures { IfSome result (λ splits. length splits.items ≡ 2) }
{
    let mut splits = Vec::new(alloc);
    splits.push(split(alloc, 10)?).ok()?;
    splits.push(split(alloc, 20)?).ok()?;
    Some(splits)
}

fn problem(alloc: Global) -> Option<Problem> {
    let tree = tree(alloc)?;
    let workers = workers(alloc)?;
    let splits = splits(alloc)?;
    let barred = PairSet::new(alloc, splits.len()).ok()?;
    Problem::new(alloc, tree, workers, splits, barred).ok()
}

/// Whether the plan that the planner makes passes its own check. It always does.
pub fn passes(alloc: Global, problem: &Problem) -> Option<bool>
    ensures { IfSome result (λ b. b ≡ true) }
{
    let planned = plan(alloc, problem).ok()?;
    Some(certify(alloc, problem, planned.plan(), planned.prices()).is_ok())
}

fn print_starts(rt: &impl Print, plan: &Plan) -> io::Result<()> {
    for i in 0..plan.splits() {
        if let Some(worker) = plan.of(SplitNo::new(i as u32)) {
            println!(rt; "split {i} on worker {}", worker.index())?;
        }
    }
    Ok(())
}

fn print_plan(rt: &impl Print, planned: &Planned) -> io::Result<()> {
    let said = planned.certified();
    println!(rt;
        "{} splits start, at byte-distance {}",
        said.count, said.cost
    )?;
    print_starts(rt, planned.plan())
}

fn print_wave(rt: &impl Print, alloc: Global, problem: &Problem) -> io::Result<()> {
    let Ok(planned) = plan(alloc, problem) else {
        return Ok(());
    };
    let verdict = certify(alloc, problem, planned.plan(), planned.prices());
    print_plan(rt, &planned)?;
    if verdict.is_ok() {
        println!(rt; "certified")?;
    }
    Ok(())
}

fn main(rt: HostRuntime) -> io::Result<()> {
    let Some(problem) = problem(rt.alloc()) else {
        return Ok(());
    };
    print_wave(&rt, rt.alloc(), &problem)
}
