//! A problem whose workers' lines and pending splits change in its place, with a state made anew.
ghost use Rattle.std.specs.Prelude.{◌≡◌, ◌≤◌, All, IfOk, OnErr, OnOk, length, map};
ghost use Rattle.wave_problem.specs.declared.TheConstants.{MAX_SLOTS};
ghost use Rattle.tree_flow.specs.Slots.{with_workers};
ghost use Rattle.tree_planner.specs.Engine.{IsFixed, IsStanding};
ghost use Rattle.tree_planner.specs.Going.{flagged, turned};

use crate::engine::{Fixed, fixed_parts};
use crate::going::all_lines;
use crate::tables::{Tables, fresh_tables};
use node_ids::{SplitNo, WorkerNo};
use price_certificate::PlacePrices;
use std::alloc::{AllocError, Global};
use wave_problem::{Problem, WorkerLine};

/// Gives a problem other lines of its workers and other pending splits, whatever they are. No split is
/// shipped then. Without memory nothing changes.
pub fn renew(
    alloc: Global,
    problem: &mut Problem,
    fixed: &mut Fixed,
    tables: &mut Tables,
    lines: &[WorkerLine],
    pending: &[bool],
) -> Result<(), AllocError>
    requires fixed { IsFixed problem.old fixed.old }
    requires standing { IsStanding problem.old tables.old }
    requires workers { length lines.now ≡ length problem.old.workers }
    requires most { All (λ line. line.free ≤ MAX_SLOTS) lines.now }
    requires splits { length pending.now ≡ length problem.old.splits }
    ensures wave { OnOk result (problem.new ≡ turned problem.old lines.now pending.now) }
    ensures err { OnErr result (problem.new ≡ problem.old) }
    ensures fixed { IsFixed problem.new fixed.new }
    ensures standing { IsStanding problem.new tables.new }
{
    problem.limits();
    let lines_before = all_lines(alloc, problem)?;
    let pending_before = all_pending(alloc, problem)?;
    put(problem, lines, pending);
    match begin_again(alloc, problem, fixed, tables) {
        Ok(()) => Ok(()),
        Err(error) => {
            put(problem, &lines_before, &pending_before);
            Err(error)
        }
    }
}

// Whether each split is pending.
fn all_pending(alloc: Global, problem: &Problem) -> Result<Vec<bool>, AllocError>
    ensures { IfOk result (λ pending. pending.items ≡ map (λ split. split.pending) problem.now.splits) }
{
    let mut pending = Vec::with_capacity(alloc, problem.splits())?;
    for s in 0..problem.splits() {
        pending.push(problem.is_pending(SplitNo::new(s as u32)))?;
    }
    Ok(pending)
}

// Gives a problem other lines of its workers and other pending splits.
fn put(problem: &mut Problem, lines: &[WorkerLine], pending: &[bool])
    requires workers { length lines.now ≡ length problem.old.workers }
    requires most { All (λ line. line.free ≤ MAX_SLOTS) lines.now }
    requires splits { length pending.now ≡ length problem.old.splits }
    ensures { problem.new ≡ turned problem.old lines.now pending.now }
{
    put_lines(problem, lines);
    put_pending(problem, pending);
}

fn put_lines(problem: &mut Problem, lines: &[WorkerLine])
    requires workers { length lines.now ≡ length problem.old.workers }
    requires most { All (λ line. line.free ≤ MAX_SLOTS) lines.now }
    ensures { problem.new ≡ with_workers problem.old lines.now }
{
    for w in 0..problem.workers() {
        problem.set_worker(WorkerNo::new(w as u16), lines[w]);
    }
}

fn put_pending(problem: &mut Problem, pending: &[bool])
    requires { length pending.now ≡ length problem.old.splits }
    ensures { problem.new ≡ record problem.old { splits = flagged problem.old.splits pending.now } }
{
    for s in 0..problem.splits() {
        problem.set_pending(SplitNo::new(s as u32), pending[s]);
    }
}

// Makes the state of a problem anew, with no split shipped. Without memory nothing changes.
fn begin_again(
    alloc: Global,
    problem: &Problem,
    fixed: &mut Fixed,
    tables: &mut Tables,
) -> Result<(), AllocError>
    ensures fixed { OnOk result (IsFixed problem.now fixed.new) }
    ensures standing { OnOk result (IsStanding problem.now tables.new) }
    ensures err_fixed { OnErr result (fixed.new ≡ fixed.old) }
    ensures err_tables { OnErr result (tables.new ≡ tables.old) }
{
    let parts = fixed_parts(alloc, problem)?;
    let fresh = fresh_tables(alloc, problem, parts.reward, PlacePrices::free(alloc))?;
    *fixed = parts;
    *tables = fresh;
    Ok(())
}
