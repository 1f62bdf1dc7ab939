//! From a problem to another that differs from it in its splits' ends alone.
ghost use Rattle.std.specs.Prelude.{◌≡◌, ◌<◌, ℕ, IfOk, OnErr, OnOk, length};
ghost use Rattle.tree_flow.specs.declared.nodes.Place.TheVariants.{Stands, Unshipped};
ghost use Rattle.tree_flow.specs.State.{place_of};
ghost use Rattle.tree_planner.specs.Engine.{IsFixed, IsStanding};
ghost use Rattle.tree_planner.specs.Events.{AreOtherEnds, ArePut, IsLike, IsOffIfChanged, IsOtherEnds};
ghost use Rattle.tree_planner.specs.View.{state_of};
ghost use Rattle.tree_planner.specs.Way.{AreOthersSame};

use crate::back::SearchBack;
use crate::engine::Fixed;
use crate::events::{lay_off, place_at, take_off};
use crate::like::has_same_ends;
use crate::refill::fill;
use crate::split_ends::OwnEnds;
use crate::tables::Tables;
use node_ids::SplitNo;
use std::alloc::{AllocError, Global};
use tree_flow::{End, Place};
use wave_problem::Problem;

/// Goes over to a problem in which some splits have other ends: those are not shipped then. Ends are made for
/// these splits alone. Without memory the problem stays, and some of these splits may not be shipped any
/// more.
pub fn turn_to(
    alloc: Global,
    problem: &mut Problem,
    fixed: &mut Fixed,
    tables: &mut Tables,
    next: Problem,
) -> Result<(), AllocError>
    requires fixed { IsFixed problem.old fixed.old }
    requires standing { IsStanding problem.old tables.old }
    requires like { IsLike problem.old next }
    ensures wave { OnOk result (problem.new ≡ next) }
    ensures err_wave { OnErr result (problem.new ≡ problem.old) }
    ensures fixed { IsFixed problem.new fixed.new }
    ensures standing { IsStanding problem.new tables.new }
{
    let others = other_ends(alloc, problem, fixed, &next)?;
    withdraw_changed(alloc, problem, fixed, tables, &others)?;
    put_ends(fixed, others);
    *problem = next;
    Ok(())
}

// The ends of the splits whose lines, holders or bars are others.
fn other_ends(
    alloc: Global,
    problem: &Problem,
    fixed: &Fixed,
    next: &Problem,
) -> Result<Vec<Option<OwnEnds>>, AllocError>
    requires fixed { IsFixed problem.now fixed.now }
    requires like { IsLike problem.now next.now }
    ensures { IfOk result (λ others. AreOtherEnds problem.now next.now others.items) }
{
    let mut others = Vec::with_capacity(alloc, next.splits())?;
    for s in 0..next.splits() {
        let ends = other_ends_of(alloc, problem, fixed, next, SplitNo::new(s as u32))?;
        others.push(ends)?;
    }
    Ok(others)
}

fn other_ends_of(
    alloc: Global,
    problem: &Problem,
    fixed: &Fixed,
    next: &Problem,
    split: SplitNo,
) -> Result<Option<OwnEnds>, AllocError>
    requires fixed { IsFixed problem.now fixed.now }
    requires like { IsLike problem.now next.now }
    requires split { split < length next.now.splits }
    ensures { IfOk result (λ ends. IsOtherEnds problem.now next.now split ends) }
{
    if has_same_ends(problem, next, split) {
        return Ok(None);
    }
    let ends = OwnEnds::of(alloc, next, &fixed.children, split)?;
    Ok(Some(ends))
}

// Takes the splits off that have other ends.
fn withdraw_changed(
    alloc: Global,
    problem: &Problem,
    fixed: &Fixed,
    tables: &mut Tables,
    others: &[Option<OwnEnds>],
) -> Result<(), AllocError>
    requires fixed { IsFixed problem.now fixed.now }
    requires size { length others.now ≡ length problem.now.splits }
    requires standing { IsStanding problem.now tables.old }
    ensures standing { IsStanding problem.now tables.new }
    ensures gone { OnOk result ((s : ℕ) → s < length problem.now.splits
        → IsOffIfChanged (state_of tables.new) others.now s) }
{
    for s in 0..problem.splits() {
        withdraw_if_changed(alloc, problem, fixed, tables, others, s as u32)?;
    }
    Ok(())
}

fn withdraw_if_changed(
    alloc: Global,
    problem: &Problem,
    fixed: &Fixed,
    tables: &mut Tables,
    others: &[Option<OwnEnds>],
    split: u32,
) -> Result<(), AllocError>
    requires fixed { IsFixed problem.now fixed.now }
    requires size { length others.now ≡ length problem.now.splits }
    requires standing { IsStanding problem.now tables.old }
    requires split { split < length problem.now.splits }
    ensures standing { IsStanding problem.now tables.new }
    ensures gone { OnOk result (IsOffIfChanged (state_of tables.new) others.now split) }
    ensures others { AreOthersSame (state_of tables.old) (state_of tables.new) split }
{
    match &others[split as usize] {
        Some(_) => withdraw(alloc, problem, fixed, tables, split),
        None => Ok(()),
    }
}

// Replaces ends of splits by other ones.
fn put_ends(fixed: &mut Fixed, others: Vec<Option<OwnEnds>>)
    requires { length others.items ≡ length fixed.old.ends }
    ensures rest { fixed.new ≡ record fixed.old { ends = fixed.new.ends } }
    ensures ends { ArePut fixed.old.ends others.items fixed.new.ends }
{
    let mut others = others;
    for s in 0..others.len() {
        if let Some(ends) = others[s].take() {
            fixed.ends.put(s, ends);
        }
    }
}

/// Takes a split off, so that it is not shipped. Without memory nothing changes.
pub fn withdraw(
    alloc: Global,
    problem: &Problem,
    fixed: &Fixed,
    tables: &mut Tables,
    split: u32,
) -> Result<(), AllocError>
    requires fixed { IsFixed problem.now fixed.now }
    requires standing { IsStanding problem.now tables.old }
    requires split { split < length problem.now.splits }
    ensures standing { IsStanding problem.now tables.new }
    ensures unshipped { OnOk result (place_of (state_of tables.new) split ≡ Unshipped) }
    ensures others { AreOthersSame (state_of tables.old) (state_of tables.new) split }
{
    match place_at(tables, split) {
        Place::Stands(end) => withdraw_from(alloc, problem, fixed, tables, split, end),
        Place::Waits => {
            lay_off(tables, split);
            Ok(())
        }
        Place::Unshipped => Ok(()),
    }
}

// Takes a split off the end at which it stands, and fills the hole.
fn withdraw_from(
    alloc: Global,
    problem: &Problem,
    fixed: &Fixed,
    tables: &mut Tables,
    split: u32,
    end: End,
) -> Result<(), AllocError>
    requires fixed { IsFixed problem.now fixed.now }
    requires standing { IsStanding problem.now tables.old }
    requires split { split < length problem.now.splits }
    requires stands { place_of (state_of tables.old) split ≡ Stands end }
    ensures standing { IsStanding problem.now tables.new }
    ensures unshipped { OnOk result (place_of (state_of tables.new) split ≡ Unshipped) }
    ensures others { AreOthersSame (state_of tables.old) (state_of tables.new) split }
{
    let mut search = SearchBack::new(alloc, problem.tree())?;
    take_off(problem, tables, split, end);
    fill(problem, fixed, tables, &mut search, end.node, None);
    Ok(())
}
