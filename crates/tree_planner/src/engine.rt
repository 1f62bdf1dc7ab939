//! Splits shipped one after another.
ghost use Rattle.std.specs.Prelude.{◌≡◌, ◌≢◌, ℕ, ◌<◌, ◌≤◌, All, IfOk, IsTrue, List, length, OnOk};
ghost use Rattle.tree_flow.specs.declared.nodes.Place.TheVariants.{Unshipped};
ghost use Rattle.price_certificate.specs.Certificate.{charged_claim, claim, worker_price, Certifies, HasOneSize};
ghost use Rattle.price_certificate.specs.Places.{IsBestByCharge, IsFitRow};
ghost use Rattle.tree_flow.specs.Settled.{AreTermsOf};
ghost use Rattle.wave_problem.specs.Assignment.{pairs_of, IsBest};
ghost use Rattle.wave_problem.specs.Wave.{IsUsable};
ghost use Rattle.tree_flow.specs.declared.node_table.NodeTable.{NodeTable};
ghost use Rattle.tree_planner.specs.Engine.{with_depth, IsFixed, IsHeld};
ghost use Rattle.tree_planner.specs.Searching.{HasReached, HasTables, IsBlank, IsGround};
ghost use Rattle.tree_flow.specs.Table.{at_node};
ghost use Rattle.tree_flow.specs.State.{place_of};
ghost use Rattle.tree_planner.specs.Lows.{AreLow};
ghost use Rattle.tree_planner.specs.View.{state_of};
ghost use Rattle.tree_planner.specs.Choosing.{IsChoice, IsLeast};
ghost use Rattle.tree_planner.specs.Way.{AreCheap, AreDeeper, AreOthersSame, IsReady, StartsTight};

use crate::children::{Children, all_children};
use crate::choice::{Choice, choose};
use crate::down::take_below;
use crate::follow::{deepen, follow, place};
use crate::hand_down::{all_starts, place_at, plan_of};
use crate::order::shipping_order;
use crate::prices::prices_of;
use crate::search::{Ground, Search, find_way};
use crate::split_ends::{AllEnds, all_ends};
use crate::tables::{Tables, fresh_tables, slots_under};
use crate::tree_nodes::all_nodes;
use node_ids::{SplitNo, WorkerNo};
use price_certificate::{PlacePrices, Prices};
use std::alloc::{AllocError, Global};
use tree_flow::{End, NodeTable, Place, TreeNode};
use wave_problem::{Plan, Problem};

/// What of a problem a search reads beside it: the nodes of its tree, the nodes that hang from each, the ends
/// of its splits, how many slots there are under each node, and what a start is worth.
pub struct Fixed {
    pub nodes: Vec<TreeNode>,
    pub children: Children,
    pub ends: AllEnds,
    pub slots: NodeTable<u64>,
    pub reward: u64,
}

// (one call wherever it is dropped)
impl Drop for Fixed {
    fn drop(self) {
        let Fixed {
            nodes: _,
            children: _,
            ends: _,
            slots: _,
            reward: _,
        } = self;
    }
}

/// What a search reads of a problem.
pub fn fixed_parts(alloc: Global, problem: &Problem) -> Result<Fixed, AllocError>
    ensures { IfOk result (λ fixed. IsFixed problem.now fixed) }
{
    problem.limits();
    let reward = problem.reward();
    let _splits = problem.splits();
    let nodes = all_nodes(alloc, problem.tree())?;
    let children = all_children(alloc, problem.tree(), &nodes)?;
    let ends = all_ends(alloc, problem, &children)?;
    let slots = slots_under(alloc, problem)?;
    Ok(Fixed {
        nodes,
        children,
        ends,
        slots,
        reward,
    })
}

/// Ships a split, or lets it wait, whichever is cheaper. The search is lent, blank.
pub fn ship(problem: &Problem, fixed: &Fixed, tables: &mut Tables, search: &mut Search, split: u32)
    requires fixed { IsFixed problem.now fixed.now }
    requires held { IsHeld problem.now tables.old }
    requires blank { IsBlank problem.now.tree (length fixed.now.nodes.items) search.old }
    requires split { split < length problem.now.splits }
    requires unshipped { place_of (state_of tables.old) split ≡ Unshipped }
    requires low { AreLow problem.now (state_of tables.old) search.old.lows }
    ensures held { IsHeld problem.now tables.new }
    ensures terms { (state_of tables.new).terms ≡ (state_of tables.old).terms }
    ensures shipped { place_of (state_of tables.new) split ≢ Unshipped }
    ensures others { AreOthersSame (state_of tables.old) (state_of tables.new) split }
    ensures blank { IsBlank problem.now.tree (length fixed.now.nodes.items) search.new }
    ensures low { AreLow problem.now (state_of tables.new) search.new.lows }
{
    match choice(problem, fixed, tables, split) {
        Choice::Wait => place(problem, tables, split, Place::Waits),
        Choice::Stand(end) => stand(problem, fixed, tables, split, end),
        Choice::Search(least) => search_and_follow(problem, fixed, tables, search, split, least),
    }
}

// What is cheapest for a split, as far as its ends show it.
fn choice(problem: &Problem, fixed: &Fixed, tables: &Tables, split: u32) -> Choice
    requires fixed { IsFixed problem.now fixed.now }
    requires held { IsHeld problem.now tables.now }
    requires split { split < length problem.now.splits }
    ensures { IsChoice problem.now (state_of tables.now) split result }
{
    choose(&ground_of(problem, fixed, tables), split)
}

// What a search stands on.
fn ground_of<'a>(problem: &'a Problem, fixed: &'a Fixed, tables: &'a Tables) -> Ground<'a>
    requires fixed { IsFixed problem.now fixed.now }
    requires held { IsHeld problem.now tables.now }
    ensures ground { IsGround result }
    ensures problem { result.problem.now ≡ problem.now }
    ensures nodes { result.nodes.now ≡ fixed.now.nodes.items }
    ensures tables { result.tables.now ≡ tables.now }
{
    Ground {
        problem,
        nodes: &fixed.nodes,
        children: &fixed.children,
        ends: &fixed.ends,
        slots: &fixed.slots,
        reward: tables.worth,
        tables,
    }
}

// Lets a split stand at an end under which a slot is free.
fn stand(problem: &Problem, fixed: &Fixed, tables: &mut Tables, split: u32, end: End)
    requires fixed { IsFixed problem.now fixed.now }
    requires held { IsHeld problem.now tables.old }
    requires unshipped { place_of (state_of tables.old) split ≡ Unshipped }
    requires split { split < length problem.now.splits }
    requires tight { StartsTight problem.now (state_of tables.old) split end }
    requires free { 0 < at_node tables.old.below end.node }
    requires cheap { AreCheap problem.now (state_of tables.old) end.node }
    ensures held { IsHeld problem.now tables.new }
    ensures terms { (state_of tables.new).terms ≡ (state_of tables.old).terms }
    ensures shipped { place_of (state_of tables.new) split ≢ Unshipped }
    ensures others { AreOthersSame (state_of tables.old) (state_of tables.new) split }
    ensures depth { tables.new.depth ≡ tables.old.depth }
{
    take_below(problem, &fixed.children, tables, end.node);
    place(problem, tables, split, Place::Stands(end));
}

// Searches the cheapest way for a split, and moves units along it.
fn search_and_follow(
    problem: &Problem,
    fixed: &Fixed,
    tables: &mut Tables,
    search: &mut Search,
    split: u32,
    least: u64,
)
    requires fixed { IsFixed problem.now fixed.now }
    requires held { IsHeld problem.now tables.old }
    requires blank { IsBlank problem.now.tree (length fixed.now.nodes.items) search.old }
    requires split { split < length problem.now.splits }
    requires unshipped { place_of (state_of tables.old) split ≡ Unshipped }
    requires least { IsLeast problem.now (state_of tables.old) split least }
    requires low { AreLow problem.now (state_of tables.old) search.old.lows }
    ensures held { IsHeld problem.now tables.new }
    ensures terms { (state_of tables.new).terms ≡ (state_of tables.old).terms }
    ensures shipped { place_of (state_of tables.new) split ≢ Unshipped }
    ensures others { AreOthersSame (state_of tables.old) (state_of tables.new) split }
    ensures blank { IsBlank problem.now.tree (length fixed.now.nodes.items) search.new }
    ensures low { AreLow problem.now (state_of tables.new) search.new.lows }
{
    find(problem, fixed, tables, search, split, least);
    let worth = tables.worth;
    deepen(problem, worth, &mut tables.depth, search);
    follow(problem, &fixed.children, tables, search);
    search.clear(problem.tree());
}

// Searches a cheapest way for a split, which costs nothing once the nodes lie deeper.
fn find(
    problem: &Problem,
    fixed: &Fixed,
    tables: &Tables,
    search: &mut Search,
    split: u32,
    least: u64,
)
    requires fixed { IsFixed problem.now fixed.now }
    requires held { IsHeld problem.now tables.now }
    requires blank { IsBlank problem.now.tree (length fixed.now.nodes.items) search.old }
    requires split { split < length problem.now.splits }
    requires unshipped { place_of (state_of tables.now) split ≡ Unshipped }
    requires least { IsLeast problem.now (state_of tables.now) split least }
    requires low { AreLow problem.now (state_of tables.now) search.old.lows }
    ensures split { search.new.split ≡ split }
    ensures low { AreLow problem.now (state_of tables.now) search.new.lows }
    ensures tables { HasTables problem.now.tree search.new }
    ensures reached { HasReached problem.now.tree search.new }
    ensures room { length search.new.reached.nodes.items ≡ length fixed.now.nodes.items }
    ensures bound { search.new.bound ≤ search.new.limit }
    ensures limit { search.new.limit ≤ tables.now.worth }
    ensures ready { (depth : NodeTable ℕ) → AreDeeper tables.now.worth tables.now.depth search.new depth
        → IsReady problem.now (with_depth (state_of tables.now) depth) search.new }
{
    find_way(&ground_of(problem, fixed, tables), search, split, least);
}

/// Ships the split of this number, unless it is shipped already, by a search that is blank before and after.
pub fn ship_once(
    problem: &Problem,
    fixed: &Fixed,
    tables: &mut Tables,
    search: &mut Search,
    split: u32,
)
    requires fixed { IsFixed problem.now fixed.now }
    requires held { IsHeld problem.now tables.old }
    requires blank { IsBlank problem.now.tree (length fixed.now.nodes.items) search.old }
    requires split { split < length problem.now.splits }
    requires low { AreLow problem.now (state_of tables.old) search.old.lows }
    ensures held { IsHeld problem.now tables.new }
    ensures terms { (state_of tables.new).terms ≡ (state_of tables.old).terms }
    ensures shipped { place_of (state_of tables.new) split ≢ Unshipped }
    ensures others { AreOthersSame (state_of tables.old) (state_of tables.new) split }
    ensures blank { IsBlank problem.now.tree (length fixed.now.nodes.items) search.new }
    ensures low { AreLow problem.now (state_of tables.new) search.new.lows }
{
    if let Place::Unshipped = place_at(tables, split as usize) {
        ship(problem, fixed, tables, search, split);
    }
}

// Ships the split of this number, if there is one and it is not shipped already.
fn ship_if_known(
    problem: &Problem,
    fixed: &Fixed,
    tables: &mut Tables,
    search: &mut Search,
    split: u32,
)
    requires fixed { IsFixed problem.now fixed.now }
    requires held { IsHeld problem.now tables.old }
    requires low { AreLow problem.now (state_of tables.old) search.old.lows }
    requires blank { IsBlank problem.now.tree (length fixed.now.nodes.items) search.old }
    ensures held { IsHeld problem.now tables.new }
    ensures terms { (state_of tables.new).terms ≡ (state_of tables.old).terms }
    ensures blank { IsBlank problem.now.tree (length fixed.now.nodes.items) search.new }
    ensures low { AreLow problem.now (state_of tables.new) search.new.lows }
{
    if (split as usize) < problem.splits() {
        ship_once(problem, fixed, tables, search, split);
    }
}

// Ships the splits in the order in which the fewest searches are needed.
fn ship_in_order(
    alloc: Global,
    problem: &Problem,
    fixed: &Fixed,
    tables: &mut Tables,
) -> Result<(), AllocError>
    requires fixed { IsFixed problem.now fixed.now }
    requires held { IsHeld problem.now tables.old }
    ensures held { IsHeld problem.now tables.new }
    ensures terms { (state_of tables.new).terms ≡ (state_of tables.old).terms }
{
    let mut search = Search::new(alloc, problem.tree(), fixed.nodes.len(), problem.splits())?;
    let order = shipping_order(alloc, problem, fixed.slots.get(TreeNode::Cluster))?;
    for split in &order {
        ship_if_known(problem, fixed, tables, &mut search, *split);
    }
    Ok(())
}

/// Ships the splits that are not shipped yet, or lets them wait. Where there are none, no memory is needed.
pub fn ship_rest(
    alloc: Global,
    problem: &Problem,
    fixed: &Fixed,
    tables: &mut Tables,
) -> Result<(), AllocError>
    requires fixed { IsFixed problem.now fixed.now }
    requires held { IsHeld problem.now tables.old }
    ensures held { IsHeld problem.now tables.new }
    ensures terms { (state_of tables.new).terms ≡ (state_of tables.old).terms }
    ensures shipped { OnOk result ((s : ℕ) → s < length problem.now.splits
        → place_of (state_of tables.new) s ≢ Unshipped) }
{
    if are_shipped(problem, tables) {
        return Ok(());
    }
    ship_each(alloc, problem, fixed, tables)
}

// Whether all splits are shipped, or wait.
fn are_shipped(problem: &Problem, tables: &Tables) -> bool
    requires { IsHeld problem.now tables.now }
    ensures { IsTrue result → (s : ℕ) → s < length problem.now.splits
        → place_of (state_of tables.now) s ≢ Unshipped }
{
    for s in 0..problem.splits() {
        if let Place::Unshipped = place_at(tables, s) {
            return false;
        }
    }
    true
}

fn ship_each(
    alloc: Global,
    problem: &Problem,
    fixed: &Fixed,
    tables: &mut Tables,
) -> Result<(), AllocError>
    requires fixed { IsFixed problem.now fixed.now }
    requires held { IsHeld problem.now tables.old }
    ensures held { IsHeld problem.now tables.new }
    ensures terms { (state_of tables.new).terms ≡ (state_of tables.old).terms }
    ensures shipped { OnOk result ((s : ℕ) → s < length problem.now.splits
        → place_of (state_of tables.new) s ≢ Unshipped) }
{
    let mut search = Search::new(alloc, problem.tree(), fixed.nodes.len(), 0)?;
    for s in 0..problem.splits() {
        ship_once(problem, fixed, tables, &mut search, s as u32);
    }
    Ok(())
}

// All splits shipped, or left to wait, where places have these prices.
fn all_shipped(
    alloc: Global,
    problem: &Problem,
    fixed: &Fixed,
    places: PlacePrices,
) -> Result<Tables, AllocError>
    requires { IsFixed problem.now fixed.now }
    ensures held { IfOk result (λ tables. IsHeld problem.now tables) }
    ensures terms { IfOk result (λ tables. AreTermsOf problem.now places (state_of tables).terms) }
    ensures shipped { IfOk result (λ tables. (s : ℕ) → s < length problem.now.splits
        → place_of (state_of tables) s ≢ Unshipped) }
{
    let worth = fixed.reward + places.total(problem);
    let mut tables = fresh_tables(alloc, problem, worth, places)?;
    ship_in_order(alloc, problem, fixed, &mut tables)?;
    ship_rest(alloc, problem, fixed, &mut tables)?;
    Ok(tables)
}

/// A plan that starts as many splits as any admissible assignment, at the least cost among those, with
/// prices that certify it; slots that nobody can take have no price. Only memory can fail.
pub fn plan(alloc: Global, problem: &Problem) -> Result<(Plan, Prices), AllocError>
    ensures sizes { IfOk result
        (λ pair. HasOneSize (claim problem.now pair.0.starts pair.1) pair.0.workers) }
    ensures certifies { IfOk result (λ pair. Certifies (claim problem.now pair.0.starts pair.1)) }
    ensures idle { IfOk result (λ pair. (w : ℕ) → (IsUsable problem.now.workers w → ⊥)
        → worker_price pair.1 w ≡ 0) }
    ensures best { IfOk result (λ pair. IsBest problem.now (pairs_of pair.0.starts)) }
{
    let places = PlacePrices::free(alloc);
    plan_places(alloc, problem, &places)
}

/// The same where places have prices: a plan that starts as many splits as any admissible assignment, at the
/// least charge among those, which is the byte-distance with the prices of the places that are taken. Each
/// split is shipped by a search over the nodes of the tree, as the first slots of a worker are no longer as
/// good as others: some thousand splits take seconds.
pub fn plan_places(
    alloc: Global,
    problem: &Problem,
    places: &PlacePrices,
) -> Result<(Plan, Prices), AllocError>
    ensures sizes { IfOk result
        (λ pair. HasOneSize (claim problem.now pair.0.starts pair.1) pair.0.workers) }
    ensures certifies { IfOk result
        (λ pair. Certifies (charged_claim problem.now places.now pair.0.starts pair.1)) }
    ensures idle { IfOk result (λ pair. (w : ℕ) → (IsUsable problem.now.workers w → ⊥)
        → worker_price pair.1 w ≡ 0) }
    ensures best { IfOk result (λ pair. IsBestByCharge places.now problem.now (pairs_of pair.0.starts)) }
{
    problem.limits();
    places.limits();
    let base = fixed_parts(alloc, problem)?;
    let tables = all_shipped(alloc, problem, &base, places.copy(alloc)?)?;
    let found = read_off(alloc, problem, &base, &tables)?;
    Ok((found.plan, found.prices))
}

/// A plan with prices that certify it, and its splits that start, each with its worker, by rising split.
#[derive(Drop)]
pub struct Found {
    pub plan: Plan,
    pub prices: Prices,
    pub pairs: Vec<(SplitNo, WorkerNo)>,
}

/// The plan and the prices that the tables show, best on any prices of places of which the tables' terms are.
pub fn read_off(
    alloc: Global,
    problem: &Problem,
    fixed: &Fixed,
    tables: &Tables,
) -> Result<Found, AllocError>
    requires fixed { IsFixed problem.now fixed.now }
    requires held { IsHeld problem.now tables.now }
    requires shipped { (s : ℕ) → s < length problem.now.splits
        → place_of (state_of tables.now) s ≢ Unshipped }
    ensures sizes { IfOk result
        (λ found. HasOneSize (claim problem.now found.plan.starts found.prices) found.plan.workers) }
    ensures certifies { (places : List (List ℕ)) → AreTermsOf problem.now places (state_of tables.now).terms
        → IfOk result (λ found. Certifies (charged_claim problem.now places found.plan.starts found.prices)) }
    ensures idle { IfOk result (λ found. (w : ℕ) → (IsUsable problem.now.workers w → ⊥)
        → worker_price found.prices w ≡ 0) }
    ensures best { (places : List (List ℕ)) → All IsFitRow places
        → AreTermsOf problem.now places (state_of tables.now).terms
        → IfOk result (λ found. IsBestByCharge places problem.now (pairs_of found.plan.starts)) }
    ensures pairs { IfOk result (λ found. found.pairs.items ≡ pairs_of found.plan.starts) }
{
    problem.limits();
    let pairs = all_starts(alloc, problem, &fixed.children, tables)?;
    let plan = plan_of(alloc, problem, &pairs)?;
    let prices = prices_of(alloc, problem, tables.worth, tables, &pairs)?;
    Ok(Found {
        plan,
        prices,
        pairs,
    })
}
