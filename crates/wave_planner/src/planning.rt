//! Plans a wave.
ghost use Rattle.std.specs.Prelude.{◌≡◌, ◌≢◌, ℕ, ◌*◌, ◌<◌, ◌≤◌, ◌↔◌, length, unwrap_or};
ghost use Rattle.std.specs.Prelude.{All, IfOk, IsTrue, Err};
ghost use Rattle.rack_tree.specs.declared.TheConstants.{MAX_DISTANCE};
ghost use Rattle.wave_problem.specs.declared.TheConstants.{MAX_BYTES, MAX_SPLITS};
ghost use Rattle.wave_problem.specs.Assignment.{pairs_of, total, IsBest};
ghost use Rattle.wave_problem.specs.Wave.{cost, IsUsable};
ghost use Rattle.price_certificate.specs.Certificate.{charged_claim, claim, worker_price, Certifies, HasOneSize};
ghost use Rattle.price_certificate.specs.Places.{places_taken, IsBestByCharge};
ghost use Rattle.certificate_checker.specs.Verdict.{IsCertified};
ghost use Rattle.flow_network.specs.declared.kinds.NetworkKind.{NetworkKind};
ghost use Rattle.rack_network.specs.Racks.{IsTree};
ghost use Rattle.wave_planner.specs.Planned.{IsMadeOver, IsPast, WasCertified, Planned};
ghost use Rattle.wave_planner.specs.PlannedView.{planned_of};

use certificate_checker::{Certified, certify_places, count_and_cost};
use direct_network::DirectLayout;
use flow_network::NetworkKind;
use network_prices::priced_plan;
use node_ids::{SplitNo, WorkerNo};
use price_certificate::{PlacePrices, Prices};
use std::alloc::{AllocError, Global};
use std::marker::Model;
use thiserror::Error;
use wave_problem::{Plan, Problem};

/// A plan with prices that certify it in the problem that it was made for, its count and cost, and the splits
/// that it starts. Whoever has one knows that it was certified; against another problem `certify` tells anew.
#[derive(Drop)]
pub struct Planned {
    plan: Plan,
    prices: Prices,
    certified: Certified,
    // The splits that start, each with its worker.
    pairs: Vec<(SplitNo, WorkerNo)>,
}

impl Model for Planned {
    ghost Value = { Planned };

    ghost view = { planned_of };

    ghost invariant = { λ p. WasCertified (planned_of p) × (p.pairs.items ≡ pairs_of p.plan.starts) };
}

impl Planned {
    /// A plan with prices that are known to certify it in a problem, where slots that nobody can take have no
    /// price, and with the splits that start. It needs no test, and no memory.
    pub fn known(
        problem: &Problem,
        plan: Plan,
        prices: Prices,
        pairs: Vec<(SplitNo, WorkerNo)>,
    ) -> Planned
        requires sizes { HasOneSize (claim problem.now plan.starts prices) plan.workers }
        requires certifies { Certifies (claim problem.now plan.starts prices) }
        requires idle { (w : ℕ) → (IsUsable problem.now.workers w → ⊥) → worker_price prices w ≡ 0 }
        requires pairs { pairs.items ≡ pairs_of plan.starts }
        ensures over { IsMadeOver NetworkKind.Racks problem.now result.plan.starts result.prices }
        ensures plan { result.plan ≡ plan }
        ensures prices { result.prices ≡ prices }
        ensures count { result.certified.count ≡ length (pairs_of plan.starts) }
        ensures cost { result.certified.cost ≡ total problem.now (pairs_of plan.starts) }
    {
        problem.limits();
        let certified = Certified {
            count: pairs.len(),
            cost: cost_of(problem, &pairs),
            places: 0,
        };
        Planned {
            plan,
            prices,
            certified,
            pairs,
        }
    }

    /// Which splits start, and where.
    pub fn plan(&self) -> &Plan
        ensures { result.now ≡ self.now.plan }
    {
        &self.plan
    }

    /// The splits that start, each with its worker, by rising split.
    pub fn pairs(&self) -> &[(SplitNo, WorkerNo)]
        ensures { result.now ≡ pairs_of self.now.plan.starts }
    {
        &self.pairs
    }

    /// The prices by which the plan is best.
    pub fn prices(&self) -> &Prices
        ensures { result.now ≡ self.now.prices }
    {
        &self.prices
    }

    /// The plan, the prices, and the splits that start, each with its worker, by rising split.
    pub fn into_parts(self) -> (Plan, Prices, Vec<(SplitNo, WorkerNo)>)
        ensures plan { result.0 ≡ self.plan }
        ensures prices { result.1 ≡ self.prices }
        ensures pairs { result.2.items ≡ pairs_of self.plan.starts }
    {
        let Planned {
            plan,
            prices,
            pairs,
            ..
        } = self;
        (plan, prices, pairs)
    }

    /// How many splits start, and the byte-distance of the starts together.
    pub fn certified(&self) -> Certified
        ensures certified { result ≡ self.now.certified }
        ensures known { WasCertified self.now }
    {
        self.certified
    }
}

/// The byte-distance of these starts together.
pub fn cost_of(problem: &Problem, pairs: &[(SplitNo, WorkerNo)]) -> u64
    requires few { length pairs.now ≤ MAX_SPLITS }
    requires known { All (λ pair. (pair.0 < length problem.now.splits)
        × (pair.1 < length problem.now.workers)) pairs.now }
    ensures { result ≡ total problem.now pairs.now }
{
    let mut total = 0;
    for pair in pairs {
        let (split, worker) = *pair;
        total += cost_at(problem, split, worker);
    }
    total
}

// What it costs a split to start on a worker, or 0.
fn cost_at(problem: &Problem, split: SplitNo, worker: WorkerNo) -> u64
    requires split { split < length problem.now.splits }
    requires worker { worker < length problem.now.workers }
    ensures cost { result ≡ unwrap_or (cost problem.now split worker) 0 }
    ensures most { result ≤ MAX_DISTANCE * MAX_BYTES }
{
    problem.cost(split, worker).unwrap_or(0)
}

// A plan with prices that certify it, and with its count and its cost.
fn certified_plan(
    problem: &Problem,
    plan: Plan,
    prices: Prices,
    pairs: Vec<(SplitNo, WorkerNo)>,
) -> Planned
    requires sizes { HasOneSize (claim problem.now plan.starts prices) plan.workers }
    requires certifies { Certifies (claim problem.now plan.starts prices) }
    requires pairs { pairs.items ≡ pairs_of plan.starts }
    ensures plan { result.plan ≡ plan }
    ensures prices { result.prices ≡ prices }
    ensures count { result.certified.count ≡ length (pairs_of plan.starts) }
    ensures cost { result.certified.cost ≡ total problem.now (pairs_of plan.starts) }
    ensures places { result.certified.places ≡ 0 }
    ensures best { IsBest problem.now (pairs_of plan.starts) }
{
    let certified = count_and_cost(problem, &plan, &prices);
    Planned {
        plan,
        prices,
        certified,
        pairs,
    }
}

/// The splits that a plan starts, each with its worker, by rising split.
pub fn pairs_of(alloc: Global, plan: &Plan) -> Result<Vec<(SplitNo, WorkerNo)>, AllocError>
    ensures { IfOk result (λ pairs. pairs.items ≡ pairs_of plan.now.starts) }
{
    let mut pairs = Vec::new(alloc);
    for s in 0..plan.splits() {
        let split = SplitNo::new(s as u32);
        if let Some(worker) = plan.of(split) {
            pairs.push((split, worker))?;
        }
    }
    Ok(pairs)
}

/// Why no plan is made.
#[derive(Clone, Copy, Debug, PartialEq, Eq, Error)]
pub enum PlanError {
    /// There is no memory for the network, the search, the plan or the prices.
    #[error("no memory")]
    Memory,
    /// The problem has more splits or more workers than a direct network is built for.
    #[error("too many splits or workers for a direct network")]
    Size,
}

/// A plan that starts as many splits as any admissible assignment, at the least cost among those, with
/// prices that certify it: one over the network with racks, found over the tree.
pub fn plan(alloc: Global, problem: &Problem) -> Result<Planned, PlanError>
    ensures over { IfOk result (λ planned.
        IsMadeOver NetworkKind.Racks problem.now planned.plan.starts planned.prices) }
    ensures sizes { IfOk result (λ planned.
        HasOneSize (claim problem.now planned.plan.starts planned.prices) planned.plan.workers) }
    ensures certifies { IfOk result
        (λ planned. Certifies (claim problem.now planned.plan.starts planned.prices)) }
    ensures best { IfOk result (λ planned. IsBest problem.now (pairs_of planned.plan.starts)) }
    ensures count { IfOk result (λ planned. planned.certified.count ≡ length (pairs_of planned.plan.starts)) }
    ensures cost { IfOk result (λ planned.
        planned.certified.cost ≡ total problem.now (pairs_of planned.plan.starts)) }
    ensures places { IfOk result (λ planned. planned.certified.places ≡ 0) }
    ensures size { result ≢ Err PlanError.Size }
{
    plan_with(alloc, problem, NetworkKind::Racks)
}

/// The same over a network of this kind. The direct network is built, and takes one augmentation for each
/// pending split; that with racks is answered over the tree. Whether the problem is small enough for a direct
/// network is tested before memory is taken.
pub fn plan_with(alloc: Global, problem: &Problem, kind: NetworkKind) -> Result<Planned, PlanError>
    ensures over { IfOk result (λ planned. IsMadeOver kind problem.now planned.plan.starts planned.prices) }
    ensures sizes { IfOk result (λ planned.
        HasOneSize (claim problem.now planned.plan.starts planned.prices) planned.plan.workers) }
    ensures certifies { IfOk result
        (λ planned. Certifies (claim problem.now planned.plan.starts planned.prices)) }
    ensures best { IfOk result (λ planned. IsBest problem.now (pairs_of planned.plan.starts)) }
    ensures count { IfOk result (λ planned. planned.certified.count ≡ length (pairs_of planned.plan.starts)) }
    ensures cost { IfOk result (λ planned.
        planned.certified.cost ≡ total problem.now (pairs_of planned.plan.starts)) }
    ensures places { IfOk result (λ planned. planned.certified.places ≡ 0) }
    ensures size { (result ≡ Err PlanError.Size) ↔ IsPast kind problem.now }
{
    if is_too_large(problem, kind) {
        return Err(PlanError::Size);
    }
    let Ok((plan, prices)) = priced_plan_over(alloc, problem, kind) else {
        return Err(PlanError::Memory);
    };
    match pairs_of(alloc, &plan) {
        Ok(pairs) => Ok(certified_plan(problem, plan, prices, pairs)),
        Err(_) => Err(PlanError::Memory),
    }
}

/// The same where places have prices: a plan that starts as many splits as any admissible assignment, at the
/// least charge among those, which is the byte-distance of the starts with the prices of the places that they
/// take. It is found over the tree.
pub fn plan_places(
    alloc: Global,
    problem: &Problem,
    places: &PlacePrices,
) -> Result<Planned, AllocError>
    ensures sizes { IfOk result (λ planned.
        HasOneSize (claim problem.now planned.plan.starts planned.prices) planned.plan.workers) }
    ensures certifies { IfOk result (λ planned.
        Certifies (charged_claim problem.now places.now planned.plan.starts planned.prices)) }
    ensures best { IfOk result (λ planned. IsBestByCharge places.now problem.now (pairs_of planned.plan.starts)) }
    ensures count { IfOk result (λ planned. planned.certified.count ≡ length (pairs_of planned.plan.starts)) }
    ensures cost { IfOk result (λ planned.
        planned.certified.cost ≡ total problem.now (pairs_of planned.plan.starts)) }
    ensures taken { IfOk result (λ planned. planned.certified.places
        ≡ places_taken places.now problem.now (pairs_of planned.plan.starts)) }
{
    let (plan, prices) = tree_planner::plan_places(alloc, problem, places)?;
    let certified = figures_of(alloc, problem, places, &plan, &prices);
    let pairs = pairs_of(alloc, &plan)?;
    Ok(Planned {
        plan,
        prices,
        certified,
        pairs,
    })
}

// The count, the cost and the charge of places of a plan that the prices are known to certify.
fn figures_of(
    alloc: Global,
    problem: &Problem,
    places: &PlacePrices,
    plan: &Plan,
    prices: &Prices,
) -> Certified
    requires sizes { HasOneSize (claim problem.now plan.now.starts prices.now) plan.now.workers }
    requires certifies { Certifies (charged_claim problem.now places.now plan.now.starts prices.now) }
    ensures { IsCertified (charged_claim problem.now places.now plan.now.starts prices.now) result }
{
    match certify_places(alloc, problem, places, plan, prices) {
        Ok(certified) => certified,
        Err(_) => unreachable!(),
    }
}

// Whether no network of this kind is built for the problem.
fn is_too_large(problem: &Problem, kind: NetworkKind) -> bool
    ensures { IsTrue result ↔ IsPast kind problem.now }
{
    match kind {
        NetworkKind::Direct => {
            problem.splits() > direct_network::MAX_SPLITS
                || problem.workers() > direct_network::MAX_WORKERS
        }
        NetworkKind::Racks => false,
    }
}

// A plan over a network of this kind, with prices that certify it.
fn priced_plan_over(
    alloc: Global,
    problem: &Problem,
    kind: NetworkKind,
) -> Result<(Plan, Prices), AllocError>
    ensures over { IfOk result (λ pair. IsMadeOver kind problem.now pair.0.starts pair.1) }
    ensures sizes { IfOk result (λ pair. HasOneSize (claim problem.now pair.0.starts pair.1) pair.0.workers) }
    ensures certifies { IfOk result (λ pair. Certifies (claim problem.now pair.0.starts pair.1)) }
{
    match kind {
        NetworkKind::Direct => priced_plan::<DirectLayout>(alloc, problem),
        NetworkKind::Racks => plan_by_racks(alloc, problem),
    }
}

// A plan over the tree, which is read off the network with racks, with prices that certify it.
fn plan_by_racks(alloc: Global, problem: &Problem) -> Result<(Plan, Prices), AllocError>
    ensures over { IfOk result (λ pair. IsMadeOver NetworkKind.Racks problem.now pair.0.starts pair.1) }
    ensures sizes { IfOk result (λ pair. HasOneSize (claim problem.now pair.0.starts pair.1) pair.0.workers) }
    ensures certifies { IfOk result (λ pair. Certifies (claim problem.now pair.0.starts pair.1)) }
{
    know_tree(problem);
    let (plan, prices) = tree_planner::plan(alloc, problem)?;
    Ok((plan, prices))
}

// That the tree says where each worker and each rack stands, and that there are few of all.
fn know_tree(problem: &Problem)
    ensures { IsTree problem.now }
{
    problem.limits();
}
