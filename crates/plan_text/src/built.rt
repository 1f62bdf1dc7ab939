ghost use Rattle.std.specs.Prelude.{◌≡◌, ◌<◌, ◌↔◌, ◌⊎◌, ℕ, All, Contains, IfOk, length, map, max};
ghost use Rattle.std.specs.List.Sorted.{IsPermutation};
ghost use Rattle.node_ids.specs.Sets.{HasPair};
ghost use Rattle.price_certificate.specs.Certificate.{HasOneSize, claim};
ghost use Rattle.line_shapes.specs.declared.keyword.Keyword.TheVariants.{Barred, Busy, Centre, Dead, Price};
ghost use Rattle.line_shapes.specs.declared.keyword.Keyword.TheVariants.{Rack, Split, Start, Worker};
ghost use Rattle.line_rules.specs.Known.{rows_of};
ghost use Rattle.plan_text.specs.Names.{names_of};
ghost use Rattle.plan_text.specs.Reading.{MakesPlan, MakesProblem};
ghost use Rattle.plan_text.specs.Value.{IsBarred, MakesWave, centre_number, declared_bar, declared_split};
ghost use Rattle.plan_text.specs.Value.{declared_starts, declared_tree, declared_worker, price_at};
ghost use Rattle.plan_text.specs.Value.{holders_of, prices_in, rack_number, start_at};

use crate::name_list::NameList;
use crate::place_rows::build_places;
use crate::tidy_rows::TidyRows;
use line_shapes::Keyword;
use node_ids::{CentreNo, PairSet, RackNo, SplitNo, WorkerNo};
use price_certificate::{PlacePrices, Prices};
use rack_tree::RackTree;
use std::alloc::{AllocError, Global};
use text_lines::NameTable;
use wave_problem::{Plan, Problem, SplitLine, SplitRef, WorkerLine};

/// A problem, a plan and prices of one size, prices of places, and the names of the splits and workers.
#[derive(Drop)]
pub struct PlanText<'t> {
    pub problem: Problem,
    pub plan: Plan,
    pub prices: Prices,
    pub places: PlacePrices,
    pub splits: NameTable<'t>,
    pub workers: NameTable<'t>,
}

/// A problem, prices of places, and the names of the splits and workers by number.
#[derive(Drop)]
pub struct ProblemText<'t> {
    pub problem: Problem,
    pub places: PlacePrices,
    pub splits: NameList<'t>,
    pub workers: NameList<'t>,
}

/// The problem, plan and prices that the rows of a text declare. The only error is want of memory.
pub fn build_plan_text<'t>(
    alloc: Global,
    rows: &TidyRows<'_, 't>,
) -> Result<PlanText<'t>, AllocError>
    ensures value { IfOk result (MakesPlan rows.now) }
    ensures sized { IfOk result (λ v. HasOneSize (claim v.problem v.plan.starts v.prices) v.plan.workers) }
{
    let plan = build_plan(alloc, rows)?;
    let prices = build_prices(alloc, rows)?;
    let places = build_places(alloc, rows)?;
    let problem = build_problem(alloc, rows)?;
    let splits = rows.names(alloc, Keyword::Split)?;
    let workers = rows.names(alloc, Keyword::Worker)?;
    Ok(PlanText {
        problem,
        plan,
        prices,
        places,
        splits,
        workers,
    })
}

/// The problem that the rows of a text declare. The only error is want of memory.
pub fn build_problem_text<'t>(
    alloc: Global,
    rows: &TidyRows<'_, 't>,
) -> Result<ProblemText<'t>, AllocError>
    ensures value { IfOk result (MakesProblem rows.now) }
    ensures splits { IfOk result (λ v. length v.splits ≡ length v.problem.splits) }
    ensures workers { IfOk result (λ v. length v.workers ≡ length v.problem.workers) }
{
    let places = build_places(alloc, rows)?;
    let problem = build_problem(alloc, rows)?;
    let splits = rows.name_list(alloc, Keyword::Split)?;
    let workers = rows.name_list(alloc, Keyword::Worker)?;
    Ok(ProblemText {
        problem,
        places,
        splits,
        workers,
    })
}

fn build_problem(alloc: Global, rows: &TidyRows<'_, '_>) -> Result<Problem, AllocError>
    ensures { IfOk result (MakesWave rows.now) }
{
    rows.are_tidy();
    let barred = build_barred(alloc, rows)?;
    let holders = numbered(alloc, rows.holders())?;
    let splits = lent_splits(alloc, rows, &holders)?;
    let workers = build_workers(alloc, rows)?;
    let tree = build_tree(alloc, rows)?;
    tree.limits();
    Problem::within_limits(alloc, tree, workers, &splits, barred)
}

/// The racks in their centres, and the rack of each worker. The only error is want of memory.
pub fn build_tree(alloc: Global, rows: &TidyRows<'_, '_>) -> Result<RackTree, AllocError>
    ensures { IfOk result (λ tree. tree
        ≡ declared_tree (names_of Centre rows.now) (rows_of Rack rows.now) (rows_of Worker rows.now)) }
{
    let rack_of = racks_of_workers(alloc, rows)?;
    let centre_of = centres_of_racks(alloc, rows)?;
    let centres = rows.count(Keyword::Centre).max(1);
    Ok(RackTree::from_lists(centres, centre_of, rack_of))
}

// The rack of each worker.
fn racks_of_workers(alloc: Global, rows: &TidyRows<'_, '_>) -> Result<Vec<RackNo>, AllocError>
    ensures value { IfOk result (λ racks.
        racks.items ≡ map (rack_number (names_of Rack rows.now)) (rows_of Worker rows.now)) }
    ensures within { IfOk result (λ racks. All (λ rack. rack < length (names_of Rack rows.now)) racks.items) }
{
    let count = rows.count(Keyword::Worker);
    let mut racks = Vec::with_capacity(alloc, count)?;
    for worker in 0..count {
        racks.push(rows.rack(rows.word(Keyword::Worker, worker, 1)))?;
    }
    Ok(racks)
}

// The centre of each rack. Where the text has no centre, its racks stand in one without a name.
fn centres_of_racks(alloc: Global, rows: &TidyRows<'_, '_>) -> Result<Vec<CentreNo>, AllocError>
    ensures value { IfOk result (λ centres.
        centres.items ≡ map (centre_number (names_of Centre rows.now)) (rows_of Rack rows.now)) }
    ensures within { IfOk result (λ centres.
        All (λ centre. centre < max 1 (length (names_of Centre rows.now))) centres.items) }
{
    let count = rows.count(Keyword::Rack);
    let mut centres = Vec::with_capacity(alloc, count)?;
    for rack in 0..count {
        let name = rows.word(Keyword::Rack, rack, 1);
        let centre = rows.number(Keyword::Centre, name).unwrap_or(0);
        centres.push(CentreNo::new(centre as u8))?;
    }
    Ok(centres)
}

fn build_workers(alloc: Global, rows: &TidyRows<'_, '_>) -> Result<Vec<WorkerLine>, AllocError>
    ensures { IfOk result (λ lines. lines.items
        ≡ map (declared_worker (names_of Dead rows.now)) (rows_of Worker rows.now)) }
{
    let count = rows.count(Keyword::Worker);
    let mut lines = Vec::with_capacity(alloc, count)?;
    for worker in 0..count {
        lines.push(WorkerLine {
            live: !rows.has(Keyword::Dead, rows.word(Keyword::Worker, worker, 0)),
            free: rows.slots(worker),
        })?;
    }
    Ok(lines)
}

/// The lines of the splits, each with its holders by number. The only error is want of memory.
pub fn build_splits(alloc: Global, rows: &TidyRows<'_, '_>) -> Result<Vec<SplitLine>, AllocError>
    ensures { IfOk result (λ lines. lines.items
        ≡ map (declared_split (names_of Worker rows.now) (names_of Busy rows.now)) (rows_of Split rows.now)) }
{
    let holders = numbered(alloc, rows.holders())?;
    let splits = lent_splits(alloc, rows, &holders)?;
    kept_splits(alloc, &splits)
}

// The same lines, each with a list of its holders.
fn kept_splits(alloc: Global, splits: &[SplitRef<'_>]) -> Result<Vec<SplitLine>, AllocError>
    ensures { IfOk result (λ lines. lines.items ≡ splits.now) }
{
    let mut lines = Vec::with_capacity(alloc, splits.len())?;
    for split in splits {
        lines.push(SplitLine {
            bytes: split.bytes,
            pending: split.pending,
            holders: Vec::from_slice(alloc, split.holders)?,
        })?;
    }
    Ok(lines)
}

// The lines of the splits, whose holders are lent from the list of all.
fn lent_splits<'h>(
    alloc: Global,
    rows: &TidyRows<'_, '_>,
    holders: &'h [WorkerNo],
) -> Result<Vec<SplitRef<'h>>, AllocError>
    requires { holders.now ≡ holders_of (names_of Worker rows.now) (rows_of Split rows.now) }
    ensures { IfOk result (λ lines. lines.items
        ≡ map (declared_split (names_of Worker rows.now) (names_of Busy rows.now)) (rows_of Split rows.now)) }
{
    let count = rows.count(Keyword::Split);
    let mut lines = Vec::with_capacity(alloc, count)?;
    let mut rest = holders;
    for split in 0..count {
        let (held, after) = rest.split_at(rows.holder_count(split));
        lines.push(SplitRef {
            bytes: rows.amount(Keyword::Split, split, 1),
            pending: !rows.has(Keyword::Busy, rows.word(Keyword::Split, split, 0)),
            holders: held,
        })?;
        rest = after;
    }
    Ok(lines)
}

// The workers of these numbers.
fn numbered(alloc: Global, numbers: &[u32]) -> Result<Vec<WorkerNo>, AllocError>
    requires { All (λ number. number < 32768) numbers.now }
    ensures { IfOk result (λ workers. workers.items ≡ numbers.now) }
{
    let mut workers = Vec::with_capacity(alloc, numbers.len())?;
    for number in numbers {
        workers.push_reserved(WorkerNo::new(*number as u16));
    }
    Ok(workers)
}

fn build_barred(alloc: Global, rows: &TidyRows<'_, '_>) -> Result<PairSet, AllocError>
    ensures { IfOk result (λ set. (s w : ℕ) → HasPair set s w
        ↔ IsBarred (names_of Split rows.now) (names_of Worker rows.now) (rows_of Barred rows.now) s w) }
{
    let pairs = barred_pairs(alloc, rows)?;
    set_of(alloc, rows.count(Keyword::Split), &pairs)
}

// The barred pairs, rising, so that a set takes each behind the pairs of its split.
fn barred_pairs(
    alloc: Global,
    rows: &TidyRows<'_, '_>,
) -> Result<Vec<(SplitNo, WorkerNo)>, AllocError>
    ensures same { IfOk result (λ pairs. IsPermutation
        (map (declared_bar (names_of Split rows.now) (names_of Worker rows.now)) (rows_of Barred rows.now))
        pairs.items) }
    ensures within { IfOk result (λ pairs.
        All (λ pair. pair.0 < length (rows_of Split rows.now)) pairs.items) }
{
    let count = rows.count(Keyword::Barred);
    let mut pairs = Vec::with_capacity(alloc, count)?;
    for line in 0..count {
        let split = rows.split(rows.word(Keyword::Barred, line, 0));
        pairs.push((split, rows.worker(rows.word(Keyword::Barred, line, 1))))?;
    }
    pairs.sort_unstable();
    Ok(pairs)
}

// The set of these pairs, of so many splits.
fn set_of(
    alloc: Global,
    splits: usize,
    pairs: &[(SplitNo, WorkerNo)],
) -> Result<PairSet, AllocError>
    requires { All (λ pair. pair.0 < splits) pairs.now }
    ensures { IfOk result (λ set. (s w : ℕ) → HasPair set s w ↔ Contains pairs.now (s, w)) }
{
    let mut set = PairSet::new(alloc, splits)?;
    for pair in pairs {
        set.put(pair.0, pair.1)?;
    }
    Ok(set)
}

fn build_plan(alloc: Global, rows: &TidyRows<'_, '_>) -> Result<Plan, AllocError>
    ensures starts { IfOk result (λ plan. plan.starts ≡ declared_starts rows.now) }
    ensures workers { IfOk result (λ plan. plan.workers ≡ length (rows_of Worker rows.now)) }
{
    let starts = build_starts(alloc, rows)?;
    Ok(Plan::from_starts(starts, rows.count(Keyword::Worker)))
}

// The worker that each split starts on.
fn build_starts(alloc: Global, rows: &TidyRows<'_, '_>) -> Result<Vec<Option<WorkerNo>>, AllocError>
    ensures { IfOk result (λ starts. starts.items ≡ declared_starts rows.now) }
{
    let count = rows.count(Keyword::Split);
    let mut starts = Vec::with_capacity(alloc, count)?;
    for split in 0..count {
        starts.push(start_of(rows, rows.word(Keyword::Split, split, 0)))?;
    }
    Ok(starts)
}

// The worker that a split starts on.
fn start_of(rows: &TidyRows<'_, '_>, split: &str) -> Option<WorkerNo>
    ensures { result ≡ start_at (names_of Worker rows.now) (rows_of Start rows.now) split.now }
{
    rows.are_tidy();
    let line = rows.number(Keyword::Start, split)?;
    Some(rows.worker(rows.word(Keyword::Start, line, 1)))
}

fn build_prices(alloc: Global, rows: &TidyRows<'_, '_>) -> Result<Prices, AllocError>
    ensures { IfOk result (λ prices. prices ≡ prices_in rows.now) }
{
    let splits = prices_of(alloc, rows, Keyword::Split)?;
    let workers = prices_of(alloc, rows, Keyword::Worker)?;
    Ok(Prices::from_lists(splits, workers))
}

// The price of each split or of each worker.
fn prices_of(
    alloc: Global,
    rows: &TidyRows<'_, '_>,
    keyword: Keyword,
) -> Result<Vec<u64>, AllocError>
    ensures { IfOk result (λ prices. prices.items
        ≡ map (price_at (rows_of Price rows.now)) (names_of keyword rows.now)) }
{
    let count = rows.count(keyword);
    let mut prices = Vec::with_capacity(alloc, count)?;
    for number in 0..count {
        prices.push(price_of(rows, rows.word(keyword, number, 0)))?;
    }
    Ok(prices)
}

// The price of a name, 0 where it has none.
fn price_of(rows: &TidyRows<'_, '_>, name: &str) -> u64
    ensures { result ≡ price_at (rows_of Price rows.now) name.now }
{
    rows.are_tidy();
    match rows.number(Keyword::Price, name) {
        Some(line) => rows.amount(Keyword::Price, line, 1),
        None => 0,
    }
}
