ghost use Rattle.std.specs.Prelude.{◌<◌, ◌≤◌, length};
ghost use Rattle.rack_tree.specs.declared.TheConstants.{MAX_WORKERS};
ghost use Rattle.wave_problem.specs.declared.TheConstants.{MAX_SPLITS};

use line_rules::{KnownLines, Row, Rows, Version};
use line_shapes::Keyword;
use node_ids::{SplitNo, WorkerNo};
use price_certificate::Prices;
use std::alloc::AllocError;
use wave_problem::{Plan, Problem};

// Appends the lines of a problem, in the version of these lines: their centres and racks, and their names.
pub(crate) fn add_problem(
    lines: &mut String,
    known: &KnownLines<'_>,
    problem: &Problem,
) -> Result<(), AllocError> {
    let rows = known.rows();
    add_version(lines, known.version())?;
    add_rows(lines, rows, Keyword::Centre, "centre")?;
    add_rows(lines, rows, Keyword::Rack, "rack")?;
    add_workers(lines, rows, problem)?;
    add_splits(lines, rows, problem)?;
    add_dead(lines, rows, problem)?;
    add_busy(lines, rows, problem)?;
    add_bars(lines, rows, problem)
}

// Appends the lines of a plan and its prices, by the names of these rows.
pub(crate) fn add_plan(
    lines: &mut String,
    rows: &Rows<'_>,
    plan: &Plan,
    prices: &Prices,
) -> Result<(), AllocError>
    requires splits { length prices.now.splits ≤ MAX_SPLITS }
    requires workers { length prices.now.workers ≤ MAX_WORKERS }
{
    lines.push_str("plan\n")?;
    add_starts(lines, rows, plan)?;
    add_split_prices(lines, rows, prices)?;
    add_worker_prices(lines, rows, prices)?;
    lines.push_str("end\n")
}

// The word at a place after the keyword of a row, empty where there is none.
fn word_in<'t>(rows: &Rows<'t>, keyword: Keyword, number: usize, place: usize) -> &'t str {
    match rows.row(keyword, number) {
        Some(row) => row.word(place),
        None => "",
    }
}

fn split_name<'t>(rows: &Rows<'t>, number: usize) -> &'t str {
    word_in(rows, Keyword::Split, number, 0)
}

fn worker_name<'t>(rows: &Rows<'t>, number: usize) -> &'t str {
    word_in(rows, Keyword::Worker, number, 0)
}

fn add_version(lines: &mut String, version: Version) -> Result<(), AllocError> {
    match version {
        Version::One => lines.push_str("problem 1\n"),
        Version::Two => lines.push_str("problem 2\n"),
        Version::Three => lines.push_str("problem 3\n"),
    }
}

// The rows of a keyword as they stand.
fn add_rows(
    lines: &mut String,
    rows: &Rows<'_>,
    keyword: Keyword,
    spelling: &str,
) -> Result<(), AllocError> {
    for number in 0..rows.count(keyword) {
        if let Some(Row::Line(row)) = rows.row(keyword, number) {
            add_row(lines, spelling, row.words)?;
        }
    }
    Ok(())
}

fn add_row(lines: &mut String, spelling: &str, words: &[&str]) -> Result<(), AllocError> {
    lines.push_str(spelling)?;
    for word in words {
        add_word(lines, word)?;
    }
    lines.push_str("\n")
}

fn add_word(lines: &mut String, word: &str) -> Result<(), AllocError> {
    lines.push_str(" ")?;
    lines.push_str(word)
}

// Each worker with the slots that are free.
fn add_workers(lines: &mut String, rows: &Rows<'_>, problem: &Problem) -> Result<(), AllocError> {
    for number in 0..problem.workers() {
        let free = problem.free(WorkerNo::new(number as u16));
        add_worker(lines, rows, number, free)?;
    }
    Ok(())
}

fn add_worker(
    lines: &mut String,
    rows: &Rows<'_>,
    number: usize,
    free: u8,
) -> Result<(), AllocError> {
    let name = worker_name(rows, number);
    let rack = word_in(rows, Keyword::Worker, number, 1);
    write!(lines, "worker {name} {rack} {free}\n")
}

fn add_splits(lines: &mut String, rows: &Rows<'_>, problem: &Problem) -> Result<(), AllocError> {
    for number in 0..problem.splits() {
        let split = SplitNo::new(number as u32);
        let (name, bytes) = (split_name(rows, number), problem.bytes(split));
        write!(lines, "split {name} {bytes}")?;
        add_holders(lines, rows, problem.holders(split))?;
    }
    Ok(())
}

// The holders of a split, which end its line.
fn add_holders(
    lines: &mut String,
    rows: &Rows<'_>,
    holders: &[WorkerNo],
) -> Result<(), AllocError> {
    for holder in holders {
        add_word(lines, worker_name(rows, holder.index()))?;
    }
    lines.push_str("\n")
}

fn add_dead(lines: &mut String, rows: &Rows<'_>, problem: &Problem) -> Result<(), AllocError> {
    for number in 0..problem.workers() {
        if !problem.is_live(WorkerNo::new(number as u16)) {
            let name = worker_name(rows, number);
            write!(lines, "dead {name}\n")?;
        }
    }
    Ok(())
}

// The splits that are not pending.
fn add_busy(lines: &mut String, rows: &Rows<'_>, problem: &Problem) -> Result<(), AllocError> {
    for number in 0..problem.splits() {
        if !problem.is_pending(SplitNo::new(number as u32)) {
            let name = split_name(rows, number);
            write!(lines, "busy {name}\n")?;
        }
    }
    Ok(())
}

fn add_bars(lines: &mut String, rows: &Rows<'_>, problem: &Problem) -> Result<(), AllocError> {
    for number in 0..problem.splits() {
        let bars = problem.bars(SplitNo::new(number as u32));
        if !bars.is_empty() {
            add_bars_of(lines, rows, number, bars)?;
        }
    }
    Ok(())
}

// A line for each worker that is barred from the split.
fn add_bars_of(
    lines: &mut String,
    rows: &Rows<'_>,
    split: usize,
    bars: &[WorkerNo],
) -> Result<(), AllocError> {
    let split = split_name(rows, split);
    for worker in bars {
        let name = worker_name(rows, worker.index());
        write!(lines, "barred {split} {name}\n")?;
    }
    Ok(())
}

fn add_starts(lines: &mut String, rows: &Rows<'_>, plan: &Plan) -> Result<(), AllocError> {
    for number in 0..plan.splits() {
        if let Some(worker) = plan.of(SplitNo::new(number as u32)) {
            let (split, name) = (split_name(rows, number), worker_name(rows, worker.index()));
            write!(lines, "start {split} {name}\n")?;
        }
    }
    Ok(())
}

fn add_split_prices(lines: &mut String, rows: &Rows<'_>, prices: &Prices) -> Result<(), AllocError>
    requires { length prices.now.splits ≤ MAX_SPLITS }
{
    for number in 0..prices.splits() {
        let price = prices.split(SplitNo::new(number as u32));
        add_price(lines, split_name(rows, number), price)?;
    }
    Ok(())
}

fn add_worker_prices(lines: &mut String, rows: &Rows<'_>, prices: &Prices) -> Result<(), AllocError>
    requires { length prices.now.workers ≤ MAX_WORKERS }
{
    for number in 0..prices.workers() {
        let price = prices.worker(WorkerNo::new(number as u16));
        add_price(lines, worker_name(rows, number), price)?;
    }
    Ok(())
}

fn add_price(lines: &mut String, name: &str, price: u64) -> Result<(), AllocError> {
    write!(lines, "price {name} {price}\n")
}
