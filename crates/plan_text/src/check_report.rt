ghost use Rattle.std.specs.Prelude.{◌≡◌, IfOk, string_bytes};
ghost use Rattle.plan_text.specs.Report.{certified_by, refused_at, refused_at_pair, refused_line};

use crate::figures::figures;
use price_certificate::{Condition, PlacePrices};
use std::alloc::{AllocError, Global};
use text_lines::NameTable;

/// The answer to a plan that is best: how many splits it starts, their byte-distance, and where places have
/// prices, what the places cost that the plan takes.
pub fn certified(
    alloc: Global,
    places: &PlacePrices,
    count: usize,
    cost: u64,
    taken: u64,
) -> Result<String, AllocError>
    ensures { IfOk result (λ line. string_bytes line ≡ certified_by places.now count cost taken) }
{
    figures(alloc, "certified", places, count, cost, taken)
}

/// The answer to a plan that its prices do not certify: the first condition that fails, at its place.
pub fn refused(
    alloc: Global,
    splits: &NameTable<'_>,
    workers: &NameTable<'_>,
    condition: Condition,
) -> Result<String, AllocError>
    ensures { IfOk result (λ line. string_bytes line ≡ refused_line splits.now workers.now condition) }
{
    match condition {
        Condition::Open(s) => refusal(alloc, 1, splits.name_or_empty(s.index())),
        Condition::Allowed(s, w) => refusal_of_pair(
            alloc,
            2,
            splits.name_or_empty(s.index()),
            workers.name_or_empty(w.index()),
        ),
        Condition::Room(w) => refusal(alloc, 3, workers.name_or_empty(w.index())),
        Condition::SplitPrice(s) => refusal(alloc, 4, splits.name_or_empty(s.index())),
        Condition::WorkerPrice(w) => refusal(alloc, 4, workers.name_or_empty(w.index())),
        Condition::Priced(s, w) => refusal_of_pair(
            alloc,
            5,
            splits.name_or_empty(s.index()),
            workers.name_or_empty(w.index()),
        ),
        Condition::Tight(s, w) => refusal_of_pair(
            alloc,
            6,
            splits.name_or_empty(s.index()),
            workers.name_or_empty(w.index()),
        ),
        Condition::Unstarted(s) => refusal(alloc, 7, splits.name_or_empty(s.index())),
        Condition::Spare(w) => refusal(alloc, 8, workers.name_or_empty(w.index())),
    }
}

fn refusal(alloc: Global, condition: u8, name: &str) -> Result<String, AllocError>
    ensures { IfOk result (λ line. string_bytes line ≡ refused_at condition name.now) }
{
    format!(in alloc; "refused C{condition} {name}\n")
}

fn refusal_of_pair(
    alloc: Global,
    condition: u8,
    split: &str,
    worker: &str,
) -> Result<String, AllocError>
    ensures { IfOk result (λ line. string_bytes line ≡ refused_at_pair condition split.now worker.now) }
{
    format!(in alloc; "refused C{condition} {split} {worker}\n")
}
