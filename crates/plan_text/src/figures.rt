ghost use Rattle.std.specs.Prelude.{◌≡◌, IfOk, string_bytes};
ghost use Rattle.plan_text.specs.Report.{charged_line, figures_line, free_line};

use price_certificate::PlacePrices;
use std::alloc::{AllocError, Global};

/// What a plan comes to, after a word: how many splits it starts, their byte-distance, and where places have
/// prices, what the places cost that the plan takes.
pub fn figures(
    alloc: Global,
    word: &str,
    places: &PlacePrices,
    count: usize,
    cost: u64,
    taken: u64,
) -> Result<String, AllocError>
    ensures { IfOk result (λ line. string_bytes line ≡ figures_line word.now places.now count cost taken) }
{
    if places.is_free() {
        free(alloc, word, count, cost)
    } else {
        charged(alloc, word, count, cost, taken)
    }
}

fn free(alloc: Global, word: &str, count: usize, cost: u64) -> Result<String, AllocError>
    ensures { IfOk result (λ line. string_bytes line ≡ free_line word.now count cost) }
{
    format!(in alloc; "{word} {count} {cost}\n")
}

fn charged(
    alloc: Global,
    word: &str,
    count: usize,
    cost: u64,
    taken: u64,
) -> Result<String, AllocError>
    ensures { IfOk result (λ line. string_bytes line ≡ charged_line word.now count cost taken) }
{
    format!(in alloc; "{word} {count} {cost} {taken}\n")
}
