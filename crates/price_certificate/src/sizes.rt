ghost use Rattle.std.specs.Prelude.{◌↔◌, IsTrue};
ghost use Rattle.price_certificate.specs.Certificate.{claim, HasOneSize};

use crate::prices::Prices;
use wave_problem::{Plan, Problem};

/// Whether a problem, a plan and prices speak of as many splits and of as many workers, as each call that
/// certifies asks of them.
pub fn are_of_one_size(problem: &Problem, plan: &Plan, prices: &Prices) -> bool
    ensures { IsTrue result ↔ HasOneSize (claim problem.now plan.now.starts prices.now) plan.now.workers }
{
    plan.splits() == problem.splits()
        && plan.workers() == problem.workers()
        && prices.splits() == problem.splits()
        && prices.workers() == problem.workers()
}
