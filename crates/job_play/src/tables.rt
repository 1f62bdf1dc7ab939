ghost use Rattle.std.specs.Prelude.{◌≡◌, IfOk};
ghost use Rattle.job_play.specs.Reports.{counts_for};

use std::alloc::{AllocError, Global};

/// A count for each of so many workers: 0 for a worker without one. Counts past the last worker are left out.
pub fn counts_for(alloc: Global, workers: usize, counts: &[u64]) -> Result<Vec<u64>, AllocError>
    ensures { IfOk result (λ own. own.items ≡ counts_for workers counts.now) }
{
    let mut own = vec![in alloc; 0; workers]?;
    for i in 0..counts.len().min(workers) {
        own[i] = counts[i];
    }
    Ok(own)
}
