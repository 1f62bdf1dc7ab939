//! In which order splits are best shipped.

use node_ids::SplitNo;
use std::alloc::{AllocError, Global};
use wave_problem::Problem;

/// The splits in the order in which the fewest searches are needed: first the splits that have a slot if the
/// smallest start, the largest of them first; then the others, the smallest first. No promise rests on it.
pub fn shipping_order(
    alloc: Global,
    problem: &Problem,
    slots: u64,
) -> Result<Vec<u32>, AllocError> {
    let sizes = sorted_sizes(alloc, problem)?;
    let few = sizes.len().min(slots as usize);
    let mut order = Vec::with_capacity(alloc, sizes.len())?;
    for k in 0..few {
        order.push(sizes[few - 1 - k].1)?;
    }
    for k in few..sizes.len() {
        order.push(sizes[k].1)?;
    }
    Ok(order)
}

// The splits with their sizes, the smallest first.
fn sorted_sizes(alloc: Global, problem: &Problem) -> Result<Vec<(u64, u32)>, AllocError> {
    let mut sizes = Vec::with_capacity(alloc, problem.splits())?;
    let mut last = 0;
    let mut rises = true;
    for s in 0..problem.splits() {
        let size = problem.bytes(SplitNo::new(s as u32));
        rises = rises && last <= size;
        last = size;
        sizes.push((size, s as u32))?;
    }
    if !rises {
        sizes.sort()?;
    }
    Ok(sizes)
}
