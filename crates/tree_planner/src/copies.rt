//! Which splits have a copy on a worker. Such a split, if it waits, takes a slot of the worker for nothing.
use node_ids::{SplitNo, WorkerNo};
use std::alloc::{AllocError, Global};
use tree_flow::Place;
use wave_problem::Problem;

// The end of a list.
const END: u32 = u32::MAX;

// How many splits of a list are looked at for one slot.
const TRIES: usize = 64;

/// A split, and the place of the next one on the list.
#[derive(Clone, Copy)]
pub struct Link {
    pub split: u32,
    pub next: u32,
}

/// For each worker a list of the splits that have a copy on it: the list's head, and the splits of all lists.
/// The lists were made from an earlier problem, so they only say where to look first.
#[derive(Drop)]
pub struct Copies {
    heads: Vec<u32>,
    each: Vec<Link>,
}

impl Copies {
    /// The lists of a problem, by rising split.
    pub fn new(alloc: Global, problem: &Problem) -> Result<Copies, AllocError> {
        let mut copies = Copies {
            heads: vec![in alloc; END; problem.workers()]?,
            each: Vec::new(alloc),
        };
        let splits = problem.splits();
        for k in 0..splits {
            let split = SplitNo::new((splits - 1 - k) as u32);
            copies.add_all(problem.holders(split), split.index() as u32)?;
        }
        Ok(copies)
    }

    // Puts a split at the head of the list of each worker that holds it.
    fn add_all(&mut self, holders: &[WorkerNo], split: u32) -> Result<(), AllocError> {
        for worker in holders {
            self.add(worker.index(), split)?;
        }
        Ok(())
    }

    fn add(&mut self, worker: usize, split: u32) -> Result<(), AllocError> {
        let place = self.each.len();
        if worker < self.heads.len() && place < END as usize {
            let next = self.heads[worker];
            self.each.push(Link { split, next })?;
            self.heads[worker] = place as u32;
        }
        Ok(())
    }

    /// A split that waits to start and has a copy on the worker, if one is soon found. The splits before it,
    /// which do not wait, leave the list.
    pub fn first_waiting(
        &mut self,
        problem: &Problem,
        places: &[Place],
        worker: usize,
    ) -> Option<u32> {
        if worker >= self.heads.len() {
            return None;
        }
        for _k in 0..TRIES {
            let head = self.heads[worker] as usize;
            if head >= self.each.len() {
                return None;
            }
            let Link { split, next } = self.each[head];
            if is_waiting(problem, places, split) {
                return Some(split);
            }
            self.heads[worker] = next;
        }
        None
    }
}

// Whether a split waits, and is pending.
fn is_waiting(problem: &Problem, places: &[Place], split: u32) -> bool {
    (split as usize) < places.len()
        && (split as usize) < problem.splits()
        && matches!(places[split as usize], Place::Waits)
        && problem.is_pending(SplitNo::new(split))
}
