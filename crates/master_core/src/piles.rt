//! What a master leaves that nobody asks any more.
use crate::master::Master;
use master_tables::entries::SplitEntry;
use shuffle_reduce::PartResult;
use std::alloc::{AllocError, Global};
use word_map::MapResult;

/// The results of a master, in piles that are to be let go side by side. Those of maps lie in one of two, by
/// whether the worker that made them has an even number: threads that give back what one thread took wait for
/// one another.
#[derive(Drop)]
pub struct Piles {
    pub even: Vec<MapResult>,
    pub odd: Vec<MapResult>,
    pub parts: Vec<PartResult>,
}

impl Piles {
    /// The piles of a master. All else that it has is let go at once.
    pub fn of(alloc: Global, master: Master) -> Result<Piles, AllocError> {
        let (entries, parts) = master.into_results();
        let mut piles = Piles {
            even: Vec::new(alloc),
            odd: Vec::new(alloc),
            parts,
        };
        for entry in entries {
            piles.put(entry)?;
        }
        Ok(piles)
    }

    // Puts the result of a split on its pile, if it is done.
    fn put(&mut self, entry: SplitEntry) -> Result<(), AllocError> {
        let SplitEntry::Done(attempt, made) = entry else {
            return Ok(());
        };
        if attempt.worker.index() % 2 == 0 {
            self.even.push(made)?;
        } else {
            self.odd.push(made)?;
        }
        Ok(())
    }
}
