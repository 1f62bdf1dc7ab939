//! At which nodes of its row a search looks first for the nearest.
ghost use Rattle.std.specs.Prelude.{◌<◌, IfSome};

use crate::reached::FAR;
use std::alloc::{AllocError, Global};
use std::marker::Model;

/// For each place of the row how far its node was when it was last noted, or FAR once the search has looked
/// from the node. No promise rests on these distances: they only say where to look first.
#[derive(Drop)]
pub struct Hints {
    distances: Vec<u64>,
}

impl Model for Hints {
    ghost Value = { Unit {0} };

    ghost view = { λ h. tt };
}

impl Hints {
    /// Room for so many places.
    pub fn new(alloc: Global, places: usize) -> Result<Hints, AllocError> {
        Ok(Hints {
            distances: vec![in alloc; FAR; places]?,
        })
    }

    /// Gives a place another distance.
    pub fn put(&mut self, place: usize, distance: u64) {
        if place < self.distances.len() {
            self.distances[place] = distance;
        }
    }

    /// The first place from one on, and before another, that is no farther than a distance.
    pub fn first_within(&self, first: usize, end: usize, distance: u64) -> Option<usize>
        ensures { IfSome result (λ place. place < end) }
    {
        for place in first..end.min(self.distances.len()) {
            if self.distances[place] <= distance {
                return Some(place);
            }
        }
        None
    }
}
