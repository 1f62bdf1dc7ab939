ghost use Rattle.std.specs.Prelude.{◌≡◌, ◌<◌, [], IfOk, length, replicate, slice_set};
ghost use Rattle.job_play.specs.Given.{runs_at};

use node_ids::PartNo;
use std::alloc::{AllocError, Global};
use std::marker::Model;
use std::sync::Arc;
use word_map::Run;

/// The runs that the last attempt of each part was given, by part; none where no attempt was started for it.
#[derive(Drop)]
pub struct GivenRuns {
    of_parts: Vec<Vec<Arc<Run>>>,
}

impl Model for GivenRuns {
    ghost use Rattle.std.specs.Prelude.{List, map};
    ghost use Rattle.job_play.specs.Given.{Runs};

    ghost Value = { List Runs };

    ghost view = { λ given. map (λ runs. runs.items) given.of_parts.items };
}

impl GivenRuns {
    /// A table of so many parts of which none has been started.
    pub fn new(alloc: Global, parts: usize) -> Result<GivenRuns, AllocError>
        ensures { IfOk result (λ given. given ≡ replicate parts []) }
    {
        let mut of_parts = Vec::with_capacity(alloc, parts)?;
        for _ in 0..parts {
            of_parts.push(Vec::new(alloc))?;
        }
        Ok(GivenRuns { of_parts })
    }

    /// The runs of a part.
    pub fn of(&self, part: PartNo) -> &[Arc<Run>]
        requires { part < length self.now }
        ensures { result.now ≡ runs_at self.now part }
    {
        self.of_parts[part.index()].as_slice()
    }

    /// The part is given these runs, which replace the runs that it had.
    pub fn put(&mut self, part: PartNo, runs: Vec<Arc<Run>>)
        requires { part < length self.old }
        ensures { self.new ≡ slice_set self.old part runs.items }
    {
        self.of_parts[part.index()] = runs;
    }
}
