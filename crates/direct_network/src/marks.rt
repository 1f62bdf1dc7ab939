//! What the starts of a split cost, by where its live holders stand.
ghost use Rattle.std.specs.Prelude.{◌≡◌, ℕ, ◌+◌, ◌<◌, ◌≤◌, ◌^◌, List, [], ◌∷◌, ◌++◌, length, unwrap_or};
ghost use Rattle.std.specs.Prelude.{All, IfOk};
ghost use Rattle.wave_problem.specs.Wave.{cost, live_among, live_holders};
ghost use Rattle.direct_network.specs.declared.network.TheConstants.{MAX_SPLITS};
ghost use Rattle.direct_network.specs.Marks.{steps_from, AreMarksTo, Shows};

use node_ids::{SplitNo, WorkerNo};
use std::alloc::{AllocError, Global};
use wave_problem::Problem;

// For each worker, rack and data centre a mark of the last split that has a live holder there: the split's
// number and one, or 0 where there is none. So marks of earlier splits need not be taken away.
#[derive(Drop)]
pub(crate) struct Marks {
    workers: Vec<u32>,
    racks: Vec<u32>,
    centres: Vec<u32>,
}

impl Marks {
    pub(crate) fn new(alloc: Global, problem: &Problem) -> Result<Marks, AllocError>
        ensures { IfOk result (AreMarksTo problem.now 0) }
    {
        let tree = problem.tree();
        Ok(Marks {
            workers: vec![in alloc; 0; problem.workers()]?,
            racks: vec![in alloc; 0; tree.racks()]?,
            centres: vec![in alloc; 0; tree.centres()]?,
        })
    }

    // Marks where the live holders of the next split stand.
    pub(crate) fn mark_split(&mut self, problem: &Problem, split: SplitNo)
        requires split { split < length problem.now.splits }
        requires few { length problem.now.splits ≤ MAX_SPLITS }
        requires before { AreMarksTo problem.now split self.old }
        ensures marks { AreMarksTo problem.now (split + 1) self.new }
        ensures shown { Shows problem.now.tree (live_holders problem.now split) (split + 1) self.new }
    {
        let mark = split.index() as u32 + 1;
        self.mark_live(problem, problem.holders(split), mark);
    }

    // Marks where the live holders stand.
    fn mark_live(&mut self, problem: &Problem, holders: &[WorkerNo], mark: u32)
        requires holders { All (λ h. h < length problem.now.workers) holders.now }
        requires before { AreMarksTo problem.now mark self.old }
        requires none { Shows problem.now.tree [] mark self.old }
        ensures marks { AreMarksTo problem.now mark self.new }
        ensures shown { Shows problem.now.tree (live_among problem.now.workers holders.now) mark self.new }
    {
        for holder in holders {
            if problem.is_live(*holder) {
                self.mark_worker(problem, *holder, mark);
            }
        }
    }

    // Marks where a worker stands.
    fn mark_worker(&mut self, problem: &Problem, worker: WorkerNo, mark: u32)
        requires worker { worker < length problem.now.workers }
        requires before { AreMarksTo problem.now mark self.old }
        ensures marks { AreMarksTo problem.now mark self.new }
        ensures shown { (live : List ℕ) → Shows problem.now.tree live mark self.old
            → Shows problem.now.tree (live ++ worker ∷ []) mark self.new }
    {
        let tree = problem.tree();
        let rack = tree.rack_of(worker);
        let centre = tree.centre_of(rack);
        self.workers[worker.index()] = mark;
        self.racks[rack.index()] = mark;
        self.centres[centre.index()] = mark;
    }

    // The steps from a worker to the nearest place that the split has marked.
    fn steps(&self, problem: &Problem, split: SplitNo, worker: WorkerNo) -> u8
        requires split { split < length problem.now.splits }
        requires few { length problem.now.splits ≤ MAX_SPLITS }
        requires worker { worker < length problem.now.workers }
        requires marks { AreMarksTo problem.now (split + 1) self.now }
        ensures steps { result ≡ steps_from problem.now.tree (split + 1) self.now worker }
        ensures most { result ≤ 6 }
    {
        let mark = split.index() as u32 + 1;
        let tree = problem.tree();
        let rack = tree.rack_of(worker);
        if self.workers[worker.index()] == mark {
            0
        } else if self.racks[rack.index()] == mark {
            2
        } else if self.centres[tree.centre_of(rack).index()] == mark {
            4
        } else {
            6
        }
    }

    // What a start of the split that was marked last costs on a worker.
    pub(crate) fn cost(&self, problem: &Problem, split: SplitNo, worker: WorkerNo) -> u64
        requires split { split < length problem.now.splits }
        requires few { length problem.now.splits ≤ MAX_SPLITS }
        requires worker { worker < length problem.now.workers }
        requires held { 0 < length (live_holders problem.now split) }
        requires marks { AreMarksTo problem.now (split + 1) self.now }
        requires shown { Shows problem.now.tree (live_holders problem.now split) (split + 1) self.now }
        ensures cost { result ≡ unwrap_or (cost problem.now split worker) 0 }
        ensures small { result < 2 ^ 47 }
    {
        problem.bytes(split) * u64::from(self.steps(problem, split, worker))
    }
}
