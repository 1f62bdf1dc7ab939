//! The calls of a master but for its waves: each is an event of the history, or is ignored.
ghost use Rattle.std.specs.Prelude.{◌≡◌, ◌<◌, ◌≤◌, length, true};
ghost use Rattle.master_state.specs.Refusals.{Call, IsKnown, IsPair, is_not_backable, refusal};
ghost use Rattle.master_state.specs.Jobs.{Answers, AnswersReduce, AnswersSweep, GivesBack, TellsNext};
ghost use Rattle.master_core.specs.Attempts.{IsFound, part_end, split_end};
ghost use Rattle.master_core.specs.Backups.{IsBackupWorker, IsLowestBelow, is_spare, runs_once};
ghost use Rattle.master_tables.specs.Entries.{shown_as};

use crate::attempts::{End, Found, free_slot};
use crate::inputs::{is_wrong_map, is_wrong_part};
use crate::master::Master;
use crate::reducing::{NextPart, runs_of};
use master_state::{Answer, Attempt, Event, Reply, Why, Work};
use master_tables::backups::{has_free_slot, is_any_live, run_attempt, takes_backup};
use master_tables::completions::{finish_part, finish_split, give_slots};
use master_tables::deaths::{bury, bury_all};
use master_tables::entries::{SplitEntry, is_any_pending};
use master_tables::holders::{add_holder, drop_holder};
use master_tables::log::{record_counts, record_event, record_join, record_result, record_start};
use master_tables::parts::start_part;
use master_tables::running::{RunningPart, RunningSplit, end_attempt, end_part_attempt, runs};
use node_ids::{AttemptNo, SplitNo, SplitRow, SplitSet, WorkerNo};
use shuffle_reduce::PartResult;
use std::alloc::Global;
use word_map::MapResult;
use worker_table::DeadList;

impl Master {
    /// Starts the lowest pending part on the lowest live worker with a free slot, and answers with all that
    /// the worker needs. Memory is taken for the list of runs alone, and before anything changes.
    pub fn reduce_start(&mut self, alloc: Global) -> Answer<Reply>
        ensures { AnswersReduce self.old result self.new }
    {
        let Some(next) = self.next_reduce() else {
            return Answer::Ignored(Why::NotReady, ());
        };
        let NextPart { part, worker } = next;
        if self.has_no_room(1) {
            return Answer::Ignored(Why::HistoryFull, ());
        }
        let Ok(runs) = runs_of(alloc, &self.cluster, &self.splits, part) else {
            return Answer::Ignored(Why::Memory, ());
        };
        let attempt = AttemptNo::new(self.starts.len() as u32 + 1);
        let started = Attempt {
            number: attempt,
            worker,
        };
        start_part(
            &mut self.workers,
            &mut self.parts,
            &mut self.starts,
            part,
            started,
        );
        self.touched.touch_worker(worker);
        let place = record_event(&mut self.history, Event::ReduceStart(attempt, part, worker));
        let reply = Reply {
            attempt,
            part,
            worker,
            runs,
        };
        Answer::Accepted(place, reply)
    }

    /// Makes a live worker the last holder of a split.
    pub fn add(&mut self, split: SplitNo, worker: WorkerNo) -> Answer
        requires split { split < length self.old.setup.cluster.splits }
        requires worker { worker < length self.old.setup.cluster.slots }
        ensures { Answers self.old (Call.Add split worker) result self.new }
    {
        if let Some(why) = self.why_not_add(split, worker) {
            return Answer::Ignored(why, ());
        }
        self.engine.turn_far();
        let limit = self.cluster.holder_limit();
        add_holder(&mut self.holders, limit, split, worker);
        Answer::Accepted(
            record_event(&mut self.history, Event::Add(split, worker)),
            (),
        )
    }

    fn why_not_add(&self, split: SplitNo, worker: WorkerNo) -> Option<Why>
        requires split { split < length self.now.setup.cluster.splits }
        requires worker { worker < length self.now.setup.cluster.slots }
        ensures { result ≡ refusal self.now.setup self.now.state (Call.Add split worker) }
    {
        if !self.workers.live(worker) {
            Some(Why::DeadWorker)
        } else if self.holders.holds(split, worker) {
            Some(Why::AlreadyHolds)
        } else if self.holders.is_full(self.cluster.holder_limit(), split) {
            Some(Why::ManyHolders)
        } else if self.has_no_place() {
            Some(Why::HistoryFull)
        } else {
            None
        }
    }

    /// Takes a replica of a split away from a worker. Attempts go on.
    pub fn lose(&mut self, split: SplitNo, worker: WorkerNo) -> Answer
        requires split { split < length self.old.setup.cluster.splits }
        requires worker { worker < length self.old.setup.cluster.slots }
        ensures { Answers self.old (Call.Lose split worker) result self.new }
    {
        if let Some(why) = self.why_not_lose(split, worker) {
            return Answer::Ignored(why, ());
        }
        self.engine.turn_far();
        drop_holder(&mut self.holders, split, worker);
        Answer::Accepted(
            record_event(&mut self.history, Event::Lose(split, worker)),
            (),
        )
    }

    fn why_not_lose(&self, split: SplitNo, worker: WorkerNo) -> Option<Why>
        requires { split < length self.now.setup.cluster.splits }
        ensures { result ≡ refusal self.now.setup self.now.state (Call.Lose split worker) }
    {
        if !self.holders.holds(split, worker) {
            Some(Why::NotHolder)
        } else if self.has_no_place() {
            Some(Why::HistoryFull)
        } else {
            None
        }
    }

    /// Makes a dead worker live again, as a holder of each split of the set.
    pub fn join(&mut self, worker: WorkerNo, set: SplitSet) -> Answer
        requires { IsKnown self.old.setup (Call.Join worker set) }
        ensures { Answers self.old (Call.Join worker set) result self.new }
    {
        if let Some(why) = self.why_not_join(worker, &set) {
            return Answer::Ignored(why, ());
        }
        self.engine.turn_far();
        self.workers.join(worker);
        let limit = self.cluster.holder_limit();
        self.holders.add_to_all(limit, worker, &SplitRow::of(&set));
        Answer::Accepted(record_join(&mut self.history, worker, set), ())
    }

    fn why_not_join(&self, worker: WorkerNo, set: &SplitSet) -> Option<Why>
        requires { worker < length self.now.setup.cluster.slots }
        ensures { result ≡ refusal self.now.setup self.now.state (Call.Join worker set.now) }
    {
        if self.workers.live(worker) {
            Some(Why::LiveWorker)
        } else if self.holders.is_any_full(self.cluster.holder_limit(), set) {
            Some(Why::ManyHolders)
        } else if self.has_no_place() {
            Some(Why::HistoryFull)
        } else {
            None
        }
    }

    /// Marks a live worker dead.
    pub fn die(&mut self, worker: WorkerNo) -> Answer
        requires { worker < length self.old.setup.cluster.slots }
        ensures { Answers self.old (Call.Die worker) result self.new }
    {
        if let Some(why) = self.why_not_die(worker) {
            return Answer::Ignored(why, ());
        }
        self.engine.turn_far();
        bury(
            &mut self.workers,
            &mut self.holders,
            &mut self.splits,
            &mut self.parts,
            worker,
        );
        Answer::Accepted(record_event(&mut self.history, Event::Die(worker)), ())
    }

    fn why_not_die(&self, worker: WorkerNo) -> Option<Why>
        requires { worker < length self.now.setup.cluster.slots }
        ensures { result ≡ refusal self.now.setup self.now.state (Call.Die worker) }
    {
        if !self.workers.live(worker) {
            Some(Why::DeadWorker)
        } else if self.has_no_place() {
            Some(Why::HistoryFull)
        } else {
            None
        }
    }

    /// Ends a map attempt that failed, and bars its pair.
    pub fn map_failed(&mut self, attempt: AttemptNo) -> Answer
        ensures { Answers self.old (Call.MapFailed attempt) result self.new }
    {
        match self.find(attempt) {
            Found::Split(found) => self.end_split(found, attempt, End::Failed),
            Found::Part(_) | Found::Nowhere => Answer::Ignored(Why::OldAttempt, ()),
        }
    }

    /// Ends a reduce attempt that failed. Nothing is barred.
    pub fn part_failed(&mut self, attempt: AttemptNo) -> Answer
        ensures { Answers self.old (Call.PartFailed attempt) result self.new }
    {
        match self.find(attempt) {
            Found::Part(found) => self.end_part(found, attempt, End::Failed),
            Found::Split(_) | Found::Nowhere => Answer::Ignored(Why::OldAttempt, ()),
        }
    }

    /// Ends an attempt of a split or a part. Nothing is barred.
    pub fn withdraw(&mut self, attempt: AttemptNo) -> Answer
        ensures { Answers self.old (Call.Withdraw attempt) result self.new }
    {
        match self.find(attempt) {
            Found::Split(found) => self.end_split(found, attempt, End::Withdrawn),
            Found::Part(found) => self.end_part(found, attempt, End::Withdrawn),
            Found::Nowhere => Answer::Ignored(Why::OldAttempt, ()),
        }
    }

    // Ends the attempt that a split runs.
    fn end_split(&mut self, found: RunningSplit, attempt: AttemptNo, end: End) -> Answer
        requires { IsFound self.old.state attempt (Found.Split found) }
        ensures { Answers self.old (split_end end attempt) result self.new }
    {
        if self.has_no_place() {
            return Answer::Ignored(Why::HistoryFull, ());
        }
        end_attempt(&mut self.splits, found.split, attempt);
        self.touched.touch(found.split, found.worker);
        free_slot(&mut self.workers, &mut self.engine, found, end);
        Answer::Accepted(record_event(&mut self.history, end.of_split(attempt)), ())
    }

    // Ends the attempt that a part runs.
    fn end_part(&mut self, found: RunningPart, attempt: AttemptNo, end: End) -> Answer
        requires { IsFound self.old.state attempt (Found.Part found) }
        ensures { Answers self.old (part_end end attempt) result self.new }
    {
        if self.has_no_place() {
            return Answer::Ignored(Why::HistoryFull, ());
        }
        end_part_attempt(&mut self.parts, found.part, attempt);
        self.workers.give_slot(found.worker);
        self.touched.touch_worker(found.worker);
        Answer::Accepted(record_event(&mut self.history, end.of_part(attempt)), ())
    }

    /// Makes the split done by the first of its attempts that is, and keeps what it made.
    pub fn map_done(&mut self, attempt: AttemptNo, made: MapResult) -> Answer<(), MapResult>
        ensures answer { Answers self.old (Call.MapDone attempt made) result self.new }
        ensures back { GivesBack made result }
    {
        match self.find(attempt) {
            Found::Split(found) => self.finish_split(found, attempt, made),
            Found::Part(_) | Found::Nowhere => Answer::Ignored(Why::OldAttempt, made),
        }
    }

    fn finish_split(
        &mut self,
        found: RunningSplit,
        attempt: AttemptNo,
        made: MapResult,
    ) -> Answer<(), MapResult>
        requires { IsFound self.old.state attempt (Found.Split found) }
        ensures answer { Answers self.old (Call.MapDone attempt made) result self.new }
        ensures back { GivesBack made result }
    {
        if is_wrong_map(&self.cluster, found.split, &made) {
            return Answer::Ignored(Why::WrongInput, made);
        }
        if self.has_no_place() {
            return Answer::Ignored(Why::HistoryFull, made);
        }
        let winner = Attempt {
            number: attempt,
            worker: found.worker,
        };
        let entry = &self.splits[found.split.index()];
        give_slots(&mut self.workers, entry);
        self.touched.touch_running(found.split, entry);
        finish_split(&mut self.splits, found.split, winner, made);
        Answer::Accepted(record_event(&mut self.history, Event::MapDone(attempt)), ())
    }

    /// Makes a part done, and keeps its result after those before it.
    pub fn part_done(&mut self, attempt: AttemptNo, made: PartResult) -> Answer<(), PartResult>
        ensures answer { Answers self.old (Call.PartDone attempt made) result self.new }
        ensures back { GivesBack made result }
    {
        match self.find(attempt) {
            Found::Part(found) => self.finish_part(found, attempt, made),
            Found::Split(_) | Found::Nowhere => Answer::Ignored(Why::OldAttempt, made),
        }
    }

    fn finish_part(
        &mut self,
        found: RunningPart,
        attempt: AttemptNo,
        made: PartResult,
    ) -> Answer<(), PartResult>
        requires { IsFound self.old.state attempt (Found.Part found) }
        ensures answer { Answers self.old (Call.PartDone attempt made) result self.new }
        ensures back { GivesBack made result }
    {
        if is_wrong_part(&self.cluster, found.part, &made) {
            return Answer::Ignored(Why::WrongInput, made);
        }
        if self.has_no_place() {
            return Answer::Ignored(Why::HistoryFull, made);
        }
        finish_part(&mut self.parts, found.part, attempt);
        self.workers.give_slot(found.worker);
        self.touched.touch_worker(found.worker);
        record_result(&mut self.results, made);
        Answer::Accepted(
            record_event(&mut self.history, Event::PartDone(attempt)),
            (),
        )
    }

    /// Lets each live worker hear the count of its beats, and marks those dead who have been silent too long.
    /// The list has them if the sweep is accepted; it is empty if the sweep is ignored.
    pub fn sweep(&mut self, counts: &[u64], dead: &mut DeadList) -> Answer
        requires known { IsKnown self.old.setup (Call.Sweep counts.now) }
        requires room { length self.old.setup.cluster.slots ≤ dead.old.room }
        ensures answer { AnswersSweep self.old counts.now result dead.new.items self.new }
        ensures room { dead.new.room ≡ dead.old.room }
    {
        if self.has_no_sweep() {
            dead.clear();
            return Answer::Ignored(Why::HistoryFull, ());
        }
        self.workers.sweep(counts, dead);
        self.engine.turn_far_by(dead);
        bury_all(
            &mut self.workers,
            &mut self.holders,
            &mut self.splits,
            &mut self.parts,
            dead,
        );
        let place = record_counts(&mut self.sweeps, counts);
        Answer::Accepted(record_event(&mut self.history, Event::Sweep(place)), ())
    }

    /// Starts a second attempt of a split that runs one, on another worker.
    pub fn backup(&mut self, split: SplitNo, worker: WorkerNo) -> Answer<AttemptNo>
        requires { IsPair self.old.setup split worker }
        ensures answer { Answers self.old (Call.Backup split worker) result self.new }
        ensures attempt { TellsNext self.old result }
    {
        if let Some(why) = self.why_not_backup(split, worker) {
            return Answer::Ignored(why, ());
        }
        let number = record_start(&mut self.starts, Work::Split(split), worker);
        run_attempt(&mut self.splits, split, Attempt { number, worker });
        self.touched.touch(split, worker);
        self.workers.take_slot(worker);
        let place = record_event(&mut self.history, Event::Backup(number, split, worker));
        Answer::Accepted(place, number)
    }

    /// The lowest worker on which a second attempt of a split may start, if there is one.
    pub fn backup_worker(&self, split: SplitNo) -> Option<WorkerNo>
        requires { split < length self.now.setup.cluster.splits }
        ensures { IsBackupWorker self.now split result }
    {
        let worker = self.spare_worker(split)?;
        if self.why_not_backup(split, worker).is_some() {
            return None;
        }
        Some(worker)
    }

    // The lowest worker that is spare for a split. Whether a split is pending is not asked for each worker.
    fn spare_worker(&self, split: SplitNo) -> Option<WorkerNo>
        requires { split < length self.now.setup.cluster.splits }
        ensures { IsLowestBelow (length self.now.setup.cluster.slots)
            (λ w. is_spare self.now.state split w ≡ true) result }
    {
        if !runs_once(&self.splits[split.index()]) {
            return None;
        }
        for number in 0..self.cluster.slots().len() {
            let worker = WorkerNo::new(number as u16);
            if self.is_spare(split, worker) {
                return Some(worker);
            }
        }
        None
    }

    // Whether a worker has a free slot and is not barred from a split that another worker alone runs.
    fn is_spare(&self, split: SplitNo, worker: WorkerNo) -> bool
        requires { IsPair self.now.setup split worker }
        ensures { result ≡ is_spare self.now.state split worker }
    {
        takes_backup(&self.splits[split.index()], worker)
            && has_free_slot(&self.workers, worker)
            && !self.workers.barred(split, worker)
    }

    fn why_not_backup(&self, split: SplitNo, worker: WorkerNo) -> Option<Why>
        requires { IsPair self.now.setup split worker }
        ensures { result ≡ refusal self.now.setup self.now.state (Call.Backup split worker) }
    {
        if !self.workers.live(worker) {
            Some(Why::DeadWorker)
        } else if !takes_backup(&self.splits[split.index()], worker) {
            Some(Why::NoBackup)
        } else if self.is_not_backable(split, worker) {
            Some(Why::NotReady)
        } else if self.workers.barred(split, worker) {
            Some(Why::Barred)
        } else if self.has_no_room(1) {
            Some(Why::HistoryFull)
        } else {
            None
        }
    }

    // Whether a split is pending, this one has no live holder, or the worker no free slot.
    fn is_not_backable(&self, split: SplitNo, worker: WorkerNo) -> bool
        requires { IsPair self.now.setup split worker }
        ensures { result ≡ is_not_backable self.now.state split worker }
    {
        is_any_pending(&self.splits)
            || !is_any_live(&self.workers, self.holders.holders(split))
            || !has_free_slot(&self.workers, worker)
    }
}

// Whether one attempt alone runs the split.
fn runs_once(entry: &SplitEntry) -> bool
    ensures { result ≡ runs_once (shown_as entry.now) }
{
    match entry {
        SplitEntry::Pending => false,
        SplitEntry::Running(_, None) => true,
        SplitEntry::Running(_, Some(_)) => false,
        SplitEntry::Done(_, _) => false,
    }
}
