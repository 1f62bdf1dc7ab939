//! All that a master shows, as numbers that can be compared.
use master_core::Master;
use master_state::{Attempt, Event, PartState, SplitState};
use node_ids::{PartNo, SplitNo, WorkerNo};
use std::alloc::{AllocError, Global};
use wave_problem::Problem;

/// What a master shows, its events among it.
#[derive(Drop, Debug, PartialEq, Eq)]
pub struct Shown {
    numbers: Vec<usize>,
}

/// All that the master shows. Of its starts it is how many there are, which tells the next attempt.
pub fn seen(alloc: Global, master: &Master) -> Result<Shown, AllocError> {
    let numbers = numbers_of(alloc, master)?;
    Ok(Shown { numbers })
}

fn numbers_of(alloc: Global, master: &Master) -> Result<Vec<usize>, AllocError> {
    let mut numbers = Vec::new(alloc);
    add_events(master, &mut numbers)?;
    add_counts(master, &mut numbers)?;
    add_splits(master, &mut numbers)?;
    add_parts(master, &mut numbers)?;
    add_problem(alloc, master, &mut numbers)?;
    Ok(numbers)
}

fn add_events(master: &Master, numbers: &mut Vec<usize>) -> Result<(), AllocError> {
    let history = master.history();
    for index in 0..history.len() {
        add_event(&history.at(index), numbers)?;
    }
    Ok(())
}

// The number of the event's kind, and the numbers of the splits, workers and attempts that it names.
fn add_event(event: &Event<'_>, numbers: &mut Vec<usize>) -> Result<(), AllocError> {
    match event {
        Event::Wave { first, count, cost } => {
            numbers.extend_from_slice(&[1, first.index(), *count as usize, *cost as usize])
        }
        Event::Ahead { first, count, cost } => {
            numbers.extend_from_slice(&[14, first.index(), *count as usize, *cost as usize])
        }
        Event::MapDone(attempt) => numbers.extend_from_slice(&[2, attempt.index()]),
        Event::MapFailed(attempt) => numbers.extend_from_slice(&[3, attempt.index()]),
        Event::Withdraw(attempt) => numbers.extend_from_slice(&[4, attempt.index()]),
        Event::Die(worker) => numbers.extend_from_slice(&[5, worker.index()]),
        Event::Join(worker, splits) => add_join(*worker, splits.members(), numbers),
        Event::Add(split, worker) => {
            numbers.extend_from_slice(&[7, split.index(), worker.index()])
        }
        Event::Lose(split, worker) => {
            numbers.extend_from_slice(&[8, split.index(), worker.index()])
        }
        Event::Sweep(place) => numbers.extend_from_slice(&[9, *place as usize]),
        Event::ReduceStart(attempt, part, worker) => {
            numbers.extend_from_slice(&[10, attempt.index(), part.index(), worker.index()])
        }
        Event::PartDone(attempt) => numbers.extend_from_slice(&[11, attempt.index()]),
        Event::PartFailed(attempt) => numbers.extend_from_slice(&[12, attempt.index()]),
        Event::Backup(attempt, split, worker) => {
            numbers.extend_from_slice(&[13, attempt.index(), split.index(), worker.index()])
        }
    }
}

// A worker with the splits that it brings back, behind how many they are.
fn add_join(
    worker: WorkerNo,
    splits: &[SplitNo],
    numbers: &mut Vec<usize>,
) -> Result<(), AllocError> {
    numbers.extend_from_slice(&[6, worker.index(), splits.len()])?;
    for split in splits {
        numbers.push(split.index())?;
    }
    Ok(())
}

fn add_counts(master: &Master, numbers: &mut Vec<usize>) -> Result<(), AllocError> {
    numbers.extend_from_slice(&[
        master.history().len(),
        master.starts().len(),
        master.sweeps().len(),
        master.results().len(),
    ])
}

fn add_problem(alloc: Global, master: &Master, numbers: &mut Vec<usize>) -> Result<(), AllocError> {
    let problem = master.problem(alloc)?;
    add_workers(&problem, numbers)?;
    add_holders(&problem, numbers)?;
    add_bars(&problem, numbers)
}

fn add_attempt(attempt: Attempt, numbers: &mut Vec<usize>) -> Result<(), AllocError> {
    numbers.extend_from_slice(&[attempt.number.index(), attempt.worker.index()])
}

fn add_split(state: SplitState, numbers: &mut Vec<usize>) -> Result<(), AllocError> {
    match state {
        SplitState::Pending => {}
        SplitState::Running(attempt, other) => {
            add_attempt(attempt, numbers)?;
            if let Some(other) = other {
                add_attempt(other, numbers)?;
            }
        }
        SplitState::Done(attempt) => {
            numbers.push(2000)?;
            add_attempt(attempt, numbers)?;
        }
    }
    numbers.push(1000)?;
    Ok(())
}

fn add_splits(master: &Master, numbers: &mut Vec<usize>) -> Result<(), AllocError> {
    for number in 0..master.cluster().splits().len() {
        if number < 131_072 {
            add_split(master.state(SplitNo::new(number as u32)), numbers)?;
        }
    }
    Ok(())
}

fn add_part(state: PartState, numbers: &mut Vec<usize>) -> Result<(), AllocError> {
    match state {
        PartState::Pending => {}
        PartState::Running(attempt) => add_attempt(attempt, numbers)?,
        PartState::Done => numbers.push(2000)?,
    }
    numbers.push(1000)?;
    Ok(())
}

fn add_parts(master: &Master, numbers: &mut Vec<usize>) -> Result<(), AllocError> {
    for number in 0..master.cluster().parts() {
        if number < 64 {
            add_part(master.part_state(PartNo::new(number as u8)), numbers)?;
        }
    }
    Ok(())
}

fn add_workers(problem: &Problem, numbers: &mut Vec<usize>) -> Result<(), AllocError> {
    for number in 0..problem.workers() {
        let worker = WorkerNo::new(number as u16);
        numbers.push(usize::from(problem.is_live(worker)))?;
        numbers.push(usize::from(problem.free(worker)))?;
    }
    Ok(())
}

fn add_holders(problem: &Problem, numbers: &mut Vec<usize>) -> Result<(), AllocError> {
    for number in 0..problem.splits() {
        for holder in problem.holders(SplitNo::new(number as u32)) {
            numbers.push(holder.index())?;
        }
        numbers.push(1000)?;
    }
    Ok(())
}

// Which pairs of a split and a worker are barred.
fn add_bars(problem: &Problem, numbers: &mut Vec<usize>) -> Result<(), AllocError> {
    for number in 0..problem.splits() {
        for worker in 0..problem.workers() {
            let (split, worker) = (SplitNo::new(number as u32), WorkerNo::new(worker as u16));
            numbers.push(usize::from(problem.is_barred(split, worker)))?;
        }
    }
    Ok(())
}
