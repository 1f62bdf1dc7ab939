ghost use Rattle.std.specs.Prelude.{◌≡◌, ◌<◌, ◌≤◌, ◌++◌, ◌∷◌, [], length, is_some, vec_capacity, vec_len};
ghost use Rattle.std.specs.Prelude.{IfSome};
ghost use Rattle.std.specs.List.{list_all, list_any, position_or_len};
ghost use Rattle.node_ids.specs.Updates.{updated};
ghost use Rattle.worker_table.specs.Workers.{free_slots, with_slot_taken};
ghost use Rattle.master_state.specs.declared.states.PartState.TheVariants as state;
ghost use Rattle.master_state.specs.declared.states.Work.TheVariants as works;
ghost use Rattle.master_state.specs.Tests.{part_is_done, part_is_pending};

use master_state::{Attempt, PartState, Start, Work};
use node_ids::PartNo;
use worker_table::WorkerTable;

/// Whether the part is pending.
pub fn part_is_pending(part: &PartState) -> bool
    ensures { result ≡ part_is_pending part.now }
{
    matches!(part, PartState::Pending)
}

/// Whether the part is done.
pub fn part_is_done(part: &PartState) -> bool
    ensures { result ≡ part_is_done part.now }
{
    matches!(part, PartState::Done)
}

/// Whether every part is done.
pub fn are_parts_done(parts: &Vec<PartState>) -> bool
    ensures { result ≡ list_all part_is_done parts.now.items }
{
    parts.iter().all(|part| part_is_done(part))
}

/// The lowest pending part.
pub fn first_pending(parts: &[PartState]) -> Option<PartNo>
    requires { length parts.now ≤ 64 }
    ensures found { is_some result ≡ list_any part_is_pending parts.now }
    ensures lowest { IfSome result (λ part. part ≡ position_or_len part_is_pending parts.now) }
{
    for (i, part) in parts.iter().enumerate() {
        if part_is_pending(part) {
            return Some(PartNo::new(i as u8));
        }
    }
    None
}

/// A part runs this attempt.
pub fn start_part(
    workers: &mut WorkerTable,
    parts: &mut Vec<PartState>,
    starts: &mut Vec<Start>,
    part: PartNo,
    attempt: Attempt,
)
    requires worker { attempt.worker < length workers.old.each }
    requires free { 0 < free_slots workers.old attempt.worker }
    requires part { part < length parts.old.items }
    requires room { vec_len starts.old < vec_capacity starts.old }
    ensures taken { workers.new ≡ with_slot_taken workers.old attempt.worker }
    ensures running { parts.new.items ≡ updated (λ _. state.Running attempt) parts.old.items part }
    ensures told { starts.new.items ≡ starts.old.items ++ record {
      work = works.Part part;
      worker = attempt.worker;
    } ∷ [] }
    ensures capacity { vec_capacity starts.new ≡ vec_capacity starts.old }
{
    let Attempt { number, worker } = attempt;
    workers.take_slot(worker);
    parts[part.index()] = PartState::Running(Attempt { number, worker });
    starts.push_reserved(Start {
        work: Work::Part(part),
        worker,
    });
}
