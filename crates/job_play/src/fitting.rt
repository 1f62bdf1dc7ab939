ghost use Rattle.std.specs.Prelude.{◌↔◌, ◌<◌, ◌≤◌, All, IsTrue, length};
ghost use Rattle.script_text.specs.Commands.{IsKnownIn};
ghost use Rattle.job_play.specs.Rooms.{IsScriptFor, setup_for};

use crate::rooms::MAX_COMMANDS;
use master_core::Cluster;
use node_ids::SplitNo;
use script_text::{Command, Script};

/// Whether the script is one for the cluster: it names its workers and splits, its commands know no others,
/// and they are not too many.
pub fn fits(cluster: &Cluster, script: &Script<'_>) -> bool
    ensures { IsTrue result ↔ IsScriptFor (setup_for cluster.now script.now) script.now }
{
    let workers = cluster.slots().len();
    let splits = cluster.splits().len();
    script.names.workers.len() == workers
        && script.names.splits.len() == splits
        && are_known(workers, splits, script.commands.as_slice())
        && script.commands.len() <= MAX_COMMANDS
}

fn are_known(workers: usize, splits: usize, commands: &[Command]) -> bool
    ensures { IsTrue result ↔ All (IsKnownIn workers splits) commands.now }
{
    commands
        .iter()
        .all(|command| is_known(workers, splits, command))
}

// Whether the command names workers and splits below these numbers, and gives no more counts or places than
// there may be.
fn is_known(workers: usize, splits: usize, command: &Command) -> bool
    ensures { IsTrue result ↔ IsKnownIn workers splits command.now }
{
    match command {
        Command::Backup(split, worker)
        | Command::Add(split, worker)
        | Command::Lose(split, worker) => { split.index() < splits && worker.index() < workers }
        Command::Die(worker) => worker.index() < workers,
        Command::Join(worker, set) => worker.index() < workers && are_below(splits, set.as_slice()),
        Command::Ahead(places) => are_places(places.as_slice()),
        Command::Sweep(counts) => counts.len() <= 32_768,
        _ => true,
    }
}

// Whether there may be so many workers, each with so many places.
fn are_places(places: &[u64]) -> bool
    ensures { IsTrue result ↔ ((length places.now ≤ 32768) × All (λ n. n ≤ 255) places.now) }
{
    places.len() <= 32_768 && places.iter().all(|count| *count <= 255)
}

fn are_below(splits: usize, set: &[SplitNo]) -> bool
    ensures { IsTrue result ↔ All (λ s. s < splits) set.now }
{
    set.iter().all(|split| split.index() < splits)
}
